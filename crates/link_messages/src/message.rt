// The messages on the links of a network.
use crate::line::Line;
use devices::Application;
use lw_types::{Eui, FrameCopy};

/// The peer at the other end of a link.
#[derive(Clone, Copy, PartialEq, Eq)]
pub enum Peer {
    Gateway(Eui),
    Application(Application),
}

/// A message from a gateway or an application on its link.
#[derive(PartialEq, Eq, Drop)]
pub enum Message {
    /// Which peer it is: the first message of each link, and no later one.
    Greeting(Peer),
    /// A gateway's copy of a frame.
    Copy(FrameCopy),
    /// A request of an application, in ASCII and without a newline.
    Line(Line),
}

// The first byte of each content.
pub(crate) const GATEWAY_GREETING: u8 = 0x00;

pub(crate) const UPLINK_COPY: u8 = 0x01;

pub(crate) const APPLICATION_GREETING: u8 = 0x02;

pub(crate) const REQUEST: u8 = 0x03;

/// The most bytes of content of a frame.
pub(crate) const LONGEST_CONTENT: usize = 700;
