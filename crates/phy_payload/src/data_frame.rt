// Data frames (TS001-1.0.4 §4.3).
use crate::contents::Contents;
use crate::control::Control;
use crate::phy::Mic;
use lw_types::DevAddr;

/// A frame of a session.
#[derive(PartialEq, Eq, Drop)]
pub struct DataFrame {
    /// Whether the receiver has to acknowledge it.
    pub confirmed: bool,
    pub dev_addr: DevAddr,
    pub control: Control,
    /// The low 16 bits of the frame counter.
    pub f_cnt: u16,
    pub contents: Contents,
    pub mic: Mic,
}
