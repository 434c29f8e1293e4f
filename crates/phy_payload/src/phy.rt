// Frames of each kind.
use crate::data_frame::DataFrame;
use crate::join::{JoinAccept, JoinRequest};

/// A message integrity code (TS001-1.0.4 §4.4, §6.2.5).
#[derive(Clone, Copy, PartialEq, Eq)]
pub struct Mic(pub [u8; 4]);

/// A frame (TS001-1.0.4 §4.2.1).
#[derive(PartialEq, Eq, Drop)]
pub enum Phy {
    JoinRequest(JoinRequest),
    JoinAccept(JoinAccept),
    DataFrame(DataFrame),
}
