// The frames of a join (TS001-1.0.4 §6.2).
use crate::phy::Mic;
use lw_types::Eui;

/// A device asks to join (TS001-1.0.4 §6.2.5).
#[derive(Clone, Copy, PartialEq, Eq)]
pub struct JoinRequest {
    pub join_eui: Eui,
    pub dev_eui: Eui,
    pub dev_nonce: u16,
    pub mic: Mic,
}

/// The network's answer to a Join-Request (TS001-1.0.4 §6.2.6). All but its first byte is sealed
/// under the AppKey, and stored sealed.
#[derive(Clone, Copy, PartialEq, Eq)]
pub enum JoinAccept {
    /// The fields and their MIC.
    Short { sealed: [u8; 16] },
    /// The fields, a CFList, and their MIC.
    WithCfList { sealed: [u8; 32] },
}
