// The place where an uplink arrives, and how it was received.
use crate::Uplink;
use devices::{Copies, Hearing, Hearings};
use lw_types::NetId;

/// A slot of a network.
#[derive(Clone, Copy)]
pub struct NetworkSlot {
    pub net_id: NetId,
    pub slot: u16,
}

/// An uplink as it was received: `mic_input` is all of its frame except the MIC.
#[derive(Clone, Copy)]
pub struct ReceivedUplink<'a> {
    pub uplink: &'a Uplink<'a>,
    pub mic_input: &'a [u8],
    pub hearings: &'a Hearings,
}

/// An uplink, and how it was heard.
#[derive(Clone, Copy)]
pub(crate) struct HeardUplink<'a> {
    pub uplink: &'a Uplink<'a>,
    /// The number of gateways that heard it.
    pub copies: Copies,
    /// The copy that was heard best.
    pub best: Hearing,
}
