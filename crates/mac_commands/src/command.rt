// MAC commands as values.
use crate::cid::Cid;
use lw_types::Bytes;

/// The most bytes of a MAC command after its identifier.
pub const LONGEST_COMMAND_PAYLOAD: usize = 5;

/// The payload of a MAC command, of at most 5 bytes.
pub type CommandPayload = Bytes<LONGEST_COMMAND_PAYLOAD>;

/// A MAC command: its identifier and its payload. The bits of the payload aren't interpreted.
#[derive(PartialEq, Eq, Drop)]
pub struct MacCommand {
    pub cid: Cid,
    pub payload: CommandPayload,
}

/// The MAC commands at the front of some bytes.
#[derive(PartialEq, Eq, Drop)]
pub struct Decoded {
    /// The commands, in order.
    pub commands: Vec<MacCommand>,
    /// Where reading stopped: the length of the commands in bytes.
    pub stop: usize,
}
