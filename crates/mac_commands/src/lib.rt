//! MAC commands as bytes (TS001-1.0.4 §5): reading them from an uplink or a downlink, writing them
//! for a downlink, and choosing from a queue those that fit a downlink's FOpts.
#![tactic(auto)]

mod cid;
mod command;
mod decode;
mod encode;
mod fit;
mod front;
pub mod laws;
mod queueable;
mod uplink;

pub use cid::Cid;
pub use command::{CommandPayload, Decoded, LONGEST_COMMAND_PAYLOAD, MacCommand};
pub use decode::{decode_down, decode_up};
pub use encode::encode_down;
pub use fit::fit15;
pub use queueable::are_queueable;
pub use uplink::{asks_link_check, read_reported};
