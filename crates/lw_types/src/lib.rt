//! The plain values of a LoRaWAN network: names, keys, refusals, and the spelling of texts.
#![tactic(auto)]

mod bytes;
mod decimal;
mod direction;
mod frame_copy;
mod hex_text;
mod identifiers;
mod key;
pub mod laws;
mod payload;
mod refusal;
mod text;
mod words;

pub use bytes::Bytes;
pub use direction::Direction;
pub use frame_copy::{FrameCopy, Reception};
pub use hex_text::{ByteField, HexArray, read_field, read_hex, write_hex};
pub use identifiers::{DevAddr, Eui, JoinNonce, NetId};
pub use key::Key;
pub use payload::{LONGEST_FRAME, LONGEST_PAYLOAD, Payload, PhyPayload};
pub use ranged::Ranged;
pub use refusal::Refusal;
pub use text::FromText;
pub use words::Words;

/// RxDelay: the delay of RX1 after an uplink, from 1 to 15 s (TS001-1.0.4 §6.2.6).
pub type RxDelay = Ranged<1, 15>;
