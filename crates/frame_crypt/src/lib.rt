//! The cryptography of LoRaWAN 1.0.4's frames: payloads, MICs, join accepts and session keys. No
//! call takes memory.
#![tactic(auto)]

mod data;
mod join;
pub mod laws;
mod mac;

pub use data::{crypt_payload, data_mic};
pub use join::{derive_keys, join_mic, seal_accept};
