//! The frames of LoRaWAN 1.0.4 and their bytes, the PHYPayload (TS001-1.0.4 §4). Each frame has
//! exactly one spelling, and no two frames share one.
#![tactic(auto)]

mod contents;
mod control;
mod data_frame;
mod frame_ref;
mod join;
pub mod laws;
mod mhdr;
mod phy;
mod read;
mod write;

pub use contents::{Contents, FOpts, FrmPayload, PortPayload};
pub use control::Control;
pub use data_frame::DataFrame;
pub use frame_ref::{DataFrameRef, PhyRef, PortPayloadRef};
pub use join::{JoinAccept, JoinRequest};
pub use phy::{Mic, Phy};
pub use read::{decode, read_phy};
pub use write::{encode, encode_mic_input};
