//! Downlinks: what the network sends to a class A device in the receive windows of an uplink
//! (TS001-1.0.4 §3.3, §4.3).
#![tactic(auto)]

mod frame;
mod load;
mod reply;

pub use load::Demand;
pub use reply::{SessionAt, acknowledge, answer};
