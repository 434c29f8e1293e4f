//! Uplinks: what a data frame of a class A device does to its record, and what is sent and reported
//! because of it (TS001-1.0.4 §4.3, §5).
#![tactic(auto)]

mod accepted;
mod arrival;
mod fit;
pub mod laws;
mod step;
mod uplink;

pub use arrival::{NetworkSlot, ReceivedUplink};
pub use fit::Fit;
pub use step::receive_uplink;
pub use uplink::Uplink;
