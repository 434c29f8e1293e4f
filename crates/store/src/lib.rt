//! The durable state of a network: a table of devices and the number of its last decision. A disk
//! keeps it as a checkpoint and the batches of decisions after it.
//!
//! Each image that a crash may leave holds the table that the first n committed decisions leave,
//! for some n at which a batch ended.
#![tactic(auto)]

mod area_table;
mod areas;
mod begin;
mod checkpointing;
mod commit;
mod establishing;
mod formatting;
mod found;
pub mod laws;
mod migrating;
mod opening;
mod pairing;
mod phases;
mod preparing;
mod publishing;
mod recover;
mod replacing;
mod store;
mod under_way;

pub use areas::{LAST_GENERATION, LAST_OLD_GENERATION, RECORD_VERSION};
pub use checkpointing::{
    Checkpoint, CheckpointOpened, CheckpointSynced, CheckpointWritten, Retiring,
};
pub use establishing::establish_back;
pub use formatting::{disk_len, format, format_back};
pub use opening::{open, open_back};
pub use pairing::Paired;
pub use phases::{Begun, BodySynced, Durable, GateWritten, Written};
pub use publishing::Publishing;
pub use store::{LARGEST_BATCH, Store};
pub use under_way::{Called, UnderWay};
