//! A log of batches after a checkpoint, on a disk with two areas of which one is live. Each batch
//! and each checkpoint has a gate in front: one byte, which is opened only after everything that
//! follows it is on the disk. Each image that a crash may leave holds the checkpoint with the first
//! n of the batches that were begun after it, for some n, every durable one among them; or the next
//! checkpoint.
#![tactic(auto)]

mod batch;
mod checkpoint;
mod error;
mod format;
pub mod laws;
mod layout;
mod live;
mod log;
mod opening;
mod pairing;
mod phases;
mod reading;
mod recover;

pub use batch::Batch;
pub use checkpoint::{Checkpoint, CheckpointOpened, CheckpointSynced, CheckpointWritten, Retiring};
pub use error::RecoverError;
pub use format::{close_area, format_area};
pub use layout::{
    Area, Areas, BatchHead, CLOSED, EMPTY_AREA_LEN, ENTRIES_AT, Header, OPEN, RECORDS_AT,
};
pub use live::Live;
pub use log::Log;
pub use opening::Opening;
pub use pairing::Paired;
pub use phases::{Begun, BodySynced, Durable, GateWritten, Written};
pub use recover::Recovered;
