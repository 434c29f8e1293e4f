//! The table of a network's devices, and decisions: commands that were carried out on one device
//! each.
//!
//! A [`Decision`] can only be made by a step of its own record: its type guarantees that `after`
//! and `effects` are what the command does to `before`.
#![tactic(auto)]

mod batch;
mod decision;
mod heard_step;
mod join;
pub mod laws;
mod placed;
mod placed_batch;
mod served;
mod table;

pub use batch::{Batch, Most};
pub use decision::Decision;
pub use heard_step::HeardStep;
pub use placed::Placed;
pub use placed_batch::PlacedBatch;
pub use table::{MOST_SLOTS, Question, Slots, Table};
