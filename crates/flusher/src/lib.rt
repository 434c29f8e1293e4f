//! What leaves the network, and when. An effect is seen outside only as a [`Released`], which is
//! made only of a durable batch. [`chain`] takes batches, commits them and releases their effects,
//! one after another; [`cycle`] does so with one batch.
#![tactic(auto)]

mod chaining;
mod checkpointing;
mod cycles;
mod drawn;
mod durable;
mod feed;
pub mod laws;
mod released;
mod room;
mod serving;

pub use chaining::{ChainLength, chain};
pub use cycles::cycle;
pub use drawn::Drawn;
pub use durable::Durable;
pub use feed::{Feed, StoredBatches};
pub use released::Released;
pub use room::{MOST_EFFECTS, Room};
pub use serving::serve;
pub use sessions::Most;
