//! What a flusher does over all the lives of its store, including crashes. No mark leaves twice,
//! whatever the input is ([`flush_over_lives`]). If the input is what a core decides, what is
//! decided is kept ([`decide_over_lives`]). No program calls these functions: they are theorems
//! about [`flusher::chain`], by which the server commits.
#![tactic(auto)]

mod core_feed;
mod core_lives;
mod over_lives;

pub use core_feed::{Coming, CoreFeed, chain_of_core};
pub use core_lives::{CoreLife, decide_over_lives};
pub use over_lives::{CallNumber, FlusherLife, flush_new_store, flush_over_lives};
