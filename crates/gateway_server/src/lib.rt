//! The commands of `lnsd`, which make, list and serve a store in a file. The crates below do the
//! work; this one adds files, addresses, the clock and the texts that a user reads.
#![tactic(auto)]

mod causes;
mod commands;
mod control;
mod descriptors;
mod edits;
mod fault;
mod names_file;
mod running;
mod serving;
mod stores;

pub use causes::ListenCause;
pub use command_words::{Edit, Mode, Usage, words};
pub use commands::{Commands, ServerCommands};
pub use fault::Fault;
pub use lnsd_life::{
    Gate, LifeClock, LifeReport, LinkCount, Monotonic, NobodyTold, OnBegun, OpenGate, Order,
    PlaceCount, ServeFault, ServedLife, serve_links, serve_on,
};
pub use running::{command, fail};
pub use serving::FinishedLife;
pub use store_files::FileCause;
