//! The threads of a life. Workers read links and hand in what is sent on them, a closer closes the
//! windows that are due, and attendants answer operators. `lnsd_life` starts them and has the
//! flusher; this crate is public only for it.
#![tactic(auto)]

mod attending;
mod closing;
mod context;
mod gate;
mod hosting;
mod lasting;
mod moments;
mod observing;
mod reading;
mod sending;
mod server;
mod status;
mod threads;

pub use attending::{Attendant, BUSY, NO_NAMES, RELOADED, WATCHING};
pub use closing::Closer;
pub use context::Context;
pub use gate::{Gate, NobodyTold, OnBegun, OpenGate};
pub use moments::{LifeClock, Monotonic, moment_of, moved_on};
pub use reading::Worker;
pub use server::LiveServer;
pub use threads::start;
