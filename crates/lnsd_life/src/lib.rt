//! The server's threads over sockets. Each gateway and each application has a link, with a worker
//! that reads it and a sender that writes it. One closer closes the windows that are due. One
//! flusher commits what was decided and routes the released effects to the links. [`serve_links`]
//! is one life of them.
#![tactic(auto)]

mod flushing;
mod parts;
mod report;
mod running;
mod serving;

pub use lnsd_links::{LinkCount, NameList, NameListFault, NameSource, PlaceCount};
pub use lnsd_operator::{Order, ServeFault};
pub use lnsd_threads::{
    BUSY, Gate, LifeClock, Monotonic, NO_NAMES, NobodyTold, OnBegun, OpenGate, RELOADED, WATCHING,
};
pub use report::{LifeReport, ServedLife};
pub use serving::{serve_links, serve_on};
