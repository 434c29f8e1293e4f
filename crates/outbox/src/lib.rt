//! The ring between the flusher and the sender of a link. What is put into it may leave. It comes
//! out in order, once.
#![tactic(auto)]

mod ends;

pub use ends::{Ended, Inlet, Outlet, ring};
