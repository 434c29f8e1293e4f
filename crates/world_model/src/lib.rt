//! A simple model of worlds, whose contract is the definition, and scripts of letters for it. Only
//! tests use it.
#![tactic(auto)]

mod answers;
mod flight;
mod gathering;
pub mod letters;
mod model;
pub mod steps;
mod streams;
pub mod worlds;
