//! The words of `lnsd`: what they ask for, and the text that is printed if they ask for nothing.
#![tactic(auto)]

mod asked;
mod line;
mod mode;
mod read;

pub use mode::{Edit, Mode, Usage};
pub use read::words;
