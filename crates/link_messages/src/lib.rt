//! What gateways and applications send on their links: the messages in a link's bytes, which come
//! in pieces of any length.
#![tactic(auto)]

mod feeder;
pub mod laws;
mod line;
mod message;
mod read_message;

pub use feeder::{Fed, Feeder};
pub use line::Line;
pub use message::{Message, Peer};
