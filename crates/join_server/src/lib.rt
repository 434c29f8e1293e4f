//! The join server of a network: it grants a device a session or refuses it (TS001-1.0.4 §6.2). No
//! call takes memory.
#![tactic(auto)]

mod ask;
mod grant;
pub mod laws;
mod request;
mod server;
mod state;

pub use ask::JoinAsk;
pub use grant::{JoinGrant, SealedAccept};
pub use lw_types::RxDelay;
pub use request::JoinRequestBytes;
pub use server::answer;
pub use state::JoinState;
