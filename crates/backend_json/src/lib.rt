//! The texts between a network and its join server: compact JSON, a profile modelled on LoRaWAN
//! Backend Interfaces 1.0.
#![tactic(auto)]

mod answer;
mod join_ans;
mod join_req;
mod json;
pub mod laws;
mod members;
mod read_ans;
mod write_ans;

pub use answer::answer_text;
pub use join_ans::{Accepted, Cause, JoinAns};
pub use join_req::{join_req_text, read_join_req};
pub use read_ans::read_join_ans;
pub use write_ans::join_ans_text;
