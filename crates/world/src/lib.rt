//! A store, the core that decides on its table, and the effects that have left. The text lines in
//! which this is printed are in another crate.
#![tactic(auto)]

mod answer;
mod commit;
mod condition;
pub mod laws;
mod life;
mod links;
mod runs;
mod step;
mod turns;
mod world;

pub use answer::{Answer, EventTurn};
pub use links::events_of;
pub use runs::run;
pub use session_core::Event;
pub use step::Step;
pub use world::World;
