//! Scripts: their lines are steps, which are taken on a world with a new store on a disk in memory.
//! The answers are lines again.
#![tactic(auto)]

mod answers;
mod lines;
mod outcome;
mod plan;
mod playing;
mod step_line;

pub use answers::write_answer;
pub use outcome::{ScriptResult, write_outcome};
use plan::Plan;
pub use plan::PlanRow;
pub use playing::script;
pub use step_line::read_step;
use step_line::{Format, read_format};
