//! The core: what decides in one life. It has the windows in which the copies of a frame are
//! gathered, and the decisions that were made and not yet taken. It also has the table that they
//! leave, and the outcomes of the last commands. [`Shared`] is a core that threads share;
//! [`Sessions`] has its calls, each under its lock.
#![tactic(auto)]

mod books;
mod closing;
mod decisions;
mod event;
mod events;
mod history;
pub mod laws;
mod locked;
mod observed;
mod outcome;
mod seat;
mod shared;
mod turn;

pub use books::{Books, Made, Taken};
pub use decisions::{LAST_NUMBER, MOST_UNTAKEN};
pub use event::{CallKind, Event};
pub use events::Core;
pub use history::{BlankHistory, History};
pub use locked::{Handled, Sessions};
pub use observed::{ClosedFrame, DecidedFrame};
pub use outcome::{MOST_OUTCOMES, Outcome};
pub use seat::{LastCall, Seat, Taker};
pub use sessions::Most;
pub use shared::Shared;
pub use turn::{LAST_MOMENT, Moment, Turn};
