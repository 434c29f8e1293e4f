// The answer of a call of the core.
use lw_types::{Ranged, Refusal};

/// The last moment, 2^63 - 1 milliseconds.
pub const LAST_MOMENT: u64 = (1 << 63) - 1;

/// A moment in milliseconds, below 2^63.
pub type Moment = Ranged<0, LAST_MOMENT>;

/// The call made the decisions `from + 1` to `to` of this life. `refused` says why the event's own
/// command wasn't decided, if it wasn't.
#[derive(Clone, Copy, PartialEq, Eq)]
pub struct Turn {
    pub from: u64,
    pub to: u64,
    pub refused: Option<Refusal>,
}
