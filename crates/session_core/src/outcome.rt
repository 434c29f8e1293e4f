// The outcome of a command.
use lw_types::Refusal;

/// The number of outcomes that are kept: those of the last commands.
pub const MOST_OUTCOMES: usize = 64;

/// The outcome of a command that was handed in to be decided.
#[derive(Clone, Copy, PartialEq, Eq)]
pub enum Outcome {
    /// It was decided, under this sequence number.
    Decided(u64),
    /// It was refused.
    Refused(Refusal),
}
