// What a world can be asked to do.
use crate::Event;
use disk::Image;
use session_core::{Moment, Most};

/// One step of a world. Crashes happen between two steps: no step makes more than one device call,
/// except a crash itself, which opens the store.
#[derive(PartialEq, Eq, Drop)]
pub enum Step {
    /// This event arrives at this moment.
    Event {
        moment: Moment,
        event: Event,
    },
    /// The next bytes on the link of this number arrive at this moment, in pieces of any length.
    Piece {
        link: u64,
        moment: Moment,
        bytes: Vec<u8>,
    },
    /// The flusher takes the oldest decisions, at most this number, and begins their commit.
    Take(Most),
    /// The flusher takes the oldest decisions, at most this number, and begins their commit after
    /// the batch under way. The gate of that one is written and not synced, so the two share a
    /// sync.
    Next(Most),
    /// The flusher begins a checkpoint, which makes room in the journal.
    Checkpoint,
    /// One device call of what is under way.
    Call,
    /// The next device call is to fail.
    Fail,
    /// The effects of the oldest durable batch are released.
    Release,
    /// The oldest released effect leaves.
    Emit,
    /// Reads the table as it is now.
    List,
    /// The disk crashes to this image, and the store is opened again.
    Crash(Image),
}
