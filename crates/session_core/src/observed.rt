// What observers are given of the frames whose windows an event closes. No decision depends on it.
ghost use Rattle.std.specs.Prelude.{◌≡◌};
ghost use Rattle.session_core.specs.Observing.{KeepsFrame, nothing_seen};

use dedup::MOST_WINDOWS;
use devices::{Heard, Hearing};
use lw_types::Refusal;
use std::alloc::Global;
use std::marker::Model;

/// A frame whose window was closed.
#[derive(Drop)]
pub enum ClosedFrame {
    /// It was decided. The frame itself and its copies moved into the decision.
    Decided(DecidedFrame),
    /// It was refused: the frame with all its copies, and why.
    Refused { heard: Heard, refusal: Refusal },
}

/// A frame that was decided.
#[derive(Clone, Copy, PartialEq, Eq)]
pub struct DecidedFrame {
    /// The slot of the device that sent it.
    pub slot: u16,
    /// The copy that was heard best.
    pub best: Hearing,
    /// Whether it is a Join-Request. Otherwise it is an uplink.
    pub is_join_request: bool,
}

/// The frames whose windows one event closes, if somebody observes. In contracts it is whether
/// somebody does, the frames, and whether one is missing, since memory ran out for it.
pub(crate) struct Observed {
    is_kept: bool,
    frames: Vec<ClosedFrame>,
    lacks: bool,
}

impl Model for Observed {
    ghost use Rattle.session_core.specs.Observing.{ObservedState};

    ghost Value = { ObservedState };

    ghost view = { λ s. record { is_kept = s.is_kept; frames = s.frames.items; lacks = s.lacks } };
}

// By hand, so that it is proved once: a derived drop is proved again at each use of the type.
impl Drop for Observed {
    fn drop(self) {
        let Self {
            is_kept: _,
            frames: _,
            lacks: _,
        } = self;
    }
}

impl Observed {
    /// Before an event: nothing. Takes no memory.
    pub(crate) fn new(alloc: Global, is_kept: bool) -> Self
        ensures { result ≡ nothing_seen is_kept }
    {
        Observed {
            is_kept,
            frames: Vec::new(alloc),
            lacks: false,
        }
    }

    /// A window was closed. Its frame is kept if somebody observes and fewer frames are kept than
    /// there can be windows. If memory runs out for it, it is missing.
    pub(crate) fn add(&mut self, frame: ClosedFrame)
        ensures { KeepsFrame self.old frame self.new }
    {
        if self.is_kept && self.frames.len() < MOST_WINDOWS && self.frames.push(frame).is_err() {
            self.lacks = true;
        }
    }

    /// The frames, the oldest first, and whether one is missing.
    pub(crate) fn into_frames(self) -> (Vec<ClosedFrame>, bool)
        ensures frames { result.0.items ≡ self.frames }
        ensures lacks { result.1 ≡ self.lacks }
    {
        let Self {
            is_kept: _,
            frames,
            lacks,
        } = self;
        (frames, lacks)
    }
}
