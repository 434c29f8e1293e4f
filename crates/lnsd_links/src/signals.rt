// The signals between the threads of a life. A thread that waits checks first, finds nothing, and
// parks. A thread that rings changes something first, and then rings. So no change is missed.
ghost use Rattle.std.specs.Prelude.{◌≡◌};

use lnsd_operator::Counts;
use std::sync::Wait;
use std::sync::atomic::Ordering::SeqCst;
use std::sync::atomic::{AtomicBool, AtomicU64};
use std::thread::Parker;

#[derive(Drop)]
pub struct Signals {
    // The number of workers at the beginning.
    workers: u64,
    // The number of workers that may still hand something in.
    open_inputs: AtomicU64,
    pub counts: Counts,
    // The number of links in their places.
    linked: AtomicU64,
    // The number of these that haven't greeted.
    strangers: AtomicU64,
    // How far the life has come, by the stage's number.
    stage: AtomicU64,
    // The store is at fault, and the links are closed.
    stopped: AtomicBool,
    // The closer waits for a window to open.
    closer_idle: AtomicBool,
    // Frames were decided for which the flusher hasn't been rung.
    frames_decided: AtomicBool,
    // Wakes the flusher: something was decided, or the last tick was made.
    decided: Parker,
    // Wakes the closer: a window is open, or all inputs have ended, or the life is stopped.
    pub opened: Parker,
}

/// How far a life has come. It never goes back.
#[derive(Clone, Copy)]
pub enum LifeStage {
    /// Links are served.
    Serving,
    /// The life ends after what has come is decided and sent.
    Ending,
    /// The last tick was made: nothing is decided any more.
    Ticked,
    /// Everything is done, and operators are no longer served.
    Closed,
}

impl LifeStage {
    fn number(self) -> u64 {
        match self {
            LifeStage::Serving => 0,
            LifeStage::Ending => 1,
            LifeStage::Ticked => 2,
            LifeStage::Closed => 3,
        }
    }
}

/// Shows that the life was asked to end or is stopped. Only [`Signals::ending`] makes it.
#[derive(Clone, Copy)]
pub struct Ending(());

impl Signals {
    /// The signals of a life with this number of workers.
    pub fn new(workers: u64) -> Self
        ensures { result.workers ≡ workers }
    {
        Signals {
            workers,
            open_inputs: AtomicU64::new(workers),
            counts: Counts::new(),
            linked: AtomicU64::new(0),
            strangers: AtomicU64::new(0),
            stage: AtomicU64::new(LifeStage::Serving.number()),
            stopped: AtomicBool::new(false),
            closer_idle: AtomicBool::new(false),
            frames_decided: AtomicBool::new(false),
            decided: Parker::new(),
            opened: Parker::new(),
        }
    }

    /// Counts a link that came into a place.
    pub fn count_linked(&self) {
        self.linked.fetch_add(1, SeqCst);
    }

    /// Counts a link that left its place.
    pub fn count_unlinked(&self) {
        self.linked.fetch_sub(1, SeqCst);
    }

    pub fn linked(&self) -> u64 {
        self.linked.load(SeqCst)
    }

    /// Counts a link that hasn't greeted.
    pub fn count_stranger(&self) {
        self.strangers.fetch_add(1, SeqCst);
    }

    /// Counts a link that has greeted, or isn't asked to any more.
    pub fn count_known(&self) {
        self.strangers.fetch_sub(1, SeqCst);
    }

    /// The number of links that haven't greeted, if all places are taken.
    pub fn crowd(&self) -> Option<u64> {
        if self.linked() < self.workers {
            return None;
        }
        Some(self.strangers.load(SeqCst))
    }

    /// Says that the life has come as far as this stage, at least.
    pub fn reach(&self, stage: LifeStage) {
        self.stage.fetch_max(stage.number(), SeqCst);
    }

    /// Whether the life has come as far as this stage.
    pub fn has_reached(&self, stage: LifeStage) -> bool {
        self.stage.load(SeqCst) >= stage.number()
    }

    /// Says that one more worker hands nothing in any more.
    pub fn end_input(&self) {
        if self.open_inputs.fetch_sub(1, SeqCst) == 1 {
            self.opened.unpark();
        }
    }

    /// Whether the life ends, or is stopped.
    pub fn is_ending(&self) -> bool {
        self.has_reached(LifeStage::Ending) || self.is_stopped()
    }

    /// Returns an `Ending` if the life ends.
    pub fn ending(&self) -> Option<Ending> {
        if self.is_ending() {
            Some(Ending(()))
        } else {
            None
        }
    }

    /// Whether no link hands in anything more, or the life is stopped.
    pub fn is_over(&self) -> bool {
        self.is_stopped() || self.open_inputs.load(SeqCst) == 0
    }

    pub fn stop(&self) {
        self.stopped.store(true, SeqCst);
        self.opened.unpark();
    }

    pub fn is_stopped(&self) -> bool {
        self.stopped.load(SeqCst)
    }

    /// Wakes the flusher, since an application's request was decided.
    pub fn ring_flusher(&self) {
        self.decided.unpark();
    }

    /// Says that frames were decided. The closer wakes the flusher for them at its next turn.
    pub fn tell_frames(&self) {
        self.frames_decided.store(true, SeqCst);
    }

    /// Whether frames were decided for which the flusher hasn't been rung.
    pub fn has_frames(&self) -> bool {
        self.frames_decided.load(SeqCst)
    }

    /// Wakes the flusher if frames were decided since the last call.
    pub fn ring_for_frames(&self) {
        if self.frames_decided.swap(false, SeqCst) {
            self.decided.unpark();
        }
    }

    /// Waits until something was decided.
    pub fn wait_for_decisions<R: Wait>(&self, rt: &R) {
        self.decided.park(rt);
    }

    /// Says that nothing is decided any more, and wakes the flusher.
    pub fn tell_ticked(&self) {
        self.reach(LifeStage::Ticked);
        self.decided.unpark();
    }

    /// Says that the closer is about to look for a window, and waits if it finds none.
    pub fn set_idle(&self) {
        self.closer_idle.store(true, SeqCst);
    }

    pub fn clear_idle(&self) {
        self.closer_idle.store(false, SeqCst);
    }

    /// Says that a window may have opened. This wakes the closer only if it waits for a window, so
    /// not for each frame.
    pub fn tell_opened(&self) {
        if self.closer_idle.swap(false, SeqCst) {
            self.opened.unpark();
        }
    }
}
