// Clocks and gates of these tests.
use lnsd_life::{Gate, LifeClock};
use session_core::Moment;
use std::sync::Wait;
use std::sync::atomic::Ordering::SeqCst;
use std::sync::atomic::{AtomicBool, AtomicU64};
use std::thread;
use std::thread::Parker;

// How often a thread checks again before it gives up.
const TURNS: u32 = 1_000_000;

/// A clock that stands still, so that only the last tick closes windows.
#[derive(Clone, Copy)]
pub struct StandingClock;

impl LifeClock for StandingClock {
    fn now(&self) -> Moment {
        Moment::new(0).unwrap()
    }

    fn wait<R: Wait>(&self, rt: &R, bell: &Parker, _until: Moment) {
        bell.park(rt);
    }
}

/// The call to which each of two workers has come, and whether a sync is held.
#[derive(Drop)]
pub struct Marks {
    first: AtomicU64,
    second: AtomicU64,
    held: AtomicBool,
    late: AtomicBool,
}

impl Marks {
    pub fn new() -> Self {
        Marks {
            first: AtomicU64::new(0),
            second: AtomicU64::new(0),
            held: AtomicBool::new(false),
            late: AtomicBool::new(false),
        }
    }

    fn reach(&self, worker: usize, call: u64) {
        match worker {
            1 => self.first.store(call, SeqCst),
            _ => self.second.store(call, SeqCst),
        }
    }

    /// Holds a sync until both workers have come to their third calls. Returns whether they came in
    /// time.
    pub fn hold_sync(&self) -> bool {
        self.held.store(true, SeqCst);
        wait(|| self.first.load(SeqCst) >= 3 && self.second.load(SeqCst) >= 3)
    }

    fn fail(&self) {
        self.late.store(true, SeqCst);
    }

    /// Whether a worker was released because its turns had run out.
    pub fn is_late(&self) -> bool {
        self.late.load(SeqCst)
    }
}

// Waits for a condition. Returns whether it became true in time.
fn wait<F: Fn() -> bool>(is_so: F) -> bool
    requires { F.IsAlwaysCallable is_so }
{
    for _ in 0..TURNS {
        if is_so() {
            return true;
        }
        thread::yield_now();
    }
    false
}

/// Holds two workers before their second calls until a sync is held.
#[derive(Drop)]
pub struct HoldBoth<'x> {
    pub marks: &'x Marks,
}

impl<'x> Gate for HoldBoth<'x> {
    fn pass(&self, worker: usize, call: u64) {
        self.marks.reach(worker, call);
        if call == 2 && !wait(|| self.marks.held.load(SeqCst)) {
            self.marks.fail();
        }
    }
}

/// Holds the second worker before its first call until the first worker has come to its second
/// call. Holds the first worker there until the second one has come to its third call.
#[derive(Drop)]
pub struct HoldFirst<'x> {
    pub marks: &'x Marks,
}

impl<'x> Gate for HoldFirst<'x> {
    fn pass(&self, worker: usize, call: u64) {
        self.marks.reach(worker, call);
        let in_time = match (worker, call) {
            (2, 1) => wait(|| self.marks.first.load(SeqCst) >= 2),
            (1, 2) => wait(|| self.marks.second.load(SeqCst) >= 3),
            _ => true,
        };
        if !in_time {
            self.marks.fail();
        }
    }
}
