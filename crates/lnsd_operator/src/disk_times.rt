// What is known of a disk's calls.
use std::sync::atomic::AtomicU64;
use std::sync::atomic::Ordering::SeqCst;
use std::time::Duration;

// A sync of at least this many milliseconds counts as slow.
const SLOW: u64 = 100;

/// How long the syncs of a disk took, and how many checkpoints were written. No clause says which
/// numbers it returns, since another thread may make calls at any moment.
#[derive(Drop)]
pub struct DiskTimes {
    syncs: AtomicU64,
    // In microseconds.
    longest_sync: AtomicU64,
    checkpoints: AtomicU64,
    // What wasn't taken yet: the longest slow sync, in milliseconds, and the checkpoints.
    slow_sync: AtomicU64,
    new_checkpoints: AtomicU64,
}

impl DiskTimes {
    /// Times of a disk on which no call was made yet.
    pub fn new() -> Self {
        DiskTimes {
            syncs: AtomicU64::new(0),
            longest_sync: AtomicU64::new(0),
            checkpoints: AtomicU64::new(0),
            slow_sync: AtomicU64::new(0),
            new_checkpoints: AtomicU64::new(0),
        }
    }

    /// The number of syncs so far, including those that failed.
    pub fn syncs(&self) -> u64 {
        self.syncs.load(SeqCst)
    }

    /// The time of the longest sync, in microseconds.
    pub fn longest_sync(&self) -> u64 {
        self.longest_sync.load(SeqCst)
    }

    /// The number of checkpoints so far.
    pub fn checkpoints(&self) -> u64 {
        self.checkpoints.load(SeqCst)
    }

    /// The longest sync since the last call of this function, in milliseconds, if it was slow: 100
    /// ms or more.
    pub fn take_slow_sync(&self) -> Option<u64> {
        let slow = self.slow_sync.swap(0, SeqCst);
        if slow > 0 { Some(slow) } else { None }
    }

    /// The number of checkpoints written since the last call of this function.
    pub fn take_checkpoints(&self) -> u64 {
        self.new_checkpoints.swap(0, SeqCst)
    }

    // Counts a sync that took this time.
    pub(crate) fn add_sync(&self, took: Duration) {
        self.syncs.fetch_add(1, SeqCst);
        let micros = u64::try_from(took.as_micros()).unwrap_or(u64::MAX);
        self.longest_sync.fetch_max(micros, SeqCst);
        let millis = micros / 1000;
        if millis >= SLOW {
            self.slow_sync.fetch_max(millis, SeqCst);
        }
    }

    // Counts a checkpoint that was written.
    pub(crate) fn add_checkpoint(&self) {
        self.checkpoints.fetch_add(1, SeqCst);
        self.new_checkpoints.fetch_add(1, SeqCst);
    }
}
