// The timed disk.
ghost use Rattle.std.specs.Prelude.{◌≡◌, ◌+◌, ◌≤◌, length, is_ok};
ghost use Rattle.disk.specs.Outlook.{HasCause, IsForeseen};

use crate::DiskTimes;
use disk::{DeviceFailed, Disk};
use std::time::{Clock, Duration, Instant};
use store_layout::opens_area;

/// A disk that is timed by a clock. Its calls are those of the disk from which it was made.
#[derive(Drop)]
pub struct TimedDisk<'x, D: Disk + Drop, C: Clock + Drop> {
    disk: D,
    clock: C,
    times: &'x DiskTimes,
}

impl<'x, D: Disk + Drop, C: Clock + Drop> TimedDisk<'x, D, C> {
    /// This disk. Its calls are timed from now on.
    pub fn new(disk: D, clock: C, times: &'x DiskTimes) -> Self
        ensures { result.disk ≡ disk }
    {
        TimedDisk { disk, clock, times }
    }

    // The time since then, or 0 if the clock can't be read.
    fn since(&self, then: Option<Instant>) -> Duration {
        match then {
            Some(then) => then.elapsed(&self.clock).unwrap_or(Duration::ZERO),
            None => Duration::ZERO,
        }
    }
}

impl<'x, D: Disk + Drop, C: Clock + Drop> Disk for TimedDisk<'x, D, C> {
    ghost state = { λ timed. D.state timed.disk };

    ghost failures = { λ timed. D.failures timed.disk };

    ghost outlook = { λ timed. D.outlook timed.disk };

    ghost honest = { D.honest };

    fn len(&self) -> u64 {
        self.disk.len()
    }

    fn read_at(&mut self, at: u64, buffer: &mut [u8]) -> Result<(), DeviceFailed> {
        self.disk.read_at(at, buffer)
    }

    fn write_at(&mut self, at: u64, bytes: &[u8]) -> Result<(), DeviceFailed> {
        if opens_area(self.disk.len(), at, bytes) {
            self.times.add_checkpoint();
        }
        self.disk.write_at(at, bytes)
    }

    fn sync(&mut self) -> Result<(), DeviceFailed> {
        let then = Instant::now(&self.clock).ok();
        let synced = self.disk.sync();
        self.times.add_sync(self.since(then));
        synced
    }
}
