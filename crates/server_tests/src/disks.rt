// A disk of these tests.
ghost use Rattle.std.specs.Prelude.{◌≡◌, ◌+◌, ◌≤◌, length, is_ok};
ghost use Rattle.disk.specs.Outlook.{HasCause, IsForeseen};
ghost use Rattle.disk.specs.Outlook.Outlook.{Unknown};

use crate::gates::Marks;
use disk::{DeviceFailed, Disk, MemDisk};

/// A disk in memory that counts its syncs. The first sync after that of the opening waits until two
/// workers have come to their third calls; it fails if they don't come in time.
#[derive(Drop)]
pub struct HeldDisk<'x> {
    disk: MemDisk,
    marks: &'x Marks,
    syncs: u64,
    failures: u64,
}

impl<'x> HeldDisk<'x> {
    pub fn new(disk: MemDisk, marks: &'x Marks) -> Self {
        HeldDisk {
            disk,
            marks,
            syncs: 0,
            failures: 0,
        }
    }

    pub fn syncs(&self) -> u64 {
        self.syncs
    }

    // Whether a sync may go on. (The disk is dropped long before its failures exceed 64 bits.)
    fn hold(&mut self) -> Result<(), DeviceFailed>
        ensures cause { HasCause self.old.failures self.new.failures result }
        ensures disk { self.new.disk ≡ self.old.disk }
    {
        self.syncs = self.syncs.saturating_add(1);
        if self.syncs != 2 || self.marks.hold_sync() || self.failures == u64::MAX {
            return Ok(());
        }
        self.failures += 1;
        Err(DeviceFailed)
    }
}

impl<'x> Disk for HeldDisk<'x> {
    ghost use Rattle.disk.specs.MemDisk.{state_of, disk_failures};

    ghost state = { λ held. state_of held.disk };

    ghost failures = { λ held. disk_failures held.disk + held.failures };

    ghost outlook = { λ _. Unknown };

    // The contents don't matter here.
    ghost honest = { ⊥ };

    fn len(&self) -> u64 {
        self.disk.len()
    }

    fn read_at(&mut self, at: u64, buffer: &mut [u8]) -> Result<(), DeviceFailed> {
        self.disk.read_at(at, buffer)
    }

    fn write_at(&mut self, at: u64, bytes: &[u8]) -> Result<(), DeviceFailed> {
        self.disk.write_at(at, bytes)
    }

    fn sync(&mut self) -> Result<(), DeviceFailed> {
        self.hold()?;
        self.disk.sync()
    }
}
