// A disk that counts its calls.
use disk::{DeviceFailed, Disk};
use std::cell::Cell;

/// A disk, each call of which is counted: reads, writes and syncs.
#[derive(Drop)]
pub struct Counted<'x, D: Disk> {
    disk: D,
    calls: &'x Cell<u64>,
}

impl<'x, D: Disk> Counted<'x, D> {
    /// The disk whose calls are counted here.
    pub fn new(disk: D, calls: &'x Cell<u64>) -> Self {
        Counted { disk, calls }
    }

    fn count(&self) {
        self.calls.set(self.calls.get().saturating_add(1));
    }
}

impl<'x, D: Disk> Disk for Counted<'x, D> {
    ghost state = { λ counted. D.state counted.disk };

    ghost failures = { λ counted. D.failures counted.disk };

    ghost outlook = { λ counted. D.outlook counted.disk };

    ghost honest = { D.honest };

    fn len(&self) -> u64 {
        self.disk.len()
    }

    fn read_at(&mut self, at: u64, buffer: &mut [u8]) -> Result<(), DeviceFailed> {
        self.count();
        self.disk.read_at(at, buffer)
    }

    fn write_at(&mut self, at: u64, bytes: &[u8]) -> Result<(), DeviceFailed> {
        self.count();
        self.disk.write_at(at, bytes)
    }

    fn sync(&mut self) -> Result<(), DeviceFailed> {
        self.count();
        self.disk.sync()
    }
}
