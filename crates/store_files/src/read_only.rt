// A disk that is only read.
use disk::{DeviceFailed, Disk};

/// Reads another disk, and drops what is written. So the store of a copy can be opened, even one of
/// an older version, which an opening takes over by writing, and the copy doesn't change.
#[derive(Drop)]
pub struct ReadOnly<D> {
    disk: D,
}

impl<D> ReadOnly<D> {
    /// Nothing is written to this disk.
    pub fn new(disk: D) -> Self {
        ReadOnly { disk }
    }
}

impl<D: Disk> Disk for ReadOnly<D> {
    ghost use Rattle.disk.specs.Outlook.Outlook.{Unknown};

    ghost state = { λ disk. D.state disk.disk };

    ghost failures = { λ disk. D.failures disk.disk };

    ghost outlook = { λ _. Unknown };

    // A read doesn't return what was written.
    ghost honest = { ⊥ };

    fn len(&self) -> u64 {
        self.disk.len()
    }

    fn read_at(&mut self, at: u64, buffer: &mut [u8]) -> Result<(), DeviceFailed> {
        self.disk.read_at(at, buffer)
    }

    fn write_at(&mut self, _at: u64, _bytes: &[u8]) -> Result<(), DeviceFailed> {
        Ok(())
    }

    fn sync(&mut self) -> Result<(), DeviceFailed> {
        Ok(())
    }
}
