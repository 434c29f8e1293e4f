// A disk in a file.
ghost use Rattle.std.specs.Prelude.{◌≡◌, ◌<◌, ◌+◌, ◌^◌, false, is_ok, replicate, length};
ghost use Rattle.disk.specs.Outlook.{HasCause};

use crate::{DeviceFailed, Disk};
use std::fs::{File, OpenOptions};
use std::os::unix::fs::{FileExt, OpenOptionsExt};
use std::path::Path;
use std::rt::Files;
use std::{fs, io};

// The number of bytes of a new file that are written at a time.
const PIECE: usize = 65536;

/// A disk in a file of the system. Its length is the one that the file had when it was opened. It
/// holds the file's lock until it is dropped or its process ends, so no other `FileDisk`, of this
/// process or another one, has the file.
///
/// Two things are premises and no contract: the file keeps what was synced, and nobody else writes
/// to it. The contracts promise only the length, and that a call returns `DeviceFailed` exactly if
/// it is counted as a failure. After a failed sync Linux may treat pages that it couldn't write as
/// written, so check the disk before you open the file again.
#[derive(Drop)]
pub struct FileDisk {
    file: File,
    len: u64,
    failures: u64,
}

impl FileDisk {
    /// Makes a file of this number of zeros that only its owner may read and write. Syncs the file
    /// and its folder. All its bytes are written, so no later write needs a new block of the file
    /// system. Fails if the path exists. If anything fails after that, the file is removed again.
    /// The cost grows with the length.
    pub fn create<R: Files<File = File>>(rt: &R, path: &str, len: u64) -> io::Result<Self> {
        let file = OpenOptions::new()
            .read(true)
            .write(true)
            .create_new(true)
            .mode(0o600)
            .open(rt, path)?;
        match fill(rt, &file, path, len) {
            Ok(()) => Ok(FileDisk::of(file, len)),
            Err(error) => {
                let _ = fs::remove_file(rt, path);
                Err(error)
            }
        }
    }

    /// Opens the file of a store. Fails if there is none, or if it may not be read and written.
    /// Fails as `WouldBlock` if another `FileDisk` has it.
    pub fn open<R: Files<File = File>>(rt: &R, path: &str) -> io::Result<Self> {
        let file = OpenOptions::new().read(true).write(true).open(rt, path)?;
        file.try_lock()?;
        let len = file.metadata()?.len();
        Ok(FileDisk::of(file, len))
    }

    fn of(file: File, len: u64) -> Self {
        FileDisk {
            file,
            len,
            failures: 0,
        }
    }

    // Counts a call that failed. The 2^64th failure would not be counted, but a store makes no call
    // after its first failed one.
    fn counted(&mut self, outcome: io::Result<()>) -> Result<(), DeviceFailed>
        ensures cause { HasCause self.old.failures self.new.failures result }
        ensures told { self.old.failures + 1 < 2 ^ 64 → is_ok result ≡ is_ok outcome }
        ensures len { self.new.len ≡ self.old.len }
    {
        match outcome {
            Ok(()) => Ok(()),
            Err(_) if self.failures < u64::MAX => {
                self.failures += 1;
                Err(DeviceFailed)
            }
            Err(_) => Ok(()),
        }
    }
}

// Locks a new file, fills it, and syncs it and its folder.
fn fill<R: Files<File = File>>(rt: &R, file: &File, path: &str, len: u64) -> io::Result<()> {
    file.try_lock()?;
    let zeros = [0; PIECE];
    let mut at = 0;
    for _ in 0..len.div_ceil(PIECE as u64) {
        let left = len.saturating_sub(at).min(PIECE as u64) as usize;
        file.write_all_at(&zeros[..left], at)?;
        at = at.saturating_add(left as u64);
    }
    file.sync_all()?;
    let folder = match Path::new(path).parent() {
        Some(folder) if !folder.as_str().is_empty() => folder,
        _ => Path::new("."),
    };
    File::open(rt, folder)?.sync_all()
}

impl Disk for FileDisk {
    ghost use Rattle.disk.specs.Outlook.Outlook.{Unknown};

    // No contract says what a file really holds.
    ghost state = { λ disk. record {
      content = replicate disk.len 0;
      synced = replicate disk.len 0;
      is_open = λ _. false;
    } };

    ghost failures = { λ disk. disk.failures };

    ghost outlook = { λ _. Unknown };

    ghost honest = { ⊥ };

    fn len(&self) -> u64 {
        self.len
    }

    fn read_at(&mut self, at: u64, buffer: &mut [u8]) -> Result<(), DeviceFailed> {
        let outcome = self.file.read_exact_at(buffer, at);
        self.counted(outcome)
    }

    fn write_at(&mut self, at: u64, bytes: &[u8]) -> Result<(), DeviceFailed> {
        let outcome = self.file.write_all_at(bytes, at);
        self.counted(outcome)
    }

    fn sync(&mut self) -> Result<(), DeviceFailed> {
        let outcome = self.file.sync_data();
        self.counted(outcome)
    }
}
