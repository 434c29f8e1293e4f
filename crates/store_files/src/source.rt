// Bytes that somebody else may write while they are read.
ghost use Rattle.std.specs.Prelude.{◌≡◌, ◌≤◌, ◌+◌, ℕ, List, length, take, drop, OnOk};

use crate::FileFault;
use disk::DeviceFailed;
use std::fs::{File, OpenOptions};
use std::io;
use std::io::ErrorKind;
use std::os::unix::fs::FileExt;
use std::rt::Files;

/// A fixed number of bytes that somebody else may write while they are read.
pub trait Source {
    /// What it holds, if nobody writes it.
    ghost content: { Self → List ℕ };

    /// That nobody writes sources of this type, and that a read returns what they hold.
    ghost still: { Type 0 };

    /// The number of bytes.
    fn len(&self) -> u64
        ensures { result ≡ length (content self.now) };

    /// Fills the buffer with the bytes that begin at a position.
    fn read_at(&mut self, at: u64, buffer: &mut [u8]) -> Result<(), DeviceFailed>
        requires { at + length buffer.old ≤ length (content self.old) }
        ensures bytes { still → OnOk result
            (buffer.new ≡ take (length buffer.old) (drop at (content self.old))) }
        ensures same { still → content self.new ≡ content self.old }
        ensures same_length { length (content self.new) ≡ length (content self.old) };
}

/// The file of a store that another process may be writing. It is only read, and its lock isn't
/// taken.
#[derive(Drop)]
pub struct StoreFile {
    file: File,
    len: u64,
}

impl StoreFile {
    /// Opens the file of a store for reading.
    pub fn open<R: Files<File = File>>(rt: &R, path: &str) -> Result<Self, FileFault> {
        opened(rt, path).map_err(FileFault::of_opening)
    }
}

fn opened<R: Files<File = File>>(rt: &R, path: &str) -> io::Result<StoreFile> {
    let file = OpenOptions::new().read(true).open(rt, path)?;
    let metadata = file.metadata()?;
    if metadata.is_dir() {
        return Err(io::Error::from(ErrorKind::IsADirectory));
    }
    Ok(StoreFile {
        file,
        len: metadata.len(),
    })
}

impl Source for StoreFile {
    ghost use Rattle.std.specs.Prelude.{replicate};

    // No contract says what a file holds.
    ghost content = { λ file. replicate file.len 0 };

    ghost still = { ⊥ };

    fn len(&self) -> u64 {
        self.len
    }

    fn read_at(&mut self, at: u64, buffer: &mut [u8]) -> Result<(), DeviceFailed> {
        match self.file.read_exact_at(buffer, at) {
            Ok(()) => Ok(()),
            Err(_) => Err(DeviceFailed),
        }
    }
}
