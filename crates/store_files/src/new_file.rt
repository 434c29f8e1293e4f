// New files for stores.
ghost use Rattle.std.specs.Prelude.{◌≡◌, IfOk};

use crate::{FileCause, FileFault};
use disk::FileDisk;
use sessions::Slots;
use std::fs;
use std::fs::File;
use std::io::ErrorKind;
use std::rt::Files;
use store::disk_len;

/// A file that didn't exist before. Only [`create`] makes one, and [`remove_new`] takes it, so a
/// store that existed is never removed.
#[derive(Drop)]
pub struct NewFile<'a> {
    path: &'a str,
}

/// Makes a new file for a store with this many slots. Returns its disk.
pub fn create<'a, R: Files<File = File>>(
    rt: &R,
    path: &'a str,
    slots: Slots,
) -> Result<(FileDisk, NewFile<'a>), FileFault>
    ensures { IfOk result (λ made. made.1.path ≡ path.entry) }
{
    match FileDisk::create(rt, path, disk_len(slots)) {
        Ok(disk) => Ok((disk, NewFile { path })),
        Err(error) if error.kind() == ErrorKind::AlreadyExists => Err(FileFault::Exists),
        Err(error) => Err(FileFault::File(FileCause::of_new(error.kind()))),
    }
}

/// Removes the file of a store that couldn't be made, and returns why. A removal that fails is
/// ignored.
pub fn remove_new<R: Files<File = File>>(
    rt: &R,
    made: NewFile<'_>,
    disk: FileDisk,
    fault: FileFault,
) -> FileFault
    ensures { result ≡ fault }
{
    // removed before its lock is released, so that no other process opens it in between
    let _ = fs::remove_file(rt, made.path);
    drop(disk);
    fault
}
