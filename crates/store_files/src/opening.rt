// Opening the file of a store.
use crate::FileFault;
use crate::read_only::ReadOnly;
use disk::FileDisk;
use std::alloc::Global;
use std::fs::File;
use std::rt::Files;
use store::{Store, open};

/// Opens the file of a store as a disk. Fails if there is no file, if it may not be read and
/// written, or if another [`FileDisk`] has it.
pub fn open_disk<R: Files<File = File>>(rt: &R, path: &str) -> Result<FileDisk, FileFault> {
    FileDisk::open(rt, path).map_err(FileFault::of_opening)
}

/// The store of a copy. An opening reads from the copy's file and writes nothing there. So the
/// superblock and the length are checked first, and memory holds only the table.
pub fn open_copy<R: Files<File = File>>(
    rt: &R,
    alloc: Global,
    file: &str,
) -> Result<Store<ReadOnly<FileDisk>>, FileFault> {
    let disk = open_disk(rt, file)?;
    Ok(open(alloc, ReadOnly::new(disk))?)
}
