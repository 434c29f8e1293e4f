//! A disk as a store sees it: a fixed number of bytes. A crash may change the bytes that were
//! written since the last sync, and each call may fail. `MemDisk` is such a disk in memory, with
//! crashes and failures on demand. `FileDisk` is a file; that it behaves like such a disk is a
//! premise.
#![tactic(auto)]

mod disk;
mod file_disk;
mod fuse;
pub mod laws;
mod mem_disk;
mod sim;
mod span;

pub use disk::{DeviceFailed, Disk};
pub use file_disk::FileDisk;
pub use mem_disk::MemDisk;
pub use sim::{Image, Sim};
