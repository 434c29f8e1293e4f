// A disk in memory and one in a file get the same calls; and what only a file does.
ghost use Rattle.std.specs.Prelude.{◌≡◌, ◌+◌, ◌≤◌, length, IsTrue};

use crate::files::{path_of, remove};
use disk::{DeviceFailed, Disk, FileDisk, MemDisk};
use std::alloc::Global;
use std::fs::File;
use std::io;
use std::io::ErrorKind;
use std::rt::Files;

// The length of the disks, which is more than is written to a new file at a time.
const LEN: u64 = 100_000;

// The calls, in turn: these bytes are written from a position on, or they have to be there.
#[derive(Clone, Copy)]
enum Call {
    Write(u64, &'static [u8]),
    Read(u64, &'static [u8]),
    Sync,
}

const CALLS: &[Call] = &[
    Call::Read(0, &[0, 0]),
    Call::Read(65_535, &[0, 0]),
    Call::Read(LEN - 2, &[0, 0]),
    Call::Write(0, &[1, 2, 3]),
    Call::Write(65_535, &[4, 5]),
    Call::Write(LEN - 1, &[6]),
    Call::Read(0, &[1, 2, 3, 0]),
    Call::Sync,
    Call::Write(1, &[9]),
    Call::Read(0, &[1, 9, 3]),
    Call::Read(65_534, &[0, 4, 5, 0]),
    Call::Read(LEN - 2, &[0, 6]),
    Call::Write(50, &[]),
    Call::Read(50, &[]),
    Call::Sync,
];

// Whether a disk does so.
fn does<D: Disk>(disk: &mut D) -> Result<bool, DeviceFailed> {
    for call in CALLS {
        if !does_one(disk, call)? {
            return Ok(false);
        }
    }
    Ok(disk.len() == LEN)
}

// Whether this number of bytes from there on lie on the disk.
fn is_within<D: Disk>(disk: &D, at: u64, len: usize) -> bool
    ensures { IsTrue result → at + len ≤ length (D.state disk.now).content }
{
    match at.checked_add(len as u64) {
        Some(end) => end <= disk.len(),
        None => false,
    }
}

fn does_one<D: Disk>(disk: &mut D, call: &Call) -> Result<bool, DeviceFailed> {
    match call {
        Call::Write(at, bytes) if is_within(disk, *at, bytes.len()) => {
            disk.write_at(*at, bytes)?;
            Ok(true)
        }
        Call::Read(at, bytes) if is_within(disk, *at, bytes.len()) && bytes.len() <= 4 => {
            let mut buffer = [0; 4];
            let buffer = &mut buffer[..bytes.len()];
            disk.read_at(*at, buffer)?;
            Ok(*buffer == **bytes)
        }
        Call::Write(..) | Call::Read(..) => Ok(false),
        Call::Sync => {
            disk.sync()?;
            Ok(true)
        }
    }
}

fn in_memory(alloc: Global) -> io::Result<bool> {
    let mut disk = MemDisk::new(alloc, vec![in alloc; 0; LEN as usize]?)?;
    Ok(does(&mut disk) == Ok(true))
}

// In a new file, which is then another disk with what the first one wrote.
fn in_a_file<R: Files<File = File>>(rt: &R, path: &str) -> io::Result<bool> {
    let mut disk = FileDisk::create(rt, path, LEN)?;
    let is_so = does(&mut disk) == Ok(true);
    drop(disk);
    let mut disk = FileDisk::open(rt, path)?;
    let is_there = does_one(&mut disk, &Call::Read(0, &[1, 9, 3])) == Ok(true);
    Ok(is_so && is_there && disk.len() == LEN)
}

#[test]
fn both_disks_do_what_is_asked(rt: HostRuntime) {
    assert!(rt; in_memory(rt.alloc()).is_ok_and(|is_so| is_so));
    let path = path_of(&rt, "both").expect(&rt, "a path");
    assert!(rt; in_a_file(&rt, &path).is_ok_and(|is_so| is_so));
    remove(&rt, &path);
}

// How making a disk ends, and opening one.
fn create_error<R: Files<File = File>>(rt: &R, path: &str) -> Option<ErrorKind> {
    FileDisk::create(rt, path, 3)
        .err()
        .map(|error| error.kind())
}

fn open_error<R: Files<File = File>>(rt: &R, path: &str) -> Option<ErrorKind> {
    FileDisk::open(rt, path).err().map(|error| error.kind())
}

#[test]
fn a_file_is_in_use_once(rt: HostRuntime) {
    let path = path_of(&rt, "once").expect(&rt, "a path");
    assert!(rt; open_error(&rt, &path) == Some(ErrorKind::NotFound));
    let disk = FileDisk::create(&rt, &path, 3);
    assert!(rt; disk.is_ok());
    assert!(rt; open_error(&rt, &path) == Some(ErrorKind::WouldBlock));
    assert!(rt; create_error(&rt, &path) == Some(ErrorKind::AlreadyExists));
    drop(disk);
    assert!(rt; open_error(&rt, &path).is_none());
    remove(&rt, &path);
    assert!(rt; open_error(&rt, &path) == Some(ErrorKind::NotFound));
}
