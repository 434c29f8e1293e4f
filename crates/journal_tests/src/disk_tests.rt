ghost use Rattle.std.specs.Prelude.{◌<◌};

use disk::{DeviceFailed, Disk, Image, MemDisk, Sim};
use std::alloc::{AllocError, Global};

fn disk_of(alloc: Global, bytes: &[u8]) -> Result<MemDisk, AllocError> {
    MemDisk::new(alloc, Vec::from_slice(alloc, bytes)?)
}

// Whether these bytes can be written there.
fn is_written(disk: &mut MemDisk, at: u64, bytes: &[u8]) -> bool {
    let len = bytes.len() as u64;
    len <= disk.len() && at <= disk.len() - len && disk.write_at(at, bytes).is_ok()
}

// Of a disk of the bytes 1 to 8, 3 to 5 are synced as 30, 40, 50, and 4 to 6 then written as 41,
// 51, 61. The last three are read.
fn are_written(disk: &mut MemDisk) -> bool {
    let is_written = is_written(disk, 2, &[30, 40, 50])
        && disk.sync().is_ok()
        && is_written(disk, 3, &[41, 51, 61]);
    let mut last = [0; 3];
    is_written && disk.len() == 8 && disk.read_at(5, &mut last).is_ok() && last == [61, 7, 8]
}

const BYTES: &[u8] = &[1, 2, 3, 4, 5, 6, 7, 8];

// Whether a crash leaves these bytes, and another one after it too, since nothing is open then.
fn leaves(alloc: Global, image: &Image, wanted: &[u8]) -> Result<bool, AllocError> {
    let mut disk = disk_of(alloc, BYTES)?;
    let are_written = are_written(&mut disk);
    disk.crash(image);
    let is_left = disk.content() == wanted;
    disk.crash(&Image::Fill(9));
    Ok(are_written && is_left && disk.content() == wanted)
}

fn leaves_bytes(alloc: Global, bytes: &[u8], wanted: &[u8]) -> Result<bool, AllocError> {
    let image = Image::Bytes(Vec::from_slice(alloc, bytes)?);
    leaves(alloc, &image, wanted)
}

const OLD: &[u8] = &[1, 2, 30, 40, 50, 6, 7, 8];

const NEW: &[u8] = &[1, 2, 30, 41, 51, 61, 7, 8];

const FILLED: &[u8] = &[1, 2, 30, 9, 9, 9, 7, 8];

const MIXED: &[u8] = &[1, 2, 30, 99, 0, 61, 7, 8];

#[test]
fn a_crash_leaves_its_image(rt: HostRuntime) {
    let alloc = rt.alloc();
    assert!(rt; leaves(alloc, &Image::Old, OLD) == Ok(true));
    assert!(rt; leaves(alloc, &Image::New, NEW) == Ok(true));
    assert!(rt; leaves(alloc, &Image::Fill(9), FILLED) == Ok(true));
    assert!(rt; leaves_bytes(alloc, &[0, 0, 0, 99, 0], MIXED) == Ok(true));
}

// Which of a read, a write of the first byte and two syncs fail if the nth call does, and the first
// byte after them.
type Failing = ([bool; 4], u8);

fn failing(alloc: Global, n: u64) -> Result<Option<Failing>, AllocError>
    requires { 0 < n }
{
    let mut disk = disk_of(alloc, BYTES)?;
    let are_written = are_written(&mut disk);
    disk.arm(9);
    disk.arm(n);
    disk.crash(&Image::New);
    if !are_written || disk.len() == 0 {
        return Ok(None);
    }
    let mut buffer = [0; 1];
    let failed = [
        disk.read_at(0, &mut buffer) == Err(DeviceFailed),
        disk.write_at(0, &[11]) == Err(DeviceFailed),
        disk.sync() == Err(DeviceFailed),
        disk.sync() == Err(DeviceFailed),
    ];
    match disk.content().first() {
        Some(first) => Ok(Some((failed, *first))),
        None => Ok(None),
    }
}

// A write that fails leaves the bytes as they were.
#[test]
fn the_call_that_was_armed_fails(rt: HostRuntime) {
    let alloc = rt.alloc();
    assert!(rt; failing(alloc, 1) == Ok(Some(([true, false, false, false], 11))));
    assert!(rt; failing(alloc, 2) == Ok(Some(([false, true, false, false], 1))));
    assert!(rt; failing(alloc, 3) == Ok(Some(([false, false, true, false], 11))));
}

// What a crash leaves of three bytes after a failed write of the second one and a failed sync.
fn failed(alloc: Global, wanted: &[u8]) -> Result<bool, AllocError> {
    let mut disk = disk_of(alloc, &[1, 2, 3])?;
    disk.arm(1);
    let is_written = is_written(&mut disk, 1, &[20]);
    disk.arm(1);
    let is_synced = disk.sync().is_ok();
    disk.crash(&Image::Fill(9));
    Ok(!is_written && !is_synced && disk.content() == wanted)
}

// A failed write opens its positions, and a failed sync closes none.
#[test]
fn after_a_failure_positions_are_open(rt: HostRuntime) {
    assert!(rt; failed(rt.alloc(), &[1, 9, 3]) == Ok(true));
}

fn has_text(alloc: Global) -> Result<bool, AllocError> {
    Ok(DeviceFailed.to_string(alloc)?.as_str() == "the device failed")
}

#[test]
fn a_failure_has_a_text(rt: HostRuntime) {
    assert!(rt; has_text(rt.alloc()) == Ok(true));
}
