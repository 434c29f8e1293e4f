// Images that are put together byte by byte, as no program would write them.
use crate::stores_under_test::{LEN, SECOND_AREA};
use disk::MemDisk;
use lw_types::Refusal;
use std::alloc::Global;

/// The beginning of a new store of network 00002A with 8 slots, as the format spells it.
pub const FRONT: [u8; 62] = [
    // The superblock.
    0xA5, 0x4C, 0x4E, 0x53, 0x54, 0x4F, 0x52, 0x45, 1, 0, 0, 0x2A, 0, 0, 0, 8, 0, 0, 0, 0, 0, 0x10,
    0x86, 0xA6, 0, 0, 0, 0, 0, 0, 0, 0,
    // The first area: its gate, version, generation, sequence number, number of records and their
    // length.
    0xA5, 2, 0, 0, 0, 0, 0, 0, 0, 1, 0, 0, 0, 0, 0, 0, 0, 0, 0, 0, 0, 0, 0, 0, 0, 0, 0, 0, 0, 0,
];

/// The beginning of such a store as it was formatted before records counted uplinks.
pub const OLD_FRONT: [u8; 62] = [
    0xA5, 0x4C, 0x4E, 0x53, 0x54, 0x4F, 0x52, 0x45, 1, 0, 0, 0x2A, 0, 0, 0, 8, 0, 0, 0, 0, 0, 0x10,
    0x86, 0xA6, 0, 0, 0, 0, 0, 0, 0, 0, //
    0xA5, 1, 0, 0, 0, 0, 0, 0, 0, 1, 0, 0, 0, 0, 0, 0, 0, 0, 0, 0, 0, 0, 0, 0, 0, 0, 0, 0, 0, 0,
];

// Appends these parts. Returns whether there was memory for them.
fn add_parts(bytes: &mut Vec<u8>, parts: &[&[u8]]) -> bool {
    for part in parts {
        if bytes.extend_from_slice(part).is_err() {
            return false;
        }
    }
    true
}

/// An image whose checkpoint at number 7 has the records of these bytes, and gives this number of
/// records.
pub fn checkpoint_of(alloc: Global, count: u8, records: &[u8]) -> Result<Vec<u8>, Refusal> {
    let mut bytes = FRONT[..42].to_vec(alloc)?;
    let len = (records.len() as u64).to_be_bytes();
    let numbers = &[0, 0, 0, 0, 0, 0, 0, 7, 0, 0, 0, count];
    if add_parts(&mut bytes, &[numbers, &len, records]) {
        Ok(bytes)
    } else {
        Err(Refusal::OutOfMemory)
    }
}

/// Appends a batch of entries of these bytes after its open gate.
pub fn add_batch_of(
    bytes: &mut Vec<u8>,
    (last, count): (u8, u8),
    entries: &[u8],
) -> Result<(), Refusal> {
    let len = (entries.len() as u64).to_be_bytes();
    let numbers = &[0, 0, 0, 0, 0, 0, 0, last, 0, count];
    if add_parts(bytes, &[&[0xA5], &len[4..], numbers, entries]) {
        Ok(())
    } else {
        Err(Refusal::OutOfMemory)
    }
}

/// A disk that begins with these bytes and a closed gate, and has open gates after it up to the
/// second area, which is closed.
pub fn disk_of(alloc: Global, mut bytes: Vec<u8>) -> Result<MemDisk, Refusal> {
    bytes.push(0x00)?;
    bytes.resize(SECOND_AREA, 0xA5)?;
    bytes.resize(LEN, 0x00)?;
    Ok(MemDisk::new(alloc, bytes)?)
}
