// New stores on disks in memory.
use disk::MemDisk;
use lw_types::{NetId, Refusal};
use sessions::Slots;
use std::alloc::Global;
use store::{Store, disk_len, format};

/// The length of the disk of a store with this number of slots.
pub fn len_of(slots: u64) -> Result<u64, Refusal> {
    Ok(disk_len(Slots::new(slots).ok_or(Refusal::Damaged)?))
}

pub fn net_id() -> Result<NetId, Refusal> {
    NetId::new(0x2A).ok_or(Refusal::Damaged)
}

/// A store of network 00002A without devices.
pub fn new_store(alloc: Global, slots: u64) -> Result<Store<MemDisk>, Refusal> {
    let content = vec![in alloc; 0; len_of(slots)? as usize]?;
    format(alloc, MemDisk::new(alloc, content)?, net_id()?, slots)
}
