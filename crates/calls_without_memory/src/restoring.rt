// Stores of older programs and of older copies, each made again if memory ran out.
use crate::attempt::Attempt;
use crate::stores::{MOST, SLOTS, behind, is_untouched, new_disk, state};
use devices::GrantsSince;
use disk::MemDisk;
use lw_types::{Refusal, read_hex};
use sessions::Table;
use std::alloc::Global;
use store::{establish_back, open_back};
use test_stores::devices_under_test::{new_table, provisionings};
use test_stores::images_under_test::{OLD_FRONT, add_batch_of, disk_of};

// The entry of a new device in version 1.
const OLD_ENTRY: &str = concat!(
    "0100000032",
    "000000000000000101020304050607082B7E151628AED2A6ABF7158809CF4F3C",
    "030001000000000000000000000000000000",
);

// The disk of an older program, which has that device.
fn old_disk(alloc: Global) -> Result<MemDisk, Refusal> {
    let mut bytes = OLD_FRONT.to_vec(alloc)?;
    add_batch_of(&mut bytes, (1, 1), &read_hex(alloc, OLD_ENTRY)?)?;
    disk_of(alloc, bytes)
}

/// A store of an older program is opened, which makes a checkpoint in the newest version.
pub fn taken_over(alloc: Global) -> Result<Attempt, Refusal> {
    let (disk, before) = (old_disk(alloc)?, old_disk(alloc)?);
    Ok(match open_back(alloc, disk) {
        Ok(store) => Attempt::at_once(state(&store) == (1, 1)),
        Err((disk, _)) => {
            let is_as_before = disk.content() == before.content();
            match open_back(alloc, disk) {
                Ok(store) => Attempt::again(is_as_before, &Ok(state(&store) == (1, 1))),
                Err(_) => Attempt::Otherwise,
            }
        }
    })
}

// The table of an older copy, restored.
fn older(alloc: Global) -> Result<Table, Refusal> {
    let empty = new_table(alloc, SLOTS)?;
    let mut table = behind(&empty, &provisionings(alloc, &empty, 0, MOST)?)?;
    let since = GrantsSince::new(1024).ok_or(Refusal::Damaged)?;
    match table.restore(since) {
        Ok(()) => Ok(table),
        Err(_) => Err(Refusal::JoinNonceSpent),
    }
}

/// A store is made from the table of an older copy.
pub fn restored(alloc: Global) -> Result<Attempt, Refusal> {
    let (table, same) = (older(alloc)?, older(alloc)?);
    Ok(match establish_back(alloc, new_disk(alloc)?, table, MOST) {
        Ok(store) => Attempt::at_once(state(&store) == (MOST, MOST)),
        Err((disk, _)) => {
            let is_as_before = is_untouched(&disk);
            match establish_back(alloc, disk, same, MOST) {
                Ok(store) => Attempt::again(is_as_before, &Ok(state(&store) == (MOST, MOST))),
                Err(_) => Attempt::Otherwise,
            }
        }
    })
}
