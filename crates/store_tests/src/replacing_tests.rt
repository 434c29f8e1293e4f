// Tables that replace a store's own, and stores that are closed.
use disk::{Image, MemDisk, Sim};
use lw_types::Refusal;
use sessions::Table;
use std::alloc::Global;
use store::{Store, establish_back, open};
use test_stores::devices_under_test::{idle_device, new_table};
use test_stores::stores_under_test::{LEN, blank, new_store};

// How many devices a store has, and the number of its last decision; or why there is none.
type Found = Result<(usize, u64), Refusal>;

// The number of the last decision of the stores.
const SEQ: u64 = 7;

// A table of this number of devices.
fn table_of(alloc: Global, count: u16) -> Result<Table, Refusal> {
    let mut table = new_table(alloc, 8)?;
    for slot in 0..count {
        table.put(slot, idle_device(alloc, u64::from(slot))?)?;
    }
    Ok(table)
}

// A store of one device. Its live area is the second one, and the first one is open, too.
fn store_of_one(alloc: Global) -> Result<Store<MemDisk>, Refusal> {
    match establish_back(alloc, blank(alloc, LEN)?, table_of(alloc, 1)?, SEQ) {
        Ok(store) => Ok(store),
        Err((_, refusal)) => Err(refusal),
    }
}

// The store with a table of this number of devices in place of its own, or its disk if that fails.
fn replaced(
    alloc: Global,
    store: Store<MemDisk>,
    count: u16,
) -> Result<Store<MemDisk>, (MemDisk, Refusal)> {
    let table = match table_of(alloc, count) {
        Ok(table) => table,
        Err(refusal) => return Err((store.close(), refusal)),
    };
    let is_alike = table.net_id() == store.table().net_id()
        && table.slots() == store.table().slots();
    if !is_alike {
        return Err((store.close(), Refusal::WrongSize));
    }
    store.replace(alloc, table)
}

// A store with this number of devices: none, or one.
fn store_with(alloc: Global, count: u16) -> Result<Store<MemDisk>, Refusal> {
    if count == 0 {
        new_store(alloc, 8)
    } else {
        store_of_one(alloc)
    }
}

// What is found after a crash to this image, if the table of a store with this number of devices is
// replaced by one of one device more, by this number of calls, and the next one fails.
fn cut(alloc: Global, before: u16, calls: u64, image: &Image) -> Found {
    let mut store = store_with(alloc, before)?;
    store.arm(calls.saturating_add(1));
    let mut disk = match replaced(alloc, store, before.saturating_add(1)) {
        Ok(store) => store.close(),
        Err((disk, Refusal::DeviceFailed)) => disk,
        Err((_, refusal)) => return Err(refusal),
    };
    disk.arm(u64::MAX);
    found_after(alloc, disk, image)
}

// What a crash to this image leaves.
fn found_after(alloc: Global, mut disk: MemDisk, image: &Image) -> Found {
    disk.crash(image);
    let store = open(alloc, disk)?;
    Ok((store.table().devices().len(), store.seq()))
}

// The image that has the low 8 bits of each position.
fn positions(alloc: Global) -> Result<Image, Refusal> {
    let mut bytes = Vec::new(alloc);
    for position in 0..LEN {
        bytes.push((position % 256) as u8)?;
    }
    Ok(Image::Bytes(bytes))
}

// How many devices are found after this number of calls, in the old bytes, in the new ones, in open
// gates and in the low 8 bits of the positions. The other area of a new store is closed: the new
// table is written, synced, its gate is opened, and that is synced.
const CUTS_OF_FOUR: &[(u64, [usize; 4])] = &[
    (0, [0, 0, 0, 0]),
    (1, [0, 0, 0, 0]),
    // A failed write leaves the old byte, and the gate of open bytes is open.
    (2, [0, 0, 1, 0]),
    (3, [0, 1, 1, 0]),
    (4, [1, 1, 1, 1]),
];

// The same if the other area is open: it is closed, and that is synced, first.
const CUTS_OF_SIX: &[(u64, [usize; 4])] = &[
    (0, [1, 1, 1, 1]),
    (1, [1, 1, 1, 1]),
    (2, [1, 1, 1, 1]),
    (3, [1, 1, 1, 1]),
    (4, [1, 1, 2, 1]),
    (5, [1, 2, 2, 1]),
    (6, [2, 2, 2, 2]),
];

// What is wrongly found, if anything: after how many calls, in which image, and what.
fn wrong(alloc: Global, before: u16, cuts: &[(u64, [usize; 4])]) -> Option<(u64, usize, Found)> {
    let seq = if before == 0 { 0 } else { SEQ };
    let positions = positions(alloc).unwrap_or(Image::Old);
    let images = [&Image::Old, &Image::New, &Image::Fill(0xA5), &positions];
    for (calls, counts) in cuts {
        for (place, (image, count)) in images.iter().zip(counts).enumerate() {
            let found = cut(alloc, before, *calls, image);
            if found != Ok((*count, seq)) {
                return Some((*calls, place, found));
            }
        }
    }
    None
}

#[test]
fn a_table_that_is_cut_is_the_old_one_or_the_new_one(rt: HostRuntime) {
    for (before, cuts) in [(0, CUTS_OF_FOUR), (1, CUTS_OF_SIX)] {
        let found = wrong(rt.alloc(), before, cuts);
        assert!(rt; found.is_none(), "{before}: {found:?}");
    }
}

// What is found after a crash to this image, if a store is closed by this number of calls, and the
// next one fails.
fn cut_closing(alloc: Global, calls: u64, image: &Image) -> Result<(usize, u64), Refusal> {
    let mut store = store_of_one(alloc)?;
    store.arm(calls.saturating_add(1));
    let mut disk = match store.shut() {
        Ok(disk) => disk,
        Err((disk, Refusal::DeviceFailed)) => disk,
        Err((_, refusal)) => return Err(refusal),
    };
    disk.arm(u64::MAX);
    found_after(alloc, disk, image)
}

// Whether the store is found after this number of calls, in the same images.
const CUTS_OF_CLOSING: &[(u64, [bool; 4])] = &[
    (0, [true, true, true, false]),
    (1, [true, false, true, false]),
    (2, [false, false, false, false]),
];

#[test]
fn a_store_that_is_closed_is_whole_or_none(rt: HostRuntime) {
    let alloc = rt.alloc();
    let positions = positions(alloc).unwrap_or(Image::Old);
    let images = [&Image::Old, &Image::New, &Image::Fill(0xA5), &positions];
    for (calls, are_whole) in CUTS_OF_CLOSING {
        for (image, is_whole) in images.iter().zip(are_whole) {
            let wanted = if *is_whole {
                Ok((1, SEQ))
            } else {
                Err(Refusal::NotFormatted)
            };
            let found = cut_closing(alloc, *calls, image);
            assert!(rt; found == wanted, "{calls} calls: {found:?}");
        }
    }
}
