// Stores whose devices are changed, and cut in each call.
use device_changes::{Amendment, Change, Importing, LastJoinNonce, Retirement};
use devices::{Application, Provisioning, Rx1Offset, RxDelay};
use disk::{Image, MemDisk, Sim};
use lw_types::{Eui, Key, Refusal};
use std::alloc::Global;
use store::{Store, establish_back, open};
use store_edits::{NotChanged, store_with_changes};
use test_stores::devices_under_test::{idle_device, new_table};
use test_stores::stores_under_test::{LEN, blank};

// The number of the last decision of the stores.
const SEQ: u64 = 7;

const NEW_KEY: Key = Key([0x5A; 16]);

// What is found on a disk: how many devices, the first device's AppKey, and the number of the last
// decision; or why there is no store.
type Found = Result<(usize, Option<Key>, u64), Refusal>;

// Which change is made.
#[derive(Clone, Copy, Debug)]
enum Kind {
    Import,
    Amend,
    Retire,
    // Two changes of one device: none is made.
    Twice,
}

// A store of two devices. Its live area is the second one, and the first one is open, too.
fn store_of_two(alloc: Global) -> Result<Store<MemDisk>, Refusal> {
    let mut table = new_table(alloc, 8)?;
    for slot in 0..2 {
        table.put(slot, idle_device(alloc, u64::from(slot))?)?;
    }
    match establish_back(alloc, blank(alloc, LEN)?, table, SEQ) {
        Ok(store) => Ok(store),
        Err((_, refusal)) => Err(refusal),
    }
}

fn importing() -> Option<Importing> {
    Some(Importing {
        provisioning: Provisioning {
            application: Application::new(3)?,
            dev_eui: Eui(9),
            join_eui: Eui(0x0102_0304_0506_0708),
            app_key: NEW_KEY,
            rx1_offset: Rx1Offset::new(0)?,
            rx_delay: RxDelay::new(1)?,
        },
        last_dev_nonce: Some(41),
        last_join_nonce: LastJoinNonce::new(12)?,
    })
}

fn another_key() -> Change {
    Change::Amend(Amendment {
        dev_eui: Eui(0),
        app_key: Some(NEW_KEY),
        application: None,
        join_eui: None,
        rx1_offset: None,
        rx_delay: None,
        last_dev_nonce: None,
        last_join_nonce: None,
    })
}

fn retired() -> Change {
    Change::Retire(Retirement {
        dev_eui: Eui(0),
        app_key: NEW_KEY,
    })
}

// The store with a change of this kind, or its disk.
fn changed(
    alloc: Global,
    store: Store<MemDisk>,
    kind: Kind,
) -> Result<Store<MemDisk>, NotChanged<MemDisk>> {
    match kind {
        Kind::Import => match importing() {
            Some(importing) => {
                let rows = [Change::Import(importing)];
                store_with_changes(alloc, store, &rows)
            }
            None => Err(NotChanged::Store(store.close(), Refusal::Malformed)),
        },
        Kind::Amend => {
            let rows = [another_key()];
            store_with_changes(alloc, store, &rows)
        }
        Kind::Retire => {
            let rows = [retired()];
            store_with_changes(alloc, store, &rows)
        }
        Kind::Twice => {
            let rows = [another_key(), retired()];
            store_with_changes(alloc, store, &rows)
        }
    }
}

// The disk that a change leaves, if it was made, refused, or cut.
fn disk_after(made: Result<Store<MemDisk>, NotChanged<MemDisk>>) -> Result<MemDisk, Refusal> {
    match made {
        Ok(store) => Ok(store.close()),
        Err(fault) => match fault {
            NotChanged::Rows(disk, _refused) => Ok(disk),
            NotChanged::Store(disk, Refusal::DeviceFailed) => Ok(disk),
            NotChanged::Store(_disk, refusal) => Err(refusal),
        },
    }
}

// What is found after a crash to this image, if a change is made by this number of calls, and the
// next one fails.
fn cut(alloc: Global, kind: Kind, calls: u64, image: &Image) -> Found {
    let mut store = store_of_two(alloc)?;
    store.arm(calls.saturating_add(1));
    let mut disk = disk_after(changed(alloc, store, kind))?;
    disk.arm(u64::MAX);
    disk.crash(image);
    found_on(alloc, disk)
}

fn found_on(alloc: Global, disk: MemDisk) -> Found {
    let store = open(alloc, disk)?;
    let devices = store.table().devices();
    let key = devices.first().map(|device| device.app_key);
    Ok((devices.len(), key, store.seq()))
}

// The image that has the low 8 bits of each position.
fn positions(alloc: Global) -> Result<Image, Refusal> {
    let mut bytes = Vec::new(alloc);
    for position in 0..LEN {
        bytes.push((position % 256) as u8)?;
    }
    Ok(Image::Bytes(bytes))
}

// Whether the changed table is found after this number of calls, in the old bytes, in the new ones,
// in open gates and in the low 8 bits of the positions. The other area is closed, and that is
// synced. The changed table is written, and synced. Its gate is opened, and that is synced.
const CUTS: &[(u64, [bool; 4])] = &[
    (0, [false, false, false, false]),
    (1, [false, false, false, false]),
    (2, [false, false, false, false]),
    (3, [false, false, false, false]),
    // A failed write leaves the old byte, and the gate of open bytes is open.
    (4, [false, false, true, false]),
    (5, [false, true, true, false]),
    (6, [true, true, true, true]),
];

fn old_key(alloc: Global) -> Option<Key> {
    match idle_device(alloc, 0) {
        Ok(device) => Some(device.app_key),
        Err(_) => None,
    }
}

// What has to be found if the changed table is, or if the old one is.
fn due(alloc: Global, kind: Kind, is_changed: bool) -> Found {
    match kind {
        Kind::Import if is_changed => Ok((3, old_key(alloc), SEQ)),
        Kind::Amend | Kind::Retire if is_changed => Ok((2, Some(NEW_KEY), SEQ)),
        _ => Ok((2, old_key(alloc), SEQ)),
    }
}

// What is wrongly found, if anything: after how many calls, in which image, and what.
fn wrong(alloc: Global, kind: Kind) -> Option<(u64, usize, Found)> {
    let positions = positions(alloc).unwrap_or(Image::Old);
    let images = [&Image::Old, &Image::New, &Image::Fill(0xA5), &positions];
    for (calls, changes) in CUTS {
        for (place, (image, is_changed)) in images.iter().zip(changes).enumerate() {
            let found = cut(alloc, kind, *calls, image);
            if found != due(alloc, kind, *is_changed) {
                return Some((*calls, place, found));
            }
        }
    }
    None
}

#[test]
fn an_import_that_is_cut_is_made_or_not(rt: HostRuntime) {
    let found = wrong(rt.alloc(), Kind::Import);
    assert!(rt; found.is_none(), "{found:?}");
}

#[test]
fn an_amendment_that_is_cut_is_made_or_not(rt: HostRuntime) {
    let found = wrong(rt.alloc(), Kind::Amend);
    assert!(rt; found.is_none(), "{found:?}");
}

#[test]
fn a_retirement_that_is_cut_is_made_or_not(rt: HostRuntime) {
    let found = wrong(rt.alloc(), Kind::Retire);
    assert!(rt; found.is_none(), "{found:?}");
}

#[test]
fn changes_of_which_one_is_faulty_are_not_made(rt: HostRuntime) {
    let found = wrong(rt.alloc(), Kind::Twice);
    assert!(rt; found.is_none(), "{found:?}");
}
