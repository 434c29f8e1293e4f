// Images of stores, opened.
use devices::Device;
use disk::{MemDisk, Sim};
use lw_types::{Eui, Refusal};
use std::alloc::Global;
use store::{Store, open};
use store_layout::put_entry;
use test_stores::devices_under_test::{busy_device, idle_device};
use test_stores::images_under_test::{add_batch_of, checkpoint_of, disk_of};
use test_stores::stores_under_test::{ALL, LEN, found, opened, store_after, take};

// The bytes of a store with one device.
fn image(alloc: Global) -> Result<Vec<u8>, Refusal> {
    let disk = store_after(alloc, "1")?.close();
    Ok(disk.content().to_vec(alloc)?)
}

// The length of a disk, on which the bytes from one place to another are this byte; the call of its
// opening that fails, if any; and the result.
type Spoiled = (
    usize,
    (usize, usize),
    u8,
    u64,
    Result<(usize, u64), Refusal>,
);

fn spoiled(alloc: Global, len: usize, place: (usize, usize), byte: u8) -> Result<MemDisk, Refusal> {
    let mut bytes = image(alloc)?;
    let (from, to) = place;
    if from > to || to > bytes.len() {
        return Err(Refusal::CutShort);
    }
    bytes[from..to].fill(byte);
    bytes.resize(len, 0xA5)?;
    Ok(MemDisk::new(alloc, bytes)?)
}

// Whether the opening of such a disk has its result, and the disk is returned as it was.
fn answers_so(alloc: Global, row: &Spoiled) -> Result<bool, Refusal> {
    let (len, place, byte, failing, wanted) = *row;
    let mut disk = spoiled(alloc, len, place, byte)?;
    if failing > 0 {
        disk.arm(failing);
    }
    let answer = opened(alloc, &mut disk);
    let is_there = place.0 == place.1 || disk.content().get(place.0) == Some(&byte);
    Ok(answer == wanted && is_there && disk.content().len() == len)
}

const SPOILED: &[Spoiled] = &[
    (31, (0, 0), 0, 0, Err(Refusal::WrongSize)),
    (31, (0, 1), 0x00, 0, Err(Refusal::WrongSize)),
    (LEN - 1, (0, 0), 0, 0, Err(Refusal::WrongSize)),
    (LEN + 1, (0, 0), 0, 0, Err(Refusal::WrongSize)),
    // The gate, the version and the NetID.
    (LEN, (0, 1), 0x00, 0, Err(Refusal::NotFormatted)),
    (LEN, (8, 9), 0x02, 0, Err(Refusal::WrongVersion)),
    (LEN, (9, 10), 0x01, 0, Err(Refusal::Damaged)),
    // Its fields count before the length, and the areas after it.
    (LEN - 1, (9, 10), 0x01, 0, Err(Refusal::Damaged)),
    (LEN - 1, (32, 33), 0x00, 0, Err(Refusal::WrongSize)),
    // Nothing is damaged.
    (LEN, (0, 0), 0, 0, Ok((1, 1))),
    // The area's gate, version and generation.
    (LEN, (32, 33), 0x00, 0, Err(Refusal::Damaged)),
    (LEN, (33, 34), 0x03, 0, Err(Refusal::WrongVersion)),
    (LEN, (33, 34), 0x09, 0, Err(Refusal::WrongVersion)),
    // Its record has eight bytes more than one of version 1.
    (LEN, (33, 34), 0x01, 0, Err(Refusal::Damaged)),
    (LEN, (34, 35), 0x7F, 0, Ok((1, 1))),
    (LEN, (34, 35), 0x80, 0, Err(Refusal::Damaged)),
    // The length of the records.
    (LEN, (54, 55), 0x01, 0, Err(Refusal::Damaged)),
    // The batch's gate, after which nothing counts, its length, last sequence number and number of
    // entries.
    (LEN, (62, 63), 0x00, 0, Ok((0, 0))),
    (LEN, (63, 67), 0xFF, 0, Err(Refusal::Damaged)),
    (LEN, (74, 75), 0x02, 0, Err(Refusal::Damaged)),
    (LEN, (76, 77), 0x00, 0, Err(Refusal::Damaged)),
    // A call fails, or no failing one exists any more.
    (LEN, (0, 1), 0xA5, 1, Err(Refusal::DeviceFailed)),
    (LEN, (0, 1), 0xA5, 2, Err(Refusal::DeviceFailed)),
    (LEN, (0, 1), 0x00, 9, Err(Refusal::NotFormatted)),
];

// With a refusal the disk is returned, too.
#[test]
fn a_disk_is_opened_or_comes_back(rt: HostRuntime) {
    for row in SPOILED {
        assert!(rt; answers_so(rt.alloc(), row) == Ok(true), "{row:?}");
    }
}

// A slot, the DevEUI of its device, and whether that device has a full queue.
type Entry = (u16, u64, bool);

fn device_of(alloc: Global, entry: &Entry) -> Result<Device, Refusal> {
    let (_, dev_eui, is_busy) = *entry;
    if is_busy {
        busy_device(alloc, dev_eui)
    } else {
        idle_device(alloc, dev_eui)
    }
}

// Appends these entries.
fn add_entries(alloc: Global, bytes: &mut Vec<u8>, entries: &[Entry]) -> Result<(), Refusal> {
    for entry in entries {
        let device = device_of(alloc, entry)?;
        put_entry(entry.0, &device, bytes)?;
    }
    Ok(())
}

fn entries_of(alloc: Global, entries: &[Entry]) -> Result<Vec<u8>, Refusal> {
    let mut bytes = Vec::new(alloc);
    add_entries(alloc, &mut bytes, entries)?;
    Ok(bytes)
}

// Whether these are the devices of the entries, slot by slot.
fn are_devices(alloc: Global, devices: &[Device], entries: &[Entry]) -> Result<bool, Refusal> {
    let mut are_same = devices.len() == entries.len();
    for (device, entry) in devices.iter().zip(entries) {
        are_same = *device == device_of(alloc, entry)? && are_same;
    }
    Ok(are_same)
}

// An image whose checkpoint at number 7 has these records, and gives this number of them.
fn checkpoint(alloc: Global, count: u8, entries: &[Entry]) -> Result<Vec<u8>, Refusal> {
    checkpoint_of(alloc, count, &entries_of(alloc, entries)?)
}

// Appends a batch of these entries after its open gate.
fn add_batch(
    alloc: Global,
    bytes: &mut Vec<u8>,
    (last, count): (u8, u8),
    entries: &[Entry],
) -> Result<(), Refusal> {
    add_batch_of(bytes, (last, count), &entries_of(alloc, entries)?)
}

const BUSY_AND_IDLE: &[Entry] = &[(0, 1, true), (1, 2, false)];

// Whether a store has a busy and an idle device after seven decisions, and goes on with three more.
fn goes_on(alloc: Global, store: &mut Store<MemDisk>) -> Result<bool, Refusal> {
    let is_right = store.seq() == 7 && are_devices(alloc, store.table().devices(), BUSY_AND_IDLE)?;
    take(alloc, store, '3', ALL)?;
    Ok(is_right)
}

fn are_found(alloc: Global) -> Result<(bool, (usize, u64)), Refusal> {
    let image = checkpoint(alloc, 2, BUSY_AND_IDLE)?;
    let mut store = open(alloc, disk_of(alloc, image)?)?;
    let goes_on = goes_on(alloc, &mut store);
    Ok((goes_on == Ok(true), found(alloc, store.close())?))
}

#[test]
fn the_records_of_a_checkpoint_are_found(rt: HostRuntime) {
    assert!(rt; are_found(rt.alloc()) == Ok((true, (5, 10))));
}

const IDLE: &[Entry] = &[(0, 1, false)];

const BUSY: &[Entry] = &[(0, 1, true), (1, 2, true), (2, 3, true)];

const OTHER: &[Entry] = &[(1, 9, false)];

const REPLACED: &[Entry] = &[(0, 1, true), (1, 9, false), (2, 3, true)];

// A store with an idle device, a batch of more than 12,000 bytes that puts records at its slot and
// at new ones, and a batch that gives the second slot to another device.
fn replaced(alloc: Global) -> Result<MemDisk, Refusal> {
    let mut bytes = checkpoint(alloc, 1, IDLE)?;
    let before = bytes.len();
    add_batch(alloc, &mut bytes, (10, 3), BUSY)?;
    if bytes.len().saturating_sub(before) != 15 + 3 * 4_047 {
        return Err(Refusal::WrongSize);
    }
    add_batch(alloc, &mut bytes, (11, 1), OTHER)?;
    disk_of(alloc, bytes)
}

// Whether the first device is busy, the second is the other one, and the third is busy.
fn are_replaced(alloc: Global) -> Result<bool, Refusal> {
    let store = open(alloc, replaced(alloc)?)?;
    let (table, seq) = (store.table(), store.seq());
    let are_right = are_devices(alloc, table.devices(), REPLACED);
    Ok(seq == 11 && table.slot_of(Eui(2)).is_none() && are_right == Ok(true))
}

#[test]
fn records_are_put_at_slots_in_use(rt: HostRuntime) {
    assert!(rt; are_replaced(rt.alloc()) == Ok(true));
}

// The refusal of a checkpoint that gives this number of records, and has these.
fn refused(alloc: Global, count: u8, entries: &[Entry]) -> Result<Option<Refusal>, Refusal> {
    let disk = disk_of(alloc, checkpoint(alloc, count, entries)?)?;
    Ok(open(alloc, disk).err())
}

// Records that aren't allowed, and the number that the header gives.
const RECORDS: &[(u8, &[Entry])] = &[
    // A DevEUI in two slots, a skipped slot, one more record than slots.
    (2, &[(0, 1, false), (1, 1, false)]),
    (2, &[(0, 1, false), (2, 2, false)]),
    (2, &[(0, 1, false), (8, 9, false)]),
    // A slot twice, of another device or of the same one, and after others.
    (2, &[(0, 1, false), (0, 2, false)]),
    (2, &[(0, 1, false), (0, 1, false)]),
    (3, &[(0, 1, false), (1, 2, false), (0, 3, false)]),
    // Another order.
    (2, &[(1, 2, false), (0, 1, false)]),
    (1, &[(1, 1, false)]),
    // Another number.
    (0, &[(0, 1, false)]),
    (1, &[(0, 1, false), (1, 2, false)]),
    (3, &[(0, 1, false), (1, 2, false)]),
];

#[test]
fn records_that_may_not_stand_are_refused(rt: HostRuntime) {
    for (count, entries) in RECORDS {
        let refused = refused(rt.alloc(), *count, entries);
        assert!(rt;
            refused == Ok(Some(Refusal::Damaged)),
            "{count} of {entries:?}"
        );
    }
}
