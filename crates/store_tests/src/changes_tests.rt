// Journals of version 1 with changes, after whole records as every entry was before changes
// existed. The bytes were laid out by hand, from the format.
use devices::{Application, AskedBytes, Command, Queueing, Tag};
use disk::{Image, MemDisk, Sim};
use lw_types::{Eui, Refusal, read_hex};
use sessions::{Batch, Table};
use std::alloc::Global;
use store::{Store, open};
use store_layout::put_batch;
use test_stores::devices_under_test::{JOINER, add, heard, joining, new_table};
use test_stores::images_under_test::{OLD_FRONT, add_batch_of, checkpoint_of, disk_of};
use test_stores::stores_under_test::{ALL, GATE_B, begin_commit, opened, put};

// The entry of the device that joins, as it was provisioned, in version 1 and in version 2.
const PROVISIONED_1: &str = concat!(
    "0100000032",
    "111213141516171801020304050607082B7E151628AED2A6ABF7158809CF4F3C",
    "030001000000000000000000000000000000",
);

const PROVISIONED_2: &str = concat!(
    "010000003A",
    "111213141516171801020304050607082B7E151628AED2A6ABF7158809CF4F3C",
    "0300010000000000000000000000000000000000000000000000",
);

// Batches of a store without changes: the device is provisioned; an item with the tag 9 and the MAC
// command DevStatusReq are queued for it; and a second device is provisioned.
const WHOLE_RECORDS: &[((u8, u8), &str)] = &[
    ((1, 1), PROVISIONED_1),
    (
        (3, 2),
        concat!(
            "010000003A",
            "111213141516171801020304050607082B7E151628AED2A6ABF7158809CF4F3C",
            "03000100000000000000000000000000000100000009070001AA",
            "010000003B",
            "111213141516171801020304050607082B7E151628AED2A6ABF7158809CF4F3C",
            "0300010000000000000000000000000001060100000009070001AA",
        ),
    ),
    (
        (4, 1),
        concat!(
            "0100010032",
            "000000000000000201020304050607082B2B2B2B2B2B2B2B2B2B2B2B2B2B2B2B",
            "030001000000000000000000000000000000",
        ),
    ),
];

// Where the batch after those begins.
const LAST_BATCH: usize = 62 + 70 + 142 + 70;

// The bytes of these batches after a checkpoint without records.
fn journal(alloc: Global, batches: &[((u8, u8), &str)]) -> Result<Vec<u8>, Refusal> {
    let mut bytes = OLD_FRONT.to_vec(alloc)?;
    for (numbers, entries) in batches {
        add_batch_of(&mut bytes, *numbers, &read_hex(alloc, entries)?)?;
    }
    Ok(bytes)
}

// The number of devices of a store, its number, and the numbers of items and of bytes of MAC
// commands that wait for the first device.
type Found = (usize, u64, usize, usize);

fn state_of(store: &Store<MemDisk>) -> Result<Found, Refusal> {
    let devices = store.table().devices();
    match devices.first() {
        Some(first) => {
            let waiting = (
                first.items.as_slice().len(),
                first.mac_queue.as_slice().len(),
            );
            Ok((devices.len(), store.seq(), waiting.0, waiting.1))
        }
        None => Err(Refusal::CutShort),
    }
}

// The state of the store with those batches, and one more of this number of entries.
fn found(alloc: Global, count: u8, entries: &str) -> Result<Found, Refusal> {
    let mut bytes = journal(alloc, WHOLE_RECORDS)?;
    let last = count.saturating_add(4);
    add_batch_of(&mut bytes, (last, count), &read_hex(alloc, entries)?)?;
    state_of(&open(alloc, disk_of(alloc, bytes)?)?)
}

// The first item is removed; one with the tag 9 is added; and it is removed.
const THREE_CHANGES: &str = concat!(
    "02000000024000",
    "020000000A400100000009070001AA",
    "02000000024000",
);

const BATCHES: &[(u8, &str, Result<Found, Refusal>)] = &[
    // Nothing changes; the item is removed; the MAC command is removed; each changes what those
    // before it in the batch leave.
    (1, "020000000100", Ok((2, 5, 1, 1))),
    (1, "02000000024000", Ok((2, 5, 0, 1))),
    (1, "02000000022000", Ok((2, 5, 1, 0))),
    (3, THREE_CHANGES, Ok((2, 7, 0, 1))),
    // Nothing is left that could be removed, within the batch and in another slot's record.
    (2, "0200000002400002000000024000", Err(Refusal::Damaged)),
    (1, "02000100024000", Err(Refusal::Damaged)),
    // Slots without a record: the next one, and beyond the table.
    (1, "020002000100", Err(Refusal::Damaged)),
    (1, "020008000100", Err(Refusal::Damaged)),
    (1, "02FFFF000100", Err(Refusal::Damaged)),
    // The MAC command that already waits; no mask; a byte too many, and one too few; a bit that
    // means nothing; and another kind.
    (1, "0200000003200106", Err(Refusal::Damaged)),
    (1, "0200000000", Err(Refusal::Damaged)),
    (1, "02000000020000", Err(Refusal::Damaged)),
    (1, "020000000140", Err(Refusal::Damaged)),
    (1, "020000000200", Err(Refusal::Damaged)),
    (1, "020000000180", Err(Refusal::Damaged)),
    (1, "030000000100", Err(Refusal::Damaged)),
];

#[test]
fn changes_are_of_the_record_that_the_slot_has_then(rt: HostRuntime) {
    for (count, entries, wanted) in BATCHES {
        let found = found(rt.alloc(), *count, entries);
        assert!(rt; found == *wanted, "{entries}");
    }
}

// What results from a checkpoint of the device that gives this number of records, with a change
// after it.
fn checkpointed(alloc: Global, count: u8, change: &str) -> Result<Found, Refusal> {
    let mut records = read_hex(alloc, PROVISIONED_2)?;
    let change = read_hex(alloc, change)?;
    records.extend_from_slice(&change)?;
    let bytes = checkpoint_of(alloc, count, &records)?;
    state_of(&open(alloc, disk_of(alloc, bytes)?)?)
}

#[test]
fn no_change_stands_in_a_checkpoint(rt: HostRuntime) {
    let (alloc, change) = (rt.alloc(), "020000000100");
    assert!(rt; checkpointed(alloc, 1, "") == Ok((1, 7, 0, 0)));
    assert!(rt; checkpointed(alloc, 1, change) == Err(Refusal::Damaged));
    assert!(rt; checkpointed(alloc, 2, change) == Err(Refusal::Damaged));
}

// An item for the device that joins.
fn queueing(alloc: Global, tag: u32) -> Result<Command, Refusal> {
    let payload = AskedBytes::new(vec![in alloc; 0xAA; 1]?);
    match (Application::new(3), payload) {
        (Some(application), Ok(payload)) => Ok(Command::Queue(Queueing {
            application,
            dev_eui: Eui(JOINER),
            tag: Tag(tag),
            port: 7,
            confirmed: false,
            payload,
        })),
        _ => Err(Refusal::Damaged),
    }
}

// A Join-Request of the device, made by Python's `cryptography`.
const JOIN: &str = "000807060504030201181716151413121101009E7419CE";

// The entries of a batch: the device is provisioned, an item is queued for it, and it joins.
fn entries(alloc: Global) -> Result<Vec<u8>, Refusal> {
    let mut batch = Batch::new(alloc)?;
    let mut table = new_table(alloc, 8)?;
    add(alloc, &mut table, 0, &mut batch, joining()?)?;
    add_changes(alloc, &mut table, &mut batch)?;
    let mut entries = Vec::new(alloc);
    put_batch(&batch, &mut entries)?;
    Ok(entries)
}

fn add_changes(alloc: Global, table: &mut Table, batch: &mut Batch) -> Result<(), Refusal> {
    if batch.len() >= Batch::MOST {
        return Err(Refusal::OutOfStep);
    }
    add(alloc, table, 1, batch, queueing(alloc, 9)?)?;
    if batch.len() >= Batch::MOST {
        return Err(Refusal::OutOfStep);
    }
    add(alloc, table, 2, batch, heard(alloc, JOIN)?)
}

// The entries of the item and, except its session's keys, of the join.
const QUEUED: &str = "020000000A400100000009070001AA";

const JOINED: &str = "020000002B0901000100000102000001";

fn have_their_layout(alloc: Global) -> Result<bool, Refusal> {
    let entries = entries(alloc)?;
    let mut wanted = read_hex(alloc, PROVISIONED_2)?;
    wanted.extend_from_slice(&read_hex(alloc, QUEUED)?)?;
    wanted.extend_from_slice(&read_hex(alloc, JOINED)?)?;
    Ok(entries.starts_with(&wanted) && entries.len() == wanted.len().saturating_add(32))
}

#[test]
fn a_decision_that_found_a_record_is_a_change(rt: HostRuntime) {
    assert!(rt; have_their_layout(rt.alloc()) == Ok(true));
}

// A batch of an item, after what the store has.
fn batch_of(alloc: Global, store: &Store<MemDisk>, tag: u32) -> Result<Batch, Refusal> {
    let command = queueing(alloc, tag)?;
    let mut table = store.table().copy()?;
    let mut batch = Batch::new(alloc)?;
    match add(alloc, &mut table, store.seq(), &mut batch, command) {
        Ok(()) => Ok(batch),
        Err(refusal) => Err(refusal),
    }
}

fn commit(alloc: Global, store: &mut Store<MemDisk>, tag: u32) -> Result<(), Refusal> {
    let batch = batch_of(alloc, store, tag)?;
    begin_commit(alloc, store, batch, ALL)
}

// Commits an item, and returns what a crash leaves.
fn queued(alloc: Global, mut store: Store<MemDisk>, tag: u32) -> Result<Store<MemDisk>, Refusal> {
    let committed = commit(alloc, &mut store, tag);
    let mut disk = store.close();
    disk.crash(&Image::Fill(0xA5));
    committed?;
    open(alloc, disk)
}

// What a store of whole records has, and what it has after two more items, each committed alone.
fn goes_on(alloc: Global) -> Result<(Found, Found), Refusal> {
    let store = open(alloc, disk_of(alloc, journal(alloc, WHOLE_RECORDS)?)?)?;
    let before = state_of(&store);
    let store = queued(alloc, store, 10)?;
    let after = state_of(&queued(alloc, store, 11)?)?;
    Ok((before?, after))
}

#[test]
fn a_store_of_whole_records_goes_on_with_changes(rt: HostRuntime) {
    assert!(rt; goes_on(rt.alloc()) == Ok(((2, 4, 1, 1), (2, 6, 3, 1))));
}

// The first byte of the last batch for which an opening gives something other than a store or a
// refusal of its bytes if this byte stands in its place.
fn first_other(
    alloc: Global,
    disk: &mut MemDisk,
    image: &[u8],
    byte: u8,
) -> Result<Option<usize>, Refusal> {
    for (place, was) in image.iter().enumerate().skip(LAST_BATCH) {
        put(disk, place, &[byte])?;
        match opened(alloc, disk) {
            Ok(_) | Err(Refusal::Damaged) => put(disk, place, &[*was])?,
            Err(_) => return Ok(Some(place)),
        }
        // If the store was taken over, that is undone.
        put(disk, GATE_B, &[0])?;
    }
    Ok(None)
}

fn first_other_of(alloc: Global, byte: u8) -> Result<Option<usize>, Refusal> {
    let mut image = journal(alloc, WHOLE_RECORDS)?;
    add_batch_of(&mut image, (7, 3), &read_hex(alloc, THREE_CHANGES)?)?;
    let mut disk = disk_of(alloc, image.as_slice().to_vec(alloc)?)?;
    first_other(alloc, &mut disk, &image, byte)
}

#[test]
fn another_byte_is_read_or_damaged(rt: HostRuntime) {
    for byte in [0x00, 0x5A, 0xA5, 0xFF] {
        let other = first_other_of(rt.alloc(), byte);
        assert!(rt; other == Ok(None), "{byte}: {other:?}");
    }
}
