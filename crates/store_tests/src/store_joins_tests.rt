// Batches that replace the record of a slot in use. The frames were made by Python's
// `cryptography`.
use devices::Command;
use disk::{Image, MemDisk, Sim};
use lw_types::Refusal;
use sessions::{Batch, Table};
use std::alloc::Global;
use store::{Store, open};
use test_stores::devices_under_test::{add, heard, joining};
use test_stores::stores_under_test::{ALL, begin_commit, new_store};

// Join-Requests of the device that joins, with the DevNonces 1 to 3.
const JOIN_1: &str = "000807060504030201181716151413121101009E7419CE";

const JOIN_2: &str = "00080706050403020118171615141312110200C13BE455";

const JOIN_3: &str = "00080706050403020118171615141312110300E85E42DA";

// What a letter asks for: `b` provisions the device, and a digit is its Join-Request with this
// DevNonce.
fn command(alloc: Global, letter: char) -> Result<Command, Refusal> {
    match letter {
        '1' => heard(alloc, JOIN_1),
        '2' => heard(alloc, JOIN_2),
        '3' => heard(alloc, JOIN_3),
        _ => joining(),
    }
}

fn add_all(
    alloc: Global,
    table: &mut Table,
    seq: u64,
    batch: &mut Batch,
    letters: &str,
) -> Result<(), Refusal> {
    for (seq, letter) in (seq..u64::MAX).zip(letters.chars()) {
        if batch.len() >= Batch::MOST {
            return Err(Refusal::OutOfStep);
        }
        add(alloc, table, seq, batch, command(alloc, letter)?)?;
    }
    Ok(())
}

// A batch of what these letters ask for, after what the store has.
fn batch(alloc: Global, store: &Store<MemDisk>, letters: &str) -> Result<Batch, Refusal> {
    let mut batch = Batch::new(alloc)?;
    let mut table = store.table().copy()?;
    add_all(alloc, &mut table, store.seq(), &mut batch, letters)?;
    Ok(batch)
}

// The first calls of the commit of such a batch.
fn commit(
    alloc: Global,
    store: &mut Store<MemDisk>,
    letters: &str,
    calls: u64,
) -> Result<(), Refusal> {
    let batch = batch(alloc, store, letters)?;
    begin_commit(alloc, store, batch, calls)
}

// The number of the last decision, and the last DevNonce, if the device has joined.
type Joined = (u64, Option<u16>);

// Those of a store with the one device, which has a session of that DevNonce.
fn joined(store: &Store<MemDisk>) -> Option<Joined> {
    let [device] = store.table().devices() else {
        return None;
    };
    let granted = match device.activation.granted() {
        Some(nonce) => nonce.get(),
        None => 0,
    };
    if granted == u32::from(device.last_dev_nonce.unwrap_or(0)) {
        Some((store.seq(), device.last_dev_nonce))
    } else {
        None
    }
}

// The same store after a crash.
fn crashed(alloc: Global, store: Store<MemDisk>, image: &Image) -> Result<Store<MemDisk>, Refusal> {
    let mut disk = store.close();
    disk.crash(image);
    open(alloc, disk)
}

// The store after a batch and a crash, if it has what the batch leads to before and after it.
fn found_again(
    alloc: Global,
    mut store: Store<MemDisk>,
    letters: &str,
    wanted: Joined,
) -> Result<Store<MemDisk>, Refusal> {
    let committed = commit(alloc, &mut store, letters, ALL);
    let before = joined(&store);
    let store = crashed(alloc, store, &Image::Fill(0xA5))?;
    if committed.is_ok() && before == Some(wanted) && joined(&store) == Some(wanted) {
        Ok(store)
    } else {
        Err(Refusal::Damaged)
    }
}

// What a batch contains, and what it leads to.
type Leads = (&'static str, Joined);

// Whether batches, one after the other, are recovered, each after a crash.
fn are_found(alloc: Global, batches: &[Leads]) -> Result<(), Refusal> {
    let mut store = new_store(alloc, 8)?;
    for (letters, wanted) in batches {
        store = found_again(alloc, store, letters, *wanted)?;
    }
    Ok(())
}

const ALONE: &[Leads] = &[("b", (1, None)), ("1", (2, Some(1))), ("2", (3, Some(2)))];

const TOGETHER: &[Leads] = &[("b1", (2, Some(1))), ("23", (4, Some(3)))];

const THREE: &[Leads] = &[("b", (1, None)), ("123", (4, Some(3)))];

#[test]
fn a_record_of_a_slot_in_use_is_replaced(rt: HostRuntime) {
    assert!(rt; are_found(rt.alloc(), ALONE) == Ok(()), "each alone");
    assert!(rt; are_found(rt.alloc(), TOGETHER) == Ok(()), "two in a batch");
    assert!(rt; are_found(rt.alloc(), THREE) == Ok(()), "three in a batch");
}

// What a crash after the first calls of the commit of such a batch leaves, for a device that was
// provisioned.
fn left(
    alloc: Global,
    letters: &str,
    calls: u64,
    image: &Image,
) -> Result<Option<Joined>, Refusal> {
    let mut store = new_store(alloc, 8)?;
    let provisioned = commit(alloc, &mut store, "b", ALL);
    let begun = commit(alloc, &mut store, letters, calls);
    let left = joined(&crashed(alloc, store, image)?);
    provisioned?;
    begun?;
    Ok(left)
}

const PROVISIONED: Joined = (1, None);

// One join, and three of one slot in a batch.
const BATCHES: &[Leads] = &[("1", (2, Some(1))), ("123", (4, Some(3)))];

// The calls that are made, and whether the batch is left in the old bytes, in the new ones and in
// open gates: the body may be torn, and is synced; the gate may be torn, and is synced.
const CALLS: &[(u64, bool, bool, bool)] = &[
    (1, false, false, false),
    (2, false, false, false),
    (3, false, true, true),
    (4, true, true, true),
];

fn leaves(alloc: Global, batch: &Leads, calls: u64, image: &Image, is_left: bool) -> bool {
    let (letters, joined) = *batch;
    let wanted = if is_left { joined } else { PROVISIONED };
    left(alloc, letters, calls, image) == Ok(Some(wanted))
}

#[test]
fn a_crash_leaves_the_old_record_or_the_new(rt: HostRuntime) {
    let alloc = rt.alloc();
    for batch in BATCHES {
        for (calls, old, new, open) in CALLS {
            assert!(rt;
                leaves(alloc, batch, *calls, &Image::Old, *old),
                "{calls}: old"
            );
            assert!(rt;
                leaves(alloc, batch, *calls, &Image::New, *new),
                "{calls}: new"
            );
            assert!(rt;
                leaves(alloc, batch, *calls, &Image::Fill(0xA5), *open),
                "{calls}: open"
            );
        }
    }
}
