// A second batch after one whose gate is open.
use crate::chains_tests::next_batch;
use disk::MemDisk;
use lw_types::Refusal;
use sessions::{Batch, Table};
use std::alloc::Global;
use store::Store;
use test_stores::devices_under_test::{bringing, new_table, provisionings};
use test_stores::stores_under_test::{found, new_store};

// A batch after one of two provisionings, on a store that has one.
#[derive(Clone, Copy)]
enum Other {
    /// One of this number of provisionings that continue what the first one leaves.
    Next(u64),
    /// Made from the table after it, under the number after the store's.
    OtherNumber,
    /// Made from the durable table.
    OfDurable,
    /// Of a table without devices.
    OfNone,
}

// A provisioning on this table, under the number after this one.
fn numbered(alloc: Global, table: &Table, seq: u64) -> Result<Batch, Refusal> {
    let mut batch = Batch::new(alloc)?;
    let decision = table.decide(alloc, seq.saturating_add(1), bringing(900)?)?;
    batch.push(decision);
    Ok(batch)
}

// The second batch, after what the first one leaves.
fn second(
    alloc: Global,
    store: &Store<MemDisk>,
    now: &Table,
    other: Other,
) -> Result<Batch, Refusal> {
    let seq = store.seq();
    match other {
        Other::Next(count) => provisionings(alloc, now, seq.saturating_add(2), count),
        Other::OtherNumber => numbered(alloc, now, seq),
        Other::OfDurable => provisionings(alloc, store.table(), seq.saturating_add(2), 1),
        Other::OfNone => provisionings(alloc, &new_table(alloc, 8)?, 0, 1),
    }
}

// Commits the first batch, with the second one begun after its open gate, and given up.
fn begun_behind(
    alloc: Global,
    store: &mut Store<MemDisk>,
    first: Batch,
    second: Batch,
) -> Result<Option<Refusal>, Refusal> {
    if !store.roomy() {
        return Err(Refusal::Backlog);
    }
    let written = store.begin(alloc, first)?.write(store)?;
    let opened = written.sync(store)?.open_gate(store)?;
    if !store.roomy_next(&opened) {
        opened.lose();
        return Err(Refusal::Backlog);
    }
    let refusal = match store.begin_next(alloc, &opened, second) {
        Ok(begun) => {
            begun.lose();
            None
        }
        Err(refusal) => Some(refusal),
    };
    let _ = opened.sync(store)?.into_batch();
    Ok(refusal)
}

// Commits one provisioning.
fn bring_one(alloc: Global, store: &mut Store<MemDisk>) -> Result<(), Refusal> {
    let one = provisionings(alloc, store.table(), 0, 1)?;
    let _ = begun_behind(alloc, store, one, Batch::new(alloc)?)?;
    Ok(())
}

// The refusal of the second batch after a first one of two provisionings, which are put on the
// table.
fn refused(
    alloc: Global,
    store: &mut Store<MemDisk>,
    now: &mut Table,
    other: Other,
) -> Result<Option<Refusal>, Refusal> {
    let first = next_batch(alloc, now, store.seq(), 2)?;
    let second = second(alloc, store, now, other)?;
    begun_behind(alloc, store, first, second)
}

// The same on a new store, which first gets its first device.
fn refused_on(
    alloc: Global,
    store: &mut Store<MemDisk>,
    other: Other,
) -> Result<Option<Refusal>, Refusal> {
    bring_one(alloc, store)?;
    let mut now = store.table().copy()?;
    refused(alloc, store, &mut now, other)
}

// The refusal of the second batch, the number of the store after the first one, and what is found
// on its disk.
type Answer = (Option<Refusal>, u64, (usize, u64));

fn answer(alloc: Global, other: Other) -> Result<Answer, Refusal> {
    let mut store = new_store(alloc, 8)?;
    let refusal = refused_on(alloc, &mut store, other)?;
    let seq = store.seq();
    Ok((refusal, seq, found(alloc, store.close())?))
}

const ANSWERS: &[(Other, Option<Refusal>)] = &[
    (Other::Next(1), None),
    (Other::Next(5), None),
    (Other::Next(0), Some(Refusal::OutOfStep)),
    (Other::OtherNumber, Some(Refusal::OutOfStep)),
    (Other::OfDurable, Some(Refusal::OutOfStep)),
    (Other::OfNone, Some(Refusal::OutOfStep)),
];

#[test]
fn a_second_batch_continues_the_one_under_way(rt: HostRuntime) {
    for (at, (other, refusal)) in ANSWERS.iter().enumerate() {
        let answer = answer(rt.alloc(), *other);
        assert!(rt; answer == Ok((*refusal, 3, (3, 3))), "{at}");
    }
}
