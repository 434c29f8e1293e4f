// Calls of a store, each made again if it was refused because memory ran out.
ghost use Rattle.disk.specs.MemDisk.{state_of};
ghost use Rattle.store.specs.Commit.{IsUnderWay};
ghost use Rattle.store.specs.Pairing.{IsRoomyBehind};
ghost use Rattle.store.specs.Phases.{gate_written_sequel, gate_written_size};
ghost use Rattle.store.specs.State.{store_state};

use crate::attempt::Attempt;
use disk::MemDisk;
use lw_types::Refusal;
use sessions::{Batch, Table};
use std::alloc::Global;
use store::{GateWritten, Store, disk_len, format, format_back, open_back};
use test_stores::devices_under_test::{apply, net_id, provisionings, slots};
use test_stores::stores_under_test::{ALL, begin_checkpoint, begin_commit};

/// The slots of these stores: more than the devices of a batch.
pub const SLOTS: u64 = 80;

/// The greatest number of decisions of a batch.
pub const MOST: u64 = 64;

/// A disk for such a store, which isn't empty.
pub fn new_disk(alloc: Global) -> Result<MemDisk, Refusal> {
    let len = disk_len(slots(SLOTS)?) as usize;
    Ok(MemDisk::new(alloc, vec![in alloc; 0xA5; len]?)?)
}

/// The number of devices of a store, and the number of its last decision.
pub fn state(store: &Store<MemDisk>) -> (u64, u64) {
    (store.table().devices().len() as u64, store.seq())
}

/// Whether a disk is as it was before a store was made on it.
pub fn is_untouched(disk: &MemDisk) -> bool {
    disk.content().iter().all(|byte| *byte == 0xA5)
}

/// A store is made.
pub fn made(alloc: Global) -> Result<Attempt, Refusal> {
    let disk = new_disk(alloc)?;
    let network = net_id()?;
    Ok(match format_back(alloc, disk, network, SLOTS) {
        Ok(store) => Attempt::at_once(state(&store) == (0, 0)),
        Err((disk, _)) => {
            let is_as_before = is_untouched(&disk);
            match format_back(alloc, disk, network, SLOTS) {
                Ok(store) => Attempt::again(is_as_before, &Ok(state(&store) == (0, 0))),
                Err(_) => Attempt::Otherwise,
            }
        }
    })
}

fn new_store(alloc: Global) -> Result<Store<MemDisk>, Refusal> {
    format(alloc, new_disk(alloc)?, net_id()?, SLOTS)
}

// Begins a batch, and gives it up.
fn begin(alloc: Global, store: &mut Store<MemDisk>, batch: Batch) -> Result<bool, Refusal> {
    if !store.roomy() {
        return Err(Refusal::Backlog);
    }
    match store.begin(alloc, batch) {
        Ok(begun) => {
            begun.lose();
            Ok(true)
        }
        Err(refusal) => Err(refusal),
    }
}

// The largest batch of a new store, which begins it.
fn begun_on(alloc: Global, store: &mut Store<MemDisk>) -> Result<Attempt, Refusal> {
    let batch = provisionings(alloc, store.table(), 0, MOST)?;
    let same = provisionings(alloc, store.table(), 0, MOST)?;
    Ok(match begin(alloc, store, batch) {
        Ok(is_due) => Attempt::at_once(is_due),
        Err(_) => Attempt::again(state(store) == (0, 0), &begin(alloc, store, same)),
    })
}

/// The largest batch is begun.
pub fn begun(alloc: Global) -> Result<Attempt, Refusal> {
    begun_on(alloc, &mut new_store(alloc)?)
}

// Begins a batch after one whose gate is written, and gives it up.
fn begin_next(
    alloc: Global,
    store: &Store<MemDisk>,
    opened: &GateWritten,
    batch: Batch,
) -> Result<bool, Refusal>
    requires roomy { IsRoomyBehind (store_state state_of store.now) opened.now }
    requires way { IsUnderWay (store_state state_of store.now) (gate_written_sequel opened.now)
        (gate_written_size opened.now) }
{
    match store.begin_next(alloc, opened, batch) {
        Ok(begun) => {
            begun.lose();
            Ok(true)
        }
        Err(refusal) => Err(refusal),
    }
}

// Commits a batch, with another one begun after its open gate. Tries that one once more if it was
// refused.
fn begun_behind(
    alloc: Global,
    store: &mut Store<MemDisk>,
    first: Batch,
    [next, same]: [Batch; 2],
) -> Result<Attempt, Refusal> {
    if !store.roomy() {
        return Err(Refusal::Backlog);
    }
    let written = store.begin(alloc, first)?.write(store)?;
    let opened = written.sync(store)?.open_gate(store)?;
    if !store.roomy_next(&opened) {
        opened.lose();
        return Err(Refusal::Backlog);
    }
    let told = match begin_next(alloc, store, &opened, next) {
        Ok(is_due) => Attempt::at_once(is_due),
        Err(_) => {
            let is_as_before = state(store) == (0, 0);
            Attempt::again(is_as_before, &begin_next(alloc, store, &opened, same))
        }
    };
    let durable = opened.sync(store)?;
    let _ = durable.into_batch();
    Ok(if state(store) == (MOST, MOST) {
        told
    } else {
        Attempt::Otherwise
    })
}

/// The table after a batch of a table without devices.
pub fn behind(table: &Table, batch: &Batch) -> Result<Table, Refusal> {
    let mut now = table.copy()?;
    for (seq, decision) in (0..u64::MAX).zip(batch.as_slice()) {
        apply(&mut now, seq, decision)?;
    }
    Ok(now)
}

fn begun_next_on(alloc: Global, store: &mut Store<MemDisk>) -> Result<Attempt, Refusal> {
    let first = provisionings(alloc, store.table(), 0, MOST)?;
    let now = behind(store.table(), &first)?;
    let next = provisionings(alloc, &now, MOST, SLOTS - MOST)?;
    let same = provisionings(alloc, &now, MOST, SLOTS - MOST)?;
    begun_behind(alloc, store, first, [next, same])
}

/// A batch is begun after the largest one.
pub fn begun_next(alloc: Global) -> Result<Attempt, Refusal> {
    begun_next_on(alloc, &mut new_store(alloc)?)
}

// A checkpoint is begun, and given up.
fn checkpoint(alloc: Global, store: &Store<MemDisk>) -> Result<bool, Refusal> {
    match store.checkpoint_early(alloc) {
        Ok(checkpoint) => {
            checkpoint.lose();
            Ok(true)
        }
        Err(refusal) => Err(refusal),
    }
}

// A checkpoint is begun after the largest batch, and then made.
fn checkpointed(alloc: Global, store: &mut Store<MemDisk>) -> Result<Attempt, Refusal> {
    let batch = provisionings(alloc, store.table(), 0, MOST)?;
    begin_commit(alloc, store, batch, ALL)?;
    let told = match checkpoint(alloc, store) {
        Ok(is_due) => Attempt::at_once(is_due),
        Err(_) => Attempt::again(state(store) == (MOST, MOST), &checkpoint(alloc, store)),
    };
    begin_checkpoint(alloc, store, ALL)?;
    Ok(told)
}

// A disk is opened, once more if that was refused.
fn opened(alloc: Global, disk: MemDisk) -> Attempt {
    match open_back(alloc, disk) {
        Ok(store) => Attempt::at_once(state(&store) == (MOST, MOST)),
        Err((disk, _)) => match open_back(alloc, disk) {
            Ok(store) => Attempt::again(true, &Ok(state(&store) == (MOST, MOST))),
            Err(_) => Attempt::Otherwise,
        },
    }
}

/// A checkpoint of 64 records is begun, and they are opened.
pub fn checkpoint_and_opening(alloc: Global) -> Result<[Attempt; 2], Refusal> {
    let mut store = new_store(alloc)?;
    let begun = checkpointed(alloc, &mut store);
    let disk = store.close();
    Ok([begun?, opened(alloc, disk)])
}
