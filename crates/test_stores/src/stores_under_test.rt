// The stores of tests, steps on them, and what is found on their disks.
ghost use Rattle.std.specs.Prelude.{◌≡◌, true, false};
ghost use Rattle.store.specs.Checkpointing.{FitsOther, checkpoint_size, checkpoint_synced_size};
ghost use Rattle.store.specs.Checkpointing.{checkpoint_written_size};
ghost use Rattle.store.specs.Commit.{IsUnderWay};
ghost use Rattle.store.specs.Phases.{begun_sequel, begun_size, gate_written_sequel};
ghost use Rattle.store.specs.Phases.{gate_written_size, body_synced_sequel, body_synced_size};
ghost use Rattle.store.specs.Phases.{written_sequel, written_size};
ghost use Rattle.store.specs.State.{store_state};

use crate::devices_under_test::{net_id, provisionings, slots};
use disk::{Disk, Image, MemDisk, Sim};
use lw_types::{Eui, Refusal};
use sessions::Batch;
use std::alloc::Global;
use std::mem;
use store::{
    Begun, BodySynced, Checkpoint, CheckpointSynced, CheckpointWritten, GateWritten, Store,
    Written, disk_len, format, open, open_back,
};

/// The length of the disk of a store with 8 slots, and the place of its second area.
pub const LEN: usize = 2_166_124;

pub const SECOND_AREA: usize = 32 + 1_083_046;

/// The gates of both areas, their versions, the first and the last byte of their generations, and
/// the first bytes of the length of their records.
pub const GATE_A: usize = 32;

pub const GATE_B: usize = SECOND_AREA;

pub const VERSION_A: usize = 33;

pub const VERSION_B: usize = SECOND_AREA + 1;

pub const HIGH_A: usize = 34;

pub const HIGH_B: usize = SECOND_AREA + 2;

pub const LOW_A: usize = 41;

pub const LEN_A: usize = 54;

pub const LEN_B: usize = SECOND_AREA + 22;

/// A disk that was full of open gates.
pub fn blank(alloc: Global, len: usize) -> Result<MemDisk, Refusal> {
    Ok(MemDisk::new(alloc, vec![in alloc; 0xA5; len]?)?)
}

/// A new store of network 00002A.
pub fn new_store(alloc: Global, count: u64) -> Result<Store<MemDisk>, Refusal> {
    let len = disk_len(slots(count)?) as usize;
    format(alloc, blank(alloc, len)?, net_id()?, count)
}

/// All calls of a commit, which has four, and of a checkpoint, which has four, or six if the other
/// area is open.
pub const ALL: u64 = 6;

/// The first calls of a commit.
pub fn begin_commit(
    alloc: Global,
    store: &mut Store<MemDisk>,
    batch: Batch,
    calls: u64,
) -> Result<(), Refusal> {
    if !store.roomy() {
        return Err(Refusal::Backlog);
    }
    match store.begin(alloc, batch) {
        Ok(begun) => write_batch(begun, store, calls),
        Err(refusal) => Err(refusal),
    }
}

fn write_batch<D: Disk>(begun: Begun, store: &mut Store<D>, calls: u64) -> Result<(), Refusal>
    requires { IsUnderWay (store_state D.state store.old) (begun_sequel begun) (begun_size begun) }
{
    match begun.write(store) {
        Ok(written) if calls == 1 => {
            written.lose();
            Ok(())
        }
        Ok(written) => sync_batch(written, store, calls),
        Err(refusal) => Err(refusal),
    }
}

fn sync_batch<D: Disk>(written: Written, store: &mut Store<D>, calls: u64) -> Result<(), Refusal>
    requires { IsUnderWay (store_state D.state store.old) (written_sequel written)
        (written_size written) }
{
    match written.sync(store) {
        Ok(synced) if calls == 2 => {
            synced.lose();
            Ok(())
        }
        Ok(synced) => open_batch(synced, store, calls),
        Err(refusal) => Err(refusal),
    }
}

fn open_batch<D: Disk>(synced: BodySynced, store: &mut Store<D>, calls: u64) -> Result<(), Refusal>
    requires { IsUnderWay (store_state D.state store.old) (body_synced_sequel synced)
        (body_synced_size synced) }
{
    match synced.open_gate(store) {
        Ok(opened) if calls == 3 => {
            opened.lose();
            Ok(())
        }
        Ok(opened) => finish_batch(opened, store),
        Err(refusal) => Err(refusal),
    }
}

fn finish_batch<D: Disk>(opened: GateWritten, store: &mut Store<D>) -> Result<(), Refusal>
    requires { IsUnderWay (store_state D.state store.old) (gate_written_sequel opened)
        (gate_written_size opened) }
{
    match opened.sync(store) {
        Ok(durable) => {
            let _ = durable.into_batch();
            Ok(())
        }
        Err(refusal) => Err(refusal),
    }
}

/// The first calls of a checkpoint.
pub fn begin_checkpoint(
    alloc: Global,
    store: &mut Store<MemDisk>,
    calls: u64,
) -> Result<(), Refusal> {
    let checkpoint = store.checkpoint_early(alloc)?;
    if store.must_retire() {
        retire(checkpoint, store, calls)
    } else {
        write(checkpoint, store, calls)
    }
}

fn retire<D: Disk>(checkpoint: Checkpoint, store: &mut Store<D>, calls: u64) -> Result<(), Refusal>
    requires open { (store_state D.state store.old).log.other_open ≡ true }
    requires fits { FitsOther (store_state D.state store.old) (checkpoint_size checkpoint) }
{
    let retiring = checkpoint.retire(store)?;
    if calls <= 1 {
        retiring.lose();
        return Ok(());
    }
    let checkpoint = retiring.sync(store)?;
    if calls <= 2 {
        checkpoint.lose();
        return Ok(());
    }
    write(checkpoint, store, calls - 2)
}

fn write<D: Disk>(checkpoint: Checkpoint, store: &mut Store<D>, calls: u64) -> Result<(), Refusal>
    requires closed { (store_state D.state store.old).log.other_open ≡ false }
    requires fits { FitsOther (store_state D.state store.old) (checkpoint_size checkpoint) }
{
    match checkpoint.write(store) {
        Ok(written) if calls <= 1 => {
            written.lose();
            Ok(())
        }
        Ok(written) => sync(written, store, calls),
        Err(refusal) => Err(refusal),
    }
}

fn sync<D: Disk>(
    written: CheckpointWritten,
    store: &mut Store<D>,
    calls: u64,
) -> Result<(), Refusal>
    requires { FitsOther (store_state D.state store.old) (checkpoint_written_size written) }
{
    match written.sync(store) {
        Ok(synced) if calls == 2 => {
            synced.lose();
            Ok(())
        }
        Ok(synced) => open_gate(synced, store, calls),
        Err(refusal) => Err(refusal),
    }
}

fn open_gate<D: Disk>(
    synced: CheckpointSynced,
    store: &mut Store<D>,
    calls: u64,
) -> Result<(), Refusal>
    requires { FitsOther (store_state D.state store.old) (checkpoint_synced_size synced) }
{
    match synced.open_gate(store) {
        Ok(opened) if calls == 3 => {
            opened.lose();
            Ok(())
        }
        Ok(opened) => opened.sync(store),
        Err(refusal) => Err(refusal),
    }
}

/// The first calls of a step: `c` is a checkpoint; a digit, `x` and `m` are commits of this number
/// of provisionings, of ten, and of as many as a batch may have.
pub fn take(
    alloc: Global,
    store: &mut Store<MemDisk>,
    step: char,
    calls: u64,
) -> Result<(), Refusal> {
    let count = match step {
        '1' => 1,
        '2' => 2,
        '3' => 3,
        '5' => 5,
        'x' => 10,
        'm' => Batch::MOST as u64,
        _ => return begin_checkpoint(alloc, store, calls),
    };
    let batch = provisionings(alloc, store.table(), store.seq(), count)?;
    begin_commit(alloc, store, batch, calls)
}

/// Takes these steps completely.
pub fn take_all(alloc: Global, store: &mut Store<MemDisk>, steps: &str) -> Result<(), Refusal> {
    for step in steps.chars() {
        take(alloc, store, step, ALL)?;
    }
    Ok(())
}

/// A store with 8 slots after these steps.
pub fn store_after(alloc: Global, steps: &str) -> Result<Store<MemDisk>, Refusal> {
    let mut store = new_store(alloc, 8)?;
    match take_all(alloc, &mut store, steps) {
        Ok(()) => Ok(store),
        Err(refusal) => Err(refusal),
    }
}

/// The disk of a store with 8 slots after these steps, and this number of calls of a last one.
pub fn cut(alloc: Global, steps: &str, last: char, calls: u64) -> Result<MemDisk, Refusal> {
    let mut store = store_after(alloc, steps)?;
    match take(alloc, &mut store, last, calls) {
        Ok(()) => Ok(store.close()),
        Err(refusal) => Err(refusal),
    }
}

/// The number of devices of a store, and the store's number. It is damaged if the device of the
/// DevEUI 1 isn't in the first slot, or that of the number not in the last one.
pub fn state_of(store: &Store<MemDisk>) -> Result<(usize, u64), Refusal> {
    let (table, seq) = (store.table(), store.seq());
    let count = table.devices().len();
    let is_in_order = match (table.slot_of(Eui(1)), table.slot_of(Eui(seq))) {
        (Some(0), Some(last)) => usize::from(last) + 1 == count,
        (None, None) => count == 0,
        _ => false,
    };
    if is_in_order {
        Ok((count, seq))
    } else {
        Err(Refusal::Damaged)
    }
}

/// The state of the store that is opened on a disk.
pub fn found(alloc: Global, disk: MemDisk) -> Result<(usize, u64), Refusal> {
    state_of(&open(alloc, disk)?)
}

/// The state that a crash to this image leaves.
pub fn crashed(alloc: Global, mut disk: MemDisk, image: &Image) -> Result<(usize, u64), Refusal> {
    disk.crash(image);
    found(alloc, disk)
}

/// The devices and the number of the store that is opened on a disk, which is then put back.
pub fn opened(alloc: Global, disk: &mut MemDisk) -> Result<(usize, u64), Refusal> {
    let whole = mem::replace(disk, MemDisk::new(alloc, Vec::new(alloc))?);
    match open_back(alloc, whole) {
        Ok(store) => {
            let found = (store.table().devices().len(), store.seq());
            *disk = store.close();
            Ok(found)
        }
        Err((back, refusal)) => {
            *disk = back;
            Err(refusal)
        }
    }
}

/// Writes these bytes at a place of the disk.
pub fn put(disk: &mut MemDisk, place: usize, bytes: &[u8]) -> Result<(), Refusal> {
    let (place, len) = (place as u64, bytes.len() as u64);
    if len > disk.len() || place > disk.len() - len {
        return Err(Refusal::CutShort);
    }
    match disk.write_at(place, bytes) {
        Ok(()) => Ok(()),
        Err(_) => Err(Refusal::DeviceFailed),
    }
}
