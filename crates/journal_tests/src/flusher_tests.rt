// What a flusher releases.
use devices::{Application, AskedBytes, Command, Effect, Queueing, Report, Tag};
use disk::{Image, MemDisk, Sim};
use flusher::{Durable, Feed, Most, Released, Room, StoredBatches, cycle};
use frame_crypt::join_mic;
use lw_types::{Eui, Refusal};
use sessions::{Batch, Table};
use std::alloc::Global;
use store::{Store, open};
use store_layout::put_entry;
use test_stores::devices_under_test::{
    JOINER, JOINER_KEY, add, bringing, busy_joiner, heard_frame, joining,
};
use test_stores::images_under_test::{FRONT, add_batch_of, disk_of};
use test_stores::stores_under_test::{LEN, new_store, opened};

// Provisionings of this number of devices, made from a table without devices, which stays as it is.
// The DevEUIs are counted down from 2000.
fn batch_of(alloc: Global, table: &Table, count: u64) -> Result<Batch, Refusal> {
    let mut batch = Batch::new(alloc)?;
    let mut table = table.copy()?;
    bring_all(alloc, &mut table, &mut batch, count)?;
    Ok(batch)
}

fn bring_all(
    alloc: Global,
    table: &mut Table,
    batch: &mut Batch,
    count: u64,
) -> Result<(), Refusal> {
    for seq in 0..count {
        if batch.len() >= Batch::MOST {
            return Err(Refusal::OutOfStep);
        }
        add(
            alloc,
            table,
            seq,
            batch,
            bringing(2000_u64.saturating_sub(seq))?,
        )?;
    }
    Ok(())
}

// The last phase of the commit of a batch.
fn committed(
    alloc: Global,
    store: &mut Store<MemDisk>,
    batch: Batch,
) -> Result<store::Durable, Refusal> {
    if !store.roomy() {
        return Err(Refusal::Backlog);
    }
    let written = store.begin(alloc, batch)?.write(store)?;
    written.sync(store)?.open_gate(store)?.sync(store)
}

// A durable batch of this number of provisionings.
fn durable(alloc: Global, count: u64) -> Result<Durable, Refusal> {
    durable_on(alloc, &mut new_store(alloc, 64)?, count)
}

fn durable_on(alloc: Global, store: &mut Store<MemDisk>, count: u64) -> Result<Durable, Refusal> {
    let batch = batch_of(alloc, store.table(), count)?;
    let room = Room::new(alloc)?;
    Ok(Durable::new(committed(alloc, store, batch)?, room))
}

/// Whether this reports to the application 3 that the device of this DevEUI has this slot.
pub fn is_provisioned(effect: &Effect, slot: u16, dev_eui: u64) -> bool {
    match effect {
        Effect::Report {
            application,
            dev_eui: named,
            report,
        } => {
            let is_told = *report == Report::Provisioned { slot };
            is_told && application.get() == 3 && *named == Eui(dev_eui)
        }
        _ => false,
    }
}

// The number of provisionings that are reported, if these effects are those of a batch of them, in
// order.
fn count_provisioned(released: &[Released]) -> Option<usize> {
    for (slot, one) in (0..64).zip(released) {
        if !is_provisioned(one.effect(), slot, 2000_u64.saturating_sub(u64::from(slot))) {
            return None;
        }
    }
    Some(released.len())
}

// The number of provisionings of a batch that leave in order. Those of another batch are lost, as
// at a crash.
fn leave(alloc: Global, count: u64) -> Result<Option<usize>, Refusal> {
    durable(alloc, count)?.lose();
    let released = durable(alloc, count)?.release();
    Ok(count_provisioned(&released))
}

#[test]
fn effects_leave_in_order(rt: HostRuntime) {
    assert!(rt; leave(rt.alloc(), 3) == Ok(Some(3)));
    assert!(rt; leave(rt.alloc(), 64) == Ok(Some(64)));
}

// What leaves in a round.
#[derive(Clone, Copy, PartialEq)]
enum Leaves {
    Nothing,
    /// Once the effects of this number of provisionings, in order.
    Provisioned(usize),
    /// Once this number of accepts, and nothing else.
    Accepts(usize),
    /// Anything else.
    Other,
}

// Whether all of these are accepts.
fn are_accepts(released: &[Released]) -> bool {
    for one in released {
        let Effect::Accept { .. } = one.effect() else {
            return false;
        };
    }
    true
}

fn what_leaves(released: &[Released]) -> Leaves {
    match count_provisioned(released) {
        Some(count) => Leaves::Provisioned(count),
        None if are_accepts(released) => Leaves::Accepts(released.len()),
        None => Leaves::Other,
    }
}

// A round's result, and what leaves in it.
type Round = (Result<usize, Refusal>, Leaves);

fn round(alloc: Global, store: &mut Store<MemDisk>, feed: &mut impl Feed) -> Round {
    let mut leaves = Leaves::Nothing;
    let mut out = |released: Vec<Released>| {
        leaves = match leaves {
            Leaves::Nothing => what_leaves(&released),
            _ => Leaves::Other,
        };
    };
    let answer = cycle(store, feed, alloc, &mut out);
    (answer, leaves)
}

// A feed that refuses.
#[derive(Drop)]
struct Refusing(Refusal);

impl Feed for Refusing {
    ghost use Rattle.std.specs.Prelude.{◌≡◌, Err};

    ghost gives = { λ old _ answer new. (answer ≡ Err old.0) × (new ≡ old) };

    fn next(&mut self, _most: Most) -> Result<Batch, Refusal> {
        Err(self.0)
    }
}

fn refused_round(alloc: Global) -> Result<Round, Refusal> {
    let mut store = new_store(alloc, 64)?;
    Ok(round(alloc, &mut store, &mut Refusing(Refusal::Backlog)))
}

#[test]
fn without_a_batch_nothing_leaves(rt: HostRuntime) {
    let refused = (Err(Refusal::Backlog), Leaves::Nothing);
    assert!(rt; refused_round(rt.alloc()) == Ok(refused));
}

const NOTHING: Round = (Ok(0), Leaves::Nothing);

const STALE: Round = (Err(Refusal::OutOfStep), Leaves::Nothing);

const FAILED: Round = (Err(Refusal::DeviceFailed), Leaves::Nothing);

const CLOSED: Round = (Err(Refusal::Failed), Leaves::Nothing);

const THREE: Round = (Ok(3), Leaves::Provisioned(3));

const ALL: Round = (Ok(64), Leaves::Provisioned(64));

// Two rounds on a disk whose call of this number fails, or none if it is 0; the second batch is
// also made from the empty table. The number of devices of each batch, the outcome of the rounds,
// and the number of decisions that are durable after them.
const ROUNDS: &[(u64, (u64, u64), (Round, Round), u64)] = &[
    // an empty batch
    (0, (0, 0), (NOTHING, NOTHING), 0),
    // a batch leaves once
    (0, (3, 1), (THREE, STALE), 3),
    (0, (64, 1), (ALL, STALE), 64),
    // nothing leaves if the disk fails
    (1, (3, 3), (FAILED, CLOSED), 0),
    (2, (3, 3), (FAILED, CLOSED), 0),
    (3, (3, 3), (FAILED, CLOSED), 0),
    (4, (3, 3), (FAILED, CLOSED), 0),
    (5, (3, 3), (THREE, STALE), 3),
];

// Batches that provision this number of devices each, all made from one table.
fn batches(alloc: Global, table: &Table, counts: (u64, u64)) -> Result<StoredBatches, Refusal> {
    let mut batches = Vec::new(alloc);
    for count in [counts.0, counts.1] {
        batches.push(batch_of(alloc, table, count)?)?;
    }
    Ok(StoredBatches::new(alloc, batches))
}

// The outcome of two rounds, and the number of decisions that are durable after them; each
// provisioned a device.
fn rounds(
    alloc: Global,
    failing: u64,
    counts: (u64, u64),
) -> Result<((Round, Round), u64), Refusal> {
    let mut store = new_store(alloc, 64)?;
    let mut feed = batches(alloc, store.table(), counts)?;
    arm(&mut store, failing);
    let first = round(alloc, &mut store, &mut feed);
    let second = round(alloc, &mut store, &mut feed);
    if store.table().devices().len() as u64 == store.seq() {
        Ok(((first, second), store.seq()))
    } else {
        Err(Refusal::Damaged)
    }
}

fn arm(store: &mut Store<MemDisk>, call: u64) {
    if call > 0 {
        store.arm(call);
    }
}

#[test]
fn a_durable_batch_leaves_once(rt: HostRuntime) {
    for (failing, counts, wanted, durable) in ROUNDS {
        let rounds = rounds(rt.alloc(), *failing, *counts);
        assert!(rt; rounds == Ok((*wanted, *durable)), "{failing}");
    }
}

// A flusher, and the table after all that was decided.
#[derive(Drop)]
struct Flushed {
    store: Store<MemDisk>,
    now: Table,
    accepts: usize,
    checkpoints: usize,
}

impl Flushed {
    fn new(store: Store<MemDisk>) -> Result<Self, Refusal> {
        Ok(Flushed {
            now: store.table().copy()?,
            store,
            accepts: 0,
            checkpoints: 0,
        })
    }

    // The device that joins is provisioned, and sixteen items are queued for it.
    fn queue(&mut self, alloc: Global) -> Result<(), Refusal> {
        self.carry_out(alloc, joining()?)?;
        for tag in 0..16 {
            self.carry_out(alloc, queueing(alloc, tag)?)?;
        }
        Ok(())
    }

    // The command is decided, and its batch released.
    fn carry_out(&mut self, alloc: Global, command: Command) -> Result<(), Refusal> {
        let mut batch = Batch::new(alloc)?;
        add(alloc, &mut self.now, self.store.seq(), &mut batch, command)?;
        let is_due = !self.store.roomy();
        let (answer, leaves) = round(alloc, &mut self.store, &mut feed_of(alloc, batch)?);
        let _ = answer?;
        if leaves == Leaves::Accepts(1) {
            self.accepts = self.accepts.saturating_add(1);
        }
        self.checkpoints = self.checkpoints.saturating_add(usize::from(is_due));
        Ok(())
    }
}

// An item of 242 bytes for the device that joins.
fn queueing(alloc: Global, tag: u32) -> Result<Command, Refusal> {
    let payload = AskedBytes::new(vec![in alloc; 6; 242]?);
    match (Application::new(3), payload) {
        (Some(application), Ok(payload)) => Ok(Command::Queue(Queueing {
            application,
            dev_eui: Eui(JOINER),
            tag: Tag(tag),
            port: 1,
            confirmed: false,
            payload,
        })),
        _ => Err(Refusal::Damaged),
    }
}

// A feed of one batch.
fn feed_of(alloc: Global, batch: Batch) -> Result<StoredBatches, Refusal> {
    let mut batches = Vec::new(alloc);
    batches.push(batch)?;
    Ok(StoredBatches::new(alloc, batches))
}

/// The Join-Request with this DevNonce.
pub fn request(alloc: Global, dev_nonce: u16) -> Result<Command, Refusal> {
    let [low, high] = dev_nonce.to_le_bytes();
    let message = [
        0x00, 0x08, 0x07, 0x06, 0x05, 0x04, 0x03, 0x02, 0x01, 0x18, 0x17, 0x16, 0x15, 0x14, 0x13,
        0x12, 0x11, low, high,
    ];
    let mut frame = message.to_vec(alloc)?;
    frame.extend_from_slice(&join_mic(&JOINER_KEY, &message))?;
    heard_frame(alloc, frame)
}

impl Flushed {
    // The device joins with this DevNonce.
    fn join(&mut self, alloc: Global, dev_nonce: u16) -> Result<(), Refusal> {
        self.carry_out(alloc, request(alloc, dev_nonce)?)
    }

    // The queue is filled, and the device joins with each DevNonce up to this one.
    fn queue_and_join(&mut self, alloc: Global, most: u16) -> Result<(), Refusal> {
        self.queue(alloc)?;
        for dev_nonce in 1..=most {
            self.join(alloc, dev_nonce)?;
        }
        Ok(())
    }
}

// The number of accepts that leave, the number of checkpoints that are written, and the last
// number, if the device has a full queue and joins this number of times.
fn joins(alloc: Global, most: u16) -> Result<(usize, usize, u64), Refusal> {
    let mut flushed = Flushed::new(new_store(alloc, 8)?)?;
    flushed.queue_and_join(alloc, most)?;
    Ok((flushed.accepts, flushed.checkpoints, flushed.store.seq()))
}

// Of an area's journal 807,510 bytes are filled before a checkpoint is due. The device and its
// items take 4,414, and each join, whose change has 43 bytes, takes 63.
#[test]
fn a_store_never_fills(rt: HostRuntime) {
    assert!(rt; joins(rt.alloc(), 20_000) == Ok((20_000, 1, 20_017)));
}

/// This number of entries of the device that joins, with a full queue.
pub fn records(alloc: Global, count: u8) -> Result<Vec<u8>, Refusal> {
    let device = busy_joiner(alloc)?;
    let mut bytes = Vec::new(alloc);
    for _ in 0..count {
        put_entry(0, &device, &mut bytes)?;
    }
    Ok(bytes)
}

// A store in whose journal there is no room for the largest batch: it has 200 whole records of
// 4,047 bytes each.
fn full_store(alloc: Global) -> Result<Store<MemDisk>, Refusal> {
    let mut bytes = FRONT.to_vec(alloc)?;
    for (last, count) in [(64, 64), (128, 64), (192, 64), (200, 8)] {
        add_batch_of(&mut bytes, (last, count), &records(alloc, count)?)?;
    }
    open(alloc, disk_of(alloc, bytes)?)
}

// The outcome of a round that has to write a checkpoint, if a call of the disk fails: its refusal,
// the number of accepts that left by it, and whether the store kept its number.
type Checkpointing = (Option<Refusal>, usize, bool);

fn failing_checkpoint(alloc: Global, call: u64) -> Result<Checkpointing, Refusal> {
    let mut flushed = Flushed::new(full_store(alloc)?)?;
    let (seq, is_roomy) = (flushed.store.seq(), flushed.store.roomy());
    arm(&mut flushed.store, call);
    let refused = flushed.join(alloc, 1).err();
    if is_roomy {
        return Err(Refusal::Backlog);
    }
    Ok((refused, flushed.accepts, flushed.store.seq() == seq))
}

#[test]
fn nothing_leaves_where_a_checkpoint_fails(rt: HostRuntime) {
    for call in 1..=8 {
        let failed = (Some(Refusal::DeviceFailed), 0, true);
        assert!(rt;
            failing_checkpoint(rt.alloc(), call) == Ok(failed),
            "{call}"
        );
    }
    assert!(rt; failing_checkpoint(rt.alloc(), 9) == Ok((None, 1, false)));
}

/// The image that has the low eight bits of each place.
pub fn low_bits(alloc: Global, len: usize) -> Result<Image, Refusal> {
    let mut bytes = Vec::with_capacity(alloc, len)?;
    for place in 0..len {
        bytes.push((place % 256) as u8)?;
    }
    Ok(Image::Bytes(bytes))
}

// The number of the store after such a round, if the disk crashes to this image.
fn left_by(alloc: Global, call: u64, image: &Image) -> Result<u64, Refusal> {
    let mut flushed = Flushed::new(full_store(alloc)?)?;
    arm(&mut flushed.store, call);
    let _ = flushed.join(alloc, 1);
    let Flushed { store, .. } = flushed;
    let mut disk = store.close();
    disk.crash(image);
    let (_, seq) = opened(alloc, &mut disk)?;
    Ok(seq)
}

// The numbers after a crash to what was synced, to what was written, to open gates, and to the low
// eight bits of each place.
type Left = [u64; 4];

fn left_by_each(alloc: Global, call: u64) -> Result<Left, Refusal> {
    let low = low_bits(alloc, LEN)?;
    let mut left = [0; 4];
    for (seq, image) in left
        .iter_mut()
        .zip(&[Image::Old, Image::New, Image::Fill(0xA5), low])
    {
        *seq = left_by(alloc, call, image)?;
    }
    Ok(left)
}

// The call that fails: four of the checkpoint, and four of the batch after it. A write that fails
// may have reached the disk, and a sync that fails leaves what a stop before it leaves. The low
// eight bits of both gates' places, C6 and B3, are closed gates.
const CHECKPOINTED: &[(u64, Left)] = &[
    (1, [200; 4]),
    (2, [200; 4]),
    (3, [200; 4]),
    (4, [200; 4]),
    (5, [200; 4]),
    (6, [200; 4]),
    (7, [200, 200, 201, 200]),
    (8, [200, 201, 201, 200]),
];

#[test]
fn a_stop_in_a_checkpoint_loses_nothing(rt: HostRuntime) {
    for (call, wanted) in CHECKPOINTED {
        let left = left_by_each(rt.alloc(), *call);
        assert!(rt; left == Ok(*wanted), "{call}: {left:?}");
    }
}
