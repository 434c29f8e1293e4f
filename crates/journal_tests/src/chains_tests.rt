// What leaves by chains of commits, and what is found of them.
use crate::flusher_tests::{is_provisioned, low_bits, records, request};
use disk::{Image, MemDisk, Sim};
use flusher::{ChainLength, Feed, Most, Released, StoredBatches, chain};
use lw_types::Refusal;
use sessions::{Batch, Table};
use std::alloc::Global;
use store::{Store, open};
use test_stores::devices_under_test::{add, apply, bringing, new_table, provisionings};
use test_stores::images_under_test::{FRONT, add_batch_of, disk_of};
use test_stores::stores_under_test::{found, new_store};

// Stored batches. The feed gives this number of them, and then refuses.
#[derive(Drop)]
struct Until {
    left: u64,
    batches: StoredBatches,
}

impl Feed for Until {
    ghost gives = { λ _ _ _ _. Unit {0} };

    fn next(&mut self, most: Most) -> Result<Batch, Refusal> {
        if self.left == 0 {
            return Err(Refusal::Backlog);
        }
        self.left -= 1;
        self.batches.next(most)
    }
}

// A batch of a provisioning that was made from a table without devices.
fn stale(alloc: Global) -> Result<Batch, Refusal> {
    let mut batch = Batch::new(alloc)?;
    add(
        alloc,
        &mut new_table(alloc, 8)?,
        0,
        &mut batch,
        bringing(900)?,
    )?;
    Ok(batch)
}

/// A batch of this number of provisionings after the last one, which are put on the table.
pub fn next_batch(alloc: Global, now: &mut Table, seq: u64, count: u64) -> Result<Batch, Refusal> {
    let batch = provisionings(alloc, now, seq, count)?;
    let mut last = seq;
    for decision in batch.as_slice() {
        apply(now, last, decision)?;
        last = last.saturating_add(1);
    }
    Ok(batch)
}

// Appends a batch for each sign: a digit for one of this number of provisionings, after those
// before it, and any other sign for one that is out of step.
fn add_batches(
    alloc: Global,
    now: &mut Table,
    batches: &mut Vec<Batch>,
    signs: &str,
) -> Result<(), Refusal> {
    let mut seq: u64 = 0;
    for sign in signs.chars() {
        match sign.to_digit(10) {
            Some(count) => {
                let count = u64::from(count);
                batches.push(next_batch(alloc, now, seq, count)?)?;
                seq = seq.saturating_add(count);
            }
            None => batches.push(stale(alloc)?)?,
        }
    }
    Ok(())
}

/// The batches of these signs.
pub fn batches(alloc: Global, signs: &str) -> Result<StoredBatches, Refusal> {
    let mut batches = Vec::new(alloc);
    add_batches(alloc, &mut new_table(alloc, 64)?, &mut batches, signs)?;
    Ok(StoredBatches::new(alloc, batches))
}

// The result of a chain, and the number of provisionings that it reports in each of its calls, as a
// digit each.
type Chain = (Result<usize, Refusal>, u64);

// What was reported so far: the calls, the devices, and whether those came in order.
#[derive(Drop)]
struct Told {
    calls: u64,
    devices: u16,
    is_in_order: bool,
}

impl Told {
    fn tell(&mut self, released: &[Released]) {
        for one in released {
            let dev_eui = u64::from(self.devices).saturating_add(1);
            self.is_in_order = self.is_in_order
                && is_provisioned(one.effect(), self.devices, dev_eui);
            self.devices = self.devices.saturating_add(1);
        }
        let calls = self.calls.saturating_mul(10);
        self.calls = calls.saturating_add(released.len() as u64);
    }
}

fn chained(
    alloc: Global,
    store: &mut Store<MemDisk>,
    feed: &mut impl Feed,
    most: u64,
) -> Result<Chain, Refusal> {
    let mut told = Told {
        calls: 0,
        devices: u16::try_from(store.table().devices().len()).unwrap_or(0),
        is_in_order: true,
    };
    let mut out = |released: Vec<Released>| told.tell(&released);
    let Some(most) = ChainLength::new(most) else {
        return Err(Refusal::Malformed);
    };
    let answer = chain(store, feed, alloc, most, &mut out);
    if told.is_in_order {
        Ok((answer, told.calls))
    } else {
        Err(Refusal::Damaged)
    }
}

// The signs of batches, of which a feed gives this number and then refuses; the greatest number of
// batches of a chain; and the number of the call of the disk that fails, or 0 if none does.
type Case = (&'static str, u64, u64, u64);

// The outcome of two chains, and the number of decisions that are durable then.
type Chains = (Chain, Chain, u64);

fn chains(
    alloc: Global,
    store: &mut Store<MemDisk>,
    (signs, given, most, failing): Case,
) -> Result<Chains, Refusal> {
    let mut feed = Until {
        left: given,
        batches: batches(alloc, signs)?,
    };
    if failing > 0 {
        store.arm(failing);
    }
    let first = chained(alloc, store, &mut feed, most)?;
    let second = chained(alloc, store, &mut feed, most)?;
    Ok((first, second, store.seq()))
}

fn ends(alloc: Global, case: Case) -> Result<Chains, Refusal> {
    chains(alloc, &mut new_store(alloc, 64)?, case)
}

const STALE: Result<usize, Refusal> = Err(Refusal::OutOfStep);

const FAILS: Result<usize, Refusal> = Err(Refusal::DeviceFailed);

const CLOSED: Result<usize, Refusal> = Err(Refusal::Failed);

const ENDS: &[(Case, Chains)] = &[
    // all the batches, and no call of the disk after the tenth
    (("111", 9, 64, 11), ((Ok(3), 111), (Ok(0), 0), 3)),
    (("214", 9, 64, 10), ((FAILS, 21), (Ok(0), 0), 3)),
    // the most that it may have
    (("2111", 9, 2, 0), ((Ok(3), 21), (Ok(2), 11), 5)),
    (("11", 9, 1, 5), ((Ok(1), 1), (FAILS, 0), 1)),
    // an empty batch
    (("101", 9, 64, 0), ((Ok(1), 1), (Ok(1), 1), 2)),
    (("0", 9, 64, 1), ((Ok(0), 0), (Ok(0), 0), 0)),
    // a batch that is out of step, when the first one is synced alone
    (("1s1", 9, 64, 0), ((STALE, 1), (Ok(1), 1), 2)),
    (("1s1", 9, 64, 5), ((STALE, 1), (FAILS, 0), 1)),
    (("21s1", 9, 64, 0), ((STALE, 21), (Ok(1), 1), 4)),
    // and when that sync fails
    (("1s1", 9, 64, 4), ((FAILS, 0), (CLOSED, 0), 0)),
    // a feed that refuses in the middle
    (
        ("111", 2, 64, 0),
        ((Err(Refusal::Backlog), 11), (Err(Refusal::Backlog), 0), 2),
    ),
];

#[test]
fn a_chain_ends_and_what_was_durable_left(rt: HostRuntime) {
    for (case, wanted) in ENDS {
        let ends = ends(rt.alloc(), *case);
        assert!(rt; ends == Ok(*wanted), "{} failing {}", case.0, case.3);
    }
}

// The decisions that are found in what was synced, in what was written, in open gates, and in the
// low eight bits of each place: 3E, 8C and DA, which are closed gates.
type Found = (u64, u64, u64, u64);

// A call that fails in a chain of three batches of one decision each: how many of them left and are
// durable, whether a batch is left for a chain after it, and what is found then.
const FAILURES: &[(u64, u64, bool, Found)] = &[
    // the first one's body, and its sync
    (1, 0, true, (0, 0, 0, 0)),
    (2, 0, true, (0, 0, 0, 0)),
    // its gate; the second one's body, and the sync of both
    (3, 0, true, (0, 0, 1, 0)),
    (4, 0, true, (0, 1, 1, 0)),
    (5, 0, true, (0, 1, 1, 0)),
    // the second one's gate; the third one's body, and the sync of both
    (6, 1, true, (1, 1, 2, 1)),
    (7, 1, false, (1, 2, 2, 1)),
    (8, 1, false, (1, 2, 2, 1)),
    // the third one's gate, and its sync
    (9, 2, false, (2, 2, 3, 2)),
    (10, 2, false, (2, 3, 3, 2)),
];

fn left(alloc: Global, failing: u64, image: &Image) -> Result<(Chains, u64), Refusal> {
    let mut store = new_store(alloc, 64)?;
    let chains = chains(alloc, &mut store, ("111", 9, 64, failing))?;
    let mut disk = store.close();
    disk.crash(image);
    let (count, seq) = found(alloc, disk)?;
    if count as u64 == seq {
        Ok((chains, seq))
    } else {
        Err(Refusal::Damaged)
    }
}

// The outcome of the chains, and what is found.
fn failure(alloc: Global, failing: u64) -> Result<(Chains, Found), Refusal> {
    let (chains, old) = left(alloc, failing, &Image::Old)?;
    let (_, new) = left(alloc, failing, &Image::New)?;
    let (_, gates) = left(alloc, failing, &Image::Fill(0xA5))?;
    let (_, low) = left(alloc, failing, &low_bits(alloc, 4096)?)?;
    Ok((chains, (old, new, gates, low)))
}

#[test]
fn one_batch_at_most_is_in_doubt(rt: HostRuntime) {
    for (failing, durable, is_left, wanted) in FAILURES {
        let told = match *durable {
            0 => 0,
            1 => 1,
            _ => 11,
        };
        let behind = if *is_left { CLOSED } else { Ok(0) };
        let chains = ((FAILS, told), (behind, 0), *durable);
        let failure = failure(rt.alloc(), *failing);
        assert!(rt; failure == Ok((chains, *wanted)), "{failing}: {failure:?}");
    }
}

// A store of a device with a full queue. After 805,443 bytes of its journal a checkpoint is due
// with 807,511: a header of 30, and three batches of 64 whole records of 4,047 bytes and one of
// seven, each after 15.
fn nearly_full_store(alloc: Global) -> Result<Store<MemDisk>, Refusal> {
    let mut bytes = FRONT.to_vec(alloc)?;
    for (last, count) in [(64, 64), (128, 64), (192, 64), (199, 7)] {
        add_batch_of(&mut bytes, (last, count), &records(alloc, count)?)?;
    }
    open(alloc, disk_of(alloc, bytes)?)
}

// A batch of the device's join with this DevNonce.
fn join(alloc: Global, now: &mut Table, seq: u64, dev_nonce: u16) -> Result<Batch, Refusal> {
    let request = request(alloc, dev_nonce)?;
    let mut batch = Batch::new(alloc)?;
    match add(alloc, now, seq, &mut batch, request) {
        Ok(()) => Ok(batch),
        Err(refusal) => Err(refusal),
    }
}

// Appends joins of the device, one per batch, with each DevNonce up to this one.
fn add_joins(
    alloc: Global,
    now: &mut Table,
    batches: &mut Vec<Batch>,
    first: u64,
    most: u16,
) -> Result<(), Refusal> {
    for (seq, dev_nonce) in (first..u64::MAX).zip(1..=most) {
        batches.push(join(alloc, now, seq, dev_nonce)?)?;
    }
    Ok(())
}

fn joins(alloc: Global, store: &Store<MemDisk>, most: u16) -> Result<StoredBatches, Refusal> {
    let mut batches = Vec::new(alloc);
    let seq = store.seq();
    add_joins(alloc, &mut store.table().copy()?, &mut batches, seq, most)?;
    Ok(StoredBatches::new(alloc, batches))
}

// The results of three chains of 64 over this number of joins, and whether there is room after
// each.
type Rooms = [(Result<usize, Refusal>, bool); 3];

fn rooms_of(alloc: Global, store: &mut Store<MemDisk>, most: u16) -> Result<Rooms, Refusal> {
    let Some(length) = ChainLength::new(64) else {
        return Err(Refusal::Malformed);
    };
    let mut feed = joins(alloc, store, most)?;
    let mut rooms = [(Ok(0), false); 3];
    for room in &mut rooms {
        let mut out = |_: Vec<Released>| {};
        let answer = chain(store, &mut feed, alloc, length, &mut out);
        *room = (answer, store.roomy());
    }
    Ok(rooms)
}

fn rooms(alloc: Global, most: u16) -> Result<(Rooms, u64), Refusal> {
    let mut store = nearly_full_store(alloc)?;
    let rooms = rooms_of(alloc, &mut store, most)?;
    Ok((rooms, store.seq()))
}

// Each join takes 63 bytes, so after 33 of them, with 807,522, there is no room for the largest
// batch. Then a checkpoint is written, and a chain has the most batches that it may have.
#[test]
fn a_chain_ends_for_want_of_room(rt: HostRuntime) {
    let wanted = [(Ok(33), false), (Ok(64), true), (Ok(33), true)];
    assert!(rt; rooms(rt.alloc(), 130) == Ok((wanted, 329)));
}
