// A flusher's chains over a file: twenty batches with checkpoints between them, a call of the disk
// that fails, and the store that is opened again.
ghost use Rattle.std.specs.Prelude.{◌≡◌, ◌+◌, ◌≤◌, length, is_ok};
ghost use Rattle.disk.specs.Outlook.{HasCause, IsForeseen};
ghost use Rattle.disk.specs.Outlook.Outlook.{Unknown};

use crate::asked::{application, mac_command, moment, new_core, provisioning};
use crate::files::{path_of, remove};
use crate::stores::{len_of, net_id};
use devices::{AskedBytes, Queueing, Tag};
use disk::{DeviceFailed, Disk, FileDisk};
use flusher::{Released, StoredBatches, serve};
use lw_types::{Eui, Refusal};
use session_core::{Core, Most};
use sessions::Batch;
use std::alloc::Global;
use std::fs::File;
use std::rt::Files;
use std::sync::Wait;
use store::{Store, format, open};

// The devices: each of the twenty batches has a decision of each.
const DEVICES: u64 = 64;

// A disk whose calls fail once this number of them were made.
#[derive(Drop)]
struct Failing<D: Disk> {
    disk: D,
    left: u64,
    failures: u64,
}

impl<D: Disk> Failing<D> {
    // One call: whether it may go on. (The disk is dropped long before its failures have 64 bits.)
    fn count(&mut self) -> Result<(), DeviceFailed>
        ensures cause { HasCause self.old.failures self.new.failures result }
        ensures disk { self.new.disk ≡ self.old.disk }
    {
        if self.left > 0 || self.failures == u64::MAX {
            self.left = self.left.saturating_sub(1);
            return Ok(());
        }
        self.failures += 1;
        Err(DeviceFailed)
    }
}

impl<D: Disk> Disk for Failing<D> {
    ghost state = { λ f. D.state f.disk };

    ghost failures = { λ f. D.failures f.disk + f.failures };

    ghost outlook = { λ _. Unknown };

    // What it holds doesn't matter here.
    ghost honest = { ⊥ };

    fn len(&self) -> u64 {
        self.disk.len()
    }

    fn read_at(&mut self, at: u64, buffer: &mut [u8]) -> Result<(), DeviceFailed> {
        self.count()?;
        self.disk.read_at(at, buffer)
    }

    fn write_at(&mut self, at: u64, bytes: &[u8]) -> Result<(), DeviceFailed> {
        self.count()?;
        self.disk.write_at(at, bytes)
    }

    fn sync(&mut self) -> Result<(), DeviceFailed> {
        self.count()?;
        self.disk.sync()
    }
}

// The largest item, in bytes.
fn long_item(alloc: Global, dev_eui: u64) -> Result<Queueing, Refusal> {
    let payload = AskedBytes::new(vec![in alloc; 0xA5; 242]?);
    Ok(Queueing {
        application: application()?,
        dev_eui: Eui(dev_eui),
        tag: Tag(9),
        port: 7,
        confirmed: true,
        payload: payload.map_err(|_| Refusal::TooLong)?,
    })
}

// What each device of a batch gets: it is provisioned, sixteen items are queued for it, and MAC
// commands.
fn ask(alloc: Global, core: &mut Core, round: u64, dev_eui: u64) -> Result<(), Refusal> {
    let at = moment(0)?;
    let turn = match round {
        0 => core.provision(at, provisioning(dev_eui)?),
        1..=16 => core.queue(at, long_item(alloc, dev_eui)?),
        _ => core.queue_mac(at, mac_command(alloc, dev_eui)?),
    };
    match turn.refused {
        None => Ok(()),
        Some(refusal) => Err(refusal),
    }
}

fn batch(alloc: Global, core: &mut Core, round: u64) -> Result<Batch, Refusal> {
    for dev_eui in 1..=DEVICES {
        ask(alloc, core, round, dev_eui)?;
    }
    core.take(Most::new(64).ok_or(Refusal::Damaged)?)
}

// The batches, which take more than two megabytes of a journal of one.
fn batches(alloc: Global, count: u64) -> Result<StoredBatches, Refusal> {
    let mut core = new_core(alloc, DEVICES)?;
    let mut all = Vec::new(alloc);
    for round in 0..count {
        all.push(batch(alloc, &mut core, round)?)?;
    }
    Ok(StoredBatches::new(alloc, all))
}

// How serving ends, and the number of effects that have left.
fn served<R: Wait, D: Disk>(
    rt: &R,
    alloc: Global,
    store: &mut Store<D>,
    count: u64,
) -> Result<(Result<(), Refusal>, usize), Refusal> {
    let mut feed = batches(alloc, count)?;
    let mut left: usize = 0;
    let mut out = |released: Vec<Released>| left = left.saturating_add(released.len());
    let end = serve(rt, store, &mut feed, alloc, &mut out, &mut || true);
    Ok((end, left))
}

fn new_file<R: Files<File = File>>(rt: &R, path: &str) -> Result<FileDisk, Refusal> {
    FileDisk::create(rt, path, len_of(DEVICES)?).map_err(|_| Refusal::DeviceFailed)
}

// The number and the devices of the store in a file, once it is opened again.
fn reopened<R: Files<File = File>>(
    rt: &R,
    alloc: Global,
    path: &str,
) -> Result<(u64, usize), Refusal> {
    let disk = FileDisk::open(rt, path).map_err(|_| Refusal::DeviceFailed)?;
    let store = open(alloc, disk)?;
    Ok((store.seq(), store.table().devices().len()))
}

// All batches are committed, and are found again.
fn serve_all<R: Wait + Files<File = File>>(
    rt: &R,
    alloc: Global,
    path: &str,
) -> Result<bool, Refusal> {
    let mut store = format(alloc, new_file(rt, path)?, net_id()?, DEVICES)?;
    let (end, left) = served(rt, alloc, &mut store, 20)?;
    let is_so = end.is_ok() && left == 1280 && store.seq() == 1280;
    drop(store.close());
    Ok(is_so && reopened(rt, alloc, path)? == (1280, 64))
}

#[test]
fn twenty_batches_are_served(rt: HostRuntime) {
    let path = path_of(&rt, "served").expect(&rt, "a path");
    let served = serve_all(&rt, rt.alloc(), &path);
    remove(&rt, &path);
    assert!(rt; served == Ok(true));
}

// The calls of the disk that make a store.
const FORMATTING: u64 = 8;

// This number of calls of serving succeed, and the next one fails: how serving ends, the number of
// effects that have left, and the number of the store in the file.
fn serve_until<R: Wait + Files<File = File>>(
    rt: &R,
    alloc: Global,
    path: &str,
    calls: u64,
) -> Result<(Result<(), Refusal>, usize, u64), Refusal> {
    let disk = Failing {
        disk: new_file(rt, path)?,
        left: FORMATTING.saturating_add(calls),
        failures: 0,
    };
    let mut store = format(alloc, disk, net_id()?, DEVICES)?;
    let (end, left) = served(rt, alloc, &mut store, 2)?;
    drop(store.close());
    Ok((end, left, reopened(rt, alloc, path)?.0))
}

// The calls that succeed, of the seven that two batches take; the effects that have left, and the
// number that is found again.
const FAILURES: &[(u64, usize, u64)] = &[
    (0, 0, 0),
    (2, 0, 0),
    (3, 0, 64),
    (5, 64, 64),
    (6, 64, 128),
];

#[test]
fn a_failing_call_ends_serving(rt: HostRuntime) {
    for (calls, left, seq) in FAILURES {
        let path = path_of(&rt, "failing").expect(&rt, "a path");
        let ended = serve_until(&rt, rt.alloc(), &path, *calls);
        remove(&rt, &path);
        assert!(rt;
            ended == Ok((Err(Refusal::DeviceFailed), *left, *seq)),
            "{calls}"
        );
    }
}
