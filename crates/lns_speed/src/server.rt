// A server with a network of its own. What comes is decided, committed and released.
use crate::network::{copy_of, join_request, provisioning};
use disk::Disk;
use flusher::{ChainLength, Feed, Most, chain};
use lw_types::{FrameCopy, NetId, Refusal};
use session_core::{Core, Moment, Turn};
use sessions::{Batch, Slots};
use std::alloc::Global;
use store::{Store, disk_len};

/// How long the copies of a frame are gathered, in milliseconds.
const WAIT: u64 = 200;

/// The decisions of a batch.
pub const BATCH: u16 = 64;

/// The gateway that hears a device join.
const GATEWAY: u64 = 1;

/// A core, in which decisions wait.
#[derive(Drop)]
struct Waiting(Core);

impl Feed for Waiting {
    ghost gives = { λ _ _ _ _. Unit {0} };

    fn next(&mut self, most: Most) -> Result<Batch, Refusal> {
        self.0.take(most)
    }
}

/// A core over a store.
#[derive(Drop)]
pub struct Server<D: Disk> {
    pub alloc: Global,
    store: Store<D>,
    core: Waiting,
    now: Moment,
}

impl<D: Disk + Drop> Server<D> {
    /// A server without devices, with this number of slots, on a disk of the length for them.
    pub fn on(alloc: Global, disk: D, slots: u16) -> Result<Self, Refusal> {
        let now = Moment::new(0).ok_or(Refusal::Damaged)?;
        let store = store::format(alloc, disk, NetId::zero(), u64::from(slots))?;
        Ok(Server {
            alloc,
            core: Waiting(Core::new(alloc, store.table(), store.seq())?),
            store,
            now,
        })
    }

    /// Provisions this number of devices, and each of them joins.
    pub fn join_all(&mut self, slots: u16) -> Result<(), Refusal> {
        for slot in 0..slots {
            self.bring(slot)?;
            self.hear(copy_of(self.alloc, &join_request(slot, 0), GATEWAY)?)?;
            if slot % 16 == 15 {
                self.settle()?;
            }
        }
        self.settle()
    }

    fn bring(&mut self, slot: u16) -> Result<(), Refusal> {
        is_done(self.core.0.provision(self.now, provisioning(slot)))
    }

    /// Copies of frames come and their windows are closed, so that they are decided.
    pub fn decide(&mut self, copies: Vec<FrameCopy>) -> Result<(), Refusal> {
        for copy in copies {
            self.hear(copy)?;
        }
        self.close_windows()
    }

    fn hear(&mut self, copy: FrameCopy) -> Result<(), Refusal> {
        is_done(self.core.0.hear(self.now, copy))
    }

    fn close_windows(&mut self) -> Result<(), Refusal> {
        self.now = Moment::new(self.now.get().saturating_add(WAIT)).ok_or(Refusal::Damaged)?;
        is_done(self.core.0.tick(self.now))
    }

    // Closes all windows, commits what was decided, and releases its effects.
    fn settle(&mut self) -> Result<(), Refusal> {
        self.close_windows()?;
        for _ in 0..self.core.0.untaken().div_ceil(usize::from(BATCH)) {
            let _ = self.commit()?;
        }
        Ok(())
    }

    // Commits the oldest decisions, after a checkpoint if the journal is full, and releases their
    // effects.
    fn commit(&mut self) -> Result<usize, Refusal> {
        let one = ChainLength::new(1).ok_or(Refusal::Damaged)?;
        self.commit_chain(one)
    }

    /// The same with at most this number of batches, in a chain. Returns the number of their
    /// decisions.
    pub fn commit_chain(&mut self, most: ChainLength) -> Result<usize, Refusal> {
        chain(
            &mut self.store,
            &mut self.core,
            self.alloc,
            most,
            &mut |_| {},
        )
    }
}

/// The length of a disk for this number of slots.
pub fn len_of(slots: u16) -> Result<u64, Refusal> {
    Ok(disk_len(Slots::new(u64::from(slots)).ok_or(Refusal::Damaged)?))
}

fn is_done(turn: Turn) -> Result<(), Refusal> {
    match turn.refused {
        None => Ok(()),
        Some(refusal) => Err(refusal),
    }
}
