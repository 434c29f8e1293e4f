// Begins the commit of a batch.
ghost use Rattle.std.specs.Prelude.{◌≡◌, ◌≢◌, ◌⊎◌, ◌+◌, ◌<◌, ◌≤◌, Err, MatchBool, MatchResult};
ghost use Rattle.std.specs.Prelude.{IfErr, IfOk, length};
ghost use Rattle.lw_types.specs.declared.refusal.Refusal.TheVariants.{Failed, OutOfMemory};
ghost use Rattle.lw_types.specs.declared.refusal.Refusal.TheVariants.{OutOfStep};
ghost use Rattle.sessions.specs.Decision.{FitAll, IsLegalContinuation, with_decisions};
ghost use Rattle.sessions.specs.declared.batch.TheConstants.Batch.{MOST};
ghost use Rattle.store.specs.Commit.{MayFollow, sequel_of, tip_of};
ghost use Rattle.store.specs.Phases.{HasEntries, IsBegunOn, begun_sequel, begun_size};

use crate::commit::Commit;
use crate::{Begun, LARGEST_BATCH, Store};
use disk::Disk;
use lw_types::Refusal;
use sessions::{Batch, Decision, PlacedBatch};
use std::alloc::Global;
use store_layout::{laws, put_batch};

// The number of bytes that is enough for the entries of most batches.
const USUAL_ENTRIES: usize = 1024;

impl<D: Disk> Store<D> {
    ghost use Rattle.store.specs.State.{store_state, disk_of, IsRoomy, IsSettled};

    /// Begins the commit of a batch, on a store with room for it and nothing under way. Refused
    /// with `Failed` exactly if an earlier call of the disk failed, else with `OutOfStep` exactly
    /// if the batch is no legal continuation of the durable table. Refused with `OutOfMemory` if it
    /// is one and memory runs out. A refusal gives the batch up and leaves the store and the disk
    /// unchanged. All the memory that the commit needs is allocated here. No record is copied: the
    /// batch's entries are appended straight to the bytes that go to the disk, which move only if
    /// they outgrow the usual room of 1,024. The cost doesn't grow with the number of devices.
    pub fn begin(&mut self, alloc: Global, batch: Batch) -> Result<Begun, Refusal>
        requires roomy { IsRoomy (store_state D.state self.old) }
        ensures same { store_state D.state self.new ≡ store_state D.state self.old }
        ensures disk { disk_of self.new ≡ disk_of self.old }
        ensures answer { MatchBool (store_state D.state self.old).failed
            (result ≡ Err Failed)
            (MatchResult result
            (λ begun. MayFollow (tip_of (store_state D.state self.old)) (begun_sequel begun)
            (begun_size begun))
            (λ e. e ≢ OutOfMemory → (e ≡ OutOfStep)
            × ¬ (IsLegalContinuation (store_state D.state self.old).table
            (store_state D.state self.old).seq batch))) }
        ensures memory { result ≡ Err OutOfMemory
            → IsLegalContinuation (store_state D.state self.old).table
            (store_state D.state self.old).seq batch }
        ensures batch { IfOk result (λ begun. (begun_sequel begun).decisions ≡ batch) }
        ensures entries { IfOk result HasEntries }
        ensures begun { IsSettled (store_state D.state self.old)
            → IfOk result (IsBegunOn (store_state D.state self.old)) }
    {
        if self.failed {
            return Err(Refusal::Failed);
        }
        laws::decisions_replay();
        laws::entries_keep_the_network();
        let commit = self.commit_of(alloc, &[], self.seq, batch)?;
        self.begun_of(alloc, commit)
    }

    // The batch with its last number, after `earlier` decisions that end with the number `seq`, and
    // room for it after its records.
    pub(crate) fn commit_of(
        &self,
        alloc: Global,
        earlier: &[Decision],
        seq: u64,
        batch: Batch,
    ) -> Result<Commit, Refusal>
        requires { FitAll (store_state D.state self.now).table earlier.now }
        ensures { MatchResult result
            (λ commit. IsLegalContinuation
            (with_decisions (store_state D.state self.now).table earlier.now) seq batch
            × ((commit.batch ≡ batch) × (commit.last ≡ seq + length batch)))
            (λ e. ((e ≡ OutOfMemory) × IsLegalContinuation
            (with_decisions (store_state D.state self.now).table earlier.now) seq batch)
            ⊎ ((e ≡ OutOfStep) × ¬ (IsLegalContinuation
            (with_decisions (store_state D.state self.now).table earlier.now) seq batch))) }
    {
        if batch.is_empty() {
            return Err(Refusal::OutOfStep);
        }
        let decisions = batch.as_slice();
        let Some(last) = self.table.continuation_end_after(earlier, seq, decisions) else {
            return Err(Refusal::OutOfStep);
        };
        let room = PlacedBatch::new(alloc)?;
        Ok(Commit { batch, room, last })
    }

    // The first phase of a commit: the bytes of its batch.
    pub(crate) fn begun_of(&self, alloc: Global, commit: Commit) -> Result<Begun, Refusal>
        ensures memory { IfErr result (λ e. e ≡ OutOfMemory) }
        ensures sequel { IfOk result (λ begun. begun_sequel begun ≡ sequel_of commit) }
        ensures entries { IfOk result HasEntries }
        ensures few { length commit.batch ≤ MOST }
        ensures size { IfOk result (λ begun. begun_size begun < LARGEST_BATCH) }
    {
        let count = commit.batch.len() as u16;
        let mut bytes = gate_log::Begun::buffer(alloc, USUAL_ENTRIES)?;
        put_batch(&commit.batch, &mut bytes)?;
        let phase = gate_log::Begun::new(bytes, commit.last, count)?;
        Ok(Begun { phase, commit })
    }
}
