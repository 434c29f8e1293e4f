// Two batches that share a sync: the gate of one, and the body of the next.
ghost use Rattle.std.specs.Prelude.{◌≡◌, ◌≢◌, ◌↔◌, Err, IfOk, IsTrue, MatchBool, MatchResult, OnOk};
ghost use Rattle.disk.specs.State.{EveryImage};
ghost use Rattle.lw_types.specs.declared.refusal.Refusal.TheVariants.{Failed, OutOfMemory};
ghost use Rattle.lw_types.specs.declared.refusal.Refusal.TheVariants.{OutOfStep};
ghost use Rattle.sessions.specs.Decision.{IsLegalContinuation};
ghost use Rattle.store.specs.Commit.{IsUnderWay, table_after, tip_behind, tip_of};
ghost use Rattle.store.specs.Image.{HoldsTable};
ghost use Rattle.store.specs.Pairing.{AreUnderWay, IsBegunBehind, IsPairedOn, IsRoomyBehind};
ghost use Rattle.store.specs.Pairing.{MayFollowBehind, following_sequel, paired_sequel};
ghost use Rattle.store.specs.Pairing.{following_size, paired_size, table_behind};
ghost use Rattle.store.specs.Phases.{HasEntries, HoldsEither, IsBodySyncedOn, IsGateWrittenOn};
ghost use Rattle.store.specs.Phases.{begun_sequel, begun_size, body_synced_sequel};
ghost use Rattle.store.specs.Phases.{body_synced_size};
ghost use Rattle.store.specs.Phases.{durable_decisions, gate_written_sequel, gate_written_size};
ghost use Rattle.store.specs.State.{store_state, disk_of, IsOneCall, KeepsTable};

use crate::commit::Commit;
use crate::{Begun, BodySynced, Durable, GateWritten, LARGEST_BATCH, Store};
use disk::Disk;
use lw_types::Refusal;
use sessions::Batch;
use std::alloc::Global;
use store_layout::laws;

/// A batch whose gate is open, and after it the body of the following one. Both may be torn.
pub struct Paired {
    phase: gate_log::Paired,
    commit: Commit,
    following: Commit,
}

impl<D: Disk> Store<D> {
    /// Whether the largest batch fits into the journal after a batch under way: its bytes and
    /// [`LARGEST_BATCH`] are left there.
    pub fn roomy_next(&self, under_way: &GateWritten) -> bool
        ensures { IsTrue result ↔ IsRoomyBehind (store_state D.state self.now) under_way.now }
    {
        let room = self.log.room();
        room >= LARGEST_BATCH && room - LARGEST_BATCH >= under_way.phase.size()
    }

    /// Begins the commit of a batch after one whose gate is written, on a store with room for it
    /// there and no other batch under way. Refused with `Failed` exactly if an earlier call of the
    /// disk failed, else with `OutOfStep` exactly if the batch is no legal continuation of the
    /// table that the batch under way leaves. Refused with `OutOfMemory` if it is one and memory
    /// runs out. A refusal gives this batch up, and the one under way goes on. All the memory that
    /// the commit needs is allocated here. The cost doesn't grow with the number of devices.
    pub fn begin_next(
        &self,
        alloc: Global,
        under_way: &GateWritten,
        batch: Batch,
    ) -> Result<Begun, Refusal>
        requires roomy { IsRoomyBehind (store_state D.state self.now) under_way.now }
        requires way { IsUnderWay (store_state D.state self.now)
            (gate_written_sequel under_way.now) (gate_written_size under_way.now) }
        ensures answer { MatchBool (store_state D.state self.now).failed
            (result ≡ Err Failed)
            (MatchResult result
            (MayFollowBehind (store_state D.state self.now) under_way.now)
            (λ e. e ≢ OutOfMemory → (e ≡ OutOfStep)
            × ¬ (IsLegalContinuation (table_behind (store_state D.state self.now) under_way.now)
            (gate_written_sequel under_way.now).seq batch))) }
        ensures memory { result ≡ Err OutOfMemory
            → IsLegalContinuation (table_behind (store_state D.state self.now) under_way.now)
            (gate_written_sequel under_way.now).seq batch }
        ensures batch { IfOk result (λ begun. (begun_sequel begun).decisions ≡ batch) }
        ensures entries { IfOk result HasEntries }
        ensures begun { IfOk result
            (IsBegunBehind (store_state D.state self.now) under_way.now) }
    {
        if self.failed {
            return Err(Refusal::Failed);
        }
        laws::decisions_replay();
        laws::entries_keep_the_network();
        let ahead = &under_way.commit;
        let commit = self.commit_of(alloc, ahead.batch.as_slice(), ahead.last, batch)?;
        self.begun_of(alloc, commit)
    }
}

impl GateWritten {
    /// Writes the body of the following batch and the closed gate after it, before this batch's
    /// gate is synced. The following batch's own gate stays closed, so no crash leaves that batch.
    /// Refused with `DeviceFailed` exactly if the disk failed. Then the store has failed.
    pub fn write_next<D: Disk>(
        self,
        following: Begun,
        store: &mut Store<D>,
    ) -> Result<Paired, Refusal>
        requires way { IsUnderWay (store_state D.state store.old) (gate_written_sequel self)
            (gate_written_size self) }
        requires follows { MayFollowBehind (store_state D.state store.old) self following }
        ensures next { D.honest → IsGateWrittenOn (store_state D.state store.old) self
            → IsBegunBehind (store_state D.state store.old) self following
            → IfOk result (IsPairedOn (store_state D.state store.new)) }
        ensures images { D.honest → IsGateWrittenOn (store_state D.state store.old) self
            → EveryImage (D.state (disk_of store.new))
            (HoldsEither (store_state D.state store.old) (gate_written_sequel self)) }
        ensures under_way { IfOk result (AreUnderWay (store_state D.state store.new)) }
        ensures tip { IfOk result (λ paired. tip_behind (store_state D.state store.new)
            (paired_sequel paired) (paired_size paired)
            ≡ tip_behind (store_state D.state store.old) (gate_written_sequel self)
            (gate_written_size self)) }
        ensures last_size { IfOk result (λ paired. following_size paired ≡ begun_size following) }
        ensures sequel { IfOk result (λ paired. paired_sequel paired ≡ gate_written_sequel self) }
        ensures following { IfOk result
            (λ paired. following_sequel paired ≡ begun_sequel following) }
        ensures kept { KeepsTable (store_state D.state store.old) (store_state D.state store.new)
            result }
        ensures call { IsOneCall D.failures D.outlook store.old store.new result }
    {
        let GateWritten { phase, commit } = self;
        let Begun {
            phase: next,
            commit: following,
        } = following;
        match phase.write_next(next, &mut store.log) {
            Ok(phase) => Ok(Paired {
                phase,
                commit,
                following,
            }),
            Err(_) => Err(store.fail()),
        }
    }
}

impl Paired {
    /// Syncs the first batch's gate and the following one's body. After that the first batch is
    /// durable, and the store has its table and its number. Refused with `DeviceFailed` exactly if
    /// the disk failed. Then the store has failed, and only opening it again shows whether the
    /// first batch is on the disk.
    pub fn sync<D: Disk>(self, store: &mut Store<D>) -> Result<(Durable, BodySynced), Refusal>
        requires { AreUnderWay (store_state D.state store.old) self }
        ensures next { D.honest → IsPairedOn (store_state D.state store.old) self
            → IfOk result (λ phases. IsBodySyncedOn (store_state D.state store.new) phases.1) }
        ensures durable { D.honest → IsPairedOn (store_state D.state store.old) self
            → OnOk result (EveryImage (D.state (disk_of store.new))
            (HoldsTable (table_after (store_state D.state store.old) (paired_sequel self))
            (paired_sequel self).seq)) }
        ensures images { D.honest → IsPairedOn (store_state D.state store.old) self
            → EveryImage (D.state (disk_of store.new))
            (HoldsEither (store_state D.state store.old) (paired_sequel self)) }
        ensures under_way { IfOk result (λ phases. IsUnderWay (store_state D.state store.new)
            (body_synced_sequel phases.1) (body_synced_size phases.1)) }
        ensures tip { OnOk result (tip_of (store_state D.state store.new)
            ≡ tip_behind (store_state D.state store.old) (paired_sequel self)
            (paired_size self)) }
        ensures last_size { IfOk result
            (λ phases. body_synced_size phases.1 ≡ following_size self) }
        ensures batch { IfOk result
            (λ phases. durable_decisions phases.0 ≡ (paired_sequel self).decisions) }
        ensures following { IfOk result
            (λ phases. body_synced_sequel phases.1 ≡ following_sequel self) }
        ensures table { MatchResult result
            (λ _. (store_state D.state store.new).table
            ≡ table_after (store_state D.state store.old) (paired_sequel self))
            (λ _. (store_state D.state store.new).table ≡ (store_state D.state store.old).table) }
        ensures seq { MatchResult result
            (λ _. (store_state D.state store.new).seq ≡ (paired_sequel self).seq)
            (λ _. (store_state D.state store.new).seq ≡ (store_state D.state store.old).seq) }
        ensures generation { OnOk result ((store_state D.state store.new).log.generation
            ≡ (store_state D.state store.old).log.generation) }
        ensures call { IsOneCall D.failures D.outlook store.old store.new result }
    {
        let Paired {
            phase,
            commit,
            following,
        } = self;
        match phase.sync(&mut store.log) {
            Ok((durable, phase)) => {
                durable.finish();
                let synced = BodySynced {
                    phase,
                    commit: following,
                };
                Ok((store.complete(commit), synced))
            }
            Err(_) => Err(store.fail()),
        }
    }

    /// Drops both batches at a crash.
    pub fn lose(self) {
        let Paired {
            phase,
            commit: _,
            following: _,
        } = self;
        phase.lose();
    }
}
