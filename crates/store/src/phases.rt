// The phases of a commit, each spent by one call of the disk.
ghost use Rattle.std.specs.Prelude.{◌≡◌, ◌<◌, ◌+◌, IfOk, OnOk, OnErr, MatchResult};
ghost use Rattle.disk.specs.State.{EveryImage};
ghost use Rattle.sessions.specs.Decision.{effects_in};
ghost use Rattle.store.specs.Commit.{IsUnderWay, table_after, tip_behind, tip_of};
ghost use Rattle.store.specs.Image.{HoldsTable};
ghost use Rattle.store.specs.Phases.{HoldsEither, IsBegunOn, IsWrittenOn, IsBodySyncedOn};
ghost use Rattle.store.specs.Phases.{IsGateWrittenOn, begun_sequel, begun_size, written_sequel};
ghost use Rattle.store.specs.Phases.{written_size, body_synced_sequel, body_synced_size};
ghost use Rattle.store.specs.Phases.{gate_written_sequel, gate_written_size, durable_decisions};
ghost use Rattle.store.specs.State.{store_state, disk_of, EachImageHolds, IsOneCall, IsSettled};
ghost use Rattle.store.specs.State.{KeepsTable};

use crate::Store;
use crate::commit::Commit;
use disk::Disk;
use lw_types::Refusal;
use sessions::PlacedBatch;

/// A batch of which nothing is written yet.
pub struct Begun {
    pub(crate) phase: gate_log::Begun,
    pub(crate) commit: Commit,
}

/// A batch whose body is written, and may be torn.
pub struct Written {
    phase: gate_log::Written,
    commit: Commit,
}

/// A batch whose body is on the disk, after its closed gate.
pub struct BodySynced {
    pub(crate) phase: gate_log::BodySynced,
    pub(crate) commit: Commit,
}

/// A batch whose gate is open. That write may be torn.
pub struct GateWritten {
    pub(crate) phase: gate_log::GateWritten,
    pub(crate) commit: Commit,
}

/// A batch that every crash leaves. Its effects may now leave.
pub struct Durable {
    batch: PlacedBatch,
}

impl Begun {
    /// Writes the batch's body and the closed gate of the next batch. Refused with `DeviceFailed`
    /// exactly if the disk failed. Then the store has failed.
    pub fn write<D: Disk>(self, store: &mut Store<D>) -> Result<Written, Refusal>
        requires { IsUnderWay (store_state D.state store.old) (begun_sequel self)
            (begun_size self) }
        ensures next { D.honest → IsBegunOn (store_state D.state store.old) self
            → IfOk result (IsWrittenOn (store_state D.state store.new)) }
        ensures images { D.honest → IsBegunOn (store_state D.state store.old) self
            → EachImageHolds (store_state D.state store.old) (D.state (disk_of store.new)) }
        ensures under_way { IfOk result (λ written. IsUnderWay (store_state D.state store.new)
            (written_sequel written) (written_size written)) }
        ensures tip { IfOk result (λ written. tip_behind (store_state D.state store.new)
            (written_sequel written) (written_size written)
            ≡ tip_behind (store_state D.state store.old) (begun_sequel self) (begun_size self)) }
        ensures sequel { IfOk result (λ written. written_sequel written ≡ begun_sequel self) }
        ensures kept { KeepsTable (store_state D.state store.old) (store_state D.state store.new)
            result }
        ensures call { IsOneCall D.failures D.outlook store.old store.new result }
    {
        let Begun { phase, commit } = self;
        match phase.write(&mut store.log) {
            Ok(phase) => Ok(Written { phase, commit }),
            Err(_) => Err(store.fail()),
        }
    }

    /// Drops the batch at a crash.
    pub fn lose(self) {
        let Begun { phase, commit: _ } = self;
        phase.lose();
    }
}

impl Written {
    /// Syncs the batch's body. Refused with `DeviceFailed` exactly if the disk failed. Then the
    /// store has failed.
    pub fn sync<D: Disk>(self, store: &mut Store<D>) -> Result<BodySynced, Refusal>
        requires { IsUnderWay (store_state D.state store.old) (written_sequel self)
            (written_size self) }
        ensures next { D.honest → IsWrittenOn (store_state D.state store.old) self
            → IfOk result (IsBodySyncedOn (store_state D.state store.new)) }
        ensures images { D.honest → IsWrittenOn (store_state D.state store.old) self
            → EachImageHolds (store_state D.state store.old) (D.state (disk_of store.new)) }
        ensures under_way { IfOk result (λ synced. IsUnderWay (store_state D.state store.new)
            (body_synced_sequel synced) (body_synced_size synced)) }
        ensures tip { IfOk result (λ synced. tip_behind (store_state D.state store.new)
            (body_synced_sequel synced) (body_synced_size synced)
            ≡ tip_behind (store_state D.state store.old) (written_sequel self)
            (written_size self)) }
        ensures sequel { IfOk result (λ synced. body_synced_sequel synced ≡ written_sequel self) }
        ensures kept { KeepsTable (store_state D.state store.old) (store_state D.state store.new)
            result }
        ensures call { IsOneCall D.failures D.outlook store.old store.new result }
    {
        let Written { phase, commit } = self;
        match phase.sync(&mut store.log) {
            Ok(phase) => Ok(BodySynced { phase, commit }),
            Err(_) => Err(store.fail()),
        }
    }

    /// Drops the batch at a crash.
    pub fn lose(self) {
        let Written { phase, commit: _ } = self;
        phase.lose();
    }
}

impl BodySynced {
    /// Opens the batch's gate. Refused with `DeviceFailed` exactly if the disk failed. Then the
    /// store has failed.
    pub fn open_gate<D: Disk>(self, store: &mut Store<D>) -> Result<GateWritten, Refusal>
        requires { IsUnderWay (store_state D.state store.old) (body_synced_sequel self)
            (body_synced_size self) }
        ensures next { D.honest → IsBodySyncedOn (store_state D.state store.old) self
            → IfOk result (IsGateWrittenOn (store_state D.state store.new)) }
        ensures images { D.honest → IsBodySyncedOn (store_state D.state store.old) self
            → EveryImage (D.state (disk_of store.new))
            (HoldsEither (store_state D.state store.old) (body_synced_sequel self)) }
        ensures under_way { IfOk result (λ opened. IsUnderWay (store_state D.state store.new)
            (gate_written_sequel opened) (gate_written_size opened)) }
        ensures tip { IfOk result (λ opened. tip_behind (store_state D.state store.new)
            (gate_written_sequel opened) (gate_written_size opened)
            ≡ tip_behind (store_state D.state store.old) (body_synced_sequel self)
            (body_synced_size self)) }
        ensures sequel { IfOk result
            (λ opened. gate_written_sequel opened ≡ body_synced_sequel self) }
        ensures kept { KeepsTable (store_state D.state store.old) (store_state D.state store.new)
            result }
        ensures call { IsOneCall D.failures D.outlook store.old store.new result }
    {
        let BodySynced { phase, commit } = self;
        match phase.open_gate(&mut store.log) {
            Ok(phase) => Ok(GateWritten { phase, commit }),
            Err(_) => Err(store.fail()),
        }
    }

    /// Drops the batch at a crash.
    pub fn lose(self) {
        let BodySynced { phase, commit: _ } = self;
        phase.lose();
    }
}

impl GateWritten {
    /// Syncs the batch's gate. After that the batch is durable, and the store has its table and its
    /// number. Refused with `DeviceFailed` exactly if the disk failed. Then the store has failed,
    /// and only opening it again shows whether the batch is on the disk.
    pub fn sync<D: Disk>(self, store: &mut Store<D>) -> Result<Durable, Refusal>
        requires { IsUnderWay (store_state D.state store.old) (gate_written_sequel self)
            (gate_written_size self) }
        ensures settled { D.honest → IsGateWrittenOn (store_state D.state store.old) self
            → OnOk result (IsSettled (store_state D.state store.new)) }
        ensures durable { D.honest → IsGateWrittenOn (store_state D.state store.old) self
            → OnOk result (EveryImage (D.state (disk_of store.new))
            (HoldsTable (table_after (store_state D.state store.old) (gate_written_sequel self))
            (gate_written_sequel self).seq)) }
        ensures images { D.honest → IsGateWrittenOn (store_state D.state store.old) self
            → EveryImage (D.state (disk_of store.new))
            (HoldsEither (store_state D.state store.old) (gate_written_sequel self)) }
        ensures tip { OnOk result (tip_of (store_state D.state store.new)
            ≡ tip_behind (store_state D.state store.old) (gate_written_sequel self)
            (gate_written_size self)) }
        ensures batch { IfOk result
            (λ durable. durable_decisions durable ≡ (gate_written_sequel self).decisions) }
        ensures table { MatchResult result
            (λ _. (store_state D.state store.new).table
            ≡ table_after (store_state D.state store.old) (gate_written_sequel self))
            (λ _. (store_state D.state store.new).table ≡ (store_state D.state store.old).table) }
        ensures seq { MatchResult result
            (λ _. (store_state D.state store.new).seq ≡ (gate_written_sequel self).seq)
            (λ _. (store_state D.state store.new).seq ≡ (store_state D.state store.old).seq) }
        ensures generation { OnOk result ((store_state D.state store.new).log.generation
            ≡ (store_state D.state store.old).log.generation) }
        ensures call { IsOneCall D.failures D.outlook store.old store.new result }
    {
        let GateWritten { phase, commit } = self;
        match phase.sync(&mut store.log) {
            Ok(durable) => {
                durable.finish();
                Ok(store.complete(commit))
            }
            Err(_) => Err(store.fail()),
        }
    }

    /// Drops the batch at a crash.
    pub fn lose(self) {
        let GateWritten { phase, commit: _ } = self;
        phase.lose();
    }
}

impl Durable {
    /// The decisions, which are on the disk.
    pub fn into_batch(self) -> PlacedBatch
        ensures { result ≡ durable_decisions self }
    {
        let Durable { batch } = self;
        batch
    }
}

impl<D: Disk> Store<D> {
    ghost use Rattle.std.specs.Prelude.{true};
    ghost use Rattle.lw_types.specs.declared.refusal.Refusal.TheVariants.{DeviceFailed};
    ghost use Rattle.sessions.specs.Decision.{FitAll};
    ghost use Rattle.store.specs.Commit.{sequel_of};

    // A call of the disk failed.
    pub(crate) fn fail(&mut self) -> Refusal
        ensures refusal { result ≡ DeviceFailed }
        ensures store { store_state D.state self.new
            ≡ record (store_state D.state self.old) { failed = true } }
        ensures disk { disk_of self.new ≡ disk_of self.old }
    {
        self.failed = true;
        Refusal::DeviceFailed
    }

    // Moves the records of a batch that is on the disk onto the table, and sets the
    // batch's number.
    pub(crate) fn complete(&mut self, commit: Commit) -> Durable
        requires fit { FitAll (store_state D.state self.old).table commit.batch }
        ensures store { store_state D.state self.new ≡ record (store_state D.state self.old) {
          table = table_after (store_state D.state self.old) (sequel_of commit);
          seq = (sequel_of commit).seq;
        } }
        ensures disk { disk_of self.new ≡ disk_of self.old }
        ensures batch { durable_decisions result ≡ (sequel_of commit).decisions }
    {
        let Commit { batch, room, last } = commit;
        let batch = self.table.set_all(batch, room);
        self.seq = last;
        Durable { batch }
    }
}
