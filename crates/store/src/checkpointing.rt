// The phases of a checkpoint, each spent by one call of the disk.
ghost use Rattle.std.specs.Prelude.{◌≡◌, ◌≤◌, ◌+◌, true, false, IfOk, OnOk};
ghost use Rattle.store.specs.Checkpointing.{FitsOther, IsCheckpointOn, IsCheckpointOpenedOn};
ghost use Rattle.store.specs.Checkpointing.{IsCheckpointSyncedOn, IsCheckpointWrittenOn};
ghost use Rattle.store.specs.Checkpointing.{IsRetiringOn, checkpoint_opened_size, checkpoint_size};
ghost use Rattle.store.specs.Checkpointing.{checkpoint_synced_size, checkpoint_written_size};
ghost use Rattle.store.specs.Checkpointing.{retiring_size};
ghost use Rattle.store.specs.State.{store_state, disk_of, EachImageHolds, IsOneCall, IsRoomy};
ghost use Rattle.store.specs.State.{IsSettled, KeepsTable};

use crate::Store;
use disk::Disk;
use lw_types::Refusal;

/// A checkpoint of which nothing is written yet.
pub struct Checkpoint {
    pub(crate) phase: gate_log::Checkpoint,
}

/// A checkpoint for which the other area's gate is closed. That write may be torn.
pub struct Retiring {
    phase: gate_log::Retiring,
    checkpoint: gate_log::Checkpoint,
}

/// A checkpoint that is written, and may be torn.
pub struct CheckpointWritten {
    phase: gate_log::CheckpointWritten,
}

/// A checkpoint that is on the disk, after its closed gate.
pub struct CheckpointSynced {
    phase: gate_log::CheckpointSynced,
}

/// A checkpoint whose gate is open. That write may be torn.
pub struct CheckpointOpened {
    phase: gate_log::CheckpointOpened,
}

impl Checkpoint {
    /// Closes the other area's gate, which is open. Refused with `DeviceFailed` exactly if the disk
    /// failed. Then the store has failed.
    pub fn retire<D: Disk>(self, store: &mut Store<D>) -> Result<Retiring, Refusal>
        requires open { (store_state D.state store.old).log.other_open ≡ true }
        requires fits { FitsOther (store_state D.state store.old) (checkpoint_size self) }
        ensures next { D.honest → IsCheckpointOn (store_state D.state store.old) self
            → IfOk result (IsRetiringOn (store_state D.state store.new)) }
        ensures images { D.honest → IsCheckpointOn (store_state D.state store.old) self
            → EachImageHolds (store_state D.state store.old) (D.state (disk_of store.new)) }
        ensures fits { IfOk result (λ phase. FitsOther (store_state D.state store.new)
            (retiring_size phase)) }
        ensures kept { KeepsTable (store_state D.state store.old) (store_state D.state store.new)
            result }
        ensures call { IsOneCall D.failures D.outlook store.old store.new result }
    {
        let Checkpoint { phase: checkpoint } = self;
        match store.log.retire() {
            Ok(phase) => Ok(Retiring { phase, checkpoint }),
            Err(_) => {
                checkpoint.lose();
                Err(store.fail())
            }
        }
    }

    /// Writes the checkpoint and the closed gate of its first batch into the other area, whose gate
    /// is closed. The number of bytes grows only with the table's records: slots without a record
    /// take none. Refused with `DeviceFailed` exactly if the disk failed. Then the store has
    /// failed.
    pub fn write<D: Disk>(self, store: &mut Store<D>) -> Result<CheckpointWritten, Refusal>
        requires closed { (store_state D.state store.old).log.other_open ≡ false }
        requires fits { FitsOther (store_state D.state store.old) (checkpoint_size self) }
        ensures next { D.honest → IsCheckpointOn (store_state D.state store.old) self
            → IfOk result (IsCheckpointWrittenOn (store_state D.state store.new)) }
        ensures images { D.honest → IsCheckpointOn (store_state D.state store.old) self
            → EachImageHolds (store_state D.state store.old) (D.state (disk_of store.new)) }
        ensures fits { IfOk result (λ phase. FitsOther (store_state D.state store.new)
            (checkpoint_written_size phase)) }
        ensures kept { KeepsTable (store_state D.state store.old) (store_state D.state store.new)
            result }
        ensures call { IsOneCall D.failures D.outlook store.old store.new result }
    {
        let Checkpoint { phase } = self;
        match phase.write(&mut store.log) {
            Ok(phase) => Ok(CheckpointWritten { phase }),
            Err(_) => Err(store.fail()),
        }
    }

    /// Drops the checkpoint at a crash.
    pub fn lose(self) {
        let Checkpoint { phase } = self;
        phase.lose();
    }
}

impl Retiring {
    /// Syncs the other area's closed gate. After that the checkpoint may be written. Refused with
    /// `DeviceFailed` exactly if the disk failed. Then the store has failed.
    pub fn sync<D: Disk>(self, store: &mut Store<D>) -> Result<Checkpoint, Refusal>
        requires fits { FitsOther (store_state D.state store.old) (retiring_size self) }
        ensures next { D.honest → IsRetiringOn (store_state D.state store.old) self
            → IfOk result (IsCheckpointOn (store_state D.state store.new)) }
        ensures images { D.honest → IsRetiringOn (store_state D.state store.old) self
            → EachImageHolds (store_state D.state store.old) (D.state (disk_of store.new)) }
        ensures fits { IfOk result (λ phase. FitsOther (store_state D.state store.new)
            (checkpoint_size phase)) }
        ensures closed { OnOk result ((store_state D.state store.new).log.other_open ≡ false) }
        ensures kept { KeepsTable (store_state D.state store.old) (store_state D.state store.new)
            result }
        ensures call { IsOneCall D.failures D.outlook store.old store.new result }
    {
        let Retiring { phase, checkpoint } = self;
        match phase.sync(&mut store.log) {
            Ok(()) => Ok(Checkpoint { phase: checkpoint }),
            Err(_) => {
                checkpoint.lose();
                Err(store.fail())
            }
        }
    }

    /// Drops the checkpoint at a crash.
    pub fn lose(self) {
        let Retiring { phase, checkpoint } = self;
        phase.lose();
        checkpoint.lose();
    }
}

impl CheckpointWritten {
    /// Syncs the checkpoint. Refused with `DeviceFailed` exactly if the disk failed. Then the store
    /// has failed.
    pub fn sync<D: Disk>(self, store: &mut Store<D>) -> Result<CheckpointSynced, Refusal>
        requires fits { FitsOther (store_state D.state store.old) (checkpoint_written_size self) }
        ensures next { D.honest → IsCheckpointWrittenOn (store_state D.state store.old) self
            → IfOk result (IsCheckpointSyncedOn (store_state D.state store.new)) }
        ensures images { D.honest → IsCheckpointWrittenOn (store_state D.state store.old) self
            → EachImageHolds (store_state D.state store.old) (D.state (disk_of store.new)) }
        ensures fits { IfOk result (λ phase. FitsOther (store_state D.state store.new)
            (checkpoint_synced_size phase)) }
        ensures kept { KeepsTable (store_state D.state store.old) (store_state D.state store.new)
            result }
        ensures call { IsOneCall D.failures D.outlook store.old store.new result }
    {
        let CheckpointWritten { phase } = self;
        match phase.sync(&mut store.log) {
            Ok(phase) => Ok(CheckpointSynced { phase }),
            Err(_) => Err(store.fail()),
        }
    }

    /// Drops the checkpoint at a crash.
    pub fn lose(self) {
        let CheckpointWritten { phase } = self;
        phase.lose();
    }
}

impl CheckpointSynced {
    /// Opens the checkpoint's gate. Refused with `DeviceFailed` exactly if the disk failed. Then
    /// the store has failed.
    pub fn open_gate<D: Disk>(self, store: &mut Store<D>) -> Result<CheckpointOpened, Refusal>
        requires fits { FitsOther (store_state D.state store.old) (checkpoint_synced_size self) }
        ensures next { D.honest → IsCheckpointSyncedOn (store_state D.state store.old) self
            → IfOk result (IsCheckpointOpenedOn (store_state D.state store.new)) }
        ensures images { D.honest → IsCheckpointSyncedOn (store_state D.state store.old) self
            → EachImageHolds (store_state D.state store.old) (D.state (disk_of store.new)) }
        ensures fits { IfOk result (λ phase. FitsOther (store_state D.state store.new)
            (checkpoint_opened_size phase)) }
        ensures kept { KeepsTable (store_state D.state store.old) (store_state D.state store.new)
            result }
        ensures call { IsOneCall D.failures D.outlook store.old store.new result }
    {
        let CheckpointSynced { phase } = self;
        match phase.open_gate(&mut store.log) {
            Ok(phase) => Ok(CheckpointOpened { phase }),
            Err(_) => Err(store.fail()),
        }
    }

    /// Drops the checkpoint at a crash.
    pub fn lose(self) {
        let CheckpointSynced { phase } = self;
        phase.lose();
    }
}

impl CheckpointOpened {
    /// Syncs the checkpoint's gate. After that its area is the live one, and has room for the
    /// largest batch. Refused with `DeviceFailed` exactly if the disk failed. Then the store has
    /// failed.
    pub fn sync<D: Disk>(self, store: &mut Store<D>) -> Result<(), Refusal>
        requires fits { FitsOther (store_state D.state store.old) (checkpoint_opened_size self) }
        ensures settled { D.honest → IsCheckpointOpenedOn (store_state D.state store.old) self
            → OnOk result (IsSettled (store_state D.state store.new)) }
        ensures roomy { OnOk result (IsRoomy (store_state D.state store.new)) }
        ensures generation { D.honest → IsCheckpointOpenedOn (store_state D.state store.old) self
            → OnOk result
            ((store_state D.state store.new).log.generation
            ≡ (store_state D.state store.old).log.generation + 1) }
        ensures images { D.honest → IsCheckpointOpenedOn (store_state D.state store.old) self
            → EachImageHolds (store_state D.state store.old) (D.state (disk_of store.new)) }
        ensures table { (store_state D.state store.new).table
            ≡ (store_state D.state store.old).table }
        ensures seq { (store_state D.state store.new).seq ≡ (store_state D.state store.old).seq }
        ensures call { IsOneCall D.failures D.outlook store.old store.new result }
    {
        let CheckpointOpened { phase } = self;
        match phase.sync(&mut store.log) {
            Ok(()) => Ok(()),
            Err(_) => Err(store.fail()),
        }
    }

    /// Drops the checkpoint at a crash.
    pub fn lose(self) {
        let CheckpointOpened { phase } = self;
        phase.lose();
    }
}
