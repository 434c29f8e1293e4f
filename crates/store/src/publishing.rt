// A checkpoint under way.
use crate::{Checkpoint, CheckpointOpened, CheckpointSynced, CheckpointWritten, Retiring, Store};
use disk::Disk;
use lw_types::Refusal;

/// A checkpoint under way, according to what its next device call does.
pub enum Publishing {
    /// Closes the other area's gate if that is open, or writes the checkpoint.
    Begun(Checkpoint),
    /// Syncs the closed gate.
    Retiring(Retiring),
    /// Syncs the checkpoint.
    Written(CheckpointWritten),
    /// Opens its gate.
    Synced(CheckpointSynced),
    /// Syncs that.
    Opened(CheckpointOpened),
}

impl Publishing {
    ghost use Rattle.std.specs.Prelude.{◌≡◌};
    ghost use Rattle.store.specs.Checkpointing.{FitsOther};
    ghost use Rattle.store.specs.Publishing.{IsPublishingCall, calls_left, publishing_size};
    ghost use Rattle.store.specs.State.{store_state, IsOneCall};

    /// Makes the next device call. The last one returns `None`. Refused with `DeviceFailed` exactly
    /// if the device failed. Then the store has failed.
    pub fn call<D: Disk>(self, store: &mut Store<D>) -> Result<Option<Self>, Refusal>
        requires { FitsOther (store_state D.state store.old) (publishing_size self) }
        ensures next { IsPublishingCall D.Disk store.old self result store.new }
        ensures call { IsOneCall D.failures D.outlook store.old store.new result }
    {
        match self {
            Publishing::Begun(phase) if store.must_retire() => {
                Ok(Some(Publishing::Retiring(phase.retire(store)?)))
            }
            Publishing::Begun(phase) => Ok(Some(Publishing::Written(phase.write(store)?))),
            Publishing::Retiring(phase) => Ok(Some(Publishing::Begun(phase.sync(store)?))),
            Publishing::Written(phase) => Ok(Some(Publishing::Synced(phase.sync(store)?))),
            Publishing::Synced(phase) => Ok(Some(Publishing::Opened(phase.open_gate(store)?))),
            Publishing::Opened(phase) => {
                phase.sync(store)?;
                Ok(None)
            }
        }
    }

    /// The number of device calls that are left.
    pub fn calls_left<D: Disk>(&self, store: &Store<D>) -> u64
        ensures { result ≡ calls_left (store_state D.state store.now) self.now }
    {
        match self {
            Publishing::Begun(_) if store.must_retire() => 6,
            Publishing::Begun(_) => 4,
            Publishing::Retiring(_) => 5,
            Publishing::Written(_) => 3,
            Publishing::Synced(_) => 2,
            Publishing::Opened(_) => 1,
        }
    }

    /// Drops the checkpoint at a crash.
    pub fn lose(self) {
        match self {
            Publishing::Begun(phase) => phase.lose(),
            Publishing::Retiring(phase) => phase.lose(),
            Publishing::Written(phase) => phase.lose(),
            Publishing::Synced(phase) => phase.lose(),
            Publishing::Opened(phase) => phase.lose(),
        }
    }
}
