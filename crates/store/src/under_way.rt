// What is under way on a store.
use crate::publishing::Publishing;
use crate::{Begun, BodySynced, Durable, GateWritten, Paired, Store, Written};
use disk::Disk;
use lw_types::Refusal;

/// What is under way on a store, according to what its next device call does: the commit of a
/// batch, or of two that share a sync, or a checkpoint. `T` is what accompanies a batch until it is
/// durable, for example the room for its effects.
pub enum UnderWay<T> {
    /// Writes the batch's body.
    Begun(Begun, T),
    /// Syncs the body.
    Written(Written, T),
    /// Opens the batch's gate.
    BodySynced(BodySynced, T),
    /// Syncs the gate.
    GateWritten(GateWritten, T),
    /// Writes the following batch's body, after the batch whose gate is written.
    Following {
        opened: GateWritten,
        along: T,
        following: Begun,
        behind: T,
    },
    /// Syncs that gate and that body.
    Paired(Paired, T, T),
    /// Makes a call of a checkpoint.
    Checkpoint(Publishing),
}

/// What one device call led to.
pub enum Called<T> {
    /// More calls have to be made.
    UnderWay(UnderWay<T>),
    /// A batch is durable. What is under way after it goes on.
    Durable(Durable, T, Option<UnderWay<T>>),
    /// The store has taken the checkpoint over, and has room for the largest batch.
    Published,
}

impl<T: Drop> UnderWay<T> {
    ghost use Rattle.store.specs.State.{store_state, IsOneCall};
    ghost use Rattle.store.specs.UnderWay.{IsNextCall, IsOnItsWay};

    /// Makes the next device call. Refused with `DeviceFailed` exactly if the device failed. Then
    /// the store has failed, what was under way is lost, and only opening the store again shows
    /// whether a batch whose gate was written is on the disk.
    pub fn call<D: Disk>(self, store: &mut Store<D>) -> Result<Called<T>, Refusal>
        requires { IsOnItsWay (store_state D.state store.old) self }
        ensures next { IsNextCall D.Disk store.old self result store.new }
        ensures call { IsOneCall D.failures D.outlook store.old store.new result }
    {
        match self {
            UnderWay::Begun(phase, along) => {
                Ok(Called::UnderWay(UnderWay::Written(phase.write(store)?, along)))
            }
            UnderWay::Written(phase, along) => {
                Ok(Called::UnderWay(UnderWay::BodySynced(phase.sync(store)?, along)))
            }
            UnderWay::BodySynced(phase, along) => {
                Ok(Called::UnderWay(UnderWay::GateWritten(phase.open_gate(store)?, along)))
            }
            UnderWay::GateWritten(phase, along) => {
                Ok(Called::Durable(phase.sync(store)?, along, None))
            }
            UnderWay::Following {
                opened,
                along,
                following,
                behind,
            } => {
                let paired = opened.write_next(following, store)?;
                Ok(Called::UnderWay(UnderWay::Paired(paired, along, behind)))
            }
            UnderWay::Paired(phase, along, behind) => {
                let (durable, synced) = phase.sync(store)?;
                let next = UnderWay::BodySynced(synced, behind);
                Ok(Called::Durable(durable, along, Some(next)))
            }
            UnderWay::Checkpoint(phase) => match phase.call(store)? {
                Some(next) => Ok(Called::UnderWay(UnderWay::Checkpoint(next))),
                None => Ok(Called::Published),
            },
        }
    }

    /// Drops what is under way at a crash.
    pub fn lose(self) {
        match self {
            UnderWay::Begun(phase, _) => phase.lose(),
            UnderWay::Written(phase, _) => phase.lose(),
            UnderWay::BodySynced(phase, _) => phase.lose(),
            UnderWay::GateWritten(phase, _) => phase.lose(),
            UnderWay::Following {
                opened,
                following,
                along: _,
                behind: _,
            } => {
                opened.lose();
                following.lose();
            }
            UnderWay::Paired(phase, _, _) => phase.lose(),
            UnderWay::Checkpoint(phase) => phase.lose(),
        }
    }
}
