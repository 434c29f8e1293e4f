// Whole checkpoints.
ghost use Rattle.std.specs.Prelude.{◌≡◌, ◌⊎◌, ◌+◌, true, IfErr, OnOk, MatchResult};
ghost use Rattle.flusher.specs.Calls.{AreStoreCalls, HasFailedWithin, HaveSucceeded};
ghost use Rattle.flusher.specs.Calls.{IsUntouched, LastFailed, NoneFailed, calls_of_room};
ghost use Rattle.flusher.specs.Cycle.{ChecksWhereFull, IsReady, IsUnready};
ghost use Rattle.lw_types.specs.declared.refusal.Refusal.TheVariants.{DeviceFailed};
ghost use Rattle.store.specs.Checkpointing.{FitsOther, IsCheckpointOn, checkpoint_size};
ghost use Rattle.store.specs.Publishing.{calls_left};
ghost use Rattle.store.specs.State.{store_state, disk_of, EachImageHolds, IsRoomy, IsSettled};
ghost use Rattle.store.specs.declared.publishing.Publishing.TheVariants.{Begun};

use disk::Disk;
use lw_types::Refusal;
use std::alloc::Global;
use store::{Checkpoint, Publishing, Store};

/// Makes room for the largest batch: writes a checkpoint if there is none.
pub(crate) fn make_room<D: Disk>(alloc: Global, store: &mut Store<D>) -> Result<(), Refusal>
    ensures calls { MatchResult result
        (λ _. NoneFailed D.failures D.outlook store.old store.new)
        (λ e. IsUnready (store_state D.state store.old) (IsUntouched D.state store.old store.new)
        (LastFailed D.failures D.outlook store.old store.new) e) }
    ensures made { MatchResult result
        (λ _. HaveSucceeded (calls_of_room (store_state D.state store.old))
        (D.outlook (disk_of store.old)) (D.outlook (disk_of store.new)))
        (λ _. (D.outlook (disk_of store.new) ≡ D.outlook (disk_of store.old))
        ⊎ HasFailedWithin 0 (calls_of_room (store_state D.state store.old))
        (D.outlook (disk_of store.old)) (D.outlook (disk_of store.new))) }
    ensures ready { OnOk result (IsReady (store_state D.state store.old)) }
    ensures roomy { OnOk result (IsRoomy (store_state D.state store.new)) }
    ensures checkpoint { D.honest → IsSettled (store_state D.state store.old) → OnOk result
        (ChecksWhereFull (store_state D.state store.old) (store_state D.state store.new)) }
    ensures images { D.honest → IsSettled (store_state D.state store.old) → MatchResult result
        (λ _. IsSettled (store_state D.state store.new))
        (λ _. EachImageHolds (store_state D.state store.old) (D.state (disk_of store.new))) }
    ensures refused { IfErr result (λ e. IsUntouched D.state store.old store.new
        ⊎ ((e ≡ DeviceFailed) × LastFailed D.failures D.outlook store.old store.new)) }
    ensures closed { (store_state D.state store.old).failed ≡ true
        → IsUntouched D.state store.old store.new }
    ensures table { (store_state D.state store.new).table ≡ (store_state D.state store.old).table }
    ensures seq { (store_state D.state store.new).seq ≡ (store_state D.state store.old).seq }
{
    store::laws::a_settled_store_is_on_its_disk();
    if store.roomy() {
        return Ok(());
    }
    let checkpoint = store.checkpoint(alloc)?;
    publish(store, checkpoint)
}

// Writes a checkpoint by four calls of the disk, or six if the other area's gate is open.
fn publish<D: Disk>(store: &mut Store<D>, checkpoint: Checkpoint) -> Result<(), Refusal>
    requires { FitsOther (store_state D.state store.old) (checkpoint_size checkpoint) }
    ensures calls { AreStoreCalls D.failures D.outlook store.old store.new result }
    ensures made { MatchResult result
        (λ _. HaveSucceeded (calls_left (store_state D.state store.old) (Begun checkpoint))
        (D.outlook (disk_of store.old)) (D.outlook (disk_of store.new)))
        (λ _. HasFailedWithin 0 (calls_left (store_state D.state store.old) (Begun checkpoint))
        (D.outlook (disk_of store.old)) (D.outlook (disk_of store.new))) }
    ensures roomy { OnOk result (IsRoomy (store_state D.state store.new)) }
    ensures generation { D.honest → IsCheckpointOn (store_state D.state store.old) checkpoint
        → OnOk result ((store_state D.state store.new).log.generation
        ≡ (store_state D.state store.old).log.generation + 1) }
    ensures images { D.honest → IsCheckpointOn (store_state D.state store.old) checkpoint
        → MatchResult result
        (λ _. IsSettled (store_state D.state store.new))
        (λ _. EachImageHolds (store_state D.state store.old) (D.state (disk_of store.new))) }
    ensures table { (store_state D.state store.new).table ≡ (store_state D.state store.old).table }
    ensures seq { (store_state D.state store.new).seq ≡ (store_state D.state store.old).seq }
{
    let mut publishing = Publishing::Begun(checkpoint);
    'calls: loop {
        match publishing.call(store)? {
            Some(next) => publishing = next,
            None => return Ok(()),
        }
    }
}
