// The cycles of a flusher.
ghost use Rattle.std.specs.Prelude.{◌≡◌, true, OnOk};
ghost use Rattle.flusher.specs.Calls.{IsUntouched};
ghost use Rattle.flusher.specs.Cycle.{ChecksWhereFull, IsReady};
ghost use Rattle.flusher.specs.Lived.{LeadsOn};
ghost use Rattle.flusher.specs.OneCycle.{IsCycle};
ghost use Rattle.flusher.specs.Released.{effects_given, given_to};
ghost use Rattle.store.specs.State.{store_state, IsSettled};

use crate::{ChainLength, Feed, Released, chain};
use disk::Disk;
use lw_types::Refusal;
use std::alloc::Global;
use store::Store;

/// One cycle of a flusher, on a store with nothing under way. It takes a batch from the feed,
/// commits it by four calls of the disk, and then gives the effects of its commands to `out`, once
/// and all together. Returns the number of decisions of the batch. If the feed gives an empty
/// batch, that is 0, and `out` isn't called. If the journal has no room for the largest batch, a
/// checkpoint is written first, by four calls or six.
///
/// A refusal is returned before anything has left:
///
/// - `OutOfMemory` if memory runs out;
/// - `Damaged` exactly if a checkpoint is due and the live area has the last generation;
/// - the feed's own refusal;
/// - `Failed` exactly if an earlier call of the disk failed and a checkpoint is due or the batch
///   isn't empty;
/// - `OutOfStep` exactly if the batch isn't empty and no legal continuation of the durable table;
/// - `DeviceFailed` exactly if a call of the disk failed.
///
/// Room for the effects is allocated before everything else. A batch that was taken and refused is
/// given up.
///
/// The cost grows with the batch, and with the whole table if a checkpoint is written.
pub fn cycle<D: Disk, F: Feed, C: FnMut(Vec<Released>)>(
    store: &mut Store<D>,
    feed: &mut F,
    alloc: Global,
    out: &mut C,
) -> Result<usize, Refusal>
    requires { C.IsAlwaysCallable out.old }

    ensures cycle { IsCycle D.Disk F.gives effects_given (given_to C.step)
        store.old store.new feed.old feed.new out.old out.new result }
    ensures ready { OnOk result (IsReady (store_state D.state store.old)) }

    // A checkpoint was written exactly if the largest batch had no room.
    ensures checkpoint { D.honest → IsSettled (store_state D.state store.old) → OnOk result
        (ChecksWhereFull (store_state D.state store.old) (store_state D.state store.new)) }

    // A store that has failed isn't touched.
    ensures closed { (store_state D.state store.old).failed ≡ true
        → IsUntouched D.state store.old store.new }

    // The lives that led the store here continue, and what left in addition was given to `out` at
    // once.
    ensures lives { D.honest → LeadsOn effects_given (given_to C.step)
        (store_state D.state store.old) (store_state D.state store.new) out.old out.new }
{
    sessions::laws::composing();
    store::laws::a_settled_store_is_on_its_disk();
    chain(store, feed, alloc, one(), out)
}

// A chain of one batch.
fn one() -> ChainLength
    ensures { result ≡ 1 }
{
    ChainLength::new(1).unwrap()
}
