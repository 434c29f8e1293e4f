// A flusher's cycles, one after another.
ghost use Rattle.std.specs.Prelude.{true, ◌≡◌, ℕ, List, OnOk};
ghost use Rattle.flusher.specs.Lived.{LeadOn};
ghost use Rattle.flusher.specs.Released.{effects_given, given_to};
ghost use Rattle.flusher.specs.Serving.{AsksAfter, MakeChains, answers_of};
ghost use Rattle.store.specs.State.{store_state};

use crate::{ChainLength, Feed, Released, chain};
use disk::Disk;
use lw_types::Refusal;
use std::alloc::Global;
use std::sync::Wait;
use store::Store;

/// Repeats [`chain`], of at most 64 batches, until one is refused, or until `done` returns true
/// after one without a batch. It doesn't wait itself: the flusher waits in `done`. Each chain is as
/// `chain` says, and continues with what the one before it left: between them no batch is taken and
/// no effect leaves. No effect of the batch that was refused has left. This function need not
/// return.
pub fn serve<R: Wait, D: Disk, F: Feed, C: FnMut(Vec<Released>), S: FnMut() -> bool>(
    rt: &R,
    store: &mut Store<D>,
    feed: &mut F,
    alloc: Global,
    out: &mut C,
    done: &mut S,
) -> Result<(), Refusal>
    requires out { C.IsAlwaysCallable out.old }
    requires done { S.IsAlwaysCallable done.old }

    // The lives that led the store here continue, and what left in addition was given to `out`, in
    // order.
    ensures lives { D.honest → LeadOn effects_given (given_to C.step)
        (store_state D.state store.old) (store_state D.state store.new) out.old out.new }

    // Its chains, in order, from what it was given to what it leaves. It ends with the refusal of
    // the last one, or after one without a batch, if `done` says so. `done` is called after each
    // chain without a batch, and at no other time.
    ensures chains { (counts : List ℕ)
        × (MakeChains D.Disk F.gives effects_given (given_to C.step) 64
        store.old store.new feed.old feed.new out.old out.new (answers_of counts result)
        × AsksAfter S.step counts result done.old done.new) }
    ensures done { OnOk result ((before : S) × S.step before true done.new) }
{
    for _ in rt.forever() {
        if chain(store, feed, alloc, served(), out)? == 0 && done() {
            return Ok(());
        }
    }
    unreachable!()
}

// The greatest number of batches of a chain.
fn served() -> ChainLength
    ensures { result ≡ 64 }
{
    ChainLength::new(64).unwrap()
}
