// A core as a feed: what is decided between its takes.
ghost use Rattle.std.specs.Prelude.{◌≢◌, IfErr, OnOk};
ghost use Rattle.std.specs.List.{FoldsTo};
ghost use Rattle.flusher.specs.Chain.{IsChain};
ghost use Rattle.flusher.specs.Lived.{LeadOn};
ghost use Rattle.flusher.specs.Released.{effects_given, given_to};
ghost use Rattle.flusher_lives.specs.Coming.{Comes, GivesAfterComing};
ghost use Rattle.flusher_lives.specs.Deciding.{CommitsDecided, IsInStep, StaysInStep};
ghost use Rattle.lw_types.specs.declared.refusal.Refusal.TheVariants.{OutOfStep};
ghost use Rattle.store.specs.State.{store_state};

use disk::Disk;
use flusher::{ChainLength, Feed, Most, Released, chain};
use lw_types::Refusal;
use session_core::{Core, Event, Moment};
use sessions::Batch;
use std::alloc::Global;
use std::collections::VecDeque;
use store::Store;

/// What comes between two takes, each item with its moment.
pub type Coming = Vec<(Moment, Event)>;

/// A core from which a flusher takes, with what comes to it before each of the takes. This stands
/// for anything that the threads of a server do that share the core: the flusher sees the core only
/// at its takes, and between two of them any events may come, in any order.
#[derive(Drop)]
pub struct CoreFeed {
    pub(crate) core: Core,
    coming: VecDeque<Coming>,
}

impl CoreFeed {
    ghost use Rattle.std.specs.Prelude.{◌≡◌};

    /// A feed of this core, and of what comes to it before each take. Takes no memory.
    pub fn new(core: Core, coming: VecDeque<Coming>) -> Self
        ensures core { result.core ≡ core }
        ensures coming { result.coming.items ≡ coming.items }
    {
        CoreFeed { core, coming }
    }
}

impl Feed for CoreFeed {
    ghost use Rattle.flusher_lives.specs.Coming.{GivesAfterComing};

    ghost gives = { GivesAfterComing };

    fn next(&mut self, most: Most) -> Result<Batch, Refusal> {
        if let Some(coming) = self.coming.pop_front() {
            play_all(&mut self.core, coming);
        }
        self.core.take(most)
    }
}

fn play_all(core: &mut Core, coming: Coming)
    ensures { FoldsTo Comes core.old coming.items core.new }
{
    for (moment, event) in coming {
        core.handle(moment, event);
    }
}

/// A [`chain`] of what a core decides, on the store from which its decisions continue. What the
/// store has at the end is the first of these decisions, in order: of those that waited, and of
/// those that the core made of what came to it before each take. If the chain isn't refused, a
/// crash after it leaves these. If it is refused, a crash leaves these, or these and the batch in
/// doubt, which has the next ones. The chain is never refused with `OutOfStep`, since a batch of a
/// core continues what it gave before.
pub fn chain_of_core<D: Disk, C: FnMut(Vec<Released>)>(
    store: &mut Store<D>,
    feed: &mut CoreFeed,
    alloc: Global,
    most: ChainLength,
    out: &mut C,
) -> Result<usize, Refusal>
    requires out { C.IsAlwaysCallable out.old }
    requires goes_on { IsInStep (store_state D.state store.old) feed.old.core.decisions }
    ensures callable { C.IsAlwaysCallable out.new }
    ensures chain { IsChain D.Disk GivesAfterComing effects_given (given_to C.step) most
        store.old store.new feed.old feed.new out.old out.new result }
    ensures decided { CommitsDecided D.honest effects_given (given_to C.step)
        (store_state D.state store.old) (store_state D.state store.new)
        feed.old feed.new out.old out.new }
    ensures whole { OnOk result (StaysInStep D.honest effects_given (given_to C.step)
        (store_state D.state store.old) (store_state D.state store.new)
        feed.old feed.new out.old out.new) }
    ensures in_step { IfErr result (λ e. e ≢ OutOfStep) }

    // The lives that led the store here continue, and what left in addition was given to `out`, in
    // order.
    ensures lives { D.honest → LeadOn effects_given (given_to C.step)
        (store_state D.state store.old) (store_state D.state store.new) out.old out.new }
{
    sessions::laws::folding();
    sessions::laws::joining();
    sessions::laws::composing();
    // what a core keeps: its decisions continue each other
    let _made = feed.core.made();
    chain(store, feed, alloc, most, out)
}
