// Batches that are taken from a core which threads share.
ghost use Rattle.std.specs.Prelude.{true, ◌≡◌, ℕ, List, OnOk};
ghost use Rattle.flusher.specs.Drawn.{CommitsTaken};
ghost use Rattle.flusher.specs.Lived.{LeadOn};
ghost use Rattle.flusher.specs.Released.{effects_given, given_to};
ghost use Rattle.flusher.specs.Serving.{AsksAfter, MakeChains, answers_of};
ghost use Rattle.session_core.specs.Taking.{DrawsNext};
ghost use Rattle.store.specs.State.{store_state};

use crate::{Feed, Most, Released, serve};
use disk::Disk;
use lw_types::Refusal;
use session_core::{Books, Sessions, Taker};
use sessions::Batch;
use std::alloc::Global;
use std::marker::Model;
use std::sync::Wait;
use store::Store;

/// The decisions that wait in a core, under its lock. Each batch is the oldest of them, as
/// [`Sessions::take`] returns them: those that come next in the history of the core's decisions. In
/// contracts it is its taker: how many were taken, and the history as far as it was seen.
#[derive(Drop)]
pub struct Drawn<'x, B: Books, S: Sessions<B>, R: Wait> {
    rt: &'x R,
    sessions: &'x S,
    taker: Taker<B>,
}

impl<'x, B: Books, S: Sessions<B>, R: Wait> Model for Drawn<'x, B, S, R> {
    ghost use Rattle.session_core.specs.Taking.{TakerState};

    ghost Value = { TakerState };

    ghost view = { λ drawn. drawn.taker };
}

impl<'x, B: Books, S: Sessions<B>, R: Wait> Drawn<'x, B, S, R> {
    /// A feed that takes with this share.
    pub fn new(rt: &'x R, sessions: &'x S, taker: Taker<B>) -> Self
        ensures { result ≡ taker }
    {
        Drawn {
            rt,
            sessions,
            taker,
        }
    }

    /// The taker: how many decisions were taken, and the history as far as it was seen.
    pub fn taker(&self) -> &Taker<B>
        ensures { result.now ≡ self.now }
    {
        &self.taker
    }

    /// [`serve`](crate::serve) with this feed. What it commits is what was decided: the decisions
    /// that come next in the history, after those that were taken before, each once and in order
    /// (`next`). If it ends well, these are all up to the last take. The other clauses are those of
    /// `serve`. This function need not return.
    pub fn serve<D: Disk, C: FnMut(Vec<Released>), A: FnMut() -> bool>(
        &mut self,
        store: &mut Store<D>,
        alloc: Global,
        out: &mut C,
        done: &mut A,
    ) -> Result<(), Refusal>
        requires out { C.IsAlwaysCallable out.old }
        requires done { A.IsAlwaysCallable done.old }
        ensures next { CommitsTaken D.honest effects_given (given_to C.step)
            (store_state D.state store.old) (store_state D.state store.new)
            self.old self.new out.old out.new result }
        ensures lives { D.honest → LeadOn effects_given (given_to C.step)
            (store_state D.state store.old) (store_state D.state store.new) out.old out.new }
        ensures chains { (counts : List ℕ)
            × (MakeChains D.Disk DrawsNext effects_given (given_to C.step) 64
            store.old store.new self.old self.new out.old out.new (answers_of counts result)
            × AsksAfter A.step counts result done.old done.new) }
        ensures done { OnOk result ((before : A) × A.step before true done.new) }
    {
        sessions::laws::folding();
        sessions::laws::joining();
        sessions::laws::composing();
        serve(self.rt, store, self, alloc, out, done)
    }
}

impl<'x, B: Books, S: Sessions<B>, R: Wait> Feed for Drawn<'x, B, S, R> {
    ghost use Rattle.session_core.specs.Taking.{DrawsNext};

    ghost gives = { DrawsNext };

    fn next(&mut self, most: Most) -> Result<Batch, Refusal> {
        self.sessions.take(self.rt, &mut self.taker, most)
    }
}
