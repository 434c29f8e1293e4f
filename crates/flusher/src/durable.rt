// A durable batch, whose effects may leave.
ghost use Rattle.std.specs.Prelude.{◌≡◌, ◌≤◌, ◌+◌, ◌++◌, length, vec_capacity};
ghost use Rattle.sessions.specs.Decision.{effects_in};
ghost use Rattle.sessions.specs.declared.batch.TheConstants.Batch.{MOST};
ghost use Rattle.store.specs.Phases.{durable_decisions};
ghost use Rattle.flusher.specs.Released.{decisions_of, effects_of_all};

use crate::{MOST_EFFECTS, Released, Room};
use devices::Effects;
use sessions::{Placed, PlacedBatch};

/// A batch that every crash leaves, and room for its effects. It must be used up: `release` lets
/// its effects leave, and at a crash they are lost.
pub struct Durable {
    batch: PlacedBatch,
    room: Room,
}

impl Durable {
    /// The last phase of a commit, with room for its effects.
    pub fn new(durable: store::Durable, room: Room) -> Self
        ensures { decisions_of result ≡ durable_decisions durable }
    {
        Durable {
            batch: durable.into_batch(),
            room,
        }
    }

    // The number of decisions of the batch.
    pub(crate) fn len(&self) -> usize
        ensures len { result ≡ length (decisions_of self.now) }
        ensures few { length (decisions_of self.now) ≤ MOST }
    {
        self.batch.len()
    }

    /// Returns the effects of the batch's decisions, in order and complete, at most
    /// [`MOST_EFFECTS`]. Takes no memory.
    pub fn release(self) -> Vec<Released>
        ensures effects { effects_of_all result.items ≡ effects_in (decisions_of self) }
        ensures few { length result.items ≤ MOST_EFFECTS }
    {
        let Durable { batch, room } = self;
        let Room { mut effects } = room;
        for decision in batch.into_vec() {
            release_one(decision, &mut effects);
        }
        effects
    }

    /// Drops the effects, as a crash does.
    pub fn lose(self) {
        let Durable { batch: _, room: _ } = self;
    }
}

// Adds the effects of one decision.
fn release_one(decision: Placed, out: &mut Vec<Released>)
    requires { length out.old.items + Effects.MOST ≤ vec_capacity out.old }
    ensures effects { effects_of_all out.new.items
        ≡ effects_of_all out.old.items ++ decision.effects }
    ensures few { length out.new.items ≤ length out.old.items + Effects.MOST }
    ensures room { vec_capacity out.old ≤ vec_capacity out.new }
{
    for effect in decision.into_effects().into_vec() {
        let pushed: Result<_, _> = out.push(Released::new(effect));
        pushed.unwrap();
    }
}
