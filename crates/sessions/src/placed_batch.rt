// A batch whose records were moved into a table.
ghost use Rattle.std.specs.Prelude.{◌≡◌, ◌≤◌, ◌<◌, [], ◌∷◌, ◌++◌, length, MatchResult};
ghost use Rattle.lw_types.specs.declared.refusal.Refusal.TheVariants.{OutOfMemory};
ghost use Rattle.sessions.specs.Decision.{FitAll, with_decisions};

use crate::{Batch, Placed, Table};
use lw_types::Refusal;
use std::alloc::Global;
use std::marker::Model;

/// The decisions of a batch whose records were moved into a table, in order, with room for 64. In
/// contracts it is the list of the whole decisions.
pub struct PlacedBatch {
    decisions: Vec<Placed>,
}

// By hand, so that it is proved once: a derived drop is proved again at each use of the type.
impl Drop for PlacedBatch {
    fn drop(self) {
        let Self { decisions: _ } = self;
    }
}

impl Model for PlacedBatch {
    ghost use Rattle.std.specs.Prelude.{◌≤◌, List, length, vec_capacity};
    ghost use Rattle.sessions.specs.declared.decision.Decision.{Decision};

    ghost Value = { List Decision };

    ghost view = { λ b. b.decisions.items };

    ghost invariant = { λ b. (length b.decisions.items ≤ 64) × (64 ≤ vec_capacity b.decisions) };
}

impl PlacedBatch {
    /// No decisions, and room for 64.
    pub fn new(alloc: Global) -> Result<Self, Refusal>
        ensures { MatchResult result (λ placed. placed ≡ []) (λ e. e ≡ OutOfMemory) }
    {
        Ok(PlacedBatch {
            decisions: Vec::with_capacity(alloc, Batch::MOST)?,
        })
    }

    // Adds a decision at the end. Takes no memory.
    fn push(&mut self, placed: Placed)
        requires { length self.old < 64 }
        ensures { self.new ≡ self.old ++ placed ∷ [] }
    {
        let pushed: Result<_, _> = self.decisions.push(placed);
        pushed.unwrap();
    }

    /// The number of decisions.
    pub fn len(&self) -> usize
        ensures len { result ≡ length self.now }
        ensures few { length self.now ≤ 64 }
    {
        self.decisions.len()
    }

    /// The vector of the decisions, at most 64 of them.
    pub fn into_vec(self) -> Vec<Placed>
        ensures decisions { result.items ≡ self }
        ensures few { length self ≤ 64 }
    {
        let PlacedBatch { decisions } = self;
        decisions
    }
}

impl Table {
    /// Moves the records of a batch into their slots, and the rest of its decisions into this room.
    /// Takes no memory and copies no record. Its cost doesn't grow with the number of devices.
    pub fn set_all(&mut self, batch: Batch, room: PlacedBatch) -> PlacedBatch
        requires fit { FitAll self.old batch }
        requires empty { room ≡ [] }
        ensures table { self.new ≡ with_decisions self.old batch }
        ensures batch { result ≡ batch }
    {
        let mut placed = room;
        for decision in batch.into_vec() {
            let slot = decision.slot;
            let (record, rest) = decision.into_placed();
            self.set_device(slot, record);
            placed.push(rest);
        }
        placed
    }
}
