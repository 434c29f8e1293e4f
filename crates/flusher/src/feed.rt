// Where batches come from.
use lw_types::Refusal;
use sessions::{Batch, Most};
use std::alloc::Global;
use std::collections::VecDeque;

/// Where the batches of a flusher come from. Each type of feed says what it gives.
pub trait Feed {
    ghost use Rattle.std.specs.Prelude.{ℕ, List, Result};
    ghost use Rattle.lw_types.specs.declared.refusal.Refusal.{Refusal};
    ghost use Rattle.sessions.specs.declared.decision.Decision.{Decision};

    /// The feed before the call, the greatest number of decisions that was asked for, the result,
    /// and the feed after the call.
    ghost gives: { Self → ℕ → Result (List Decision) Refusal → Self → Type 0 };

    /// The next decisions that are to be committed together, at most `most`. If none wait, the
    /// batch is empty.
    fn next(&mut self, most: Most) -> Result<Batch, Refusal>
        ensures { gives self.old most result self.new };
}

/// Batches that are given in order, each whole, and empty batches after them. Refused only with
/// `OutOfMemory`, if there is no memory for an empty one.
#[derive(Drop)]
pub struct StoredBatches {
    alloc: Global,
    batches: VecDeque<Batch>,
}

impl StoredBatches {
    ghost use Rattle.std.specs.Prelude.{◌≡◌};
    ghost use Rattle.flusher.specs.Feed.{stored_in};

    /// The batches of this vector. Takes no memory.
    pub fn new(alloc: Global, batches: Vec<Batch>) -> Self
        ensures { stored_in result ≡ batches.items }
    {
        StoredBatches {
            alloc,
            batches: VecDeque::from(batches),
        }
    }
}

impl Feed for StoredBatches {
    ghost use Rattle.flusher.specs.Feed.{GivesStored, stored_in};

    ghost gives = { λ old _ answer new. GivesStored (stored_in old) answer (stored_in new) };

    fn next(&mut self, _most: Most) -> Result<Batch, Refusal> {
        match self.batches.pop_front() {
            Some(batch) => Ok(batch),
            None => Batch::new(self.alloc),
        }
    }
}
