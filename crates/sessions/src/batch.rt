// Decisions that are committed together.
ghost use Rattle.std.specs.Prelude.{◌≡◌, ◌≤◌, ◌<◌, [], ◌∷◌, ◌++◌, length, map, OnOk, OnErr};
ghost use Rattle.std.specs.Prelude.{MatchResult, IsTrue, ◌↔◌};
ghost use Rattle.lw_types.specs.declared.refusal.Refusal.TheVariants.{OutOfMemory};

use crate::Decision;
use devices::Device;
use lw_types::{Ranged, Refusal};
use std::alloc::Global;
use std::marker::Model;

/// The number of decisions in the largest batch.
const LARGEST: u64 = Batch::MOST as u64;

/// The most decisions that a caller asks for, from 1 to 64.
pub type Most = Ranged<1, LARGEST>;

/// At most 64 decisions in order, with room for 64. In contracts it is the list of the decisions.
pub struct Batch {
    decisions: Vec<Decision>,
}

// By hand, so that it is proved once: a derived drop is proved again at each use of the type.
impl Drop for Batch {
    fn drop(self) {
        let Self { decisions: _ } = self;
    }
}

impl Model for Batch {
    ghost use Rattle.std.specs.Prelude.{◌≤◌, List, length, vec_capacity};
    ghost use Rattle.sessions.specs.declared.decision.Decision.{Decision};

    ghost Value = { List Decision };

    ghost view = { λ b. b.decisions.items };

    ghost invariant = { λ b. (length b.decisions.items ≤ 64) × (64 ≤ vec_capacity b.decisions) };
}

impl Batch {
    /// The most decisions that are committed together.
    pub const MOST: usize = 64;

    /// No decisions, and room for 64.
    pub fn new(alloc: Global) -> Result<Self, Refusal>
        ensures { MatchResult result (λ batch. batch ≡ []) (λ e. e ≡ OutOfMemory) }
    {
        Ok(Batch {
            decisions: Vec::with_capacity(alloc, Self::MOST)?,
        })
    }

    /// Adds a decision at the end. Takes no memory.
    pub fn push(&mut self, decision: Decision)
        requires { length self.old < 64 }
        ensures { self.new ≡ self.old ++ decision ∷ [] }
    {
        let pushed: Result<_, _> = self.decisions.push(decision);
        pushed.unwrap();
    }

    /// The decisions in order, at most 64.
    pub fn as_slice(&self) -> &[Decision]
        ensures decisions { result.now ≡ self.now }
        ensures few { length self.now ≤ 64 }
    {
        self.decisions.as_slice()
    }

    /// The number of decisions.
    pub fn len(&self) -> usize
        ensures len { result ≡ length self.now }
        ensures few { length self.now ≤ 64 }
    {
        self.decisions.len()
    }

    /// Whether there are no decisions.
    pub fn is_empty(&self) -> bool
        ensures { IsTrue result ↔ (self.now ≡ []) }
    {
        self.decisions.is_empty()
    }

    /// The vector of the decisions, at most 64 of them.
    pub fn into_vec(self) -> Vec<Decision>
        ensures decisions { result.items ≡ self }
        ensures few { length self ≤ 64 }
    {
        let Batch { decisions } = self;
        decisions
    }
}
