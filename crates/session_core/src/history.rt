// The history of a life's decisions. It exists in proofs alone: what threads share is its length.
ghost use Rattle.std.specs.Prelude.{◌≡◌, ◌<◌, ◌^◌, ◌↔◌, ◌++◌, ◌∷◌, [], length, false, IsTrue};
ghost use mathlib.Core.List.{IsPrefix};
ghost use Rattle.session_core.specs.History.{length_word_of};

use crate::Books;
use logbook::{Gain, Offer, Plain, Play, Rule, Seen, Start, Word};
use sessions::Decision;
use std::marker::{Model, PhantomData};

/// The rule of a history.
pub struct HistoryRule;

impl Rule<Decision, u64> for HistoryRule {
    ghost use Rattle.std.specs.Prelude.{[]};
    ghost use base.Fml.{ftrue};
    ghost use Rattle.session_core.specs.History.{IsHistory};

    ghost holds = { λ cells log. IsHistory cells log };

    ghost first = { [] };

    ghost hinted = { λ n log. Unit {0} };

    ghost shows = { λ log. [] };

    ghost keeps = { λ names log. ftrue };

    ghost moves = { λ ask before after answer. Unit {0} };
}

/// Who adds to a history trades nothing.
pub struct NothingGained;

impl Gain<Decision, u64> for NothingGained {
    ghost use base.Fml.{ftrue};

    ghost after = { λ names about answer. ftrue };
}

/// The step that adds a decision.
pub struct AddDecision;

impl Play<Decision, u64> for AddDecision {
    ghost use Rattle.session_core.specs.History.{AppendsDecision};

    ghost then = { AppendsDecision };
}

impl Plain<Decision, Decision, u64> for AddDecision {
    ghost use Rattle.std.specs.Prelude.{None};

    ghost ask = { λ decision. decision };

    ghost state = { λ decision. None };
}

/// An empty history, which has no name yet.
pub struct BlankHistory {
    head: Word<Decision, u64, HistoryRule>,
    seen: Seen<Decision, u64, HistoryRule>,
    pub ghost empty: { seen.log ≡ [] },
    pub ghost head_is: { head ≡ length_word_of seen.book },
}

impl BlankHistory {
    pub fn new() -> Self {
        let (seen, mut first, _second) = Seen::open(Start::alone(), 0, 0);
        BlankHistory {
            head: Word::tracked(0, &mut first),
            seen,
        }
    }

    // The history of a life, under the name that its books give it.
    pub(crate) fn named<B: Books>(self) -> (HistoryHead<B>, History<B>)
        requires { self.seen.book ≡ B.history }
        ensures { result.1 ≡ [] }
    {
        let BlankHistory { head, seen } = self;
        (
            HistoryHead {
                head,
                of: PhantomData,
            },
            History {
                count: 0,
                seen,
                of: PhantomData,
            },
        )
    }
}

/// What all threads share of a history: its length.
#[derive(Drop)]
pub(crate) struct HistoryHead<B: Books> {
    head: Word<Decision, u64, HistoryRule>,
    of: PhantomData<B>,
    ghost head_is: { head ≡ length_word_of B.history },
}

/// A beginning of a life's decisions that was seen. In contracts it is the list of these.
#[derive(Drop)]
pub struct History<B: Books> {
    count: u64,
    seen: Seen<Decision, u64, HistoryRule>,
    of: PhantomData<B>,
}

impl<B: Books> Model for History<B> {
    ghost use Rattle.std.specs.Prelude.{◌≡◌, List, length};
    ghost use Rattle.sessions.specs.declared.decision.Decision.{Decision};

    ghost Value = { List Decision };

    ghost view = { λ history. history.seen.log };

    ghost invariant = { λ history. (history.count ≡ length history.seen.log)
        × (history.seen.book ≡ B.history) };
}

impl<B: Books> History<B> {
    /// The number of its decisions.
    pub fn len(&self) -> u64
        ensures { result ≡ length self.now }
    {
        self.count
    }

    /// A copy.
    pub fn again(&self) -> History<B>
        ensures { result ≡ self.now }
    {
        History {
            count: self.count,
            seen: self.seen.again(),
            of: PhantomData,
        }
    }

    /// Whether the other begins with this one. If it doesn't, this one begins with the other.
    pub fn begins(&self, other: &History<B>) -> bool
        ensures exact { IsTrue result ↔ IsPrefix self.now other.now }
        ensures otherwise { result ≡ false → IsPrefix other.now self.now }
    {
        let mut both = self.seen.again();
        both.learn(&other.seen);
        self.count <= other.count
    }

    // Adds a decision. Returns false if the history is longer than what was seen, and then has seen
    // more of it.
    pub(crate) fn add(&mut self, head: &HistoryHead<B>, decision: &Decision) -> bool
        requires room { length self.old < 2 ^ 62 }
        ensures added { IsTrue result → self.new ≡ self.old ++ decision.now ∷ [] }
        ensures longer { result ≡ false → IsPrefix self.old self.new
            × (length self.old < length self.new) }
    {
        let mut offer: Offer<Decision, u64, HistoryRule, NothingGained> = self
            .seen
            .plain::<NothingGained, Decision, AddDecision>(decision);
        let mut pen = self.seen.no_pen();
        let count = self.count;
        let found = head
            .head
            .compare_exchange::<AddDecision, NothingGained>(
                count,
                count + 1,
                &mut self.seen,
                &mut offer,
                &mut pen,
            );
        self.count = if found == count { count + 1 } else { found };
        found == count
    }
}
