// The two ledgers and the history of a life.
ghost use Rattle.std.specs.Prelude.{ℕ};
ghost use Rattle.logbook.specs.Pages.{Book};

use std::marker::{Brand, PhantomData};
use std::sync::ledger::Ledger;

/// Names the two ledgers and the history of a life, and says how many seats share the first ledger.
/// It exists for proofs only: the caller that begins the life provides the names.
pub trait Books {
    /// The name of the ledger of decisions made.
    ghost made_name: { ℕ };

    /// The parts of that ledger, one for each seat.
    ghost made_parts: { ℕ };

    /// The name of the ledger of decisions taken, which has one part.
    ghost taken_name: { ℕ };

    /// The name of the history of the decisions.
    ghost history: { Book };
}

impl Books for Brand {
    ghost made_name = { 0 };

    ghost made_parts = { 0 };

    ghost taken_name = { 0 };

    ghost history = { record { number = 0; log_name = 0; cells_name = 0 } };
}

/// The ledger of the decisions that were made, with one part for each seat.
pub struct Made<B: Books> {
    of: PhantomData<B>,
}

impl<B: Books> Ledger for Made<B> {
    ghost name = { B.made_name };

    ghost parts = { B.made_parts };
}

/// The ledger of the decisions that were taken, with one part.
pub struct Taken<B: Books> {
    of: PhantomData<B>,
}

impl<B: Books> Ledger for Taken<B> {
    ghost name = { B.taken_name };

    ghost parts = { 1 };
}
