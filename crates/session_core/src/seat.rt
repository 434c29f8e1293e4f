// The shares that threads have in what a core made and gave.
use crate::{Books, CallKind, History, Made, Moment, Taken};
use lw_types::Refusal;
use std::marker::Model;
use std::sync::ledger::Share;

/// What a call handed in, at which moment, and why it was refused, if it was.
#[derive(Clone, Copy, PartialEq, Eq)]
pub struct LastCall {
    pub moment: Moment,
    pub kind: CallKind,
    pub refused: Option<Refusal>,
}

/// A worker's share of the decisions that were made. In contracts it is the number of calls through
/// it, the number of decisions made through it, and the last call. The lock hides other threads'
/// calls, but this seat belongs to its caller alone, so it says what the caller's own call did.
#[derive(Drop)]
pub struct Seat<B: Books> {
    pub(crate) share: Share<Made<B>>,
    pub(crate) count: u64,
    pub(crate) calls: u64,
    pub(crate) last: Option<LastCall>,
}

impl<B: Books> Model for Seat<B> {
    ghost use Rattle.std.specs.Prelude.{◌≡◌};
    ghost use Rattle.session_core.specs.Seats.{SeatState};

    ghost Value = { SeatState };

    ghost view = { λ s. record { calls = s.calls; made = s.count; last = s.last } };

    ghost invariant = { λ s. (s.share.parts ≡ 1) × (s.share.amount ≡ s.count) };
}

impl<B: Books> Seat<B> {
    ghost use Rattle.std.specs.Prelude.{◌≡◌};
    ghost use Rattle.session_core.specs.Seats.{new_seat};

    pub(crate) fn new(share: Share<Made<B>>) -> Self
        requires { (share.parts ≡ 1) × (share.amount ≡ 0) }
        ensures { result ≡ new_seat }
    {
        Seat {
            share,
            count: 0,
            calls: 0,
            last: None,
        }
    }

    /// The number of decisions made through this seat.
    pub fn share(&self) -> u64
        ensures { result ≡ self.now.made }
    {
        self.count
    }

    /// The number of calls through this seat, at most 2^64 - 1; for inspection, for example by
    /// tests.
    pub fn calls(&self) -> u64
        ensures { result ≡ self.now.calls }
    {
        self.calls
    }

    /// The last call through this seat; for inspection, for example by tests.
    pub fn last(&self) -> Option<LastCall>
        ensures { result ≡ self.now.last }
    {
        self.last
    }
}

/// The flusher's share of the decisions that were taken: all of them. In contracts it is their
/// number, and the history of the life's decisions as far as the last take saw it.
#[derive(Drop)]
pub struct Taker<B: Books> {
    pub(crate) share: Share<Taken<B>>,
    pub(crate) count: u64,
    pub(crate) seen: History<B>,
}

impl<B: Books> Model for Taker<B> {
    ghost use Rattle.std.specs.Prelude.{◌≡◌};
    ghost use Rattle.session_core.specs.Taking.{TakerState};

    ghost Value = { TakerState };

    ghost view = { λ s. record { taken = s.count; seen = s.seen } };

    ghost invariant = { λ s. (s.share.parts ≡ 1) × (s.share.amount ≡ s.count) };
}

impl<B: Books> Taker<B> {
    ghost use Rattle.std.specs.Prelude.{◌≡◌, []};
    ghost use Rattle.session_core.specs.Taking.{new_taker};

    pub(crate) fn new(share: Share<Taken<B>>, seen: History<B>) -> Self
        requires share { (share.parts ≡ 1) × (share.amount ≡ 0) }
        requires seen { seen ≡ [] }
        ensures { result ≡ new_taker }
    {
        Taker {
            share,
            count: 0,
            seen,
        }
    }

    /// The number of decisions taken.
    pub fn share(&self) -> u64
        ensures { result ≡ self.now.taken }
    {
        self.count
    }

    /// The history of the life's decisions, as far as the last take saw it. It is empty before the
    /// first.
    pub fn seen(&self) -> &History<B>
        ensures { result.now ≡ self.now.seen }
    {
        &self.seen
    }
}
