// A core that several threads share, with the books of what each thread made and took.
ghost use Rattle.std.specs.Prelude.{◌≡◌, ◌+◌, ◌≤◌, ◌<◌, ◌^◌, ◌↔◌, ◌⊎◌, [], length, take, IfErr};
ghost use Rattle.std.specs.Prelude.{IfSome, true, false, IsSome, IsTrue, MatchResult};
ghost use mathlib.Core.List.{IsPrefix};
ghost use Rattle.lw_types.specs.declared.refusal.Refusal.TheVariants.{OutOfMemory, OutOfStep};
ghost use Rattle.devices.specs.declared.command.Command.TheVariants as commands;
ghost use Rattle.session_core.specs.Calls.{call_kind_of, work_of};
ghost use Rattle.session_core.specs.Deciding.{after_taking};
ghost use Rattle.session_core.specs.Events.{Asks, Hears, IsTurn, Ticks, next_due};
ghost use Rattle.session_core.specs.History.{HasAllDecisions, LacksOnly};
ghost use Rattle.session_core.specs.Observing.{IsSeenTurn, nothing_seen};
ghost use Rattle.session_core.specs.Seats.{HasMade, made_by, new_seat};
ghost use Rattle.session_core.specs.Taking.{DrawsNext, new_taker};
ghost use Rattle.session_core.specs.declared.event.CallKind.TheVariants.{Asked, Heard, Ticked};

use crate::history::HistoryHead;
use crate::observed::Observed;
use crate::{
    BlankHistory, Books, CallKind, Core, Event, History, LastCall, Made, Moment, Most, Outcome,
    Seat, Taken, Taker, Turn,
};
use devices::{Command, MacQueueing, Provisioning, Queueing};
use lw_types::{FrameCopy, Refusal};
use sessions::Batch;
use std::alloc::Global;
use std::sync::ledger::{Blank, Book, Share};

// The most decisions of which a history is known to be whole: more than a life makes in a hundred
// years.
const MOST_MADE: u64 = 1 << 62;

/// A core with two books: the number of decisions made, which is the sum of the seats' shares, and
/// the number of decisions taken, which is the taker's share. Beside them is the history of all
/// decisions made, of which those that wait are the end. Each call costs as much as that of the
/// core.
#[derive(Drop)]
pub struct Shared<B: Books> {
    core: Core,
    made: Book<Made<B>>,
    taken: Book<Taken<B>>,
    // The parts of the seats that weren't given yet, and their number.
    spare: Share<Made<B>>,
    left: u64,
    head: HistoryHead<B>,
    history: History<B>,
    // Whether the history has each decision. It always does, since nobody else adds to it. The
    // toolchain has no form that says so.
    is_whole: bool,
    // Whether somebody observes which windows are closed.
    is_observed: bool,
    ghost history_is: { IsTrue is_whole → HasAllDecisions core.decisions history },
    ghost made_is: { core.decisions.made ≡ made.total },
    ghost taken_is: { core.decisions.taken ≡ taken.total },
    ghost spare_is: { spare.parts ≡ left },
    ghost spare_made_nothing: { spare.amount ≡ 0 },
}

impl<B: Books> Shared<B> {
    /// A core that has made and given no decision yet, with this number of seats to give, and the
    /// share of the taker. The blanks are those of the two ledgers. Takes no memory.
    pub fn new(
        core: Core,
        seats: u64,
        made: Blank,
        taken: Blank,
        history: BlankHistory,
    ) -> (Self, Taker<B>)
        requires history { history.seen.book ≡ B.history }
        requires none_made { core.decisions.made ≡ 0 }
        requires none_taken { core.decisions.taken ≡ 0 }
        requires made { (made.name ≡ B.made_name) × (made.parts ≡ B.made_parts)
            × (made.parts ≡ seats) }
        requires taken { (taken.name ≡ B.taken_name) × (taken.parts ≡ 1) }
        ensures core { result.0.core ≡ core }
        ensures left { result.0.left ≡ seats }
        ensures taker { result.1 ≡ new_taker }
        ensures history { (result.0.is_whole ≡ true) × (result.0.history ≡ []) }
    {
        let (made, spare) = made.open::<Made<B>>();
        let (taken, all) = taken.open::<Taken<B>>();
        let (head, history) = history.named::<B>();
        let taker = Taker::new(all, history.again());
        // Only for the proof: by the contract of this call the core is lawful.
        let _ = core.made();
        let shared = Shared {
            core,
            made,
            taken,
            spare,
            left: seats,
            head,
            history,
            is_whole: true,
            is_observed: false,
        };
        (shared, taker)
    }

    /// A seat through which nothing was made yet. Takes no memory.
    pub fn seat(&mut self) -> Seat<B>
        requires { 0 < self.old.left }
        ensures seat { result ≡ new_seat }
        ensures core { self.new.core ≡ self.old.core }
        ensures left { self.new.left + 1 ≡ self.old.left }
        ensures history { (self.new.is_whole ≡ self.old.is_whole)
            × (self.new.history ≡ self.old.history) }
    {
        let share = self.spare.split_off(1, 0);
        self.left -= 1;
        Seat::new(share)
    }

    /// The number of decisions made in this life; for inspection, for example by tests.
    pub fn made(&self) -> u64
        ensures { result ≡ self.now.core.decisions.made }
    {
        self.core.made()
    }

    /// The core, for inspection.
    pub fn core(&self) -> &Core
        ensures { result.now ≡ self.now.core }
    {
        &self.core
    }

    /// From now on the frames whose windows are closed are returned ([`crate::Handled`]).
    pub fn observe(&mut self)
        ensures observed { self.new.is_observed ≡ true }
        ensures core { self.new.core ≡ self.old.core }
        ensures left { self.new.left ≡ self.old.left }
        ensures history { (self.new.is_whole ≡ self.old.is_whole)
            × (self.new.history ≡ self.old.history) }
    {
        self.is_observed = true;
    }

    /// An event comes ([`Core::handle`]).
    pub fn handle(&mut self, seat: &mut Seat<B>, moment: Moment, event: Event) -> Turn
        ensures turn { IsTurn self.old.core moment (work_of event) result self.new.core }
        ensures share { HasMade seat.old seat.new moment (call_kind_of event) result }
        ensures left { self.new.left ≡ self.old.left }
        ensures lacks { self.new.is_whole ≡ false → (self.old.is_whole ≡ false)
            ⊎ ((MOST_MADE ≤ length self.new.history)
            ⊎ (length self.old.history < length self.new.history)) }
    {
        let mut observed = self.core.observed(false);
        self.handle_seen(seat, moment, event, &mut observed)
    }

    // What observers are given before an event.
    pub(crate) fn observed(&self) -> Observed
        ensures { result ≡ nothing_seen self.now.is_observed }
    {
        self.core.observed(self.is_observed)
    }

    // An event comes, and somebody may observe which windows it closes.
    pub(crate) fn handle_seen(
        &mut self,
        seat: &mut Seat<B>,
        moment: Moment,
        event: Event,
        observed: &mut Observed,
    ) -> Turn
        ensures turn { IsSeenTurn self.old.core moment event result self.new.core
            observed.old observed.new }
        ensures share { HasMade seat.old seat.new moment (call_kind_of event) result }
        ensures left { self.new.left ≡ self.old.left }
        ensures lacks { self.new.is_whole ≡ false → (self.old.is_whole ≡ false)
            ⊎ ((MOST_MADE ≤ length self.new.history)
            ⊎ (length self.old.history < length self.new.history)) }
    {
        sessions::laws::joining();
        // Only for the proof: by the contract of this call there are at most 64 outcomes.
        let _ = self.core.outcomes();
        let kind = event.kind();
        let turn = self.core.handle_seen(moment, event, observed);
        self.is_whole = extend(&self.head, &mut self.history, &self.core, self.is_whole);
        count(&mut self.made, seat, moment, kind, &turn);
        turn
    }

    /// The history, if it has each decision.
    pub fn history(&self) -> Option<History<B>>
        ensures history { IfSome result (λ history. (history ≡ self.now.history)
            × HasAllDecisions self.now.core.decisions history) }
        ensures whole { IsSome result ↔ IsTrue self.now.is_whole }
    {
        if self.is_whole {
            Some(self.history.again())
        } else {
            None
        }
    }

    /// A gateway heard a frame ([`Core::hear`]).
    pub fn hear(&mut self, seat: &mut Seat<B>, moment: Moment, copy: FrameCopy) -> Turn
        ensures turn { IsTurn self.old.core moment (Hears copy) result self.new.core }
        ensures share { HasMade seat.old seat.new moment (Heard copy.reception.gateway) result }
        ensures left { self.new.left ≡ self.old.left }
    {
        self.handle(seat, moment, Event::Hear(copy))
    }

    /// Time passes ([`Core::tick`]).
    pub fn tick(&mut self, seat: &mut Seat<B>, moment: Moment) -> Turn
        ensures turn { IsTurn self.old.core moment Ticks result self.new.core }
        ensures share { HasMade seat.old seat.new moment Ticked result }
        ensures left { self.new.left ≡ self.old.left }
    {
        self.handle(seat, moment, Event::Tick)
    }

    /// An application provisions a device ([`Core::provision`]).
    pub fn provision(&mut self, seat: &mut Seat<B>, moment: Moment, value: Provisioning) -> Turn
        ensures turn { IsTurn self.old.core moment
            (Asks (commands.Provision value)) result self.new.core }
        ensures share { HasMade seat.old seat.new moment (Asked value.application) result }
        ensures left { self.new.left ≡ self.old.left }
    {
        self.handle(seat, moment, Event::Ask(Command::Provision(value)))
    }

    /// An application queues an item for its device ([`Core::queue`]).
    pub fn queue(&mut self, seat: &mut Seat<B>, moment: Moment, value: Queueing) -> Turn
        ensures turn { IsTurn self.old.core moment
            (Asks (commands.Queue value)) result self.new.core }
        ensures share { HasMade seat.old seat.new moment (Asked value.application) result }
        ensures left { self.new.left ≡ self.old.left }
    {
        self.handle(seat, moment, Event::Ask(Command::Queue(value)))
    }

    /// An application queues MAC commands for its device ([`Core::queue_mac`]).
    pub fn queue_mac(&mut self, seat: &mut Seat<B>, moment: Moment, value: MacQueueing) -> Turn
        ensures turn { IsTurn self.old.core moment
            (Asks (commands.QueueMac value)) result self.new.core }
        ensures share { HasMade seat.old seat.new moment (Asked value.application) result }
        ensures left { self.new.left ≡ self.old.left }
    {
        self.handle(seat, moment, Event::Ask(Command::QueueMac(value)))
    }

    /// Takes the oldest untaken decisions, at most `max` of them ([`Core::take`]). After an `Err`
    /// nothing has changed. It is `OutOfMemory`; or `OutOfStep` if the history lacks a decision
    /// that was made, or one that an earlier take saw. This never happens, since nobody else adds
    /// to it, but no clause says so.
    pub fn take(&mut self, taker: &mut Taker<B>, max: Most) -> Result<Batch, Refusal>
        ensures before { self.old.core.decisions.taken ≡ taker.old.taken }
        ensures core { MatchResult result
            (λ batch. (batch ≡ take max self.old.core.decisions.log)
            × (self.new.core ≡ record self.old.core
            { decisions = after_taking self.old.core.decisions max }))
            (λ _. self.new.core ≡ self.old.core) }
        ensures taken { DrawsNext taker.old max result taker.new }
        ensures step { IfErr result (λ e. e ≡ OutOfStep → IsTrue self.old.is_whole
            → ¬ (IsPrefix taker.old.seen self.old.history)) }
        ensures left { self.new.left ≡ self.old.left }
        ensures history { (self.new.is_whole ≡ self.old.is_whole)
            × (self.new.history ≡ self.old.history) }
    {
        self.taken.audit(&mut taker.share);
        // Only for the proof: by the contract of this call the core is lawful.
        let _ = self.core.made();
        let history = self.history_after(&taker.seen)?;
        let batch = self.core.take(max)?;
        note(&mut self.taken, taker, batch.len() as u64);
        taker.seen = history;
        Ok(batch)
    }

    // The history, if it has each decision and begins with what was seen.
    fn history_after(&self, seen: &History<B>) -> Result<History<B>, Refusal>
        ensures { MatchResult result
            (λ history. (history ≡ self.now.history)
            × (HasAllDecisions self.now.core.decisions history × IsPrefix seen.now history))
            (λ e. (e ≡ OutOfStep)
            × (IsTrue self.now.is_whole → ¬ (IsPrefix seen.now self.now.history))) }
    {
        match self.history() {
            Some(history) if seen.begins(&history) => Ok(history),
            _ => Err(Refusal::OutOfStep),
        }
    }

    /// The outcomes of the last commands that were handed in to be decided ([`Core::outcomes`]);
    /// for inspection, for example by tests. Refused with `OutOfMemory` if memory runs out.
    pub fn outcomes(&self, alloc: Global) -> Result<Vec<Outcome>, Refusal>
        ensures { MatchResult result (λ outcomes. outcomes.items ≡ self.now.core.outcomes)
            (λ e. e ≡ OutOfMemory) }
    {
        Ok(self.core.outcomes().to_vec(alloc)?)
    }

    /// The moment at which the oldest window is due ([`Core::next_due`]).
    pub fn next_due(&self) -> Option<Moment>
        ensures { result ≡ next_due self.now.core }
    {
        self.core.next_due()
    }

    /// The latest moment of this life so far ([`Core::effective_time`]).
    pub fn effective_time(&self) -> Moment
        ensures { result ≡ self.now.core.clock }
    {
        self.core.effective_time()
    }
}

impl<B: Books> Shared<B> {
    /// Ends the sharing after the seats came back. Returns the number of decisions made, which is
    /// what the seats made together. `None` if one of `all` seats is missing, since its share is
    /// lost with it. Takes no memory.
    pub fn settle(self, all: u64, seats: Vec<Seat<B>>) -> Option<u64>
        requires { all ≡ B.made_parts }
        ensures made { IfSome result
            (λ made. (made ≡ self.core.decisions.made) × (made_by seats.items ≡ made)) }
        ensures all { self.left + length seats.items ≡ all → IsSome result }
        ensures none_missing { IsSome result → self.left + length seats.items ≡ all }
    {
        let made = self.core.made();
        let Shared {
            made: mut book,
            mut spare,
            left,
            ..
        } = self;
        if !gather_shares(&mut spare, left, all, seats) {
            return None;
        }
        book.audit(&mut spare);
        Some(made)
    }
}

// Joins the shares of seats to those that weren't given, and returns whether these are all shares.
fn gather_shares<B: Books>(
    spare: &mut Share<Made<B>>,
    left: u64,
    all: u64,
    seats: Vec<Seat<B>>,
) -> bool
    requires { (spare.old.parts ≡ left) × (spare.old.amount ≡ 0) }
    ensures all { IsTrue result ↔ (left + length seats.items ≡ all) }
    ensures parts { spare.new.parts ≡ left + length seats.items }
    ensures amount { spare.new.amount ≡ made_by seats.items }
{
    let count = seats.len() as u64;
    for seat in seats {
        let Seat {
            share,
            count: _,
            calls: _,
            last: _,
        } = seat;
        spare.merge(share);
    }
    left.checked_add(count) == Some(all)
}

// Adds the decisions of a core that a history lacks, if it was whole before these. Returns whether
// it is whole now. If it isn't, then it wasn't before, it is too long, or it has grown.
fn extend<B: Books>(
    head: &HistoryHead<B>,
    history: &mut History<B>,
    core: &Core,
    was_whole: bool,
) -> bool
    requires { IsTrue was_whole → LacksOnly core.now.decisions history.old }
    ensures whole { IsTrue result → HasAllDecisions core.now.decisions history.new }
    ensures lacks { result ≡ false → (was_whole ≡ false)
        ⊎ ((MOST_MADE ≤ length history.new) ⊎ (length history.old < length history.new)) }
{
    if !was_whole {
        return false;
    }
    let first = history.len() - core.taken();
    for place in first as usize..core.untaken() {
        if history.len() >= MOST_MADE || !history.add(head, core.waiting(place)) {
            return false;
        }
    }
    true
}

// Counts a call and the decisions of its turn, and stores the call as the seat's last one.
fn count<B: Books>(
    made: &mut Book<Made<B>>,
    seat: &mut Seat<B>,
    moment: Moment,
    kind: CallKind,
    turn: &Turn,
)
    requires order { turn.now.from ≤ turn.now.to }
    requires total { made.old.total ≡ turn.now.from }
    ensures total { made.new.total ≡ turn.now.to }
    ensures share { HasMade seat.old seat.new moment kind turn.now }
{
    made.audit(&mut seat.share);
    made.add(&mut seat.share, turn.to - turn.from);
    seat.count += turn.to - turn.from;
    seat.calls = seat.calls.saturating_add(1);
    seat.last = Some(LastCall {
        moment,
        kind,
        refused: turn.refused,
    });
}

// Counts the decisions of a batch.
fn note<B: Books>(taken: &mut Book<Taken<B>>, taker: &mut Taker<B>, count: u64)
    requires { taken.old.total + count < 2 ^ 64 }
    ensures total { taken.new.total ≡ taken.old.total + count }
    ensures share { taker.new ≡ record taker.old { taken = taker.old.taken + count } }
{
    taken.audit(&mut taker.share);
    taken.add(&mut taker.share, count);
    taker.count += count;
}
