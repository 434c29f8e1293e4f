// A core that several threads share, behind a lock.
ghost use Rattle.std.specs.Prelude.{◌≡◌, ◌↔◌, IfErr, IfSome, IsSome, IsTrue};
ghost use Rattle.lw_types.specs.declared.refusal.Refusal.TheVariants.{OutOfMemory};
ghost use Rattle.session_core.specs.Calls.{call_kind_of};
ghost use Rattle.session_core.specs.History.{HasAdded};
ghost use Rattle.session_core.specs.Observing.{IsSeenSomewhere, IsSeenTurn, frames_seen};
ghost use Rattle.session_core.specs.Observing.{nothing_seen};
ghost use Rattle.session_core.specs.Seats.{HasMade};
ghost use Rattle.session_core.specs.Taking.{DrawsNext};
ghost use Rattle.session_core.specs.declared.event.CallKind.TheVariants.{Asked, Heard, Ticked};

use crate::{Books, ClosedFrame, Event, History, Moment, Most, Outcome, Seat, Shared, Taker, Turn};
use devices::{Command, MacQueueing, Provisioning, Queueing};
use lw_types::{FrameCopy, Refusal};
use sessions::Batch;
use std::alloc::Global;
use std::sync::{Mutex, Wait};

/// What a call of [`Sessions::handle`] did.
#[derive(Drop)]
pub struct Handled<B: Books> {
    pub turn: Turn,
    /// The decisions of the life up to the end of the call. `None` if one of them is missing. This
    /// never happens, since nobody else adds to the history, but no clause says so.
    pub history: Option<History<B>>,
    /// The frames whose windows the call closed, the oldest first. There are none unless the core
    /// is observed ([`Shared::observe`]).
    pub closed: Vec<ClosedFrame>,
    /// Whether one of these frames is missing, since memory ran out for it.
    pub lacks_frames: bool,
}

/// The calls of [`Shared`]; each locks it for the duration of that call alone. A server's workers
/// and its closer hand in events by [`Sessions::handle`]. Its flusher takes decisions, and its
/// closer asks for moments. The calls of one kind of event are for callers that don't need the
/// frames whose windows were closed, for example tests.
///
/// Across threads, a caller knows what its own seat says, and the history. Exactly one call was
/// made through the seat. Its share grew by exactly what the call made, and the seat's last call is
/// this one: of this kind, at this moment, with the refusal that is returned. The kind says whose
/// copy or command was handed in; which copy it was is in no contract. The decisions of the call
/// stand in the history at the turn's numbers. First come those of frames of windows, in order, and
/// then that of the call's own command. A call that waits for the lock need not return.
pub trait Sessions<B: Books> {
    /// The number of decisions made in this life; for inspection, for example by tests.
    fn made<R: Wait>(&self, rt: &R) -> u64;

    /// An event comes. The frames whose windows it closed are returned, too, if the core is
    /// observed ([`Shared::observe`]).
    fn handle<R: Wait>(
        &self,
        rt: &R,
        seat: &mut Seat<B>,
        moment: Moment,
        event: Event,
    ) -> Handled<B>
        ensures share { HasMade seat.old seat.new moment (call_kind_of event) result.turn }
        ensures added { IfSome result.history (HasAdded event result.turn) }
        ensures seen { IsSeenSomewhere moment event result.turn result.closed.items
            result.lacks_frames };

    /// A gateway heard a frame ([`Sessions::handle`]).
    fn hear<R: Wait>(&self, rt: &R, seat: &mut Seat<B>, moment: Moment, copy: FrameCopy) -> Turn
        ensures share { HasMade seat.old seat.new moment (Heard copy.reception.gateway) result }
    {
        self.handle(rt, seat, moment, Event::Hear(copy)).turn
    }

    /// Time passes ([`Sessions::handle`]).
    fn tick<R: Wait>(&self, rt: &R, seat: &mut Seat<B>, moment: Moment) -> Turn
        ensures share { HasMade seat.old seat.new moment Ticked result }
    {
        self.handle(rt, seat, moment, Event::Tick).turn
    }

    /// An application provisions a device ([`Sessions::handle`]).
    fn provision<R: Wait>(
        &self,
        rt: &R,
        seat: &mut Seat<B>,
        moment: Moment,
        value: Provisioning,
    ) -> Turn
        ensures share { HasMade seat.old seat.new moment (Asked value.application) result }
    {
        let event = Event::Ask(Command::Provision(value));
        self.handle(rt, seat, moment, event).turn
    }

    /// An application queues an item for its device ([`Sessions::handle`]).
    fn queue<R: Wait>(&self, rt: &R, seat: &mut Seat<B>, moment: Moment, value: Queueing) -> Turn
        ensures share { HasMade seat.old seat.new moment (Asked value.application) result }
    {
        let event = Event::Ask(Command::Queue(value));
        self.handle(rt, seat, moment, event).turn
    }

    /// An application queues MAC commands for its device ([`Sessions::handle`]).
    fn queue_mac<R: Wait>(
        &self,
        rt: &R,
        seat: &mut Seat<B>,
        moment: Moment,
        value: MacQueueing,
    ) -> Turn
        ensures share { HasMade seat.old seat.new moment (Asked value.application) result }
    {
        let event = Event::Ask(Command::QueueMac(value));
        self.handle(rt, seat, moment, event).turn
    }

    /// Takes the oldest untaken decisions, at most `max` of them ([`Shared::take`]).
    fn take<R: Wait>(&self, rt: &R, taker: &mut Taker<B>, max: Most) -> Result<Batch, Refusal>
        ensures { DrawsNext taker.old max result taker.new };

    /// The outcomes of the last commands that were handed in to be decided; for inspection, for
    /// example by tests.
    fn outcomes<R: Wait>(&self, rt: &R, alloc: Global) -> Result<Vec<Outcome>, Refusal>
        ensures refused { IfErr result (λ e. e ≡ OutOfMemory) };

    /// The moment at which the oldest window is due.
    fn next_due<R: Wait>(&self, rt: &R) -> Option<Moment>;

    /// The latest moment of this life so far.
    fn effective_time<R: Wait>(&self, rt: &R) -> Moment;
}

impl<B: Books> Sessions<B> for Mutex<Shared<B>> {
    fn made<R: Wait>(&self, rt: &R) -> u64 {
        self.lock(rt).made()
    }

    fn handle<R: Wait>(
        &self,
        rt: &R,
        seat: &mut Seat<B>,
        moment: Moment,
        event: Event,
    ) -> Handled<B> {
        let mut sessions = self.lock(rt);
        handle_in(&mut sessions, seat, moment, event)
    }

    fn take<R: Wait>(&self, rt: &R, taker: &mut Taker<B>, max: Most) -> Result<Batch, Refusal> {
        self.lock(rt).take(taker, max)
    }

    fn outcomes<R: Wait>(&self, rt: &R, alloc: Global) -> Result<Vec<Outcome>, Refusal> {
        self.lock(rt).outcomes(alloc)
    }

    fn next_due<R: Wait>(&self, rt: &R) -> Option<Moment> {
        self.lock(rt).next_due()
    }

    fn effective_time<R: Wait>(&self, rt: &R) -> Moment {
        self.lock(rt).effective_time()
    }
}

// An event comes to a core whose lock is held.
fn handle_in<B: Books>(
    shared: &mut Shared<B>,
    seat: &mut Seat<B>,
    moment: Moment,
    event: Event,
) -> Handled<B>
    ensures share { HasMade seat.old seat.new moment (call_kind_of event) result.turn }
    ensures added { IfSome result.history (HasAdded event result.turn) }
    ensures whole { IsSome result.history ↔ IsTrue shared.new.is_whole }
    ensures seen { IsSeenTurn shared.old.core moment event result.turn shared.new.core
        (nothing_seen shared.old.is_observed)
        (frames_seen shared.old.is_observed result.closed.items result.lacks_frames) }
{
    sessions::laws::joining();
    let core = shared.core();
    // Only for the proof: by the contracts of these calls the core is lawful and has at most 64
    // outcomes.
    let _ = core.made();
    let _ = core.outcomes();
    let mut observed = shared.observed();
    let turn = shared.handle_seen(seat, moment, event, &mut observed);
    let (closed, lacks_frames) = observed.into_frames();
    Handled {
        turn,
        history: shared.history(),
        closed,
        lacks_frames,
    }
}
