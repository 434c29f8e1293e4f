// The core, and the events that come to it.
ghost use Rattle.std.specs.Prelude.{◌≡◌, ◌≤◌, ◌<◌, IsSome, MatchResult, Some};
ghost use Rattle.std.specs.Prelude.{slice_get, take, length};
ghost use Rattle.lw_types.specs.declared.refusal.Refusal.TheVariants.{OutOfMemory};
ghost use Rattle.devices.specs.declared.command.Command.TheVariants as commands;
ghost use Rattle.session_core.specs.State.{now_of, last_number};
ghost use Rattle.session_core.specs.Deciding.{after_taking};
ghost use Rattle.session_core.specs.Calls.{work_of};
ghost use Rattle.session_core.specs.Core.{IsLawfulCore, new_core};
ghost use Rattle.session_core.specs.Events.{IsTurn, Asks, Hears, Starves, Ticks, next_due};
ghost use Rattle.session_core.specs.Observing.{IsSeenTurn, nothing_seen};

use crate::decisions::Decisions;
use crate::observed::Observed;
use crate::{Event, MOST_OUTCOMES, Moment, Most, Outcome, Turn};
use circular_buffer::HeapCircularBuffer;
use dedup::Windows;
use devices::{Command, MacQueueing, Provisioning, Queueing};
use lw_types::{FrameCopy, Refusal};
use sessions::{Batch, Decision, Table};
use std::alloc::Global;
use std::marker::Model;

/// What decides in one life of a network server: the decisions, and the windows in which the copies
/// of a frame are gathered. Each event first moves the effective time, then closes the windows that
/// are due, in the order of opening, and then does its own work.
pub struct Core {
    pub(crate) alloc: Global,
    pub(crate) decisions: Decisions,
    pub(crate) clock: Moment,
    pub(crate) windows: Windows,
    pub(crate) closings: usize,
    pub(crate) outcomes: HeapCircularBuffer<Outcome>,
}

// By hand, so that it is proved once: a derived drop is proved again at each use of the type.
impl Drop for Core {
    fn drop(self) {
        let Self {
            alloc: _,
            decisions: _,
            clock: _,
            windows: _,
            closings: _,
            outcomes: _,
        } = self;
    }
}

impl Model for Core {
    ghost use Rattle.session_core.specs.Core.{CoreState};

    ghost Value = { CoreState };

    ghost use Rattle.session_core.specs.KeptCore.{core_of, IsKeptCore};

    ghost view = { core_of };

    ghost invariant = { IsKeptCore };
}

impl Core {
    /// The core at the beginning of a life, over a copy of this table, whose last decision has the
    /// number `seq`.
    pub fn new(alloc: Global, table: &Table, seq: u64) -> Result<Self, Refusal>
        ensures { MatchResult result (λ core. core ≡ new_core table.now seq)
            (λ e. e ≡ OutOfMemory) }
    {
        Ok(Core {
            alloc,
            decisions: Decisions::new(alloc, table, seq)?,
            clock: Moment::new(0).unwrap(),
            windows: Windows::new(alloc),
            closings: 0,
            outcomes: HeapCircularBuffer::with_capacity(alloc, MOST_OUTCOMES)?,
        })
    }

    /// The table after every decision made.
    pub fn now(&self) -> &Table
        ensures table { result.now ≡ now_of self.now.decisions }
        ensures lawful { IsLawfulCore self.now }
    {
        self.decisions.now()
    }

    /// The sequence number of the last decision made.
    pub fn seq(&self) -> u64
        ensures number { result ≡ last_number self.now.decisions }
        ensures lawful { IsLawfulCore self.now }
    {
        self.decisions.seq()
    }

    /// The number of decisions made in this life.
    pub fn made(&self) -> u64
        ensures count { result ≡ self.now.decisions.made }
        ensures lawful { IsLawfulCore self.now }
    {
        self.decisions.made()
    }

    /// The number of decisions that were taken.
    pub fn taken(&self) -> u64
        ensures count { result ≡ self.now.decisions.taken }
        ensures lawful { IsLawfulCore self.now }
    {
        self.decisions.taken()
    }

    /// The decision at this place among those that wait to be taken, from 0.
    pub(crate) fn waiting(&self, place: usize) -> &Decision
        requires { place < length self.now.decisions.log }
        ensures { slice_get self.now.decisions.log place ≡ Some result.now }
    {
        self.decisions.waiting(place)
    }

    /// The number of decisions that wait to be taken.
    pub fn untaken(&self) -> usize
        ensures count { result ≡ length self.now.decisions.log }
        ensures lawful { IsLawfulCore self.now }
    {
        self.decisions.untaken()
    }

    /// The number of windows that the last event closed. Windows whose frames were refused, so that
    /// no decision was made, count too.
    pub fn closings(&self) -> usize
        ensures { result ≡ self.now.closings }
    {
        self.closings
    }

    /// The number of open windows.
    pub fn windows(&self) -> usize
        ensures { result ≡ length self.now.windows }
    {
        self.windows.len()
    }

    /// The effective time: the latest moment that an event of this life has brought, 0 before the
    /// first.
    pub fn effective_time(&self) -> Moment
        ensures { result ≡ self.now.clock }
    {
        self.clock
    }

    /// The moment at which the oldest window is due: an event at this moment or later closes it,
    /// and an earlier event closes none. `None` if no window is open, or if the oldest is never
    /// due, since no moment is so late.
    pub fn next_due(&self) -> Option<Moment>
        ensures { result ≡ next_due self.now }
    {
        Moment::new(self.windows.next_due()?)
    }

    /// The outcomes of the last commands that were handed in to be decided, at most 64, the oldest
    /// first. A command that was refused with `OutOfMemory` has no outcome. This is for inspection,
    /// for example by tests: a command's own caller finds the answer in its [`Turn`].
    pub fn outcomes(&self) -> &HeapCircularBuffer<Outcome>
        ensures outcomes { result.now.items ≡ self.now.outcomes }
        ensures few { length self.now.outcomes ≤ MOST_OUTCOMES }
    {
        // Only for the proof: by the contract of this call no more are kept than there is room for.
        let _len = self.outcomes.len();
        &self.outcomes
    }

    /// An event comes. A copy of a frame is refused with `UnknownChannel` if it wasn't on a channel
    /// at a data rate from 0 to 5, and then as [`Windows::add`] refuses it. A command is refused
    /// with `Backlog` if 4,096 decisions wait or no number is left, and then as [`Table::decide`]
    /// refuses it. `OutOfMemory` may replace any of these if a due window couldn't be closed.
    pub fn handle(&mut self, moment: Moment, event: Event) -> Turn
        ensures turn { IsTurn self.old moment (work_of event) result self.new }
        ensures lawful { IsLawfulCore self.old }
    {
        let mut observed = self.observed(false);
        self.handle_seen(moment, event, &mut observed)
    }

    /// The same, while somebody may observe which windows it closes.
    pub(crate) fn handle_seen(
        &mut self,
        moment: Moment,
        event: Event,
        observed: &mut Observed,
    ) -> Turn
        ensures turn { IsSeenTurn self.old moment event result self.new observed.old observed.new }
        ensures lawful { IsLawfulCore self.old }
    {
        let from = self.made();
        let refused = match self.begin(moment, observed) {
            Ok(()) => self.work(event),
            Err(refusal) => Some(refusal),
        };
        let to = self.made();
        Turn { from, to, refused }
    }

    /// What observers are given before an event: nothing. Frames are kept if somebody observes.
    pub(crate) fn observed(&self, is_kept: bool) -> Observed
        ensures { result ≡ nothing_seen is_kept }
    {
        Observed::new(self.alloc, is_kept)
    }

    /// A gateway heard a frame ([`Core::handle`]).
    pub fn hear(&mut self, moment: Moment, copy: FrameCopy) -> Turn
        ensures turn { IsTurn self.old moment (Hears copy) result self.new }
        ensures lawful { IsLawfulCore self.old }
    {
        self.handle(moment, Event::Hear(copy))
    }

    /// Time passes ([`Core::handle`]).
    pub fn tick(&mut self, moment: Moment) -> Turn
        ensures turn { IsTurn self.old moment Ticks result self.new }
        ensures lawful { IsLawfulCore self.old }
    {
        self.handle(moment, Event::Tick)
    }

    /// An application provisions a device ([`Core::handle`]).
    pub fn provision(&mut self, moment: Moment, provisioning: Provisioning) -> Turn
        ensures turn { IsTurn self.old moment
            (Asks (commands.Provision provisioning)) result self.new }
        ensures lawful { IsLawfulCore self.old }
    {
        self.handle(moment, Event::Ask(Command::Provision(provisioning)))
    }

    /// An application queues an item for its device ([`Core::handle`]).
    pub fn queue(&mut self, moment: Moment, queueing: Queueing) -> Turn
        ensures turn { IsTurn self.old moment (Asks (commands.Queue queueing)) result self.new }
        ensures lawful { IsLawfulCore self.old }
    {
        self.handle(moment, Event::Ask(Command::Queue(queueing)))
    }

    /// An application queues MAC commands for its device ([`Core::handle`]).
    pub fn queue_mac(&mut self, moment: Moment, queueing: MacQueueing) -> Turn
        ensures turn { IsTurn self.old moment (Asks (commands.QueueMac queueing)) result self.new }
        ensures lawful { IsLawfulCore self.old }
    {
        self.handle(moment, Event::Ask(Command::QueueMac(queueing)))
    }

    /// A command comes, but memory to hand it in ran out. It gets the refusal that it would get
    /// anyway, or else `OutOfMemory`. `OutOfMemory` may also replace a refusal of the join server,
    /// or any refusal if a due window couldn't be closed.
    pub fn decide_without_memory(&mut self, moment: Moment, command: &Command) -> Turn
        ensures turn { IsTurn self.old moment (Asks command.now) result self.new }
        ensures refused { IsSome result.refused }
        ensures lawful { IsLawfulCore self.old }
    {
        let from = self.made();
        let mut observed = self.observed(false);
        let refused = match self.begin(moment, &mut observed) {
            Ok(()) => self.pass_over(command),
            Err(refusal) => refusal,
        };
        let to = self.made();
        Turn {
            from,
            to,
            refused: Some(refused),
        }
    }

    /// An event comes, but memory for it ran out: it is refused with `OutOfMemory`.
    pub fn hear_without_memory(&mut self, moment: Moment) -> Turn
        ensures turn { IsTurn self.old moment Starves result self.new }
        ensures lawful { IsLawfulCore self.old }
    {
        let from = self.made();
        let mut observed = self.observed(false);
        let _ = self.begin(moment, &mut observed);
        let to = self.made();
        Turn {
            from,
            to,
            refused: Some(Refusal::OutOfMemory),
        }
    }

    /// Takes the oldest untaken decisions, at most `max` of them. After an `Err`, which is out of
    /// memory, the core is unchanged. Its cost doesn't grow with the number of devices.
    pub fn take(&mut self, max: Most) -> Result<Batch, Refusal>
        ensures asked { 1 ≤ max }
        ensures taken { MatchResult result
            (λ batch. (batch ≡ take max self.old.decisions.log)
            × (self.new ≡ record self.old { decisions = after_taking self.old.decisions max }))
            (λ e. (e ≡ OutOfMemory) × (self.new ≡ self.old)) }
        ensures lawful { IsLawfulCore self.old }
    {
        self.decisions.take(max)
    }
}
