// The parts of an event: closing windows, and handing in commands and copies.
ghost use Rattle.std.specs.Prelude.{◌≡◌, ◌≢◌, ℕ, true, false, max, Err};
ghost use Rattle.std.specs.Prelude.{MatchBool, MatchResult};
ghost use Rattle.lw_types.specs.declared.refusal.Refusal.TheVariants.{OutOfMemory};
ghost use Rattle.session_core.specs.Calls.{work_of};
ghost use Rattle.session_core.specs.Core.{with_outcome};
ghost use Rattle.session_core.specs.Events.{Handles, IsHeard, has_due};
ghost use Rattle.session_core.specs.Events.{core_at_moment};
ghost use Rattle.session_core.specs.Observing.{ClosesOldestSeen, ClosesSeen, HasClosedSeen};

use crate::observed::Observed;
use crate::{ClosedFrame, Core, Event, Moment, Outcome};
use devices::{Command, is_receivable};
use lw_types::{FrameCopy, Refusal};

impl Core {
    /// Moves the effective time and closes the windows that are due. If memory runs out for one of
    /// them, it and those after it stay open.
    pub(crate) fn begin(&mut self, moment: Moment, observed: &mut Observed) -> Result<(), Refusal>
        ensures closed { HasClosedSeen (core_at_moment self.old moment) self.new
            observed.old observed.new }
        ensures due { MatchResult result
            (λ _. has_due self.new ≡ false)
            (λ e. (e ≡ OutOfMemory) × (has_due self.new ≡ true)) }
    {
        self.clock = later(self.clock, moment);
        self.closings = 0;
        let open = self.windows.len();
        let result = self.close_due(observed);
        self.closings = open - self.windows.len();
        result
    }

    // Closes the windows that are due, the oldest first.
    fn close_due(&mut self, observed: &mut Observed) -> Result<(), Refusal>
        ensures closed { (count : ℕ)
            × ClosesSeen count self.old self.new observed.old observed.new }
        ensures due { MatchResult result
            (λ _. has_due self.new ≡ false)
            (λ e. (e ≡ OutOfMemory) × (has_due self.new ≡ true)) }
    {
        for _i in 0..self.windows.len() {
            if !self.close_oldest(observed)? {
                return Ok(());
            }
        }
        Ok(())
    }

    // Closes the oldest window if it is due, and returns whether it was. If memory runs out, it
    // stays open; `OutOfMemory` may also come in place of a refusal of the join server.
    fn close_oldest(&mut self, observed: &mut Observed) -> Result<bool, Refusal>
        ensures { MatchResult result
            (λ done. MatchBool done (ClosesOldestSeen self.old self.new observed.old observed.new)
            (((self.new ≡ self.old) × (observed.new ≡ observed.old)) × (has_due self.old ≡ false)))
            (λ e. (e ≡ OutOfMemory) × (((self.new ≡ self.old) × (observed.new ≡ observed.old))
            × (has_due self.old ≡ true))) }
    {
        let now = self.clock.get();
        match self.decisions.keep_oldest(&mut self.windows, now) {
            Ok(None) => Ok(false),
            Ok(Some(decided)) => {
                let _ = self.noted(Ok(()));
                observed.add(ClosedFrame::Decided(decided));
                Ok(true)
            }
            Err(refusal) => {
                if is_starved(refusal) {
                    return Err(refusal);
                }
                let heard = self.windows.close(now).unwrap();
                let _ = self.noted(Err(refusal));
                observed.add(ClosedFrame::Refused { heard, refusal });
                Ok(true)
            }
        }
    }

    /// Does the work of an event itself, after the windows that are due were closed. Returns why it
    /// is refused, if it is.
    pub(crate) fn work(&mut self, event: Event) -> Option<Refusal>
        requires { has_due self.old ≡ false }
        ensures { work_of event self.old result self.new }
    {
        match event {
            Event::Hear(copy) => self.listen(copy).err(),
            Event::Tick => None,
            Event::Ask(command) => self.hand_in(command).err(),
        }
    }

    // Hands in a command to be decided, and notes its outcome.
    fn hand_in(&mut self, command: Command) -> Result<(), Refusal>
        ensures { Handles self.old command result self.new }
    {
        let answer = self.decisions.keep(command);
        self.noted(answer)
    }

    /// Notes the refusal of a command for which memory ran out.
    pub(crate) fn pass_over(&mut self, command: &Command) -> Refusal
        ensures { Handles self.old command.now (Err result) self.new }
    {
        let refusal = self.decisions.lack(command);
        let _ = self.noted(Err(refusal));
        refusal
    }

    // Puts a copy of a frame into its window, or opens one.
    fn listen(&mut self, copy: FrameCopy) -> Result<(), Refusal>
        requires { has_due self.old ≡ false }
        ensures { IsHeard copy self.old result self.new }
    {
        if !is_receivable(&copy.reception) {
            return Err(Refusal::UnknownChannel);
        }
        self.windows.add(self.clock.get(), copy)
    }

    // Stores the outcome of a command among the last outcomes, and returns its answer.
    fn noted(&mut self, answer: Result<(), Refusal>) -> Result<(), Refusal>
        ensures same { result ≡ answer }
        ensures noted { self.new ≡ with_outcome self.old self.old.decisions answer }
    {
        let outcome = match answer {
            Ok(()) => Outcome::Decided(self.decisions.seq()),
            Err(Refusal::OutOfMemory) => return answer,
            Err(refusal) => Outcome::Refused(refusal),
        };
        let _ = self.outcomes.push_back(outcome);
        answer
    }
}

// The later one of two moments.
fn later(a: Moment, b: Moment) -> Moment
    ensures { result ≡ max a b }
{
    if a.get() < b.get() { b } else { a }
}

// Whether memory ran out.
fn is_starved(refusal: Refusal) -> bool
    ensures { MatchBool result (refusal ≡ OutOfMemory) (refusal ≢ OutOfMemory) }
{
    matches!(refusal, Refusal::OutOfMemory)
}
