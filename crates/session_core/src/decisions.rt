// The decisions of one life.
ghost use Rattle.std.specs.Prelude.{◌≡◌, ◌≤◌, ◌<◌, MatchResult, OnErr, Err, false};
ghost use Rattle.std.specs.Prelude.{take, drop, length};
ghost use Rattle.std.specs.Prelude.{[], Some, slice_get};
ghost use Rattle.lw_types.specs.declared.refusal.Refusal.TheVariants.{Backlog, OutOfMemory};
ghost use Rattle.session_core.specs.State.{IsLawful, now_of, new_decisions, last_number};
ghost use Rattle.session_core.specs.Deciding.{Makes, IsWithoutMemory, has_room, step_if_room};
ghost use Rattle.session_core.specs.Deciding.{after_taking};
ghost use Rattle.session_core.specs.Observing.{KeepsOldest};
ghost use Rattle.sessions.specs.Decision.{AnswersTo};

use crate::DecidedFrame;
use dedup::Windows;
use devices::Command;
use lw_types::Refusal;
use sessions::{Batch, Decision, Most, Table};
use std::alloc::Global;
use std::collections::VecDeque;
use std::marker::Model;

/// The most decisions that wait to be taken.
pub const MOST_UNTAKEN: u64 = 4096;

/// The greatest sequence number that a decision gets, 2^63 - 1.
pub const LAST_NUMBER: u64 = (1 << 63) - 1;

/// The decisions of one life. Their state is lawful whenever other code can see it: the untaken
/// decisions continue what was taken, none is missing, and the table at hand is the one that they
/// leave.
#[derive(Drop)]
pub(crate) struct Decisions {
    alloc: Global,
    // The table after every decision made. The table at which they began is this one with the log
    // undone; no call needs it.
    table: Table,
    opening: u64,
    made: u64,
    taken: u64,
    log: VecDeque<Decision>,
}

impl Model for Decisions {
    ghost use Rattle.session_core.specs.State.{DecisionsState};

    ghost Value = { DecisionsState };

    ghost use Rattle.session_core.specs.Kept.{kept_state, IsKept};

    ghost view = { kept_state };

    ghost invariant = { IsKept };
}

impl Decisions {
    /// No decisions yet, over a copy of this table, whose last decision has the number `seq`.
    pub(crate) fn new(alloc: Global, table: &Table, seq: u64) -> Result<Self, Refusal>
        ensures { MatchResult result (λ decisions. decisions ≡ new_decisions table.now seq)
            (λ e. e ≡ OutOfMemory) }
    {
        Ok(Decisions {
            alloc,
            table: table.copy()?,
            opening: seq,
            made: 0,
            taken: 0,
            log: VecDeque::new(alloc),
        })
    }

    /// The table after every decision made.
    pub(crate) fn now(&self) -> &Table
        ensures table { result.now ≡ now_of self.now }
        ensures lawful { IsLawful self.now }
    {
        &self.table
    }

    /// The sequence number of the last decision made.
    pub(crate) fn seq(&self) -> u64
        ensures number { result ≡ last_number self.now }
        ensures lawful { IsLawful self.now }
    {
        self.opening + self.made
    }

    /// The number of decisions made in this life.
    pub(crate) fn made(&self) -> u64
        ensures count { result ≡ self.now.made }
        ensures lawful { IsLawful self.now }
    {
        self.made
    }

    /// The number of decisions that were taken.
    pub(crate) fn taken(&self) -> u64
        ensures count { result ≡ self.now.taken }
        ensures lawful { IsLawful self.now }
    {
        self.taken
    }

    /// The decision at this place among those that wait to be taken, from 0.
    pub(crate) fn waiting(&self, place: usize) -> &Decision
        requires { place < length self.now.log }
        ensures { slice_get self.now.log place ≡ Some result.now }
    {
        &self.log[place]
    }

    /// The number of decisions that wait to be taken.
    pub(crate) fn untaken(&self) -> usize
        ensures count { result ≡ length self.now.log }
        ensures lawful { IsLawful self.now }
    {
        self.log.len()
    }

    /// Whether there is room for one more waiting decision, and a number for it.
    pub(crate) fn has_room(&self) -> bool
        ensures room { result ≡ has_room self.now }
        ensures lawful { IsLawful self.now }
    {
        (self.log.len() as u64) < MOST_UNTAKEN && self.seq() < LAST_NUMBER
    }

    /// Decides a command on the table as it is now, and stores the decision. Refused with `Backlog`
    /// if there is no room, and then as [`Table::decide`] refuses it.
    pub(crate) fn keep(&mut self, command: Command) -> Result<(), Refusal>
        ensures full { has_room self.old ≡ false → result ≡ Err Backlog }
        ensures made { AnswersTo command (step_if_room self.old command)
            (λ s _. Makes self.old command s self.new) result }
        ensures same { OnErr result (self.new ≡ self.old) }
        ensures lawful { IsLawful self.new }
    {
        if !self.has_room() {
            return Err(Refusal::Backlog);
        }
        let decision = self.table.decide(self.alloc, self.seq() + 1, command)?;
        self.log.reserve(1)?;
        sessions::laws::joining();
        sessions::laws::taking_back();
        self.table.apply(&decision)?;
        self.log.push_back_reserved(decision);
        self.made += 1;
        Ok(())
    }

    /// Hands in the frame of the oldest window. If it is decided, the window is closed, and the
    /// frame moves into the decision: nothing can fail any more, so neither is lost. `None` if the
    /// window isn't due. Refused as [`Decisions::keep`] refuses the frame; then the window stays
    /// open.
    pub(crate) fn keep_oldest(
        &mut self,
        windows: &mut Windows,
        now: u64,
    ) -> Result<Option<DecidedFrame>, Refusal>
        ensures { KeepsOldest now self.old windows.old result self.new windows.new }
    {
        let Some((phy_payload, hearings)) = windows.due(now) else {
            return Ok(None);
        };
        if !self.has_room() {
            return Err(Refusal::Backlog);
        }
        let number = self.seq() + 1;
        let step = self
            .table
            .step_heard(self.alloc, number, phy_payload, hearings)?;
        let record = step.after.copy()?;
        self.log.reserve(1)?;
        let decided = DecidedFrame {
            slot: step.slot,
            best: hearings.best(),
            is_join_request: step.is_join_request,
        };
        let heard = windows.close(now).unwrap();
        let decision = step.into_decision(heard);
        sessions::laws::joining();
        sessions::laws::taking_back();
        self.table.apply_copy(&decision, record);
        self.log.push_back_reserved(decision);
        self.made += 1;
        Ok(Some(decided))
    }

    /// The refusal of a command for which memory ran out: the one that it would get anyway, or else
    /// `OutOfMemory`, which may also replace a refusal of the join server.
    pub(crate) fn lack(&self, command: &Command) -> Refusal
        ensures full { has_room self.now ≡ false → result ≡ Backlog }
        ensures lack { IsWithoutMemory self.now command.now result }
        ensures lawful { IsLawful self.now }
    {
        if !self.has_room() {
            return Refusal::Backlog;
        }
        match self.table.check(self.alloc, self.seq() + 1, command) {
            Ok(()) => Refusal::OutOfMemory,
            Err(refusal) => refusal,
        }
    }

    /// Takes the oldest untaken decisions, at most `max` of them. After an `Err`, which is out of
    /// memory, nothing has changed.
    pub(crate) fn take(&mut self, max: Most) -> Result<Batch, Refusal>
        ensures asked { 1 ≤ max }
        ensures taken { MatchResult result
            (λ batch. (batch ≡ take max self.old.log) × (self.new ≡ after_taking self.old max))
            (λ e. (e ≡ OutOfMemory) × (self.new ≡ self.old)) }
        ensures lawful { IsLawful self.old }
    {
        let count = self.log.len().min(max.get() as usize);
        let mut batch = Batch::new(self.alloc)?;
        sessions::laws::joining();
        sessions::laws::taking_back();
        move_front(&mut self.log, &mut batch, count);
        self.taken += count as u64;
        Ok(batch)
    }
}

// Moves the first decisions into an empty batch.
fn move_front(log: &mut VecDeque<Decision>, batch: &mut Batch, count: usize)
    requires within { count ≤ length log.old.items }
    requires few { count ≤ Batch.MOST }
    requires empty { batch.old ≡ [] }
    ensures moved { batch.new ≡ take count log.old.items }
    ensures left { log.new.items ≡ drop count log.old.items }
{
    for _i in 0..count {
        let decision = log.pop_front();
        batch.push(decision.unwrap());
    }
}
