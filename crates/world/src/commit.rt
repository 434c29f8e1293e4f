// The commits of a life.
ghost use Rattle.std.specs.Prelude.{◌≡◌, None, Some};
ghost use Rattle.std.specs.Option.{MatchOption};
ghost use Rattle.world.specs.Commits.{GivesGate, GivesOldest, GoesOn, HasNoGate, Hinders};
ghost use Rattle.world.specs.Commits.{IsAlone, KeepsAll, at_rest};

use crate::Answer;
use flusher::{Durable, Room};
use lw_types::Refusal;
use std::mem;
use store::{Called, GateWritten, UnderWay};

/// The state of the commit of the batch that was taken last, or of a checkpoint.
pub(crate) enum LastCommit {
    /// Nothing is under way.
    Idle,
    /// A device call failed: nothing is committed until the store is opened again.
    Failed,
    /// Device calls have to be made. A batch comes with the room for its effects.
    UnderWay(UnderWay<Room>),
    /// The batch is durable, and its effects may leave.
    Durable(Durable),
}

/// What a life has begun and not released: at most two batches.
pub(crate) struct Pipeline {
    /// The batch before the last one. It is durable.
    pub(crate) ahead: Option<Durable>,
    pub(crate) last: LastCommit,
}

impl Pipeline {
    /// Nothing is begun.
    pub(crate) fn new() -> Self
        ensures { result ≡ at_rest }
    {
        Pipeline {
            ahead: None,
            last: LastCommit::Idle,
        }
    }

    /// What is returned if no batch is taken and no checkpoint begins, since a device call has
    /// failed or something is begun and not released.
    pub(crate) fn hindrance(&self) -> Option<Answer>
        ensures { MatchOption result (self.now ≡ at_rest) (Hinders self.now) }
    {
        match &self.last {
            LastCommit::Failed => Some(Answer::Refused(Refusal::Failed)),
            LastCommit::Idle if self.ahead.is_none() => None,
            _ => Some(Answer::Idle),
        }
    }

    /// Continues with what a device call of the last commit led to. A batch after which another one
    /// is under way is put ahead of that one.
    pub(crate) fn go_on(&mut self, called: Called<Room>)
        requires { IsAlone self.old.ahead called }
        ensures { GoesOn self.old.ahead called self.new }
    {
        match called {
            Called::UnderWay(next) => self.set(LastCommit::UnderWay(next)),
            Called::Durable(durable, room, behind) => {
                let durable = Durable::new(durable, room);
                match behind {
                    None => self.set(LastCommit::Durable(durable)),
                    Some(next) => {
                        self.put_ahead(durable);
                        self.set(LastCommit::UnderWay(next));
                    }
                }
            }
            Called::Published => self.set(LastCommit::Idle),
        }
    }

    // Puts a batch ahead, if none is there.
    fn put_ahead(&mut self, durable: Durable)
        requires { self.old.ahead ≡ None }
        ensures ahead { self.new.ahead ≡ Some durable }
        ensures last { self.new.last ≡ self.old.last }
    {
        match mem::replace(&mut self.ahead, Some(durable)) {
            None => {}
            Some(other) => {
                other.lose();
                unreachable!()
            }
        }
    }

    /// Takes out a batch, with its room, whose gate is written and not synced, if no other batch is
    /// begun.
    pub(crate) fn take_gate(&mut self) -> Option<(GateWritten, Room)>
        ensures { MatchOption result (HasNoGate self.old self.new)
            (λ gate. GivesGate self.old gate.0 gate.1 self.new) }
    {
        if self.ahead.is_some() {
            return None;
        }
        match mem::replace(&mut self.last, LastCommit::Idle) {
            LastCommit::UnderWay(under_way) => match under_way {
                UnderWay::GateWritten(opened, room) => Some((opened, room)),
                other => {
                    self.set(LastCommit::UnderWay(other));
                    None
                }
            },
            other => {
                self.set(other);
                None
            }
        }
    }

    /// Takes out the oldest batch if it is durable.
    pub(crate) fn take_oldest(&mut self) -> Option<Durable>
        ensures { MatchOption result (KeepsAll self.old self.new)
            (λ durable. GivesOldest self.old durable self.new) }
    {
        match mem::replace(&mut self.ahead, None) {
            Some(durable) => Some(durable),
            None => match mem::replace(&mut self.last, LastCommit::Idle) {
                LastCommit::Durable(durable) => Some(durable),
                other => {
                    self.set(other);
                    None
                }
            },
        }
    }

    /// Replaces the last commit.
    pub(crate) fn set(&mut self, commit: LastCommit)
        ensures ahead { self.new.ahead ≡ self.old.ahead }
        ensures last { self.new.last ≡ commit }
    {
        mem::replace(&mut self.last, commit).lose();
    }

    /// Drops everything that is begun, at a crash.
    pub(crate) fn lose(self) {
        let Pipeline { ahead, last } = self;
        if let Some(durable) = ahead {
            durable.lose();
        }
        last.lose();
    }
}

impl LastCommit {
    fn lose(self) {
        match self {
            LastCommit::Idle | LastCommit::Failed => {}
            LastCommit::UnderWay(under_way) => under_way.lose(),
            LastCommit::Durable(durable) => durable.lose(),
        }
    }
}
