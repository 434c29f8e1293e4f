// One life of a network server: from an opening of its store to the next crash.
ghost use Rattle.std.specs.Prelude.{◌≡◌, ◌++◌, ◌+◌, ◌*◌, ◌≤◌, IfOk, MatchResult, length, take};
ghost use Rattle.std.specs.Prelude.{vec_capacity};
ghost use Rattle.flusher.specs.declared.room.TheConstants.{MOST_EFFECTS};
ghost use Rattle.lw_types.specs.declared.refusal.Refusal.TheVariants.{OutOfMemory};
ghost use Rattle.session_core.specs.Core.{IsLawfulCore};
ghost use Rattle.session_core.specs.Deciding.{after_taking};
ghost use Rattle.world.specs.Tells.{told_by};

use crate::commit::{LastCommit, Pipeline};
use crate::links::Links;
use crate::{Answer, Step, laws};
use disk::Sim;
use flusher::{MOST_EFFECTS, Released, Room};
use lw_types::Refusal;
use session_core::{Core, Most};
use sessions::Batch;
use std::alloc::Global;
use std::mem;
use store::{Begun, GateWritten, Publishing, Store, UnderWay};

/// A store that is open, the core that decides on its table, and what is begun and not released.
pub(crate) struct Life<D: Sim> {
    pub(crate) store: Store<D>,
    pub(crate) core: Core,
    pub(crate) commits: Pipeline,
    pub(crate) links: Links,
}

impl<D: Sim> Life<D> {
    ghost use Rattle.std.specs.Prelude.{◌≢◌, ◌<◌, ◌^◌, ◌↔◌, ℕ, [], IfErr, IsTrue};
    ghost use Rattle.link_messages.specs.Feeding.{new_feed};
    ghost use Rattle.session_core.specs.Core.{new_core};
    ghost use Rattle.store.specs.Commit.{IsUnderWay};
    ghost use Rattle.store.specs.Pairing.{IsRoomyBehind};
    ghost use Rattle.store.specs.Phases.{gate_written_sequel, gate_written_size};
    ghost use Rattle.store.specs.State.{store_state, disk_of, IsRoomy};
    ghost use Rattle.store.specs.UnderWay.{IsOnItsWay};
    ghost use Rattle.world.specs.declared.commit.LastCommit.TheVariants as commits;
    ghost use Rattle.world.specs.declared.step.Step.TheVariants as steps;
    ghost use Rattle.world.specs.declared.answer.Answer.TheVariants as answers;
    ghost use Rattle.world.specs.Calls.{Foretells, IsNoFailure};
    ghost use Rattle.world.specs.Commits.{alone, at_gate, at_rest};
    ghost use Rattle.world.specs.Tells.{CheckpointTells, NextTells, TakeTells, TellsRoom};
    ghost use Rattle.world.specs.Links.{heard_on};
    ghost use Rattle.world.specs.Follows.{IsOwn, MovesLife, Lets};
    ghost use Rattle.world.specs.Sound.{IsSoundLife, HasRoom};

    /// A life that begins with this store.
    pub(crate) fn new(alloc: Global, store: Store<D>) -> Result<Self, (D, Refusal)>
        ensures store { IfOk result
            (λ life. store_state D.state life.store ≡ store_state D.state store) }
        ensures disk { IfOk result (λ life. disk_of life.store ≡ disk_of store) }
        ensures core { IfOk result (λ life. life.core
            ≡ new_core (store_state D.state store).table (store_state D.state store).seq) }
        ensures idle { IfOk result (λ life. life.commits ≡ at_rest) }
        ensures silent { IfOk result (λ life. (link : ℕ) → heard_on life.links link ≡ new_feed) }
        ensures refused { IfErr result (λ e. (e.0 ≡ disk_of store) × (e.1 ≡ OutOfMemory)) }
    {
        match Core::new(alloc, store.table(), store.seq()) {
            Ok(core) => Ok(Life {
                store,
                core,
                commits: Pipeline::new(),
                links: Links::new(alloc),
            }),
            Err(refusal) => Err((store.close(), refusal)),
        }
    }

    /// One step other than to emit or to crash.
    pub(crate) fn step(
        &mut self,
        alloc: Global,
        step: &Step,
        released: &mut Vec<Released>,
    ) -> Answer
        requires own { IsOwn step.now }
        requires sound { IsSoundLife D.state self.old }
        requires room { HasRoom self.old.commits (length released.old.items)
            (vec_capacity released.old) }
        ensures sound { IsSoundLife D.state self.new }
        ensures room { HasRoom self.new.commits (length released.new.items)
            (vec_capacity released.new) }
        ensures course { MovesLife D.state self.old step.now result self.new }
        ensures calls { Foretells D.failures D.outlook (disk_of self.old.store) step.now result
            (disk_of self.new.store) }
        ensures room_told { TellsRoom (store_state D.state self.old.store) self.old.commits step.now
            result }
        ensures left { Lets D.state self.old step.now result released.old.items released.new.items }
    {
        match step {
            Step::Event { moment, event } => {
                let (turn, closings) = self.event(*moment, event);
                Answer::Turn { turn, closings }
            }
            Step::Piece {
                link,
                moment,
                bytes,
            } => self.piece(*link, *moment, bytes.as_slice()),
            Step::Take(most) => self.take(alloc, *most, released),
            Step::Next(most) => self.next(alloc, *most, released),
            Step::Checkpoint => self.checkpoint(alloc),
            Step::Call => self.call(),
            Step::Fail => self.fail(),
            Step::Release => self.release(released),
            Step::List => self.list(),
            Step::Emit | Step::Crash(_) => unreachable!(),
        }
    }

    /// The flusher takes a batch and begins its commit. `Full` is returned only if the journal has
    /// no room for the largest batch.
    pub(crate) fn take(&mut self, alloc: Global, most: Most, released: &mut Vec<Released>) -> Answer
        requires sound { IsSoundLife D.state self.old }
        requires room { HasRoom self.old.commits (length released.old.items)
            (vec_capacity released.old) }
        ensures sound { IsSoundLife D.state self.new }
        ensures room { HasRoom self.new.commits (length released.new.items)
            (vec_capacity released.new) }
        ensures released { released.new.items ≡ released.old.items }
        ensures room_told { TakeTells (IsRoomy (store_state D.state self.old.store)) result }
        ensures course { MovesLife D.state self.old (steps.Take most) result self.new }
        ensures calls { Foretells D.failures D.outlook (disk_of self.old.store)
            (steps.Take most) result (disk_of self.new.store) }
    {
        if let Some(answer) = self.commits.hindrance() {
            return answer;
        }
        if self.core.untaken() == 0 {
            return Answer::Idle;
        }
        if self.is_full() {
            return Answer::Full;
        }
        match self.begin(alloc, most, released) {
            Ok(answer) => answer,
            Err(refusal) => Answer::Refused(refusal),
        }
    }

    // Whether the journal has no room for the largest batch.
    fn is_full(&self) -> bool
        ensures { IsTrue result ↔ ¬ (IsRoomy (store_state D.state self.now.store)) }
    {
        !self.store.roomy()
    }

    // Takes a batch and begins its commit.
    fn begin(
        &mut self,
        alloc: Global,
        most: Most,
        released: &mut Vec<Released>,
    ) -> Result<Answer, Refusal>
        requires idle { self.old.commits ≡ at_rest }
        requires some { self.old.core.decisions.log ≢ [] }
        requires roomy { IsRoomy (store_state D.state self.old.store) }
        ensures sound { IsSoundLife D.state self.new }
        ensures room { HasRoom self.new.commits (length released.new.items)
            (vec_capacity released.new) }
        ensures released { released.new.items ≡ released.old.items }
        ensures room_told { IfOk result (TakeTells (IsRoomy (store_state D.state self.old.store))) }
        ensures course { MatchResult result
            (λ answer. MovesLife D.state self.old (steps.Take most) answer self.new)
            (λ e. (e ≡ OutOfMemory) × (self.new ≡ self.old)) }
        ensures calls { IfOk result (λ answer.
            Foretells D.failures D.outlook (disk_of self.old.store) (steps.Take most) answer
            (disk_of self.new.store)) }
    {
        laws::of_runs();
        let (batch, room) = next_batch(alloc, &mut self.core, most, released)?;
        let count = batch.len();
        let begun = self.store.begin(alloc, batch);
        let answer = batch_answer(&begun, count);
        match begun {
            Ok(begun) => {
                self.commits
                    .set(LastCommit::UnderWay(UnderWay::Begun(begun, room)));
                Ok(answer)
            }
            Err(_) => Ok(answer),
        }
    }

    /// The flusher takes a batch and begins its commit after the one that is begun, if that is the
    /// only one and its gate is written and not synced. In any other state `Idle` is returned.
    /// `Full` is returned only if the journal has no room for the largest batch after that one.
    pub(crate) fn next(&mut self, alloc: Global, most: Most, released: &mut Vec<Released>) -> Answer
        requires sound { IsSoundLife D.state self.old }
        requires room { HasRoom self.old.commits (length released.old.items)
            (vec_capacity released.old) }
        ensures sound { IsSoundLife D.state self.new }
        ensures room { HasRoom self.new.commits (length released.new.items)
            (vec_capacity released.new) }
        ensures released { released.new.items ≡ released.old.items }
        ensures room_told { NextTells (store_state D.state self.old.store) self.old.commits result }
        ensures course { MovesLife D.state self.old (steps.Next most) result self.new }
        ensures calls { Foretells D.failures D.outlook (disk_of self.old.store)
            (steps.Next most) result (disk_of self.new.store) }
    {
        match self.commits.take_gate() {
            Some((opened, room)) => {
                let (under_way, answer) = self.follow(alloc, most, released, opened, room);
                self.commits.set(LastCommit::UnderWay(under_way));
                answer
            }
            None => Answer::Idle,
        }
    }

    // Takes a batch and begins its commit after this one.
    fn follow(
        &mut self,
        alloc: Global,
        most: Most,
        released: &mut Vec<Released>,
        opened: GateWritten,
        along: Room,
    ) -> (UnderWay<Room>, Answer)
        requires way { IsUnderWay (store_state D.state self.old.store) (gate_written_sequel opened)
            (gate_written_size opened) }
        requires room { HasRoom (at_gate opened along) (length released.old.items)
            (vec_capacity released.old) }
        ensures way { IsOnItsWay (store_state D.state self.new.store) result.0 }
        ensures room { HasRoom (alone (commits.UnderWay result.0)) (length released.new.items)
            (vec_capacity released.new) }
        ensures released { released.new.items ≡ released.old.items }
        ensures commits { self.new.commits ≡ self.old.commits }
        ensures disk { disk_of self.new.store ≡ disk_of self.old.store }
        ensures told { TakeTells (IsRoomyBehind (store_state D.state self.old.store) opened)
            result.1 }
        ensures course { MovesLife D.state (record self.old { commits = at_gate opened along })
            (steps.Next most) result.1
            (record self.new { commits = alone (commits.UnderWay result.0) }) }
        ensures calls { IsNoFailure result.1 }
    {
        laws::of_runs();
        if self.core.untaken() == 0 {
            return (UnderWay::GateWritten(opened, along), Answer::Idle);
        }
        if !self.store.roomy_next(&opened) {
            return (UnderWay::GateWritten(opened, along), Answer::Full);
        }
        match next_batch(alloc, &mut self.core, most, released) {
            Err(refusal) => {
                let unchanged = UnderWay::GateWritten(opened, along);
                (unchanged, Answer::Refused(refusal))
            }
            Ok((batch, behind)) => {
                let count = batch.len();
                let begun = self.store.begin_next(alloc, &opened, batch);
                let answer = batch_answer(&begun, count);
                match begun {
                    Ok(following) => {
                        let both = UnderWay::Following {
                            opened,
                            along,
                            following,
                            behind,
                        };
                        (both, answer)
                    }
                    Err(_) => (UnderWay::GateWritten(opened, along), answer),
                }
            }
        }
    }

    /// The flusher begins a checkpoint of the durable table. It makes no device call yet.
    pub(crate) fn checkpoint(&mut self, alloc: Global) -> Answer
        requires sound { IsSoundLife D.state self.old }
        ensures sound { IsSoundLife D.state self.new }
        ensures room { (there fit : ℕ) → HasRoom self.old.commits there fit
            → HasRoom self.new.commits there fit }
        ensures told { CheckpointTells (store_state D.state self.old.store) result }
        ensures course { MovesLife D.state self.old steps.Checkpoint result self.new }
        ensures calls { Foretells D.failures D.outlook
            (disk_of self.old.store) steps.Checkpoint result (disk_of self.new.store) }
    {
        if let Some(answer) = self.commits.hindrance() {
            return answer;
        }
        match self.store.checkpoint_early(alloc) {
            Ok(checkpoint) => {
                let publishing = Publishing::Begun(checkpoint);
                let calls = publishing.calls_left(&self.store);
                self.commits
                    .set(LastCommit::UnderWay(UnderWay::Checkpoint(publishing)));
                Answer::Begun(calls)
            }
            Err(refusal) => Answer::Refused(refusal),
        }
    }

    /// One device call of what is under way.
    pub(crate) fn call(&mut self) -> Answer
        requires { IsSoundLife D.state self.old }
        ensures sound { IsSoundLife D.state self.new }
        ensures room { (there fit : ℕ) → HasRoom self.old.commits there fit
            → HasRoom self.new.commits there fit }
        ensures course { MovesLife D.state self.old steps.Call result self.new }
        ensures calls { Foretells D.failures D.outlook (disk_of self.old.store) steps.Call result
            (disk_of self.new.store) }
    {
        laws::of_runs();
        match mem::replace(&mut self.commits.last, LastCommit::Failed) {
            LastCommit::UnderWay(under_way) => match under_way.call(&mut self.store) {
                Ok(called) => {
                    self.commits.go_on(called);
                    Answer::Called
                }
                Err(refusal) => Answer::Refused(refusal),
            },
            other => {
                self.commits.set(other);
                Answer::Idle
            }
        }
    }

    /// The next device call is to fail, as long as the disk can count failures.
    pub(crate) fn fail(&mut self) -> Answer
        requires { IsSoundLife D.state self.old }
        ensures sound { IsSoundLife D.state self.new }
        ensures commit { self.new.commits ≡ self.old.commits }
        ensures course { MovesLife D.state self.old steps.Fail result self.new }
        ensures calls { Foretells D.failures D.outlook (disk_of self.old.store) steps.Fail result
            (disk_of self.new.store) }
    {
        self.store.arm(1);
        Answer::Armed
    }

    /// The effects of the oldest durable batch are released. Takes no memory.
    pub(crate) fn release(&mut self, released: &mut Vec<Released>) -> Answer
        requires sound { IsSoundLife D.state self.old }
        requires room { HasRoom self.old.commits (length released.old.items)
            (vec_capacity released.old) }
        ensures sound { IsSoundLife D.state self.new }
        ensures room { HasRoom self.new.commits (length released.new.items)
            (vec_capacity released.new) }
        ensures course { MovesLife D.state self.old steps.Release result self.new }
        ensures calls { Foretells D.failures D.outlook (disk_of self.old.store) steps.Release result
            (disk_of self.new.store) }
        ensures left { Lets D.state self.old steps.Release result released.old.items
            released.new.items }
    {
        laws::of_runs();
        match self.commits.take_oldest() {
            Some(durable) => {
                let effects = durable.release();
                let count = effects.len();
                add(effects, released);
                Answer::Released(count)
            }
            None => Answer::Idle,
        }
    }

    /// The table as it is now.
    pub(crate) fn list(&self) -> Answer
        ensures course { MovesLife D.state self.now steps.List result self.now }
        ensures calls { Foretells D.failures D.outlook (disk_of self.now.store) steps.List result
            (disk_of self.now.store) }
    {
        laws::of_runs();
        match self.core.now().copy() {
            Ok(table) => Answer::Listed {
                table,
                seq: self.core.seq(),
            },
            Err(refusal) => Answer::Refused(refusal),
        }
    }

    /// Ends the life: what is under way is lost, and the disk is returned.
    pub(crate) fn end(self) -> D
        ensures { result ≡ disk_of self.store }
    {
        let Life {
            store,
            core: _,
            commits,
            links: _,
        } = self;
        commits.lose();
        store.close()
    }
}

// Takes a batch. The room for its effects is allocated first, in addition to that of another batch,
// so nothing is taken and then lost for lack of that room.
fn next_batch(
    alloc: Global,
    core: &mut Core,
    most: Most,
    released: &mut Vec<Released>,
) -> Result<(Batch, Room), Refusal>
    ensures asked { IfOk result (λ _. 1 ≤ most) }
    ensures taken { MatchResult result
        (λ taken. (taken.0 ≡ take most core.old.decisions.log)
        × (core.new ≡ record core.old { decisions = after_taking core.old.decisions most }))
        (λ e. (e ≡ OutOfMemory) × (core.new ≡ core.old)) }
    ensures lawful { IfOk result (λ _. IsLawfulCore core.old) }
    ensures room { IfOk result (λ _. length released.new.items + 2 * MOST_EFFECTS
        ≤ vec_capacity released.new) }
    ensures released { released.new.items ≡ released.old.items }
    ensures capacity { vec_capacity released.old ≤ vec_capacity released.new }
{
    let room = Room::new(alloc)?;
    released.reserve(2 * MOST_EFFECTS)?;
    let batch = core.take(most)?;
    Ok((batch, room))
}

// The answer for this number of decisions that were taken, by what the store returned for their
// batch.
fn batch_answer(begun: &Result<Begun, Refusal>, count: usize) -> Answer
    ensures { result ≡ told_by begun.now count }
{
    match begun {
        Ok(_) => Answer::Taken(count),
        Err(Refusal::OutOfStep) => Answer::Refused(Refusal::OutOfStep),
        Err(_) => Answer::GivenUp(count),
    }
}

// Appends effects to others.
fn add(effects: Vec<Released>, released: &mut Vec<Released>)
    requires { length released.old.items + length effects.items ≤ vec_capacity released.old }
    ensures items { released.new.items ≡ released.old.items ++ effects.items }
    ensures capacity { vec_capacity released.old ≤ vec_capacity released.new }
{
    for effect in effects {
        let pushed: Result<_, _> = released.push(effect);
        pushed.unwrap();
    }
}
