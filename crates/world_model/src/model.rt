// The model of a world: whole lists of commands and of copies. The table and the windows are
// computed anew from all of them each time that they are needed.
ghost use Rattle.std.specs.Prelude.{◌≡◌, ◌≢◌, ◌++◌, ◌∷◌, ℕ, [], true, length, Err, IfOk, IfErr};
ghost use Rattle.std.specs.Prelude.{MatchResult};
ghost use Rattle.lw_types.specs.declared.refusal.Refusal.TheVariants.{OutOfMemory};
ghost use Rattle.sessions.specs.Decision.{FitsTable, IsDecision};
ghost use Rattle.disk.specs.Outlook.Outlook.{AllSucceed};
ghost use Rattle.sessions.specs.Table.{fold_of, effects_of, step, with_step, step_effects};
ghost use Rattle.world.specs.declared.answer.Answer.TheVariants as answers;
ghost use Rattle.world.specs.declared.step.Step.TheVariants as steps;
ghost use Rattle.world.specs.Answers.{IsCopyAnswer, IsOwnRight};
ghost use Rattle.world.specs.Course.{after_commands, at_moment, beginning, decided_commands};
ghost use Rattle.store.specs.Flights.{in_flight};
ghost use Rattle.world.specs.Course.{due_frames, new_store, after_copy};
ghost use Rattle.world.specs.Course.{with_closings, table_from, with_piece, step_if_room};
ghost use Rattle.world.specs.Course.{after_command, course_windows};
ghost use Rattle.world_model.specs.Plain.{Goes, GoesPiece, GoesThrough, HasCall, IsBusy, IsRefusal};
ghost use Rattle.world_model.specs.Plain.{Settles, at_course, flight_of, flights_of, kept_with};
ghost use Rattle.world_model.specs.Plain.{left_of, own_after};

use crate::flight::{PlainFlight, PlainStage, PlainUnderWay};
use crate::gathering::{PlainArrival, PlainWindow, course_windows, due_frames, refusal_by};
use crate::streams::{PlainPiece, completed};
use devices::{Command, Effect, is_receivable};
use disk::Image;
use gateway_wire::Emission;
use lw_types::{FrameCopy, NetId, Refusal};
use session_core::{LAST_NUMBER, MOST_UNTAKEN, Moment, Most, Turn};
use sessions::{Decision, Slots, Table};
use std::alloc::Global;
use std::marker::Model;
use std::mem;
use world::{Answer, Event, EventTurn, Step};

/// A model of a world. Contracts see where its course begins, the course, and what is known of the
/// disk's calls. It ends if memory runs out, so no batch is given up.
#[derive(Drop)]
pub struct Plain {
    net_id: NetId,
    slots: Slots,
    settled: Vec<Command>,
    under_way: PlainUnderWay,
    untaken: Vec<Command>,
    made: u64,
    left: Vec<Effect>,
    emitted: usize,
    is_open: bool,
    clock: u64,
    arrivals: Vec<PlainArrival>,
    shut: usize,
    pieces: Vec<PlainPiece>,
    // Whether the next device call fails, and the number of calls that have failed.
    armed: bool,
    failures: u64,
    // Whether the gate that was written last is open on the disk, as written and as synced; and
    // whether it may be anything, since a write of it was tried and no sync followed.
    gate_written: bool,
    gate_synced: bool,
    gate_in_doubt: bool,
    // The same for the gate of the area that isn't live, after an opening.
    other_written: bool,
    other_synced: bool,
    other_in_doubt: bool,
}

impl Model for Plain {
    ghost use Rattle.std.specs.Prelude.{[], if◌then◌else◌};
    ghost use Rattle.disk.specs.Outlook.Outlook.{AllSucceed, FailsAfter};
    ghost use Rattle.world.specs.Course.{new_store};
    ghost use Rattle.world_model.specs.Plain.{PlainState, checkpoint_of, flights_of};

    ghost Value = { PlainState };

    ghost view = { λ m. record {
      origin = new_store m.net_id m.slots;
      calls = record {
        failed = m.failures;
        coming = if m.armed then FailsAfter 0 else AllSucceed;
      };
      course = record {
        settled = m.settled.items;
        flights = flights_of m.under_way;
        checkpoint = checkpoint_of m.under_way;
        given_up = [];
        untaken = m.untaken.items;
        made = m.made;
        left = m.left.items;
        emitted = m.emitted;
        is_open = m.is_open;
        clock = m.clock;
        arrivals = m.arrivals.items;
        shut = m.shut;
        pieces = m.pieces.items;
      };
    } };
}

impl Plain {
    /// A world that was just formatted.
    pub fn new(alloc: Global, net_id: NetId, slots: Slots) -> Self
        ensures origin { result.origin ≡ new_store net_id slots }
        ensures calls { result.calls ≡ record { failed = 0; coming = AllSucceed } }
        ensures course { result.course ≡ beginning (new_store net_id slots) }
    {
        Plain {
            net_id,
            slots,
            settled: Vec::new(alloc),
            under_way: PlainUnderWay::Nothing,
            untaken: Vec::new(alloc),
            made: 0,
            left: Vec::new(alloc),
            emitted: 0,
            is_open: true,
            clock: 0,
            arrivals: Vec::new(alloc),
            shut: 0,
            pieces: Vec::new(alloc),
            armed: false,
            failures: 0,
            gate_written: false,
            gate_synced: false,
            gate_in_doubt: false,
            other_written: false,
            other_synced: false,
            other_in_doubt: false,
        }
    }

    /// Takes one step. An `Err` means that memory ran out, and then the model can't be used.
    pub fn step(&mut self, alloc: Global, step: &Step) -> Result<Answer, Refusal>
        ensures { IfOk result (λ answer. Goes self.old step.now answer self.new) }
    {
        match step {
            Step::Crash(image) => self.crash(alloc, image),
            Step::Emit => self.emit(alloc),
            _ if !self.is_open => Ok(Answer::Idle),
            Step::Event { moment, event } => {
                let (turn, closings) = self.event(alloc, *moment, event)?;
                Ok(Answer::Turn { turn, closings })
            }
            Step::Piece {
                link,
                moment,
                bytes,
            } => {
                let (turns, fault) = self.piece(alloc, *link, *moment, bytes)?;
                Ok(Answer::Turns { turns, fault })
            }
            Step::Take(most) => self.take(*most),
            Step::Next(most) => self.next(*most),
            Step::Checkpoint => Ok(self.checkpoint()),
            Step::Call => self.call(),
            Step::Fail => self.fail(),
            Step::Release => self.release(alloc),
            Step::List => self.list(alloc),
        }
    }

    // Closes the windows that are due, and then takes the event itself.
    fn event(
        &mut self,
        alloc: Global,
        moment: Moment,
        event: &Event,
    ) -> Result<(Turn, usize), Refusal>
        requires { self.old.course.is_open ≡ true }
        ensures { IfOk result (λ told. Goes self.old (steps.Event moment event.now)
            (answers.Turn told.0 told.1) self.new) }
    {
        let from = self.made;
        self.reach(moment);
        let closings = self.close_due(alloc)?;
        let refused = self.own(alloc, event)?;
        let turn = Turn {
            from,
            to: self.made,
            refused,
        };
        Ok((turn, closings))
    }

    // A piece of a link's bytes comes: its events, one after another.
    fn piece(
        &mut self,
        alloc: Global,
        link: u64,
        moment: Moment,
        bytes: &[u8],
    ) -> Result<(Vec<EventTurn>, Option<Refusal>), Refusal>
        requires { self.old.course.is_open ≡ true }
        ensures { IfOk result (λ told. GoesPiece self.old link moment bytes.now told.0.items told.1
            self.new) }
    {
        let (events, fault) = completed(alloc, &self.pieces, link, bytes)?;
        self.tell(alloc, link, bytes)?;
        Ok((self.turns_of(alloc, moment, events)?, fault))
    }

    // These bytes come over a link.
    fn tell(&mut self, alloc: Global, link: u64, bytes: &[u8]) -> Result<(), Refusal>
        ensures { IfOk result (λ _. self.new
            ≡ at_course self.old (with_piece self.old.course link bytes.now)) }
    {
        self.pieces.push(PlainPiece::new(alloc, link, bytes)?)?;
        Ok(())
    }

    // The turns of events that come at this moment.
    fn turns_of(
        &mut self,
        alloc: Global,
        moment: Moment,
        events: Vec<Event>,
    ) -> Result<Vec<EventTurn>, Refusal>
        requires { self.old.course.is_open ≡ true }
        ensures { IfOk result (λ turns. GoesThrough self.old moment events.items turns.items
            self.new) }
    {
        let mut turns = Vec::new(alloc);
        for event in events {
            let (turn, closings) = self.event(alloc, moment, &event)?;
            turns.push(EventTurn {
                event,
                turn,
                closings,
            })?;
        }
        Ok(turns)
    }

    // The effective time is at least this moment.
    fn reach(&mut self, moment: Moment)
        ensures { self.new ≡ at_course self.old (at_moment self.old.course moment) }
    {
        self.clock = self.clock.max(moment.get());
    }

    // Takes the frames of all windows that are due, and returns their number.
    fn close_due(&mut self, alloc: Global) -> Result<usize, Refusal>
        ensures count { IfOk result (λ count. count ≡ length (due_frames self.old.course)) }
        ensures course { IfOk result (λ count. self.new
            ≡ at_course self.old (with_closings count
            (after_commands self.old.origin self.old.course (due_frames self.old.course)))) }
    {
        let windows = self.windows(alloc)?;
        let frames = due_frames(alloc, &windows, self.clock)?;
        self.admit_all(alloc, &frames)?;
        let count = frames.len();
        self.shut = self.shut.checked_add(count).ok_or(Refusal::OutOfMemory)?;
        Ok(count)
    }

    // Takes the event itself, and returns why it is refused, if it is.
    fn own(&mut self, alloc: Global, event: &Event) -> Result<Option<Refusal>, Refusal>
        ensures right { IfOk result
            (λ refused. IsOwnRight self.old.origin self.old.course event.now refused) }
        ensures course { IfOk result (λ refused. self.new
            ≡ at_course self.old (own_after self.old.origin self.old.course event.now refused)) }
    {
        match event {
            Event::Hear(copy) => self.hear(alloc, copy),
            Event::Tick => Ok(None),
            Event::Ask(command) => self.admit(alloc, command),
        }
    }

    // A copy is kept, unless it is refused.
    fn hear(&mut self, alloc: Global, copy: &FrameCopy) -> Result<Option<Refusal>, Refusal>
        ensures right { IfOk result (λ refused. IsCopyAnswer self.old.course copy.now refused) }
        ensures course { IfOk result (λ refused. self.new
            ≡ at_course self.old (after_copy copy.now refused self.old.course)) }
    {
        let refused = self.deaf_to(alloc, copy)?;
        if refused.is_none() {
            self.arrivals
                .push(PlainArrival::new(self.clock, copy.copy()?))?;
        }
        Ok(refused)
    }

    // Why a copy isn't kept, if it isn't.
    fn deaf_to(&self, alloc: Global, copy: &FrameCopy) -> Result<Option<Refusal>, Refusal>
        ensures { IfOk result (λ refused. IsCopyAnswer self.now.course copy.now refused) }
    {
        if !is_receivable(&copy.reception) {
            return Ok(Some(Refusal::UnknownChannel));
        }
        let windows = self.windows(alloc)?;
        Ok(refusal_by(&windows, copy))
    }

    // The windows that are open.
    fn windows(&self, alloc: Global) -> Result<Vec<PlainWindow>, Refusal>
        ensures { IfOk result (λ windows. windows.items ≡ course_windows self.now.course) }
    {
        let mut windows = course_windows(alloc, &self.arrivals)?;
        let shut = self.shut.min(windows.len());
        Ok(windows.split_off(shut)?)
    }

    // Takes these commands, one after another.
    fn admit_all(&mut self, alloc: Global, commands: &[Command]) -> Result<(), Refusal>
        ensures { IfOk result (λ _. self.new
            ≡ at_course self.old (after_commands self.old.origin self.old.course commands.now)) }
    {
        for command in commands {
            let _ = self.admit(alloc, command)?;
        }
        Ok(())
    }

    // A command is decided, unless it is refused.
    fn admit(&mut self, alloc: Global, command: &Command) -> Result<Option<Refusal>, Refusal>
        ensures refused { IfOk result
            (IsRefusal (step_if_room self.old.origin self.old.course command.now)) }
        ensures course { IfOk result (λ _. self.new
            ≡ at_course self.old (after_command self.old.course command.now
            (step_if_room self.old.origin self.old.course command.now))) }
    {
        match self.why_not(alloc, command)? {
            None => {
                self.untaken.push(command.clone()?)?;
                self.made = self.made.checked_add(1).ok_or(Refusal::OutOfMemory)?;
                Ok(None)
            }
            Some(refusal) => Ok(Some(refusal)),
        }
    }

    // Why the command isn't decided, if it isn't.
    fn why_not(&self, alloc: Global, command: &Command) -> Result<Option<Refusal>, Refusal>
        ensures { IfOk result (λ refused. IsRefusal
            (step_if_room self.now.origin self.now.course command.now) refused) }
    {
        let all = self.decided(alloc)?;
        if self.untaken.len() as u64 >= MOST_UNTAKEN || all.len() as u64 >= LAST_NUMBER {
            return Ok(Some(Refusal::Backlog));
        }
        let table = self.table(alloc, &all)?;
        refusal_on(alloc, &table, command)
    }

    // The answer to a take or a checkpoint while something is under way or has failed.
    fn busy(&self) -> Option<Answer>
        ensures { IsBusy self.now.course.flights self.now.course.checkpoint result }
    {
        match &self.under_way {
            PlainUnderWay::Nothing => None,
            PlainUnderWay::Batch(flight) | PlainUnderWay::Batches(_, flight) => Some(
                match flight.stage {
                    PlainStage::Stopped | PlainStage::Unsure => Answer::Refused(Refusal::Failed),
                    _ => Answer::Idle,
                },
            ),
            PlainUnderWay::Checkpoint(_) => Some(Answer::Idle),
            PlainUnderWay::FailedCheckpoint => Some(Answer::Refused(Refusal::Failed)),
        }
    }

    // A checkpoint begins. It first closes the other area's gate if that is open.
    fn checkpoint(&mut self) -> Answer
        requires { self.old.course.is_open ≡ true }
        ensures { Goes self.old steps.Checkpoint result self.new }
    {
        if let Some(answer) = self.busy() {
            return answer;
        }
        let calls = if self.other_synced { 6 } else { 4 };
        self.under_way = PlainUnderWay::Checkpoint(calls);
        Answer::Begun(calls)
    }

    fn take(&mut self, most: Most) -> Result<Answer, Refusal>
        requires { self.old.course.is_open ≡ true }
        ensures { IfOk result (λ answer. Goes self.old (steps.Take most) answer self.new) }
    {
        if let Some(answer) = self.busy() {
            return Ok(answer);
        }
        if self.untaken.is_empty() {
            return Ok(Answer::Idle);
        }
        let count = self.untaken.len().min(most.get() as usize);
        let rest = self.untaken.split_off(count)?;
        self.under_way = PlainUnderWay::Batch(PlainFlight {
            commands: mem::replace(&mut self.untaken, rest),
            stage: PlainStage::Begun,
        });
        self.gate_written = false;
        self.gate_synced = false;
        self.gate_in_doubt = false;
        Ok(Answer::Taken(count))
    }

    // A batch is taken after one whose gate is written and not synced.
    fn next(&mut self, most: Most) -> Result<Answer, Refusal>
        requires { self.old.course.is_open ≡ true }
        ensures { IfOk result (λ answer. Goes self.old (steps.Next most) answer self.new) }
    {
        let PlainUnderWay::Batch(first) = &self.under_way else {
            return Ok(Answer::Idle);
        };
        if first.stage != PlainStage::GateWritten || self.untaken.is_empty() {
            return Ok(Answer::Idle);
        }
        let count = self.untaken.len().min(most.get() as usize);
        let rest = self.untaken.split_off(count)?;
        let second = PlainFlight {
            commands: mem::replace(&mut self.untaken, rest),
            stage: PlainStage::Begun,
        };
        let begun = mem::replace(&mut self.under_way, PlainUnderWay::Nothing);
        self.under_way = begun.followed_by(second);
        Ok(Answer::Taken(count))
    }

    // The model ends when the disk would count no more failures.
    fn fail(&mut self) -> Result<Answer, Refusal>
        requires { self.old.course.is_open ≡ true }
        ensures { IfOk result (λ answer. Goes self.old steps.Fail answer self.new) }
    {
        if self.failures < u64::MAX {
            self.armed = true;
            return Ok(Answer::Armed);
        }
        Err(Refusal::OutOfMemory)
    }

    fn call(&mut self) -> Result<Answer, Refusal>
        requires { self.old.course.is_open ≡ true }
        ensures { IfOk result (λ answer. Goes self.old steps.Call answer self.new) }
    {
        if !self.has_call() {
            return Ok(Answer::Idle);
        }
        if self.armed {
            self.failures = self.failures.checked_add(1).ok_or(Refusal::OutOfMemory)?;
            self.armed = false;
            self.doubt_gates();
            let under_way = mem::replace(&mut self.under_way, PlainUnderWay::Nothing);
            self.under_way = under_way.failed();
            return Ok(Answer::Refused(Refusal::DeviceFailed));
        }
        self.move_gates();
        let under_way = mem::replace(&mut self.under_way, PlainUnderWay::Nothing);
        self.under_way = under_way.called();
        Ok(Answer::Called)
    }

    // Whether a device call has to be made.
    fn has_call(&self) -> bool
        ensures { HasCall result self.now.course.flights self.now.course.checkpoint }
    {
        match &self.under_way {
            PlainUnderWay::Batch(flight) | PlainUnderWay::Batches(_, flight) => matches!(
                flight.stage,
                PlainStage::Begun
                    | PlainStage::Written
                    | PlainStage::BodySynced
                    | PlainStage::GateWritten
            ),
            PlainUnderWay::Checkpoint(_) => true,
            PlainUnderWay::Nothing | PlainUnderWay::FailedCheckpoint => false,
        }
    }

    // The gates that the next device call writes or syncs. A gate stays as it is while the body
    // after it is written. If two calls of a checkpoint are left the new area's gate is written,
    // and the old one stays open; if six are, the other one is closed.
    fn move_gates(&mut self)
        ensures { self.new ≡ self.old }
    {
        match &self.under_way {
            PlainUnderWay::Batches(_, flight) if flight.stage == PlainStage::Begun => {}
            PlainUnderWay::Batch(flight) | PlainUnderWay::Batches(_, flight) => {
                self.gate_written = flight.stage == PlainStage::BodySynced;
                self.gate_in_doubt = self.gate_written;
            }
            PlainUnderWay::Checkpoint(6) => {
                self.other_written = false;
                self.other_in_doubt = true;
            }
            PlainUnderWay::Checkpoint(2) => {
                self.other_written = true;
                self.other_in_doubt = true;
            }
            PlainUnderWay::Checkpoint(_) => {
                self.other_synced = self.other_written;
                self.other_in_doubt = false;
            }
            PlainUnderWay::Nothing | PlainUnderWay::FailedCheckpoint => {}
        }
    }

    // The gate that the next device call writes may be anything if that call fails.
    fn doubt_gates(&mut self)
        ensures { self.new ≡ self.old }
    {
        match &self.under_way {
            PlainUnderWay::Batch(flight) | PlainUnderWay::Batches(_, flight) => {
                let is_written = flight.stage == PlainStage::BodySynced;
                self.gate_in_doubt = self.gate_in_doubt || is_written;
            }
            PlainUnderWay::Checkpoint(2 | 6) => self.other_in_doubt = true,
            PlainUnderWay::Checkpoint(_)
            | PlainUnderWay::Nothing
            | PlainUnderWay::FailedCheckpoint => {}
        }
    }

    fn release(&mut self, alloc: Global) -> Result<Answer, Refusal>
        requires { self.old.course.is_open ≡ true }
        ensures { IfOk result (λ answer. Goes self.old steps.Release answer self.new) }
    {
        match mem::replace(&mut self.under_way, PlainUnderWay::Nothing) {
            PlainUnderWay::Batch(flight) if flight.stage == PlainStage::Durable => {
                Ok(Answer::Released(self.settle(alloc, flight)?))
            }
            PlainUnderWay::Batches(first, second) if first.stage == PlainStage::Durable => {
                let count = self.settle(alloc, first)?;
                self.under_way = PlainUnderWay::Batch(second);
                Ok(Answer::Released(count))
            }
            other => {
                self.under_way = other;
                Ok(Answer::Idle)
            }
        }
    }

    // The effects of a batch leave, and its commands are settled. Returns the number of effects.
    fn settle(&mut self, alloc: Global, flight: PlainFlight) -> Result<usize, Refusal>
        ensures { IfOk result (Settles self.old flight.commands.items self.new) }
    {
        let mut table = self.table(alloc, &self.settled)?;
        let mut effects = fold(alloc, &mut table, &flight.commands)?;
        let count = effects.len();
        self.left.append(&mut effects)?;
        let mut commands = flight.commands;
        self.settled.append(&mut commands)?;
        Ok(count)
    }

    fn emit(&mut self, alloc: Global) -> Result<Answer, Refusal>
        ensures { IfOk result (λ answer. Goes self.old steps.Emit answer self.new) }
    {
        match self.left.get(self.emitted) {
            None => Ok(Answer::Idle),
            Some(effect) => {
                let emission = Emission::of(alloc, effect)?;
                self.emitted += 1;
                Ok(Answer::Emitted(emission))
            }
        }
    }

    fn list(&self, alloc: Global) -> Result<Answer, Refusal>
        requires { self.now.course.is_open ≡ true }
        ensures { IfOk result (λ answer. Goes self.now steps.List answer self.now) }
    {
        let all = self.decided(alloc)?;
        let table = self.table(alloc, &all)?;
        Ok(Answer::Listed {
            table,
            seq: all.len() as u64,
        })
    }

    // The opening after it reads the disk, so an armed failure comes there.
    fn crash(&mut self, alloc: Global, image: &Image) -> Result<Answer, Refusal>
        ensures { IfOk result (λ answer. Goes self.old (steps.Crash image.now) answer self.new) }
    {
        world::laws::what_a_crash_leaves();
        self.emitted = self.left.len();
        let flew = self.flew(image);
        self.gate_written = flew;
        self.gate_synced = flew;
        self.gate_in_doubt = false;
        let is_other_open = self.is_other_left_open(image);
        self.other_written = is_other_open;
        self.other_synced = is_other_open;
        self.other_in_doubt = false;
        if self.armed {
            self.failures = self.failures.checked_add(1).ok_or(Refusal::OutOfMemory)?;
            self.armed = false;
            self.is_open = false;
            return Ok(Answer::Refused(Refusal::DeviceFailed));
        }
        let kept = self.kept(alloc, flew)?;
        let table = self.table(alloc, &kept)?;
        self.settled = kept;
        self.under_way = PlainUnderWay::Nothing;
        self.untaken.clear();
        self.made = 0;
        self.is_open = true;
        self.clock = 0;
        self.arrivals.clear();
        self.pieces.clear();
        self.shut = 0;
        Ok(Answer::Opened {
            devices: table.devices().len(),
            seq: self.settled.len() as u64,
        })
    }

    // Whether a crash leaves the gate of the area that isn't live open.
    fn is_other_left_open(&self, image: &Image) -> bool {
        match image {
            Image::Old => self.other_synced,
            Image::Fill(0xA5) if self.other_in_doubt => true,
            _ => self.other_written,
        }
    }

    // Whether a crash leaves the gate open that was written and may not be synced.
    fn flew(&self, image: &Image) -> bool {
        match image {
            Image::Old => self.gate_synced,
            Image::Fill(0xA5) if self.gate_in_doubt => true,
            _ => self.gate_written,
        }
    }

    // The commands that a crash leaves, with the batch whose gate may be open or without it.
    fn kept(&self, alloc: Global, flew: bool) -> Result<Vec<Command>, Refusal>
        ensures { IfOk result (λ kept. kept.items ≡ kept_with flew self.now.course) }
    {
        let mut kept = Vec::new(alloc);
        add(&mut kept, &self.settled)?;
        match &self.under_way {
            PlainUnderWay::Batch(flight) => add_left(&mut kept, flight, flew)?,
            PlainUnderWay::Batches(first, second) => {
                add_left(&mut kept, first, flew)?;
                if first.stage == PlainStage::Durable {
                    add_left(&mut kept, second, flew)?;
                }
            }
            PlainUnderWay::Nothing
            | PlainUnderWay::Checkpoint(_)
            | PlainUnderWay::FailedCheckpoint => {}
        }
        Ok(kept)
    }

    // The decided commands.
    fn decided(&self, alloc: Global) -> Result<Vec<Command>, Refusal>
        ensures commands { IfOk result (λ all. all.items ≡ decided_commands self.now.course) }
        ensures number { self.now.origin.number ≡ 0 }
    {
        let mut all = Vec::new(alloc);
        add(&mut all, &self.settled)?;
        add_flying(&mut all, &self.under_way)?;
        add(&mut all, &self.untaken)?;
        Ok(all)
    }

    // The table that these commands make of the one that was formatted.
    fn table(&self, alloc: Global, commands: &[Command]) -> Result<Table, Refusal>
        ensures { IfOk result (λ table. table ≡ table_from self.now.origin commands.now) }
    {
        let mut table = Table::new(alloc, self.net_id, self.slots)?;
        let _ = fold(alloc, &mut table, commands)?;
        Ok(table)
    }
}

// Appends the commands of the batches that are begun to others.
fn add_flying(commands: &mut Vec<Command>, under_way: &PlainUnderWay) -> Result<(), Refusal>
    ensures { IfOk result (λ _. commands.new.items
        ≡ commands.old.items ++ in_flight (flights_of under_way.now)) }
{
    match under_way {
        PlainUnderWay::Batch(flight) => add(commands, &flight.commands),
        PlainUnderWay::Batches(first, second) => {
            add(commands, &first.commands)?;
            add(commands, &second.commands)
        }
        PlainUnderWay::Nothing | PlainUnderWay::Checkpoint(_) | PlainUnderWay::FailedCheckpoint =>
            Ok(()),
    }
}

// Appends the commands of a batch to others, if a crash leaves it.
fn add_left(commands: &mut Vec<Command>, flight: &PlainFlight, flew: bool) -> Result<(), Refusal>
    ensures { IfOk result (λ _. commands.new.items
        ≡ left_of flew commands.old.items (flight_of flight.now ∷ [])) }
{
    let is_left = match flight.stage {
        PlainStage::Durable => true,
        PlainStage::GateWritten | PlainStage::Unsure => flew,
        PlainStage::Begun | PlainStage::Written | PlainStage::BodySynced | PlainStage::Stopped =>
            false,
    };
    if is_left {
        add(commands, &flight.commands)?;
    }
    Ok(())
}

// Appends commands to others.
fn add(commands: &mut Vec<Command>, more: &[Command]) -> Result<(), Refusal>
    ensures { IfOk result (λ _. commands.new.items ≡ commands.old.items ++ more.now) }
{
    for command in more {
        commands.push(command.clone()?)?;
    }
    Ok(())
}

// Decides these commands on the table, one after the other, and returns their effects.
fn fold(alloc: Global, table: &mut Table, commands: &[Command]) -> Result<Vec<Effect>, Refusal>
    ensures table { IfOk result (λ _. table.new ≡ fold_of table.old commands.now) }
    ensures effects { IfOk result (λ effects. effects.items ≡ effects_of table.old commands.now) }
{
    let mut effects = Vec::new(alloc);
    for command in commands {
        effects.append(&mut decide(alloc, table, command)?)?;
    }
    Ok(effects)
}

// The decision of a command on a table, or its refusal; `OutOfMemory` means that memory ran out.
fn decision_of(alloc: Global, table: &Table, command: &Command) -> Result<Decision, Refusal>
    ensures decided { IfOk result (λ d. MatchResult (step table.now command.now)
        (λ s. IsDecision table.now 1 command.now s d) (λ _. ⊥)) }
    ensures refused { IfErr result (λ e. e ≢ OutOfMemory → step table.now command.now ≡ Err e) }
    ensures fits { IfOk result (λ d. FitsTable table.now d) }
{
    table.decide(alloc, 1, command.clone()?)
}

// Why the command isn't decided on this table, if it isn't.
fn refusal_on(alloc: Global, table: &Table, command: &Command) -> Result<Option<Refusal>, Refusal>
    ensures { IfOk result (λ refused. IsRefusal (step table.now command.now) refused) }
{
    match decision_of(alloc, table, command) {
        Ok(_) => Ok(None),
        Err(Refusal::OutOfMemory) => Err(Refusal::OutOfMemory),
        Err(refusal) => Ok(Some(refusal)),
    }
}

// Decides a command on the table, and returns its effects. A command that is refused changes
// nothing.
fn decide(alloc: Global, table: &mut Table, command: &Command) -> Result<Vec<Effect>, Refusal>
    ensures table { IfOk result (λ _. table.new
        ≡ with_step table.old (step table.old command.now)) }
    ensures effects { IfOk result
        (λ effects. effects.items ≡ step_effects (step table.old command.now)) }
{
    match decision_of(alloc, table, command) {
        Ok(decision) => {
            table.apply(&decision)?;
            let (_, rest) = decision.into_placed();
            Ok(rest.into_effects().into_vec())
        }
        Err(refusal) if refusal == Refusal::OutOfMemory => Err(refusal),
        Err(_) => Ok(Vec::new(alloc)),
    }
}
