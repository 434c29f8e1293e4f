// What comes to a life: events, one after another.
ghost use Rattle.std.specs.Prelude.{◌≡◌, ◌≤◌, [], length, map, vec_capacity, MatchResult};
ghost use Rattle.lw_types.specs.declared.refusal.Refusal.TheVariants.{OutOfMemory};

use crate::life::Life;
use crate::links::HandedIn;
use crate::{Answer, Event, EventTurn, laws};
use devices::Command;
use disk::Sim;
use lw_types::{FrameCopy, Refusal};
use session_core::{Moment, Turn};

impl<D: Sim> Life<D> {
    ghost use Rattle.session_core.specs.declared.event.Event.TheVariants as events;
    ghost use Rattle.world.specs.declared.step.Step.TheVariants as steps;
    ghost use Rattle.world.specs.declared.answer.Answer.TheVariants as answers;
    ghost use Rattle.world.specs.Answers.{event_of};
    ghost use Rattle.world.specs.Calls.{IsNoFailure};
    ghost use Rattle.world.specs.Follows.{MovesLife, MovesPiece, MovesThrough};
    ghost use Rattle.world.specs.Sound.{IsSoundLife};

    /// An event comes.
    pub(crate) fn event(&mut self, moment: Moment, event: &Event) -> (Turn, usize)
        requires { IsSoundLife D.state self.old }
        ensures sound { IsSoundLife D.state self.new }
        ensures commit { self.new.commits ≡ self.old.commits }
        ensures store { self.new.store ≡ self.old.store }
        ensures course { MovesLife D.state self.old (steps.Event moment event.now)
            (answers.Turn result.0 result.1) self.new }
    {
        match event {
            Event::Hear(copy) => self.hear(moment, copy),
            Event::Tick => self.tick(moment),
            Event::Ask(command) => self.ask(moment, command),
        }
    }

    // A copy of a frame comes. If memory runs out and it can't be kept, it is refused.
    fn hear(&mut self, moment: Moment, copy: &FrameCopy) -> (Turn, usize)
        requires { IsSoundLife D.state self.old }
        ensures sound { IsSoundLife D.state self.new }
        ensures commit { self.new.commits ≡ self.old.commits }
        ensures store { self.new.store ≡ self.old.store }
        ensures course { MovesLife D.state self.old (steps.Event moment (events.Hear copy.now))
            (answers.Turn result.0 result.1) self.new }
    {
        laws::of_runs();
        session_core::laws::windows_stand_for_groups();
        match copy.copy() {
            Ok(own) => {
                let turn = self.core.handle(moment, Event::Hear(own));
                self.told(turn)
            }
            Err(_) => {
                let turn = self.core.hear_without_memory(moment);
                self.told(turn)
            }
        }
    }

    // It is this moment.
    fn tick(&mut self, moment: Moment) -> (Turn, usize)
        requires { IsSoundLife D.state self.old }
        ensures sound { IsSoundLife D.state self.new }
        ensures commit { self.new.commits ≡ self.old.commits }
        ensures store { self.new.store ≡ self.old.store }
        ensures course { MovesLife D.state self.old (steps.Event moment events.Tick)
            (answers.Turn result.0 result.1) self.new }
    {
        laws::of_runs();
        session_core::laws::windows_stand_for_groups();
        let turn = self.core.handle(moment, Event::Tick);
        self.told(turn)
    }

    // A command comes. If memory runs out and it can't be copied, it is refused.
    fn ask(&mut self, moment: Moment, command: &Command) -> (Turn, usize)
        requires { IsSoundLife D.state self.old }
        ensures sound { IsSoundLife D.state self.new }
        ensures commit { self.new.commits ≡ self.old.commits }
        ensures store { self.new.store ≡ self.old.store }
        ensures course { MovesLife D.state self.old (steps.Event moment (events.Ask command.now))
            (answers.Turn result.0 result.1) self.new }
    {
        laws::of_runs();
        session_core::laws::windows_stand_for_groups();
        match copy_of(command) {
            Ok(own) => {
                let turn = self.core.handle(moment, Event::Ask(own));
                self.told(turn)
            }
            Err(_) => {
                let turn = self.core.decide_without_memory(moment, command);
                self.told(turn)
            }
        }
    }

    // The turn of an event, and the number of windows that it closed.
    fn told(&self, turn: Turn) -> (Turn, usize)
        ensures { result ≡ (turn, self.now.core.closings) }
    {
        (turn, self.core.closings())
    }

    /// A piece of a link's bytes comes: its events, one after another. If there is no memory for
    /// it, nothing of it counts.
    pub(crate) fn piece(&mut self, link: u64, moment: Moment, bytes: &[u8]) -> Answer
        requires { IsSoundLife D.state self.old }
        ensures sound { IsSoundLife D.state self.new }
        ensures commit { self.new.commits ≡ self.old.commits }
        ensures store { self.new.store ≡ self.old.store }
        ensures course { MovesPiece D.state self.old link moment bytes.now result self.new }
        ensures calls { IsNoFailure result }
    {
        link_messages::laws::cuts_make_no_difference();
        link_messages::laws::each_stream_says_one_thing();
        match self.links.say(link, bytes) {
            Err(refusal) => Answer::Refused(refusal),
            Ok(handed_in) => {
                let HandedIn {
                    events,
                    fault,
                    room,
                } = handed_in;
                let turns = self.go_through(moment, events, room);
                Answer::Turns { turns, fault }
            }
        }
    }

    // Events come at this moment, one after another. Their turns are put into the room for them.
    fn go_through(
        &mut self,
        moment: Moment,
        events: Vec<Event>,
        room: Vec<EventTurn>,
    ) -> Vec<EventTurn>
        requires sound { IsSoundLife D.state self.old }
        requires empty { room.items ≡ [] }
        requires enough { length events.items ≤ vec_capacity room }
        ensures sound { IsSoundLife D.state self.new }
        ensures commit { self.new.commits ≡ self.old.commits }
        ensures store { self.new.store ≡ self.old.store }
        ensures course { MovesThrough D.state self.old moment result.items self.new }
        ensures events { map event_of result.items ≡ events.items }
    {
        let mut turns = room;
        for event in events {
            let (turn, closings) = self.event(moment, &event);
            let pushed: Result<_, _> = turns.push(EventTurn {
                event,
                turn,
                closings,
            });
            pushed.unwrap();
        }
        turns
    }
}

// The same command, in memory of its own.
fn copy_of(command: &Command) -> Result<Command, Refusal>
    ensures { MatchResult result (λ copy. copy ≡ command.now) (λ e. e ≡ OutOfMemory) }
{
    Ok(match command {
        Command::Provision(provisioning) => Command::Provision(*provisioning),
        Command::Heard(heard) => Command::Heard(heard.clone()?),
        Command::Queue(queueing) => Command::Queue(queueing.clone()?),
        Command::QueueMac(queueing) => Command::QueueMac(queueing.clone()?),
    })
}
