// What comes to a core.
use devices::{Application, Command};
use lw_types::{Eui, FrameCopy};

/// What comes to a core at a moment.
#[derive(PartialEq, Eq, Drop)]
pub enum Event {
    /// A gateway's copy of a frame.
    Hear(FrameCopy),
    /// Only the moment.
    Tick,
    /// A command: an application's request, or a frame with all its copies.
    Ask(Command),
}

/// What a call handed in, and whose it was.
#[derive(Clone, Copy, PartialEq, Eq)]
pub enum CallKind {
    /// This gateway's copy of a frame.
    Heard(Eui),
    /// Only a moment.
    Ticked,
    /// A command of this application.
    Asked(Application),
    /// A frame with all its copies.
    Gathered,
}

impl Event {
    ghost use Rattle.std.specs.Prelude.{◌≡◌};
    ghost use Rattle.session_core.specs.Calls.{call_kind_of};

    /// The kind of the call that hands this event in.
    pub fn kind(&self) -> CallKind
        ensures { result ≡ call_kind_of self.now }
    {
        match self {
            Event::Hear(copy) => CallKind::Heard(copy.reception.gateway),
            Event::Tick => CallKind::Ticked,
            Event::Ask(Command::Provision(value)) => CallKind::Asked(value.application),
            Event::Ask(Command::Queue(value)) => CallKind::Asked(value.application),
            Event::Ask(Command::QueueMac(value)) => CallKind::Asked(value.application),
            Event::Ask(Command::Heard(_)) => CallKind::Gathered,
        }
    }
}
