// What a world returns for a step.
use crate::Event;
use gateway_wire::Emission;
use lw_types::Refusal;
use session_core::Turn;
use sessions::Table;

/// An event from a link, and its turn: the decisions that it made, the refusal of the event itself,
/// and the number of windows that it closed, including those that made no decision.
#[derive(Drop)]
pub struct EventTurn {
    pub event: Event,
    pub turn: Turn,
    pub closings: usize,
}

/// The answer to one step.
#[derive(Drop)]
pub enum Answer {
    /// To an event: the decisions that it made, the refusal of the event itself, and the number of
    /// windows that it closed, including those that made no decision.
    Turn {
        turn: Turn,
        closings: usize,
    },
    /// To a piece: the turns of its events, in order, and what is wrong with the bytes of its link
    /// after them.
    Turns {
        turns: Vec<EventTurn>,
        fault: Option<Refusal>,
    },
    /// To a take or a next: the number of decisions that were taken, and whose commit began.
    Taken(usize),
    /// To a take or a next whose commit was refused because memory ran out: the number of decisions
    /// that were taken and are lost in this life.
    GivenUp(usize),
    /// To a take or a next: the area has no room for another batch before a checkpoint.
    Full,
    /// To a checkpoint: it began, and takes this number of device calls.
    Begun(u64),
    /// One of these holds: there is nothing to take, call, release or emit; or, for a take or a
    /// checkpoint, what is under way has to end first; or, for a next, no batch may follow what is
    /// begun; or the store could not be opened. Nothing has changed.
    Idle,
    /// To a call: the device call succeeded.
    Called,
    /// To a fail: the next device call will fail.
    Armed,
    /// To a release: the number of effects that were released, 0 if a batch has none.
    Released(usize),
    /// To an emit: what left.
    Emitted(Emission),
    /// To a crash: the store was opened, with this number of devices and this number of the last
    /// decision.
    Opened {
        devices: usize,
        seq: u64,
    },
    /// To a list: the table after every decision made, and the number of the last one.
    Listed {
        table: Table,
        seq: u64,
    },
    /// The step was refused: because memory ran out, or by the store or its device.
    Refused(Refusal),
}
