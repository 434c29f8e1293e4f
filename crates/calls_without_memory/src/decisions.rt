// Calls of a core, and steps of a world that no script has.
ghost use Rattle.std.specs.Prelude.{IfOk};
ghost use Rattle.disk.specs.MemDisk.{state_of};
ghost use Rattle.world.specs.Sound.{IsSoundWorld};

use crate::attempt::Attempt;
use crate::stores::{SLOTS, new_disk};
use devices::{Application, Provisioning, Rx1Offset, RxDelay};
use disk::MemDisk;
use lw_types::{Eui, FrameCopy, Key, Reception, Refusal, read_hex};
use session_core::{Core, Moment, Most, Turn};
use std::alloc::Global;
use test_stores::devices_under_test::{net_id, new_table};
use world::{Answer, Event, Step, World, run};

// The greatest number of decisions of a batch.
const MOST: u64 = 64;

fn bringing(dev_eui: u64) -> Result<Provisioning, Refusal> {
    match (Application::new(3), Rx1Offset::new(0), RxDelay::new(1)) {
        (Some(application), Some(rx1_offset), Some(rx_delay)) => Ok(Provisioning {
            application,
            dev_eui: Eui(dev_eui),
            join_eui: Eui(1),
            app_key: Key([7; 16]),
            rx1_offset,
            rx_delay,
        }),
        _ => Err(Refusal::Damaged),
    }
}

fn moment(millis: u64) -> Result<Moment, Refusal> {
    Moment::new(millis).ok_or(Refusal::Damaged)
}

fn provision_all(core: &mut Core) -> Result<(), Refusal> {
    for dev_eui in 0..MOST {
        let turn = core.provision(moment(0)?, bringing(dev_eui)?);
        if let Some(refusal) = turn.refused {
            return Err(refusal);
        }
    }
    Ok(())
}

fn is_taken(core: &mut Core) -> Result<bool, Refusal> {
    let most = Most::new(MOST).ok_or(Refusal::Damaged)?;
    Ok(core.take(most)?.len() as u64 == MOST)
}

/// 64 decisions are taken.
pub fn taken(alloc: Global) -> Result<Attempt, Refusal> {
    let mut core = Core::new(alloc, &new_table(alloc, SLOTS)?, 0)?;
    provision_all(&mut core)?;
    Ok(match is_taken(&mut core) {
        Ok(is_due) => Attempt::at_once(is_due),
        Err(_) => Attempt::again(
            core.now().devices().len() as u64 == MOST,
            &is_taken(&mut core),
        ),
    })
}

// A world without devices.
fn new_world(alloc: Global) -> Result<World<MemDisk>, Refusal>
    ensures { IfOk result (IsSoundWorld state_of) }
{
    World::format(alloc, new_disk(alloc)?, net_id()?, SLOTS)
}

// The outcome of a step that has one event.
#[derive(Clone, Copy)]
enum Came {
    // The event had an answer, right or not.
    Answered(bool),
    // The event was refused: only its moment counts.
    UsedUp(Refusal),
    // The step was refused.
    Refused(Refusal),
}

impl Came {
    fn of_turn(turn: &Turn) -> Self {
        turn.refused.map_or(Came::Answered(true), Came::UsedUp)
    }

    fn of(answers: &[Answer]) -> Self {
        match answers {
            [Answer::Turns { turns, fault: None }] => match turns.as_slice() {
                [turn] => Came::of_turn(&turn.turn),
                _ => Came::Answered(false),
            },
            [Answer::Turn { turn, .. }] => Came::of_turn(turn),
            [Answer::Refused(refusal)] => Came::Refused(*refusal),
            _ => Came::Answered(false),
        }
    }

    // Whether the answer to the event was right, or its refusal.
    fn is_due(self) -> Result<bool, Refusal> {
        match self {
            Came::Answered(is_due) => Ok(is_due),
            Came::UsedUp(refusal) | Came::Refused(refusal) => Err(refusal),
        }
    }
}

// Whether nothing was refused.
fn went_well(answers: &[Answer]) -> bool {
    for answer in answers {
        match answer {
            Answer::Turn { turn, .. } if turn.refused.is_some() => return false,
            Answer::Refused(_) => return false,
            _ => {}
        }
    }
    true
}

// The outcome of a step.
fn step(alloc: Global, world: &mut World<MemDisk>, last: &[Step]) -> Came
    requires { IsSoundWorld state_of world.old }
    ensures { IsSoundWorld state_of world.new }
{
    match run(world, alloc, last) {
        Ok(answers) => Came::of(&answers),
        Err(refusal) => Came::Refused(refusal),
    }
}

// Takes some steps, and then a last one. If that was refused because memory ran out, it is taken
// once more; if its event was used up, the step with a copy of the event is taken.
fn stepped(
    alloc: Global,
    before: &[Step],
    last: &[Step],
    anew: &[Step],
) -> Result<Attempt, Refusal> {
    let mut world = new_world(alloc)?;
    let is_ready = match run(&mut world, alloc, before) {
        Ok(answers) => went_well(&answers),
        Err(_) => false,
    };
    let told = match step(alloc, &mut world, last) {
        Came::Answered(is_due) => Attempt::at_once(is_due),
        Came::UsedUp(_) => Attempt::again(true, &step(alloc, &mut world, anew).is_due()),
        Came::Refused(_) => Attempt::again(true, &step(alloc, &mut world, last).is_due()),
    };
    let _ = world.close();
    if is_ready {
        Ok(told)
    } else {
        Err(Refusal::OutOfMemory)
    }
}

// The greeting of a gateway, and its copy in two parts.
const GREETING: &str = "00090000000000000000B1";

const FIRST: &str = "00270100000000000000B133BE27A005FFECFFA10000C35040F17DBE";

const REST: &str = "4900020001954378762B11FF0D";

fn piece(alloc: Global, parts: &[&str]) -> Result<Vec<Step>, Refusal> {
    let mut bytes = Vec::new(alloc);
    for digits in parts {
        bytes.extend_from_slice(&read_hex(alloc, digits)?)?;
    }
    let mut steps = Vec::new(alloc);
    steps.push(Step::Piece {
        link: 1,
        moment: moment(0)?,
        bytes,
    })?;
    Ok(steps)
}

/// A piece of a link completes a gateway's copy.
pub fn of_piece(alloc: Global) -> Result<Attempt, Refusal> {
    let before = piece(alloc, &[GREETING, FIRST])?;
    let (last, anew) = (piece(alloc, &[REST])?, piece(alloc, &[FIRST, REST])?);
    stepped(alloc, &before, &last, &anew)
}

// How a gateway hears each frame.
const HEARD: Reception = Reception {
    gateway: Eui(0xB1),
    frequency: 868_100_000,
    data_rate: 5,
    snr: -20,
    rssi: -95,
};

// The gateway hears these frames, each of which has two bytes.
fn hearing(alloc: Global, from: u16, to: u16) -> Result<Vec<Step>, Refusal> {
    let mut steps = Vec::with_capacity(alloc, 1024)?;
    for frame in from..to {
        steps.push(Step::Event {
            moment: moment(0)?,
            event: Event::Hear(FrameCopy::new(alloc, HEARD, 50_000, &frame.to_be_bytes())?),
        })?;
    }
    Ok(steps)
}

/// A copy opens the last window that is allowed.
pub fn of_last_window(alloc: Global) -> Result<Attempt, Refusal> {
    let last = hearing(alloc, 1023, 1024)?;
    stepped(alloc, &hearing(alloc, 0, 1023)?, &last, &last)
}
