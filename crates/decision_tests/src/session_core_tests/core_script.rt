//! A core, what comes to it, and what has to be seen of it.
use crate::fixture::{FIRST_UPLINK, REQUEST_0, frame, hearing};
use crate::network::Comes;
use crate::tables::new_table;
use devices::{Command, Effect};
use lw_types::{FrameCopy, Refusal};
use session_core::{Core, Moment, Most, Outcome, Turn};
use sessions::Decision;
use std::alloc::Global;

// A data frame of a device that is in no table here.
const FRAME: &str = "40F17DBE4900020001954378762B11FF0D";

/// A frequency that is a channel, in Hz.
const CHANNEL: u32 = 868_100_000;

/// What comes to a core.
#[derive(Clone, Copy)]
pub(super) enum Event {
    /// A command.
    Ask(Comes),
    /// A command, when memory to hand it in is out.
    Starve(Comes),
    /// Any event, when memory is out.
    Miss,
    /// A copy of a frame of no device: from which gateway, and at which frequency and data rate.
    Copy(u64, u32, u8),
    /// A gateway's copy of the joining device's first Join-Request.
    Request(u64),
    /// A gateway's copy of that device's first uplink.
    Uplink(u64),
    /// Only the moment.
    Time,
}

/// The numbers of decisions made in this life before and after an event, and its refusal.
pub(super) type Answer = (u64, u64, Option<Refusal>);

/// What happens to a core, and what has to be seen then.
pub(super) enum Step {
    /// A core begins over a table with this number of slots and no device, whose last decision had
    /// this number.
    Core(u64, u64),
    /// This comes at a moment: its answer, and how many windows it closed.
    At(u64, Event, Answer, usize),
    /// This comes this number of times at moment 0.
    Again(u64, Event, Answer),
    /// Copies of this number of frames come at moment 0, from this number of gateways each: the
    /// refusal of the last one.
    Crowd(u16, u64, Option<Refusal>),
    /// This number of devices are provisioned, with DevEUIs from 0 on, in a core without decisions.
    Fill(u64),
    /// At most this number of decisions are taken. They have the numbers from the second value to
    /// before the third.
    Take(u64, u64, u64),
    /// Batches of 64 decisions are taken, this number of times, with numbers from 1 on.
    Empty(u64),
    /// Three decisions are taken, of which the second is a join that the gateways B1 and B2 heard.
    TakeJoin,
    /// Three decisions are taken, of which the last is an uplink that the gateways B1 and B2 heard.
    TakeUplink,
    /// The number of decisions made, the number of the last one, how many wait, and the number of
    /// devices.
    Counts(u64, u64, usize, usize),
    /// The outcome that has this number of outcomes before it.
    Outcome(usize, Outcome),
    /// The number of outcomes that are kept.
    Outcomes(usize),
    /// The last DevNonce of the device at slot 1.
    DevNonce(Option<u16>),
}

/// The steps that are wrong, one line each: the script, the number of the step, what was wanted,
/// and what came.
pub(super) fn wrong_steps(alloc: Global, name: &str, steps: &[Step]) -> Result<String, Refusal> {
    let mut wrong = String::new(alloc);
    let mut core = new_core(alloc, 1, 0)?;
    for (number, step) in steps.iter().enumerate() {
        if let Some(fault) = fault(alloc, &mut core, step)? {
            let line = format!(in alloc; "\n{name} {number}: {fault}")?;
            wrong.push_str(&line)?;
        }
    }
    Ok(wrong)
}

// What is wanted and what comes, if a step is wrong.
fn fault(alloc: Global, core: &mut Core, step: &Step) -> Result<Option<String>, Refusal> {
    let Step::At(moment, event, wanted, closings) = step else {
        return Ok(if goes_on(alloc, core, step)? {
            None
        } else {
            Some(format!(in alloc; "another state")?)
        });
    };
    let got = answer_at(alloc, core, *moment, event)?;
    let closed = core.closings();
    if (got, closed) == (*wanted, *closings) {
        return Ok(None);
    }
    let wanted = answer_text(alloc, *wanted, *closings)?;
    let got = answer_text(alloc, got, closed)?;
    Ok(Some(format!(in alloc; "wanted {wanted}, got {got}")?))
}

fn answer_text(alloc: Global, answer: Answer, closings: usize) -> Result<String, Refusal> {
    let (from, to, refused) = answer;
    let refused = refused.map_or(0, |refusal| refusal.number());
    Ok(format!(in alloc; "{from} to {to}, refused {refused}, {closings} closed")?)
}

fn new_core(alloc: Global, slots: u64, seq: u64) -> Result<Core, Refusal> {
    let table = new_table(alloc, slots)?;
    Core::new(alloc, &table, seq)
}

fn goes_on(alloc: Global, core: &mut Core, step: &Step) -> Result<bool, Refusal> {
    match step {
        Step::Core(slots, seq) => begin(alloc, core, *slots, *seq),
        Step::At(moment, event, wanted, _) => {
            Ok(answer_at(alloc, core, *moment, event)? == *wanted)
        }
        Step::Again(times, event, wanted) => come_again(alloc, core, *times, event, *wanted),
        Step::Crowd(frames, gateways, refused) => {
            Ok(crowd(alloc, core, *frames, *gateways)? == *refused)
        }
        Step::Fill(devices) => fills(alloc, core, *devices),
        Step::Take(most, from, to) => takes(core, *most, *from, *to),
        Step::Empty(batches) => empties(core, *batches),
        Step::TakeJoin => takes_join(core),
        Step::TakeUplink => takes_uplink(core),
        Step::Counts(made, seq, untaken, devices) => {
            Ok(counts(core) == (*made, *seq, *untaken, *devices))
        }
        Step::Outcome(before, wanted) => Ok(core.outcomes().get(*before).copied() == Some(*wanted)),
        Step::Outcomes(count) => Ok(core.outcomes().len() == *count),
        Step::DevNonce(wanted) => Ok(dev_nonce(core) == *wanted),
    }
}

fn begin(alloc: Global, core: &mut Core, slots: u64, seq: u64) -> Result<bool, Refusal> {
    *core = new_core(alloc, slots, seq)?;
    Ok(true)
}

// The answer to this.
fn answer_at(
    alloc: Global,
    core: &mut Core,
    moment: u64,
    event: &Event,
) -> Result<Answer, Refusal> {
    let moment = Moment::new(moment).ok_or(Refusal::Damaged)?;
    let Turn { from, to, refused } = answer(alloc, core, moment, event)?;
    Ok((from, to, refused))
}

fn answer(alloc: Global, core: &mut Core, moment: Moment, event: &Event) -> Result<Turn, Refusal> {
    match event {
        Event::Ask(comes) => Ok(ask(core, moment, comes.command(alloc)?)),
        Event::Starve(comes) => Ok(core.decide_without_memory(moment, &comes.command(alloc)?)),
        Event::Miss => Ok(core.hear_without_memory(moment)),
        Event::Copy(gateway, frequency, data_rate) => {
            hear(
                alloc,
                core,
                moment,
                (*gateway, *frequency, *data_rate),
                FRAME,
            )
        }
        Event::Request(gateway) => { hear(alloc, core, moment, (*gateway, CHANNEL, 5), REQUEST_0) }
        Event::Uplink(gateway) => {
            hear(alloc, core, moment, (*gateway, CHANNEL, 5), FIRST_UPLINK)
        }
        Event::Time => Ok(core.tick(moment)),
    }
}

// Hands a command in by the call of its kind.
fn ask(core: &mut Core, moment: Moment, command: Command) -> Turn {
    match command {
        Command::Provision(provisioning) => core.provision(moment, provisioning),
        Command::Queue(queueing) => core.queue(moment, queueing),
        Command::QueueMac(queueing) => core.queue_mac(moment, queueing),
        Command::Heard(_) => core.handle(moment, session_core::Event::Ask(command)),
    }
}

// A gateway hears a frame at a frequency and a data rate.
fn hear(
    alloc: Global,
    core: &mut Core,
    moment: Moment,
    heard: (u64, u32, u8),
    digits: &str,
) -> Result<Turn, Refusal> {
    let (gateway, frequency, data_rate) = heard;
    let mut hearing = hearing(gateway);
    hearing.reception.frequency = frequency;
    hearing.reception.data_rate = data_rate;
    let copy = FrameCopy {
        reception: hearing.reception,
        stamp: hearing.stamp,
        phy_payload: frame(alloc, digits)?,
    };
    Ok(core.hear(moment, copy))
}

fn come_again(
    alloc: Global,
    core: &mut Core,
    times: u64,
    event: &Event,
    wanted: Answer,
) -> Result<bool, Refusal> {
    for _ in 0..times {
        if answer_at(alloc, core, 0, event)? != wanted {
            return Ok(false);
        }
    }
    Ok(true)
}

// The frames differ in their counters.
fn crowd(
    alloc: Global,
    core: &mut Core,
    frames: u16,
    gateways: u64,
) -> Result<Option<Refusal>, Refusal> {
    let start = Moment::new(0).ok_or(Refusal::Damaged)?;
    let mut refused = None;
    for frame in 0..frames {
        let [low, high] = frame.to_le_bytes();
        let digits = format!(in alloc; "40F17DBE4900{low:02X}{high:02X}01954378762B11FF0D")?;
        for gateway in 0..gateways {
            refused = hear(alloc, core, start, (gateway, CHANNEL, 5), &digits)?.refused;
        }
    }
    Ok(refused)
}

fn fills(alloc: Global, core: &mut Core, devices: u64) -> Result<bool, Refusal> {
    for made in 0..devices {
        let event = Event::Ask(Comes::Device(made));
        if answer_at(alloc, core, 0, &event)? != (made, made + 1, None) {
            return Ok(false);
        }
    }
    Ok(true)
}

fn takes(core: &mut Core, most: u64, from: u64, to: u64) -> Result<bool, Refusal> {
    let batch = core.take(Most::new(most).ok_or(Refusal::Damaged)?)?;
    Ok(are_numbered(batch.as_slice(), from, to))
}

// Whether decisions have the numbers from one to before another.
fn are_numbered(decisions: &[Decision], from: u64, to: u64) -> bool {
    for (number, decision) in (from..to).zip(decisions) {
        if decision.seq != number {
            return false;
        }
    }
    decisions.len() as u64 == to.saturating_sub(from)
}

fn empties(core: &mut Core, batches: u64) -> Result<bool, Refusal> {
    let mut first: u64 = 1;
    for _ in 0..batches {
        let next = first.saturating_add(64);
        if !takes(core, 64, first, next)? {
            return Ok(false);
        }
        first = next;
    }
    Ok(true)
}

fn takes_join(core: &mut Core) -> Result<bool, Refusal> {
    let batch = core.take(Most::new(64).ok_or(Refusal::Damaged)?)?;
    match batch.as_slice() {
        [_, second, _] => Ok(is_join(second)),
        _ => Ok(false),
    }
}

fn takes_uplink(core: &mut Core) -> Result<bool, Refusal> {
    let batch = core.take(Most::new(64).ok_or(Refusal::Damaged)?)?;
    match batch.as_slice() {
        [_, _, third] => Ok(is_uplink(third)),
        _ => Ok(false),
    }
}

// Whether the decision is of a frame that the gateways B1 and B2 heard, and its one effect forwards
// a payload with that number of copies.
fn is_uplink(decision: &Decision) -> bool {
    let [Effect::Forward { copies, .. }] = decision.effects.as_slice() else {
        return false;
    };
    copies.get() == 2 && is_of_two(decision)
}

// Whether the decision is of a frame that the gateways B1 and B2 heard, and its one effect is an
// accept.
fn is_join(decision: &Decision) -> bool {
    matches!(decision.effects.as_slice(), [Effect::Accept { .. }]) && is_of_two(decision)
}

// Whether the decision is of a frame that the gateways B1 and B2 heard.
fn is_of_two(decision: &Decision) -> bool {
    let copies = [hearing(0xB1), hearing(0xB2)];
    match &decision.command {
        Command::Heard(heard) => heard.hearings.as_slice() == copies.as_slice(),
        _ => false,
    }
}

fn counts(core: &Core) -> (u64, u64, usize, usize) {
    (
        core.made(),
        core.seq(),
        core.untaken(),
        core.now().devices().len(),
    )
}

fn dev_nonce(core: &Core) -> Option<u16> {
    core.now().devices().get(1)?.last_dev_nonce
}
