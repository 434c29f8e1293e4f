// What is handed in through a lock, by the call of its kind or by the one call for all events, is
// answered, decided and noted as by a core that one thread has.
ghost use Rattle.std.specs.Prelude.{◌≡◌};

use crate::asked::{
    JOINER, REQUEST, STRANGE, UPLINK, application, copy, item, mac_command, moment, new_core,
    provisioning,
};
use devices::{Command, Item};
use lw_types::{Eui, Refusal};
use session_core::{
    BlankHistory, Books, CallKind, ClosedFrame, Core, Event, Handled, LastCall, Moment, Most,
    Outcome, Seat, Sessions, Shared, Taker, Turn,
};
use sessions::{Batch, Decision};
use std::alloc::Global;
use std::marker::Brand;
use std::sync::ledger::Blank;
use std::sync::{Mutex, Wait};

// What comes.
#[derive(Clone, Copy)]
enum Comes {
    Provision(u64),
    /// An item for a device, under a tag.
    Queue(u64, u32),
    Mac(u64),
    /// A gateway's copy of a frame, at a frequency in Hz.
    Hear(u64, u32, &'static str),
    Tick,
}

// At a moment this comes: the decisions made before and after it in this life, and the refusal; and
// if there is a decision, the tags of the items in the record that it found.
type Row = (u64, Comes, (u64, u64, Option<Refusal>), &'static [u32]);

const CHANNEL: u32 = 868_100_000;

// A device is provisioned, once; items are queued for it, the second after the first; and MAC
// commands. It joins. Its first uplink is heard at 0, 199 and 200 ms: the third copy opens a window
// of its own, and is a repeat. (The outcomes show that.)
const DEVICE: &[Row] = &[
    (0, Comes::Provision(JOINER), (0, 1, None), &[]),
    (
        0,
        Comes::Provision(JOINER),
        (1, 1, Some(Refusal::DevEuiTaken)),
        &[],
    ),
    (0, Comes::Queue(JOINER, 9), (1, 2, None), &[]),
    (0, Comes::Queue(JOINER, 10), (2, 3, None), &[9]),
    (0, Comes::Mac(JOINER), (3, 4, None), &[9, 10]),
    (0, Comes::Mac(5), (4, 4, Some(Refusal::UnknownDevEui)), &[]),
    (1000, Comes::Hear(0xB1, CHANNEL, REQUEST), (4, 4, None), &[]),
    (1200, Comes::Tick, (4, 5, None), &[9, 10]),
    (9000, Comes::Hear(0xB1, CHANNEL, UPLINK), (5, 5, None), &[]),
    (9199, Comes::Hear(0xB2, CHANNEL, UPLINK), (5, 5, None), &[]),
    (
        9199,
        Comes::Hear(0xB2, CHANNEL, UPLINK),
        (5, 5, Some(Refusal::SameGateway)),
        &[],
    ),
    (
        9200,
        Comes::Hear(0xB3, CHANNEL, UPLINK),
        (5, 6, None),
        &[9, 10],
    ),
    (9400, Comes::Tick, (6, 6, None), &[]),
    (100, Comes::Tick, (6, 6, None), &[]),
];

// A frame of no device. What comes with an earlier moment comes at the latest one so far; what is
// heard on no channel is refused once the window is closed, and the next copy opens another.
const WINDOWS: &[Row] = &[
    (0, Comes::Hear(0xB1, CHANNEL, STRANGE), (0, 0, None), &[]),
    (199, Comes::Hear(0xB2, CHANNEL, STRANGE), (0, 0, None), &[]),
    (
        199,
        Comes::Hear(0xB1, CHANNEL, STRANGE),
        (0, 0, Some(Refusal::SameGateway)),
        &[],
    ),
    (100, Comes::Hear(0xB3, CHANNEL, STRANGE), (0, 0, None), &[]),
    (
        200,
        Comes::Hear(0xB1, 868_200_000, STRANGE),
        (0, 0, Some(Refusal::UnknownChannel)),
        &[],
    ),
    (200, Comes::Hear(0xB1, CHANNEL, STRANGE), (0, 0, None), &[]),
    (400, Comes::Tick, (0, 0, None), &[]),
];

// The rows, the outcome of their commands, and the number of decisions.
fn script_of(script: u8) -> (&'static [Row], &'static [Outcome], u64) {
    match script {
        0 => (DEVICE, DECIDED, 6),
        _ => (WINDOWS, CLOSED, 0),
    }
}

const DECIDED: &[Outcome] = &[
    Outcome::Decided(1),
    Outcome::Refused(Refusal::DevEuiTaken),
    Outcome::Decided(2),
    Outcome::Decided(3),
    Outcome::Decided(4),
    Outcome::Refused(Refusal::UnknownDevEui),
    Outcome::Decided(5),
    Outcome::Decided(6),
    Outcome::Refused(Refusal::Repeat),
];

const CLOSED: &[Outcome] = &[
    Outcome::Refused(Refusal::UnknownDevAddr),
    Outcome::Refused(Refusal::UnknownDevAddr),
];

fn answer(alloc: Global, core: &mut Core, at: Moment, comes: &Comes) -> Result<Turn, Refusal> {
    match comes {
        Comes::Provision(dev_eui) => Ok(core.provision(at, provisioning(*dev_eui)?)),
        Comes::Queue(dev_eui, tag) => Ok(core.queue(at, item(alloc, *dev_eui, *tag)?)),
        Comes::Mac(dev_eui) => Ok(core.queue_mac(at, mac_command(alloc, *dev_eui)?)),
        Comes::Hear(gateway, frequency, digits) => {
            Ok(core.hear(at, copy(alloc, *gateway, *frequency, digits)?))
        }
        Comes::Tick => Ok(core.tick(at)),
    }
}

// By the call of its kind.
fn locked_answer<B: Books, R: Wait>(
    rt: &R,
    alloc: Global,
    sessions: &Mutex<Shared<B>>,
    seat: &mut Seat<B>,
    at: Moment,
    comes: &Comes,
) -> Result<Turn, Refusal> {
    match comes {
        Comes::Provision(dev_eui) => Ok(sessions.provision(rt, seat, at, provisioning(*dev_eui)?)),
        Comes::Queue(dev_eui, tag) => Ok(sessions.queue(
            rt,
            seat,
            at,
            item(alloc, *dev_eui, *tag)?,
        )),
        Comes::Mac(dev_eui) => Ok(sessions.queue_mac(rt, seat, at, mac_command(alloc, *dev_eui)?)),
        Comes::Hear(gateway, frequency, digits) => {
            Ok(sessions.hear(rt, seat, at, copy(alloc, *gateway, *frequency, digits)?))
        }
        Comes::Tick => Ok(sessions.tick(rt, seat, at)),
    }
}

fn event_of(alloc: Global, comes: &Comes) -> Result<Event, Refusal> {
    Ok(match comes {
        Comes::Provision(dev_eui) => Event::Ask(Command::Provision(provisioning(*dev_eui)?)),
        Comes::Queue(dev_eui, tag) => Event::Ask(Command::Queue(item(alloc, *dev_eui, *tag)?)),
        Comes::Mac(dev_eui) => Event::Ask(Command::QueueMac(mac_command(alloc, *dev_eui)?)),
        Comes::Hear(gateway, frequency, digits) => {
            Event::Hear(copy(alloc, *gateway, *frequency, digits)?)
        }
        Comes::Tick => Event::Tick,
    })
}

fn call_kind_of(comes: &Comes) -> Result<CallKind, Refusal> {
    Ok(match comes {
        Comes::Provision(_) | Comes::Queue(..) | Comes::Mac(_) => CallKind::Asked(application()?),
        Comes::Hear(gateway, ..) => CallKind::Heard(Eui(*gateway)),
        Comes::Tick => CallKind::Ticked,
    })
}

// Whether the history has each decision so far, and observers are given this number of frames, of
// which none was decided if the turn made no decision.
fn shows_all<B: Books>(handled: &Handled<B>, closings: usize) -> bool {
    let made = match &handled.history {
        Some(history) => history.len(),
        None => return false,
    };
    let mut all = made == handled.turn.to && handled.closed.len() == closings;
    let is_any_made = handled.turn.from < handled.turn.to;
    for frame in &handled.closed {
        all = all && (is_any_made || matches!(frame, ClosedFrame::Refused { .. }));
    }
    all && !handled.lacks_frames
}

// Whether two batches have the same decisions.
fn are_same(a: &Batch, b: &Batch) -> bool {
    let mut same = a.len() == b.len();
    for (one, other) in a.as_slice().iter().zip(b.as_slice()) {
        same = same && is_same(one, other);
    }
    same
}

fn is_same(a: &Decision, b: &Decision) -> bool {
    let before = match (&a.before, &b.before) {
        (None, None) => true,
        (Some(one), Some(other)) => one.same_as(other),
        _ => false,
    };
    let effects = a.effects.as_slice() == b.effects.as_slice();
    before && effects && a.seq == b.seq && a.slot == b.slot && a.after.same_as(&b.after)
}

// Whether the first decision, if there is one, found items of these tags, in order.
fn found(batch: &Batch, tags: &[u32]) -> bool {
    match batch.as_slice().first() {
        Some(decision) => found_by(decision, tags),
        None => tags.is_empty(),
    }
}

fn found_by(decision: &Decision, tags: &[u32]) -> bool {
    match &decision.before {
        Some(device) => are_tagged(device.items.as_slice(), tags),
        None => tags.is_empty(),
    }
}

fn are_tagged(items: &[Item], tags: &[u32]) -> bool {
    let mut same = items.len() == tags.len();
    for (item, tag) in items.iter().zip(tags) {
        same = same && item.tag.0 == *tag;
    }
    same
}

// A life of a core and one with a lock, with one seat.
#[derive(Drop)]
struct Lives<'a, B: Books> {
    alloc: Global,
    core: &'a mut Core,
    sessions: &'a Mutex<Shared<B>>,
    seat: &'a mut Seat<B>,
    taker: &'a mut Taker<B>,
    // Whether the one call for all events is used.
    handles: bool,
}

impl<B: Books> Lives<'_, B> {
    // The answer through the lock, if not both answers are the row's, or if the two don't agree on
    // moments and numbers then, or the seat has another last call, or not one call more.
    fn fault<R: Wait>(&mut self, rt: &R, row: &Row) -> Result<Option<String>, Refusal> {
        let (at, comes, wanted, _) = row;
        let at = moment(*at)?;
        let calls = self.seat.calls();
        let plain = answer(self.alloc, self.core, at, comes)?;
        let locked = if self.handles {
            let event = event_of(self.alloc, comes)?;
            let handled = self.sessions.handle(rt, self.seat, at, event);
            if !shows_all(&handled, self.core.closings()) {
                let closed = handled.closed.len();
                return Ok(Some(format!(in self.alloc; "{closed} frames, or no history")?));
            }
            handled.turn
        } else {
            locked_answer(rt, self.alloc, self.sessions, self.seat, at, comes)?
        };
        let told = (locked.from, locked.to, locked.refused);
        let moments = self.sessions.effective_time(rt) == self.core.effective_time()
            && self.sessions.next_due(rt) == self.core.next_due();
        let made = self.sessions.made(rt) == locked.to;
        let last = LastCall {
            moment: at,
            kind: call_kind_of(comes)?,
            refused: wanted.2,
        };
        let once = self.seat.calls() == calls.saturating_add(1);
        let kept = once && self.seat.last() == Some(last);
        if moments && made && kept && plain == locked && told == *wanted {
            return Ok(None);
        }
        let (from, to, refused) = told;
        Ok(Some(format!(in self.alloc; "{from} {to} {refused:?}")?))
    }

    // What both return, at most 64 decisions, if they return the same.
    fn take<R: Wait>(&mut self, rt: &R) -> Result<Option<Batch>, Refusal> {
        let most = Most::new(64).ok_or(Refusal::Damaged)?;
        let decided = self.core.take(most)?;
        let same = are_same(&decided, &self.sessions.take(rt, self.taker, most)?);
        Ok(if same { Some(decided) } else { None })
    }

    // Whether both return the same, and the first decision of it found items of these tags.
    fn gives<R: Wait>(&mut self, rt: &R, tags: &[u32]) -> Result<bool, Refusal> {
        match self.take(rt)? {
            Some(batch) => Ok(found(&batch, tags)),
            None => Ok(false),
        }
    }

    // What differs, one line for each row, if the decisions are taken after each row, or after the
    // last.
    fn wrong<R: Wait>(&mut self, rt: &R, rows: &[Row], each: bool) -> Result<String, Refusal> {
        let mut wrong = String::new(self.alloc);
        for (number, row) in rows.iter().enumerate() {
            if let Some(got) = self.fault(rt, row)? {
                wrong.push_str(&format!(in self.alloc; "\nrow {number}: got {got}")?)?;
            }
            if each && !self.gives(rt, row.3)? {
                wrong.push_str(&format!(in self.alloc; "\nrow {number}: other decisions")?)?;
            }
        }
        if self.take(rt)?.is_none() {
            wrong.push_str("\nother decisions at the end")?;
        }
        Ok(wrong)
    }

    // The outcome of the commands, if both have the same; and the number of decisions of each
    // share.
    fn end<R: Wait>(&self, rt: &R, wanted: &[Outcome], shares: u64) -> Result<bool, Refusal> {
        let outcomes = self.sessions.outcomes(rt, self.alloc)?;
        let noted = self.core.outcomes().to_vec(self.alloc)?;
        let same = noted.as_slice() == wanted && outcomes.as_slice() == wanted;
        Ok(same && (self.seat.share(), self.taker.share()) == (shares, shares))
    }
}

fn plays<B: Books, R: Wait>(
    rt: &R,
    alloc: Global,
    cores: (Core, Core),
    made: Blank,
    taken: Blank,
    history: BlankHistory,
    script: u8,
    each: bool,
) -> Result<String, Refusal>
    requires new { (cores.1.decisions.made ≡ 0) × (cores.1.decisions.taken ≡ 0) }
    requires made { (made.name ≡ B.made_name) × (made.parts ≡ B.made_parts) × (made.parts ≡ 1) }
    requires taken { (taken.name ≡ B.taken_name) × (taken.parts ≡ 1) }
    requires history { history.seen.book ≡ B.history }
{
    let (mut core, locked) = cores;
    let (mut shared, mut taker) = Shared::<B>::new(locked, 1, made, taken, history);
    let mut seat = shared.seat();
    shared.observe();
    let sessions = Mutex::new(shared);
    let mut lives = Lives {
        alloc,
        core: &mut core,
        sessions: &sessions,
        seat: &mut seat,
        taker: &mut taker,
        handles: !each,
    };
    let (rows, outcomes, shares) = script_of(script);
    let mut wrong = lives.wrong(rt, rows, each)?;
    if !lives.end(rt, outcomes, shares)? {
        wrong.push_str("\nother outcomes, or shares")?;
    }
    Ok(wrong)
}

// A life with one seat: what is wrong in it.
fn plays_alone<R: Wait>(rt: &R, alloc: Global, script: u8, each: bool) -> Result<String, Refusal> {
    let cores = (new_core(alloc, 8)?, new_core(alloc, 8)?);
    let (made, taken) = (Blank::new(1), Blank::new(1));
    let history = BlankHistory::new();
    plays::<Brand, R>(rt, alloc, cores, made, taken, history, script, each)
}

#[test]
fn a_lock_answers_as_a_core(rt: HostRuntime) {
    for (script, each) in [(0, true), (0, false), (1, true), (1, false)] {
        let wrong = plays_alone(&rt, rt.alloc(), script, each).expect(&rt, "memory");
        assert!(rt;
            wrong.is_empty(),
            "locked_tests.rt, script {script}, {each}:{wrong}"
        );
    }
}
