// The windows in which copies gather, computed anew from all copies that were accepted.
ghost use Rattle.std.specs.Prelude.{◌≡◌, ◌++◌, ◌∷◌, ℕ, suc, filter, map, not, IfOk};
ghost use Rattle.std.specs.Result.{result_err};
ghost use Rattle.devices.specs.Heard.{has_gateway, with_hearing};
ghost use Rattle.dedup.specs.Groups.{arrival, first_groups, groups, is_in_group};
ghost use Rattle.dedup.specs.Windows.{windows_with, window_of_group, hearing_of, is_due};
ghost use Rattle.world.specs.Course.{window_command};

use dedup::{MOST_WINDOWS, WAIT};
use devices::{Command, Heard, Hearing, Hearings};
use lw_types::{FrameCopy, PhyPayload, Refusal};
use std::alloc::{AllocError, Global};
use std::marker::Model;

/// A copy that was accepted, and the effective time at which it came.
#[derive(Drop)]
pub struct PlainArrival {
    at: u64,
    copy: FrameCopy,
}

impl Model for PlainArrival {
    ghost use Rattle.dedup.specs.Groups.{Arrival, arrival};

    ghost Value = { Arrival };

    ghost view = { λ a. arrival a.at a.copy };

    ghost inverse = { λ a. record { at = a.at; copy = a.copy } };
}

impl Clone for PlainArrival {
    ghost is_clone = { λ s t. t ≡ s };

    fn clone(&self) -> Result<Self, AllocError> {
        Ok(PlainArrival {
            at: self.at,
            copy: self.copy.clone()?,
        })
    }
}

impl PlainArrival {
    /// This copy came at this effective time.
    pub fn new(at: u64, copy: FrameCopy) -> Self
        ensures { result ≡ arrival at copy }
    {
        PlainArrival { at, copy }
    }

    // Whether it came within the wait of this first copy, with the same bytes.
    fn joins(&self, first: &PlainArrival) -> bool
        ensures { result ≡ is_in_group first.now self.now }
    {
        self.at.saturating_sub(first.at) < WAIT && self.copy.phy_payload == first.copy.phy_payload
    }

    // How its gateway heard the frame.
    fn hearing(&self) -> Hearing
        ensures { result ≡ hearing_of self.now.copy }
    {
        Hearing {
            reception: self.copy.reception,
            stamp: self.copy.stamp,
        }
    }
}

/// A frame's copies, and the time of the first.
#[derive(Drop)]
pub struct PlainWindow {
    opened: u64,
    phy_payload: PhyPayload,
    hearings: Vec<Hearing>,
}

impl Model for PlainWindow {
    ghost use Rattle.dedup.specs.Windows.{Window};

    ghost Value = { Window };

    ghost view = { λ w. record {
      opened = w.opened;
      phy_payload = w.phy_payload;
      hearings = w.hearings.items;
    } };
}

impl PlainWindow {
    // The window of a first copy and of those that joined it.
    fn of(alloc: Global, first: &PlainArrival, joined: &[PlainArrival]) -> Result<Self, Refusal>
        ensures { IfOk result (λ window. window ≡ window_of_group (first.now ∷ joined.now)) }
    {
        let mut hearings = Vec::new(alloc);
        hearings.push(first.hearing())?;
        for arrival in joined {
            hearings.push(arrival.hearing())?;
        }
        Ok(PlainWindow {
            opened: first.at,
            phy_payload: first.copy.phy_payload.clone()?,
            hearings,
        })
    }

    // Whether its wait is over.
    fn is_due(&self, clock: u64) -> bool
        ensures { result ≡ is_due clock self.now }
    {
        clock.saturating_sub(self.opened) >= WAIT
    }

    // What was heard in it, as a command.
    fn command(&self) -> Result<Command, Refusal>
        ensures { IfOk result (λ command. command ≡ window_command self.now) }
    {
        let hearings = Hearings::new(self.hearings.clone()?).ok_or(Refusal::OutOfMemory)?;
        Ok(Command::Heard(Heard {
            phy_payload: self.phy_payload.clone()?,
            hearings,
        }))
    }

    // Why it refuses one more copy, if it does.
    fn refusal(&self, copy: &FrameCopy) -> Option<Refusal>
        ensures { result ≡ result_err (with_hearing self.now.hearings (hearing_of copy.now)) }
    {
        if has_gateway(&self.hearings, copy.reception.gateway.0) {
            return Some(Refusal::SameGateway);
        }
        if self.hearings.len() >= Hearings::MOST {
            return Some(Refusal::CopiesFull);
        }
        None
    }
}

// Whether a copy is of this gateway.
fn has_gateway(hearings: &[Hearing], gateway: u64) -> bool
    ensures { result ≡ has_gateway hearings.now gateway }
{
    hearings
        .iter()
        .any(|hearing| hearing.reception.gateway.0 == gateway)
}

/// The windows in which these copies gathered: that of the first copy and of all that join it, and
/// so on with the others.
pub fn course_windows(alloc: Global, arrivals: &[PlainArrival]) -> Result<Vec<PlainWindow>, Refusal>
    ensures { IfOk result (λ windows. windows.items ≡ map window_of_group (groups arrivals.now)) }
{
    let mut windows = Vec::new(alloc);
    let mut others = arrivals.to_vec(alloc)?;
    for _round in 0..arrivals.len() {
        others = gather_first(alloc, &others, &mut windows)?;
    }
    Ok(windows)
}

// Adds the window of the first copy, and returns the copies that didn't join it.
fn gather_first(
    alloc: Global,
    arrivals: &[PlainArrival],
    windows: &mut Vec<PlainWindow>,
) -> Result<Vec<PlainArrival>, Refusal>
    ensures { (n : ℕ) → IfOk result
        (λ others. windows.old.items ++ map window_of_group (first_groups (suc n) arrivals.now)
        ≡ windows.new.items ++ map window_of_group (first_groups n others.items)) }
{
    match arrivals.split_first() {
        None => Ok(Vec::new(alloc)),
        Some((first, rest)) => {
            let (joined, others) = part(alloc, first, rest)?;
            windows.push(PlainWindow::of(alloc, first, &joined)?)?;
            Ok(others)
        }
    }
}

// The copies that join this first one, and the others.
fn part(
    alloc: Global,
    first: &PlainArrival,
    rest: &[PlainArrival],
) -> Result<(Vec<PlainArrival>, Vec<PlainArrival>), Refusal>
    ensures joined { IfOk result
        (λ parts. parts.0.items ≡ filter (is_in_group first.now) rest.now) }
    ensures others { IfOk result
        (λ parts. parts.1.items ≡ filter (λ a. not (is_in_group first.now a)) rest.now) }
{
    let mut joined = Vec::new(alloc);
    let mut others = Vec::new(alloc);
    for arrival in rest {
        if arrival.joins(first) {
            joined.push(arrival.clone()?)?;
        } else {
            others.push(arrival.clone()?)?;
        }
    }
    Ok((joined, others))
}

/// The frames of those windows that are due, as commands.
pub fn due_frames(
    alloc: Global,
    windows: &[PlainWindow],
    clock: u64,
) -> Result<Vec<Command>, Refusal>
    ensures { IfOk result (λ frames. frames.items
        ≡ map window_command (filter (is_due clock) windows.now)) }
{
    let mut frames = Vec::new(alloc);
    for window in windows {
        if window.is_due(clock) {
            frames.push(window.command()?)?;
        }
    }
    Ok(frames)
}

/// Why these windows refuse a copy, if they do: the window of its bytes refuses it, or no such
/// window exists and there is no room for one.
pub fn refusal_by(windows: &[PlainWindow], copy: &FrameCopy) -> Option<Refusal>
    ensures { (now : ℕ) → result ≡ result_err (windows_with windows.now now copy.now) }
{
    for window in windows {
        if copy.phy_payload == window.phy_payload {
            return window.refusal(copy);
        }
    }
    if windows.len() >= MOST_WINDOWS {
        return Some(Refusal::WindowsFull);
    }
    None
}
