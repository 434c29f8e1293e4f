// Sending events to operators who watch.
ghost use Rattle.std.specs.Prelude.{◌≡◌, IfErr};
ghost use Rattle.lw_types.specs.declared.refusal.Refusal.TheVariants.{OutOfMemory};

use crate::Sight;
use lw_types::Refusal;
use std::alloc::{AllocError, Global};
use std::mem;
use std::sync::atomic::AtomicU64;
use std::sync::atomic::Ordering::SeqCst;
use std::sync::{Mutex, Wait};
use std::thread::Parker;
use std::time::Duration;

/// The most operators who watch at a time.
pub const MOST_WATCHERS: usize = 4;

// The most lines that wait for an operator; further lines are left out.
const MOST_WAITING: u64 = 1024;

// The longest wait for lines, in seconds. After that the attendant checks whether the operator is
// still connected.
const LONGEST_WAIT: u64 = 1;

/// The lines that wait for an operator, their number, and how many lines after them were left out.
#[derive(Drop)]
pub struct Waiting {
    text: String,
    lines: u64,
    left_out: u64,
}

// A place for one operator who watches.
#[derive(Drop)]
struct Lookout {
    // `None` if the place is free.
    waiting: Mutex<Option<Waiting>>,
    // Wakes the attendant of the operator in this place.
    bell: Parker,
}

/// The places for operators who watch.
#[derive(Drop)]
pub struct Watch {
    alloc: Global,
    watchers: AtomicU64,
    lookouts: Vec<Lookout>,
}

impl Watch {
    /// Places without operators.
    pub fn new(alloc: Global) -> Result<Self, Refusal>
        ensures { IfErr result (λ e. e ≡ OutOfMemory) }
    {
        let mut lookouts = Vec::new(alloc);
        for _number in 0..MOST_WATCHERS {
            lookouts.push(Lookout {
                waiting: Mutex::new(None),
                bell: Parker::new(),
            })?;
        }
        Ok(Watch {
            alloc,
            watchers: AtomicU64::new(0),
            lookouts,
        })
    }

    /// Whether somebody watches.
    pub fn is_watched(&self) -> bool {
        self.watchers.load(SeqCst) > 0
    }

    /// Sends an event to each operator who watches. It never waits for an operator to read, and
    /// does nothing while nobody watches.
    pub fn tell<R: Wait>(&self, rt: &R, sight: Sight) {
        if self.is_watched() {
            self.add(rt, &told_line(self.alloc, sight));
        }
    }

    /// Has each operator who watches hear that there was no memory for a line. It does nothing
    /// while nobody watches.
    pub fn leave_out<R: Wait>(&self, rt: &R) {
        if self.is_watched() {
            self.add(rt, &Err(AllocError));
        }
    }

    // Adds a line to those that wait for each operator who watches.
    fn add<R: Wait>(&self, rt: &R, line: &Result<String, AllocError>) {
        for lookout in &self.lookouts {
            if let Some(waiting) = lookout.waiting.lock(rt).as_mut() {
                waiting.add(line);
            }
            lookout.bell.unpark();
        }
    }

    /// Gives an operator a place, and returns its number; `None` if all places are taken.
    pub fn enter<R: Wait>(&self, rt: &R) -> Option<usize> {
        for (number, lookout) in self.lookouts.iter().enumerate() {
            let mut waiting = lookout.waiting.lock(rt);
            if waiting.is_none() {
                *waiting = Some(Waiting::new(self.alloc));
                self.watchers.fetch_add(1, SeqCst);
                return Some(number);
            }
        }
        None
    }

    /// Takes the lines that wait in a place.
    pub fn take<R: Wait>(&self, rt: &R, number: usize) -> Option<Waiting> {
        let lookout = self.lookouts.get(number)?;
        let mut waiting = lookout.waiting.lock(rt);
        Some(mem::replace(waiting.as_mut()?, Waiting::new(self.alloc)))
    }

    /// Waits in a place until lines may have come, for at most a second.
    pub fn wait<R: Wait>(&self, rt: &R, number: usize) {
        if let Some(lookout) = self.lookouts.get(number) {
            let longest = Duration::from_secs(LONGEST_WAIT);
            lookout.bell.park_timeout(rt, longest);
        }
    }

    /// Frees a place.
    pub fn leave<R: Wait>(&self, rt: &R, number: usize) {
        if let Some(lookout) = self.lookouts.get(number) {
            *lookout.waiting.lock(rt) = None;
            self.watchers.fetch_sub(1, SeqCst);
        }
    }

    /// Wakes each waiting attendant to check again.
    pub fn ring(&self) {
        for lookout in &self.lookouts {
            lookout.bell.unpark();
        }
    }
}

// The line of the event, with its newline; `Err` if memory runs out.
fn told_line(alloc: Global, sight: Sight) -> Result<String, AllocError> {
    let mut line = sight.line(alloc)?;
    line.push_str("\n")?;
    Ok(line)
}

impl Waiting {
    fn new(alloc: Global) -> Self {
        Waiting {
            text: String::new(alloc),
            lines: 0,
            left_out: 0,
        }
    }

    /// Whether nothing waits.
    pub fn is_empty(&self) -> bool {
        self.lines == 0 && self.left_out == 0
    }

    // Adds a line. It is left out if there is no room or no memory, or if an earlier one was left
    // out.
    fn add(&mut self, line: &Result<String, AllocError>) {
        if self.left_out == 0 && self.lines < MOST_WAITING {
            if let Ok(line) = line {
                if self.text.push_str(line.as_str()).is_ok() {
                    self.lines += 1;
                    return;
                }
            }
        }
        self.left_out = self.left_out.saturating_add(1);
    }

    /// The lines, each with a newline; the last one says how many were left out.
    pub fn into_text(self, alloc: Global) -> Result<String, Refusal> {
        let Waiting {
            text,
            lines: _,
            left_out,
        } = self;
        let mut text = text;
        if left_out > 0 {
            let line = format!(in alloc; "left_out {left_out}\n")?;
            text.push_str(line.as_str())?;
        }
        Ok(text)
    }
}
