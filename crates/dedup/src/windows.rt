// The windows that are open, the oldest first.
ghost use Rattle.std.specs.Prelude.{◌≡◌, ◌↔◌, [], drop, false, length, IsTrue, MatchOption};
ghost use Rattle.std.specs.Prelude.{OnErr};
ghost use Rattle.std.specs.List.{list_any};
ghost use Rattle.lw_types.specs.Answer.{Answers};
ghost use Rattle.devices.specs.Heard.{IsReceivable};
ghost use Rattle.dedup.specs.Windows.{windows_with, heard_now, is_of, IsCurrent, IsOldestDue};
ghost use Rattle.dedup.specs.Windows.{NoneDue, oldest_due};
ghost use Rattle.dedup.specs.Kept.{opened_too};

use crate::gatherings::{Gathering, Gatherings};
use crate::{MOST_WINDOWS, WAIT};
use devices::{Heard, Hearing, Hearings};
use lw_types::{FrameCopy, PhyPayload, Refusal};
use std::alloc::Global;
use std::marker::Model;

/// The windows that are open: at most 1,024, each of a different frame. In contracts it is the list
/// of the windows, in the order in which they opened.
pub struct Windows {
    gatherings: Gatherings,
}

// By hand, so that it is proved once: a derived drop is proved again at each use of the type.
impl Drop for Windows {
    fn drop(self) {
        let Self { gatherings: _ } = self;
    }
}

impl Model for Windows {
    ghost use Rattle.std.specs.Prelude.{List};
    ghost use Rattle.dedup.specs.Windows.{Window};
    ghost use Rattle.dedup.specs.Kept.{AreKept};

    ghost Value = { List Window };

    ghost view = { λ w. w.gatherings };

    ghost invariant = { λ w. AreKept w.gatherings };
}

impl Windows {
    /// No windows. Takes no memory.
    pub fn new(alloc: Global) -> Self
        ensures { result ≡ [] }
    {
        Windows {
            gatherings: Gatherings::new(alloc),
        }
    }

    /// Puts a copy that came at the moment `now` into the window of its bytes, or opens one.
    /// Refused as `WindowsFull` if 1,024 windows are open and none has these bytes, as
    /// `SameGateway` if the window has a copy from this gateway, and as `CopiesFull` if it has 32
    /// copies. Each of these is returned whether or not memory is available. If memory runs out,
    /// the refusal is `OutOfMemory`. After an `Err` the windows are unchanged.
    pub fn add(&mut self, now: u64, copy: FrameCopy) -> Result<(), Refusal>
        requires receivable { IsReceivable copy.reception }
        requires current { IsCurrent now self.old }
        ensures added { Answers (windows_with self.old now copy) (λ ws _. self.new ≡ ws) result }
        ensures same { OnErr result (self.new ≡ self.old) }
    {
        let FrameCopy {
            reception,
            stamp,
            phy_payload,
        } = copy;
        let hearing = Hearing { reception, stamp };
        match self.gatherings.position(&phy_payload) {
            Some(index) => self.gatherings.join(index, hearing),
            None => self.open_window(now, phy_payload, hearing),
        }
    }

    /// The oldest window, if it is due: the frame's bytes, and how it was heard. `None` if no
    /// window is due. Takes no memory.
    pub fn due(&self, now: u64) -> Option<(&PhyPayload, &Hearings)>
        ensures { MatchOption result (NoneDue now self.now)
            (λ r. IsOldestDue now self.now (heard_now r.0.now r.1.now) (drop 1 self.now)) }
    {
        let (phy_payload, gathering) = self.gatherings.first()?;
        if now.saturating_sub(gathering.opened) < WAIT {
            return None;
        }
        Some((phy_payload, &gathering.hearings))
    }

    /// Takes the oldest window out, if it is due, and returns what was heard in it. If no window is
    /// due, returns `None` and changes nothing. Takes no memory, and constant time on average.
    pub fn close(&mut self, now: u64) -> Option<Heard>
        ensures { MatchOption result ((self.new ≡ self.old) × NoneDue now self.old)
            (λ heard. IsOldestDue now self.old heard self.new) }
    {
        if self.due(now).is_none() {
            return None;
        }
        let (phy_payload, gathering) = self.gatherings.pop_first()?;
        let Gathering {
            opened: _,
            hearings,
        } = gathering;
        Some(Heard {
            phy_payload,
            hearings,
        })
    }

    /// The moment at which the oldest window is due, 200 ms after it opened. `None` if no window is
    /// open, or if that moment is past 2^64 - 1. Takes no memory.
    pub fn next_due(&self) -> Option<u64>
        ensures { result ≡ oldest_due self.now }
    {
        let (_, gathering) = self.gatherings.first()?;
        gathering.opened.checked_add(WAIT)
    }

    /// The number of open windows.
    pub fn len(&self) -> usize
        ensures { result ≡ length self.now }
    {
        self.gatherings.len()
    }

    /// Whether no window is open.
    pub fn is_empty(&self) -> bool
        ensures { IsTrue result ↔ (self.now ≡ []) }
    {
        self.gatherings.is_empty()
    }

    // Opens a window of these bytes, which have none yet, at the end.
    fn open_window(
        &mut self,
        now: u64,
        phy_payload: PhyPayload,
        hearing: Hearing,
    ) -> Result<(), Refusal>
        requires receivable { IsReceivable hearing.reception }
        requires current { IsCurrent now self.old }
        requires none { list_any (is_of phy_payload) self.old ≡ false }
        ensures opened { Answers (opened_too self.old now phy_payload hearing)
            (λ ws _. self.new ≡ ws) result }
        ensures same { OnErr result (self.new ≡ self.old) }
    {
        if self.gatherings.len() >= MOST_WINDOWS {
            return Err(Refusal::WindowsFull);
        }
        let hearings = Hearings::of(self.gatherings.allocator(), hearing)?;
        let gathering = Gathering {
            opened: now,
            hearings,
        };
        self.gatherings.push(phy_payload, gathering)?;
        Ok(())
    }
}
