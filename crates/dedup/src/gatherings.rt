// The copies of the frames whose windows are open, in the order of opening.
ghost use Rattle.std.specs.Prelude.{◌≡◌, ◌<◌, ◌↔◌, ◌++◌, ◌∷◌, [], drop, false, length, position};
ghost use Rattle.std.specs.Prelude.{slice_get, option_map, IsTrue, OnErr, OnOk};
ghost use Rattle.std.specs.List.{list_any};
ghost use Rattle.lw_types.specs.Answer.{Answers};
ghost use Rattle.devices.specs.Heard.{IsReceivable};
ghost use Rattle.dedup.specs.Windows.{is_of};
ghost use Rattle.dedup.specs.Kept.{window_of, joined_at};

use devices::{Hearing, Hearings};
use indexmap::IndexMap;
use lw_types::{PhyPayload, Refusal};
use std::alloc::{AllocFailed, Global};
use std::marker::Model;
use std::mem;

// The copies of a frame so far, and when the first one came.
#[derive(Drop)]
pub(crate) struct Gathering {
    pub(crate) opened: u64,
    pub(crate) hearings: Hearings,
}

// A queue of gatherings, in which a frame's is found by its bytes. In contracts it is the list of
// the windows, the oldest first.
pub(crate) struct Gatherings {
    // The oldest gatherings, in reverse order: the oldest of all is the last, so removing it moves
    // no other.
    older: IndexMap<PhyPayload, Gathering>,
    // The gatherings that opened after all of these, in the order of opening.
    newer: IndexMap<PhyPayload, Gathering>,
}

// By hand, like the drop of `Windows`.
impl Drop for Gatherings {
    fn drop(self) {
        let Self { older: _, newer: _ } = self;
    }
}

impl Model for Gatherings {
    ghost use Rattle.std.specs.Prelude.{List};
    ghost use Rattle.dedup.specs.Windows.{Window};
    ghost use Rattle.dedup.specs.Kept.{windows_of};

    ghost Value = { List Window };

    ghost view = { λ g. windows_of g.older.entries g.newer.entries };
}

impl Gatherings {
    // No gatherings. Takes no memory.
    pub(crate) fn new(alloc: Global) -> Self
        ensures { result ≡ [] }
    {
        Gatherings {
            older: IndexMap::new(alloc),
            newer: IndexMap::new(alloc),
        }
    }

    pub(crate) fn allocator(&self) -> Global {
        *self.newer.allocator()
    }

    pub(crate) fn len(&self) -> usize
        ensures { result ≡ length self.now }
    {
        self.older.len() + self.newer.len()
    }

    pub(crate) fn is_empty(&self) -> bool
        ensures { IsTrue result ↔ (self.now ≡ []) }
    {
        self.older.is_empty() && self.newer.is_empty()
    }

    // The oldest gathering.
    pub(crate) fn first(&self) -> Option<(&PhyPayload, &Gathering)>
        ensures { option_map (λ r. window_of (r.0.now, r.1.now)) result ≡ slice_get self.now 0 }
    {
        match self.older.last() {
            Some(oldest) => Some(oldest),
            None => self.newer.first(),
        }
    }

    // The place of these bytes' window.
    pub(crate) fn position(&self, phy_payload: &PhyPayload) -> Option<usize>
        ensures { result ≡ position (is_of phy_payload.now) self.now }
    {
        let older = self.older.len();
        if let Some(index) = self.older.get_index_of(phy_payload) {
            return Some(older - 1 - index);
        }
        // Its contract says that the sum fits.
        let _len = self.newer.len();
        let index = self.newer.get_index_of(phy_payload)?;
        Some(older + index)
    }

    // The window at this place takes the copy or refuses it.
    pub(crate) fn join(&mut self, index: usize, hearing: Hearing) -> Result<(), Refusal>
        requires there { index < length self.old }
        requires receivable { IsReceivable hearing.reception }
        ensures joined { Answers (joined_at self.old index hearing) (λ ws _. self.new ≡ ws) result }
        ensures same { OnErr result (self.new ≡ self.old) }
    {
        let older = self.older.len();
        if index < older {
            self.older[older - 1 - index].hearings.add(hearing)
        } else {
            self.newer[index - older].hearings.add(hearing)
        }
    }

    // Adds a window of these bytes, which have none yet, at the end.
    pub(crate) fn push(
        &mut self,
        phy_payload: PhyPayload,
        gathering: Gathering,
    ) -> Result<(), AllocFailed<(PhyPayload, Gathering)>>
        requires none { list_any (is_of phy_payload) self.old ≡ false }
        ensures pushed { OnOk result
            (self.new ≡ self.old ++ window_of (phy_payload, gathering) ∷ []) }
        ensures same { OnErr result (self.new ≡ self.old) }
    {
        self.newer.insert(phy_payload, gathering)?;
        Ok(())
    }

    // Takes the oldest gathering out. Takes no memory. It takes constant time on average, since
    // each gathering is turned round once; at worst, when all are turned round, time in proportion
    // to their number.
    pub(crate) fn pop_first(&mut self) -> Option<(PhyPayload, Gathering)>
        ensures first { option_map window_of result ≡ slice_get self.old 0 }
        ensures rest { self.new ≡ drop 1 self.old }
    {
        if self.older.is_empty() {
            mem::swap(&mut self.older, &mut self.newer);
            self.older.reverse();
        }
        self.older.pop()
    }
}
