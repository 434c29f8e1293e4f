//! What follows from the layout alone. These functions do nothing: their contracts are the laws.
ghost use Rattle.std.specs.Prelude.{◌≡◌, ◌<◌, List, ℕ};
ghost use Rattle.gate_log.specs.declared.layout.Area.{Area};
ghost use Rattle.gate_log.specs.declared.layout.Areas.{Areas};
ghost use Rattle.gate_log.specs.declared.layout.Header.{Header};
ghost use Rattle.gate_log.specs.Areas.{AreOf, LogContents, Holds, HoldsIn, IsClosedArea};
ghost use Rattle.gate_log.specs.Areas.{IsLiveArea, IsOlder, NoLiveArea, bytes_in};
ghost use Rattle.gate_log.specs.Layout.{HasRoomFor, Journal};

use crate::layout::BatchHead;
use crate::{CLOSED, EMPTY_AREA_LEN, ENTRIES_AT, Header, OPEN, RECORDS_AT};

/// A disk holds at most one contents in two areas.
pub fn a_disk_holds_one_contents()
    ensures { (a b : Area) (disk : List ℕ) (c d : LogContents) → AreOf a b c.areas
        → AreOf a b d.areas
        → Holds c disk → Holds d disk → c ≡ d }
{}

/// The area with the contents of a disk is the live one, and has room for its records.
pub fn what_is_held_is_live()
    ensures live { (disk : List ℕ) (c : LogContents) → Holds c disk
        → IsLiveArea c.areas c.journal.header disk }
    ensures room { (disk : List ℕ) (c : LogContents) → Holds c disk
        → HasRoomFor c.areas.live c.journal.header }
{}

/// At most one of two areas is live, with one header.
pub fn one_area_is_live()
    ensures { (a b : Area) (disk : List ℕ) (areas others : Areas) (h k : Header) → AreOf a b areas
        → AreOf a b others
        → IsLiveArea areas h disk → IsLiveArea others k disk → (areas ≡ others) × (h ≡ k) }
{}

/// If neither of two areas is live, a disk holds nothing in them.
pub fn none_live_holds_nothing()
    ensures { (a b : Area) (disk : List ℕ) (c : LogContents) → NoLiveArea a b disk
        → AreOf a b c.areas
        → ¬ Holds c disk }
{}

/// What an area has stays if only bytes outside of it change.
pub fn a_journal_stays_where_others_change()
    ensures { (area : Area) (old new : List ℕ) (j : Journal) → HoldsIn area j old
        → bytes_in area new ≡ bytes_in area old → HoldsIn area j new }
{}

/// A closed area is older than any other.
pub fn a_closed_area_is_older()
    ensures { (area : Area) (disk : List ℕ) (generation : ℕ) → area.start < area.end
        → IsClosedArea area disk
        → IsOlder generation area disk }
{}

/// The bytes that gates are; where the records of an area and the entries of a batch begin; and the
/// lengths of an area's header, of a batch's head and of an empty area.
pub fn limits_are_these()
    ensures open { OPEN ≡ 165 }
    ensures closed { CLOSED ≡ 0 }
    ensures records { RECORDS_AT ≡ 30 }
    ensures entries { ENTRIES_AT ≡ 15 }
    ensures header { Header.LEN ≡ 29 }
    ensures head { BatchHead.LEN ≡ 14 }
    ensures empty { EMPTY_AREA_LEN ≡ 31 }
{}
