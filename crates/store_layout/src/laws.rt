//! What follows from the layout alone. These functions do nothing: their contracts are the laws.
ghost use Rattle.std.specs.Prelude.{◌≡◌, ◌≤◌, ◌*◌, ℕ, List, length};
ghost use Rattle.sessions.specs.Index.{HaveOwnSlots};
ghost use Rattle.sessions.specs.Marks.{IsSound};
ghost use Rattle.sessions.specs.Table.{TableState, empty_table};
ghost use Rattle.sessions.specs.Decision.{FitAll, with_decisions};
ghost use Rattle.sessions.specs.declared.decision.Decision.{Decision};
ghost use Rattle.record_codec.specs.declared.version.RecordVersion.{RecordVersion};
ghost use Rattle.store_layout.specs.Entries.{AreEntries, AreEntriesOf, EntriesLead, EntryValue};
ghost use Rattle.store_layout.specs.Entries.{Replay};
ghost use Rattle.store_layout.specs.Entries.{entries, entries_of_table};

use crate::superblock::RESERVED_RECORD;
use crate::{JOURNAL_ROOM, LONGEST_ENTRY, RESERVED_ENTRY, Superblock};
use record_codec::laws;

/// The entries of decisions that were made from a table replay on it, and lead to the table that
/// the decisions leave.
pub fn decisions_replay()
    ensures replay { (version : RecordVersion) (t : TableState) (ds : List Decision)
        (es : List EntryValue)
        → FitAll t ds → AreEntriesOf version ds es → AreEntries version es
        → Replay version t (entries version es) (length ds) es (with_decisions t ds) }
    ensures number { (version : RecordVersion) (ds : List Decision) (es : List EntryValue)
        → AreEntriesOf version ds es → length es ≡ length ds }
{
    sessions::laws::decided_records_may_be_put();
}

/// If no two devices of a table have the same DevEUI, its entries replay on the table without
/// devices and lead to it.
pub fn a_table_replays()
    ensures replay { (version : RecordVersion) (t : TableState) → HaveOwnSlots t.devices
        → length t.devices ≤ t.slots
        → AreEntries version (entries_of_table t)
        → Replay version (empty_table t.net_id t.slots) (entries version (entries_of_table t))
        (length t.devices)
        (entries_of_table t) t }
    ensures number { (t : TableState) → length (entries_of_table t) ≡ length t.devices }
{}

/// Bytes are a given number of entries in at most one way, and lead to one table.
pub fn bytes_replay_in_one_way()
    ensures entries { (version : RecordVersion) (t t' u u' : TableState) (bytes : List ℕ)
        (count : ℕ) (es fs : List EntryValue)
        → Replay version t bytes count es u → Replay version t' bytes count fs u' → es ≡ fs }
    ensures table { (version : RecordVersion) (t u u' : TableState) (bytes : List ℕ) (count : ℕ)
        (es fs : List EntryValue)
        → Replay version t bytes count es u → Replay version t bytes count fs u' → u ≡ u' }
{
    laws::each_record_is_of_one_device();
    laws::each_change_is_of_one_record();
    laws::records_are_short();
}

/// An entry has at most 4,305 bytes.
pub fn entries_are_short()
    ensures { (version : RecordVersion) (es : List EntryValue) → AreEntries version es
        → length (entries version es) ≤ length es * LONGEST_ENTRY }
{
    laws::records_are_short();
}

/// Putting entries on a table leaves its network and its number of slots.
pub fn entries_keep_the_network()
    ensures net_id { (version : RecordVersion) (t u : TableState) (es : List EntryValue)
        → EntriesLead version t es u → u.net_id ≡ t.net_id }
    ensures slots { (version : RecordVersion) (t u : TableState) (es : List EntryValue)
        → EntriesLead version t es u → u.slots ≡ t.slots }
{}

/// Putting entries on a sound table leaves a sound one: no DevEUI comes to stand at two slots, and
/// the sessions of each device stay in order.
pub fn entries_lead_to_sound_tables()
    ensures { (version : RecordVersion) (t u : TableState) (es : List EntryValue) → IsSound t
        → AreEntries version es → EntriesLead version t es u → IsSound u }
{}

/// The length of a superblock, the room of an area, and the largest entry and record, in bytes.
pub fn limits_are_these()
    ensures superblock { Superblock.LEN ≡ 32 }
    ensures record { RESERVED_RECORD ≡ 4300 }
    ensures reserved { RESERVED_ENTRY ≡ 4305 }
    ensures journal { JOURNAL_ROOM ≡ 1048576 }
    ensures entry { LONGEST_ENTRY ≡ 4305 }
{}
