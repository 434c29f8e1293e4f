// Writes entries. Those of earlier versions are only read.
ghost use Rattle.std.specs.Prelude.{◌≡◌, ◌≤◌, ◌<◌, ◌+◌, ◌*◌, ◌^◌, ◌∷◌, [], ◌++◌, ℕ, List};
ghost use Rattle.std.specs.Prelude.{MatchResult, length, take};
ghost use Rattle.std.specs.Int.{to_be_bytes, w16};
ghost use Rattle.lw_types.specs.declared.refusal.Refusal.TheVariants.{OutOfMemory};
ghost use Rattle.devices.specs.Becoming.{MayBecome};
ghost use Rattle.record_codec.specs.Change.{IsChangeOf};
ghost use Rattle.record_codec.specs.Version.{newest};
ghost use Rattle.store_layout.specs.Entries.{AreEntries, EntryValue, IsEntry, IsEntryOf};
ghost use Rattle.store_layout.specs.Entries.{SpellsEntriesOf, entries, entries_of_table, entry};
ghost use Rattle.store_layout.specs.Entries.EntryValue.{Changed, Whole};

use crate::superblock::RESERVED_RECORD;
use devices::Device;
use lw_types::Refusal;
use record_codec::{laws, write_change, write_device};
use sessions::{Batch, Decision, Table};
use std::alloc::AllocError;

/// The kind of an entry that is a whole record.
pub(crate) const WHOLE: u8 = 1;

/// The kind of an entry that is a change.
pub(crate) const CHANGED: u8 = 2;

// The bytes of an entry before its body: its kind, its slot, and the length of its body.
const FRONT_LEN: usize = 5;

/// The largest entry, in bytes: 5, and those that are reserved for a record.
pub const LONGEST_ENTRY: usize = FRONT_LEN + RESERVED_RECORD;

/// Appends the entry of the whole record at a slot, in the newest version. Each byte of the record
/// is written once, and only the room of `out` takes memory. An `Err` means that memory ran out,
/// and nothing was appended.
pub fn put_entry(slot: u16, device: &Device, out: &mut Vec<u8>) -> Result<(), Refusal>
    ensures { MatchResult result
        (λ _. (out.new.items ≡ out.old.items ++ entry newest (Whole slot device.now))
        × IsEntry newest (Whole slot device.now))
        (λ e. (e ≡ OutOfMemory) × (out.new.items ≡ out.old.items)) }
{
    laws::records_are_short();
    let at = out.len();
    put_front(out, WHOLE, slot)?;
    match write_device(device, out) {
        Ok(()) => {
            set_length(out, at);
            Ok(())
        }
        Err(_) => Err(taken_back(out, at)),
    }
}

// Appends the entry of the change from one record to another. After an `Err` nothing was appended.
fn put_change_entry(
    slot: u16,
    before: &Device,
    after: &Device,
    out: &mut Vec<u8>,
) -> Result<(), Refusal>
    requires { MayBecome before.now after.now }
    ensures { MatchResult result
        (λ _. (change : List ℕ)
        × (out.new.items ≡ out.old.items ++ entry newest (Changed slot change))
        × IsEntry newest (Changed slot change)
        × IsChangeOf newest before.now after.now change)
        (λ e. (e ≡ OutOfMemory) × (out.new.items ≡ out.old.items)) }
{
    laws::changes_are_short();
    let at = out.len();
    put_front(out, CHANGED, slot)?;
    match write_change(before, after, out) {
        Ok(()) => {
            set_length(out, at);
            Ok(())
        }
        Err(_) => Err(taken_back(out, at)),
    }
}

// Removes what was appended after this number of bytes, if memory ran out.
fn taken_back(out: &mut Vec<u8>, len: usize) -> Refusal
    ensures value { result ≡ OutOfMemory }
    ensures items { out.new.items ≡ take len out.old.items }
{
    out.truncate(len);
    Refusal::OutOfMemory
}

// Appends the kind and the slot of an entry, and a length of 0.
fn put_front(out: &mut Vec<u8>, kind: u8, slot: u16) -> Result<(), AllocError>
    ensures { MatchResult result
        (λ _. out.new.items ≡ out.old.items ++ kind ∷ (to_be_bytes w16 slot ++ 0 ∷ 0 ∷ []))
        (λ _. out.new.items ≡ out.old.items) }
{
    let [s1, s0] = slot.to_be_bytes();
    out.extend_from_slice(&[kind, s1, s0, 0, 0])
}

// Sets the length of the last entry, which begins at `at`: its body is everything after its first
// bytes.
fn set_length(out: &mut Vec<u8>, at: usize)
    requires front { at + FRONT_LEN ≤ length out.old.items }
    requires short { length out.old.items < at + FRONT_LEN + 2 ^ 16 }
    ensures { (before body : List ℕ) (kind slot : ℕ) → length before ≡ at
        → out.old.items ≡ before ++ kind ∷ (to_be_bytes w16 slot ++ 0 ∷ 0 ∷ body)
        → out.new.items
        ≡ before ++ kind ∷ (to_be_bytes w16 slot ++ (to_be_bytes w16 (length body) ++ body)) }
{
    // The length follows the kind and the slot.
    let [l1, l0] = ((out.len() - at - FRONT_LEN) as u16).to_be_bytes();
    out[at + 3] = l1;
    out[at + 4] = l0;
}

// Appends the entry of a decision: the record that it leaves if it found none, else the change.
// After an `Err` nothing was appended.
fn put_decision(decision: &Decision, out: &mut Vec<u8>) -> Result<(), Refusal>
    ensures { MatchResult result
        (λ _. (e : EntryValue) × (out.new.items ≡ out.old.items ++ entry newest e)
        × IsEntry newest e × IsEntryOf newest decision.now e)
        (λ e. (e ≡ OutOfMemory) × (out.new.items ≡ out.old.items)) }
{
    sessions::laws::a_decision_is_a_step();
    match &decision.before {
        None => put_entry(decision.slot, &decision.after, out),
        Some(before) => put_change_entry(decision.slot, before, &decision.after, out),
    }
}

/// Appends the entries of a batch in the newest version, one for each decision, in order. Each byte
/// of a record is written once, and only the room of `out` takes memory. An `Err` means that memory
/// ran out. Then some of the entries may have been appended, and no clause says which.
pub fn put_batch(batch: &Batch, out: &mut Vec<u8>) -> Result<(), Refusal>
    ensures entries { MatchResult result
        (λ _. (bytes : List ℕ) × (out.new.items ≡ out.old.items ++ bytes)
        × SpellsEntriesOf newest batch.now bytes
        × (length bytes ≤ length batch.now * LONGEST_ENTRY))
        (λ e. e ≡ OutOfMemory) }
{
    crate::laws::entries_are_short();
    crate::laws::decisions_replay();
    for decision in batch.as_slice() {
        put_decision(decision, out)?;
    }
    Ok(())
}

/// Appends the entries of a table in the newest version: the record of each device under its slot,
/// in order of slots. Each byte of a record is written once, and only the room of `out` takes
/// memory. An `Err` means that memory ran out. Then some of the entries may have been appended, and
/// no clause says which.
pub fn put_table(table: &Table, out: &mut Vec<u8>) -> Result<(), Refusal>
    ensures { MatchResult result
        (λ _. (out.new.items ≡ out.old.items ++ entries newest (entries_of_table table.now))
        × AreEntries newest (entries_of_table table.now))
        (λ e. e ≡ OutOfMemory) }
{
    // A table has at most 4,096 slots.
    let _slots = table.slots();
    let mut slot = 0;
    for device in table.devices() {
        put_entry(slot, device, out)?;
        slot += 1;
    }
    Ok(())
}
