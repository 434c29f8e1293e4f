// Replays entries.
ghost use Rattle.std.specs.Prelude.{◌≡◌, ◌≢◌, ◌++◌, ℕ, List, IfErr, MatchResult};
ghost use Rattle.devices.specs.declared.device.Device.{Device};
ghost use Rattle.lw_types.specs.declared.refusal.Refusal.TheVariants.{OutOfMemory, Damaged};
ghost use Rattle.record_codec.specs.DeviceRecord.{IsSomeRecord};
ghost use Rattle.sessions.specs.Table.{TableState};
ghost use Rattle.store_layout.specs.Entries.{EntryValue, IsEntry, LeavesRecord, NoEntry, Replay};
ghost use Rattle.store_layout.specs.Entries.{ReplayGoesOn, body_in, entry, kind_of, slot_in};
ghost use Rattle.store_layout.specs.Entries.EntryValue.{Changed, Whole};
ghost use Rattle.store_layout.specs.ReadEntry.{value_of};

use crate::entries::{CHANGED, WHOLE};
use crate::superblock::RESERVED_RECORD;
use devices::Device;
use lw_types::Refusal;
use record_codec::{RecordVersion, laws};
use sessions::Table;
use std::alloc::Global;

// An entry that was read.
#[derive(Drop)]
enum Entry<'a> {
    // The whole record of the device at a slot.
    Whole { slot: u16, device: Device },
    // The bytes of a change of the record at a slot.
    Changed { slot: u16, change: &'a [u8] },
}

impl Entry<'_> {
    // Returns the slot, and the record that the entry leaves there on this table. Refused with
    // `Damaged` exactly if it leaves none, and with `OutOfMemory` if memory runs out and it leaves
    // one.
    fn record_on(
        self,
        alloc: Global,
        version: RecordVersion,
        table: &Table,
    ) -> Result<(u16, Device), Refusal>
        ensures left { MatchResult result
            (λ left. (left.0 ≡ slot_in (value_of self.entry))
            × LeavesRecord version table.now (value_of self.entry) left.1)
            (λ e. e ≢ OutOfMemory → (e ≡ Damaged)
            × ((after : Device) → ¬ LeavesRecord version table.now (value_of self.entry) after)) }
        ensures memory { IfErr result (λ e. e ≡ OutOfMemory
            → (after : Device) × LeavesRecord version table.now (value_of self.entry) after) }
    {
        match self {
            Entry::Whole { slot, device } => Ok((slot, device)),
            Entry::Changed { slot, change } => {
                let device = changed_record(alloc, version, table, slot, change)?;
                Ok((slot, device))
            }
        }
    }
}

// The record that a change makes of the one at a slot.
fn changed_record(
    alloc: Global,
    version: RecordVersion,
    table: &Table,
    slot: u16,
    change: &[u8],
) -> Result<Device, Refusal>
    ensures left { MatchResult result
        (λ after. LeavesRecord version table.now (Changed slot change.now) after)
        (λ e. e ≢ OutOfMemory → (e ≡ Damaged)
        × ((after : Device) → ¬ LeavesRecord version table.now (Changed slot change.now) after)) }
    ensures memory { IfErr result (λ e. e ≡ OutOfMemory
        → (after : Device) × LeavesRecord version table.now (Changed slot change.now) after) }
{
    match table.devices().get(usize::from(slot)) {
        Some(before) => version.read_change(alloc, before, change),
        None => Err(Refusal::Damaged),
    }
}

// The entry of a kind, with its slot and its body.
fn entry_of(
    alloc: Global,
    version: RecordVersion,
    kind: u8,
    slot: u16,
    body: &[u8],
) -> Result<Entry<'_>, Refusal>
    ensures read { MatchResult result
        (λ read. (kind_of (value_of read) ≡ kind) × (slot_in (value_of read) ≡ slot)
        × (body_in version (value_of read) ≡ body.now) × IsEntry version (value_of read))
        (λ e. e ≢ OutOfMemory → (e ≡ Damaged)
        × ((other : EntryValue) → IsEntry version other → kind ≡ kind_of other
        → body.now ≡ body_in version other → ⊥)) }
    ensures memory { IfErr result (λ e. e ≡ OutOfMemory
        → (kind ≡ WHOLE) × IsSomeRecord version body.now) }
{
    match kind {
        WHOLE => {
            let device = version.read_device(alloc, body)?;
            Ok(Entry::Whole { slot, device })
        }
        CHANGED if body.len() <= RESERVED_RECORD => Ok(Entry::Changed { slot, change: body }),
        _ => Err(Refusal::Damaged),
    }
}

// The entry at the front of some bytes, and the bytes after it. Refused with `Damaged` exactly if
// no entry stands there, and with `OutOfMemory` if memory runs out and a whole record stands there.
fn read_entry(
    alloc: Global,
    version: RecordVersion,
    bytes: &[u8],
) -> Result<(Entry<'_>, &[u8]), Refusal>
    ensures read { MatchResult result
        (λ read. (bytes.now ≡ entry version (value_of read.0) ++ read.1.now)
        × IsEntry version (value_of read.0))
        (λ e. (e ≢ OutOfMemory → (e ≡ Damaged) × NoEntry version bytes.now)) }
    ensures memory { IfErr result (λ e. e ≡ OutOfMemory
        → (slot : ℕ) × ((device : Device) × ((rest : List ℕ)
        × (IsEntry version (Whole slot device)
        × (bytes.now ≡ entry version (Whole slot device) ++ rest))))) }
{
    laws::records_are_short();
    let [kind, s1, s0, l1, l0, rest @ ..] = bytes else {
        return Err(Refusal::Damaged);
    };
    let slot = u16::from_be_bytes([*s1, *s0]);
    let len = usize::from(u16::from_be_bytes([*l1, *l0]));
    if rest.len() < len {
        return Err(Refusal::Damaged);
    }
    let (body, behind) = rest.split_at(len);
    let entry = entry_of(alloc, version, *kind, slot, body)?;
    Ok((entry, behind))
}

/// Puts this number of entries, which are all of the bytes, on a table. Refused with `Damaged` only
/// if the bytes aren't this number of entries, or if one of them may not be put. Refused with
/// `OutOfMemory` if memory runs out, and only at an entry that leaves a record on the table to
/// which those before it led. After an `Err` drop the table: it may have some of the entries, and
/// no clause says which.
pub fn replay(
    alloc: Global,
    version: RecordVersion,
    table: &mut Table,
    bytes: &[u8],
    count: u32,
) -> Result<(), Refusal>
    ensures replayed { MatchResult result
        (λ _. (es : List EntryValue) × Replay version table.old bytes.now count es table.new)
        (λ e. e ≢ OutOfMemory → (e ≡ Damaged)
        × ((es : List EntryValue) (u : TableState)
        → Replay version table.old bytes.now count es u → ⊥)) }
    ensures memory { IfErr result
        (λ e. e ≡ OutOfMemory → ReplayGoesOn version table.old bytes.now count) }
{
    laws::each_record_is_of_one_device();
    laws::each_change_is_of_one_record();
    laws::records_are_short();
    let mut rest = bytes;
    for _i in 0..count {
        let (entry, behind) = read_entry(alloc, version, rest)?;
        let (slot, device) = entry.record_on(alloc, version, table)?;
        table.put(slot, device)?;
        rest = behind;
    }
    if !rest.is_empty() {
        return Err(Refusal::Damaged);
    }
    Ok(())
}
