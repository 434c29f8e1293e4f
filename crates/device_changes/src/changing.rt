// A table in which devices are changed.
ghost use Rattle.std.specs.Prelude.{◌≡◌, ◌≤◌, [], map, IfOk, MatchResult};
ghost use Rattle.lw_types.specs.declared.refusal.Refusal.TheVariants.{OutOfMemory};
ghost use Rattle.device_changes.specs.Faults.{faults_of, IsRefusedFor};
ghost use Rattle.device_changes.specs.Marks.{CoversImported, KeepsMarks};
ghost use Rattle.device_changes.specs.Table.{changed_by, changed_table};

use crate::device::changed_copy;
use crate::importing::bring;
use crate::{Change, Refused, faulty_rows};
use lw_types::Refusal;
use sessions::{Slots, Table};
use std::alloc::Global;

/// The table in which every change is made: each device keeps its slot and is changed as the row of
/// its DevEUI says, and imported devices get the next slots. If any row is faulty, no change is
/// made, and the refusal has every faulty row ([`faulty_rows`]). Its cost grows with the square of
/// the number of rows, and with the product of the numbers of rows and devices.
///
/// A network may go on with the new table in place of the old one: each mark that the old table
/// covers, and each mark of an imported device with a JoinNonce up to its last one, is covered.
pub fn changed_table(alloc: Global, table: &Table, rows: &[Change]) -> Result<Table, Refused>
    ensures changed { MatchResult result
        (λ t. (faults_of table.now rows.now ≡ []) × (t ≡ changed_table rows.now table.now))
        (λ refused. IsRefusedFor (faults_of table.now rows.now) refused) }
    ensures keeps_marks { IfOk result (λ t. KeepsMarks table.now t) }
    ensures imported { IfOk result (λ t. CoversImported rows.now t) }
{
    let found = match faulty_rows(alloc, table, rows) {
        Ok(found) => found,
        Err(_) => return Err(Refused::OutOfMemory),
    };
    if !found.is_empty() {
        return Err(Refused::Rows(found));
    }
    match with_changes(alloc, table, rows) {
        Ok(changed) => {
            let _ = changed.devices();
            Ok(changed)
        }
        Err(_) => Err(Refused::OutOfMemory),
    }
}

// The table in which every change is made.
fn with_changes(alloc: Global, table: &Table, rows: &[Change]) -> Result<Table, Refusal>
    requires { faults_of table.now rows.now ≡ [] }
    ensures { MatchResult result
        (λ t. t ≡ changed_table rows.now table.now)
        (λ e. e ≡ OutOfMemory) }
{
    let mut changed = with_changed_devices(alloc, table, table.slots(), rows)?;
    for change in rows {
        bring(alloc, &mut changed, change);
    }
    Ok(changed)
}

// A table with this number of slots and the same devices, each changed as the row of its DevEUI
// says.
pub(crate) fn with_changed_devices(
    alloc: Global,
    table: &Table,
    slots: Slots,
    rows: &[Change],
) -> Result<Table, Refusal>
    requires { table.now.slots ≤ slots }
    ensures { MatchResult result
        (λ t. t ≡ record table.now {
          slots = slots;
          devices = map (changed_by rows.now) table.now.devices;
        })
        (λ e. e ≡ OutOfMemory) }
{
    let most = slots.get();
    let mut changed = Table::new(alloc, table.net_id(), slots)?;
    for (slot, device) in table.devices().iter().enumerate() {
        let next = changed_copy(alloc, device, rows)?;
        prove!((slot as u64) < most);
        changed.set_device(slot as u16, next);
    }
    Ok(changed)
}
