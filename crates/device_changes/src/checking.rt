// Which rows are refused, and why.
ghost use Rattle.std.specs.Prelude.{◌≡◌, ◌≤◌, ◌∷◌, ◌++◌, [], length, slice_get, MatchResult, OnOk};
ghost use Rattle.lw_types.specs.declared.refusal.Refusal.TheVariants.{OutOfMemory};
ghost use Rattle.device_changes.specs.Change.{is_named};
ghost use Rattle.device_changes.specs.Faults.{amend_fault, change_fault, row_fault, faults_of};
ghost use Rattle.device_changes.specs.Faults.{faulty, import_fault, lowers, retire_fault};
ghost use Rattle.device_changes.specs.Table.{imported_devices};

use crate::{Amendment, Change, FaultyRow, LastJoinNonce, RowFault};
use devices::Device;
use lw_types::{JoinNonce, Refusal};
use sessions::Table;
use std::alloc::{AllocError, Global};

/// Every row that is faulty in this table, in order. Its cost grows with the square of the number
/// of rows.
pub fn faulty_rows(alloc: Global, table: &Table, rows: &[Change]) -> Result<Vec<FaultyRow>, Refusal>
    ensures { MatchResult result
        (λ found. found.items ≡ faults_of table.now rows.now)
        (λ e. e ≡ OutOfMemory) }
{
    let mut found = Vec::new(alloc);
    for (row, change) in rows.iter().enumerate() {
        let fault = row_fault(table, &rows[..row], change);
        add_faulty(&mut found, row, fault)?;
    }
    Ok(found)
}

// Adds a row to those that were found faulty, if it is faulty.
fn add_faulty(
    found: &mut Vec<FaultyRow>,
    row: usize,
    fault: Option<RowFault>,
) -> Result<(), AllocError>
    ensures { OnOk result (found.new.items ≡ found.old.items ++ faulty row fault) }
{
    if let Some(fault) = fault {
        found.push(FaultyRow { row, fault })?;
    }
    Ok(())
}

// What is wrong with a row after these earlier ones.
fn row_fault(table: &Table, earlier: &[Change], change: &Change) -> Option<RowFault>
    ensures { result ≡ row_fault table.now earlier.now change.now }
{
    if is_named(earlier, change.dev_eui().0) {
        return Some(RowFault::Repeated);
    }
    change_fault(table, earlier, change)
}

// Whether one of the rows is of this DevEUI.
fn is_named(rows: &[Change], dev_eui: u64) -> bool
    ensures { result ≡ is_named rows.now dev_eui }
{
    rows.iter().any(|row| row.dev_eui().0 == dev_eui)
}

// What is wrong with a change, after these earlier rows.
fn change_fault(table: &Table, earlier: &[Change], change: &Change) -> Option<RowFault>
    ensures { result ≡ change_fault table.now earlier.now change.now }
{
    let slot = table.slot_of(change.dev_eui());
    match change {
        Change::Import(_) => import_fault(table, imports_in(earlier), slot),
        Change::Amend(amendment) => amend_fault(table, amendment, slot),
        Change::Retire(_) => retire_fault(slot),
    }
}

// How many devices these rows bring.
fn imports_in(rows: &[Change]) -> usize
    ensures { result ≡ length (imported_devices rows.now) }
{
    let mut imports = 0;
    for change in rows {
        imports += imports_of(change);
    }
    imports
}

// How many devices a row brings.
fn imports_of(change: &Change) -> usize
    ensures value { result ≡ length (imported_devices (change.now ∷ [])) }
    ensures few { result ≤ 1 }
{
    match change {
        Change::Import(_) => 1,
        Change::Amend(_) => 0,
        Change::Retire(_) => 0,
    }
}

// A new device needs a DevEUI that no device has, and a slot after these devices of earlier rows.
fn import_fault(table: &Table, earlier: usize, slot: Option<u16>) -> Option<RowFault>
    ensures { result ≡ import_fault table.now earlier slot }
{
    if slot.is_some() {
        return Some(RowFault::DevEuiTaken);
    }
    let free = table.slots().get() - table.devices().len() as u64;
    if (earlier as u64) < free {
        None
    } else {
        Some(RowFault::TableFull)
    }
}

// The device at the slot must not get a lower JoinNonce.
fn amend_fault(table: &Table, amendment: &Amendment, slot: Option<u16>) -> Option<RowFault>
    ensures { result ≡ amend_fault table.now amendment.now slot }
{
    let Some(slot) = slot else {
        return Some(RowFault::UnknownDevEui);
    };
    let device = table.devices().get(slot as usize)?;
    if lowers(amendment.last_join_nonce, device) {
        Some(RowFault::JoinNonceLowered)
    } else {
        None
    }
}

// Whether a row gives a JoinNonce below the last granted one.
fn lowers(last: Option<LastJoinNonce>, device: &Device) -> bool
    ensures { result ≡ lowers last device.now }
{
    let granted = device.activation.granted().map_or(0, JoinNonce::get);
    match last {
        Some(last) => last.get() < granted as u64,
        None => false,
    }
}

// A device that the table has can be retired.
fn retire_fault(slot: Option<u16>) -> Option<RowFault>
    ensures { result ≡ retire_fault slot }
{
    match slot {
        Some(_) => None,
        None => Some(RowFault::UnknownDevEui),
    }
}
