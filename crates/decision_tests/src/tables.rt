// The tables at the beginning of these tests.
use crate::fixture::provision;
use devices::Command;
use lw_types::{NetId, Refusal};
use sessions::{Batch, Slots, Table};
use std::alloc::Global;

/// A table with this number of slots and no device.
pub(crate) fn new_table(alloc: Global, slots: u64) -> Result<Table, Refusal> {
    match (NetId::new(0x2A), Slots::new(slots)) {
        (Some(net_id), Some(slots)) => Table::new(alloc, net_id, slots),
        _ => Err(Refusal::Damaged),
    }
}

// Decides a command with the number after `seq`, puts its record into the table, and adds the
// decision to a batch. (A function that owns a decision has the proof of its drop in its own
// proof.)
fn carry_out(
    alloc: Global,
    table: &mut Table,
    seq: u64,
    command: Command,
    batch: &mut Batch,
) -> Result<(), Refusal> {
    let is_full = batch.len() >= Batch::MOST;
    let decision = table.decide(alloc, seq.saturating_add(1), command)?;
    let is_admitted = table.admits(seq, &decision);
    let is_applied = table.apply(&decision).is_ok();
    let is_found = table.slot_of(decision.after.dev_eui) == Some(decision.slot);
    if is_full || !is_admitted || !is_applied || !is_found {
        return Err(Refusal::OutOfStep);
    }
    batch.push(decision);
    Ok(())
}

/// A batch with the decision of one command, which is carried out in this way.
pub(crate) fn alone(
    alloc: Global,
    table: &mut Table,
    seq: u64,
    command: Command,
) -> Result<Batch, Refusal> {
    let mut batch = Batch::new(alloc)?;
    carry_out(alloc, table, seq, command, &mut batch)?;
    Ok(batch)
}

// Provisions a device.
fn bring(
    alloc: Global,
    table: &mut Table,
    seq: u64,
    dev_eui: u64,
    batch: &mut Batch,
) -> Result<(), Refusal> {
    match provision(dev_eui) {
        Some(command) => carry_out(alloc, table, seq, command, batch),
        None => Err(Refusal::Damaged),
    }
}

// Puts devices with DevEUIs from 0 on into a table without devices.
fn fill(alloc: Global, table: &mut Table, devices: u64) -> Result<(), Refusal> {
    for dev_eui in 0..devices {
        bring(alloc, table, dev_eui, dev_eui, &mut Batch::new(alloc)?)?;
    }
    Ok(())
}

/// A table with devices at its first slots, with DevEUIs from 0 on.
pub(crate) fn filled(alloc: Global, slots: u64, devices: u64) -> Result<Table, Refusal> {
    let mut table = new_table(alloc, slots)?;
    match fill(alloc, &mut table, devices) {
        Ok(()) => Ok(table),
        Err(refusal) => Err(refusal),
    }
}

/// The provisionings of this number of devices, as a batch. They are put into a table whose last
/// decision has the number 0. The DevEUIs are counted down from 2000.
pub(crate) fn batch(alloc: Global, table: &mut Table, count: u64) -> Result<Batch, Refusal> {
    let mut batch = Batch::new(alloc)?;
    for seq in 0..count {
        let dev_eui = 2000_u64.saturating_sub(seq);
        bring(alloc, table, seq, dev_eui, &mut batch)?;
    }
    Ok(batch)
}
