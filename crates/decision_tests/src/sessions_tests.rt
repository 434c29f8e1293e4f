// Tables of devices, and batches of decisions on them.
ghost use Rattle.std.specs.Prelude.{◌<◌};

use crate::fixture::REQUEST_1;
use crate::network::{Comes, FRESH, State, told};
use crate::tables::{alone, batch, filled, new_table};
use join_server::{JoinAsk, JoinRequestBytes};
use lw_types::{DevAddr, Eui, FromText, Refusal};
use sessions::{Batch, PlacedBatch, Table};
use std::alloc::Global;

// What comes to a table of 2 slots without devices, and what leaves then or how it is refused.
const PROVISIONED: &[(Comes, Result<&str, Refusal>)] = &[
    (Comes::Device(50), Ok("provisioned 0000000000000032 0")),
    (Comes::Device(40), Ok("provisioned 0000000000000028 1")),
    (Comes::Device(40), Err(Refusal::DevEuiTaken)),
    (Comes::Device(60), Err(Refusal::TableFull)),
];

// Whether this is the result.
fn comes_so(
    alloc: Global,
    table: &mut Table,
    comes: &Comes,
    wanted: &Result<&str, Refusal>,
) -> bool {
    match (told(alloc, table, comes), wanted) {
        (Ok(told), Ok(wanted)) => told.as_str() == *wanted,
        (Err(refusal), Err(wanted)) => refusal == *wanted,
        _ => false,
    }
}

// Whether devices 50 and 40 take the slots, and device 60 gets none.
fn take_slots(alloc: Global) -> Result<bool, Refusal> {
    let mut table = new_table(alloc, 2)?;
    for (comes, wanted) in PROVISIONED {
        if !comes_so(alloc, &mut table, comes, wanted) {
            return Ok(false);
        }
    }
    Ok(table.slot_of(Eui(60)).is_none())
}

#[test]
fn a_provisioning_takes_the_next_slot_while_there_is_one(rt: HostRuntime) {
    assert!(rt; take_slots(rt.alloc()) == Ok(true));
}

// Numbers of decisions, and the numbers of the questions that would lead to them.
const QUESTIONS: &[(u64, u32)] = &[
    (1, 1),
    (0xFFFF_FFFF, 0xFFFF_FFFF),
    (0x1_0000_0000, 0),
    (0x1_0000_0007, 7),
];

// Whether the join server is asked with this number about the device at slot 3, which was granted
// 8190 before and has RX1DROffset 2.
fn is_asked(alloc: Global, seq: u64, transaction: u32) -> Result<bool, Refusal> {
    let asking = State {
        slot: 3,
        rx1_offset: 2,
        join_nonce: 8190,
        ..FRESH
    };
    let table = asking.table(alloc)?;
    let request = JoinRequestBytes::from_text(REQUEST_1).ok_or(Refusal::Damaged)?;
    let Some(question) = table.question(seq, &request) else {
        return Ok(false);
    };
    let JoinAsk {
        dev_addr,
        dl_settings,
        transaction: asked,
        ..
    } = question.ask;
    let is_right = dev_addr == DevAddr(0x5400_7FFF) && dl_settings == 0x20;
    Ok(question.slot == 3 && is_right && asked == transaction)
}

#[test]
fn a_question_has_the_low_32_bits_of_its_number(rt: HostRuntime) {
    for (seq, transaction) in QUESTIONS {
        assert!(rt;
            is_asked(rt.alloc(), *seq, *transaction) == Ok(true),
            "{seq}"
        );
    }
}

// Whether a table admits a decision only with its own number, and no longer after the slot is
// taken.
fn admits_once(alloc: Global, table: &mut Table) -> Result<bool, Refusal> {
    let first = table.decide(alloc, 1, Comes::Device(50).command(alloc)?)?;
    let admitted = table.admits(0, &first) && !table.admits(1, &first);
    let is_applied = table.apply(&first).is_ok();
    Ok(admitted && is_applied && !table.admits(0, &first))
}

// Whether it admits a decision that was made of its copy.
fn admits_of_copy(alloc: Global, table: &Table) -> Result<bool, Refusal> {
    let command = Comes::Device(40).command(alloc)?;
    let batch = alone(alloc, &mut table.copy()?, 1, command)?;
    match batch.as_slice() {
        [second] => Ok(table.admits(1, second)),
        _ => Ok(false),
    }
}

fn admits_its_own(alloc: Global) -> Result<bool, Refusal> {
    let mut table = new_table(alloc, 2)?;
    let once = admits_once(alloc, &mut table)?;
    Ok(once && admits_of_copy(alloc, &table)?)
}

#[test]
fn a_table_admits_what_was_made_of_it(rt: HostRuntime) {
    assert!(rt; admits_its_own(rt.alloc()) == Ok(true));
}

// An empty table with the records of a batch whose last number is this, and the number of effects
// left of its decisions.
fn restored(alloc: Global, batch: Batch, end: u64) -> Result<(Table, usize), Refusal> {
    let mut table = new_table(alloc, 64)?;
    let Some(last) = table.continuation_end_after(&[], 0, batch.as_slice()) else {
        return Err(Refusal::OutOfStep);
    };
    if last != end {
        return Err(Refusal::Damaged);
    }
    let placed = table.set_all(batch, PlacedBatch::new(alloc)?);
    let mut effects: usize = 0;
    for decision in placed.into_vec() {
        effects = effects.saturating_add(decision.into_effects().as_slice().len());
    }
    Ok((table, effects))
}

// Each decision of the batch has one effect: it reports the slot of a new device.
fn gives_records(alloc: Global, count: u64) -> Result<bool, Refusal> {
    let mut table = new_table(alloc, 64)?;
    let batch = batch(alloc, &mut table, count)?;
    let (found, effects) = restored(alloc, batch, count)?;
    Ok(found.devices() == table.devices() && effects as u64 == count)
}

fn begins_empty(alloc: Global) -> Result<bool, Refusal> {
    Ok(Batch::new(alloc)?.is_empty())
}

#[test]
fn a_batch_gives_its_records(rt: HostRuntime) {
    assert!(rt; begins_empty(rt.alloc()) == Ok(true));
    for count in &[5, 64] {
        assert!(rt; gives_records(rt.alloc(), *count) == Ok(true), "{count}");
    }
}

// Whether this number of devices have a place in a table.
fn holds(alloc: Global, count: u16) -> Result<bool, Refusal>
    requires { 0 < count }
{
    let table = filled(alloc, u64::from(count), u64::from(count))?;
    let copy = table.copy()?;
    let last = copy.slot_of(Eui(u64::from(count) - 1));
    let is_whole = table.devices().len() == usize::from(count) && copy.devices() == table.devices();
    Ok(is_whole && last == Some(count - 1))
}

#[test]
fn a_table_holds_4096_devices(rt: HostRuntime) {
    assert!(rt; holds(rt.alloc(), 4096) == Ok(true));
}

// Puts the record of a device with this DevEUI at a slot.
fn put(alloc: Global, table: &mut Table, slot: u16, dev_eui: u64) -> Result<(), Refusal> {
    let device = State { dev_eui, ..FRESH }.device(alloc)?;
    table.put(slot, device)
}

// Whether a slot takes its own device's record again, and then one with a new name.
fn is_renamed(alloc: Global, table: &mut Table, slot: u16) -> Result<bool, Refusal> {
    let own = u64::from(slot);
    put(alloc, table, slot, own)?;
    put(alloc, table, slot, 1000 + own)?;
    Ok(table.slot_of(Eui(1000 + own)) == Some(slot) && table.slot_of(Eui(own)).is_none())
}

fn are_renamed(alloc: Global) -> Result<bool, Refusal> {
    let mut table = filled(alloc, 100, 100)?;
    for slot in 0..100 {
        if !is_renamed(alloc, &mut table, slot)? {
            return Ok(false);
        }
    }
    let twice = put(alloc, &mut table, 3, 1004) == Err(Refusal::Damaged);
    let beyond = put(alloc, &mut table, 100, 7) == Err(Refusal::Damaged);
    Ok(twice && beyond && table.devices().len() == 100)
}

#[test]
fn records_are_put_at_slots_in_use(rt: HostRuntime) {
    assert!(rt; are_renamed(rt.alloc()) == Ok(true));
}
