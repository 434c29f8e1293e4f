ghost use Rattle.std.specs.Prelude.{◌<◌, length};

use crate::fixtures::{new_device, provisioning, put_old_record};
use RecordVersion::{V1, V2};
use devices::Command;
use lw_types::{Eui, NetId, Refusal};
use sessions::{Batch, Decision, Slots, Table};
use std::alloc::Global;
use store_layout::{RecordVersion, Superblock, put_batch, put_entry, replay};

fn net_id() -> Result<NetId, Refusal> {
    NetId::new(0x2A).ok_or(Refusal::Damaged)
}

fn slots(most: u64) -> Result<Slots, Refusal> {
    Slots::new(most).ok_or(Refusal::Damaged)
}

// The superblock of network 00002A with 8 slots, as the format spells it.
const SUPERBLOCK: [u8; 32] = [
    0xA5, 0x4C, 0x4E, 0x53, 0x54, 0x4F, 0x52, 0x45, 1, 0, 0, 0x2A, 0, 0, 0, 8, 0, 0, 0, 0, 0, 0x10,
    0x86, 0xA6, 0, 0, 0, 0, 0, 0, 0, 0,
];

fn is_laid_out() -> Result<bool, Refusal> {
    let superblock = Superblock {
        net_id: net_id()?,
        slots: slots(8)?,
    };
    let is_read = Superblock::from_bytes(&SUPERBLOCK) == Ok(superblock);
    Ok(is_read && superblock.to_bytes() == SUPERBLOCK && superblock.disk_len() == 2_166_124)
}

#[test]
fn the_superblock_has_its_layout(rt: HostRuntime) {
    assert!(rt; is_laid_out() == Ok(true));
}

const OTHER_SUPERBLOCKS: &[(usize, u8, Refusal)] = &[
    (0, 0x00, Refusal::NotFormatted),
    (3, 0x54, Refusal::NotFormatted),
    (8, 0x02, Refusal::WrongVersion),
    (9, 0x01, Refusal::Damaged),
    (11, 0x40, Refusal::Damaged),
    (15, 0x00, Refusal::Damaged),
    (14, 0x20, Refusal::Damaged),
    (23, 0xA7, Refusal::Damaged),
    (31, 0x01, Refusal::Damaged),
];

// The refusal of the superblock with another byte at a place.
fn refused(at: usize, byte: u8) -> Option<Refusal> {
    let mut bytes = SUPERBLOCK;
    *bytes.get_mut(at)? = byte;
    Superblock::from_bytes(&bytes).err()
}

#[test]
fn another_superblock_is_refused(rt: HostRuntime) {
    for (at, byte, refusal) in OTHER_SUPERBLOCKS {
        assert!(rt;
            refused(*at, *byte) == Some(*refusal),
            "byte {at} is {byte}"
        );
    }
}

// Whether the entry of a device, with a record of 58 bytes, stands after a byte.
fn has_entry(alloc: Global) -> Result<bool, Refusal> {
    let mut bytes = [7].to_vec(alloc)?;
    let device = new_device(alloc, Eui(0x1112131415161718)).ok_or(Refusal::Damaged)?;
    put_entry(0x0102, &device, &mut bytes)?;
    let front = [
        7, 1, 1, 2, 0, 58, 0x11, 0x12, 0x13, 0x14, 0x15, 0x16, 0x17, 0x18,
    ];
    Ok(bytes.len() == 1 + 5 + 58 && bytes.starts_with(&front))
}

#[test]
fn an_entry_has_its_layout(rt: HostRuntime) {
    assert!(rt; has_entry(rt.alloc()) == Ok(true));
}

// A table of network 00002A without devices.
fn new_table(alloc: Global, most: u64) -> Result<Table, Refusal> {
    Table::new(alloc, net_id()?, slots(most)?)
}

// Puts the record of a decision on the table, if that admits it.
fn apply(table: &mut Table, seq: u64, decision: &Decision) -> Result<(), Refusal> {
    if table.admits(seq, decision) {
        table.apply(decision)
    } else {
        Err(Refusal::OutOfStep)
    }
}

// Adds the provisioning of the device whose DevEUI is the number of its decision.
fn add(alloc: Global, table: &mut Table, seq: u64, batch: &mut Batch) -> Result<(), Refusal>
    requires { length batch.old < 64 }
{
    let seq_after = seq.saturating_add(1);
    let Some(provisioning) = provisioning(Eui(seq_after)) else {
        return Err(Refusal::Damaged);
    };
    match table.decide(alloc, seq_after, Command::Provision(provisioning)) {
        Ok(decision) => {
            let applied = apply(table, seq, &decision);
            batch.push(decision);
            applied
        }
        Err(refusal) => Err(refusal),
    }
}

fn add_all(alloc: Global, table: &mut Table, batch: &mut Batch, count: u64) -> Result<(), Refusal> {
    for last in 0..count {
        if batch.len() >= Batch::MOST {
            return Err(Refusal::OutOfStep);
        }
        add(alloc, table, last, batch)?;
    }
    Ok(())
}

// The entries of these provisionings, as a store of version 1 has them: the kind, the slot, a
// length of 50 bytes, and the record.
fn put_old_batch(decisions: &[Decision], bytes: &mut Vec<u8>) -> Result<(), Refusal> {
    for decision in decisions {
        let [s1, s0] = decision.slot.to_be_bytes();
        bytes.extend_from_slice(&[1, s1, s0, 0, 50])?;
        put_old_record(&decision.after, bytes)?;
    }
    Ok(())
}

// The entries of a batch of this number of provisionings.
fn entries(alloc: Global, version: RecordVersion, count: u64) -> Result<Vec<u8>, Refusal> {
    let mut batch = Batch::new(alloc)?;
    add_all(alloc, &mut new_table(alloc, 64)?, &mut batch, count)?;
    let mut bytes = Vec::new(alloc);
    match version {
        V1 => put_old_batch(batch.as_slice(), &mut bytes)?,
        V2 => put_batch(&batch, &mut bytes)?,
    }
    Ok(bytes)
}

// The number of devices of a table, and the slot of the one with a DevEUI.
type Replayed = (usize, Option<u16>);

// Reads this number of bytes of the entries as this number of entries, on the table, which then has
// the device of that DevEUI.
fn replayed(
    alloc: Global,
    version: RecordVersion,
    table: &mut Table,
    entries: &[u8],
    len: usize,
    count: u32,
) -> Result<Replayed, Refusal> {
    let Some(front) = entries.get(..len) else {
        return Err(Refusal::CutShort);
    };
    replay(alloc, version, table, front, count)?;
    Ok((table.devices().len(), table.slot_of(Eui(u64::from(count)))))
}

// The version in which a number of provisionings of a batch are written, and the length of their
// entries; the version in which a number of bytes of them are read as a number of entries, on a
// table of a number of slots; and what that leads to.
type Replay = (
    (RecordVersion, u64, usize),
    (RecordVersion, usize, u32, u64),
    Result<Replayed, Refusal>,
);

fn replays(alloc: Global, row: &Replay) -> Result<bool, Refusal> {
    let ((written, made, whole), (read, len, count, most), wanted) = *row;
    let entries = entries(alloc, written, made)?;
    let mut table = new_table(alloc, most)?;
    let answer = replayed(alloc, read, &mut table, &entries, len, count);
    Ok(entries.len() == whole && answer == wanted)
}

const REPLAYS: &[Replay] = &[
    ((V1, 1, 55), (V1, 55, 1, 64), Ok((1, Some(0)))),
    ((V1, 5, 275), (V1, 275, 5, 64), Ok((5, Some(4)))),
    ((V1, 64, 3520), (V1, 3520, 64, 64), Ok((64, Some(63)))),
    ((V1, 5, 275), (V1, 274, 5, 8), Err(Refusal::Damaged)),
    ((V1, 5, 275), (V1, 275, 4, 8), Err(Refusal::Damaged)),
    ((V1, 5, 275), (V1, 275, 6, 8), Err(Refusal::Damaged)),
    ((V1, 5, 275), (V1, 0, 1, 8), Err(Refusal::Damaged)),
    ((V1, 5, 275), (V1, 275, 5, 4), Err(Refusal::Damaged)),
    ((V2, 5, 315), (V2, 315, 5, 64), Ok((5, Some(4)))),
    ((V2, 64, 4032), (V2, 4032, 64, 64), Ok((64, Some(63)))),
    ((V2, 5, 315), (V2, 315, 4, 8), Err(Refusal::Damaged)),
    ((V2, 5, 315), (V2, 314, 5, 8), Err(Refusal::Damaged)),
    ((V2, 5, 315), (V1, 315, 5, 8), Err(Refusal::Damaged)),
    ((V1, 5, 275), (V2, 275, 5, 8), Err(Refusal::Damaged)),
];

#[test]
fn what_a_batch_writes_replays_and_nothing_else(rt: HostRuntime) {
    for row in REPLAYS {
        assert!(rt; replays(rt.alloc(), row) == Ok(true), "{row:?}");
    }
}
