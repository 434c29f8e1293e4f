// Faults of an image with two open areas, each alone and any two together: the first one counts.
use disk::{MemDisk, Sim};
use lw_types::Refusal;
use std::alloc::Global;
use test_stores::stores_under_test::{
    ALL, GATE_A, GATE_B, HIGH_B, LEN_B, LOW_A, SECOND_AREA, VERSION_B, cut, opened, put,
};

// The batch of the live area.
const BATCH: usize = SECOND_AREA + 93;

// Another byte of the image, and, with the last one of a fault, the refusal of an opening for it.
type Change = (usize, u8, Option<Refusal>);

// The faults in the order in which they count.
const FAULTS: &[Change] = &[
    // The superblock's gate, name, version, NetID, slots, area and zeros; and the length of the
    // disk that it gives.
    (0, 0x5A, Some(Refusal::NotFormatted)),
    (7, 0x46, Some(Refusal::NotFormatted)),
    (8, 2, Some(Refusal::WrongVersion)),
    (9, 1, Some(Refusal::Damaged)),
    (14, 0x10, None),
    (15, 1, Some(Refusal::Damaged)),
    (23, 0xA7, Some(Refusal::Damaged)),
    (24, 1, Some(Refusal::Damaged)),
    // The superblock of a store with nine slots, whose areas have 0x109777 bytes.
    (15, 9, None),
    (21, 0x10, None),
    (22, 0x97, None),
    (23, 0x77, Some(Refusal::WrongSize)),
    // No area is live.
    (GATE_A, 0, None),
    (GATE_B, 0, Some(Refusal::Damaged)),
    (LOW_A, 2, Some(Refusal::Damaged)),
    // The live one's version, generation, length of the records, their number, and the first one's
    // kind, slot and length.
    (VERSION_B, 3, Some(Refusal::WrongVersion)),
    (HIGH_B, 0x80, Some(Refusal::Damaged)),
    (LEN_B, 0, None),
    (LEN_B + 1, 1, Some(Refusal::Damaged)),
    (SECOND_AREA + 21, 2, Some(Refusal::Damaged)),
    (SECOND_AREA + 30, 2, Some(Refusal::Damaged)),
    (SECOND_AREA + 32, 1, Some(Refusal::Damaged)),
    (SECOND_AREA + 34, 59, Some(Refusal::Damaged)),
    // Its batch's length, last sequence number and number of entries, the entry's slot and its
    // DevEUI.
    (BATCH + 1, 1, Some(Refusal::Damaged)),
    (BATCH + 12, 3, Some(Refusal::Damaged)),
    (BATCH + 14, 0, Some(Refusal::Damaged)),
    (BATCH + 17, 2, Some(Refusal::Damaged)),
    (BATCH + 27, 1, Some(Refusal::Damaged)),
];

// The number of these faults.
const COUNT: usize = 22;

// Makes the fault of this number, and returns the refusal for it.
fn make(disk: &mut MemDisk, number: usize) -> Result<Option<Refusal>, Refusal> {
    let mut at: usize = 0;
    for (place, byte, refusal) in FAULTS {
        if at == number {
            put(disk, *place, &[*byte])?;
            if refusal.is_some() {
                return Ok(*refusal);
            }
        } else if refusal.is_some() {
            at = at.saturating_add(1);
        }
    }
    Err(Refusal::Malformed)
}

// Undoes what was changed in the 300 bytes from a place on.
fn put_back(disk: &mut MemDisk, image: &[u8], from: usize) -> Result<(), Refusal> {
    let Some(was) = image.get(from..from.saturating_add(300)) else {
        return Err(Refusal::CutShort);
    };
    if disk.content().get(from..from.saturating_add(300)) == Some(was) {
        return Ok(());
    }
    put(disk, from, was)
}

// Whether the first of two faults counts, or a sync that fails before both.
fn counts(
    alloc: Global,
    disk: &mut MemDisk,
    image: &[u8],
    (first, second): (usize, usize),
    is_failing: bool,
) -> Result<bool, Refusal> {
    let _ = make(disk, second)?;
    let mut wanted = make(disk, first)?;
    if is_failing {
        disk.arm(1);
        wanted = Some(Refusal::DeviceFailed);
    }
    let answer = opened(alloc, disk);
    put_back(disk, image, 0)?;
    put_back(disk, image, SECOND_AREA)?;
    Ok(wanted.is_some() && answer.err() == wanted)
}

// Whether a fault counts alone and before each of those after it, and a sync that fails before it.
fn is_in_order(
    alloc: Global,
    disk: &mut MemDisk,
    image: &[u8],
    first: usize,
) -> Result<bool, Refusal> {
    let mut is_in_order = counts(alloc, disk, image, (first, first), true)?;
    for second in first..COUNT {
        is_in_order = counts(alloc, disk, image, (first, second), false)? && is_in_order;
    }
    Ok(is_in_order)
}

// The first fault that isn't in order, and the number of faults.
fn first_other(alloc: Global, disk: &mut MemDisk, image: &[u8]) -> Result<Option<usize>, Refusal> {
    for first in 0..COUNT {
        if !is_in_order(alloc, disk, image, first)? {
            return Ok(Some(first));
        }
    }
    Ok(None)
}

// What an opening returns for an image that has an area of generation 1, and one of generation 2
// with a checkpoint of one device and a batch that adds another; and its first fault out of order.
type Order = ((usize, u64), Option<usize>);

fn order(alloc: Global) -> Result<Order, Refusal> {
    let mut disk = cut(alloc, "1c", '1', ALL)?;
    let image = disk.content().to_vec(alloc)?;
    let whole = opened(alloc, &mut disk)?;
    Ok((whole, first_other(alloc, &mut disk, &image)?))
}

#[test]
fn the_first_fault_counts(rt: HostRuntime) {
    let order = order(rt.alloc());
    assert!(rt; order == Ok(((2, 2), None)), "{order:?}");
}
