// Each of the first 200 bytes of a disk, changed: what an opening returns, by docs/FORMATS.md.
use disk::MemDisk;
use lw_types::Refusal;
use std::alloc::Global;
use test_stores::stores_under_test::{opened, put, store_after};

// What a byte is changed to.
const VALUES: [u8; 4] = [0x00, 0x5A, 0xA5, 0xFF];

// The results for each of them: the number of the refusal, 0 for the store's device, or 1 for an
// empty store.
type Answers = [u8; 4];

// After which place of a disk with one device in one area other results are due. A byte that has
// the value already is in each range that has a 0 for it.
const ONE_AREA: &[(usize, Answers)] = &[
    // The gate, the name and the version; the NetID, for which 000000 is also valid.
    (1, [43, 43, 0, 43]),
    (8, [43, 43, 43, 43]),
    (9, [45, 45, 45, 45]),
    (12, [0, 44, 44, 44]),
    // 00000008 slots, an area of 00000000001086A6 bytes, and zeros.
    (15, [0, 44, 44, 44]),
    (16, [44, 44, 44, 44]),
    (21, [0, 44, 44, 44]),
    (24, [44, 44, 44, 44]),
    (32, [0, 44, 44, 44]),
    // The first area's gate, version and generation, and that it has no records.
    (33, [44, 44, 0, 44]),
    (34, [45, 45, 45, 45]),
    (35, [0, 0, 44, 44]),
    (42, [0, 0, 0, 0]),
    (62, [0, 44, 44, 44]),
    // The batch's gate, its length of 0000003F, its number 1, and its one entry.
    (63, [1, 1, 0, 1]),
    (66, [0, 44, 44, 44]),
    (67, [44, 44, 44, 44]),
    (74, [0, 44, 44, 44]),
    (75, [44, 44, 44, 44]),
    (76, [0, 44, 44, 44]),
    (77, [44, 44, 44, 44]),
    // The entry's kind, its slot, and its length of 003A.
    (78, [44, 44, 44, 44]),
    (81, [0, 44, 44, 44]),
    (82, [44, 44, 44, 44]),
    // The device's names and its key; application 3, offset 0, and a delay of 1.
    (114, [0, 0, 0, 0]),
    (116, [0, 44, 44, 44]),
    (117, [44, 44, 44, 44]),
    // No DevNonce; what was granted; no session, no tag, empty queues; and the number of uplinks
    // that were counted, below 2^63.
    (120, [0, 44, 44, 44]),
    (123, [0, 0, 0, 0]),
    (132, [0, 44, 44, 44]),
    (133, [0, 0, 44, 44]),
    (140, [0, 0, 0, 0]),
    // The gate after the batch, and what doesn't count.
    (141, [0, 0, 44, 0]),
    (200, [0, 0, 0, 0]),
];

// The same if the second area is live, of generation 2, and the first one has the same table.
const TWO_AREAS: &[(usize, Answers)] = &[
    (1, [43, 43, 0, 43]),
    (8, [43, 43, 43, 43]),
    (9, [45, 45, 45, 45]),
    (15, [0, 44, 44, 44]),
    (16, [44, 44, 44, 44]),
    (21, [0, 44, 44, 44]),
    (24, [44, 44, 44, 44]),
    (32, [0, 44, 44, 44]),
    // A generation of 2^63 or above is greater, and not allowed.
    (34, [0, 0, 0, 0]),
    (35, [0, 0, 44, 44]),
    (200, [0, 0, 0, 0]),
];

// What an opening returns if a byte is changed. Leaves the disk as it was.
fn answer(alloc: Global, disk: &mut MemDisk, place: usize, byte: u8) -> Result<u8, Refusal> {
    let Some(was) = disk.content().get(place).copied() else {
        return Err(Refusal::CutShort);
    };
    put(disk, place, &[byte])?;
    let answer = match opened(alloc, disk) {
        Ok((1, 1)) => 0,
        Ok((0, 0)) => 1,
        Ok(_) => u8::MAX,
        Err(refusal) => refusal.number(),
    };
    put(disk, place, &[was])?;
    Ok(answer)
}

// Whether all values at a place give these results.
fn is_answered(
    alloc: Global,
    disk: &mut MemDisk,
    place: usize,
    due: &Answers,
) -> Result<bool, Refusal> {
    let mut is_answered = true;
    for (byte, due) in VALUES.iter().zip(due) {
        is_answered = answer(alloc, disk, place, *byte)? == *due && is_answered;
    }
    Ok(is_answered)
}

// The first place with other results, on the disk of a store after these steps.
fn first_other(
    alloc: Global,
    steps: &str,
    ranges: &[(usize, Answers)],
) -> Result<Option<usize>, Refusal> {
    let mut disk = store_after(alloc, steps)?.close();
    let mut from = 0;
    for (to, due) in ranges {
        for place in from..*to {
            if !is_answered(alloc, &mut disk, place, due)? {
                return Ok(Some(place));
            }
        }
        from = *to;
    }
    Ok(None)
}

#[test]
fn each_byte_of_a_front_counts_as_it_should(rt: HostRuntime) {
    for (steps, ranges) in [("1", ONE_AREA), ("1c", TWO_AREAS)] {
        assert_eq!(rt; first_other(rt.alloc(), steps, ranges), Ok(None), "{steps}");
    }
}
