// Stores that an older program wrote, in records of version 1, and how they are taken over. Their
// bytes were laid out by hand, from the format as it was.
use devices::Effect;
use disk::{Image, MemDisk, Sim};
use lw_types::{Refusal, read_hex};
use std::alloc::Global;
use store::open;
use test_stores::devices_under_test::heard;
use test_stores::images_under_test::{OLD_FRONT, add_batch_of, disk_of};
use test_stores::stores_under_test::{GATE_B, HIGH_A, LEN, SECOND_AREA, VERSION_A, opened, put};

// The entry of a new device.
const NEW_DEVICE: &str = concat!(
    "0100000032",
    "000000000000000101020304050607082B7E151628AED2A6ABF7158809CF4F3C",
    "030001000000000000000000000000000000",
);

// The areas after two checkpoints of that device: gate, version, generation, number, number of
// records and their length.
const THIRD: &str = "A501000000000000000300000000000000010000000100000000000000";

const SECOND: &str = "A501000000000000000200000000000000010000000100000000000000";

// Which disk: one of a new store and a batch, or one after two checkpoints.
#[derive(Clone, Copy)]
enum Old {
    Batch,
    Checkpoints,
}

// An area with only that device.
fn area(alloc: Global, front: &str) -> Result<Vec<u8>, Refusal> {
    let mut bytes = read_hex(alloc, front)?;
    bytes.push(55)?;
    bytes.extend_from_slice(&read_hex(alloc, NEW_DEVICE)?)?;
    Ok(bytes)
}

// The bytes before the first area's last gate.
fn first_front(alloc: Global, old: Old) -> Result<Vec<u8>, Refusal> {
    let mut bytes = OLD_FRONT.to_vec(alloc)?;
    match old {
        Old::Batch => add_batch_of(&mut bytes, (1, 1), &read_hex(alloc, NEW_DEVICE)?)?,
        Old::Checkpoints => {
            bytes.truncate(32);
            bytes.extend_from_slice(&area(alloc, THIRD)?)?;
        }
    }
    Ok(bytes)
}

// The first bytes of the second area, which are all that an opening may change.
fn second_front(alloc: Global, old: Old) -> Result<Vec<u8>, Refusal> {
    let mut bytes = match old {
        Old::Batch => Vec::new(alloc),
        Old::Checkpoints => area(alloc, SECOND)?,
    };
    bytes.resize(100, 0)?;
    Ok(bytes)
}

fn old_disk(alloc: Global, old: Old) -> Result<MemDisk, Refusal> {
    let second = second_front(alloc, old)?;
    let mut disk = disk_of(alloc, first_front(alloc, old)?)?;
    put_back(&mut disk, &second)?;
    Ok(disk)
}

// Undoes what an opening changed.
fn put_back(disk: &mut MemDisk, second: &[u8]) -> Result<(), Refusal> {
    put(disk, SECOND_AREA, second)?;
    disk.crash(&Image::New);
    Ok(())
}

// Opens the disk, of which only the nth call fails, and returns whether that succeeded.
fn open_till(alloc: Global, disk: &mut MemDisk, nth: u64) -> Result<bool, Refusal> {
    if nth == 0 {
        return Err(Refusal::OutOfStep);
    }
    disk.arm(nth);
    let answer = opened(alloc, disk);
    disk.arm(u64::MAX);
    match answer {
        Ok(_) => Ok(true),
        Err(Refusal::DeviceFailed) => Ok(false),
        Err(refusal) => Err(refusal),
    }
}

// A byte that doesn't occur on these disks.
const TORN: u8 = 0xDD;

// The first position that is open, the number of open ones, and the second area's gate.
type Open = (Option<usize>, usize, u8);

fn open_positions(disk: &mut MemDisk) -> Open {
    let gate = disk.content().get(GATE_B).copied().unwrap_or(TORN);
    disk.crash(&Image::Fill(TORN));
    let first = disk.content().iter().position(|byte| *byte == TORN);
    let count = disk.content().iter().filter(|byte| **byte == TORN).count();
    (first, count, gate)
}

// What is open if one of the last calls fails, from the last one back: 93 bytes are written after
// the second area's gate, and then that gate; each is synced.
const OF_BATCH: &[Open] = &[
    (Some(1_083_078), 1, 0xA5),
    (Some(1_083_078), 1, 0),
    (Some(1_083_079), 93, 0),
    (Some(1_083_079), 93, 0),
    (None, 0, 0),
];

// Before that the gate is closed if it is open.
const OF_CHECKPOINTS: &[Open] = &[
    (Some(1_083_078), 1, 0xA5),
    (Some(1_083_078), 1, 0),
    (Some(1_083_079), 93, 0),
    (Some(1_083_079), 93, 0),
    (Some(1_083_078), 1, 0),
    (Some(1_083_078), 1, 0xA5),
    (None, 0, 0xA5),
];

// The number of the first call that an opening no longer makes.
fn calls_of(alloc: Global, disk: &mut MemDisk, second: &[u8]) -> Result<u64, Refusal> {
    for nth in 1..100 {
        let is_done = open_till(alloc, disk, nth)?;
        put_back(disk, second)?;
        if is_done {
            return Ok(nth);
        }
    }
    Err(Refusal::OutOfStep)
}

// Whether that is open if the last calls of an opening fail. A failed write opens its positions and
// leaves the bytes.
fn are_open(
    alloc: Global,
    disk: &mut MemDisk,
    second: &[u8],
    wanted: &[Open],
) -> Result<bool, Refusal> {
    let mut nth = calls_of(alloc, disk, second)?;
    for open in wanted {
        nth = nth.saturating_sub(1);
        if open_till(alloc, disk, nth)? || open_positions(disk) != *open {
            return Ok(false);
        }
        put_back(disk, second)?;
    }
    Ok(true)
}

fn opens(alloc: Global, old: Old, wanted: &[Open]) -> Result<bool, Refusal> {
    let second = second_front(alloc, old)?;
    are_open(alloc, &mut old_disk(alloc, old)?, &second, wanted)
}

#[test]
fn migration_writes_what_the_layout_says(rt: HostRuntime) {
    assert!(rt; opens(rt.alloc(), Old::Batch, OF_BATCH) == Ok(true));
    assert!(rt; opens(rt.alloc(), Old::Checkpoints, OF_CHECKPOINTS) == Ok(true));
}

// Whether the device and its number are found again if any call of an opening fails, and if none
// does, after a crash to an image or without one.
fn is_kept(
    alloc: Global,
    disk: &mut MemDisk,
    second: &[u8],
    image: Option<&Image>,
) -> Result<bool, Refusal> {
    for nth in 1..100 {
        let is_done = open_till(alloc, disk, nth)?;
        if let Some(image) = image {
            disk.crash(image);
        }
        let found = opened(alloc, disk)?;
        if found != (1, 1) || is_done {
            return Ok(found == (1, 1));
        }
        put_back(disk, second)?;
    }
    Ok(false)
}

fn survives(alloc: Global, old: Old, image: Option<&Image>) -> Result<bool, Refusal> {
    let second = second_front(alloc, old)?;
    is_kept(alloc, &mut old_disk(alloc, old)?, &second, image)
}

// Without a crash, and after one to the old bytes, to the new ones and to open gates.
fn survives_all(alloc: Global, old: Old) -> bool {
    survives(alloc, old, None) == Ok(true)
        && survives(alloc, old, Some(&Image::Old)) == Ok(true)
        && survives(alloc, old, Some(&Image::New)) == Ok(true)
        && survives(alloc, old, Some(&Image::Fill(0xA5))) == Ok(true)
}

#[test]
fn a_call_that_fails_in_migration_changes_nothing(rt: HostRuntime) {
    assert!(rt; survives_all(rt.alloc(), Old::Batch));
    assert!(rt; survives_all(rt.alloc(), Old::Checkpoints));
}

// The beginning of the second area after the store was taken over: its gate, version 2, the next
// generation, the number, and one record of 58 bytes, the last eight of which count uplinks.
const TAKEN_OVER: &str = concat!(
    "A5020000000000000002000000000000000100000001000000000000003F",
    "010000003A",
    "000000000000000101020304050607082B7E151628AED2A6ABF7158809CF4F3C",
    "0300010000000000000000000000000000000000000000000000",
    "00",
);

// An opening for which memory ran out changes nothing, so the next one succeeds.
fn open_at_last(alloc: Global, disk: &mut MemDisk) -> Result<(usize, u64), Refusal> {
    match opened(alloc, disk) {
        Err(Refusal::OutOfMemory) => opened(alloc, disk),
        answer => answer,
    }
}

fn is_taken_over(alloc: Global) -> Result<bool, Refusal> {
    let mut disk = old_disk(alloc, Old::Batch)?;
    let before = disk.content().to_vec(alloc)?;
    let written = read_hex(alloc, TAKEN_OVER)?;
    let found = open_at_last(alloc, &mut disk)?;
    let content = disk.content();
    let Some(second) = content.get(SECOND_AREA..) else {
        return Ok(false);
    };
    let is_there = content.len() == LEN
        && content.get(..SECOND_AREA) == before.as_slice().get(..SECOND_AREA)
        && second.starts_with(&written);
    Ok(found == (1, 1) && is_there)
}

#[test]
fn the_table_is_published_in_version_2_and_the_old_area_stays(rt: HostRuntime) {
    assert!(rt; is_taken_over(rt.alloc()) == Ok(true));
}

// The first area's version and generation, and the last byte of the other area's generation, which
// is 0 if nothing is taken over.
const GENERATIONS: &[(u8, [u8; 8], Result<u8, Refusal>)] = &[
    (
        1,
        [0x7F, 0xFF, 0xFF, 0xFF, 0xFF, 0xFF, 0xFF, 0xFE],
        Ok(0xFF),
    ),
    (
        1,
        [0x7F, 0xFF, 0xFF, 0xFF, 0xFF, 0xFF, 0xFF, 0xFF],
        Err(Refusal::Damaged),
    ),
    (1, [0x80, 0, 0, 0, 0, 0, 0, 0], Err(Refusal::Damaged)),
    (2, [0x7F, 0xFF, 0xFF, 0xFF, 0xFF, 0xFF, 0xFF, 0xFE], Ok(0)),
    (2, [0x7F, 0xFF, 0xFF, 0xFF, 0xFF, 0xFF, 0xFF, 0xFF], Ok(0)),
    (2, [0x80, 0, 0, 0, 0, 0, 0, 0], Err(Refusal::Damaged)),
    (3, [0, 0, 0, 0, 0, 0, 0, 1], Err(Refusal::WrongVersion)),
    (0, [0, 0, 0, 0, 0, 0, 0, 1], Err(Refusal::WrongVersion)),
];

// The last byte of the second area's generation.
const LOW_B: usize = SECOND_AREA + 9;

fn of_generation(alloc: Global, version: u8, generation: &[u8]) -> Result<u8, Refusal> {
    let mut disk = disk_of(alloc, OLD_FRONT.to_vec(alloc)?)?;
    put(&mut disk, VERSION_A, &[version])?;
    put(&mut disk, HIGH_A, generation)?;
    match (opened(alloc, &mut disk)?, disk.content().get(LOW_B)) {
        ((0, 0), Some(low)) => Ok(*low),
        _ => Err(Refusal::OutOfStep),
    }
}

#[test]
fn an_area_that_can_not_be_followed_is_damaged(rt: HostRuntime) {
    for (version, generation, wanted) in GENERATIONS {
        let answer = of_generation(rt.alloc(), *version, generation);
        assert!(rt; answer == *wanted, "version {version}");
    }
}

// The entry of a device in whose session the uplink 5 came last, and the downlink 3 is next. Its
// keys and the frames were made by Python's `cryptography`.
const IN_USE: &str = concat!(
    "0100000061",
    "111213141516171801020304050607082B7E151628AED2A6ABF7158809CF4F3C",
    "03000101000100000101000001",
    "38F19F1F7C923B7B392DFDBECE201B6B65A2E3FC3F681266CA0F9088A6AD5FE4",
    "0000000500000000000000030000000000000000",
);

// The counter of the downlink that a frame causes.
fn downlink_of(alloc: Global, digits: &str) -> Result<u32, Refusal> {
    let mut bytes = OLD_FRONT.to_vec(alloc)?;
    add_batch_of(&mut bytes, (1, 1), &read_hex(alloc, IN_USE)?)?;
    let store = open(alloc, disk_of(alloc, bytes)?)?;
    let decision = store.table().decide(alloc, 2, heard(alloc, digits)?)?;
    match decision.effects.as_slice() {
        [Effect::Down { counter, .. }] => Ok(*counter),
        _ => Err(Refusal::OutOfStep),
    }
}

// The uplink 5 again, and a confirmed uplink 6.
const NEXT: &[(&str, Result<u32, Refusal>)] = &[
    ("400100005400050030A6F895", Err(Refusal::Repeat)),
    ("80010000540006008598D910", Ok(3)),
];

#[test]
fn counters_go_on_where_they_were(rt: HostRuntime) {
    for (digits, wanted) in NEXT {
        assert!(rt; downlink_of(rt.alloc(), digits) == *wanted, "{digits}");
    }
}
