// Worlds that adopt the disk of an older program, whose records are of version 1. Its bytes were
// laid out by hand, from the format as it was.
use crate::adoption_tests::{OLD_ENTRY, old_disk, steps_of};
use devices::Effect;
use disk::{Image, MemDisk, Sim};
use lw_types::{Refusal, read_hex};
use std::alloc::Global;
use test_stores::images_under_test::{OLD_FRONT, add_batch_of, disk_of};
use test_stores::stores_under_test::{GATE_B, LEN, SECOND_AREA, put};
use world::{Answer, World, run};
use world_model::steps::step_of;

// The areas after two checkpoints of that device: gate, version, generation, number, number of
// records and their length.
const THIRD: &str = "A50100000000000000030000000000000001000000010000000000000037";

const SECOND: &str = "A50100000000000000020000000000000001000000010000000000000037";

// Which disk: one of a new store and a batch, or one after two checkpoints.
#[derive(Clone, Copy)]
enum Old {
    Batch,
    Checkpoints,
}

// An area with only that device.
fn area(alloc: Global, front: &str) -> Result<Vec<u8>, Refusal> {
    let mut bytes = read_hex(alloc, front)?;
    bytes.extend_from_slice(&read_hex(alloc, OLD_ENTRY)?)?;
    Ok(bytes)
}

// The first bytes of the second area, which are all that an adoption may change.
fn second_front(alloc: Global, old: Old) -> Result<Vec<u8>, Refusal> {
    let mut bytes = match old {
        Old::Batch => Vec::new(alloc),
        Old::Checkpoints => area(alloc, SECOND)?,
    };
    bytes.resize(100, 0)?;
    Ok(bytes)
}

fn disk_before(alloc: Global, old: Old) -> Result<MemDisk, Refusal> {
    let mut disk = match old {
        Old::Batch => old_disk(alloc)?,
        Old::Checkpoints => {
            let mut bytes = OLD_FRONT.to_vec(alloc)?;
            bytes.truncate(32);
            bytes.extend_from_slice(&area(alloc, THIRD)?)?;
            disk_of(alloc, bytes)?
        }
    };
    put(&mut disk, SECOND_AREA, &second_front(alloc, old)?)?;
    disk.crash(&Image::New);
    Ok(disk)
}

// Adopts a disk of which only the nth call fails. Returns the disk, and whether no call failed.
fn adopt_till(alloc: Global, mut disk: MemDisk, nth: u64) -> Result<(MemDisk, bool), Refusal> {
    if nth == 0 {
        return Err(Refusal::OutOfStep);
    }
    disk.arm(nth);
    let (mut disk, is_done) = match World::adopt(alloc, disk) {
        Ok(world) => (world.close().0, true),
        Err((disk, Refusal::DeviceFailed)) => (disk, false),
        Err((_, refusal)) => return Err(refusal),
    };
    disk.arm(u64::MAX);
    Ok((disk, is_done))
}

// The number of calls that an adoption makes.
fn calls_of(alloc: Global, old: Old) -> Result<u64, Refusal> {
    for nth in 1..100 {
        let (_, is_done) = adopt_till(alloc, disk_before(alloc, old)?, nth)?;
        if is_done {
            return Ok(nth - 1);
        }
    }
    Err(Refusal::OutOfStep)
}

// A byte that doesn't occur on these disks.
const TORN: u8 = 0xDD;

// The first position that is open, the number of open ones, and the second area's gate.
type Open = (Option<usize>, usize, u8);

// What is open if that call of an adoption fails. A failed write opens its positions and leaves the
// bytes.
fn open_after(alloc: Global, old: Old, nth: u64) -> Result<Open, Refusal> {
    let (mut disk, is_done) = adopt_till(alloc, disk_before(alloc, old)?, nth)?;
    if is_done {
        return Err(Refusal::OutOfStep);
    }
    let gate = disk.content().get(GATE_B).copied().unwrap_or(TORN);
    disk.crash(&Image::Fill(TORN));
    let first = disk.content().iter().position(|byte| *byte == TORN);
    let count = disk.content().iter().filter(|byte| **byte == TORN).count();
    Ok((first, count, gate))
}

// What is open if one of the last calls fails, from the last one back: 93 bytes are written after
// the second area's gate, and then that gate; each write is synced.
const OF_BATCH: &[Open] = &[
    (Some(1_083_078), 1, 0xA5),
    (Some(1_083_078), 1, 0),
    (Some(1_083_079), 93, 0),
    (Some(1_083_079), 93, 0),
    (None, 0, 0),
];

// Before that the gate is closed, if it is open.
const OF_CHECKPOINTS: &[Open] = &[
    (Some(1_083_078), 1, 0xA5),
    (Some(1_083_078), 1, 0),
    (Some(1_083_079), 93, 0),
    (Some(1_083_079), 93, 0),
    (Some(1_083_078), 1, 0),
    (Some(1_083_078), 1, 0xA5),
    (None, 0, 0xA5),
];

const ROWS: &[(Old, &[Open])] = &[(Old::Batch, OF_BATCH), (Old::Checkpoints, OF_CHECKPOINTS)];

// Whether that is open if the last calls of an adoption fail.
fn are_open(alloc: Global, old: Old, wanted: &[Open]) -> Result<bool, Refusal> {
    let mut nth = calls_of(alloc, old)?;
    for open in wanted {
        if open_after(alloc, old, nth)? != *open {
            return Ok(false);
        }
        nth = nth.saturating_sub(1);
    }
    Ok(true)
}

#[test]
fn an_adoption_writes_what_the_layout_says(rt: HostRuntime) {
    for (old, wanted) in ROWS {
        assert!(rt; are_open(rt.alloc(), *old, wanted) == Ok(true));
    }
}

// The image that has the low 8 bits of each position.
fn positions(alloc: Global) -> Result<Image, Refusal> {
    let mut bytes = Vec::new(alloc);
    for position in 0..LEN {
        bytes.push((position % 256) as u8)?;
    }
    Ok(Image::Bytes(bytes))
}

// The devices and the number that an adoption finds.
fn found(alloc: Global, disk: MemDisk) -> Result<(usize, u64), Refusal> {
    let none = Vec::new(alloc);
    let (_, store) = headline::crash_after_adoption(alloc, disk, &none, &Image::Old)?;
    Ok((store.table().devices().len(), store.seq()))
}

// Whether the device and its number are found again after a crash to this image, if any call of an
// adoption fails, and if none does.
fn is_kept(alloc: Global, old: Old, image: &Image) -> Result<bool, Refusal> {
    for nth in 1..100 {
        let (mut disk, is_done) = adopt_till(alloc, disk_before(alloc, old)?, nth)?;
        disk.crash(image);
        let is_found = found(alloc, disk)? == (1, 1);
        if is_done || !is_found {
            return Ok(is_found);
        }
    }
    Ok(false)
}

fn are_kept(alloc: Global, old: Old) -> Result<bool, Refusal> {
    let positions = positions(alloc)?;
    for image in [&Image::Old, &Image::New, &Image::Fill(0xA5), &positions] {
        if !is_kept(alloc, old, image)? {
            return Ok(false);
        }
    }
    Ok(true)
}

#[test]
fn a_stop_in_an_adoption_changes_nothing(rt: HostRuntime) {
    for (old, _) in ROWS {
        assert!(rt; are_kept(rt.alloc(), *old) == Ok(true));
    }
}

// The entry of a device in whose session the uplink 5 came last, and the downlink 3 is next. Its
// keys and the frames were made by Python's `cryptography`.
const IN_USE: &str = concat!(
    "0100000061",
    "111213141516171801020304050607082B7E151628AED2A6ABF7158809CF4F3C",
    "03000101000100000101000001",
    "38F19F1F7C923B7B392DFDBECE201B6B65A2E3FC3F681266CA0F9088A6AD5FE4",
    "0000000500000000000000030000000000000000",
);

// The refusal of a frame by a world that adopts that device's disk, and the counter of the downlink
// that the frame causes.
type Answered = (Option<Refusal>, Option<u32>);

fn refusal_of(answers: &[Answer]) -> Option<Refusal> {
    match answers.first() {
        Some(Answer::Turn { turn, .. }) => turn.refused,
        _ => Some(Refusal::OutOfStep),
    }
}

fn answered(alloc: Global, frame: &str) -> Result<Answered, Refusal> {
    let mut bytes = OLD_FRONT.to_vec(alloc)?;
    add_batch_of(&mut bytes, (1, 1), &read_hex(alloc, IN_USE)?)?;
    let disk = disk_of(alloc, bytes)?;
    let mut steps = steps_of(alloc, "Tccccr")?;
    steps.insert(0, step_of(alloc, 0, frame)?)?;
    let mut world = match World::adopt(alloc, disk) {
        Ok(world) => world,
        Err((_, refusal)) => return Err(refusal),
    };
    let answers = run(&mut world, alloc, &steps);
    let (_, released) = world.close();
    let counter = match released.last().map(|released| released.effect()) {
        Some(Effect::Down { counter, .. }) => Some(*counter),
        _ => None,
    };
    Ok((refusal_of(&answers?), counter))
}

// The uplink 5 again, and a confirmed uplink 6.
const ANSWERED: &[(&str, Answered)] = &[
    (
        "frame 0 400100005400050030A6F895",
        (Some(Refusal::Repeat), None),
    ),
    ("frame 0 80010000540006008598D910", (None, Some(3))),
];

#[test]
fn a_session_goes_on_after_an_adoption(rt: HostRuntime) {
    for (frame, wanted) in ANSWERED {
        assert!(rt; answered(rt.alloc(), frame) == Ok(*wanted), "{frame}");
    }
}
