// What the calls of a batch after another one write, and those of a change.
use disk::{Image, MemDisk, Sim};
use lw_types::Refusal;
use std::alloc::Global;
use world::{Step, World, run};
use world_model::letters::add_letters;
use world_model::steps::step_of;
use world_model::worlds::{net_id, new_disk};

const SLOTS: u64 = 2;

// The first uplink of the device that joins, in the session of the JoinNonce 1, and the third one,
// to which there is no answer. The frames were made by Python's `cryptography`.
const FIRST_UPLINK: &str = "frame 0 400100005401000002013F34D31913AC6B";

const THIRD_UPLINK: &str = "frame 0 4001000054000200015F7585874D";

// Letters of worlds, and `U` and `V` for these uplinks.
fn steps_of(alloc: Global, letters: &str) -> Result<Vec<Step>, Refusal> {
    let mut steps = Vec::new(alloc);
    for word in letters.split(' ') {
        match word {
            "U" => steps.push(step_of(alloc, 0, FIRST_UPLINK)?)?,
            "V" => steps.push(step_of(alloc, 0, THIRD_UPLINK)?)?,
            _ => add_letters(alloc, &mut steps, 0, word)?,
        }
    }
    Ok(steps)
}

// The disk after these steps, if it crashes and leaves this byte at the open positions.
fn crashed(alloc: Global, letters: &str, byte: u8) -> Result<MemDisk, Refusal> {
    let steps = steps_of(alloc, letters)?;
    let mut world = World::format(alloc, new_disk(alloc, SLOTS)?, net_id()?, SLOTS)?;
    let answers = run(&mut world, alloc, &steps);
    let (mut disk, _) = world.close();
    disk.crash(&Image::Fill(byte));
    let _ = answers?;
    Ok(disk)
}

// A position, and the number of positions from there on that are open.
type Range = (usize, usize);

fn add_position(ranges: &mut Vec<Range>, position: usize) -> Result<(), Refusal> {
    let (first, count) = match ranges.pop() {
        Some((first, count)) if first.saturating_add(count) == position => (first, count),
        Some(before) => {
            ranges.push(before)?;
            (position, 0)
        }
        None => (position, 0),
    };
    ranges.push((first, count.saturating_add(1)))?;
    Ok(())
}

// The open positions: those at which crashes that leave other bytes differ.
fn open_ranges(alloc: Global, letters: &str) -> Result<Vec<Range>, Refusal> {
    let (zeros, ones) = (crashed(alloc, letters, 0)?, crashed(alloc, letters, 0xFF)?);
    let mut ranges = Vec::new(alloc);
    for (position, (zero, one)) in zeros.content().iter().zip(ones.content()).enumerate() {
        if zero != one {
            add_position(&mut ranges, position)?;
        }
    }
    Ok(ranges)
}

const OPEN_RANGES: &[(&str, &[Range])] = &[
    // A batch of one new device: 14 bytes of numbers, an entry of 63 and a closed gate after the
    // gate at 62.
    ("aTc", &[(63, 78)]),
    ("aTcc", &[]),
    ("aTccc", &[(62, 1)]),
    // The next one is written before that gate is synced, and both are synced together.
    ("aTcccbNc", &[(62, 1), (141, 78)]),
    ("aTcccbNcc", &[]),
    ("aTcccbNccc", &[(140, 1)]),
    ("aTcccbNcccc", &[]),
    // A join and a first uplink, whose entries have 48 and 55 bytes, are in the batch of the new
    // device. A new uplink without an answer is an entry of 18 bytes.
    ("J1 U Tccccr V Tc", &[(244, 33)]),
    ("J1 U Tccccr V Tcc", &[]),
    ("J1 U Tccccr V Tccc", &[(243, 1)]),
    ("J1 U Tccccr V Tcccc", &[]),
];

#[test]
fn pairs_and_changes_write_what_the_layout_says(rt: HostRuntime) {
    for (letters, wanted) in OPEN_RANGES {
        match open_ranges(rt.alloc(), letters) {
            Ok(ranges) => assert!(rt; ranges.as_slice() == *wanted, "{letters}: {ranges:?}"),
            Err(refusal) => assert!(rt; false, "{letters}: {refusal:?}"),
        }
    }
}
