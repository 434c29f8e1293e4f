// Worlds that begin with the store of an earlier world.
use crate::answers::tell;
use crate::rows::add_line;
use disk::{Image, MemDisk};
use lw_types::{Refusal, read_hex};
use std::alloc::Global;
use test_stores::images_under_test::{OLD_FRONT, add_batch_of, disk_of};
use world::{Answer, Step, World, run};
use world_model::letters::add_letters;
use world_model::worlds::{net_id, new_disk};

const SLOTS: u64 = 3;

/// The steps of these letters.
pub(crate) fn steps_of(alloc: Global, letters: &str) -> Result<Vec<Step>, Refusal> {
    let mut steps = Vec::new(alloc);
    add_letters(alloc, &mut steps, 0, letters)?;
    Ok(steps)
}

/// The disk that a new world leaves after these letters.
pub(crate) fn left(alloc: Global, letters: &str) -> Result<MemDisk, Refusal> {
    let steps = steps_of(alloc, letters)?;
    let mut world = World::format(alloc, new_disk(alloc, SLOTS)?, net_id()?, SLOTS)?;
    let answers = run(&mut world, alloc, &steps);
    let (disk, _) = world.close();
    let _ = answers?;
    Ok(disk)
}

// The answers to these letters of a world that has adopted a disk.
fn answers_behind(alloc: Global, disk: MemDisk, letters: &str) -> Result<Vec<Answer>, Refusal> {
    let steps = steps_of(alloc, letters)?;
    let mut world = match World::adopt(alloc, disk) {
        Ok(world) => world,
        Err((_, refusal)) => return Err(refusal),
    };
    let answers = run(&mut world, alloc, &steps);
    let _ = world.close();
    answers
}

// Letters of a world, those of one that adopts its disk, and what the last answer says: the last
// DevNonce that was seen of the device at slot 0, and the number. The device that joins does so
// once by each of its requests, in any of the worlds.
const ADOPTED: &str = "\
- l -> listed nobody 0
aTccccr l -> listed - 1
aTccc l -> listed - 1
aTcc l -> listed nobody 0
aTccccrpcccc l -> listed - 1
aTccccr bTccccrol -> listed - 2
JTccccr1Tccccree l -> listed 1 2
JTccccr1Tccccree 11l -> listed 1 2
JTccccr1Tccccree 12l -> listed 2 3
JTccccr1Tccccree 2Tccccrpccccol -> listed 2 3
";

// Whether the last answer to these letters of a world that adopts a disk says this.
fn tells_so(alloc: Global, disk: MemDisk, letters: &str, told: &str) -> Result<bool, Refusal> {
    let answers = answers_behind(alloc, disk, letters)?;
    let (mut came, mut due) = (Vec::new(alloc), Vec::new(alloc));
    add_line(&mut due, told)?;
    let last = answers.last().ok_or(Refusal::Damaged)?;
    if tell(&mut came, last).is_err() {
        return Err(Refusal::OutOfMemory);
    }
    Ok(came == due)
}

fn adopts_so(alloc: Global, row: &str) -> Result<bool, Refusal> {
    let (letters, told) = row.split_once(" -> ").ok_or(Refusal::BadMessage)?;
    let (before, behind) = letters.split_once(' ').ok_or(Refusal::BadMessage)?;
    let before = if before == "-" { "" } else { before };
    tells_so(alloc, left(alloc, before)?, behind, told)
}

#[test]
fn a_world_goes_on_with_the_store_of_another(rt: HostRuntime) {
    for row in ADOPTED.trim_end().split('\n') {
        assert_eq!(rt; adopts_so(rt.alloc(), row), Ok(true), "{row}");
    }
}

/// The entry of a new device in version 1.
pub(crate) const OLD_ENTRY: &str = concat!(
    "0100000032",
    "000000000000000101020304050607082B7E151628AED2A6ABF7158809CF4F3C",
    "030001000000000000000000000000000000",
);

/// The disk of an older program, which has that device.
pub(crate) fn old_disk(alloc: Global) -> Result<MemDisk, Refusal> {
    let mut bytes = OLD_FRONT.to_vec(alloc)?;
    add_batch_of(&mut bytes, (1, 1), &read_hex(alloc, OLD_ENTRY)?)?;
    disk_of(alloc, bytes)
}

// What a list after the letters says, for a world that adopts that disk.
const TAKEN_OVER: &[(&str, &str)] = &[
    ("l", "listed - 1"),
    ("ol", "listed - 1"),
    ("JTccccr1Tccccrol", "listed - 3"),
    ("JTccccrpccccccol", "listed - 2"),
];

fn takes_over(alloc: Global, letters: &str, told: &str) -> Result<bool, Refusal> {
    tells_so(alloc, old_disk(alloc)?, letters, told)
}

#[test]
fn a_world_goes_on_with_the_store_of_an_older_program(rt: HostRuntime) {
    for (letters, told) in TAKEN_OVER {
        assert_eq!(rt;
            takes_over(rt.alloc(), letters, told),
            Ok(true),
            "{letters}"
        );
    }
}

// The refusal of a disk that holds no store, and whether it is returned as it was.
fn refused(alloc: Global) -> Result<(Refusal, bool), Refusal> {
    let bytes = vec![in alloc; 0; 1000]?;
    match World::adopt(alloc, MemDisk::new(alloc, bytes)?) {
        Ok(world) => {
            let _ = world.close();
            Err(Refusal::Damaged)
        }
        Err((disk, refusal)) => Ok((refusal, disk.content() == [0; 1000].as_slice())),
    }
}

#[test]
fn a_disk_that_holds_no_store_comes_back(rt: HostRuntime) {
    assert_eq!(rt; refused(rt.alloc()), Ok((Refusal::NotFormatted, true)));
}

// The steps that are answered, and the devices and the number after a crash, of a world that has
// adopted the disk of another.
fn found_after(
    alloc: Global,
    before: &str,
    letters: &str,
    image: &Image,
) -> Result<(usize, usize, u64), Refusal> {
    let (disk, steps) = (left(alloc, before)?, steps_of(alloc, letters)?);
    let (answers, store) = headline::crash_after_adoption(alloc, disk, &steps, image)?;
    Ok((answers.len(), store.table().devices().len(), store.seq()))
}

#[test]
fn a_crash_behind_an_adoption_leaves_what_was_there(rt: HostRuntime) {
    let alloc = rt.alloc();
    assert_eq!(rt;
        found_after(alloc, "aTccccr", "bTccc", &Image::Old),
        Ok((5, 1, 1))
    );
    assert_eq!(rt;
        found_after(alloc, "aTccccr", "bTccc", &Image::New),
        Ok((5, 2, 2))
    );
    assert_eq!(rt;
        found_after(alloc, "aTccccr", "bTcccc", &Image::Old),
        Ok((6, 2, 2))
    );
}
