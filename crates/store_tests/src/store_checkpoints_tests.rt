// Checkpoints of stores, and openings over two areas.
use crate::store_tests::{Answers, answers};
use disk::{Image, MemDisk, Sim};
use lw_types::Refusal;
use std::alloc::Global;
use store::{Store, open};
use test_stores::stores_under_test::{
    ALL, GATE_A, GATE_B, HIGH_A, HIGH_B, LEN, LEN_A, LEN_B, LOW_A, SECOND_AREA, VERSION_A,
    VERSION_B, begin_checkpoint, crashed, cut, opened, put, store_after, take,
};

// The beginning of the second area after a checkpoint of one device: its gate, version, generation,
// sequence number, number of records and their length.
const CHECKPOINT: [u8; 30] = [
    0xA5, 2, 0, 0, 0, 0, 0, 0, 0, 2, 0, 0, 0, 0, 0, 0, 0, 1, 0, 0, 0, 1, 0, 0, 0, 0, 0, 0, 0, 63,
];

// Whether the second area has the entry that the batch of the first one has, and after it a closed
// gate.
fn has_checkpoint(content: &[u8]) -> bool {
    if content.len() != LEN {
        return false;
    }
    let area = &content[SECOND_AREA..];
    area.starts_with(&CHECKPOINT) && area[30..93] == content[77..140] && area[93] != 0xA5
}

// A checkpoint for which memory ran out leaves the store as it was, so the next one succeeds.
fn made_at_last(alloc: Global, store: &mut Store<MemDisk>) -> Result<(), Refusal> {
    match take(alloc, store, 'c', ALL) {
        Err(Refusal::OutOfMemory) => take(alloc, store, 'c', ALL),
        answer => answer,
    }
}

fn is_written(alloc: Global) -> Result<bool, Refusal> {
    let mut store = store_after(alloc, "1")?;
    let made = made_at_last(alloc, &mut store);
    let is_roomy = store.roomy();
    let disk = store.close();
    Ok(made.is_ok() && is_roomy && has_checkpoint(disk.content()))
}

#[test]
fn a_checkpoint_writes_what_the_layout_says(rt: HostRuntime) {
    assert!(rt; is_written(rt.alloc()) == Ok(true));
}

// The first calls of a checkpoint, which has four if the area is closed.
fn begin_again(alloc: Global, store: &mut Store<MemDisk>, calls: u64) -> Result<(), Refusal> {
    if store.must_retire() {
        return Err(Refusal::Backlog);
    }
    begin_checkpoint(alloc, store, calls)
}

// What is found after a checkpoint whose first call is cut off by a crash to this image, this
// number of calls of one that is begun again, and another crash.
fn begun_again(alloc: Global, calls: u64, image: &Image) -> Result<(usize, u64), Refusal> {
    let mut disk = cut(alloc, "1", 'c', 1)?;
    disk.crash(image);
    let mut store = open(alloc, disk)?;
    let begun = begin_again(alloc, &mut store, calls);
    let found = crashed(alloc, store.close(), image)?;
    begun?;
    Ok(found)
}

#[test]
fn a_checkpoint_that_was_cut_is_begun_again(rt: HostRuntime) {
    let alloc = rt.alloc();
    for calls in 1..5 {
        assert!(rt; begun_again(alloc, calls, &Image::Old) == Ok((1, 1)));
        assert!(rt; begun_again(alloc, calls, &Image::New) == Ok((1, 1)));
        assert!(rt; begun_again(alloc, calls, &Image::Fill(0xA5)) == Ok((1, 1)));
    }
}

// The disk of a store with one device, of generation 1 and 2 in the two areas.
fn two_generations(alloc: Global) -> Result<MemDisk, Refusal> {
    cut(alloc, "1", 'c', ALL)
}

// What is opened.
type Answer = Result<(usize, u64), Refusal>;

const FOUND: Answer = Ok((1, 1));

const DAMAGED: Answer = Err(Refusal::Damaged);

const OTHER_VERSION: Answer = Err(Refusal::WrongVersion);

// What openings of one disk return after other bytes, one after another. Each opening undoes the
// changes of the one before.
const OPENINGS: &[(usize, u8, Option<Answer>)] = &[
    // Nothing is changed.
    (GATE_A, 0xA5, Some(FOUND)),
    // One area is closed, whatever else is wrong there.
    (GATE_A, 0, Some(FOUND)),
    (VERSION_A, 9, None),
    (LEN_A, 0x7F, Some(FOUND)),
    (GATE_A, 0xA5, None),
    (VERSION_A, 2, None),
    (LEN_A, 0, None),
    (GATE_B, 0, Some(FOUND)),
    (VERSION_B, 9, None),
    (LEN_B, 0x7F, Some(FOUND)),
    // Both are closed, or of one generation: this is noticed before any version is read.
    (GATE_A, 0, Some(DAMAGED)),
    (GATE_B, 0xA5, None),
    (VERSION_B, 2, None),
    (LEN_B, 0, Some(FOUND)),
    (GATE_A, 0xA5, None),
    (LOW_A, 2, Some(DAMAGED)),
    (VERSION_A, 9, Some(DAMAGED)),
    (VERSION_B, 9, Some(DAMAGED)),
    // The greater generation counts, and nothing else of the other area does.
    (LOW_A, 1, Some(OTHER_VERSION)),
    (VERSION_B, 2, Some(FOUND)),
    (LEN_A, 0x7F, Some(FOUND)),
    (LOW_A, 3, Some(OTHER_VERSION)),
    (VERSION_A, 2, Some(DAMAGED)),
    (LEN_A, 0, None),
    (VERSION_B, 9, Some(FOUND)),
    // Generations have no sign, and one is at most 2^63 - 1; the version is tested before that.
    (HIGH_A, 0x7F, Some(FOUND)),
    (HIGH_A, 0x80, Some(DAMAGED)),
    (HIGH_A, 0, None),
    (LOW_A, 1, Some(OTHER_VERSION)),
    (HIGH_B, 0x80, Some(OTHER_VERSION)),
    (VERSION_B, 2, Some(DAMAGED)),
    (HIGH_B, 0x7F, Some(FOUND)),
    // The length of the records, their number, the kind of a record and its slot.
    (LEN_B, 0x7F, Some(DAMAGED)),
    (LEN_B, 0, None),
    (SECOND_AREA + 21, 0, Some(DAMAGED)),
    (SECOND_AREA + 21, 2, Some(DAMAGED)),
    (SECOND_AREA + 21, 1, Some(FOUND)),
    (SECOND_AREA + 30, 2, Some(DAMAGED)),
    (SECOND_AREA + 30, 1, None),
    (SECOND_AREA + 31, 0, None),
    (SECOND_AREA + 32, 1, Some(DAMAGED)),
];

// The place of the first byte whose opening returns something else.
fn first_other(alloc: Global, disk: &mut MemDisk) -> Result<Option<usize>, Refusal> {
    for (place, byte, wanted) in OPENINGS {
        put(disk, *place, &[*byte])?;
        if wanted.is_some() && Some(opened(alloc, disk)) != *wanted {
            return Ok(Some(*place));
        }
    }
    Ok(None)
}

fn of_two_generations(alloc: Global) -> Result<Option<usize>, Refusal> {
    first_other(alloc, &mut two_generations(alloc)?)
}

#[test]
fn the_area_of_the_greater_generation_is_opened(rt: HostRuntime) {
    let other = of_two_generations(rt.alloc());
    assert!(rt; other == Ok(None), "{other:?}");
}

// Whether the result of an opening is a table, or one of the four faults of an image.
fn is_an_answer(answer: &Result<(usize, u64), Refusal>) -> bool {
    matches!(
        answer,
        Ok(_)
            | Err(
                Refusal::NotFormatted
                    | Refusal::Damaged
                    | Refusal::WrongVersion
                    | Refusal::WrongSize
            )
    )
}

// Whether the disk with any of these bytes at a place has such a result. Leaves the disk as it was.
fn has_answers(alloc: Global, disk: &mut MemDisk, place: usize) -> Result<bool, Refusal> {
    let Some(was) = disk.content().get(place).copied() else {
        return Err(Refusal::CutShort);
    };
    let mut has_answers = true;
    for byte in &[0x00, 0x5A, 0xA5, 0xFF] {
        put(disk, place, &[*byte])?;
        has_answers = is_an_answer(&opened(alloc, disk)) && has_answers;
    }
    put(disk, place, &[was])?;
    Ok(has_answers)
}

// The first place at the beginning of both areas that has none.
fn first_without(alloc: Global, disk: &mut MemDisk) -> Result<Option<usize>, Refusal> {
    for place in (0..GATE_A + 200).chain(GATE_B..GATE_B + 200) {
        if !has_answers(alloc, disk, place)? {
            return Ok(Some(place));
        }
    }
    Ok(None)
}

fn without_answer(alloc: Global) -> Result<Option<usize>, Refusal> {
    first_without(alloc, &mut two_generations(alloc)?)
}

#[test]
fn any_byte_of_a_front_has_an_answer(rt: HostRuntime) {
    let without = without_answer(rt.alloc());
    assert!(rt; without == Ok(None), "{without:?}");
}

// The results of two checkpoints and a commit in a store whose live area has a generation with
// these bytes; the number of the store then, and what is found.
fn last(alloc: Global, generation: &[u8]) -> Result<Answers, Refusal> {
    let mut disk = two_generations(alloc)?;
    match put(&mut disk, HIGH_B, generation) {
        Ok(()) => answers(alloc, open(alloc, disk)?, 'c'),
        Err(refusal) => Err(refusal),
    }
}

const REFUSED: Result<(), Refusal> = Err(Refusal::Damaged);

const LAST: &[(&[u8], Result<(), Refusal>)] = &[
    (&[0x7F, 0xFF, 0xFF, 0xFF, 0xFF, 0xFF, 0xFF, 0xFF], REFUSED),
    (&[0x7F, 0xFF, 0xFF, 0xFF, 0xFF, 0xFF, 0xFF, 0xFE], Ok(())),
];

#[test]
fn behind_the_last_generation_there_is_no_checkpoint(rt: HostRuntime) {
    for (generation, first) in LAST {
        let wanted = ((*first, REFUSED, Ok(())), 2, (2, 2));
        assert!(rt; last(rt.alloc(), generation) == Ok(wanted));
    }
}
