// New stores, commits, crashes during commits and checkpoints, and failing disks.
use disk::{Image, MemDisk, Sim};
use lw_types::Refusal;
use sessions::{Batch, Table};
use std::alloc::Global;
use store::{Store, format, format_back, open};
use test_stores::devices_under_test::{net_id, new_table, provisionings};
use test_stores::images_under_test::FRONT;
use test_stores::stores_under_test::{
    ALL, LEN, SECOND_AREA, begin_commit, blank, crashed, cut, found, new_store, state_of,
    store_after, take, take_all,
};

// The refusal of a format of this number of slots on a disk of this length.
fn refused(alloc: Global, slots: u64, len: usize) -> Result<Option<Refusal>, Refusal> {
    Ok(format(alloc, blank(alloc, len)?, net_id()?, slots).err())
}

const NO_FORMATS: &[(u64, usize, Refusal)] = &[
    (0, LEN, Refusal::Damaged),
    (4097, LEN, Refusal::Damaged),
    (8, LEN - 1, Refusal::WrongSize),
    (8, LEN + 1, Refusal::WrongSize),
];

#[test]
fn a_disk_that_is_no_stores_is_not_formatted(rt: HostRuntime) {
    for (slots, len, refusal) in NO_FORMATS {
        let answer = refused(rt.alloc(), *slots, *len);
        assert!(rt; answer == Ok(Some(*refusal)), "{slots} slots, {len} bytes");
    }
}

// What is opened after a crash that leaves open gates, of a format that fails after this number of
// calls.
fn cut_format(alloc: Global, calls: u8) -> Result<(usize, u64), Refusal> {
    let mut disk = blank(alloc, LEN)?;
    disk.arm(u64::from(calls) + 1);
    match format_back(alloc, disk, net_id()?, 8) {
        Err((disk, Refusal::DeviceFailed)) => crashed(alloc, disk, &Image::Fill(0xA5)),
        _ => Err(Refusal::Backlog),
    }
}

const CUT_FORMATS: &[(u8, Result<(usize, u64), Refusal>)] = &[
    (0, Err(Refusal::NotFormatted)),
    (1, Err(Refusal::NotFormatted)),
    (4, Err(Refusal::NotFormatted)),
    (5, Err(Refusal::NotFormatted)),
    (6, Ok((0, 0))),
    (7, Ok((0, 0))),
];

#[test]
fn a_format_that_is_cut_leaves_no_store_or_a_new_one(rt: HostRuntime) {
    for (calls, wanted) in CUT_FORMATS {
        assert!(rt; cut_format(rt.alloc(), *calls) == *wanted, "{calls} calls");
    }
}

// Whether a new store has no devices, and its disk has the length and the beginning of its layout,
// with a closed gate in each area.
fn is_new(alloc: Global) -> Result<bool, Refusal> {
    let store = new_store(alloc, 8)?;
    let is_empty = store.roomy() && store.seq() == 0 && store.table().devices().is_empty();
    let disk = store.close();
    let content = disk.content();
    let has_layout = content.len() == LEN
        && content.starts_with(&FRONT)
        && content[62] != 0xA5
        && content[SECOND_AREA] != 0xA5;
    Ok(is_empty && has_layout)
}

#[test]
fn a_new_store_has_its_layout_and_no_devices(rt: HostRuntime) {
    assert!(rt; is_new(rt.alloc()) == Ok(true));
}

// A byte that doesn't occur on the disks of these tests.
const TORN: u8 = 0xDD;

// The first position that is then open, the number of open ones, and the gates of both areas.
type Open = (Option<usize>, usize, u8, u8);

fn open_positions(alloc: Global, steps: &str, last: char, calls: u64) -> Result<Open, Refusal> {
    let mut disk = cut(alloc, steps, last, calls)?;
    let gates = match (disk.content().get(32), disk.content().get(SECOND_AREA)) {
        (Some(first), Some(second)) => (*first, *second),
        _ => return Err(Refusal::CutShort),
    };
    disk.crash(&Image::Fill(TORN));
    let first = disk.content().iter().position(|byte| *byte == TORN);
    let count = disk.content().iter().filter(|byte| **byte == TORN).count();
    Ok((first, count, gates.0, gates.1))
}

// Steps, and this number of calls of a last one.
const OPEN_POSITIONS: &[(&str, char, u64, Open)] = &[
    // A commit of five writes 330 bytes after its gate, and then that gate.
    ("", '5', 1, (Some(63), 330, 0xA5, 0)),
    ("", '5', 2, (None, 0, 0xA5, 0)),
    ("", '5', 3, (Some(62), 1, 0xA5, 0)),
    ("", '5', 4, (None, 0, 0xA5, 0)),
    // The first checkpoint writes 93 bytes after the second area's gate, and then that gate.
    ("1", 'c', 1, (Some(1_083_079), 93, 0xA5, 0)),
    ("1", 'c', 2, (None, 0, 0xA5, 0)),
    ("1", 'c', 3, (Some(1_083_078), 1, 0xA5, 0xA5)),
    ("1", 'c', 4, (None, 0, 0xA5, 0xA5)),
    // The second one closes the first area's gate before it does the same there.
    ("1c", 'c', 1, (Some(32), 1, 0, 0xA5)),
    ("1c", 'c', 2, (None, 0, 0, 0xA5)),
    ("1c", 'c', 3, (Some(33), 93, 0, 0xA5)),
    ("1c", 'c', 4, (None, 0, 0, 0xA5)),
    ("1c", 'c', 5, (Some(32), 1, 0xA5, 0xA5)),
    ("1c", 'c', 6, (None, 0, 0xA5, 0xA5)),
];

#[test]
fn commits_and_checkpoints_write_what_the_layout_says(rt: HostRuntime) {
    for (steps, last, calls, wanted) in OPEN_POSITIONS {
        let positions = open_positions(rt.alloc(), steps, *last, *calls);
        assert!(rt; positions == Ok(*wanted), "{steps}{last}, {calls} calls");
    }
}

// What is found in the old bytes, in the new ones and in open gates.
type Images = ((usize, u64), (usize, u64), (usize, u64));

// What a crash to an image leaves after these steps, and this number of calls of a last one.
fn left_of(
    alloc: Global,
    steps: &str,
    (last, calls): (char, u64),
    image: &Image,
) -> Result<(usize, u64), Refusal> {
    match cut(alloc, steps, last, calls) {
        Ok(disk) => crashed(alloc, disk, image),
        Err(refusal) => Err(refusal),
    }
}

fn left(alloc: Global, steps: &str, last: char, calls: u64) -> Result<Images, Refusal> {
    let step = (last, calls);
    let old = left_of(alloc, steps, step, &Image::Old)?;
    let new = left_of(alloc, steps, step, &Image::New)?;
    Ok((old, new, left_of(alloc, steps, step, &Image::Fill(0xA5))?))
}

const COMMITS: &[(u64, Images)] = &[
    (1, ((0, 0), (0, 0), (0, 0))),
    (2, ((0, 0), (0, 0), (0, 0))),
    (3, ((0, 0), (5, 5), (5, 5))),
    (4, ((5, 5), (5, 5), (5, 5))),
];

#[test]
fn a_crash_leaves_all_of_a_batch_or_nothing(rt: HostRuntime) {
    for (calls, wanted) in COMMITS {
        let left = left(rt.alloc(), "", '5', *calls);
        assert!(rt; left == Ok(*wanted), "{calls} calls");
    }
}

// Steps before a checkpoint, the number of its calls, and the number of devices.
const CHECKPOINTS: &[(&str, u64, (usize, u64))] = &[
    ("1", 4, (1, 1)),
    ("1c", 6, (1, 1)),
    // Over an old one, after which a device came.
    ("1c1", 6, (2, 2)),
];

#[test]
fn a_crash_in_a_checkpoint_changes_nothing(rt: HostRuntime) {
    for (steps, most, wanted) in CHECKPOINTS {
        for calls in 1..*most + 1 {
            let left = left(rt.alloc(), steps, 'c', calls);
            assert!(rt;
                left == Ok((*wanted, *wanted, *wanted)),
                "{steps}, {calls} calls"
            );
        }
    }
}

// What a store has after these steps, when it's opened again, and when it's opened after others.
fn goes_on(alloc: Global, slots: u64, steps: &str, others: &str) -> Result<Images, Refusal> {
    let mut store = new_store(alloc, slots)?;
    let taken = take_all(alloc, &mut store, steps);
    let before = state_of(&store);
    let mut again = open(alloc, store.close())?;
    let behind = state_of(&again);
    let taken_behind = take_all(alloc, &mut again, others);
    let last = found(alloc, again.close())?;
    taken?;
    taken_behind?;
    Ok((before?, behind?, last))
}

const GOING_ON: &[(u64, &str, &str, Images)] = &[
    // Ten batches of ten.
    (101, "xxxxxxxxxx", "1", ((100, 100), (100, 100), (101, 101))),
    // The largest batch.
    (64, "m", "", ((64, 64), (64, 64), (64, 64))),
    // A checkpoint and one more device, four times over.
    (8, "1c1c1c1c1", "", ((5, 5), (5, 5), (5, 5))),
];

#[test]
fn a_store_goes_on(rt: HostRuntime) {
    for (slots, steps, others, wanted) in GOING_ON {
        let goes_on = goes_on(rt.alloc(), *slots, steps, others);
        assert!(rt; goes_on == Ok(*wanted), "{steps}");
    }
}

// The results of a step, of the same step again and of a commit after it; the number of the store
// then, and what is found.
pub type Answers = (Three, u64, (usize, u64));

pub type Three = (
    Result<(), Refusal>,
    Result<(), Refusal>,
    Result<(), Refusal>,
);

pub fn answers(alloc: Global, mut store: Store<MemDisk>, step: char) -> Result<Answers, Refusal> {
    let answers = (
        take(alloc, &mut store, step, ALL),
        take(alloc, &mut store, step, ALL),
        take(alloc, &mut store, '1', ALL),
    );
    let seq = store.seq();
    Ok((answers, seq, found(alloc, store.close())?))
}

// Those of a store after some steps, if only the call after this number of calls fails.
fn failing(alloc: Global, steps: &str, step: char, calls: u8) -> Result<Answers, Refusal> {
    let mut store = store_after(alloc, steps)?;
    store.arm(3);
    store.arm(u64::from(calls) + 1);
    answers(alloc, store, step)
}

// The results if this number of steps are done before the failure.
fn done_before(steps: u8) -> Three {
    let (fails, failed) = (Err(Refusal::DeviceFailed), Err(Refusal::Failed));
    match steps {
        0 => (fails, failed, failed),
        1 => (Ok(()), fails, failed),
        _ => (Ok(()), Ok(()), fails),
    }
}

// Steps, and the calls of commits after them that succeed; the number of commits that are done, the
// number then, and the number of devices that are found.
const FAILURES: &[(&str, u8, u8, u64, u64)] = &[
    ("", 0, 0, 0, 0),
    // The sync of the body, and that of the gate.
    ("1", 1, 0, 1, 1),
    ("1", 3, 0, 1, 2),
    ("", 3, 0, 0, 1),
    // Also over the end of a commit.
    ("", 4, 1, 1, 1),
    ("", 7, 1, 1, 2),
    ("", 8, 2, 2, 2),
];

#[test]
fn a_store_that_failed_is_opened_again(rt: HostRuntime) {
    for (steps, calls, done, seq, devices) in FAILURES {
        let answers = failing(rt.alloc(), steps, '1', *calls);
        let wanted = (done_before(*done), *seq, (*devices as usize, *devices));
        assert!(rt; answers == Ok(wanted), "{steps}, behind {calls}");
    }
}

// Steps, and the number of calls that a checkpoint has then.
const FAILING_CHECKPOINTS: &[(&str, u8)] = &[("11", 4), ("1c1", 6)];

#[test]
fn a_store_whose_checkpoint_failed_is_opened_again(rt: HostRuntime) {
    for (steps, most) in FAILING_CHECKPOINTS {
        for calls in 0..*most {
            let answers = failing(rt.alloc(), steps, 'c', calls);
            let wanted = (done_before(0), 2, (2, 2));
            assert!(rt; answers == Ok(wanted), "{steps}, behind {calls}");
        }
    }
}

// Batches that are out of step with a store that has one device.
#[derive(Clone, Copy)]
enum Other {
    /// It is made from an empty table.
    Twice,
    /// It skips a number.
    Jumping,
    /// There is none.
    Empty,
    /// Two decisions that were made from one table, with consecutive numbers: the second was not
    /// made from what the first leaves.
    BothOfOneTable,
}

fn batch_of(alloc: Global, table: &Table, other: Other) -> Result<Batch, Refusal> {
    match other {
        Other::Twice => provisionings(alloc, &new_table(alloc, 8)?, 0, 1),
        Other::Jumping => provisionings(alloc, table, 2, 1),
        Other::Empty => Batch::new(alloc),
        Other::BothOfOneTable => both_of_one_table(alloc, table),
    }
}

fn both_of_one_table(alloc: Global, table: &Table) -> Result<Batch, Refusal> {
    let mut batch = provisionings(alloc, table, 1, 1)?;
    match provisionings(alloc, table, 2, 1)?.into_vec().pop() {
        Some(decision) if batch.len() == 1 => {
            batch.push(decision);
            Ok(batch)
        }
        _ => Err(Refusal::Damaged),
    }
}

// Whether the batch is refused, and changes nothing.
fn is_out_of_step(
    alloc: Global,
    store: &mut Store<MemDisk>,
    other: Other,
) -> Result<bool, Refusal> {
    match batch_of(alloc, store.table(), other) {
        Ok(batch) => {
            let refused = begin_commit(alloc, store, batch, ALL);
            Ok(refused == Err(Refusal::OutOfStep) && state_of(store) == Ok((1, 1)))
        }
        Err(refusal) => Err(refusal),
    }
}

const OTHERS: &[Other] = &[
    Other::Twice,
    Other::Jumping,
    Other::Empty,
    Other::BothOfOneTable,
];

// Whether each of them is, and the store goes on with two more devices.
fn continues(alloc: Global, store: &mut Store<MemDisk>) -> bool {
    for other in OTHERS {
        if is_out_of_step(alloc, store, *other) != Ok(true) {
            return false;
        }
    }
    take(alloc, store, '2', ALL).is_ok() && state_of(store) == Ok((3, 3))
}

fn are_refused(alloc: Global) -> Result<(bool, (usize, u64)), Refusal> {
    let mut store = store_after(alloc, "1")?;
    let continues = continues(alloc, &mut store);
    Ok((continues, found(alloc, store.close())?))
}

#[test]
fn a_batch_continues_the_table_and_itself(rt: HostRuntime) {
    assert!(rt; are_refused(rt.alloc()) == Ok((true, (3, 3))));
}
