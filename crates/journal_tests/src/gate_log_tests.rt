ghost use Rattle.std.specs.Prelude.{◌≡◌, ◌≤◌, ◌+◌, IfOk, length, true};
ghost use Rattle.gate_log.specs.Areas.{AreLaidOut};
ghost use Rattle.gate_log.specs.Checkpointing.{checkpoint_bytes};
ghost use Rattle.gate_log.specs.Phases.{bytes_of};

use disk::{DeviceFailed, Disk, Image, MemDisk, Sim};
use gate_log::{
    Area, Areas, Batch, Begun, Checkpoint, EMPTY_AREA_LEN, Header, Live, Log, Opening,
    RecoverError, Recovered, close_area, format_area,
};
use std::alloc::{AllocError, Global};

const AREA: Area = Area { start: 4, end: 100 };

const OTHER: Area = Area {
    start: 100,
    end: 196,
};

const AREAS: Areas = Areas {
    live: AREA,
    other: OTHER,
};

const LEN: usize = 200;

// Whether both areas lie on a disk of this length, with the other one after the live one.
fn are_laid_out(areas: Areas, len: u64) -> bool
    ensures { result ≡ true → AreLaidOut areas len }
{
    let Areas { live, other } = areas;
    live.end >= EMPTY_AREA_LEN
        && live.start <= live.end - EMPTY_AREA_LEN
        && live.end <= other.start
        && other.end >= EMPTY_AREA_LEN
        && other.start <= other.end - EMPTY_AREA_LEN
        && other.end <= len
}

// The log of a fresh live area of a disk that was full of open gates.
fn fresh(alloc: Global, areas: Areas, len: usize) -> Result<Log<MemDisk>, RecoverError> {
    let mut disk = MemDisk::new(alloc, vec![in alloc; 0xA5; len]?)?;
    if !are_laid_out(areas, disk.len()) {
        return Err(RecoverError::Damaged);
    }
    let next = format_area(&mut disk, areas.live, 1)?;
    close_area(&mut disk, areas.other)?;
    disk.sync()?;
    Ok(Log::new(disk, areas, 1, next, false))
}

// A batch of these entries.
fn begun_batch(alloc: Global, last_sequence: u64, entries: &[u8]) -> Result<Begun, RecoverError>
    ensures size { IfOk result (λ begun. length (bytes_of begun) ≡ 15 + length entries.now) }
{
    if entries.len() > 1_000_000 {
        return Err(RecoverError::Damaged);
    }
    let mut buffer = Begun::buffer(alloc, entries.len())?;
    buffer.extend_from_slice(entries)?;
    Ok(Begun::new(buffer, last_sequence, 1)?)
}

// Commits a batch. Returns whether no call of the disk failed.
fn commit(
    alloc: Global,
    log: &mut Log<MemDisk>,
    last_sequence: u64,
    entries: &[u8],
) -> Result<bool, RecoverError> {
    if entries.len() > 1_000_000 || log.room() < 16 + entries.len() as u64 {
        return Err(RecoverError::Damaged);
    }
    let Ok(written) = begun_batch(alloc, last_sequence, entries)?.write(log) else {
        return Ok(false);
    };
    let Ok(synced) = written.sync(log) else {
        return Ok(false);
    };
    let Ok(opened) = synced.open_gate(log) else {
        return Ok(false);
    };
    let Ok(durable) = opened.sync(log) else {
        return Ok(false);
    };
    durable.finish();
    Ok(true)
}

// Closes the other area's gate if it is open. Returns whether no call of the disk failed.
fn retire(log: &mut Log<MemDisk>) -> bool {
    if !log.is_other_open() {
        return true;
    }
    match log.retire() {
        Ok(retiring) => retiring.sync(log).is_ok(),
        Err(_) => false,
    }
}

// A checkpoint at number 7 of two records that are these bytes.
fn begun(alloc: Global, generation: u64, records: &[u8]) -> Result<Checkpoint, AllocError>
    requires { length records.now ≤ 60 }
    ensures { IfOk result (λ begun. length (checkpoint_bytes begun) ≡ 30 + length records.now) }
{
    let mut bytes = Checkpoint::buffer(alloc, records.len())?;
    bytes.extend_from_slice(records)?;
    let header = Header {
        version: 1,
        generation,
        sequence: 7,
        record_count: 2,
        records_len: records.len() as u64,
    };
    Checkpoint::new(bytes, header)
}

// Makes a checkpoint. Returns whether no call of the disk failed.
fn checkpoint(
    alloc: Global,
    log: &mut Log<MemDisk>,
    generation: u64,
    records: &[u8],
) -> Result<bool, RecoverError> {
    if !retire(log) {
        return Ok(false);
    }
    if records.len() > 60 || log.other_len() <= 30 + records.len() as u64 {
        return Err(RecoverError::Damaged);
    }
    let Ok(written) = begun(alloc, generation, records)?.write(log) else {
        return Ok(false);
    };
    let Ok(synced) = written.sync(log) else {
        return Ok(false);
    };
    let Ok(opened) = synced.open_gate(log) else {
        return Ok(false);
    };
    Ok(opened.sync(log).is_ok())
}

// Takes a step on a log, and returns whether no call of the disk failed: `a` and `b` are batches,
// `c` is a checkpoint, `d` a batch after it, and `e` another checkpoint.
fn take(alloc: Global, log: &mut Log<MemDisk>, step: char) -> Result<bool, RecoverError> {
    match step {
        'a' => commit(alloc, log, 1, b"first"),
        'b' => commit(alloc, log, 2, b"second"),
        'c' => checkpoint(alloc, log, 2, b"abc"),
        'd' => commit(alloc, log, 8, b"second"),
        _ => checkpoint(alloc, log, 3, b"abc"),
    }
}

fn take_all(alloc: Global, log: &mut Log<MemDisk>, steps: &str) -> Result<(), RecoverError> {
    for step in steps.chars() {
        if !take(alloc, log, step)? {
            return Err(RecoverError::Device);
        }
    }
    Ok(())
}

// The log after these steps.
fn log_after(alloc: Global, steps: &str) -> Result<Log<MemDisk>, RecoverError> {
    let mut log = fresh(alloc, AREAS, LEN)?;
    match take_all(alloc, &mut log, steps) {
        Ok(()) => Ok(log),
        Err(error) => Err(error),
    }
}

// The disk after these steps and a last one whose nth call fails, and whether that one was done.
fn cut(alloc: Global, steps: &str, last: char, n: u64) -> Result<(bool, MemDisk), RecoverError> {
    let mut log = log_after(alloc, steps)?;
    if n > 0 {
        log.arm(n);
    }
    match take(alloc, &mut log, last) {
        Ok(is_done) => Ok((is_done, log.close())),
        Err(error) => Err(error),
    }
}

fn opening(disk: MemDisk) -> Result<Opening<MemDisk>, RecoverError> {
    match Opening::new(disk) {
        Ok(opening) => Ok(opening),
        Err((error, _)) => Err(RecoverError::from(error)),
    }
}

// What the disk holds in two areas.
fn recover(
    alloc: Global,
    opening: &mut Opening<MemDisk>,
    areas: Areas,
) -> Result<Recovered, RecoverError> {
    if !are_laid_out(areas, opening.len()) {
        return Err(RecoverError::Damaged);
    }
    match opening.live(areas.live, areas.other)? {
        Some(live) if live.header.fits(live.areas.live) => opening.recover(alloc, live),
        _ => Err(RecoverError::Damaged),
    }
}

// The generation of what a disk holds, and the numbers of its batches, of which there are at most
// two; 0 means none.
type Held = (u64, u64, u64);

fn held(alloc: Global, disk: MemDisk) -> Result<Held, RecoverError> {
    let recovered = recover(alloc, &mut opening(disk)?, AREAS)?;
    let (first, second) = match recovered.batches.as_slice() {
        [] => (0, 0),
        [only] => (only.last_sequence(), 0),
        [first, second] => (first.last_sequence(), second.last_sequence()),
        _ => return Err(RecoverError::Damaged),
    };
    Ok((recovered.header.generation, first, second))
}

// The live area's header, a batch of three bytes, and a closed gate; after it the disk is as it
// was.
const LAYOUT: &[u8] = &[
    0xA5, 1, 0, 0, 0, 0, 0, 0, 0, 1, 0, 0, 0, 0, 0, 0, 0, 0, 0, 0, 0, 0, 0, 0, 0, 0, 0, 0, 0, 0,
    0xA5, 0, 0, 0, 3, 0, 0, 0, 0, 0, 0, 1, 2, 0, 1, b'a', b'b', b'c', 0, 0xA5,
];

// The other area's header, two records of three bytes, and a closed gate; after it the disk is as
// it was.
const CHECKPOINT: &[u8] = &[
    0xA5, 1, 0, 0, 0, 0, 0, 0, 2, 3, 0, 0, 0, 0, 0, 0, 0, 7, 0, 0, 0, 2, 0, 0, 0, 0, 0, 0, 0, 3,
    b'a', b'b', b'c', 0, 0xA5,
];

// A log's room, its generation, whether the other area is open, and that area's length.
fn state_of(log: &Log<MemDisk>) -> (u64, u64, bool, u64) {
    (
        log.room(),
        log.generation(),
        log.is_other_open(),
        log.other_len(),
    )
}

// Whether such a batch is written this way.
fn is_laid_out(alloc: Global, log: &mut Log<MemDisk>) -> Result<bool, RecoverError> {
    Ok(commit(alloc, log, 0x0102, b"abc")? && log.room() == 48)
}

// Whether such a checkpoint is.
fn is_checkpoint_laid_out(alloc: Global, log: &mut Log<MemDisk>) -> Result<bool, RecoverError> {
    let is_done = checkpoint(alloc, log, 0x0203, b"abc")?;
    Ok(is_done && state_of(log) == (63, 0x0203, true, 96))
}

fn are_laid_out_so(alloc: Global) -> Result<bool, RecoverError> {
    let mut log = fresh(alloc, AREAS, LEN)?;
    let batch = is_laid_out(alloc, &mut log);
    let disk = log.close();
    let is_batch = disk.content().get(4..54) == Some(LAYOUT);
    let mut log = log_after(alloc, "a")?;
    let checkpoint = is_checkpoint_laid_out(alloc, &mut log);
    let disk = log.close();
    let is_checkpoint = disk.content().get(100..135) == Some(CHECKPOINT);
    Ok(batch? && is_batch && checkpoint? && is_checkpoint)
}

#[test]
fn the_bytes_are_those_of_the_layout(rt: HostRuntime) {
    assert!(rt; are_laid_out_so(rt.alloc()) == Ok(true));
}

// The steps before a last one, and what is held before and after it.
fn around(last: char) -> (&'static str, Held, Held) {
    match last {
        'b' => ("a", (1, 1, 0), (1, 1, 2)),
        'c' => ("a", (1, 1, 0), (2, 0, 0)),
        _ => ("acd", (2, 8, 0), (3, 0, 0)),
    }
}

// Whether the last step, of which the nth call fails, is done, and whether a crash to an image
// leaves it.
fn left(alloc: Global, last: char, n: u64, image: &Image) -> Result<(bool, bool), RecoverError> {
    let (steps, before, after) = around(last);
    let (is_done, mut disk) = cut(alloc, steps, last, n)?;
    disk.crash(image);
    disk.arm(99);
    let held = held(alloc, disk)?;
    if held == before || held == after {
        Ok((is_done, held == after))
    } else {
        Err(RecoverError::Damaged)
    }
}

// The last step, its call that fails, whether it's done, and whether it is in what is left of the
// old bytes, of the new ones and of open gates.
type Crash = (char, u64, bool, bool, bool, bool);

fn leaves(alloc: Global, crash: &Crash) -> bool {
    let (last, n, is_done, old, new, open) = *crash;
    left(alloc, last, n, &Image::Old) == Ok((is_done, old))
        && left(alloc, last, n, &Image::New) == Ok((is_done, new))
        && left(alloc, last, n, &Image::Fill(0xA5)) == Ok((is_done, open))
}

const CRASHES: &[Crash] = &[
    // A batch is left once its gate is written or may be.
    ('b', 1, false, false, false, false),
    ('b', 2, false, false, false, false),
    ('b', 3, false, false, false, true),
    ('b', 4, false, false, true, true),
    ('b', 5, true, true, true, true),
    // So is a checkpoint.
    ('c', 1, false, false, false, false),
    ('c', 2, false, false, false, false),
    ('c', 3, false, false, false, true),
    ('c', 4, false, false, true, true),
    ('c', 5, true, true, true, true),
    // One over an old checkpoint closes that one's gate first.
    ('e', 1, false, false, false, false),
    ('e', 2, false, false, false, false),
    ('e', 3, false, false, false, false),
    ('e', 4, false, false, false, false),
    ('e', 5, false, false, false, true),
    ('e', 6, false, false, true, true),
    ('e', 7, true, true, true, true),
];

// Each call of a commit and of a checkpoint fails in turn.
#[test]
fn a_crash_leaves_what_was_or_what_is_written(rt: HostRuntime) {
    for crash in CRASHES {
        assert!(rt; leaves(rt.alloc(), crash), "{crash:?}");
    }
}

// Commits two batches; the gate of the first and the body of the second share a sync. Returns
// whether no call of the disk failed.
fn commit_pair(alloc: Global, log: &mut Log<MemDisk>) -> Result<bool, RecoverError> {
    if log.room() < 64 {
        return Err(RecoverError::Damaged);
    }
    let Ok(written) = begun_batch(alloc, 1, b"first")?.write(log) else {
        return Ok(false);
    };
    let Ok(synced) = written.sync(log) else {
        return Ok(false);
    };
    let Ok(opened) = synced.open_gate(log) else {
        return Ok(false);
    };
    let following = match begun_batch(alloc, 2, b"second") {
        Ok(following) => following,
        Err(error) => {
            opened.lose();
            return Err(error);
        }
    };
    let Ok(paired) = opened.write_next(following, log) else {
        return Ok(false);
    };
    let Ok((durable, synced)) = paired.sync(log) else {
        return Ok(false);
    };
    durable.finish();
    let Ok(opened) = synced.open_gate(log) else {
        return Ok(false);
    };
    let Ok(durable) = opened.sync(log) else {
        return Ok(false);
    };
    durable.finish();
    Ok(true)
}

// The number of batches that are left in an image if the nth call of a pair fails.
fn left_of_pair(alloc: Global, n: u64, image: &Image) -> Result<usize, RecoverError> {
    let mut log = fresh(alloc, AREAS, LEN)?;
    if n > 0 {
        log.arm(n);
    }
    let is_done = commit_pair(alloc, &mut log)?;
    if is_done != (n > 7) {
        return Err(RecoverError::Device);
    }
    let mut disk = log.close();
    disk.crash(image);
    disk.arm(99);
    match held(alloc, disk)? {
        (1, 0, 0) => Ok(0),
        (1, 1, 0) => Ok(1),
        (1, 1, 2) => Ok(2),
        _ => Err(RecoverError::Damaged),
    }
}

// The call that fails, and the number of batches that are left in the old bytes, in the new ones
// and in open gates.
const PAIRS: &[(u64, usize, usize, usize)] = &[
    (1, 0, 0, 0),
    (2, 0, 0, 0),
    (3, 0, 0, 1),
    (4, 0, 1, 1),
    (5, 0, 1, 1),
    (6, 1, 1, 2),
    (7, 1, 2, 2),
    (8, 2, 2, 2),
];

// Each call of two batches that share a sync fails in turn.
#[test]
fn a_crash_leaves_the_batches_whose_gates_are_open(rt: HostRuntime) {
    for (n, old, new, open) in PAIRS {
        for (image, count) in [
            (Image::Old, old),
            (Image::New, new),
            (Image::Fill(0xA5), open),
        ] {
            assert!(rt; left_of_pair(rt.alloc(), *n, &image) == Ok(*count), "{n}");
        }
    }
}

// A byte that doesn't occur on the disks of these tests.
const TORN: u8 = 0xDD;

// Whether the step is done, the first position that is then open, and the number of open ones.
type Open = (bool, Option<usize>, usize);

fn open_positions(alloc: Global, last: char, n: u64) -> Result<Open, RecoverError> {
    let (is_done, mut disk) = cut(alloc, around(last).0, last, n)?;
    disk.crash(&Image::Fill(TORN));
    let first = disk.content().iter().position(|byte| *byte == TORN);
    let count = disk.content().iter().filter(|byte| **byte == TORN).count();
    Ok((is_done, first, count))
}

// A checkpoint writes its header, its records and a gate after the closed gate of the other area,
// and then opens that gate; a gate that is open is closed first.
const OPEN_POSITIONS: &[(char, u64, bool, Option<usize>, usize)] = &[
    ('c', 1, false, Some(101), 33),
    ('c', 2, false, Some(101), 33),
    ('c', 3, false, Some(100), 1),
    ('c', 4, false, Some(100), 1),
    ('c', 5, true, None, 0),
    ('e', 1, false, Some(4), 1),
    ('e', 2, false, Some(4), 1),
    ('e', 3, false, Some(5), 33),
    ('e', 4, false, Some(5), 33),
    ('e', 5, false, Some(4), 1),
    ('e', 6, false, Some(4), 1),
    ('e', 7, true, None, 0),
];

#[test]
fn a_checkpoint_writes_behind_a_closed_gate(rt: HostRuntime) {
    for (last, n, is_done, first, count) in OPEN_POSITIONS {
        let positions = open_positions(rt.alloc(), *last, *n);
        assert!(rt;
            positions == Ok((*is_done, *first, *count)),
            "{last}, call {n}"
        );
    }
}

const LONG_AREAS: Areas = Areas {
    live: Area {
        start: 1,
        end: 120_001,
    },
    other: Area {
        start: 120_001,
        end: 120_032,
    },
};

// Commits ten batches of 10,000 bytes.
fn commit_ten(alloc: Global, log: &mut Log<MemDisk>) -> Result<(), RecoverError> {
    let entries = vec![in alloc; 0xA5; 10_000]?;
    for number in 1..11 {
        if !commit(alloc, log, number, &entries)? {
            return Err(RecoverError::Device);
        }
    }
    Ok(())
}

// Whether these batches are numbered from 1 on, and have 10,000 bytes each.
fn are_numbered(batches: &[Batch]) -> bool {
    let mut number: u64 = 0;
    for batch in batches {
        number = number.saturating_add(1);
        if batch.entries().len() != 10_000 || batch.last_sequence() != number {
            return false;
        }
    }
    true
}

fn ten_are_recovered(alloc: Global) -> Result<bool, RecoverError> {
    let mut log = fresh(alloc, LONG_AREAS, 120_032)?;
    let committed = commit_ten(alloc, &mut log);
    let recovered = recover(alloc, &mut opening(log.close())?, LONG_AREAS)?;
    let batches = recovered.batches.as_slice();
    Ok(committed.is_ok() && batches.len() == 10 && are_numbered(batches))
}

#[test]
fn ten_long_batches_are_recovered(rt: HostRuntime) {
    assert!(rt; ten_are_recovered(rt.alloc()) == Ok(true));
}

// The log with one batch of three bytes.
fn short_log(alloc: Global) -> Result<Log<MemDisk>, RecoverError> {
    let mut log = fresh(alloc, AREAS, LEN)?;
    match commit(alloc, &mut log, 1, b"abc") {
        Ok(true) => Ok(log),
        _ => Err(RecoverError::Device),
    }
}

// What is held if a byte of its disk is changed, and the area's last byte is a closed gate.
fn changed(alloc: Global, at: usize, byte: u8) -> Result<Held, RecoverError> {
    let mut bytes = [0; LEN];
    let disk = short_log(alloc)?.close();
    if disk.content().len() != LEN || at >= LEN {
        return Err(RecoverError::Damaged);
    }
    bytes.copy_from_slice(disk.content());
    bytes[99] = 0;
    bytes[at] = byte;
    held(alloc, MemDisk::new(alloc, bytes.to_vec(alloc)?)?)
}

const CHANGES: &[(usize, u8, Result<Held, RecoverError>)] = &[
    // A byte of the entries.
    (49, b'z', Ok((1, 1, 0))),
    // The area's gate.
    (4, 0, Err(RecoverError::Damaged)),
    // The length of the records: the greatest that fits the area, and one more.
    (33, 65, Ok((1, 0, 0))),
    (33, 66, Err(RecoverError::Damaged)),
    // The length of the entries, likewise.
    (38, 50, Ok((1, 1, 0))),
    (38, 51, Err(RecoverError::Damaged)),
    // The batch's gate, after which nothing counts.
    (34, 0, Ok((1, 0, 0))),
];

#[test]
fn a_damaged_area_is_refused(rt: HostRuntime) {
    for (at, byte, wanted) in CHANGES {
        assert!(rt;
            changed(rt.alloc(), *at, *byte) == *wanted,
            "{at} is {byte}"
        );
    }
}

// The error of a recovery, or, if the sync before it fails, the length of the disk that is
// returned.
type Fault = Result<Option<RecoverError>, u64>;

fn fault(alloc: Global, disk: MemDisk) -> Fault {
    match Opening::new(disk) {
        Err((DeviceFailed, disk)) => Err(disk.len()),
        Ok(mut opening) => Ok(recover(alloc, &mut opening, AREAS).err()),
    }
}

// The same of a disk with one batch whose nth call fails.
fn failing(alloc: Global, n: u8) -> Result<Fault, RecoverError> {
    let mut log = short_log(alloc)?;
    log.arm(u64::from(n) + 1);
    Ok(fault(alloc, log.close()))
}

#[test]
fn a_failing_disk_is_told_apart(rt: HostRuntime) {
    assert!(rt; failing(rt.alloc(), 0) == Ok(Err(200)));
    for n in 1..6 {
        let wanted = Ok(Some(RecoverError::Device));
        assert!(rt; failing(rt.alloc(), n) == Ok(wanted), "behind {n}");
    }
}

// Which of the two areas is live.
fn live(opening: &mut Opening<MemDisk>) -> Result<Option<Live>, RecoverError> {
    if !are_laid_out(AREAS, opening.len()) {
        return Err(RecoverError::Damaged);
    }
    Ok(opening.live(AREA, OTHER)?)
}

// The header of a new area.
const HEADER: Header = Header {
    version: 1,
    generation: 1,
    sequence: 0,
    record_count: 0,
    records_len: 0,
};

// Whether a new area's header is read if the gate is open, and the log continues after it.
fn goes_on(mut opening: Opening<MemDisk>) -> Result<bool, RecoverError> {
    let Some(live) = live(&mut opening)? else {
        return Ok(false);
    };
    let is_laid_out = are_laid_out(live.areas, opening.len());
    if !is_laid_out || opening.len() != 200 || live.areas.live.end <= 34 {
        return Ok(false);
    }
    let mut gate = [0; 1];
    opening.read_at(4, &mut gate)?;
    let is_read = live.header == HEADER && gate == [0xA5];
    let log = opening.into_log(live, 34);
    Ok(is_read && state_of(&log) == (66, 1, false, 96))
}

fn new_log_goes_on(alloc: Global) -> Result<bool, RecoverError> {
    goes_on(opening(fresh(alloc, AREAS, LEN)?.close())?)
}

#[test]
fn the_log_of_an_opened_disk_goes_on(rt: HostRuntime) {
    assert!(rt; new_log_goes_on(rt.alloc()) == Ok(true));
}

// The disk of two fresh areas, each with this gate and this last byte of its generation.
fn with_gates(alloc: Global, first: (u8, u8), second: (u8, u8)) -> Result<MemDisk, RecoverError> {
    let mut bytes = [0; LEN];
    (bytes[4], bytes[13]) = first;
    (bytes[100], bytes[109]) = second;
    Ok(MemDisk::new(alloc, bytes.to_vec(alloc)?)?)
}

// The live area, its generation, and whether the other one's gate is open.
type LiveArea = Option<(Area, u64, bool)>;

fn live_of(alloc: Global, first: (u8, u8), second: (u8, u8)) -> Result<LiveArea, RecoverError> {
    let disk = with_gates(alloc, first, second)?;
    match live(&mut opening(disk)?)? {
        Some(live) => Ok(Some((live.areas.live, live.header.generation, live.other_open))),
        None => Ok(None),
    }
}

const GATES: &[((u8, u8), (u8, u8), LiveArea)] = &[
    ((0xA5, 1), (0, 2), Some((AREA, 1, false))),
    ((0x5A, 3), (0xA5, 2), Some((OTHER, 2, false))),
    ((0xA5, 1), (0xA5, 2), Some((OTHER, 2, true))),
    ((0xA5, 3), (0xA5, 2), Some((AREA, 3, true))),
    ((0xA5, 2), (0xA5, 2), None),
    ((0, 1), (0x5A, 2), None),
];

#[test]
fn the_open_area_of_the_greater_generation_is_live(rt: HostRuntime) {
    for (first, second, wanted) in GATES {
        let live = live_of(rt.alloc(), *first, *second);
        assert!(rt; live == Ok(*wanted), "{first:?}, {second:?}");
    }
}

// The length of a disk that is opened and closed, and the other area's gate.
fn closed(alloc: Global) -> Result<(u64, Option<u8>), RecoverError> {
    let opening = opening(fresh(alloc, AREAS, LEN)?.close())?;
    let len = opening.len();
    Ok((len, opening.close().content().get(100).copied()))
}

#[test]
fn a_closed_disk_comes_back(rt: HostRuntime) {
    assert!(rt; closed(rt.alloc()) == Ok((200, Some(0))));
}

fn has_text(alloc: Global, error: RecoverError, wanted: &str) -> bool {
    match error.to_string(alloc) {
        Ok(text) => text.as_str() == wanted,
        Err(_) => false,
    }
}

#[test]
fn an_error_has_a_text(rt: HostRuntime) {
    let alloc = rt.alloc();
    assert!(rt; has_text(alloc, RecoverError::Device, "the device failed"));
    assert!(rt; has_text(alloc, RecoverError::OutOfMemory, "out of memory"));
    assert!(rt; has_text(alloc, RecoverError::Damaged, "the area is damaged"));
}
