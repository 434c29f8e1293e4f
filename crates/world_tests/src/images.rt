// A plain reader of a store's bytes, written from docs/FORMATS.md alone: what an opening finds on
// an undamaged disk.

const SUPERBLOCK: usize = 32;

const OPEN: u64 = 0xA5;

// Where an area's fields stand, and a batch's, and an entry's: the first byte of the entries.
const RECORDS: usize = 30;

const ENTRIES: usize = 15;

const BODY: usize = 5;

/// The number of devices that an opening finds, and the number of the last decision.
#[derive(Clone, Copy, Debug, PartialEq, Eq)]
pub(crate) struct Found {
    pub(crate) devices: usize,
    pub(crate) seq: u64,
}

// The number in this number of bytes at a place, the highest first.
fn number(content: &[u8], at: usize, len: usize) -> u64 {
    let mut sum: u64 = 0;
    for byte in content.iter().skip(at).take(len) {
        sum = (sum << 8) | u64::from(*byte);
    }
    sum
}

// A length there, as a number of places.
fn length(content: &[u8], at: usize, len: usize) -> usize {
    number(content, at, len) as usize
}

// Whether a gate is open, and the generation after it, or 0 if it isn't.
fn generation(content: &[u8], area: usize) -> u64 {
    match number(content, area, 1) {
        OPEN => number(content, area.saturating_add(2), 8),
        _ => 0,
    }
}

// Where the live area begins: the open one of the greater generation.
fn live_area(content: &[u8]) -> usize {
    let second = SUPERBLOCK.saturating_add(length(content, 16, 8));
    if generation(content, SUPERBLOCK) < generation(content, second) {
        second
    } else {
        SUPERBLOCK
    }
}

// The devices after a batch's entries, which begin at a place: an entry of the next free slot adds
// one.
fn with_entries(content: &[u8], at: usize, count: u64, devices: usize) -> usize {
    let (mut at, mut devices) = (at, devices);
    for _ in 0..count {
        if length(content, at.saturating_add(1), 2) == devices {
            devices = devices.saturating_add(1);
        }
        let body = length(content, at.saturating_add(3), 2);
        at = at.saturating_add(BODY).saturating_add(body);
    }
    devices
}

/// What an opening of these bytes finds, if no area has more than 64 batches.
pub(crate) fn found_in(content: &[u8]) -> Found {
    let area = live_area(content);
    let mut devices = length(content, area.saturating_add(18), 4);
    let mut seq = number(content, area.saturating_add(10), 8);
    let records = length(content, area.saturating_add(22), 8);
    let mut at = area.saturating_add(RECORDS).saturating_add(records);
    for _ in 0..64 {
        if number(content, at, 1) != OPEN {
            break;
        }
        let entries = at.saturating_add(ENTRIES);
        devices = with_entries(
            content,
            entries,
            number(content, at.saturating_add(13), 2),
            devices,
        );
        seq = number(content, at.saturating_add(5), 8);
        at = entries.saturating_add(length(content, at.saturating_add(1), 4));
    }
    Found { devices, seq }
}
