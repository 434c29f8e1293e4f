// Scripts, played on a new world whose disk may fail, and what a crash after them leaves.
use crate::images::{Found, found_in};
use devices::Device;
use disk::{Image, MemDisk, Sim};
use lw_types::{Eui, Refusal};
use std::alloc::Global;
use store::{Store, open};
use world::{Answer, Step, World, run};
use world_model::letters::add_letters;
use world_model::worlds::{net_id, new_disk};

/// Scripts of two areas and of chains: the first run, with checkpoints of four calls and of six;
/// one that is cut and begun again; two batches that share a sync; and a join, which is written as
/// changes.
pub(crate) const SCRIPTS: &[&str] = &[
    "aTccccrepccccpcccccc",
    "aTccccrepcopcccc",
    "abtcccNccrccr",
    "aJTccccr1kTccccroTl",
];

/// The slots of a world here.
pub(crate) const SLOTS: u64 = 2;

/// The device calls that make a store.
pub(crate) const MAKING: u64 = 8;

/// The steps of a script.
pub(crate) fn steps_of(alloc: Global, letters: &str) -> Result<Vec<Step>, Refusal> {
    let mut steps = Vec::new(alloc);
    add_letters(alloc, &mut steps, 0, letters)?;
    Ok(steps)
}

/// The images that a stop may leave: the old bytes, the written ones, open gates, and at each place
/// its low eight bits.
pub(crate) fn images(alloc: Global) -> Result<Vec<Image>, Refusal> {
    let len = new_disk(alloc, SLOTS)?.content().len();
    let mut low = Vec::with_capacity(alloc, len)?;
    for place in 0..len {
        low.push((place % 256) as u8)?;
    }
    let mut images = Vec::new(alloc);
    images.push(Image::Old)?;
    images.push(Image::New)?;
    images.push(Image::Fill(0xA5))?;
    images.push(Image::Bytes(low))?;
    Ok(images)
}

/// The answers of a new world, and its disk. After its store is made, the device call of this
/// number fails; none for 0.
pub(crate) fn played(
    alloc: Global,
    steps: &[Step],
    failing: u64,
) -> Result<(Vec<Answer>, MemDisk), Refusal> {
    let mut disk = new_disk(alloc, SLOTS)?;
    if failing > 0 {
        disk.arm(failing.saturating_add(MAKING));
    }
    let mut world = World::format(alloc, disk, net_id()?, SLOTS)?;
    let answers = run(&mut world, alloc, steps);
    let (disk, _) = world.close();
    Ok((answers?, disk))
}

// The number of the last decision that was released. At most two batches are begun.
fn released(answers: &[Answer]) -> u64 {
    let (mut first, mut second, mut sum) = (0, 0, 0);
    for answer in answers {
        match answer {
            Answer::Taken(count) if first == 0 => first = *count,
            Answer::Taken(count) => second = *count,
            Answer::Released(_) => {
                sum = first.saturating_add(sum);
                first = second;
                second = 0;
            }
            Answer::Opened { .. } => {
                first = 0;
                second = 0;
            }
            _ => {}
        }
    }
    sum as u64
}

// Whether a letter makes a decision, and the device that it provisions.
fn decision(letter: char) -> Option<Option<Eui>> {
    match letter {
        'a' => Some(Some(Eui(0))),
        'b' => Some(Some(Eui(1))),
        'J' => Some(Some(Eui(0x1112_1314_1516_1718))),
        '1' => Some(None),
        _ => None,
    }
}

// Whether these are the devices that the first decisions of a script, this number of them,
// provision.
fn are_brought(devices: &[Device], letters: &str, count: u64) -> bool {
    let (mut left, mut brought) = (count, 0);
    for letter in letters.chars() {
        if let (Some(eui), true) = (decision(letter), left > 0) {
            left -= 1;
            if let Some(eui) = eui {
                if devices.get(brought).map(|device| device.dev_eui) != Some(eui) {
                    return false;
                }
                brought += 1;
            }
        }
    }
    left == 0 && devices.len() == brought
}

// Whether a store is what a reader finds, of this script.
fn is_as_read(store: &Store<MemDisk>, found: Found, letters: &str) -> bool {
    let devices = store.table().devices();
    let is_found = devices.len() == found.devices && store.seq() == found.seq;
    is_found && are_brought(devices, letters, found.seq)
}

/// Whether these steps, of which a device call may fail, and a crash after them leave what the
/// reader finds: all that was released, and the devices of the first decisions.
pub(crate) fn is_left(
    alloc: Global,
    letters: &str,
    steps: &[Step],
    failing: u64,
    image: &Image,
) -> Result<bool, Refusal> {
    let (answers, mut disk) = played(alloc, steps, failing)?;
    disk.crash(image);
    let found = found_in(disk.content());
    let store = open(alloc, disk)?;
    Ok(released(&answers) <= found.seq && is_as_read(&store, found, letters))
}

/// Whether this holds for each of these images.
pub(crate) fn are_left(
    alloc: Global,
    letters: &str,
    steps: &[Step],
    failing: u64,
    images: &[Image],
) -> Result<bool, Refusal> {
    for image in images {
        if !is_left(alloc, letters, steps, failing, image)? {
            return Ok(false);
        }
    }
    Ok(true)
}
