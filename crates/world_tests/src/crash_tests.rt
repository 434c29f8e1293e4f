// Crashes in the middle of a commit, and what is opened after them.
use disk::Image;
use lw_types::Refusal;
use std::alloc::Global;
use world::Step;
use world_model::letters::add_letters;
use world_model::steps::provision;
use world_model::worlds::{net_id, new_disk};

// What a crash leaves at the open positions.
#[derive(Clone, Copy)]
enum Left {
    Old,
    New,
    OpenGates,
    ClosedGates,
}

// Five devices are provisioned, and their batch goes as far as these letters; then the crash comes.
// After it this number of devices exist.
type Crash = (&'static str, Left, usize);

// The batch's gate is the byte at 62, after the superblock and the header of the first area. It is
// written by the third call and synced by the fourth.
const CRASHES: &[Crash] = &[
    ("T", Left::New, 0),
    ("Tc", Left::Old, 0),
    ("Tc", Left::New, 0),
    ("Tc", Left::OpenGates, 0),
    ("Tcc", Left::OpenGates, 0),
    ("Tccc", Left::Old, 0),
    ("Tccc", Left::New, 5),
    ("Tccc", Left::OpenGates, 5),
    ("Tccc", Left::ClosedGates, 0),
    ("Tcccc", Left::Old, 5),
    ("Tcccc", Left::ClosedGates, 5),
    ("Tccccr", Left::Old, 5),
];

fn image_of(alloc: Global, left: Left) -> Result<Image, Refusal> {
    Ok(match left {
        Left::Old => Image::Old,
        Left::New => Image::New,
        Left::OpenGates => Image::Fill(0xA5),
        Left::ClosedGates => Image::Bytes([0; 63].to_vec(alloc)?),
    })
}

fn steps_to(alloc: Global, letters: &str) -> Result<Vec<Step>, Refusal> {
    let mut steps = Vec::new(alloc);
    for dev_eui in 0..5 {
        steps.push(provision(alloc, dev_eui)?)?;
    }
    add_letters(alloc, &mut steps, 0, letters)?;
    Ok(steps)
}

// The number of steps that were answered, and the devices and the number of the store that is
// opened.
fn found_after(alloc: Global, letters: &str, left: Left) -> Result<(usize, usize, u64), Refusal> {
    let steps = steps_to(alloc, letters)?;
    let disk = new_disk(alloc, 8)?;
    let image = image_of(alloc, left)?;
    let (answers, store) = headline::crash_after(alloc, disk, net_id()?, 8, &steps, &image)?;
    Ok((answers.len(), store.table().devices().len(), store.seq()))
}

#[test]
fn a_crash_leaves_the_batch_or_nothing_of_it(rt: HostRuntime) {
    for (letters, left, devices) in CRASHES {
        let wanted = (5 + letters.len(), *devices, *devices as u64);
        assert_eq!(rt; found_after(rt.alloc(), letters, *left), Ok(wanted));
    }
}
