// What leaves over several lives of a flusher, and what is found after them.
use crate::chains_tests::batches;
use crate::flusher_tests::is_provisioned;
use disk::{Image, Sim};
use flusher::{ChainLength, Released};
use flusher_lives::{CallNumber, FlusherLife, flush_new_store};
use lw_types::Refusal;
use std::alloc::Global;
use store::{disk_len, open_back};
use test_stores::devices_under_test::{net_id, slots};
use test_stores::stores_under_test::{blank, found, new_store};

/// The number of calls of the disk that the opening of a new store makes.
pub fn calls_of_opening(alloc: Global) -> Result<u64, Refusal> {
    let mut disk = new_store(alloc, 64)?.close();
    for calls in 0..64 {
        disk.arm(calls + 1);
        match open_back(alloc, disk) {
            Ok(_) => return Ok(calls),
            Err((back, Refusal::DeviceFailed)) => disk = back,
            Err((_, refusal)) => return Err(refusal),
        }
    }
    Err(Refusal::Damaged)
}

/// The crash that keeps everything that wasn't synced, or nothing of it; or no crash.
pub fn crash(keeps: Option<bool>) -> Option<Image> {
    match keeps {
        Some(true) => Some(Image::New),
        Some(false) => Some(Image::Old),
        None => None,
    }
}

// A life of one chain of at most three batches. The number of the call that fails is 0 if none
// does.
fn life(crash: Option<Image>, failing: u64) -> Result<FlusherLife, Refusal> {
    let Some(most) = ChainLength::new(3) else {
        return Err(Refusal::Malformed);
    };
    Ok(FlusherLife {
        crash,
        failing: CallNumber::new(failing),
        chains: 1,
        most,
    })
}

// After the digits of the devices that were reported before, those of these provisionings.
fn tell(told: u64, released: &[Released]) -> u64 {
    let mut told = told;
    for one in released {
        let mut digit = 0;
        for slot in 0..9_u16 {
            let dev_eui = u64::from(slot) + 1;
            if is_provisioned(one.effect(), slot, dev_eui) {
                digit = dev_eui;
            }
        }
        told = told.saturating_mul(10).saturating_add(digit);
    }
    told
}

// What is reported over three lives, of four batches of one device each, and the number of devices
// that are found then. In the first life this call of its chain fails, the opening of the second
// one is refused, and in the third it is made again; before both there is such a crash, or none.
fn over_lives(alloc: Global, failing: u64, keeps: Option<bool>) -> Result<(u64, u64), Refusal> {
    let opening = calls_of_opening(alloc)?;
    let lives = [
        life(Some(Image::New), opening.saturating_add(failing))?,
        life(crash(keeps), 1)?,
        life(crash(keeps), 0)?,
    ];
    let mut told = 0;
    let mut out = |released: Vec<Released>| told = tell(told, &released);
    let mut feed = batches(alloc, "1111")?;
    let disk = blank(alloc, disk_len(slots(64)?) as usize)?;
    match flush_new_store(alloc, disk, net_id()?, 64, &mut feed, &lives, &mut out) {
        Ok(disk) => {
            let (count, _) = found(alloc, disk)?;
            Ok((told, count as u64))
        }
        Err((_, refusal)) => Err(refusal),
    }
}

// The call that fails, whether crashes keep what was written, or there is none, the devices
// reported, and the number that is found. The fourth batch is in step if the first three are found;
// a device that is found and wasn't reported is never reported.
const LIVES: &[(u64, Option<bool>, u64, u64)] = &[
    (1, Some(true), 0, 0),
    (4, Some(false), 0, 0),
    (4, Some(true), 0, 1),
    (4, None, 0, 1),
    (7, Some(false), 1, 1),
    (7, Some(true), 1, 2),
    (7, None, 1, 2),
    (9, Some(true), 12, 2),
    (10, Some(false), 12, 2),
    (10, Some(true), 124, 4),
    (10, None, 124, 4),
    (11, Some(false), 1234, 4),
    (11, None, 1234, 4),
];

#[test]
fn no_device_is_told_of_twice_over_lives(rt: HostRuntime) {
    for (failing, keeps, told, count) in LIVES {
        let lives = over_lives(rt.alloc(), *failing, *keeps);
        assert!(rt;
            lives == Ok((*told, *count)),
            "{failing} {keeps:?}: {lives:?}"
        );
    }
}
