// Networks that lost their disk and continue with an older copy of their store.
use crate::adoption_tests::{left, steps_of};
use devices::{Activation, Device, GrantsSince, SessionName};
use disk::{Image, MemDisk};
use lw_types::{JoinNonce, Refusal};
use std::alloc::Global;
use world_model::worlds::new_disk;

// The number of slots of the older copies.
const SLOTS: u64 = 3;

// The device, with no session, and this JoinNonce as the last one granted.
fn granted_so(device: &Device, join_nonce: u32) -> Result<Device, Refusal> {
    let mut device = device.copy()?;
    let granted = JoinNonce::new(join_nonce);
    device.activation = Activation::new(granted, None, None).ok_or(Refusal::Damaged)?;
    Ok(device)
}

// The last JoinNonce that was granted to the first device; 0 if none was.
fn last_granted(devices: &[Device]) -> u32 {
    match devices.first() {
        Some(device) => device.activation.granted().map_or(0, JoinNonce::get),
        None => 0,
    }
}

// An older copy, and how it is restored: the letters of the world whose store it is, the last
// JoinNonce that replaces that of its device, or 0, N, and the JoinNonce of the device that is on
// record, or 0.
type Older = (&'static str, u32, u64, u32);

// A record with this JoinNonce of the first device; an empty one if there is none.
fn recorded_of(
    alloc: Global,
    devices: &[Device],
    join_nonce: u32,
) -> Result<Vec<SessionName>, Refusal> {
    let mut recorded = Vec::new(alloc);
    if let (Some(device), Some(join_nonce)) = (devices.first(), JoinNonce::new(join_nonce)) {
        recorded.push(SessionName {
            dev_eui: device.dev_eui,
            join_nonce,
        })?;
    }
    Ok(recorded)
}

// The number of answers, and what is found after a crash: the number of devices, the number, and
// the last JoinNonce that was granted to the first device.
type Found = (usize, usize, u64, u32);

fn found_after(
    alloc: Global,
    (before, join_nonce, since, on_record): Older,
    disk: MemDisk,
    letters: &str,
    image: &Image,
) -> Result<Found, Refusal> {
    let (none, steps) = (steps_of(alloc, "")?, steps_of(alloc, letters)?);
    let since = GrantsSince::new(since).ok_or(Refusal::Damaged)?;
    let disk_before = left(alloc, before)?;
    let (_, copy) = headline::crash_after_adoption(alloc, disk_before, &none, &Image::Old)?;
    let mut older = copy.table().copy()?;
    if let Some(device) = copy.table().devices().first() {
        if join_nonce != 0 {
            older.put(0, granted_so(device, join_nonce)?)?;
        }
    }
    let recorded = recorded_of(alloc, older.devices(), on_record)?;
    let seq = copy.seq();
    let (answers, store) = headline::crash_after_restoring(
        alloc, older, seq, &recorded, since, disk, &steps, image,
    )?;
    let devices = store.table().devices();
    Ok((
        answers.len(),
        devices.len(),
        store.seq(),
        last_granted(devices),
    ))
}

// The device joined once before the copy was made.
const JOINED: &str = "JTccccr1Tccccr";

// An older copy, letters of the network that continues with it, whether the bytes that aren't
// synced are found as written, and what is found.
const RESTORED: &[(Older, &str, bool, Result<Found, Refusal>)] = &[
    // A device that never joined.
    (("JTccccr", 0, 1, 0), "", false, Ok((0, 1, 1, 1))),
    (("JTccccr", 0, 1, 0), "1Tccccr", false, Ok((7, 1, 2, 2))),
    // The session of the copy is gone, and its DevNonce is used.
    ((JOINED, 0, 1024, 0), "l", true, Ok((1, 1, 2, 1025))),
    ((JOINED, 0, 1024, 0), "1l", true, Ok((2, 1, 2, 1025))),
    // It joins again, above 1 and 1,024.
    ((JOINED, 0, 1024, 0), "2Tccccr", false, Ok((7, 1, 3, 1026))),
    ((JOINED, 0, 1024, 0), "2Tccc", false, Ok((5, 1, 2, 1025))),
    ((JOINED, 0, 1024, 0), "2Tccc", true, Ok((5, 1, 3, 1026))),
    ((JOINED, 0, 1024, 0), "2Tcccol", true, Ok((7, 1, 2, 1025))),
    (
        (JOINED, 0, 1024, 0),
        "2Tccccro3Tccccr",
        false,
        Ok((15, 1, 4, 1027)),
    ),
    ((JOINED, 0, 1024, 0), "2Tfcl", true, Ok((5, 1, 2, 1025))),
    ((JOINED, 0, 1024, 0), "aTccccr", false, Ok((7, 2, 3, 1025))),
    // An earlier restore continued above 1,025, so this one continues above 2,049.
    (
        (JOINED, 0, 1024, 1025),
        "2Tccccr",
        false,
        Ok((7, 1, 3, 2050)),
    ),
    // What is on record isn't above the copy.
    ((JOINED, 0, 1024, 1), "l", true, Ok((1, 1, 2, 1025))),
    // The last JoinNonces, of 24 bits.
    (
        (JOINED, 0, 1, 16_777_215),
        "l",
        true,
        Err(Refusal::JoinNonceSpent),
    ),
    (
        ("JTccccr", 16_777_214, 1, 0),
        "1l",
        true,
        Ok((2, 1, 1, 16_777_215)),
    ),
    (
        ("JTccccr", 16_777_214, 2, 0),
        "l",
        true,
        Err(Refusal::JoinNonceSpent),
    ),
    (
        ("JTccccr", 16_777_215, 1, 0),
        "l",
        true,
        Err(Refusal::JoinNonceSpent),
    ),
];

#[test]
fn a_network_goes_on_with_an_older_copy(rt: HostRuntime) {
    let alloc = rt.alloc();
    for (older, letters, is_new, wanted) in RESTORED {
        let image = if *is_new { Image::New } else { Image::Old };
        let found = match new_disk(alloc, SLOTS) {
            Ok(disk) => found_after(alloc, *older, disk, letters, &image),
            Err(refusal) => Err(refusal),
        };
        assert!(rt; found == *wanted, "{older:?} {letters}");
    }
}

#[test]
fn an_older_copy_needs_a_disk_of_its_length(rt: HostRuntime) {
    let alloc = rt.alloc();
    let found = match new_disk(alloc, SLOTS + 1) {
        Ok(disk) => found_after(alloc, (JOINED, 0, 1024, 0), disk, "l", &Image::New),
        Err(refusal) => Err(refusal),
    };
    assert!(rt; found == Err(Refusal::WrongSize));
}
