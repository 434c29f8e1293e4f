// A store is opened again without a crash, on a disk whose last writes aren't synced, and a device
// call of the opening fails. After its sync a crash leaves what the opening found.
use crate::images::found_in;
use crate::plays::{SCRIPTS, images, played, steps_of};
use disk::{Image, Sim};
use lw_types::Refusal;
use std::alloc::Global;
use store::open_back;
use world::Step;

// More calls than an opening makes.
const MOST: u64 = 100;

// Whether a crash to this image leaves what an opening found whose device call of this number
// failed; none if it was opened.
fn is_settled(
    alloc: Global,
    steps: &[Step],
    failing: u64,
    image: &Image,
) -> Result<Option<bool>, Refusal> {
    if failing == 0 {
        return Err(Refusal::OutOfStep);
    }
    let (_, mut disk) = played(alloc, steps, 0)?;
    let found = found_in(disk.content());
    disk.arm(failing);
    match open_back(alloc, disk) {
        Ok(store) => {
            let _ = store.close();
            Ok(None)
        }
        Err((mut disk, Refusal::DeviceFailed)) => {
            disk.crash(image);
            Ok(Some(found_in(disk.content()) == found))
        }
        Err((_, refusal)) => Err(refusal),
    }
}

// Whether it does for each call after the first one, which is the sync, and each image.
fn is_always_settled(alloc: Global, steps: &[Step], images: &[Image]) -> Result<bool, Refusal> {
    for call in 2..MOST {
        for image in images {
            match is_settled(alloc, steps, call, image)? {
                None => return Ok(true),
                Some(true) => {}
                Some(false) => return Ok(false),
            }
        }
    }
    Ok(false)
}

// The first step of a script after which it doesn't.
fn first_unsettled(alloc: Global, letters: &str) -> Result<Option<usize>, Refusal> {
    let (steps, images) = (steps_of(alloc, letters)?, images(alloc)?);
    for end in 0..=steps.len() {
        let (before, _) = steps.split_at(end);
        if !is_always_settled(alloc, before, &images)? {
            return Ok(Some(end));
        }
    }
    Ok(None)
}

#[test]
fn an_opening_that_fails_behind_its_sync_has_settled_the_disk(rt: HostRuntime) {
    for letters in SCRIPTS {
        assert_eq!(rt; first_unsettled(rt.alloc(), letters), Ok(None), "{letters}");
    }
}
