// What lives of cores leave, and what the store has after them.
use crate::over_lives_tests::{calls_of_opening, crash};
use disk::Image;
use flusher::{ChainLength, Released};
use flusher_lives::{CallNumber, Coming, CoreLife, decide_over_lives};
use lw_types::Refusal;
use session_core::{Event, Moment};
use std::alloc::Global;
use std::collections::VecDeque;
use test_stores::devices_under_test::bringing;
use test_stores::stores_under_test::{found, new_store};

// A device is provisioned before a take.
fn provision(alloc: Global, dev_eui: u64) -> Result<Coming, Refusal> {
    let moment = Moment::new(0).ok_or(Refusal::Damaged)?;
    Ok(vec![in alloc; (moment, Event::Ask(bringing(dev_eui)?))]?)
}

// A life after this crash, or without one, in which two devices come, each before a take, and whose
// nth call of the disk fails, if one does.
fn life(
    alloc: Global,
    crash: Option<Image>,
    first: u64,
    failing: u64,
) -> Result<CoreLife, Refusal> {
    let coming = vec![in alloc;
        provision(alloc, first)?,
        provision(alloc, first.saturating_add(1))?,
    ]?;
    Ok(CoreLife {
        crash,
        failing: CallNumber::new(failing),
        coming: VecDeque::from(coming),
        chains: 1,
        most: ChainLength::new(64).ok_or(Refusal::Damaged)?,
    })
}

// How many effects leave in a life in whose chain the nth call fails, in one whose opening is
// refused and in one after that, and how many devices and which number are found then. The last
// life provisions the devices that the first has lost.
fn lived(
    alloc: Global,
    failing: u64,
    keeps: Option<bool>,
    found_then: u64,
) -> Result<(usize, (usize, u64)), Refusal> {
    let opening = calls_of_opening(alloc)?;
    let failing = if failing > 0 {
        opening.saturating_add(failing)
    } else {
        0
    };
    let lives = vec![in alloc;
        life(alloc, Some(Image::New), 1, failing)?,
        life(alloc, crash(keeps), 1, 1)?,
        life(alloc, crash(keeps), found_then.saturating_add(1), 0)?,
    ]?;
    let mut left: usize = 0;
    let mut out = |released: Vec<Released>| left = left.saturating_add(released.len());
    let disk = new_store(alloc, 64)?.close();
    let last = decide_over_lives(alloc, disk, lives, &mut out);
    Ok((left, found(alloc, last)?))
}

// Which call of the first life fails (two batches take seven: body; sync; gate; the second's body;
// sync of both; its gate; sync), whether crashes keep what wasn't synced, or there is no crash, the
// number of devices that are found then, and the number of effects that had left.
const ROWS: &[(u64, Option<bool>, u64, usize)] = &[
    (0, Some(false), 2, 2),
    (1, Some(true), 0, 0),
    (4, Some(true), 1, 0),
    (5, Some(false), 0, 0),
    (5, Some(true), 1, 0),
    (5, None, 1, 0),
    (6, Some(true), 1, 1),
    (7, Some(false), 1, 1),
    (7, Some(true), 2, 1),
    (7, None, 2, 1),
];

#[test]
fn lives_keep_what_was_decided(rt: HostRuntime) {
    for (failing, keeps, found_then, left) in ROWS {
        let lived = lived(rt.alloc(), *failing, *keeps, *found_then);
        let all = found_then.saturating_add(2);
        assert!(rt;
            lived == Ok((*left + 2, (all as usize, all))),
            "{failing} {keeps:?}"
        );
    }
}
