// Two workers on two threads: what each made is in its share, and all of it in the core.
ghost use Rattle.std.specs.Prelude.{◌≡◌};

use crate::asked::{moment, new_core, provisioning};
use lw_types::Refusal;
use session_core::{BlankHistory, Books, Core, Seat, Sessions, Shared};
use std::alloc::Global;
use std::marker::Brand;
use std::sync::ledger::Blank;
use std::sync::{Mutex, Wait};
use std::thread::{Threads, join};

// Provisions 1,000 devices through a seat.
fn provision_all<B: Books, R: Wait>(
    rt: &R,
    sessions: &Mutex<Shared<B>>,
    seat: Seat<B>,
    first: u64,
) -> Result<Seat<B>, Refusal> {
    let mut seat = seat;
    for dev_eui in first..first.saturating_add(1000) {
        let turn = sessions.provision(rt, &mut seat, moment(0)?, provisioning(dev_eui)?);
        if let Some(refusal) = turn.refused {
            return Err(refusal);
        }
    }
    Ok(seat)
}

// The number of decisions that two seats made, if both are returned.
fn two_make<B: Books + Send + Sync, R: Threads + Wait + Sync>(
    rt: &R,
    alloc: Global,
    core: Core,
    made: Blank,
    taken: Blank,
    history: BlankHistory,
) -> Result<Option<u64>, Refusal>
    requires new { (core.decisions.made ≡ 0) × (core.decisions.taken ≡ 0) }
    requires made { (made.name ≡ B.made_name) × (made.parts ≡ B.made_parts) × (made.parts ≡ 2) }
    requires taken { (taken.name ≡ B.taken_name) × (taken.parts ≡ 1) }
    requires history { history.seen.book ≡ B.history }
{
    let (mut shared, taker) = Shared::<B>::new(core, 2, made, taken, history);
    let one = shared.seat();
    let other = shared.seat();
    let sessions = Mutex::new(shared);
    let lock = &sessions;
    let (one, other) = join(
        rt,
        move || provision_all(rt, lock, one, 1),
        move || provision_all(rt, lock, other, 10_001),
    );
    drop(taker);
    let mut seats = Vec::new(alloc);
    seats.push(one?)?;
    seats.push(other?)?;
    Ok(sessions.into_inner().settle(2, seats))
}

fn two_make_together<R: Threads + Wait + Sync>(
    rt: &R,
    alloc: Global,
) -> Result<Option<u64>, Refusal> {
    let core = new_core(alloc, 2000)?;
    let (made, taken) = (Blank::new(2), Blank::new(1));
    two_make::<Brand, R>(rt, alloc, core, made, taken, BlankHistory::new())
}

#[test]
fn shares_sum_to_the_total(rt: HostRuntime) {
    assert!(rt; two_make_together(&rt, rt.alloc()) == Ok(Some(2000)));
}
