// What is put into a ring comes out in order, once; a full ring returns it.
ghost use Rattle.std.specs.Prelude.{IfSome};
ghost use Rattle.outbox.specs.Ring.{Ends, SameInlet, SameOutlet};
ghost use Rattle.outbox.specs.declared.ends.Outlet.{Outlet};

use crate::asked::{moment, new_core, provisioning};
use crate::stores::new_store;
use devices::{Effect, Report};
use disk::MemDisk;
use flusher::{Released, StoredBatches, cycle};
use lw_types::Refusal;
use outbox::{Ended, Inlet, Outlet, ring};
use session_core::{Core, Most};
use std::alloc::Global;
use std::thread;
use std::thread::{Threads, join};
use store::Store;

// The number of times that a thread looks again before it gives up.
const TURNS: u32 = 1_000_000;

// The effects of this number of provisionings, which are durable: the devices have the slots from 0
// on.
fn released(alloc: Global, count: u16) -> Result<Vec<Released>, Refusal> {
    let mut store = new_store(alloc, 2048)?;
    let mut core = new_core(alloc, 2048)?;
    for dev_eui in 1..=u64::from(count) {
        let _ = core.provision(moment(0)?, provisioning(dev_eui)?);
    }
    let mut all = Vec::with_capacity(alloc, usize::from(count))?;
    for _ in 0..count.div_ceil(64) {
        release_some(alloc, &mut store, &mut core, &mut all)?;
    }
    Ok(all)
}

fn release_some(
    alloc: Global,
    store: &mut Store<MemDisk>,
    core: &mut Core,
    all: &mut Vec<Released>,
) -> Result<(), Refusal> {
    let batch = core.take(Most::new(64).ok_or(Refusal::Damaged)?)?;
    let mut feed = StoredBatches::new(alloc, vec![in alloc; batch]?);
    let mut complete = true;
    let mut out = |released: Vec<Released>| {
        for one in released {
            complete = complete && all.push(one).is_ok();
        }
    };
    let _ = cycle(store, &mut feed, alloc, &mut out)?;
    if complete {
        Ok(())
    } else {
        Err(Refusal::OutOfMemory)
    }
}

// Whether the effect reports that a device has this slot.
fn is_of(effect: &Effect, wanted: u16) -> bool {
    match effect {
        Effect::Report { report, .. } => *report == Report::Provisioned { slot: wanted },
        _ => false,
    }
}

// Takes the effects that are in the ring. Returns the slot after the last one, if they come in
// order from one on.
fn taken_in_order(inlet: &mut Inlet, first: u16) -> Option<u16>
    ensures { SameInlet inlet.old inlet.new }
{
    let mut next = first;
    for _ in 0..u16::MAX {
        match inlet.take() {
            None => return Some(next),
            Some(effect) if is_of(&effect, next) => next = next.saturating_add(1),
            Some(_) => return None,
        }
    }
    None
}

// The outcome of more effects than a ring has places for: how many it takes, whether the next one
// is returned as it was, how many are taken in order, and whether the ring is drained then and ends
// so.
fn overfill(alloc: Global, places: u16) -> Result<(u16, bool, Option<u16>, bool), Refusal> {
    let (mut outlet, mut inlet) = ring(alloc, usize::from(places))?;
    let mut fits = 0;
    let mut is_back = false;
    for released in released(alloc, places.saturating_add(1))? {
        match outlet.put(released) {
            Ok(()) => fits = u16::saturating_add(fits, 1),
            Err(back) => is_back = is_of(back.effect(), fits),
        }
    }
    let open = inlet.is_finished();
    let taken = taken_in_order(&mut inlet, 0);
    let ended = outlet.finish().is_some() && inlet.is_finished();
    Ok((
        fits,
        is_back,
        taken,
        ended && !open && inlet.take().is_none(),
    ))
}

#[test]
fn a_full_ring_gives_back(rt: HostRuntime) {
    for places in [0, 1, 1024] {
        let seen = overfill(rt.alloc(), places);
        assert!(rt; seen == Ok((places, true, Some(places), true)), "{places}");
    }
}

// Puts them all, in order. `None` if there was no room in time.
fn put_all(outlet: Outlet, all: Vec<Released>) -> Option<Outlet>
    ensures { IfSome result (λ last. SameOutlet outlet last) }
{
    let mut outlet = outlet;
    for released in all {
        if !put_in_time(&mut outlet, released) {
            return None;
        }
    }
    Some(outlet)
}

// Puts one. Returns whether there was room in time.
fn put_in_time(outlet: &mut Outlet, released: Released) -> bool
    ensures { SameOutlet outlet.old outlet.new }
{
    let mut waiting = released;
    for _ in 0..TURNS {
        match outlet.put(waiting) {
            Ok(()) => return true,
            Err(back) => waiting = back,
        }
        thread::yield_now();
    }
    false
}

// Puts them all, in order, and says that there are no more.
fn put_and_finish(outlet: Outlet, all: Vec<Released>) -> Option<Ended>
    ensures { IfSome result (λ ended. (last : Outlet) × SameOutlet outlet last × Ends last ended) }
{
    put_all(outlet, all)?.finish()
}

// Takes effects until this number were taken or there are no more. Returns their number, if they
// come in order.
fn take_some(inlet: Inlet, most: u16) -> (Inlet, Option<u16>)
    ensures { SameInlet inlet result.0 }
{
    let mut inlet = inlet;
    let mut next = 0;
    for _ in 0..TURNS {
        if next == most {
            break;
        }
        let finished = inlet.is_finished();
        match inlet.take() {
            Some(effect) if is_of(&effect, next) => next = u16::saturating_add(next, 1),
            Some(_) => return (inlet, None),
            None if finished => break,
            None => thread::yield_now(),
        }
    }
    (inlet, Some(next))
}

// One thread puts this number of effects and says that there are no more, and another takes them
// until none are left: the number that are taken in order, and whether the ring is drained then.
fn pass<R: Threads + Sync>(
    rt: &R,
    alloc: Global,
    count: u16,
) -> Result<Option<(u16, bool)>, Refusal> {
    let all = released(alloc, count)?;
    let (outlet, inlet) = ring(alloc, 16)?;
    let (ended, (mut inlet, taken)) = join(
        rt,
        move || -> Option<Ended>
            ensures { IfSome result
                (λ ended. (last : Outlet) × SameOutlet outlet last × Ends last ended) }
        { put_and_finish(outlet, all) },
        move || -> (Inlet, Option<u16>)
            ensures { SameInlet inlet result.0 }
        { take_some(inlet, u16::MAX) },
    );
    let (Some(mut ended), Some(taken)) = (ended, taken) else {
        return Ok(None);
    };
    Ok(Some((taken, inlet.is_drained(&mut ended))))
}

#[test]
fn a_ring_passes_effects_between_threads(rt: HostRuntime) {
    assert!(rt; pass(&rt, rt.alloc(), 2000) == Ok(Some((2000, true))));
}

// One thread puts this number of effects, and another takes all except the last few; then both ends
// are in one thread: whether the ring is drained once nothing more is put, how many were taken in
// order when the others are, and whether it is drained then.
fn pass_all_but<R: Threads + Sync>(
    rt: &R,
    alloc: Global,
    count: u16,
    left: u16,
) -> Result<Option<(bool, u16, bool)>, Refusal> {
    let all = released(alloc, count)?;
    let (outlet, inlet) = ring(alloc, 16)?;
    let most = count.saturating_sub(left);
    let (outlet, (mut inlet, taken)) = join(
        rt,
        move || -> Option<Outlet>
            ensures { IfSome result (λ last. SameOutlet outlet last) }
        { put_all(outlet, all) },
        move || -> (Inlet, Option<u16>)
            ensures { SameInlet inlet result.0 }
        { take_some(inlet, most) },
    );
    let (Some(mut outlet), Some(taken)) = (outlet, taken) else {
        return Ok(None);
    };
    inlet.look(&mut outlet);
    let Some(mut ended) = outlet.finish() else {
        return Ok(None);
    };
    let is_early = inlet.is_drained(&mut ended);
    let Some(taken) = taken_in_order(&mut inlet, taken) else {
        return Ok(None);
    };
    Ok(Some((is_early, taken, inlet.is_drained(&mut ended))))
}

#[test]
fn ends_come_together_from_two_threads(rt: HostRuntime) {
    assert!(rt; pass_all_but(&rt, rt.alloc(), 2000, 8) == Ok(Some((false, 2000, true))));
}
