// The end of a world: what is returned if it is closed, and after a crash.
use disk::MemDisk;
use lw_types::Refusal;
use std::alloc::Global;
use world::{Step, World, run};
use world_model::letters::add_letters;
use world_model::worlds::{net_id, new_disk};

const SLOTS: u64 = 3;

fn steps_of(alloc: Global, letters: &str) -> Result<Vec<Step>, Refusal> {
    let mut steps = Vec::new(alloc);
    add_letters(alloc, &mut steps, 0, letters)?;
    Ok(steps)
}

fn small_disk(alloc: Global) -> Result<MemDisk, Refusal> {
    new_disk(alloc, SLOTS)
}

// Letters of a new world, the last of which is the crash at its end; then the effects that had left
// over all lives, and the devices and the number of the store. A provisioning has one effect, and
// its commit four calls: the third writes the gate, which the fourth syncs.
const ENDS: &[(&str, usize, usize, u64)] = &[
    ("aTcccclo", 0, 1, 1),
    ("aTccccro", 1, 1, 1),
    ("abTccccro", 2, 2, 2),
    ("aTccccreo", 1, 1, 1),
    ("aTccccrbTccco", 1, 1, 1),
    ("aTccccrbTcccn", 1, 2, 2),
    ("aTccccrbTccccn", 1, 2, 2),
    ("aTccccrobTccccro", 2, 2, 2),
    ("aTccccrbTcccoo", 1, 1, 1),
    ("aTccccrbTcccno", 1, 2, 2),
];

// What is returned after the crash that the last letter is. The step before it is taken alone.
fn end_of(alloc: Global, letters: &str) -> Result<(usize, usize, u64), Refusal> {
    let mut steps = steps_of(alloc, letters)?;
    let Some(Step::Crash(image)) = steps.pop() else {
        return Err(Refusal::Damaged);
    };
    let last = steps.pop().ok_or(Refusal::Damaged)?;
    let mut world = World::format(alloc, small_disk(alloc)?, net_id()?, SLOTS)?;
    let answers = run(&mut world, alloc, &steps);
    let _ = world.step(alloc, &last);
    let end = headline::open_after(alloc, world, &image);
    let _ = answers?;
    let (released, store) = end?;
    Ok((released.len(), store.table().devices().len(), store.seq()))
}

#[test]
fn what_had_left_comes_back_with_the_store(rt: HostRuntime) {
    for (letters, released, devices, number) in ENDS {
        assert_eq!(rt;
            end_of(rt.alloc(), letters),
            Ok((*released, *devices, *number)),
            "{letters}"
        );
    }
    assert_eq!(rt; end_of(rt.alloc(), "aTccccrfo"), Err(Refusal::DeviceFailed));
}

// The effects that had left if a world is closed after these letters.
fn closed(alloc: Global, letters: &str) -> Result<usize, Refusal> {
    let steps = steps_of(alloc, letters)?;
    let mut world = World::format(alloc, small_disk(alloc)?, net_id()?, SLOTS)?;
    let answers = run(&mut world, alloc, &steps);
    let (_, released) = world.close();
    let _ = answers?;
    Ok(released.len())
}

#[test]
fn what_had_left_comes_back_where_a_world_is_closed(rt: HostRuntime) {
    assert_eq!(rt; closed(rt.alloc(), "aTcccc"), Ok(0));
    assert_eq!(rt; closed(rt.alloc(), "aTccccreobTccccr"), Ok(2));
}
