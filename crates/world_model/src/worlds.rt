// The answers of a world, and what its model does.
ghost use Rattle.std.specs.Prelude.{IfOk};
ghost use Rattle.disk.specs.MemDisk.{state_of};
ghost use Rattle.world.specs.Sound.{IsSoundWorld};

use crate::answers::same;
use crate::model::Plain;
use disk::MemDisk;
use lw_types::{NetId, Refusal};
use sessions::Slots;
use std::alloc::Global;
use world::{Answer, Step, World, run};

/// The slots of most worlds here, which the devices of twelve scripts can fill.
pub const SLOTS: u64 = 20;

pub fn net_id() -> Result<NetId, Refusal> {
    NetId::new(0x2A).ok_or(Refusal::Damaged)
}

fn slots_of(slots: u64) -> Result<Slots, Refusal> {
    Slots::new(slots).ok_or(Refusal::Damaged)
}

/// A disk for this number of devices, which isn't empty.
pub fn new_disk(alloc: Global, slots: u64) -> Result<MemDisk, Refusal> {
    let len = store::disk_len(slots_of(slots)?);
    Ok(MemDisk::new(alloc, vec![in alloc; 0xA5; len as usize]?)?)
}

// A world with this number of slots.
fn new_world(alloc: Global, slots: u64) -> Result<World<MemDisk>, Refusal>
    ensures { IfOk result (IsSoundWorld state_of) }
{
    World::format(alloc, new_disk(alloc, slots)?, net_id()?, slots)
}

/// The answers of a new world to these steps.
pub fn answers_to(alloc: Global, slots: u64, steps: &[Step]) -> Result<Vec<Answer>, Refusal> {
    let mut world = new_world(alloc, slots)?;
    let answers = run(&mut world, alloc, steps);
    let _ = world.close();
    answers
}

/// The answers of a new model, if the next device call fails from the step of this place on.
pub fn answers_of_model(
    alloc: Global,
    slots: u64,
    steps: &[Step],
    failing: Option<usize>,
) -> Result<Vec<Answer>, Refusal> {
    let mut model = Plain::new(alloc, net_id()?, slots_of(slots)?);
    let mut answers = Vec::new(alloc);
    for (place, step) in steps.iter().enumerate() {
        if failing == Some(place) {
            let _ = model.step(alloc, &Step::Fail)?;
        }
        answers.push(model.step(alloc, step)?)?;
    }
    Ok(answers)
}

/// The number of the first answer that isn't the wanted one.
pub fn first_other(answers: &[Answer], wanted: &[Answer]) -> Option<usize> {
    for (number, (answer, wanted)) in answers.iter().zip(wanted).enumerate() {
        if !same(answer, wanted) {
            return Some(number);
        }
    }
    (answers.len() != wanted.len()).then_some(wanted.len())
}

/// The number of the first step to which a new world and a new model give different answers.
pub fn first_difference(
    alloc: Global,
    slots: u64,
    steps: &[Step],
) -> Result<Option<usize>, Refusal> {
    let answers = answers_to(alloc, slots, steps)?;
    let wanted = answers_of_model(alloc, slots, steps, None)?;
    Ok(first_other(&answers, &wanted))
}
