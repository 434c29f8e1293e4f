// Runs of steps.
ghost use Rattle.std.specs.Prelude.{◌≡◌, IfOk, IfErr, length};
ghost use Rattle.lw_types.specs.declared.refusal.Refusal.TheVariants.{OutOfMemory};
ghost use Rattle.flusher.specs.Released.{effects_of_all};
ghost use Rattle.world.specs.Course.{Origin, beginning, course_of};
ghost use Rattle.world.specs.Follows.{Follows, Runs};
ghost use Rattle.world.specs.OneLife.{HasNoCrash, IsOneLife};
ghost use Rattle.world.specs.Sound.{IsSoundWorld};
ghost use Rattle.world.specs.Calls.{ForetellsAll};
ghost use Rattle.world.specs.Stepping.{MakesSteps};

use crate::{Answer, Step, World, laws};
use disk::Sim;
use lw_types::Refusal;
use std::alloc::Global;

/// Takes the steps one after another, and returns the answer to each. Refused with `OutOfMemory`
/// before the first step; then nothing was done.
///
/// - Each answer is right in the course that the steps and the answers make, and the world follows
///   that course (`course`).
/// - If the world is at its beginning and no step is a crash, what was released are the effects of
///   the commands whose batches were released, in order and complete (`one_life`).
/// - After a crash the store has the fold of the first n decided commands, for some n, and every
///   command of which an effect has left is among these.
/// - What the coming calls of the disk will return is known step by step (`calls`): one that is
///   armed is refused as `DeviceFailed`, and one that isn't never is. If a failure is armed for a
///   later call than an opening's first, nothing is known of that opening and of the calls after
///   it.
/// - Each step leads on from the world that the one before left (`steps`). A take is answered
///   `Full` only if the journal has no room for the largest batch. A checkpoint has the number of
///   calls that the state of the other area's gate requires. A crash leaves the image that it
///   names.
///
/// The cost of a step grows with what it touches. Only a list, a crash, and the take after one that
/// was refused cost by the number of devices, and a crash also by the journal's bytes.
pub fn run<D: Sim + Drop>(
    world: &mut World<D>,
    alloc: Global,
    steps: &[Step],
) -> Result<Vec<Answer>, Refusal>
    requires { IsSoundWorld D.state world.old }
    ensures sound { IsSoundWorld D.state world.new }
    ensures answers { IfOk result (λ answers. length answers.items ≡ length steps.now) }
    ensures steps { IfOk result
        (λ answers. MakesSteps D.Disk world.old steps.now answers.items world.new) }
    ensures course { IfOk result
        (λ answers. Runs D.state world.old steps.now answers.items world.new) }
    ensures calls { IfOk result (λ answers. ForetellsAll D.failures D.outlook world.old.condition
        steps.now answers.items world.new.condition) }
    ensures one_life { IfOk result
        (λ answers. (origin : Origin) → Follows D.state origin (beginning origin) world.old
        → HasNoCrash steps.now → IsOneLife origin
        (course_of origin (beginning origin) steps.now answers.items)
        (effects_of_all world.new.released.items) steps.now answers.items) }
    ensures refused { IfErr result (λ e. (e ≡ OutOfMemory) × (world.new ≡ world.old)) }
{
    laws::of_runs();
    let mut answers = Vec::with_capacity(alloc, steps.len())?;
    for step in steps {
        let pushed: Result<_, _> = answers.push(world.step(alloc, step));
        pushed.unwrap();
    }
    Ok(answers)
}
