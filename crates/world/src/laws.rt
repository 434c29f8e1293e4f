//! What follows from the definitions of a course alone. These functions do nothing: their contracts
//! are the laws.
ghost use Rattle.std.specs.Prelude.{◌≡◌, List, length, take};
ghost use Rattle.devices.specs.declared.command.Command.{Command};
ghost use Rattle.devices.specs.declared.effect.Effect.{Effect};
ghost use Rattle.world.specs.Answers.{Leaves};
ghost use Rattle.world.specs.Course.{Origin, Course, decided_commands, effects_from};
ghost use Rattle.world.specs.Folding.{RunLaws};
ghost use Rattle.sessions.specs.Marks.{IsSubsequence};

/// A crash leaves the first n decided commands, for some n, and all that is settled is among them.
/// So it leaves every command of which an effect has left.
pub fn what_a_crash_leaves()
    ensures beginning { (c : Course) (kept : List Command) → Leaves c kept
        → take (length kept) (decided_commands c) ≡ kept }
    ensures settled { (c : Course) (kept : List Command) → Leaves c kept
        → take (length c.settled) kept ≡ c.settled }
    ensures left { (origin : Origin) (c : Course) (left : List Effect) (kept : List Command)
        → Leaves c kept
        → IsSubsequence left (effects_from origin c.settled)
        → IsSubsequence left (effects_from origin kept) }
{
    of_runs();
}

/// What holds for every run of commands, and for the decisions that carry it out.
pub(crate) fn of_runs()
    ensures { RunLaws }
{
    sessions::laws::folding();
    sessions::laws::composing();
    sessions::laws::joining();
    sessions::laws::parts_of_longer_lists();
}
