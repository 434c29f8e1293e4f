//! Laws of this crate's types. Each is the contract of a function that does nothing else.
ghost use Rattle.std.specs.Prelude.{◌≡◌, ◌≤◌, ◌<◌, ◌^◌, ◌+◌, ℕ, List, [], ◌∷◌, SomeIff, length};
ghost use Rattle.lw_types.specs.declared.frame_copy.FrameCopy.{FrameCopy};
ghost use Rattle.devices.specs.declared.command.Command.{Command};
ghost use Rattle.sessions.specs.Table.{TableState};
ghost use Rattle.dedup.specs.Groups.{Arrival};
ghost use Rattle.dedup.specs.Windows.{StandFor};
ghost use Rattle.session_core.specs.Core.{CoreState, IsLawfulCore, new_core};
ghost use Rattle.session_core.specs.Events.{Asks, Hears, IsTurn, Starves, Ticks};
ghost use Rattle.session_core.specs.Handling.{IsWholeTurn};
ghost use Rattle.session_core.specs.Standing.{with_copy};
ghost use Rattle.session_core.specs.declared.turn.Turn.{Turn};

use crate::{LAST_MOMENT, LAST_NUMBER, MOST_OUTCOMES, MOST_UNTAKEN, Moment, Most};

/// A take asks for 1 to 64 decisions.
pub fn most_of(number: u64) -> Option<Most>
    ensures { SomeIff result ((1 ≤ number) × (number ≤ 64)) number }
{
    Most::new(number)
}

/// A moment is below 2^63 milliseconds.
pub fn moment_of(milliseconds: u64) -> Option<Moment>
    ensures { SomeIff result (milliseconds < 2 ^ 63) milliseconds }
{
    Moment::new(milliseconds)
}

/// The windows of a core represent the groups of the copies that it accepted in its life; the first
/// `closed` of these groups are closed. An event closes the next groups that are due, and an
/// accepted copy goes into its group.
pub fn windows_stand_for_groups()
    ensures at_first { (table : TableState) (seq : ℕ)
        → StandFor (new_core table seq).windows [] 0 (new_core table seq).clock }
    ensures asked { (command : Command) (old new : CoreState) (moment closed : ℕ) (turn : Turn)
        (arrivals : List Arrival) →
        IsTurn old moment (Asks command) turn new → StandFor old.windows arrivals closed old.clock →
        StandFor new.windows arrivals (closed + new.closings) new.clock }
    ensures ticked { (old new : CoreState) (moment closed : ℕ) (turn : Turn)
        (arrivals : List Arrival) →
        IsTurn old moment Ticks turn new → StandFor old.windows arrivals closed old.clock →
        StandFor new.windows arrivals (closed + new.closings) new.clock }
    ensures heard { (copy : FrameCopy) (old new : CoreState) (moment closed : ℕ) (turn : Turn)
        (arrivals : List Arrival) →
        IsTurn old moment (Hears copy) turn new → IsLawfulCore old
        → StandFor old.windows arrivals closed old.clock →
        StandFor new.windows (with_copy turn.refused new.clock copy arrivals)
        (closed + new.closings) new.clock }
    ensures missed { (copy : FrameCopy) (old new : CoreState) (moment closed : ℕ) (turn : Turn)
        (arrivals : List Arrival) →
        IsTurn old moment Starves turn new → StandFor old.windows arrivals closed old.clock →
        StandFor new.windows (with_copy turn.refused new.clock copy arrivals)
        (closed + new.closings) new.clock }
{
    dedup::laws::no_copies_no_windows();
    dedup::laws::windows_close_in_order();
    dedup::laws::windows_stand_later_too();
    dedup::laws::a_copy_goes_into_its_group();
}

/// The most decisions that wait untaken, the number after which none is made, the number of
/// outcomes that are kept, and the last moment.
pub fn limits_are_these()
    ensures untaken { MOST_UNTAKEN ≡ 4096 }
    ensures number { LAST_NUMBER + 1 ≡ 2 ^ 63 }
    ensures outcomes { MOST_OUTCOMES ≡ 64 }
    ensures moment { LAST_MOMENT + 1 ≡ 2 ^ 63 }
{}

/// A turn in whole lists. The commands that were handed in are the frames of the windows that the
/// event closed, and then its own command. The log grew by exactly their decisions, and the
/// outcomes are the last of the old ones and theirs. The law asks that the core was lawful before,
/// with at most as many outcomes as are kept.
pub fn turns_hand_in_commands()
    ensures asked { (command : Command) (old new : CoreState) (moment : ℕ) (turn : Turn) →
        IsTurn old moment (Asks command) turn new → IsLawfulCore old
        → length old.outcomes ≤ MOST_OUTCOMES → IsWholeTurn old (command ∷ []) turn new }
    ensures ticked { (old new : CoreState) (moment : ℕ) (turn : Turn) →
        IsTurn old moment Ticks turn new → IsLawfulCore old
        → length old.outcomes ≤ MOST_OUTCOMES → IsWholeTurn old [] turn new }
    ensures heard { (copy : FrameCopy) (old new : CoreState) (moment : ℕ) (turn : Turn) →
        IsTurn old moment (Hears copy) turn new → IsLawfulCore old
        → length old.outcomes ≤ MOST_OUTCOMES → IsWholeTurn old [] turn new }
    ensures starved { (old new : CoreState) (moment : ℕ) (turn : Turn) →
        IsTurn old moment Starves turn new → IsLawfulCore old
        → length old.outcomes ≤ MOST_OUTCOMES → IsWholeTurn old [] turn new }
{
    sessions::laws::joining();
}
