//! Laws on the definitions that the contracts of this crate cite. Each is the contract of a
//! function that has no other use.
ghost use Rattle.std.specs.Prelude.{◌≡◌, ◌++◌, ◌↔◌, ◌≤◌, ◌+◌, ℕ, List, [], All, IfSome, SomeIff};
ghost use Rattle.std.specs.Prelude.{length};
ghost use Rattle.devices.specs.Becoming.{MayBecome};
ghost use Rattle.devices.specs.declared.command.Command.{Command};
ghost use Rattle.devices.specs.declared.effect.Effect.{Effect};
ghost use Rattle.devices.specs.declared.mark.Mark.{Mark};
ghost use Rattle.devices.specs.declared.mark.SessionName.{SessionName};
ghost use Rattle.sessions.specs.Index.{HaveOwnSlots};
ghost use Rattle.sessions.specs.Marks.{AreOnce, Covers, HasUsedUp, IsSound, IsSubsequence};
ghost use Rattle.sessions.specs.Marks.{marks_of};
ghost use Rattle.sessions.specs.Restored.{raised_by_all, restored_table, IsSince, IsSinceRecord};
ghost use Rattle.sessions.specs.Table.{TableState, CanPut, IsSlots, empty_table, fold_of};
ghost use Rattle.sessions.specs.Table.{effects_of};
ghost use Rattle.sessions.specs.Decision.{FitsTable, FitAll, ContinueAll, with_decisions};
ghost use Rattle.sessions.specs.Decision.{without_decisions, commands_of, effects_in};
ghost use Rattle.sessions.specs.declared.decision.Decision.{Decision};

use crate::{Batch, MOST_SLOTS, Slots};

/// Decisions that continue a table leave the fold of their commands, and their effects are the
/// commands' effects.
pub fn folding()
    ensures table { (t : TableState) (ds : List Decision) → FitAll t ds →
        fold_of t (commands_of ds) ≡ with_decisions t ds }
    ensures effects { (t : TableState) (ds : List Decision) → FitAll t ds →
        effects_of t (commands_of ds) ≡ effects_in ds }
{}

/// Two runs of commands, one after the other: the second starts from the table that the first
/// leaves, and the effects are those of both in order.
pub fn composing()
    ensures table { (t : TableState) (first second : List Command) →
        fold_of t (first ++ second) ≡ fold_of (fold_of t first) second }
    ensures effects { (t : TableState) (first second : List Command) →
        effects_of t (first ++ second) ≡ effects_of t first ++ effects_of (fold_of t first) second }
{}

/// A part of a list is also a part of that list with more elements after it, and stays one if the
/// same elements are added after both.
pub fn parts_of_longer_lists()
    ensures longer { (left whole more : List Effect) → IsSubsequence left whole
        → IsSubsequence left (whole ++ more) }
    ensures extended { (left whole more : List Effect) → IsSubsequence left whole
        → IsSubsequence (left ++ more) (whole ++ more) }
{}

/// Two runs of decisions, one after the other, continue a table if the second continues what the
/// first leaves.
pub fn joining()
    ensures continues { (t : TableState) (seq : ℕ) (first second : List Decision) →
        ContinueAll t seq (first ++ second)
        ↔ (ContinueAll t seq first × ContinueAll (with_decisions t first)
        (seq + length first) second) }
    ensures table { (t : TableState) (first second : List Decision) →
        with_decisions t (first ++ second) ≡ with_decisions (with_decisions t first) second }
{}

/// The record that a decision leaves may be put into the table that it was made of, at its slot, as
/// an image may put one.
pub fn decided_records_may_be_put()
    ensures { (t : TableState) (d : Decision) → FitsTable t d → CanPut t d.slot d.after }
{}

/// The record that a decision leaves may follow the record that it found.
pub fn a_decision_is_a_step()
    ensures { (d : Decision) → IfSome d.before (λ before. MayBecome before d.after) }
{}

/// Decisions that continue a table can be undone from the table that they leave: the records that
/// they found are the table's.
pub fn taking_back()
    ensures { (t : TableState) (ds : List Decision) → FitAll t ds
        → without_decisions (with_decisions t ds) ds ≡ t }
{}

/// On a sound table, the effects of commands use up no mark twice. On an unsound one they might: if
/// the pending session's JoinNonce isn't the last granted one, it would be granted, and used,
/// again. Commands use up no mark that the network has used up before; a new network has used up
/// none. If effects use up no mark twice, neither does a part of them.
pub fn no_mark_stands_twice()
    ensures commands { (t : TableState) (commands : List Command) → IsSound t
        → AreOnce (effects_of t commands) }
    ensures from_empty { (net_id slots : ℕ) (commands : List Command) →
        AreOnce (effects_of (empty_table net_id slots) commands) }
    ensures at_first { (net_id slots : ℕ) → HasUsedUp (empty_table net_id slots) [] }
    ensures after { (t : TableState) (marks : List Mark) (commands : List Command)
        → HasUsedUp t marks →
        HasUsedUp (fold_of t commands) (marks ++ marks_of (effects_of t commands)) }
    ensures what_left { (t : TableState) (marks : List Mark) (effects left : List Effect) →
        IsSubsequence left effects → HasUsedUp t (marks ++ marks_of effects) →
        HasUsedUp t (marks ++ marks_of left) }
    ensures part { (effects left : List Effect) → IsSubsequence left effects → AreOnce effects
        → AreOnce left }
{
    uplinks::laws::a_fit_is_of_its_device();
}

/// A restored table covers each mark of a device that the copy has, if the mark's JoinNonce is at
/// most `since` above the copy's last granted one. The restored table is sound if each device of
/// the copy is found at its own slot. So a network that has used up such marks, none of them twice,
/// can go on with it.
pub fn a_restored_table_covers()
    ensures covered { (since : ℕ) (t : TableState) (marks : List Mark) →
        All (λ m. IsSince since t m) marks → All (λ m. Covers (restored_table since t) m) marks }
    ensures sound { (since : ℕ) (t : TableState) → HaveOwnSlots t.devices
        → IsSound (restored_table since t) }
{}

/// A record of sessions beside a copy can make up for what is missing in the copy. Take a mark of a
/// device that the copy has, with a JoinNonce at most `since` above the copy's last granted one or
/// above the highest one on record of the device. After the sessions on record are counted as
/// granted, its JoinNonce is at most `since` above the last granted one. So the restored table
/// covers it ([`a_restored_table_covers`]). And each device that was found at its own slot still
/// is. So earlier restores of the network don't count against `since` if they are on record.
pub fn a_record_raises_a_copy()
    ensures within { (since : ℕ) (sessions : List SessionName) (t : TableState) (marks : List Mark)
        → All (λ m. IsSinceRecord since sessions t m) marks
        → All (λ m. IsSince since (raised_by_all sessions t) m) marks }
    ensures own { (sessions : List SessionName) (t : TableState) → HaveOwnSlots t.devices
        → HaveOwnSlots (raised_by_all sessions t).devices }
{}

/// A table has from 1 to 4,096 slots.
pub fn slots_of(number: u64) -> Option<Slots>
    ensures { SomeIff result (IsSlots number) number }
{
    Slots::new(number)
}

/// The most slots of a table, and the most decisions that are committed together.
pub fn limits_are_these()
    ensures slots { MOST_SLOTS ≡ 4096 }
    ensures batch { Batch.MOST ≡ 64 }
{}
