//! What the windows represent: the groups of all copies that were accepted.
ghost use Rattle.std.specs.Prelude.{◌≡◌, ◌≢◌, ◌≤◌, ◌+◌, ℕ, List, [], ◌∷◌, ◌++◌, None, Ok, Some};
ghost use Rattle.std.specs.Prelude.{true, filter, if◌then◌else◌, length, map, nat_le, take, All};
ghost use Rattle.std.specs.Prelude.{AllPairs, Contains};
ghost use Rattle.std.specs.Result.{result_err};
ghost use Rattle.lw_types.specs.declared.frame_copy.FrameCopy.{FrameCopy};
ghost use Rattle.lw_types.specs.declared.refusal.Refusal.TheVariants.{WindowsFull};
ghost use Rattle.devices.specs.Heard.{with_hearing};
ghost use Rattle.dedup.specs.Groups.{arrival, groups, Arrival};
ghost use Rattle.dedup.specs.Windows.{windows_with, window_of_group, hearing_of, is_due};
ghost use Rattle.dedup.specs.Windows.{open_windows, IsCurrent, NoneDue, StandFor, Window};

use crate::{MOST_WINDOWS, WAIT};

/// Before any copy, the empty list of windows represents the empty list of groups.
pub fn no_copies_no_windows()
    ensures { (now : ℕ) → StandFor [] [] 0 now }
{}

/// Each accepted copy goes into its group, and no closed group changes.
pub fn a_copy_goes_into_its_group()
    ensures { (ws after : List Window) (arrivals : List Arrival) (closed now : ℕ)
        (copy : FrameCopy) →
        StandFor ws arrivals closed now → IsCurrent now ws → windows_with ws now copy ≡ Ok after →
        StandFor after (arrivals ++ arrival now copy ∷ []) closed now }
{}

/// The windows are closed group by group.
pub fn windows_close_in_order()
    ensures { (w : Window) (ws : List Window) (arrivals : List Arrival) (closed now : ℕ) →
        StandFor (w ∷ ws) arrivals closed now → is_due now w ≡ true
        → StandFor ws arrivals (closed + 1) now }
{}

/// Time alone changes nothing.
pub fn windows_stand_later_too()
    ensures { (ws : List Window) (arrivals : List Arrival) (closed now later : ℕ) →
        StandFor ws arrivals closed now → now ≤ later → StandFor ws arrivals closed later }
{}

/// If no window is due, the closed groups are exactly those that are due.
pub fn all_due_groups_are_closed()
    ensures { (ws : List Window) (arrivals : List Arrival) (closed now : ℕ) →
        StandFor ws arrivals closed now → NoneDue now ws →
        take closed (map window_of_group (groups arrivals))
        ≡ filter (is_due now) (map window_of_group (groups arrivals)) }
{}

/// The windows are the groups that aren't due.
pub fn windows_are_the_groups_that_wait()
    ensures { (ws : List Window) (arrivals : List Arrival) (closed now : ℕ) →
        StandFor ws arrivals closed now → NoneDue now ws → ws ≡ open_windows now arrivals }
{}

/// If a waiting group has a copy's bytes, the copy is refused exactly as that group refuses it
/// (`SameGateway`, `CopiesFull`). If no group has, it is refused as `WindowsFull` exactly if 1,024
/// groups wait.
pub fn groups_that_wait_refuse()
    ensures by_its_group { (ws : List Window) (arrivals : List Arrival) (closed now : ℕ)
        (copy : FrameCopy) (w : Window) →
        StandFor ws arrivals closed now → IsCurrent now ws →
        Contains (open_windows now arrivals) w → w.phy_payload ≡ copy.phy_payload →
        result_err (windows_with ws now copy)
        ≡ result_err (with_hearing w.hearings (hearing_of copy)) }
    ensures with_no_group { (ws : List Window) (arrivals : List Arrival) (closed now : ℕ)
        (copy : FrameCopy) →
        StandFor ws arrivals closed now → IsCurrent now ws →
        All (λ w. w.phy_payload ≢ copy.phy_payload) (open_windows now arrivals) →
        result_err (windows_with ws now copy)
        ≡ (if nat_le MOST_WINDOWS (length (open_windows now arrivals)) then Some
        WindowsFull else None) }
{}

/// Two groups of the same bytes begin at least 200 ms apart.
pub fn groups_of_the_same_bytes_are_apart()
    ensures { (arrivals : List Arrival) → AllPairs
        (λ v w. v.phy_payload ≡ w.phy_payload → v.opened + WAIT ≤ w.opened)
        (map window_of_group (groups arrivals)) }
{}

/// If no window was due and each had opened by this moment, this is still so after a copy was
/// taken.
pub fn a_copy_makes_no_window_due()
    ensures { (ws after : List Window) (now : ℕ) (copy : FrameCopy) →
        IsCurrent now ws → windows_with ws now copy ≡ Ok after → IsCurrent now after }
{}

/// How long a window waits, in milliseconds, and how many can be open.
pub fn limits_are_these()
    ensures wait { WAIT ≡ 200 }
    ensures windows { MOST_WINDOWS ≡ 1024 }
{}
