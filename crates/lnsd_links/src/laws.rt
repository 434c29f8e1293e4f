//! The limits of a server's links. Each law is the contract of a function that does nothing.
ghost use Rattle.std.specs.Prelude.{◌≡◌, ◌≤◌, ◌+◌, ◌-◌, ◌*◌, ℕ, List};
ghost use Rattle.lnsd_links.specs.Allowed.{copies_of, ArePaid};
ghost use Rattle.lnsd_links.specs.declared.allowance.Allowance.{Allowance};

use crate::MOST_GATEWAYS;
use crate::gathering::SOME;
use crate::link::{MOST_LINKS, MOST_PLACES};
use crate::outgoing::MUCH;
use crate::rings::PLACES;

/// The most gateways with links; the most links of a life whose links stay; the most places of a
/// life whose links come and go; the number of places of a ring; and how many effects and bytes are
/// put together before they are sent.
pub fn limits_are_these()
    ensures gateways { MOST_GATEWAYS ≡ 64 }
    ensures links { MOST_LINKS ≡ 80 }
    ensures places { MOST_PLACES ≡ 96 }
    ensures rings { PLACES ≡ 1024 }
    ensures effects { SOME ≡ 64 }
    ensures bytes { MUCH ≡ 16384 }
{}

/// On a limited link no more copies come than the burst and what is earned in the time from the
/// allowance's own moment to that of the last payment, however they are paid for. If nothing was
/// left at the beginning, no more come than what is earned.
pub fn copies_keep_to_their_rate()
    ensures earned { (payments : List (ℕ × ℕ)) (old : Allowance) (new : Allowance)
        → ArePaid payments old new
        → copies_of payments * 1000 ≤ old.level + (new.at - old.at) * old.per_second }
    ensures burst { (payments : List (ℕ × ℕ)) (old : Allowance) (new : Allowance)
        → ArePaid payments old new → old.level ≤ old.burst * 1000
        → copies_of payments * 1000 ≤ old.burst * 1000 + (new.at - old.at) * old.per_second }
{}
