//! Laws of rebuilt counters. Each is the contract of a function that does nothing.
ghost use Rattle.std.specs.Prelude.{◌≡◌, ◌<◌, ◌^◌, ℕ, Option, Some};
ghost use Rattle.counters.specs.declared.Rebuilt.TheVariants.{New};
ghost use Rattle.counters.specs.Rebuilt.{rebuilt_counter};

use crate::MAX_GAP;

/// A new counter is above the last one.
pub fn new_counters_grow()
    ensures { (last low n : ℕ) → rebuilt_counter (Some last) low ≡ New n → last < n }
{}

/// A new counter is below 2^32.
pub fn new_counters_have_32_bits()
    ensures { (last : Option ℕ) (low n : ℕ) → rebuilt_counter last low ≡ New n → n < 2 ^ 32 }
{}

/// How far a new counter may be above the last one.
pub fn limits_are_these()
    ensures { MAX_GAP ≡ 16384 }
{}
