//! Whole numbers within a range.
#![tactic(auto)]

ghost use Rattle.std.specs.Prelude.{◌≡◌, ◌≤◌, ℕ, SomeIff};

use std::marker::Model;

/// A whole number from `LEAST` to `MOST`. In contracts it is the number.
#[derive(Clone, Copy, Debug, PartialEq, Eq, PartialOrd, Ord, Hash)]
pub struct Ranged<const LEAST: u64, const MOST: u64> {
    value: u64,
}

impl<const LEAST: u64, const MOST: u64> Model for Ranged<LEAST, MOST> {
    ghost Value = { ℕ };

    ghost view = { λ r. r.value };

    ghost invariant = { λ r. (LEAST ≤ r.value) × (r.value ≤ MOST) };

    ghost inverse = { λ n. record { value = n } };
}

impl<const LEAST: u64, const MOST: u64> Ranged<LEAST, MOST> {
    /// The number, if it is from `LEAST` to `MOST`.
    pub fn new(value: u64) -> Option<Self>
        ensures { SomeIff result ((LEAST ≤ value) × (value ≤ MOST)) value }
    {
        if LEAST <= value && value <= MOST {
            Some(Ranged { value })
        } else {
            None
        }
    }

    /// The number, from `LEAST` to `MOST`.
    pub fn get(self) -> u64
        ensures value { result ≡ self.entry }
        ensures least { LEAST ≤ self.entry }
        ensures most { self.entry ≤ MOST }
    {
        self.value
    }
}
