// Byte strings of a bounded length.
ghost use Rattle.std.specs.Prelude.{◌≡◌, ◌≤◌, ◌<◌, ◌↔◌, IsTrue, List, [], ℕ, length, MatchResult};
ghost use Rattle.std.specs.Prelude.{nat_eq, IfOk, Some};
ghost use Rattle.std.specs.Fmt.{debug_list, decimal};
ghost use Rattle.std.specs.Cmp.{partial_equiv_from_equiv};
ghost use Rattle.std.specs.Cmp.Lexicographic.{pointwise, nat_list_eq_equiv};
ghost use Rattle.std.specs.Hash as fed;
ghost use Rattle.std.specs.Cmp.Rules.{hashing};
ghost use Rattle.std.proofs.Common.{rules};

use std::alloc::{AllocError, Global};
use std::fmt;
use std::hash::{Hash, Hasher};
use std::marker::Model;

/// A byte string of at most `MOST` bytes. In contracts it is the list of them.
pub struct Bytes<const MOST: usize> {
    items: Vec<u8>,
}

// By hand, so that it is proved once: a derived drop is proved again at each use of the type.
impl<const MOST: usize> Drop for Bytes<MOST> {
    fn drop(self) {
        let Self { items: _ } = self;
    }
}

impl<const MOST: usize> Model for Bytes<MOST> {
    ghost Value = { List ℕ };

    ghost view = { λ b. b.items.items };

    ghost invariant = { λ b. length b.items.items ≤ MOST };
}

impl<const MOST: usize> Bytes<MOST> {
    /// No bytes. Takes no memory.
    pub fn empty(alloc: Global) -> Self
        ensures { result ≡ [] }
    {
        Bytes {
            items: Vec::new(alloc),
        }
    }

    /// These bytes, if they are at most `MOST`; otherwise the vector is returned as the error.
    pub fn new(items: Vec<u8>) -> Result<Self, Vec<u8>>
        ensures { MatchResult result
            (λ b. (length items.items ≤ MOST) × (b ≡ items.items))
            (λ v. (MOST < length items.items) × (v.items ≡ items.items)) }
    {
        if items.len() <= MOST {
            Ok(Bytes { items })
        } else {
            Err(items)
        }
    }

    /// A copy of these bytes in newly allocated memory.
    pub fn from_slice(alloc: Global, bytes: &[u8]) -> Result<Self, AllocError>
        requires { length bytes.now ≤ MOST }
        ensures { IfOk result (λ copy. copy ≡ bytes.now) }
    {
        Ok(Bytes {
            items: Vec::from_slice(alloc, bytes)?,
        })
    }

    /// The bytes.
    pub fn as_slice(&self) -> &[u8]
        ensures bytes { result.now ≡ self.now }
        ensures few { length self.now ≤ MOST }
    {
        self.items.as_slice()
    }

    /// The number of bytes, at most `MOST`.
    pub fn len(&self) -> usize
        ensures length { result ≡ length self.now }
        ensures few { length self.now ≤ MOST }
    {
        self.items.len()
    }

    /// Whether there are no bytes.
    pub fn is_empty(&self) -> bool
        ensures { IsTrue result ↔ (self.now ≡ []) }
    {
        self.items.is_empty()
    }

    /// The vector that holds the bytes.
    pub fn into_vec(self) -> Vec<u8>
        ensures { result.items ≡ self.entry }
    {
        let Bytes { items } = self;
        items
    }
}

impl<const MOST: usize> Clone for Bytes<MOST> {
    ghost is_clone = { λ s t. t ≡ s };

    fn clone(&self) -> Result<Self, AllocError> {
        Ok(Bytes {
            items: self.items.clone()?,
        })
    }
}

impl<const MOST: usize> PartialEq for Bytes<MOST> {
    ghost eq = { λ x y. pointwise nat_eq x y };

    ghost laws = { partial_equiv_from_equiv nat_list_eq_equiv };

    fn eq(&self, other: &Self) -> bool {
        self.items.as_slice() == other.items.as_slice()
    }
}

impl<const MOST: usize> Eq for Bytes<MOST> {
    ghost laws = { nat_list_eq_equiv };
}

impl<const MOST: usize> Hash for Bytes<MOST> {
    ghost hash_input = { λ b. fed.slice fed.u8 b };

    ghost respects_eq = { Prim.search (hashing, rules) };

    fn hash<H: Hasher>(&self, state: &mut H) {
        self.items.hash(state);
    }
}

/// Shows the bytes as decimals, for example `[64, 1]`.
impl<const MOST: usize> fmt::Debug for Bytes<MOST> {
    ghost debug_output = { debug_list (λ byte. Some (decimal byte)) };

    fn fmt<W: fmt::Write>(&self, f: &mut fmt::Formatter<W>) -> fmt::Result {
        self.items.fmt(f)
    }
}
