// The items that applications queued for a device.
ghost use Rattle.std.specs.Prelude.{◌≡◌, ◌≤◌, ◌<◌, ◌∷◌, ◌++◌, ◌↔◌, [], IsTrue, drop, length};
ghost use Rattle.std.specs.Prelude.{MatchOption, MatchResult, OnErr, OnOk};

use crate::{Payload, Port, Tag};
use std::alloc::{AllocError, Global};
use std::marker::Model;

/// A payload that waits for a downlink.
#[derive(Clone, PartialEq, Eq, Drop)]
pub struct Item {
    pub tag: Tag,
    pub port: Port,
    pub confirmed: bool,
    pub payload: Payload,
}

/// At most 16 items, the oldest first. In contracts it is the list of the items.
pub struct ItemQueue {
    items: Vec<Item>,
}

// By hand, so that it is proved once: a derived drop is proved again at each use of the type.
impl Drop for ItemQueue {
    fn drop(self) {
        let Self { items: _ } = self;
    }
}

impl Model for ItemQueue {
    ghost use Rattle.devices.specs.declared.queue.TheConstants.ItemQueue.{MOST};
    ghost use Rattle.std.specs.Prelude.{◌≤◌, List, length};
    ghost use Rattle.devices.specs.declared.queue.Item.{Item};

    ghost Value = { List Item };

    ghost view = { λ q. q.items.items };

    ghost invariant = { λ q. length q.items.items ≤ MOST };
}

impl ItemQueue {
    /// The most items that wait.
    pub const MOST: usize = 16;

    /// No items. Takes no memory.
    pub fn empty(alloc: Global) -> Self
        ensures { result ≡ [] }
    {
        ItemQueue {
            items: Vec::new(alloc),
        }
    }

    /// These items, if they are at most 16; otherwise the vector is returned as the error.
    pub fn new(items: Vec<Item>) -> Result<Self, Vec<Item>>
        ensures { MatchResult result
            (λ q. (length items.items ≤ Self.MOST) × (q ≡ items.items))
            (λ v. (Self.MOST < length items.items) × (v.items ≡ items.items)) }
    {
        if items.len() <= Self::MOST {
            Ok(ItemQueue { items })
        } else {
            Err(items)
        }
    }

    /// Adds an item at the end. After an `Err` the queue is unchanged.
    pub fn push(&mut self, item: Item) -> Result<(), AllocError>
        requires { length self.old < Self.MOST }
        ensures ok { OnOk result (self.new ≡ self.old ++ item ∷ []) }
        ensures err { OnErr result (self.new ≡ self.old) }
    {
        self.items.push(item)?;
        Ok(())
    }

    /// The oldest item, if one waits.
    pub fn first(&self) -> Option<&Item>
        ensures { MatchOption result (self.now ≡ [])
            (λ item. self.now ≡ item.now ∷ drop 1 self.now) }
    {
        self.items.first()
    }

    /// Removes and returns the oldest item, if one waits. Takes no memory.
    pub fn pop_first(&mut self) -> Option<Item>
        ensures item { MatchOption result (self.old ≡ []) (λ item. self.old ≡ item ∷ self.new) }
        ensures rest { self.new ≡ drop 1 self.old }
    {
        if self.items.is_empty() {
            None
        } else {
            Some(self.items.remove(0))
        }
    }

    /// Whether no items wait.
    pub fn is_empty(&self) -> bool
        ensures { IsTrue result ↔ (self.now ≡ []) }
    {
        self.items.is_empty()
    }

    /// The items, the oldest first.
    pub fn as_slice(&self) -> &[Item]
        ensures items { result.now ≡ self.now }
        ensures few { length self.now ≤ Self.MOST }
    {
        self.items.as_slice()
    }
}

impl Clone for ItemQueue {
    ghost is_clone = { λ s t. t ≡ s };

    fn clone(&self) -> Result<Self, AllocError> {
        Ok(ItemQueue {
            items: self.items.clone()?,
        })
    }
}

impl PartialEq for ItemQueue {
    ghost use Rattle.std.specs.Cmp.Lexicographic.{pointwise, lists_per};
    ghost use Rattle.devices.specs.contracts.queue.ItemPartialEq.TheImpl.{ghosts};
    ghost use Rattle.devices.specs.contracts.queue.ItemPartialEq.TheImpl.Laws as item;

    ghost eq = { λ x y. pointwise ghosts.eq x y };

    ghost laws = { lists_per item.laws-law };

    fn eq(&self, other: &Self) -> bool {
        self.items == other.items
    }
}

impl Eq for ItemQueue {
    ghost use Rattle.std.specs.Cmp.Lexicographic.{lists_equiv};
    ghost use Rattle.devices.specs.contracts.queue.ItemEq.TheImpl.Laws as item;

    ghost laws = { lists_equiv item.laws-law };
}
