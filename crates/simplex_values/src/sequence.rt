//! Lists in messages and records.
ghost use Rattle.std.specs.Prelude.{◌≡◌, ◌++◌, ◌∷◌, [], OnOk, OnErr, length, ◌==◌};
ghost use Rattle.std.specs.Cmp.Rules.{comparing};
ghost use Rattle.std.specs.Cmp.Lexicographic.{pointwise, lists_per, lists_equiv};
ghost use Rattle.std.proofs.Common.{rules};

use crate::keep::Keep;
use crate::member::Participant;
use std::alloc::{AllocError, AllocFailed, Global};
use std::marker::Model;

/// A list that is a part of a message or a record. Contracts see the items alone. [sequences]
#[derive(Debug, Drop)]
pub struct Sequence<T> {
    items: Vec<T>,
}

/// Bytes of a message.
pub type Bytes = Sequence<u8>;

/// Members that are named.
pub type Members = Sequence<Participant>;

impl<T> Model for Sequence<T> {
    ghost use Rattle.std.specs.Prelude.{List};

    ghost Value = { List T };

    ghost view = { λ sequence. sequence.items.items };
}

impl<T> Sequence<T> {
    /// No items.
    pub fn new(alloc: Global) -> Sequence<T>
        ensures { result ≡ [] }
    {
        Sequence {
            items: Vec::new(alloc),
        }
    }

    /// The items of the vector. Takes no memory.
    pub fn from_vec(items: Vec<T>) -> Sequence<T>
        ensures { result ≡ items.items }
    {
        Sequence { items }
    }

    /// The items as a vector. Takes no memory.
    pub fn into_vec(self) -> Vec<T>
        ensures { result.items ≡ self }
    {
        let Sequence { items } = self;
        items
    }

    /// The items.
    pub fn as_slice(&self) -> &[T]
        ensures { result.now ≡ self.now }
    {
        self.items.as_slice()
    }

    /// How many items there are.
    pub fn len(&self) -> usize
        ensures { result ≡ length self.now }
    {
        self.items.len()
    }

    /// Whether there is no item.
    pub fn is_empty(&self) -> bool
        ensures { result ≡ (length self.now == 0) }
    {
        self.items.is_empty()
    }
}

impl<T: Drop> Sequence<T> {
    /// Puts the item last, or leaves the list as it was for want of memory.
    pub fn push(&mut self, item: T) -> Result<(), AllocError>
        ensures ok { OnOk result (self.new ≡ self.old ++ item ∷ []) }
        ensures err { OnErr result (self.new ≡ self.old) }
    {
        self.items.push(item).map_err(AllocError::from)
    }

    /// Drops all items, and keeps the room for others.
    pub fn clear(&mut self)
        ensures { self.new ≡ [] }
    {
        self.items.clear();
    }

    /// Gives back the memory that the items do not need. They stay as they are, and no memory is taken.
    pub fn shrink_to_fit(&mut self)
        ensures { self.new ≡ self.old }
    {
        self.items.shrink_to_fit();
    }
}

impl<T: PartialEq> PartialEq for Sequence<T> {
    ghost eq = { λ a b. pointwise T.eq a b };

    ghost laws = { lists_per (Prim.search (comparing, rules)) };

    fn eq(&self, other: &Sequence<T>) -> bool {
        self.items == other.items
    }
}

impl<T: Eq> Eq for Sequence<T> {
    ghost laws = { lists_equiv (Prim.search (comparing, rules)) };
}

impl<T: Keep + Drop> Keep for Sequence<T> {
    fn keep(&self, alloc: Global) -> Result<Sequence<T>, AllocError> {
        Ok(Sequence {
            items: T::keep_all(&self.items, alloc)?,
        })
    }
}

impl Keep for u8 {
    fn keep(&self, _alloc: Global) -> Result<u8, AllocError> {
        Ok(*self)
    }

    fn keep_all(items: &[u8], alloc: Global) -> Result<Vec<u8>, AllocError> {
        Vec::from_slice(alloc, items)
    }
}

impl Keep for Participant {
    fn keep(&self, _alloc: Global) -> Result<Participant, AllocError> {
        Ok(*self)
    }

    fn keep_all(items: &[Participant], alloc: Global) -> Result<Vec<Participant>, AllocError> {
        Vec::from_slice(alloc, items)
    }
}
