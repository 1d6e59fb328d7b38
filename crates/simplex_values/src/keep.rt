//! Copies that may want memory.
ghost use Rattle.std.specs.Prelude.{◌≡◌, IfOk};

use std::alloc::{AllocError, Global};

/// A value of which an equal one can be made.
pub trait Keep: Sized {
    /// An equal value, or want of memory.
    fn keep(&self, alloc: Global) -> Result<Self, AllocError>
        ensures { IfOk result (λ copy. copy ≡ self.now) };

    /// Equal values, in order, or want of memory. It takes room for them once.
    fn keep_all(items: &[Self], alloc: Global) -> Result<Vec<Self>, AllocError>
    where
        Self: Drop,
        ensures { IfOk result (λ copies. copies.items ≡ items.now) }
    {
        let mut copies = Vec::with_capacity(alloc, items.len())?;
        for item in items {
            copies.push(item.keep(alloc)?)?;
        }
        Ok(copies)
    }
}

impl<T: Keep + Drop> Keep for Option<T> {
    fn keep(&self, alloc: Global) -> Result<Option<T>, AllocError> {
        match self {
            None => Ok(None),
            Some(value) => Ok(Some(value.keep(alloc)?)),
        }
    }
}
