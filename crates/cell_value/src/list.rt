//! Lists whose items are counted by a `u32`.
ghost use Rattle.std.specs.Prelude.{◌++◌, ◌<◌, ◌∷◌, ◌≡◌, [], OnErr, OnOk, Some, length, slice_get};

use crate::values::Value;
use std::alloc::{AllocError, Global};
use std::marker::Model;

/// No memory could be had.
pub type Memory = AllocError;

/// A list of fewer than 2^32 items. Clauses see it as the list of its items, first to last.
#[derive(Debug, Drop)]
pub struct List<X> {
    items: Vec<X>,
}

/// The values of some cells.
pub type Cells = List<Value>;

/// The items of an input: each char by its ordinal, and 256 for a line end.
pub type Items = List<u16>;

impl<X> Model for List<X> {
    ghost use Rattle.std.specs.Prelude.{◌<◌, ◌^◌, List, vec_len};

    ghost Value = { List X };

    ghost view = { λ list. list.items.items };

    ghost invariant = { λ list. vec_len list.items < 2 ^ 32 };
}

impl<X: Copy> List<X> {
    /// An empty list, which takes no memory yet.
    pub fn new(alloc: Global) -> List<X>
        ensures { result ≡ [] }
    {
        List {
            items: Vec::new(alloc),
        }
    }

    /// Puts the item at the end. The list has fewer than 4,294,967,295 items before, so that their number is a `u32`
    /// afterwards. After `Memory` the list is as it was.
    pub fn push(&mut self, item: X) -> Result<(), Memory>
        requires room { length self.old < 4294967295 }
        ensures added { OnOk result (self.new ≡ self.old ++ item ∷ []) }
        ensures unchanged { OnErr result (self.new ≡ self.old) }
    {
        self.items.push(item)?;
        Ok(())
    }

    /// The number of items.
    pub fn len(&self) -> u32
        ensures { result ≡ length self.now }
    {
        self.items.len() as u32
    }

    /// The item at place `i`, counted from 0, which is below the number of items.
    pub fn at(&self, i: u32) -> X
        requires inside { i < length self.now }
        ensures found { slice_get self.now i ≡ Some result }
    {
        self.items[i as usize]
    }

    /// The items as a slice.
    pub fn as_slice(&self) -> &[X]
        ensures { result.now ≡ self.now }
    {
        &self.items
    }
}
