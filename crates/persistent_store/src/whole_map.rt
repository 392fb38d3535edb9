//! The same map kept whole: the plain program that the trie is compared with.
ghost use Rattle.std.specs.Prelude.{◌<◌, ◌≡◌, IfOk, OnErr, OnOk};
ghost use Rattle.std.specs.FinMap as map;

use cell_value::{Memory, Value};
use std::alloc::Global;
use std::collections::BTreeMap;
use std::marker::Model;

/// A map from addresses below 1,048,576 to values, which a snapshot copies.
#[derive(Drop)]
pub struct WholeMap {
    entries: BTreeMap<u32, Value>,
}

impl Model for WholeMap {
    ghost use Rattle.std.specs.{Coded.coded_ℕ, Ordering.nat_cmp};
    ghost use Rattle.std.specs.BTreeMap as tree;
    ghost use Rattle.std.specs.FinMap as map;
    ghost use Rattle.cell_value.specs.contracts.values.Value as cells;
    ghost use Rattle.cell_value.specs.declared.values.Value.{Value as CellValue};
    ghost use Rattle.persistent_store.specs.Addresses.{map_of};

    ghost Value = { map.FinMap nat_cmp CellValue };

    ghost coded = { map.code coded_ℕ cells.the_row.coded };

    ghost view = { λ whole. map_of (tree.get nat_cmp whole.entries) };
}

impl WholeMap {
    /// The empty map, which takes no memory yet.
    pub fn new(alloc: Global) -> WholeMap
        ensures { result ≡ map.empty }
    {
        WholeMap {
            entries: BTreeMap::new(alloc),
        }
    }

    /// The value at the address, and `None` where the map has none.
    pub fn get(&self, addr: u32) -> Option<Value>
        requires { addr < 1048576 }
        ensures { result ≡ map.get self.now addr }
    {
        self.entries.get(&addr).copied()
    }

    /// Sets the value at the address. After `Memory` the map is as it was.
    pub fn put(&mut self, addr: u32, value: Value) -> Result<(), Memory>
        requires { addr < 1048576 }
        ensures set { OnOk result (self.new ≡ map.insert self.old addr value) }
        ensures unchanged { OnErr result (self.new ≡ self.old) }
    {
        self.entries.insert(addr, value)?;
        Ok(())
    }

    /// Takes the value at the address out of the map, where it has one.
    pub fn remove(&mut self, addr: u32)
        requires { addr < 1048576 }
        ensures { self.new ≡ map.remove self.old addr }
    {
        let _ = self.entries.remove(&addr);
    }

    /// A copy, which no later change to this map changes.
    pub fn snapshot(&self) -> Result<WholeMap, Memory>
        ensures { IfOk result (λ copy. copy ≡ self.now) }
    {
        Ok(WholeMap {
            entries: self.entries.clone()?,
        })
    }
}
