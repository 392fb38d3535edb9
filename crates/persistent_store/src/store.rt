//! The map that callers see. Its trie is the root node with all that it leads to.
ghost use Rattle.std.specs.Prelude.{◌+◌, ◌<◌, ◌≡◌, ◌≤◌, ℕ, IfOk, IsOk, None, OnErr, OnOk};
ghost use Rattle.std.specs.FinMap as map;
ghost use Rattle.persistent_store.specs.Addresses.{with_cell};

use crate::cells::Cell;
use crate::nodes::target;
use crate::trie::{Root, cell_of, write_trie};
use cell_value::{Memory, Steps, Value};
use std::alloc::Global;
use std::marker::Model;
use std::rc::Rc;

/// A map from addresses to values. The addresses are the numbers below 1,048,576.
///
/// Inside, it is a trie of five levels whose nodes have at most sixteen entries. Stores that come
/// from one another by `snapshot` share all nodes that no write has told apart since: a node with
/// more than one owner is never written to. To drop a store goes no deeper than the levels.
#[derive(Drop)]
pub struct Store {
    root: Option<Rc<Root>>,
}

impl Model for Store {
    ghost use Rattle.std.specs.{Coded.coded_ℕ, Ordering.nat_cmp};
    ghost use Rattle.std.specs.FinMap as map;
    ghost use Rattle.cell_value.specs.contracts.values.Value as cells;
    ghost use Rattle.cell_value.specs.declared.values.Value.{Value as CellValue};
    ghost use Rattle.persistent_store.specs.{Addresses.map_of, Nodes.cell_at, Nodes.pointee_of};

    ghost Value = { map.FinMap nat_cmp CellValue };

    ghost coded = { map.code coded_ℕ cells.the_row.coded };

    ghost view = { λ store. map_of (cell_at (pointee_of store.root)) };
}

impl Store {
    /// The empty map, which takes no memory.
    pub fn new() -> Store
        ensures { result ≡ map.empty }
    {
        Store { root: None }
    }

    /// The value at the address, and `None` where the map has none. It takes no memory.
    // A value takes 40 bytes, and a call would hand it over through memory.
    #[inline(always)]
    pub fn get(&self, addr: u32) -> Option<Value>
        requires { addr < 1048576 }
        ensures { result ≡ map.get self.now addr }
    {
        cell_of(target(&self.root), addr)
    }

    /// A law for callers: the map has nothing past the addresses.
    pub fn lacks_what_is_no_address(&self)
        ensures nothing_past { (addr : ℕ) → 1048576 ≤ addr → map.get self.now addr ≡ None }
    {
        let _root = &self.root;
    }

    /// Sets or removes the value at an address: in place as far as the store is the only owner of the nodes on the way
    /// to it, and below that by new nodes.
    #[inline(always)]
    fn write<L>(
        &mut self,
        alloc: Global,
        addr: u32,
        value: Option<Value>,
        made: &mut Steps<L>,
    ) -> Result<(), Memory>
        requires { addr < 1048576 }
        ensures written { OnOk result (self.new ≡ with_cell self.old addr value) }
        ensures unchanged { OnErr result (self.new ≡ self.old) }
        ensures made_rises { made.old ≤ made.new }
        ensures five_nodes { made.new ≤ made.old + 5 }
    {
        let cell = Cell::of(alloc, value)?;
        write_trie(alloc, &mut self.root, addr as usize, cell, made)?;
        Ok(())
    }

    /// Sets the value at the address. After `Memory` the map is as it was. Each step of `made` is a node
    /// made, also one that was made before a `Memory`: five at most.
    pub fn put<L>(
        &mut self,
        alloc: Global,
        addr: u32,
        value: Value,
        made: &mut Steps<L>,
    ) -> Result<(), Memory>
        requires { addr < 1048576 }
        ensures set { OnOk result (self.new ≡ map.insert self.old addr value) }
        ensures unchanged { OnErr result (self.new ≡ self.old) }
        ensures made_rises { made.old ≤ made.new }
        ensures five_nodes { made.new ≤ made.old + 5 }
    {
        self.write(alloc, addr, Some(value), made)
    }

    /// Takes the value at the address out of the map. Where the map has none there, nothing changes,
    /// no node is made, and the answer is Ok. After `Memory` the map is as it was. Each step of `made`
    /// is a node made, also one that was made before a `Memory`: five at most. Nodes that are left with
    /// no value are kept.
    pub fn remove<L>(&mut self, alloc: Global, addr: u32, made: &mut Steps<L>) -> Result<(), Memory>
        requires { addr < 1048576 }
        ensures gone { OnOk result (self.new ≡ map.remove self.old addr) }
        ensures unchanged { OnErr result (self.new ≡ self.old) }
        ensures absent { map.get self.old addr ≡ None →
            IsOk result × (self.new ≡ self.old) × (made.new ≡ made.old) }
        ensures made_rises { made.old ≤ made.new }
        ensures five_nodes { made.new ≤ made.old + 5 }
    {
        if self.get(addr).is_none() {
            return Ok(());
        }
        self.write(alloc, addr, None, made)
    }

    /// Another store with the same map, which shares every node with this one. No later write to
    /// one of the two changes the other. `Memory` can come since the clone of an `Rc` is a `Result`.
    pub fn snapshot(&self) -> Result<Store, Memory>
        ensures same { IfOk result (λ copy. copy ≡ self.now) }
    {
        Ok(Store {
            root: self.root.clone()?,
        })
    }
}
