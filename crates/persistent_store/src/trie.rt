//! The trie under a root: five levels of nodes, which are told apart by their types.
ghost use Rattle.std.specs.Prelude.{◌%◌, ◌+◌, ◌/◌, ◌<◌, ◌≡◌, ◌≤◌, IfOk, OnErr, OnOk, Some, option_copied};
ghost use Rattle.persistent_store.specs.{Cells.value_of, Nodes.pointee_of};
ghost use Rattle.persistent_store.specs.Nodes.{ChangesAt, cell_at, in_level1, in_level2, in_level3, node_entry};

use crate::cells::Cell;
use crate::nodes::{Branch, Leaf};
use cell_value::{Memory, Steps, Value};
use std::alloc::Global;
use std::rc::Rc;

/// The nodes of the levels above the leaves, the lowest first.
type Level1 = Branch<Leaf>;

type Level2 = Branch<Level1>;

type Level3 = Branch<Level2>;

/// The node at the root of a trie of five levels.
pub(crate) type Root = Branch<Level3>;

/// What the trie has at an address.
#[inline(always)]
pub(crate) fn cell_of(root: Option<&Root>, addr: u32) -> Option<Value>
    requires { addr < 1048576 }
    ensures { result ≡ cell_at (option_copied root.entry) addr }
{
    let addr = addr as usize;
    let level3 = Branch::at(root, addr / 65536);
    let level2 = Branch::at(level3, addr % 65536 / 4096);
    let level1 = Branch::at(level2, addr % 65536 % 4096 / 256);
    let leaf = Branch::at(level1, addr % 65536 % 4096 % 256 / 16);
    Leaf::at(leaf, addr % 65536 % 4096 % 256 % 16)
}

/// Makes the node of level 1 that has this cell at the address, and elsewhere what `old` has. It shares with `old`
/// every node that is not on the way to the address, and each step taken is a node made.
#[inline(never)]
fn changed_level1<L>(
    alloc: Global,
    old: Option<&Level1>,
    addr: usize,
    cell: Cell,
    made: &mut Steps<L>,
) -> Result<Rc<Level1>, Memory>
    requires { addr < 256 }
    ensures changed { IfOk result (λ new. ChangesAt (in_level1 (option_copied old.entry)) (in_level1 (Some new.value))
        addr (value_of cell)) }
    ensures made_rises { made.old ≤ made.new }
    ensures two_nodes { made.new ≤ made.old + 2 }
{
    let leaf = Leaf::changed(alloc, Branch::at(old, addr / 16), addr % 16, cell, made)?;
    Branch::changed(alloc, old, addr / 16, leaf, made)
}

/// The same of level 2.
#[inline(never)]
fn changed_level2<L>(
    alloc: Global,
    old: Option<&Level2>,
    addr: usize,
    cell: Cell,
    made: &mut Steps<L>,
) -> Result<Rc<Level2>, Memory>
    requires { addr < 4096 }
    ensures changed { IfOk result (λ new. ChangesAt (in_level2 (option_copied old.entry)) (in_level2 (Some new.value))
        addr (value_of cell)) }
    ensures made_rises { made.old ≤ made.new }
    ensures three_nodes { made.new ≤ made.old + 3 }
{
    let level1 = changed_level1(alloc, Branch::at(old, addr / 256), addr % 256, cell, made)?;
    Branch::changed(alloc, old, addr / 256, level1, made)
}

/// The same of level 3.
#[inline(never)]
fn changed_level3<L>(
    alloc: Global,
    old: Option<&Level3>,
    addr: usize,
    cell: Cell,
    made: &mut Steps<L>,
) -> Result<Rc<Level3>, Memory>
    requires { addr < 65536 }
    ensures changed { IfOk result (λ new. ChangesAt (in_level3 (option_copied old.entry)) (in_level3 (Some new.value))
        addr (value_of cell)) }
    ensures made_rises { made.old ≤ made.new }
    ensures four_nodes { made.new ≤ made.old + 4 }
{
    let level2 = changed_level2(alloc, Branch::at(old, addr / 4096), addr % 4096, cell, made)?;
    Branch::changed(alloc, old, addr / 4096, level2, made)
}

/// The same of the root.
#[inline(never)]
fn changed_root<L>(
    alloc: Global,
    old: Option<&Root>,
    addr: usize,
    cell: Cell,
    made: &mut Steps<L>,
) -> Result<Rc<Root>, Memory>
    requires { addr < 1048576 }
    ensures changed { IfOk result (λ new. ChangesAt (cell_at (option_copied old.entry)) (cell_at (Some new.value))
        addr (value_of cell)) }
    ensures made_rises { made.old ≤ made.new }
    ensures five_nodes { made.new ≤ made.old + 5 }
{
    let level3 = changed_level3(
        alloc,
        Branch::at(old, addr / 65536),
        addr % 65536,
        cell,
        made,
    )?;
    Branch::changed(alloc, old, addr / 65536, level3, made)
}

/// Writes a cell of the leaf that a pointer leads to, in place where no other pointer leads to it, and else in a leaf
/// made from it. Each step taken is a leaf made.
#[inline(always)]
fn write_leaf<L>(
    alloc: Global,
    pointer: &mut Rc<Leaf>,
    place: usize,
    cell: Cell,
    made: &mut Steps<L>,
) -> Result<(), Memory>
    requires { place < 16 }
    ensures written { OnOk result (ChangesAt (node_entry (Some pointer.old.value)) (node_entry (Some pointer.new.value))
        place (value_of cell)) }
    ensures unchanged { OnErr result (pointer.new.value ≡ pointer.old.value) }
    ensures made_rises { made.old ≤ made.new }
    ensures one_node { made.new ≤ made.old + 1 }
{
    match Rc::get_mut(pointer) {
        Some(leaf) => {
            leaf.cells[place] = cell;
            Ok(())
        }
        None => {
            *pointer = Leaf::changed(alloc, Some(&**pointer), place, cell, made)?;
            Ok(())
        }
    }
}

/// Writes a cell at an address below the node of level 1 that a pointer leads to. From the first node on that has
/// another owner, or has no node on the way, all of the way is made anew, and each step taken is a node made.
#[inline(always)]
fn write_level1<L>(
    alloc: Global,
    pointer: &mut Rc<Level1>,
    addr: usize,
    cell: Cell,
    made: &mut Steps<L>,
) -> Result<(), Memory>
    requires { addr < 256 }
    ensures written { OnOk result (ChangesAt (in_level1 (Some pointer.old.value)) (in_level1 (Some pointer.new.value))
        addr (value_of cell)) }
    ensures unchanged { OnErr result (pointer.new.value ≡ pointer.old.value) }
    ensures made_rises { made.old ≤ made.new }
    ensures two_nodes { made.new ≤ made.old + 2 }
{
    match Branch::sole(pointer, addr / 16) {
        Some(node) => {
            write_leaf(alloc, &mut node.below[addr / 16], addr % 16, cell, made)?;
            Ok(())
        }
        None => {
            *pointer = changed_level1(alloc, Some(&**pointer), addr, cell, made)?;
            Ok(())
        }
    }
}

/// The same of level 2.
#[inline(always)]
fn write_level2<L>(
    alloc: Global,
    pointer: &mut Rc<Level2>,
    addr: usize,
    cell: Cell,
    made: &mut Steps<L>,
) -> Result<(), Memory>
    requires { addr < 4096 }
    ensures written { OnOk result (ChangesAt (in_level2 (Some pointer.old.value)) (in_level2 (Some pointer.new.value))
        addr (value_of cell)) }
    ensures unchanged { OnErr result (pointer.new.value ≡ pointer.old.value) }
    ensures made_rises { made.old ≤ made.new }
    ensures three_nodes { made.new ≤ made.old + 3 }
{
    match Branch::sole(pointer, addr / 256) {
        Some(node) => {
            write_level1(alloc, &mut node.below[addr / 256], addr % 256, cell, made)?;
            Ok(())
        }
        None => {
            *pointer = changed_level2(alloc, Some(&**pointer), addr, cell, made)?;
            Ok(())
        }
    }
}

/// The same of level 3.
#[inline(always)]
fn write_level3<L>(
    alloc: Global,
    pointer: &mut Rc<Level3>,
    addr: usize,
    cell: Cell,
    made: &mut Steps<L>,
) -> Result<(), Memory>
    requires { addr < 65536 }
    ensures written { OnOk result (ChangesAt (in_level3 (Some pointer.old.value)) (in_level3 (Some pointer.new.value))
        addr (value_of cell)) }
    ensures unchanged { OnErr result (pointer.new.value ≡ pointer.old.value) }
    ensures made_rises { made.old ≤ made.new }
    ensures four_nodes { made.new ≤ made.old + 4 }
{
    match Branch::sole(pointer, addr / 4096) {
        Some(node) => {
            write_level2(alloc, &mut node.below[addr / 4096], addr % 4096, cell, made)?;
            Ok(())
        }
        None => {
            *pointer = changed_level3(alloc, Some(&**pointer), addr, cell, made)?;
            Ok(())
        }
    }
}

/// The same of the root.
#[inline(always)]
fn write_root<L>(
    alloc: Global,
    pointer: &mut Rc<Root>,
    addr: usize,
    cell: Cell,
    made: &mut Steps<L>,
) -> Result<(), Memory>
    requires { addr < 1048576 }
    ensures written { OnOk result (ChangesAt (cell_at (Some pointer.old.value)) (cell_at (Some pointer.new.value))
        addr (value_of cell)) }
    ensures unchanged { OnErr result (pointer.new.value ≡ pointer.old.value) }
    ensures made_rises { made.old ≤ made.new }
    ensures five_nodes { made.new ≤ made.old + 5 }
{
    match Branch::sole(pointer, addr / 65536) {
        Some(node) => {
            write_level3(
                alloc,
                &mut node.below[addr / 65536],
                addr % 65536,
                cell,
                made,
            )?;
            Ok(())
        }
        None => {
            *pointer = changed_root(alloc, Some(&**pointer), addr, cell, made)?;
            Ok(())
        }
    }
}

/// The same of a trie, which is made where there is none.
#[inline(always)]
pub(crate) fn write_trie<L>(
    alloc: Global,
    root: &mut Option<Rc<Root>>,
    addr: usize,
    cell: Cell,
    made: &mut Steps<L>,
) -> Result<(), Memory>
    requires { addr < 1048576 }
    ensures written { OnOk result (ChangesAt (cell_at (pointee_of root.old)) (cell_at (pointee_of root.new)) addr
        (value_of cell)) }
    ensures unchanged { OnErr result (pointee_of root.new ≡ pointee_of root.old) }
    ensures made_rises { made.old ≤ made.new }
    ensures five_nodes { made.new ≤ made.old + 5 }
{
    match root {
        Some(pointer) => {
            write_root(alloc, pointer, addr, cell, made)?;
            Ok(())
        }
        None => {
            *root = Some(changed_root(alloc, None, addr, cell, made)?);
            Ok(())
        }
    }
}
