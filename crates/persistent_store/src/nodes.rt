//! The nodes of the trie: leaves with cells, and branches with nodes of the level below. Any number
//! of stores may share a node, and one that is shared is never written to.
ghost use Rattle.std.specs.Prelude.{◌+◌, ◌<◌, ◌≡◌, ℕ, IfOk, IfSome, IsSome, OnErr, OnOk, Some, length, option_copied};
ghost use Rattle.std.specs.{Prelude.replicate, Borrow.sem};
ghost use Rattle.persistent_store.specs.{Cells.value_of, Cells.values_of, Loans.LendsTarget};
ghost use Rattle.persistent_store.specs.Nodes.{ChangesAt, node_entry, node_of, pointee_of};

use crate::cells::Cell;
use cell_value::{Memory, Steps, Value};
use std::alloc::Global;
use std::array;
use std::marker::Model;
use std::mem::size_of;
use std::rc::Rc;

/// A node of the lowest level: sixteen cells, each with a value or none.
#[derive(Drop)]
pub(crate) struct Leaf {
    pub(crate) cells: [Cell; 16],
}

impl Model for Leaf {
    ghost use Rattle.std.specs.Prelude.{◌≡◌, List, Option, length};
    ghost use Rattle.cell_value.specs.declared.values.Value.{Value as CellValue};
    ghost use Rattle.persistent_store.specs.Cells.{values_of};

    ghost Value = { List (Option CellValue) };

    ghost view = { λ leaf. values_of leaf.cells };

    ghost invariant = { λ leaf. length leaf.cells ≡ 16 };
}

impl Leaf {
    /// The value of the cell at a place.
    #[inline(always)]
    pub(crate) fn at(leaf: Option<&Leaf>, place: usize) -> Option<Value>
        requires { place < 16 }
        ensures { result ≡ node_entry (option_copied leaf.entry) place }
    {
        leaf?.cells[place].value()
    }

    /// Copies of the cells of a leaf, none of them with a value where there is no leaf.
    fn cells_of(leaf: Option<&Leaf>) -> Result<[Cell; 16], Memory>
        ensures sixteen { IfOk result (λ cells. length cells ≡ 16) }
        ensures same { IfOk result (λ cells. (k : ℕ)
            → node_entry (Some (values_of cells)) k ≡ node_entry (option_copied leaf.entry) k) }
    {
        match leaf {
            Some(leaf) => copies_of(&leaf.cells),
            None => Ok(no_cells()),
        }
    }

    /// Makes the leaf that has this cell at the place, and elsewhere what `old` has. Each step taken is
    /// a leaf made.
    #[inline(never)]
    pub(crate) fn changed<L>(
        alloc: Global,
        old: Option<&Leaf>,
        place: usize,
        cell: Cell,
        made: &mut Steps<L>,
    ) -> Result<Rc<Leaf>, Memory>
        requires { place < 16 }
        ensures changed { IfOk result (λ new. ChangesAt (node_entry (option_copied old.entry))
            (node_entry (Some new.value)) place (value_of cell)) }
        ensures one_node { OnOk result (made.new ≡ made.old + 1) }
        ensures no_node { OnErr result (made.new ≡ made.old) }
    {
        let mut cells = Leaf::cells_of(old)?;
        cells[place] = cell;
        let leaf = Rc::new(alloc, Leaf { cells })?;
        made.tick();
        Ok(leaf)
    }
}

/// A node of a higher level: sixteen pointers, and beside each whether a node of the level below is there. A pointer
/// takes eight bytes, and an `Option` of one would take sixteen. Where no node is there, the pointer leads to any node,
/// and nobody follows it.
#[derive(Drop)]
pub(crate) struct Branch<T> {
    there: [bool; 16],
    pub(crate) below: [Rc<T>; 16],
}

const _: () = prove!(size_of::<Branch<Leaf>>() == 144);

impl<T> Model for Branch<T> {
    ghost use Rattle.std.specs.Prelude.{◌≡◌, List, Option, length};
    ghost use Rattle.persistent_store.specs.Nodes.{entries_of};

    ghost Value = { List (Option T) };

    ghost view = { λ branch. entries_of branch.there branch.below };

    ghost invariant = { λ branch. (length branch.there ≡ 16) × (length branch.below ≡ 16) };
}

impl<T: Drop> Branch<T> {
    ghost use Rattle.persistent_store.specs.contracts.nodes.Branch as branches;

    /// The node at a place.
    #[inline(always)]
    pub(crate) fn at(branch: Option<&Branch<T>>, place: usize) -> Option<&T>
        requires { place < 16 }
        ensures { option_copied result ≡ node_entry (option_copied branch.entry) place }
    {
        let branch = branch?;
        node_behind(branch.there[place], &branch.below[place])
    }

    /// A copy of a branch, with no node anywhere where there is no branch. Its pointers then lead to `any`.
    fn copy_of(branch: Option<&Branch<T>>, any: &Rc<T>) -> Result<Branch<T>, Memory>
        ensures same { IfOk result (λ copy. (k : ℕ)
            → node_entry (Some copy) k ≡ node_entry (option_copied branch.entry) k) }
    {
        match branch {
            Some(branch) => Ok(Branch {
                there: branch.there,
                below: branch.below.clone()?,
            }),
            None => Ok(Branch {
                there: [false; 16],
                below: array::try_from_fn(|_place| any.clone())?,
            }),
        }
    }

    /// Makes the branch that has this node at the place, and elsewhere the nodes that `old` has, which
    /// it then shares with `old`. Each step taken is a branch made.
    pub(crate) fn changed<L>(
        alloc: Global,
        old: Option<&Branch<T>>,
        place: usize,
        node: Rc<T>,
        made: &mut Steps<L>,
    ) -> Result<Rc<Branch<T>>, Memory>
        requires { place < 16 }
        ensures changed { IfOk result (λ new. ChangesAt (node_entry (option_copied old.entry))
            (node_entry (Some new.value)) place (Some node.value)) }
        ensures one_node { OnOk result (made.new ≡ made.old + 1) }
        ensures no_node { OnErr result (made.new ≡ made.old) }
    {
        let mut branch = Branch::copy_of(old, &node)?;
        branch.there[place] = true;
        branch.below[place] = node;
        let branch = Rc::new(alloc, branch)?;
        made.tick();
        Ok(branch)
    }

    /// The branch that a pointer leads to, to be written to below a place, where no other pointer leads to
    /// it and a node is at the place.
    #[inline(always)]
    pub(crate) fn sole(pointer: &mut Rc<Branch<T>>, place: usize) -> Option<&mut Branch<T>>
        requires { place < 16 }
        ensures* writes_back { sem 𝓛 (LendsTarget (branches.the_row T.row) pointer.entry result) }
        ensures value { IfSome result (λ branch. branch.now ≡ pointer.old.value) }
        ensures there { IfSome result (λ _branch. IsSome (node_entry (Some pointer.old.value) place)) }
    {
        if pointer.there[place] {
            Rc::get_mut(pointer)
        } else {
            None
        }
    }
}

/// The node that a pointer leads to, where one is there.
#[inline(always)]
fn node_behind<T>(there: bool, pointer: &Rc<T>) -> Option<&T>
    ensures { option_copied result ≡ node_of there pointer.now }
{
    if there { Some(&**pointer) } else { None }
}

/// The node that a pointer leads to.
#[inline(always)]
pub(crate) fn target<T>(pointer: &Option<Rc<T>>) -> Option<&T>
    ensures { option_copied result ≡ pointee_of pointer.now }
{
    match pointer {
        Some(node) => Some(&**node),
        None => None,
    }
}

/// Copies of sixteen cells.
fn copies_of(cells: &[Cell; 16]) -> Result<[Cell; 16], Memory>
    ensures sixteen { IfOk result (λ copies. length copies ≡ 16) }
    ensures same { IfOk result (λ copies. values_of copies ≡ values_of cells.now) }
{
    Ok(cells.clone()?)
}

/// Sixteen cells with no value.
fn no_cells() -> [Cell; 16]
    ensures { result ≡ replicate 16 Cell.Absent }
{
    [const { Cell::Absent }; 16]
}
