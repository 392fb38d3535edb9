//! What is wanted of the state at a place of the log, while a pass goes back over a call.
ghost use Rattle.std.specs.Prelude.{if◌then◌else◌, ◌&&◌, ◌<◌, ◌≡◌, ◌≤◌, ℕ, All, IfOk, List, false, is_some, length};
ghost use Rattle.std.specs.Prelude.{nat_le, nat_lt, slice_range, true};
ghost use Rattle.cell_value.specs.Effects.{IsCountable, change_by};
ghost use Rattle.core_program.specs.Run.{Call};
ghost use Rattle.output_slice.specs.{Backward.looks, CellSets.has_cell, Keys.has_key, declared.outputs.Output.Output};
ghost use Rattle.output_slice.specs.Backward.{Wanted, asks_heap, asks_input, before_child, before_touches, is_some_of};

use crate::cell_set::CellSet;
use cell_value::{Memory, Touch};
use effect_log::{Changes, Footprint, Log, Reads};
use std::alloc::Global;

/// What is wanted of the state at a place of the log.
#[derive(Drop)]
pub(crate) struct Needs {
    pub(crate) cells: CellSet,
    /// How far the input was taken.
    pub(crate) input: bool,
    /// Where the heap is free.
    pub(crate) heap: bool,
}

/// Whether one of the two is so.
pub(crate) fn either(first: bool, second: bool) -> bool
    ensures { result ≡ (if first then true else second) }
{
    first || second
}

/// Takes the addresses from `first` to below `end` out.
fn remove_block(cells: &mut CellSet, first: u32, end: u32)
    requires { first ≤ end }
    ensures { (a : ℕ) → a < 1048576 → has_cell cells.new a
        ≡ (if nat_le first a && nat_lt a end then false else has_cell cells.old a) }
{
    for addr in first..end {
        cells.remove(addr);
    }
}

/// Takes the addresses out that a call changed.
fn remove_changed(cells: &mut CellSet, changes: &Changes)
    ensures { (a : ℕ) → a < 1048576 → has_cell cells.new a
        ≡ (if has_key a changes.now then false else has_cell cells.old a) }
{
    for i in 0..changes.len() {
        cells.remove(changes.at(i).0);
    }
}

/// Puts the addresses in that a call read or asked for.
fn insert_read(cells: &mut CellSet, reads: &Reads)
    ensures { (a : ℕ) → a < 1048576 → has_cell cells.new a
        ≡ (if has_key a reads.now then true else has_cell cells.old a) }
{
    for i in 0..reads.len() {
        cells.insert(reads.at(i).0);
    }
}

impl Needs {
    ghost use Rattle.output_slice.specs.Needed.{AreWanted, IsEffectOfCall, nothing_wanted};

    /// Nothing is wanted.
    pub(crate) fn new(alloc: Global) -> Result<Needs, Memory>
        ensures { IfOk result (λ needs. AreWanted needs nothing_wanted) }
    {
        let cells = CellSet::new(alloc)?;
        Ok(Needs {
            cells,
            input: false,
            heap: false,
        })
    }

    /// Nothing is wanted any more.
    pub(crate) fn clear(&mut self)
        ensures { AreWanted self.new nothing_wanted }
    {
        self.cells.clear();
        self.input = false;
        self.heap = false;
    }

    /// Goes back over a touch of the call's own.
    fn pass(&mut self, touch: Touch)
        requires countable { IsCountable touch }
        ensures cells { (a : ℕ) → a < 1048576 → has_cell self.new.cells a ≡ (if looks a touch then true
            else if is_some (change_by a touch) then false else has_cell self.old.cells a) }
        ensures input { self.new.input ≡ (if asks_input touch then true else self.old.input) }
        ensures heap { self.new.heap ≡ (if asks_heap touch then true else self.old.heap) }
    {
        match touch {
            Touch::Read(addr, _) => self.cells.insert(addr),
            Touch::Has(addr, _) => self.cells.insert(addr),
            Touch::Write(addr, _) => self.cells.remove(addr),
            Touch::Make(first, cells, _) => {
                self.heap = true;
                remove_block(&mut self.cells, first, first + cells);
            }
            Touch::Drop(first, cells) => remove_block(&mut self.cells, first, first + cells),
            Touch::Look(_) => self.input = true,
            Touch::Take(_) => self.input = true,
            Touch::Give(_) => {}
        }
    }

    /// Goes back over the call's own touches from one place of the log to another.
    pub(crate) fn pass_all(&mut self, log: &Log, from: u32, to: u32)
        requires in_order { from ≤ to }
        requires in_log { to ≤ length log.now }
        requires countable { All IsCountable (slice_range log.now from to) }
        ensures { (w : Wanted) → AreWanted self.old w
            → AreWanted self.new (before_touches (slice_range log.now from to) w) }
    {
        for i in (from..to).rev() {
            self.pass(log.at(i));
        }
    }

    /// What a call read and asked for is wanted before it.
    fn want_met(&mut self, effect: &Footprint)
        ensures cells { (a : ℕ) → a < 1048576 → has_cell self.new.cells a
            ≡ (if has_key a effect.now.reads then true else has_cell self.old.cells a) }
        ensures input { self.new.input ≡ (if nat_lt 0 effect.now.looked then true else self.old.input) }
        ensures heap { self.new.heap ≡ (if nat_lt 0 effect.now.made then true else self.old.heap) }
    {
        insert_read(&mut self.cells, &effect.reads);
        self.input = either(0 < effect.looked, self.input);
        self.heap = either(0 < effect.made, self.heap);
    }

    /// Goes back over a call that was made, of which something is used or nothing.
    pub(crate) fn pass_call(&mut self, effect: &Footprint, is_used: bool)
        ensures { (c : Call) (us : List Output) → IsEffectOfCall c effect.now → is_used ≡ is_some_of us → (w : Wanted)
            → AreWanted self.old w → AreWanted self.new (before_child c us w) }
    {
        remove_changed(&mut self.cells, &effect.changes);
        if is_used {
            self.want_met(effect);
        }
    }
}
