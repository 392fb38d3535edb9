//! What has been found in the log so far.
ghost use Rattle.std.specs.Prelude.{◌+◌, ◌<◌, ◌^◌, ◌≡◌, ◌≤◌, [], ℕ, OnOk, Some};
ghost use Rattle.cell_value.specs.{Effects.taken_by, declared.entries.Change.Change as CellChange};
ghost use Rattle.cell_value.specs.Effects.{IsCountable, change_by, changed_block, given_of, looked_by, made_by};
ghost use Rattle.cell_value.specs.declared.entries.Touch.TheVariants as touch;
ghost use Rattle.effect_log.specs.Passing.{ChangesBy, IsFound, Sees, TakesIn, was_read_lem};

use crate::cells_found::{find, is_shared_cell, put};
use cell_value::{Change, Memory, Seen, Touch, Value};
use edge_ports::Bytes;
use std::alloc::Global;
use std::collections::BTreeMap;

/// What has been found in the part of the log that was gone over.
#[derive(Drop)]
pub(crate) struct Found {
    pub(crate) reads: BTreeMap<u32, Seen>,
    pub(crate) changes: BTreeMap<u32, Change>,
    pub(crate) made: u32,
    pub(crate) looked: u32,
    pub(crate) taken: u32,
    pub(crate) given: Bytes,
}

/// Whether a cell was read before.
fn was_read(seen: Option<Seen>) -> bool
    ensures { result ≡ was_read_lem seen }
{
    matches!(seen, Some(Seen::Held(_)))
}

/// Takes in that a value was read, if the cell was neither changed nor read before.
fn see_value(
    reads: &mut BTreeMap<u32, Seen>,
    changes: &BTreeMap<u32, Change>,
    base: u32,
    addr: u32,
    value: Value,
) -> Result<(), Memory>
    ensures { OnOk result (Sees base (touch.Read addr value) changes.now reads.old reads.new) }
{
    if !is_shared_cell(base, addr) || find(changes, addr).is_some() || was_read(find(reads, addr)) {
        return Ok(());
    }
    put(reads, addr, Seen::Held(value))
}

/// Takes in whether a cell was there, if it was neither changed nor seen before.
fn see_answer(
    reads: &mut BTreeMap<u32, Seen>,
    changes: &BTreeMap<u32, Change>,
    base: u32,
    addr: u32,
    there: bool,
) -> Result<(), Memory>
    ensures { OnOk result (Sees base (touch.Has addr there) changes.now reads.old reads.new) }
{
    if !is_shared_cell(base, addr) || find(changes, addr).is_some() || find(reads, addr).is_some() {
        return Ok(());
    }
    let seen = if there { Seen::There } else { Seen::Absent };
    put(reads, addr, seen)
}

/// Takes in that a value was written.
fn change_cell(
    changes: &mut BTreeMap<u32, Change>,
    base: u32,
    addr: u32,
    value: Value,
) -> Result<(), Memory>
    ensures { OnOk result (ChangesBy base (λ at. change_by at (touch.Write addr value)) changes.old changes.new) }
{
    if is_shared_cell(base, addr) {
        put(changes, addr, Change::Set(value))?;
    }
    Ok(())
}

/// Takes in what happened to all cells of a block, which ends at `end`.
fn change_block(
    changes: &mut BTreeMap<u32, Change>,
    base: u32,
    first: u32,
    end: u32,
    change: Change,
) -> Result<(), Memory>
    requires { first ≤ end }
    ensures { OnOk result (ChangesBy base (changed_block first end change) changes.old changes.new) }
{
    for addr in first..end {
        if is_shared_cell(base, addr) {
            put(changes, addr, change)?;
        }
    }
    Ok(())
}

impl Found {
    /// Nothing found yet.
    pub(crate) fn new(alloc: Global) -> Found
        ensures { (base place : ℕ) → IsFound base place [] result }
    {
        Found {
            reads: BTreeMap::new(alloc),
            changes: BTreeMap::new(alloc),
            made: 0,
            looked: 0,
            taken: 0,
            given: Bytes::new(alloc),
        }
    }

    /// Takes in one more touch.
    pub(crate) fn take_in(&mut self, base: u32, place: u32, touch: Touch) -> Result<(), Memory>
        requires countable { IsCountable touch }
        requires made_fits { self.old.made + made_by touch < 2 ^ 32 }
        requires taken_fits { self.old.taken + taken_by touch < 2 ^ 32 }
        ensures { OnOk result (TakesIn base place touch self.old self.new) }
    {
        match touch {
            Touch::Read(addr, value) => see_value(
                &mut self.reads,
                &self.changes,
                base,
                addr,
                value,
            )?,
            Touch::Has(addr, there) => see_answer(
                &mut self.reads,
                &self.changes,
                base,
                addr,
                there,
            )?,
            Touch::Write(addr, value) => change_cell(&mut self.changes, base, addr, value)?,
            Touch::Make(first, cells, _) => {
                let made = Change::Set(Value::Undefined);
                change_block(&mut self.changes, base, first, first + cells, made)?;
                self.made += cells;
            }
            Touch::Drop(first, cells) => {
                change_block(&mut self.changes, base, first, first + cells, Change::Gone)?;
            }
            Touch::Look(at) => self.looked = self.looked.max((at + 1).saturating_sub(place)),
            Touch::Take(items) => self.taken += items,
            Touch::Give(byte) => self.given.append(&[byte])?,
        }
        Ok(())
    }
}
