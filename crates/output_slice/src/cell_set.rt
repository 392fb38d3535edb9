//! A set of addresses.
ghost use Rattle.std.specs.Prelude.{◌≡◌, ℕ, IfOk, length, slice_index};
ghost use Rattle.output_slice.specs.Stamps.{AreStamped};

use cell_value::{HEAP_END, Memory};
use std::alloc::Global;

/// A set of addresses below 1,048,576. It takes a byte for each of them, and is emptied in one step, but for every
/// 255th time.
#[derive(Drop)]
pub(crate) struct CellSet {
    /// The stamp of each address.
    pub(crate) stamps: Vec<u8>,
    /// The stamp of those that are in the set.
    pub(crate) stamp: u8,
    ghost stamped: { AreStamped stamps.items stamp },
}

/// This many stamps, which no set has.
fn no_stamps(alloc: Global, count: usize) -> Result<Vec<u8>, Memory>
    ensures each { IfOk result (λ v. length v.items ≡ count) }
    ensures none { IfOk result (λ v. (a : ℕ) → slice_index v.items a ≡ 0) }
{
    let stamps = vec![in alloc; 0; count]?;
    Ok(stamps)
}

impl CellSet {
    ghost use Rattle.std.specs.Prelude.{if◌then◌else◌, ◌<◌, ◌==◌, false, true};
    ghost use Rattle.output_slice.specs.CellSets.{has_cell};

    /// The set of no address.
    pub(crate) fn new(alloc: Global) -> Result<CellSet, Memory>
        ensures { IfOk result (λ set. (a : ℕ) → has_cell set a ≡ false) }
    {
        let stamps = no_stamps(alloc, HEAP_END as usize)?;
        Ok(CellSet { stamps, stamp: 1 })
    }

    /// Takes all addresses out.
    pub(crate) fn clear(&mut self)
        ensures { (a : ℕ) → has_cell self.new a ≡ false }
    {
        match self.stamp.checked_add(1) {
            Some(stamp) => self.stamp = stamp,
            None => {
                self.stamps.fill(0);
                self.stamp = 1;
            }
        }
    }

    /// Whether an address is in the set.
    pub(crate) fn has(&self, addr: u32) -> bool
        ensures { result ≡ has_cell self.now addr }
    {
        addr < HEAP_END && self.stamps[addr as usize] == self.stamp
    }

    /// Puts an address into the set.
    pub(crate) fn insert(&mut self, addr: u32)
        ensures { (a : ℕ) → a < 1048576 → has_cell self.new a ≡ (if addr == a then true else has_cell self.old a) }
    {
        if addr < HEAP_END {
            self.stamps[addr as usize] = self.stamp;
        }
    }

    /// Takes an address out.
    pub(crate) fn remove(&mut self, addr: u32)
        ensures { (a : ℕ) → a < 1048576 → has_cell self.new a ≡ (if addr == a then false else has_cell self.old a) }
    {
        if addr < HEAP_END {
            self.stamps[addr as usize] = 0;
        }
    }
}
