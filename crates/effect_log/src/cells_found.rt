//! Maps of what is found of each cell while the log is gone over.
ghost use Rattle.std.specs.Prelude.{if◌then◌else◌, ◌==◌, ◌≡◌, ◌≤◌, ℕ, IfOk, None, OnOk, Some};
ghost use Rattle.cell_value.specs.Effects.{is_shared, listed};
ghost use Rattle.effect_log.specs.Passing.{found_at};

use cell_value::{HEAP_END, List, Memory, STACK_END};
use std::alloc::Global;
use std::collections::BTreeMap;

/// Whether a call whose frame begins at `base` shares the address with its caller.
pub(crate) fn is_shared_cell(base: u32, addr: u32) -> bool
    ensures { result ≡ is_shared base addr }
{
    addr < HEAP_END && (addr < base || STACK_END <= addr)
}

/// Sets the value at an address.
pub(crate) fn put<V: Drop>(map: &mut BTreeMap<u32, V>, addr: u32, value: V) -> Result<(), Memory>
    ensures set { OnOk result ((q : ℕ) → found_at map.new q ≡ (if q == addr then Some value else found_at map.old q)) }
{
    let _ = map.insert(addr, value)?;
    Ok(())
}

/// The value at an address.
pub(crate) fn find<V: Copy>(map: &BTreeMap<u32, V>, addr: u32) -> Option<V>
    ensures { result ≡ found_at map.now addr }
{
    map.get(&addr).copied()
}

/// All values, by rising address. None stands past the addresses.
pub(crate) fn in_order<V: Copy>(
    alloc: Global,
    map: &BTreeMap<u32, V>,
) -> Result<List<(u32, V)>, Memory>
    requires { (addr : ℕ) → 1048576 ≤ addr → found_at map.now addr ≡ None }
    ensures { IfOk result (λ items. items ≡ listed (found_at map.now)) }
{
    let mut items = List::new(alloc);
    for (addr, value) in map {
        items.push((*addr, *value))?;
    }
    Ok(items)
}
