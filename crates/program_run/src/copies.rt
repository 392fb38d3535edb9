//! Copies of lists of values and of items.

ghost use Rattle.std.specs.Prelude.{◌<◌, ◌≡◌, IfOk, length};

use cell_value::{Cells, Items, Memory};
use std::alloc::Global;

/// A copy of a list of values.
pub(crate) fn copy_values(alloc: Global, values: &Cells) -> Result<Cells, Memory>
    ensures { IfOk result (λ copy. copy ≡ values.now) }
{
    let mut copy = Cells::new(alloc);
    'values: for i in 0..values.len() {
        copy.push(values.at(i))?;
    }
    Ok(copy)
}

/// A copy of the items of an input.
pub fn copy_items(alloc: Global, items: &Items) -> Result<Items, Memory>
    ensures same { IfOk result (λ copy. copy ≡ items.now) }
    ensures few { IfOk result (λ copy. length copy < 4294967296) }
{
    let mut copy = Items::new(alloc);
    'items: for i in 0..items.len() {
        copy.push(items.at(i))?;
    }
    Ok(copy)
}
