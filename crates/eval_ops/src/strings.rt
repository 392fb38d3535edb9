//! Strings.

ghost use Rattle.std.specs.Prelude.{◌≡◌, IfOk};
ghost use Rattle.core_program.specs.Values as values;

use crate::values::truth;
use cell_value::{Cells, Memory, OpFault, Order, Value, compare};
use std::alloc::{AllocError, Global};

/// The values of the components of a string, by its characters. A string of 4,294,967,295 characters counts as out of
/// memory.
pub fn string_of(alloc: Global, text: &[u8]) -> Result<Cells, Memory>
    ensures { IfOk result (λ cells. cells ≡ values.string_of text.now) }
{
    let mut cells = Cells::new(alloc);
    'characters: for character in text.iter() {
        if cells.len() == u32::MAX {
            return Err(AllocError);
        }
        cells.push(Value::Number(i64::from(*character)))?;
    }
    Ok(cells)
}

/// A relation of two strings, by the values of their components, as a value of Boolean: the first two that differ
/// decide. `UndefinedValue` comes exactly where a value that is no number is met before, or at, that place.
pub fn compare_texts(order: Order, left: &Cells, right: &Cells) -> Result<Value, OpFault>
    ensures { result ≡ values.texts_compared order left.now right.now }
{
    match compare(order, left.as_slice(), right.as_slice()) {
        Ok(holds) => Ok(truth(holds)),
        Err(fault) => Err(fault),
    }
}
