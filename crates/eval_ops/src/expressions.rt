//! What is accessed, constants, and the operators of truth values.

ghost use Rattle.std.specs.Prelude.{◌≡◌};
ghost use Rattle.cell_value.specs.declared.values.Value.{Value as CellValue};
ghost use Rattle.core_program.specs.Accesses as accesses;
ghost use Rattle.core_program.specs.Values.{logic_of};

use cell_value::Value;
use core_program::rows::{AccessRow, Logic};

/// The row of the type of what is accessed.
pub fn type_accessed(access: AccessRow) -> u32
    ensures { result ≡ accesses.type_accessed access }
{
    match access {
        AccessRow::Variable { of, .. } => of,
        AccessRow::Reference { of, .. } => of,
        AccessRow::Conformant { of, .. } => of,
        AccessRow::Component { of, .. } => of,
        AccessRow::Within { of, .. } => of,
        AccessRow::Index { of, .. } => of,
        AccessRow::Field { of, .. } => of,
        AccessRow::Dereference { of, .. } => of,
    }
}

/// The value of a constant of an ordinal type, by its ordinal number.
pub fn constant(value: i32) -> Value
    ensures { result ≡ CellValue.Number value }
{
    Value::Number(i64::from(value))
}

/// An operator on two truth values (6.7.2.3).
pub fn combine(operator: Logic, left: bool, right: bool) -> bool
    ensures { result ≡ logic_of operator left right }
{
    match operator {
        Logic::And => left && right,
        Logic::Or => left || right,
    }
}
