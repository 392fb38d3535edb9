//! Arrays of conformant parameters, and what may be their actuals.

ghost use Rattle.std.specs.Prelude.{◌≡◌};
ghost use Rattle.core_program.specs.WholeTables as whole;

use crate::kinds::is_array_access;
use core_program::ProgramTables;
use core_program::rows::{AccessRow, ExpressionRow, Row, TypeRow};

/// Whether a type is the array of a conformant parameter.
pub(crate) fn is_conformant_type(row: Option<TypeRow>) -> bool
    ensures { result ≡ whole.is_conformant_type row }
{
    match row {
        Some(TypeRow::Conformant { .. }) => true,
        _ => false,
    }
}

/// The same of the type at a number.
pub(crate) fn is_conformant(program: &ProgramTables, number: u32) -> bool
    ensures { result ≡ whole.is_conformant program.now number }
{
    is_conformant_type(program.type_row(number))
}

/// Whether a row is an access that finds the bounds of the array of a conformant parameter.
pub(crate) fn is_bounded_row(program: &ProgramTables, row: Row) -> bool
    ensures { result ≡ whole.is_bounded_row program.now row }
{
    match row {
        Row::Access(AccessRow::Conformant { of, .. }) => is_conformant(program, of),
        Row::Access(AccessRow::Component { of, .. }) => is_conformant(program, of),
        _ => false,
    }
}

/// The same of the row at a number.
pub(crate) fn is_bounded(program: &ProgramTables, number: u32) -> bool
    ensures { result ≡ whole.is_bounded program.now number }
{
    is_bounded_row(program, program.row(number))
}

/// Whether this is an access of an array, with its bounds if it has no fixed ones.
pub(crate) fn is_array_actual(program: &ProgramTables, number: u32) -> bool
    ensures { result ≡ whole.is_array_actual program.now number }
{
    is_array_access(program, number) || is_bounded(program, number)
}

fn is_text_row(row: Row) -> bool
    ensures { result ≡ whole.is_text_row row }
{
    match row {
        Row::Expression(ExpressionRow::Text { .. }) => true,
        _ => false,
    }
}

/// Whether this is such an access or a string.
pub(crate) fn is_whole_array(program: &ProgramTables, number: u32) -> bool
    ensures { result ≡ whole.is_whole_array program.now number }
{
    is_text_row(program.row(number)) || is_array_actual(program, number)
}
