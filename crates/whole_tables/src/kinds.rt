//! What kind of row stands at a number.

ghost use Rattle.std.specs.Prelude.{◌≡◌, is_some};
ghost use Rattle.core_program.specs.Headings.{heading_in, signature_at};
ghost use Rattle.core_program.specs.ProgramRows.{row_at, type_at};
ghost use Rattle.core_program.specs.WholeTables as whole;

use crate::arrays::{is_bounded_row, is_conformant_type};
use core_program::rows::{AccessRow, ExpressionRow, NameRow, PartRow, Row, StatementRow, TypeRow};
use core_program::{ProgramTables, Routine};

fn is_ordinal_type(row: Option<TypeRow>) -> bool
    ensures { result ≡ whole.is_ordinal_type row }
{
    match row {
        Some(TypeRow::Ordinal { .. }) => true,
        Some(TypeRow::Subrange { .. }) => true,
        _ => false,
    }
}

fn is_simple_type(row: Option<TypeRow>) -> bool
    ensures { result ≡ whole.is_simple_type row }
{
    match row {
        Some(TypeRow::Set { .. }) => true,
        Some(TypeRow::Pointer { .. }) => true,
        _ => is_ordinal_type(row),
    }
}

fn is_structured_type(row: Option<TypeRow>) -> bool
    ensures { result ≡ whole.is_structured_type row }
{
    match row {
        Some(TypeRow::Array { .. }) => true,
        Some(TypeRow::Record { .. }) => true,
        _ => false,
    }
}

/// Whether a type is that of a function's result.
pub(crate) fn is_result_type(row: Option<TypeRow>) -> bool
    ensures { result ≡ whole.is_result_type row }
{
    match row {
        Some(TypeRow::Pointer { .. }) => true,
        _ => is_ordinal_type(row),
    }
}

/// Whether a type has subranges.
pub(crate) fn is_host_type(row: Option<TypeRow>) -> bool
    ensures { result ≡ whole.is_host_type row }
{
    match row {
        Some(TypeRow::Ordinal { .. }) => true,
        _ => false,
    }
}

/// Whether a type is an array.
pub(crate) fn is_array_type(row: Option<TypeRow>) -> bool
    ensures { result ≡ whole.is_array_type row }
{
    match row {
        Some(TypeRow::Array { .. }) => true,
        _ => false,
    }
}

fn is_record_type(row: Option<TypeRow>) -> bool
    ensures { result ≡ whole.is_record_type row }
{
    match row {
        Some(TypeRow::Record { .. }) => true,
        _ => false,
    }
}

/// Whether a type stands at a number.
pub(crate) fn is_type(program: &ProgramTables, number: u32) -> bool
    ensures { result ≡ whole.is_type program.now number }
{
    program.type_row(number).is_some()
}

/// Whether an ordinal type stands at a number.
pub(crate) fn is_ordinal(program: &ProgramTables, number: u32) -> bool
    ensures { result ≡ whole.is_ordinal program.now number }
{
    is_ordinal_type(program.type_row(number))
}

/// Whether a row defines a variable.
pub(crate) fn is_variable_row(row: Row) -> bool
    ensures { result ≡ whole.is_variable_row row }
{
    match row {
        Row::Name(NameRow::Variable { .. }) => true,
        _ => false,
    }
}

/// Whether a row defines a field.
pub(crate) fn is_field_row(row: Row) -> bool
    ensures { result ≡ whole.is_field_row row }
{
    match row {
        Row::Name(NameRow::Field { .. }) => true,
        Row::Name(NameRow::Tag { .. }) => true,
        _ => false,
    }
}

/// Whether a row is that of a variant part.
pub(crate) fn is_variants_row(row: Row) -> bool
    ensures { result ≡ whole.is_variants_row row }
{
    match row {
        Row::Part(PartRow::Variants { .. }) => true,
        _ => false,
    }
}

fn is_variant_row(row: Row) -> bool
    ensures { result ≡ whole.is_variant_row row }
{
    match row {
        Row::Part(PartRow::Variant { .. }) => true,
        _ => false,
    }
}

/// Whether a variant stands at a number.
pub(crate) fn is_variant(program: &ProgramTables, number: u32) -> bool
    ensures { result ≡ whole.is_variant program.now number }
{
    is_variant_row(program.row(number))
}

/// Whether a row holds fields.
pub(crate) fn is_holder_row(row: Row) -> bool
    ensures { result ≡ whole.is_holder_row row }
{
    match row {
        Row::Type(TypeRow::Record { .. }) => true,
        _ => is_variant_row(row),
    }
}

/// Whether there is a routine of a number.
pub(crate) fn is_routine(program: &ProgramTables, number: u32) -> bool
    ensures { result ≡ whole.is_routine program.now number }
{
    program.routine(number).is_some()
}

fn heading_in(row: Row) -> Option<u32>
    ensures { result ≡ heading_in row }
{
    match row {
        Row::Name(NameRow::RoutineFormal { heading, .. }) => Some(heading),
        _ => None,
    }
}

/// Whether a routine parameter stands at a number.
pub(crate) fn is_formal(program: &ProgramTables, number: u32) -> bool
    ensures { result ≡ whole.is_formal program.now number }
{
    heading_in(program.row(number)).is_some()
}

/// Whether a heading stands at a number.
pub(crate) fn is_heading(program: &ProgramTables, number: u32) -> bool
    ensures { result ≡ is_some (signature_at program.now number) }
{
    match program.row(number) {
        Row::Part(PartRow::Heading { .. }) => true,
        _ => false,
    }
}

/// Whether the heading at a number is that of a function.
pub(crate) fn has_result(program: &ProgramTables, number: u32) -> bool
    ensures { result ≡ whole.has_result (signature_at program.now number) }
{
    match program.row(number) {
        Row::Part(PartRow::Heading { result, .. }) => result.is_some(),
        _ => false,
    }
}

/// Whether a routine parameter at a number is a function.
pub(crate) fn is_function_formal(program: &ProgramTables, number: u32) -> bool
    ensures { result ≡ whole.has_result (whole.signature_of program.now (heading_in (row_at program.now number))) }
{
    match heading_in(program.row(number)) {
        Some(heading) => has_result(program, heading),
        None => false,
    }
}

/// Whether a routine is a function.
pub(crate) fn is_function(routine: Option<Routine>) -> bool
    ensures { result ≡ whole.is_function routine }
{
    match routine {
        Some(routine) => routine.result.is_some(),
        None => false,
    }
}

fn is_statement_row(row: Row) -> bool
    ensures { result ≡ whole.is_statement_row row }
{
    match row {
        Row::Statement(StatementRow::Turns { .. }) => false,
        Row::Statement(_) => true,
        _ => false,
    }
}

/// Whether a row is that of the turns of a for statement.
pub(crate) fn is_turns_row(row: Row) -> bool
    ensures { result ≡ whole.is_turns_row row }
{
    match row {
        Row::Statement(StatementRow::Turns { .. }) => true,
        _ => false,
    }
}

/// Whether a statement stands at a number.
pub(crate) fn is_statement(program: &ProgramTables, number: u32) -> bool
    ensures { result ≡ whole.is_statement program.now number }
{
    is_statement_row(program.row(number))
}

fn type_accessed(access: AccessRow) -> u32
    ensures { result ≡ whole.type_accessed access }
{
    match access {
        AccessRow::Variable { of, .. } => of,
        AccessRow::Reference { of, .. } => of,
        AccessRow::Conformant { of, .. } => of,
        AccessRow::Component { of, .. } => of,
        AccessRow::Within { of, .. } => of,
        AccessRow::Index { of, .. } => of,
        AccessRow::Field { of, .. } => of,
        AccessRow::Dereference { of, .. } => of,
    }
}

/// Whether an access stands at a number.
pub(crate) fn is_access(program: &ProgramTables, number: u32) -> bool
    ensures { result ≡ whole.is_access program.now number }
{
    match program.row(number) {
        Row::Access(access) => program.type_row(type_accessed(access)).is_some(),
        _ => false,
    }
}

/// Whether an access of a record stands at a number.
pub(crate) fn is_record_access(program: &ProgramTables, number: u32) -> bool
    ensures { result ≡ whole.is_record_access program.now number }
{
    match program.row(number) {
        Row::Access(access) => is_record_type(program.type_row(type_accessed(access))),
        _ => false,
    }
}

/// Whether an access of a variable that may be read stands at a number.
pub(crate) fn is_read_access(program: &ProgramTables, number: u32) -> bool
    ensures { result ≡ whole.is_read_access program.now number }
{
    match program.row(number) {
        Row::Access(access) => is_ordinal_type(program.type_row(type_accessed(access))),
        _ => false,
    }
}

/// Whether an access of an array stands at a number.
pub(crate) fn is_array_access(program: &ProgramTables, number: u32) -> bool
    ensures { result ≡ whole.is_array_access program.now number }
{
    match program.row(number) {
        Row::Access(access) => is_array_type(program.type_row(type_accessed(access))),
        _ => false,
    }
}

fn gives_one_cell(program: &ProgramTables, expression: ExpressionRow) -> bool
    ensures { result ≡ whole.gives_one_cell program.now expression }
{
    match expression {
        ExpressionRow::Text { .. } => false,
        ExpressionRow::Apply { routine, .. } => is_function(program.routine(routine)),
        ExpressionRow::ApplyFormal { formal, .. } => is_function_formal(program, formal),
        _ => true,
    }
}

/// Whether an expression whose value takes one cell stands at a number.
pub(crate) fn is_scalar(program: &ProgramTables, number: u32) -> bool
    ensures { result ≡ whole.is_scalar program.now number }
{
    match program.row(number) {
        Row::Expression(expression) => gives_one_cell(program, expression),
        Row::Access(access) => is_simple_type(program.type_row(type_accessed(access))),
        _ => false,
    }
}

/// Whether an expression whose value is the cells of an array, a record or a string stands at a number.
pub(crate) fn is_cells(program: &ProgramTables, number: u32) -> bool
    ensures { result ≡ whole.is_cells program.now number }
{
    match program.row(number) {
        Row::Expression(ExpressionRow::Text { .. }) => true,
        Row::Access(access) => {
            is_structured_type(program.type_row(type_accessed(access)))
                || is_bounded_row(program, program.row(number))
        }
        _ => false,
    }
}

/// Whether a value for a variable of a type stands at a number.
pub(crate) fn is_value_for(program: &ProgramTables, of: u32, number: u32) -> bool
    ensures { result ≡ whole.is_value_for program.now (type_at program.now of) number }
{
    let row = program.type_row(of);
    (is_simple_type(row) && is_scalar(program, number))
        || ((is_structured_type(row) || is_conformant_type(row)) && is_cells(program, number))
}
