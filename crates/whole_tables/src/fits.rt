//! Whether a row names rows of the kinds that its places take.

ghost use Rattle.std.specs.Prelude.{◌&&◌, ◌≡◌};
ghost use Rattle.core_program.specs.WholeTables as whole;
ghost use Rattle.whole_tables.specs.Fits as fits;

use crate::arrays::{is_array_actual, is_bounded, is_conformant, is_whole_array};
use crate::kinds::{
    has_result, is_access, is_array_access, is_array_type, is_cells, is_field_row, is_formal,
    is_function, is_function_formal, is_heading, is_holder_row, is_host_type, is_ordinal,
    is_result_type, is_routine, is_scalar, is_statement, is_turns_row, is_type, is_value_for,
    is_variable_row, is_variants_row,
};
use crate::lists::{
    actuals_go, choices_go, elements_go, is_actual_list, is_case_list, is_member_list,
    is_read_list, is_record_list, is_statement_list, is_variant_list, is_written_list, members_go,
    sections_go, written_go,
};
use core_program::rows::{
    AccessRow, ExpressionRow, ItemRow, NameRow, PartRow, Row, StatementRow, TypeRow,
};
use core_program::{ProgramTables, Routine};

fn type_fits(program: &ProgramTables, at: u32, row: TypeRow) -> bool
    ensures { result ≡ fits.type_fits program.now at row }
{
    match row {
        TypeRow::Ordinal { .. } => true,
        TypeRow::Subrange { host, .. } => is_host_type(program.type_row(host)),
        TypeRow::Set { base, .. } => is_ordinal(program, base),
        TypeRow::Pointer { domain } => is_type(program, domain),
        TypeRow::Array {
            index,
            component,
            ..
        } => is_ordinal(program, index) && is_type(program, component),
        TypeRow::Conformant {
            index,
            component,
            ..
        } => {
            is_ordinal(program, index)
                && is_type(program, component)
                && (!is_conformant(program, component) || at < component)
        }
        TypeRow::Record { variants, .. } => match variants {
            None => true,
            Some(variants) => is_variants_row(program.row(variants)),
        },
    }
}

fn name_fits(program: &ProgramTables, row: NameRow) -> bool
    ensures { result ≡ fits.name_fits program.now row }
{
    match row {
        NameRow::Constant { of, .. } => is_ordinal(program, of),
        NameRow::Text { token } => program.has_text(token),
        NameRow::TypeName { of } => is_type(program, of),
        NameRow::Variable { of, .. } => is_type(program, of),
        NameRow::Bound { of, .. } => is_ordinal(program, of),
        NameRow::RoutineFormal { heading, .. } => is_heading(program, heading),
        NameRow::Field { of, holder, .. } => {
            is_type(program, of) && is_holder_row(program.row(holder))
        }
        NameRow::Tag {
            of,
            holder,
            variants,
            ..
        } => {
            is_ordinal(program, of)
                && is_holder_row(program.row(holder))
                && is_variants_row(program.row(variants))
        }
        NameRow::Routine { number, .. } => is_routine(program, number),
        _ => true,
    }
}

fn part_fits(program: &ProgramTables, at: u32, row: PartRow) -> bool
    ensures { result ≡ fits.part_fits program.now at row }
{
    match row {
        PartRow::Variants { values, holder, .. } => {
            is_variant_list(program, values) && is_holder_row(program.row(holder)) && holder < at
        }
        PartRow::Variant { variants, .. } => {
            is_variants_row(program.row(variants)) && variants < at
        }
        PartRow::Heading {
            sections,
            result,
            ..
        } => {
            sections_go(program, at, sections)
                && match result {
                    None => true,
                    Some(of) => is_result_type(program.type_row(of)),
                }
        }
        _ => true,
    }
}

fn statement_fits(program: &ProgramTables, at: u32, row: StatementRow) -> bool
    ensures { result ≡ fits.statement_fits program.now at row }
{
    match row {
        StatementRow::Assign {
            target,
            value,
            of,
            ..
        } => is_access(program, target) && is_value_for(program, of, value),
        StatementRow::Call {
            routine,
            actuals,
            ..
        } => is_routine(program, routine) && is_actual_list(program, actuals),
        StatementRow::CallFormal {
            formal,
            actuals,
            ..
        } => is_formal(program, formal) && is_actual_list(program, actuals),
        StatementRow::Labelled { statement, .. } => {
            is_statement(program, statement) && at < statement
        }
        StatementRow::Compound { statements } => is_statement_list(program, statements),
        StatementRow::With { records, body, .. } => {
            is_record_list(program, records) && is_statement(program, body)
        }
        _ => required_fits(program, row),
    }
}

/// A call of a required procedure, or another statement.
fn required_fits(program: &ProgramTables, row: StatementRow) -> bool
    ensures { result ≡ fits.required_fits program.now row }
{
    match row {
        StatementRow::Read { actuals, .. } => is_read_list(program, actuals),
        StatementRow::Write { actuals, .. } => is_written_list(program, actuals),
        StatementRow::New { access, of, .. } => is_access(program, access) && is_type(program, of),
        StatementRow::Dispose { value, of, .. } => {
            is_scalar(program, value) && is_type(program, of)
        }
        StatementRow::Pack {
            unpacked,
            index,
            packed,
            ..
        } => {
            is_array_access(program, unpacked)
                && is_scalar(program, index)
                && is_array_access(program, packed)
        }
        _ => choosing_fits(program, row),
    }
}

/// A conditional statement, or another one.
fn choosing_fits(program: &ProgramTables, row: StatementRow) -> bool
    ensures { result ≡ fits.choosing_fits program.now row }
{
    match row {
        StatementRow::If {
            condition,
            then,
            ..
        } => { is_scalar(program, condition) && is_statement(program, then) }
        StatementRow::IfElse {
            condition,
            then,
            otherwise,
            ..
        } => {
            is_scalar(program, condition)
                && is_statement(program, then)
                && is_statement(program, otherwise)
        }
        StatementRow::Case {
            selector,
            choices,
            ..
        } => is_scalar(program, selector) && is_case_list(program, choices),
        _ => repeated_fits(program, row),
    }
}

/// A repetitive statement, or another one.
fn repeated_fits(program: &ProgramTables, row: StatementRow) -> bool
    ensures { result ≡ fits.repeated_fits program.now row }
{
    match row {
        StatementRow::Repeat {
            statements,
            condition,
            ..
        } => is_statement_list(program, statements) && is_scalar(program, condition),
        StatementRow::While {
            condition,
            body,
            ..
        } => { is_scalar(program, condition) && is_statement(program, body) }
        StatementRow::For { initial, turns, .. } => {
            is_scalar(program, initial) && is_turns_row(program.row(turns))
        }
        StatementRow::Turns { last, of, body, .. } => {
            is_scalar(program, last) && is_ordinal(program, of) && is_statement(program, body)
        }
        _ => true,
    }
}

fn expression_fits(program: &ProgramTables, row: ExpressionRow) -> bool
    ensures { result ≡ fits.expression_fits program.now row }
{
    match row {
        ExpressionRow::Text { token } => program.has_text(token),
        ExpressionRow::Sign { operand, .. } => is_scalar(program, operand),
        ExpressionRow::Not { operand } => is_scalar(program, operand),
        ExpressionRow::Arithmetic { left, right, .. } => are_scalars(program, left, right),
        ExpressionRow::Logic { left, right, .. } => are_scalars(program, left, right),
        ExpressionRow::Sets { left, right, .. } => are_scalars(program, left, right),
        ExpressionRow::Compare { left, right, .. } => are_scalars(program, left, right),
        ExpressionRow::CompareTexts { left, right, .. } => {
            is_cells(program, left) && is_cells(program, right)
        }
        ExpressionRow::CompareSets { left, right, .. } => are_scalars(program, left, right),
        ExpressionRow::ComparePointers { left, right, .. } => are_scalars(program, left, right),
        ExpressionRow::In { left, right } => are_scalars(program, left, right),
        ExpressionRow::Set { members } => is_member_list(program, members),
        ExpressionRow::Apply {
            routine,
            actuals,
            ..
        } => is_function(program.routine(routine)) && is_actual_list(program, actuals),
        ExpressionRow::ApplyFormal {
            formal,
            actuals,
            ..
        } => is_function_formal(program, formal) && is_actual_list(program, actuals),
        ExpressionRow::Function { operand, .. } => is_scalar(program, operand),
        _ => true,
    }
}

fn are_scalars(program: &ProgramTables, left: u32, right: u32) -> bool
    ensures { result ≡ (whole.is_scalar program.now left && whole.is_scalar program.now right) }
{
    is_scalar(program, left) && is_scalar(program, right)
}

fn component_fits(
    program: &ProgramTables,
    at: u32,
    access: u32,
    index: u32,
    array: u32,
    of: u32,
) -> bool
    ensures { result ≡ fits.access_fits program.now at (AccessRow.Component access index array of) }
{
    is_bounded(program, access)
        && access < at
        && is_scalar(program, index)
        && is_conformant(program, array)
        && is_type(program, of)
}

fn access_fits(program: &ProgramTables, at: u32, row: AccessRow) -> bool
    ensures { result ≡ fits.access_fits program.now at row }
{
    match row {
        AccessRow::Variable { of, .. } => is_type(program, of),
        AccessRow::Reference { of, .. } => is_type(program, of),
        AccessRow::Conformant { of, .. } => is_conformant(program, of),
        AccessRow::Component {
            access,
            index,
            array,
            of,
        } => component_fits(program, at, access, index, array, of),
        AccessRow::Within { field, of, .. } => {
            is_field_row(program.row(field)) && is_type(program, of)
        }
        AccessRow::Index {
            access,
            index,
            array,
            of,
        } => {
            is_access(program, access)
                && access < at
                && is_scalar(program, index)
                && is_array_type(program.type_row(array))
                && is_type(program, of)
        }
        AccessRow::Field { access, field, of } => {
            is_access(program, access)
                && access < at
                && is_field_row(program.row(field))
                && is_type(program, of)
        }
        AccessRow::Dereference { access, of } => {
            is_access(program, access) && access < at && is_type(program, of)
        }
    }
}

fn written_fits(program: &ProgramTables, value: u32, of: u32) -> bool
    ensures { result ≡ fits.written_fits program.now value of }
{
    (is_scalar(program, value) || is_cells(program, value))
        && (!is_scalar(program, value) || is_ordinal(program, of))
}

fn actual_fits(program: &ProgramTables, at: u32, row: ItemRow) -> bool
    ensures { result ≡ fits.actual_fits program.now at row }
{
    match row {
        ItemRow::Value { value, of, next } => {
            is_value_for(program, of, value) && actuals_go(program, at, next)
        }
        ItemRow::Place { access, next } => {
            is_access(program, access) && actuals_go(program, at, next)
        }
        ItemRow::ArrayPlace {
            access,
            of,
            next,
            ..
        } => {
            is_array_actual(program, access)
                && is_conformant(program, of)
                && actuals_go(program, at, next)
        }
        ItemRow::ArrayValue {
            value,
            of,
            next,
            ..
        } => {
            is_whole_array(program, value)
                && is_conformant(program, of)
                && actuals_go(program, at, next)
        }
        ItemRow::Routine { routine, next, .. } => {
            is_routine(program, routine) && actuals_go(program, at, next)
        }
        ItemRow::RoutineFormal { formal, next, .. } => {
            is_formal(program, formal) && actuals_go(program, at, next)
        }
        _ => true,
    }
}

fn item_fits(program: &ProgramTables, at: u32, row: ItemRow) -> bool
    ensures { result ≡ fits.item_fits program.now at row }
{
    match row {
        ItemRow::Element { item, next } => elements_go(program, at, item, next),
        ItemRow::Written { value, of, next } => {
            written_fits(program, value, of) && written_go(program, at, next)
        }
        ItemRow::WrittenWide {
            value,
            of,
            width,
            next,
        } => {
            written_fits(program, value, of)
                && is_scalar(program, width)
                && written_go(program, at, next)
        }
        ItemRow::Member { value, next } => {
            is_scalar(program, value) && members_go(program, at, next)
        }
        ItemRow::Members { first, last, next } => {
            is_scalar(program, first) && is_scalar(program, last) && members_go(program, at, next)
        }
        ItemRow::Choice { chosen, next, .. } => choices_go(program, at, chosen, next),
        ItemRow::Section { first, next, .. } => {
            is_variable_row(program.row(first)) && sections_go(program, at, next)
        }
        ItemRow::RoutineSection { heading, next } => {
            is_heading(program, heading) && at < heading && sections_go(program, at, next)
        }
        _ => actual_fits(program, at, row),
    }
}

/// Whether a row at a number fits.
pub(crate) fn row_fits(program: &ProgramTables, at: u32, row: Row) -> bool
    ensures { result ≡ fits.row_fits program.now at row }
{
    match row {
        Row::Nothing => true,
        Row::Type(row) => type_fits(program, at, row),
        Row::Name(row) => name_fits(program, row),
        Row::Part(row) => part_fits(program, at, row),
        Row::Statement(row) => statement_fits(program, at, row),
        Row::Expression(row) => expression_fits(program, row),
        Row::Access(row) => access_fits(program, at, row),
        Row::Item(row) => item_fits(program, at, row),
    }
}

/// Whether a routine has its statements, and a result and a heading as it is to have them.
pub(crate) fn routine_fits(program: &ProgramTables, number: u32, routine: Option<Routine>) -> bool
    ensures { result ≡ fits.routine_fits program.now number routine }
{
    match routine {
        None => true,
        Some(routine) => {
            is_statement_list(program, routine.statements)
                && routine.result.is_some() == has_result(program, routine.heading)
                && (number == 0 || is_heading(program, routine.heading))
        }
    }
}
