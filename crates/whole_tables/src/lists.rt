//! What stands where a list begins or goes on.

ghost use Rattle.std.specs.Prelude.{◌&&◌, ◌||◌, ◌≡◌, nat_lt};
ghost use Rattle.core_program.specs.WholeTables as whole;
ghost use Rattle.whole_tables.specs.Fits.{goes};
ghost use Rattle.whole_tables.specs.Fits as fits;

use crate::kinds::{is_read_access, is_record_access, is_statement, is_variant};
use core_program::ProgramTables;
use core_program::rows::{ItemRow, LIST_END, Row};

fn is_actual_item(row: Row) -> bool
    ensures { result ≡ whole.is_actual_item row }
{
    match row {
        Row::Item(ItemRow::Value { .. }) => true,
        Row::Item(ItemRow::Place { .. }) => true,
        Row::Item(ItemRow::ArrayPlace { .. }) => true,
        Row::Item(ItemRow::ArrayValue { .. }) => true,
        Row::Item(ItemRow::Routine { .. }) => true,
        Row::Item(ItemRow::RoutineFormal { .. }) => true,
        _ => false,
    }
}

fn is_written_item(row: Row) -> bool
    ensures { result ≡ whole.is_written_item row }
{
    match row {
        Row::Item(ItemRow::Written { .. }) => true,
        Row::Item(ItemRow::WrittenWide { .. }) => true,
        _ => false,
    }
}

fn is_member_item(row: Row) -> bool
    ensures { result ≡ whole.is_member_item row }
{
    match row {
        Row::Item(ItemRow::Member { .. }) => true,
        Row::Item(ItemRow::Members { .. }) => true,
        _ => false,
    }
}

fn is_section_item(row: Row) -> bool
    ensures { result ≡ whole.is_section_item row }
{
    match row {
        Row::Item(ItemRow::Section { .. }) => true,
        Row::Item(ItemRow::RoutineSection { .. }) => true,
        _ => false,
    }
}

/// Whether a list of actual parameters begins at a number.
pub(crate) fn is_actual_list(program: &ProgramTables, at: u32) -> bool
    ensures { result ≡ whole.is_list whole.is_actual_item program.now at }
{
    at == LIST_END || is_actual_item(program.row(at))
}

/// Whether a list of what is written begins at a number.
pub(crate) fn is_written_list(program: &ProgramTables, at: u32) -> bool
    ensures { result ≡ whole.is_list whole.is_written_item program.now at }
{
    at == LIST_END || is_written_item(program.row(at))
}

/// Whether a list of members begins at a number.
pub(crate) fn is_member_list(program: &ProgramTables, at: u32) -> bool
    ensures { result ≡ whole.is_list whole.is_member_item program.now at }
{
    at == LIST_END || is_member_item(program.row(at))
}

/// Whether a list of sections of formal parameters begins at a number.
fn is_section_list(program: &ProgramTables, at: u32) -> bool
    ensures { result ≡ whole.is_list whole.is_section_item program.now at }
{
    at == LIST_END || is_section_item(program.row(at))
}

fn is_statement_element(program: &ProgramTables, row: Row) -> bool
    ensures { result ≡ whole.is_element_of (whole.is_statement program.now) row }
{
    match row {
        Row::Item(ItemRow::Element { item, .. }) => is_statement(program, item),
        _ => false,
    }
}

/// Whether a list of statements begins at a number.
pub(crate) fn is_statement_list(program: &ProgramTables, at: u32) -> bool
    ensures { result ≡ whole.is_list (whole.is_element_of (whole.is_statement program.now)) program.now at }
{
    at == LIST_END || is_statement_element(program, program.row(at))
}

fn is_record_element(program: &ProgramTables, row: Row) -> bool
    ensures { result ≡ whole.is_element_of (whole.is_record_access program.now) row }
{
    match row {
        Row::Item(ItemRow::Element { item, .. }) => is_record_access(program, item),
        _ => false,
    }
}

/// Whether a list of records begins at a number.
pub(crate) fn is_record_list(program: &ProgramTables, at: u32) -> bool
    ensures { result ≡ whole.is_list (whole.is_element_of (whole.is_record_access program.now)) program.now at }
{
    at == LIST_END || is_record_element(program, program.row(at))
}

fn is_read_element(program: &ProgramTables, row: Row) -> bool
    ensures { result ≡ whole.is_element_of (whole.is_read_access program.now) row }
{
    match row {
        Row::Item(ItemRow::Element { item, .. }) => is_read_access(program, item),
        _ => false,
    }
}

/// Whether a list of variables that are read begins at a number.
pub(crate) fn is_read_list(program: &ProgramTables, at: u32) -> bool
    ensures { result ≡ whole.is_list (whole.is_element_of (whole.is_read_access program.now)) program.now at }
{
    at == LIST_END || is_read_element(program, program.row(at))
}

fn is_statement_choice(program: &ProgramTables, row: Row) -> bool
    ensures { result ≡ whole.is_choice_of (whole.is_statement program.now) row }
{
    match row {
        Row::Item(ItemRow::Choice { chosen, .. }) => is_statement(program, chosen),
        _ => false,
    }
}

/// Whether a list of constants that choose statements begins at a number.
pub(crate) fn is_case_list(program: &ProgramTables, at: u32) -> bool
    ensures { result ≡ whole.is_list (whole.is_choice_of (whole.is_statement program.now)) program.now at }
{
    at == LIST_END || is_statement_choice(program, program.row(at))
}

fn is_variant_choice(program: &ProgramTables, row: Row) -> bool
    ensures { result ≡ whole.is_choice_of (whole.is_variant program.now) row }
{
    match row {
        Row::Item(ItemRow::Choice { chosen, .. }) => is_variant(program, chosen),
        _ => false,
    }
}

/// Whether a list of constants that choose variants begins at a number.
pub(crate) fn is_variant_list(program: &ProgramTables, at: u32) -> bool
    ensures { result ≡ whole.is_list (whole.is_choice_of (whole.is_variant program.now)) program.now at }
{
    at == LIST_END || is_variant_choice(program, program.row(at))
}

fn comes_next(at: u32, next: u32) -> bool
    ensures { result ≡ (whole.is_end next || nat_lt at next) }
{
    next == LIST_END || at < next
}

/// Whether a list of actual parameters goes on from an item.
pub(crate) fn actuals_go(program: &ProgramTables, at: u32, next: u32) -> bool
    ensures { result ≡ goes whole.is_actual_item program.now at next }
{
    is_actual_list(program, next) && comes_next(at, next)
}

/// Whether a list of what is written goes on from an item.
pub(crate) fn written_go(program: &ProgramTables, at: u32, next: u32) -> bool
    ensures { result ≡ goes whole.is_written_item program.now at next }
{
    is_written_list(program, next) && comes_next(at, next)
}

/// Whether a list of members goes on from an item.
pub(crate) fn members_go(program: &ProgramTables, at: u32, next: u32) -> bool
    ensures { result ≡ goes whole.is_member_item program.now at next }
{
    is_member_list(program, next) && comes_next(at, next)
}

/// Whether a list of sections goes on from an item.
pub(crate) fn sections_go(program: &ProgramTables, at: u32, next: u32) -> bool
    ensures { result ≡ goes whole.is_section_item program.now at next }
{
    is_section_list(program, next) && comes_next(at, next)
}

fn statements_go(program: &ProgramTables, at: u32, item: u32, next: u32) -> bool
    ensures { result ≡ fits.elements_go (whole.is_statement program.now) program.now at item next }
{
    !is_statement(program, item) || (is_statement_list(program, next) && comes_next(at, next))
}

fn records_go(program: &ProgramTables, at: u32, item: u32, next: u32) -> bool
    ensures { result ≡ fits.elements_go (whole.is_record_access program.now) program.now at item next }
{
    !is_record_access(program, item) || (is_record_list(program, next) && comes_next(at, next))
}

fn reads_go(program: &ProgramTables, at: u32, item: u32, next: u32) -> bool
    ensures { result ≡ fits.elements_go (whole.is_read_access program.now) program.now at item next }
{
    !is_read_access(program, item) || (is_read_list(program, next) && comes_next(at, next))
}

/// Whether a list goes on from an element.
pub(crate) fn elements_go(program: &ProgramTables, at: u32, item: u32, next: u32) -> bool
    ensures { result ≡ (fits.elements_go (whole.is_statement program.now) program.now at item next
        && fits.elements_go (whole.is_record_access program.now) program.now at item next
        && fits.elements_go (whole.is_read_access program.now) program.now at item next) }
{
    statements_go(program, at, item, next)
        && records_go(program, at, item, next)
        && reads_go(program, at, item, next)
}

fn cases_go(program: &ProgramTables, at: u32, chosen: u32, next: u32) -> bool
    ensures { result ≡ fits.choices_go (whole.is_statement program.now) program.now at chosen next }
{
    !is_statement(program, chosen) || (is_case_list(program, next) && comes_next(at, next))
}

fn variants_go(program: &ProgramTables, at: u32, chosen: u32, next: u32) -> bool
    ensures { result ≡ fits.choices_go (whole.is_variant program.now) program.now at chosen next }
{
    !is_variant(program, chosen) || (is_variant_list(program, next) && comes_next(at, next))
}

/// Whether a list goes on from a constant.
pub(crate) fn choices_go(program: &ProgramTables, at: u32, chosen: u32, next: u32) -> bool
    ensures { result ≡ (fits.choices_go (whole.is_statement program.now) program.now at chosen next
        && fits.choices_go (whole.is_variant program.now) program.now at chosen next) }
{
    cases_go(program, at, chosen, next) && variants_go(program, at, chosen, next)
}
