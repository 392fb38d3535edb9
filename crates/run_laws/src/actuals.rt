//! Whether the actuals of a call are those for its heading, one after the other (6.6.3.1).

ghost use Rattle.std.specs.Prelude.{◌≡◌, length, true};
ghost use Rattle.core_program.specs.Headings as headings;
ghost use Rattle.core_program.specs.ProgramRows.{row_at};
ghost use Rattle.run_laws.specs.LaidOut as laid;
ghost use Rattle.run_laws.specs.LaidTests as tests;

use crate::schemas::{is_conformant, type_accessed};
use core_program::rows::{ExpressionRow, ItemRow, LIST_END, Mode, NameRow, PartRow, Row};
use core_program::{ProgramTables, Routine};

/// Whether a value has this many cells; of a conformant array only the bounds say how many.
pub(crate) fn gives_cells(program: &ProgramTables, row: Row, cells: u32) -> bool
    ensures { result ≡ tests.given_is (laid.cells_given program.now row) cells }
{
    match row {
        Row::Expression(ExpressionRow::Text { token }) => {
            program.text(token).len() == cells as usize
        }
        Row::Expression(_) => 1 == cells,
        Row::Access(access) => {
            let of = type_accessed(access);
            !is_conformant(program, of) && program.size_of(of) == cells
        }
        _ => false,
    }
}

fn cells_accessed(program: &ProgramTables, row: Row) -> u32
    ensures { result ≡ laid.cells_accessed program.now row }
{
    match row {
        Row::Access(access) => program.size_of(type_accessed(access)),
        _ => 0,
    }
}

/// Whether an array is passed for a conformant parameter of a type, first in its section or not.
fn is_passed_array(
    program: &ProgramTables,
    of: u32,
    first: bool,
    given: u32,
    given_first: bool,
) -> bool
    ensures { result ≡ tests.is_passed_array program.now of first given given_first }
{
    is_conformant(program, of) && given == of && if given_first { first } else { !first }
}

/// Whether an actual is one for a name of a section, the first name or a further one.
fn takes_item(program: &ProgramTables, mode: Mode, of: u32, first: bool, row: Row) -> bool
    ensures { result ≡ tests.takes_item program.now mode of first row }
{
    match (mode, row) {
        (Mode::Value, Row::Item(ItemRow::Value { of: given, .. })) => {
            !is_conformant(program, of) && program.size_of(given) == program.size_of(of)
        }
        (Mode::Place, Row::Item(ItemRow::Place { access, .. })) => {
            !is_conformant(program, of)
                && cells_accessed(program, program.row(access)) == program.size_of(of)
        }
        (
            Mode::Place,
            Row::Item(
                ItemRow::ArrayPlace {
                    first: given_first,
                    of: given,
                    ..
                },
            ),
        ) => is_passed_array(program, of, first, given, given_first),
        (
            Mode::Copy,
            Row::Item(
                ItemRow::ArrayValue {
                    first: given_first,
                    of: given,
                    ..
                },
            ),
        ) => is_passed_array(program, of, first, given, given_first),
        _ => false,
    }
}

/// The actual after one.
fn next_actual(row: Row) -> u32
    ensures { result ≡ tests.next_actual row }
{
    match row {
        Row::Item(ItemRow::Value { next, .. }) => next,
        Row::Item(ItemRow::Place { next, .. }) => next,
        Row::Item(ItemRow::ArrayPlace { next, .. }) => next,
        Row::Item(ItemRow::ArrayValue { next, .. }) => next,
        _ => LIST_END,
    }
}

/// The actual after those for this many names of a section, if each is one for its name.
#[tactic(auto, using(crate::proofs::LaidLoops::names_loops))]
fn names_meet(program: &ProgramTables, mode: Mode, of: u32, names: u32, at: u32) -> Option<u32>
    ensures { result ≡ tests.names_meet names program.now mode of true at }
{
    let mut left = names;
    let mut first = true;
    let mut item = at;
    'names: while left > 0 {
        left -= 1;
        let row = program.row(item);
        if !takes_item(program, mode, of, first, row) {
            return None;
        }
        first = false;
        item = next_actual(row);
    }
    Some(item)
}

fn routine_meets(row: Row) -> Option<u32>
    ensures { result ≡ tests.routine_meets row }
{
    match row {
        Row::Item(ItemRow::Routine { next, .. }) => Some(next),
        Row::Item(ItemRow::RoutineFormal { next, .. }) => Some(next),
        _ => None,
    }
}

/// The type of a variable, by its row.
pub(crate) fn variable_type(row: Row, otherwise: u32) -> u32
    ensures { result ≡ headings.variable_type row otherwise }
{
    match row {
        Row::Name(NameRow::Variable { of, .. }) => of,
        _ => otherwise,
    }
}

/// The actual after those for a section, which has at least one name.
fn section_meets(program: &ProgramTables, section: Row, at: u32) -> Option<u32>
    ensures { result ≡ tests.section_meets program.now section at }
{
    match section {
        Row::Item(
            ItemRow::Section {
                mode,
                first,
                count,
                ..
            },
        ) => {
            if count == 0 {
                return None;
            }
            let of = variable_type(program.row(first), first);
            names_meet(program, mode, of, count, at)
        }
        Row::Item(ItemRow::RoutineSection { .. }) => routine_meets(program.row(at)),
        _ => None,
    }
}

/// The section after one.
pub(crate) fn next_section(row: Row) -> Option<u32>
    ensures { result ≡ tests.next_section row }
{
    match row {
        Row::Item(ItemRow::Section { next, .. }) => Some(next),
        Row::Item(ItemRow::RoutineSection { next, .. }) => Some(next),
        _ => None,
    }
}

/// Whether the actuals from one on are those for the sections from one on.
#[tactic(auto, using(crate::proofs::LaidLoops::sections_loops))]
fn sections_meet(program: &ProgramTables, sections: u32, at: u32) -> bool
    ensures { result ≡ tests.sections_meet (length program.now.rows) program.now sections at }
{
    let mut left = program.rows();
    let mut section = sections;
    let mut item = at;
    'sections: while left > 0 {
        left -= 1;
        let row = program.row(section);
        let Some(next) = next_section(row) else {
            return item == LIST_END;
        };
        let Some(after) = section_meets(program, row, item) else {
            return false;
        };
        section = next;
        item = after;
    }
    false
}

/// The list of the sections of a heading.
pub(crate) fn sections_in(row: Row) -> Option<u32>
    ensures { result ≡ tests.sections_in row }
{
    match row {
        Row::Part(PartRow::Heading { sections, .. }) => Some(sections),
        _ => None,
    }
}

fn heading_meets(program: &ProgramTables, actuals: u32, sections: Option<u32>) -> bool
    ensures { result ≡ tests.heading_meets program.now actuals sections }
{
    match sections {
        None => actuals == LIST_END,
        Some(sections) => sections_meet(program, sections, actuals),
    }
}

/// Whether the actuals from one on are those for the parameters of a routine.
pub(crate) fn routine_takes(program: &ProgramTables, actuals: u32, routine: Option<Routine>) -> bool
    ensures { result ≡ tests.routine_takes program.now actuals routine }
{
    match routine {
        None => true,
        Some(routine) => heading_meets(program, actuals, sections_in(program.row(routine.heading))),
    }
}

fn heading_in(row: Row) -> Option<u32>
    ensures { result ≡ headings.heading_in row }
{
    match row {
        Row::Name(NameRow::RoutineFormal { heading, .. }) => Some(heading),
        _ => None,
    }
}

/// Whether the actuals from one on are those that the heading of a routine parameter asks for.
pub(crate) fn formal_takes(program: &ProgramTables, actuals: u32, formal: u32) -> bool
    ensures { result ≡ tests.formal_takes program.now actuals (headings.heading_in (row_at program.now formal)) }
{
    match heading_in(program.row(formal)) {
        None => true,
        Some(heading) => heading_meets(program, actuals, sections_in(program.row(heading))),
    }
}
