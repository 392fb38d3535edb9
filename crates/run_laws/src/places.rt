//! Whether the parameters of headings stand one after the other in a frame, behind the link.

ghost use Rattle.std.specs.Prelude.{◌≡◌, length};
ghost use Rattle.run_laws.specs.LaidTests as tests;

use crate::actuals::{next_section, variable_type};
use crate::schemas::spec_component;
use core_program::ProgramTables;
use core_program::rows::{ItemRow, Mode, NameRow, PartRow, Row, TypeRow};

/// The greatest place in a frame that is counted; it stands for greater ones, too.
const MOST_CELLS: u32 = 524_289;

/// The greatest token with three others after it.
const MOST_TOKEN: u32 = 4_294_967_292;

/// The place after this many cells.
fn place_after(place: u32, cells: u32) -> u32
    ensures { result ≡ tests.place_after place cells }
{
    place.saturating_add(cells).min(MOST_CELLS)
}

fn is_bound_at(place: u32, row: Row) -> bool
    ensures { result ≡ tests.is_bound_at place row }
{
    match row {
        Row::Name(NameRow::Bound { place: at, .. }) => at == place,
        _ => false,
    }
}

/// Whether the bounds of the first spec of a type have this place and the next one, and so have their names. These
/// stand at the token after the type's own, and two tokens further.
fn spec_stands(program: &ProgramTables, of: u32, place: u32, row: Option<TypeRow>) -> bool
    ensures { result ≡ tests.spec_stands program.now of place row }
{
    match row {
        Some(TypeRow::Conformant { place: at, .. }) => {
            of <= MOST_TOKEN
                && at == place
                && is_bound_at(place, program.row(of + 1))
                && is_bound_at(place_after(place, 1), program.row(of + 3))
        }
        _ => false,
    }
}

/// The place after all bounds of a type, if they stand there.
#[tactic(auto, using(crate::proofs::LaidLoops::specs_loops))]
fn specs_end(program: &ProgramTables, of: u32, place: u32) -> Option<u32>
    ensures { result ≡ tests.specs_end (length program.now.rows) program.now of place }
{
    let mut left = program.rows();
    let mut at = of;
    let mut end = place;
    'specs: while left > 0 {
        left -= 1;
        let row = program.type_row(at);
        let Some(component) = spec_component(row) else {
            return if row.is_some() { Some(end) } else { None };
        };
        if !spec_stands(program, at, end, row) {
            return None;
        }
        at = component;
        end = place_after(end, 2);
    }
    None
}

/// Whether both are the mode of a parameter.
fn same_parameter(left: Mode, right: Mode) -> bool
    ensures { result ≡ tests.same_parameter left right }
{
    match (left, right) {
        (Mode::Value, Mode::Value) => true,
        (Mode::Place, Mode::Place) => true,
        (Mode::Copy, Mode::Copy) => true,
        _ => false,
    }
}

fn is_variable_at(mode: Mode, place: u32, row: Row) -> bool
    ensures { result ≡ tests.is_variable_at mode place row }
{
    match row {
        Row::Name(
            NameRow::Variable {
                mode: own,
                place: at,
                ..
            },
        ) => { same_parameter(own, mode) && at == place }
        _ => false,
    }
}

/// The cells of a parameter, whose type has this many.
fn name_cells(mode: Mode, cells: u32) -> u32
    ensures { result ≡ tests.name_cells mode cells }
{
    match mode {
        Mode::Place => 1,
        Mode::Copy => 1,
        _ => cells,
    }
}

/// The place after this many names of a section, if they stand there.
#[tactic(auto, using(crate::proofs::LaidLoops::name_ends))]
fn names_end(
    program: &ProgramTables,
    mode: Mode,
    cells: u32,
    names: u32,
    first: u32,
    place: u32,
) -> Option<u32>
    ensures { result ≡ tests.names_end names program.now mode cells first place }
{
    let mut left = names;
    let mut token = first;
    let mut end = place;
    'names: while left > 0 {
        left -= 1;
        if !is_variable_at(mode, end, program.row(token)) {
            return None;
        }
        token = token.saturating_add(2);
        end = place_after(end, cells);
    }
    Some(end)
}

fn is_routine_at(place: u32, row: Row) -> bool
    ensures { result ≡ tests.is_routine_at place row }
{
    match row {
        Row::Name(NameRow::RoutineFormal { place: at, .. }) => at == place,
        _ => false,
    }
}

/// The place after a routine parameter, by its heading, if it stands there.
fn routine_end(program: &ProgramTables, heading: Row, place: u32) -> Option<u32>
    ensures { result ≡ tests.routine_end program.now heading place }
{
    match heading {
        Row::Part(PartRow::Heading { name, .. }) => {
            if is_routine_at(place, program.row(name)) {
                Some(place_after(place, 1))
            } else {
                None
            }
        }
        _ => None,
    }
}

/// The place after a section, if its parameters stand one after the other from a place on.
fn section_end(program: &ProgramTables, section: Row, place: u32) -> Option<u32>
    ensures { result ≡ tests.section_end program.now section place }
{
    match section {
        Row::Item(
            ItemRow::Section {
                mode,
                first,
                count,
                ..
            },
        ) => {
            let of = variable_type(program.row(first), first);
            let cells = name_cells(mode, program.size_of(of));
            match specs_end(program, of, place) {
                Some(after) => names_end(program, mode, cells, count, first, after),
                None => None,
            }
        }
        Row::Item(ItemRow::RoutineSection { heading, .. }) => {
            routine_end(program, program.row(heading), place)
        }
        _ => None,
    }
}

/// The same of the sections from one on.
#[tactic(auto, using(crate::proofs::LaidLoops::section_ends))]
fn sections_end(program: &ProgramTables, sections: u32, place: u32) -> Option<u32>
    ensures { result ≡ tests.sections_end (length program.now.rows) program.now sections place }
{
    let mut left = program.rows();
    let mut section = sections;
    let mut end = place;
    'sections: while left > 0 {
        left -= 1;
        let row = program.row(section);
        let Some(next) = next_section(row) else {
            return Some(end);
        };
        let Some(after) = section_end(program, row, end) else {
            return None;
        };
        section = next;
        end = after;
    }
    None
}

/// The place after the parameters of a heading, if they stand one after the other behind the link.
pub(crate) fn heading_end(program: &ProgramTables, sections: Option<u32>) -> Option<u32>
    ensures { result ≡ tests.heading_end program.now sections }
{
    match sections {
        None => Some(1),
        Some(sections) => sections_end(program, sections, 1),
    }
}
