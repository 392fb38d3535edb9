//! Congruous headings (6.6.3.6).

ghost use Rattle.std.specs.Prelude.{◌≡◌, length};
ghost use Rattle.core_program.specs.Headings.{lists_match};
ghost use Rattle.core_program.specs.Headings as headings;

use crate::program::Program;
use crate::rows::{ItemRow, Mode, NameRow, PartRow, Row};
use crate::tables::ProgramTables;

/// The parameters and the result of a heading.
#[derive(Clone, Copy)]
pub struct Signature {
    /// The list of its sections of parameters.
    pub sections: u32,
    /// The result type of a function.
    pub result: Option<u32>,
}

/// A section of formal parameters.
#[derive(Clone, Copy)]
pub enum FormalSection {
    /// This many variables or values of a type.
    Names { mode: Mode, of: u32, count: u32 },
    /// A procedure or function, by the number of its heading.
    Heading(u32),
}

/// The parameters and the result of a heading, by its number.
pub(crate) fn signature_at(tables: &ProgramTables, heading: u32) -> Option<Signature>
    ensures { result ≡ headings.signature_at tables.now heading }
{
    match tables.row(heading) {
        Row::Part(
            PartRow::Heading {
                sections,
                result,
                ..
            },
        ) => Some(Signature { sections, result }),
        _ => None,
    }
}

fn variable_type(row: Row, otherwise: u32) -> u32
    ensures { result ≡ headings.variable_type row otherwise }
{
    match row {
        Row::Name(NameRow::Variable { of, .. }) => of,
        _ => otherwise,
    }
}

/// The section at a number and the number of the next one, and None where the list ends.
pub(crate) fn section_at(tables: &ProgramTables, at: u32) -> Option<(FormalSection, u32)>
    ensures { result ≡ headings.section_at tables.now at }
{
    match tables.row(at) {
        Row::Item(
            ItemRow::Section {
                mode,
                first,
                count,
                next,
            },
        ) => {
            let of = variable_type(tables.row(first), first);
            Some((FormalSection::Names { mode, of, count }, next))
        }
        Row::Item(ItemRow::RoutineSection { heading, next }) => {
            Some((FormalSection::Heading(heading), next))
        }
        _ => None,
    }
}

/// Whether two arrays are both packed, or neither is.
pub fn same_packing(left: bool, right: bool) -> bool
    ensures { result ≡ headings.same_packing left right }
{
    match (left, right) {
        (true, true) => true,
        (false, false) => true,
        _ => false,
    }
}

fn same_result(left: Option<u32>, right: Option<u32>) -> bool
    ensures { result ≡ headings.same_result left right }
{
    match (left, right) {
        (None, None) => true,
        (Some(a), Some(b)) => a == b,
        _ => false,
    }
}

/// Whether both are procedures, or both functions with the same result type, and their lists match.
fn signatures_match(program: &Program, left: Option<Signature>, right: Option<Signature>) -> bool
    ensures { result ≡ headings.signatures_match (lists_match (length program.now.rows) program.now) left right }
{
    match (left, right) {
        (Some(g), Some(h)) => {
            same_result(g.result, h.result) && program.lists_match(g.sections, h.sections)
        }
        _ => false,
    }
}

/// Whether a routine may be an actual of a routine parameter with this heading (6.6.3.4, 6.6.3.5).
pub fn may_stand_for(program: &Program, heading: u32, routine: u32) -> bool
    ensures { result ≡ headings.may_stand_for program.now heading routine }
{
    match program.routine(routine) {
        Some(routine) => {
            signatures_match(
                program,
                program.signature(heading),
                program.signature(routine.heading),
            )
        }
        None => false,
    }
}
