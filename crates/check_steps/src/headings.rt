//! Headings by their rows, and congruous lists of formal parameters (6.6.3.6).

ghost use Rattle.std.specs.Prelude.{◌≡◌, length};
ghost use Rattle.check_steps.specs.Headings.{components_alike, congruous, is_same_type, lists_match, results_match};
ghost use Rattle.check_steps.specs.Headings.{same_mode, section_at, section_in, sections_match, signature_at};
ghost use Rattle.check_steps.specs.Headings.{signature_in, signatures_match, types_match, variable_type};

use core_program::rows::{ItemRow, LIST_END, Mode, NameRow, PartRow, Row, TypeRow};
use core_program::{ProgramTables, same_packing};

/// The parameters and the result of a heading.
#[derive(Clone, Copy)]
pub struct Signature {
    /// The list of its sections of parameters.
    pub sections: u32,
    /// The result type of a function.
    pub result: Option<u32>,
}

/// A section of formal parameters.
#[derive(Clone, Copy)]
pub enum FormalSection {
    /// This many variables or values of a type.
    Names { mode: Mode, of: u32, count: u32 },
    /// A procedure or function, by the number of its heading.
    Heading(u32),
}

fn signature_in(row: Row) -> Signature
    ensures { result ≡ signature_in row }
{
    match row {
        Row::Part(
            PartRow::Heading {
                sections,
                result,
                ..
            },
        ) => Signature { sections, result },
        _ => Signature {
            sections: LIST_END,
            result: None,
        },
    }
}

/// The parameters and the result of a heading, by its number; where none stands, those of a procedure without
/// parameters.
pub fn signature_at(program: &ProgramTables, heading: u32) -> Signature
    ensures { result ≡ signature_at program.now heading }
{
    signature_in(program.row(heading))
}

fn variable_type(row: Row, otherwise: u32) -> u32
    ensures { result ≡ variable_type row otherwise }
{
    match row {
        Row::Name(NameRow::Variable { of, .. }) => of,
        _ => otherwise,
    }
}

fn section_in(program: &ProgramTables, row: Row) -> Option<(FormalSection, u32)>
    ensures { result ≡ section_in program.now row }
{
    match row {
        Row::Item(
            ItemRow::Section {
                mode,
                first,
                count,
                next,
            },
        ) => {
            let of = variable_type(program.row(first), first);
            Some((FormalSection::Names { mode, of, count }, next))
        }
        Row::Item(ItemRow::RoutineSection { heading, next }) => {
            Some((FormalSection::Heading(heading), next))
        }
        _ => None,
    }
}

/// The section at a number and the number of the next one, and None where the list ends.
pub fn section_at(program: &ProgramTables, at: u32) -> Option<(FormalSection, u32)>
    ensures { result ≡ section_at program.now at }
{
    section_in(program, program.row(at))
}

fn same_mode(left: Mode, right: Mode) -> bool
    ensures { result ≡ same_mode left right }
{
    match (left, right) {
        (Mode::Own, Mode::Own) => true,
        (Mode::Value, Mode::Value) => true,
        (Mode::Place, Mode::Place) => true,
        (Mode::Copy, Mode::Copy) => true,
        _ => false,
    }
}

/// Whether two types are the same, or one of them is unknown.
pub fn is_same_type(program: &ProgramTables, left: u32, right: u32) -> bool
    ensures { result ≡ is_same_type program.now left right }
{
    left == right || program.type_row(left).is_none() || program.type_row(right).is_none()
}

/// The component types of two arrays of conformant parameters that fit each other.
fn components_alike(
    program: &ProgramTables,
    left: Option<TypeRow>,
    right: Option<TypeRow>,
) -> Option<(u32, u32)>
    ensures { result ≡ components_alike program.now left right }
{
    match (left, right) {
        (
            Some(
                TypeRow::Conformant {
                    packed,
                    index,
                    component,
                    ..
                },
            ),
            Some(
                TypeRow::Conformant {
                    packed: other_packed,
                    index: other_index,
                    component: other_component,
                    ..
                },
            ),
        ) => {
            if same_packing(packed, other_packed) && is_same_type(program, index, other_index) {
                Some((component, other_component))
            } else {
                None
            }
        }
        _ => None,
    }
}

/// Whether two types are one, or of equivalent schemas. A type that is unknown is the same as any.
#[tactic(auto, using(crate::proofs::TypeChains::types_onward))]
fn types_match(program: &ProgramTables, left: u32, right: u32) -> bool
    ensures { result ≡ types_match (length program.now.rows) program.now left right }
{
    let mut at = left;
    let mut other = right;
    'specs: for _passed in 0..program.rows() {
        if is_same_type(program, at, other) {
            return true;
        }
        let Some((component, other_component)) = components_alike(
            program,
            program.type_row(at),
            program.type_row(other),
        ) else {
            return false;
        };
        at = component;
        other = other_component;
    }
    is_same_type(program, at, other)
}

fn results_match(program: &ProgramTables, left: Option<u32>, right: Option<u32>) -> bool
    ensures { result ≡ results_match program.now left right }
{
    match (left, right) {
        (None, None) => true,
        (Some(a), Some(b)) => is_same_type(program, a, b),
        _ => false,
    }
}

/// Two headings whose lists have at most this many sections.
#[cycle(congruous)]
fn signatures_match(program: &ProgramTables, most: u32, left: Signature, right: Signature) -> bool
    ensures { result ≡ signatures_match program.now (lists_match most program.now) left right }
{
    results_match(program, left.result, right.result)
        && lists_match(program, most, left.sections, right.sections)
}

#[cycle(congruous)]
fn sections_match(
    program: &ProgramTables,
    most: u32,
    left: FormalSection,
    right: FormalSection,
) -> bool
    ensures { result ≡ sections_match program.now (lists_match most program.now) left right }
{
    match (left, right) {
        (
            FormalSection::Names { mode, of, count },
            FormalSection::Names {
                mode: other_mode,
                of: other_type,
                count: other_count,
            },
        ) => {
            same_mode(mode, other_mode)
                && count == other_count
                && types_match(program, of, other_type)
        }
        (FormalSection::Heading(g), FormalSection::Heading(h)) => {
            signatures_match(
                program,
                most,
                signature_at(program, g),
                signature_at(program, h),
            )
        }
        _ => false,
    }
}

#[cycle(congruous)]
#[tactic(auto, using(crate::proofs::SectionLists::lists_onward))]
fn lists_match(program: &ProgramTables, most: u32, left: u32, right: u32) -> bool
    ensures { result ≡ lists_match most program.now left right }
{
    let mut at = left;
    let mut other = right;
    'sections: for passed in 0..most {
        match (section_at(program, at), section_at(program, other)) {
            (None, None) => return true,
            (Some((section, next)), Some((other_section, other_next))) => {
                if !sections_match(program, most - passed - 1, section, other_section) {
                    return false;
                }
                at = next;
                other = other_next;
            }
            _ => return false,
        }
    }
    false
}

/// Whether two headings are of one kind and result type, with congruous lists of at most this many parameter sections.
/// A type that is unknown is the same as any.
pub(crate) fn congruous(program: &ProgramTables, most: u32, left: u32, right: u32) -> bool
    ensures { result ≡ congruous most program.now left right }
{
    signatures_match(
        program,
        most,
        signature_at(program, left),
        signature_at(program, right),
    )
}
