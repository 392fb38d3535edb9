//! Which routine of the reference answers for one of the subject.

ghost use Rattle.std.specs.Prelude.{◌≡◌, IfOk, OnOk, Some, find, length, option_map};
ghost use Rattle.std.specs.List.{range_with_len};
ghost use Rattle.core_program.specs.Headings.{same_mode, signature_at, variable_type};
ghost use Rattle.core_program.specs.ProgramRows.{routine_at, row_at};
ghost use Rattle.reference_oracle.specs.{PairsKept.ArePairs, Shapes.programs, SignaturesOf.signature_of};
ghost use Rattle.reference_oracle.specs.Fitting.{counterpart, is_namesake, same_results, same_sections};
ghost use Rattle.reference_oracle.specs.Fitting.{same_signatures, section_at, sections_in_turn};

use crate::pairs::Pairs;
use crate::shapes::names_agree;
use cell_value::Memory;
use core_program::rows::{ItemRow, Mode, NameRow, PartRow, Row};
use core_program::{Program, Routine};
use std::alloc::Global;

/// What stands at a number of a list of sections of formal parameters.
#[derive(Clone, Copy)]
pub enum Section {
    /// Parameters of one type that are passed in one way, how many they are, and where the next section stands.
    Names {
        mode: Mode,
        of: u32,
        count: u32,
        next: u32,
    },
    /// A procedure or function.
    Heading,
    /// Nothing: the list is over.
    End,
}

/// How two lists go on that agreed so far.
#[derive(Clone, Copy)]
pub enum InTurn {
    /// Their next parts agree, and the lists go on there.
    Further(u32, u32),
    /// Both are over.
    Over,
    /// They do not agree.
    Apart,
}

/// The type of a parameter, by its name.
fn type_of(program: &Program, name: u32) -> u32
    ensures { result ≡ variable_type (row_at program.now name) name }
{
    match program.row(name) {
        Row::Name(NameRow::Variable { of, .. }) => of,
        _ => name,
    }
}

/// What stands at a number of a list of sections.
fn section_at(program: &Program, at: u32) -> Section
    ensures { result ≡ section_at program.now at }
{
    match program.row(at) {
        Row::Item(
            ItemRow::Section {
                mode,
                first,
                count,
                next,
            },
        ) => Section::Names {
            mode,
            of: type_of(program, first),
            count,
            next,
        },
        Row::Item(ItemRow::RoutineSection { .. }) => Section::Heading,
        _ => Section::End,
    }
}

/// Whether parameters are passed in one way.
fn same_mode(mode: Mode, other: Mode) -> bool
    ensures { result ≡ same_mode mode other }
{
    match mode {
        Mode::Own => match other {
            Mode::Own => true,
            _ => false,
        },
        Mode::Value => match other {
            Mode::Value => true,
            _ => false,
        },
        Mode::Place => match other {
            Mode::Place => true,
            _ => false,
        },
        Mode::Copy => match other {
            Mode::Copy => true,
            _ => false,
        },
    }
}

/// Whether two sections agree, and where the lists go on.
fn sections_in_turn(
    alloc: Global,
    subject: &Program,
    reference: &Program,
    pairs: &mut Pairs,
    section: Section,
    other: Section,
) -> Result<InTurn, Memory>
    requires pairs { ArePairs (programs subject.now reference.now) pairs.old }
    ensures found { IfOk result (λ found. found ≡ sections_in_turn (programs subject.now reference.now) section other) }
    ensures pairs { OnOk result (ArePairs (programs subject.now reference.now) pairs.new) }
{
    match section {
        Section::Names {
            mode,
            of,
            count,
            next,
        } => match other {
            Section::Names {
                mode: passed,
                of: kind,
                count: many,
                next: after,
            } => {
                if !(same_mode(mode, passed) && count == many) {
                    return Ok(InTurn::Apart);
                }
                if pairs.same_shape(alloc, subject, reference, of, kind)? {
                    Ok(InTurn::Further(next, after))
                } else {
                    Ok(InTurn::Apart)
                }
            }
            _ => Ok(InTurn::Apart),
        },
        Section::Heading => Ok(InTurn::Apart),
        Section::End => match other {
            Section::End => Ok(InTurn::Over),
            _ => Ok(InTurn::Apart),
        },
    }
}

/// Whether two lists of sections agree.
fn same_sections(
    alloc: Global,
    subject: &Program,
    reference: &Program,
    pairs: &mut Pairs,
    first: u32,
    other: u32,
) -> Result<bool, Memory>
    requires pairs { ArePairs (programs subject.now reference.now) pairs.old }
    ensures same { IfOk result (λ same. same
        ≡ same_sections (programs subject.now reference.now) (length subject.now.rows) first other) }
    ensures pairs { OnOk result (ArePairs (programs subject.now reference.now) pairs.new) }
{
    let mut a = first;
    let mut b = other;
    'sections: for step in 0..subject.rows() {
        let section = section_at(subject, a);
        let beside = section_at(reference, b);
        match sections_in_turn(alloc, subject, reference, pairs, section, beside)? {
            InTurn::Further(next, after) => {
                a = next;
                b = after;
            }
            InTurn::Over => return Ok(true),
            InTurn::Apart => return Ok(false),
        }
    }
    Ok(false)
}

/// The list of the sections of a heading, and the type of its result.
#[derive(Clone, Copy)]
struct Parts {
    sections: u32,
    result: Option<u32>,
}

/// The list of the sections of a heading, and the type of its result, by the heading's number.
fn parts_of(program: &Program, heading: u32) -> Option<Parts>
    ensures { option_map signature_of result ≡ signature_at program.now heading }
{
    match program.row(heading) {
        Row::Part(
            PartRow::Heading {
                sections,
                result,
                ..
            },
        ) => Some(Parts { sections, result }),
        _ => None,
    }
}

/// Whether both have no result, or results of one shape.
fn same_results(
    alloc: Global,
    subject: &Program,
    reference: &Program,
    pairs: &mut Pairs,
    kind: Option<u32>,
    other: Option<u32>,
) -> Result<bool, Memory>
    requires pairs { ArePairs (programs subject.now reference.now) pairs.old }
    ensures same { IfOk result (λ same. same ≡ same_results (programs subject.now reference.now) kind other) }
    ensures pairs { OnOk result (ArePairs (programs subject.now reference.now) pairs.new) }
{
    match kind {
        None => Ok(other.is_none()),
        Some(kind) => match other {
            None => Ok(false),
            Some(other) => pairs.same_shape(alloc, subject, reference, kind, other),
        },
    }
}

/// Whether two headings are of one form, by their numbers.
fn same_signatures(
    alloc: Global,
    subject: &Program,
    reference: &Program,
    pairs: &mut Pairs,
    heading: u32,
    other: u32,
) -> Result<bool, Memory>
    requires pairs { ArePairs (programs subject.now reference.now) pairs.old }
    ensures same { IfOk result (λ same. same ≡ same_signatures (programs subject.now reference.now)
        (signature_at subject.now heading) (signature_at reference.now other)) }
    ensures pairs { OnOk result (ArePairs (programs subject.now reference.now) pairs.new) }
{
    let Some(parts) = parts_of(subject, heading) else {
        return Ok(false);
    };
    let Some(others) = parts_of(reference, other) else {
        return Ok(false);
    };
    if same_results(
        alloc,
        subject,
        reference,
        pairs,
        parts.result,
        others.result,
    )? {
        same_sections(
            alloc,
            subject,
            reference,
            pairs,
            parts.sections,
            others.sections,
        )
    } else {
        Ok(false)
    }
}

/// Whether a routine of the subject, and that of a number of the reference, are declared in the program blocks and have
/// one name.
fn is_namesake(subject: &Program, reference: &Program, routine: Routine, number: u32) -> bool
    ensures { result ≡ is_namesake (programs subject.now reference.now) (Some routine)
        (routine_at reference.now number) }
{
    match reference.routine(number) {
        None => false,
        Some(other) => {
            routine.level == 1
                && other.level == 1
                && names_agree(subject, reference, routine.name, other.name)
        }
    }
}

/// The routine of the reference that has the name of one of the subject.
fn namesake_of(subject: &Program, reference: &Program, routine: Routine) -> Option<u32>
    ensures { result ≡ find (λ s. is_namesake (programs subject.now reference.now) (Some routine)
        (routine_at reference.now s)) (range_with_len 0 (length reference.now.routines)) }
{
    'routines: for number in 0..reference.routines() {
        if is_namesake(subject, reference, routine, number) {
            return Some(number);
        }
    }
    None
}

/// The routine of the reference that answers for one of the subject, if there is one.
pub(crate) fn counterpart(
    alloc: Global,
    subject: &Program,
    reference: &Program,
    pairs: &mut Pairs,
    routine: u32,
) -> Result<Option<u32>, Memory>
    requires pairs { ArePairs (programs subject.now reference.now) pairs.old }
    ensures found { IfOk result (λ found. found ≡ counterpart (programs subject.now reference.now) routine) }
    ensures pairs { OnOk result (ArePairs (programs subject.now reference.now) pairs.new) }
{
    let Some(asked) = subject.routine(routine) else {
        return Ok(None);
    };
    let Some(number) = namesake_of(subject, reference, asked) else {
        return Ok(None);
    };
    let Some(other) = reference.routine(number) else {
        return Ok(None);
    };
    if same_signatures(
        alloc,
        subject,
        reference,
        pairs,
        asked.heading,
        other.heading,
    )? {
        Ok(Some(number))
    } else {
        Ok(None)
    }
}
