//! What frames are made of, from the tables of a program.

ghost use Rattle.std.specs.Prelude.{◌++◌, ◌≡◌, IfOk, OnOk, option_to_list};
ghost use Rattle.core_program.specs.ProgramRows.{row_at, type_at};
ghost use Rattle.cell_names.specs.Layouts.{block_start, bounds_before, bounds_parts, component_in, frame_parts};
ghost use Rattle.cell_names.specs.Layouts.{heading_part, is_name_of, most_sections, named_part, next_name, own_between};
ghost use Rattle.cell_names.specs.Layouts.{own_in, parameters_in, parameters_of, parts_at, section_after, section_of};
ghost use Rattle.cell_names.specs.Layouts.{section_parts, sections_parts, spec_parts, token_after, variables_of};
ghost use Rattle.cell_names.specs.Places.{finds};

use crate::places::{PlacedPart, PlacedParts};
use core_program::rows::{ItemRow, Mode, NameRow, PartRow, Row, TypeRow};
use core_program::{Program, Routine};
use std::alloc::{AllocError, Global};

/// What the name at a token is in its frame, by its row.
fn named_part(token: u32, row: Row) -> Option<PlacedPart>
    ensures { result ≡ named_part token row }
{
    match row {
        Row::Name(NameRow::Variable { place, .. }) => Some(PlacedPart {
            place,
            number: token,
        }),
        Row::Name(NameRow::Bound { place, .. }) => Some(PlacedPart {
            place,
            number: token,
        }),
        Row::Name(NameRow::RoutineFormal { place, .. }) => Some(PlacedPart {
            place,
            number: token,
        }),
        _ => None,
    }
}

/// One more part, if there is one.
fn push_part(places: &mut PlacedParts, part: Option<PlacedPart>) -> Result<(), AllocError>
    ensures { OnOk result (finds places.new ≡ finds (places.old ++ option_to_list part)) }
{
    match part {
        None => Ok(()),
        Some(part) => places.push(part),
    }
}

/// What the name at a token is in its frame.
fn push_name(places: &mut PlacedParts, program: &Program, token: u32) -> Result<(), AllocError>
    ensures { OnOk result (finds places.new ≡ finds (places.old ++ parts_at program.now token)) }
{
    push_part(places, named_part(token, program.row(token)))
}

/// The name after the next comma.
fn next_name(token: u32) -> u32
    ensures { result ≡ next_name token }
{
    token.saturating_add(2)
}

/// The names of a section of parameters.
fn push_section(
    places: &mut PlacedParts,
    program: &Program,
    count: u32,
    first: u32,
) -> Result<(), AllocError>
    ensures { OnOk result (finds places.new ≡ finds (places.old ++ section_parts program.now count first)) }
{
    let mut token = first;
    'names: for _ in 0..count {
        push_name(places, program, token)?;
        token = next_name(token);
    }
    Ok(())
}

/// A procedure or function as a parameter, by its heading.
fn push_heading(places: &mut PlacedParts, program: &Program, heading: Row) -> Result<(), AllocError>
    ensures { OnOk result (finds places.new ≡ finds (places.old ++ heading_part program.now heading)) }
{
    match heading {
        Row::Part(PartRow::Heading { name, .. }) => push_name(places, program, name),
        _ => Ok(()),
    }
}

/// The token this many after another.
fn token_after(token: u32, more: u32) -> u32
    ensures { result ≡ token_after token more }
{
    token.saturating_add(more)
}

/// The two bounds of a spec, which stand after its bracket or semicolon with `..` between them.
fn push_spec(places: &mut PlacedParts, program: &Program, spec: u32) -> Result<(), AllocError>
    ensures { OnOk result (finds places.new ≡ finds (places.old ++ spec_parts program.now spec)) }
{
    push_name(places, program, token_after(spec, 1))?;
    push_name(places, program, token_after(spec, 3))?;
    Ok(())
}

/// The type of the components by a spec, if a type is one.
fn component_of(program: &Program, spec: u32) -> Option<u32>
    ensures { result ≡ component_in (type_at program.now spec) }
{
    match program.type_row(spec) {
        Some(TypeRow::Conformant { component, .. }) => Some(component),
        _ => None,
    }
}

/// The bounds of a schema and of those inside it.
fn push_bounds(places: &mut PlacedParts, program: &Program, schema: u32) -> Result<(), AllocError>
    ensures { OnOk result (finds places.new
        ≡ finds (places.old ++ bounds_parts program.now most_sections schema)) }
{
    let mut spec = schema;
    'specs: for _ in 0..1_048_576u32 {
        match component_of(program, spec) {
            None => return Ok(()),
            Some(component) => {
                push_spec(places, program, spec)?;
                spec = component;
            }
        }
    }
    Ok(())
}

/// The bounds of the schema of a section, by the row of the section's first name.
fn push_bounds_before(
    places: &mut PlacedParts,
    program: &Program,
    first: Row,
) -> Result<(), AllocError>
    ensures { OnOk result (finds places.new ≡ finds (places.old ++ bounds_before program.now first)) }
{
    match first {
        Row::Name(NameRow::Variable { of, .. }) => push_bounds(places, program, of),
        _ => Ok(()),
    }
}

/// The parameters of a section, by the token of its first name: the bounds come before the names.
fn push_bounds_and_names(
    places: &mut PlacedParts,
    program: &Program,
    count: u32,
    first: u32,
) -> Result<(), AllocError>
    ensures { OnOk result (finds places.new ≡ finds (places.old
        ++ (bounds_before program.now (row_at program.now first) ++ section_parts program.now count first))) }
{
    push_bounds_before(places, program, program.row(first))?;
    push_section(places, program, count, first)?;
    Ok(())
}

/// The parameters of a section, by its row.
fn push_section_of(
    places: &mut PlacedParts,
    program: &Program,
    section: Row,
) -> Result<(), AllocError>
    ensures { OnOk result (finds places.new ≡ finds (places.old ++ section_of program.now section)) }
{
    match section {
        Row::Item(ItemRow::Section { first, count, .. }) => {
            push_bounds_and_names(places, program, count, first)
        }
        Row::Item(ItemRow::RoutineSection { heading, .. }) => {
            push_heading(places, program, program.row(heading))
        }
        _ => Ok(()),
    }
}

/// Where the section after one stands, by the row of that.
fn next_section(section: Row) -> Option<u32>
    ensures { result ≡ section_after section }
{
    match section {
        Row::Item(ItemRow::Section { next, .. }) => Some(next),
        Row::Item(ItemRow::RoutineSection { next, .. }) => Some(next),
        _ => None,
    }
}

/// The parameters of the section at a token; where the next one stands is given.
fn push_section_at(
    places: &mut PlacedParts,
    program: &Program,
    slot: u32,
) -> Result<Option<u32>, AllocError>
    ensures { IfOk result (λ next.
        (finds places.new ≡ finds (places.old ++ section_of program.now (row_at program.now slot)))
        × (next ≡ section_after (row_at program.now slot))) }
{
    let section = program.row(slot);
    push_section_of(places, program, section)?;
    Ok(next_section(section))
}

/// The parameters of the sections from one on.
fn push_sections(
    places: &mut PlacedParts,
    program: &Program,
    sections: u32,
) -> Result<(), AllocError>
    ensures { OnOk result (finds places.new
        ≡ finds (places.old ++ sections_parts program.now most_sections sections)) }
{
    let mut slot = sections;
    'sections: for _ in 0..1_048_576u32 {
        match push_section_at(places, program, slot)? {
            Some(next) => slot = next,
            None => return Ok(()),
        }
    }
    Ok(())
}

/// The parameters of a heading, by its row.
fn push_parameters_in(
    places: &mut PlacedParts,
    program: &Program,
    heading: Row,
) -> Result<(), AllocError>
    ensures { OnOk result (finds places.new ≡ finds (places.old ++ parameters_in program.now heading)) }
{
    match heading {
        Row::Part(PartRow::Heading { sections, .. }) => push_sections(places, program, sections),
        _ => Ok(()),
    }
}

/// The parameters of a routine.
fn push_parameters(
    places: &mut PlacedParts,
    program: &Program,
    routine: Routine,
) -> Result<(), AllocError>
    ensures { OnOk result (finds places.new ≡ finds (places.old ++ parameters_of program.now routine)) }
{
    push_parameters_in(places, program, program.row(routine.heading))
}

/// Whether a token is the name of a routine in one of its headings, by its row.
fn is_name_of(row: Row, number: u32, name: u32) -> bool
    ensures { result ≡ is_name_of row number name }
{
    match row {
        Row::Name(NameRow::Routine { number: found, .. }) => found == number,
        Row::Part(PartRow::Completing { first }) => first == name,
        _ => false,
    }
}

/// Where the block of a routine begins: at its name in the last heading before a token.
fn block_start(program: &Program, number: u32, name: u32, before: u32) -> u32
    ensures { result ≡ block_start program.now number name before }
{
    let mut token = before;
    'tokens: while token > 0 {
        token -= 1;
        if is_name_of(program.row(token), number, name) {
            return token;
        }
    }
    0
}

/// A variable of a block with this many others around, by its row.
fn own_in(level: u32, token: u32, row: Row) -> Option<PlacedPart>
    ensures { result ≡ own_in level token row }
{
    match row {
        Row::Name(
            NameRow::Variable {
                mode: Mode::Own,
                place,
                level: found,
                ..
            },
        ) => {
            if found == level {
                Some(PlacedPart {
                    place,
                    number: token,
                })
            } else {
                None
            }
        }
        _ => None,
    }
}

/// The variables of a block with this many others around, from a token on and before another.
fn push_own(
    places: &mut PlacedParts,
    program: &Program,
    level: u32,
    from: u32,
    to: u32,
) -> Result<(), AllocError>
    ensures { OnOk result (finds places.new ≡ finds (places.old ++ own_between program.now level from to)) }
{
    'tokens: for token in from..to {
        push_part(places, own_in(level, token, program.row(token)))?;
    }
    Ok(())
}

/// The variables of a routine's block.
fn push_variables(
    places: &mut PlacedParts,
    program: &Program,
    number: u32,
    routine: Routine,
) -> Result<(), AllocError>
    ensures { OnOk result (finds places.new ≡ finds (places.old ++ variables_of program.now number routine)) }
{
    let start = block_start(program, number, routine.name, routine.statements);
    push_own(places, program, routine.level, start, routine.statements)
}

/// What a routine's frame has but for its link and its result.
fn push_frame(
    places: &mut PlacedParts,
    program: &Program,
    number: u32,
    routine: Routine,
) -> Result<(), AllocError>
    ensures { OnOk result (finds places.new ≡ finds (places.old
        ++ (parameters_of program.now routine ++ variables_of program.now number routine))) }
{
    push_parameters(places, program, routine)?;
    push_variables(places, program, number, routine)?;
    Ok(())
}

/// What the frame of a routine has but for its link and its result: where its parameters and variables begin, and the
/// tokens that name them.
pub(crate) fn frame_places(
    alloc: Global,
    program: &Program,
    number: u32,
) -> Result<PlacedParts, AllocError>
    ensures { IfOk result (λ places. finds places ≡ finds (frame_parts program.now number)) }
{
    let mut places = PlacedParts::new(alloc);
    match program.routine(number) {
        None => Ok(places),
        Some(routine) => {
            push_frame(&mut places, program, number, routine)?;
            Ok(places)
        }
    }
}
