//! Headings (6.6.1, 6.6.2): what formal parameters and results are, and where a frame has them.

ghost use Rattle.std.specs.Prelude.{◌≡◌, IfOk};
ghost use Rattle.pas_tree.specs.{ConstantTrees.names_tree, HeadingTrees.heading_tree, HeadingTrees.procedure_tree};
ghost use Rattle.pas_tree.specs.HeadingTrees.{formal_names_tree, formal_tree, formals_in, formals_tree, function_tree};
ghost use Rattle.check_steps.specs.Steps.{Does, each, each_back};
ghost use Rattle.kind_checker.specs.Names.{each_name, on_name};
ghost use Rattle.denoter_checker.specs.Headings.{cells_of, checked_result_type, count_of, formal_place, function_row};
ghost use Rattle.denoter_checker.specs.Headings.{function_signature, may_be_result, next_formal_place, open_heading};
ghost use Rattle.denoter_checker.specs.Headings.{parameter, parameters, places, procedure_row, procedure_signature};
ghost use Rattle.denoter_checker.specs.Headings.{put_next_section, put_section, put_sections, result_or};
ghost use Rattle.denoter_checker.specs.Headings.{routine_formal, section_list, section_row, signature, value_cells};

use crate::formals::{define_formals_at, is_complete};
use crate::schemas::{check_formal_type, mode_in};
use check_steps::Work;
use core_program::rows::{ItemRow, LIST_END, Mode, NameRow, PartRow, Row, TypeRow};
use kind_checker::sizes::{MOST_CELLS, place_after};
use kind_checker::types::check_named_type;
use pas_tree::constants::{Names, NextName};
use pas_tree::headings::{
    Formal, FormalNames, Formals, FunctionHeading, Heading, NextFormal, ProcedureHeading,
    ResultType,
};
use pas_tree::{heading_name, heading_word};
use std::alloc::{AllocError, Global};

#[tactic(auto, using(check_steps::proofs::Runs::steps), unfolding(crate::specs::Headings::value_cells))]
fn check_value_cells(work: &mut Work, of: u32, name: u32) -> u32
    ensures { Does (value_cells of name) result work.old work.new }
{
    let cells = work.tables.program().size_of(of);
    work.too_big(name, cells <= MOST_CELLS);
    cells
}

#[tactic(auto, using(check_steps::proofs::Runs::steps))]
fn check_cells(work: &mut Work, mode: Mode, of: u32, name: u32) -> u32
    ensures { Does (cells_of mode of name) result work.old work.new }
{
    match mode {
        Mode::Place => 1,
        Mode::Copy => 1,
        Mode::Own => check_value_cells(work, of, name),
        Mode::Value => check_value_cells(work, of, name),
    }
}

/// A parameter of a type at a place in a frame; the place after it is given.
#[tactic(auto, using(check_steps::proofs::Runs::steps), unfolding(crate::specs::Headings::parameter))]
fn check_parameter(work: &mut Work, mode: Mode, level: u32, of: u32, at: u32, name: u32) -> u32
    ensures { Does (parameter mode level of at name) result work.old work.new }
{
    let row = NameRow::Variable {
        mode,
        of,
        place: at,
        level,
    };
    work.put(name, Row::Name(row));
    let cells = check_cells(work, mode, of, name);
    place_after(at, cells)
}

#[tactic(auto, unfolding(kind_checker::specs::Names::on_name))]
fn check_next_parameter(
    work: &mut Work,
    mode: Mode,
    level: u32,
    of: u32,
    at: u32,
    next: &NextName,
) -> u32
    ensures { Does (on_name (parameter mode level of) at next.now) result work.old work.new }
{
    check_parameter(work, mode, level, of, at, next.name)
}

#[tactic(auto, using(check_steps::proofs::Runs::read_loops))]
fn check_more_parameters(
    work: &mut Work,
    mode: Mode,
    level: u32,
    of: u32,
    at: u32,
    names: &[NextName],
) -> u32
    ensures { Does (each (on_name (parameter mode level of)) at names.now) result work.old work.new }
{
    let mut next = at;
    'names: for name in names {
        next = check_next_parameter(work, mode, level, of, next, name);
    }
    next
}

#[tactic(auto, using(check_steps::proofs::Runs::steps))]
fn check_each_parameter(
    work: &mut Work,
    mode: Mode,
    level: u32,
    of: u32,
    at: u32,
    names: &Names,
) -> u32
    ensures { Does (each_name (parameter mode level of) at (names_tree names.now)) result work.old work.new }
{
    let next = check_parameter(work, mode, level, of, at, names.first);
    check_more_parameters(work, mode, level, of, next, &names.others)
}

/// The parameters of a section from a place in a frame on; the place after them is given.
#[tactic(auto, using(check_steps::proofs::Runs::steps), unfolding(crate::specs::Headings::parameters))]
fn check_parameters(work: &mut Work, mode: Mode, frame: u32, at: u32, section: &FormalNames) -> u32
    ensures { Does (parameters mode frame at (formal_names_tree section.now)) result work.old work.new }
{
    let level = work.tables.frame(frame).level;
    let placed = check_formal_type(work, frame, level, at, &section.of);
    let mode = mode_in(mode, &section.of);
    check_each_parameter(work, mode, level, placed.of, placed.place, &section.names)
}

#[tactic(auto, using(check_steps::proofs::Runs::steps), unfolding(crate::specs::Headings::routine_formal))]
fn check_routine_formal(work: &mut Work, frame: u32, at: u32, heading: &Heading)
    ensures { Does (routine_formal frame at (heading_tree heading.now)) tt work.old work.new }
{
    let row = NameRow::RoutineFormal {
        place: at,
        level: work.tables.frame(frame).level,
        heading: heading_word(heading),
    };
    work.put(heading_name(heading), Row::Name(row));
    work.early(9, heading_name(heading), is_complete(heading));
}

/// The region of the formals of a heading among formals; the number of its frame is given.
#[tactic(auto, using(check_steps::proofs::Runs::steps), unfolding(crate::specs::Headings::open_heading))]
fn open_heading(
    work: &mut Work,
    alloc: Global,
    frame: u32,
    heading: &Heading,
) -> Result<u32, AllocError>
    ensures { IfOk result (λ inner. Does (open_heading frame (heading_tree heading.now)) inner work.old work.new) }
{
    let level = work.tables.frame(frame).level;
    let inner = work.open_region(alloc, heading_name(heading), Some(frame), level)?;
    define_formals_at(work, inner, heading)?;
    Ok(inner)
}

fn count_of(names: &Names) -> u32
    ensures { result ≡ count_of (names_tree names.now) }
{
    let others = names.others.len();
    if others < u32::MAX as usize {
        others as u32 + 1
    } else {
        u32::MAX
    }
}

/// A section of formals, and where the next one stands.
fn section_row(formal: &Formal, next: u32) -> Row
    ensures { result ≡ section_row (formal_tree formal.now) next }
{
    let row = match formal {
        Formal::Value(section) => ItemRow::Section {
            mode: mode_in(Mode::Value, &section.of),
            first: section.names.first,
            count: count_of(&section.names),
            next,
        },
        Formal::Variable(_, section) => ItemRow::Section {
            mode: Mode::Place,
            first: section.names.first,
            count: count_of(&section.names),
            next,
        },
        Formal::Routine(heading) => ItemRow::RoutineSection {
            heading: heading_word(heading),
            next,
        },
    };
    Row::Item(row)
}

#[tactic(auto, using(check_steps::proofs::Runs::steps), unfolding(crate::specs::Headings::put_section))]
fn put_section(work: &mut Work, slot: u32, formal: &Formal, next: u32) -> u32
    ensures { Does (put_section slot (formal_tree formal.now) next) result work.old work.new }
{
    work.put(slot, section_row(formal, next));
    slot
}

#[tactic(auto, unfolding(crate::specs::Headings::put_next_section))]
fn put_next_section(work: &mut Work, other: &NextFormal, next: u32) -> u32
    ensures { Does (put_next_section next other.now) result work.old work.new }
{
    put_section(work, other.semicolon, &other.formal, next)
}

/// The sections after the first, from the last one on.
#[tactic(auto, using(check_steps::proofs::Runs::back_loops))]
fn put_other_sections(work: &mut Work, others: &[NextFormal]) -> u32
    ensures { Does (each_back put_next_section 0 others.now) result work.old work.new }
{
    let mut next = LIST_END;
    let mut left = others.len();
    'others: while left > 0 {
        left -= 1;
        next = put_next_section(work, &others[left], next);
    }
    next
}

#[tactic(auto, using(check_steps::proofs::Runs::steps, pas_tree::proofs::HeadingViews::formals_view, crate::proofs::Walks::sections_put))]
fn put_sections(work: &mut Work, formals: &Formals) -> u32
    ensures { Does (put_sections (formals_tree formals.now)) result work.old work.new }
{
    let next = put_other_sections(work, &formals.others);
    put_section(work, formals.open, &formals.first, next)
}

/// The list of a heading's sections, which is empty without formals.
#[tactic(auto, using(check_steps::proofs::Runs::steps))]
fn put_section_list(work: &mut Work, formals: &Option<Formals>) -> u32
    ensures { Does (section_list (formals_in formals.now)) result work.old work.new }
{
    match formals {
        None => LIST_END,
        Some(formals) => put_sections(work, formals),
    }
}

fn may_be_result(row: Option<TypeRow>) -> bool
    ensures { result ≡ may_be_result row }
{
    match row {
        None => true,
        Some(TypeRow::Ordinal { .. }) => true,
        Some(TypeRow::Subrange { .. }) => true,
        Some(TypeRow::Pointer { .. }) => true,
        Some(_) => false,
    }
}

#[tactic(auto, using(check_steps::proofs::Runs::steps), unfolding(crate::specs::Headings::checked_result_type))]
fn check_result_type(work: &mut Work, around: u32, name: u32) -> u32
    ensures { Does (checked_result_type around name) result work.old work.new }
{
    let of = check_named_type(work, around, name);
    let fine = may_be_result(work.tables.type_row(of));
    work.late(11, name, fine);
    of
}

#[tactic(auto, using(check_steps::proofs::Runs::steps))]
fn check_result(work: &mut Work, around: u32, name: u32, written: &Option<ResultType>) -> u32
    ensures { Does (result_or around name written.now) result work.old work.new }
{
    match written {
        None => name,
        Some(written) => check_result_type(work, around, written.name),
    }
}

#[tactic(auto, using(check_steps::proofs::Runs::steps), unfolding(crate::specs::Headings::procedure_row))]
fn put_procedure(work: &mut Work, word: u32, name: u32, formals: &Option<Formals>)
    ensures { Does (procedure_row word name (formals_in formals.now)) tt work.old work.new }
{
    let row = PartRow::Heading {
        name,
        sections: put_section_list(work, formals),
        result: None,
    };
    work.put(word, Row::Part(row));
}

#[tactic(auto, using(check_steps::proofs::Runs::steps), unfolding(crate::specs::Headings::function_row))]
fn put_function(
    work: &mut Work,
    around: u32,
    word: u32,
    name: u32,
    formals: &Option<Formals>,
    written: &Option<ResultType>,
)
    ensures { Does (function_row around word name (formals_in formals.now) written.now) tt work.old work.new }
{
    let sections = put_section_list(work, formals);
    let of = check_result(work, around, name, written);
    let row = PartRow::Heading {
        name,
        sections,
        result: Some(of),
    };
    work.put(word, Row::Part(row));
}

/// What the formals and the result of a heading are. The formals' types are looked up from the frame of its own region,
/// in which they are defined; the result type from the frame around. The formals have the cells of a frame from 1 on;
/// the place after them is given, where 524,289 stands for more than 524,288. A function's result has its cell there.
#[cycle(signatures)]
#[tactic(auto, using(check_steps::proofs::Runs::steps))]
pub fn check_signature(
    work: &mut Work,
    alloc: Global,
    heading: &Heading,
    around: u32,
    frame: u32,
) -> Result<u32, AllocError>
    ensures { IfOk result (λ end. Does (signature around frame (heading_tree heading.now)) end work.old work.new) }
{
    match heading {
        Heading::Procedure(procedure) => check_procedure(work, alloc, procedure, frame),
        Heading::Function(function) => check_function(work, alloc, function, around, frame),
    }
}

#[cycle(signatures)]
#[tactic(auto, using(check_steps::proofs::Runs::steps, pas_tree::proofs::HeadingViews::procedure_view))]
fn check_procedure(
    work: &mut Work,
    alloc: Global,
    procedure: &ProcedureHeading,
    frame: u32,
) -> Result<u32, AllocError>
    ensures { IfOk result (λ end. Does (procedure_signature frame (procedure_tree procedure.now)) end work.old
        work.new) }
{
    put_procedure(work, procedure.word, procedure.name, &procedure.formals);
    match &procedure.formals {
        None => Ok(1),
        Some(formals) => check_places(work, alloc, formals, frame),
    }
}

#[cycle(signatures)]
#[tactic(auto, using(check_steps::proofs::Runs::steps, pas_tree::proofs::HeadingViews::function_view))]
fn check_function(
    work: &mut Work,
    alloc: Global,
    function: &FunctionHeading,
    around: u32,
    frame: u32,
) -> Result<u32, AllocError>
    ensures { IfOk result (λ end. Does (function_signature around frame (function_tree function.now)) end work.old
        work.new) }
{
    put_function(
        work,
        around,
        function.word,
        function.name,
        &function.formals,
        &function.result,
    );
    match &function.formals {
        None => Ok(1),
        Some(formals) => check_places(work, alloc, formals, frame),
    }
}

/// The formals have the cells of a frame from 1 on; the place after them is given.
#[cycle(signatures)]
#[tactic(auto, using(check_steps::proofs::Runs::steps, pas_tree::proofs::HeadingViews::formals_view, crate::proofs::Walks::places_each))]
fn check_places(
    work: &mut Work,
    alloc: Global,
    formals: &Formals,
    frame: u32,
) -> Result<u32, AllocError>
    ensures { IfOk result (λ end. Does (places frame (formals_tree formals.now)) end work.old work.new) }
{
    let next = check_formal(work, alloc, &formals.first, frame, 1)?;
    check_other_formals(work, alloc, &formals.others, frame, next)
}

#[cycle(signatures)]
#[tactic(auto, using(check_steps::proofs::Runs::loops))]
fn check_other_formals(
    work: &mut Work,
    alloc: Global,
    others: &[NextFormal],
    frame: u32,
    at: u32,
) -> Result<u32, AllocError>
    ensures { IfOk result (λ end. Does (each (next_formal_place frame) at others.now) end work.old work.new) }
{
    let mut next = at;
    'others: for other in others {
        next = check_next_formal(work, alloc, other, frame, next)?;
    }
    Ok(next)
}

#[cycle(signatures)]
#[tactic(auto, unfolding(crate::specs::Headings::next_formal_place))]
fn check_next_formal(
    work: &mut Work,
    alloc: Global,
    other: &NextFormal,
    frame: u32,
    at: u32,
) -> Result<u32, AllocError>
    ensures { IfOk result (λ end. Does (next_formal_place frame at other.now) end work.old work.new) }
{
    check_formal(work, alloc, &other.formal, frame, at)
}

#[cycle(signatures)]
#[tactic(auto, using(check_steps::proofs::Runs::steps))]
fn check_formal(
    work: &mut Work,
    alloc: Global,
    formal: &Formal,
    frame: u32,
    at: u32,
) -> Result<u32, AllocError>
    ensures { IfOk result (λ end. Does (formal_place frame at (formal_tree formal.now)) end work.old work.new) }
{
    match formal {
        Formal::Value(section) => Ok(check_parameters(work, Mode::Value, frame, at, section)),
        Formal::Variable(_, section) => {
            Ok(check_parameters(work, Mode::Place, frame, at, section))
        }
        Formal::Routine(heading) => {
            check_routine_formal(work, frame, at, heading);
            let inner = open_heading(work, alloc, frame, heading)?;
            check_signature(work, alloc, heading, frame, inner)?;
            Ok(place_after(at, 1))
        }
    }
}
