//! Blocks and their procedures and functions (6.2.1, 6.6).

ghost use Rattle.std.specs.Prelude.{◌≡◌, IfOk, option_copied, option_map};
ghost use Rattle.pas_tree.specs.BlockTrees.{block_tree, body_tree, routine_tree, routine_trees};
ghost use Rattle.pas_tree.specs.HeadingTrees.{heading_tree};
ghost use Rattle.check_steps.specs.Steps.{Does, each};
ghost use Rattle.decl_checker.specs.Routines.{add_heading, block, body_in, define_body, define_completion};
ghost use Rattle.decl_checker.specs.Routines.{define_inside, enter_heading, first_heading, first_name, heading_row};
ghost use Rattle.decl_checker.specs.Routines.{next_routine, one_deeper, open_routine, own_frame, place_after_result};
ghost use Rattle.decl_checker.specs.Routines.{result_place, resumed};

use crate::blocks::{check_parts, define_block, put_body};
use crate::scopes::{routine_in, routine_region};
use crate::statements::use_compound;
use check_steps::{Tables, Work};
use core_program::Routine as RoutineRow;
use core_program::rows::{NameRow, PartRow, Row};
use denoter_checker::{check_signature, completion_of, define_formals_at, is_function};
use kind_checker::sizes::place_after;
use pas_tree::blocks::{Block, Routine, RoutineBody};
use pas_tree::headings::Heading;
use pas_tree::{heading_name, heading_word};
use std::alloc::{AllocError, Global};

/// A routine at one of its headings: its number, the frame of its region, and the first place in that after its
/// parameters and its result.
#[derive(Clone, Copy)]
pub struct Entered {
    pub number: u32,
    pub frame: u32,
    pub place: u32,
}

fn one_deeper(level: u32) -> u32
    ensures { result ≡ one_deeper level }
{
    if level < u32::MAX { level + 1 } else { level }
}

/// Opens the region of a routine inside the frame around: what is given is the number of its frame.
#[tactic(auto, using(check_steps::proofs::Runs::steps), unfolding(crate::specs::Routines::open_routine))]
fn open_routine(work: &mut Work, alloc: Global, frame: u32, name: u32) -> Result<u32, AllocError>
    ensures { IfOk result (λ inner. Does (open_routine frame name) inner work.old work.new) }
{
    let level = one_deeper(work.tables.frame(frame).level);
    let inner = work.open_region(alloc, name, Some(frame), level)?;
    Ok(inner)
}

#[tactic(auto, using(check_steps::proofs::Runs::steps))]
fn define_body(work: &mut Work, body: &RoutineBody, frame: u32) -> Result<(), AllocError>
    ensures { IfOk result (λ _. Does (define_body frame (body_tree body.now)) tt work.old work.new) }
{
    match body {
        RoutineBody::Directive(_) => Ok(()),
        RoutineBody::Block(block) => define_block(work, block, frame),
    }
}

#[tactic(auto, using(check_steps::proofs::Runs::steps))]
fn define_completion(
    work: &mut Work,
    completion: Option<&Routine>,
    frame: u32,
) -> Result<(), AllocError>
    ensures { IfOk result (λ _. Does (define_completion frame
        (option_map routine_tree (option_copied completion.entry))) tt work.old work.new) }
{
    match completion {
        None => Ok(()),
        Some(routine) => define_body(work, &routine.body, frame),
    }
}

/// Defines the parameters of a routine and the names of its block, which may be that of a later heading.
#[tactic(auto, using(check_steps::proofs::Runs::steps), unfolding(crate::specs::Routines::define_inside))]
fn define_inside(
    work: &mut Work,
    routine: &Routine,
    completion: Option<&Routine>,
    frame: u32,
) -> Result<(), AllocError>
    ensures { IfOk result (λ _. Does
        (define_inside frame (heading_tree routine.now.heading) (body_tree routine.now.body)
        (option_map routine_tree (option_copied completion.entry))) tt
        work.old work.new) }
{
    define_formals_at(work, frame, &routine.heading)?;
    define_body(work, &routine.body, frame)?;
    define_completion(work, completion, frame)?;
    Ok(())
}

/// A function's result stands at the place after its parameters.
fn result_place(function: bool, end: u32) -> Option<u32>
    ensures { result ≡ result_place function end }
{
    if function { Some(end) } else { None }
}

/// The place after the parameters and a function's result.
fn place_after_result(function: bool, end: u32) -> u32
    ensures { result ≡ place_after_result function end }
{
    if function { place_after(end, 1) } else { end }
}

/// A routine of which only the heading is known, by the place after its parameters.
fn heading_row(heading: &Heading, level: u32, end: u32) -> RoutineRow
    ensures { result ≡ heading_row (heading_tree heading.now) level end }
{
    RoutineRow {
        name: heading_name(heading),
        heading: heading_word(heading),
        level,
        cells: place_after_result(is_function(heading), end),
        parameters: end,
        result: result_place(is_function(heading), end),
        statements: heading_word(heading),
        line: 0,
    }
}

/// A new routine, by the place after its parameters. Its number is put down at its name.
#[tactic(auto, using(check_steps::proofs::Runs::steps), unfolding(crate::specs::Routines::add_heading))]
fn add_heading(work: &mut Work, frame: u32, heading: &Heading, end: u32) -> Result<u32, AllocError>
    ensures { IfOk result (λ number. Does (add_heading frame (heading_tree heading.now) end) number work.old work.new) }
{
    let here = work.tables.frame(frame);
    let number = work.add_routine(heading_row(heading, here.level, end))?;
    let row = NameRow::Routine {
        assigned: false,
        number,
        region: here.region,
    };
    work.put(heading_name(heading), Row::Name(row));
    Ok(number)
}

/// A routine's first heading, seen from the frame around, among the routines of its part.
#[tactic(auto, using(check_steps::proofs::Runs::steps), unfolding(crate::specs::Routines::first_heading))]
fn enter_first(
    work: &mut Work,
    alloc: Global,
    routine: &Routine,
    routines: &[Routine],
    frame: u32,
) -> Result<Entered, AllocError>
    ensures { IfOk result (λ e. Does (first_heading frame (routine_trees routines.now) (routine_tree routine.now)) e
        work.old work.new) }
{
    let completion = completion_of(&work.tables, routines, routine);
    let inner = open_routine(work, alloc, frame, heading_name(&routine.heading))?;
    define_inside(work, routine, completion, inner)?;
    let end = check_signature(work, alloc, &routine.heading, frame, inner)?;
    let number = add_heading(work, inner, &routine.heading, end)?;
    Ok(Entered {
        number,
        frame: inner,
        place: place_after_result(is_function(&routine.heading), end),
    })
}

fn first_name(row: Row) -> Option<u32>
    ensures { result ≡ first_name row }
{
    match row {
        Row::Part(PartRow::Completing { first }) => Some(first),
        _ => None,
    }
}

/// The frame of a routine's region, by its name in its first heading.
pub fn own_frame(tables: &Tables, name: u32) -> u32
    ensures { result ≡ own_frame tables.now name }
{
    tables.region_frame(routine_region(tables.row(name)))
}

/// A routine that was entered at its first heading, by the name there.
fn resumed(tables: &Tables, name: u32) -> Entered
    ensures { result ≡ resumed tables.now name }
{
    let number = routine_in(tables.row(name), name);
    Entered {
        number,
        frame: own_frame(tables, name),
        place: tables.program().frame(number),
    }
}

/// A routine at one of its headings, seen from the frame around, among the routines of its part.
#[tactic(auto, using(check_steps::proofs::Runs::steps), unfolding(crate::specs::Routines::enter_heading))]
fn enter(
    work: &mut Work,
    alloc: Global,
    routine: &Routine,
    routines: &[Routine],
    frame: u32,
) -> Result<Entered, AllocError>
    ensures { IfOk result (λ e. Does (enter_heading frame (routine_trees routines.now) (routine_tree routine.now)) e
        work.old work.new) }
{
    match first_name(work.tables.row(heading_name(&routine.heading))) {
        None => enter_first(work, alloc, routine, routines, frame),
        Some(first) => Ok(resumed(&work.tables, first)),
    }
}

/// The block of the routine of a number, in its frame, with variables from a place on.
#[cycle(blocks)]
#[tactic(auto, using(check_steps::proofs::Runs::steps, pas_tree::proofs::BlockViews::block_view, pas_tree::proofs::StatementViews::compound_view, crate::proofs::Walks::routines_each))]
pub fn check_block(
    work: &mut Work,
    alloc: Global,
    b: &Block,
    entered: Entered,
) -> Result<(), AllocError>
    ensures { IfOk result (λ _. Does (block entered.frame entered.number entered.place (block_tree b.now)) tt work.old
        work.new) }
{
    let end = check_parts(work, alloc, b, entered.frame, entered.place)?;
    put_body(work, entered.number, end, b.body.begin);
    check_routines(work, alloc, &b.routines, entered.frame)?;
    use_compound(work, &b.body, entered.frame)?;
    Ok(())
}

#[cycle(blocks)]
#[tactic(auto, using(check_steps::proofs::Runs::loops))]
fn check_routines(
    work: &mut Work,
    alloc: Global,
    routines: &[Routine],
    frame: u32,
) -> Result<(), AllocError>
    ensures { IfOk result (λ _. Does (each (next_routine frame (routine_trees routines.now)) tt routines.now) tt
        work.old work.new) }
{
    'routines: for routine in routines {
        let entered = enter(work, alloc, routine, routines, frame)?;
        check_body(work, alloc, &routine.body, entered)?;
    }
    Ok(())
}

#[cycle(blocks)]
#[tactic(auto, using(check_steps::proofs::Runs::steps))]
fn check_body(
    work: &mut Work,
    alloc: Global,
    body: &RoutineBody,
    entered: Entered,
) -> Result<(), AllocError>
    ensures { IfOk result (λ _. Does (body_in entered (body_tree body.now)) tt work.old work.new) }
{
    match body {
        RoutineBody::Directive(_) => Ok(()),
        RoutineBody::Block(block) => check_block(work, alloc, block, entered),
    }
}
