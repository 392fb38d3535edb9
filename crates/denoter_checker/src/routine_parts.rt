//! The procedures and functions of a block: which names they define, and which heading completes which (6.2.1, 6.6.1,
//! 6.6.2).

ghost use Rattle.std.specs.Prelude.{◌≡◌, IfOk, option_copied, option_map};
ghost use Rattle.pas_tree.specs.BlockTrees.{body_tree, routine_tree, routine_trees};
ghost use Rattle.pas_tree.specs.HeadingTrees.{formals_in, heading_tree};
ghost use Rattle.check_steps.specs.Steps.{Does, each};
ghost use Rattle.denoter_checker.specs.RoutineParts.{awaiting, awaits, block_in, complete_or_define, completed_by};
ghost use Rattle.denoter_checker.specs.RoutineParts.{completing, completion_of, define_heading, define_next_routine};
ghost use Rattle.denoter_checker.specs.RoutineParts.{define_routine, define_routines, defining, directed, directive_in};
ghost use Rattle.denoter_checker.specs.RoutineParts.{has_block, is_forward, is_waiting, next_has_block, no_result};
ghost use Rattle.denoter_checker.specs.RoutineParts.{routine_name, without_formals};

use crate::formals::{formals_of, is_complete, is_function, result_of};
use check_steps::{Def, Definition, Tables, Work};
use core_program::rows::{PartRow, Row};
use pas_tree::blocks::{Routine, RoutineBody};
use pas_tree::heading_name;
use pas_tree::headings::{Formals, Heading, ResultType};
use std::alloc::AllocError;

/// The token of the name in a routine's heading.
fn routine_name(routine: &Routine) -> u32
    ensures { result ≡ routine_name (routine_tree routine.now) }
{
    heading_name(&routine.heading)
}

fn awaits(function: bool, row: Row) -> bool
    ensures { result ≡ awaits function row }
{
    match row {
        Row::Part(
            PartRow::Forward {
                function: forward,
                block: None,
            },
        ) => forward == function,
        _ => false,
    }
}

fn awaiting(tables: &Tables, function: bool, held: Option<Definition>) -> Option<u32>
    ensures { result ≡ awaiting tables.now function held }
{
    match held {
        None => None,
        Some(definition) => {
            if awaits(function, tables.row(definition.token)) {
                Some(definition.token)
            } else {
                None
            }
        }
    }
}

/// The name in the forward heading that a heading with this body completes.
fn completed_by(tables: &Tables, region: u32, heading: &Heading, body: &RoutineBody) -> Option<u32>
    ensures { result ≡ completed_by tables.now region (heading_tree heading.now) (body_tree body.now) }
{
    match body {
        RoutineBody::Directive(_) => None,
        RoutineBody::Block(_) => {
            let name = tables.name(heading_name(heading));
            awaiting(
                tables,
                is_function(heading),
                tables.defined_in(region, name),
            )
        }
    }
}

#[tactic(auto, using(check_steps::proofs::Runs::steps), unfolding(crate::specs::RoutineParts::define_heading))]
fn define_heading(work: &mut Work, region: u32, heading: &Heading) -> Result<(), AllocError>
    ensures { IfOk result (λ _. Does (define_heading region (heading_tree heading.now)) tt work.old work.new) }
{
    let name = heading_name(heading);
    let definition = Definition {
        def: Def::Routine(name),
        token: name,
        end: name,
    };
    work.define_in(region, definition)?;
    work.early(9, name, is_complete(heading));
    Ok(())
}

fn is_forward(tables: &Tables, directive: u32) -> bool
    ensures { result ≡ is_forward tables.now directive }
{
    match tables.number_of(b"forward") {
        None => false,
        Some(number) => number == tables.name(directive),
    }
}

#[tactic(auto, using(check_steps::proofs::Runs::steps), unfolding(crate::specs::RoutineParts::directed, check_steps::specs::Steps::when))]
fn check_directive(work: &mut Work, heading: &Heading, directive: u32)
    ensures { Does (directed (heading_tree heading.now) directive) tt work.old work.new }
{
    let forward = is_forward(&work.tables, directive);
    work.early(10, directive, forward);
    if forward {
        let row = PartRow::Forward {
            function: is_function(heading),
            block: None,
        };
        work.put(heading_name(heading), Row::Part(row));
    }
}

#[tactic(auto, using(check_steps::proofs::Runs::steps))]
fn check_body(work: &mut Work, heading: &Heading, body: &RoutineBody)
    ensures { Does (directive_in (heading_tree heading.now) (body_tree body.now)) tt work.old work.new }
{
    match body {
        RoutineBody::Directive(directive) => check_directive(work, heading, *directive),
        RoutineBody::Block(_) => {}
    }
}

#[tactic(auto, using(check_steps::proofs::Runs::steps), unfolding(crate::specs::RoutineParts::defining))]
fn define(
    work: &mut Work,
    region: u32,
    heading: &Heading,
    body: &RoutineBody,
) -> Result<(), AllocError>
    ensures { IfOk result (λ _. Does (defining region (heading_tree heading.now) (body_tree body.now)) tt work.old
        work.new) }
{
    define_heading(work, region, heading)?;
    check_body(work, heading, body);
    Ok(())
}

#[tactic(auto, using(check_steps::proofs::Runs::steps, pas_tree::proofs::HeadingViews::formals_view))]
fn refuse_formals(work: &mut Work, formals: Option<&Formals>)
    ensures { Does (without_formals (formals_in (option_copied formals.entry))) tt work.old work.new }
{
    match formals {
        None => {}
        Some(formals) => work.early(9, formals.open, false),
    }
}

#[tactic(auto, using(check_steps::proofs::Runs::steps))]
fn refuse_result(work: &mut Work, written: Option<&ResultType>)
    ensures { Does (no_result (option_copied written.entry)) tt work.old work.new }
{
    match written {
        None => {}
        Some(written) => work.early(9, written.colon, false),
    }
}

#[tactic(auto, using(check_steps::proofs::Runs::steps), unfolding(crate::specs::RoutineParts::completing))]
fn complete(work: &mut Work, first: u32, position: u32, heading: &Heading)
    ensures { Does (completing first position (heading_tree heading.now)) tt work.old work.new }
{
    refuse_formals(work, formals_of(heading));
    refuse_result(work, result_of(heading));
    let forward = PartRow::Forward {
        function: is_function(heading),
        block: Some(position),
    };
    work.put(first, Row::Part(forward));
    work.put(
        heading_name(heading),
        Row::Part(PartRow::Completing { first }),
    );
}

#[tactic(auto, using(check_steps::proofs::Runs::steps))]
fn complete_or_define(
    work: &mut Work,
    first: Option<u32>,
    region: u32,
    position: u32,
    routine: &Routine,
) -> Result<(), AllocError>
    ensures { IfOk result (λ _. Does
        (complete_or_define first region position (heading_tree routine.now.heading) (body_tree routine.now.body)) tt
        work.old work.new) }
{
    match first {
        None => define(work, region, &routine.heading, &routine.body),
        Some(first) => {
            complete(work, first, position, &routine.heading);
            Ok(())
        }
    }
}

/// A routine by its position in its part; that of the next one is given.
#[tactic(auto, using(check_steps::proofs::Runs::steps), unfolding(crate::specs::RoutineParts::define_routine))]
fn define_routine(
    work: &mut Work,
    region: u32,
    position: u32,
    routine: &Routine,
) -> Result<u32, AllocError>
    ensures { IfOk result (λ next. Does (define_routine region position (routine_tree routine.now)) next work.old
        work.new) }
{
    let first = completed_by(&work.tables, region, &routine.heading, &routine.body);
    complete_or_define(work, first, region, position, routine)?;
    Ok(position.saturating_add(1))
}

#[tactic(auto, using(check_steps::proofs::Runs::loops), unfolding(crate::specs::RoutineParts::define_next_routine))]
fn define_each_routine(
    work: &mut Work,
    region: u32,
    routines: &[Routine],
) -> Result<u32, AllocError>
    ensures { IfOk result (λ n. Does (each (define_next_routine region) 0 routines.now) n work.old work.new) }
{
    let mut position: u32 = 0;
    'routines: for routine in routines {
        position = define_routine(work, region, position, routine)?;
    }
    Ok(position)
}

fn is_waiting(row: Row) -> bool
    ensures { result ≡ is_waiting row }
{
    match row {
        Row::Part(PartRow::Forward { block: None, .. }) => true,
        _ => false,
    }
}

#[tactic(auto, using(check_steps::proofs::Runs::steps), unfolding(crate::specs::RoutineParts::has_block))]
fn check_block(work: &mut Work, routine: &Routine)
    ensures { Does (has_block (routine_tree routine.now)) tt work.old work.new }
{
    let name = routine_name(routine);
    let waiting = is_waiting(work.tables.row(name));
    work.early(8, name, !waiting);
}

#[tactic(auto, using(check_steps::proofs::Runs::loops), unfolding(crate::specs::RoutineParts::next_has_block))]
fn check_blocks(work: &mut Work, routines: &[Routine])
    ensures { Does (each next_has_block tt routines.now) tt work.old work.new }
{
    'routines: for routine in routines {
        check_block(work, routine);
    }
}

/// Defines the names of the routines of a part in the region of its block. Of a routine with a forward heading the
/// one with its block, and of that the name in the first heading, are put down.
#[tactic(auto, using(check_steps::proofs::Runs::steps, crate::proofs::Walks::routines_defined, crate::proofs::Walks::blocks_each))]
pub fn define_routines(work: &mut Work, region: u32, routines: &[Routine]) -> Result<(), AllocError>
    ensures { IfOk result (λ _. Does (define_routines region (routine_trees routines.now)) tt work.old work.new) }
{
    let _count = define_each_routine(work, region, routines)?;
    check_blocks(work, routines);
    Ok(())
}

fn block_in(row: Row) -> Option<u32>
    ensures { result ≡ block_in row }
{
    match row {
        Row::Part(PartRow::Forward { block, .. }) => block,
        _ => None,
    }
}

/// Of a routine with a forward heading the one of the same part that has its block, before the routine's own row stands
/// at its name.
pub fn completion_of<'a>(
    tables: &Tables,
    routines: &'a [Routine],
    routine: &Routine,
) -> Option<&'a Routine>
    ensures { option_map routine_tree (option_copied result) ≡
        completion_of tables.now (routine_trees routines.now) (routine_tree routine.now) }
{
    match block_in(tables.row(routine_name(routine))) {
        None => None,
        Some(position) => routines.get(position as usize),
    }
}
