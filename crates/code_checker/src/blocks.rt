//! The statements of blocks, those of their routines first (6.2.1).

ghost use Rattle.std.specs.Prelude.{◌≡◌, IfOk};
ghost use Rattle.pas_tree.specs.{BlockTrees.block_tree, BlockTrees.body_tree, StatementTrees.compound_tree};
ghost use Rattle.check_steps.specs.Steps.{Does, each};
ghost use Rattle.code_checker.specs.Blocks.{code_block, code_body, code_next_routine, statement_part};

use crate::code_places::span_of;
use crate::results::{check_result, name_in_first};
use check_steps::{Span, Work};
use decl_checker::routines::own_frame;
use denoter_checker::is_function;
use pas_tree::blocks::{Block, Routine, RoutineBody};
use pas_tree::heading_name;
use pas_tree::statements::Compound;
use statement_checker::labels::reach_all;
use statement_checker::statements::check_compound;
use std::alloc::AllocError;

/// The statement part of a block, seen from its frame.
#[tactic(auto, using(check_steps::proofs::Runs::steps), unfolding(crate::specs::Blocks::statement_part))]
fn check_statement_part(
    work: &mut Work,
    body: &Compound,
    frame: u32,
    span: Span,
) -> Result<(), AllocError>
    ensures { IfOk result (λ _. Does (statement_part frame span (compound_tree body.now)) tt work.old work.new) }
{
    work.enter_block(span);
    let _number = check_compound(work, body, frame)?;
    Ok(())
}

/// The statements of the block of a frame and of its routines, once all declarations of the program are checked.
#[cycle(code)]
#[tactic(auto, using(check_steps::proofs::Runs::steps, pas_tree::proofs::BlockViews::block_view, pas_tree::proofs::StatementViews::compound_view, crate::proofs::Walks::routines_each))]
pub fn check_code(work: &mut Work, b: &Block, frame: u32) -> Result<(), AllocError>
    ensures { IfOk result (λ _. Does (code_block frame (block_tree b.now)) tt work.old work.new) }
{
    reach_all(work, &b.body.statements, frame);
    check_routines(work, &b.routines)?;
    check_statement_part(work, &b.body, frame, span_of(b))?;
    Ok(())
}

#[cycle(code)]
#[tactic(auto, using(check_steps::proofs::Runs::loops))]
fn check_routines(work: &mut Work, routines: &[Routine]) -> Result<(), AllocError>
    ensures { IfOk result (λ _. Does (each code_next_routine tt routines.now) tt work.old work.new) }
{
    'routines: for routine in routines {
        check_routine(work, routine)?;
    }
    Ok(())
}

#[cycle(code)]
#[tactic(auto, unfolding(crate::specs::Blocks::code_next_routine))]
fn check_routine(work: &mut Work, routine: &Routine) -> Result<(), AllocError>
    ensures { IfOk result (λ _. Does (code_next_routine tt routine.now) tt work.old work.new) }
{
    let function = is_function(&routine.heading);
    let name = heading_name(&routine.heading);
    check_body(work, &routine.body, function, name)
}

/// What stands after the heading of a function or a procedure with this name.
#[cycle(code)]
#[tactic(auto, using(check_steps::proofs::Runs::steps))]
fn check_body(
    work: &mut Work,
    body: &RoutineBody,
    function: bool,
    name: u32,
) -> Result<(), AllocError>
    ensures { IfOk result (λ _. Does (code_body function name (body_tree body.now)) tt work.old work.new) }
{
    match body {
        RoutineBody::Directive(_) => Ok(()),
        RoutineBody::Block(block) => {
            let frame = own_frame(&work.tables, name_in_first(&work.tables, name));
            check_code(work, block, frame)?;
            check_result(work, function, name);
            Ok(())
        }
    }
}
