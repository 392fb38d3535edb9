//! Programs (6.10), and what is answered of their declarations.

ghost use Rattle.std.specs.Prelude.{◌≡◌, IfErr, IfOk};
ghost use Rattle.pas_tree.specs.BlockTrees.{program_tree};
ghost use Rattle.check_steps.specs.Steps.{Does};
ghost use Rattle.decl_checker.specs.{Answers.EarlyFaultIs, Answers.IsWithoutEarly, Programs.tables_of};
ghost use Rattle.decl_checker.specs.Programs.{broken_early, define_program, main_row, open_program, program_step};

use crate::answers::answer;
use crate::blocks::define_block;
use crate::parameters::check_parameters;
use crate::routines::{Entered, check_block};
use crate::scopes::Scopes;
use check_steps::required::open_outermost;
use check_steps::{CheckFault, Work};
use core_program::Routine;
use pas_lexer::Tokens;
use pas_tree::blocks::Tree;
use std::alloc::{AllocError, Global};

/// The program as routine 0, before its block is known.
fn main_row(name: u32) -> Routine
    ensures { result ≡ main_row name }
{
    Routine {
        name,
        heading: 0,
        level: 0,
        cells: 1,
        parameters: 1,
        result: None,
        statements: 0,
        line: 0,
    }
}

#[tactic(auto, using(check_steps::proofs::Runs::steps), unfolding(crate::specs::Programs::open_program))]
fn open_program(work: &mut Work, alloc: Global) -> Result<u32, AllocError>
    ensures { IfOk result (λ frame. Does open_program frame work.old work.new) }
{
    let outer = open_outermost(work, alloc)?;
    let frame = work.open_region(alloc, 0, Some(outer), 0)?;
    Ok(frame)
}

#[tactic(auto, using(check_steps::proofs::Runs::steps), unfolding(crate::specs::Programs::define_program))]
fn define_program(work: &mut Work, tree: &Tree, frame: u32) -> Result<(), AllocError>
    ensures { IfOk result (λ _. Does (define_program frame (program_tree tree.now)) tt work.old work.new) }
{
    let region = work.tables.frame(frame).region;
    check_parameters(work, region, &tree.parameters)?;
    define_block(work, &tree.block, frame)?;
    Ok(())
}

/// The declarations of a program, and the names in its statements; the frame of its block is given.
#[tactic(auto, using(check_steps::proofs::Runs::steps), unfolding(crate::specs::Programs::program_step))]
pub fn check_program(work: &mut Work, alloc: Global, tree: &Tree) -> Result<u32, AllocError>
    ensures { IfOk result (λ frame. Does (program_step (program_tree tree.now)) frame work.old work.new) }
{
    let frame = open_program(work, alloc)?;
    define_program(work, tree, frame)?;
    let number = work.add_routine(main_row(tree.name))?;
    let entered = Entered {
        number,
        frame,
        place: 1,
    };
    check_block(work, alloc, &tree.block, entered)?;
    Ok(frame)
}

/// The tables of a program as far as its declarations give them, or the first broken rule of those that can be told
/// from declarations and names alone: that at the first token, and at one token that of the least number. The tree is
/// the formed one that spells the tokens. It never answers `TooBig`.
pub fn declare(alloc: Global, tokens: &Tokens, tree: &Tree) -> Result<Scopes, CheckFault>
    ensures tables { IfOk result (λ s. s ≡ tables_of tokens.now (program_tree tree.now)) }
    ensures unbroken { IfOk result (λ _. IsWithoutEarly (broken_early tokens.now (program_tree tree.now))) }
    ensures fault { IfErr result (EarlyFaultIs (broken_early tokens.now (program_tree tree.now))) }
{
    let mut work = Work::new(alloc, tokens)?;
    check_program(&mut work, alloc, tree)?;
    answer(alloc, work)
}
