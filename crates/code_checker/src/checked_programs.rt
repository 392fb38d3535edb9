//! The whole check of a program (6.10).

ghost use Rattle.std.specs.Prelude.{◌≡◌, [], IfErr, IfOk, true};
ghost use Rattle.pas_tree.specs.BlockTrees.{program_tree};
ghost use Rattle.core_program.specs.WholeTables.{WholeTables};
ghost use Rattle.run_laws.specs.LaidOut.{LaidOut};
ghost use Rattle.check_steps.specs.{Breaks.FaultIs, Steps.Does};
ghost use Rattle.code_checker.specs.CheckedPrograms.{broken, check_step, program_of};

use crate::answers::answer;
use crate::blocks::check_code;
use check_steps::{CheckFault, Work};
use core_program::{Program, ProgramTables};
use decl_checker::check_program;
use pas_lexer::Tokens;
use pas_tree::blocks::Tree;
use run_laws::is_laid_out;
use std::alloc::{AllocError, Global};
use whole_tables::is_whole;

/// The declarations of a program, and then the statements of its blocks.
#[tactic(auto, using(check_steps::proofs::Runs::steps), unfolding(crate::specs::CheckedPrograms::check_step))]
fn check_tree(work: &mut Work, alloc: Global, tree: &Tree) -> Result<(), AllocError>
    ensures { IfOk result (λ _. Does (check_step (program_tree tree.now)) tt work.old work.new) }
{
    let frame = check_program(work, alloc, tree)?;
    check_code(work, &tree.block, frame)?;
    Ok(())
}

/// The tables that a check of a tree leaves, or why the tree denotes no program.
fn known_tables(alloc: Global, tokens: &Tokens, tree: &Tree) -> Result<ProgramTables, CheckFault>
    ensures program { IfOk result (λ p. p ≡ program_of tokens.now (program_tree tree.now)) }
    ensures unbroken { IfOk result (λ _. broken tokens.now (program_tree tree.now) ≡ []) }
    ensures fault { IfErr result (FaultIs (broken tokens.now (program_tree tree.now))) }
{
    let mut work = Work::new(alloc, tokens)?;
    check_tree(&mut work, alloc, tree)?;
    answer(work)
}

/// Whether tables are whole and laid out.
fn are_whole_and_laid(alloc: Global, tables: &ProgramTables) -> Result<bool, AllocError>
    ensures whole { IfOk result (λ both. both ≡ true → WholeTables tables.now) }
    ensures laid { IfOk result (λ both. both ≡ true → LaidOut tables.now) }
{
    let whole = is_whole(alloc, tables)?;
    Ok(whole && is_laid_out(tables))
}

/// The program that a tree denotes, or why it denotes none. The tree is the formed one that spells the tokens.
///
/// `Rule` has the first broken rule and its token. Rules that can be told from declarations and names alone come before
/// the others, then the order is that of the tokens, and at one token that of the rules' numbers. `TooBig` comes where
/// no rule is broken: it has the first token of the names of variables and value parameters whose type needs more than
/// 65,536 cells, and of the arguments of `new` whose pointer's domain does. `Memory` comes where memory ran out, and
/// would come of tables that are not whole or not laid out: those of a program are both.
pub fn check(alloc: Global, tokens: &Tokens, tree: &Tree) -> Result<Program, CheckFault>
    ensures program { IfOk result (λ p. p ≡ program_of tokens.now (program_tree tree.now)) }
    ensures laid { IfOk result (λ p. LaidOut p) }
    ensures unbroken { IfOk result (λ _. broken tokens.now (program_tree tree.now) ≡ []) }
    ensures fault { IfErr result (FaultIs (broken tokens.now (program_tree tree.now))) }
{
    let tables = known_tables(alloc, tokens, tree)?;
    if are_whole_and_laid(alloc, &tables)? {
        let program = Program::new(alloc, tables)?;
        Ok(program)
    } else {
        // No source is known whose tables are not whole or not laid out. One would be told as if memory had run out.
        Err(CheckFault::Memory)
    }
}
