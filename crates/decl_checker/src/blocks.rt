//! The parts of a block: the names that they define, and what they say of constants, types and variables (6.2.1).

ghost use Rattle.std.specs.Prelude.{◌≡◌, IfOk, option_map};
ghost use Rattle.pas_tree.specs.{BlockTrees.variable_part_tree, StatementTrees.compound_tree};
ghost use Rattle.pas_tree.specs.BlockTrees.{block_tree, constant_part_tree, routine_trees, type_part_tree};
ghost use Rattle.check_steps.specs.Steps.{Does};
ghost use Rattle.decl_checker.specs.Blocks.{after_types, constants, define_block, define_constants, define_types};
ghost use Rattle.decl_checker.specs.Blocks.{define_variables, first_word, parts, put_body, put_held, types, variables};
ghost use Rattle.decl_checker.specs.Blocks.{with_body, word_after};

use crate::labels::define_labels;
use check_steps::Work;
use core_program::Routine as RoutineRow;
use denoter_checker::define_routines;
use denoter_checker::parts::{check_types, check_variables, define_types, define_variables};
use kind_checker::constants::{check_constants, define_constants};
use pas_tree::blocks::{Block, ConstantPart, Routine, TypePart, VariablePart};
use pas_tree::heading_word;
use pas_tree::statements::Compound;
use std::alloc::{AllocError, Global};

#[tactic(auto, using(check_steps::proofs::Runs::steps))]
fn define_constant_part(
    work: &mut Work,
    region: u32,
    part: &Option<ConstantPart>,
) -> Result<(), AllocError>
    ensures { IfOk result (λ _. Does (define_constants region (option_map constant_part_tree part.now)) tt work.old
        work.new) }
{
    match part {
        None => Ok(()),
        Some(part) => define_constants(work, region, part),
    }
}

#[tactic(auto, using(check_steps::proofs::Runs::steps))]
fn define_type_part(work: &mut Work, region: u32, part: &Option<TypePart>) -> Result<(), AllocError>
    ensures { IfOk result (λ _. Does (define_types region (option_map type_part_tree part.now)) tt work.old work.new) }
{
    match part {
        None => Ok(()),
        Some(part) => define_types(work, region, part),
    }
}

#[tactic(auto, using(check_steps::proofs::Runs::steps))]
fn define_variable_part(
    work: &mut Work,
    region: u32,
    part: &Option<VariablePart>,
) -> Result<(), AllocError>
    ensures { IfOk result (λ _. Does (define_variables region (option_map variable_part_tree part.now)) tt work.old
        work.new) }
{
    match part {
        None => Ok(()),
        Some(part) => define_variables(work, region, part),
    }
}

/// Defines all names of a block in the region of a frame.
#[tactic(auto, using(check_steps::proofs::Runs::steps, pas_tree::proofs::BlockViews::block_view))]
pub fn define_block(work: &mut Work, b: &Block, frame: u32) -> Result<(), AllocError>
    ensures { IfOk result (λ _. Does (define_block frame (block_tree b.now)) tt work.old work.new) }
{
    let here = work.tables.frame(frame);
    define_labels(work, here, &b.labels)?;
    define_constant_part(work, here.region, &b.constants)?;
    define_type_part(work, here.region, &b.types)?;
    define_variable_part(work, here.region, &b.variables)?;
    define_routines(work, here.region, &b.routines)?;
    Ok(())
}

#[tactic(auto, using(check_steps::proofs::Runs::steps))]
fn check_constant_part(work: &mut Work, frame: u32, part: &Option<ConstantPart>)
    ensures { Does (constants frame (option_map constant_part_tree part.now)) tt work.old work.new }
{
    match part {
        None => {}
        Some(part) => check_constants(work, frame, part),
    }
}

#[tactic(auto, using(check_steps::proofs::Runs::steps))]
fn check_type_part(
    work: &mut Work,
    alloc: Global,
    part: &Option<TypePart>,
    frame: u32,
    after: u32,
) -> Result<(), AllocError>
    ensures { IfOk result (λ _. Does (types frame after (option_map type_part_tree part.now)) tt work.old work.new) }
{
    match part {
        None => Ok(()),
        Some(part) => check_types(work, alloc, part, frame, after),
    }
}

#[tactic(auto, using(check_steps::proofs::Runs::steps))]
fn check_variable_part(
    work: &mut Work,
    alloc: Global,
    part: &Option<VariablePart>,
    frame: u32,
    place: u32,
) -> Result<u32, AllocError>
    ensures { IfOk result (λ end. Does (variables frame place (option_map variable_part_tree part.now)) end work.old
        work.new) }
{
    match part {
        None => Ok(place),
        Some(part) => check_variables(work, alloc, part, frame, place),
    }
}

#[tactic(auto, using(pas_tree::proofs::StatementViews::compound_view))]
fn first_word(routines: &[Routine], body: &Compound) -> u32
    ensures { result ≡ first_word (routine_trees routines.now) (compound_tree body.now) }
{
    match routines {
        [] => body.begin,
        [first, ..] => heading_word(&first.heading),
    }
}

fn word_after(variables: &Option<VariablePart>, routines: &[Routine], body: &Compound) -> u32
    ensures { result ≡ word_after (option_map variable_part_tree variables.now) (routine_trees routines.now)
        (compound_tree body.now) }
{
    match variables {
        None => first_word(routines, body),
        Some(part) => part.word,
    }
}

/// The token after the part of types of a block.
#[tactic(auto, using(pas_tree::proofs::BlockViews::block_view))]
pub fn after_types(b: &Block) -> u32
    ensures { result ≡ after_types (block_tree b.now) }
{
    word_after(&b.variables, &b.routines, &b.body)
}

/// What the parts of a block say of constants, types and variables, seen from its frame, in which the variables have
/// places from this one on. What is given is the place after them.
#[tactic(auto, using(check_steps::proofs::Runs::steps, pas_tree::proofs::BlockViews::block_view))]
pub fn check_parts(
    work: &mut Work,
    alloc: Global,
    b: &Block,
    frame: u32,
    place: u32,
) -> Result<u32, AllocError>
    ensures { IfOk result (λ end. Does (parts frame place (block_tree b.now)) end work.old work.new) }
{
    check_constant_part(work, frame, &b.constants);
    let after = after_types(b);
    check_type_part(work, alloc, &b.types, frame, after)?;
    check_variable_part(work, alloc, &b.variables, frame, place)
}

fn with_body(routine: Option<RoutineRow>, cells: u32, begin: u32, line: u32) -> Option<RoutineRow>
    ensures { result ≡ with_body routine cells begin line }
{
    match routine {
        None => None,
        Some(routine) => Some(RoutineRow {
            cells,
            statements: begin,
            line,
            ..routine
        }),
    }
}

#[tactic(auto, using(check_steps::proofs::Runs::steps))]
fn put_held(work: &mut Work, number: u32, routine: Option<RoutineRow>)
    ensures { Does (put_held number routine) tt work.old work.new }
{
    match routine {
        None => {}
        Some(routine) => work.put_routine(number, routine),
    }
}

/// Puts down the cells of a routine's frame, and its statement part, which begins at a token.
#[tactic(auto, using(check_steps::proofs::Runs::steps), unfolding(crate::specs::Blocks::put_body))]
pub fn put_body(work: &mut Work, number: u32, cells: u32, begin: u32)
    ensures { Does (put_body number cells begin) tt work.old work.new }
{
    let line = work.tables.line(begin);
    let routine = with_body(work.tables.program().routine(number), cells, begin, line);
    put_held(work, number, routine);
}
