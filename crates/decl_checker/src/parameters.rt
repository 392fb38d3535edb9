//! Program parameters (6.10).

ghost use Rattle.std.specs.Prelude.{◌≡◌, IfOk, option_map};
ghost use Rattle.pas_tree.specs.{BlockTrees.parameters_tree, ConstantTrees.names_tree};
ghost use Rattle.check_steps.specs.Steps.{Does, each};
ghost use Rattle.kind_checker.specs.Names.{each_name, on_name};
ghost use Rattle.decl_checker.specs.Parameters.{define_file, program_parameter, program_parameters, spells};
ghost use Rattle.decl_checker.specs.Parameters.{text_file_named};

use check_steps::{Def, Definition, Tables, Work};
use core_program::rows::{NameRow, Row, TextFile};
use pas_tree::blocks::Parameters;
use pas_tree::constants::{Names, NextName};
use std::alloc::AllocError;

/// Whether the name that a token spells is this one, in small letters.
fn spells(tables: &Tables, token: u32, name: &[u8]) -> bool
    ensures { result ≡ spells tables.now token name.now }
{
    match tables.number_of(name) {
        Some(number) => number == tables.name(token),
        None => false,
    }
}

fn text_file_named(tables: &Tables, token: u32) -> Option<TextFile>
    ensures { result ≡ text_file_named tables.now token }
{
    if spells(tables, token, b"input") {
        Some(TextFile::Input)
    } else if spells(tables, token, b"output") {
        Some(TextFile::Output)
    } else {
        None
    }
}

#[tactic(auto, using(check_steps::proofs::Runs::steps))]
fn define_file(
    work: &mut Work,
    region: u32,
    token: u32,
    file: Option<TextFile>,
) -> Result<(), AllocError>
    ensures { IfOk result (λ _. Does (define_file region token file) tt work.old work.new) }
{
    match file {
        None => Ok(()),
        Some(file) => {
            let definition = Definition {
                def: Def::TextFile(token),
                token,
                end: token,
            };
            work.define_in(region, definition)?;
            work.put(token, Row::Name(NameRow::TextFile { file }));
            Ok(())
        }
    }
}

#[tactic(auto, using(check_steps::proofs::Runs::steps), unfolding(crate::specs::Parameters::program_parameter))]
fn check_parameter(work: &mut Work, region: u32, token: u32) -> Result<(), AllocError>
    ensures { IfOk result (λ _. Does (program_parameter region tt token) tt work.old work.new) }
{
    let file = text_file_named(&work.tables, token);
    work.early(34, token, file.is_some());
    define_file(work, region, token, file)?;
    Ok(())
}

#[tactic(auto, unfolding(kind_checker::specs::Names::on_name))]
fn check_next_parameter(work: &mut Work, region: u32, next: &NextName) -> Result<(), AllocError>
    ensures { IfOk result (λ _. Does (on_name (program_parameter region) tt next.now) tt work.old work.new) }
{
    check_parameter(work, region, next.name)
}

#[tactic(auto, using(check_steps::proofs::Runs::read_loops))]
fn check_more_parameters(work: &mut Work, region: u32, names: &[NextName]) -> Result<(), AllocError>
    ensures { IfOk result (λ _. Does (each (on_name (program_parameter region)) tt names.now) tt work.old work.new) }
{
    'names: for name in names {
        check_next_parameter(work, region, name)?;
    }
    Ok(())
}

#[tactic(auto, using(check_steps::proofs::Runs::steps))]
fn check_names(work: &mut Work, region: u32, names: &Names) -> Result<(), AllocError>
    ensures { IfOk result (λ _. Does (each_name (program_parameter region) tt (names_tree names.now)) tt work.old
        work.new) }
{
    check_parameter(work, region, names.first)?;
    check_more_parameters(work, region, &names.others)?;
    Ok(())
}

/// Defines the program parameters in the region of the program block.
#[tactic(auto, using(check_steps::proofs::Runs::steps))]
pub fn check_parameters(
    work: &mut Work,
    region: u32,
    part: &Option<Parameters>,
) -> Result<(), AllocError>
    ensures { IfOk result (λ _. Does (program_parameters region (option_map parameters_tree part.now)) tt work.old
        work.new) }
{
    match part {
        None => Ok(()),
        Some(part) => check_names(work, region, &part.names),
    }
}
