//! The required names, defined in the outermost region.

ghost use Rattle.std.specs.Prelude.{◌<◌, ◌≡◌, IfOk};
ghost use Rattle.core_program.specs.declared.rows.NameRow.TheVariants.{Required as Routine};
ghost use Rattle.check_steps.specs.Required.{all_names, arithmetic_names, constant_names, file_names, moving_names};
ghost use Rattle.check_steps.specs.Required.{open_outermost, ordinal_names, ordinal_types, reading_names, require};
ghost use Rattle.check_steps.specs.Required.{required_def, routine_names, type_names, writing_names};
ghost use Rattle.check_steps.specs.Steps.{Does};

use crate::regions::{Def, Definition};
use crate::work::Work;
use core_program::rows::{BOOLEAN, CHAR, INTEGER, NameRow, Required, Row, TextFile, TypeRow};
use std::alloc::{AllocError, Global};

fn required_def(row: NameRow, number: u32) -> Def
    ensures { result ≡ required_def row number }
{
    match row {
        NameRow::TypeName { .. } => Def::TypeName(number),
        NameRow::Constant { .. } => Def::Constant(number),
        NameRow::TextFile { .. } => Def::TextFile(number),
        _ => Def::Required(number),
    }
}

/// The required name of this number stands for this.
#[tactic(auto, using(crate::proofs::Runs::changes), unfolding(crate::specs::Required::require, crate::specs::Steps::when))]
fn require(work: &mut Work, name: u32, row: NameRow) -> Result<(), AllocError>
    requires { name < 26 }
    ensures { IfOk result (λ _. Does (require name row) tt work.old work.new) }
{
    let number = work.tables.tokens() + name;
    let held = work.tables.defined_in(0, name);
    work.put(number, Row::Name(row));
    match held {
        None => {
            let definition = Definition {
                def: required_def(row, number),
                token: number,
                end: 0,
            };
            work.add_definition(0, name, definition)?;
            Ok(())
        }
        Some(_) => Ok(()),
    }
}

#[tactic(auto, using(crate::proofs::Runs::steps), unfolding(crate::specs::Required::ordinal_types))]
fn put_ordinal_types(work: &mut Work)
    ensures { Does ordinal_types tt work.old work.new }
{
    let integer = TypeRow::Ordinal {
        least: -2_147_483_647,
        greatest: 2_147_483_647,
    };
    work.put(INTEGER, Row::Type(integer));
    let boolean = TypeRow::Ordinal {
        least: 0,
        greatest: 1,
    };
    work.put(BOOLEAN, Row::Type(boolean));
    let char = TypeRow::Ordinal {
        least: 0,
        greatest: 255,
    };
    work.put(CHAR, Row::Type(char));
}

#[tactic(auto, using(crate::proofs::Runs::steps), unfolding(crate::specs::Required::type_names))]
fn define_types(work: &mut Work) -> Result<(), AllocError>
    ensures { IfOk result (λ _. Does type_names tt work.old work.new) }
{
    require(work, 0, NameRow::TypeName { of: INTEGER })?;
    require(work, 1, NameRow::TypeName { of: BOOLEAN })?;
    require(work, 2, NameRow::TypeName { of: CHAR })?;
    Ok(())
}

#[tactic(auto, using(crate::proofs::Runs::steps), unfolding(crate::specs::Required::constant_names))]
fn define_constants(work: &mut Work) -> Result<(), AllocError>
    ensures { IfOk result (λ _. Does constant_names tt work.old work.new) }
{
    let (no, yes) = (
        NameRow::Constant {
            of: BOOLEAN,
            value: 0,
        },
        NameRow::Constant {
            of: BOOLEAN,
            value: 1,
        },
    );
    require(work, 3, no)?;
    require(work, 4, yes)?;
    let greatest = NameRow::Constant {
        of: INTEGER,
        value: 2_147_483_647,
    };
    require(work, 5, greatest)?;
    Ok(())
}

fn require_routine(work: &mut Work, name: u32, routine: Required) -> Result<(), AllocError>
    requires { name < 26 }
    ensures { IfOk result (λ _. Does (require name (Routine routine)) tt work.old work.new) }
{
    require(work, name, NameRow::Required { routine })
}

#[tactic(auto, using(crate::proofs::Runs::steps), unfolding(crate::specs::Required::arithmetic_names))]
fn define_arithmetic(work: &mut Work) -> Result<(), AllocError>
    ensures { IfOk result (λ _. Does arithmetic_names tt work.old work.new) }
{
    require_routine(work, 6, Required::Abs)?;
    require_routine(work, 7, Required::Sqr)?;
    require_routine(work, 8, Required::Odd)?;
    Ok(())
}

#[tactic(auto, using(crate::proofs::Runs::steps), unfolding(crate::specs::Required::ordinal_names))]
fn define_ordinal(work: &mut Work) -> Result<(), AllocError>
    ensures { IfOk result (λ _. Does ordinal_names tt work.old work.new) }
{
    require_routine(work, 9, Required::Ord)?;
    require_routine(work, 10, Required::Chr)?;
    require_routine(work, 11, Required::Succ)?;
    require_routine(work, 12, Required::Pred)?;
    Ok(())
}

#[tactic(auto, using(crate::proofs::Runs::steps), unfolding(crate::specs::Required::reading_names))]
fn define_reading(work: &mut Work) -> Result<(), AllocError>
    ensures { IfOk result (λ _. Does reading_names tt work.old work.new) }
{
    require_routine(work, 13, Required::Eof)?;
    require_routine(work, 14, Required::Eoln)?;
    require_routine(work, 15, Required::Read)?;
    require_routine(work, 16, Required::Readln)?;
    Ok(())
}

#[tactic(auto, using(crate::proofs::Runs::steps), unfolding(crate::specs::Required::writing_names))]
fn define_writing(work: &mut Work) -> Result<(), AllocError>
    ensures { IfOk result (λ _. Does writing_names tt work.old work.new) }
{
    require_routine(work, 17, Required::Write)?;
    require_routine(work, 18, Required::Writeln)?;
    require_routine(work, 19, Required::Page)?;
    Ok(())
}

#[tactic(auto, using(crate::proofs::Runs::steps), unfolding(crate::specs::Required::moving_names))]
fn define_moving(work: &mut Work) -> Result<(), AllocError>
    ensures { IfOk result (λ _. Does moving_names tt work.old work.new) }
{
    require_routine(work, 20, Required::New)?;
    require_routine(work, 21, Required::Dispose)?;
    require_routine(work, 22, Required::Pack)?;
    require_routine(work, 23, Required::Unpack)?;
    Ok(())
}

#[tactic(auto, using(crate::proofs::Runs::steps), unfolding(crate::specs::Required::file_names))]
fn define_files(work: &mut Work) -> Result<(), AllocError>
    ensures { IfOk result (λ _. Does file_names tt work.old work.new) }
{
    let input = NameRow::TextFile {
        file: TextFile::Input,
    };
    require(work, 24, input)?;
    let output = NameRow::TextFile {
        file: TextFile::Output,
    };
    require(work, 25, output)?;
    Ok(())
}

#[tactic(auto, using(crate::proofs::Runs::steps), unfolding(crate::specs::Required::routine_names))]
fn define_routines(work: &mut Work) -> Result<(), AllocError>
    ensures { IfOk result (λ _. Does routine_names tt work.old work.new) }
{
    define_arithmetic(work)?;
    define_ordinal(work)?;
    define_reading(work)?;
    define_writing(work)?;
    define_moving(work)?;
    Ok(())
}

#[tactic(auto, using(crate::proofs::Runs::steps), unfolding(crate::specs::Required::all_names))]
fn define_all(work: &mut Work) -> Result<(), AllocError>
    ensures { IfOk result (λ _. Does all_names tt work.old work.new) }
{
    define_types(work)?;
    define_constants(work)?;
    define_routines(work)?;
    define_files(work)?;
    Ok(())
}

/// The outermost region with all required names: what is given is the number of its frame.
#[tactic(auto, using(crate::proofs::Runs::steps), unfolding(crate::specs::Required::open_outermost))]
pub fn open_outermost(work: &mut Work, alloc: Global) -> Result<u32, AllocError>
    ensures { IfOk result (λ frame. Does open_outermost frame work.old work.new) }
{
    let frame = work.open_region(alloc, 0, None, 0)?;
    put_ordinal_types(work);
    define_all(work)?;
    Ok(frame)
}
