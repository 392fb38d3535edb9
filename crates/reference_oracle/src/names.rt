//! Variables by their names, in whose letters case does not count.

ghost use Rattle.std.specs.Prelude.{if◌then◌else◌, ◌≡◌, ℕ, IfOk, OnOk, Some};
ghost use Rattle.std.specs.{Global.Vec, Str.bytes_eq};
ghost use Rattle.core_program.specs.ProgramRows.{ProgramRows};
ghost use Rattle.reference_oracle.specs.{Matches.block_variables, Matches.namesake, Shapes.programs};
ghost use Rattle.reference_oracle.specs.NamesKept.{AreNamed, named_at, small_name};

use crate::matches::BlockVariable;
use cell_value::Memory;
use core_program::Program;
use std::alloc::Global;
use std::collections::BTreeMap;

/// The name that a token spells, in small letters.
fn small_name(alloc: Global, program: &Program, token: u32) -> Result<Vec<u8>, Memory>
    ensures { IfOk result (λ name. name.items ≡ small_name program.now token) }
{
    let name = program.text(token).to_ascii_lowercase(alloc)?;
    Ok(name)
}

/// What has a name is this variable from now on.
fn put(
    named: &mut BTreeMap<Vec<u8>, BlockVariable>,
    name: Vec<u8>,
    variable: BlockVariable,
) -> Result<(), Memory>
    ensures { OnOk result ((wanted : Vec ℕ) → named_at named.new wanted
        ≡ (if bytes_eq wanted.items name.items then Some variable else named_at named.old wanted)) }
{
    let _ = named.insert(name, variable)?;
    Ok(())
}

/// Variables of a program by their names: of several of one name the first.
pub(crate) fn by_name(
    alloc: Global,
    program: &Program,
    variables: &[BlockVariable],
) -> Result<BTreeMap<Vec<u8>, BlockVariable>, Memory>
    ensures { IfOk result (AreNamed program.now variables.now) }
{
    let mut named = BTreeMap::new(alloc);
    let mut at = variables.len();
    'each: while at > 0 {
        at -= 1;
        let name = small_name(alloc, program, variables[at].token)?;
        put(&mut named, name, variables[at])?;
    }
    Ok(named)
}

/// The variable with the name of one of another program.
pub(crate) fn namesake(
    alloc: Global,
    program: &Program,
    named: &BTreeMap<Vec<u8>, BlockVariable>,
    variable: BlockVariable,
) -> Result<Option<BlockVariable>, Memory>
    ensures { IfOk result (λ found. (p : ProgramRows) → AreNamed p (block_variables p) named.now
        → found ≡ namesake (programs program.now p) variable) }
{
    let name = small_name(alloc, program, variable.token)?;
    Ok(named.get(&name).copied())
}
