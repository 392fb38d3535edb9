//! What is answered of a program that was checked.

ghost use Rattle.std.specs.Prelude.{◌≡◌, IfErr, IfOk, None, Some};
ghost use Rattle.check_steps.specs.{Breaks.fault_of, declared.breaks.Break.Break};

use check_steps::{CheckFault, Work};
use core_program::ProgramTables;

/// The tables that a check has left, or what is to be told of the first of the broken rules.
pub(crate) fn answer(work: Work) -> Result<ProgramTables, CheckFault>
    ensures program { IfOk result (λ p. p ≡ work.tables.program) }
    ensures unbroken { IfOk result (λ _. work.least ≡ None) }
    ensures fault { IfErr result (λ e. (b : Break) × (work.least ≡ Some b) × (e ≡ fault_of b)) }
{
    let Work { least, tables } = work;
    match least {
        Some(first) => Err(first.fault()),
        None => Ok(tables.into_program()),
    }
}
