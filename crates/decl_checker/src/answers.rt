//! What is answered of a program whose declarations were checked.

ghost use Rattle.std.specs.Prelude.{◌≡◌, IfErr, IfOk, List, None};
ghost use Rattle.check_steps.specs.{Breaks.first_broken, Breaks.is_early, declared.breaks.Break.Break};
ghost use Rattle.decl_checker.specs.Answers.{EarlyFaultIs, HasFirst, IsWithoutEarly};

use crate::scopes::Scopes;
use check_steps::{Break, Broken, CheckFault, Work};
use std::alloc::Global;

fn is_early(first: &Break) -> bool
    ensures { result ≡ is_early first.now }
{
    match first.broken {
        Broken::Early(_) => true,
        _ => false,
    }
}

/// The tables that a check has left, or the first of the broken rules if that can be told from declarations and names
/// alone: each of those comes before all others.
pub(crate) fn answer(alloc: Global, work: Work) -> Result<Scopes, CheckFault>
    ensures tables { IfOk result (λ s. s ≡ work.tables) }
    ensures unbroken { IfOk result (λ _. (bs : List Break) → HasFirst bs work.least → IsWithoutEarly bs) }
    ensures fault { IfErr result (λ e. (bs : List Break) → HasFirst bs work.least → EarlyFaultIs bs e) }
{
    let Work { least, tables } = work;
    match least {
        Some(first) => {
            if is_early(&first) {
                return Err(first.fault());
            }
            Ok(Scopes::new(alloc, tables)?)
        }
        None => Ok(Scopes::new(alloc, tables)?),
    }
}
