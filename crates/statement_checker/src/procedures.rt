//! Calls of required procedures (6.6.5, 6.9).

ghost use Rattle.std.specs.Prelude.{◌≡◌};
ghost use Rattle.pas_tree.specs.StatementTrees.{held_actuals_tree};
ghost use Rattle.check_steps.specs.Steps.{Does};
ghost use Rattle.statement_checker.specs.Procedures.{required_call};

use crate::actuals::RequiredCall;
use crate::moves::{check_pack_call, check_pointer};
use crate::transfers::{Transfer, check_page, check_transfer};
use check_steps::Work;
use core_program::rows::Required;
use pas_tree::statements::Actuals;

/// A call of a required procedure, seen from a frame: what is given is its number. A function is no procedure.
#[tactic(auto, using(check_steps::proofs::Runs::steps))]
pub fn check_required(
    work: &mut Work,
    actuals: &Option<Box<Actuals>>,
    frame: u32,
    required: Required,
    call: RequiredCall,
) -> u32
    ensures { Does (required_call required frame call (held_actuals_tree actuals.now)) result work.old work.new }
{
    match required {
        Required::Read => check_transfer(work, actuals, frame, Transfer::Reading, false, call),
        Required::Readln => check_transfer(work, actuals, frame, Transfer::Reading, true, call),
        Required::Write => check_transfer(work, actuals, frame, Transfer::Writing, false, call),
        Required::Writeln => check_transfer(work, actuals, frame, Transfer::Writing, true, call),
        Required::Page => check_page(work, actuals, frame, call),
        Required::New => check_pointer(work, actuals, frame, true, call),
        Required::Dispose => check_pointer(work, actuals, frame, false, call),
        Required::Pack => check_pack_call(work, actuals, frame, true, call),
        Required::Unpack => check_pack_call(work, actuals, frame, false, call),
        _ => call.name,
    }
}
