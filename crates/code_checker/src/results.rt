//! Functions get a result (6.6.2).

ghost use Rattle.std.specs.Prelude.{◌≡◌};
ghost use Rattle.check_steps.specs.Steps.{Does};
ghost use Rattle.code_checker.specs.Results.{function_result, has_result, name_in_first};

use check_steps::{Tables, Work};
use core_program::rows::{PartRow, Row};
use statement_checker::assignments::is_assigned;

/// The name in the first heading of a routine, by the name in one of its headings.
pub fn name_in_first(tables: &Tables, name: u32) -> u32
    ensures { result ≡ name_in_first tables.now name }
{
    match tables.row(name) {
        Row::Part(PartRow::Completing { first }) => first,
        _ => name,
    }
}

fn has_result(tables: &Tables, function: bool, name: u32) -> bool
    ensures { result ≡ has_result tables.now function name }
{
    !function || is_assigned(tables, name_in_first(tables, name))
}

/// Rule 12, once the block was checked that stands after a heading with this name, of a function or not.
#[tactic(auto, using(check_steps::proofs::Runs::steps), unfolding(crate::specs::Results::function_result))]
pub fn check_result(work: &mut Work, function: bool, name: u32)
    ensures { Does (function_result function name) tt work.old work.new }
{
    let fine = has_result(&work.tables, function, name);
    work.late(12, name, fine);
}
