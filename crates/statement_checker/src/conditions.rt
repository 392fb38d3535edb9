//! Conditions (6.8.3.4, 6.8.3.7, 6.8.3.8).

ghost use Rattle.std.specs.Prelude.{◌≡◌};
ghost use Rattle.check_steps.specs.Steps.{Does};
ghost use Rattle.statement_checker.specs.Conditions.{condition, is_condition};

use check_steps::{Tables, Work};
use core_program::rows::BOOLEAN;
use expression_checker::Typed;
use kind_checker::operators::is_operand;
use kind_checker::shapes::shape_of;

fn is_condition(tables: &Tables, value: Typed) -> bool
    ensures { result ≡ is_condition tables.now value }
{
    is_operand(BOOLEAN, shape_of(tables, value.of))
}

/// A condition, which begins at a first token.
#[tactic(auto, using(check_steps::proofs::Runs::steps), unfolding(crate::specs::Conditions::condition))]
pub fn check_condition(work: &mut Work, first: u32, value: Typed)
    ensures { Does (condition first value) tt work.old work.new }
{
    let fine = is_condition(&work.tables, value);
    work.late(17, first, fine);
}
