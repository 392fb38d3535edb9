//! Selectors of case statements (6.8.3.5).

ghost use Rattle.std.specs.Prelude.{◌≡◌};
ghost use Rattle.check_steps.specs.Steps.{Does};
ghost use Rattle.statement_checker.specs.Choices.{case_row, host_or, selector};

use crate::sequences::{line_of, put_statement};
use check_steps::Work;
use core_program::rows::StatementRow;
use denoter_checker::variants::Choosing;
use expression_checker::Typed;
use kind_checker::Shape;
use kind_checker::operators::is_ordinal;
use kind_checker::shapes::shape_of;

fn host_or(shape: Shape, otherwise: u32) -> u32
    ensures { result ≡ host_or shape otherwise }
{
    match shape {
        Shape::Ordinal(host) => host,
        _ => otherwise,
    }
}

/// The selector of a case statement, which begins at a first token and ends before the word `of`: what is given is
/// what the constants of the statement have in common.
#[tactic(auto, using(check_steps::proofs::Runs::steps), unfolding(crate::specs::Choices::selector))]
pub fn check_selector(work: &mut Work, frame: u32, of: u32, first: u32, value: Typed) -> Choosing
    ensures { Does (selector frame of first value) result work.old work.new }
{
    let shape = shape_of(&work.tables, value.of);
    work.late(6, first, is_ordinal(shape));
    Choosing {
        frame,
        host: host_or(shape, of),
        list: of,
    }
}

/// A case statement, at its word, with the list of the values that choose.
#[tactic(auto, using(check_steps::proofs::Runs::steps), unfolding(crate::specs::Choices::case_row))]
pub fn put_case(work: &mut Work, label: Option<u32>, word: u32, selector: u32, choices: u32) -> u32
    ensures { Does (case_row label word selector choices) result work.old work.new }
{
    let line = line_of(&work.tables, label, word);
    let row = StatementRow::Case {
        line,
        selector,
        choices,
    };
    put_statement(work, word, row)
}
