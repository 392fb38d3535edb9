//! The actual parameters of required procedures (6.6.5, 6.9).

ghost use Rattle.std.specs.Prelude.{◌≡◌, option_map};
ghost use Rattle.pas_tree.specs.StatementTrees.{actual_tree, actuals_tree, width_tree};
ghost use Rattle.check_steps.specs.Steps.{Does, each};
ghost use Rattle.expression_checker.specs.Actuals.{file_of};
ghost use Rattle.statement_checker.specs.Actuals.{actual_file, file_without, named_file, next_plain, no_width};
ghost use Rattle.statement_checker.specs.Actuals.{own_parts, plain_actual, surplus_width, without_actuals};
ghost use Rattle.statement_checker.specs.Actuals.{wrong_number};

use check_steps::{Tables, Work};
use core_program::rows::TextFile;
use expression_checker::Typed;
use expression_checker::actuals::{file_of, name_alone};
use expression_checker::expressions::check_expression;
use pas_tree::statements::{Actual, Actuals, NextActual, Width};

/// A call of a required procedure.
#[derive(Clone, Copy)]
pub struct RequiredCall {
    /// The procedure's name, which is the number of the call.
    pub name: u32,
    /// The line of the statement.
    pub line: u32,
}

#[tactic(auto, using(check_steps::proofs::Runs::steps), unfolding(crate::specs::Actuals::surplus_width))]
fn check_surplus_width(work: &mut Work, w: &Width, frame: u32)
    ensures { Does (surplus_width frame (width_tree w.now)) tt work.old work.new }
{
    check_expression(work, &w.width, frame);
    work.late(33, w.colon, false);
}

/// No width may stand here.
#[tactic(auto, using(check_steps::proofs::Runs::steps))]
pub fn check_no_width(work: &mut Work, width: &Option<Width>, frame: u32)
    ensures { Does (no_width frame (option_map width_tree width.now)) tt work.old work.new }
{
    match width {
        None => {}
        Some(width) => check_surplus_width(work, width, frame),
    }
}

/// An actual parameter without width, of which the own parts alone are checked.
#[tactic(auto, using(check_steps::proofs::Runs::steps), unfolding(crate::specs::Actuals::plain_actual))]
pub(crate) fn check_plain(work: &mut Work, a: &Actual, frame: u32) -> Typed
    ensures { Does (plain_actual frame (actual_tree a.now)) result work.old work.new }
{
    let value = check_expression(work, &a.expression, frame);
    check_no_width(work, &a.width, frame);
    value
}

#[tactic(auto, using(check_steps::proofs::Runs::steps), unfolding(crate::specs::Actuals::next_plain))]
fn check_next_plain(work: &mut Work, n: &NextActual, frame: u32)
    ensures { Does (next_plain frame tt n.now) tt work.old work.new }
{
    check_plain(work, &n.actual, frame);
}

#[tactic(auto, using(check_steps::proofs::Runs::loops))]
fn check_more_plain(work: &mut Work, others: &[NextActual], frame: u32)
    ensures { Does (each (next_plain frame) tt others.now) tt work.old work.new }
{
    'others: for other in others {
        check_next_plain(work, other, frame);
    }
}

#[tactic(auto, using(check_steps::proofs::Runs::steps, crate::proofs::Walks::plain_each), unfolding(crate::specs::Actuals::own_parts))]
fn check_own_parts(work: &mut Work, a: &Actuals, frame: u32)
    ensures { Does (own_parts frame (actuals_tree a.now)) tt work.old work.new }
{
    check_plain(work, &a.first, frame);
    check_more_plain(work, &a.others, frame);
}

/// A call with the wrong number of actual parameters, at the procedure's name.
#[tactic(auto, using(check_steps::proofs::Runs::steps), unfolding(crate::specs::Actuals::wrong_number))]
pub(crate) fn check_wrong_number(work: &mut Work, a: &Actuals, frame: u32, name: u32) -> u32
    ensures { Does (wrong_number frame name (actuals_tree a.now)) result work.old work.new }
{
    work.late(26, name, false);
    check_own_parts(work, a, frame);
    name
}

/// A call that lacks actual parameters, at the procedure's name.
#[tactic(auto, using(check_steps::proofs::Runs::steps), unfolding(crate::specs::Actuals::without_actuals))]
pub(crate) fn check_without_actuals(work: &mut Work, name: u32) -> u32
    ensures { Does (without_actuals name) result work.old work.new }
{
    work.late(26, name, false);
    name
}

fn named_file(tables: &Tables, frame: u32, name: Option<u32>) -> Option<TextFile>
    ensures { result ≡ named_file tables.now frame name }
{
    match name {
        None => None,
        Some(name) => file_of(tables, tables.usable(frame, name, name)),
    }
}

fn file_without(width: &Option<Width>, file: Option<TextFile>) -> Option<TextFile>
    ensures { result ≡ file_without (option_map width_tree width.now) file }
{
    match width {
        None => file,
        Some(_) => None,
    }
}

/// The text file that an actual parameter without width names.
pub(crate) fn actual_file(tables: &Tables, frame: u32, a: &Actual) -> Option<TextFile>
    ensures { result ≡ actual_file tables.now frame (actual_tree a.now) }
{
    let file = named_file(tables, frame, name_alone(&a.expression));
    file_without(&a.width, file)
}
