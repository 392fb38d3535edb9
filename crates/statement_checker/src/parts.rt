//! Statements without others inside, and what statements have of expressions and accesses (6.8.2, 6.8.3).

ghost use Rattle.std.specs.Prelude.{◌≡◌, IfOk};
ghost use Rattle.pas_tree.specs.ExpressionTrees.{access_tree, expression_tree};
ghost use Rattle.pas_tree.specs.StatementTrees.{actual_tree, actuals_tree, assignment_tree, held_actuals_tree};
ghost use Rattle.check_steps.specs.Steps.{Does, each};
ghost use Rattle.statement_checker.specs.Parts.{actuals_in, assigned_to, assignment, bounded, call_alone, call_as};
ghost use Rattle.statement_checker.specs.Parts.{call_statement, call_with, condition_row, declared_call, first_record};
ghost use Rattle.statement_checker.specs.Parts.{for_begins, for_ends, next_passed, next_record, passed_actual};
ghost use Rattle.statement_checker.specs.Parts.{selected, target_access, target_as};

use crate::actuals::{RequiredCall, check_no_width};
use crate::assignments::{
    Target, check_assigned, check_blockless_target, check_result_target, target_at,
};
use crate::calls::{check_procedure, put_call};
use crate::choices::check_selector;
use crate::conditions::check_condition;
use crate::loops::{Control, check_bound, enter_for, leave_for, put_for, put_turns};
use crate::procedures::check_required;
use crate::records::open_record;
use crate::sequences::{Element, add_element, line_of};
use check_steps::Work;
use core_program::rows::LIST_END;
use denoter_checker::variants::Choosing;
use expression_checker::actuals::access_name;
use expression_checker::callees::check_counted;
use expression_checker::expressions::{check_access, check_actual, check_expression, passing_to};
use expression_checker::threats::check_threat_alone;
use expression_checker::{Callee, Passing, Typed};
use pas_tree::expressions::{Access, Expression};
use pas_tree::first_of_expression;
use pas_tree::operators::Direction;
use pas_tree::statements::{Actual, Actuals, Assignment, NextAccess, NextActual};
use std::alloc::AllocError;

/// The selector of a case statement: what its constants have in common, and its own number.
#[derive(Clone, Copy)]
pub struct Selected {
    pub choosing: Choosing,
    pub row: u32,
}

/// A for statement up to its bounds: the control variable, and the bounds by their numbers.
#[derive(Clone, Copy)]
pub struct ForBounds {
    pub control: Control,
    pub initial: u32,
    pub last: u32,
}

/// The records of a with statement so far: the frame inside, and the last one.
#[derive(Clone, Copy)]
pub struct Opened {
    pub frame: u32,
    pub last: Element,
}

/// A condition, by its number.
#[tactic(auto, using(check_steps::proofs::Runs::steps), unfolding(crate::specs::Parts::condition_row))]
pub fn check_tested(work: &mut Work, e: &Expression, frame: u32) -> u32
    ensures { Does (condition_row frame (expression_tree e.now)) result work.old work.new }
{
    let value = check_expression(work, e, frame);
    check_condition(work, first_of_expression(e), value);
    value.row
}

/// A bound of a for statement, by its number.
#[tactic(auto, using(check_steps::proofs::Runs::steps), unfolding(crate::specs::Parts::bounded))]
fn check_bounded(work: &mut Work, e: &Expression, frame: u32, control: Control) -> u32
    ensures { Does (bounded frame control (expression_tree e.now)) result work.old work.new }
{
    let value = check_expression(work, e, frame);
    check_bound(work, control, first_of_expression(e), value);
    value.row
}

/// A for statement up to its bounds, which are inside of it.
#[tactic(auto, using(check_steps::proofs::Runs::steps), unfolding(crate::specs::Parts::for_begins))]
pub fn begin_for(
    work: &mut Work,
    frame: u32,
    name: u32,
    initial: &Expression,
    last: &Expression,
) -> Result<ForBounds, AllocError>
    ensures { IfOk result (λ b. Does (for_begins frame name (expression_tree initial.now) (expression_tree last.now)) b
        work.old work.new) }
{
    let control = enter_for(work, frame, name)?;
    let initial = check_bounded(work, initial, frame, control);
    let last = check_bounded(work, last, frame, control);
    Ok(ForBounds {
        control,
        initial,
        last,
    })
}

/// The same after its body: what is given is its number.
#[tactic(auto, using(check_steps::proofs::Runs::steps), unfolding(crate::specs::Parts::for_ends))]
pub fn end_for(
    work: &mut Work,
    label: Option<u32>,
    word: u32,
    direction: &Direction,
    begun: ForBounds,
    body: u32,
) -> u32
    ensures { Does (for_ends label word direction.now begun body) result work.old work.new }
{
    leave_for(work, begun.control);
    let turns = put_turns(work, direction, begun.last, begun.control, body);
    put_for(work, label, word, begun.initial, turns)
}

/// The selector of a case statement before the word `of`.
#[tactic(auto, using(check_steps::proofs::Runs::steps), unfolding(crate::specs::Parts::selected))]
pub fn check_selected(work: &mut Work, e: &Expression, frame: u32, of: u32) -> Selected
    ensures { Does (selected frame of (expression_tree e.now)) result work.old work.new }
{
    let value = check_expression(work, e, frame);
    let choosing = check_selector(work, frame, of, first_of_expression(e), value);
    Selected {
        choosing,
        row: value.row,
    }
}

#[tactic(auto, using(check_steps::proofs::Runs::steps), unfolding(crate::specs::Parts::target_access))]
fn check_target_access(work: &mut Work, a: &Access, frame: u32) -> Typed
    ensures { Does (target_access frame (access_tree a.now)) result work.old work.new }
{
    check_threat_alone(work, frame, access_name(a));
    check_access(work, a, frame)
}

#[tactic(auto, using(check_steps::proofs::Runs::steps))]
fn check_target_as(work: &mut Work, a: &Access, frame: u32, target: Target) -> Typed
    ensures { Does (target_as frame (access_tree a.now) target) result work.old work.new }
{
    match target {
        Target::Access => check_target_access(work, a, frame),
        Target::Result(result) => check_result_target(work, frame, a.name, result),
        Target::Blockless => check_blockless_target(work, a.name),
    }
}

/// What stands on the left of `:=`.
#[tactic(auto, using(check_steps::proofs::Runs::steps, expression_checker::proofs::Walks::name_items), unfolding(crate::specs::Parts::assigned_to))]
pub fn check_target(work: &mut Work, a: &Access, frame: u32) -> Typed
    ensures { Does (assigned_to frame (access_tree a.now)) result work.old work.new }
{
    let alone = a.selectors.len() == 0;
    work.come_to(frame);
    let target = target_at(&work.tables, frame, a.name, alone);
    check_target_as(work, a, frame, target)
}

/// An assignment, which may have a label: its number is that of the `:=`.
#[tactic(auto, using(check_steps::proofs::Runs::steps), unfolding(crate::specs::Parts::assignment))]
pub fn check_assignment(work: &mut Work, a: &Assignment, frame: u32, label: Option<u32>) -> u32
    ensures { Does (assignment frame label (assignment_tree a.now)) result work.old work.new }
{
    let target = check_target(work, &a.target, frame);
    let value = check_expression(work, &a.value, frame);
    let line = line_of(&work.tables, label, a.target.name);
    check_assigned(work, line, a.becomes, target, value)
}

/// An actual parameter of a procedure that is not required, at the parenthesis or the comma before it.
#[tactic(auto, using(check_steps::proofs::Runs::steps), unfolding(crate::specs::Parts::passed_actual))]
fn check_passed_actual(
    work: &mut Work,
    a: &Actual,
    frame: u32,
    passing: Passing,
    slot: u32,
) -> Passing
    ensures { Does (passed_actual frame passing slot (actual_tree a.now)) result work.old work.new }
{
    let next = check_actual(work, &a.expression, frame, passing, slot);
    check_no_width(work, &a.width, frame);
    next
}

#[tactic(auto, unfolding(crate::specs::Parts::next_passed))]
fn check_next_passed(work: &mut Work, n: &NextActual, frame: u32, passing: Passing) -> Passing
    ensures { Does (next_passed frame passing n.now) result work.old work.new }
{
    check_passed_actual(work, &n.actual, frame, passing, n.comma)
}

#[tactic(auto, using(check_steps::proofs::Runs::loops))]
fn check_more_passed(work: &mut Work, others: &[NextActual], frame: u32, first: Passing) -> Passing
    ensures { Does (each (next_passed frame) first others.now) result work.old work.new }
{
    let mut passing = first;
    'others: for other in others {
        passing = check_next_passed(work, other, frame, passing);
    }
    passing
}

#[tactic(auto, using(crate::proofs::Walks::actuals_counted))]
fn actuals_in(a: &Actuals) -> usize
    ensures { result ≡ actuals_in (actuals_tree a.now) }
{
    a.others.len() + 1
}

#[tactic(auto, using(check_steps::proofs::Runs::steps, crate::proofs::Walks::passed_each), unfolding(crate::specs::Parts::call_with))]
fn check_call_with(
    work: &mut Work,
    a: &Actuals,
    frame: u32,
    line: u32,
    name: u32,
    callee: Callee,
) -> u32
    ensures { Does (call_with frame line name callee (actuals_tree a.now)) result work.old work.new }
{
    let called = check_counted(work, name, callee, actuals_in(a));
    let first = passing_to(called, name);
    let passing = check_passed_actual(work, &a.first, frame, first, a.open);
    check_more_passed(work, &a.others, frame, passing);
    put_call(work, line, name, called.callee, a.open)
}

#[tactic(auto, using(check_steps::proofs::Runs::steps), unfolding(crate::specs::Parts::call_alone))]
fn check_call_alone(work: &mut Work, line: u32, name: u32, callee: Callee) -> u32
    ensures { Does (call_alone line name callee) result work.old work.new }
{
    let called = check_counted(work, name, callee, 0);
    put_call(work, line, name, called.callee, LIST_END)
}

#[tactic(auto, using(check_steps::proofs::Runs::steps))]
fn check_declared(
    work: &mut Work,
    actuals: &Option<Box<Actuals>>,
    frame: u32,
    line: u32,
    name: u32,
    callee: Callee,
) -> u32
    ensures { Does (declared_call frame line name callee (held_actuals_tree actuals.now)) result work.old work.new }
{
    match actuals {
        None => check_call_alone(work, line, name, callee),
        Some(actuals) => check_call_with(work, actuals, frame, line, name, callee),
    }
}

#[tactic(auto, using(check_steps::proofs::Runs::steps))]
fn check_call_as(
    work: &mut Work,
    actuals: &Option<Box<Actuals>>,
    frame: u32,
    line: u32,
    name: u32,
    callee: Callee,
) -> u32
    ensures { Does (call_as frame line name callee (held_actuals_tree actuals.now)) result work.old work.new }
{
    match callee {
        Callee::Required(required) => {
            check_required(work, actuals, frame, required, RequiredCall { name, line })
        }
        _ => check_declared(work, actuals, frame, line, name, callee),
    }
}

/// A procedure statement, which may have a label: its number is the procedure's name.
#[tactic(auto, using(check_steps::proofs::Runs::steps), unfolding(crate::specs::Parts::call_statement))]
pub fn check_call(
    work: &mut Work,
    actuals: &Option<Box<Actuals>>,
    frame: u32,
    label: Option<u32>,
    name: u32,
) -> u32
    ensures { Does (call_statement frame label name (held_actuals_tree actuals.now)) result work.old work.new }
{
    let callee = check_procedure(work, frame, name);
    let line = line_of(&work.tables, label, name);
    check_call_as(work, actuals, frame, line, name, callee)
}

/// The first record of a with statement, in the list at its word.
#[tactic(auto, using(check_steps::proofs::Runs::steps), unfolding(crate::specs::Parts::first_record))]
pub fn open_first_record(
    work: &mut Work,
    a: &Access,
    frame: u32,
    word: u32,
) -> Result<Opened, AllocError>
    ensures { IfOk result (λ o. Does (first_record frame word (access_tree a.now)) o work.old work.new) }
{
    let value = check_access(work, a, frame);
    let inner = open_record(work, frame, a.name, value)?;
    let last = Element {
        slot: word,
        item: value.row,
    };
    Ok(Opened { frame: inner, last })
}

#[tactic(auto, using(check_steps::proofs::Runs::steps), unfolding(crate::specs::Parts::another_record, crate::specs::Parts::next_record))]
fn open_next_record(work: &mut Work, n: &NextAccess, opened: Opened) -> Result<Opened, AllocError>
    ensures { IfOk result (λ o. Does (next_record opened n.now) o work.old work.new) }
{
    let value = check_access(work, &n.access, opened.frame);
    let inner = open_record(work, opened.frame, n.access.name, value)?;
    let last = add_element(work, opened.last, n.comma, value.row);
    Ok(Opened { frame: inner, last })
}

/// The records of a with statement after the first.
#[tactic(auto, using(check_steps::proofs::Runs::loops))]
pub fn open_more_records(
    work: &mut Work,
    others: &[NextAccess],
    first: Opened,
) -> Result<Opened, AllocError>
    ensures { IfOk result (λ o. Does (each next_record first others.now) o work.old work.new) }
{
    let mut opened = first;
    'others: for other in others {
        opened = open_next_record(work, other, opened)?;
    }
    Ok(opened)
}
