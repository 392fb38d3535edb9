//! Statements: what goes on after a part of one.

ghost use Rattle.std.specs.Prelude.{if◌then◌else◌, ◌+◌, ◌≡◌};
ghost use Rattle.core_program.specs.{ProgramRows.ProgramRows, Tree.bind};
ghost use Rattle.core_program.specs.Statements as statements;
ghost use Rattle.eval_ops.specs.Machines.{IsReady, moment_of};
ghost use Rattle.evaluator.specs.{Rest.from, Rest.from_under, Rest.here, Rest.waiting, Turns.Leads, Turns.Moves};
ghost use Rattle.evaluator.specs.{Turns.continuing, Weight.Falls, Weight.body_weight, Weight.come, Weight.tasks_weight};

use crate::body::{Body, Turned};
use crate::counting::{first_turn, turn_ended};
use crate::statements::by_value;
use crate::tasks::{ChoiceTask, Next, Now, Part, Task, Way};
use cell_value::{Kind, Value};
use core_program::Program;
use eval_ops::{CaseOutcome, Halt, Machine, case_of, end_line, is_true};
use std::alloc::Global;

/// A statement goes on by the value of its condition, its index or a bound.
pub fn continue_statement(
    body: &mut Body,
    alloc: Global,
    program: &Program,
    machine: &mut Machine,
    choice: ChoiceTask,
    value: Value,
) -> Turned
    requires ready { IsReady machine.old }
    ensures moves { Moves program.now (continuing program.now body.old (moment_of machine.old) (Way.Scalar value)
        (Task.Choice choice)) result body.new (moment_of machine.new) }
    ensures ready { IsReady machine.new }
{
    match choice {
        ChoiceTask::If { then, line } => {
            let part = Part::Exec { row: then, line };
            body.either(is_true(value), Now::Begin(part), Now::Came(Way::Nothing))
        }
        ChoiceTask::IfElse {
            then,
            otherwise,
            line,
        } => {
            let part = Part::Exec { row: then, line };
            let other = Part::Exec {
                row: otherwise,
                line,
            };
            body.either(is_true(value), Now::Begin(part), Now::Begin(other))
        }
        ChoiceTask::Case { choices, line } => choose_case(body, program, choices, line, value),
        ChoiceTask::While {
            row,
            body: inner,
            line,
        } => again(body, is_true(value), row, inner, line),
        ChoiceTask::Until { row, line } => {
            let part = Part::Turn { row, line };
            body.either(is_true(value), Now::Came(Way::Nothing), Now::Begin(part))
        }
        ChoiceTask::First { last, turns, line } => {
            body.hold(
                value,
                Task::Choice(ChoiceTask::Last { turns, line }),
                Now::Begin(Part::Eval { row: last, line }),
            )
        }
        ChoiceTask::Last { turns, line } => {
            let first = body.take_value();
            first_turn(body, alloc, program, machine, turns, line, first, value)
        }
    }
}

/// A turn of a while statement begins, if its condition holds, and else the statement has ended.
#[inline(always)]
fn again(body: &mut Body, taken: bool, row: u32, inner: u32, line: u32) -> Turned
    ensures turns { (p : ProgramRows) → Leads p (if taken then from_under p body.old (Now.Begin (Part.Exec inner line))
        (Task.Next (Next.Again row line)) else from p body.old (Now.Came Way.Nothing)) result body.new }
    ensures falls { Falls result (body_weight body.new) (come + 1 + tasks_weight body.old) }
    ensures home { body.new.home ≡ body.old.home }
{
    if taken {
        body.wait(
            Task::Next(Next::Again { row, line }),
            Now::Begin(Part::Exec { row: inner, line }),
        )
    } else {
        body.go(Now::Came(Way::Nothing))
    }
}

/// A case statement goes on by the value of its index: with the statement that it chooses, if there is one.
fn choose_case(body: &mut Body, program: &Program, choices: u32, line: u32, value: Value) -> Turned
    ensures turns { Leads program.now (bind (statements.chosen_by program.now (here body.old.home line) choices value)
        (waiting program.now body.old)) result body.new }
    ensures falls { Falls result (body_weight body.new) (come + 1 + tasks_weight body.old) }
    ensures home { body.new.home ≡ body.old.home }
{
    match case_of(program, choices, value) {
        CaseOutcome::Statement(row) => body.go(Now::Begin(Part::Exec { row, line })),
        CaseOutcome::NoCase => body.fail(line, Halt::Fault(Kind::NoCase)),
        CaseOutcome::NoNumber => body.fail(line, Halt::Fault(Kind::Undefined)),
        CaseOutcome::Broken => body.no_row(),
    }
}

/// A statement has ended, and the one around it goes on.
pub fn follow_statement(
    body: &mut Body,
    alloc: Global,
    program: &Program,
    machine: &mut Machine,
    next: Next,
) -> Turned
    requires ready { IsReady machine.old }
    ensures moves { Moves program.now (continuing program.now body.old (moment_of machine.old) Way.Nothing (Task.Next
        next)) result body.new (moment_of machine.new) }
    ensures ready { IsReady machine.new }
{
    match next {
        Next::Sequence { first, at, line } => {
            body.go(Now::Begin(Part::Sequence { first, at, line }))
        }
        Next::Labelled { .. } => body.go(Now::Came(Way::Nothing)),
        Next::Again { row, line } => body.go(Now::Begin(Part::Turn { row, line })),
        Next::Condition {
            row,
            condition,
            line,
        } => by_value(body, line, condition, ChoiceTask::Until { row, line }),
        Next::Counted { row, line } => {
            let last = body.take_value();
            let value = body.take_value();
            turn_ended(body, alloc, program, machine, row, line, value, last)
        }
        Next::Forget => body.go(Now::Came(Way::Nothing)),
        Next::PassLine { line } => body.go(Now::Begin(Part::RestOfLine { line })),
        Next::EndLine { line } => {
            let done = end_line(machine);
            body.finally(line, done)
        }
    }
}
