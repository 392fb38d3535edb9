//! Statements: what begins.

ghost use Rattle.std.specs.Prelude.{◌+◌, ◌≡◌, ℕ};
ghost use Rattle.core_program.specs.{Acts.Spend, Cells.frame_out, ProgramRows.ProgramRows, ProgramRows.row_at};
ghost use Rattle.core_program.specs.Statements as statements;
ghost use Rattle.core_program.specs.Tree.{Do, Jump, Line, Ret, bind, doing};
ghost use Rattle.eval_ops.specs.Machines.{IsReady, moment_of};
ghost use Rattle.evaluator.specs.Rest.{carry_with, from, from_under, here, waiting};
ghost use Rattle.evaluator.specs.StatementFamilies.{of_conditional, of_procedure, of_repetitive};
ghost use Rattle.evaluator.specs.Turns.{Leads, Moves, Turns, before, beginning, configuration};
ghost use Rattle.evaluator.specs.Weight.{Falls, body_weight, come, left_with, measure_of, now_weight, operand_most};
ghost use Rattle.evaluator.specs.Weight.{part_weight, task_weight, tasks_weight};

use crate::body::{Body, Turned};
use crate::calls::begin_call;
use crate::heap::heap_statement;
use crate::tasks::{ChoiceTask, Next, Now, Part, Pause, Task, Way};
use crate::transfers::transfer_statement;
use crate::with_records::begin_record;
use core_program::Program;
use core_program::rows::{LIST_END, Row, StatementRow};
use eval_ops::{Machine, element_of, frame_out, line_of, spend, turns_of};
use std::alloc::Global;

/// A step of a statement on a line is taken, and then this is at work.
#[inline(always)]
fn step(body: &mut Body, machine: &mut Machine, line: u32, now: Now) -> Turned
    requires ready { IsReady machine.old }
    ensures turns { (p : ProgramRows) → Turns p (configuration (Do line (Spend 1) (λ _. from p body.old now))
        (moment_of machine.old)) result body.new (moment_of machine.new) }
    ensures falls { Falls result (left_with 1 (measure_of body.new machine.new))
        (left_with machine.old.steps (now_weight now + tasks_weight body.old + 1)) }
    ensures home { body.new.home ≡ body.old.home }
    ensures ready { IsReady machine.new }
{
    match spend(machine, 1) {
        Ok(()) => body.go(now),
        Err(halt) => body.fail(line, halt),
    }
}

/// A statement that is neither compound nor empty takes its step and tells its line.
fn tell(body: &mut Body, machine: &mut Machine, line: u32, row: u32) -> Turned
    requires ready { IsReady machine.old }
    ensures turns { (p : ProgramRows) → Turns p (configuration (Line line (from p body.old (Now.Carry row)))
        (moment_of machine.old)) result body.new (moment_of machine.new) }
    ensures falls { Falls result (measure_of body.new machine.new) 0 }
    ensures home { body.new.home ≡ body.old.home }
    ensures ready { IsReady machine.new }
{
    match spend(machine, 1) {
        Ok(()) => {
            body.now = Now::Carry(row);
            Ok(Some(Pause::Line(line)))
        }
        Err(halt) => body.fail(line, halt),
    }
}

/// A statement begins.
pub fn execute(
    body: &mut Body,
    program: &Program,
    machine: &mut Machine,
    row: u32,
    line: u32,
) -> Turned
    requires ready { IsReady machine.old }
    ensures moves { Moves program.now (beginning program.now body.old (moment_of machine.old) (Part.Exec row line))
        result body.new (moment_of machine.new) }
    ensures ready { IsReady machine.new }
{
    match program.row(row) {
        Row::Statement(statement) => begin_statement(body, machine, row, line, statement),
        _ => body.no_row(),
    }
}

/// A statement begins, by its row.
fn begin_statement(
    body: &mut Body,
    machine: &mut Machine,
    row: u32,
    line: u32,
    statement: StatementRow,
) -> Turned
    requires ready { IsReady machine.old }
    ensures moves { (p : ProgramRows) → row_at p row ≡ Row.Statement statement → Moves p (before body.old (moment_of
        machine.old) (bind (statements.statement p row (here body.old.home line) statement) (waiting p body.old))
        (part_weight (Part.Exec row line))) result body.new (moment_of machine.new) }
    ensures ready { IsReady machine.new }
{
    match statement {
        StatementRow::Empty => step(body, machine, line, Now::Came(Way::Nothing)),
        StatementRow::Compound { statements } => {
            let inside = Part::Sequence {
                first: statements,
                at: statements,
                line,
            };
            step(body, machine, line, Now::Begin(inside))
        }
        StatementRow::Labelled {
            label,
            statement: inner,
        } => {
            if row < inner {
                body.wait(
                    Task::Next(Next::Labelled { row, label, line }),
                    Now::Begin(Part::Exec { row: inner, line }),
                )
            } else {
                body.no_row()
            }
        }
        _ => match line_of(statement) {
            Some(own) => tell(body, machine, own, row),
            None => body.no_row(),
        },
    }
}

/// A statement whose step is taken and whose line is told.
pub fn carry(
    body: &mut Body,
    alloc: Global,
    program: &Program,
    machine: &mut Machine,
    row: u32,
) -> Turned
    requires ready { IsReady machine.old }
    ensures moves { Moves program.now (before body.old (moment_of machine.old) (from program.now body.old (Now.Carry
        row)) (now_weight (Now.Carry row))) result body.new (moment_of machine.new) }
    ensures ready { IsReady machine.new }
{
    match program.row(row) {
        Row::Statement(statement) => carry_on(body, alloc, program, machine, row, statement),
        _ => body.no_row(),
    }
}

/// A statement whose step is taken and whose line is told, by its row.
fn carry_on(
    body: &mut Body,
    alloc: Global,
    program: &Program,
    machine: &mut Machine,
    row: u32,
    statement: StatementRow,
) -> Turned
    requires ready { IsReady machine.old }
    ensures moves { Moves program.now (before body.old (moment_of machine.old) (bind (carry_with program.now
        body.old.home row statement (statements.line_of statement)) (waiting program.now body.old)) (now_weight
        (Now.Carry row))) result body.new (moment_of machine.new) }
    ensures ready { IsReady machine.new }
{
    match statement {
        StatementRow::Assign {
            line,
            target,
            value,
            of,
        } => body.wait(
            Task::Target { target, of, line },
            Now::Begin(Part::Eval { row: value, line }),
        ),
        StatementRow::Call { .. } => procedure_statement(body, alloc, statement),
        StatementRow::CallFormal { .. } => procedure_statement(body, alloc, statement),
        StatementRow::Goto {
            line,
            label,
            levels,
        } => jump(body, machine, label, levels, line),
        StatementRow::New { .. } => heap_statement(body, alloc, program, machine, statement),
        StatementRow::Dispose { .. } => heap_statement(body, alloc, program, machine, statement),
        StatementRow::If { .. } => conditional(body, statement),
        StatementRow::IfElse { .. } => conditional(body, statement),
        StatementRow::Case { .. } => conditional(body, statement),
        StatementRow::Repeat { .. } => repetitive(body, program, row, statement),
        StatementRow::While { .. } => repetitive(body, program, row, statement),
        StatementRow::For { .. } => repetitive(body, program, row, statement),
        StatementRow::With {
            line,
            records,
            body: inner,
        } => begin_record(body, program, records, inner, line),
        StatementRow::Read { .. } => transfer_statement(body, machine, statement),
        StatementRow::Write { .. } => transfer_statement(body, machine, statement),
        StatementRow::Page { .. } => transfer_statement(body, machine, statement),
        StatementRow::Pack { .. } => transfer_statement(body, machine, statement),
        _ => body.no_row(),
    }
}

/// A goto statement (6.8.2.4): the links lead to the frame of its label.
fn jump(body: &mut Body, machine: &mut Machine, label: u32, levels: u32, line: u32) -> Turned
    requires ready { IsReady machine.old }
    ensures moves { (p : ProgramRows) → Moves p (before body.old (moment_of machine.old) (bind (doing line (frame_out
        levels body.old.home.base) (λ base. Ret (Jump label base))) (waiting p body.old)) (come + 1)) result body.new
        (moment_of machine.new) }
    ensures ready { IsReady machine.new }
{
    match frame_out(machine, levels, body.home.base) {
        Ok(base) => body.go(Now::Came(Way::Jump(label, base))),
        Err(halt) => body.fail(line, halt),
    }
}

/// A procedure statement (6.8.2.3) whose line is told: its actual parameters begin.
fn procedure_statement(body: &mut Body, alloc: Global, statement: StatementRow) -> Turned
    ensures turns { (p : ProgramRows) (row : ℕ) → Leads p (bind (of_procedure p body.old.home row statement) (waiting p
        body.old)) result body.new }
    ensures falls { Falls result (body_weight body.new) (come + 10 + tasks_weight body.old) }
    ensures home { body.new.home ≡ body.old.home }
{
    match statement {
        StatementRow::Call {
            line,
            routine,
            levels,
            actuals,
        } => begin_call(
            body,
            alloc,
            Task::Call {
                procedure: true,
                routine,
                levels,
                line,
            },
            actuals,
            line,
        ),
        StatementRow::CallFormal {
            line,
            formal,
            levels,
            actuals,
        } => begin_call(
            body,
            alloc,
            Task::CallFormal {
                procedure: true,
                formal,
                levels,
                line,
            },
            actuals,
            line,
        ),
        _ => body.no_row(),
    }
}

/// A conditional statement (6.8.3.3) whose line is told: its condition or index begins.
fn conditional(body: &mut Body, statement: StatementRow) -> Turned
    ensures turns { (p : ProgramRows) (row : ℕ) → Leads p (bind (of_conditional p body.old.home row statement) (waiting
        p body.old)) result body.new }
    ensures falls { Falls result (body_weight body.new) (come + 10 + tasks_weight body.old) }
    ensures home { body.new.home ≡ body.old.home }
{
    match statement {
        StatementRow::If {
            line,
            condition,
            then,
        } => { by_value(body, line, condition, ChoiceTask::If { then, line }) }
        StatementRow::IfElse {
            line,
            condition,
            then,
            otherwise,
        } => {
            by_value(
                body,
                line,
                condition,
                ChoiceTask::IfElse {
                    then,
                    otherwise,
                    line,
                },
            )
        }
        StatementRow::Case {
            line,
            selector,
            choices,
        } => { by_value(body, line, selector, ChoiceTask::Case { choices, line }) }
        _ => body.no_row(),
    }
}

/// An expression of a statement begins, and the statement is to go on by its value.
#[inline(always)]
pub(crate) fn by_value(body: &mut Body, line: u32, expression: u32, choice: ChoiceTask) -> Turned
    ensures turns { (p : ProgramRows) → Leads p (from_under p body.old (Now.Begin (Part.Eval expression line))
        (Task.Choice choice)) result body.new }
    ensures falls { Falls result (body_weight body.new) (operand_most + task_weight (Task.Choice choice)
        + tasks_weight body.old) }
    ensures home { body.new.home ≡ body.old.home }
{
    let value = Part::Eval {
        row: expression,
        line,
    };
    body.wait(Task::Choice(choice), Now::Begin(value))
}

/// A repetitive statement (6.8.3.6) whose line is told: its first turn begins, or the bounds of a for statement.
fn repetitive(body: &mut Body, program: &Program, row: u32, statement: StatementRow) -> Turned
    ensures turns { Leads program.now (bind (of_repetitive program.now body.old.home row statement) (waiting program.now
        body.old)) result body.new }
    ensures falls { Falls result (body_weight body.new) (come + 10 + tasks_weight body.old) }
    ensures home { body.new.home ≡ body.old.home }
{
    match statement {
        StatementRow::Repeat { line, .. } => body.go(Now::Begin(Part::Turn { row, line })),
        StatementRow::While { line, .. } => body.go(Now::Begin(Part::Turn { row, line })),
        StatementRow::For {
            line,
            initial,
            turns,
        } => { begin_for(body, program, line, initial, turns) }
        _ => body.no_row(),
    }
}

/// A for statement begins: both bounds are evaluated before the first turn.
fn begin_for(body: &mut Body, program: &Program, line: u32, initial: u32, turns: u32) -> Turned
    ensures turns { Leads program.now (bind (statements.bounds program.now (here body.old.home line) initial turns
        (row_at program.now turns)) (waiting program.now body.old)) result body.new }
    ensures falls { Falls result (body_weight body.new) (come + tasks_weight body.old) }
    ensures home { body.new.home ≡ body.old.home }
{
    match turns_of(program, turns) {
        Some(counting) => {
            let first = ChoiceTask::First {
                last: counting.last,
                turns,
                line,
            };
            by_value(body, line, initial, first)
        }
        None => body.no_row(),
    }
}

/// The statements from an item on, of the sequence that begins with the first item.
pub fn sequence(body: &mut Body, program: &Program, first: u32, at: u32, line: u32) -> Turned
    ensures turns { Leads program.now (from program.now body.old (Now.Begin (Part.Sequence first at line))) result
        body.new }
    ensures falls { Falls result (body_weight body.new)
        (now_weight (Now.Begin (Part.Sequence first at line)) + tasks_weight body.old) }
    ensures home { body.new.home ≡ body.old.home }
{
    if at == LIST_END {
        return body.go(Now::Came(Way::Nothing));
    }
    match element_of(program.row(at)) {
        Some((item, next)) => body.wait(
            Task::Next(Next::Sequence {
                first,
                at: next,
                line,
            }),
            Now::Begin(Part::Exec { row: item, line }),
        ),
        None => body.no_row(),
    }
}

/// A turn of a while or repeat statement.
pub fn turn_again(body: &mut Body, program: &Program, row: u32, line: u32) -> Turned
    ensures turns { Leads program.now (from program.now body.old (Now.Begin (Part.Turn row line))) result body.new }
    ensures falls { Falls result (body_weight body.new)
        (now_weight (Now.Begin (Part.Turn row line)) + tasks_weight body.old) }
    ensures home { body.new.home ≡ body.old.home }
{
    match program.row(row) {
        Row::Statement(statement) => turn_of(body, row, line, statement),
        _ => body.no_row(),
    }
}

/// A turn of a while or repeat statement, by its row.
fn turn_of(body: &mut Body, row: u32, line: u32, statement: StatementRow) -> Turned
    ensures turns { (p : ProgramRows) → Leads p (bind (statements.of_turn row (here body.old.home line) (Row.Statement
        statement)) (waiting p body.old)) result body.new }
    ensures falls { Falls result (body_weight body.new) (come + 4 + tasks_weight body.old) }
    ensures home { body.new.home ≡ body.old.home }
{
    match statement {
        StatementRow::While {
            condition,
            body: inner,
            ..
        } => {
            by_value(
                body,
                line,
                condition,
                ChoiceTask::While {
                    row,
                    body: inner,
                    line,
                },
            )
        }
        StatementRow::Repeat {
            statements,
            condition,
            ..
        } => body.wait(
            Task::Next(Next::Condition {
                row,
                condition,
                line,
            }),
            Now::Begin(Part::Sequence {
                first: statements,
                at: statements,
                line,
            }),
        ),
        _ => body.no_row(),
    }
}
