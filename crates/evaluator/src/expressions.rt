//! Expressions.

ghost use Rattle.std.specs.Prelude.{◌*◌, ◌+◌, ◌≡◌};
ghost use Rattle.core_program.specs.{Expressions.of_expression, ProgramRows.ProgramRows, Tree.bind};
ghost use Rattle.eval_ops.specs.{Machines.IsReady, Machines.moment_of, Operators.dyadic_of};
ghost use Rattle.evaluator.specs.ExpressionFamilies.{of_designator, of_monadic, of_operation, of_other};
ghost use Rattle.evaluator.specs.Rest.{from_under, here, waiting};
ghost use Rattle.evaluator.specs.Turns.{Leads, Moves, before, beginning};
ghost use Rattle.evaluator.specs.Weight.{Falls, body_weight, come, task_weight, tasks_weight};

use crate::accesses::locate_component;
use crate::body::{Body, Turned};
use crate::calls::begin_call;
use crate::sets::{gather_from, gather_member, give_string};
use crate::tasks::{Located, Now, OperandTask, Part, Task, Way};
use cell_value::{OpFault, Value, arith};
use core_program::Program;
use core_program::rows::{ExpressionRow, Row};
use eval_ops::{
    Dyadic, Machine, at_end, at_line_end, combine, combine_sets, compare_ordinals,
    compare_pointers, compare_sets, constant, dyadic_in, is_in, is_true, no_members,
    ordinal_function, passed, sign, spend, truth, type_accessed,
};
use std::alloc::Global;

/// A dyadic operator on two values.
fn apply(dyadic: Dyadic, left: Value, right: Value) -> Result<Value, OpFault>
    ensures { result ≡ dyadic_of dyadic left right }
{
    match dyadic {
        Dyadic::Arithmetic(operator) => arith(operator, left, right),
        Dyadic::Logic(operator) => Ok(truth(combine(operator, is_true(left), is_true(right)))),
        Dyadic::Compare(order) => compare_ordinals(order, left, right),
        Dyadic::Sets(operator) => combine_sets(operator, left, right),
        Dyadic::CompareSets(order) => compare_sets(order, left, right),
        Dyadic::In => is_in(left, right),
        Dyadic::ComparePointers { equal } => compare_pointers(equal, left, right),
    }
}

/// An expression begins.
pub fn evaluate(
    body: &mut Body,
    alloc: Global,
    program: &Program,
    machine: &mut Machine,
    row: u32,
    line: u32,
) -> Turned
    requires ready { IsReady machine.old }
    ensures moves { Moves program.now (beginning program.now body.old (moment_of machine.old) (Part.Eval row line))
        result body.new (moment_of machine.new) }
    ensures ready { IsReady machine.new }
{
    match program.row(row) {
        Row::Expression(expression) => match spend(machine, 1) {
            Ok(()) => begin_stepped(body, alloc, program, machine, expression, line),
            Err(halt) => body.fail(line, halt),
        },
        Row::Access(access) => body.wait(
            Task::Located(Located::Value {
                of: type_accessed(access),
                line,
            }),
            Now::Begin(Part::Locate {
                row,
                target: false,
                line,
            }),
        ),
        _ => body.no_row(),
    }
}

/// An expression whose step is taken: `eof` and `eoln` look at the input (6.6.6.5), and no other needs the machine.
fn begin_stepped(
    body: &mut Body,
    alloc: Global,
    program: &Program,
    machine: &mut Machine,
    expression: ExpressionRow,
    line: u32,
) -> Turned
    requires ready { IsReady machine.old }
    ensures moves { Moves program.now (before body.old (moment_of machine.old) (bind (of_expression program.now (here
        body.old.home line) expression) (waiting program.now body.old)) (2 * come)) result body.new (moment_of
        machine.new) }
    ensures ready { IsReady machine.new }
{
    match expression {
        ExpressionRow::Eof => {
            let done = at_end(machine);
            body.scalar(line, done)
        }
        ExpressionRow::Eoln => {
            let done = at_line_end(machine);
            body.scalar(line, done)
        }
        _ => begin_expression(body, alloc, program, expression, line),
    }
}

/// An expression whose step is taken, other than `eof` and `eoln`.
fn begin_expression(
    body: &mut Body,
    alloc: Global,
    program: &Program,
    expression: ExpressionRow,
    line: u32,
) -> Turned
    ensures turns { Leads program.now (bind (of_operation program.now (here body.old.home line) expression) (waiting
        program.now body.old)) result body.new }
    ensures falls { Falls result (body_weight body.new) (2 * come + tasks_weight body.old) }
    ensures home { body.new.home ≡ body.old.home }
{
    match dyadic_in(expression) {
        Some((dyadic, left, right)) => body.wait(
            Task::Operand(OperandTask::Right {
                dyadic,
                right,
                line,
            }),
            Now::Begin(Part::Eval { row: left, line }),
        ),
        None => other_expression(body, alloc, program, expression, line),
    }
}

/// An expression whose step is taken, without a dyadic operator on values of one cell.
fn other_expression(
    body: &mut Body,
    alloc: Global,
    program: &Program,
    expression: ExpressionRow,
    line: u32,
) -> Turned
    ensures turns { Leads program.now (bind (of_other program.now (here body.old.home line) expression) (waiting
        program.now body.old)) result body.new }
    ensures falls { Falls result (body_weight body.new) (2 * come + tasks_weight body.old) }
    ensures home { body.new.home ≡ body.old.home }
{
    match expression {
        ExpressionRow::Constant { value } => body.go(Now::Came(Way::Scalar(constant(value)))),
        ExpressionRow::Nil => body.go(Now::Came(Way::Scalar(Value::Nil))),
        ExpressionRow::Text { token } => give_string(body, alloc, program, token),
        ExpressionRow::CompareTexts { order, left, right } => body.wait(
            Task::TextRight { order, right, line },
            Now::Begin(Part::Eval { row: left, line }),
        ),
        ExpressionRow::Set { members } => gather_from(body, no_members(), members, line),
        ExpressionRow::Sign { .. } => monadic(body, expression, line),
        ExpressionRow::Not { .. } => monadic(body, expression, line),
        ExpressionRow::Function { .. } => monadic(body, expression, line),
        ExpressionRow::Apply { .. } => designator(body, alloc, expression, line),
        ExpressionRow::ApplyFormal { .. } => designator(body, alloc, expression, line),
        _ => body.no_row(),
    }
}

/// An expression whose step is taken, with a sign, `not` or a required function of an ordinal (6.7.2.2, 6.7.2.3,
/// 6.6.6): its operand begins.
fn monadic(body: &mut Body, expression: ExpressionRow, line: u32) -> Turned
    ensures turns { (p : ProgramRows) → Leads p (bind (of_monadic p (here body.old.home line) expression) (waiting p
        body.old)) result body.new }
    ensures falls { Falls result (body_weight body.new) (2 * come + tasks_weight body.old) }
    ensures home { body.new.home ≡ body.old.home }
{
    match expression {
        ExpressionRow::Sign { minus, operand } => body.wait(
            Task::Operand(OperandTask::Sign { minus, line }),
            Now::Begin(Part::Eval { row: operand, line }),
        ),
        ExpressionRow::Not { operand } => body.wait(
            Task::Operand(OperandTask::Not),
            Now::Begin(Part::Eval { row: operand, line }),
        ),
        ExpressionRow::Function {
            function,
            operand,
            least,
            greatest,
        } => body.wait(
            Task::Operand(OperandTask::Function {
                function,
                least,
                greatest,
                line,
            }),
            Now::Begin(Part::Eval { row: operand, line }),
        ),
        _ => body.no_row(),
    }
}

/// A function designator (6.7.3) whose step is taken: its actual parameters begin.
fn designator(body: &mut Body, alloc: Global, expression: ExpressionRow, line: u32) -> Turned
    ensures turns { (p : ProgramRows) → Leads p (bind (of_designator p (here body.old.home line) expression) (waiting p
        body.old)) result body.new }
    ensures falls { Falls result (body_weight body.new) (2 * come + tasks_weight body.old) }
    ensures home { body.new.home ≡ body.old.home }
{
    match expression {
        ExpressionRow::Apply {
            routine,
            levels,
            actuals,
        } => begin_call(
            body,
            alloc,
            Task::Call {
                procedure: false,
                routine,
                levels,
                line,
            },
            actuals,
            line,
        ),
        ExpressionRow::ApplyFormal {
            formal,
            levels,
            actuals,
        } => begin_call(
            body,
            alloc,
            Task::CallFormal {
                procedure: false,
                formal,
                levels,
                line,
            },
            actuals,
            line,
        ),
        _ => body.no_row(),
    }
}

/// An expression goes on by the value of an operand.
pub fn continue_expression(
    body: &mut Body,
    program: &Program,
    operand: OperandTask,
    value: Value,
) -> Turned
    ensures turns { Leads program.now (from_under program.now body.old (Now.Came (Way.Scalar value)) (Task.Operand
        operand)) result body.new }
    ensures falls { Falls result (body_weight body.new) (come + task_weight (Task.Operand operand)
        + tasks_weight body.old) }
    ensures home { body.new.home ≡ body.old.home }
{
    match operand {
        OperandTask::Sign { minus, line } => body.scalar(line, passed(sign(minus, value))),
        OperandTask::Not => body.go(Now::Came(Way::Scalar(truth(!is_true(value))))),
        OperandTask::Right {
            dyadic,
            right,
            line,
        } => body.hold(
            value,
            Task::Operand(OperandTask::Both { dyadic, line }),
            Now::Begin(Part::Eval { row: right, line }),
        ),
        OperandTask::Both { dyadic, line } => {
            let left = body.take_value();
            body.scalar(line, passed(apply(dyadic, left, value)))
        }
        OperandTask::Member { next, line } => gather_member(body, next, line, value),
        OperandTask::First { last, next, line } => body.hold(
            value,
            Task::Range { next, line },
            Now::Begin(Part::Eval { row: last, line }),
        ),
        OperandTask::Function {
            function,
            least,
            greatest,
            line,
        } => {
            let done = ordinal_function(function, least, greatest, value);
            body.scalar(line, passed(done))
        }
        OperandTask::Component { array, addr, line } => {
            let found = program.type_row(array);
            locate_component(body, program, found, addr, line, value)
        }
    }
}
