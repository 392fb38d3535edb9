//! Write statements: their actuals, one after the other (6.9.3).

ghost use Rattle.std.specs.Prelude.{◌+◌, ◌≡◌};
ghost use Rattle.core_program.specs.{Actions.Action, Actions.performs, Tree.ActTree, Tree.bind, Tree.doing};
ghost use Rattle.core_program.specs.Output as output;
ghost use Rattle.core_program.specs.ProgramRows.{ProgramRows, type_at};
ghost use Rattle.core_program.specs.Transfers as transfers;
ghost use Rattle.eval_ops.specs.Machines.{DoesAll, IsReady, Moment, moment_of};
ghost use Rattle.evaluator.specs.{Rest.top_list, Rest.values_of, Rest.waiting, TransferFamilies.host_in};
ghost use Rattle.evaluator.specs.Rest.{below_list, below_top, from, from_under, here, lists_of, resume, tasks_of};
ghost use Rattle.evaluator.specs.Turns.{Leads, Moves, before, continuing};
ghost use Rattle.evaluator.specs.Weight.{Falls, body_weight, come, now_weight, part_weight, tasks_weight};

use crate::body::{Body, Turned};
use crate::reading::locate_read;
use crate::tasks::{Now, Part, Task, TransferTask, Way};
use cell_value::Value;
use core_program::Program;
use core_program::rows::{ItemRow, LIST_END, Row, TypeRow};
use eval_ops::{Halt, Machine, write_scalar, write_string};
use std::alloc::Global;

/// The host of an ordinal type, by the number of its row: the type itself, or that of a subrange's constants.
pub(crate) fn host_of(program: &Program, of: u32) -> Option<u32>
    ensures { result ≡ host_in of (type_at program.now of) }
{
    match program.type_row(of) {
        Some(TypeRow::Ordinal { .. }) => Some(of),
        Some(TypeRow::Subrange { host, .. }) => Some(host),
        _ => None,
    }
}

/// An action on a line was done, and then this is at work, or it was not done.
pub(crate) fn go_after(body: &mut Body, line: u32, done: Result<(), Halt>, now: Now) -> Turned
    ensures moves { (p : ProgramRows) (a : Action (Unit {0})) (t : ActTree) (m m' : Moment)
        → bind t (waiting p body.old) ≡ from p body.old now → DoesAll (λ _. tt) (performs a m.state) done m m'
        → Moves p (before body.old m (bind (doing line a (λ _. t)) (waiting p body.old)) (now_weight now + 1)) result
        body.new m' }
{
    match done {
        Ok(()) => body.go(now),
        Err(halt) => body.fail(line, halt),
    }
}

/// The actuals of a write statement from an item on.
pub fn print(body: &mut Body, program: &Program, at: u32, line: u32) -> Turned
    ensures turns { Leads program.now (from program.now body.old (Now.Begin (Part.Print at line))) result body.new }
    ensures falls { Falls result (body_weight body.new)
        (part_weight (Part.Print at line) + tasks_weight body.old) }
    ensures home { body.new.home ≡ body.old.home }
{
    if at == LIST_END {
        return body.go(Now::Came(Way::Nothing));
    }
    match program.row(at) {
        Row::Item(item) => print_item(body, item, line),
        _ => body.no_row(),
    }
}

/// The same, by what kind of item it is.
fn print_item(body: &mut Body, item: ItemRow, line: u32) -> Turned
    ensures turns { (p : ProgramRows) → Leads p (bind (transfers.of_printed p (here body.old.home line) (Row.Item item))
        (waiting p body.old)) result body.new }
    ensures falls { Falls result (body_weight body.new) (come + 1 + tasks_weight body.old) }
    ensures home { body.new.home ≡ body.old.home }
{
    match item {
        ItemRow::Written { value, of, next } => {
            evaluate(body, value, TransferTask::Written { of, next, line }, line)
        }
        ItemRow::WrittenWide {
            value,
            of,
            width,
            next,
        } => {
            let wide = TransferTask::Wide {
                of,
                width,
                next,
                line,
            };
            evaluate(body, value, wide, line)
        }
        _ => body.no_row(),
    }
}

/// An expression of an actual begins, and the actual is to go on by its value.
#[inline(always)]
fn evaluate(body: &mut Body, expression: u32, transfer: TransferTask, line: u32) -> Turned
    ensures turns { (p : ProgramRows) → Leads p (from_under p body.old (Now.Begin (Part.Eval expression line))
        (Task.Transfer transfer)) result body.new }
    ensures falls { Falls result (body_weight body.new) (come + tasks_weight body.old) }
    ensures home { body.new.home ≡ body.old.home }
{
    let value = Part::Eval {
        row: expression,
        line,
    };
    body.wait(Task::Transfer(transfer), Now::Begin(value))
}

/// A value of a type with this host is written, in a width if one is given, and then comes the next actual.
fn write(
    body: &mut Body,
    machine: &mut Machine,
    host: u32,
    next: u32,
    line: u32,
    value: Value,
    width: Option<Value>,
) -> Turned
    requires ready { IsReady machine.old }
    ensures moves { (p : ProgramRows) → Moves p (before body.old (moment_of machine.old) (bind (transfers.print (here
        body.old.home line) next (output.scalar_text host value) width) (waiting p body.old)) (come + 2)) result
        body.new (moment_of machine.new) }
    ensures ready { IsReady machine.new }
{
    let done = write_scalar(machine, host, value, width);
    go_after(body, line, done, Now::Begin(Part::Print { at: next, line }))
}

/// A value of a type is written without a width, and then comes the next actual.
fn write_plain(
    body: &mut Body,
    program: &Program,
    machine: &mut Machine,
    of: u32,
    next: u32,
    line: u32,
    value: Value,
) -> Turned
    requires ready { IsReady machine.old }
    ensures moves { Moves program.now (before body.old (moment_of machine.old) (from_under program.now body.old
        (Now.Came (Way.Scalar value)) (Task.Transfer (TransferTask.Written of next line))) (come + 2)) result body.new
        (moment_of machine.new) }
    ensures ready { IsReady machine.new }
{
    match host_of(program, of) {
        Some(host) => write(body, machine, host, next, line, value, None),
        None => body.no_row(),
    }
}

/// A value of a type waits for the width in which it is written.
fn begin_width(
    body: &mut Body,
    program: &Program,
    of: u32,
    width: u32,
    next: u32,
    line: u32,
    value: Value,
) -> Turned
    ensures turns { Leads program.now (from_under program.now body.old (Now.Came (Way.Scalar value)) (Task.Transfer
        (TransferTask.Wide of width next line))) result body.new }
    ensures falls { Falls result (body_weight body.new) (come + 2 + tasks_weight body.old) }
    ensures home { body.new.home ≡ body.old.home }
{
    match host_of(program, of) {
        Some(host) => body.hold(
            value,
            Task::Transfer(TransferTask::Width { host, next, line }),
            Now::Begin(Part::Eval { row: width, line }),
        ),
        None => body.no_row(),
    }
}

/// The value that waited is written in a width, and then comes the next actual.
fn write_waiting(
    body: &mut Body,
    machine: &mut Machine,
    host: u32,
    next: u32,
    line: u32,
    width: Value,
) -> Turned
    requires ready { IsReady machine.old }
    ensures moves { (p : ProgramRows) → Moves p (before body.old (moment_of machine.old) (from_under p body.old
        (Now.Came (Way.Scalar width)) (Task.Transfer (TransferTask.Width host next line))) (come + 2)) result body.new
        (moment_of machine.new) }
    ensures ready { IsReady machine.new }
{
    let value = body.take_value();
    write(body, machine, host, next, line, value, Some(width))
}

/// The string that waited is written, in a width if one is given, and then comes the next actual.
fn write_text(
    body: &mut Body,
    alloc: Global,
    machine: &mut Machine,
    next: u32,
    line: u32,
    width: Option<Value>,
) -> Turned
    requires ready { IsReady machine.old }
    ensures moves { (p : ProgramRows) → Moves p (before body.old (moment_of machine.old) (bind (transfers.print (here
        body.old.home line) next (output.string_text (top_list (lists_of body.old))) width) (resume p body.old.home
        (tasks_of body.old) (values_of body.old) (below_list (lists_of body.old)))) (come + 2)) result body.new
        (moment_of machine.new) }
    ensures ready { IsReady machine.new }
{
    let list = body.take_list(alloc);
    let done = write_string(machine, &list, width);
    go_after(body, line, done, Now::Begin(Part::Print { at: next, line }))
}

/// An actual of a read or a write statement goes on by the integer that was read, the value that is to be written, or
/// its width.
pub fn continue_transfer(
    body: &mut Body,
    alloc: Global,
    program: &Program,
    machine: &mut Machine,
    transfer: TransferTask,
    value: Value,
) -> Turned
    requires ready { IsReady machine.old }
    ensures moves { Moves program.now (continuing program.now body.old (moment_of machine.old) (Way.Scalar value)
        (Task.Transfer transfer)) result body.new (moment_of machine.new) }
    ensures ready { IsReady machine.new }
{
    match transfer {
        TransferTask::Integer(reading) => locate_read(body, reading, value),
        TransferTask::Into(_) => body.no_row(),
        TransferTask::Written { of, next, line } => {
            write_plain(body, program, machine, of, next, line, value)
        }
        TransferTask::Wide {
            of,
            width,
            next,
            line,
        } => begin_width(body, program, of, width, next, line, value),
        TransferTask::Width { host, next, line } => {
            write_waiting(body, machine, host, next, line, value)
        }
        TransferTask::TextWidth { next, line } => {
            write_text(body, alloc, machine, next, line, Some(value))
        }
    }
}

/// An actual of a write statement goes on by the string that is to be written.
pub fn continue_with_text(
    body: &mut Body,
    alloc: Global,
    machine: &mut Machine,
    transfer: TransferTask,
) -> Turned
    requires ready { IsReady machine.old }
    ensures moves { (p : ProgramRows) → Moves p (continuing p body.old (moment_of machine.old) Way.Cells (Task.Transfer
        transfer)) result body.new (moment_of machine.new) }
    ensures ready { IsReady machine.new }
{
    match transfer {
        TransferTask::Written { next, line, .. } => write_text(
            body, alloc, machine, next, line, None,
        ),
        TransferTask::Wide {
            width,
            next,
            line,
            ..
        } => evaluate(body, width, TransferTask::TextWidth { next, line }, line),
        TransferTask::Integer(_) => body.no_row(),
        TransferTask::Into(_) => body.no_row(),
        TransferTask::Width { .. } => body.no_row(),
        TransferTask::TextWidth { .. } => body.no_row(),
    }
}
