//! The turns of for statements.

ghost use Rattle.std.specs.Prelude.{◌+◌, ◌≡◌, true};
ghost use Rattle.cell_value.specs.declared.values.Value.TheVariants as CellValue;
ghost use Rattle.core_program.specs.ProgramRows.{ProgramRows, row_at};
ghost use Rattle.core_program.specs.Statements as statements;
ghost use Rattle.core_program.specs.Tree.{Count, Exec, Sub, bind};
ghost use Rattle.eval_ops.specs.{Counting.turns_row, Machines.Gives, Machines.IsReady, Machines.moment_of};
ghost use Rattle.evaluator.specs.Rest.{after_turn, here, waiting, with_numbers};
ghost use Rattle.evaluator.specs.Turns.{Leads, Moves, before};
ghost use Rattle.evaluator.specs.Weight.{Falls, body_weight, come, tasks_weight};

use crate::body::{Body, Turned};
use crate::tasks::{Next, Now, Part, Task};
use cell_value::{Kind, Value};
use core_program::Program;
use core_program::rows::TypeRow;
use eval_ops::{
    Counting, ForProgress, Halt, Machine, counting_at, has_turn, is_last, last_value, moved,
    passed_test, test, turn_after, turn_value, turns_of, write_cell,
};
use std::alloc::Global;

/// The test of both bounds of a for statement that has a turn, for the type of its control variable.
fn bounds_tested(program: &Program, kind: Option<TypeRow>, span: ForProgress) -> Result<Value, Halt>
    ensures { Gives (λ v. v) (statements.bounds_tested program.now kind span.value span.last) result }
{
    passed_test(test(program, kind, Value::Number(span.value)))?;
    passed_test(test(program, kind, Value::Number(span.last)))
}

/// The bounds of a for statement are known: its first turn begins, if it has one.
pub(crate) fn first_turn(
    body: &mut Body,
    alloc: Global,
    program: &Program,
    machine: &mut Machine,
    turns: u32,
    line: u32,
    first: Value,
    last: Value,
) -> Turned
    requires ready { IsReady machine.old }
    ensures moves { Moves program.now (before body.old (moment_of machine.old) (bind (statements.first_turn program.now
        (here body.old.home line) turns (row_at program.now turns) first last) (waiting program.now body.old)) (come +
        1)) result body.new (moment_of machine.new) }
    ensures ready { IsReady machine.new }
{
    match counting_at(program, turns, first, last) {
        Some((counting, span)) => {
            begin_turns(body, alloc, program, machine, turns, line, counting, span)
        }
        None => match turns_of(program, turns) {
            Some(_) => body.fail(line, Halt::Fault(Kind::Undefined)),
            None => body.no_row(),
        },
    }
}

/// The bounds of a for statement are numbers: its first turn begins, if it has one.
fn begin_turns(
    body: &mut Body,
    alloc: Global,
    program: &Program,
    machine: &mut Machine,
    turns: u32,
    line: u32,
    counting: Counting,
    span: ForProgress,
) -> Turned
    requires ready { IsReady machine.old }
    requires row { row_at program.now turns ≡ turns_row counting }
    ensures moves { Moves program.now (before body.old (moment_of machine.old) (bind (statements.first_turn program.now
        (here body.old.home line) turns (turns_row counting) (CellValue.Number span.value) (CellValue.Number span.last))
        (waiting program.now body.old)) (come + 1)) result body.new (moment_of machine.new) }
    ensures ready { IsReady machine.new }
{
    if !has_turn(counting.direction, span) {
        return undefine(body, alloc, machine, counting.place, line);
    }
    match bounds_tested(program, program.type_row(counting.of), span) {
        Ok(_) => count(body, alloc, machine, turns, line, counting, span),
        Err(halt) => body.fail(line, halt),
    }
}

/// The control variable of a for statement that ended is undefined.
fn undefine(body: &mut Body, alloc: Global, machine: &mut Machine, place: u32, line: u32) -> Turned
    requires ready { IsReady machine.old }
    ensures moves { (p : ProgramRows) → Moves p (before body.old (moment_of machine.old) (bind (statements.undefine
        (here body.old.home line) place) (waiting p body.old)) (come + 1)) result body.new (moment_of machine.new) }
    ensures ready { IsReady machine.new }
{
    let done = write_cell(
        alloc,
        machine,
        moved(body.home.base, place),
        Value::Undefined,
    );
    body.finally(line, done)
}

/// A turn of a for statement begins: the control variable gets its value, and then the body is done.
fn count(
    body: &mut Body,
    alloc: Global,
    machine: &mut Machine,
    row: u32,
    line: u32,
    counting: Counting,
    span: ForProgress,
) -> Turned
    requires ready { IsReady machine.old }
    requires turn { statements.has_turn counting.direction span.value span.last ≡ true }
    ensures moves { (p : ProgramRows) → row_at p row ≡ turns_row counting → Moves p (before body.old (moment_of
        machine.old) (Sub (Count row span.value span.last (here body.old.home line)) (waiting p body.old)) come) result
        body.new (moment_of machine.new) }
    ensures ready { IsReady machine.new }
{
    let variable = moved(body.home.base, counting.place);
    match write_cell(alloc, machine, variable, turn_value(span)) {
        Ok(()) => do_body(body, row, line, counting.body, span),
        Err(halt) => body.fail(line, halt),
    }
}

/// The body of a for statement begins, in a turn whose value the control variable has.
fn do_body(body: &mut Body, row: u32, line: u32, inner: u32, span: ForProgress) -> Turned
    ensures turns { (p : ProgramRows) → Leads p (Sub (Exec inner (here body.old.home line)) (λ out. bind
        (statements.on_normal (after_turn body.old.home row line span.value span.last (row_at p row)) out) (waiting p
        body.old))) result body.new }
    ensures falls { Falls result (body_weight body.new) (come + tasks_weight body.old) }
    ensures home { body.new.home ≡ body.old.home }
{
    body.values.push(turn_value(span))?;
    body.hold(
        last_value(span),
        Task::Next(Next::Counted { row, line }),
        Now::Begin(Part::Exec { row: inner, line }),
    )
}

/// A turn of a for statement has ended: the next one begins, if it was not the last.
pub(crate) fn turn_ended(
    body: &mut Body,
    alloc: Global,
    program: &Program,
    machine: &mut Machine,
    row: u32,
    line: u32,
    value: Value,
    last: Value,
) -> Turned
    requires ready { IsReady machine.old }
    ensures moves { Moves program.now (before body.old (moment_of machine.old) (bind (with_numbers value last (λ i last.
        after_turn body.old.home row line i last (row_at program.now row))) (waiting program.now body.old)) (come + 1))
        result body.new (moment_of machine.new) }
    ensures ready { IsReady machine.new }
{
    match counting_at(program, row, value, last) {
        Some((counting, span)) => next_turn(body, alloc, machine, row, line, counting, span),
        None => body.no_row(),
    }
}

/// The turn of a for statement with a value has ended.
fn next_turn(
    body: &mut Body,
    alloc: Global,
    machine: &mut Machine,
    row: u32,
    line: u32,
    counting: Counting,
    span: ForProgress,
) -> Turned
    requires ready { IsReady machine.old }
    ensures moves { (p : ProgramRows) → row_at p row ≡ turns_row counting → Moves p (before body.old (moment_of
        machine.old) (bind (after_turn body.old.home row line span.value span.last (turns_row counting)) (waiting p
        body.old)) (come + 1)) result body.new (moment_of machine.new) }
    ensures ready { IsReady machine.new }
{
    if !has_turn(counting.direction, span) {
        return body.no_row();
    }
    if is_last(span) {
        return undefine(body, alloc, machine, counting.place, line);
    }
    count(
        body,
        alloc,
        machine,
        row,
        line,
        counting,
        turn_after(counting.direction, span),
    )
}
