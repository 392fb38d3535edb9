//! The statements on variables of the heap (6.6.5.3).

ghost use Rattle.std.specs.Prelude.{◌+◌, ℕ};
ghost use Rattle.core_program.specs.{Accesses.with_size, Statements.point, Tree.bind, Tree.doing};
ghost use Rattle.core_program.specs.Heap as action;
ghost use Rattle.core_program.specs.ProgramRows.{ProgramRows, type_at};
ghost use Rattle.eval_ops.specs.Machines.{IsReady, moment_of};
ghost use Rattle.evaluator.specs.{Rest.here, Rest.waiting, StatementFamilies.of_heap, Weight.come};
ghost use Rattle.evaluator.specs.Turns.{Moves, before, continuing};

use crate::body::{Body, Turned};
use crate::tasks::{Now, Part, Task, Way};
use cell_value::Value;
use core_program::Program;
use core_program::rows::StatementRow;
use eval_ops::{Machine, dispose, make_variable, size_of, write_cell};
use std::alloc::Global;

/// `new` or `dispose` (6.6.5.3), whose line is told.
pub(crate) fn heap_statement(
    body: &mut Body,
    alloc: Global,
    program: &Program,
    machine: &mut Machine,
    statement: StatementRow,
) -> Turned
    requires ready { IsReady machine.old }
    ensures moves { (row : ℕ) → Moves program.now (before body.old (moment_of machine.old) (bind (of_heap program.now
        body.old.home row statement) (waiting program.now body.old)) (come + 10)) result body.new (moment_of
        machine.new) }
    ensures ready { IsReady machine.new }
{
    match statement {
        StatementRow::New { line, access, of } => make(
            body, alloc, program, machine, access, of, line,
        ),
        StatementRow::Dispose { line, value, of } => body.wait(
            Task::Dispose { of, line },
            Now::Begin(Part::Eval { row: value, line }),
        ),
        _ => body.no_row(),
    }
}

/// A variable of a type is made; then the access to which the pointer to it goes begins.
fn make(
    body: &mut Body,
    alloc: Global,
    program: &Program,
    machine: &mut Machine,
    access: u32,
    of: u32,
    line: u32,
) -> Turned
    requires ready { IsReady machine.old }
    ensures moves { Moves program.now (before body.old (moment_of machine.old) (bind (with_size (type_at program.now of)
        (λ cells. doing line (action.made_variable cells of) (point (here body.old.home line) access))) (waiting
        program.now body.old)) (come + 1)) result body.new (moment_of machine.new) }
    ensures ready { IsReady machine.new }
{
    match size_of(program, of) {
        Some(cells) => make_of_size(body, alloc, machine, cells, access, of, line),
        None => body.no_row(),
    }
}

/// The same, of a variable of this many cells.
fn make_of_size(
    body: &mut Body,
    alloc: Global,
    machine: &mut Machine,
    cells: u32,
    access: u32,
    of: u32,
    line: u32,
) -> Turned
    requires ready { IsReady machine.old }
    ensures moves { (p : ProgramRows) → Moves p (before body.old (moment_of machine.old) (bind (doing line
        (action.made_variable cells of) (point (here body.old.home line) access)) (waiting p body.old)) come) result
        body.new (moment_of machine.new) }
    ensures ready { IsReady machine.new }
{
    match make_variable(alloc, machine, cells, of) {
        Ok(pointer) => body.hold(
            pointer,
            Task::Point { line },
            Now::Begin(Part::Locate {
                row: access,
                target: true,
                line,
            }),
        ),
        Err(halt) => body.fail(line, halt),
    }
}

/// `new` ends: the pointer that waited goes to the variable at an address.
pub fn put_pointer(
    body: &mut Body,
    alloc: Global,
    program: &Program,
    machine: &mut Machine,
    line: u32,
    addr: u32,
) -> Turned
    requires ready { IsReady machine.old }
    ensures moves { Moves program.now (continuing program.now body.old (moment_of machine.old) (Way.Address addr)
        (Task.Point line)) result body.new (moment_of machine.new) }
    ensures ready { IsReady machine.new }
{
    let value = body.take_value();
    let done = write_cell(alloc, machine, addr, value);
    body.finally(line, done)
}

/// `dispose` goes on with the value of its pointer: the variable under it, of a type, is disposed of.
pub fn dispose_of(
    body: &mut Body,
    alloc: Global,
    program: &Program,
    machine: &mut Machine,
    of: u32,
    line: u32,
    value: Value,
) -> Turned
    requires ready { IsReady machine.old }
    ensures moves { Moves program.now (continuing program.now body.old (moment_of machine.old) (Way.Scalar value)
        (Task.Dispose of line)) result body.new (moment_of machine.new) }
    ensures ready { IsReady machine.new }
{
    match size_of(program, of) {
        Some(cells) => {
            let done = dispose(alloc, machine, cells, value);
            body.finally(line, done)
        }
        None => body.no_row(),
    }
}
