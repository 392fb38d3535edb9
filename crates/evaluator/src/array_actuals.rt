//! Arrays as actuals of conformant parameters.

ghost use Rattle.std.specs.Prelude.{◌+◌, ◌≡◌, List};
ghost use Rattle.cell_value.specs.declared.values.Value.{Value as CellValue};
ghost use Rattle.core_program.specs.{Actions.Action, Actions.performs, Expressions.of_actual, Tree.bind, Tree.doing};
ghost use Rattle.eval_ops.specs.Conformant.{ArrayActual as Actual, actual as actual_of};
ghost use Rattle.eval_ops.specs.Machines.{DoesAll, IsReady, Moment, moment_of};
ghost use Rattle.evaluator.specs.{Turns.Leads, Turns.Moves, Turns.before, Turns.continuing, declared.tasks.Way.Way};
ghost use Rattle.evaluator.specs.Rest.{array_passed, here, lists_of, place_passed, top_passed, under_passed};
ghost use Rattle.evaluator.specs.Weight.{Falls, body_weight, come, part_weight, tasks_weight};

use crate::actuals::append_all;
use crate::body::{Body, Copied, Turned};
use crate::tasks::{Now, Part, Task};
use cell_value::{Cells, Value};
use core_program::Program;
use core_program::rows::{ItemRow, Row};
use eval_ops::{
    ArrayActual, Halt, Machine, add_value, conformant_actual, dimensions_meant, fixed_actual,
    fixed_bounds, is_conformant, place_bounds, text_actual, type_accessed,
};
use std::alloc::Global;

/// An actual of a conformant variable parameter of a type begins, by the row of its access.
pub fn pass_place(
    body: &mut Body,
    alloc: Global,
    program: &Program,
    first: bool,
    access: u32,
    of: u32,
    next: u32,
    line: u32,
) -> Turned
    ensures turns { Leads program.now (bind (of_actual program.now (top_passed (lists_of body.old)) (here body.old.home
        line) (Row.Item (ItemRow.ArrayPlace first access of next))) (under_passed program.now body.old)) result
        body.new }
    ensures falls { Falls result (body_weight body.new) (come + 1 + tasks_weight body.old) }
    ensures home { body.new.home ≡ body.old.home }
{
    drop(dimensions_meant(alloc, program, of)?);
    match program.row(access) {
        Row::Access(row) => body.wait(
            Task::ArrayPlace {
                first,
                of,
                actual: type_accessed(row),
                next,
                line,
            },
            Now::Begin(Part::Locate {
                row: access,
                target: false,
                line,
            }),
        ),
        _ => body.no_row(),
    }
}

/// An actual of a conformant value parameter of a type begins, by the row of its expression.
pub fn pass_array(
    body: &mut Body,
    alloc: Global,
    program: &Program,
    first: bool,
    value: u32,
    of: u32,
    next: u32,
    line: u32,
) -> Turned
    ensures turns { Leads program.now (bind (of_actual program.now (top_passed (lists_of body.old)) (here body.old.home
        line) (Row.Item (ItemRow.ArrayValue first value of next))) (under_passed program.now body.old)) result
        body.new }
    ensures falls { Falls result (body_weight body.new) (come + 1 + tasks_weight body.old) }
    ensures home { body.new.home ≡ body.old.home }
{
    drop(dimensions_meant(alloc, program, of)?);
    match program.row(value) {
        Row::Access(row) => body.wait(
            Task::ArrayValue {
                first,
                of,
                actual: type_accessed(row),
                next,
                line,
            },
            Now::Begin(Part::Locate {
                row: value,
                target: false,
                line,
            }),
        ),
        Row::Expression(_) => body.wait(
            Task::TextValue {
                first,
                of,
                next,
                line,
            },
            Now::Begin(Part::Eval { row: value, line }),
        ),
        _ => body.no_row(),
    }
}

/// An array that is an actual variable parameter has an address: it is one of a fixed type.
pub fn place_at(
    body: &mut Body,
    alloc: Global,
    program: &Program,
    first: bool,
    of: u32,
    actual: u32,
    next: u32,
    line: u32,
    addr: u32,
) -> Turned
    ensures moves { (m : Moment) → Moves program.now (continuing program.now body.old m (Way.Address addr)
        (Task.ArrayPlace first of actual next line)) result body.new m }
{
    if is_conformant(program, actual) {
        body.no_row()
    } else {
        let done = fixed_bounds(alloc, program, first, of, actual);
        add_bounds(body, alloc, program, done, addr, next, line)
    }
}

/// An array that is an actual value parameter has an address: it is one of a fixed type.
pub fn array_at(
    body: &mut Body,
    alloc: Global,
    program: &Program,
    machine: &mut Machine,
    first: bool,
    of: u32,
    actual: u32,
    next: u32,
    line: u32,
    addr: u32,
) -> Turned
    requires ready { IsReady machine.old }
    ensures moves { Moves program.now (continuing program.now body.old (moment_of machine.old) (Way.Address addr)
        (Task.ArrayValue first of actual next line)) result body.new (moment_of machine.new) }
    ensures ready { IsReady machine.new }
{
    if is_conformant(program, actual) {
        body.no_row()
    } else {
        let done = fixed_actual(alloc, program, machine, first, of, actual, addr);
        add_copied(body, alloc, program, done, next, line)
    }
}

/// An array that is an actual variable parameter has an address and bounds, which are its own if it is conformant.
pub fn bounded_place(
    body: &mut Body,
    alloc: Global,
    program: &Program,
    machine: &mut Machine,
    first: bool,
    of: u32,
    actual: u32,
    next: u32,
    line: u32,
    addr: u32,
    frame: u32,
) -> Turned
    requires ready { IsReady machine.old }
    ensures moves { Moves program.now (continuing program.now body.old (moment_of machine.old) (Way.Bounded addr frame)
        (Task.ArrayPlace first of actual next line)) result body.new (moment_of machine.new) }
    ensures ready { IsReady machine.new }
{
    if is_conformant(program, actual) {
        let done = place_bounds(alloc, program, machine, first, of, actual, frame);
        add_bounds(body, alloc, program, done, addr, next, line)
    } else {
        let done = fixed_bounds(alloc, program, first, of, actual);
        add_bounds(body, alloc, program, done, addr, next, line)
    }
}

/// An array that is an actual value parameter has an address and bounds, which are its own if it is conformant.
pub fn bounded_array(
    body: &mut Body,
    alloc: Global,
    program: &Program,
    machine: &mut Machine,
    first: bool,
    of: u32,
    actual: u32,
    next: u32,
    line: u32,
    addr: u32,
    frame: u32,
) -> Turned
    requires ready { IsReady machine.old }
    ensures moves { Moves program.now (continuing program.now body.old (moment_of machine.old) (Way.Bounded addr frame)
        (Task.ArrayValue first of actual next line)) result body.new (moment_of machine.new) }
    ensures ready { IsReady machine.new }
{
    if is_conformant(program, actual) {
        let done = conformant_actual(alloc, program, machine, first, of, actual, addr, frame);
        add_copied(body, alloc, program, done, next, line)
    } else {
        let done = fixed_actual(alloc, program, machine, first, of, actual, addr);
        add_copied(body, alloc, program, done, next, line)
    }
}

/// A string that is an actual of a conformant parameter has its values.
pub fn add_text(
    body: &mut Body,
    alloc: Global,
    program: &Program,
    first: bool,
    of: u32,
    next: u32,
    line: u32,
) -> Turned
    ensures moves { (m : Moment) → Moves program.now (continuing program.now body.old m Way.Cells (Task.TextValue first
        of next line)) result body.new m }
{
    let cells = body.take_list(alloc);
    let done = text_actual(alloc, program, first, of, cells);
    add_copied(body, alloc, program, done, next, line)
}

/// An action on a line gave the bounds that an array passes which is an actual variable parameter, or it was not done.
fn add_bounds(
    body: &mut Body,
    alloc: Global,
    program: &Program,
    done: Result<Cells, Halt>,
    addr: u32,
    next: u32,
    line: u32,
) -> Turned
    ensures moves { (a : Action (List CellValue)) (m m' : Moment) → DoesAll (λ vs. vs) (performs a m.state) done m m'
        → Moves program.now (before body.old m (bind (doing line a (place_passed body.old.home next line
        (top_passed (lists_of body.old)) addr)) (under_passed program.now body.old)) (come + 2)) result body.new m' }
{
    match done {
        Ok(bounds) => add_place(body, alloc, program, &bounds, addr, next, line),
        Err(halt) => body.fail(line, halt),
    }
}

/// An action on a line gave an array that is an actual value parameter, or it was not done.
fn add_copied(
    body: &mut Body,
    alloc: Global,
    program: &Program,
    done: Result<ArrayActual, Halt>,
    next: u32,
    line: u32,
) -> Turned
    ensures moves { (a : Action Actual) (m m' : Moment) → DoesAll actual_of (performs a m.state) done m m'
        → Moves program.now (before body.old m (bind (doing line a (array_passed body.old.home next line
        (top_passed (lists_of body.old)))) (under_passed program.now body.old)) (come + 2)) result body.new m' }
{
    match done {
        Ok(passed) => add_array(body, alloc, program, passed, next, line),
        Err(halt) => body.fail(line, halt),
    }
}

/// An array that is an actual variable parameter is passed, with its bounds before its address.
fn add_place(
    body: &mut Body,
    alloc: Global,
    program: &Program,
    bounds: &Cells,
    addr: u32,
    next: u32,
    line: u32,
) -> Turned
    ensures turns { Leads program.now (bind (place_passed body.old.home next line (top_passed (lists_of body.old)) addr
        bounds.now) (under_passed program.now body.old)) result body.new }
    ensures falls { Falls result (body_weight body.new)
        (part_weight (Part.Pass next line) + 1 + tasks_weight body.old) }
    ensures home { body.new.home ≡ body.old.home }
{
    let mut list = body.take_list(alloc);
    append_all(&mut list, bounds)?;
    add_value(&mut list, Value::Place(addr))?;
    body.lists.push(list)?;
    body.now = Now::Begin(Part::Pass { at: next, line });
    Ok(None)
}

/// An array that is an actual value parameter is passed, with its bounds before a cell for the address of its copy.
fn add_array(
    body: &mut Body,
    alloc: Global,
    program: &Program,
    passed: ArrayActual,
    next: u32,
    line: u32,
) -> Turned
    ensures turns { Leads program.now (bind (array_passed body.old.home next line (top_passed (lists_of body.old))
        (actual_of passed)) (under_passed program.now body.old)) result body.new }
    ensures falls { Falls result (body_weight body.new)
        (part_weight (Part.Pass next line) + 1 + tasks_weight body.old) }
    ensures home { body.new.home ≡ body.old.home }
{
    let ArrayActual { bounds, cells } = passed;
    let mut list = body.take_list(alloc);
    append_all(&mut list, &bounds)?;
    let at = list.len();
    add_value(&mut list, Value::Undefined)?;
    body.add_copy(alloc, Copied { at, cells })?;
    body.lists.push(list)?;
    body.now = Now::Begin(Part::Pass { at: next, line });
    Ok(None)
}
