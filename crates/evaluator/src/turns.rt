//! The run of a body from stop to stop.

ghost use Rattle.std.specs.Prelude.{◌≡◌, IfOk};
ghost use Rattle.core_program.specs.{ProgramRows.ProgramRows, Replay.end_of, Run.Ended, State.State};
ghost use Rattle.eval_ops.specs.Machines.{IsReady, machine_state, moment_of};
ghost use Rattle.evaluator.specs.{Records.SameFrame, Rest.from, Rest.rest_of, Stops.NextStopIs, Turns.pause_of};
ghost use Rattle.evaluator.specs.{Turns.stop_of, Weight.come, Weight.now_weight};
ghost use Rattle.evaluator.specs.Turns.{MayGoOn, Moves, PausesInRoom, before, beginning, continuing, ended_by};

use crate::accesses::{continue_access, locate};
use crate::actuals::{add_actual, add_actual_cells, pass_actuals};
use crate::after_parts::{continue_statement, follow_statement};
use crate::array_actuals::{add_text, array_at, bounded_array, bounded_place, place_at};
use crate::assignments::{locate_target, locate_target_cells, put, put_cells};
use crate::body::{Body, Turned};
use crate::calls::{call, call_formal};
use crate::conformant::{bounded_component, bounded_index, continue_bounded};
use crate::expressions::{continue_expression, evaluate};
use crate::heap::{dispose_of, put_pointer};
use crate::jumps::leap;
use crate::packing::{locate_second, move_arrays, pack_by_index};
use crate::reading::{pass_line, receive, scan, store_read};
use crate::returns::end;
use crate::sets::{begin_right_text, end_texts, gather, gather_range};
use crate::statements::{carry, execute, sequence, turn_again};
use crate::tasks::{Now, Part, Pause, Stop, Task, Way};
use crate::with_records::{begin_record, establish, leave};
use crate::writing::{continue_transfer, continue_with_text, print};
use cell_value::{Memory, Value, WayOut};
use core_program::Program;
use eval_ops::{Halt, Machine, spend};
use std::alloc::{AllocError, Global};

/// Runs to the next stop. The machine is as the actions on it need it.
pub fn go_on(
    body: &mut Body,
    alloc: Global,
    program: &Program,
    machine: &mut Machine,
) -> Result<Stop, Memory>
    requires ready { IsReady machine.old }
    ensures stops { IfOk result (λ s. NextStopIs program.now (rest_of program.now body.old) (moment_of machine.old)
        (stop_of program.now body.new s) (moment_of machine.new)) }
    ensures room { IfOk result (λ s. MayGoOn program.now s (machine_state machine.new)) }
    ensures frame { SameFrame body.new.home body.old.home }
    ensures ready { IsReady machine.new }
{
    'turns: loop {
        match turn(body, alloc, program, machine) {
            Ok(None) => {}
            Ok(Some(pause)) => return Ok(stop_at(body, alloc, pause)),
            Err(Halt::Fault(kind)) => return Ok(Stop::Ended(
                WayOut::Faulted(kind, body.line),
                None,
            )),
            Err(Halt::OutOfSteps) => return Ok(Stop::Ended(WayOut::OutOfSteps, None)),
            Err(Halt::Limited(which)) => return Ok(Stop::Ended(WayOut::Limited(which), None)),
            Err(Halt::Memory) => return Err(AllocError),
        }
    }
}

/// The stop that a pause is.
fn stop_at(body: &mut Body, alloc: Global, pause: Pause) -> Stop
    ensures stop { (p : ProgramRows) → stop_of p body.new result ≡ pause_of p body.old pause }
    ensures room { (p : ProgramRows) (σ : State) → PausesInRoom p pause σ → MayGoOn p result σ }
    ensures frame { SameFrame body.new.home body.old.home }
{
    match pause {
        Pause::Line(line) => Stop::Line(line),
        Pause::Enter(routine) => Stop::Enter(routine, body.take_list(alloc)),
        Pause::Ended => {
            let (way, answer) = way_ended(body.now);
            Stop::Ended(way, answer)
        }
    }
}

/// How a body ended, by what came last.
fn way_ended(now: Now) -> (WayOut, Option<Value>)
    ensures { end_of result.0 result.1 ≡ Ended (ended_by now) }
{
    match now {
        Now::Came(Way::Jump(label, base)) => (WayOut::Jumped(label, base), None),
        Now::Came(Way::Scalar(value)) => (WayOut::Returned, Some(value)),
        _ => (WayOut::Returned, None),
    }
}

/// A turn: a part begins, or a task goes on after one.
fn turn(body: &mut Body, alloc: Global, program: &Program, machine: &mut Machine) -> Turned
    requires ready { IsReady machine.old }
    ensures moves { Moves program.now (before body.old (moment_of machine.old) (rest_of program.now body.old)
        (now_weight body.old.now)) result body.new (moment_of machine.new) }
    ensures ready { IsReady machine.new }
{
    match body.now {
        Now::Begin(part) => begin(body, alloc, program, machine, part),
        Now::Carry(row) => carry(body, alloc, program, machine, row),
        Now::Came(way) => came(body, alloc, program, machine, way),
    }
}

/// A part begins.
fn begin(
    body: &mut Body,
    alloc: Global,
    program: &Program,
    machine: &mut Machine,
    part: Part,
) -> Turned
    requires ready { IsReady machine.old }
    ensures moves { Moves program.now (beginning program.now body.old (moment_of machine.old) part) result body.new
        (moment_of machine.new) }
    ensures ready { IsReady machine.new }
{
    match part {
        Part::Eval { row, line } => evaluate(body, alloc, program, machine, row, line),
        Part::Locate { row, target, line } => locate(
            body, alloc, program, machine, row, target, line,
        ),
        Part::Pass { at, line } => pass_actuals(body, alloc, program, machine, at, line),
        Part::Gather { at, line } => gather(body, program, at, line),
        Part::Exec { row, line } => execute(body, program, machine, row, line),
        Part::Establish {
            at,
            body: inner,
            line,
        } => begin_record(body, program, at, inner, line),
        Part::Sequence { first, at, line } => sequence(body, program, first, at, line),
        Part::Turn { row, line } => turn_again(body, program, row, line),
        Part::Block => block(body, program, machine),
        Part::Receive { at, line } => receive(body, program, machine, at, line),
        Part::Scanning { scan: so_far, line } => scan(body, machine, so_far, line),
        Part::RestOfLine { line } => pass_line(body, machine, line),
        Part::Print { at, line } => print(body, program, at, line),
    }
}

/// The statement part of the body's routine begins.
fn block(body: &mut Body, program: &Program, machine: &mut Machine) -> Turned
    requires ready { IsReady machine.old }
    ensures moves { Moves program.now (beginning program.now body.old (moment_of machine.old) Part.Block) result
        body.new (moment_of machine.new) }
    ensures ready { IsReady machine.new }
{
    body.home.records.leave_all();
    match program.routine(body.home.routine) {
        None => body.no_row(),
        Some(routine) => match spend(machine, 1) {
            Ok(()) => body.go(Now::Begin(Part::Sequence {
                first: routine.statements,
                at: routine.statements,
                line: routine.line,
            })),
            Err(halt) => body.fail(routine.line, halt),
        },
    }
}

/// A part has ended.
fn came(
    body: &mut Body,
    alloc: Global,
    program: &Program,
    machine: &mut Machine,
    way: Way,
) -> Turned
    requires ready { IsReady machine.old }
    ensures moves { Moves program.now (before body.old (moment_of machine.old) (from program.now body.old (Now.Came
        way)) come) result body.new (moment_of machine.new) }
    ensures ready { IsReady machine.new }
{
    match body.tasks.pop() {
        Some(task) => work(body, alloc, program, machine, task, way),
        None => end(body, program, machine, way),
    }
}

/// A task that waited goes on after a part.
fn work(
    body: &mut Body,
    alloc: Global,
    program: &Program,
    machine: &mut Machine,
    task: Task,
    way: Way,
) -> Turned
    requires ready { IsReady machine.old }
    ensures moves { Moves program.now (continuing program.now body.old (moment_of machine.old) way task) result body.new
        (moment_of machine.new) }
    ensures ready { IsReady machine.new }
{
    match way {
        Way::Nothing => after_nothing(body, alloc, program, machine, task),
        Way::Scalar(value) => after_scalar(body, alloc, program, machine, task, value),
        Way::Cells => after_cells(body, alloc, program, machine, task),
        Way::Actuals => after_actuals(body, alloc, program, machine, task),
        Way::Address(addr) => after_address(body, alloc, program, machine, task, addr),
        Way::Bounded(addr, frame) => {
            after_bounded(body, alloc, program, machine, task, addr, frame)
        }
        Way::Jump(label, base) => leap(body, alloc, program, task, label, base),
    }
}

/// A task goes on after a statement.
fn after_nothing(
    body: &mut Body,
    alloc: Global,
    program: &Program,
    machine: &mut Machine,
    task: Task,
) -> Turned
    requires ready { IsReady machine.old }
    ensures moves { Moves program.now (continuing program.now body.old (moment_of machine.old) Way.Nothing task) result
        body.new (moment_of machine.new) }
    ensures ready { IsReady machine.new }
{
    match task {
        Task::Next(next) => follow_statement(body, alloc, program, machine, next),
        Task::Leave => leave(body, Way::Nothing),
        _ => body.no_row(),
    }
}

/// A task goes on after an expression of a type of one cell.
fn after_scalar(
    body: &mut Body,
    alloc: Global,
    program: &Program,
    machine: &mut Machine,
    task: Task,
    value: Value,
) -> Turned
    requires ready { IsReady machine.old }
    ensures moves { Moves program.now (continuing program.now body.old (moment_of machine.old) (Way.Scalar value) task)
        result body.new (moment_of machine.new) }
    ensures ready { IsReady machine.new }
{
    match task {
        Task::Operand(operand) => continue_expression(body, program, operand, value),
        Task::Actual { of, next, line } => add_actual(body, alloc, program, of, next, line, value),
        Task::Range { next, line } => gather_range(body, next, line, value),
        Task::Choice(choice) => continue_statement(body, alloc, program, machine, choice, value),
        Task::Target { target, of, line } => locate_target(body, program, target, of, line, value),
        Task::Dispose { of, line } => dispose_of(body, alloc, program, machine, of, line, value),
        Task::Next(next) => follow_statement(body, alloc, program, machine, next),
        Task::Transfer(transfer) => {
            continue_transfer(body, alloc, program, machine, transfer, value)
        }
        Task::PackIndex { packing, places } => {
            move_arrays(body, alloc, program, machine, packing, places, value)
        }
        Task::BoundedComponent {
            array,
            of,
            addr,
            frame,
            line,
        } => bounded_component(
            body, alloc, program, machine, array, of, addr, frame, line, value,
        ),
        Task::Leave => leave(body, Way::Scalar(value)),
        _ => body.no_row(),
    }
}

/// A task goes on after an access.
fn after_address(
    body: &mut Body,
    alloc: Global,
    program: &Program,
    machine: &mut Machine,
    task: Task,
    addr: u32,
) -> Turned
    requires ready { IsReady machine.old }
    ensures moves { Moves program.now (continuing program.now body.old (moment_of machine.old) (Way.Address addr) task)
        result body.new (moment_of machine.new) }
    ensures ready { IsReady machine.new }
{
    match task {
        Task::Located(located) => continue_access(body, alloc, program, machine, located, addr),
        Task::Put { target, of, line } => put(
            body, alloc, program, machine, target, of, line, addr,
        ),
        Task::Record {
            next,
            body: inner,
            line,
        } => establish(body, next, inner, line, addr),
        Task::PutCells { line } => put_cells(body, alloc, program, machine, line, addr),
        Task::Point { line } => put_pointer(body, alloc, program, machine, line, addr),
        Task::Next(next) => follow_statement(body, alloc, program, machine, next),
        Task::Transfer(transfer) => store_read(body, alloc, program, machine, transfer, addr),
        Task::PackFirst { packing, rows } => locate_second(body, packing, rows, addr),
        Task::PackSecond {
            packing,
            rows,
            first,
        } => pack_by_index(body, packing, rows, first, addr),
        Task::ArrayPlace { .. } => array_located(body, alloc, program, machine, task, addr),
        Task::ArrayValue { .. } => array_located(body, alloc, program, machine, task, addr),
        Task::Leave => leave(body, Way::Address(addr)),
        _ => body.no_row(),
    }
}

/// An array that is an actual of a conformant parameter is located, and is one of a fixed type.
fn array_located(
    body: &mut Body,
    alloc: Global,
    program: &Program,
    machine: &mut Machine,
    task: Task,
    addr: u32,
) -> Turned
    requires ready { IsReady machine.old }
    ensures moves { Moves program.now (continuing program.now body.old (moment_of machine.old) (Way.Address addr) task)
        result body.new (moment_of machine.new) }
    ensures ready { IsReady machine.new }
{
    match task {
        Task::ArrayPlace {
            first,
            of,
            actual,
            next,
            line,
        } => place_at(body, alloc, program, first, of, actual, next, line, addr),
        Task::ArrayValue {
            first,
            of,
            actual,
            next,
            line,
        } => array_at(
            body, alloc, program, machine, first, of, actual, next, line, addr,
        ),
        _ => body.no_row(),
    }
}

/// A task goes on after an access of a conformant array. Most want no more than its address.
fn after_bounded(
    body: &mut Body,
    alloc: Global,
    program: &Program,
    machine: &mut Machine,
    task: Task,
    addr: u32,
    frame: u32,
) -> Turned
    requires ready { IsReady machine.old }
    ensures moves { Moves program.now (continuing program.now body.old (moment_of machine.old) (Way.Bounded addr frame)
        task) result body.new (moment_of machine.new) }
    ensures ready { IsReady machine.new }
{
    match task {
        Task::Located(located) => {
            continue_bounded(body, alloc, program, machine, located, addr, frame)
        }
        Task::BoundedIndex {
            index,
            array,
            of,
            line,
        } => bounded_index(body, machine, index, array, of, line, addr, frame),
        Task::ArrayPlace {
            first,
            of,
            actual,
            next,
            line,
        } => bounded_place(
            body, alloc, program, machine, first, of, actual, next, line, addr, frame,
        ),
        Task::ArrayValue {
            first,
            of,
            actual,
            next,
            line,
        } => bounded_array(
            body, alloc, program, machine, first, of, actual, next, line, addr, frame,
        ),
        Task::Leave => leave(body, Way::Bounded(addr, frame)),
        _ => after_address(body, alloc, program, machine, task, addr),
    }
}

/// A task goes on after an expression of a type of several cells.
fn after_cells(
    body: &mut Body,
    alloc: Global,
    program: &Program,
    machine: &mut Machine,
    task: Task,
) -> Turned
    requires ready { IsReady machine.old }
    ensures moves { Moves program.now (continuing program.now body.old (moment_of machine.old) Way.Cells task) result
        body.new (moment_of machine.new) }
    ensures ready { IsReady machine.new }
{
    match task {
        Task::Actual { of, next, line } => add_actual_cells(body, alloc, program, of, next, line),
        Task::TextValue {
            first,
            of,
            next,
            line,
        } => add_text(body, alloc, program, first, of, next, line),
        Task::TextRight { order, right, line } => begin_right_text(body, order, right, line),
        Task::Texts { order, line } => end_texts(body, alloc, order, line),
        Task::Target { target, of, line } => locate_target_cells(body, program, target, of, line),
        Task::Transfer(transfer) => continue_with_text(body, alloc, machine, transfer),
        Task::Next(next) => {
            // The cells are of no use to it.
            body.drop_list(alloc);
            follow_statement(body, alloc, program, machine, next)
        }
        Task::Leave => leave(body, Way::Cells),
        _ => body.no_row(),
    }
}

/// A call goes on after its actual parameters.
fn after_actuals(
    body: &mut Body,
    alloc: Global,
    program: &Program,
    machine: &mut Machine,
    task: Task,
) -> Turned
    requires ready { IsReady machine.old }
    ensures moves { Moves program.now (continuing program.now body.old (moment_of machine.old) Way.Actuals task) result
        body.new (moment_of machine.new) }
    ensures ready { IsReady machine.new }
{
    match task {
        Task::Call {
            procedure,
            routine,
            levels,
            line,
        } => call(
            body, alloc, program, machine, procedure, routine, levels, line,
        ),
        Task::CallFormal {
            procedure,
            formal,
            levels,
            line,
        } => call_formal(
            body, alloc, program, machine, procedure, formal, levels, line,
        ),
        _ => body.no_row(),
    }
}
