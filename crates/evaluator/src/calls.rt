//! Calls.

ghost use Rattle.std.specs.Prelude.{◌++◌, ◌+◌, ◌∷◌, ◌≡◌, ◌≤◌, ℕ, IfErr, IfOk, None, OnOk, Some, length, map, min};
ghost use Rattle.std.specs.Prelude.{slice_set};
ghost use Rattle.cell_value.specs.declared.values.Value.{Value as CellValue};
ghost use Rattle.core_program.specs.{Actions.Action, Actions.performs, Acts.limit_passed, Expressions.enter as entered};
ghost use Rattle.core_program.specs.{Expressions.entering, Passed.cells_entered, Passed.copied, Passed.placed};
ghost use Rattle.core_program.specs.{ProgramRows.ProgramRows, ProgramRows.routine_at, State.stack_end, Tree.Enter};
ghost use Rattle.core_program.specs.{Tree.bind, Tree.doing, declared.program.Routine.Routine as RoutineRow};
ghost use Rattle.eval_ops.specs.Machines.{DoesAll, IsReady, Moment, moment_of};
ghost use Rattle.evaluator.specs.Rest.{after_call, and_passing, copy_of, first_of, left_now, lists_of, tasks_of};
ghost use Rattle.evaluator.specs.Rest.{top_passed, under_passed, values_of};
ghost use Rattle.evaluator.specs.Turns.{EntersRoutine, Leads, Moves, before, configuration, continuing};
ghost use Rattle.evaluator.specs.Weight.{Falls, body_weight, part_weight, task_weight, tasks_weight};

use crate::actuals::append_all;
use crate::body::{Body, Copied, Turned};
use crate::tasks::{Next, Now, Part, Pause, Task, Way};
use cell_value::{Cells, Value};
use core_program::Program;
use core_program::rows::{NameRow, Row};
use eval_ops::{Halt, Machine, add_value, frame_out, limit_passed, routine_out};
use std::alloc::Global;

/// A call begins with its actual parameters, and the task is to go on with them.
pub fn begin_call(body: &mut Body, alloc: Global, task: Task, actuals: u32, line: u32) -> Turned
    ensures turns { (p : ProgramRows) → Leads p (left_now p body.old.home (Now.Begin (Part.Pass actuals line)) (task ∷
        tasks_of body.old) (values_of body.old) (and_passing (lists_of body.old))) result body.new }
    ensures falls { Falls result (body_weight body.new)
        (part_weight (Part.Pass actuals line) + task_weight task + tasks_weight body.old + 1) }
    ensures home { body.new.home ≡ body.old.home }
{
    body.lists.push(Cells::new(alloc))?;
    body.copies.push(Vec::new(alloc))?;
    body.tasks.push(task)?;
    body.now = Now::Begin(Part::Pass { at: actuals, line });
    Ok(None)
}

/// A call, once its actual parameters are known.
pub fn call(
    body: &mut Body,
    alloc: Global,
    program: &Program,
    machine: &mut Machine,
    procedure: bool,
    routine: u32,
    levels: u32,
    line: u32,
) -> Turned
    requires ready { IsReady machine.old }
    ensures moves { Moves program.now (continuing program.now body.old (moment_of machine.old) Way.Actuals
        (Task.Call procedure routine levels line)) result body.new (moment_of machine.new) }
    ensures ready { IsReady machine.new }
{
    match program.routine(routine) {
        Some(found) => match frame_out(machine, levels, body.home.base) {
            Ok(frame) => {
                enter(
                    body,
                    alloc,
                    machine,
                    procedure,
                    routine,
                    found.cells,
                    frame,
                    line,
                )
            }
            Err(halt) => body.fail(line, halt),
        },
        None => body.no_row(),
    }
}

/// The call of a routine parameter, once its actual parameters are known.
pub fn call_formal(
    body: &mut Body,
    alloc: Global,
    program: &Program,
    machine: &mut Machine,
    procedure: bool,
    formal: u32,
    levels: u32,
    line: u32,
) -> Turned
    requires ready { IsReady machine.old }
    ensures moves { Moves program.now (continuing program.now body.old (moment_of machine.old) Way.Actuals
        (Task.CallFormal procedure formal levels line)) result body.new (moment_of machine.new) }
    ensures ready { IsReady machine.new }
{
    match program.row(formal) {
        Row::Name(NameRow::RoutineFormal { place, heading, .. }) => {
            let found = routine_out(program, machine, heading, levels, body.home.base, place);
            enter_found(body, alloc, program, machine, procedure, found, line)
        }
        _ => body.no_row(),
    }
}

/// An action on a line gave the routine that a routine parameter stands for and the frame in which it was declared, or
/// it was not done: the routine is to be entered, once its actual parameters are known.
fn enter_found(
    body: &mut Body,
    alloc: Global,
    program: &Program,
    machine: &Machine,
    procedure: bool,
    found: Result<(u32, u32), Halt>,
    line: u32,
) -> Turned
    requires ready { IsReady machine.now }
    ensures moves { (a : Action (ℕ × ℕ)) (m : Moment) → DoesAll (λ x. x) (performs a m.state) found m
        (moment_of machine.now) → Moves program.now (before body.old m (bind (doing line a (λ (routine, frame).
        entered program.now routine frame (top_passed (lists_of body.old)) (after_call procedure)))
        (under_passed program.now body.old)) 0) result body.new (moment_of machine.now) }
{
    match found {
        Ok((routine, frame)) => match program.routine(routine) {
            Some(found) => {
                enter(
                    body,
                    alloc,
                    machine,
                    procedure,
                    routine,
                    found.cells,
                    frame,
                    line,
                )
            }
            None => body.no_row(),
        },
        Err(halt) => body.fail(line, halt),
    }
}

/// A call of a routine with this many cells is to be entered, in the frame in which its routine was declared, unless
/// a limit forbids it.
fn enter(
    body: &mut Body,
    alloc: Global,
    machine: &Machine,
    procedure: bool,
    routine: u32,
    cells: u32,
    frame: u32,
    line: u32,
) -> Turned
    requires ready { IsReady machine.now }
    ensures moves { (p : ProgramRows) (r : RoutineRow) → routine_at p routine ≡ Some r → r.cells ≡ cells
        → Moves p (before body.old (moment_of machine.now) (bind (Enter (entering routine cells frame
        (top_passed (lists_of body.old))) (after_call procedure)) (under_passed p body.old)) 0) result body.new
        (moment_of machine.now) }
{
    match limit_passed(machine, cells.saturating_add(cells_copied(body))) {
        None => stop_at_call(body, alloc, machine.top, procedure, routine, cells, frame),
        Some(which) => body.fail(line, Halt::Limited(which)),
    }
}

/// How many cells the copies have that go with what is passed; 4,294,967,295 stands for more.
fn cells_copied(body: &Body) -> u32
    ensures { result ≡ min (length (copied (first_of (lists_of body.entry.now).copies))) 4294967295 }
{
    match body.copies.last() {
        Some(copies) => cells_of(copies),
        None => 0,
    }
}

/// How many cells copies have; 4,294,967,295 stands for more.
fn cells_of(copies: &[Copied]) -> u32
    ensures { result ≡ min (length (copied (map copy_of copies.now))) 4294967295 }
{
    let mut cells: u32 = 0;
    'copies: for copy in copies {
        cells = cells.saturating_add(copy.cells.len());
    }
    cells
}

/// A call that passes no limit is to be entered. Its frame begins at a base.
fn stop_at_call(
    body: &mut Body,
    alloc: Global,
    base: u32,
    procedure: bool,
    routine: u32,
    cells: u32,
    frame: u32,
) -> Turned
    requires fits { base + (cells + length (copied (first_of (lists_of body.old).copies))) ≤ stack_end }
    ensures entered { (p : ProgramRows) (m : Moment) → m.state.top ≡ base → limit_passed m.state (cells_entered
        (entering routine cells frame (top_passed (lists_of body.old)))) ≡ None → EntersRoutine p (configuration (bind
        (Enter (entering routine cells frame (top_passed (lists_of body.old))) (after_call procedure))
        (under_passed p body.old)) m) routine result body.new }
    ensures falls { (left before : ℕ) → Falls result left before }
    ensures home { body.new.home ≡ body.old.home }
{
    let list = body.take_list(alloc);
    let copies = body.take_copies(alloc);
    let args = arguments(alloc, frame, &list, &copies, base + cells)?;
    body.lists.push(args)?;
    if procedure {
        body.tasks.push(Task::Next(Next::Forget))?;
        Ok(Some(Pause::Enter(routine)))
    } else {
        Ok(Some(Pause::Enter(routine)))
    }
}

/// The arguments of a call: a link to a frame, the cells of the parameters, and those of the copies, which stand in the
/// new frame from an address on.
fn arguments(
    alloc: Global,
    frame: u32,
    cells: &Cells,
    copies: &[Copied],
    address: u32,
) -> Result<Cells, Halt>
    requires fits { address + length (copied (map copy_of copies.now)) ≤ stack_end }
    ensures made { IfOk result (λ args. args ≡ CellValue.Frame frame
        ∷ placed address (map copy_of copies.now) cells.now ++ copied (map copy_of copies.now)) }
    ensures memory { IfErr result (λ e. e ≡ Halt.Memory) }
{
    if copies.is_empty() {
        return with_link(alloc, frame, cells);
    }
    let held = with_addresses(alloc, cells, copies, address)?;
    let mut args = with_link(alloc, frame, &held)?;
    append_copies(&mut args, copies)?;
    Ok(args)
}

/// A link to a frame, and the cells of actual parameters after it.
fn with_link(alloc: Global, frame: u32, actuals: &Cells) -> Result<Cells, Halt>
    ensures made { IfOk result (λ args. args ≡ CellValue.Frame frame ∷ actuals.now) }
    ensures memory { IfErr result (λ e. e ≡ Halt.Memory) }
{
    let mut args = Cells::new(alloc);
    add_value(&mut args, Value::Frame(frame))?;
    append_all(&mut args, actuals)?;
    Ok(args)
}

/// The cells of parameters with the addresses of the copies, which stand one after the other from an address on.
fn with_addresses(
    alloc: Global,
    cells: &Cells,
    copies: &[Copied],
    address: u32,
) -> Result<Cells, Halt>
    requires fits { address + length (copied (map copy_of copies.now)) ≤ stack_end }
    ensures made { IfOk result (λ held. held ≡ placed address (map copy_of copies.now) cells.now) }
    ensures memory { IfErr result (λ e. e ≡ Halt.Memory) }
{
    let mut held = Vec::from_slice(alloc, cells.as_slice())?;
    let mut addr = address;
    'copies: for copy in copies {
        put_at(&mut held, copy.at, Value::Place(addr));
        addr += copy.cells.len();
    }
    listed(alloc, &held)
}

/// Puts a value at a place, if there is one.
fn put_at(values: &mut Vec<Value>, at: u32, value: Value)
    ensures { values.new.items ≡ slice_set values.old.items at value }
{
    if (at as usize) < values.len() {
        values[at as usize] = value;
    }
}

/// Values as a list.
fn listed(alloc: Global, values: &[Value]) -> Result<Cells, Halt>
    ensures made { IfOk result (λ list. list ≡ values.now) }
    ensures memory { IfErr result (λ e. e ≡ Halt.Memory) }
{
    let mut list = Cells::new(alloc);
    'values: for value in values {
        add_value(&mut list, *value)?;
    }
    Ok(list)
}

/// Puts the cells of copies at the end of a list.
fn append_copies(list: &mut Cells, copies: &[Copied]) -> Result<(), Halt>
    ensures added { OnOk result (list.new ≡ list.old ++ copied (map copy_of copies.now)) }
    ensures memory { IfErr result (λ e. e ≡ Halt.Memory) }
{
    'copies: for copy in copies {
        append_all(list, &copy.cells)?;
    }
    Ok(())
}
