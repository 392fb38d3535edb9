//! Actual parameters.

ghost use Rattle.std.specs.Prelude.{◌++◌, ◌+◌, ◌∷◌, ◌≡◌, [], ℕ, IfErr, OnOk};
ghost use Rattle.cell_value.specs.declared.values.Value.{Value as CellValue};
ghost use Rattle.core_program.specs.{Accesses.with_formal, Passed.and_cells, Tree.bind, Tree.doing};
ghost use Rattle.core_program.specs.Actions.{Action, performs};
ghost use Rattle.core_program.specs.Cells as action;
ghost use Rattle.core_program.specs.Expressions as expressions;
ghost use Rattle.eval_ops.specs.Machines.{DoesAll, IsReady, Moment, machine_state, moment_of};
ghost use Rattle.evaluator.specs.Rest.{declared, from_under, here, lists_of, paid, pass, top_passed, under_passed};
ghost use Rattle.evaluator.specs.Turns.{Leads, Moves, before, beginning};
ghost use Rattle.evaluator.specs.Weight.{Falls, body_weight, come, part_weight, task_weight, tasks_weight};

use crate::array_actuals::{pass_array, pass_place};
use crate::body::{Body, Turned};
use crate::tasks::{Located, Now, Part, Task, Way};
use cell_value::{Cells, Value};
use core_program::Program;
use core_program::rows::{ItemRow, LIST_END, NameRow, Row};
use eval_ops::{Halt, Machine, add_value, frame_out, passed_test, routine_out, spend, test};
use std::alloc::Global;

/// The actual parameters from an item on.
pub fn pass_actuals(
    body: &mut Body,
    alloc: Global,
    program: &Program,
    machine: &mut Machine,
    at: u32,
    line: u32,
) -> Turned
    requires ready { IsReady machine.old }
    ensures moves { Moves program.now (beginning program.now body.old (moment_of machine.old) (Part.Pass at line))
        result body.new (moment_of machine.new) }
    ensures ready { IsReady machine.new }
{
    if at == LIST_END {
        return body.go(Now::Came(Way::Actuals));
    }
    match program.row(at) {
        Row::Item(item) => pass_actual(body, alloc, program, machine, item, line),
        _ => body.no_row(),
    }
}

/// The same, by what kind of item it is.
fn pass_actual(
    body: &mut Body,
    alloc: Global,
    program: &Program,
    machine: &mut Machine,
    item: ItemRow,
    line: u32,
) -> Turned
    requires ready { IsReady machine.old }
    ensures moves { Moves program.now (before body.old (moment_of machine.old) (bind
        (expressions.of_actual program.now (top_passed (lists_of body.old)) (here body.old.home line) (Row.Item item))
        (under_passed program.now body.old)) (come + 1)) result body.new (moment_of machine.new) }
    ensures ready { IsReady machine.new }
{
    match item {
        ItemRow::Value { value, of, next } => body.wait(
            Task::Actual { of, next, line },
            Now::Begin(Part::Eval { row: value, line }),
        ),
        ItemRow::Place { access, next } => body.wait(
            Task::Located(Located::Passed { next, line }),
            Now::Begin(Part::Locate {
                row: access,
                target: false,
                line,
            }),
        ),
        ItemRow::ArrayPlace { .. } => pass_conformant(body, alloc, program, item, line),
        ItemRow::ArrayValue { .. } => pass_conformant(body, alloc, program, item, line),
        ItemRow::Routine {
            routine,
            levels,
            next,
        } => {
            let found = routine_in(machine, routine, levels, body.home.base);
            add_routine(body, alloc, program, found, next, line)
        }
        ItemRow::RoutineFormal {
            formal,
            levels,
            next,
        } => {
            let formal = program.row(formal);
            pass_formal(body, alloc, program, machine, formal, levels, next, line)
        }
        _ => body.no_row(),
    }
}

/// An actual of a conformant parameter, by what kind of item it is.
fn pass_conformant(
    body: &mut Body,
    alloc: Global,
    program: &Program,
    item: ItemRow,
    line: u32,
) -> Turned
    ensures turns { Leads program.now (bind (expressions.of_actual program.now (top_passed (lists_of body.old)) (here
        body.old.home line) (Row.Item item)) (under_passed program.now body.old)) result body.new }
    ensures falls { Falls result (body_weight body.new) (come + 1 + tasks_weight body.old) }
    ensures home { body.new.home ≡ body.old.home }
{
    match item {
        ItemRow::ArrayPlace {
            first,
            access,
            of,
            next,
        } => pass_place(body, alloc, program, first, access, of, next, line),
        ItemRow::ArrayValue {
            first,
            value,
            of,
            next,
        } => pass_array(body, alloc, program, first, value, of, next, line),
        _ => body.no_row(),
    }
}

/// An actual of a routine parameter that is itself one, by the row of its name.
fn pass_formal(
    body: &mut Body,
    alloc: Global,
    program: &Program,
    machine: &mut Machine,
    formal: Row,
    levels: u32,
    next: u32,
    line: u32,
) -> Turned
    requires ready { IsReady machine.old }
    ensures moves { Moves program.now (before body.old (moment_of machine.old) (bind (with_formal formal
        (λ place heading. expressions.pass_routine (here body.old.home line) next (top_passed (lists_of body.old))
        (action.routine_out program.now heading levels body.old.home.base place))) (under_passed program.now body.old))
        (come + 1)) result body.new (moment_of machine.new) }
    ensures ready { IsReady machine.new }
{
    match formal {
        Row::Name(NameRow::RoutineFormal { place, heading, .. }) => {
            let found = formal_out(program, machine, heading, levels, body.home.base, place);
            add_routine(body, alloc, program, found, next, line)
        }
        _ => body.no_row(),
    }
}

/// A step was taken, and then an action on a line gave an actual routine parameter and the frame in which it was
/// declared, or one of them was not done.
fn add_routine(
    body: &mut Body,
    alloc: Global,
    program: &Program,
    found: Result<(u32, u32), Halt>,
    next: u32,
    line: u32,
) -> Turned
    ensures moves { (a : Action (ℕ × ℕ)) (m m' : Moment) → DoesAll (λ x. x) (performs (paid a) m.state) found m m'
        → Moves program.now (before body.old m (bind (doing line (paid a) (λ (routine, frame).
        pass body.old.home next line
        (and_cells (top_passed (lists_of body.old)) (CellValue.Routine routine frame ∷ []))))
        (under_passed program.now body.old)) 0) result body.new m' }
{
    match found {
        Ok((routine, frame)) => {
            let value = Value::Routine(routine, frame);
            add_cell(body, alloc, program, value, next, line)
        }
        Err(halt) => body.fail(line, halt),
    }
}

/// An actual value parameter of a type of one cell has its value.
pub fn add_actual(
    body: &mut Body,
    alloc: Global,
    program: &Program,
    of: u32,
    next: u32,
    line: u32,
    value: Value,
) -> Turned
    ensures turns { Leads program.now (from_under program.now body.old (Now.Came (Way.Scalar value)) (Task.Actual of
        next line)) result body.new }
    ensures falls { Falls result (body_weight body.new) (come + task_weight (Task.Actual of next line)
        + tasks_weight body.old) }
    ensures home { body.new.home ≡ body.old.home }
{
    match passed_test(test(program, program.type_row(of), value)) {
        Ok(tested) => add_cell(body, alloc, program, tested, next, line),
        Err(halt) => body.fail(line, halt),
    }
}

/// One cell more of the actual parameters is known.
pub fn add_cell(
    body: &mut Body,
    alloc: Global,
    program: &Program,
    value: Value,
    next: u32,
    line: u32,
) -> Turned
    ensures turns { Leads program.now (bind (pass body.old.home next line
        (and_cells (top_passed (lists_of body.old)) (value ∷ []))) (under_passed program.now body.old)) result
        body.new }
    ensures falls { Falls result (body_weight body.new)
        (part_weight (Part.Pass next line) + 1 + tasks_weight body.old) }
    ensures home { body.new.home ≡ body.old.home }
{
    let mut list = body.take_list(alloc);
    add_value(&mut list, value)?;
    body.lists.push(list)?;
    body.now = Now::Begin(Part::Pass { at: next, line });
    Ok(None)
}

/// An actual value parameter of a type of several cells has its values.
pub fn add_actual_cells(
    body: &mut Body,
    alloc: Global,
    program: &Program,
    of: u32,
    next: u32,
    line: u32,
) -> Turned
    ensures turns { Leads program.now (from_under program.now body.old (Now.Came Way.Cells) (Task.Actual of next line))
        result body.new }
    ensures falls { Falls result (body_weight body.new) (come + task_weight (Task.Actual of next line)
        + tasks_weight body.old) }
    ensures home { body.new.home ≡ body.old.home }
{
    let values = body.take_list(alloc);
    let mut list = body.take_list(alloc);
    append_all(&mut list, &values)?;
    body.lists.push(list)?;
    body.now = Now::Begin(Part::Pass { at: next, line });
    Ok(None)
}

/// A step is taken, and this is a routine that was declared this many blocks out, with the base of the frame of that
/// block.
fn routine_in(
    machine: &mut Machine,
    routine: u32,
    levels: u32,
    base: u32,
) -> Result<(u32, u32), Halt>
    requires ready { IsReady machine.old }
    ensures action { DoesAll (λ x. x) (performs (paid (declared routine levels base)) (machine_state machine.old))
        result (moment_of machine.old) (moment_of machine.new) }
    ensures ready { IsReady machine.new }
{
    spend(machine, 1)?;
    let frame = frame_out(machine, levels, base)?;
    Ok((routine, frame))
}

/// A step is taken, and this is what a routine parameter stands for.
fn formal_out(
    program: &Program,
    machine: &mut Machine,
    heading: u32,
    levels: u32,
    base: u32,
    place: u32,
) -> Result<(u32, u32), Halt>
    requires ready { IsReady machine.old }
    ensures action { DoesAll (λ x. x) (performs (paid (action.routine_out program.now heading levels base place))
        (machine_state machine.old)) result (moment_of machine.old) (moment_of machine.new) }
    ensures ready { IsReady machine.new }
{
    spend(machine, 1)?;
    let found = routine_out(program, machine, heading, levels, base, place)?;
    Ok(found)
}

/// Puts the values of a list at the end of another.
pub(crate) fn append_all(list: &mut Cells, values: &Cells) -> Result<(), Halt>
    ensures added { OnOk result (list.new ≡ list.old ++ values.now) }
    ensures memory { IfErr result (λ e. e ≡ Halt.Memory) }
{
    'cells: for i in 0..values.len() {
        add_value(list, values.at(i))?;
    }
    Ok(())
}
