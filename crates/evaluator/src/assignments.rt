//! Assignments.

ghost use Rattle.std.specs.Prelude.{◌+◌, ◌≡◌};
ghost use Rattle.eval_ops.specs.Machines.{IsReady, moment_of};
ghost use Rattle.evaluator.specs.{Rest.from_under, Turns.Leads, Turns.Moves, Turns.continuing};
ghost use Rattle.evaluator.specs.Weight.{Falls, body_weight, come, task_weight, tasks_weight};

use crate::body::{Body, Turned};
use crate::tasks::{Now, Part, Task, Way};
use cell_value::Value;
use core_program::Program;
use eval_ops::{Machine, assign_to, tag_accessed, write_cells};
use std::alloc::Global;

/// An assignment goes on with a value of a type of one cell: its target is located.
pub fn locate_target(
    body: &mut Body,
    program: &Program,
    target: u32,
    of: u32,
    line: u32,
    value: Value,
) -> Turned
    ensures turns { Leads program.now (from_under program.now body.old (Now.Came (Way.Scalar value)) (Task.Target target
        of line)) result body.new }
    ensures falls { Falls result (body_weight body.new)
        (come + task_weight (Task.Target target of line) + tasks_weight body.old) }
    ensures home { body.new.home ≡ body.old.home }
{
    body.hold(
        value,
        Task::Put { target, of, line },
        Now::Begin(Part::Locate {
            row: target,
            target: true,
            line,
        }),
    )
}

/// An assignment goes on with a value of several cells: its target is located.
pub fn locate_target_cells(
    body: &mut Body,
    program: &Program,
    target: u32,
    of: u32,
    line: u32,
) -> Turned
    ensures turns { Leads program.now (from_under program.now body.old (Now.Came Way.Cells) (Task.Target target of
        line)) result body.new }
    ensures falls { Falls result (body_weight body.new)
        (come + task_weight (Task.Target target of line) + tasks_weight body.old) }
    ensures home { body.new.home ≡ body.old.home }
{
    body.wait(
        Task::PutCells { line },
        Now::Begin(Part::Locate {
            row: target,
            target: true,
            line,
        }),
    )
}

/// An assignment ends: the value that waited goes to its target.
pub fn put(
    body: &mut Body,
    alloc: Global,
    program: &Program,
    machine: &mut Machine,
    target: u32,
    of: u32,
    line: u32,
    addr: u32,
) -> Turned
    requires ready { IsReady machine.old }
    ensures moves { Moves program.now (continuing program.now body.old (moment_of machine.old) (Way.Address addr)
        (Task.Put target of line)) result body.new (moment_of machine.new) }
    ensures ready { IsReady machine.new }
{
    let value = body.take_value();
    let tag = tag_accessed(program, program.row(target));
    let done = assign_to(
        alloc,
        program,
        machine,
        tag,
        program.type_row(of),
        addr,
        value,
    );
    body.finally(line, done)
}

/// An assignment ends: the list that waited goes to its target.
pub fn put_cells(
    body: &mut Body,
    alloc: Global,
    program: &Program,
    machine: &mut Machine,
    line: u32,
    addr: u32,
) -> Turned
    requires ready { IsReady machine.old }
    ensures moves { Moves program.now (continuing program.now body.old (moment_of machine.old) (Way.Address addr)
        (Task.PutCells line)) result body.new (moment_of machine.new) }
    ensures ready { IsReady machine.new }
{
    let list = body.take_list(alloc);
    let done = write_cells(alloc, machine, addr, &list);
    body.finally(line, done)
}
