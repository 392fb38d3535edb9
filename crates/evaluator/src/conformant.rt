//! Accesses of conformant arrays.

ghost use Rattle.std.specs.Prelude.{◌+◌, ◌≡◌};
ghost use Rattle.core_program.specs.{Accesses.spend as spend_in, ProgramRows.ProgramRows};
ghost use Rattle.core_program.specs.Accesses.{bounded_before, component_found, is_conformant as conforms};
ghost use Rattle.core_program.specs.Tree.{Bounded, Ret, bind, doing};
ghost use Rattle.eval_ops.specs.Conformant as action;
ghost use Rattle.eval_ops.specs.Machines.{IsReady, moment_of};
ghost use Rattle.evaluator.specs.Rest.{conformant_indexed, conformant_value, here, value_wanted, waiting};
ghost use Rattle.evaluator.specs.Turns.{Leads, Moves, before, continuing};
ghost use Rattle.evaluator.specs.Weight.{Falls, body_weight, come, part_weight, tasks_weight};

use crate::accesses::{continue_access, variable_value};
use crate::body::{Body, Turned};
use crate::tasks::{Located, Now, Part, Task, Way};
use cell_value::Value;
use core_program::Program;
use eval_ops::{
    ArrayWhole, Machine, conformant_component, conformant_out, conformant_whole, is_conformant,
    spend,
};
use std::alloc::Global;

/// A conformant parameter, in the frame to which this many links lead.
pub fn conformant(
    body: &mut Body,
    program: &Program,
    machine: &mut Machine,
    place: u32,
    levels: u32,
    line: u32,
) -> Turned
    requires ready { IsReady machine.old }
    ensures moves { Moves program.now (before body.old (moment_of machine.old) (bind (spend_in (here body.old.home line)
        (doing line (action.conformant_out levels body.old.home.base place) (λ (addr, frame).
        Ret (Bounded addr frame)))) (waiting program.now body.old)) 0) result body.new (moment_of machine.new) }
    ensures ready { IsReady machine.new }
{
    match spend(machine, 1) {
        Ok(()) => body.bounded(line, conformant_out(machine, levels, body.home.base, place)),
        Err(halt) => body.fail(line, halt),
    }
}

/// The access of a conformant array begins, of which a component is accessed, if its row stands before the component's.
#[inline(always)]
pub fn locate_bounded(
    body: &mut Body,
    index: u32,
    array: u32,
    of: u32,
    access: u32,
    row: u32,
    target: bool,
    line: u32,
) -> Turned
    ensures turns { (p : ProgramRows) → Leads p (bind (bounded_before row access target (here body.old.home line)
        (conformant_indexed p body.old.home index array of line)) (waiting p body.old)) result body.new }
    ensures falls { Falls result (body_weight body.new)
        (part_weight (Part.Locate row target line) + tasks_weight body.old) }
    ensures home { body.new.home ≡ body.old.home }
{
    if access < row {
        body.wait(
            Task::BoundedIndex {
                index,
                array,
                of,
                line,
            },
            Now::Begin(Part::Locate {
                row: access,
                target,
                line,
            }),
        )
    } else {
        body.no_row()
    }
}

/// What waited for a variable of an expression or of an access goes on with a conformant array.
pub fn continue_bounded(
    body: &mut Body,
    alloc: Global,
    program: &Program,
    machine: &mut Machine,
    located: Located,
    addr: u32,
    frame: u32,
) -> Turned
    requires ready { IsReady machine.old }
    ensures moves { Moves program.now (continuing program.now body.old (moment_of machine.old) (Way.Bounded addr frame)
        (Task.Located located)) result body.new (moment_of machine.new) }
    ensures ready { IsReady machine.new }
{
    match located {
        Located::Value { of, line } => bounded_value(
            body, alloc, program, machine, of, line, addr, frame,
        ),
        _ => continue_access(body, alloc, program, machine, located, addr),
    }
}

/// The value of a variable of a type, which may be a conformant array.
fn bounded_value(
    body: &mut Body,
    alloc: Global,
    program: &Program,
    machine: &mut Machine,
    of: u32,
    line: u32,
    addr: u32,
    frame: u32,
) -> Turned
    requires ready { IsReady machine.old }
    ensures moves { Moves program.now (before body.old (moment_of machine.old) (bind (value_wanted program.now line of
        (conforms program.now of) (Bounded addr frame)) (waiting program.now body.old)) (come + 1)) result body.new
        (moment_of machine.new) }
    ensures ready { IsReady machine.new }
{
    if is_conformant(program, of) {
        whole_value(body, alloc, program, machine, of, line, addr, frame)
    } else {
        variable_value(
            body,
            alloc,
            program,
            machine,
            program.type_row(of),
            line,
            addr,
        )
    }
}

/// The values of the cells of a conformant array.
fn whole_value(
    body: &mut Body,
    alloc: Global,
    program: &Program,
    machine: &mut Machine,
    of: u32,
    line: u32,
    addr: u32,
    frame: u32,
) -> Turned
    requires ready { IsReady machine.old }
    ensures moves { Moves program.now (before body.old (moment_of machine.old) (bind (conformant_value program.now line
        of addr frame) (waiting program.now body.old)) (come + 1)) result body.new (moment_of machine.new) }
    ensures ready { IsReady machine.new }
{
    match conformant_whole(alloc, program, machine, of, addr, frame) {
        Ok(whole) => {
            let ArrayWhole { cells, .. } = whole;
            body.give_cells(cells)
        }
        Err(halt) => body.fail(line, halt),
    }
}

/// A conformant array is found, before an index in it.
pub fn bounded_index(
    body: &mut Body,
    machine: &mut Machine,
    index: u32,
    array: u32,
    of: u32,
    line: u32,
    addr: u32,
    frame: u32,
) -> Turned
    requires ready { IsReady machine.old }
    ensures moves { (p : ProgramRows) → Moves p (before body.old (moment_of machine.old) (bind (conformant_indexed p
        body.old.home index array of line addr frame) (waiting p body.old)) (come + 1)) result body.new
        (moment_of machine.new) }
    ensures ready { IsReady machine.new }
{
    match spend(machine, 1) {
        Ok(()) => body.wait(
            Task::BoundedComponent {
                array,
                of,
                addr,
                frame,
                line,
            },
            Now::Begin(Part::Eval { row: index, line }),
        ),
        Err(halt) => body.fail(line, halt),
    }
}

/// The component of a conformant array at an address, by the value of its index.
pub fn bounded_component(
    body: &mut Body,
    alloc: Global,
    program: &Program,
    machine: &mut Machine,
    array: u32,
    of: u32,
    addr: u32,
    frame: u32,
    line: u32,
    value: Value,
) -> Turned
    requires ready { IsReady machine.old }
    ensures moves { Moves program.now (before body.old (moment_of machine.old) (bind (doing line
        (action.conformant_component program.now array addr frame value) (component_found (conforms program.now of)
        frame)) (waiting program.now body.old)) (come + 1)) result body.new (moment_of machine.new) }
    ensures ready { IsReady machine.new }
{
    match conformant_component(alloc, program, machine, array, addr, frame, value) {
        Ok(found) => body.either(
            is_conformant(program, of),
            Now::Came(Way::Bounded(found, frame)),
            Now::Came(Way::Address(found)),
        ),
        Err(halt) => body.fail(line, halt),
    }
}
