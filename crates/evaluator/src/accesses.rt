//! Accesses.

ghost use Rattle.std.specs.Prelude.{◌+◌, ◌≡◌, ℕ, slice_get};
ghost use Rattle.core_program.specs.{Accesses.with_components, Accesses.with_record, Cells.cell_out};
ghost use Rattle.core_program.specs.{Cells.reference_out, Heap.pointed_at as pointed_at_in, ProgramRows.ProgramRows};
ghost use Rattle.core_program.specs.Accesses.{address, cells_at, locate_before, locate_field as field_in, of_access};
ghost use Rattle.core_program.specs.Accesses.{on_address, scalar, spend as spend_in, value_at, with_bounds};
ghost use Rattle.core_program.specs.Cells as action;
ghost use Rattle.core_program.specs.Tree.{ActTree, Locate, Sub, bind, doing};
ghost use Rattle.eval_ops.specs.Machines.{IsReady, moment_of};
ghost use Rattle.evaluator.specs.Rest.{from_under, here, waiting};
ghost use Rattle.evaluator.specs.Turns.{Leads, Moves, before, beginning, continuing};
ghost use Rattle.evaluator.specs.Weight.{Falls, body_weight, come, part_weight, tasks_weight};

use crate::actuals::add_cell;
use crate::body::{Body, Turned};
use crate::conformant::{conformant, locate_bounded};
use crate::tasks::{Located, Now, OperandTask, Part, Task, Way};
use cell_value::Value;
use core_program::rows::{AccessRow, Row, TypeRow};
use core_program::{Components, Program};
use eval_ops::{
    Machine, cell_out, component, field_at, ordinal_at, pointed_at, pointer_at, read_cells,
    reference_out, set_at, size_of, spend,
};
use std::alloc::Global;

/// An access begins.
pub fn locate(
    body: &mut Body,
    alloc: Global,
    program: &Program,
    machine: &mut Machine,
    row: u32,
    target: bool,
    line: u32,
) -> Turned
    requires ready { IsReady machine.old }
    ensures moves { Moves program.now (beginning program.now body.old (moment_of machine.old) (Part.Locate row target
        line)) result body.new (moment_of machine.new) }
    ensures ready { IsReady machine.new }
{
    match program.row(row) {
        Row::Access(access) => begin_access(
            body, alloc, program, machine, access, row, target, line,
        ),
        _ => body.no_row(),
    }
}

/// An access begins, by what kind it is.
fn begin_access(
    body: &mut Body,
    alloc: Global,
    program: &Program,
    machine: &mut Machine,
    access: AccessRow,
    row: u32,
    target: bool,
    line: u32,
) -> Turned
    requires ready { IsReady machine.old }
    ensures moves { Moves program.now (before body.old (moment_of machine.old) (bind (of_access program.now row target
        (here body.old.home line) access) (waiting program.now body.old)) (part_weight (Part.Locate row target line)))
        result body.new (moment_of machine.new) }
    ensures ready { IsReady machine.new }
{
    match access {
        AccessRow::Variable { place, levels, .. } => variable(
            body, program, machine, place, levels, line,
        ),
        AccessRow::Reference { place, levels, .. } => reference(
            body, program, machine, place, levels, line,
        ),
        AccessRow::Conformant { .. } => begin_bounded(
            body, program, machine, access, row, target, line,
        ),
        AccessRow::Component { .. } => begin_bounded(
            body, program, machine, access, row, target, line,
        ),
        AccessRow::Index {
            access,
            index,
            array,
            ..
        } => {
            let component = Located::Index { index, array, line };
            locate_first(body, component, access, row, target, line)
        }
        AccessRow::Field { access, field, .. } => {
            let selected = Located::Field {
                field,
                target,
                line,
            };
            locate_first(body, selected, access, row, target, line)
        }
        AccessRow::Within {
            record: place,
            field,
            ..
        } => within(body, alloc, program, machine, place, field, target, line),
        AccessRow::Dereference { access, .. } => {
            locate_first(body, Located::Pointed { line }, access, row, target, line)
        }
    }
}

/// An access of a conformant parameter, or of a component of one, begins.
fn begin_bounded(
    body: &mut Body,
    program: &Program,
    machine: &mut Machine,
    access: AccessRow,
    row: u32,
    target: bool,
    line: u32,
) -> Turned
    requires ready { IsReady machine.old }
    ensures moves { Moves program.now (before body.old (moment_of machine.old) (bind (of_access program.now row target
        (here body.old.home line) access) (waiting program.now body.old)) (part_weight (Part.Locate row target line)))
        result body.new (moment_of machine.new) }
    ensures ready { IsReady machine.new }
{
    match access {
        AccessRow::Conformant { place, levels, .. } => conformant(
            body, program, machine, place, levels, line,
        ),
        AccessRow::Component {
            access,
            index,
            array,
            of,
        } => locate_bounded(body, index, array, of, access, row, target, line),
        _ => body.no_row(),
    }
}

/// A variable, a value parameter or the result of a function, in the frame to which this many links lead.
fn variable(
    body: &mut Body,
    program: &Program,
    machine: &mut Machine,
    place: u32,
    levels: u32,
    line: u32,
) -> Turned
    requires ready { IsReady machine.old }
    ensures moves { Moves program.now (before body.old (moment_of machine.old) (bind (spend_in (here body.old.home line)
        (doing line (cell_out levels body.old.home.base place) address)) (waiting program.now body.old)) 0) result
        body.new (moment_of machine.new) }
    ensures ready { IsReady machine.new }
{
    match spend(machine, 1) {
        Ok(()) => body.address(line, cell_out(machine, levels, body.home.base, place)),
        Err(halt) => body.fail(line, halt),
    }
}

/// The variable that a variable parameter stands for, in the frame to which this many links lead.
fn reference(
    body: &mut Body,
    program: &Program,
    machine: &mut Machine,
    place: u32,
    levels: u32,
    line: u32,
) -> Turned
    requires ready { IsReady machine.old }
    ensures moves { Moves program.now (before body.old (moment_of machine.old) (bind (spend_in (here body.old.home line)
        (doing line (reference_out levels body.old.home.base place) address)) (waiting program.now body.old)) 0) result
        body.new (moment_of machine.new) }
    ensures ready { IsReady machine.new }
{
    match spend(machine, 1) {
        Ok(()) => body.address(line, reference_out(machine, levels, body.home.base, place)),
        Err(halt) => body.fail(line, halt),
    }
}

/// What waited for a variable of an expression or of an access goes on with its address.
pub fn continue_access(
    body: &mut Body,
    alloc: Global,
    program: &Program,
    machine: &mut Machine,
    located: Located,
    addr: u32,
) -> Turned
    requires ready { IsReady machine.old }
    ensures moves { Moves program.now (continuing program.now body.old (moment_of machine.old) (Way.Address addr)
        (Task.Located located)) result body.new (moment_of machine.new) }
    ensures ready { IsReady machine.new }
{
    match located {
        Located::Value { of, line } => variable_value(
            body,
            alloc,
            program,
            machine,
            program.type_row(of),
            line,
            addr,
        ),
        Located::Index { index, array, line } => match spend(machine, 1) {
            Ok(()) => body.wait(
                Task::Operand(OperandTask::Component { array, addr, line }),
                Now::Begin(Part::Eval { row: index, line }),
            ),
            Err(halt) => body.fail(line, halt),
        },
        Located::Field {
            field,
            target,
            line,
        } => match spend(machine, 1) {
            Ok(()) => locate_field(body, alloc, program, machine, target, line, addr, field),
            Err(halt) => body.fail(line, halt),
        },
        Located::Pointed { line } => follow_pointer(body, machine, line, addr),
        Located::Passed { next, line } => add_cell(
            body,
            alloc,
            program,
            Value::Place(addr),
            next,
            line,
        ),
    }
}

/// The access begins to which a selector is put (6.5.3, 6.5.4), if its row stands before the selector's. What waits for
/// it goes on with its address.
#[inline(always)]
fn locate_first(
    body: &mut Body,
    located: Located,
    access: u32,
    row: u32,
    target: bool,
    line: u32,
) -> Turned
    ensures turns { (p : ProgramRows) (go : ℕ → ActTree)
        → from_under p body.old (Now.Begin (Part.Locate access target line)) (Task.Located located)
        ≡ bind (Sub (Locate access target (here body.old.home line)) (on_address go)) (waiting p body.old)
        → Leads p (bind (locate_before row access target (here body.old.home line) go) (waiting p body.old)) result
        body.new }
    ensures falls { Falls result (body_weight body.new)
        (part_weight (Part.Locate row target line) + tasks_weight body.old) }
    ensures home { body.new.home ≡ body.old.home }
{
    if access < row {
        body.wait(
            Task::Located(located),
            Now::Begin(Part::Locate {
                row: access,
                target,
                line,
            }),
        )
    } else {
        body.no_row()
    }
}

/// The variable to which the pointer at an address points (6.5.4).
fn follow_pointer(body: &mut Body, machine: &mut Machine, line: u32, addr: u32) -> Turned
    requires ready { IsReady machine.old }
    ensures moves { (p : ProgramRows) → Moves p (before body.old (moment_of machine.old) (bind (spend_in (here
        body.old.home line) (doing line (pointed_at_in addr) address)) (waiting p body.old)) 0) result body.new
        (moment_of machine.new) }
    ensures ready { IsReady machine.new }
{
    match spend(machine, 1) {
        Ok(()) => body.address(line, pointed_at(machine, addr)),
        Err(halt) => body.fail(line, halt),
    }
}

/// The value of a variable of a type.
pub(crate) fn variable_value(
    body: &mut Body,
    alloc: Global,
    program: &Program,
    machine: &mut Machine,
    kind: Option<TypeRow>,
    line: u32,
    addr: u32,
) -> Turned
    requires ready { IsReady machine.old }
    ensures moves { Moves program.now (before body.old (moment_of machine.old) (bind (value_at program.now line addr
        kind) (waiting program.now body.old)) (come + 1)) result body.new (moment_of machine.new) }
    ensures ready { IsReady machine.new }
{
    match kind {
        Some(TypeRow::Ordinal { least, greatest }) => {
            body.scalar(line, ordinal_at(machine, least, greatest, addr))
        }
        Some(
            TypeRow::Subrange {
                least,
                greatest,
                ..
            },
        ) => { body.scalar(line, ordinal_at(machine, least, greatest, addr)) }
        Some(TypeRow::Set { base, .. }) => {
            set_value(body, machine, program.type_row(base), line, addr)
        }
        Some(TypeRow::Pointer { .. }) => body.scalar(line, pointer_at(machine, addr)),
        Some(TypeRow::Array { cells, .. }) => variable_cells(
            body, alloc, program, machine, cells, line, addr,
        ),
        Some(TypeRow::Record { cells, .. }) => variable_cells(
            body, alloc, program, machine, cells, line, addr,
        ),
        _ => body.no_row(),
    }
}

/// The value of a variable of a set type, by its base type.
fn set_value(
    body: &mut Body,
    machine: &mut Machine,
    base: Option<TypeRow>,
    line: u32,
    addr: u32,
) -> Turned
    requires ready { IsReady machine.old }
    ensures moves { (p : ProgramRows) → Moves p (before body.old (moment_of machine.old) (bind (with_bounds base (λ
        least greatest. doing line (action.set_at least greatest addr) scalar)) (waiting p body.old)) (come + 1)) result
        body.new (moment_of machine.new) }
    ensures ready { IsReady machine.new }
{
    match base {
        Some(TypeRow::Ordinal { least, greatest }) => {
            body.scalar(line, set_at(machine, least, greatest, addr))
        }
        Some(
            TypeRow::Subrange {
                least,
                greatest,
                ..
            },
        ) => { body.scalar(line, set_at(machine, least, greatest, addr)) }
        _ => body.no_row(),
    }
}

/// The values of this many cells.
fn variable_cells(
    body: &mut Body,
    alloc: Global,
    program: &Program,
    machine: &mut Machine,
    cells: u32,
    line: u32,
    addr: u32,
) -> Turned
    requires ready { IsReady machine.old }
    ensures moves { Moves program.now (before body.old (moment_of machine.old) (bind (cells_at line addr cells) (waiting
        program.now body.old)) (come + 1)) result body.new (moment_of machine.new) }
    ensures ready { IsReady machine.new }
{
    match read_cells(alloc, machine, addr, cells) {
        Ok(values) => body.give_cells(values),
        Err(halt) => body.fail(line, halt),
    }
}

/// A field of a record variable at an address.
fn locate_field(
    body: &mut Body,
    alloc: Global,
    program: &Program,
    machine: &mut Machine,
    target: bool,
    line: u32,
    addr: u32,
    field: u32,
) -> Turned
    requires ready { IsReady machine.old }
    ensures moves { Moves program.now (before body.old (moment_of machine.old) (bind (field_in program.now target line
        addr field) (waiting program.now body.old)) (come + 1)) result body.new (moment_of machine.new) }
    ensures ready { IsReady machine.new }
{
    let found = field_at(alloc, program, machine, target, addr, program.row(field));
    body.address(line, found)
}

/// A field of a record that a with statement around has established.
fn within(
    body: &mut Body,
    alloc: Global,
    program: &Program,
    machine: &mut Machine,
    place: u32,
    field: u32,
    target: bool,
    line: u32,
) -> Turned
    requires ready { IsReady machine.old }
    ensures moves { Moves program.now (before body.old (moment_of machine.old) (bind (spend_in (here body.old.home line)
        (with_record (slice_get body.old.home.records place) (λ addr. field_in program.now target line addr field)))
        (waiting program.now body.old)) 0) result body.new (moment_of machine.new) }
    ensures ready { IsReady machine.new }
{
    match spend(machine, 1) {
        Ok(()) => match body.home.records.at(place) {
            Some(addr) => locate_field(body, alloc, program, machine, target, line, addr, field),
            None => body.no_row(),
        },
        Err(halt) => body.fail(line, halt),
    }
}

/// The component of an array variable at an address, by the value of its index.
pub(crate) fn locate_component(
    body: &mut Body,
    program: &Program,
    array: Option<TypeRow>,
    addr: u32,
    line: u32,
    value: Value,
) -> Turned
    ensures turns { Leads program.now (bind (with_components program.now array (λ a. doing line (action.component a addr
        value) address)) (waiting program.now body.old)) result body.new }
    ensures falls { Falls result (body_weight body.new) (come + 1 + tasks_weight body.old) }
    ensures home { body.new.home ≡ body.old.home }
{
    match array {
        Some(
            TypeRow::Array {
                index,
                component: part,
                ..
            },
        ) => match size_of(program, part) {
            Some(size) => locate_component_in(
                body,
                program,
                program.type_row(index),
                size,
                addr,
                line,
                value,
            ),
            None => body.no_row(),
        },
        _ => body.no_row(),
    }
}

/// The same, by the index type and the cells of a component.
fn locate_component_in(
    body: &mut Body,
    program: &Program,
    index: Option<TypeRow>,
    size: u32,
    addr: u32,
    line: u32,
    value: Value,
) -> Turned
    ensures turns { Leads program.now (bind (with_bounds index (λ least greatest. doing line (action.component (record {
      least = least;
      greatest = greatest;
      size = size;
    }) addr value) address)) (waiting program.now body.old)) result
        body.new }
    ensures falls { Falls result (body_weight body.new) (come + 1 + tasks_weight body.old) }
    ensures home { body.new.home ≡ body.old.home }
{
    match index {
        Some(TypeRow::Ordinal { least, greatest }) => {
            let array = Components {
                least,
                greatest,
                size,
            };
            body.address(line, component(array, addr, value))
        }
        Some(
            TypeRow::Subrange {
                least,
                greatest,
                ..
            },
        ) => {
            let array = Components {
                least,
                greatest,
                size,
            };
            body.address(line, component(array, addr, value))
        }
        _ => body.no_row(),
    }
}
