//! Pack and unpack statements (6.6.5.4).

ghost use Rattle.std.specs.Prelude.{if◌then◌else◌, ◌+◌, ◌≡◌, ℕ};
ghost use Rattle.core_program.specs.{Actions.Action, Tree.bind, Tree.doing};
ghost use Rattle.core_program.specs.Packing as arrays;
ghost use Rattle.core_program.specs.ProgramRows.{ProgramRows, row_at};
ghost use Rattle.eval_ops.specs.Machines.{Gives, IsReady, moment_of};
ghost use Rattle.evaluator.specs.Rest.{copied, from_under, places, second_row, waiting};
ghost use Rattle.evaluator.specs.Turns.{Leads, Moves, before};
ghost use Rattle.evaluator.specs.Weight.{Falls, body_weight, come, tasks_weight};

use crate::body::{Body, Turned};
use crate::tasks::{ArrayPlaces, ArrayRows, Now, Part, Task, Way};
use cell_value::Value;
use core_program::{Components, Program};
use eval_ops::{Halt, Machine, array_of, copy_cells, first_moved};
use std::alloc::Global;

/// The array that a pack or an unpack statement locates first.
pub(crate) fn first_row(packing: bool, rows: ArrayRows) -> u32
    ensures { result ≡ (if packing then rows.unpacked else rows.packed) }
{
    if packing { rows.unpacked } else { rows.packed }
}

/// The array that it locates second.
fn row_after(packing: bool, rows: ArrayRows) -> u32
    ensures { result ≡ second_row packing rows }
{
    if packing { rows.packed } else { rows.unpacked }
}

/// The first array of a pack or an unpack statement is located: the second one is to be.
pub fn locate_second(body: &mut Body, packing: bool, rows: ArrayRows, addr: u32) -> Turned
    ensures turns { (p : ProgramRows) → Leads p (from_under p body.old (Now.Came (Way.Address addr))
        (Task.PackFirst packing rows)) result body.new }
    ensures falls { Falls result (body_weight body.new) (come + 1 + tasks_weight body.old) }
    ensures home { body.new.home ≡ body.old.home }
{
    let second = Part::Locate {
        row: row_after(packing, rows),
        target: false,
        line: rows.line,
    };
    let task = Task::PackSecond {
        packing,
        rows,
        first: addr,
    };
    body.wait(task, Now::Begin(second))
}

/// Both arrays of a pack or an unpack statement are located: the index is evaluated.
pub fn pack_by_index(
    body: &mut Body,
    packing: bool,
    rows: ArrayRows,
    first: u32,
    addr: u32,
) -> Turned
    ensures turns { (p : ProgramRows) → Leads p (from_under p body.old (Now.Came (Way.Address addr))
        (Task.PackSecond packing rows first)) result body.new }
    ensures falls { Falls result (body_weight body.new) (come + 1 + tasks_weight body.old) }
    ensures home { body.new.home ≡ body.old.home }
{
    let found = places_of(packing, rows, first, addr);
    let value = Part::Eval {
        row: rows.index,
        line: found.line,
    };
    let task = Task::PackIndex {
        packing,
        places: found,
    };
    body.wait(task, Now::Begin(value))
}

/// The arrays with the addresses at which they were located, one after the other.
fn places_of(packing: bool, rows: ArrayRows, first: u32, second: u32) -> ArrayPlaces
    ensures { result ≡ places packing rows first second }
{
    if packing {
        ArrayPlaces {
            unpacked: rows.unpacked,
            packed: rows.packed,
            wide: first,
            close: second,
            line: rows.line,
        }
    } else {
        ArrayPlaces {
            unpacked: rows.unpacked,
            packed: rows.packed,
            wide: second,
            close: first,
            line: rows.line,
        }
    }
}

/// The index of a pack or an unpack statement is known, and its arrays are found: the components are moved.
pub fn move_arrays(
    body: &mut Body,
    alloc: Global,
    program: &Program,
    machine: &mut Machine,
    packing: bool,
    places: ArrayPlaces,
    value: Value,
) -> Turned
    requires ready { IsReady machine.old }
    ensures moves { Moves program.now (before body.old (moment_of machine.old) (from_under program.now body.old
        (Now.Came (Way.Scalar value)) (Task.PackIndex packing places)) (come + 1)) result body.new
        (moment_of machine.new) }
    ensures ready { IsReady machine.new }
{
    match array_of(program, places.unpacked) {
        Some((_, components)) => {
            move_by(
                body, alloc, program, machine, packing, components, places, value,
            )
        }
        None => body.no_row(),
    }
}

/// The same, by the components of the unpacked array.
fn move_by(
    body: &mut Body,
    alloc: Global,
    program: &Program,
    machine: &mut Machine,
    packing: bool,
    unpacked: Components,
    places: ArrayPlaces,
    value: Value,
) -> Turned
    requires ready { IsReady machine.old }
    ensures moves { Moves program.now (before body.old (moment_of machine.old)
        (bind (arrays.with_array program.now (row_at program.now places.packed) (λ cells small.
        doing places.line (arrays.first_moved unpacked small places.wide value)
        (copied body.old.home packing places cells))) (waiting program.now body.old)) (come + 1)) result body.new
        (moment_of machine.new) }
    ensures ready { IsReady machine.new }
{
    match array_of(program, places.packed) {
        Some((cells, packed)) => {
            let start = first_moved(unpacked, packed, places.wide, value);
            move_from(body, alloc, machine, packing, places, start, cells)
        }
        None => body.no_row(),
    }
}

/// The component of the unpacked array is known from which on it goes, or there is none: so many cells are moved.
fn move_from(
    body: &mut Body,
    alloc: Global,
    machine: &mut Machine,
    packing: bool,
    places: ArrayPlaces,
    start: Result<u32, Halt>,
    cells: u32,
) -> Turned
    requires ready { IsReady machine.old }
    ensures moves { (p : ProgramRows) (a : Action ℕ) → Gives (λ n. n) a start
        → Moves p (before body.old (moment_of machine.old) (bind (doing places.line a
        (copied body.old.home packing places cells)) (waiting p body.old)) (come + 1)) result body.new
        (moment_of machine.new) }
    ensures ready { IsReady machine.new }
{
    match start {
        Ok(at) => copy(body, alloc, machine, packing, places, at, cells),
        Err(halt) => body.fail(places.line, halt),
    }
}

/// The cells of a packed array are those of an unpacked one from an address on, or the other way round.
fn copy(
    body: &mut Body,
    alloc: Global,
    machine: &mut Machine,
    packing: bool,
    places: ArrayPlaces,
    at: u32,
    cells: u32,
) -> Turned
    requires ready { IsReady machine.old }
    ensures moves { (p : ProgramRows) → Moves p (before body.old (moment_of machine.old)
        (bind (copied body.old.home packing places cells at) (waiting p body.old)) (come + 1)) result body.new
        (moment_of machine.new) }
    ensures ready { IsReady machine.new }
{
    if packing {
        let done = copy_cells(alloc, machine, at, places.close, cells);
        body.finally(places.line, done)
    } else {
        let done = copy_cells(alloc, machine, places.close, at, cells);
        body.finally(places.line, done)
    }
}
