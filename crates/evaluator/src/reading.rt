//! Read statements: their actuals, one after the other, and the rest of the line (6.9.1, 6.9.2).

ghost use Rattle.std.specs.Prelude.{◌+◌, ◌==◌, ◌≡◌};
ghost use Rattle.core_program.specs.Input as input;
ghost use Rattle.core_program.specs.Output as output;
ghost use Rattle.core_program.specs.ProgramRows.{ProgramRows, row_at, type_at};
ghost use Rattle.core_program.specs.Transfers as transfers;
ghost use Rattle.core_program.specs.Tree.{bind, doing};
ghost use Rattle.eval_ops.specs.Machines.{IsReady, moment_of};
ghost use Rattle.evaluator.specs.Rest.{from_under, here, into_variable, waiting};
ghost use Rattle.evaluator.specs.Turns.{Leads, Moves, before, beginning, continuing};
ghost use Rattle.evaluator.specs.Weight.{Falls, body_weight, come, tasks_weight};

use crate::body::{Body, Turned};
use crate::tasks::{Now, Part, Reading, Task, TransferTask, Way};
use crate::writing::{go_after, host_of};
use cell_value::Value;
use core_program::rows::{CHAR, LIST_END, Row};
use core_program::{Program, Scan, Scanned};
use eval_ops::{
    Machine, assign_to, element_of, next_char, past_item, scan_on, tag_accessed, type_accessed,
};
use std::alloc::Global;

/// The actuals of a read statement from an item on.
pub fn receive(
    body: &mut Body,
    program: &Program,
    machine: &mut Machine,
    at: u32,
    line: u32,
) -> Turned
    requires ready { IsReady machine.old }
    ensures moves { Moves program.now (beginning program.now body.old (moment_of machine.old) (Part.Receive at line))
        result body.new (moment_of machine.new) }
    ensures ready { IsReady machine.new }
{
    if at == LIST_END {
        return body.go(Now::Came(Way::Nothing));
    }
    match element_of(program.row(at)) {
        Some((access, next)) => receive_actual(body, program, machine, access, next, line),
        None => body.no_row(),
    }
}

/// An actual of a read statement.
fn receive_actual(
    body: &mut Body,
    program: &Program,
    machine: &mut Machine,
    access: u32,
    next: u32,
    line: u32,
) -> Turned
    requires ready { IsReady machine.old }
    ensures moves { Moves program.now (before body.old (moment_of machine.old) (bind (transfers.received program.now
        (here body.old.home line) access next (row_at program.now access)) (waiting program.now body.old)) (come + 1))
        result body.new (moment_of machine.new) }
    ensures ready { IsReady machine.new }
{
    match program.row(access) {
        Row::Access(accessed) => {
            let of = type_accessed(accessed);
            let reading = Reading {
                access,
                of,
                next,
                line,
            };
            read_variable(body, program, machine, reading)
        }
        _ => body.no_row(),
    }
}

/// A char or an integer is read for a variable of a type.
fn read_variable(
    body: &mut Body,
    program: &Program,
    machine: &mut Machine,
    reading: Reading,
) -> Turned
    requires ready { IsReady machine.old }
    ensures moves { Moves program.now (before body.old (moment_of machine.old)
        (bind (transfers.with_host reading.of (type_at program.now reading.of) (λ host.
        transfers.read_for (here body.old.home reading.line) host (into_variable program.now body.old.home reading)))
        (waiting program.now body.old)) (come + 1)) result body.new (moment_of machine.new) }
    ensures ready { IsReady machine.new }
{
    match host_of(program, reading.of) {
        Some(host) => read_for(body, machine, host, reading),
        None => body.no_row(),
    }
}

/// Whether the host of a type is char.
fn is_char(host: u32) -> bool
    ensures { result ≡ (host == output.char_type) }
{
    host == CHAR
}

/// A char or an integer is read for a variable of a type with this host.
fn read_for(body: &mut Body, machine: &mut Machine, host: u32, reading: Reading) -> Turned
    requires ready { IsReady machine.old }
    ensures moves { (p : ProgramRows) → Moves p (before body.old (moment_of machine.old)
        (bind (transfers.read_for (here body.old.home reading.line) host (into_variable p body.old.home reading))
        (waiting p body.old)) (come + 1)) result body.new (moment_of machine.new) }
    ensures ready { IsReady machine.new }
{
    if is_char(host) {
        read_char(body, machine, reading)
    } else {
        let number = Part::Scanning {
            scan: Scan::Blanks,
            line: reading.line,
        };
        body.wait(
            Task::Transfer(TransferTask::Integer(reading)),
            Now::Begin(number),
        )
    }
}

/// A char is read, and then the variable is located that is to get it.
fn read_char(body: &mut Body, machine: &mut Machine, reading: Reading) -> Turned
    requires ready { IsReady machine.old }
    ensures moves { (p : ProgramRows) → Moves p (before body.old (moment_of machine.old)
        (bind (doing reading.line input.next_char (into_variable p body.old.home reading)) (waiting p body.old))
        (come + 1)) result body.new (moment_of machine.new) }
    ensures ready { IsReady machine.new }
{
    match next_char(machine) {
        Ok(value) => locate_read(body, reading, value),
        Err(halt) => body.fail(reading.line, halt),
    }
}

/// A value was read, and the variable is located that is to get it.
pub(crate) fn locate_read(body: &mut Body, reading: Reading, value: Value) -> Turned
    ensures turns { (p : ProgramRows) → Leads p (bind (into_variable p body.old.home reading value)
        (waiting p body.old)) result body.new }
    ensures falls { Falls result (body_weight body.new) (come + tasks_weight body.old) }
    ensures home { body.new.home ≡ body.old.home }
{
    let variable = Part::Locate {
        row: reading.access,
        target: true,
        line: reading.line,
    };
    body.hold(
        value,
        Task::Transfer(TransferTask::Into(reading)),
        Now::Begin(variable),
    )
}

/// A turn of the reading of an integer.
pub fn scan(body: &mut Body, machine: &mut Machine, scan: Scan, line: u32) -> Turned
    requires ready { IsReady machine.old }
    ensures moves { (p : ProgramRows) → Moves p (beginning p body.old (moment_of machine.old) (Part.Scanning scan line))
        result body.new (moment_of machine.new) }
    ensures ready { IsReady machine.new }
{
    match scan_on(machine, scan) {
        Ok(scanned) => after_scan(body, scanned, line),
        Err(halt) => body.fail(line, halt),
    }
}

/// After a turn of the reading of an integer.
fn after_scan(body: &mut Body, scanned: Scanned, line: u32) -> Turned
    ensures turns { (p : ProgramRows) → Leads p (bind (transfers.on_scanned (here body.old.home line) scanned) (waiting
        p body.old)) result body.new }
    ensures falls { Falls result (body_weight body.new) (come + 1 + tasks_weight body.old) }
    ensures home { body.new.home ≡ body.old.home }
{
    match scanned {
        Scanned::Further(scan) => body.go(Now::Begin(Part::Scanning { scan, line })),
        Scanned::Whole(value) => body.go(Now::Came(Way::Scalar(value))),
    }
}

/// An item of the rest of a line, and those after it.
pub fn pass_line(body: &mut Body, machine: &mut Machine, line: u32) -> Turned
    requires ready { IsReady machine.old }
    ensures moves { (p : ProgramRows) → Moves p (beginning p body.old (moment_of machine.old) (Part.RestOfLine line))
        result body.new (moment_of machine.new) }
    ensures ready { IsReady machine.new }
{
    match past_item(machine) {
        Ok(ended) => body.either(
            ended,
            Now::Came(Way::Nothing),
            Now::Begin(Part::RestOfLine { line }),
        ),
        Err(halt) => body.fail(line, halt),
    }
}

/// What was read goes into its variable, which is located, and then comes the next actual.
pub fn store_read(
    body: &mut Body,
    alloc: Global,
    program: &Program,
    machine: &mut Machine,
    transfer: TransferTask,
    addr: u32,
) -> Turned
    requires ready { IsReady machine.old }
    ensures moves { Moves program.now (continuing program.now body.old (moment_of machine.old) (Way.Address addr)
        (Task.Transfer transfer)) result body.new (moment_of machine.new) }
    ensures ready { IsReady machine.new }
{
    match transfer {
        TransferTask::Into(reading) => store(body, alloc, program, machine, reading, addr),
        TransferTask::Integer(_) => body.no_row(),
        TransferTask::Written { .. } => body.no_row(),
        TransferTask::Wide { .. } => body.no_row(),
        TransferTask::Width { .. } => body.no_row(),
        TransferTask::TextWidth { .. } => body.no_row(),
    }
}

/// The value that waited goes into a variable of a type, and then comes the next actual.
fn store(
    body: &mut Body,
    alloc: Global,
    program: &Program,
    machine: &mut Machine,
    reading: Reading,
    addr: u32,
) -> Turned
    requires ready { IsReady machine.old }
    ensures moves { Moves program.now (before body.old (moment_of machine.old) (from_under program.now body.old
        (Now.Came (Way.Address addr)) (Task.Transfer (TransferTask.Into reading))) (come + 2)) result
        body.new (moment_of machine.new) }
    ensures ready { IsReady machine.new }
{
    let value = body.take_value();
    let tag = tag_accessed(program, program.row(reading.access));
    let done = assign_to(
        alloc,
        program,
        machine,
        tag,
        program.type_row(reading.of),
        addr,
        value,
    );
    go_after(
        body,
        reading.line,
        done,
        Now::Begin(Part::Receive {
            at: reading.next,
            line: reading.line,
        }),
    )
}
