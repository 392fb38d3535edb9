//! Read, write, page, pack and unpack statements: what begins.

ghost use Rattle.std.specs.Prelude.{if◌then◌else◌, ◌+◌, ◌≡◌, ℕ};
ghost use Rattle.core_program.specs.{Output.end_line, ProgramRows.ProgramRows, Tree.Ret, Tree.Sub, Tree.bind};
ghost use Rattle.core_program.specs.Packing as arrays;
ghost use Rattle.core_program.specs.Statements as meaning;
ghost use Rattle.core_program.specs.Tree as parts;
ghost use Rattle.eval_ops.specs.Machines.{IsReady, moment_of};
ghost use Rattle.evaluator.specs.{Rest.here, Rest.waiting, TransferFamilies.of_transfer, Turns.Leads, Turns.Moves};
ghost use Rattle.evaluator.specs.{Turns.before, Weight.Falls, Weight.body_weight, Weight.come, Weight.tasks_weight};

use crate::body::{Body, Turned};
use crate::packing::first_row;
use crate::tasks::{ArrayRows, Next, Now, Part, Task};
use core_program::rows::StatementRow;
use eval_ops::{Machine, end_page};

/// A read, write, page, pack or unpack statement whose line is told.
pub fn transfer_statement(body: &mut Body, machine: &mut Machine, statement: StatementRow) -> Turned
    requires ready { IsReady machine.old }
    ensures moves { (p : ProgramRows) (row : ℕ) → Moves p (before body.old (moment_of machine.old) (bind (of_transfer p
        body.old.home row statement) (waiting p body.old)) (come + 10)) result body.new (moment_of machine.new) }
    ensures ready { IsReady machine.new }
{
    match statement {
        StatementRow::Read {
            ends_line,
            line,
            actuals,
        } => begin_read(body, ends_line, actuals, line),
        StatementRow::Write {
            ends_line,
            line,
            actuals,
        } => begin_write(body, ends_line, actuals, line),
        StatementRow::Page { line } => {
            let done = end_page(machine);
            body.finally(line, done)
        }
        StatementRow::Pack {
            packing,
            line,
            unpacked,
            index,
            packed,
        } => {
            let rows = ArrayRows {
                unpacked,
                index,
                packed,
                line,
            };
            begin_pack(body, packing, rows)
        }
        _ => body.no_row(),
    }
}

/// The actuals of a read statement begin. After them comes the rest of the line, if it ends one.
fn begin_read(body: &mut Body, ends_line: bool, actuals: u32, line: u32) -> Turned
    ensures turns { (p : ProgramRows) → Leads p (bind (Sub (parts.Receive actuals (here body.old.home line))
        (meaning.on_normal (if ends_line then Sub (parts.RestOfLine (here body.old.home line)) Ret else
        meaning.nothing))) (waiting p body.old)) result body.new }
    ensures falls { Falls result (body_weight body.new) (come + 10 + tasks_weight body.old) }
    ensures home { body.new.home ≡ body.old.home }
{
    let part = Now::Begin(Part::Receive { at: actuals, line });
    if ends_line {
        body.wait(Task::Next(Next::PassLine { line }), part)
    } else {
        body.wait(Task::Next(Next::Forget), part)
    }
}

/// The actuals of a write statement begin. After them comes the end of the line, if it ends one.
fn begin_write(body: &mut Body, ends_line: bool, actuals: u32, line: u32) -> Turned
    ensures turns { (p : ProgramRows) → Leads p (bind (Sub (parts.Print actuals (here body.old.home line))
        (meaning.on_normal (if ends_line then meaning.finally (here body.old.home line) end_line else meaning.nothing)))
        (waiting p body.old)) result body.new }
    ensures falls { Falls result (body_weight body.new) (come + 10 + tasks_weight body.old) }
    ensures home { body.new.home ≡ body.old.home }
{
    let part = Now::Begin(Part::Print { at: actuals, line });
    if ends_line {
        body.wait(Task::Next(Next::EndLine { line }), part)
    } else {
        body.wait(Task::Next(Next::Forget), part)
    }
}

/// The first array of a pack or an unpack statement is to be located.
fn begin_pack(body: &mut Body, packing: bool, rows: ArrayRows) -> Turned
    ensures turns { (p : ProgramRows) → Leads p (bind (arrays.pack p (here body.old.home rows.line) packing
        rows.unpacked rows.index rows.packed (meaning.finally (here body.old.home rows.line))) (waiting p body.old))
        result body.new }
    ensures falls { Falls result (body_weight body.new) (come + 10 + tasks_weight body.old) }
    ensures home { body.new.home ≡ body.old.home }
{
    let first = Part::Locate {
        row: first_row(packing, rows),
        target: false,
        line: rows.line,
    };
    body.wait(Task::PackFirst { packing, rows }, Now::Begin(first))
}
