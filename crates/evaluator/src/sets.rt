//! Sets and strings.

ghost use Rattle.std.specs.Prelude.{◌+◌, ◌≡◌, slice_get};
ghost use Rattle.core_program.specs.{ProgramRows.ProgramRows, Tree.Ret, Tree.Scalar, Tree.Sub, Tree.bind};
ghost use Rattle.core_program.specs.Expressions as expressions;
ghost use Rattle.core_program.specs.Tree as parts;
ghost use Rattle.evaluator.specs.{Rest.waiting, Turns.Leads};
ghost use Rattle.evaluator.specs.Rest.{below_top, from, from_under, here, lists_of, resume, tasks_of, top, values_of};
ghost use Rattle.evaluator.specs.Weight.{Falls, body_weight, come, part_weight, task_weight, tasks_weight};

use crate::body::{Body, Turned};
use crate::tasks::{Now, OperandTask, Part, Task, Way};
use cell_value::{OpFault, Order, Value};
use core_program::Program;
use core_program::rows::{ItemRow, LIST_END, Row};
use eval_ops::{add_members, compare_texts, passed, string_of};
use std::alloc::Global;

/// A string: the values of its components.
pub(crate) fn give_string(body: &mut Body, alloc: Global, program: &Program, token: u32) -> Turned
    ensures turns { (p : ProgramRows) → Leads p (bind (expressions.string_in (slice_get program.now.texts token))
        (waiting p body.old)) result body.new }
    ensures falls { Falls result (body_weight body.new) (come + 1 + tasks_weight body.old) }
    ensures home { body.new.home ≡ body.old.home }
{
    let text = program.text(token);
    if text.is_empty() {
        // A string has one character at least (6.1.7), so that no string stands at the token.
        return body.no_row();
    }
    let cells = string_of(alloc, text)?;
    body.give_cells(cells)
}

/// The left one of two strings has its values, which wait: the right one begins.
pub fn begin_right_text(body: &mut Body, order: Order, right: u32, line: u32) -> Turned
    ensures turns { (p : ProgramRows) → Leads p (from_under p body.old (Now.Came Way.Cells) (Task.TextRight order right
        line)) result body.new }
    ensures falls { Falls result (body_weight body.new)
        (come + task_weight (Task.TextRight order right line) + tasks_weight body.old) }
    ensures home { body.new.home ≡ body.old.home }
{
    body.wait(
        Task::Texts { order, line },
        Now::Begin(Part::Eval { row: right, line }),
    )
}

/// Both of two strings have their values.
pub fn end_texts(body: &mut Body, alloc: Global, order: Order, line: u32) -> Turned
    ensures turns { (p : ProgramRows) → Leads p (from_under p body.old (Now.Came Way.Cells) (Task.Texts order line))
        result body.new }
    ensures falls { Falls result (body_weight body.new)
        (come + task_weight (Task.Texts order line) + tasks_weight body.old) }
    ensures home { body.new.home ≡ body.old.home }
{
    let right = body.take_list(alloc);
    let left = body.take_list(alloc);
    body.scalar(line, passed(compare_texts(order, &left, &right)))
}

/// The members of a set constructor from an item on begin, where those before it made this set.
pub(crate) fn gather_from(body: &mut Body, set: Value, at: u32, line: u32) -> Turned
    ensures turns { (p : ProgramRows) → Leads p (bind (Sub (parts.Gather at set (here body.old.home line)) Ret) (waiting
        p body.old)) result body.new }
    ensures falls { Falls result (body_weight body.new)
        (part_weight (Part.Gather at line) + 1 + tasks_weight body.old) }
    ensures home { body.new.home ≡ body.old.home }
{
    body.values.push(set)?;
    body.now = Now::Begin(Part::Gather { at, line });
    Ok(None)
}

/// The members of a set constructor from an item on (6.7.1).
pub fn gather(body: &mut Body, program: &Program, at: u32, line: u32) -> Turned
    ensures turns { Leads program.now (from program.now body.old (Now.Begin (Part.Gather at line))) result body.new }
    ensures falls { Falls result (body_weight body.new)
        (part_weight (Part.Gather at line) + tasks_weight body.old) }
    ensures home { body.new.home ≡ body.old.home }
{
    if at == LIST_END {
        return give_set(body);
    }
    match program.row(at) {
        Row::Item(item) => gather_item(body, item, line),
        _ => body.no_row(),
    }
}

/// The same, by what kind of item it is.
fn gather_item(body: &mut Body, item: ItemRow, line: u32) -> Turned
    ensures turns { (p : ProgramRows) → Leads p (bind (expressions.of_members (top (values_of body.old)) (here
        body.old.home line) (Row.Item item)) (resume p body.old.home (tasks_of body.old) (below_top (values_of
        body.old)) (lists_of body.old))) result body.new }
    ensures falls { Falls result (body_weight body.new) (come + 1 + tasks_weight body.old) }
    ensures home { body.new.home ≡ body.old.home }
{
    match item {
        ItemRow::Member { value, next } => body.wait(
            Task::Operand(OperandTask::Member { next, line }),
            Now::Begin(Part::Eval { row: value, line }),
        ),
        ItemRow::Members { first, last, next } => body.wait(
            Task::Operand(OperandTask::First { last, next, line }),
            Now::Begin(Part::Eval { row: first, line }),
        ),
        _ => body.no_row(),
    }
}

/// The members of a set constructor are all known: the set that waited is its value.
fn give_set(body: &mut Body) -> Turned
    ensures turns { (p : ProgramRows) → Leads p (resume p body.old.home (tasks_of body.old) (below_top (values_of
        body.old)) (lists_of body.old) (Scalar (top (values_of body.old)))) result body.new }
    ensures falls { Falls result (body_weight body.new) (come + 1 + tasks_weight body.old) }
    ensures home { body.new.home ≡ body.old.home }
{
    let set = body.take_value();
    body.go(Now::Came(Way::Scalar(set)))
}

/// A set with some members more, or the fault of one of them: the members after them begin.
pub(crate) fn gathered(
    body: &mut Body,
    done: Result<Value, OpFault>,
    next: u32,
    line: u32,
) -> Turned
    ensures turns { (p : ProgramRows) → Leads p (bind (expressions.gather (here body.old.home line) next done) (waiting
        p body.old)) result body.new }
    ensures falls { Falls result (body_weight body.new)
        (part_weight (Part.Gather next line) + 1 + tasks_weight body.old) }
    ensures home { body.new.home ≡ body.old.home }
{
    match passed(done) {
        Ok(set) => gather_from(body, set, next, line),
        Err(halt) => body.fail(line, halt),
    }
}

/// A member of a set constructor is known.
pub(crate) fn gather_member(body: &mut Body, next: u32, line: u32, value: Value) -> Turned
    ensures turns { (p : ProgramRows) → Leads p (from_under p body.old (Now.Came (Way.Scalar value)) (Task.Operand
        (OperandTask.Member next line))) result body.new }
    ensures falls { Falls result (body_weight body.new)
        (come + task_weight (Task.Operand (OperandTask.Member next line)) + tasks_weight body.old) }
    ensures home { body.new.home ≡ body.old.home }
{
    let set = body.take_value();
    gathered(body, add_members(set, value, value), next, line)
}

/// Both ends of a range of members are known.
pub fn gather_range(body: &mut Body, next: u32, line: u32, value: Value) -> Turned
    ensures turns { (p : ProgramRows) → Leads p (from_under p body.old (Now.Came (Way.Scalar value)) (Task.Range next
        line)) result body.new }
    ensures falls { Falls result (body_weight body.new) (come + task_weight (Task.Range next line)
        + tasks_weight body.old) }
    ensures home { body.new.home ≡ body.old.home }
{
    let first = body.take_value();
    let set = body.take_value();
    gathered(body, add_members(set, first, value), next, line)
}
