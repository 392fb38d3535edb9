//! Jumps.

ghost use Rattle.std.specs.Prelude.{◌&&◌, ◌+◌, ◌==◌, ◌≡◌};
ghost use Rattle.evaluator.specs.{Records.SameFrame, Rest.from_under, Turns.Leads};
ghost use Rattle.evaluator.specs.Weight.{Falls, body_weight, come, task_weight, tasks_weight};

use crate::body::{Body, Turned};
use crate::tasks::{Next, Now, Part, Task, Way};
use core_program::Program;
use std::alloc::Global;

/// Whether a jump to a label in the frame at a base is to this label of this frame.
fn is_to(label: u32, base: u32, own: u32, frame: u32) -> bool
    ensures { result ≡ (label == own) && (base == frame) }
{
    label == own && base == frame
}

/// A jump comes to a task on its way outward.
pub(crate) fn leap(
    body: &mut Body,
    alloc: Global,
    program: &Program,
    task: Task,
    label: u32,
    base: u32,
) -> Turned
    ensures turns { Leads program.now (from_under program.now body.old (Now.Came (Way.Jump label base)) task) result
        body.new }
    ensures falls { Falls result (body_weight body.new) (come + task_weight task + tasks_weight body.old) }
    ensures frame { SameFrame body.new.home body.old.home }
{
    match task {
        Task::Next(next) => land(body, alloc, program, next, label, base),
        _ => {
            body.drop_task(alloc, task);
            body.go(Now::Came(Way::Jump(label, base)))
        }
    }
}

/// A jump comes to what follows a statement. In the frame of its label it goes on from the statement of the
/// sequence that has the label, or begins the labelled statement again (6.8.1), and else it goes on outward.
fn land(
    body: &mut Body,
    alloc: Global,
    program: &Program,
    next: Next,
    label: u32,
    base: u32,
) -> Turned
    ensures turns { Leads program.now (from_under program.now body.old (Now.Came (Way.Jump label base)) (Task.Next
        next)) result body.new }
    ensures falls { Falls result (body_weight body.new)
        (come + task_weight (Task.Next next) + tasks_weight body.old) }
    ensures home { body.new.home ≡ body.old.home }
{
    let outward = Now::Came(Way::Jump(label, base));
    match next {
        Next::Sequence { first, line, .. } => {
            if base == body.home.base {
                match program.labelled_in(first, label) {
                    Some(Some(at)) => body.go(Now::Begin(Part::Sequence { first, at, line })),
                    Some(None) => body.go(outward),
                    None => body.no_row(),
                }
            } else {
                body.go(outward)
            }
        }
        Next::Labelled {
            row,
            label: own,
            line,
        } => {
            let again = Now::Begin(Part::Exec { row, line });
            let found = is_to(label, base, own, body.home.base);
            body.either(found, again, outward)
        }
        _ => {
            body.drop_task(alloc, Task::Next(next));
            body.go(outward)
        }
    }
}
