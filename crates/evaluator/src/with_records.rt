//! With statements.

ghost use Rattle.std.specs.Prelude.{◌+◌, ◌≡◌};
ghost use Rattle.core_program.specs.ProgramRows.{ProgramRows};
ghost use Rattle.evaluator.specs.{Records.SameFrame, Rest.from, Rest.from_under, Turns.Leads};
ghost use Rattle.evaluator.specs.Weight.{Falls, body_weight, come, part_weight, task_weight, tasks_weight};

use crate::body::{Body, Turned};
use crate::tasks::{Now, Part, Task, Way};
use core_program::Program;
use core_program::rows::LIST_END;
use eval_ops::element_of;

/// The records of a with statement from an item on begin, or its body where there is no further one (6.8.3.10).
pub fn begin_record(body: &mut Body, program: &Program, at: u32, inner: u32, line: u32) -> Turned
    ensures turns { Leads program.now (from program.now body.old (Now.Begin (Part.Establish at inner line))) result
        body.new }
    ensures falls { Falls result (body_weight body.new)
        (part_weight (Part.Establish at inner line) + tasks_weight body.old) }
    ensures home { body.new.home ≡ body.old.home }
{
    if at == LIST_END {
        return body.go(Now::Begin(Part::Exec { row: inner, line }));
    }
    match element_of(program.row(at)) {
        Some((access, next)) => body.wait(
            Task::Record {
                next,
                body: inner,
                line,
            },
            Now::Begin(Part::Locate {
                row: access,
                target: false,
                line,
            }),
        ),
        None => body.no_row(),
    }
}

/// A record of a with statement is established: what follows is inside of it.
pub fn establish(body: &mut Body, next: u32, inner: u32, line: u32, addr: u32) -> Turned
    ensures turns { (p : ProgramRows) → Leads p (from_under p body.old (Now.Came (Way.Address addr)) (Task.Record next
        inner line)) result body.new }
    ensures falls { Falls result (body_weight body.new)
        (come + task_weight (Task.Record next inner line) + tasks_weight body.old) }
    ensures frame { SameFrame body.new.home body.old.home }
{
    body.home.records.enter(addr)?;
    body.wait(
        Task::Leave,
        Now::Begin(Part::Establish {
            at: next,
            body: inner,
            line,
        }),
    )
}

/// What is inside of the last record of a with statement has ended in some way, and ends what is around it likewise.
pub fn leave(body: &mut Body, way: Way) -> Turned
    ensures turns { (p : ProgramRows) → Leads p (from_under p body.old (Now.Came way) Task.Leave) result body.new }
    ensures falls { Falls result (body_weight body.new) (come + task_weight Task.Leave + tasks_weight body.old) }
    ensures frame { SameFrame body.new.home body.old.home }
{
    body.home.records.leave();
    body.go(Now::Came(way))
}
