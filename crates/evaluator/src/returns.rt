//! How a routine returns.

ghost use Rattle.std.specs.Prelude.{◌≡◌, [], IfOk, None};
ghost use Rattle.cell_value.specs.declared.values.Value.{Value as CellValue};
ghost use Rattle.core_program.specs.{Accesses.scalar, Actions.Action, Actions.performs, ProgramRows.ProgramRows};
ghost use Rattle.core_program.specs.{ProgramRows.routine_at, Run.type_in_heading, Tree.doing};
ghost use Rattle.core_program.specs.Run as action;
ghost use Rattle.core_program.specs.State as state;
ghost use Rattle.eval_ops.specs.Machines.{DoesAll, IsReady, Moment, moment_of};
ghost use Rattle.evaluator.specs.{Rest.from, Rest.returns, Turns.Turns, Turns.configuration};

use crate::body::{Body, Turned};
use crate::tasks::{Now, Pause, Way};
use cell_value::Value;
use core_program::Program;
use core_program::rows::{PartRow, Row, TypeRow};
use eval_ops::{Halt, Machine, moved, pointer_result_at, result_at};

/// The tasks are done, and the routine returns, a function by reading its result.
pub(crate) fn end(body: &mut Body, program: &Program, machine: &mut Machine, way: Way) -> Turned
    requires ready { IsReady machine.old }
    requires done { body.old.tasks.items ≡ [] }
    ensures turns { Turns program.now (configuration (from program.now body.old (Now.Came way)) (moment_of machine.old))
        result body.new (moment_of machine.new) }
    ensures stops { IfOk result (λ s. s ≡ None → ⊥) }
    ensures home { body.new.home ≡ body.old.home }
    ensures ready { IsReady machine.new }
{
    match way {
        Way::Jump(label, base) => {
            body.now = Now::Came(Way::Jump(label, base));
            Ok(Some(Pause::Ended))
        }
        Way::Cells => returned(body, program, machine),
        Way::Actuals => returned(body, program, machine),
        Way::Nothing => returned(body, program, machine),
        Way::Scalar(_) => returned(body, program, machine),
        Way::Address(_) => returned(body, program, machine),
        Way::Bounded(_, _) => returned(body, program, machine),
    }
}

/// The routine returns.
fn returned(body: &mut Body, program: &Program, machine: &mut Machine) -> Turned
    requires ready { IsReady machine.old }
    ensures turns { Turns program.now (configuration (returns program.now body.old.home
        (routine_at program.now body.old.home.routine)) (moment_of machine.old)) result body.new
        (moment_of machine.new) }
    ensures stops { IfOk result (λ s. s ≡ None → ⊥) }
    ensures home { body.new.home ≡ body.old.home }
    ensures ready { IsReady machine.new }
{
    match program.routine(body.home.routine) {
        None => body.no_row(),
        Some(routine) => match routine.result {
            None => {
                body.now = Now::Came(Way::Nothing);
                Ok(Some(Pause::Ended))
            }
            Some(place) => {
                give_result(
                    body,
                    program,
                    machine,
                    program.row(routine.heading),
                    routine.line,
                    place,
                )
            }
        },
    }
}

/// A function returns, by reading its result at a place in the frame. Its heading has the result's type.
fn give_result(
    body: &mut Body,
    program: &Program,
    machine: &mut Machine,
    heading: Row,
    line: u32,
    place: u32,
) -> Turned
    requires ready { IsReady machine.old }
    ensures turns { Turns program.now (configuration (action.result_of_type line (state.moved body.old.home.base place)
        (type_in_heading program.now heading)) (moment_of machine.old)) result body.new (moment_of machine.new) }
    ensures stops { IfOk result (λ s. s ≡ None → ⊥) }
    ensures home { body.new.home ≡ body.old.home }
    ensures ready { IsReady machine.new }
{
    match heading {
        Row::Part(
            PartRow::Heading {
                result: Some(of),
                ..
            },
        ) => { give_result_of(body, program, machine, program.type_row(of), line, place) }
        _ => body.no_row(),
    }
}

/// The same, by the result's type.
fn give_result_of(
    body: &mut Body,
    program: &Program,
    machine: &mut Machine,
    kind: Option<TypeRow>,
    line: u32,
    place: u32,
) -> Turned
    requires ready { IsReady machine.old }
    ensures turns { Turns program.now (configuration (action.result_of_type line (state.moved body.old.home.base place)
        kind) (moment_of machine.old)) result body.new (moment_of machine.new) }
    ensures stops { IfOk result (λ s. s ≡ None → ⊥) }
    ensures home { body.new.home ≡ body.old.home }
    ensures ready { IsReady machine.new }
{
    match kind {
        Some(TypeRow::Ordinal { least, greatest }) => {
            give(
                body,
                line,
                result_at(machine, least, greatest, moved(body.home.base, place)),
            )
        }
        Some(
            TypeRow::Subrange {
                least,
                greatest,
                ..
            },
        ) => {
            give(
                body,
                line,
                result_at(machine, least, greatest, moved(body.home.base, place)),
            )
        }
        Some(TypeRow::Pointer { .. }) => {
            let done = pointer_result_at(machine, moved(body.home.base, place));
            give(body, line, done)
        }
        _ => body.no_row(),
    }
}

/// An action on a line gave the result of a function, or it was not done.
fn give(body: &mut Body, line: u32, done: Result<Value, Halt>) -> Turned
    ensures turns { (p : ProgramRows) (a : Action CellValue) (m m' : Moment)
        → DoesAll (λ v. v) (performs a m.state) done m m' → Turns p (configuration (doing line a scalar) m) result
        body.new m' }
    ensures stops { IfOk result (λ s. s ≡ None → ⊥) }
    ensures home { body.new.home ≡ body.old.home }
{
    match done {
        Ok(value) => {
            body.now = Now::Came(Way::Scalar(value));
            Ok(Some(Pause::Ended))
        }
        Err(halt) => body.fail(line, halt),
    }
}
