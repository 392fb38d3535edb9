//! A call's own work, done again in a frame of its own.

ghost use Rattle.std.specs.Prelude.{◌+◌, ◌<◌, ◌≡◌, ◌≤◌, [], IfOk, None, OnOk};
ghost use Rattle.core_program.specs.{Replay.end_of, Run.result_in, Run.way_out, Run.without_frame, State.stack_end};
ghost use Rattle.eval_ops.specs.Machines.{IsReady, machine_state};
ghost use Rattle.body_replay.specs.{Again.AtBody, Again.Job, Counting.CountsEachStep, Counting.Tally};
ghost use Rattle.body_replay.specs.Traces.{EndsAs, FrameMade, FrameToMake, changed_result, tally, tally_of};

use crate::counted::count_steps;
use crate::replayer::Replayer;
use call_tree::{Call, Events};
use cell_value::{Cells, Memory, Steps, Value, WayOut};
use core_program::{Program, Routine};
use eval_ops::{Halt, Machine, make_frame, remove_frame};
use evaluator::Body;
use program_run::{Begun, History};
use std::alloc::{AllocError, Global};

/// What is left once a call's work has ended.
#[derive(Drop)]
pub struct WorkEnd {
    pub machine: Machine,
    /// What happened, in order.
    pub events: Events,
    pub way: WayOut,
    /// The value of a function that returned.
    pub answer: Option<Value>,
}

/// The value that a routine gave that ended so.
fn answer_of(way: WayOut, answer: Option<Value>) -> Option<Value>
    ensures way { way_out (end_of way answer) ≡ way }
    ensures answer { result_in (end_of way answer) ≡ result }
{
    match way {
        WayOut::Returned => answer,
        _ => None,
    }
}

/// Makes the frame of a call of a routine, and answers how the call ends where the frame is not made.
fn frame_made(
    alloc: Global,
    machine: &mut Machine,
    args: &Cells,
    routine: Routine,
) -> Result<Begun, Memory>
    requires ready { IsReady machine.old }
    ensures made { IfOk result (λ begun. FrameMade routine args.now (machine_state machine.old) begun
        (machine_state machine.new)) }
    ensures ready { OnOk result (IsReady machine.new) }
{
    match make_frame(alloc, machine, args, routine) {
        Ok(cells) => Ok(Begun::Framed(cells)),
        Err(Halt::Fault(kind)) => Ok(Begun::Ended(WayOut::Faulted(kind, 0))),
        Err(Halt::OutOfSteps) => Ok(Begun::Ended(WayOut::OutOfSteps)),
        Err(Halt::Limited(which)) => Ok(Begun::Ended(WayOut::Limited(which))),
        Err(Halt::Memory) => Err(AllocError),
    }
}

/// Goes on until the body has ended, and removes its frame of this many cells at a base.
fn in_frame<L>(
    alloc: Global,
    program: &Program,
    run: &History,
    replayer: Replayer,
    base: u32,
    cells: u32,
    steps: &mut Steps<L>,
) -> Result<WorkEnd, Memory>
    requires ready { IsReady replayer.machine }
    requires fits { base + cells ≤ stack_end }
    requires rests { (j : Job run.now) × AtBody program.now run.now j replayer }
    ensures ends { (j : Job run.now) → AtBody program.now run.now j replayer
        → IfOk result (λ e. EndsAs (changed_result (without_frame base cells) j.work) e) }
    ensures ready { IfOk result (λ e. IsReady e.machine) }
    ensures counts { (first : Tally) → CountsEachStep run.now first (tally_of steps.old replayer)
        → IfOk result (λ e. CountsEachStep run.now first (tally steps.new e.machine e.events)) }
{
    let mut replayer = replayer;
    let (way, answer) = replayer.go(alloc, program, run, steps)?;
    let Replayer {
        mut machine,
        events,
        ..
    } = replayer;
    remove_frame(alloc, &mut machine, base, cells)?;
    Ok(WorkEnd {
        machine,
        events,
        way,
        answer: answer_of(way, answer),
    })
}

/// Makes the frame of a call that was entered, by the call's row, does the work in it, and removes the frame. `number`
/// is that of the call.
pub(crate) fn work<L>(
    alloc: Global,
    program: &Program,
    run: &History,
    number: u32,
    row: &Call,
    machine: Machine,
    steps: &mut Steps<L>,
) -> Result<WorkEnd, Memory>
    requires ready { IsReady machine }
    requires few { number < 500000 }
    requires entered { (j : Job run.now) × (j.number ≡ number)
        × FrameToMake program.now run.now j row.now (machine_state machine) }
    ensures ends { (j : Job run.now) → j.number ≡ number
        → FrameToMake program.now run.now j row.now (machine_state machine) → IfOk result (λ e. EndsAs j.work e) }
    ensures ready { IfOk result (λ e. IsReady e.machine) }
    ensures counts { (first : Tally) → CountsEachStep run.now first (tally steps.old machine [])
        → IfOk result (λ e. CountsEachStep run.now first (tally steps.new e.machine e.events)) }
{
    let mut machine = machine;
    let routine = program.routine(row.routine).unwrap();
    let base = machine.top;
    let before = machine.steps;
    let begun = frame_made(alloc, &mut machine, &row.args, routine)?;
    count_steps(steps, before, machine.steps);
    match begun {
        Begun::Framed(cells) => {
            let body = Body::new(alloc, row.routine, base);
            let events = Events::new(alloc);
            let replayer = Replayer {
                machine,
                body,
                events,
                next: number + 1,
            };
            let ending = in_frame(alloc, program, run, replayer, base, cells, steps)?;
            Ok(ending)
        }
        Begun::Ended(way) => Ok(refused(alloc, machine, way)),
    }
}

/// The end of a call whose frame was not made.
fn refused(alloc: Global, machine: Machine, way: WayOut) -> WorkEnd
    ensures machine { result.machine ≡ machine }
    ensures events { result.events ≡ [] }
    ensures way { result.way ≡ way }
    ensures answer { result.answer ≡ None }
{
    WorkEnd {
        machine,
        events: Events::new(alloc),
        way,
        answer: None,
    }
}
