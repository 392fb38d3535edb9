//! The body of a recorded call, done again.

ghost use Rattle.std.specs.Prelude.{◌+◌, ◌<◌, ◌≡◌, ◌≤◌, ℕ, IfOk, List, Some, length, slice_get};
ghost use Rattle.std.specs.Option.{option_map};
ghost use Rattle.core_program.specs.{Run.result_in, Run.way_out, RunLaws.most_bytes};
ghost use Rattle.call_tree.specs.declared.records.Call as table;
ghost use Rattle.eval_ops.specs.Machines.{IsReady};
ghost use Rattle.program_run.specs.History.{IsOfRun};
ghost use Rattle.body_replay.specs.Counting.{CountsEachStep, at_entry, changes_met, own_steps};
ghost use Rattle.body_replay.specs.Replays.{events_in, work_in};
ghost use Rattle.body_replay.specs.Traces.{IsEndOf, kept_state, tally};

use crate::framed::{WorkEnd, work};
use crate::kept_state::{KeptState, keep_state, machine_before};
use call_tree::{Call, Events};
use cell_value::{Memory, Steps, Value, WayOut};
use core_program::Program;
use eval_ops::{close_call, open_call};
use program_run::History;
use std::alloc::Global;

/// What the body of a call did.
#[derive(Drop)]
pub struct Trace {
    /// The lines of its statements that began, but for compound and empty ones, and the numbers of its calls, in order.
    pub events: Events,
    pub way: WayOut,
    /// The value of a function that returned.
    pub result: Option<Value>,
    /// The state after it.
    pub exit: KeptState,
}

/// Enters a call of a run again, by its number and its row, from the state before it, and does its work.
fn work_again<L>(
    alloc: Global,
    program: &Program,
    run: &History,
    number: u32,
    row: &Call,
    steps: &mut Steps<L>,
) -> Result<WorkEnd, Memory>
    requires run { (input : List ℕ) × (length input ≤ most_bytes)
        × IsOfRun program.now input run.now.budget run.now }
    requires budget { run.now.budget ≤ 4000000 }
    requires row { slice_get run.now.calls.calls number ≡ Some row.now }
    ensures work { IfOk result (λ e. (input : List ℕ) → IsOfRun program.now input run.now.budget run.now
        → IsEndOf (work_in program.now input run.now number) row.now e) }
    ensures counts { IfOk result (λ e. CountsEachStep run.now (at_entry steps.old row.now)
        (tally steps.new e.machine e.events)) }
    ensures ready { IfOk result (λ e. IsReady e.machine) }
{
    program.is_whole();
    let mut machine = machine_before(alloc, run, row)?;
    open_call(&mut machine);
    let ending = work(alloc, program, run, number, row, machine, steps)?;
    Ok(ending)
}

/// Does the body of a call of a run again, from the recorded state before the call, with the recorded effects of the
/// calls that it made in place of their runs. The run is that of the program with an input of at most 4,194,304 bytes
/// and a budget of at most 4,000,000 steps. Each step that is taken outside of these calls is counted in `steps`, and
/// each change of a cell by their effects as one step more.
pub fn replay<L>(
    alloc: Global,
    program: &Program,
    run: &History,
    call: u32,
    steps: &mut Steps<L>,
) -> Result<Trace, Memory>
    requires run { (input : List ℕ) × (length input ≤ most_bytes)
        × IsOfRun program.now input run.now.budget run.now }
    requires budget { run.now.budget ≤ 4000000 }
    requires call { call < length run.now.calls.calls }

    // It is the call's own work, in each part.
    ensures events { IfOk result (λ t. (input : List ℕ) → IsOfRun program.now input run.now.budget run.now
        → t.events ≡ events_in (work_in program.now input run.now call)) }
    ensures way { IfOk result (λ t. (input : List ℕ) → IsOfRun program.now input run.now.budget run.now
        → option_map (λ w. way_out w.end) (work_in program.now input run.now call) ≡ Some t.way) }
    ensures result { IfOk result (λ t. (input : List ℕ) → IsOfRun program.now input run.now.budget run.now
        → option_map (λ w. result_in w.end) (work_in program.now input run.now call) ≡ Some t.result) }
    ensures exit { IfOk result (λ t. (input : List ℕ) → IsOfRun program.now input run.now.budget run.now
        → option_map (λ w. w.after.state) (work_in program.now input run.now call) ≡ Some (kept_state t.exit)) }

    // The steps that were counted are the call's own, and one for each change by the calls that it made.
    ensures counted { (row : table.Call) → slice_get run.now.calls.calls call ≡ Some row
        → IfOk result (λ t. steps.new ≡ steps.old + own_steps run.now.calls.calls row t.events
        + changes_met run.now t.events) }
{
    let row = run.calls.call(call);
    let ending = work_again(alloc, program, run, call, row, steps)?;
    let WorkEnd {
        mut machine,
        events,
        way,
        answer,
    } = ending;
    close_call(&mut machine, row.depth);
    Ok(Trace {
        events,
        way,
        result: answer,
        exit: keep_state(machine),
    })
}
