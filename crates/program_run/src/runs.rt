//! The run of a program.

ghost use Rattle.std.specs.Prelude.{◌+◌, ◌<◌, ◌∷◌, ◌≡◌, ◌≤◌, [], IfOk, IsSome, None, length};
ghost use Rattle.cell_value.specs.declared.values.Value.TheVariants.{Nil};
ghost use Rattle.core_program.specs.{ProgramRows.routine_at, State.stack_end};
ghost use Rattle.core_program.specs.Run as meaning;
ghost use Rattle.eval_ops.specs.Machines.{AllowsCall, IsReady, machine_state, moment_of};
ghost use Rattle.program_run.specs.CalledFrom.{CanBeCalled, call_from, state_from};
ghost use Rattle.program_run.specs.History.{first_state, log_of, output_of, recording_of};
ghost use Rattle.program_run.specs.Tower.{IsOver, first_call};

use crate::copies::{copy_items, copy_values};
use crate::history::History;
use crate::input::items_of;
use crate::runner::Runner;
use call_tree::{Calls, Side};
use cell_value::{Cells, Items, Memory, STACK_END, Value};
use core_program::Program;
use edge_ports::Bytes;
use effect_log::Log;
use eval_ops::Machine;
use persistent_store::Store;
use std::alloc::Global;

/// A machine in the state before a run.
fn first_machine(alloc: Global, items: Items, budget: u32) -> Machine
    requires few { budget ≤ 4000000 }
    ensures state { machine_state result ≡ first_state items budget }
    ensures log { result.log ≡ [] }
    ensures ready { IsReady result }
{
    Machine {
        store: Store::new(),
        log: Log::new(alloc),
        top: 0,
        fresh: STACK_END,
        items,
        place: 0,
        output: Bytes::new(alloc),
        steps: budget,
        calls: 0,
        depth: 0,
    }
}

/// A machine in the state before a call that is run by itself, with these items of the input.
fn machine_from(alloc: Global, entry: Side, depth: u32, items: Items) -> Machine
    requires stack { entry.top ≤ stack_end }
    requires few { entry.steps ≤ 4000000 }
    ensures state { machine_state result ≡ state_from entry depth items }
    ensures log { result.log ≡ [] }
    ensures ready { IsReady result }
{
    Machine {
        store: entry.store,
        log: Log::new(alloc),
        top: entry.top,
        fresh: entry.fresh,
        items,
        place: entry.place,
        output: Bytes::new(alloc),
        steps: entry.steps,
        calls: entry.calls,
        depth,
    }
}

/// Calls a routine from the state of a machine, until no call is open.
fn run_call(
    alloc: Global,
    program: &Program,
    routine: u32,
    args: Cells,
    machine: Machine,
) -> Result<Runner, Memory>
    requires there { IsSome (routine_at program.now routine) }
    requires ready { IsReady machine }
    requires room { AllowsCall machine }
    requires log { machine.log ≡ [] }
    requires few { length machine.output + machine.steps < 4294967296 }
    ensures over { IfOk result (λ r. IsOver program.now (first_call routine args (machine_state machine))
        (moment_of r.machine) r.calls) }
{
    let mut runner = Runner {
        machine,
        calls: Calls::new(alloc, program.routines()),
        opens: Vec::new(alloc),
        body: None,
    };
    runner.enter(alloc, program, None, routine, args)?;
    runner.go(alloc, program)?;
    Ok(runner)
}

/// Runs a program from the items of its input, until no call is open.
fn run_items(alloc: Global, program: &Program, items: Items, budget: u32) -> Result<Runner, Memory>
    requires block { IsSome (routine_at program.now 0) }
    requires few { budget ≤ 4000000 }
    ensures over { IfOk result (λ r. IsOver program.now (first_call 0 (Nil ∷ []) (first_state items budget))
        (moment_of r.machine) r.calls) }
{
    let mut link = Cells::new(alloc);
    link.push(Value::Nil)?;
    let machine = first_machine(alloc, items, budget);
    run_call(alloc, program, 0, link, machine)
}

/// What is left once no call is open.
fn history_of(runner: Runner, budget: u32) -> History
    ensures calls { result.calls ≡ runner.calls }
    ensures log { result.log ≡ runner.machine.log }
    ensures input { result.input ≡ runner.machine.items }
    ensures output { result.output ≡ runner.machine.output }
    ensures budget { result.budget ≡ budget }
{
    let Runner { machine, calls, .. } = runner;
    let Machine {
        log,
        items,
        output,
        ..
    } = machine;
    History {
        calls,
        log,
        input: items,
        output,
        budget,
    }
}

/// Runs a program with an input and a budget of steps. Faults, a spent budget and limits are ways out of calls; that
/// memory ran out is the only error.
pub fn run(alloc: Global, program: &Program, input: &[u8], budget: u32) -> Result<History, Memory>
    requires steps { 0 < budget }
    requires few_steps { budget ≤ 4000000 }
    requires input { length input.now ≤ 4194304 }
    ensures calls { IfOk result (λ h. h.calls ≡ recording_of program.now (meaning.run program.now input.now budget)) }
    ensures log { IfOk result (λ h. h.log ≡ log_of (meaning.run program.now input.now budget)) }
    ensures output { IfOk result (λ h. h.output ≡ output_of (meaning.run program.now input.now budget)) }
    ensures input { IfOk result (λ h. h.input ≡ meaning.input_items input.now) }
    ensures budget { IfOk result (λ h. h.budget ≡ budget) }
{
    program.is_whole();
    let items = items_of(alloc, input)?;
    let runner = run_items(alloc, program, items, budget)?;
    Ok(history_of(runner, budget))
}

/// Calls a routine of a program from a state, also one that no run reaches: with this link and these arguments, from
/// what is kept of a state beside a call, where this many calls are open and the input has these items. Nothing was
/// given yet, and nothing was put into the log. The calls are numbered from 0, the first one, from which depths count.
/// The ways out of calls are as in a run; that memory ran out is the only error.
pub fn run_from(
    alloc: Global,
    program: &Program,
    routine: u32,
    args: &Cells,
    entry: Side,
    depth: u32,
    input: &Items,
) -> Result<History, Memory>
    requires able { CanBeCalled program.now routine (state_from entry depth input.now) }
    requires nothing_given { entry.output ≡ 0 }
    requires no_log { entry.mark ≡ 0 }
    requires steps { 0 < entry.steps }
    requires few_steps { entry.steps ≤ 4000000 }
    ensures calls { IfOk result (λ h. h.calls
        ≡ recording_of program.now (call_from program.now routine args.now (state_from entry depth input.now))) }
    ensures log { IfOk result (λ h. h.log
        ≡ log_of (call_from program.now routine args.now (state_from entry depth input.now))) }
    ensures output { IfOk result (λ h. h.output
        ≡ output_of (call_from program.now routine args.now (state_from entry depth input.now))) }
    ensures input { IfOk result (λ h. h.input ≡ input.now) }
    ensures budget { IfOk result (λ h. h.budget ≡ entry.steps) }
{
    program.is_whole();
    let budget = entry.steps;
    let values = copy_values(alloc, args)?;
    let items = copy_items(alloc, input)?;
    let machine = machine_from(alloc, entry, depth, items);
    let runner = run_call(alloc, program, routine, values, machine)?;
    Ok(history_of(runner, budget))
}
