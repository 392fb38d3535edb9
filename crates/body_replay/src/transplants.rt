//! The record of a call, put in place of its run from another state.

ghost use Rattle.std.specs.Prelude.{◌+◌, ◌<◌, ◌↔◌, ◌≡◌, ◌≤◌, ℕ, All, IfOk, IfSome, IsSome, List, Some, length};
ghost use Rattle.std.specs.Prelude.{slice_get};
ghost use Rattle.core_program.specs.{Agree.Agrees, RunLaws.most_bytes, State.IsSound};
ghost use Rattle.core_program.specs.Apply as effects;
ghost use Rattle.core_program.specs.Run as meaning;
ghost use Rattle.call_tree.specs.Told.{IsTold};
ghost use Rattle.program_run.specs.History.{IsOfRun};
ghost use Rattle.body_replay.specs.{Agreement.carries, Carried.OfCall, Carried.RunsTo, Traces.kept_state};
ghost use Rattle.body_replay.specs.ByRows.{IsEffectOf, applied};

use crate::agreement::{ended_by_itself, has_room, meets_the_same};
use crate::applied::change_cells;
use crate::kept_state::{KeptState, keep_state, machine_before};
use call_tree::Call;
use cell_value::{HEAP_END, Memory, Steps};
use core_program::Program;
use edge_ports::Bytes;
use effect_log::{Footprint, Log, effect};
use program_run::{History, copy_items};
use std::alloc::Global;

/// The effect of a call, by its row of the table of a run.
fn effect_of(alloc: Global, log: &Log, row: &Call) -> Result<Footprint, Memory>
    requires { (items : List ℕ) × IsTold log.now items row.now }
    ensures { IfOk result (λ found. IsEffectOf log.now row.now found) }
{
    let entry = &row.entry;
    effect(
        alloc,
        log,
        entry.mark,
        row.exit.mark,
        entry.top,
        entry.place,
    )
}

/// The effect of a call of a run, by its number and row, if a state agrees with the call on all that it met.
fn agreed_effect(
    alloc: Global,
    program: &Program,
    run: &History,
    number: u32,
    row: &Call,
    at: &KeptState,
) -> Result<Option<Footprint>, Memory>
    requires run { (input : List ℕ) × (length input ≤ most_bytes)
        × IsOfRun program.now input run.now.budget run.now }
    requires budget { run.now.budget ≤ 4000000 }
    requires row { slice_get run.now.calls.calls number ≡ Some row.now }
    ensures agrees { IfOk result (λ found. OfCall program.now run.now number (λ c below.
        IsSome found ↔ Agrees c below (kept_state at.now))) }
    ensures found { IfOk result (λ found. IfSome found (λ f. IsEffectOf run.now.log row.now f)) }
{
    program.is_whole();
    if !ended_by_itself(row.way) {
        return Ok(None);
    }
    if !has_room(&run.calls, number, row, at) {
        return Ok(None);
    }
    let found = effect_of(alloc, &run.log, row)?;
    if meets_the_same(&run.input, row, &found, at) {
        Ok(Some(found))
    } else {
        Ok(None)
    }
}

/// A count that is raised, which then is at most this.
fn raised(count: u32, by: u32, most: u32) -> u32
    requires { 0 < by → count + by ≤ most }
    ensures { result ≡ count + by }
{
    if by == 0 {
        return count;
    }
    count + by
}

/// A state with the effect of a call, by the call's number and row.
fn after_effect(
    alloc: Global,
    number: u32,
    row: &Call,
    found: &Footprint,
    at: &KeptState,
) -> Result<KeptState, Memory>
    requires addresses { All (λ x. x.0 < 1048576) found.now.changes }
    requires fresh { 0 < found.now.made → at.now.fresh + found.now.made ≤ 1048576 }
    requires place { 0 < found.now.taken → at.now.place + found.now.taken ≤ length at.now.input }
    requires from_itself { number ≤ row.now.last }
    requires few { row.now.last < 500000 }
    requires calls { at.now.calls ≤ 500000 }
    ensures { IfOk result (λ after. kept_state after ≡ applied number row.now found.now (kept_state at.now)) }
{
    let mut store = at.store.snapshot()?;
    let mut steps: Steps<()> = Steps::new();
    change_cells(alloc, &mut store, &found.changes, &mut steps)?;
    let input = copy_items(alloc, &at.input)?;
    let mut output = Bytes::new(alloc);
    output.append(at.output.as_slice())?;
    output.append(found.given.as_slice())?;
    Ok(KeptState {
        store,
        top: at.top,
        fresh: raised(at.fresh, found.made, HEAP_END),
        place: raised(at.place, found.taken, at.input.len()),
        input,
        output,
        steps: at
            .steps
            .saturating_sub(row.entry.steps.saturating_sub(row.exit.steps)),
        calls: at.calls + (row.last - number + 1),
        depth: at.depth,
    })
}

/// Puts the record of a call of a run in place of its run from a state: what running the same routine with the same
/// args from there would leave. There is none exactly where the state does not agree with the call on all that the call
/// met, or the call did not end by itself. The run is that of the program with an input of at most 4,194,304 bytes and
/// a budget of at most 4,000,000 steps. Nothing is run: it goes over the call's part of the log once, and copies the
/// input and the output.
pub fn transplant(
    alloc: Global,
    program: &Program,
    run: &History,
    call: u32,
    at: &KeptState,
) -> Result<Option<KeptState>, Memory>
    requires run { (input : List ℕ) × (length input ≤ most_bytes)
        × IsOfRun program.now input run.now.budget run.now }
    requires budget { run.now.budget ≤ 4000000 }
    requires call { call < length run.now.calls.calls }

    // There is a state exactly where the state before agrees with the call, and it is what the call's effect makes.
    ensures agrees { IfOk result (λ after. OfCall program.now run.now call (λ c below.
        IsSome after ↔ Agrees c below (kept_state at.now))) }
    ensures applied { IfOk result (λ after. OfCall program.now run.now call (λ c below.
        IfSome after (λ after. kept_state after ≡ effects.apply c (kept_state at.now)))) }

    // If the state before is sound, a run of the routine with the args comes to this state, and ends as the call did.
    ensures stands { IfOk result (λ after. OfCall program.now run.now call (λ c below.
        IsSound (kept_state at.now)
        → IfSome after (λ after. RunsTo program.now c (kept_state at.now) (kept_state after)))) }
{
    program.is_whole();
    let row = run.calls.call(call);
    let agreed = agreed_effect(alloc, program, run, call, row, at)?;
    match agreed {
        None => Ok(None),
        Some(found) => {
            let after = after_effect(alloc, call, row, &found, at)?;
            Ok(Some(after))
        }
    }
}

/// The state before a call of a run, whole. The run is that of the program with an input of at most 4,194,304 bytes and
/// a budget of at most 4,000,000 steps.
pub fn entry_of(
    alloc: Global,
    program: &Program,
    run: &History,
    call: u32,
) -> Result<KeptState, Memory>
    requires run { (input : List ℕ) × (length input ≤ most_bytes)
        × IsOfRun program.now input run.now.budget run.now }
    requires budget { run.now.budget ≤ 4000000 }
    requires call { call < length run.now.calls.calls }
    ensures { IfOk result (λ entry. OfCall program.now run.now call (λ c below. kept_state entry ≡ c.entry)) }
{
    program.is_whole();
    let row = run.calls.call(call);
    let machine = machine_before(alloc, run, row)?;
    Ok(keep_state(machine))
}

/// Whether the record of a call of a run may be put in place of its run where another call of that run was entered:
/// whether `transplant` gives a state there. The run is that of the program with an input of at most 4,194,304 bytes
/// and a budget of at most 4,000,000 steps.
pub fn carries(
    alloc: Global,
    program: &Program,
    run: &History,
    call: u32,
    onto: u32,
) -> Result<bool, Memory>
    requires run { (input : List ℕ) × (length input ≤ most_bytes)
        × IsOfRun program.now input run.now.budget run.now }
    requires budget { run.now.budget ≤ 4000000 }
    requires call { call < length run.now.calls.calls }
    requires onto { onto < length run.now.calls.calls }
    ensures { IfOk result (λ carried. (input : List ℕ) → IsOfRun program.now input run.now.budget run.now
        → carried ≡ carries (meaning.run program.now input run.now.budget) call onto) }
{
    program.is_whole();
    let row = run.calls.call(call);
    let at = entry_of(alloc, program, run, onto)?;
    let agreed = agreed_effect(alloc, program, run, call, row, &at)?;
    Ok(agreed.is_some())
}
