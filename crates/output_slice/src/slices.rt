//! The slice of an output of a call.
ghost use Rattle.std.specs.Prelude.{◌<◌, ◌≡◌, ◌≤◌, ℕ, IfOk, List, Some, length};
ghost use Rattle.std.specs.List.{slice_get};
ghost use Rattle.core_program.specs.{Run.Marked, RunLaws.most_bytes, State.State};
ghost use Rattle.core_program.specs.Run as meaning;
ghost use Rattle.program_run.specs.History.{IsOfRun};
ghost use Rattle.output_slice.specs.{Kept.Kept, Kept.MetAlike, KeptRuns.IsKept, KeptRuns.IsKeptRun, Keys.has_key};
ghost use Rattle.output_slice.specs.{Needed.EndsAs, Needed.IsEffectOfCall, Outputs.has_output, Slices.AnswersSlice};
ghost use Rattle.output_slice.specs.{Touches.touches_below, WrongOutputs.NarrowingByMarks};

use crate::laws::{outputs_are_kept, wrong_outputs_narrow};
use crate::outputs::Output;
use crate::passes::effect_of;
use crate::slicing::Slicing;
use crate::used::is_output;
use call_tree::Call;
use cell_value::{MOST_TOUCHES, Memory};
use core_program::Program;
use effect_log::{Changes, Footprint};
use program_run::History;
use std::alloc::Global;
use thiserror::Error;

/// Why there is no slice.
#[derive(Clone, Copy, Debug, PartialEq, Eq, Error)]
pub enum SliceFault {
    /// The call has no such output.
    #[error("the call has no such output")]
    NoOutput,
    /// The parts of the log of the calls below it are longer than 50,000,000 touches, taken together.
    #[error("{0} touches are too many to slice")]
    TooMany(u64),
    /// Out of memory, or more than 50,000,000 pairs.
    #[error("out of memory")]
    Memory,
}

/// Whether a cell is among those that were changed.
fn has_change(changes: &Changes, addr: u32) -> bool
    ensures { result ≡ has_key addr changes.now }
{
    for i in 0..changes.len() {
        if changes.at(i).0 == addr {
            return true;
        }
    }
    false
}

/// Whether an output is one of a call with this row and this effect.
fn is_among(row: &Call, effect: &Footprint, output: Output) -> bool
    ensures { (c : meaning.Call) → IsEffectOfCall c effect.now → EndsAs c row.now → result ≡ has_output c output }
{
    match output {
        Output::Cell(addr) => has_change(&effect.changes, addr),
        Output::Result => row.result.is_some(),
        Output::Gives => 0 < effect.given.as_slice().len(),
        Output::Takes => 0 < effect.taken,
        Output::Makes => 0 < effect.made,
        Output::Way => is_output(row.way),
    }
}

/// Whether a call of the run has an output.
fn has_it(alloc: Global, run: &History, call: u32, output: Output) -> Result<bool, Memory>
    requires kept { IsKept run.now }
    requires a_call { call < length run.now.calls.calls }
    ensures { IfOk result (λ has. (r : meaning.Result State meaning.Call) → IsKeptRun run.now r
        → (e : Marked meaning.Call) → slice_get r.events call ≡ Some e → has ≡ has_output e.event output) }
{
    let row = run.calls.call(call);
    let effect = effect_of(alloc, run, call)?;
    Ok(is_among(row, &effect, output))
}

/// Whether a call of the run has an output. The run is that of the program with an input of at most 4,194,304 bytes and
/// a budget of at most 4,000,000 steps.
pub fn has_output(
    alloc: Global,
    program: &Program,
    run: &History,
    call: u32,
    output: Output,
) -> Result<bool, Memory>
    requires run { (input : List ℕ) × (length input ≤ most_bytes)
        × IsOfRun program.now input run.now.budget run.now }
    requires budget { run.now.budget ≤ 4000000 }
    requires a_call { call < length run.now.calls.calls }
    ensures { IfOk result (λ has. (input : List ℕ) → length input ≤ most_bytes
        → IsOfRun program.now input run.now.budget run.now
        → (r : meaning.Result State meaning.Call) → meaning.run program.now input run.now.budget ≡ Some r
        → (e : Marked meaning.Call) → slice_get r.events call ≡ Some e → has ≡ has_output e.event output) }
{
    // What is kept of a run is that of one.
    program.is_whole();
    let has = has_it(alloc, run, call, output)?;
    Ok(has)
}

/// The touches of a call and of each call below it, taken together.
fn touches_of_all(run: &History, call: u32) -> u64
    requires kept { IsKept run.now }
    requires a_call { call < length run.now.calls.calls }
    ensures { (r : meaning.Result State meaning.Call) → IsKeptRun run.now r → (e : Marked meaning.Call)
        → slice_get r.events call ≡ Some e → result ≡ touches_below run.now.calls.calls call e.event.below }
{
    // There are few calls.
    run.calls.are_numbered();
    let first = run.calls.call(call);
    let mut touches: u64 = 0;
    for number in call..first.last + 1 {
        let row = run.calls.call(number);
        touches += (row.exit.mark - row.entry.mark) as u64;
    }
    touches
}

/// The slice of an output of a call: the least set of pairs of a call and an output that has it, and with each pair the
/// outputs of the calls that its call made from which it may come. The run is that of the program with an input of at
/// most 4,194,304 bytes and a budget of at most 4,000,000 steps. `TooMany` comes before `NoOutput`.
pub fn slice(
    alloc: Global,
    program: &Program,
    run: &History,
    call: u32,
    output: Output,
) -> Result<Slicing, SliceFault>
    requires run { (input : List ℕ) × (length input ≤ most_bytes)
        × IsOfRun program.now input run.now.budget run.now }
    requires budget { run.now.budget ≤ 4000000 }
    requires a_call { call < length run.now.calls.calls }
    ensures answer { (input : List ℕ) → length input ≤ most_bytes → IsOfRun program.now input run.now.budget run.now
        → (r : meaning.Result State meaning.Call) → meaning.run program.now input run.now.budget ≡ Some r
        → (e : Marked meaning.Call) → slice_get r.events call ≡ Some e
        → AnswersSlice (touches_below run.now.calls.calls call e.event.below)
        (record { run = r; call = call; entry = e; output = output }) result }
    ensures of_run { IfOk result (λ slice. slice.calls ≡ length run.now.calls.calls) }
    ensures kept { Kept }
    ensures met { MetAlike }
    ensures narrows { NarrowingByMarks }
{
    // What is kept of a run is that of one, and slices have these laws.
    program.is_whole();
    outputs_are_kept();
    wrong_outputs_narrow();
    let touches = touches_of_all(run, call);
    if touches > MOST_TOUCHES {
        return Err(SliceFault::TooMany(touches));
    }
    match has_it(alloc, run, call, output) {
        Err(_) => Err(SliceFault::Memory),
        Ok(has) => {
            if !has {
                return Err(SliceFault::NoOutput);
            }
            match Slicing::of(alloc, run, call, output) {
                Ok(slicing) => Ok(slicing),
                Err(_) => Err(SliceFault::Memory),
            }
        }
    }
}
