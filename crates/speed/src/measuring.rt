//! A workload, from its source to the time of its run.

use crate::yardstick::nanos_since;
use anyhow::{Result, bail};
use call_tree::Calls;
use code_checker::check_tokens;
use core_program::Program;
use pas_lexer::{MAX_SOURCE_BYTES, lex};
use program_run::{History, run};
use std::alloc::Global;
use std::rt::CpuClock;

/// The steps of a run, the most that it may have.
const BUDGET: u32 = 4_000_000;

/// What the run of a workload took.
#[derive(Clone, Copy)]
pub(crate) struct Measured {
    /// The nanoseconds of the processor for the run.
    pub nanos: u128,
    /// The same for dropping what it left.
    pub dropped: u128,
    /// The steps that were taken.
    pub steps: u32,
    /// The calls that were entered.
    pub calls: u32,
}

/// The program of a source.
fn program_of(alloc: Global, source: &[u8]) -> Result<Program> {
    if source.len() > MAX_SOURCE_BYTES {
        bail!("the source is too long");
    }
    let tokens = lex(alloc, source)?;
    Ok(check_tokens(alloc, &tokens)?)
}

/// The run of a program, without input.
fn run_of(alloc: Global, program: &Program) -> Result<History> {
    Ok(run(alloc, program, b"", BUDGET)?)
}

/// The steps that the calls of a run took, from the entry of the first to its end.
fn steps_of(calls: &Calls) -> u32 {
    if calls.is_empty() {
        return 0;
    }
    BUDGET.saturating_sub(calls.call(0).exit.steps)
}

/// Measures the run of a source.
pub(crate) fn measure(clock: &impl CpuClock, alloc: Global, source: &[u8]) -> Result<Measured> {
    let program = program_of(alloc, source)?;
    let start = clock.process_cpu_time()?;
    let history = run_of(alloc, &program)?;
    let nanos = nanos_since(clock, start)?;
    let steps = steps_of(&history.calls);
    let calls = history.calls.len();
    let start = clock.process_cpu_time()?;
    drop(history);
    let dropped = nanos_since(clock, start)?;
    Ok(Measured {
        nanos,
        dropped,
        steps,
        calls,
    })
}
