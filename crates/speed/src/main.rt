//! The program `speed` measures how long the run of a Pascal program takes, by the word for a workload: `loop`,
//! `array`, `flat`, `function` or `deep`. Each run has 4,000,000 steps and keeps its whole log. Beside it stands a
//! yardstick of the same process: 4,000,000 entries of 16 bytes, pushed onto a list that grows, and summed.
//!
//! With no word it does nothing.
#![tactic(auto)]

mod measuring;
mod workloads;
mod yardstick;

use anyhow::{Result, bail};
use measuring::{Measured, measure};
use std::env;
use workloads::source_of;
use yardstick::{ENTRIES, Pushed, push_and_sum};

/// This many nanoseconds for each of this many things, in tenths.
fn tenths_each(nanos: u128, things: u32) -> u64 {
    let tenths = u64::try_from(nanos).unwrap_or(u64::MAX).saturating_mul(10);
    tenths / u64::from(things.max(1))
}

/// Prints what was measured.
fn report<R: Print>(rt: &R, name: &str, taken: Measured, yard: Pushed) -> Result<()> {
    let step = tenths_each(taken.nanos, taken.steps);
    let entry = tenths_each(yard.nanos, ENTRIES);
    let quotient = step.saturating_mul(10) / entry.max(1);
    let (steps, calls, sum) = (taken.steps, taken.calls, yard.sum);
    println!(rt; "{name}: {steps} steps, {calls} calls")?;
    println!(rt; "{}.{} ns a step", step / 10, step % 10)?;
    println!(rt;
        "{}.{} ns an entry of the yardstick, with the sum {sum}",
        entry / 10,
        entry % 10
    )?;
    println!(rt; "{}.{} yardsticks a step", quotient / 10, quotient % 10)?;
    println!(rt; "{} ms to drop the run", taken.dropped / 1_000_000)?;
    Ok(())
}

fn main(rt: HostRuntime) -> Result<()> {
    let mut words = env::args(&rt)?;
    let _program = words.next();
    let Some(name) = words.next() else {
        return Ok(());
    };
    let name = name.as_str();
    let Some(source) = source_of(name) else {
        bail!("no workload has this name: {name}");
    };
    let yard = push_and_sum(&rt, rt.alloc())?;
    let taken = measure(&rt, rt.alloc(), source.as_bytes())?;
    report(&rt, name, taken, yard)
}
