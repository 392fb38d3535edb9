//! What the time of a step is compared with: the time that an entry of sixteen bytes takes. Times are those of the
//! processor, so that other work on the machine counts little.

use anyhow::Result;
use std::alloc::{AllocError, Global};
use std::rt::CpuClock;
use std::time::Duration;

/// The entries of a round, as many as a run has steps.
pub(crate) const ENTRIES: u32 = 4_000_000;

/// The rounds, of which the fastest counts.
const ROUNDS: u32 = 5;

/// An entry, as large as one of the log of a run.
#[derive(Clone, Copy)]
struct Entry {
    place: u64,
    number: u64,
}

/// The nanoseconds of the processor since a time.
pub(crate) fn nanos_since(clock: &impl CpuClock, start: Duration) -> Result<u128> {
    Ok(clock.process_cpu_time()?.saturating_sub(start).as_nanos())
}

/// The entries, pushed onto a list that grows.
fn entries(alloc: Global) -> Result<Vec<Entry>, AllocError> {
    let mut list = Vec::new(alloc);
    for i in 0..ENTRIES {
        let place = u64::from(i);
        let number = place.wrapping_mul(place);
        list.push(Entry { place, number })?;
    }
    Ok(list)
}

/// The sum of both numbers of each entry.
fn sum_of(list: &[Entry]) -> u64 {
    let mut sum = 0u64;
    for entry in list {
        sum = sum.wrapping_add(entry.place).wrapping_add(entry.number);
    }
    sum
}

/// What pushing the entries and summing them took.
#[derive(Clone, Copy)]
pub(crate) struct Pushed {
    /// The nanoseconds of the fastest round.
    pub nanos: u128,
    /// The sum of the last round, which is printed so that no compiler leaves the work out.
    pub sum: u64,
}

/// Pushes the entries onto a list and sums them, round after round.
pub(crate) fn push_and_sum(clock: &impl CpuClock, alloc: Global) -> Result<Pushed> {
    let mut fastest = Pushed {
        nanos: u128::MAX,
        sum: 0,
    };
    for _ in 0..ROUNDS {
        let start = clock.process_cpu_time()?;
        let sum = sum_of(&entries(alloc)?);
        let nanos = nanos_since(clock, start)?;
        fastest = Pushed {
            nanos: fastest.nanos.min(nanos),
            sum,
        };
    }
    Ok(fastest)
}
