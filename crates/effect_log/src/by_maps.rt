//! The effect of a part of the log.
ghost use Rattle.std.specs.Prelude.{◌<◌, ◌^◌, ◌≡◌, ◌≤◌, All, IfOk, length, slice_range};
ghost use Rattle.cell_value.specs.Effects.{IsCountable, changes_of, given_of, looked_of, made_of, reads_of, taken_of};
ghost use Rattle.effect_log.specs.Passing.{IsFound};

use crate::cells_found::in_order;
use crate::found::Found;
use crate::lists::{Changes, Reads};
use crate::log::Log;
use cell_value::Memory;
use edge_ports::Bytes;
use std::alloc::Global;

/// The effect of a part of the log.
#[derive(Debug, Drop)]
pub struct Footprint {
    /// What was seen of each address before it was changed.
    pub reads: Reads,
    /// What each address that was changed was left with.
    pub changes: Changes,
    /// The number of cells of the heap that were made.
    pub made: u32,
    /// The number of items of the input from the place of the call to the furthest that was looked at.
    pub looked: u32,
    /// The number of items of the input that were taken.
    pub taken: u32,
    /// The bytes that were given.
    pub given: Bytes,
}

/// All that is found in the entries `from` to `to - 1`.
fn found_in(
    alloc: Global,
    log: &Log,
    from: u32,
    to: u32,
    base: u32,
    place: u32,
) -> Result<Found, Memory>
    requires in_order { from ≤ to }
    requires in_log { to ≤ length log.now }
    requires countable { All IsCountable (slice_range log.now from to) }
    requires made_fits { made_of (slice_range log.now from to) < 2 ^ 32 }
    requires taken_fits { taken_of (slice_range log.now from to) < 2 ^ 32 }
    ensures { IfOk result (IsFound base place (slice_range log.now from to)) }
{
    let mut found = Found::new(alloc);
    for i in from..to {
        found.take_in(base, place, log.at(i))?;
    }
    Ok(found)
}

/// The effect of the log's entries `from` to `to - 1`, for a call whose frame begins at `base` and that
/// found the input at `place`: it speaks of the heap and of the stack below the frame. It goes over the
/// entries once; beside them, each cell of a block that is made or dropped takes time.
///
/// Every block made or dropped lies below the address 1,048,576, every item looked at has a number below
/// 4,294,967,295, and the cells made and the items taken sum up to less than 2^32 each.
pub fn effect_of_few(
    alloc: Global,
    log: &Log,
    from: u32,
    to: u32,
    base: u32,
    place: u32,
) -> Result<Footprint, Memory>
    requires in_order { from ≤ to }
    requires in_log { to ≤ length log.now }
    requires countable { All IsCountable (slice_range log.now from to) }
    requires made_fits { made_of (slice_range log.now from to) < 2 ^ 32 }
    requires taken_fits { taken_of (slice_range log.now from to) < 2 ^ 32 }
    ensures reads { IfOk result (λ f. f.reads ≡ reads_of base (slice_range log.now from to)) }
    ensures changes { IfOk result (λ f. f.changes ≡ changes_of base (slice_range log.now from to)) }
    ensures made { IfOk result (λ f. f.made ≡ made_of (slice_range log.now from to)) }
    ensures looked { IfOk result (λ f. f.looked ≡ looked_of place (slice_range log.now from to)) }
    ensures taken { IfOk result (λ f. f.taken ≡ taken_of (slice_range log.now from to)) }
    ensures given { IfOk result (λ f. f.given ≡ given_of (slice_range log.now from to)) }
{
    let found = found_in(alloc, log, from, to, base, place)?;
    let reads = in_order(alloc, &found.reads)?;
    let changes = in_order(alloc, &found.changes)?;
    let Found {
        reads: _,
        changes: _,
        made,
        looked,
        taken,
        given,
    } = found;
    Ok(Footprint {
        reads,
        changes,
        made,
        looked,
        taken,
        given,
    })
}
