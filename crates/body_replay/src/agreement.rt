//! Whether a state agrees with a call on all that the call met.

ghost use Rattle.std.specs.Prelude.{◌+◌, ◌-◌, ◌<◌, ◌↔◌, ◌≡◌, ◌≤◌, ℕ, All, IsTrue, drop, fold, length, max, slice_get};
ghost use Rattle.std.specs.{Prelude.take, FinMap.get};
ghost use Rattle.core_program.specs.Agree.{EndedByItself, Shows};
ghost use Rattle.call_tree.specs.Recording.{depths_of};
ghost use Rattle.body_replay.specs.ByRows.{HasRoomAt, MeetsTheSame};

use crate::kept_state::KeptState;
use call_tree::{Call, Calls};
use cell_value::{Items, MOST_CALLS, MOST_DEPTH, Seen, Value, WayOut};
use effect_log::{Footprint, Reads};
use persistent_store::Store;

/// Whether a call ended by itself, by a jump or by a fault: neither for want of steps nor at a limit.
pub(crate) fn ended_by_itself(way: WayOut) -> bool
    ensures { IsTrue result ↔ EndedByItself way }
{
    match way {
        WayOut::Returned | WayOut::Jumped(_, _) | WayOut::Faulted(_, _) => true,
        WayOut::OutOfSteps | WayOut::Limited(_) => false,
    }
}

/// Whether a cell is as it was seen.
fn is_as_seen(cell: Option<Value>, seen: Seen) -> bool
    ensures { IsTrue result ↔ Shows cell seen }
{
    match seen {
        Seen::Held(value) => cell == Some(value),
        Seen::There => cell.is_some(),
        Seen::Absent => cell.is_none(),
    }
}

/// Whether all cells are as they were seen.
fn are_as_seen(store: &Store, reads: &Reads) -> bool
    requires { All (λ x. x.0 < 1048576) reads.now }
    ensures { IsTrue result ↔ All (λ (addr, seen). Shows (get store.now addr) seen) reads.now }
{
    'reads: for i in 0..reads.len() {
        let (addr, seen) = reads.at(i);
        if !is_as_seen(store.get(addr), seen) {
            return false;
        }
    }
    true
}

/// The item that stands so far from a place, if the input has one there.
fn item_at(items: &Items, place: u32, by: u32) -> Option<u16>
    ensures { result ≡ slice_get items.now (place + by) }
{
    let len = items.len();
    if place < len && by < len - place {
        Some(items.at(place + by))
    } else {
        None
    }
}

/// Whether this many items of two inputs are the same, each from a place of its own on. The end of an input counts as
/// one.
fn are_same_items(items: &Items, place: u32, others: &Items, from: u32, looked: u32) -> bool
    ensures { IsTrue result
        ↔ ((n : ℕ) → n < looked → slice_get items.now (place + n) ≡ slice_get others.now (from + n)) }
{
    'looked: for n in 0..looked {
        if item_at(items, place, n) != item_at(others, from, n) {
            return false;
        }
    }
    true
}

/// The greatest depth in the subtree of a call, by its number and its row.
fn deepest(calls: &Calls, number: u32, row: &Call) -> u32
    requires last { row.now.last < length calls.now.calls }
    requires from_itself { number ≤ row.now.last }
    requires few { length calls.now.calls ≤ 500000 }
    ensures { result ≡ fold max row.now.depth
        (take (row.now.last - number) (drop (number + 1) (depths_of calls.now.calls))) }
{
    let mut deepest = row.depth;
    'below: for below in number + 1..row.last + 1 {
        deepest = deepest.max(calls.call(below).depth);
    }
    deepest
}

/// Whether a state has room for what a call took and called.
pub(crate) fn has_room(calls: &Calls, number: u32, row: &Call, at: &KeptState) -> bool
    requires last { row.now.last < length calls.now.calls }
    requires from_itself { number ≤ row.now.last }
    requires few { length calls.now.calls ≤ 500000 }
    ensures { IsTrue result ↔ HasRoomAt calls.now.calls number row.now at.now }
{
    let size = row.last - number + 1;
    let depth = deepest(calls, number, row).saturating_sub(row.depth);
    row.entry.steps.saturating_sub(row.exit.steps) <= at.steps
        && size <= MOST_CALLS
        && at.calls <= MOST_CALLS - size
        && depth <= MOST_DEPTH
        && at.depth <= MOST_DEPTH - depth
}

/// Whether a state shows all that a call met, by the call's row and its effect.
pub(crate) fn meets_the_same(others: &Items, row: &Call, found: &Footprint, at: &KeptState) -> bool
    requires { All (λ x. x.0 < 1048576) found.now.reads }
    ensures { IsTrue result ↔ MeetsTheSame others.now row.now found.now at.now }
{
    at.top == row.entry.top
        && (found.made == 0 || at.fresh == row.entry.fresh)
        && are_as_seen(&at.store, &found.reads)
        && are_same_items(&at.input, at.place, others, row.entry.place, found.looked)
}
