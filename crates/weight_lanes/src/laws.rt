//! Each search and its plain loop give one answer.

ghost use Rattle.std.specs.Prelude.{◌≡◌, ◌≤◌, length};
ghost use Rattle.weight_lanes.specs.Answers.{IsBest, IsLastSet, IsNext, IsNextWeightlessParent, IsNextWhere};
ghost use Rattle.weight_lanes.specs.Places.{AreWeighed, LeavesFewer};

use crate::choice::Choice;
use crate::choosing::best;
use crate::finding::{last_set, next_leaving_fewer, next_of, next_weightless_parent};
use crate::plain;

/// What `best` and `plain::best` answer.
pub fn best_both_ways(
    weights: &[u32],
    askable: &[u8],
    total: u32,
) -> (Option<Choice>, Option<Choice>)
    requires same_length { length weights.now ≡ length askable.now }
    requires weighed { AreWeighed weights.now askable.now total }
    ensures answer { IsBest weights.now askable.now total result.0 }
    ensures same { result.0 ≡ result.1 }
{
    let by_lanes = best(weights, askable, total);
    let by_loop = plain::best(weights, askable, total);
    (by_lanes, by_loop)
}

/// What `next_of` and `plain::next_of` answer.
pub fn next_of_both_ways(column: &[u32], from: usize, value: u32) -> (Option<usize>, Option<usize>)
    ensures answer { IsNext column.now from value result.0 }
    ensures same { result.0 ≡ result.1 }
{
    let by_lanes = next_of(column, from, value);
    let by_loop = plain::next_of(column, from, value);
    (by_lanes, by_loop)
}

/// What `next_weightless_parent` and `plain::next_weightless_parent` answer.
pub fn next_weightless_parent_both_ways(
    weights: &[u32],
    last: &[u32],
    from: usize,
) -> (Option<usize>, Option<usize>)
    requires same_length { length weights.now ≡ length last.now }
    ensures answer { IsNextWeightlessParent weights.now last.now from result.0 }
    ensures same { result.0 ≡ result.1 }
{
    let by_lanes = next_weightless_parent(weights, last, from);
    let by_loop = plain::next_weightless_parent(weights, last, from);
    (by_lanes, by_loop)
}

/// What `next_leaving_fewer` and `plain::next_leaving_fewer` answer.
pub fn next_leaving_fewer_both_ways(
    weights: &[u32],
    askable: &[u8],
    total: u32,
    from: usize,
    bound: u32,
) -> (Option<usize>, Option<usize>)
    requires same_length { length weights.now ≡ length askable.now }
    requires at_most_total { bound ≤ total }
    ensures answer { IsNextWhere (LeavesFewer weights.now askable.now total bound) from result.0 }
    ensures same { result.0 ≡ result.1 }
{
    let by_lanes = next_leaving_fewer(weights, askable, total, from, bound);
    let by_loop = plain::next_leaving_fewer(weights, askable, total, from, bound);
    (by_lanes, by_loop)
}

/// What `last_set` and `plain::last_set` answer.
pub fn last_set_both_ways(flags: &[u8]) -> (Option<usize>, Option<usize>)
    ensures answer { IsLastSet flags.now result.0 }
    ensures same { result.0 ≡ result.1 }
{
    let by_lanes = last_set(flags);
    let by_loop = plain::last_set(flags);
    (by_lanes, by_loop)
}
