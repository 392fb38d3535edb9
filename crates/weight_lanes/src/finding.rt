//! The next place that holds a value, the next call that weighs nothing and has calls below it, the next
//! one of which the worse answer leaves few suspects, and the last place whose flag is set.

ghost use Rattle.std.specs.Prelude.{◌↔◌, ◌≡◌, ◌≤◌, ℕ, All, IfSome, IsNone, length};
ghost use Rattle.weight_lanes.specs.Places.{Holds, IsSet, IsWeightlessParent, LeavesFewer};

use crate::bits::{highest, lowest};
use crate::lanes::{FLAGS, NUMBERS, equal_at, fewer_at, set_at, weightless_parents_at};
use crate::plain;

/// The least place of at least `from` that holds the value. None where there is none, also where
/// `from` is beyond the end.
pub fn next_of(column: &[u32], from: usize, value: u32) -> Option<usize>
    ensures none { IsNone result ↔ ((place : ℕ) → from ≤ place → ¬ Holds column.now value place) }
    ensures holds { IfSome result (λ place. Holds column.now value place) }
    ensures at_least { IfSome result (λ place. from ≤ place) }
    ensures least { IfSome result (λ place. (other : ℕ) → from ≤ other →
        Holds column.now value other → place ≤ other) }
{
    if column.len() < from {
        return None;
    }
    let mut at = from;
    'search: while NUMBERS <= column.len() - at {
        let hits = equal_at(column, at, value);
        if hits != 0 {
            return Some(at + lowest(hits));
        }
        at += NUMBERS;
    }
    plain::next_of(column, at, value)
}

/// The least place of at least `from` at which a call weighs nothing and calls stand below it, where
/// `last` has the last call of each subtree. None where there is none, also where `from` is beyond the
/// end.
pub fn next_weightless_parent(weights: &[u32], last: &[u32], from: usize) -> Option<usize>
    requires same_length { length weights.now ≡ length last.now }
    ensures none { IsNone result ↔
        ((place : ℕ) → from ≤ place → ¬ IsWeightlessParent weights.now last.now place) }
    ensures holds { IfSome result (λ place. IsWeightlessParent weights.now last.now place) }
    ensures at_least { IfSome result (λ place. from ≤ place) }
    ensures least { IfSome result (λ place. (other : ℕ) → from ≤ other →
        IsWeightlessParent weights.now last.now other → place ≤ other) }
{
    // A lane has room for no place from 2 ^ 32 on.
    if weights.len() < from || u32::MAX as usize <= weights.len() {
        return plain::next_weightless_parent(weights, last, from);
    }
    let mut at = from;
    'search: while NUMBERS <= weights.len() - at {
        let hits = weightless_parents_at(weights, last, at);
        if hits != 0 {
            return Some(at + lowest(hits));
        }
        at += NUMBERS;
    }
    plain::next_weightless_parent(weights, last, at)
}

/// The least place of at least `from` that may be asked about and of which the worse answer leaves fewer
/// than `bound` suspects. None where there is none, also where `from` is beyond the end.
pub fn next_leaving_fewer(
    weights: &[u32],
    askable: &[u8],
    total: u32,
    from: usize,
    bound: u32,
) -> Option<usize>
    requires same_length { length weights.now ≡ length askable.now }
    requires at_most_total { bound ≤ total }
    ensures none { IsNone result ↔ ((place : ℕ) → from ≤ place →
        ¬ LeavesFewer weights.now askable.now total bound place) }
    ensures fewer { IfSome result (λ place. LeavesFewer weights.now askable.now total bound place) }
    ensures at_least { IfSome result (λ place. from ≤ place) }
    ensures least { IfSome result (λ place. (other : ℕ) → from ≤ other →
        LeavesFewer weights.now askable.now total bound other → place ≤ other) }
{
    if weights.len() < from {
        return None;
    }
    let mut at = from;
    'search: while NUMBERS <= weights.len() - at {
        let hits = fewer_at(weights, askable, total, at, bound);
        if hits != 0 {
            return Some(at + lowest(hits));
        }
        at += NUMBERS;
    }
    plain::next_leaving_fewer(weights, askable, total, at, bound)
}

/// The greatest place whose flag is not 0. None where all are 0.
pub fn last_set(flags: &[u8]) -> Option<usize>
    ensures none { IsNone result ↔ All (λ flag. flag ≡ 0) flags.now }
    ensures set { IfSome result (λ place. IsSet flags.now place) }
    ensures greatest { IfSome result (λ place. (other : ℕ) → IsSet flags.now other →
        other ≤ place) }
{
    let mut end = flags.len();
    'search: while FLAGS <= end {
        let hits = set_at(flags, end - FLAGS);
        if hits != 0 {
            return Some(end - FLAGS + highest(hits));
        }
        end -= FLAGS;
    }
    plain::last_set(&flags[..end])
}
