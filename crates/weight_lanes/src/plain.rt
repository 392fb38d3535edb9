//! The searches as plain loops.

ghost use Rattle.std.specs.Prelude.{◌<◌, ◌↔◌, ◌≡◌, ◌≢◌, ◌≤◌, ℕ, All, IfSome, IsNone, IsTrue, length};
ghost use Rattle.weight_lanes.specs.Places.{AreWeighed, Holds, IsSet, IsWeightlessParent, LeavesFewer, left_at};

use crate::choice::{Choice, better, left_after};

/// Of the places that may be asked about, the one of which the worse answer leaves the fewest, with
/// that number; of several, the least place. None where no place may be asked about.
pub fn best(weights: &[u32], askable: &[u8], total: u32) -> Option<Choice>
    requires same_length { length weights.now ≡ length askable.now }
    requires weighed { AreWeighed weights.now askable.now total }
    ensures none { IsNone result ↔ All (λ flag. flag ≡ 0) askable.now }
    ensures at_askable { IfSome result (λ choice. IsSet askable.now choice.at) }
    ensures left { IfSome result (λ choice. choice.left ≡ left_at weights.now total choice.at) }
    ensures least { IfSome result (λ choice. (place : ℕ) → IsSet askable.now place →
        choice.left ≤ left_at weights.now total place) }
    ensures first { IfSome result (λ choice. (place : ℕ) → place < choice.at →
        IsSet askable.now place → left_at weights.now total place ≢ choice.left) }
{
    let mut best = None;
    for at in 0..weights.len() {
        if askable[at] != 0 {
            let left = left_after(weights[at], total);
            best = Some(better(best, Choice { left, at }));
        }
    }
    best
}

/// The least place of at least `from` that holds the value. None where there is none, also where
/// `from` is beyond the end.
pub fn next_of(column: &[u32], from: usize, value: u32) -> Option<usize>
    ensures none { IsNone result ↔ ((place : ℕ) → from ≤ place → ¬ Holds column.now value place) }
    ensures holds { IfSome result (λ place. Holds column.now value place) }
    ensures at_least { IfSome result (λ place. from ≤ place) }
    ensures least { IfSome result (λ place. (other : ℕ) → from ≤ other →
        Holds column.now value other → place ≤ other) }
{
    for place in from..column.len() {
        if column[place] == value {
            return Some(place);
        }
    }
    None
}

/// Whether the call at the place weighs nothing, and calls stand below it.
fn is_weightless_parent(weights: &[u32], last: &[u32], place: usize) -> bool
    requires inside { place < length weights.now }
    requires same_length { length weights.now ≡ length last.now }
    ensures { IsTrue result ↔ IsWeightlessParent weights.now last.now place }
{
    weights[place] == 0 && last[place] as usize != place
}

/// The least place of at least `from` at which a call weighs nothing and calls stand below it, where
/// `last` has the last call of each subtree. None where there is none, also where `from` is beyond the
/// end.
pub fn next_weightless_parent(weights: &[u32], last: &[u32], from: usize) -> Option<usize>
    requires same_length { length weights.now ≡ length last.now }
    ensures none { IsNone result ↔
        ((place : ℕ) → from ≤ place → ¬ IsWeightlessParent weights.now last.now place) }
    ensures holds { IfSome result (λ place. IsWeightlessParent weights.now last.now place) }
    ensures at_least { IfSome result (λ place. from ≤ place) }
    ensures least { IfSome result (λ place. (other : ℕ) → from ≤ other →
        IsWeightlessParent weights.now last.now other → place ≤ other) }
{
    for place in from..weights.len() {
        if is_weightless_parent(weights, last, place) {
            return Some(place);
        }
    }
    None
}

/// Whether the place may be asked about, and the worse answer there leaves fewer than `bound` suspects.
fn leaves_fewer(weights: &[u32], askable: &[u8], total: u32, bound: u32, place: usize) -> bool
    requires inside { place < length weights.now }
    requires same_length { length weights.now ≡ length askable.now }
    ensures { IsTrue result ↔ LeavesFewer weights.now askable.now total bound place }
{
    let weight = weights[place];
    askable[place] != 0 && weight.saturating_sub(1).max(total.saturating_sub(weight)) < bound
}

/// The least place of at least `from` that may be asked about and of which the worse answer leaves fewer
/// than `bound` suspects. None where there is none, also where `from` is beyond the end.
pub fn next_leaving_fewer(
    weights: &[u32],
    askable: &[u8],
    total: u32,
    from: usize,
    bound: u32,
) -> Option<usize>
    requires same_length { length weights.now ≡ length askable.now }
    requires at_most_total { bound ≤ total }
    ensures none { IsNone result ↔ ((place : ℕ) → from ≤ place →
        ¬ LeavesFewer weights.now askable.now total bound place) }
    ensures fewer { IfSome result (λ place. LeavesFewer weights.now askable.now total bound place) }
    ensures at_least { IfSome result (λ place. from ≤ place) }
    ensures least { IfSome result (λ place. (other : ℕ) → from ≤ other →
        LeavesFewer weights.now askable.now total bound other → place ≤ other) }
{
    for place in from..weights.len() {
        if leaves_fewer(weights, askable, total, bound, place) {
            return Some(place);
        }
    }
    None
}

/// The greatest place whose flag is not 0. None where all are 0.
pub fn last_set(flags: &[u8]) -> Option<usize>
    ensures none { IsNone result ↔ All (λ flag. flag ≡ 0) flags.now }
    ensures set { IfSome result (λ place. IsSet flags.now place) }
    ensures greatest { IfSome result (λ place. (other : ℕ) → IsSet flags.now other →
        other ≤ place) }
{
    for place in (0..flags.len()).rev() {
        if flags[place] != 0 {
            return Some(place);
        }
    }
    None
}
