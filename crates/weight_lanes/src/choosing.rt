//! The place that may be asked about of which the worse answer leaves the fewest suspects. One pass
//! finds the least number, a second one the first place that has it.

ghost use Rattle.std.specs.Prelude.{◌<◌, ◌↔◌, ◌≡◌, ◌≢◌, ◌≤◌, ℕ, All, IfSome, IsNone, length, slice_index};
ghost use Rattle.weight_lanes.specs.Lanes.{HasNumber, IsFirstBelow, IsLeastBelow, NoneIn, lane_number};
ghost use Rattle.weight_lanes.specs.Places.{AreWeighed, IsSet, left_at};

use crate::bits::lowest;
use crate::choice::{Choice, left_after};
use crate::lanes::{NUMBERS, numbered_at, numbers_from, smaller};
use std::simd::prelude::*;

/// The number of a place.
fn number(weights: &[u32], askable: &[u8], total: u32, place: usize) -> u32
    requires inside { place < length weights.now }
    requires same_length { length weights.now ≡ length askable.now }
    requires weighed { AreWeighed weights.now askable.now total }
    ensures { result ≡ lane_number weights.now askable.now total place }
{
    if askable[place] == 0 {
        u32::MAX
    } else {
        left_after(weights[place], total)
    }
}

/// The least lane.
fn least_lane(lanes: u32x16) -> u32
    ensures { IsLeastBelow (slice_index lanes) 16 result }
{
    let numbers = lanes.to_array();
    let mut least = u32::MAX;
    for number in &numbers {
        least = least.min(*number);
    }
    least
}

/// The least number of the places from `from` on, and `so_far`.
fn least_of_rest(weights: &[u32], askable: &[u8], total: u32, from: usize, so_far: u32) -> u32
    requires inside { from ≤ length weights.now }
    requires same_length { length weights.now ≡ length askable.now }
    requires weighed { AreWeighed weights.now askable.now total }
    requires before { IsLeastBelow (lane_number weights.now askable.now total) from so_far }
    ensures { IsLeastBelow (lane_number weights.now askable.now total) (length weights.now) result }
{
    let mut least = so_far;
    for place in from..weights.len() {
        least = least.min(number(weights, askable, total, place));
    }
    least
}

/// The least number of all places.
fn least_number(weights: &[u32], askable: &[u8], total: u32) -> u32
    requires same_length { length weights.now ≡ length askable.now }
    requires weighed { AreWeighed weights.now askable.now total }
    ensures { IsLeastBelow (lane_number weights.now askable.now total) (length weights.now) result }
{
    let mut lanes = u32x16::splat(u32::MAX);
    let mut seen = 0;
    'search: while NUMBERS <= weights.len() - seen {
        lanes = smaller(lanes, numbers_from(weights, askable, total, seen));
        seen += NUMBERS;
    }
    let least = least_lane(lanes);
    least_of_rest(weights, askable, total, seen, least)
}

/// The first place from `from` on that has this number.
fn first_of_rest(
    weights: &[u32],
    askable: &[u8],
    total: u32,
    from: usize,
    sought: u32,
) -> Option<usize>
    requires inside { from ≤ length weights.now }
    requires same_length { length weights.now ≡ length askable.now }
    requires weighed { AreWeighed weights.now askable.now total }
    requires before { NoneIn (HasNumber weights.now askable.now total sought) 0 from }
    ensures none { IsNone result →
        NoneIn (HasNumber weights.now askable.now total sought) 0 (length weights.now) }
    ensures first { IfSome result
        (IsFirstBelow (HasNumber weights.now askable.now total sought) (length weights.now)) }
{
    for place in from..weights.len() {
        if number(weights, askable, total, place) == sought {
            return Some(place);
        }
    }
    None
}

/// The first place that has this number.
fn first_numbered(weights: &[u32], askable: &[u8], total: u32, sought: u32) -> Option<usize>
    requires same_length { length weights.now ≡ length askable.now }
    requires weighed { AreWeighed weights.now askable.now total }
    ensures none { IsNone result →
        NoneIn (HasNumber weights.now askable.now total sought) 0 (length weights.now) }
    ensures first { IfSome result
        (IsFirstBelow (HasNumber weights.now askable.now total sought) (length weights.now)) }
{
    let mut at = 0;
    'search: while NUMBERS <= weights.len() - at {
        let hits = numbered_at(weights, askable, total, at, sought);
        if hits != 0 {
            return Some(at + lowest(hits));
        }
        at += NUMBERS;
    }
    first_of_rest(weights, askable, total, at, sought)
}

/// Of the places that may be asked about, the one of which the worse answer leaves the fewest, with
/// that number; of several, the least place. None where no place may be asked about.
pub fn best(weights: &[u32], askable: &[u8], total: u32) -> Option<Choice>
    requires same_length { length weights.now ≡ length askable.now }
    requires weighed { AreWeighed weights.now askable.now total }
    ensures none { IsNone result ↔ All (λ flag. flag ≡ 0) askable.now }
    ensures at_askable { IfSome result (λ choice. IsSet askable.now choice.at) }
    ensures left { IfSome result (λ choice. choice.left ≡ left_at weights.now total choice.at) }
    ensures least { IfSome result (λ choice. (place : ℕ) → IsSet askable.now place →
        choice.left ≤ left_at weights.now total place) }
    ensures first { IfSome result (λ choice. (place : ℕ) → place < choice.at →
        IsSet askable.now place → left_at weights.now total place ≢ choice.left) }
{
    let left = least_number(weights, askable, total);
    if left == u32::MAX {
        return None;
    }
    let at = first_numbered(weights, askable, total, left)?;
    Some(Choice { left, at })
}
