//! One block of a column as a vector.

ghost use Rattle.std.specs.Prelude.{if◌then◌else◌, ◌%◌, ◌+◌, ◌-◌, ◌==◌, ◌≡◌, ◌≢◌, ◌≤◌, length, max, min, slice_index};
ghost use Rattle.weight_lanes.specs.Lanes.{HasLanes, HasNumber, MarksLanes, lane_number};
ghost use Rattle.weight_lanes.specs.Places.{AreWeighed, IsWeightlessParent, LeavesFewer};

use std::simd::prelude::*;

/// How many numbers a block has.
pub(crate) const NUMBERS: usize = 16;

/// How many flags a block has.
pub(crate) const FLAGS: usize = 32;

/// At which of the places from `at` on the column holds the value.
#[inline(always)]
pub(crate) fn equal_at(column: &[u32], at: usize, value: u32) -> u64
    requires { at + 16 ≤ length column.now }
    ensures { MarksLanes (λ lane. slice_index column.now (at + lane) ≡ value) 16 result }
{
    u32x16::from_slice(&column[at..])
        .simd_eq(u32x16::splat(value))
        .to_bitmask()
}

/// At which of the places from `at` on the flag is set.
#[inline(always)]
pub(crate) fn set_at(flags: &[u8], at: usize) -> u64
    requires { at + 32 ≤ length flags.now }
    ensures { MarksLanes (λ lane. slice_index flags.now (at + lane) ≢ 0) 32 result }
{
    u8x32::from_slice(&flags[at..])
        .simd_ne(u8x32::splat(0))
        .to_bitmask()
}

/// The places from `at` on.
#[inline(always)]
fn places_from(at: usize) -> u32x16
    requires { at + 16 ≤ 4294967296 }
    ensures { HasLanes (λ lane. at + lane) result }
{
    u32x16::from_array([0, 1, 2, 3, 4, 5, 6, 7, 8, 9, 10, 11, 12, 13, 14, 15])
        + u32x16::splat(at as u32)
}

/// At which of the places from `at` on the last call of the subtree is another one.
#[inline(always)]
fn parents_at(last: &[u32], at: usize) -> u64
    requires in_last { at + 16 ≤ length last.now }
    requires few { at + 16 ≤ 4294967296 }
    ensures { MarksLanes (λ lane. slice_index last.now (at + lane) ≢ at + lane) 16 result }
{
    u32x16::from_slice(&last[at..])
        .simd_ne(places_from(at))
        .to_bitmask()
}

/// At which of the places from `at` on a call weighs nothing and calls stand below it.
#[inline(always)]
pub(crate) fn weightless_parents_at(weights: &[u32], last: &[u32], at: usize) -> u64
    requires in_weights { at + 16 ≤ length weights.now }
    requires same_length { length weights.now ≡ length last.now }
    requires few { at + 16 ≤ 4294967296 }
    ensures { MarksLanes (λ lane. IsWeightlessParent weights.now last.now (at + lane)) 16 result }
{
    let weightless = equal_at(weights, at, 0);
    if weightless == 0 {
        return 0;
    }
    weightless & parents_at(last, at)
}

/// The flags from `at` on, each as wide as a number.
#[inline(always)]
fn flags_from(flags: &[u8], at: usize) -> u32x16
    requires { at + 16 ≤ length flags.now }
    ensures { HasLanes (λ lane. slice_index flags.now (at + lane)) result }
{
    u8x16::from_slice(&flags[at..]).cast::<u32>()
}

/// The weights from `at` on.
#[inline(always)]
fn weights_from(weights: &[u32], at: usize) -> u32x16
    requires { at + 16 ≤ length weights.now }
    ensures { HasLanes (λ lane. slice_index weights.now (at + lane)) result }
{
    u32x16::from_slice(&weights[at..])
}

/// Lane by lane, the difference; where it is below 0 it wraps.
#[inline(always)]
fn difference(a: u32x16, b: u32x16) -> u32x16
    ensures { HasLanes (λ lane. (slice_index a lane + (4294967296 - slice_index b lane)) % 4294967296)
        result }
{
    a - b
}

/// Lane by lane, the larger.
#[inline(always)]
fn larger(a: u32x16, b: u32x16) -> u32x16
    ensures { HasLanes (λ lane. max (slice_index a lane) (slice_index b lane)) result }
{
    a.simd_max(b)
}

/// Lane by lane, the smaller.
#[inline(always)]
pub(crate) fn smaller(a: u32x16, b: u32x16) -> u32x16
    ensures { HasLanes (λ lane. min (slice_index a lane) (slice_index b lane)) result }
{
    a.simd_min(b)
}

/// The lanes of `numbers` where the flag is set, and the largest number elsewhere.
#[inline(always)]
fn where_set(flags: u32x16, numbers: u32x16) -> u32x16
    ensures { HasLanes (λ lane. if slice_index flags lane == 0 then 4294967295
        else slice_index numbers lane) result }
{
    flags
        .simd_eq(u32x16::splat(0))
        .select(u32x16::splat(u32::MAX), numbers)
}

/// For each weight from 1 to `total`, how many of `total` suspects the worse answer leaves; for any
/// other weight a number that has no use.
#[inline(always)]
fn lefts(weights: u32x16, total: u32) -> u32x16
    ensures { HasLanes (λ lane. max ((slice_index weights lane + 4294967295) % 4294967296)
        ((total + (4294967296 - slice_index weights lane)) % 4294967296)) result }
{
    let others = difference(weights, u32x16::splat(1));
    let outside = difference(u32x16::splat(total), weights);
    larger(others, outside)
}

/// The numbers of the places from `at` on.
#[inline(always)]
pub(crate) fn numbers_from(weights: &[u32], askable: &[u8], total: u32, at: usize) -> u32x16
    requires in_weights { at + 16 ≤ length weights.now }
    requires same_length { length weights.now ≡ length askable.now }
    requires weighed { AreWeighed weights.now askable.now total }
    ensures { HasLanes (λ lane. lane_number weights.now askable.now total (at + lane)) result }
{
    where_set(
        flags_from(askable, at),
        lefts(weights_from(weights, at), total),
    )
}

/// At which of the places from `at` on the number is this one.
#[inline(always)]
pub(crate) fn numbered_at(
    weights: &[u32],
    askable: &[u8],
    total: u32,
    at: usize,
    number: u32,
) -> u64
    requires in_weights { at + 16 ≤ length weights.now }
    requires same_length { length weights.now ≡ length askable.now }
    requires weighed { AreWeighed weights.now askable.now total }
    ensures { MarksLanes (λ lane. HasNumber weights.now askable.now total number (at + lane)) 16 result }
{
    numbers_from(weights, askable, total, at)
        .simd_eq(u32x16::splat(number))
        .to_bitmask()
}

/// At which of the places from `at` on, of those that may be asked about, the worse answer leaves fewer
/// than `bound` suspects.
#[inline(always)]
pub(crate) fn fewer_at(weights: &[u32], askable: &[u8], total: u32, at: usize, bound: u32) -> u64
    requires in_weights { at + 16 ≤ length weights.now }
    requires same_length { length weights.now ≡ length askable.now }
    requires at_most_total { bound ≤ total }
    ensures { MarksLanes (λ lane. LeavesFewer weights.now askable.now total bound (at + lane)) 16 result }
{
    // Lanes of weights beyond `total` wrap, to numbers from `total` on.
    where_set(
        flags_from(askable, at),
        lefts(weights_from(weights, at), total),
    )
    .simd_lt(u32x16::splat(bound))
    .to_bitmask()
}
