//! How deep types stand in one another where two have one shape: the level of a pair of them. One that has no pair
//! inside has level 1, another one more than the greatest level of those inside, and one that does not match none.

ghost use Rattle.std.specs.Prelude.{◌≡◌, ◌≤◌, ℕ, IfOk, OnOk, false, length};
ghost use Rattle.reference_oracle.specs.Levels.{IsSettled, IsStuck, Leads, all_within, is_within, level_at};
ghost use Rattle.reference_oracle.specs.Levels.{match_within};

use crate::order::inmost_first;
use cell_value::Memory;
use std::alloc::{AllocError, Global};

/// The level of the pair of a number, as far as it is known.
pub(crate) fn level_at(levels: &[Option<u32>], number: u32) -> Option<u32>
    ensures { result ≡ level_at levels.now number }
{
    match levels.get(number as usize) {
        Some(level) => *level,
        None => None,
    }
}

/// Whether a pair of this level matches where types stand at most so many deep in one another.
pub(crate) fn is_within(most: usize, level: Option<u32>) -> bool
    ensures { result ≡ is_within most level }
{
    match level {
        None => false,
        Some(level) => level as usize <= most,
    }
}

/// No level is known of the pairs up to a number of them of which none was.
pub(crate) fn add_levels(levels: &mut Vec<Option<u32>>, size: usize) -> Result<(), Memory>
    requires { length levels.old.items ≤ size }
    ensures size { OnOk result (length levels.new.items ≡ size) }
    ensures same { OnOk result ((number : ℕ) → level_at levels.new.items number ≡ level_at levels.old.items number) }
{
    'each: for number in levels.len()..size {
        levels.push(None)?;
    }
    Ok(())
}

/// The greatest level of the pairs of these numbers, and 0 if there are none; `None` where one has no level.
fn greatest(levels: &[Option<u32>], numbers: &[u32]) -> Option<u32>
    ensures { (most : ℕ) → is_within most result ≡ all_within levels.now most numbers.now }
{
    let mut greatest: u32 = 0;
    'each: for i in 0..numbers.len() {
        match level_at(levels, numbers[i]) {
            None => return None,
            Some(level) => greatest = greatest.max(level),
        }
    }
    Some(greatest)
}

/// The greatest level of the pairs inside of one, if it can match and all of them have levels.
fn greatest_inside(levels: &[Option<u32>], inside: &Option<Vec<u32>>) -> Option<u32>
    ensures { (most : ℕ) → is_within most result ≡ match_within levels.now most inside.now }
{
    match inside {
        None => None,
        Some(numbers) => greatest(levels, numbers),
    }
}

/// Notes the level of a pair, if it has none and all inside of it have levels. It is said whether that is so. A level
/// that is no number of 32 bits counts as out of memory.
fn visit(
    levels: &mut [Option<u32>],
    inside: &[Option<Vec<u32>>],
    number: usize,
) -> Result<bool, Memory>
    requires size { length levels.old ≡ length inside.now }
    ensures leads { OnOk result (Leads inside.now levels.old levels.new) }
    ensures stuck { IfOk result (λ found. found ≡ false
        → (levels.new ≡ levels.old) × IsStuck inside.now levels.old number) }
{
    if number >= inside.len() || levels[number].is_some() {
        return Ok(false);
    }
    let Some(greatest) = greatest_inside(levels, &inside[number]) else {
        return Ok(false);
    };
    let Some(level) = greatest.checked_add(1) else {
        return Err(AllocError);
    };
    levels[number] = Some(level);
    Ok(true)
}

/// Notes the levels of these pairs one by one.
fn visit_each(
    levels: &mut [Option<u32>],
    inside: &[Option<Vec<u32>>],
    numbers: &[u32],
) -> Result<(), Memory>
    requires size { length levels.old ≡ length inside.now }
    ensures { OnOk result (Leads inside.now levels.old levels.new) }
{
    'each: for i in 0..numbers.len() {
        visit(levels, inside, numbers[i] as usize)?;
    }
    Ok(())
}

/// Notes the levels of the pairs from one on. It is said whether there was one to be noted.
fn visit_from(
    levels: &mut [Option<u32>],
    inside: &[Option<Vec<u32>>],
    start: usize,
) -> Result<bool, Memory>
    requires size { length levels.old ≡ length inside.now }
    ensures leads { OnOk result (Leads inside.now levels.old levels.new) }
    ensures settled { IfOk result (λ found. found ≡ false → IsSettled inside.now start levels.new) }
{
    let mut some = false;
    'each: for number in start..inside.len() {
        if visit(levels, inside, number)? {
            some = true;
        }
    }
    Ok(some)
}

/// Notes the levels of all pairs from one on that match: of those that a pair leads to the inmost first, and then until
/// there is none to be noted.
pub(crate) fn settle(
    alloc: Global,
    levels: &mut [Option<u32>],
    inside: &[Option<Vec<u32>>],
    start: usize,
    pair: u32,
) -> Result<(), Memory>
    requires size { length levels.old ≡ length inside.now }
    ensures leads { OnOk result (Leads inside.now levels.old levels.new) }
    ensures settled { OnOk result (IsSettled inside.now start levels.new) }
{
    let order = inmost_first(alloc, inside, start, pair)?;
    visit_each(levels, inside, &order)?;
    'rounds: for _ in 0..u64::MAX {
        if !visit_from(levels, inside, start)? {
            return Ok(());
        }
    }
    Err(AllocError)
}
