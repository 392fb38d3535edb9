//! An order of pairs in which each comes after those inside of it. Levels are noted in this order; what they are does
//! not depend on it, but how often the pairs are gone over does.

ghost use Rattle.std.specs.Prelude.{◌<◌, IfSome, length};

use cell_value::Memory;
use std::alloc::Global;

/// What is to be done with a pair.
#[derive(Clone, Copy)]
enum Step {
    /// It is gone into, if it was not before.
    Into(u32),
    /// All inside of it are done.
    OutOf(u32),
}

/// Where the mark of a pair stands, if it is one from a number on.
fn mark_of(marks: &[bool], start: usize, number: u32) -> Option<usize>
    ensures { IfSome result (λ at. at < length marks.now) }
{
    let at = (number as usize).checked_sub(start)?;
    if at < marks.len() { Some(at) } else { None }
}

/// Plans to go into the pairs of these numbers.
fn plan_each(steps: &mut Vec<Step>, numbers: &[u32]) -> Result<(), Memory> {
    'each: for i in 0..numbers.len() {
        steps.push(Step::Into(numbers[i]))?;
    }
    Ok(())
}

/// Goes into a pair, unless it is marked: it is marked, and those inside of it come before its end.
fn go_into(
    inside: &[Option<Vec<u32>>],
    start: usize,
    marks: &mut [bool],
    steps: &mut Vec<Step>,
    number: u32,
) -> Result<(), Memory> {
    let Some(at) = mark_of(marks, start, number) else {
        return Ok(());
    };
    if marks[at] {
        return Ok(());
    }
    marks[at] = true;
    steps.push(Step::OutOf(number))?;
    match inside.get(number as usize) {
        Some(Some(numbers)) => plan_each(steps, numbers),
        _ => Ok(()),
    }
}

/// A pair and those that it leads to, each after those inside of it. Pairs with numbers before the start are left out.
pub(crate) fn inmost_first(
    alloc: Global,
    inside: &[Option<Vec<u32>>],
    start: usize,
    pair: u32,
) -> Result<Vec<u32>, Memory> {
    let mut marks = vec![in alloc; false; inside.len().saturating_sub(start)]?;
    let mut steps = Vec::new(alloc);
    let mut order = Vec::new(alloc);
    steps.push(Step::Into(pair))?;
    'steps: for _ in 0..u64::MAX {
        match steps.pop() {
            None => return Ok(order),
            Some(Step::OutOf(number)) => order.push(number)?,
            Some(Step::Into(number)) => go_into(inside, start, &mut marks, &mut steps, number)?,
        }
    }
    Ok(order)
}
