//! Relations of lists of numbers.
ghost use Rattle.std.specs.Prelude.{◌≡◌};
ghost use Rattle.cell_value.specs.Comparisons.{admits, compared, lists_ranked, ranked};

use crate::faults::OpFault;
use crate::values::{Order, Value};
use std::cmp::Ordering;

/// Which of two numbers comes first.
fn rank(left: Value, right: Value) -> Result<Ordering, OpFault>
    ensures { result ≡ ranked left right }
{
    match (left, right) {
        (Value::Number(i), Value::Number(j)) => Ok(i.cmp(&j)),
        _ => Err(OpFault::UndefinedValue),
    }
}

/// Which of two lists of numbers comes first: the first two that differ decide.
fn rank_lists(left: &[Value], right: &[Value]) -> Result<Ordering, OpFault>
    ensures { result ≡ lists_ranked left.now right.now }
{
    for (place, value) in left.iter().enumerate() {
        let Some(other) = right.get(place) else {
            return Ok(Ordering::Equal);
        };
        let found = rank(*value, *other)?;
        if found != Ordering::Equal {
            return Ok(found);
        }
    }
    Ok(Ordering::Equal)
}

/// Whether a relation holds of what stands in this order.
fn holds_of(order: Order, found: Ordering) -> bool
    ensures { result ≡ admits order found }
{
    match order {
        Order::Equal => found.is_eq(),
        Order::NotEqual => found.is_ne(),
        Order::Less => found.is_lt(),
        Order::Greater => found.is_gt(),
        Order::AtMost => found.is_le(),
        Order::AtLeast => found.is_ge(),
    }
}

/// Whether a relation holds of two lists of numbers, as of two strings, which have equal lengths: the first two numbers
/// that differ decide, and lists without any such count as equal (ISO 7185, clause 6.7.2.5).
///
/// `UndefinedValue` comes exactly where a value that is not a number stands in one of them before, or at, the first
/// place where they differ.
pub fn compare(order: Order, left: &[Value], right: &[Value]) -> Result<bool, OpFault>
    ensures { result ≡ compared order left.now right.now }
{
    Ok(holds_of(order, rank_lists(left, right)?))
}
