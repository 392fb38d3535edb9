//! Set constructors, and operators and relations on sets.

ghost use Rattle.std.specs.Prelude.{◌≡◌};
ghost use Rattle.core_program.specs.Values as values;

use crate::values::truth;
use cell_value::{OpFault, Order, SetBits, Value, holds, meet, minus, union, with_range, within};
use core_program::rows::SetOperator;

/// The set without members.
pub fn no_members() -> Value
    ensures { result ≡ values.no_members }
{
    Value::Bits(SetBits { words: [0; 4] })
}

/// Whether a number is the ordinal of a value that a member can have.
fn is_member_value(number: i64) -> bool
    ensures { result ≡ values.is_member_value number }
{
    0 <= number && number <= 255
}

/// A set with the members from one to another.
fn add_range(set: SetBits, first: i64, last: i64) -> Result<Value, OpFault>
    ensures { result ≡ values.range_added set first last }
{
    if last < first {
        return Ok(Value::Bits(set));
    }
    if is_member_value(first) && is_member_value(last) {
        Ok(Value::Bits(with_range(set, first.unsigned_abs() as u8, last.unsigned_abs() as u8)))
    } else {
        Err(OpFault::OutOfRange)
    }
}

/// A set with the members from one to another, as a set constructor has them; with none more where the first is
/// greater. `OutOfRange` comes exactly where there are such members and one of the ends lies outside 0 to 255, and
/// `UndefinedValue` exactly where the set is none or an end is no number.
pub fn add_members(set: Value, first: Value, last: Value) -> Result<Value, OpFault>
    ensures { result ≡ values.members_added set first last }
{
    match (set, first, last) {
        (Value::Bits(set), Value::Number(first), Value::Number(last)) => {
            add_range(set, first, last)
        }
        _ => Err(OpFault::UndefinedValue),
    }
}

fn combined(operator: SetOperator, left: SetBits, right: SetBits) -> SetBits
    ensures { result ≡ values.set_by operator left right }
{
    match operator {
        SetOperator::Union => union(left, right),
        SetOperator::Difference => minus(left, right),
        SetOperator::Intersection => meet(left, right),
    }
}

/// The operator at two sets. `UndefinedValue` comes exactly where an operand is no set.
pub fn combine_sets(operator: SetOperator, left: Value, right: Value) -> Result<Value, OpFault>
    ensures { result ≡ values.sets_of operator left right }
{
    match (left, right) {
        (Value::Bits(left), Value::Bits(right)) => {
            Ok(Value::Bits(combined(operator, left, right)))
        }
        _ => Err(OpFault::UndefinedValue),
    }
}

fn same_members(left: SetBits, right: SetBits) -> bool
    ensures { result ≡ values.same_members left right }
{
    within(left, right) && within(right, left)
}

fn sets_related(order: Order, left: SetBits, right: SetBits) -> Result<Value, OpFault>
    ensures { result ≡ values.sets_related order left right }
{
    match order {
        Order::Equal => Ok(truth(same_members(left, right))),
        Order::NotEqual => Ok(truth(!same_members(left, right))),
        Order::AtMost => Ok(truth(within(left, right))),
        Order::AtLeast => Ok(truth(within(right, left))),
        Order::Less => Err(OpFault::UndefinedValue),
        Order::Greater => Err(OpFault::UndefinedValue),
    }
}

/// A relation of two sets, as a value of Boolean. `UndefinedValue` comes exactly where an operand is no set, and at `<`
/// and `>`, which are no relations of sets.
pub fn compare_sets(order: Order, left: Value, right: Value) -> Result<Value, OpFault>
    ensures { result ≡ values.sets_compared order left right }
{
    match (left, right) {
        (Value::Bits(left), Value::Bits(right)) => sets_related(order, left, right),
        _ => Err(OpFault::UndefinedValue),
    }
}

/// Whether an ordinal is a member of a set, as a value of Boolean. `UndefinedValue` comes exactly where the one is no
/// number or the other no set.
pub fn is_in(member: Value, set: Value) -> Result<Value, OpFault>
    ensures { result ≡ values.in_set member set }
{
    match (member, set) {
        (Value::Number(number), Value::Bits(set)) => Ok(truth(holds(set, number))),
        _ => Err(OpFault::UndefinedValue),
    }
}
