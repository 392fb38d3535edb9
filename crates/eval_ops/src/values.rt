//! Operators, tests and required functions on the values of scalar types.

ghost use Rattle.std.specs.Prelude.{◌+ℤ◌, ◌-ℤ◌, ◌≡◌, pos};
ghost use Rattle.cell_value.specs.Arithmetic.{in_range_of, integer};
ghost use Rattle.core_program.specs.Values as values;

use cell_value::{ArithOp, OpFault, Order, Value, arith, between, in_range, negate};
use core_program::Program;
use core_program::rows::{OrdinalFunction, TypeRow};

/// The value of a truth: `false` has the ordinal 0, and `true` 1.
pub fn truth(holds: bool) -> Value
    ensures { result ≡ values.truth holds }
{
    if holds {
        Value::Number(1)
    } else {
        Value::Number(0)
    }
}

/// Whether a value is that of `true`. What is no value of Boolean counts as `true` where it is a number other than 0.
pub fn is_true(value: Value) -> bool
    ensures { result ≡ values.is_true value }
{
    match value {
        Value::Number(number) => number != 0,
        _ => false,
    }
}

/// A value with a sign before it.
pub fn sign(minus: bool, value: Value) -> Result<Value, OpFault>
    ensures { result ≡ values.with_sign_of minus value }
{
    if minus {
        return negate(value);
    }
    match value {
        Value::Number(_) => Ok(value),
        _ => Err(OpFault::UndefinedValue),
    }
}

/// Whether a relation of two ordinals holds.
fn ordinals_hold(order: Order, left: i64, right: i64) -> bool
    ensures { result ≡ values.holds order left right }
{
    match order {
        Order::Equal => left == right,
        Order::NotEqual => left != right,
        Order::Less => left < right,
        Order::Greater => left > right,
        Order::AtMost => left <= right,
        Order::AtLeast => left >= right,
    }
}

/// A relation of two ordinals, as a value of Boolean.
pub fn compare_ordinals(order: Order, left: Value, right: Value) -> Result<Value, OpFault>
    ensures { result ≡ values.comparison order left right }
{
    match (left, right) {
        (Value::Number(i), Value::Number(j)) => Ok(truth(ordinals_hold(order, i, j))),
        _ => Err(OpFault::UndefinedValue),
    }
}

/// The test of a set: each member is to lie between two bounds.
fn set_in_range(value: Value, least: i32, greatest: i32) -> Result<Value, OpFault>
    ensures { result ≡ values.set_in_range value least greatest }
{
    match value {
        Value::Bits(set) => {
            if between(set, i64::from(least), i64::from(greatest)) {
                Ok(value)
            } else {
                Err(OpFault::OutOfRange)
            }
        }
        _ => Err(OpFault::UndefinedValue),
    }
}

/// The test of a value that a variable of a set type with this base type is to get.
fn test_set(base: Option<TypeRow>, value: Value) -> Option<Result<Value, OpFault>>
    ensures { result ≡ values.set_test base value }
{
    match base {
        Some(TypeRow::Ordinal { least, greatest }) => Some(set_in_range(value, least, greatest)),
        Some(
            TypeRow::Subrange {
                least,
                greatest,
                ..
            },
        ) => Some(set_in_range(value, least, greatest)),
        _ => None,
    }
}

/// The test of a value that a variable of a type is to get: an ordinal is to be one of the type's, and each member of a
/// set one of its base type's. There is none where the type is not there, or is not one of values of one cell.
pub fn test(
    program: &Program,
    kind: Option<TypeRow>,
    value: Value,
) -> Option<Result<Value, OpFault>>
    ensures { result ≡ values.test_of program.now kind value }
{
    match kind {
        Some(TypeRow::Ordinal { least, greatest }) => Some(in_range(
            value,
            i64::from(least),
            i64::from(greatest),
        )),
        Some(
            TypeRow::Subrange {
                least,
                greatest,
                ..
            },
        ) => Some(in_range(value, i64::from(least), i64::from(greatest))),
        Some(TypeRow::Set { base, .. }) => test_set(program.type_row(base), value),
        Some(TypeRow::Pointer { .. }) => Some(Ok(value)),
        _ => None,
    }
}

/// The number as a value, and `Overflow` where it is no integer.
fn whole(number: u64) -> Result<Value, OpFault>
    ensures { result ≡ integer (pos number) }
{
    if number <= 2_147_483_647 {
        Ok(Value::Number(number as i64))
    } else {
        Err(OpFault::Overflow)
    }
}

/// The ordinal after another, where it is one of a type.
fn after(number: i64, least: i32, greatest: i32) -> Result<Value, OpFault>
    ensures { result ≡ in_range_of (Value.Number (number +ℤ pos 1)) least greatest }
{
    match number.checked_add(1) {
        Some(next) => in_range(Value::Number(next), i64::from(least), i64::from(greatest)),
        None => Err(OpFault::OutOfRange),
    }
}

/// The ordinal before another, where it is one of a type.
fn before(number: i64, least: i32, greatest: i32) -> Result<Value, OpFault>
    ensures { result ≡ in_range_of (Value.Number (number -ℤ pos 1)) least greatest }
{
    match number.checked_sub(1) {
        Some(next) => in_range(Value::Number(next), i64::from(least), i64::from(greatest)),
        None => Err(OpFault::OutOfRange),
    }
}

/// A required function of the ordinal of this number, whose host type has these bounds.
fn function_at(
    function: OrdinalFunction,
    least: i32,
    greatest: i32,
    number: i64,
) -> Result<Value, OpFault>
    ensures { result ≡ values.function_at function least greatest number }
{
    match function {
        OrdinalFunction::Abs => whole(number.unsigned_abs()),
        OrdinalFunction::Sqr => arith(ArithOp::Times, Value::Number(number), Value::Number(number)),
        OrdinalFunction::Odd => Ok(truth(number.unsigned_abs() % 2 == 1)),
        OrdinalFunction::Ord => Ok(Value::Number(number)),
        OrdinalFunction::Chr => in_range(Value::Number(number), 0, 255),
        OrdinalFunction::Succ => after(number, least, greatest),
        OrdinalFunction::Pred => before(number, least, greatest),
    }
}

/// A required function of an ordinal, whose host type has these bounds. `UndefinedValue` comes exactly where the value
/// is no number, `Overflow` exactly where the result of `abs` or `sqr` is no integer, and `OutOfRange` exactly where
/// `chr` has no char and where `succ` or `pred` leaves the bounds.
pub fn ordinal_function(
    function: OrdinalFunction,
    least: i32,
    greatest: i32,
    value: Value,
) -> Result<Value, OpFault>
    ensures { result ≡ values.function_of function least greatest value }
{
    match value {
        Value::Number(number) => function_at(function, least, greatest, number),
        _ => Err(OpFault::UndefinedValue),
    }
}
