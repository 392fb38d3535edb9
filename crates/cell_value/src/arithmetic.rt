//! The operators on integers.
ghost use Rattle.std.specs.Prelude.{◌≡◌, ℤ, IfOk};
ghost use Rattle.cell_value.specs.Arithmetic.{IsInteger, IsQuotient, IsRemainder, arith_of, checked, in_range_of};
ghost use Rattle.cell_value.specs.Arithmetic.{negate_of, of_numbers};

use crate::faults::OpFault;
use crate::values::Value;

/// The operators that give an integer from two integers (ISO 7185, clause 6.7.2.2).
#[derive(Clone, Copy, Debug, PartialEq, Eq)]
pub enum ArithOp {
    /// The sum.
    Plus,
    /// The difference.
    Minus,
    /// The product.
    Times,
    /// The quotient, rounded toward zero.
    Div,
    /// The remainder, which is at least 0 and below the right operand.
    Mod,
}

/// The greatest integer. The least is its negation.
const MAXINT: u64 = 2_147_483_647;

/// The number as a value, and `Overflow` where it is no integer. None stands for a number that
/// is too large to be computed.
fn integer(exact: Option<i64>) -> Result<Value, OpFault>
    ensures { result ≡ checked exact }
{
    match exact {
        Some(number) if number.unsigned_abs() <= MAXINT => Ok(Value::Number(number)),
        _ => Err(OpFault::Overflow),
    }
}

/// The quotient `i div j`.
fn divide(i: i64, j: i64) -> Result<Value, OpFault>
    ensures { result ≡ of_numbers ArithOp.Div i j }
{
    if j == 0 {
        return Err(OpFault::ZeroDivisor);
    }
    integer(i.checked_div(j))
}

/// The remainder `i mod j`.
fn remainder(i: i64, j: i64) -> Result<Value, OpFault>
    ensures { result ≡ of_numbers ArithOp.Mod i j }
{
    if j <= 0 {
        return Err(OpFault::BadModulus);
    }
    integer(i.checked_rem_euclid(j))
}

/// The operator at two numbers.
fn calculate(op: ArithOp, i: i64, j: i64) -> Result<Value, OpFault>
    ensures { result ≡ of_numbers op i j }
{
    match op {
        ArithOp::Plus => integer(i.checked_add(j)),
        ArithOp::Minus => integer(i.checked_sub(j)),
        ArithOp::Times => integer(i.checked_mul(j)),
        ArithOp::Div => divide(i, j),
        ArithOp::Mod => remainder(i, j),
    }
}

/// The operator at two values, which both have to be numbers.
fn operate(op: ArithOp, left: Value, right: Value) -> Result<Value, OpFault>
    ensures { result ≡ arith_of op left right }
{
    match (left, right) {
        (Value::Number(i), Value::Number(j)) => calculate(op, i, j),
        _ => Err(OpFault::UndefinedValue),
    }
}

/// The operator at two values.
///
/// `UndefinedValue` comes exactly where an operand is not a number. At two numbers `ZeroDivisor`
/// comes exactly where `Div` has the divisor 0, `BadModulus` exactly where `Mod` has a right
/// operand of 0 or less, and otherwise `Overflow` exactly where the result lies outside -maxint
/// to maxint, where maxint is 2147483647.
pub fn arith(op: ArithOp, left: Value, right: Value) -> Result<Value, OpFault>
    ensures exact { result ≡ arith_of op left right }
    ensures whole { IfOk result IsInteger }

    // What the standard says of `div` and of `mod`.
    ensures quotient { (i j q : ℤ) → op ≡ ArithOp.Div → left ≡ Value.Number i → right ≡ Value.Number j →
        result ≡ Ok (Value.Number q) → IsQuotient i j q }
    ensures remainder { (i j r : ℤ) → op ≡ ArithOp.Mod → left ≡ Value.Number i → right ≡ Value.Number j →
        result ≡ Ok (Value.Number r) → IsRemainder i j r }
{
    operate(op, left, right)
}

/// The value with the sign `-` before it.
///
/// `UndefinedValue` comes exactly where the operand is not a number, and `Overflow` exactly where
/// the result lies outside -maxint to maxint.
pub fn negate(of: Value) -> Result<Value, OpFault>
    ensures exact { result ≡ negate_of of }
    ensures whole { IfOk result IsInteger }
{
    match of {
        Value::Number(number) => integer(number.checked_neg()),
        _ => Err(OpFault::UndefinedValue),
    }
}

/// The value itself, where it is a number from `least` to `greatest`, both of which belong to the
/// range.
///
/// `UndefinedValue` comes exactly where the operand is not a number, and `OutOfRange` exactly where
/// the number is below `least` or above `greatest`.
pub fn in_range(of: Value, least: i64, greatest: i64) -> Result<Value, OpFault>
    ensures { result ≡ in_range_of of least greatest }
{
    match of {
        Value::Number(number) if least <= number && number <= greatest => Ok(of),
        Value::Number(_) => Err(OpFault::OutOfRange),
        _ => Err(OpFault::UndefinedValue),
    }
}
