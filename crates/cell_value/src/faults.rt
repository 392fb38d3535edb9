//! Why an operation on values has no result.
use thiserror::Error;

/// Why an operation on values has no result.
#[derive(Clone, Copy, Debug, PartialEq, Eq, Error)]
pub enum OpFault {
    /// The result is no integer: it lies outside -maxint to maxint.
    #[error("the result is outside the integers")]
    Overflow,
    /// The right operand of `div` is 0.
    #[error("the divisor is zero")]
    ZeroDivisor,
    /// The right operand of `mod` is 0 or less.
    #[error("the right operand of mod is not positive")]
    BadModulus,
    /// The number lies outside its bounds.
    #[error("the value is out of range")]
    OutOfRange,
    /// An operand is not a number.
    #[error("an operand is undefined")]
    UndefinedValue,
}
