//! Dyadic operators.

ghost use Rattle.std.specs.Prelude.{◌≡◌};
ghost use Rattle.eval_ops.specs.Operators as operators;

use cell_value::{ArithOp, Order};
use core_program::rows::{ExpressionRow, Logic, SetOperator};

/// An operator or a relation on two values of one cell each (6.7.2).
#[derive(Clone, Copy)]
pub enum Dyadic {
    Arithmetic(ArithOp),
    Logic(Logic),
    /// A relation of two ordinals.
    Compare(Order),
    /// An operator on sets that gives a set.
    Sets(SetOperator),
    /// A relation of two sets.
    CompareSets(Order),
    /// Whether an ordinal is a member of a set.
    In,
    /// Whether two pointers are equal, or else whether they are not.
    ComparePointers { equal: bool },
}

/// The operator of an expression, and the rows of its left and of its right operand, if it has a dyadic one whose
/// operands are of one cell each.
#[inline]
pub fn dyadic_in(expression: ExpressionRow) -> Option<(Dyadic, u32, u32)>
    ensures { result ≡ operators.dyadic_in expression }
{
    match expression {
        ExpressionRow::Arithmetic {
            operator,
            left,
            right,
        } => Some((Dyadic::Arithmetic(operator), left, right)),
        ExpressionRow::Logic {
            operator,
            left,
            right,
        } => Some((Dyadic::Logic(operator), left, right)),
        ExpressionRow::Compare { order, left, right } => {
            Some((Dyadic::Compare(order), left, right))
        }
        ExpressionRow::Sets {
            operator,
            left,
            right,
        } => Some((Dyadic::Sets(operator), left, right)),
        ExpressionRow::CompareSets { order, left, right } => {
            Some((Dyadic::CompareSets(order), left, right))
        }
        ExpressionRow::In { left, right } => Some((Dyadic::In, left, right)),
        ExpressionRow::ComparePointers { equal, left, right } => {
            Some((Dyadic::ComparePointers { equal }, left, right))
        }
        _ => None,
    }
}
