//! Operators and signs, once their operands are checked (6.7.2).

ghost use Rattle.std.specs.Prelude.{◌≡◌};
ghost use Rattle.check_steps.specs.Steps.{Does};
ghost use Rattle.expression_checker.specs.Operations.{adding_operator, is_minus, multiplying_operator, negated};
ghost use Rattle.expression_checker.specs.Operations.{operated, relational_operator, sign_before, signed, type_if};

use crate::typed::{Typed, typed_value};
use cell_value::Order;
use check_steps::Work;
use core_program::rows::{BOOLEAN, ExpressionRow, INTEGER, Row};
use kind_checker::operators::{
    fits, is_of_host, is_operand, operation_of, operation_row, operation_type,
};
use kind_checker::shapes::shape_of;
use kind_checker::{ExpressionType, Operator, Shape};
use pas_tree::operators::{AddingOperator, MultiplyingOperator, RelationalOperator, Sign};
use pas_tree::sign_token;

/// What an adding operator stands for.
pub fn adding_operator(operator: &AddingOperator) -> Operator
    ensures { result ≡ adding_operator operator.now }
{
    match operator {
        AddingOperator::Plus(_) => Operator::Plus,
        AddingOperator::Minus(_) => Operator::Minus,
        AddingOperator::Or(_) => Operator::Or,
    }
}

/// What a multiplying operator stands for.
pub fn multiplying_operator(operator: &MultiplyingOperator) -> Operator
    ensures { result ≡ multiplying_operator operator.now }
{
    match operator {
        MultiplyingOperator::Times(_) => Operator::Times,
        MultiplyingOperator::Div(_) => Operator::Div,
        MultiplyingOperator::Mod(_) => Operator::Mod,
        MultiplyingOperator::And(_) => Operator::And,
    }
}

/// What a relational operator stands for.
pub fn relational_operator(operator: &RelationalOperator) -> Operator
    ensures { result ≡ relational_operator operator.now }
{
    match operator {
        RelationalOperator::Equal(_) => Operator::Relation(Order::Equal),
        RelationalOperator::NotEqual(_) => Operator::Relation(Order::NotEqual),
        RelationalOperator::Less(_) => Operator::Relation(Order::Less),
        RelationalOperator::AtMost(_) => Operator::Relation(Order::AtMost),
        RelationalOperator::Greater(_) => Operator::Relation(Order::Greater),
        RelationalOperator::AtLeast(_) => Operator::Relation(Order::AtLeast),
        RelationalOperator::In(_) => Operator::In,
    }
}

/// An operator between two operands, at its token.
#[tactic(auto, using(check_steps::proofs::Runs::steps), unfolding(crate::specs::Operations::operated))]
pub fn check_operated(
    work: &mut Work,
    operator: Operator,
    token: u32,
    left: Typed,
    right: Typed,
) -> Typed
    ensures { Does (operated operator token left right) result work.old work.new }
{
    let (x, y) = (
        shape_of(&work.tables, left.of),
        shape_of(&work.tables, right.of),
    );
    work.late(30, token, fits(operator, x, y));
    let operation = operation_of(operator, x, y);
    work.put(token, operation_row(operation, left.row, right.row));
    typed_value(token, operation_type(operation))
}

fn type_if(host: u32, shape: Shape) -> ExpressionType
    ensures { result ≡ type_if host shape }
{
    if is_of_host(host, shape) {
        ExpressionType::Of(host)
    } else {
        ExpressionType::Unknown
    }
}

/// `not` before an operand.
#[tactic(auto, using(check_steps::proofs::Runs::steps), unfolding(crate::specs::Operations::negated))]
pub fn check_negated(work: &mut Work, word: u32, value: Typed) -> Typed
    ensures { Does (negated word value) result work.old work.new }
{
    let shape = shape_of(&work.tables, value.of);
    work.late(30, word, is_operand(BOOLEAN, shape));
    let row = ExpressionRow::Not { operand: value.row };
    work.put(word, Row::Expression(row));
    typed_value(word, type_if(BOOLEAN, shape))
}

fn is_minus(sign: &Sign) -> bool
    ensures { result ≡ is_minus sign.now }
{
    match sign {
        Sign::Plus(_) => false,
        Sign::Minus(_) => true,
    }
}

#[tactic(auto, using(check_steps::proofs::Runs::steps), unfolding(crate::specs::Operations::sign_before))]
fn check_sign_before(work: &mut Work, sign: &Sign, value: Typed) -> Typed
    ensures { Does (sign_before sign.now value) result work.old work.new }
{
    let shape = shape_of(&work.tables, value.of);
    let token = sign_token(sign);
    work.late(30, token, is_operand(INTEGER, shape));
    let row = ExpressionRow::Sign {
        minus: is_minus(sign),
        operand: value.row,
    };
    work.put(token, Row::Expression(row));
    typed_value(token, type_if(INTEGER, shape))
}

/// The first term of a simple expression, after a sign if it has one.
#[tactic(auto, using(check_steps::proofs::Runs::steps))]
pub fn check_signed(work: &mut Work, sign: &Option<Sign>, value: Typed) -> Typed
    ensures { Does (signed sign.now value) result work.old work.new }
{
    match sign {
        None => value,
        Some(sign) => check_sign_before(work, sign, value),
    }
}
