//! The tokens of terminals of which a rule takes one of several.

ghost use Rattle.std.specs.Prelude.{◌≡◌};
ghost use Rattle.pas_tree.specs.OperatorPlaces.{adding_token, direction_token, multiplying_token, relational_token};
ghost use Rattle.pas_tree.specs.OperatorPlaces.{sign_token};

use crate::operators::{AddingOperator, Direction, MultiplyingOperator, RelationalOperator, Sign};

/// The token of a sign.
pub fn sign_token(sign: &Sign) -> u32
    ensures { result ≡ sign_token sign.now }
{
    match sign {
        Sign::Plus(token) => *token,
        Sign::Minus(token) => *token,
    }
}

/// The token of an adding operator.
pub fn adding_token(operator: &AddingOperator) -> u32
    ensures { result ≡ adding_token operator.now }
{
    match operator {
        AddingOperator::Plus(token) => *token,
        AddingOperator::Minus(token) => *token,
        AddingOperator::Or(token) => *token,
    }
}

/// The token of a multiplying operator.
pub fn multiplying_token(operator: &MultiplyingOperator) -> u32
    ensures { result ≡ multiplying_token operator.now }
{
    match operator {
        MultiplyingOperator::Times(token) => *token,
        MultiplyingOperator::Div(token) => *token,
        MultiplyingOperator::Mod(token) => *token,
        MultiplyingOperator::And(token) => *token,
    }
}

/// The token of a relational operator.
pub fn relational_token(operator: &RelationalOperator) -> u32
    ensures { result ≡ relational_token operator.now }
{
    match operator {
        RelationalOperator::Equal(token) => *token,
        RelationalOperator::NotEqual(token) => *token,
        RelationalOperator::Less(token) => *token,
        RelationalOperator::AtMost(token) => *token,
        RelationalOperator::Greater(token) => *token,
        RelationalOperator::AtLeast(token) => *token,
        RelationalOperator::In(token) => *token,
    }
}

/// The token of a direction.
pub fn direction_token(direction: &Direction) -> u32
    ensures { result ≡ direction_token direction.now }
{
    match direction {
        Direction::To(token) => *token,
        Direction::Downto(token) => *token,
    }
}
