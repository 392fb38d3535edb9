//! Expressions by number and type, and constants as factors (6.7.1).

ghost use Rattle.std.specs.Prelude.{◌≡◌, None};
ghost use Rattle.pas_tree.specs.declared.constants.Constant.TheVariants.{Number, Text as TextConstant};
ghost use Rattle.check_steps.specs.Steps.{Does};
ghost use Rattle.expression_checker.specs.Typed.{bracketed, constant_at, constant_row, constant_type, literal, nil_at};
ghost use Rattle.expression_checker.specs.Typed.{typed_value, unknown_at};

use check_steps::{Tables, Work};
use core_program::rows::{ExpressionRow, Row};
use kind_checker::constants::check_constant_again;
use kind_checker::{ConstantValue, ExpressionType};
use pas_tree::constants::Constant;

/// Where the value of an expression lies.
#[derive(Clone, Copy, PartialEq, Eq)]
pub enum Location {
    /// In no variable.
    Nowhere,
    /// In a variable: the expression is an access.
    Variable,
    /// In a component of a packed variable, or in a tag field: the expression is an access for which no variable
    /// parameter may stand (6.6.3.3).
    Component,
}

/// An expression of which the parts are checked.
#[derive(Clone, Copy)]
pub struct Typed {
    /// The number of its row.
    pub row: u32,
    pub of: ExpressionType,
    pub location: Location,
}

/// A value of a type, at a number.
pub fn typed_value(row: u32, of: ExpressionType) -> Typed
    ensures { result ≡ typed_value row of }
{
    Typed {
        row,
        of,
        location: Location::Nowhere,
    }
}

/// An expression of which a broken rule leaves nothing known.
pub fn unknown_at(row: u32) -> Typed
    ensures { result ≡ unknown_at row }
{
    typed_value(row, ExpressionType::Unknown)
}

/// The same in parentheses.
pub fn bracketed(value: Typed) -> Typed
    ensures { result ≡ bracketed value }
{
    typed_value(value.row, value.of)
}

fn constant_row(value: Option<ConstantValue>) -> Row
    ensures { result ≡ constant_row value }
{
    match value {
        None => Row::Nothing,
        Some(ConstantValue::Ordinal { value, .. }) => Row::Expression(ExpressionRow::Constant {
            value,
        }),
        Some(ConstantValue::Text { token }) => Row::Expression(ExpressionRow::Text { token }),
    }
}

fn constant_type(tables: &Tables, value: Option<ConstantValue>) -> ExpressionType
    ensures { result ≡ constant_type tables.now value }
{
    match value {
        None => ExpressionType::Unknown,
        Some(ConstantValue::Ordinal { of, .. }) => ExpressionType::Of(of),
        Some(ConstantValue::Text { token }) => ExpressionType::Text(
            tables.program().text(token).len(),
        ),
    }
}

/// A constant as a factor, at its only token.
#[tactic(auto, using(check_steps::proofs::Runs::steps), unfolding(crate::specs::Typed::constant_at))]
pub fn check_constant_at(work: &mut Work, token: u32, value: Option<ConstantValue>) -> Typed
    ensures { Does (constant_at token value) result work.old work.new }
{
    let of = constant_type(&work.tables, value);
    work.put(token, constant_row(value));
    typed_value(token, of)
}

#[tactic(auto, using(check_steps::proofs::Runs::steps), unfolding(crate::specs::Typed::literal))]
fn check_literal(work: &mut Work, token: u32, c: &Constant) -> Typed
    ensures { Does (literal token c.now) result work.old work.new }
{
    let value = check_constant_again(work, 0, c);
    check_constant_at(work, token, value)
}

/// A number as a factor.
pub fn check_number(work: &mut Work, token: u32) -> Typed
    ensures { Does (literal token (Number None token)) result work.old work.new }
{
    let number = Constant::Number(None, token);
    check_literal(work, token, &number)
}

/// A string as a factor.
pub fn check_text(work: &mut Work, token: u32) -> Typed
    ensures { Does (literal token (TextConstant token)) result work.old work.new }
{
    let text = Constant::Text(token);
    check_literal(work, token, &text)
}

/// `nil` as a factor.
#[tactic(auto, using(check_steps::proofs::Runs::steps), unfolding(crate::specs::Typed::nil_at))]
pub fn check_nil(work: &mut Work, token: u32) -> Typed
    ensures { Does (nil_at token) result work.old work.new }
{
    work.put(token, Row::Expression(ExpressionRow::Nil));
    typed_value(token, ExpressionType::Nil)
}
