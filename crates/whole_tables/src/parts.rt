//! The constructs of which a construct is made.

ghost use Rattle.std.specs.Prelude.{◌≡◌};
ghost use Rattle.core_program.specs.WholeTables as whole;
ghost use Rattle.core_program.specs.declared.rows.Row.TheVariants as rows;
ghost use Rattle.whole_tables.specs.Parts.{listed, structured_parts_of};

use core_program::rows::{AccessRow, ExpressionRow, ItemRow, Row, StatementRow};

/// The parts of a construct, in order.
#[derive(Clone, Copy)]
pub(crate) enum Parts {
    Nothing,
    One(u32),
    Two(u32, u32),
    Three(u32, u32, u32),
}

/// The parts of a conditional, a repetitive or a with statement.
fn structured_parts(row: StatementRow) -> Parts
    ensures { listed result ≡ structured_parts_of row }
{
    match row {
        StatementRow::If {
            condition,
            then,
            ..
        } => Parts::Two(condition, then),
        StatementRow::IfElse {
            condition,
            then,
            otherwise,
            ..
        } => Parts::Three(condition, then, otherwise),
        StatementRow::Case {
            selector,
            choices,
            ..
        } => Parts::Two(selector, choices),
        StatementRow::Repeat {
            statements,
            condition,
            ..
        } => Parts::Two(statements, condition),
        StatementRow::While {
            condition,
            body,
            ..
        } => Parts::Two(condition, body),
        StatementRow::For { initial, turns, .. } => Parts::Two(initial, turns),
        StatementRow::Turns { last, body, .. } => Parts::Two(last, body),
        StatementRow::With { records, body, .. } => Parts::Two(records, body),
        _ => Parts::Nothing,
    }
}

fn statement_parts(row: StatementRow) -> Parts
    ensures { listed result ≡ whole.parts_of (rows.Statement row) }
{
    match row {
        StatementRow::Assign { target, value, .. } => Parts::Two(target, value),
        StatementRow::Call { actuals, .. } => Parts::One(actuals),
        StatementRow::CallFormal { actuals, .. } => Parts::One(actuals),
        StatementRow::Labelled { statement, .. } => Parts::One(statement),
        StatementRow::Compound { statements } => Parts::One(statements),
        StatementRow::Read { actuals, .. } => Parts::One(actuals),
        StatementRow::Write { actuals, .. } => Parts::One(actuals),
        StatementRow::New { access, .. } => Parts::One(access),
        StatementRow::Dispose { value, .. } => Parts::One(value),
        StatementRow::Pack {
            unpacked,
            index,
            packed,
            ..
        } => Parts::Three(unpacked, index, packed),
        _ => structured_parts(row),
    }
}

fn expression_parts(row: ExpressionRow) -> Parts
    ensures { listed result ≡ whole.parts_of (rows.Expression row) }
{
    match row {
        ExpressionRow::Sign { operand, .. } => Parts::One(operand),
        ExpressionRow::Not { operand } => Parts::One(operand),
        ExpressionRow::Arithmetic { left, right, .. } => Parts::Two(left, right),
        ExpressionRow::Logic { left, right, .. } => Parts::Two(left, right),
        ExpressionRow::Sets { left, right, .. } => Parts::Two(left, right),
        ExpressionRow::Compare { left, right, .. } => Parts::Two(left, right),
        ExpressionRow::CompareTexts { left, right, .. } => Parts::Two(left, right),
        ExpressionRow::CompareSets { left, right, .. } => Parts::Two(left, right),
        ExpressionRow::ComparePointers { left, right, .. } => Parts::Two(left, right),
        ExpressionRow::In { left, right } => Parts::Two(left, right),
        ExpressionRow::Set { members } => Parts::One(members),
        ExpressionRow::Apply { actuals, .. } => Parts::One(actuals),
        ExpressionRow::ApplyFormal { actuals, .. } => Parts::One(actuals),
        ExpressionRow::Function { operand, .. } => Parts::One(operand),
        _ => Parts::Nothing,
    }
}

fn access_parts(row: AccessRow) -> Parts
    ensures { listed result ≡ whole.parts_of (rows.Access row) }
{
    match row {
        AccessRow::Index { access, index, .. } => Parts::Two(access, index),
        AccessRow::Component { access, index, .. } => Parts::Two(access, index),
        AccessRow::Field { access, .. } => Parts::One(access),
        AccessRow::Dereference { access, .. } => Parts::One(access),
        _ => Parts::Nothing,
    }
}

fn item_parts(row: ItemRow) -> Parts
    ensures { listed result ≡ whole.parts_of (rows.Item row) }
{
    match row {
        ItemRow::Element { item, next } => Parts::Two(item, next),
        ItemRow::Value { value, next, .. } => Parts::Two(value, next),
        ItemRow::Place { access, next } => Parts::Two(access, next),
        ItemRow::ArrayPlace { access, next, .. } => Parts::Two(access, next),
        ItemRow::ArrayValue { value, next, .. } => Parts::Two(value, next),
        ItemRow::Routine { next, .. } => Parts::One(next),
        ItemRow::RoutineFormal { next, .. } => Parts::One(next),
        ItemRow::Written { value, next, .. } => Parts::Two(value, next),
        ItemRow::WrittenWide {
            value,
            width,
            next,
            ..
        } => Parts::Three(value, width, next),
        ItemRow::Member { value, next } => Parts::Two(value, next),
        ItemRow::Members { first, last, next } => Parts::Three(first, last, next),
        ItemRow::Choice { chosen, next, .. } => Parts::Two(chosen, next),
        _ => Parts::Nothing,
    }
}

/// The parts of the construct of a row.
pub(crate) fn parts_of(row: Row) -> Parts
    ensures { listed result ≡ whole.parts_of row }
{
    match row {
        Row::Statement(row) => statement_parts(row),
        Row::Expression(row) => expression_parts(row),
        Row::Access(row) => access_parts(row),
        Row::Item(row) => item_parts(row),
        _ => Parts::Nothing,
    }
}
