//! The lines of statements, and the items of sequences.

ghost use Rattle.std.specs.Prelude.{◌≡◌};
ghost use Rattle.core_program.specs.Statements as statements;
ghost use Rattle.eval_ops.specs.Items.{element_in};

use core_program::rows::{ItemRow, Row, StatementRow};

/// The line of a statement that is neither compound nor empty, in the source.
pub fn line_of(statement: StatementRow) -> Option<u32>
    ensures { result ≡ statements.line_of statement }
{
    match statement {
        StatementRow::Assign { line, .. } => Some(line),
        StatementRow::Call { line, .. } => Some(line),
        StatementRow::If { line, .. } => Some(line),
        StatementRow::IfElse { line, .. } => Some(line),
        StatementRow::Case { line, .. } => Some(line),
        StatementRow::Repeat { line, .. } => Some(line),
        StatementRow::While { line, .. } => Some(line),
        StatementRow::For { line, .. } => Some(line),
        StatementRow::CallFormal { line, .. } => Some(line),
        StatementRow::Goto { line, .. } => Some(line),
        StatementRow::With { line, .. } => Some(line),
        StatementRow::Read { line, .. } => Some(line),
        StatementRow::Write { line, .. } => Some(line),
        StatementRow::Page { line } => Some(line),
        StatementRow::Pack { line, .. } => Some(line),
        StatementRow::New { line, .. } => Some(line),
        StatementRow::Dispose { line, .. } => Some(line),
        _ => None,
    }
}

/// The row of a statement of a sequence (6.8.3.2), and that of the item after it, if the row is an item of one.
pub fn element_of(row: Row) -> Option<(u32, u32)>
    ensures { result ≡ element_in row }
{
    match row {
        Row::Item(ItemRow::Element { item, next }) => Some((item, next)),
        _ => None,
    }
}
