//! The turns of a for statement.

ghost use Rattle.std.specs.{Prelude.◌≡◌, Prelude.false, Prelude.true, Ordering.int_eq};
ghost use Rattle.cell_value.specs.declared.values.Value.TheVariants as CellValue;
ghost use Rattle.core_program.specs.ProgramRows.{row_at};
ghost use Rattle.core_program.specs.Statements as statements;
ghost use Rattle.eval_ops.specs.Counting.{both_there, span_in, turns_in};

use cell_value::Value;
use core_program::Program;
use core_program::rows::{Direction, Row, StatementRow};

/// How far a for statement has come.
#[derive(Clone, Copy)]
pub struct ForProgress {
    /// The control variable's value in a turn.
    pub value: i64,
    /// Its value in the last turn.
    pub last: i64,
}

/// What the row of the turns of a for statement says.
#[derive(Clone, Copy)]
pub struct Counting {
    pub direction: Direction,
    /// The row of the last value's expression.
    pub last: u32,
    /// The place of the control variable in the frame, in cells.
    pub place: u32,
    /// The row of the control variable's type.
    pub of: u32,
    /// The row of the statement that each turn does.
    pub body: u32,
}

/// The turns of a for statement, if the row is that of the turns of one.
pub fn turns_of(program: &Program, row: u32) -> Option<Counting>
    ensures { result ≡ turns_in (row_at program.now row) }
{
    match program.row(row) {
        Row::Statement(
            StatementRow::Turns {
                direction,
                last,
                place,
                of,
                body,
            },
        ) => Some(Counting {
            direction,
            last,
            place,
            of,
            body,
        }),
        _ => None,
    }
}

/// How far a for statement has come, if both values are numbers.
fn span_of(value: Value, last: Value) -> Option<ForProgress>
    ensures { result ≡ span_in value last }
{
    match (value, last) {
        (Value::Number(value), Value::Number(last)) => Some(ForProgress { value, last }),
        _ => None,
    }
}

/// The turns of a for statement, and how far it has come, if the row is that of its turns and both values are numbers.
pub fn counting_at(
    program: &Program,
    row: u32,
    value: Value,
    last: Value,
) -> Option<(Counting, ForProgress)>
    ensures { result ≡ both_there (turns_in (row_at program.now row)) (span_in value last) }
{
    match (turns_of(program, row), span_of(value, last)) {
        (Some(counting), Some(span)) => Some((counting, span)),
        _ => None,
    }
}

/// The value of a turn.
pub fn turn_value(span: ForProgress) -> Value
    ensures { result ≡ CellValue.Number span.value }
{
    Value::Number(span.value)
}

/// The value of the last turn.
pub fn last_value(span: ForProgress) -> Value
    ensures { result ≡ CellValue.Number span.last }
{
    Value::Number(span.last)
}

/// Whether a for statement has a turn with the value, where it counts to the last one (6.8.3.9).
pub fn has_turn(direction: Direction, span: ForProgress) -> bool
    ensures { result ≡ statements.has_turn direction span.value span.last }
{
    match direction {
        Direction::Up => span.value <= span.last,
        Direction::Down => span.last <= span.value,
    }
}

/// Whether a turn of a for statement is its last one.
pub fn is_last(span: ForProgress) -> bool
    ensures { result ≡ int_eq span.value span.last }
{
    span.value == span.last
}

/// The turn after one that is not the last. Its value does not pass that of the last turn (6.8.3.9).
pub fn turn_after(direction: Direction, span: ForProgress) -> ForProgress
    requires turn { statements.has_turn direction span.value span.last ≡ true }
    requires not_last { int_eq span.value span.last ≡ false }
    ensures value { result.value ≡ statements.value_after direction span.value }
    ensures last { result.last ≡ span.last }
    ensures turn { statements.has_turn direction result.value result.last ≡ true }
{
    let value = match direction {
        Direction::Up => span.value + 1,
        Direction::Down => span.value - 1,
    };
    ForProgress {
        value,
        last: span.last,
    }
}
