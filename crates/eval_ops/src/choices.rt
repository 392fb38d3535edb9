//! What a case statement chooses.

ghost use Rattle.std.specs.Prelude.{◌≡◌};
ghost use Rattle.core_program.specs.{Statements.chosen_by, Tree.Here};
ghost use Rattle.eval_ops.specs.Choices.{case_tree};

use cell_value::Value;
use core_program::Program;

/// What a case statement does by the value of its index (6.8.3.5).
#[derive(Clone, Copy)]
pub enum CaseOutcome {
    /// It goes on with the statement of this row.
    Statement(u32),
    /// No case constant is the value, which is an error of the program.
    NoCase,
    /// The value is no number.
    NoNumber,
    /// The list of the constants does not end as it says.
    Broken,
}

/// What a case statement does by the value of its index. The items of its case constants stand from the row `choices`
/// on, each after the one before it.
pub fn case_of(program: &Program, choices: u32, value: Value) -> CaseOutcome
    ensures { (h : Here) → chosen_by program.now h choices value ≡ case_tree h result }
{
    match value {
        Value::Number(number) => match program.choice_of(choices, number) {
            Some(Some(statement)) => CaseOutcome::Statement(statement),
            Some(None) => CaseOutcome::NoCase,
            None => CaseOutcome::Broken,
        },
        _ => CaseOutcome::NoNumber,
    }
}
