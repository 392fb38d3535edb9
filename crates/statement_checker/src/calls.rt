//! Procedure statements: what is called, and the rows of calls (6.8.2.3).

ghost use Rattle.std.specs.Prelude.{◌≡◌};
ghost use Rattle.check_steps.specs.Steps.{Does};
ghost use Rattle.expression_checker.specs.Callees.{is_required_function};
ghost use Rattle.statement_checker.specs.Calls.{call_in, call_row, is_procedure, procedure_at};

use check_steps::{Tables, Work};
use core_program::rows::{Required, Row, StatementRow};
use expression_checker::Callee;
use expression_checker::callees::callee_of;
use kind_checker::headings::signature_at;

fn is_required_function(required: Required) -> bool
    ensures { result ≡ is_required_function required }
{
    match required {
        Required::Abs | Required::Sqr | Required::Odd | Required::Ord => true,
        Required::Chr | Required::Succ | Required::Pred => true,
        Required::Eof | Required::Eoln => true,
        _ => false,
    }
}

fn is_procedure(tables: &Tables, callee: Callee) -> bool
    ensures { result ≡ is_procedure tables.now callee }
{
    match callee {
        Callee::Unknown => true,
        Callee::Wrong => false,
        Callee::Routine { heading, .. } => signature_at(tables, heading).result.is_none(),
        Callee::Formal { heading, .. } => signature_at(tables, heading).result.is_none(),
        Callee::Required(required) => !is_required_function(required),
    }
}

/// The procedure that a name stands for.
#[tactic(auto, using(check_steps::proofs::Runs::steps), unfolding(crate::specs::Calls::procedure_at))]
pub fn check_procedure(work: &mut Work, frame: u32, name: u32) -> Callee
    ensures { Does (procedure_at frame name) result work.old work.new }
{
    let found = work.use_again(frame, name);
    let callee = callee_of(&work.tables, frame, found);
    let fine = is_procedure(&work.tables, callee);
    work.late(3, name, fine);
    if fine { callee } else { Callee::Wrong }
}

fn call_in(callee: Callee, line: u32, actuals: u32) -> Row
    ensures { result ≡ call_in callee line actuals }
{
    match callee {
        Callee::Routine {
            routine,
            levels,
            ..
        } => Row::Statement(StatementRow::Call {
            line,
            routine,
            levels,
            actuals,
        }),
        Callee::Formal { formal, levels, .. } => Row::Statement(StatementRow::CallFormal {
            line,
            formal,
            levels,
            actuals,
        }),
        _ => Row::Nothing,
    }
}

/// A call, at the procedure's name, with the list of its actual parameters.
#[tactic(auto, using(check_steps::proofs::Runs::steps), unfolding(crate::specs::Calls::call_row))]
pub fn put_call(work: &mut Work, line: u32, name: u32, callee: Callee, actuals: u32) -> u32
    ensures { Does (call_row line name callee actuals) result work.old work.new }
{
    work.put(name, call_in(callee, line, actuals));
    name
}
