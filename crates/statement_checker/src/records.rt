//! Records of with statements (6.8.3.10).

ghost use Rattle.std.specs.Prelude.{◌≡◌, IfOk};
ghost use Rattle.check_steps.specs.Steps.{Does};
ghost use Rattle.decl_checker.specs.Statements.{inside_of};
ghost use Rattle.statement_checker.specs.Records.{inside_record, put_with};

use crate::sequences::{line_of, put_statement};
use check_steps::Work;
use core_program::rows::StatementRow;
use decl_checker::statements::{fields_in, open_fields};
use expression_checker::Typed;
use expression_checker::selectors::{is_record, type_row};
use std::alloc::AllocError;

#[tactic(auto, using(check_steps::proofs::Runs::steps))]
fn open_inside(work: &mut Work, frame: u32, region: Option<u32>) -> Result<u32, AllocError>
    ensures { IfOk result (λ n. Does (inside_of frame region) n work.old work.new) }
{
    match region {
        None => Ok(frame),
        Some(region) => open_fields(work, frame, region),
    }
}

/// A record of a with statement, whose access begins at a first token: the frame inside is given.
#[tactic(auto, using(check_steps::proofs::Runs::steps), unfolding(crate::specs::Records::inside_record))]
pub fn open_record(work: &mut Work, frame: u32, first: u32, value: Typed) -> Result<u32, AllocError>
    ensures { IfOk result (λ n. Does (inside_record frame first value) n work.old work.new) }
{
    let row = type_row(&work.tables, value.of);
    work.late(23, first, is_record(row));
    open_inside(work, frame, fields_in(row))
}

/// A with statement, at its `do`. Its records are a list at its word.
#[tactic(auto, using(check_steps::proofs::Runs::steps), unfolding(crate::specs::Records::put_with))]
pub fn put_with(work: &mut Work, label: Option<u32>, word: u32, do_word: u32, body: u32) -> u32
    ensures { Does (put_with label word do_word body) result work.old work.new }
{
    let line = line_of(&work.tables, label, word);
    let row = StatementRow::With {
        line,
        records: word,
        body,
    };
    put_statement(work, do_word, row)
}
