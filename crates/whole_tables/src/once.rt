//! That no two constructs have a part in common.

ghost use Rattle.std.specs.Prelude.{◌∷◌, ◌≡◌, [], IfOk, Some, is_some, length, slice_set, true};
ghost use Rattle.core_program.specs.WholeTables as whole;
ghost use Rattle.whole_tables.specs.Once.{IsOnce};
ghost use Rattle.whole_tables.specs.Parts as parts;

use crate::parts::{Parts, parts_of};
use core_program::ProgramTables;
use core_program::rows::{ItemRow, Row, StatementRow};
use std::alloc::{AllocError, Global};

/// The construct that names a number, and which of its parts stands there, from 0.
#[derive(Clone, Copy)]
pub(crate) struct Naming {
    pub(crate) construct: u32,
    pub(crate) place: u32,
}

fn is_common_row(row: Row) -> bool
    ensures { result ≡ whole.is_common_row row }
{
    match row {
        Row::Type(_) => true,
        Row::Statement(StatementRow::Empty) => true,
        _ => false,
    }
}

fn is_choice_row(row: Row) -> bool
    ensures { result ≡ whole.is_choice_row row }
{
    match row {
        Row::Item(ItemRow::Choice { .. }) => true,
        _ => false,
    }
}

fn put_naming(column: &mut Vec<Option<Naming>>, number: u32, naming: Naming)
    ensures { column.new.items ≡ slice_set column.old.items number (Some naming) }
{
    let number = number as usize;
    if number < column.len() {
        column[number] = Some(naming);
    }
}

/// A construct names a number as its part at a place. The answer is whether it may.
fn name(
    program: &ProgramTables,
    column: &mut Vec<Option<Naming>>,
    construct: u32,
    place: u32,
    number: u32,
) -> bool
    ensures may { result ≡ is_some (parts.named program.now column.old.items construct place number) }
    ensures named { result ≡ true
        → parts.named program.now column.old.items construct place number ≡ Some column.new.items }
{
    if is_common_row(program.row(number)) {
        return true;
    }
    match column.get(number as usize).copied() {
        None => false,
        Some(None) => {
            put_naming(column, number, Naming { construct, place });
            true
        }
        Some(Some(other)) => {
            is_choice_row(program.row(construct)) && is_choice_row(program.row(other.construct))
        }
    }
}

fn name_two(
    program: &ProgramTables,
    column: &mut Vec<Option<Naming>>,
    construct: u32,
    first: u32,
    second: u32,
) -> bool
    ensures named { result ≡ true
        → parts.all_named program.now column.old.items construct 0 (first ∷ second ∷ []) ≡ Some column.new.items }
{
    if !name(program, column, construct, 0, first) {
        return false;
    }
    name(program, column, construct, 1, second)
}

fn name_three(
    program: &ProgramTables,
    column: &mut Vec<Option<Naming>>,
    construct: u32,
    first: u32,
    second: u32,
    third: u32,
) -> bool
    ensures named { result ≡ true → parts.all_named program.now column.old.items construct 0
        (first ∷ second ∷ third ∷ []) ≡ Some column.new.items }
{
    if !name(program, column, construct, 0, first) {
        return false;
    }
    if !name(program, column, construct, 1, second) {
        return false;
    }
    name(program, column, construct, 2, third)
}

/// A construct names its parts. The answer is whether it may.
fn name_parts(
    program: &ProgramTables,
    column: &mut Vec<Option<Naming>>,
    construct: u32,
    named: Parts,
) -> bool
    ensures named { result ≡ true
        → parts.all_named program.now column.old.items construct 0 (parts.listed named) ≡ Some column.new.items }
{
    match named {
        Parts::Nothing => true,
        Parts::One(first) => name(program, column, construct, 0, first),
        Parts::Two(first, second) => name_two(program, column, construct, first, second),
        Parts::Three(first, second, third) => {
            name_three(program, column, construct, first, second, third)
        }
    }
}

/// Whether no two constructs have a part in common, as far as they may not share it, and none has one twice.
#[tactic(auto, using(crate::proofs::NamedOnce::naming))]
pub(crate) fn are_named_once(
    alloc: Global,
    program: &ProgramTables,
    rows: u32,
) -> Result<bool, AllocError>
    requires rows { rows ≡ length program.now.rows }
    ensures once { IfOk result (λ once. once ≡ true → IsOnce program.now) }
{
    let mut column: Vec<Option<Naming>> = vec![in alloc; None; rows as usize]?;
    'constructs: for at in 0..rows {
        if !name_parts(program, &mut column, at, parts_of(program.row(at))) {
            return Ok(false);
        }
    }
    Ok(true)
}
