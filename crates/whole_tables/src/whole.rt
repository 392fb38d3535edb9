//! Whether tables are whole.

ghost use Rattle.std.specs.Prelude.{◌≡◌, IfOk, length, true};
ghost use Rattle.core_program.specs.ProgramRows.{routine_at, row_at, type_at};
ghost use Rattle.core_program.specs.WholeTables.{WholeTables};
ghost use Rattle.whole_tables.specs.Fits.{all_below};
ghost use Rattle.whole_tables.specs.Fits as fits;
ghost use Rattle.whole_tables.specs.Scopes as scopes;

use crate::fits::{routine_fits, row_fits};
use crate::once::are_named_once;
use crate::scopes::{is_outermost, is_scoped, records_around};
use core_program::ProgramTables;
use core_program::rows::{INTEGER, TypeRow};
use std::alloc::{AllocError, Global};

fn has_integer(program: &ProgramTables) -> bool
    ensures { result ≡ fits.is_integer (type_at program.now 0) }
{
    match program.type_row(INTEGER) {
        Some(TypeRow::Ordinal { least, greatest }) => {
            least == -2_147_483_647 && greatest == 2_147_483_647
        }
        _ => false,
    }
}

#[tactic(auto, using(crate::proofs::Below::below_loops))]
fn all_rows_fit(program: &ProgramTables, rows: u32) -> bool
    ensures { result ≡ all_below rows (λ at. fits.row_fits program.now at (row_at program.now at)) }
{
    let mut left = rows;
    'rows: while left > 0 {
        left -= 1;
        if !row_fits(program, left, program.row(left)) {
            return false;
        }
    }
    true
}

#[tactic(auto, using(crate::proofs::Below::below_loops))]
fn all_routines_fit(program: &ProgramTables) -> bool
    ensures { result ≡ all_below (length program.now.routines)
        (λ n. fits.routine_fits program.now n (routine_at program.now n)) }
{
    let mut left = program.routines();
    'routines: while left > 0 {
        left -= 1;
        if !routine_fits(program, left, program.routine(left)) {
            return false;
        }
    }
    true
}

#[tactic(auto, using(crate::proofs::Below::below_loops))]
fn all_rows_scoped(program: &ProgramTables, column: &[u32], rows: u32) -> bool
    ensures { result ≡ all_below rows (λ at. scopes.scoped_row program.now column.now rows at (row_at program.now at)) }
{
    let mut left = rows;
    'rows: while left > 0 {
        left -= 1;
        if !is_scoped(program, column, rows, left) {
            return false;
        }
    }
    true
}

#[tactic(auto, using(crate::proofs::Below::below_loops))]
fn all_outermost(program: &ProgramTables, column: &[u32]) -> bool
    ensures { result ≡ all_below (length program.now.routines)
        (λ n. scopes.outermost column.now (routine_at program.now n)) }
{
    let mut left = program.routines();
    'routines: while left > 0 {
        left -= 1;
        if !is_outermost(column, program.routine(left)) {
            return false;
        }
    }
    true
}

fn do_all_fit(program: &ProgramTables, rows: u32) -> bool
    ensures { result ≡ fits.do_all_fit program.now rows }
{
    has_integer(program)
        && program.routines() > 0
        && all_rows_fit(program, rows)
        && all_routines_fit(program)
}

fn are_all_scoped(program: &ProgramTables, column: &[u32], rows: u32) -> bool
    ensures { result ≡ scopes.are_all_scoped program.now column.now rows }
{
    all_rows_scoped(program, column, rows) && all_outermost(program, column)
}

/// Whether the tables of a program are whole.
pub fn is_whole(alloc: Global, program: &ProgramTables) -> Result<bool, AllocError>
    ensures { IfOk result (λ whole. whole ≡ true → WholeTables program.now) }
{
    let Ok(rows) = u32::try_from(program.rows()) else {
        return Ok(false);
    };
    if !do_all_fit(program, rows) {
        return Ok(false);
    }
    if !are_named_once(alloc, program, rows)? {
        return Ok(false);
    }
    let column = records_around(alloc, program, rows)?;
    Ok(are_all_scoped(program, &column, rows))
}
