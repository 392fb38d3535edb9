//! Whether tables are laid out.

ghost use Rattle.std.specs.Prelude.{◌≡◌, length, true};
ghost use Rattle.core_program.specs.{ProgramRows.routine_at, ProgramRows.row_at, WholeTables.WholeTables};
ghost use Rattle.whole_tables.specs.Fits.{all_below};
ghost use Rattle.run_laws.specs.LaidOut.{LaidOut};
ghost use Rattle.run_laws.specs.LaidTests as tests;

use crate::actuals::{formal_takes, gives_cells, routine_takes, sections_in};
use crate::blocks::block_laid;
use crate::places::heading_end;
use crate::schemas::fits_schema;
use core_program::rows::{ExpressionRow, ItemRow, NameRow, PartRow, Row, StatementRow};
use core_program::{ProgramTables, Routine};

/// More tokens than this no source has: each has a byte.
const MOST_TOKENS: u32 = 1_048_576;

fn item_laid(program: &ProgramTables, row: ItemRow) -> bool
    ensures { result ≡ tests.item_laid program.now row }
{
    match row {
        ItemRow::Value { value, of, .. } => {
            gives_cells(program, program.row(value), program.size_of(of))
        }
        ItemRow::ArrayPlace {
            first: true,
            access,
            of,
            ..
        } => { fits_schema(program, of, program.row(access)) }
        ItemRow::ArrayValue {
            first: true,
            value,
            of,
            ..
        } => { fits_schema(program, of, program.row(value)) }
        _ => true,
    }
}

fn row_laid(program: &ProgramTables, at: u32, row: Row) -> bool
    ensures { result ≡ tests.row_laid program.now at row }
{
    match row {
        Row::Item(item) => at < MOST_TOKENS && item_laid(program, item),
        Row::Name(NameRow::Bound { .. }) => at < MOST_TOKENS,
        Row::Statement(
            StatementRow::Call {
                routine,
                actuals,
                ..
            },
        ) => { routine_takes(program, actuals, program.routine(routine)) }
        Row::Statement(
            StatementRow::CallFormal {
                formal,
                actuals,
                ..
            },
        ) => { formal_takes(program, actuals, formal) }
        Row::Expression(
            ExpressionRow::Apply {
                routine,
                actuals,
                ..
            },
        ) => { routine_takes(program, actuals, program.routine(routine)) }
        Row::Expression(
            ExpressionRow::ApplyFormal {
                formal,
                actuals,
                ..
            },
        ) => { formal_takes(program, actuals, formal) }
        Row::Part(PartRow::Heading { sections, .. }) => {
            heading_end(program, Some(sections)).is_some()
        }
        _ => true,
    }
}

fn ends_at(place: u32, found: Option<u32>) -> bool
    ensures { result ≡ tests.ends_at place found }
{
    match found {
        None => false,
        Some(found) => place == found,
    }
}

fn routine_laid(program: &ProgramTables, number: u32, routine: Option<Routine>) -> bool
    ensures { result ≡ tests.routine_laid program.now number routine }
{
    match routine {
        None => true,
        Some(routine) => {
            let end = heading_end(program, sections_in(program.row(routine.heading)));
            ends_at(routine.parameters, end)
                && routine.parameters <= routine.cells
                && block_laid(program, number, routine)
        }
    }
}

fn has_no_heading(program: &ProgramTables, routine: Option<Routine>) -> bool
    ensures { result ≡ tests.has_no_heading program.now routine }
{
    match routine {
        None => true,
        Some(routine) => sections_in(program.row(routine.heading)).is_none(),
    }
}

#[tactic(auto, using(whole_tables::proofs::Below::below_loops))]
fn all_rows_laid(program: &ProgramTables, rows: u32) -> bool
    ensures { result ≡ all_below rows (λ at. tests.row_laid program.now at (row_at program.now at)) }
{
    let mut left = rows;
    'rows: while left > 0 {
        left -= 1;
        if !row_laid(program, left, program.row(left)) {
            return false;
        }
    }
    true
}

#[tactic(auto, using(whole_tables::proofs::Below::below_loops))]
fn all_routines_laid(program: &ProgramTables) -> bool
    ensures { result ≡ all_below (length program.now.routines)
        (λ n. tests.routine_laid program.now n (routine_at program.now n)) }
{
    let mut left = program.routines();
    'routines: while left > 0 {
        left -= 1;
        if !routine_laid(program, left, program.routine(left)) {
            return false;
        }
    }
    true
}

fn are_laid(program: &ProgramTables, rows: u32) -> bool
    ensures { result ≡ tests.are_laid program.now rows }
{
    all_rows_laid(program, rows)
        && all_routines_laid(program)
        && has_no_heading(program, program.routine(0))
}

/// Whether the tables of a program are laid out: the actuals of each call are those for the parameters of its heading,
/// and these have their places one after the other. Whole tables for which this is true are laid out.
pub fn is_laid_out(program: &ProgramTables) -> bool
    ensures { WholeTables program.now → result ≡ true → LaidOut program.now }
{
    let Ok(rows) = u32::try_from(program.rows()) else {
        return false;
    };
    are_laid(program, rows)
}
