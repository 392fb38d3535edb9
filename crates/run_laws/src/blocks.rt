//! Whether the result of a function and the variables of a block stand behind its parameters.

ghost use Rattle.std.specs.Prelude.{◌≡◌};
ghost use Rattle.run_laws.specs.LaidOut as laid;
ghost use Rattle.run_laws.specs.LaidTests as tests;

use core_program::rows::{Mode, NameRow, PartRow, Row};
use core_program::{ProgramTables, Routine};

/// Whether a routine is named by a row in a heading: in its first one, or in the one that completes that.
fn is_name_of(row: Row, number: u32, name: u32) -> bool
    ensures { result ≡ laid.is_name_of row number name }
{
    match row {
        Row::Name(NameRow::Routine { number: found, .. }) => found == number,
        Row::Part(PartRow::Completing { first }) => first == name,
        _ => false,
    }
}

/// Whether a variable of a block with this many others around has its place behind the parameters.
fn is_behind(level: u32, parameters: u32, row: Row) -> bool
    ensures { result ≡ laid.is_behind level parameters row }
{
    match row {
        Row::Name(
            NameRow::Variable {
                mode: Mode::Own,
                place,
                level: found,
                ..
            },
        ) => {
            if found == level {
                parameters <= place
            } else {
                true
            }
        }
        _ => true,
    }
}

/// Whether a variable of such a block has this place.
fn has_place(level: u32, place: u64, row: Row) -> bool
    ensures { result ≡ laid.has_place level place row }
{
    match row {
        Row::Name(
            NameRow::Variable {
                mode: Mode::Own,
                place: at,
                level: found,
                ..
            },
        ) => {
            if found == level {
                u64::from(at) == place
            } else {
                false
            }
        }
        _ => false,
    }
}

/// Whether each variable of a routine's block has its place behind the parameters. They stand before the statement
/// part, and after the last heading that names the routine.
#[tactic(auto, using(crate::proofs::LaidLoops::behind_loops))]
fn all_behind(program: &ProgramTables, number: u32, routine: Routine) -> bool
    ensures { result ≡ laid.all_behind program.now number routine routine.statements }
{
    let mut before = routine.statements;
    'tokens: while before > 0 {
        before -= 1;
        let row = program.row(before);
        if is_name_of(row, number, routine.name) {
            return true;
        }
        if !is_behind(routine.level, routine.parameters, row) {
            return false;
        }
    }
    true
}

/// Whether one of them has this place.
#[tactic(auto, using(crate::proofs::LaidLoops::place_loops))]
fn some_has(program: &ProgramTables, number: u32, routine: Routine, place: u64) -> bool
    ensures { result ≡ laid.some_has program.now number routine place routine.statements }
{
    let mut before = routine.statements;
    'tokens: while before > 0 {
        before -= 1;
        let row = program.row(before);
        if is_name_of(row, number, routine.name) {
            return false;
        }
        if has_place(routine.level, place, row) {
            return true;
        }
    }
    false
}

/// Whether the result of a function has the place behind the parameters.
fn is_next(place: Option<u32>, parameters: u32) -> bool
    ensures { result ≡ tests.is_next place parameters }
{
    match place {
        None => true,
        Some(place) => place == parameters,
    }
}

/// The place behind the result.
fn after_result(place: Option<u32>, parameters: u32) -> u64
    ensures { result ≡ laid.after_result place parameters }
{
    match place {
        None => u64::from(parameters),
        Some(_) => u64::from(parameters) + 1,
    }
}

/// Whether one variable stands next, where there are cells for one.
fn first_stands(program: &ProgramTables, number: u32, routine: Routine, place: u64) -> bool
    ensures { result ≡ tests.first_stands program.now number routine place }
{
    u64::from(routine.cells) <= place || some_has(program, number, routine, place)
}

/// Whether the result of a routine and the variables of its block stand behind the parameters.
pub(crate) fn block_laid(program: &ProgramTables, number: u32, routine: Routine) -> bool
    ensures { result ≡ tests.block_laid program.now number routine }
{
    is_next(routine.result, routine.parameters)
        && all_behind(program, number, routine)
        && first_stands(
            program,
            number,
            routine,
            after_result(routine.result, routine.parameters),
        )
}
