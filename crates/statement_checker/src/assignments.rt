//! Assignments: what stands on the left, and the value (6.8.2.2).

ghost use Rattle.std.specs.Prelude.{◌≡◌, true};
ghost use Rattle.check_steps.specs.Steps.{Does, when};
ghost use Rattle.expression_checker.specs.Selectors.{type_number};
ghost use Rattle.statement_checker.specs.Assignments.{assigned, assigned_in, begins_at, blockless_if, blockless_target};
ghost use Rattle.statement_checker.specs.Assignments.{is_assigned, is_inside, result_assigned, result_at};
ghost use Rattle.statement_checker.specs.Assignments.{result_target, takes, target_at, target_in, target_of};
ghost use Rattle.statement_checker.specs.Assignments.{target_of_result, with_value};

use crate::sequences::put_statement;
use check_steps::{Found, Tables, Work};
use core_program::Routine;
use core_program::rows::{AccessRow, NameRow, Row, StatementRow};
use expression_checker::callees::is_required_function;
use expression_checker::names::levels_to;
use expression_checker::typed::unknown_at;
use expression_checker::{Location, Typed};
use kind_checker::ExpressionType;
use kind_checker::headings::signature_at;
use kind_checker::shapes::is_assignable;

/// The result of a function, as an access.
#[derive(Clone, Copy)]
pub struct FunctionResult {
    /// The name in the function's first heading, at which its region begins.
    pub function: u32,
    /// Its cell's place.
    pub place: u32,
    /// How many links lead to the function's frame.
    pub levels: u32,
    /// Its type.
    pub of: u32,
}

/// What stands on the left of `:=`.
#[derive(Clone, Copy)]
pub enum Target {
    /// An access of a variable.
    Access,
    Result(FunctionResult),
    /// A function that has no block in the program: one as a parameter, or a required one.
    Blockless,
}

fn result_at(
    tables: &Tables,
    frame: u32,
    routine: Routine,
    place: Option<u32>,
    of: Option<u32>,
) -> Target
    ensures { result ≡ result_at tables.now frame routine place of }
{
    match (place, of) {
        (Some(place), Some(of)) => Target::Result(FunctionResult {
            function: routine.name,
            place,
            levels: levels_to(tables, frame, routine.level),
            of,
        }),
        _ => Target::Access,
    }
}

fn target_of_result(tables: &Tables, frame: u32, routine: Option<Routine>) -> Target
    ensures { result ≡ target_of_result tables.now frame routine }
{
    match routine {
        None => Target::Access,
        Some(routine) => {
            let signature = signature_at(tables, routine.heading);
            result_at(tables, frame, routine, routine.result, signature.result)
        }
    }
}

fn blockless_if(function: bool) -> Target
    ensures { result ≡ blockless_if function }
{
    if function {
        Target::Blockless
    } else {
        Target::Access
    }
}

fn target_in(tables: &Tables, frame: u32, row: Row) -> Target
    ensures { result ≡ target_in tables.now frame row }
{
    match row {
        Row::Name(NameRow::Routine { number, .. }) => {
            target_of_result(tables, frame, tables.program().routine(number))
        }
        Row::Name(NameRow::RoutineFormal { heading, .. }) => {
            blockless_if(signature_at(tables, heading).result.is_some())
        }
        Row::Name(NameRow::Required { routine }) => { blockless_if(is_required_function(routine)) }
        _ => Target::Access,
    }
}

fn target_of(tables: &Tables, frame: u32, found: Option<Found>) -> Target
    ensures { result ≡ target_of tables.now frame found }
{
    match found {
        None => Target::Access,
        Some(found) => target_in(tables, frame, tables.row(found.definition.token)),
    }
}

/// What a name stands for on the left of `:=`, if it stands there alone; with selectors it is an access.
pub fn target_at(tables: &Tables, frame: u32, name: u32, alone: bool) -> Target
    ensures { result ≡ target_at tables.now frame name alone }
{
    if alone {
        let found = tables.usable(frame, name, name);
        target_of(tables, frame, found)
    } else {
        Target::Access
    }
}

fn begins_at(tables: &Tables, frame: u32, token: u32) -> bool
    ensures { result ≡ begins_at tables.now frame token }
{
    tables.region_token(tables.frame(frame).region) == token
}

/// Whether a frame is inside of a region, by a way through all frames.
#[tactic(auto, using(crate::proofs::Inside::inside_outward))]
fn is_inside_outward(tables: &Tables, frame: u32, token: u32) -> bool
    ensures { result ≡ is_inside tables.now frame token }
{
    let mut at = Some(frame);
    let mut left = tables.tokens();
    'frames: while left > 0 {
        let Some(number) = at else {
            return false;
        };
        if begins_at(tables, number, token) {
            return true;
        }
        let beyond = tables.beyond(number);
        at = beyond.to;
        left = (left - 1).saturating_sub(beyond.passed);
    }
    false
}

/// Whether this region begins at a token and a frame is known to be inside of it.
fn is_region_around(tables: &Tables, frame: u32, region: u32, token: u32) -> bool
    ensures { result ≡ true → is_inside tables.now frame token ≡ true }
{
    if tables.region_token(region) == token && frame < tables.tokens() {
        tables.is_around(frame, region)
    } else {
        false
    }
}

/// Whether a frame is known to be inside of the region of a routine, which is told by the name in its first heading.
fn is_routine_around(tables: &Tables, frame: u32, name: u32) -> bool
    ensures { result ≡ true → is_inside tables.now frame name ≡ true }
{
    match tables.row(name) {
        Row::Name(NameRow::Routine { region, .. }) => is_region_around(tables, frame, region, name),
        _ => false,
    }
}

/// Whether a region that begins at a token is around a frame, or is its own.
pub fn is_inside(tables: &Tables, frame: u32, token: u32) -> bool
    ensures { result ≡ is_inside tables.now frame token }
{
    if is_routine_around(tables, frame, token) {
        true
    } else {
        is_inside_outward(tables, frame, token)
    }
}

fn assigned_in(row: Row) -> bool
    ensures { result ≡ assigned_in row }
{
    match row {
        Row::Name(NameRow::Routine { assigned, .. }) => assigned,
        _ => false,
    }
}

/// Whether a value is assigned so far to a function's name inside its block, by the name in its first heading.
pub fn is_assigned(tables: &Tables, name: u32) -> bool
    ensures { result ≡ is_assigned tables.now name }
{
    assigned_in(tables.row(name))
}

fn with_value(row: Row) -> Row
    ensures { result ≡ with_value row }
{
    match row {
        Row::Name(NameRow::Routine { number, region, .. }) => Row::Name(NameRow::Routine {
            assigned: true,
            number,
            region,
        }),
        _ => row,
    }
}

#[tactic(auto, using(check_steps::proofs::Runs::steps), unfolding(crate::specs::Assignments::result_assigned))]
fn put_assigned(work: &mut Work, name: u32)
    ensures { Does (result_assigned name) tt work.old work.new }
{
    let row = with_value(work.tables.row(name));
    work.put(name, row);
}

#[tactic(auto, using(check_steps::proofs::Runs::steps), unfolding(check_steps::specs::Steps::when))]
fn put_assigned_if(work: &mut Work, name: u32, inside: bool)
    ensures { Does (when inside (result_assigned name)) tt work.old work.new }
{
    if inside {
        put_assigned(work, name);
    }
}

/// The result of a function on the left of `:=`, at its name.
#[tactic(auto, using(check_steps::proofs::Runs::steps), unfolding(crate::specs::Assignments::result_target))]
pub fn check_result_target(work: &mut Work, frame: u32, name: u32, of: FunctionResult) -> Typed
    ensures { Does (result_target frame name of) result work.old work.new }
{
    let fine = is_inside(&work.tables, frame, of.function);
    work.late(13, name, fine);
    put_assigned_if(work, of.function, fine);
    let row = AccessRow::Variable {
        place: of.place,
        levels: of.levels,
        of: of.of,
    };
    work.put(name, Row::Access(row));
    Typed {
        row: name,
        of: ExpressionType::Of(of.of),
        location: Location::Variable,
    }
}

/// A function that has no block in the program, on the left of `:=`, at its name.
#[tactic(auto, using(check_steps::proofs::Runs::steps), unfolding(crate::specs::Assignments::blockless_target))]
pub fn check_blockless_target(work: &mut Work, name: u32) -> Typed
    ensures { Does (blockless_target name) result work.old work.new }
{
    work.late(13, name, false);
    unknown_at(name)
}

fn takes(tables: &Tables, target: ExpressionType, value: ExpressionType) -> bool
    ensures { result ≡ takes tables.now target value }
{
    match target {
        ExpressionType::Of(kind) => is_assignable(tables, kind, value),
        _ => true,
    }
}

fn type_number(of: ExpressionType) -> u32
    ensures { result ≡ type_number of }
{
    match of {
        ExpressionType::Of(kind) => kind,
        _ => 0,
    }
}

/// An assignment of a value to a target, at the `:=`, whose number is given.
#[tactic(auto, using(check_steps::proofs::Runs::steps), unfolding(crate::specs::Assignments::assigned))]
pub fn check_assigned(work: &mut Work, line: u32, becomes: u32, target: Typed, value: Typed) -> u32
    ensures { Does (assigned line becomes target value) result work.old work.new }
{
    let fine = takes(&work.tables, target.of, value.of);
    work.late(18, becomes, fine);
    let row = StatementRow::Assign {
        line,
        target: target.row,
        value: value.row,
        of: type_number(target.of),
    };
    put_statement(work, becomes, row)
}
