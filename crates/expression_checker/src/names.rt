//! What a name stands for in an expression.

ghost use Rattle.std.specs.Prelude.{◌≡◌};
ghost use Rattle.check_steps.specs.Steps.{Does};
ghost use Rattle.expression_checker.specs.Names.{accessed_as, bound_at, component_if, field_meaning, holder_in};
ghost use Rattle.expression_checker.specs.Names.{is_packed, is_packed_record, is_variable, levels_to, meaning_in};
ghost use Rattle.expression_checker.specs.Names.{meaning_of, variable, variable_meaning, variable_row, with_position};

use crate::typed::{Location, Typed, typed_value, unknown_at};
use check_steps::{Found, Tables, Work};
use core_program::rows::{AccessRow, Mode, NameRow, PartRow, Row, TypeRow};
use kind_checker::conformable::is_conformant;
use kind_checker::{ConstantValue, ExpressionType};

/// What a name stands for in an expression.
#[derive(Clone, Copy)]
pub enum Meaning {
    /// Nothing that is known.
    Unknown,
    /// A constant, and what it stands for, if that is known.
    Constant(Option<ConstantValue>),
    /// A variable, a parameter or a field of the record of a with statement: the row of its access, its type, and
    /// where it lies.
    Variable {
        row: AccessRow,
        of: u32,
        location: Location,
    },
    /// A bound of a conformant parameter: the row of its access, and its type.
    Bound {
        row: AccessRow,
        of: u32,
    },
    /// A type, a routine or a text file.
    Other,
}

/// How many links lead from a frame to that of what is declared at a level.
pub fn levels_to(tables: &Tables, frame: u32, level: u32) -> u32
    ensures { result ≡ levels_to tables.now frame level }
{
    tables.frame(frame).level.saturating_sub(level)
}

fn variable_row(conformant: bool, mode: Mode, place: u32, levels: u32, of: u32) -> AccessRow
    ensures { result ≡ variable_row conformant mode place levels of }
{
    if conformant {
        return AccessRow::Conformant { place, levels, of };
    }
    match mode {
        Mode::Place => AccessRow::Reference { place, levels, of },
        _ => AccessRow::Variable { place, levels, of },
    }
}

fn holder_in(row: Row) -> Option<u32>
    ensures { result ≡ holder_in row }
{
    match row {
        Row::Part(PartRow::Variant { variants, .. }) => Some(variants),
        Row::Part(PartRow::Variants { holder, .. }) => Some(holder),
        _ => None,
    }
}

fn is_packed_record(row: Row) -> bool
    ensures { result ≡ is_packed_record row }
{
    match row {
        Row::Type(TypeRow::Record { packed, .. }) => packed,
        _ => false,
    }
}

/// Whether a holder of fields is a packed record, or a variant in one.
#[tactic(auto, using(crate::proofs::Holders::holders_outward))]
fn is_packed(tables: &Tables, holder: u32) -> bool
    ensures { result ≡ is_packed tables.now holder }
{
    let mut at = holder;
    'holders: for _passed in 0..tables.tokens() {
        let row = tables.row(at);
        let Some(outer) = holder_in(row) else {
            return is_packed_record(row);
        };
        at = outer;
    }
    false
}

/// Where a component lies, which may be one of a packed variable.
pub fn component_if(within: bool) -> Location
    ensures { result ≡ component_if within }
{
    if within {
        Location::Component
    } else {
        Location::Variable
    }
}

fn with_position(tables: &Tables, frame: u32) -> u32
    ensures { result ≡ with_position tables.now frame }
{
    tables.frame(frame).withs.saturating_sub(1)
}

fn field_meaning(tables: &Tables, found: Found, of: u32, location: Location) -> Meaning
    ensures { result ≡ field_meaning tables.now found of location }
{
    Meaning::Variable {
        row: AccessRow::Within {
            record: with_position(tables, found.frame),
            field: found.definition.token,
            of,
        },
        of,
        location,
    }
}

fn variable_meaning(tables: &Tables, mode: Mode, of: u32, place: u32, levels: u32) -> Meaning
    ensures { result ≡ variable_meaning tables.now mode of place levels }
{
    Meaning::Variable {
        row: variable_row(is_conformant(tables.type_row(of)), mode, place, levels, of),
        of,
        location: Location::Variable,
    }
}

fn meaning_in(tables: &Tables, frame: u32, found: Found, row: Row) -> Meaning
    ensures { result ≡ meaning_in tables.now frame found row }
{
    match row {
        Row::Name(NameRow::Constant { of, value }) => {
            Meaning::Constant(Some(ConstantValue::Ordinal { of, value }))
        }
        Row::Name(NameRow::Text { token }) => Meaning::Constant(Some(ConstantValue::Text {
            token,
        })),
        Row::Nothing => Meaning::Constant(None),
        Row::Name(
            NameRow::Variable {
                mode,
                of,
                place,
                level,
            },
        ) => variable_meaning(tables, mode, of, place, levels_to(tables, frame, level)),
        Row::Name(NameRow::Bound { of, place, level }) => Meaning::Bound {
            row: AccessRow::Variable {
                place,
                levels: levels_to(tables, frame, level),
                of,
            },
            of,
        },
        Row::Name(NameRow::Field { of, holder, .. }) => {
            field_meaning(tables, found, of, component_if(is_packed(tables, holder)))
        }
        Row::Name(NameRow::Tag { of, .. }) => {
            field_meaning(tables, found, of, Location::Component)
        }
        _ => Meaning::Other,
    }
}

/// What a name stands for, seen from a frame.
pub fn meaning_of(tables: &Tables, frame: u32, found: Option<Found>) -> Meaning
    ensures { result ≡ meaning_of tables.now frame found }
{
    match found {
        None => Meaning::Unknown,
        Some(found) => meaning_in(tables, frame, found, tables.row(found.definition.token)),
    }
}

fn is_variable(meaning: Meaning) -> bool
    ensures { result ≡ is_variable meaning }
{
    match meaning {
        Meaning::Unknown => true,
        Meaning::Variable { .. } => true,
        _ => false,
    }
}

/// An access by a name alone.
#[tactic(auto, using(check_steps::proofs::Runs::steps))]
pub fn check_accessed(work: &mut Work, name: u32, meaning: Meaning) -> Typed
    ensures { Does (accessed_as name meaning) result work.old work.new }
{
    match meaning {
        Meaning::Variable { row, of, location } => {
            work.put(name, Row::Access(row));
            Typed {
                row: name,
                of: ExpressionType::Of(of),
                location,
            }
        }
        _ => unknown_at(name),
    }
}

/// A bound alone, which is a value and no variable.
#[tactic(auto, using(check_steps::proofs::Runs::steps), unfolding(crate::specs::Names::bound_at))]
pub fn check_bound(work: &mut Work, name: u32, row: AccessRow, of: u32) -> Typed
    ensures { Does (bound_at name row of) result work.old work.new }
{
    work.put(name, Row::Access(row));
    typed_value(name, ExpressionType::Of(of))
}

/// The variable, parameter or field that a name stands for.
#[tactic(auto, using(check_steps::proofs::Runs::steps), unfolding(crate::specs::Names::variable))]
pub fn check_variable(work: &mut Work, name: u32, frame: u32) -> Typed
    ensures { Does (variable frame name) result work.old work.new }
{
    let found = work.use_again(frame, name);
    let meaning = meaning_of(&work.tables, frame, found);
    work.late(3, name, is_variable(meaning));
    check_accessed(work, name, meaning)
}
