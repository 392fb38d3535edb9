//! What names and selectors stand for in accesses of variables (6.5).

ghost use Rattle.std.specs.Prelude.{◌≡◌};
ghost use Rattle.check_steps.specs.Steps.{Does};
ghost use Rattle.decl_checker.specs.Accesses.{component_type, domain, domain_type, field, field_type, indexed_type};
ghost use Rattle.decl_checker.specs.Accesses.{name_use, named_variable, type_defined, type_found, variable_type};

use check_steps::{Definition, Found, Tables, Work};
use core_program::rows::{NameRow, Row, TypeRow};

/// A name that is looked up for no more than rule 1.
#[tactic(auto, using(check_steps::proofs::Runs::steps), unfolding(crate::specs::Accesses::name_use))]
pub fn use_name(work: &mut Work, frame: u32, token: u32)
    ensures { Does (name_use frame token) tt work.old work.new }
{
    work.use_at(frame, token, token);
}

fn variable_type(row: Row, otherwise: u32) -> u32
    ensures { result ≡ variable_type row otherwise }
{
    match row {
        Row::Name(NameRow::Variable { of, .. }) => of,
        Row::Name(NameRow::Bound { of, .. }) => of,
        Row::Name(NameRow::Field { of, .. }) => of,
        Row::Name(NameRow::Tag { of, .. }) => of,
        _ => otherwise,
    }
}

fn type_found(tables: &Tables, found: Option<Found>, otherwise: u32) -> u32
    ensures { result ≡ type_found tables.now found otherwise }
{
    match found {
        None => otherwise,
        Some(found) => variable_type(tables.row(found.definition.token), otherwise),
    }
}

/// The type of the variable, the parameter or the field that a name stands for, and else the name's own token.
#[tactic(auto, using(check_steps::proofs::Runs::steps), unfolding(crate::specs::Accesses::named_variable))]
pub fn use_variable(work: &mut Work, frame: u32, name: u32) -> u32
    ensures { Does (named_variable frame name) result work.old work.new }
{
    let found = work.use_at(frame, name, name);
    type_found(&work.tables, found, name)
}

fn component_type(row: Option<TypeRow>, unknown: u32) -> u32
    ensures { result ≡ component_type row unknown }
{
    match row {
        Some(TypeRow::Array { component, .. }) => component,
        Some(TypeRow::Conformant { component, .. }) => component,
        _ => unknown,
    }
}

fn domain_type(row: Option<TypeRow>, unknown: u32) -> u32
    ensures { result ≡ domain_type row unknown }
{
    match row {
        Some(TypeRow::Pointer { domain }) => domain,
        _ => unknown,
    }
}

fn type_defined(tables: &Tables, definition: Option<Definition>, unknown: u32) -> u32
    ensures { result ≡ type_defined tables.now definition unknown }
{
    match definition {
        None => unknown,
        Some(definition) => variable_type(tables.row(definition.token), unknown),
    }
}

fn field_type(tables: &Tables, row: Option<TypeRow>, name: u32, unknown: u32) -> u32
    ensures { result ≡ field_type tables.now row name unknown }
{
    match row {
        Some(TypeRow::Record { region, .. }) => {
            type_defined(tables, tables.defined_in(region, name), unknown)
        }
        _ => unknown,
    }
}

/// The type of the components of an array type, and else a number at which no type stands.
#[tactic(auto, using(check_steps::proofs::Runs::steps), unfolding(crate::specs::Accesses::indexed_type))]
pub fn component(work: &mut Work, unknown: u32, kind: u32) -> u32
    ensures { Does (indexed_type unknown kind) result work.old work.new }
{
    component_type(work.tables.type_row(kind), unknown)
}

/// The type of the field that a token names in a record type, and else a number at which no type stands.
#[tactic(auto, using(check_steps::proofs::Runs::steps), unfolding(crate::specs::Accesses::field))]
pub fn field(work: &mut Work, unknown: u32, kind: u32, token: u32) -> u32
    ensures { Does (field unknown kind token) result work.old work.new }
{
    let row = work.tables.type_row(kind);
    field_type(&work.tables, row, work.tables.name(token), unknown)
}

/// The type of what the values of a pointer type point to, and else a number at which no type stands.
#[tactic(auto, using(check_steps::proofs::Runs::steps), unfolding(crate::specs::Accesses::domain))]
pub fn domain(work: &mut Work, unknown: u32, kind: u32) -> u32
    ensures { Does (domain unknown kind) result work.old work.new }
{
    domain_type(work.tables.type_row(kind), unknown)
}
