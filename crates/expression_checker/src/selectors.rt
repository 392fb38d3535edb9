//! Selectors, once their parts are checked (6.5.3, 6.5.4).

ghost use Rattle.std.specs.Prelude.{◌≡◌};
ghost use Rattle.check_steps.specs.Steps.{Does};
ghost use Rattle.expression_checker.specs.Selectors.{component_at, dereference_row, dereferenced, domain_at};
ghost use Rattle.expression_checker.specs.Selectors.{field_access, field_defined, field_named, field_of_row, field_row};
ghost use Rattle.expression_checker.specs.Selectors.{has_field, index_row, indexed, is_array, is_index, is_pointer};
ghost use Rattle.expression_checker.specs.Selectors.{is_record, selected_field, type_number, type_row};

use crate::names::component_if;
use crate::typed::{Location, Typed, unknown_at};
use check_steps::{Definition, Tables, Work};
use core_program::rows::{AccessRow, NameRow, Row, TypeRow};
use kind_checker::ExpressionType;
use kind_checker::shapes::is_assignable;

/// A field of a record.
#[derive(Clone, Copy)]
pub struct SelectedField {
    /// The token of its definition, which is its number.
    pub token: u32,
    pub of: u32,
    pub location: Location,
}

/// The type of an access by its row, and None where it is unknown.
pub fn type_row(tables: &Tables, of: ExpressionType) -> Option<TypeRow>
    ensures { result ≡ type_row tables.now of }
{
    match of {
        ExpressionType::Of(kind) => tables.type_row(kind),
        _ => None,
    }
}

fn type_number(of: ExpressionType) -> u32
    ensures { result ≡ type_number of }
{
    match of {
        ExpressionType::Of(kind) => kind,
        _ => 0,
    }
}

fn is_array(row: Option<TypeRow>) -> bool
    ensures { result ≡ is_array row }
{
    match row {
        None => true,
        Some(TypeRow::Array { .. }) => true,
        Some(TypeRow::Conformant { .. }) => true,
        Some(_) => false,
    }
}

fn is_index(tables: &Tables, row: Option<TypeRow>, of: ExpressionType) -> bool
    ensures { result ≡ is_index tables.now row of }
{
    match row {
        Some(TypeRow::Array { index, .. }) => is_assignable(tables, index, of),
        Some(TypeRow::Conformant { index, .. }) => is_assignable(tables, index, of),
        _ => true,
    }
}

fn index_row(row: Option<TypeRow>, place: Typed, index: Typed) -> Row
    ensures { result ≡ index_row row place index }
{
    match row {
        Some(TypeRow::Array { component, .. }) => Row::Access(AccessRow::Index {
            access: place.row,
            index: index.row,
            array: type_number(place.of),
            of: component,
        }),
        Some(TypeRow::Conformant { component, .. }) => Row::Access(AccessRow::Component {
            access: place.row,
            index: index.row,
            array: type_number(place.of),
            of: component,
        }),
        _ => Row::Nothing,
    }
}

fn component_at(row: Option<TypeRow>, bracket: u32) -> Typed
    ensures { result ≡ component_at row bracket }
{
    match row {
        Some(
            TypeRow::Array {
                packed,
                component,
                ..
            },
        ) => Typed {
            row: bracket,
            of: ExpressionType::Of(component),
            location: component_if(packed),
        },
        Some(
            TypeRow::Conformant {
                packed,
                component,
                ..
            },
        ) => Typed {
            row: bracket,
            of: ExpressionType::Of(component),
            location: component_if(packed),
        },
        _ => unknown_at(bracket),
    }
}

/// An index, at its bracket or comma, which begins at a first token.
#[tactic(auto, using(check_steps::proofs::Runs::steps), unfolding(crate::specs::Selectors::indexed))]
pub fn check_indexed(work: &mut Work, place: Typed, bracket: u32, first: u32, index: Typed) -> Typed
    ensures { Does (indexed place bracket first index) result work.old work.new }
{
    let row = type_row(&work.tables, place.of);
    work.late(23, bracket, is_array(row));
    let fine = is_index(&work.tables, row, index.of);
    work.late(25, first, fine);
    work.put(bracket, index_row(row, place, index));
    component_at(row, bracket)
}

/// Whether a type is a record, if it is known.
pub fn is_record(row: Option<TypeRow>) -> bool
    ensures { result ≡ is_record row }
{
    match row {
        None => true,
        Some(TypeRow::Record { .. }) => true,
        Some(_) => false,
    }
}

fn field_of_row(packed: bool, token: u32, row: Row) -> Option<SelectedField>
    ensures { result ≡ field_of_row packed token row }
{
    match row {
        Row::Name(NameRow::Field { of, .. }) => Some(SelectedField {
            token,
            of,
            location: component_if(packed),
        }),
        Row::Name(NameRow::Tag { of, .. }) => Some(SelectedField {
            token,
            of,
            location: Location::Component,
        }),
        _ => None,
    }
}

fn field_defined(
    tables: &Tables,
    packed: bool,
    definition: Option<Definition>,
) -> Option<SelectedField>
    ensures { result ≡ field_defined tables.now packed definition }
{
    match definition {
        None => None,
        Some(definition) => field_of_row(packed, definition.token, tables.row(definition.token)),
    }
}

fn field_named(tables: &Tables, row: Option<TypeRow>, name: u32) -> Option<SelectedField>
    ensures { result ≡ field_named tables.now row name }
{
    match row {
        Some(TypeRow::Record { packed, region, .. }) => {
            field_defined(tables, packed, tables.defined_in(region, tables.name(name)))
        }
        _ => None,
    }
}

fn has_field(row: Option<TypeRow>, field: Option<SelectedField>) -> bool
    ensures { result ≡ has_field row field }
{
    match row {
        Some(TypeRow::Record { .. }) => field.is_some(),
        _ => true,
    }
}

fn field_row(place: Typed, field: Option<SelectedField>) -> Row
    ensures { result ≡ field_row place field }
{
    match field {
        Some(field) => Row::Access(AccessRow::Field {
            access: place.row,
            field: field.token,
            of: field.of,
        }),
        None => Row::Nothing,
    }
}

fn field_access(name: u32, field: Option<SelectedField>) -> Typed
    ensures { result ≡ field_access name field }
{
    match field {
        Some(field) => Typed {
            row: name,
            of: ExpressionType::Of(field.of),
            location: field.location,
        },
        None => unknown_at(name),
    }
}

/// A field, at its name.
#[tactic(auto, using(check_steps::proofs::Runs::steps), unfolding(crate::specs::Selectors::selected_field))]
pub fn check_selected_field(work: &mut Work, place: Typed, dot: u32, name: u32) -> Typed
    ensures { Does (selected_field place dot name) result work.old work.new }
{
    let row = type_row(&work.tables, place.of);
    work.late(23, dot, is_record(row));
    let field = field_named(&work.tables, row, name);
    work.late(24, name, has_field(row, field));
    work.put(name, field_row(place, field));
    field_access(name, field)
}

fn is_pointer(row: Option<TypeRow>) -> bool
    ensures { result ≡ is_pointer row }
{
    match row {
        None => true,
        Some(TypeRow::Pointer { .. }) => true,
        Some(_) => false,
    }
}

fn dereference_row(row: Option<TypeRow>, place: Typed) -> Row
    ensures { result ≡ dereference_row row place }
{
    match row {
        Some(TypeRow::Pointer { domain }) => Row::Access(AccessRow::Dereference {
            access: place.row,
            of: domain,
        }),
        _ => Row::Nothing,
    }
}

fn domain_at(row: Option<TypeRow>, caret: u32) -> Typed
    ensures { result ≡ domain_at row caret }
{
    match row {
        Some(TypeRow::Pointer { domain }) => Typed {
            row: caret,
            of: ExpressionType::Of(domain),
            location: Location::Variable,
        },
        _ => unknown_at(caret),
    }
}

/// The variable to which a pointer points, at the `^`.
#[tactic(auto, using(check_steps::proofs::Runs::steps), unfolding(crate::specs::Selectors::dereferenced))]
pub fn check_dereferenced(work: &mut Work, place: Typed, caret: u32) -> Typed
    ensures { Does (dereferenced place caret) result work.old work.new }
{
    let row = type_row(&work.tables, place.of);
    work.late(23, caret, is_pointer(row));
    work.put(caret, dereference_row(row, place));
    domain_at(row, caret)
}
