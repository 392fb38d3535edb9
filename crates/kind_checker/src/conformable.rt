//! What conforms to the schema of a conformant parameter (6.6.3.8), and which actuals have one type (6.6.3.7.1).

ghost use Rattle.std.specs.Prelude.{◌≡◌, length};
ghost use Rattle.kind_checker.specs.Conformable as conformable;

use crate::operators::is_unknown_shape;
use crate::shapes::{ExpressionType, agree, is_same_type, shape_of};
use check_steps::Tables;
use core_program::rows::{CHAR, INTEGER, TypeRow};
use core_program::same_packing;

/// Whether a type is that of the array of a conformant parameter.
pub fn is_conformant(row: Option<TypeRow>) -> bool
    ensures { result ≡ conformable.is_conformant row }
{
    match row {
        Some(TypeRow::Conformant { .. }) => true,
        _ => false,
    }
}

/// Whether an index type is compatible with the type of a spec.
fn indices_agree(tables: &Tables, index: u32, spec: u32) -> bool
    ensures { result ≡ conformable.indices_agree tables.now index spec }
{
    agree(
        shape_of(tables, ExpressionType::Of(index)),
        shape_of(tables, ExpressionType::Of(spec)),
    )
}

/// The component types of an array and of a schema whose first spec it fits.
fn fitted(
    tables: &Tables,
    packed: bool,
    index: u32,
    component: u32,
    schema: Option<TypeRow>,
) -> Option<(u32, u32)>
    ensures { result ≡ conformable.fitted tables.now packed index component schema }
{
    match schema {
        Some(
            TypeRow::Conformant {
                packed: wanted,
                index: spec,
                component: inner,
                ..
            },
        ) => {
            if same_packing(packed, wanted) && indices_agree(tables, index, spec) {
                Some((component, inner))
            } else {
                None
            }
        }
        _ => None,
    }
}

fn components_fitted(
    tables: &Tables,
    row: Option<TypeRow>,
    schema: Option<TypeRow>,
) -> Option<(u32, u32)>
    ensures { result ≡ conformable.components_fitted tables.now row schema }
{
    match row {
        Some(
            TypeRow::Array {
                packed,
                index,
                component,
                ..
            },
        ) => fitted(tables, packed, index, component, schema),
        Some(
            TypeRow::Conformant {
                packed,
                index,
                component,
                ..
            },
        ) => fitted(tables, packed, index, component, schema),
        _ => None,
    }
}

/// Whether a type conforms to a schema, spec by spec.
#[tactic(auto, using(crate::proofs::Conforming::conforms_onward))]
fn conforms(tables: &Tables, kind: u32, schema: u32) -> bool
    ensures { result ≡ conformable.conforms (length tables.now.words) tables.now kind schema }
{
    let mut at = kind;
    let mut wanted = schema;
    'specs: for _passed in 0..tables.tokens() {
        if tables.type_row(at).is_none() {
            return true;
        }
        let Some((component, inner)) = components_fitted(
            tables,
            tables.type_row(at),
            tables.type_row(wanted),
        ) else {
            return false;
        };
        if is_same_type(tables, component, inner) {
            return true;
        }
        at = component;
        wanted = inner;
    }
    false
}

/// Whether a string of two characters or more conforms to a schema.
fn text_conforms(tables: &Tables, schema: Option<TypeRow>) -> bool
    ensures { result ≡ conformable.text_conforms tables.now schema }
{
    match schema {
        Some(
            TypeRow::Conformant {
                packed,
                index,
                component,
                ..
            },
        ) => {
            packed && indices_agree(tables, INTEGER, index) && is_same_type(tables, CHAR, component)
        }
        _ => false,
    }
}

/// Whether a value of a type may be an actual where a schema stands.
pub fn is_conformable(tables: &Tables, schema: u32, of: ExpressionType) -> bool
    ensures { result ≡ conformable.is_conformable tables.now schema of }
{
    match of {
        ExpressionType::Unknown => true,
        ExpressionType::Of(kind) => conforms(tables, kind, schema),
        ExpressionType::Text(_) => text_conforms(tables, tables.type_row(schema)),
        _ => false,
    }
}

/// Whether two actuals have one type. String constants of one length have one among themselves.
fn is_one_type(measure: ExpressionType, of: ExpressionType) -> bool
    ensures { result ≡ conformable.is_one_type measure of }
{
    match (measure, of) {
        (ExpressionType::Of(left), ExpressionType::Of(right)) => left == right,
        (ExpressionType::Text(left), ExpressionType::Text(right)) => left == right,
        _ => false,
    }
}

fn is_unknown(tables: &Tables, of: ExpressionType) -> bool
    ensures { result ≡ conformable.is_unknown tables.now of }
{
    is_unknown_shape(shape_of(tables, of))
}

/// Whether an actual has the type by which its section is measured.
pub fn is_measured(tables: &Tables, measure: ExpressionType, of: ExpressionType) -> bool
    ensures { result ≡ conformable.is_measured tables.now measure of }
{
    is_unknown(tables, measure) || is_unknown(tables, of) || is_one_type(measure, of)
}

/// The type by which a section is measured after a further actual: that of the first one of which it is known.
pub fn measure_after(tables: &Tables, measure: ExpressionType, of: ExpressionType) -> ExpressionType
    ensures { result ≡ conformable.measure_after tables.now measure of }
{
    if is_unknown(tables, measure) {
        of
    } else {
        measure
    }
}
