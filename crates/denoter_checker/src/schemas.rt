//! Schemas of conformant parameters (6.6.3.7.1): their bounds, and the types of their arrays.

ghost use Rattle.std.specs.Prelude.{◌≡◌, IfOk};
ghost use Rattle.pas_tree.specs.SchemaTrees.{formal_type_tree, schema_tree};
ghost use Rattle.check_steps.specs.Steps.{Does, each};
ghost use Rattle.denoter_checker.specs.Schemas.{after_bounds, bound_row, close_spec, define_bounds, define_next_spec};
ghost use Rattle.denoter_checker.specs.Schemas.{define_schema, define_spec, formal_type, mode_in, next_spec, open_spec};
ghost use Rattle.denoter_checker.specs.Schemas.{schema_type};

use check_steps::Work;
use core_program::rows::{Mode, NameRow, Row, TypeRow};
use kind_checker::names::{NameKind, define_name};
use kind_checker::sizes::place_after;
use kind_checker::types::{check_named_type, check_ordinal};
use pas_tree::schemas::{FormalType, NextSpec, Schema, Spec};
use std::alloc::AllocError;

/// A type of parameters, and the place in a frame after the cells of its bounds.
#[derive(Clone, Copy)]
pub struct PlacedType {
    pub of: u32,
    pub place: u32,
}

/// A spec of which the component type is not yet known: where the type of its array stands, the spec's type, and the
/// place of the cell with its least index.
#[derive(Clone, Copy)]
pub struct OpenSpec {
    pub slot: u32,
    pub index: u32,
    pub place: u32,
}

#[tactic(auto, using(check_steps::proofs::Runs::steps), unfolding(crate::specs::Schemas::define_spec))]
fn define_spec(work: &mut Work, region: u32, spec: &Spec) -> Result<(), AllocError>
    ensures { IfOk result (λ _. Does (define_spec region spec.now) tt work.old work.new) }
{
    define_name(work, region, NameKind::Formal, spec.least)?;
    define_name(work, region, NameKind::Formal, spec.greatest)?;
    Ok(())
}

#[tactic(auto, unfolding(crate::specs::Schemas::define_next_spec))]
fn define_next_spec(work: &mut Work, region: u32, next: &NextSpec) -> Result<(), AllocError>
    ensures { IfOk result (λ _. Does (define_next_spec region tt next.now) tt work.old work.new) }
{
    define_spec(work, region, &next.spec)
}

#[tactic(auto, using(check_steps::proofs::Runs::read_loops))]
fn define_other_specs(work: &mut Work, region: u32, others: &[NextSpec]) -> Result<(), AllocError>
    ensures { IfOk result (λ _. Does (each (define_next_spec region) tt others.now) tt work.old work.new) }
{
    'others: for other in others {
        define_next_spec(work, region, other)?;
    }
    Ok(())
}

/// Defines the bounds of the type of a section of parameters in a region.
#[cycle(bounds)]
#[tactic(auto, using(check_steps::proofs::Runs::steps))]
pub(crate) fn define_bounds(work: &mut Work, region: u32, of: &FormalType) -> Result<(), AllocError>
    ensures { IfOk result (λ _. Does (define_bounds region (formal_type_tree of.now)) tt work.old work.new) }
{
    match of {
        FormalType::Name(_) => Ok(()),
        FormalType::Schema(schema) => define_schema(work, region, schema),
    }
}

#[cycle(bounds)]
#[tactic(auto, using(check_steps::proofs::Runs::steps))]
fn define_schema(work: &mut Work, region: u32, schema: &Schema) -> Result<(), AllocError>
    ensures { IfOk result (λ _. Does (define_schema region (schema_tree schema.now)) tt work.old work.new) }
{
    match schema {
        Schema::Packed(packed) => define_spec(work, region, &packed.spec),
        Schema::Unpacked(unpacked) => {
            define_spec(work, region, &unpacked.specs.first)?;
            define_other_specs(work, region, &unpacked.specs.others)?;
            define_bounds(work, region, &unpacked.component)
        }
    }
}

/// The row of a bound.
fn bound_row(level: u32, of: u32, place: u32) -> Row
    ensures { result ≡ bound_row level of place }
{
    Row::Name(NameRow::Bound { of, place, level })
}

/// A spec, and what its bounds are.
#[tactic(auto, using(check_steps::proofs::Runs::steps), unfolding(crate::specs::Schemas::open_spec))]
fn open_spec(work: &mut Work, frame: u32, level: u32, slot: u32, at: u32, spec: &Spec) -> OpenSpec
    ensures { Does (open_spec frame level slot at spec.now) result work.old work.new }
{
    let named = check_named_type(work, frame, spec.of);
    let index = check_ordinal(work, spec.of, spec.of, named);
    work.put(spec.least, bound_row(level, index, at));
    work.put(spec.greatest, bound_row(level, index, place_after(at, 1)));
    OpenSpec {
        slot,
        index,
        place: at,
    }
}

/// The type of the array of a spec, whose component type is known.
#[tactic(auto, using(check_steps::proofs::Runs::steps), unfolding(crate::specs::Schemas::close_spec))]
fn close_spec(work: &mut Work, packed: bool, spec: OpenSpec, component: u32)
    ensures { Does (close_spec packed spec component) tt work.old work.new }
{
    let row = TypeRow::Conformant {
        packed,
        index: spec.index,
        component,
        place: spec.place,
    };
    work.put(spec.slot, Row::Type(row));
}

fn after_bounds(spec: OpenSpec) -> u32
    ensures { result ≡ after_bounds spec }
{
    place_after(spec.place, 2)
}

#[tactic(auto, using(check_steps::proofs::Runs::steps), unfolding(crate::specs::Schemas::next_spec))]
fn check_next_spec(
    work: &mut Work,
    frame: u32,
    level: u32,
    spec: OpenSpec,
    next: &NextSpec,
) -> OpenSpec
    ensures { Does (next_spec frame level spec next.now) result work.old work.new }
{
    close_spec(work, false, spec, next.semicolon);
    open_spec(
        work,
        frame,
        level,
        next.semicolon,
        after_bounds(spec),
        &next.spec,
    )
}

/// The specs after the first; the last one is given.
#[tactic(auto, using(check_steps::proofs::Runs::read_loops))]
fn check_other_specs(
    work: &mut Work,
    frame: u32,
    level: u32,
    first: OpenSpec,
    others: &[NextSpec],
) -> OpenSpec
    ensures { Does (each (next_spec frame level) first others.now) result work.old work.new }
{
    let mut last = first;
    'others: for other in others {
        last = check_next_spec(work, frame, level, last, other);
    }
    last
}

/// The type of a section of parameters, whose bounds stand in a frame from a place on.
#[cycle(types)]
#[tactic(auto, using(check_steps::proofs::Runs::steps))]
pub(crate) fn check_formal_type(
    work: &mut Work,
    frame: u32,
    level: u32,
    at: u32,
    of: &FormalType,
) -> PlacedType
    ensures { Does (formal_type frame level at (formal_type_tree of.now)) result work.old work.new }
{
    match of {
        FormalType::Name(name) => PlacedType {
            of: check_named_type(work, frame, *name),
            place: at,
        },
        FormalType::Schema(schema) => check_schema(work, frame, level, at, schema),
    }
}

#[cycle(types)]
#[tactic(auto, using(check_steps::proofs::Runs::steps))]
fn check_schema(work: &mut Work, frame: u32, level: u32, at: u32, schema: &Schema) -> PlacedType
    ensures { Does (schema_type frame level at (schema_tree schema.now)) result work.old work.new }
{
    match schema {
        Schema::Packed(packed) => {
            let spec = open_spec(work, frame, level, packed.open, at, &packed.spec);
            let component = check_named_type(work, frame, packed.component);
            close_spec(work, true, spec, component);
            PlacedType {
                of: packed.open,
                place: after_bounds(spec),
            }
        }
        Schema::Unpacked(unpacked) => {
            let first = open_spec(work, frame, level, unpacked.open, at, &unpacked.specs.first);
            let last = check_other_specs(work, frame, level, first, &unpacked.specs.others);
            let place = after_bounds(last);
            let component = check_formal_type(work, frame, level, place, &unpacked.component);
            close_spec(work, false, last, component.of);
            PlacedType {
                of: unpacked.open,
                place: component.place,
            }
        }
    }
}

/// How a frame holds a parameter of a section that is by value or not.
pub(crate) fn mode_in(mode: Mode, of: &FormalType) -> Mode
    ensures { result ≡ mode_in mode (formal_type_tree of.now) }
{
    match (mode, of) {
        (Mode::Value, FormalType::Schema(_)) => Mode::Copy,
        _ => mode,
    }
}
