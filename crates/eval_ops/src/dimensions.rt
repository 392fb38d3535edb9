//! What the tables say of conformant arrays, and of the arrays that may be their actuals (6.6.3.7, 6.6.3.8).

ghost use Rattle.std.specs.Prelude.{◌++◌, ◌≡◌, [], IfErr, IfOk, OnOk, drop, option_map};
ghost use Rattle.core_program.specs.{Accesses.is_conformant as conforms, ProgramRows.type_at};
ghost use Rattle.core_program.specs.Conformant as action;
ghost use Rattle.eval_ops.specs.{Arrays.size_in, Conformant.spec_parts, Machines.Gives};
ghost use Rattle.eval_ops.specs.Conformant.{and_specs, array_types, dimensions, dimensions_meant, no_dimensions};

use crate::arrays::size_of;
use crate::halt::Halt;
use core_program::rows::TypeRow;
use core_program::{Extent, HeldSpec, Program};
use std::alloc::{AllocError, Global};

/// What the tables say of a conformant array: its specs from the outermost inward, the type of a component of the
/// innermost, and the cells of that.
#[derive(Drop)]
pub struct Dimensions {
    pub specs: Vec<HeldSpec>,
    pub component: u32,
    pub size: u32,
}

/// Whether a type is that of a conformant array.
pub fn is_conformant(program: &Program, of: u32) -> bool
    ensures { result ≡ conforms program.now of }
{
    match program.type_row(of) {
        Some(TypeRow::Conformant { .. }) => true,
        _ => false,
    }
}

/// The bounds of an ordinal type.
fn extent_in(row: Option<TypeRow>) -> Option<Extent>
    ensures { result ≡ action.extent_in row }
{
    match row {
        Some(TypeRow::Ordinal { least, greatest }) => Some(Extent { least, greatest }),
        Some(
            TypeRow::Subrange {
                least,
                greatest,
                ..
            },
        ) => Some(Extent { least, greatest }),
        _ => None,
    }
}

/// The type of the spec, the component type and the place of the least bound, of a type that is a conformant array.
fn spec_parts(row: Option<TypeRow>) -> Option<(u32, u32, u32)>
    ensures { result ≡ spec_parts row }
{
    match row {
        Some(
            TypeRow::Conformant {
                index,
                component,
                place,
                ..
            },
        ) => Some((index, component, place)),
        _ => None,
    }
}

/// The dimensions of an array with these specs, by the type of its components, if that is there.
fn dimensions_over(program: &Program, specs: Vec<HeldSpec>, component: u32) -> Option<Dimensions>
    ensures { option_map dimensions result ≡ and_specs specs.items (no_dimensions component
        (size_in (type_at program.now component))) }
{
    let size = size_of(program, component)?;
    Some(Dimensions {
        specs,
        component,
        size,
    })
}

/// The dimensions of a type. One that is no conformant array has none, and is itself a component.
fn dimensions_of(
    alloc: Global,
    program: &Program,
    of: u32,
) -> Result<Option<Dimensions>, AllocError>
    ensures { IfOk result (λ d. option_map dimensions d ≡ action.dimensions_of program.now of) }
{
    let mut specs = Vec::new(alloc);
    let mut at = of;
    'specs: for _passed in 0..program.rows() {
        let Some((index, component, place)) = spec_parts(program.type_row(at)) else {
            return Ok(dimensions_over(program, specs, at));
        };
        let Some(within) = extent_in(program.type_row(index)) else {
            return Ok(None);
        };
        specs.push(HeldSpec { within, place })?;
        at = component;
    }
    Ok(None)
}

/// The same, where a program has them. Where the tables are not whole, which never comes of a program, it counts as
/// out of memory.
pub fn dimensions_meant(alloc: Global, program: &Program, of: u32) -> Result<Dimensions, Halt>
    ensures meant { Gives dimensions (dimensions_meant program.now of) result }
    ensures memory { IfErr result (λ e. e ≡ Halt.Memory) }
{
    match dimensions_of(alloc, program, of)? {
        Some(dimensions) => Ok(dimensions),
        None => Err(Halt::Memory),
    }
}

/// The index type and the component type of an array.
fn array_types(row: Option<TypeRow>) -> Option<(u32, u32)>
    ensures { result ≡ array_types row }
{
    match row {
        Some(
            TypeRow::Array {
                index,
                component,
                ..
            },
        ) => Some((index, component)),
        _ => None,
    }
}

/// Puts an extent at the end, if there is one.
fn add_extent(extents: &mut Vec<Extent>, extent: Option<Extent>) -> Result<(), AllocError>
    ensures { OnOk result (extents.new.items ≡ extents.old.items ++ action.extent_before extent []) }
{
    match extent {
        Some(extent) => {
            extents.push(extent)?;
            Ok(())
        }
        None => Ok(()),
    }
}

/// Puts the extents of a type at the end, from the outermost inward: at most one for each of these specs from a place
/// on.
pub(crate) fn add_fixed_extents(
    program: &Program,
    extents: &mut Vec<Extent>,
    schema: &[HeldSpec],
    from: usize,
    of: u32,
) -> Result<(), AllocError>
    ensures { OnOk result (extents.new.items ≡ extents.old.items
        ++ action.fixed_extents program.now (drop from schema.now) (type_at program.now of)) }
{
    let mut at = of;
    'specs: for _passed in from..schema.len() {
        let Some((index, component)) = array_types(program.type_row(at)) else {
            return Ok(());
        };
        add_extent(extents, extent_in(program.type_row(index)))?;
        at = component;
    }
    Ok(())
}

/// The extents of an array of a fixed type, for the specs of a schema.
pub(crate) fn fixed_extents(
    alloc: Global,
    program: &Program,
    schema: &[HeldSpec],
    of: u32,
) -> Result<Vec<Extent>, AllocError>
    ensures { IfOk result (λ es. es.items ≡ action.fixed_extents program.now schema.now (type_at program.now of)) }
{
    let mut extents = Vec::new(alloc);
    add_fixed_extents(program, &mut extents, schema, 0, of)?;
    Ok(extents)
}

/// For the further specs of a schema, the extents of the components of a conformant array.
pub(crate) fn add_inner_extents(
    program: &Program,
    extents: &mut Vec<Extent>,
    array: &Dimensions,
    schema: &[HeldSpec],
) -> Result<(), AllocError>
    ensures { OnOk result (extents.new.items ≡ extents.old.items
        ++ action.inner_extents program.now (dimensions array.now) schema.now) }
{
    add_fixed_extents(program, extents, schema, array.specs.len(), array.component)?;
    Ok(())
}
