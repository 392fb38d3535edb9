//! Arrays as actuals of conformant parameters: the bounds and the values that they pass (6.6.3.7, 6.6.3.8).

ghost use Rattle.std.specs.Prelude.{◌≡◌};
ghost use Rattle.core_program.specs.{Actions.Give, Actions.performs, Expressions.text_whole, ProgramRows.type_at};
ghost use Rattle.core_program.specs.Conformant as action;
ghost use Rattle.eval_ops.specs.Arrays.{size_in};
ghost use Rattle.eval_ops.specs.Conformant as arrays;
ghost use Rattle.eval_ops.specs.Machines.{DoesAll, Gives, IsReady, machine_state, moment_of};

use crate::arrays::size_of;
use crate::cells::{add_value, read_cells};
use crate::conformant::{ArrayWhole, extents_at, lies_in, whole_at};
use crate::dimensions::{add_inner_extents, dimensions_meant, fixed_extents};
use crate::halt::Halt;
use crate::machine::Machine;
use cell_value::{Cells, Kind, Value};
use core_program::{Extent, HeldSpec, Program};
use std::alloc::Global;

/// What is passed of an array by value: bounds, and the values of its cells.
#[derive(Drop)]
pub struct ArrayActual {
    pub bounds: Cells,
    pub cells: Cells,
}

/// The extents of a conformant array for the specs of a schema.
fn conformant_extents(
    alloc: Global,
    program: &Program,
    machine: &mut Machine,
    schema: &[HeldSpec],
    of: u32,
    frame: u32,
) -> Result<Vec<Extent>, Halt>
    requires ready { IsReady machine.old }
    ensures action { DoesAll (λ es. es.items) (performs (arrays.conformant_extents program.now schema.now of frame)
        (machine_state machine.old)) result (moment_of machine.old) (moment_of machine.new) }
    ensures ready { IsReady machine.new }
{
    let array = dimensions_meant(alloc, program, of)?;
    let mut extents = extents_at(alloc, machine, &array.specs, frame)?;
    add_inner_extents(program, &mut extents, &array, schema)?;
    Ok(extents)
}

/// The same array as a value.
fn conformant_copied(
    alloc: Global,
    program: &Program,
    machine: &mut Machine,
    schema: &[HeldSpec],
    of: u32,
    addr: u32,
    frame: u32,
) -> Result<ArrayWhole, Halt>
    requires ready { IsReady machine.old }
    ensures action { DoesAll arrays.whole (performs (arrays.conformant_copied program.now schema.now of addr frame)
        (machine_state machine.old)) result (moment_of machine.old) (moment_of machine.new) }
    ensures ready { IsReady machine.new }
{
    let array = dimensions_meant(alloc, program, of)?;
    let mut whole = whole_at(alloc, machine, &array, addr, frame)?;
    add_inner_extents(program, &mut whole.extents, &array, schema)?;
    Ok(whole)
}

/// How many cells an array of a fixed type has.
fn size_meant(program: &Program, of: u32) -> Result<u32, Halt>
    ensures { Gives (λ n. n) (arrays.or_not_meant (size_in (type_at program.now of))) result }
{
    match size_of(program, of) {
        Some(size) => Ok(size),
        None => Err(Halt::Memory),
    }
}

/// An array of a fixed type as a value.
fn fixed_copied(
    alloc: Global,
    program: &Program,
    machine: &mut Machine,
    schema: &[HeldSpec],
    of: u32,
    addr: u32,
) -> Result<ArrayWhole, Halt>
    requires ready { IsReady machine.old }
    ensures action { DoesAll arrays.whole (performs (arrays.fixed_copied program.now schema.now of addr)
        (machine_state machine.old)) result (moment_of machine.old) (moment_of machine.new) }
    ensures ready { IsReady machine.new }
{
    let size = size_meant(program, of)?;
    let cells = read_cells(alloc, machine, addr, size)?;
    let extents = fixed_extents(alloc, program, schema, of)?;
    Ok(ArrayWhole { extents, cells })
}

/// A string as a value. It has the indices from 1 on.
fn text_whole(alloc: Global, cells: Cells) -> Result<ArrayWhole, Halt>
    ensures { Gives arrays.whole (Give (text_whole cells)) result }
{
    let length = cells.len();
    if length > 2_147_483_647 {
        return Err(Halt::Memory);
    }
    let mut extents = Vec::new(alloc);
    extents.push(Extent {
        least: 1,
        greatest: length as i32,
    })?;
    Ok(ArrayWhole { extents, cells })
}

/// Whether each of these extents lies in the type of a spec, of which there may be more.
fn all_lie_in(extents: &[Extent], schema: &[HeldSpec]) -> bool
    ensures { result ≡ action.all_lie_in extents.now schema.now }
{
    'extents: for (place, extent) in extents.iter().enumerate() {
        match schema.get(place) {
            Some(spec) => {
                if !lies_in(*extent, spec.within) {
                    return false;
                }
            }
            None => return false,
        }
    }
    true
}

/// The bounds of extents as values, the least before the greatest, outermost first.
fn bound_values(alloc: Global, extents: &[Extent]) -> Result<Cells, Halt>
    ensures { Gives (λ vs. vs) (Give (action.bound_values extents.now)) result }
{
    let mut values = Cells::new(alloc);
    'extents: for extent in extents {
        add_value(&mut values, Value::Number(i64::from(extent.least)))?;
        add_value(&mut values, Value::Number(i64::from(extent.greatest)))?;
    }
    Ok(values)
}

/// The bounds that an actual passes which has these extents: the first one of its section its own, and a further one
/// none. Where one of them is no value of its spec's type, it is the fault `OutOfRange`.
fn bounds_passed(
    alloc: Global,
    first: bool,
    schema: &[HeldSpec],
    extents: &[Extent],
) -> Result<Cells, Halt>
    ensures { Gives (λ vs. vs) (arrays.bounds_passed first schema.now extents.now) result }
{
    if !first {
        return Ok(Cells::new(alloc));
    }
    if !all_lie_in(extents, schema) {
        return Err(Halt::Fault(Kind::OutOfRange));
    }
    bound_values(alloc, extents)
}

/// An array with its bounds as an actual by value.
fn whole_passed(
    alloc: Global,
    first: bool,
    schema: &[HeldSpec],
    whole: ArrayWhole,
) -> Result<ArrayActual, Halt>
    ensures { Gives arrays.actual (arrays.whole_passed first schema.now (arrays.whole whole)) result }
{
    let bounds = bounds_passed(alloc, first, schema, &whole.extents)?;
    Ok(ArrayActual {
        bounds,
        cells: whole.cells,
    })
}

/// The bounds that a conformant array of a type passes to a parameter `of` a type, where the frame at a base has its
/// own. They are read, and those of the first actual of a section are then tested.
pub fn place_bounds(
    alloc: Global,
    program: &Program,
    machine: &mut Machine,
    first: bool,
    of: u32,
    actual: u32,
    frame: u32,
) -> Result<Cells, Halt>
    requires ready { IsReady machine.old }
    ensures action { DoesAll (λ vs. vs) (performs (arrays.place_bounds program.now first of actual frame)
        (machine_state machine.old)) result (moment_of machine.old) (moment_of machine.new) }
    ensures ready { IsReady machine.new }
{
    let schema = dimensions_meant(alloc, program, of)?;
    let extents = conformant_extents(alloc, program, machine, &schema.specs, actual, frame)?;
    let bounds = bounds_passed(alloc, first, &schema.specs, &extents)?;
    Ok(bounds)
}

/// The same of an array of a fixed type.
pub fn fixed_bounds(
    alloc: Global,
    program: &Program,
    first: bool,
    of: u32,
    actual: u32,
) -> Result<Cells, Halt>
    ensures { Gives (λ vs. vs) (arrays.fixed_bounds program.now first of actual) result }
{
    let schema = dimensions_meant(alloc, program, of)?;
    let extents = fixed_extents(alloc, program, &schema.specs, actual)?;
    bounds_passed(alloc, first, &schema.specs, &extents)
}

/// A conformant array of a type, at an address, as an actual by value.
pub fn conformant_actual(
    alloc: Global,
    program: &Program,
    machine: &mut Machine,
    first: bool,
    of: u32,
    actual: u32,
    addr: u32,
    frame: u32,
) -> Result<ArrayActual, Halt>
    requires ready { IsReady machine.old }
    ensures action { DoesAll arrays.actual (performs (arrays.conformant_actual program.now first of actual addr frame)
        (machine_state machine.old)) result (moment_of machine.old) (moment_of machine.new) }
    ensures ready { IsReady machine.new }
{
    let schema = dimensions_meant(alloc, program, of)?;
    let whole = conformant_copied(alloc, program, machine, &schema.specs, actual, addr, frame)?;
    let passed = whole_passed(alloc, first, &schema.specs, whole)?;
    Ok(passed)
}

/// An array of a fixed type, at an address, as an actual by value.
pub fn fixed_actual(
    alloc: Global,
    program: &Program,
    machine: &mut Machine,
    first: bool,
    of: u32,
    actual: u32,
    addr: u32,
) -> Result<ArrayActual, Halt>
    requires ready { IsReady machine.old }
    ensures action { DoesAll arrays.actual (performs (arrays.fixed_actual program.now first of actual addr)
        (machine_state machine.old)) result (moment_of machine.old) (moment_of machine.new) }
    ensures ready { IsReady machine.new }
{
    let schema = dimensions_meant(alloc, program, of)?;
    let whole = fixed_copied(alloc, program, machine, &schema.specs, actual, addr)?;
    let passed = whole_passed(alloc, first, &schema.specs, whole)?;
    Ok(passed)
}

/// A string as an actual by value.
pub fn text_actual(
    alloc: Global,
    program: &Program,
    first: bool,
    of: u32,
    cells: Cells,
) -> Result<ArrayActual, Halt>
    ensures { Gives arrays.actual (arrays.text_actual program.now first of cells) result }
{
    let schema = dimensions_meant(alloc, program, of)?;
    let whole = text_whole(alloc, cells)?;
    whole_passed(alloc, first, &schema.specs, whole)
}
