//! Conformant arrays: the bounds that a call gave them, and their components (6.6.3.7, 6.5.3.2).

ghost use Rattle.std.specs.Prelude.{◌∷◌, ◌≡◌, ◌≤◌, [], Some, min};
ghost use Rattle.core_program.specs.Actions.{performs};
ghost use Rattle.core_program.specs.Conformant as action;
ghost use Rattle.eval_ops.specs.Conformant as arrays;
ghost use Rattle.eval_ops.specs.Machines.{DoesAll, Gives, IsReady, machine_state, moment_of};

use crate::cells::{add_value, read_cells};
use crate::dimensions::{Dimensions, dimensions_meant};
use crate::frames::{component, frame_out, moved, referred};
use crate::halt::Halt;
use crate::machine::{Machine, read_cell};
use cell_value::{Cells, Kind, Value};
use core_program::{Components, Extent, HeldSpec, Program};
use std::alloc::Global;

/// A conformant array as a value: its extents from the outermost inward, and the values of its cells.
#[derive(Drop)]
pub struct ArrayWhole {
    pub extents: Vec<Extent>,
    pub cells: Cells,
}

/// The array of the conformant parameter at a place in the frame to which this many links lead from the frame at a
/// base, by its address, and the base of that frame, which has its bounds. Where the cell holds no address, it is the
/// fault `Undefined`, after the read.
pub fn conformant_out(
    machine: &mut Machine,
    levels: u32,
    base: u32,
    place: u32,
) -> Result<(u32, u32), Halt>
    requires ready { IsReady machine.old }
    ensures action { DoesAll (λ x. x) (performs (arrays.conformant_out levels base place)
        (machine_state machine.old)) result (moment_of machine.old) (moment_of machine.new) }
    ensures ready { IsReady machine.new }
{
    let frame = frame_out(machine, levels, base)?;
    let addr = referred(machine, moved(frame, place))?;
    Ok((addr, frame))
}

/// The value in a cell comes to the end of a list.
fn read_onto(machine: &mut Machine, values: &mut Cells, addr: u32) -> Result<(), Halt>
    requires ready { IsReady machine.old }
    ensures action { DoesAll (λ _. values.new) (performs (arrays.read_onto values.old addr) (machine_state machine.old))
        result (moment_of machine.old) (moment_of machine.new) }
    ensures ready { IsReady machine.new }
{
    let value = read_cell(machine, addr)?;
    add_value(values, value)?;
    Ok(())
}

/// The values of the bound cells of specs, in order, in the frame at a base.
fn read_bounds(
    alloc: Global,
    machine: &mut Machine,
    specs: &[HeldSpec],
    frame: u32,
) -> Result<Cells, Halt>
    requires ready { IsReady machine.old }
    ensures action { DoesAll (λ vs. vs) (performs (action.read_each [] (action.bound_cells frame specs.now))
        (machine_state machine.old)) result (moment_of machine.old) (moment_of machine.new) }
    ensures ready { IsReady machine.new }
{
    let mut values = Cells::new(alloc);
    'specs: for spec in specs {
        let cell = moved(frame, spec.place);
        read_onto(machine, &mut values, cell)?;
        read_onto(machine, &mut values, moved(cell, 1))?;
    }
    Ok(values)
}

/// Whether an extent lies in another.
pub(crate) fn lies_in(extent: Extent, within: Extent) -> bool
    ensures { result ≡ action.lies_in extent within }
{
    within.least <= extent.least && extent.greatest <= within.greatest
}

/// Two bounds as an extent, if they are values of the spec's type, the least one at most the greatest.
fn extent_held(spec: HeldSpec, least: Value, greatest: Value) -> Option<Extent>
    ensures { result ≡ action.extent_held spec least greatest }
{
    match (least, greatest) {
        (Value::Number(least), Value::Number(greatest)) => {
            if i64::from(spec.within.least) <= least
                && greatest <= i64::from(spec.within.greatest)
                && least <= greatest
            {
                Some(Extent {
                    least: least as i32,
                    greatest: greatest as i32,
                })
            } else {
                None
            }
        }
        _ => None,
    }
}

/// The extents of specs by the values of their bound cells. Where one is none, it is the fault `Undefined`.
fn extents_held(alloc: Global, specs: &[HeldSpec], values: &Cells) -> Result<Vec<Extent>, Halt>
    ensures { Gives (λ es. es.items) (action.or_undefined (action.extents_held specs.now values.now)) result }
{
    let mut extents = Vec::new(alloc);
    let mut at = 0;
    'specs: for spec in specs {
        if values.len() - at < 2 {
            return Err(Halt::Fault(Kind::Undefined));
        }
        let Some(extent) = extent_held(*spec, values.at(at), values.at(at + 1)) else {
            return Err(Halt::Fault(Kind::Undefined));
        };
        extents.push(extent)?;
        at += 2;
    }
    Ok(extents)
}

/// The extents of a conformant array by the bounds in the frame at a base. All bound cells are read, and then tested.
pub(crate) fn extents_at(
    alloc: Global,
    machine: &mut Machine,
    specs: &[HeldSpec],
    frame: u32,
) -> Result<Vec<Extent>, Halt>
    requires ready { IsReady machine.old }
    ensures action { DoesAll (λ es. es.items) (performs (action.extents_at specs.now frame)
        (machine_state machine.old)) result (moment_of machine.old) (moment_of machine.new) }
    ensures ready { IsReady machine.new }
{
    let values = read_bounds(alloc, machine, specs, frame)?;
    let extents = extents_held(alloc, specs, &values)?;
    Ok(extents)
}

/// How many values there are between two bounds.
fn values_over(extent: Extent) -> u64
    ensures values { result ≡ action.values_over extent }
    ensures bound { result ≤ 4294967296 }
{
    (i64::from(extent.greatest) - i64::from(extent.least)).unsigned_abs() + 1
}

/// The cells of an array with these extents, whose innermost components have a size; 1,048,577 stands for more than
/// 1,048,576.
fn cells_over(extents: &[Extent], size: u32) -> u32
    ensures { result ≡ min (action.cells_over extents.now size) 1048577 }
{
    let mut cells = u64::from(size).min(1_048_577);
    'extents: for extent in extents {
        cells = (cells * values_over(*extent)).min(1_048_577);
    }
    cells as u32
}

/// The components of an array with one extent, by the size of each.
fn components_from(extent: Extent, size: u32) -> Components
    ensures { Some result ≡ action.components_over (extent ∷ []) size }
{
    Components {
        least: extent.least,
        greatest: extent.greatest,
        size: size.min(1_048_576),
    }
}

/// The components of an array with these extents, if there are any: each has the cells of the extents further in.
#[tactic(auto, using(crate::proofs::CellsCounted::components_first))]
fn components_over(extents: &[Extent], size: u32) -> Option<Components>
    ensures { result ≡ action.components_over extents.now size }
{
    match extents {
        [extent, inner @ ..] => Some(components_from(*extent, cells_over(inner, size))),
        [] => None,
    }
}

/// The component of an array variable at an address, which has these extents, by the value of its index.
fn component_over(extents: &[Extent], size: u32, addr: u32, value: Value) -> Result<u32, Halt>
    ensures { Gives (λ a. a) (action.component_or_fault (action.components_over extents.now size) addr value) result }
{
    match components_over(extents, size) {
        Some(components) => component(components, addr, value),
        None => Err(Halt::Fault(Kind::Undefined)),
    }
}

/// The component of a conformant array at an address, by the value of its index, where the frame at a base has the
/// bounds. They are read, and then those of the index are told: a value that is no number is the fault `Undefined`, and
/// one outside of the bounds `OutOfRange`.
fn component_at(
    alloc: Global,
    machine: &mut Machine,
    array: &Dimensions,
    addr: u32,
    frame: u32,
    value: Value,
) -> Result<u32, Halt>
    requires ready { IsReady machine.old }
    ensures action { DoesAll (λ a. a) (performs (action.conformant_component_at (arrays.dimensions array.now) addr frame
        value) (machine_state machine.old)) result (moment_of machine.old) (moment_of machine.new) }
    ensures ready { IsReady machine.new }
{
    let extents = extents_at(alloc, machine, &array.specs, frame)?;
    let addr = component_over(&extents, array.size, addr, value)?;
    Ok(addr)
}

/// The same, of an array of a type.
pub fn conformant_component(
    alloc: Global,
    program: &Program,
    machine: &mut Machine,
    of: u32,
    addr: u32,
    frame: u32,
    value: Value,
) -> Result<u32, Halt>
    requires ready { IsReady machine.old }
    ensures action { DoesAll (λ a. a) (performs (arrays.conformant_component program.now of addr frame value)
        (machine_state machine.old)) result (moment_of machine.old) (moment_of machine.new) }
    ensures ready { IsReady machine.new }
{
    let array = dimensions_meant(alloc, program, of)?;
    let addr = component_at(alloc, machine, &array, addr, frame, value)?;
    Ok(addr)
}

/// All cells of an array with these extents. The read of one that is beyond the heap is a fault.
fn whole_over(
    alloc: Global,
    machine: &mut Machine,
    extents: Vec<Extent>,
    size: u32,
    addr: u32,
) -> Result<ArrayWhole, Halt>
    requires ready { IsReady machine.old }
    ensures action { DoesAll arrays.whole (performs (action.whole_over extents.items size addr)
        (machine_state machine.old)) result (moment_of machine.old) (moment_of machine.new) }
    ensures ready { IsReady machine.new }
{
    let cells = read_cells(alloc, machine, addr, cells_over(&extents, size))?;
    Ok(ArrayWhole { extents, cells })
}

/// A conformant array at an address as a value, where the frame at a base has the bounds. They are read before the
/// cells.
pub(crate) fn whole_at(
    alloc: Global,
    machine: &mut Machine,
    array: &Dimensions,
    addr: u32,
    frame: u32,
) -> Result<ArrayWhole, Halt>
    requires ready { IsReady machine.old }
    ensures action { DoesAll arrays.whole (performs (action.whole_at (arrays.dimensions array.now) addr frame)
        (machine_state machine.old)) result (moment_of machine.old) (moment_of machine.new) }
    ensures ready { IsReady machine.new }
{
    let extents = extents_at(alloc, machine, &array.specs, frame)?;
    let whole = whole_over(alloc, machine, extents, array.size, addr)?;
    Ok(whole)
}

/// The same, of an array of a type.
pub fn conformant_whole(
    alloc: Global,
    program: &Program,
    machine: &mut Machine,
    of: u32,
    addr: u32,
    frame: u32,
) -> Result<ArrayWhole, Halt>
    requires ready { IsReady machine.old }
    ensures action { DoesAll arrays.whole (performs (arrays.conformant_whole program.now of addr frame)
        (machine_state machine.old)) result (moment_of machine.old) (moment_of machine.new) }
    ensures ready { IsReady machine.new }
{
    let array = dimensions_meant(alloc, program, of)?;
    let whole = whole_at(alloc, machine, &array, addr, frame)?;
    Ok(whole)
}
