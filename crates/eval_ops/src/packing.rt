//! Packing and unpacking of arrays (6.6.5.4).

ghost use Rattle.std.specs.Prelude.{◌≡◌};
ghost use Rattle.core_program.specs.Actions.{performs};
ghost use Rattle.core_program.specs.Packing as packing;
ghost use Rattle.eval_ops.specs.Machines.{DoesAll, Gives, IsReady, machine_state, moment_of};

use crate::cells::{read_cells, write_cells};
use crate::frames::moved;
use crate::halt::Halt;
use crate::machine::Machine;
use cell_value::{Kind, Value};
use core_program::Components;
use std::alloc::Global;

/// How many components an array has.
fn count_of(array: Components) -> u64
    ensures { result ≡ packing.count_of array }
{
    i64::from(array.greatest).abs_diff(i64::from(array.least)) + 1
}

/// The component at a position of an unpacked array, which is to have as many from there on as a packed one.
fn start_at(unpacked: Components, packed: Components, addr: u32, position: u32) -> Result<u32, Halt>
    ensures { Gives (λ a. a) (packing.start_at unpacked packed addr position) result }
{
    if u64::from(position) + count_of(packed) > count_of(unpacked) {
        return Err(Halt::Fault(Kind::OutOfRange));
    }
    let cells = u64::from(position) * u64::from(unpacked.size);
    Ok(moved(addr, cells.min(1_048_576) as u32))
}

/// The component of an unpacked array variable at an address from which on it has as many as a packed one, by the value
/// of its index. A value that is no number is the fault `Undefined`; one outside of the index type, or after which
/// there are too few, is `OutOfRange`.
pub fn first_moved(
    unpacked: Components,
    packed: Components,
    addr: u32,
    value: Value,
) -> Result<u32, Halt>
    ensures { Gives (λ a. a) (packing.first_moved unpacked packed addr value) result }
{
    match value {
        Value::Number(number)
            if i64::from(unpacked.least) <= number && number <= i64::from(unpacked.greatest) => {
            let position = (number - i64::from(unpacked.least)) as u32;
            start_at(unpacked, packed, addr, position)
        }
        Value::Number(_) => Err(Halt::Fault(Kind::OutOfRange)),
        _ => Err(Halt::Fault(Kind::Undefined)),
    }
}

/// Copies this many cells, all read before the first is written.
pub fn copy_cells(
    alloc: Global,
    machine: &mut Machine,
    from: u32,
    to: u32,
    cells: u32,
) -> Result<(), Halt>
    requires ready { IsReady machine.old }
    ensures action { DoesAll (λ _. tt) (performs (packing.copies from to cells) (machine_state machine.old)) result
        (moment_of machine.old) (moment_of machine.new) }
    ensures ready { IsReady machine.new }
{
    let values = read_cells(alloc, machine, from, cells)?;
    write_cells(alloc, machine, to, &values)?;
    Ok(())
}
