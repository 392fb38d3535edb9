//! Actions on the cells of variables.

ghost use Rattle.std.specs.Prelude.{◌++◌, ◌∷◌, ◌≡◌, [], IfErr, OnOk};
ghost use Rattle.core_program.specs.Actions.{performs};
ghost use Rattle.core_program.specs.Cells as action;
ghost use Rattle.core_program.specs.Values as values;
ghost use Rattle.eval_ops.specs.Machines.{DoesAll, Gives, IsReady, machine_state, moment_of};

use crate::frames::moved;
use crate::halt::{Halt, passed_test};
use crate::machine::{Machine, read_cell, write_cell};
use crate::values::test;
use cell_value::{Cells, Kind, Value, between, in_range};
use core_program::Program;
use core_program::rows::TypeRow;
use std::alloc::Global;

/// The values of this many cells from an address on, each read in order, also those that are undefined.
pub fn read_cells(
    alloc: Global,
    machine: &mut Machine,
    addr: u32,
    cells: u32,
) -> Result<Cells, Halt>
    requires ready { IsReady machine.old }
    ensures action { DoesAll (λ vs. vs) (performs (action.read_values [] addr cells) (machine_state machine.old)) result
        (moment_of machine.old) (moment_of machine.new) }
    ensures ready { IsReady machine.new }
{
    let mut values = Cells::new(alloc);
    let mut at = addr;
    'cells: for _ in 0..cells {
        let value = read_cell(machine, at)?;
        values.push(value)?;
        at = moved(at, 1);
    }
    Ok(values)
}

/// Puts a value at the end of a list. A list of 4,294,967,295 values takes no more, which counts as out of memory.
pub fn add_value(list: &mut Cells, value: Value) -> Result<(), Halt>
    ensures added { OnOk result (list.new ≡ list.old ++ value ∷ []) }
    ensures memory { IfErr result (λ e. e ≡ Halt.Memory) }
{
    if list.len() == u32::MAX {
        return Err(Halt::Memory);
    }
    list.push(value)?;
    Ok(())
}

/// Puts values into the cells from an address on, in order.
pub fn write_cells(
    alloc: Global,
    machine: &mut Machine,
    addr: u32,
    values: &Cells,
) -> Result<(), Halt>
    requires ready { IsReady machine.old }
    ensures action { DoesAll (λ _. tt) (performs (action.writes addr values.now) (machine_state machine.old)) result
        (moment_of machine.old) (moment_of machine.new) }
    ensures ready { IsReady machine.new }
{
    let mut at = addr;
    'cells: for i in 0..values.len() {
        write_cell(alloc, machine, at, values.at(i))?;
        at = moved(at, 1);
    }
    Ok(())
}

/// A value that was read from a variable of an ordinal type with these bounds, for its use: what is no value of the
/// type is the fault `Undefined`.
pub fn defined(least: i32, greatest: i32, value: Value) -> Result<Value, Halt>
    ensures { Gives (λ v. v) (values.defined least greatest value) result }
{
    match in_range(value, i64::from(least), i64::from(greatest)) {
        Ok(value) => Ok(value),
        Err(_) => Err(Halt::Fault(Kind::Undefined)),
    }
}

/// A value that was read from a variable of a set type, for its use; the base type has these bounds. What is no set, or
/// one with a member outside of them, is the fault `Undefined`.
pub fn defined_set(least: i32, greatest: i32, value: Value) -> Result<Value, Halt>
    ensures { Gives (λ v. v) (values.defined_set least greatest value) result }
{
    match value {
        Value::Bits(set) => {
            if between(set, i64::from(least), i64::from(greatest)) {
                Ok(value)
            } else {
                Err(Halt::Fault(Kind::Undefined))
            }
        }
        _ => Err(Halt::Fault(Kind::Undefined)),
    }
}

/// The value of a variable of an ordinal type with these bounds. Where the cell holds no value of the type, it is the
/// fault `Undefined`, after the read.
pub fn ordinal_at(
    machine: &mut Machine,
    least: i32,
    greatest: i32,
    addr: u32,
) -> Result<Value, Halt>
    requires ready { IsReady machine.old }
    ensures action { DoesAll (λ v. v) (performs (action.ordinal_at least greatest addr) (machine_state machine.old))
        result (moment_of machine.old) (moment_of machine.new) }
    ensures ready { IsReady machine.new }
{
    let held = read_cell(machine, addr)?;
    let value = defined(least, greatest, held)?;
    Ok(value)
}

/// The value of a variable of a set type whose base type has these bounds. Where the cell holds no value of the type,
/// it is the fault `Undefined`, after the read.
pub fn set_at(machine: &mut Machine, least: i32, greatest: i32, addr: u32) -> Result<Value, Halt>
    requires ready { IsReady machine.old }
    ensures action { DoesAll (λ v. v) (performs (action.set_at least greatest addr) (machine_state machine.old)) result
        (moment_of machine.old) (moment_of machine.new) }
    ensures ready { IsReady machine.new }
{
    let held = read_cell(machine, addr)?;
    let value = defined_set(least, greatest, held)?;
    Ok(value)
}

/// Puts a value into a variable of a type of one cell, after the test for the type: of a value that does not pass it
/// is the fault, and nothing is written.
pub fn assign(
    alloc: Global,
    program: &Program,
    machine: &mut Machine,
    kind: Option<TypeRow>,
    addr: u32,
    value: Value,
) -> Result<(), Halt>
    requires ready { IsReady machine.old }
    ensures action { DoesAll (λ _. tt) (performs (action.assign program.now kind addr value)
        (machine_state machine.old)) result (moment_of machine.old) (moment_of machine.new) }
    ensures ready { IsReady machine.new }
{
    let tested = passed_test(test(program, kind, value))?;
    write_cell(alloc, machine, addr, tested)?;
    Ok(())
}
