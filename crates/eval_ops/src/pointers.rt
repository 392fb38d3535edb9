//! Pointers, and the variables of the heap to which they point.

ghost use Rattle.std.specs.Prelude.{◌≡◌};
ghost use Rattle.core_program.specs.Actions.{performs};
ghost use Rattle.core_program.specs.Heap as action;
ghost use Rattle.eval_ops.specs.Machines.{DoesAll, Gives, IsReady, machine_state, moment_of};

use crate::blocks::{drop_block, make_block};
use crate::halt::Halt;
use crate::machine::{Machine, has_cell, read_cell};
use crate::values::truth;
use cell_value::{HEAP_END, Kind, OpFault, STACK_END, Value};
use std::alloc::Global;

/// Makes a variable of a type with this many cells, by the number of the type, and answers the pointer to it. What
/// `make_block` answers otherwise it answers too.
pub fn make_variable(
    alloc: Global,
    machine: &mut Machine,
    cells: u32,
    of: u32,
) -> Result<Value, Halt>
    requires ready { IsReady machine.old }
    ensures action { DoesAll (λ v. v) (performs (action.made_variable cells of) (machine_state machine.old)) result
        (moment_of machine.old) (moment_of machine.new) }
    ensures ready { IsReady machine.new }
{
    let first = make_block(alloc, machine, cells, of)?;
    Ok(Value::Heap(first))
}

/// Whether a value is one of a pointer type: `nil`, or an address of the heap.
fn is_pointer(value: Value) -> bool
    ensures { result ≡ action.is_pointer value }
{
    match value {
        Value::Nil => true,
        Value::Heap(addr) => STACK_END <= addr && addr < HEAP_END,
        _ => false,
    }
}

/// A value that was read from a variable of a pointer type, for its use: what is no value of such a type is the fault
/// `Undefined`.
pub fn defined_pointer(value: Value) -> Result<Value, Halt>
    ensures { Gives (λ v. v) (action.defined_pointer value) result }
{
    if is_pointer(value) {
        Ok(value)
    } else {
        Err(Halt::Fault(Kind::Undefined))
    }
}

/// The value of a variable of a pointer type. Where the cell holds no value of such a type, it is the fault
/// `Undefined`, after the read.
pub fn pointer_at(machine: &mut Machine, addr: u32) -> Result<Value, Halt>
    requires ready { IsReady machine.old }
    ensures action { DoesAll (λ v. v) (performs (action.pointer_at addr) (machine_state machine.old)) result
        (moment_of machine.old) (moment_of machine.new) }
    ensures ready { IsReady machine.new }
{
    let held = read_cell(machine, addr)?;
    let value = defined_pointer(held)?;
    Ok(value)
}

/// The variable to which a pointer points, by its address. `nil` is the fault `NilPointer`, and what is no value of a
/// pointer type `Undefined`.
pub fn pointed_by(value: Value) -> Result<u32, Halt>
    ensures { Gives (λ a. a) (action.pointed_by value) result }
{
    match value {
        Value::Nil => Err(Halt::Fault(Kind::NilPointer)),
        Value::Heap(addr) if STACK_END <= addr && addr < HEAP_END => Ok(addr),
        _ => Err(Halt::Fault(Kind::Undefined)),
    }
}

/// The variable to which the pointer at an address points, by its address. The faults are those of `pointed_by`, after
/// the read. Whether the variable is there, is not asked.
pub fn pointed_at(machine: &mut Machine, addr: u32) -> Result<u32, Halt>
    requires ready { IsReady machine.old }
    ensures action { DoesAll (λ a. a) (performs (action.pointed_at addr) (machine_state machine.old)) result
        (moment_of machine.old) (moment_of machine.new) }
    ensures ready { IsReady machine.new }
{
    let held = read_cell(machine, addr)?;
    let found = pointed_by(held)?;
    Ok(found)
}

/// Drops the block at an address, of a type with this many cells, if its first cell is there, which takes a step to
/// ask; else it is the fault `Disposed`.
fn drop_found(alloc: Global, machine: &mut Machine, addr: u32, cells: u32) -> Result<(), Halt>
    requires ready { IsReady machine.old }
    ensures action { DoesAll (λ _. tt) (performs (action.drop_found addr cells) (machine_state machine.old)) result
        (moment_of machine.old) (moment_of machine.new) }
    ensures ready { IsReady machine.new }
{
    match has_cell(machine, addr)? {
        true => drop_block(alloc, machine, addr, cells),
        false => Err(Halt::Fault(Kind::Disposed)),
    }
}

/// Disposes of the variable to which a pointer points, of a type with this many cells. The faults are those of
/// `pointed_by`; then, after a step that asks for its first cell, `Disposed` where that is not there; then those of
/// `drop_block`.
pub fn dispose(alloc: Global, machine: &mut Machine, cells: u32, value: Value) -> Result<(), Halt>
    requires ready { IsReady machine.old }
    ensures action { DoesAll (λ _. tt) (performs (action.dispose cells value) (machine_state machine.old)) result
        (moment_of machine.old) (moment_of machine.new) }
    ensures ready { IsReady machine.new }
{
    let addr = pointed_by(value)?;
    drop_found(alloc, machine, addr, cells)
}

/// The value that a function of a pointer type returns. What is no value of such a type is the fault
/// `UndefinedResult`.
fn result_value(value: Value) -> Result<Value, Halt>
    ensures { Gives (λ v. v) (action.or_no_pointer value) result }
{
    if is_pointer(value) {
        Ok(value)
    } else {
        Err(Halt::Fault(Kind::UndefinedResult))
    }
}

/// The result of a function of a pointer type, which is the cell at an address. Where the cell holds no value of such a
/// type, it is the fault `UndefinedResult`, after the read.
pub fn pointer_result_at(machine: &mut Machine, addr: u32) -> Result<Value, Halt>
    requires ready { IsReady machine.old }
    ensures action { DoesAll (λ v. v) (performs (action.pointer_result_at addr) (machine_state machine.old)) result
        (moment_of machine.old) (moment_of machine.new) }
    ensures ready { IsReady machine.new }
{
    let held = read_cell(machine, addr)?;
    let value = result_value(held)?;
    Ok(value)
}

/// Whether two pointers are equal, which they are if both are `nil`, or both hold the same address. `UndefinedValue`
/// comes exactly where one is neither.
fn same_pointer(left: Value, right: Value) -> Result<bool, OpFault>
    ensures { result ≡ action.same_pointer left right }
{
    match (left, right) {
        (Value::Nil, Value::Nil) => Ok(true),
        (Value::Nil, Value::Heap(_)) => Ok(false),
        (Value::Heap(_), Value::Nil) => Ok(false),
        (Value::Heap(left), Value::Heap(right)) => Ok(left == right),
        _ => Err(OpFault::UndefinedValue),
    }
}

/// Whether two pointers are equal, or whether they are not, as a value of Boolean. `UndefinedValue` comes exactly where
/// one is neither `nil` nor an address of the heap.
pub fn compare_pointers(equal: bool, left: Value, right: Value) -> Result<Value, OpFault>
    ensures { result ≡ action.pointers_compared equal left right }
{
    match same_pointer(left, right) {
        Ok(same) => Ok(truth(if equal { same } else { !same })),
        Err(fault) => Err(fault),
    }
}
