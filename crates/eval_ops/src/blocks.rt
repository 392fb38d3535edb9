//! The blocks of the heap, made and dropped.

ghost use Rattle.std.specs.Prelude.{◌+◌, ◌≡◌, ◌≤◌, OnOk, replicate};
ghost use Rattle.cell_value.specs.Effects.{heap_end};
ghost use Rattle.cell_value.specs.declared.values.Value.TheVariants as value;
ghost use Rattle.core_program.specs.Acts.{DropBlock, MakeBlock, perform};
ghost use Rattle.core_program.specs.Blocks as blocks;
ghost use Rattle.eval_ops.specs.Machines.{DoesAct, IsReady, machine_state, moment_of};

use crate::calls::remove_cells;
use crate::halt::Halt;
use crate::machine::{Machine, Uncounted};
use cell_value::{HEAP_END, Kind, Memory, STACK_END, Steps, Touch, Value, Which};
use persistent_store::Store;
use std::alloc::Global;

/// The cells of a block for a variable of a type with this many cells: at least one.
fn block_cells(cells: u32) -> u32
    ensures { result ≡ blocks.block_cells cells }
{
    cells.max(1)
}

/// Whether this many cells from an address on lie in the heap.
fn lies_in_heap(addr: u32, cells: u32) -> bool
    ensures { result ≡ blocks.lies_in_heap addr cells }
{
    STACK_END <= addr && u64::from(addr) + u64::from(cells) <= u64::from(HEAP_END)
}

/// Makes this many cells from an address on, none of them with a value.
fn put_undefined(alloc: Global, store: &mut Store, first: u32, cells: u32) -> Result<(), Memory>
    requires fits { first + cells ≤ heap_end }
    ensures put { OnOk result (store.new ≡ blocks.filled first (replicate cells value.Undefined) store.old) }
{
    let mut made = Steps::<Uncounted>::new();
    'cells: for i in 0..cells {
        store.put(alloc, first + i, Value::Undefined, &mut made)?;
    }
    Ok(())
}

/// Makes a block of the heap for a variable of a type with this many cells, by the number of the type, and answers the
/// address at which it begins. It has a cell at least, none of them with a value, and each takes a step. Where it does
/// not fit into the heap it answers `Limited(Heap)`, and nothing changes; where fewer steps are left, `OutOfSteps`, and
/// none are left.
pub fn make_block(alloc: Global, machine: &mut Machine, cells: u32, of: u32) -> Result<u32, Halt>
    requires ready { IsReady machine.old }
    ensures act { DoesAct (λ first. first) (perform (MakeBlock cells of) (machine_state machine.old)) result
        (moment_of machine.old) (moment_of machine.new) }
    ensures ready { IsReady machine.new }
{
    let count = block_cells(cells);
    let first = machine.fresh;
    if u64::from(first) + u64::from(count) > u64::from(HEAP_END) {
        return Err(Halt::Limited(Which::Heap));
    }
    if machine.steps < count {
        machine.steps = 0;
        return Err(Halt::OutOfSteps);
    }
    put_undefined(alloc, &mut machine.store, first, count)?;
    machine.log.push(Touch::Make(first, count, of))?;
    machine.fresh += count;
    machine.steps -= count;
    Ok(first)
}

/// Drops the block of a variable of a type with this many cells, which begins at an address. Each of its cells takes a
/// step. Where they do not all lie in the heap it is the fault `Undefined`, and nothing changes; where fewer steps are
/// left it answers `OutOfSteps`, and none are left.
pub fn drop_block(alloc: Global, machine: &mut Machine, addr: u32, cells: u32) -> Result<(), Halt>
    requires ready { IsReady machine.old }
    ensures act { DoesAct (λ _. tt) (perform (DropBlock addr cells) (machine_state machine.old)) result
        (moment_of machine.old) (moment_of machine.new) }
    ensures ready { IsReady machine.new }
{
    let count = block_cells(cells);
    if !lies_in_heap(addr, count) {
        return Err(Halt::Fault(Kind::Undefined));
    }
    if machine.steps < count {
        machine.steps = 0;
        return Err(Halt::OutOfSteps);
    }
    remove_cells(alloc, &mut machine.store, addr, count)?;
    machine.log.push(Touch::Drop(addr, count))?;
    machine.steps -= count;
    Ok(())
}
