//! The beginning and the end of a call: its frame, and the counts of calls.

ghost use Rattle.std.specs.Prelude.{◌+◌, ◌<◌, ◌≡◌, ◌≤◌, IfOk, OnOk, Some, slice_get};
ghost use Rattle.cell_value.specs.Effects.{heap_end};
ghost use Rattle.core_program.specs.{Blocks.cleared, Blocks.filled, State.stack_end};
ghost use Rattle.core_program.specs.Run as calls;
ghost use Rattle.eval_ops.specs.Frames.{framing};
ghost use Rattle.eval_ops.specs.Machines.{AllowsCall, DoesAct, IsReady, changed, machine_state, moment_of};

use crate::halt::Halt;
use crate::machine::{Machine, Uncounted};
use cell_value::{Cells, Memory, STACK_END, Steps, Value, Which};
use core_program::Routine;
use persistent_store::Store;
use std::alloc::Global;

/// A call is entered: one call more, and one more that is open. It needs fewer than 500,000 calls before, and a depth
/// below 100,000.
pub fn open_call(machine: &mut Machine)
    requires ready { IsReady machine.old }
    requires room { AllowsCall machine.old }
    ensures opened { moment_of machine.new ≡ changed calls.opened (moment_of machine.old) }
    ensures ready { IsReady machine.new }
{
    machine.calls += 1;
    machine.depth += 1;
}

/// A call is left, at the depth before it.
pub fn close_call(machine: &mut Machine, depth: u32)
    requires ready { IsReady machine.old }
    ensures closed { moment_of machine.new ≡ changed (calls.call_closed depth) (moment_of machine.old) }
    ensures ready { IsReady machine.new }
{
    machine.depth = depth;
}

/// How many cells a frame has, with the copies of arrays that stand among the arguments after those of the parameters.
fn frame_size(routine: Routine, args: &Cells) -> u64
    ensures size { result ≡ calls.frame_size routine args.now }
    ensures bound { result ≤ 8589934590 }
{
    let copies = args.len().saturating_sub(routine.parameters);
    u64::from(routine.cells) + u64::from(copies)
}

/// The value that a cell of a new frame gets: those of the link and the parameters come first, those of copies last,
/// and the others have none.
fn first_value(routine: Routine, args: &Cells, at: u32) -> Value
    requires inside { at < calls.frame_size routine args.now }
    ensures { slice_get (calls.frame_cells routine args.now) at ≡ Some result }
{
    let length = args.len();
    if at >= routine.cells {
        args.at(routine.parameters + (at - routine.cells))
    } else if at < routine.parameters && at < length {
        args.at(at)
    } else {
        Value::Undefined
    }
}

/// Makes the cells of a frame from an address on.
fn put_cells(
    alloc: Global,
    store: &mut Store,
    base: u32,
    routine: Routine,
    args: &Cells,
    cells: u32,
) -> Result<(), Memory>
    requires all { cells ≡ calls.frame_size routine args.now }
    requires fits { base + cells ≤ heap_end }
    ensures put { OnOk result (store.new ≡ filled base (calls.frame_cells routine args.now) store.old) }
{
    let mut made = Steps::<Uncounted>::new();
    'cells: for i in 0..cells {
        store.put(alloc, base + i, first_value(routine, args, i), &mut made)?;
    }
    Ok(())
}

/// Removes this many cells from an address on.
pub(crate) fn remove_cells(
    alloc: Global,
    store: &mut Store,
    base: u32,
    cells: u32,
) -> Result<(), Memory>
    requires fits { base + cells ≤ heap_end }
    ensures removed { OnOk result (store.new ≡ cleared base cells store.old) }
{
    let mut made = Steps::<Uncounted>::new();
    'cells: for i in 0..cells {
        store.remove(alloc, base + i, &mut made)?;
    }
    Ok(())
}

/// Makes a frame of a routine at the machine's top, with a step for each cell: first those of the link and the
/// parameters, then cells of which none has a value, and then the copies. How many they are is given. Where the frame
/// would end above the stack it answers `Limited(Stack)`, and nothing changes; where fewer steps are left,
/// `OutOfSteps`, and none are left.
pub fn make_frame(
    alloc: Global,
    machine: &mut Machine,
    args: &Cells,
    routine: Routine,
) -> Result<u32, Halt>
    requires ready { IsReady machine.old }
    ensures made { DoesAct (λ _. tt) (framing routine args.now (machine_state machine.old)) result
        (moment_of machine.old) (moment_of machine.new) }
    ensures cells { IfOk result (λ n. n ≡ calls.frame_size routine args.now) }
    ensures ready { IsReady machine.new }
{
    let size = frame_size(routine, args);
    if u64::from(machine.top) + size > u64::from(STACK_END) {
        return Err(Halt::Limited(Which::Stack));
    }
    let cells = size as u32;
    if machine.steps < cells {
        machine.steps = 0;
        return Err(Halt::OutOfSteps);
    }
    put_cells(alloc, &mut machine.store, machine.top, routine, args, cells)?;
    machine.top += cells;
    machine.steps -= cells;
    Ok(cells)
}

/// Removes the frame of this many cells at a base, which lies in the stack.
pub fn remove_frame(
    alloc: Global,
    machine: &mut Machine,
    base: u32,
    cells: u32,
) -> Result<(), Memory>
    requires ready { IsReady machine.old }
    requires fits { base + cells ≤ stack_end }
    ensures removed { OnOk result (moment_of machine.new ≡
        changed (calls.without_frame base cells) (moment_of machine.old)) }
    ensures ready { OnOk result (IsReady machine.new) }
{
    remove_cells(alloc, &mut machine.store, base, cells)?;
    machine.top = base;
    Ok(())
}
