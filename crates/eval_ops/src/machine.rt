//! A run's state with the log so far, and the single acts on it.

ghost use Rattle.std.specs.Prelude.{◌++◌, ◌+◌, ◌-◌, ◌<◌, ◌∷◌, ◌≡◌, [], Err, IfErr, OnOk, true};
ghost use Rattle.core_program.specs.{Actions.performs, Cells.read_value, Cells.write, State.is_in_reach};
ghost use Rattle.core_program.specs.Acts.{HasCell, Spend, WriteCell, on_cell, perform, put_value};
ghost use Rattle.core_program.specs.Acts as acts;
ghost use Rattle.eval_ops.specs.Machines.{DoesAct, DoesAll, IsReady, machine_state, moment_of};

use crate::halt::Halt;
use cell_value::{
    HEAP_END, Items, Kind, MOST_CALLS, MOST_DEPTH, STACK_END, Steps, Touch, Value, Which,
};
use edge_ports::Bytes;
use effect_log::Log;
use persistent_store::Store;
use std::alloc::Global;

/// A state, and the log so far.
#[derive(Drop)]
pub struct Machine {
    /// The cells, by their addresses.
    pub store: Store,
    /// What was done so far that shows or changes the state.
    pub log: Log,
    /// The first free address of the stack.
    pub top: u32,
    /// The first free address of the heap.
    pub fresh: u32,
    /// The items of the input.
    pub items: Items,
    /// How many of them were taken.
    pub place: u32,
    /// The bytes of the output.
    pub output: Bytes,
    /// The steps that are left.
    pub steps: u32,
    /// The calls entered so far.
    pub calls: u32,
    /// The calls that are open.
    pub depth: u32,
}

/// What a run counts no nodes by.
pub(crate) struct Uncounted;

/// Whether an address is one of the stack below `top`, or one of the heap's range.
#[inline(always)]
fn reaches(machine: &Machine, addr: u32) -> bool
    ensures { result ≡ is_in_reach (machine_state machine.now) addr }
{
    addr < machine.top || (STACK_END <= addr && addr < HEAP_END)
}

/// Takes this many steps. Where fewer are left it answers `OutOfSteps` and leaves none. It takes no memory.
#[inline(always)]
pub fn spend(machine: &mut Machine, steps: u32) -> Result<(), Halt>
    requires ready { IsReady machine.old }
    ensures act { DoesAct (λ _. tt) (perform (Spend steps) (machine_state machine.old)) result (moment_of machine.old)
        (moment_of machine.new) }
    ensures ready { IsReady machine.new }
    ensures no_memory { result ≡ Err Halt.Memory → ⊥ }
{
    if machine.steps < steps {
        machine.steps = 0;
        return Err(Halt::OutOfSteps);
    }
    machine.steps -= steps;
    Ok(())
}

/// Takes a step and puts an entry into the log. A step is left before.
#[inline(always)]
pub fn note(machine: &mut Machine, touch: Touch) -> Result<(), Halt>
    requires ready { IsReady machine.old }
    requires left { 0 < machine.old.steps }
    ensures noted { OnOk result (moment_of machine.new ≡ record {
      state = record (machine_state machine.old) { steps = machine.old.steps - 1 };
      log = machine.old.log ++ touch ∷ [];
    }) }
    ensures ready { IsReady machine.new }
    ensures memory { IfErr result (λ e. e ≡ Halt.Memory) }
{
    machine.log.push(touch)?;
    machine.steps -= 1;
    Ok(())
}

/// The value in the cell at an address, which takes a step. At an address that is neither one of the stack below `top`
/// nor one of the heap's range it is the fault `Undefined`, and no step is taken. A cell of the heap that is not there
/// is the fault `Disposed`.
#[inline(always)]
pub fn read_cell(machine: &mut Machine, addr: u32) -> Result<Value, Halt>
    requires ready { IsReady machine.old }
    ensures action { DoesAll (λ v. v) (performs (read_value addr) (machine_state machine.old)) result
        (moment_of machine.old) (moment_of machine.new) }
    ensures ready { IsReady machine.new }
{
    if !reaches(machine, addr) {
        return Err(Halt::Fault(Kind::Undefined));
    }
    if machine.steps < 1 {
        machine.steps = 0;
        return Err(Halt::OutOfSteps);
    }
    match machine.store.get(addr) {
        Some(value) => {
            note(machine, Touch::Read(addr, value))?;
            Ok(value)
        }
        None => {
            note(machine, Touch::Has(addr, false))?;
            Err(Halt::Fault(Kind::Disposed))
        }
    }
}

/// Whether there is a cell at an address, which takes a step. At an address that is neither one of the stack below
/// `top` nor one of the heap's range it is the fault `Undefined`, and no step is taken.
pub fn has_cell(machine: &mut Machine, addr: u32) -> Result<bool, Halt>
    requires ready { IsReady machine.old }
    ensures act { DoesAct (λ there. there) (perform (HasCell addr) (machine_state machine.old)) result
        (moment_of machine.old) (moment_of machine.new) }
    ensures ready { IsReady machine.new }
{
    if !reaches(machine, addr) {
        return Err(Halt::Fault(Kind::Undefined));
    }
    if machine.steps < 1 {
        machine.steps = 0;
        return Err(Halt::OutOfSteps);
    }
    let there = machine.store.get(addr).is_some();
    note(machine, Touch::Has(addr, there))?;
    Ok(there)
}

/// Puts a value into the cell at an address, which takes a step.
fn put_cell(alloc: Global, machine: &mut Machine, addr: u32, value: Value) -> Result<(), Halt>
    requires ready { IsReady machine.old }
    ensures act { DoesAct (λ _. true) (on_cell addr (machine_state machine.old) (put_value addr value)) result
        (moment_of machine.old) (moment_of machine.new) }
    ensures ready { IsReady machine.new }
{
    if !reaches(machine, addr) {
        return Err(Halt::Fault(Kind::Undefined));
    }
    if machine.steps < 1 {
        machine.steps = 0;
        return Err(Halt::OutOfSteps);
    }
    let mut made = Steps::<Uncounted>::new();
    machine.store.put(alloc, addr, value, &mut made)?;
    note(machine, Touch::Write(addr, value))?;
    Ok(())
}

/// Puts a value into the cell at an address, and of a cell of the heap asks before that whether it is there: that is
/// the answer.
fn put_if_there(alloc: Global, machine: &mut Machine, addr: u32, value: Value) -> Result<bool, Halt>
    requires ready { IsReady machine.old }
    ensures act { DoesAct (λ there. there) (perform (WriteCell addr value) (machine_state machine.old)) result
        (moment_of machine.old) (moment_of machine.new) }
    ensures ready { IsReady machine.new }
{
    if STACK_END <= addr {
        if !has_cell(machine, addr)? {
            return Ok(false);
        }
    }
    put_cell(alloc, machine, addr, value)?;
    Ok(true)
}

/// Puts a value into the cell at an address, which takes a step. Of a cell of the heap it is first asked whether it is
/// there, which takes a step; where it is not, it is the fault `Disposed`. At an address that is neither one of the
/// stack below `top` nor one of the heap's range it is the fault `Undefined`, and no step is taken.
pub fn write_cell(alloc: Global, machine: &mut Machine, addr: u32, value: Value) -> Result<(), Halt>
    requires ready { IsReady machine.old }
    ensures action { DoesAll (λ _. tt) (performs (write addr value) (machine_state machine.old)) result
        (moment_of machine.old) (moment_of machine.new) }
    ensures ready { IsReady machine.new }
{
    match put_if_there(alloc, machine, addr, value)? {
        true => Ok(()),
        false => Err(Halt::Fault(Kind::Disposed)),
    }
}

/// The first limit that one call more, whose frame has this many cells, would pass: on the calls, on the depth, on the
/// stack.
pub fn limit_passed(machine: &Machine, cells: u32) -> Option<Which>
    ensures { result ≡ acts.limit_passed (machine_state machine.now) cells }
{
    if machine.calls >= MOST_CALLS {
        return Some(Which::Calls);
    }
    if machine.depth > MOST_DEPTH {
        return Some(Which::Depth);
    }
    if u64::from(machine.top) + u64::from(cells) > u64::from(STACK_END) {
        return Some(Which::Stack);
    }
    None
}
