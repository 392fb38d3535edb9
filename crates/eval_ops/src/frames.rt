//! Places in frames and in variables.

ghost use Rattle.std.specs.Prelude.{◌≡◌};
ghost use Rattle.core_program.specs.Actions.{performs};
ghost use Rattle.core_program.specs.Cells as action;
ghost use Rattle.core_program.specs.State as state;
ghost use Rattle.eval_ops.specs.Machines.{DoesAll, Gives, IsReady, machine_state, moment_of};

use crate::halt::Halt;
use crate::machine::{Machine, read_cell};
use cell_value::{Kind, Value};
use core_program::{Components, Program, may_stand_for};

/// The address that stands so far from another. No cell is at 1,048,576 or above it, and each address there counts as
/// that one.
pub fn moved(address: u32, by: u32) -> u32
    ensures { result ≡ state.moved address by }
{
    (u64::from(address) + u64::from(by)).min(1_048_576) as u32
}

/// The base of the frame to which this many links lead from the frame at a base. A link is the cell at a frame's base.
/// Where it names no frame, it is the fault `Undefined`, after the read.
pub fn frame_out(machine: &mut Machine, levels: u32, base: u32) -> Result<u32, Halt>
    requires ready { IsReady machine.old }
    ensures action { DoesAll (λ b. b) (performs (action.frame_out levels base) (machine_state machine.old)) result
        (moment_of machine.old) (moment_of machine.new) }
    ensures ready { IsReady machine.new }
{
    let mut frame = base;
    'links: for _ in 0..levels {
        frame = linked_frame(machine, frame)?;
    }
    Ok(frame)
}

/// The base of the frame that the link in the frame at a base names.
fn linked_frame(machine: &mut Machine, base: u32) -> Result<u32, Halt>
    requires ready { IsReady machine.old }
    ensures action { DoesAll (λ b. b) (performs (action.linked base) (machine_state machine.old)) result
        (moment_of machine.old) (moment_of machine.new) }
    ensures ready { IsReady machine.new }
{
    match read_cell(machine, base)? {
        Value::Frame(frame) => Ok(frame),
        _ => Err(Halt::Fault(Kind::Undefined)),
    }
}

/// The cell at a place in the frame to which this many links lead from the frame at a base.
pub fn cell_out(machine: &mut Machine, levels: u32, base: u32, place: u32) -> Result<u32, Halt>
    requires ready { IsReady machine.old }
    ensures action { DoesAll (λ a. a) (performs (action.cell_out levels base place) (machine_state machine.old)) result
        (moment_of machine.old) (moment_of machine.new) }
    ensures ready { IsReady machine.new }
{
    let frame = frame_out(machine, levels, base)?;
    Ok(moved(frame, place))
}

/// The variable that the variable parameter at such a place stands for, by its address. Where the cell holds no
/// address, it is the fault `Undefined`, after the read.
pub fn reference_out(machine: &mut Machine, levels: u32, base: u32, place: u32) -> Result<u32, Halt>
    requires ready { IsReady machine.old }
    ensures action { DoesAll (λ a. a) (performs (action.reference_out levels base place) (machine_state machine.old))
        result (moment_of machine.old) (moment_of machine.new) }
    ensures ready { IsReady machine.new }
{
    let cell = cell_out(machine, levels, base, place)?;
    let addr = referred(machine, cell)?;
    Ok(addr)
}

/// The routine that the routine parameter at such a place stands for, which has this heading, and the base of the frame
/// in which that was declared. Where the cell holds no routine that may be an actual of it, it is the fault
/// `Undefined`, after the read.
pub fn routine_out(
    program: &Program,
    machine: &mut Machine,
    heading: u32,
    levels: u32,
    base: u32,
    place: u32,
) -> Result<(u32, u32), Halt>
    requires ready { IsReady machine.old }
    ensures action { DoesAll (λ x. x) (performs (action.routine_out program.now heading levels base place)
        (machine_state machine.old)) result (moment_of machine.old) (moment_of machine.new) }
    ensures ready { IsReady machine.new }
{
    let cell = cell_out(machine, levels, base, place)?;
    let found = routine_held(program, machine, heading, cell)?;
    Ok(found)
}

/// The routine that a routine parameter stands for, whose cell is at an address, and the base of its frame.
fn routine_held(
    program: &Program,
    machine: &mut Machine,
    heading: u32,
    cell: u32,
) -> Result<(u32, u32), Halt>
    requires ready { IsReady machine.old }
    ensures action { DoesAll (λ x. x) (performs (action.routine_held program.now heading cell)
        (machine_state machine.old)) result (moment_of machine.old) (moment_of machine.new) }
    ensures ready { IsReady machine.new }
{
    let held = read_cell(machine, cell)?;
    let found = routine_meant(program, heading, held)?;
    Ok(found)
}

/// The routine and the frame that a value stands for, in the cell of a routine parameter with this heading.
fn routine_meant(program: &Program, heading: u32, value: Value) -> Result<(u32, u32), Halt>
    ensures { Gives (λ x. x) (action.routine_meant program.now heading value) result }
{
    match value {
        Value::Routine(routine, frame) => {
            if may_stand_for(program, heading, routine) {
                Ok((routine, frame))
            } else {
                Err(Halt::Fault(Kind::Undefined))
            }
        }
        _ => Err(Halt::Fault(Kind::Undefined)),
    }
}

/// The variable that a variable parameter stands for, whose cell is at an address.
pub(crate) fn referred(machine: &mut Machine, cell: u32) -> Result<u32, Halt>
    requires ready { IsReady machine.old }
    ensures action { DoesAll (λ a. a) (performs (action.referred cell) (machine_state machine.old)) result
        (moment_of machine.old) (moment_of machine.new) }
    ensures ready { IsReady machine.new }
{
    match read_cell(machine, cell)? {
        Value::Place(addr) => Ok(addr.min(1_048_576)),
        _ => Err(Halt::Fault(Kind::Undefined)),
    }
}

/// The component of an array variable at an address, by the value of its index. A value that is no number is the fault
/// `Undefined`, and one outside of the bounds `OutOfRange`.
pub fn component(array: Components, addr: u32, value: Value) -> Result<u32, Halt>
    ensures { Gives (λ a. a) (action.component array addr value) result }
{
    match value {
        Value::Number(number)
            if i64::from(array.least) <= number && number <= i64::from(array.greatest) => {
            let position = (number - i64::from(array.least)) as u32;
            let cells = u64::from(position) * u64::from(array.size);
            Ok(moved(addr, cells.min(1_048_576) as u32))
        }
        Value::Number(_) => Err(Halt::Fault(Kind::OutOfRange)),
        _ => Err(Halt::Fault(Kind::Undefined)),
    }
}
