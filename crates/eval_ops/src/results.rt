//! The results of functions.

ghost use Rattle.core_program.specs.Actions.{performs};
ghost use Rattle.core_program.specs.Run as calls;
ghost use Rattle.eval_ops.specs.Machines.{DoesAll, Gives, IsReady, machine_state, moment_of};
ghost use Rattle.eval_ops.specs.Results.{returned};

use crate::halt::Halt;
use crate::machine::{Machine, read_cell};
use cell_value::{Kind, Value, in_range};

/// The value that a function whose result type has these bounds returns. What is no value of the type is the fault
/// `UndefinedResult`.
fn result_value(least: i32, greatest: i32, value: Value) -> Result<Value, Halt>
    ensures { Gives (λ v. v) (returned least greatest value) result }
{
    match in_range(value, i64::from(least), i64::from(greatest)) {
        Ok(value) => Ok(value),
        Err(_) => Err(Halt::Fault(Kind::UndefinedResult)),
    }
}

/// The result of a function whose result type has these bounds, which is the cell at an address. Where the cell holds
/// no value of the type, it is the fault `UndefinedResult`, after the read.
pub fn result_at(machine: &mut Machine, least: i32, greatest: i32, addr: u32) -> Result<Value, Halt>
    requires ready { IsReady machine.old }
    ensures action { DoesAll (λ v. v) (performs (calls.result_read least greatest addr) (machine_state machine.old))
        result (moment_of machine.old) (moment_of machine.new) }
    ensures ready { IsReady machine.new }
{
    let held = read_cell(machine, addr)?;
    let value = result_value(least, greatest, held)?;
    Ok(value)
}
