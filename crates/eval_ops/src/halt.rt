//! Why an action was not done to its end.

ghost use Rattle.std.specs.Prelude.{◌≡◌};
ghost use Rattle.core_program.specs.Values as values;
ghost use Rattle.eval_ops.specs.Machines.{Gives};

use cell_value::{Kind, OpFault, Value, Which};
use std::alloc::{AllocError, AllocFailed};

/// Why an action was not done to its end.
#[derive(Clone, Copy, Debug, PartialEq, Eq)]
pub enum Halt {
    /// A fault of the running program.
    Fault(Kind),
    /// An act needed more steps than were left.
    OutOfSteps,
    /// The next act would have passed a limit.
    Limited(Which),
    /// Out of memory.
    Memory,
}

impl From<AllocError> for Halt {
    ghost use Rattle.eval_ops.specs.declared.halt.Halt.TheVariants.{Memory};

    ghost from_gives = { λ _ e. e ≡ Memory };

    fn from(_: AllocError) -> Self {
        Halt::Memory
    }
}

impl<T: Drop> From<AllocFailed<T>> for Halt {
    ghost use Rattle.eval_ops.specs.declared.halt.Halt.TheVariants.{Memory};

    ghost from_gives = { λ _ e. e ≡ Memory };

    fn from(_: AllocFailed<T>) -> Self {
        Halt::Memory
    }
}

/// The fault of an operation that has no result.
pub fn fault_kind(fault: OpFault) -> Kind
    ensures { result ≡ values.kind_of fault }
{
    match fault {
        OpFault::Overflow => Kind::Overflow,
        OpFault::ZeroDivisor => Kind::ZeroDivisor,
        OpFault::BadModulus => Kind::BadModulus,
        OpFault::OutOfRange => Kind::OutOfRange,
        OpFault::UndefinedValue => Kind::Undefined,
    }
}

/// The result of an operation, or its fault.
pub fn passed(done: Result<Value, OpFault>) -> Result<Value, Halt>
    ensures { Gives (λ v. v) (values.or_fault done) result }
{
    match done {
        Ok(value) => Ok(value),
        Err(fault) => Err(Halt::Fault(fault_kind(fault))),
    }
}

/// The result of the test of a value, or its fault. Without a test the tables are not whole, which never comes of a
/// program; it counts as out of memory.
pub fn passed_test(done: Option<Result<Value, OpFault>>) -> Result<Value, Halt>
    ensures { Gives (λ v. v) (values.as_tested done) result }
{
    match done {
        Some(done) => passed(done),
        None => Err(Halt::Memory),
    }
}
