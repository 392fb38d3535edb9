//! Why the calls of a run were not compared.

use std::alloc::AllocError;
use thiserror::Error;

/// Why the calls of a run were not compared.
#[derive(Clone, Copy, Debug, PartialEq, Eq, Error)]
pub enum ClassFault {
    /// The calls have this many entries of the log between them, each call with those of the calls below it: more than
    /// 50,000,000.
    #[error("{0} entries are too many to compare")]
    TooMany(u64),
    /// Memory ran out.
    #[error("out of memory")]
    Memory,
}

impl From<AllocError> for ClassFault {
    ghost use Rattle.std.specs.Prelude.{◌≡◌};
    ghost use Rattle.answer_reuse.specs.declared.faults.ClassFault.TheVariants.{Memory};

    ghost from_gives = { λ _ e. e ≡ Memory };

    fn from(_e: AllocError) -> ClassFault {
        ClassFault::Memory
    }
}
