//! Why tokens are no program.

ghost use Rattle.std.specs.Prelude.{◌≡◌};
ghost use Rattle.pas_phrases.specs.declared.fault.ParseFault.TheVariants.{Memory};

use std::alloc::{AllocError, AllocFailed};
use thiserror::Error;

/// Why tokens are no program, with the number of the token that stops the parser.
#[derive(Debug, Drop, Error)]
pub enum ParseFault {
    /// No program goes on with this token.
    #[error("token {0} fits no program")]
    NotProgram(u32),
    /// What begins at this token would be nested too deep.
    #[error("token {0} begins what is nested too deep")]
    TooDeep(u32),
    #[error("out of memory")]
    Memory,
}

impl From<AllocError> for ParseFault {
    ghost from_gives = { λ _ e. e ≡ Memory };

    fn from(_e: AllocError) -> ParseFault {
        ParseFault::Memory
    }
}

impl<T: Drop> From<AllocFailed<T>> for ParseFault {
    ghost from_gives = { λ _ e. e ≡ Memory };

    fn from(_e: AllocFailed<T>) -> ParseFault {
        ParseFault::Memory
    }
}
