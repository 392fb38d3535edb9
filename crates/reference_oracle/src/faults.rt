//! Why the bytes of a reference are no program.

use check_steps::CheckFault;
use pas_lexer::LexFault;
use pas_phrases::ParseFault;
use std::alloc::AllocError;
use thiserror::Error;

/// Why the bytes of a reference are no program. The two numbers are the line of the token that the fault names, counted
/// from 1, and its first byte, counted from 0.
#[derive(Debug, Drop, Error)]
pub enum RefFault {
    /// The lexer refuses a piece.
    #[error("{0}")]
    Lex(LexFault),
    /// The parser refuses a token.
    #[error("{0} at line {1}, byte {2}")]
    Parse(ParseFault, u32, u32),
    /// The check refuses a token.
    #[error("{0} at line {1}, byte {2}")]
    Check(CheckFault, u32, u32),
    /// Memory ran out.
    #[error("out of memory")]
    Memory,
}

impl From<AllocError> for RefFault {
    ghost use Rattle.std.specs.Prelude.{◌≡◌};
    ghost use Rattle.reference_oracle.specs.declared.faults.RefFault.TheVariants.{Memory};

    ghost from_gives = { λ _ e. e ≡ Memory };

    fn from(_e: AllocError) -> RefFault {
        RefFault::Memory
    }
}
