//! Why and where a source is refused.

ghost use Rattle.std.specs.Prelude.{◌≡◌, ◌≤◌, length};
ghost use Rattle.pas_lexer.specs.Limits.{source_bytes};
ghost use Rattle.code_checker.specs.Pieces.{fault_of_piece};

use pas_lexer::{LexFault, line_at};
use std::alloc::AllocError;
use thiserror::Error;

/// Why a source is refused.
#[derive(Clone, Copy, Debug, PartialEq, Eq, Drop, Error)]
pub enum SourceRefusal {
    /// No piece of a source begins with this byte.
    #[error("no token begins")]
    BadByte,
    /// A comment is not closed.
    #[error("the comment is open")]
    OpenComment,
    /// A string is not closed on its line.
    #[error("the string is open")]
    OpenString,
    /// A string has no characters.
    #[error("the string is empty")]
    EmptyString,
    /// Real arithmetic.
    #[error("real arithmetic")]
    RealWord,
    /// A number above maxint.
    #[error("the number is too large")]
    TooLarge,
    /// A letter directly after a number.
    #[error("a letter follows the number")]
    Joined,
    /// A token at which no program of Pascal goes on.
    #[error("no program goes on")]
    NotProgram,
    /// What begins at a token is nested too deep.
    #[error("nested too deep")]
    TooDeep,
    /// The static rule of this number is broken, and it is the first of those that are.
    #[error("rule {0} is broken")]
    Rule(u32),
    /// No rule is broken, but a variable, a value parameter or an argument of `new` asks for more than 65,536 cells.
    #[error("too many cells")]
    TooBig,
}

/// Why a source is no program of the language, and where.
#[derive(Clone, Copy, Debug, PartialEq, Eq, Drop, Error)]
pub enum SourceFault {
    /// The line is counted from 1, the byte from 0.
    #[error("{why} at line {line}, byte {byte}")]
    Refused {
        why: SourceRefusal,
        line: u32,
        byte: u32,
    },
    /// Memory ran out.
    #[error("out of memory")]
    Memory,
}

impl From<AllocError> for SourceFault {
    ghost use Rattle.code_checker.specs.declared.faults.SourceFault.TheVariants.{Memory};

    ghost from_gives = { λ _ e. e ≡ Memory };

    fn from(_e: AllocError) -> SourceFault {
        SourceFault::Memory
    }
}

/// What the lexer says of a source, as a fault of it.
pub fn fault_of_piece(source: &[u8], fault: &LexFault) -> SourceFault
    requires { length source.now ≤ source_bytes }
    ensures { result ≡ fault_of_piece source.now fault.now }
{
    let (why, byte) = match fault {
        LexFault::BadByte(byte) => (SourceRefusal::BadByte, *byte),
        LexFault::OpenComment(byte) => (SourceRefusal::OpenComment, *byte),
        LexFault::OpenString(byte) => (SourceRefusal::OpenString, *byte),
        LexFault::EmptyString(byte) => (SourceRefusal::EmptyString, *byte),
        LexFault::RealWord(byte) => (SourceRefusal::RealWord, *byte),
        LexFault::TooLarge(byte) => (SourceRefusal::TooLarge, *byte),
        LexFault::Joined(byte) => (SourceRefusal::Joined, *byte),
        LexFault::Memory => return SourceFault::Memory,
    };
    let line = line_at(source, byte);
    SourceFault::Refused { why, line, byte }
}
