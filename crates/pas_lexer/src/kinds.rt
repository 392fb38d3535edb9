//! The tokens of a source, ISO 7185 clause 6.1, and the faults of reading them.

ghost use Rattle.std.specs.Prelude.{◌≡◌};
ghost use Rattle.pas_lexer.specs.{Division.lex_fault, declared.kinds.LexFault.TheVariants.Memory};

use std::alloc::{AllocError, AllocFailed};
use thiserror::Error;

/// A word symbol, ISO 7185 clause 6.1.2: `W` and the word.
#[derive(Clone, Copy, Debug, PartialEq, Eq)]
pub enum Word {
    WAnd,
    WArray,
    WBegin,
    WCase,
    WConst,
    WDiv,
    WDo,
    WDownto,
    WElse,
    WEnd,
    WFile,
    WFor,
    WFunction,
    WGoto,
    WIf,
    WIn,
    WLabel,
    WMod,
    WNil,
    WNot,
    WOf,
    WOr,
    WPacked,
    WProcedure,
    WProgram,
    WRecord,
    WRepeat,
    WSet,
    WThen,
    WTo,
    WType,
    WUntil,
    WVar,
    WWhile,
    WWith,
}

/// A special symbol, ISO 7185 clause 6.1.2, without the `/` of real division.
#[derive(Clone, Copy, Debug, PartialEq, Eq)]
pub enum Symbol {
    /// `+`
    Plus,
    /// `-`
    Minus,
    /// `*`
    Star,
    /// `=`
    Equal,
    /// `<`
    Less,
    /// `>`
    Greater,
    /// `[` or `(.`
    LeftBracket,
    /// `]` or `.)`
    RightBracket,
    /// `.`
    Dot,
    /// `,`
    Comma,
    /// `:`
    Colon,
    /// `;`
    Semicolon,
    /// `^` or `@`
    Caret,
    /// `(`
    LeftParen,
    /// `)`
    RightParen,
    /// `<>`
    NotEqual,
    /// `<=`
    AtMost,
    /// `>=`
    AtLeast,
    /// `:=`
    Becomes,
    /// `..`
    Range,
}

/// What a token is. A number has its value, at most maxint, which is 2147483647. `Text` is a string.
#[derive(Clone, Copy, Debug, PartialEq, Eq)]
pub enum TokenKind {
    Word(Word),
    Name,
    Number(u32),
    Text,
    Symbol(Symbol),
    /// After the last piece of the source.
    End,
}

/// A token and its place: the bytes from `start` up to, and without, `end`, counted from 0. Its line
/// is counted from 1.
#[derive(Clone, Copy, Debug, PartialEq, Eq)]
pub struct Token {
    pub kind: TokenKind,
    pub start: u32,
    pub end: u32,
    pub line: u32,
}

/// Why a source has no tokens. The number is the first byte of the first piece that does not fit, counted
/// from 0.
#[derive(Debug, Drop, Error)]
pub enum LexFault {
    /// No piece begins with this byte.
    #[error("no token begins with byte {0}")]
    BadByte(u32),
    /// No closing symbol follows.
    #[error("the comment at byte {0} is open")]
    OpenComment(u32),
    /// The end of the line or of the source comes first.
    #[error("the string at byte {0} is open")]
    OpenString(u32),
    /// A string has at least one character.
    #[error("the string at byte {0} is empty")]
    EmptyString(u32),
    /// Digits that go on as a real number, or the `/` of real division.
    #[error("real arithmetic at byte {0}")]
    RealWord(u32),
    /// The number is above maxint, which is 2147483647.
    #[error("the number at byte {0} is too large")]
    TooLarge(u32),
    /// A letter stands directly after a number.
    #[error("a letter follows the number at byte {0}")]
    Joined(u32),
    /// Memory ran out.
    #[error("out of memory")]
    Memory,
}

/// Why no piece fits at a place: the fault without its byte.
#[derive(Clone, Copy)]
pub enum LexReason {
    BadByte,
    OpenComment,
    OpenString,
    EmptyString,
    RealWord,
    TooLarge,
    Joined,
}

impl LexReason {
    /// The fault for this reason, at a byte.
    pub fn fault(self, byte: u32) -> LexFault
        ensures { result ≡ lex_fault self byte }
    {
        match self {
            LexReason::BadByte => LexFault::BadByte(byte),
            LexReason::OpenComment => LexFault::OpenComment(byte),
            LexReason::OpenString => LexFault::OpenString(byte),
            LexReason::EmptyString => LexFault::EmptyString(byte),
            LexReason::RealWord => LexFault::RealWord(byte),
            LexReason::TooLarge => LexFault::TooLarge(byte),
            LexReason::Joined => LexFault::Joined(byte),
        }
    }
}

impl From<AllocError> for LexFault {
    ghost from_gives = { λ _ e. e ≡ Memory };

    fn from(_e: AllocError) -> LexFault {
        LexFault::Memory
    }
}

impl<T: Drop> From<AllocFailed<T>> for LexFault {
    ghost from_gives = { λ _ e. e ≡ Memory };

    fn from(_e: AllocFailed<T>) -> LexFault {
        LexFault::Memory
    }
}
