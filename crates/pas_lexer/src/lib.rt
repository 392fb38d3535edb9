//! The lexer of Pascal: the tokens of a source, ISO 7185 clause 6.1.
#![tactic(auto)]

mod bytes;
pub mod kinds;
pub mod lexing;
mod piece;
mod spellings;
mod symbols;
pub mod tokens;
mod words;

pub use kinds::{LexFault, Symbol, Token, TokenKind, Word};
pub use lexing::{MAX_SOURCE_BYTES, lex, line_at};
pub use tokens::Tokens;
