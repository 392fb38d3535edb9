//! The special symbols, ISO 7185 clauses 6.1.2 and 6.1.9.

ghost use Rattle.std.specs.Prelude.{◌≡◌};
ghost use Rattle.pas_lexer.specs.Lexicon.{other_text, symbol_text};
ghost use Rattle.pas_lexer.specs.Reading.{symbol_among, symbol_in, symbol_of, written_text};

use crate::kinds::Symbol;

/// A special symbol as it is written: in its usual spelling, or in its alternative one.
#[derive(Clone, Copy)]
pub enum Written {
    Usual(Symbol),
    Other(Symbol),
}

/// Each special symbol as it is written, the longer ones first.
const SYMBOLS: [Written; 23] = [
    Written::Usual(Symbol::NotEqual),
    Written::Usual(Symbol::AtMost),
    Written::Usual(Symbol::AtLeast),
    Written::Usual(Symbol::Becomes),
    Written::Usual(Symbol::Range),
    Written::Other(Symbol::LeftBracket),
    Written::Other(Symbol::RightBracket),
    Written::Usual(Symbol::Plus),
    Written::Usual(Symbol::Minus),
    Written::Usual(Symbol::Star),
    Written::Usual(Symbol::Equal),
    Written::Usual(Symbol::Less),
    Written::Usual(Symbol::Greater),
    Written::Usual(Symbol::LeftBracket),
    Written::Usual(Symbol::RightBracket),
    Written::Usual(Symbol::Dot),
    Written::Usual(Symbol::Comma),
    Written::Usual(Symbol::Colon),
    Written::Usual(Symbol::Semicolon),
    Written::Usual(Symbol::Caret),
    Written::Usual(Symbol::LeftParen),
    Written::Usual(Symbol::RightParen),
    Written::Other(Symbol::Caret),
];

impl Symbol {
    /// The symbol as a source usually spells it.
    pub fn text(self) -> &'static [u8]
        ensures { result.now ≡ symbol_text self }
    {
        match self {
            Symbol::Plus => b"+",
            Symbol::Minus => b"-",
            Symbol::Star => b"*",
            Symbol::Equal => b"=",
            Symbol::Less => b"<",
            Symbol::Greater => b">",
            Symbol::LeftBracket => b"[",
            Symbol::RightBracket => b"]",
            Symbol::Dot => b".",
            Symbol::Comma => b",",
            Symbol::Colon => b":",
            Symbol::Semicolon => b";",
            Symbol::Caret => b"^",
            Symbol::LeftParen => b"(",
            Symbol::RightParen => b")",
            Symbol::NotEqual => b"<>",
            Symbol::AtMost => b"<=",
            Symbol::AtLeast => b">=",
            Symbol::Becomes => b":=",
            Symbol::Range => b"..",
        }
    }

    /// The symbol in its alternative spelling, or in its only one.
    pub fn other_text(self) -> &'static [u8]
        ensures { result.now ≡ other_text self }
    {
        match self {
            Symbol::Caret => b"@",
            Symbol::LeftBracket => b"(.",
            Symbol::RightBracket => b".)",
            _ => self.text(),
        }
    }
}

impl Written {
    /// The symbol.
    pub fn symbol(self) -> Symbol
        ensures { result ≡ symbol_of self }
    {
        match self {
            Written::Usual(symbol) => symbol,
            Written::Other(symbol) => symbol,
        }
    }

    /// How it is written.
    pub fn text(self) -> &'static [u8]
        ensures { result.now ≡ written_text self }
    {
        match self {
            Written::Usual(symbol) => symbol.text(),
            Written::Other(symbol) => symbol.other_text(),
        }
    }
}

/// The first of the symbols with which the bytes begin.
fn first_begun(symbols: &[Written], bytes: &[u8]) -> Option<Written>
    ensures { result ≡ symbol_among symbols.now bytes.now }
{
    for symbol in symbols {
        if bytes.starts_with(symbol.text()) {
            return Some(*symbol);
        }
    }
    None
}

/// The longest special symbol with which the bytes begin.
#[tactic(auto, unfolding(crate::specs::Reading::symbol_in))]
pub fn symbol_begun(bytes: &[u8]) -> Option<Written>
    ensures { result ≡ symbol_in bytes.now }
{
    first_begun(&SYMBOLS, bytes)
}
