//! From tokens to terminals.

ghost use Rattle.std.specs.Prelude.{◌≡◌, IfOk};
ghost use Rattle.pas_lexer.specs.Lexed.{EndsOnce};
ghost use Rattle.pas_parser.specs.Kinds.{symbol_terminal, terminal_of, terminals_of, word_terminal};

use grammar::Terminal;
use pas_lexer::{Symbol, TokenKind, Tokens, Word};
use pas_phrases::looking::TerminalList;
use std::alloc::{AllocError, Global};

/// The terminals of the tokens of a source.
pub fn terminals(alloc: Global, tokens: &Tokens) -> Result<TerminalList, AllocError>
    ensures all { IfOk result (λ t. t ≡ terminals_of tokens.now.tokens) }
    ensures ended { EndsOnce tokens.now.tokens }
{
    let mut items = Vec::new(alloc);
    let mut next: u32 = 0;
    let count = tokens.len();
    'tokens: while next < count {
        let token = tokens.at(next);
        items.push(terminal(token.kind))?;
        next += 1;
    }
    Ok(TerminalList::new(items))
}

/// The terminal of a kind of token.
fn terminal(kind: TokenKind) -> Terminal
    ensures { result ≡ terminal_of kind }
{
    match kind {
        TokenKind::Word(word) => word_terminal(word),
        TokenKind::Name => Terminal::Name,
        TokenKind::Number(_) => Terminal::Number,
        TokenKind::Text => Terminal::Text,
        TokenKind::Symbol(symbol) => symbol_terminal(symbol),
        TokenKind::End => Terminal::End,
    }
}

fn word_terminal(word: Word) -> Terminal
    ensures { result ≡ word_terminal word }
{
    match word {
        Word::WAnd => Terminal::WAnd,
        Word::WArray => Terminal::WArray,
        Word::WBegin => Terminal::WBegin,
        Word::WCase => Terminal::WCase,
        Word::WConst => Terminal::WConst,
        Word::WDiv => Terminal::WDiv,
        Word::WDo => Terminal::WDo,
        Word::WDownto => Terminal::WDownto,
        Word::WElse => Terminal::WElse,
        Word::WEnd => Terminal::WEnd,
        Word::WFile => Terminal::WFile,
        Word::WFor => Terminal::WFor,
        Word::WFunction => Terminal::WFunction,
        Word::WGoto => Terminal::WGoto,
        Word::WIf => Terminal::WIf,
        Word::WIn => Terminal::WIn,
        Word::WLabel => Terminal::WLabel,
        Word::WMod => Terminal::WMod,
        Word::WNil => Terminal::WNil,
        Word::WNot => Terminal::WNot,
        Word::WOf => Terminal::WOf,
        Word::WOr => Terminal::WOr,
        Word::WPacked => Terminal::WPacked,
        Word::WProcedure => Terminal::WProcedure,
        Word::WProgram => Terminal::WProgram,
        Word::WRecord => Terminal::WRecord,
        Word::WRepeat => Terminal::WRepeat,
        Word::WSet => Terminal::WSet,
        Word::WThen => Terminal::WThen,
        Word::WTo => Terminal::WTo,
        Word::WType => Terminal::WType,
        Word::WUntil => Terminal::WUntil,
        Word::WVar => Terminal::WVar,
        Word::WWhile => Terminal::WWhile,
        Word::WWith => Terminal::WWith,
    }
}

fn symbol_terminal(symbol: Symbol) -> Terminal
    ensures { result ≡ symbol_terminal symbol }
{
    match symbol {
        Symbol::Plus => Terminal::Plus,
        Symbol::Minus => Terminal::Minus,
        Symbol::Star => Terminal::Star,
        Symbol::Equal => Terminal::Equal,
        Symbol::Less => Terminal::Less,
        Symbol::Greater => Terminal::Greater,
        Symbol::LeftBracket => Terminal::LeftBracket,
        Symbol::RightBracket => Terminal::RightBracket,
        Symbol::Dot => Terminal::Dot,
        Symbol::Comma => Terminal::Comma,
        Symbol::Colon => Terminal::Colon,
        Symbol::Semicolon => Terminal::Semicolon,
        Symbol::Caret => Terminal::Caret,
        Symbol::LeftParen => Terminal::LeftParen,
        Symbol::RightParen => Terminal::RightParen,
        Symbol::NotEqual => Terminal::NotEqual,
        Symbol::AtMost => Terminal::AtMost,
        Symbol::AtLeast => Terminal::AtLeast,
        Symbol::Becomes => Terminal::Becomes,
        Symbol::Range => Terminal::Range,
    }
}
