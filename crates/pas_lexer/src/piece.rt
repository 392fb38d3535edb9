//! One piece of a source: a separator, a comment or a token, ISO 7185 clause 6.1.

ghost use Rattle.std.specs.{Prelude.◌∷◌, Prelude.◌≡◌, Prelude.◌≤◌, List.AllPass};
ghost use Rattle.pas_lexer.specs.{Lexis.digit, Reading.piece_at, Reading.string_at};
ghost use Rattle.pas_lexer.specs.Reading.{closing, comment_piece, identifier_at, mark_piece, number_at, number_in};

use crate::bytes::{
    begins_with, begins_with_letter, comment_end, digits_length, identifier_length, is_pair,
    is_separator, last_apostrophe, real_goes_on,
};
use crate::kinds::{LexReason, TokenKind};
use crate::symbols::symbol_begun;
use crate::words::word_of;

/// The largest number that a source may write, maxint.
const MAXINT: u64 = 2_147_483_647;

/// The first piece: its kind, or none for a separator or a comment, and its length in bytes. The error is
/// the reason for which no piece fits.
#[tactic(auto, unfolding(crate::specs::Reading::piece_at))]
pub fn piece(bytes: &[u8]) -> Result<(Option<TokenKind>, usize), LexReason>
    ensures { result ≡ piece_at bytes.now }
{
    match bytes {
        [] => Err(LexReason::BadByte),
        [first, rest @ ..] => {
            let c = *first;
            if c.is_ascii_alphabetic() {
                return Ok(identifier(bytes));
            }
            if c.is_ascii_digit() {
                return number(bytes);
            }
            if is_separator(c) {
                return Ok((None, 1));
            }
            mark(c, bytes, rest)
        }
    }
}

/// The string, the comment or the symbol that stands first.
#[tactic(auto, unfolding(crate::specs::Reading::mark_piece))]
fn mark(c: u8, bytes: &[u8], rest: &[u8]) -> Result<(Option<TokenKind>, usize), LexReason>
    requires { bytes.now ≡ c ∷ rest.now }
    ensures { result ≡ mark_piece c rest.now }
{
    if c == b'\'' {
        return string(rest);
    }
    if c == b'{' {
        return comment(1, rest);
    }
    if is_pair(c, rest, b'(', b'*') {
        return comment(2, &rest[1..]);
    }
    if c == b'/' {
        return Err(LexReason::RealWord);
    }
    match symbol_begun(bytes) {
        None => Err(LexReason::BadByte),
        Some(written) => Ok((
            Some(TokenKind::Symbol(written.symbol())),
            written.text().len(),
        )),
    }
}

/// The word symbol or the name that stands first.
#[tactic(auto, unfolding(crate::specs::Reading::identifier_at))]
fn identifier(bytes: &[u8]) -> (Option<TokenKind>, usize)
    ensures { Ok result ≡ identifier_at bytes.now }
{
    let n = identifier_length(bytes);
    match word_of(&bytes[..n]) {
        None => (Some(TokenKind::Name), n),
        Some(word) => (Some(TokenKind::Word(word)), n),
    }
}

/// The number that stands first, if it goes on as no real one, no letter follows it, and it is not too
/// large.
#[tactic(auto, unfolding(crate::specs::Reading::number_at))]
fn number(bytes: &[u8]) -> Result<(Option<TokenKind>, usize), LexReason>
    ensures { result ≡ number_at bytes.now }
{
    let n = digits_length(bytes);
    if real_goes_on(&bytes[n..]) {
        return Err(LexReason::RealWord);
    }
    if begins_with_letter(&bytes[n..]) {
        return Err(LexReason::Joined);
    }
    match number_of(&bytes[..n]) {
        None => Err(LexReason::TooLarge),
        Some(value) => Ok((Some(TokenKind::Number(value)), n)),
    }
}

/// The number that digits denote, if it is at most maxint.
#[tactic(auto, unfolding(crate::specs::Reading::number_in))]
fn number_of(digits: &[u8]) -> Option<u32>
    requires { AllPass digit digits.now }
    ensures { result ≡ number_in digits.now }
{
    let mut value = 0;
    for c in digits {
        value = value * 10 + u64::from(*c - b'0');
        if value > MAXINT {
            return None;
        }
    }
    Some(value as u32)
}

/// The comment after whose opening symbol, of `opened` bytes, these stand.
fn comment(opened: usize, after: &[u8]) -> Result<(Option<TokenKind>, usize), LexReason>
    requires { opened ≤ 2 }
    ensures { result ≡ comment_piece opened (closing after.now) }
{
    match comment_end(after) {
        None => Err(LexReason::OpenComment),
        Some(n) => Ok((None, opened + n)),
    }
}

/// The string after whose first apostrophe these stand.
#[tactic(auto, unfolding(crate::specs::Reading::string_at))]
fn string(after: &[u8]) -> Result<(Option<TokenKind>, usize), LexReason>
    ensures { result ≡ string_at after.now }
{
    match last_apostrophe(after) {
        None => Err(LexReason::OpenString),
        Some(n) => {
            if n > 1 {
                return Ok((Some(TokenKind::Text), 1 + n));
            }
            if begins_with(&after[1..], b'\'') {
                return Err(LexReason::OpenString);
            }
            Err(LexReason::EmptyString)
        }
    }
}
