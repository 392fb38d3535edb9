//! How tokens are spelled.

ghost use Rattle.std.specs.Prelude.{◌++◌, ◌≡◌, All, IfOk, OnOk, false};
ghost use Rattle.pas_lexer.specs.Lexed.{AreSpelled, IsPlaced, characters, spelled_as};
ghost use Rattle.pas_lexer.specs.Lexis.{lower_case};

use crate::kinds::{Token, TokenKind};
use std::alloc::{AllocError, Global};

/// Where a spelling stands: the bytes from `start` up to, and without, `end`.
#[derive(Clone, Copy)]
pub struct Place {
    pub start: usize,
    pub end: usize,
}

/// Appends a text in lower case.
fn push_lower_case(spellings: &mut Vec<u8>, text: &[u8]) -> Result<(), AllocError>
    ensures { OnOk result (spellings.new.items ≡ spellings.old.items ++ lower_case text.now) }
{
    for c in text {
        spellings.push(c.to_ascii_lowercase())?;
    }
    Ok(())
}

/// Appends the characters of a string, after whose first apostrophe these bytes stand, clause 6.1.7.
fn push_characters(spellings: &mut Vec<u8>, text: &[u8]) -> Result<(), AllocError>
    ensures { OnOk result (spellings.new.items ≡ spellings.old.items ++ characters false text.now) }
{
    let mut pending = false;
    for c in text {
        pending = *c == b'\'' && !pending;
        if !pending {
            spellings.push(*c)?;
        }
    }
    Ok(())
}

/// Appends the spelling of a token of this kind and text.
fn push_spelling(spellings: &mut Vec<u8>, kind: TokenKind, text: &[u8]) -> Result<(), AllocError>
    ensures { OnOk result (spellings.new.items ≡ spellings.old.items ++ spelled_as kind text.now) }
{
    match kind {
        TokenKind::Name => push_lower_case(spellings, text),
        TokenKind::Text => match text {
            [] => Ok(()),
            [_, after @ ..] => push_characters(spellings, after),
        },
        _ => spellings.extend_from_slice(text),
    }
}

/// The spellings of all tokens, one after the other, and the place of each.
pub fn spell(
    alloc: Global,
    source: &[u8],
    tokens: &[Token],
) -> Result<(Vec<u8>, Vec<Place>), AllocError>
    requires { All (IsPlaced source.now) tokens.now }
    ensures { IfOk result (λ x. AreSpelled source.now x.0.items tokens.now x.1.items) }
{
    let mut spellings = Vec::new(alloc);
    let mut places = Vec::new(alloc);
    'tokens: for token in tokens {
        let start = spellings.len();
        push_spelling(
            &mut spellings,
            token.kind,
            &source[token.start as usize..token.end as usize],
        )?;
        let end = spellings.len();
        places.push(Place { start, end })?;
    }
    Ok((spellings, places))
}
