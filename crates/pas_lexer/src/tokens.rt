//! A source with its tokens.

ghost use Rattle.std.specs.Prelude.{◌+◌, ◌<◌, ◌^◌, ◌↔◌, ◌≡◌, ℕ, All, IfOk, length, slice_get, vec_len};
ghost use Rattle.pas_lexer.specs.Lexed.{EndsOnce, IsPlaced, spelling_of, text_of};
ghost use Rattle.pas_lexer.specs.declared.kinds.{Token.Token, TokenKind.TheVariants.End};

use crate::kinds::Token;
use crate::spellings::{Place, spell};
use std::alloc::{AllocError, Global};
use std::marker::Model;

/// The tokens of a source, with a copy of the source. The last token, and only the last, is `End`.
/// Tokens are numbered from 0.
#[derive(Drop)]
pub struct Tokens {
    source: Vec<u8>,
    tokens: Vec<Token>,
    /// The spellings of the tokens, one after the other.
    spellings: Vec<u8>,
    /// Where the spelling of each token stands.
    places: Vec<Place>,
}

impl Model for Tokens {
    ghost use Rattle.pas_lexer.specs.Lexed.{IsKept, Lexed};

    ghost Value = { Lexed };

    ghost view = { λ t. record { tokens = t.tokens.items; source = t.source.items } };

    ghost invariant = { λ t. IsKept t.source.items t.spellings.items t.places.items t.tokens.items };
}

impl Tokens {
    /// Keeps a copy of the source beside its tokens. The only error is that memory ran out.
    pub(crate) fn new(alloc: Global, source: &[u8], tokens: Vec<Token>) -> Result<Self, AllocError>
        requires placed { All (IsPlaced source.now) tokens.items }
        requires ended { EndsOnce tokens.items }
        requires few { vec_len tokens < 2 ^ 32 }
        ensures { IfOk result (λ t. t ≡ record { tokens = tokens.items; source = source.now }) }
    {
        let (spellings, places) = spell(alloc, source, &tokens)?;
        let source = source.to_vec(alloc)?;
        Ok(Tokens {
            source,
            tokens,
            spellings,
            places,
        })
    }

    /// How many tokens there are, `End` among them.
    pub fn len(&self) -> u32
        ensures count { result ≡ length self.now.tokens }
        ensures some { 0 < result }
        ensures ended { EndsOnce self.now.tokens }
    {
        self.tokens.len() as u32
    }

    /// The token of a number. Only the last is `End`.
    pub fn at(&self, i: u32) -> Token
        requires { i < length self.now.tokens }
        ensures token { slice_get self.now.tokens i ≡ Some result }
        ensures placed { IsPlaced self.now.source result }
        ensures last { (result.kind ≡ End) ↔ (i + 1 ≡ length self.now.tokens) }
    {
        self.tokens[i as usize]
    }

    /// The bytes of the source that a token takes.
    pub fn text(&self, i: u32) -> &[u8]
        requires { i < length self.now.tokens }
        ensures { (t : Token) → slice_get self.now.tokens i ≡ Some t
            → result.now ≡ text_of self.now.source t }
    {
        let token = self.tokens[i as usize];
        &self.source[token.start as usize..token.end as usize]
    }

    /// Of a name the text in lower case, of a string its characters, each doubled apostrophe as one, and of
    /// any other token the text.
    pub fn spelling(&self, i: u32) -> &[u8]
        requires { i < length self.now.tokens }
        ensures { (t : Token) → slice_get self.now.tokens i ≡ Some t
            → result.now ≡ spelling_of self.now.source t }
    {
        let place = self.places[i as usize];
        &self.spellings[place.start..place.end]
    }
}
