//! Where tokens stand in a source.

ghost use Rattle.std.specs.Prelude.{◌<◌, length};
ghost use Rattle.code_checker.specs.Places.{TokenBegins};

use pas_lexer::Tokens;

/// The place of the token of this number: its line and its first byte.
pub fn place_of(tokens: &Tokens, number: u32) -> (u32, u32)
    requires { number < length tokens.now.tokens }
    ensures { TokenBegins tokens.now number result.0 result.1 }
{
    let token = tokens.at(number);
    (token.line, token.start)
}
