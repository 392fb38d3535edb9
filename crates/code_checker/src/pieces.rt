//! From the bytes of a source to its tokens.

ghost use Rattle.std.specs.Prelude.{◌≤◌, IfErr, IfOk, List, length};
ghost use Rattle.pas_lexer.specs.{Division.IsLexed, Limits.source_bytes, declared.kinds.Token.Token};
ghost use Rattle.code_checker.specs.{Declarations.HasTokens, Pieces.IsUnlexed, Pieces.TokensAre};

use crate::faults::{SourceFault, fault_of_piece};
use pas_lexer::{Tokens, lex};
use std::alloc::Global;

/// The tokens of a source, or the first piece that does not fit.
pub fn read_tokens(alloc: Global, source: &[u8]) -> Result<Tokens, SourceFault>
    requires { length source.now ≤ source_bytes }
    ensures found { IfOk result (λ t. HasTokens source.now t) }
    // A source that has tokens is not refused, unless memory runs out.
    ensures only { (tokens : List Token) → IsLexed source.now tokens → TokensAre tokens result }
    ensures refused { IfErr result (IsUnlexed source.now) }
{
    match lex(alloc, source) {
        Ok(tokens) => Ok(tokens),
        Err(fault) => Err(fault_of_piece(source, &fault)),
    }
}
