//! A whole source.

ghost use Rattle.std.specs.Prelude.{◌++◌, ◌+◌, ◌<◌, ◌^◌, ◌≡◌, ◌≢◌, ◌≤◌, ◌⊎◌, [], ℕ, All, IfErr, IfOk, List, OnOk};
ghost use Rattle.std.specs.Prelude.{count_by, drop, length, nat_eq, vec_len};
ghost use Rattle.pas_lexer.specs.{Lexis.Fits, Lexis.quoted, Limits.source_bytes, Reading.piece_at};
ghost use Rattle.pas_lexer.specs.Division.{Divides, FailsAt, FailsFor, GivesTokens, InOrder, IsFault, IsLexed, Piece};
ghost use Rattle.pas_lexer.specs.Division.{RefusesWith, lex_fault, line_at, line_feed, rejoined, token_of};
ghost use Rattle.pas_lexer.specs.Lexed.{EndsOnce, IsPlaced, spelled_as, text_of};
ghost use Rattle.pas_lexer.specs.declared.kinds.{LexFault.TheVariants.Memory, LexReason.LexReason, Token.Token};
ghost use Rattle.pas_lexer.specs.declared.kinds.TokenKind.TheVariants.{End, Text};

use crate::kinds::{LexFault, LexReason, Token, TokenKind};
use crate::piece::piece;
use crate::tokens::Tokens;
use std::alloc::Global;

/// The most bytes that a source may have.
pub const MAX_SOURCE_BYTES: usize = 1_048_576;

/// The piece at a place, or the reason for which none fits.
fn piece_from(bytes: &[u8], at: usize) -> Result<(Option<TokenKind>, usize), LexReason>
    requires { at ≤ length bytes.now }
    ensures gives { result ≡ piece_at (drop at bytes.now) }
    ensures inside { IfOk result (λ x. (0 < x.1) × (at + x.1 ≤ length bytes.now)) }
{
    piece(&bytes[at..])
}

/// How many line feeds there are.
fn line_feeds(bytes: &[u8]) -> usize
    ensures count { result ≡ count_by (λ c. nat_eq c line_feed) bytes.now }
    ensures within { result ≤ length bytes.now }
{
    bytes.iter().filter(|c| **c == b'\n').count()
}

/// The line on which a byte of a source stands, counted from 1.
pub fn line_at(source: &[u8], byte: u32) -> u32
    requires { length source.now ≤ source_bytes }
    ensures { result ≡ line_at source.now byte }
{
    let end = (byte as usize).min(source.len());
    1 + line_feeds(&source[..end]) as u32
}

/// Adds the token of a piece, and none of a separator or a comment.
fn push_piece(
    tokens: &mut Vec<Token>,
    kind: Option<TokenKind>,
    start: usize,
    end: usize,
    line: usize,
) -> Result<(), LexFault>
    requires start { start < 2 ^ 32 }
    requires end { end < 2 ^ 32 }
    requires line { line < 2 ^ 32 }
    ensures pushed { OnOk result (tokens.new.items ≡ tokens.old.items ++ token_of start end line kind) }
    ensures full { IfErr result (λ e. e ≡ Memory) }
{
    if let Some(kind) = kind {
        tokens.push(Token {
            kind,
            start: start as u32,
            end: end as u32,
            line: line as u32,
        })?;
    }
    Ok(())
}

/// The tokens of a source.
fn scan(alloc: Global, bytes: &[u8]) -> Result<Vec<Token>, LexFault>
    requires { length bytes.now ≤ source_bytes }
    ensures found { IfOk result (λ v. IsLexed bytes.now v.items) }
    ensures few { IfOk result (λ v. vec_len v ≤ source_bytes + 1) }
    ensures fault { IfErr result (IsFault bytes.now) }
{
    let mut tokens = Vec::new(alloc);
    let mut at = 0;
    let mut line = 1;
    'pieces: while at < bytes.len() {
        let (kind, length) = match piece_from(bytes, at) {
            Ok(piece) => piece,
            Err(reason) => return Err(reason.fault(at as u32)),
        };
        let end = at + length;
        push_piece(&mut tokens, kind, at, end, line)?;
        line += line_feeds(&bytes[at..end]);
        at = end;
    }
    push_piece(&mut tokens, Some(TokenKind::End), at, at, line)?;
    Ok(tokens)
}

/// The tokens of a source of at most `MAX_SOURCE_BYTES` bytes, and `End` after them. Where pieces fit up to
/// byte n and none fits there, the fault has this n and the reason.
pub fn lex(alloc: Global, bytes: &[u8]) -> Result<Tokens, LexFault>
    requires { length bytes.now ≤ source_bytes }

    // The tokens are those of a division of the source into pieces, and the source is kept.
    ensures found { IfOk result (λ t. IsLexed bytes.now t.tokens) }
    ensures source { IfOk result (λ t. t.source ≡ bytes.now) }

    // A source with such a division has its tokens for an answer, unless memory runs out.
    ensures only { (tokens : List Token) → IsLexed bytes.now tokens → GivesTokens tokens result }

    // The fault names the first piece that does not fit, and why; and a source with such a piece is refused
    // there and for that reason, unless memory runs out.
    ensures fault { IfErr result (IsFault bytes.now) }
    ensures refused { (r : LexReason) (n : ℕ) → FailsFor bytes.now r n → RefusesWith (lex_fault r n) result }

    // Each token stands in the source, and the last, and only the last, is `End`.
    ensures placed { IfOk result (λ t. All (IsPlaced bytes.now) t.tokens) }
    ensures ended { IfOk result (λ t. EndsOnce t.tokens) }
{
    let tokens = scan(alloc, bytes)?;
    Ok(Tokens::new(alloc, bytes, tokens)?)
}

/// The laws of divisions, for proofs. A source has one division into pieces, or it fails at one byte and for
/// one reason, and never both; and what each list of tokens keeps. It does nothing.
pub fn division_laws()
    ensures one_division { (source : List ℕ) (ps qs : List Piece) → Divides ps source [] → Divides qs source []
        → ps ≡ qs }
    ensures one_list { (source : List ℕ) (tokens others : List Token)
        → IsLexed source tokens → IsLexed source others → tokens ≡ others }
    ensures one_fault { (source : List ℕ) (m n : ℕ) → FailsAt source m → FailsAt source n → m ≡ n }
    ensures one_reason { (source : List ℕ) (r q : LexReason) (m n : ℕ) → FailsFor source r m → FailsFor source q n
        → r ≡ q }
    ensures lexed_or_fails { (source : List ℕ)
        → ((tokens : List Token) × IsLexed source tokens) ⊎ ((n : ℕ) × FailsAt source n) }
    ensures never_both { (source : List ℕ) (tokens : List Token) (n : ℕ)
        → IsLexed source tokens → FailsAt source n → ⊥ }
    ensures placed { (source : List ℕ) (tokens : List Token) → IsLexed source tokens → All (IsPlaced source) tokens }
    ensures ended { (source : List ℕ) (tokens : List Token) → IsLexed source tokens → EndsOnce tokens }

    // The tokens' texts and what stands between them make the source again, whole and in order.
    ensures whole { (source : List ℕ) (tokens : List Token) → IsLexed source tokens
        → rejoined source 0 tokens ≡ source }
    ensures in_order { (source : List ℕ) (tokens : List Token) → IsLexed source tokens → InOrder source 0 tokens }

    // Each token but the last fits at its place.
    ensures fits { (source : List ℕ) (tokens : List Token) → IsLexed source tokens
        → All (λ t. t.kind ≢ End → Fits (text_of source t) (drop t.end source) (Some t.kind)) tokens }

    // A string is spelled by its characters.
    ensures unquoted { (text : List ℕ) → spelled_as Text (quoted text) ≡ text }
{}
