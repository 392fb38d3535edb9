//! The separators of a series, and the word between the two statements of an if statement.

ghost use Rattle.std.specs.Prelude.{◌<◌, ◌∷◌, ◌≡◌, ◌≤◌, [], IfOk, IsTrue, length};
ghost use Rattle.grammar.specs.{Nodes.leaf, Reading.read, Reading.token_at};
ghost use Rattle.grammar.specs.declared.terminals.Terminal.TheVariants as k;
ghost use Rattle.pas_tree.specs.{Denoters.last_semicolon_node, FirstFollow.pascal, Rules.constant_starts};
ghost use Rattle.pas_phrases.specs.Items.{ReadsAs, goes_further, items_from, last_semicolon};

use crate::fault::ParseFault;
use crate::looking::TerminalList;
use grammar::Terminal;

/// Takes the semicolon after the last part of a series, if it is there.
#[tactic(auto, unfolding(grammar::specs::Reading::read))]
pub fn read_last_semicolon(
    tokens: &TerminalList,
    at: u32,
    _depth: u32,
) -> Result<(Option<u32>, u32), ParseFault>
    ensures gives { ReadsAs tokens.now last_semicolon_node result
        (read pascal _depth last_semicolon (items_from tokens.now at)) }
    ensures forward { IfOk result (λ x. at ≤ x.1) }
{
    if !tokens.is_next(at, Terminal::Semicolon) {
        return Ok((None, at));
    }
    let (semicolon, after) = tokens.expect(at, Terminal::Semicolon)?;
    Ok((Some(semicolon), after))
}

/// Whether a semicolon is next, and after it what begins a constant.
pub fn is_next_case(tokens: &TerminalList, at: u32) -> bool
    ensures tests { result ≡ goes_further k.Semicolon constant_starts (items_from tokens.now at) }
    ensures inside { IsTrue result → at < length tokens.now }
{
    tokens.is_next_pair(
        at,
        Terminal::Semicolon,
        &[
            Terminal::Number,
            Terminal::Name,
            Terminal::Plus,
            Terminal::Minus,
            Terminal::Text,
        ],
    )
}

/// Takes the word `else` of an if statement, which has one at most (6.8.3.4).
pub fn expect_else(tokens: &TerminalList, at: u32) -> Result<(u32, u32), ParseFault>
    ensures gives { ReadsAs tokens.now (leaf k.WElse) result (token_at (k.WElse ∷ []) (items_from tokens.now at)) }
    ensures forward { IfOk result (λ x. at < x.1) }
{
    tokens.expect(at, Terminal::WElse)
}
