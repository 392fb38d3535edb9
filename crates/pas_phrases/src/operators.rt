//! Reading a terminal that is one of several.

ghost use Rattle.std.specs.Prelude.{◌<◌, ◌≡◌, ◌≤◌, IfOk, IsTrue, length};
ghost use Rattle.grammar.specs.{Nodes.next, Reading.token_at, Terminals.passes};
ghost use Rattle.pas_tree.specs.{Expressions.factor_node, Operators.sign_node, Rules.selector_starts, Rules.signs};
ghost use Rattle.pas_tree.specs.Operators.{adding_node, direction_node, multiplying_node, relational_node, sign_leaf};
ghost use Rattle.pas_tree.specs.Rules.{adding, constant_starts, directions, literals, multiplying, relations};
ghost use Rattle.pas_phrases.specs.Items.{IsSeen, ReadsAs, items_from, optional_token};

use crate::fault::ParseFault;
use crate::looking::TerminalList;
use grammar::Terminal;
use pas_tree::expressions::Factor;
use pas_tree::operators::{
    AddingOperator, Direction, MultiplyingOperator, RelationalOperator, Sign,
};

fn as_sign(kind: Terminal, token: u32) -> Option<Sign>
    ensures { IsSeen signs sign_leaf kind token result }
{
    match kind {
        Terminal::Plus => Some(Sign::Plus(token)),
        Terminal::Minus => Some(Sign::Minus(token)),
        _ => None,
    }
}

fn as_adding(kind: Terminal, token: u32) -> Option<AddingOperator>
    ensures { IsSeen adding adding_node kind token result }
{
    match kind {
        Terminal::Plus => Some(AddingOperator::Plus(token)),
        Terminal::Minus => Some(AddingOperator::Minus(token)),
        Terminal::WOr => Some(AddingOperator::Or(token)),
        _ => None,
    }
}

fn as_multiplying(kind: Terminal, token: u32) -> Option<MultiplyingOperator>
    ensures { IsSeen multiplying multiplying_node kind token result }
{
    match kind {
        Terminal::Star => Some(MultiplyingOperator::Times(token)),
        Terminal::WDiv => Some(MultiplyingOperator::Div(token)),
        Terminal::WMod => Some(MultiplyingOperator::Mod(token)),
        Terminal::WAnd => Some(MultiplyingOperator::And(token)),
        _ => None,
    }
}

fn as_relational(kind: Terminal, token: u32) -> Option<RelationalOperator>
    ensures { IsSeen relations relational_node kind token result }
{
    match kind {
        Terminal::Equal => Some(RelationalOperator::Equal(token)),
        Terminal::NotEqual => Some(RelationalOperator::NotEqual(token)),
        Terminal::Less => Some(RelationalOperator::Less(token)),
        Terminal::AtMost => Some(RelationalOperator::AtMost(token)),
        Terminal::Greater => Some(RelationalOperator::Greater(token)),
        Terminal::AtLeast => Some(RelationalOperator::AtLeast(token)),
        Terminal::WIn => Some(RelationalOperator::In(token)),
        _ => None,
    }
}

fn as_direction(kind: Terminal, token: u32) -> Option<Direction>
    ensures { IsSeen directions direction_node kind token result }
{
    match kind {
        Terminal::WTo => Some(Direction::To(token)),
        Terminal::WDownto => Some(Direction::Downto(token)),
        _ => None,
    }
}

fn as_literal(kind: Terminal, token: u32) -> Option<Factor>
    ensures { IsSeen literals factor_node kind token result }
{
    match kind {
        Terminal::Number => Some(Factor::Number(token)),
        Terminal::Text => Some(Factor::Text(token)),
        Terminal::WNil => Some(Factor::Nil(token)),
        _ => None,
    }
}

/// Takes a sign.
pub fn expect_sign(tokens: &TerminalList, at: u32) -> Result<(Sign, u32), ParseFault>
    ensures gives { ReadsAs tokens.now sign_leaf result (token_at signs (items_from tokens.now at)) }
    ensures forward { IfOk result (λ x. at < x.1) }
{
    match tokens.get(at) {
        Some(kind) => match as_sign(kind, at) {
            Some(seen) => Ok((seen, at + 1)),
            None => Err(ParseFault::NotProgram(at)),
        },
        None => Err(ParseFault::NotProgram(at)),
    }
}

/// Takes an adding operator.
pub fn expect_adding(tokens: &TerminalList, at: u32) -> Result<(AddingOperator, u32), ParseFault>
    ensures gives { ReadsAs tokens.now adding_node result (token_at adding (items_from tokens.now at)) }
    ensures forward { IfOk result (λ x. at < x.1) }
{
    match tokens.get(at) {
        Some(kind) => match as_adding(kind, at) {
            Some(seen) => Ok((seen, at + 1)),
            None => Err(ParseFault::NotProgram(at)),
        },
        None => Err(ParseFault::NotProgram(at)),
    }
}

/// Takes a multiplying operator.
pub fn expect_multiplying(
    tokens: &TerminalList,
    at: u32,
) -> Result<(MultiplyingOperator, u32), ParseFault>
    ensures gives { ReadsAs tokens.now multiplying_node result (token_at multiplying (items_from tokens.now at)) }
    ensures forward { IfOk result (λ x. at < x.1) }
{
    match tokens.get(at) {
        Some(kind) => match as_multiplying(kind, at) {
            Some(seen) => Ok((seen, at + 1)),
            None => Err(ParseFault::NotProgram(at)),
        },
        None => Err(ParseFault::NotProgram(at)),
    }
}

/// Takes a relational operator.
pub fn expect_relational(
    tokens: &TerminalList,
    at: u32,
) -> Result<(RelationalOperator, u32), ParseFault>
    ensures gives { ReadsAs tokens.now relational_node result (token_at relations (items_from tokens.now at)) }
    ensures forward { IfOk result (λ x. at < x.1) }
{
    match tokens.get(at) {
        Some(kind) => match as_relational(kind, at) {
            Some(seen) => Ok((seen, at + 1)),
            None => Err(ParseFault::NotProgram(at)),
        },
        None => Err(ParseFault::NotProgram(at)),
    }
}

/// Takes `to` or `downto`.
pub fn expect_direction(tokens: &TerminalList, at: u32) -> Result<(Direction, u32), ParseFault>
    ensures gives { ReadsAs tokens.now direction_node result (token_at directions (items_from tokens.now at)) }
    ensures forward { IfOk result (λ x. at < x.1) }
{
    match tokens.get(at) {
        Some(kind) => match as_direction(kind, at) {
            Some(seen) => Ok((seen, at + 1)),
            None => Err(ParseFault::NotProgram(at)),
        },
        None => Err(ParseFault::NotProgram(at)),
    }
}

/// Takes a number, a string or `nil`.
pub fn expect_literal(tokens: &TerminalList, at: u32) -> Result<(Factor, u32), ParseFault>
    ensures gives { ReadsAs tokens.now factor_node result (token_at literals (items_from tokens.now at)) }
    ensures forward { IfOk result (λ x. at < x.1) }
{
    match tokens.get(at) {
        Some(kind) => match as_literal(kind, at) {
            Some(seen) => Ok((seen, at + 1)),
            None => Err(ParseFault::NotProgram(at)),
        },
        None => Err(ParseFault::NotProgram(at)),
    }
}

/// Takes a sign, if one is next.
pub fn read_sign(tokens: &TerminalList, at: u32) -> Result<(Option<Sign>, u32), ParseFault>
    ensures gives { ReadsAs tokens.now sign_node result (optional_token signs (items_from tokens.now at)) }
    ensures forward { IfOk result (λ x. at ≤ x.1) }
{
    if !is_next_sign(tokens, at) {
        return Ok((None, at));
    }
    let (sign, after) = expect_sign(tokens, at)?;
    Ok((Some(sign), after))
}

/// Whether a sign is next.
pub fn is_next_sign(tokens: &TerminalList, at: u32) -> bool
    ensures tests { result ≡ passes signs (next (items_from tokens.now at)) }
    ensures inside { IsTrue result → at < length tokens.now }
{
    tokens.is_next_of(at, &[Terminal::Plus, Terminal::Minus])
}

/// Whether an adding operator is next.
pub fn is_next_adding(tokens: &TerminalList, at: u32) -> bool
    ensures tests { result ≡ passes adding (next (items_from tokens.now at)) }
    ensures inside { IsTrue result → at < length tokens.now }
{
    tokens.is_next_of(at, &[Terminal::Plus, Terminal::Minus, Terminal::WOr])
}

/// Whether a multiplying operator is next.
pub fn is_next_multiplying(tokens: &TerminalList, at: u32) -> bool
    ensures tests { result ≡ passes multiplying (next (items_from tokens.now at)) }
    ensures inside { IsTrue result → at < length tokens.now }
{
    tokens.is_next_of(
        at,
        &[
            Terminal::Star,
            Terminal::WDiv,
            Terminal::WMod,
            Terminal::WAnd,
        ],
    )
}

/// Whether a relational operator is next.
pub fn is_next_relational(tokens: &TerminalList, at: u32) -> bool
    ensures tests { result ≡ passes relations (next (items_from tokens.now at)) }
    ensures inside { IsTrue result → at < length tokens.now }
{
    tokens.is_next_of(
        at,
        &[
            Terminal::Equal,
            Terminal::NotEqual,
            Terminal::Less,
            Terminal::AtMost,
            Terminal::Greater,
            Terminal::AtLeast,
            Terminal::WIn,
        ],
    )
}

/// Whether a literal is next.
pub fn is_next_literal(tokens: &TerminalList, at: u32) -> bool
    ensures tests { result ≡ passes literals (next (items_from tokens.now at)) }
    ensures inside { IsTrue result → at < length tokens.now }
{
    tokens.is_next_of(at, &[Terminal::Number, Terminal::Text, Terminal::WNil])
}

/// Whether a selector is next.
pub fn is_next_selector(tokens: &TerminalList, at: u32) -> bool
    ensures tests { result ≡ passes selector_starts (next (items_from tokens.now at)) }
    ensures inside { IsTrue result → at < length tokens.now }
{
    tokens.is_next_of(at, &[Terminal::LeftBracket, Terminal::Dot, Terminal::Caret])
}

/// Whether a constant is next.
pub fn is_next_constant(tokens: &TerminalList, at: u32) -> bool
    ensures tests { result ≡ passes constant_starts (next (items_from tokens.now at)) }
    ensures inside { IsTrue result → at < length tokens.now }
{
    tokens.is_next_of(
        at,
        &[
            Terminal::Number,
            Terminal::Name,
            Terminal::Plus,
            Terminal::Minus,
            Terminal::Text,
        ],
    )
}
