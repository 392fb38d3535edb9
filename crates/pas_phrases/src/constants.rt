//! Reading names in a row, and constants.

ghost use Rattle.std.specs.Prelude.{◌<◌, ◌∷◌, ◌≡◌, ◌≤◌, [], IfOk, map};
ghost use Rattle.grammar.specs.{Grammars.many, Nodes.row, Reading.read};
ghost use Rattle.grammar.specs.declared.terminals.Terminal.TheVariants as k;
ghost use Rattle.pas_tree.{proofs.Parts.parts, specs.FirstFollow.pascal, specs.Rules.next_name_rule};
ghost use Rattle.pas_tree.specs.Constants.{constant_node, constants_node, names_node, next_constant_node};
ghost use Rattle.pas_tree.specs.Constants.{next_name_node, signed_node};
ghost use Rattle.pas_tree.specs.Rules.{constant_rule, constants_rule, limit_rule, names_rule, next_constant_rule};
ghost use Rattle.pas_phrases.specs.Items.{ReadsAs, items_from, signed_plain};

use crate::fault::ParseFault;
use crate::lists::{ListPart, read_list};
use crate::looking::TerminalList;
use crate::operators::{expect_sign, is_next_sign};
use grammar::Terminal;
use pas_tree::constants::{Constant, Constants, Names, NextConstant, NextName};
use pas_tree::operators::Sign;
use std::alloc::Global;

/// Reads names with commas between them.
#[tactic(auto, unfolding(grammar::specs::Reading::read, pas_tree::specs::Rules::names_rule))]
pub fn read_names(
    alloc: Global,
    tokens: &TerminalList,
    at: u32,
    depth: u32,
) -> Result<(Names, u32), ParseFault>
    ensures gives { ReadsAs tokens.now names_node result (read pascal depth names_rule (items_from tokens.now at)) }
    ensures forward { IfOk result (λ x. at < x.1) }
{
    let (first, after) = tokens.expect(at, Terminal::Name)?;
    let (others, after) = read_list::<NextNames>(alloc, tokens, after, depth)?;
    Ok((Names { first, others }, after))
}

struct NextNames;

impl ListPart for NextNames {
    type Tree = NextName;

    ghost node = { next_name_node };

    ghost rule = { next_name_rule };

    ghost starts = { k.Comma ∷ [] };

    ghost repeats = { parts.next_name };

    fn is_next(tokens: &TerminalList, at: u32) -> bool {
        tokens.is_next(at, Terminal::Comma)
    }

    #[tactic(auto, unfolding(grammar::specs::Reading::read, pas_tree::specs::Rules::next_name_rule))]
    fn read(
        _alloc: Global,
        tokens: &TerminalList,
        at: u32,
        _depth: u32,
    ) -> Result<(NextName, u32), ParseFault> {
        let (comma, after) = tokens.expect(at, Terminal::Comma)?;
        let (name, after) = tokens.expect(after, Terminal::Name)?;
        Ok((NextName { comma, name }, after))
    }
}

/// Reads a constant.
#[tactic(auto, unfolding(grammar::specs::Reading::read, pas_tree::specs::Rules::constant_rule))]
pub fn read_constant(
    tokens: &TerminalList,
    at: u32,
    _depth: u32,
) -> Result<(Constant, u32), ParseFault>
    ensures gives { ReadsAs tokens.now constant_node result
        (read pascal _depth constant_rule (items_from tokens.now at)) }
    ensures forward { IfOk result (λ x. at < x.1) }
{
    if tokens.is_next(at, Terminal::Text) {
        let (text, after) = tokens.expect(at, Terminal::Text)?;
        return Ok((Constant::Text(text), after));
    }
    if is_next_sign(tokens, at) {
        let (sign, after) = expect_sign(tokens, at)?;
        return read_plain(tokens, after, Some(sign));
    }
    read_plain(tokens, at, None)
}

/// Reads a number or a name, after a sign that was read.
#[tactic(auto, using(crate::proofs::NextToken::token_first, crate::proofs::NextToken::token_second))]
fn read_plain(
    tokens: &TerminalList,
    at: u32,
    sign: Option<Sign>,
) -> Result<(Constant, u32), ParseFault>
    ensures gives { ReadsAs tokens.now constant_node result (signed_plain sign (items_from tokens.now at)) }
    ensures forward { IfOk result (λ x. at < x.1) }
{
    if tokens.is_next(at, Terminal::Number) {
        let (number, after) = tokens.expect(at, Terminal::Number)?;
        return Ok((Constant::Number(sign, number), after));
    }
    let (name, after) = tokens.expect(at, Terminal::Name)?;
    Ok((Constant::Name(sign, name), after))
}

/// Reads a constant that is no name alone.
#[tactic(auto, unfolding(grammar::specs::Reading::read, pas_tree::specs::Rules::limit_rule))]
pub fn read_limit(
    tokens: &TerminalList,
    at: u32,
    _depth: u32,
) -> Result<(Constant, u32), ParseFault>
    ensures gives { ReadsAs tokens.now constant_node result (read pascal _depth limit_rule (items_from tokens.now at)) }
    ensures forward { IfOk result (λ x. at < x.1) }
{
    if tokens.is_next(at, Terminal::Text) {
        let (text, after) = tokens.expect(at, Terminal::Text)?;
        return Ok((Constant::Text(text), after));
    }
    if is_next_sign(tokens, at) {
        let (sign, after) = expect_sign(tokens, at)?;
        return read_plain(tokens, after, Some(sign));
    }
    let (number, after) = tokens.expect(at, Terminal::Number)?;
    Ok((Constant::Number(None, number), after))
}

/// Reads constants with commas between them.
#[tactic(auto, unfolding(grammar::specs::Reading::read, pas_tree::specs::Rules::constants_rule))]
pub fn read_constants(
    alloc: Global,
    tokens: &TerminalList,
    at: u32,
    depth: u32,
) -> Result<(Constants, u32), ParseFault>
    ensures gives { ReadsAs tokens.now constants_node result
        (read pascal depth constants_rule (items_from tokens.now at)) }
    ensures forward { IfOk result (λ x. at < x.1) }
{
    let (first, after) = read_constant(tokens, at, depth)?;
    let (others, after) = read_list::<NextConstants>(alloc, tokens, after, depth)?;
    Ok((Constants { first, others }, after))
}

struct NextConstants;

impl ListPart for NextConstants {
    type Tree = NextConstant;

    ghost node = { next_constant_node };

    ghost rule = { next_constant_rule };

    ghost starts = { k.Comma ∷ [] };

    ghost repeats = { parts.next_constant };

    fn is_next(tokens: &TerminalList, at: u32) -> bool {
        tokens.is_next(at, Terminal::Comma)
    }

    #[tactic(auto, unfolding(grammar::specs::Reading::read, pas_tree::specs::Rules::next_constant_rule))]
    fn read(
        _alloc: Global,
        tokens: &TerminalList,
        at: u32,
        depth: u32,
    ) -> Result<(NextConstant, u32), ParseFault> {
        let (comma, after) = tokens.expect(at, Terminal::Comma)?;
        let (constant, after) = read_constant(tokens, after, depth)?;
        Ok((NextConstant { comma, constant }, after))
    }
}
