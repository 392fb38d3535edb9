//! Reading headings of procedures and functions.

ghost use Rattle.std.specs.Prelude.{◌<◌, ◌∷◌, ◌≡◌, ◌≤◌, [], IfOk, IsTrue, length, map};
ghost use Rattle.grammar.specs.{Deciding.expects, Nodes.next, Nodes.row, Reading.levels, Reading.read};
ghost use Rattle.grammar.specs.Grammars.{heading, many};
ghost use Rattle.grammar.specs.declared.terminals.Terminal.TheVariants as k;
ghost use Rattle.pas_tree.specs.FirstFollow.{first_of, pascal};
ghost use Rattle.pas_tree.specs.Headings.{formal_names_node, formal_node, formals_node, function_node, heading_node};
ghost use Rattle.pas_tree.specs.Headings.{next_formal_node, procedure_node, result_node};
ghost use Rattle.pas_tree.specs.Rules.{formal_rule, formals_rule, function_rule, heading_rule, next_formal_rule};
ghost use Rattle.pas_tree.specs.Rules.{procedure_rule, result_rule, variables_formal_rule};
ghost use Rattle.pas_phrases.specs.Items.{ReadsAs, items_from};

use crate::schemas::read_formal_type;
use grammar::Terminal;
use pas_phrases::ParseFault;
use pas_phrases::constants::read_names;
use pas_phrases::looking::TerminalList;
use pas_tree::headings::{
    Formal, FormalNames, Formals, FunctionHeading, Heading, NextFormal, ProcedureHeading,
    ResultType,
};
use std::alloc::Global;

/// Reads a heading, in which `depth` more levels may be nested.
#[cycle(headings)]
#[tactic(auto, unfolding(grammar::specs::Reading::read, grammar::specs::Reading::levels, pas_tree::specs::Rules::heading_rule))]
pub fn read_heading(
    alloc: Global,
    tokens: &TerminalList,
    at: u32,
    depth: u32,
) -> Result<(Heading, u32), ParseFault>
    ensures gives { ReadsAs tokens.now heading_node result (levels pascal depth heading (items_from tokens.now at)) }
    ensures forward { IfOk result (λ x. at ≤ x.1) }
{
    if depth == 0 {
        if expects_heading(tokens, at) {
            return Err(ParseFault::TooDeep(at));
        }
        return Err(ParseFault::NotProgram(at));
    }
    let depth = depth - 1;
    if tokens.is_next(at, Terminal::WProcedure) {
        let (procedure, after) = read_procedure(alloc, tokens, at, depth)?;
        return Ok((Heading::Procedure(procedure), after));
    }
    let (function, after) = read_function(alloc, tokens, at, depth)?;
    Ok((Heading::Function(function), after))
}

#[cycle(headings)]
#[tactic(auto, unfolding(grammar::specs::Reading::read, pas_tree::specs::Rules::procedure_rule))]
fn read_procedure(
    alloc: Global,
    tokens: &TerminalList,
    at: u32,
    depth: u32,
) -> Result<(ProcedureHeading, u32), ParseFault>
    ensures gives { ReadsAs tokens.now procedure_node result
        (read pascal depth procedure_rule (items_from tokens.now at)) }
    ensures forward { IfOk result (λ x. at < x.1) }
{
    let (word, after) = tokens.expect(at, Terminal::WProcedure)?;
    let (name, after) = tokens.expect(after, Terminal::Name)?;
    if tokens.is_next(after, Terminal::LeftParen) {
        let (formals, after) = read_formals(alloc, tokens, after, depth)?;
        let formals = Some(formals);
        let heading = ProcedureHeading {
            word,
            name,
            formals,
        };
        return Ok((heading, after));
    }
    let formals = None;
    let heading = ProcedureHeading {
        word,
        name,
        formals,
    };
    Ok((heading, after))
}

#[cycle(headings)]
#[tactic(auto, unfolding(grammar::specs::Reading::read, pas_tree::specs::Rules::function_rule))]
fn read_function(
    alloc: Global,
    tokens: &TerminalList,
    at: u32,
    depth: u32,
) -> Result<(FunctionHeading, u32), ParseFault>
    ensures gives { ReadsAs tokens.now function_node result
        (read pascal depth function_rule (items_from tokens.now at)) }
    ensures forward { IfOk result (λ x. at < x.1) }
{
    let (word, after) = tokens.expect(at, Terminal::WFunction)?;
    let (name, after) = tokens.expect(after, Terminal::Name)?;
    if tokens.is_next(after, Terminal::LeftParen) {
        let (formals, after) = read_formals(alloc, tokens, after, depth)?;
        let formals = Some(formals);
        let (result, after) = read_result(tokens, after, depth)?;
        let heading = FunctionHeading {
            word,
            name,
            formals,
            result,
        };
        return Ok((heading, after));
    }
    let formals = None;
    let (result, after) = read_result(tokens, after, depth)?;
    let heading = FunctionHeading {
        word,
        name,
        formals,
        result,
    };
    Ok((heading, after))
}

#[tactic(auto, unfolding(grammar::specs::Reading::read, pas_tree::specs::Rules::result_rule))]
fn read_result(
    tokens: &TerminalList,
    at: u32,
    _depth: u32,
) -> Result<(Option<ResultType>, u32), ParseFault>
    ensures gives { ReadsAs tokens.now result_node result (read pascal _depth result_rule (items_from tokens.now at)) }
    ensures forward { IfOk result (λ x. at ≤ x.1) }
{
    if !tokens.is_next(at, Terminal::Colon) {
        return Ok((None, at));
    }
    let (colon, after) = tokens.expect(at, Terminal::Colon)?;
    let (name, after) = tokens.expect(after, Terminal::Name)?;
    Ok((Some(ResultType { colon, name }), after))
}

#[cycle(headings)]
#[tactic(auto, using(pas_tree::proofs::HeadingRolls::formals_rolled), unfolding(grammar::specs::Reading::read, pas_tree::specs::Rules::formals_rule))]
fn read_formals(
    alloc: Global,
    tokens: &TerminalList,
    at: u32,
    depth: u32,
) -> Result<(Formals, u32), ParseFault>
    ensures gives { ReadsAs tokens.now formals_node result (read pascal depth formals_rule (items_from tokens.now at)) }
    ensures forward { IfOk result (λ x. at < x.1) }
{
    let (open, after) = tokens.expect(at, Terminal::LeftParen)?;
    let (first, after) = read_formal(alloc, tokens, after, depth)?;
    let (others, after) = read_next_formals(alloc, tokens, after, depth)?;
    let (close, after) = tokens.expect(after, Terminal::RightParen)?;
    let formals = Formals {
        open,
        first,
        others,
        close,
    };
    Ok((formals, after))
}

#[cycle(headings)]
#[tactic(auto, using(pas_phrases::proofs::ReadLists::pair_list_reading, pas_tree::proofs::Parts::parts), unfolding(pas_tree::specs::Rules::next_formal_rule))]
fn read_next_formals(
    alloc: Global,
    tokens: &TerminalList,
    at: u32,
    depth: u32,
) -> Result<(Vec<NextFormal>, u32), ParseFault>
    ensures gives { ReadsAs tokens.now (λ v. row (map next_formal_node v.items)) result
        (read pascal depth (many (k.Semicolon ∷ []) next_formal_rule) (items_from tokens.now at)) }
    ensures forward { IfOk result (λ x. at ≤ x.1) }
{
    let mut others = Vec::new(alloc);
    let mut next = at;
    'formals: while tokens.is_next(next, Terminal::Semicolon) {
        let (semicolon, after) = tokens.expect(next, Terminal::Semicolon)?;
        let (formal, after) = read_formal(alloc, tokens, after, depth)?;
        others.push(NextFormal { semicolon, formal })?;
        next = after;
    }
    Ok((others, next))
}

#[cycle(headings)]
#[tactic(auto, unfolding(grammar::specs::Reading::read, pas_tree::specs::Rules::formal_rule))]
fn read_formal(
    alloc: Global,
    tokens: &TerminalList,
    at: u32,
    depth: u32,
) -> Result<(Formal, u32), ParseFault>
    ensures gives { ReadsAs tokens.now formal_node result (read pascal depth formal_rule (items_from tokens.now at)) }
    ensures forward { IfOk result (λ x. at ≤ x.1) }
{
    if tokens.is_next(at, Terminal::Name) {
        let (names, after) = read_formal_names(alloc, tokens, at, depth)?;
        return Ok((Formal::Value(names), after));
    }
    if tokens.is_next(at, Terminal::WVar) {
        let (word, after) = tokens.expect(at, Terminal::WVar)?;
        let (names, after) = read_formal_names(alloc, tokens, after, depth)?;
        return Ok((Formal::Variable(word, names), after));
    }
    let (heading, after) = read_heading(alloc, tokens, at, depth)?;
    Ok((Formal::Routine(Box::new(alloc, heading)?), after))
}

#[tactic(auto, unfolding(grammar::specs::Reading::read, pas_tree::specs::Rules::variables_formal_rule))]
fn read_formal_names(
    alloc: Global,
    tokens: &TerminalList,
    at: u32,
    depth: u32,
) -> Result<(FormalNames, u32), ParseFault>
    ensures gives { ReadsAs tokens.now formal_names_node result
        (read pascal depth variables_formal_rule (items_from tokens.now at)) }
    ensures forward { IfOk result (λ x. at < x.1) }
{
    let (names, after) = read_names(alloc, tokens, at, depth)?;
    let (colon, after) = tokens.expect(after, Terminal::Colon)?;
    let (of, after) = read_formal_type(alloc, tokens, after, depth)?;
    Ok((FormalNames { names, colon, of }, after))
}

/// Whether a heading may begin here.
fn expects_heading(tokens: &TerminalList, at: u32) -> bool
    ensures { result ≡ expects pascal heading (next (items_from tokens.now at)) }
{
    match tokens.get(at) {
        Some(kind) => is_heading_start(kind),
        None => false,
    }
}

fn is_heading_start(kind: Terminal) -> bool
    ensures { result ≡ first_of heading kind }
{
    matches!(kind, Terminal::WProcedure | Terminal::WFunction)
}
