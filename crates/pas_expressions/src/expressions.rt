//! Reading expressions and accesses of variables.

ghost use Rattle.std.specs.Prelude.{◌<◌, ◌∷◌, ◌≡◌, ◌≤◌, [], IfOk, map};
ghost use Rattle.grammar.specs.{Deciding.expects, Nodes.next, Nodes.row, Reading.levels, Reading.read};
ghost use Rattle.grammar.specs.Grammars.{factor, many};
ghost use Rattle.grammar.specs.declared.terminals.Terminal.TheVariants as k;
ghost use Rattle.pas_tree.specs.{FirstFollow.first_of, FirstFollow.pascal, Rules.term_rule};
ghost use Rattle.pas_tree.specs.Expressions.{access_node, arguments_node, expression_node, factor_node, index_node};
ghost use Rattle.pas_tree.specs.Expressions.{member_node, members_node, next_expression_node, next_member_node};
ghost use Rattle.pas_tree.specs.Expressions.{selector_node, simple_node, term_node};
ghost use Rattle.pas_tree.specs.Rules.{access_rule, arguments_rule, expression_rule, factor_rule, index_rule};
ghost use Rattle.pas_tree.specs.Rules.{member_rule, members_rule, named_factor_rule, next_expression_rule};
ghost use Rattle.pas_tree.specs.Rules.{next_member_rule, selector_rule, selector_starts, selectors_rule, simple_rule};
ghost use Rattle.pas_phrases.specs.Items.{ReadsAs, items_from};

use grammar::Terminal;
use pas_phrases::ParseFault;
use pas_phrases::looking::TerminalList;
use pas_phrases::operators::{
    expect_adding, expect_literal, expect_multiplying, expect_relational, is_next_adding,
    is_next_literal, is_next_multiplying, is_next_relational, is_next_selector, read_sign,
};
use pas_tree::expressions::{
    Access, Arguments, Expression, Factor, Index, Member, Members, NextExpression, NextFactor,
    NextMember, NextTerm, RangeEnd, Relation, Selector, Simple, SomeMembers, Term,
};
use std::alloc::Global;

/// Reads an expression.
#[cycle(expressions)]
#[tactic(auto, unfolding(grammar::specs::Reading::read, pas_tree::specs::Rules::expression_rule, pas_tree::specs::Rules::relation_rule))]
pub fn read_expression(
    alloc: Global,
    tokens: &TerminalList,
    at: u32,
    depth: u32,
) -> Result<(Expression, u32), ParseFault>
    ensures gives { ReadsAs tokens.now expression_node result
        (read pascal depth expression_rule (items_from tokens.now at)) }
    ensures forward { IfOk result (λ x. at ≤ x.1) }
{
    let (left, after) = read_simple(alloc, tokens, at, depth)?;
    if is_next_relational(tokens, after) {
        let (operator, after) = expect_relational(tokens, after)?;
        let (right, after) = read_simple(alloc, tokens, after, depth)?;
        let relation = Some(Relation { operator, right });
        return Ok((Expression { left, relation }, after));
    }
    let relation = None;
    Ok((Expression { left, relation }, after))
}

#[cycle(expressions)]
fn read_simple(
    alloc: Global,
    tokens: &TerminalList,
    at: u32,
    depth: u32,
) -> Result<(Simple, u32), ParseFault>
    ensures gives { ReadsAs tokens.now simple_node result (read pascal depth simple_rule (items_from tokens.now at)) }
    ensures forward { IfOk result (λ x. at ≤ x.1) }
{
    let (sign, after) = read_sign(tokens, at)?;
    let (first, start) = read_term(alloc, tokens, after, depth)?;
    let mut others = Vec::new(alloc);
    let mut next = start;
    'terms: while is_next_adding(tokens, next) {
        let (operator, after) = expect_adding(tokens, next)?;
        let (term, after) = read_term(alloc, tokens, after, depth)?;
        others.push(NextTerm { operator, term })?;
        next = after;
    }
    let simple = Simple {
        sign,
        first,
        others,
    };
    Ok((simple, next))
}

#[cycle(expressions)]
fn read_term(
    alloc: Global,
    tokens: &TerminalList,
    at: u32,
    depth: u32,
) -> Result<(Term, u32), ParseFault>
    ensures gives { ReadsAs tokens.now term_node result (read pascal depth term_rule (items_from tokens.now at)) }
    ensures forward { IfOk result (λ x. at ≤ x.1) }
{
    let (first, start) = read_factor(alloc, tokens, at, depth)?;
    let mut others = Vec::new(alloc);
    let mut next = start;
    'factors: while is_next_multiplying(tokens, next) {
        let (operator, after) = expect_multiplying(tokens, next)?;
        let (factor, after) = read_factor(alloc, tokens, after, depth)?;
        others.push(NextFactor { operator, factor })?;
        next = after;
    }
    Ok((Term { first, others }, next))
}

#[cycle(expressions)]
#[tactic(auto, unfolding(grammar::specs::Reading::read, grammar::specs::Reading::levels, pas_tree::specs::Rules::factor_rule, pas_tree::specs::Rules::paren_rule))]
fn read_factor(
    alloc: Global,
    tokens: &TerminalList,
    at: u32,
    depth: u32,
) -> Result<(Factor, u32), ParseFault>
    ensures gives { ReadsAs tokens.now factor_node result (levels pascal depth factor (items_from tokens.now at)) }
    ensures forward { IfOk result (λ x. at ≤ x.1) }
{
    if depth == 0 {
        if expects_factor(tokens, at) {
            return Err(ParseFault::TooDeep(at));
        }
        return Err(ParseFault::NotProgram(at));
    }
    let depth = depth - 1;
    if is_next_literal(tokens, at) {
        return expect_literal(tokens, at);
    }
    if tokens.is_next(at, Terminal::Name) {
        return read_named_factor(alloc, tokens, at, depth);
    }
    if tokens.is_next(at, Terminal::LeftParen) {
        let (open, after) = tokens.expect(at, Terminal::LeftParen)?;
        let (expression, after) = read_expression(alloc, tokens, after, depth)?;
        let expression = Box::new(alloc, expression)?;
        let (close, after) = tokens.expect(after, Terminal::RightParen)?;
        return Ok((Factor::Paren(open, expression, close), after));
    }
    if tokens.is_next(at, Terminal::LeftBracket) {
        let (members, after) = read_members(alloc, tokens, at, depth)?;
        return Ok((Factor::Set(Box::new(alloc, members)?), after));
    }
    let (word, after) = tokens.expect(at, Terminal::WNot)?;
    let (factor, after) = read_factor(alloc, tokens, after, depth)?;
    Ok((Factor::Not(word, Box::new(alloc, factor)?), after))
}

#[cycle(expressions)]
#[tactic(auto, using(pas_tree::proofs::ExpressionRolls::selectors_hidden, pas_tree::proofs::ExpressionRolls::arguments_rolled), unfolding(grammar::specs::Reading::read, pas_tree::specs::Rules::named_factor_rule, pas_tree::specs::Rules::arguments_rule))]
fn read_named_factor(
    alloc: Global,
    tokens: &TerminalList,
    at: u32,
    depth: u32,
) -> Result<(Factor, u32), ParseFault>
    ensures gives { ReadsAs tokens.now factor_node result
        (read pascal depth named_factor_rule (items_from tokens.now at)) }
    ensures forward { IfOk result (λ x. at < x.1) }
{
    let (name, after) = tokens.expect(at, Terminal::Name)?;
    if tokens.is_next(after, Terminal::LeftParen) {
        let (open, after) = tokens.expect(after, Terminal::LeftParen)?;
        let (first, after) = read_expression(alloc, tokens, after, depth)?;
        let (others, after) = read_next_expressions(alloc, tokens, after, depth)?;
        let (close, after) = tokens.expect(after, Terminal::RightParen)?;
        let arguments = Arguments {
            open,
            first,
            others,
            close,
        };
        return Ok((Factor::Call(name, Box::new(alloc, arguments)?), after));
    }
    let (selectors, after) = read_selectors(alloc, tokens, after, depth)?;
    Ok((Factor::Access(Access { name, selectors }), after))
}

#[cycle(expressions)]
fn read_next_expressions(
    alloc: Global,
    tokens: &TerminalList,
    at: u32,
    depth: u32,
) -> Result<(Vec<NextExpression>, u32), ParseFault>
    ensures gives { ReadsAs tokens.now (λ v. row (map next_expression_node v.items)) result
        (read pascal depth (many (k.Comma ∷ []) next_expression_rule) (items_from tokens.now at)) }
    ensures forward { IfOk result (λ x. at ≤ x.1) }
{
    let mut others = Vec::new(alloc);
    let mut next = at;
    'expressions: while tokens.is_next(next, Terminal::Comma) {
        let (comma, after) = tokens.expect(next, Terminal::Comma)?;
        let (expression, after) = read_expression(alloc, tokens, after, depth)?;
        others.push(NextExpression { comma, expression })?;
        next = after;
    }
    Ok((others, next))
}

/// Reads the indices, fields and dereferences of an access.
#[cycle(expressions)]
#[tactic(auto, using(pas_phrases::proofs::ReadLists::list_reading, pas_tree::proofs::Parts::parts), unfolding(pas_tree::specs::Rules::selectors_rule))]
pub fn read_selectors(
    alloc: Global,
    tokens: &TerminalList,
    at: u32,
    depth: u32,
) -> Result<(Vec<Selector>, u32), ParseFault>
    ensures gives { ReadsAs tokens.now (λ v. row (map selector_node v.items)) result
        (read pascal depth selectors_rule (items_from tokens.now at)) }
    ensures forward { IfOk result (λ x. at ≤ x.1) }
{
    let mut others = Vec::new(alloc);
    let mut next = at;
    'selectors: while is_next_selector(tokens, next) {
        let (other, after) = read_selector(alloc, tokens, next, depth)?;
        others.push(other)?;
        next = after;
    }
    Ok((others, next))
}

#[cycle(expressions)]
#[tactic(auto, using(pas_tree::proofs::ExpressionRolls::index_rolled), unfolding(grammar::specs::Reading::read, pas_tree::specs::Rules::selector_rule, pas_tree::specs::Rules::index_rule))]
fn read_selector(
    alloc: Global,
    tokens: &TerminalList,
    at: u32,
    depth: u32,
) -> Result<(Selector, u32), ParseFault>
    ensures gives { ReadsAs tokens.now selector_node result
        (read pascal depth selector_rule (items_from tokens.now at)) }
    ensures forward { IfOk result (λ x. at < x.1) }
{
    if tokens.is_next(at, Terminal::LeftBracket) {
        let (open, after) = tokens.expect(at, Terminal::LeftBracket)?;
        let (first, after) = read_expression(alloc, tokens, after, depth)?;
        let (others, after) = read_next_expressions(alloc, tokens, after, depth)?;
        let (close, after) = tokens.expect(after, Terminal::RightBracket)?;
        let index = Index {
            open,
            first,
            others,
            close,
        };
        return Ok((Selector::Index(index), after));
    }
    if tokens.is_next(at, Terminal::Dot) {
        let (dot, after) = tokens.expect(at, Terminal::Dot)?;
        let (name, after) = tokens.expect(after, Terminal::Name)?;
        return Ok((Selector::Field(dot, name), after));
    }
    let (caret, after) = tokens.expect(at, Terminal::Caret)?;
    Ok((Selector::Dereference(caret), after))
}

#[cycle(expressions)]
#[tactic(auto, using(pas_tree::proofs::ExpressionRolls::members_rolled), unfolding(grammar::specs::Reading::read, pas_tree::specs::Rules::members_rule))]
fn read_members(
    alloc: Global,
    tokens: &TerminalList,
    at: u32,
    depth: u32,
) -> Result<(Members, u32), ParseFault>
    ensures gives { ReadsAs tokens.now members_node result (read pascal depth members_rule (items_from tokens.now at)) }
    ensures forward { IfOk result (λ x. at < x.1) }
{
    let (open, after) = tokens.expect(at, Terminal::LeftBracket)?;
    if tokens.is_next(after, Terminal::RightBracket) {
        let (close, after) = tokens.expect(after, Terminal::RightBracket)?;
        return Ok((Members::Empty(open, close), after));
    }
    let (first, after) = read_member(alloc, tokens, after, depth)?;
    let (others, after) = read_next_members(alloc, tokens, after, depth)?;
    let (close, after) = tokens.expect(after, Terminal::RightBracket)?;
    let members = SomeMembers {
        open,
        first,
        others,
        close,
    };
    Ok((Members::Some(members), after))
}

#[cycle(expressions)]
fn read_next_members(
    alloc: Global,
    tokens: &TerminalList,
    at: u32,
    depth: u32,
) -> Result<(Vec<NextMember>, u32), ParseFault>
    ensures gives { ReadsAs tokens.now (λ v. row (map next_member_node v.items)) result
        (read pascal depth (many (k.Comma ∷ []) next_member_rule) (items_from tokens.now at)) }
    ensures forward { IfOk result (λ x. at ≤ x.1) }
{
    let mut others = Vec::new(alloc);
    let mut next = at;
    'members: while tokens.is_next(next, Terminal::Comma) {
        let (comma, after) = tokens.expect(next, Terminal::Comma)?;
        let (member, after) = read_member(alloc, tokens, after, depth)?;
        others.push(NextMember { comma, member })?;
        next = after;
    }
    Ok((others, next))
}

#[cycle(expressions)]
#[tactic(auto, unfolding(grammar::specs::Reading::read, pas_tree::specs::Rules::member_rule))]
fn read_member(
    alloc: Global,
    tokens: &TerminalList,
    at: u32,
    depth: u32,
) -> Result<(Member, u32), ParseFault>
    ensures gives { ReadsAs tokens.now member_node result (read pascal depth member_rule (items_from tokens.now at)) }
    ensures forward { IfOk result (λ x. at ≤ x.1) }
{
    let (first, after) = read_expression(alloc, tokens, at, depth)?;
    if tokens.is_next(after, Terminal::Range) {
        let (range, after) = tokens.expect(after, Terminal::Range)?;
        let (last, after) = read_expression(alloc, tokens, after, depth)?;
        let last = Some(RangeEnd { range, last });
        return Ok((Member { first, last }, after));
    }
    let last = None;
    Ok((Member { first, last }, after))
}

/// Reads an access of a variable.
#[tactic(auto, unfolding(grammar::specs::Reading::read, pas_tree::specs::Rules::access_rule))]
pub fn read_access(
    alloc: Global,
    tokens: &TerminalList,
    at: u32,
    depth: u32,
) -> Result<(Access, u32), ParseFault>
    ensures gives { ReadsAs tokens.now access_node result (read pascal depth access_rule (items_from tokens.now at)) }
    ensures forward { IfOk result (λ x. at < x.1) }
{
    let (name, after) = tokens.expect(at, Terminal::Name)?;
    let (selectors, after) = read_selectors(alloc, tokens, after, depth)?;
    Ok((Access { name, selectors }, after))
}

/// Whether a factor may begin here.
fn expects_factor(tokens: &TerminalList, at: u32) -> bool
    ensures { result ≡ expects pascal factor (next (items_from tokens.now at)) }
{
    match tokens.get(at) {
        Some(kind) => is_factor_start(kind),
        None => false,
    }
}

fn is_factor_start(kind: Terminal) -> bool
    ensures { result ≡ first_of factor kind }
{
    matches!(
        kind,
        Terminal::Number
            | Terminal::Text
            | Terminal::WNil
            | Terminal::Name
            | Terminal::LeftParen
            | Terminal::LeftBracket
            | Terminal::WNot
    )
}
