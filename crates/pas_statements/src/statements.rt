//! Reading statements (6.8).

ghost use Rattle.std.specs.Prelude.{◌<◌, ◌∷◌, ◌≡◌, ◌≤◌, [], IfOk, false, map};
ghost use Rattle.grammar.specs.{Deciding.expects, Nodes.chain, Nodes.next, Terminals.passes};
ghost use Rattle.grammar.specs.Grammars.{by_end, nothing, series, statement};
ghost use Rattle.grammar.specs.Reading.{levels, read};
ghost use Rattle.grammar.specs.declared.terminals.Terminal.TheVariants as k;
ghost use Rattle.pas_tree.{proofs.Parts.parts, specs.Denoters.last_semicolon_node, specs.Statements.statements_node};
ghost use Rattle.pas_tree.specs.FirstFollow.{first_of, follow_of, pascal};
ghost use Rattle.pas_tree.specs.Rules.{actual_rule, actuals_rule, assignment_starts, branch_rule, case_rule};
ghost use Rattle.pas_tree.specs.Rules.{compound_rule, constant_starts, for_rule, if_rule, label_rule};
ghost use Rattle.pas_tree.specs.Rules.{named_statement_rule, next_access_rule, next_actual_rule, plain_rule};
ghost use Rattle.pas_tree.specs.Rules.{repeat_rule, statements_rule, while_rule, with_rule};
ghost use Rattle.pas_tree.specs.Statements.{actual_node, actuals_node, branch_node, branch_step, compound_node};
ghost use Rattle.pas_tree.specs.Statements.{label_node, next_access_node, next_actual_node, plain_node, statement_node};
ghost use Rattle.pas_phrases.specs.Items.{ReadsAs, items_from};
ghost use Rattle.pas_statements.specs.Closers.{closer_of};

use grammar::Terminal;
use pas_expressions::{read_access, read_expression, read_selectors};
use pas_phrases::ParseFault;
use pas_phrases::constants::read_constants;
use pas_phrases::lists::{ListPart, read_list};
use pas_phrases::looking::{TerminalList, is_one_of};
use pas_phrases::operators::expect_direction;
use pas_phrases::separators::{expect_else, is_next_case, read_last_semicolon};
use pas_tree::expressions::Access;
use pas_tree::statements::{
    Actual, Actuals, Assignment, Branch, Case, Compound, Else, For, If, Label, NextAccess,
    NextActual, NextBranch, NextStatement, Plain, Repeat, Statement, Statements, While, Width,
    With,
};
use std::alloc::Global;

/// The word that closes a list of statements: `end` or `until`.
#[derive(Clone, Copy)]
pub enum ClosingWord {
    End,
    Until,
}

/// Reads a compound statement, in which `depth` levels may be nested (6.8.3.2).
#[cycle(statements)]
#[tactic(auto, unfolding(grammar::specs::Reading::read, pas_tree::specs::Rules::compound_rule))]
pub fn read_compound(
    alloc: Global,
    tokens: &TerminalList,
    at: u32,
    depth: u32,
) -> Result<(Compound, u32), ParseFault>
    ensures gives { ReadsAs tokens.now compound_node result
        (read pascal depth compound_rule (items_from tokens.now at)) }
    ensures forward { IfOk result (λ x. at < x.1) }
{
    let (begin, after) = tokens.expect(at, Terminal::WBegin)?;
    let (statements, after) = read_statements(alloc, tokens, after, depth, ClosingWord::End)?;
    let (end, after) = tokens.expect(after, Terminal::WEnd)?;
    let compound = Compound {
        begin,
        statements,
        end,
    };
    Ok((compound, after))
}

/// Reads statements with semicolons between them (6.8.3.1).
#[cycle(statements)]
fn read_statements(
    alloc: Global,
    tokens: &TerminalList,
    at: u32,
    depth: u32,
    closer: ClosingWord,
) -> Result<(Statements, u32), ParseFault>
    ensures gives { ReadsAs tokens.now statements_node result
        (read pascal depth (statements_rule (closer_of closer)) (items_from tokens.now at)) }
    ensures forward { IfOk result (λ x. at ≤ x.1) }
{
    let (first, start) = read_statement(alloc, tokens, at, depth, false, closer)?;
    let mut others = Vec::new(alloc);
    let mut next = start;
    'statements: while tokens.is_next(next, Terminal::Semicolon) {
        let (semicolon, after) = tokens.expect(next, Terminal::Semicolon)?;
        let (statement, after) = read_statement(alloc, tokens, after, depth, false, closer)?;
        others.push(NextStatement {
            semicolon,
            statement,
        })?;
        next = after;
    }
    Ok((Statements { first, others }, next))
}

/// Reads a statement, in which `depth` levels may be nested (6.8.1).
#[cycle(statements)]
#[tactic(auto, unfolding(grammar::specs::Reading::read, grammar::specs::Reading::levels, pas_tree::specs::Rules::statement_rule))]
fn read_statement(
    alloc: Global,
    tokens: &TerminalList,
    at: u32,
    depth: u32,
    inner: bool,
    closer: ClosingWord,
) -> Result<(Statement, u32), ParseFault>
    ensures gives { ReadsAs tokens.now statement_node result
        (levels pascal depth (statement inner (closer_of closer)) (items_from tokens.now at)) }
    ensures forward { IfOk result (λ x. at ≤ x.1) }
{
    if depth == 0 {
        if expects_statement(tokens, at, inner, closer) {
            return Err(ParseFault::TooDeep(at));
        }
        return Err(ParseFault::NotProgram(at));
    }
    let depth = depth - 1;
    let (label, after) = read_label(tokens, at, depth)?;
    let (plain, after) = read_plain(alloc, tokens, after, depth, inner, closer)?;
    Ok((Statement { label, plain }, after))
}

#[tactic(auto, unfolding(grammar::specs::Reading::read, pas_tree::specs::Rules::label_rule))]
fn read_label(
    tokens: &TerminalList,
    at: u32,
    _depth: u32,
) -> Result<(Option<Label>, u32), ParseFault>
    ensures gives { ReadsAs tokens.now label_node result (read pascal _depth label_rule (items_from tokens.now at)) }
    ensures forward { IfOk result (λ x. at ≤ x.1) }
{
    if !tokens.is_next(at, Terminal::Number) {
        return Ok((None, at));
    }
    let (number, after) = tokens.expect(at, Terminal::Number)?;
    let (colon, after) = tokens.expect(after, Terminal::Colon)?;
    Ok((Some(Label { number, colon }), after))
}

/// Reads a statement without its label (6.8.2, 6.8.3).
#[cycle(statements)]
#[tactic(auto, unfolding(grammar::specs::Reading::read, pas_tree::specs::Rules::plain_rule, pas_tree::specs::Rules::goto_rule, pas_tree::specs::Rules::counted_rule))]
fn read_plain(
    alloc: Global,
    tokens: &TerminalList,
    at: u32,
    depth: u32,
    inner: bool,
    closer: ClosingWord,
) -> Result<(Plain, u32), ParseFault>
    ensures gives { ReadsAs tokens.now plain_node result
        (read pascal depth (plain_rule inner (closer_of closer)) (items_from tokens.now at)) }
    ensures forward { IfOk result (λ x. at ≤ x.1) }
{
    match tokens.get(at) {
        Some(Terminal::Name) => read_named(alloc, tokens, at, depth),
        Some(Terminal::WGoto) => {
            let (word, after) = tokens.expect(at, Terminal::WGoto)?;
            let (label, after) = tokens.expect(after, Terminal::Number)?;
            Ok((Plain::Goto(word, label), after))
        }
        Some(Terminal::WBegin) => {
            let (compound, after) = read_compound(alloc, tokens, at, depth)?;
            Ok((Plain::Compound(Box::new(alloc, compound)?), after))
        }
        Some(Terminal::WIf) => read_if(alloc, tokens, at, depth, inner, closer),
        Some(Terminal::WCase) => read_case(alloc, tokens, at, depth),
        Some(Terminal::WRepeat) => read_repeat(alloc, tokens, at, depth),
        Some(Terminal::WWhile) => read_while(alloc, tokens, at, depth, inner, closer),
        Some(Terminal::WFor) => read_for(alloc, tokens, at, depth, inner, closer),
        Some(Terminal::WWith) => read_with(alloc, tokens, at, depth, inner, closer),
        _ => Ok((Plain::Empty, at)),
    }
}

#[tactic(auto, unfolding(grammar::specs::Reading::read, pas_tree::specs::Rules::named_statement_rule, pas_tree::specs::Rules::assignment_rule))]
fn read_named(
    alloc: Global,
    tokens: &TerminalList,
    at: u32,
    depth: u32,
) -> Result<(Plain, u32), ParseFault>
    ensures gives { ReadsAs tokens.now plain_node result
        (read pascal depth named_statement_rule (items_from tokens.now at)) }
    ensures forward { IfOk result (λ x. at < x.1) }
{
    let (name, after) = tokens.expect(at, Terminal::Name)?;
    if tokens.is_next(after, Terminal::LeftParen) {
        let (actuals, after) = read_actuals(alloc, tokens, after, depth)?;
        let actuals = Box::new(alloc, actuals)?;
        return Ok((Plain::Call(name, Some(actuals)), after));
    }
    if is_next_assignment(tokens, after) {
        let (selectors, after) = read_selectors(alloc, tokens, after, depth)?;
        let (becomes, after) = tokens.expect(after, Terminal::Becomes)?;
        let (value, after) = read_expression(alloc, tokens, after, depth)?;
        let assignment = Assignment {
            target: Access { name, selectors },
            becomes,
            value,
        };
        return Ok((Plain::Assignment(Box::new(alloc, assignment)?), after));
    }
    Ok((Plain::Call(name, None), after))
}

#[tactic(auto, unfolding(grammar::specs::Reading::read, pas_tree::specs::Rules::actuals_rule))]
fn read_actuals(
    alloc: Global,
    tokens: &TerminalList,
    at: u32,
    depth: u32,
) -> Result<(Actuals, u32), ParseFault>
    ensures gives { ReadsAs tokens.now actuals_node result (read pascal depth actuals_rule (items_from tokens.now at)) }
    ensures forward { IfOk result (λ x. at < x.1) }
{
    let (open, after) = tokens.expect(at, Terminal::LeftParen)?;
    let (first, after) = read_actual(alloc, tokens, after, depth)?;
    let (others, after) = read_list::<NextActuals>(alloc, tokens, after, depth)?;
    let (close, after) = tokens.expect(after, Terminal::RightParen)?;
    let actuals = Actuals {
        open,
        first,
        others,
        close,
    };
    Ok((actuals, after))
}

/// The actual parameters after the first one.
struct NextActuals;

impl ListPart for NextActuals {
    type Tree = NextActual;

    ghost node = { next_actual_node };

    ghost rule = { next_actual_rule };

    ghost starts = { k.Comma ∷ [] };

    ghost repeats = { parts.next_actual };

    fn is_next(tokens: &TerminalList, at: u32) -> bool {
        tokens.is_next(at, Terminal::Comma)
    }

    #[tactic(auto, unfolding(grammar::specs::Reading::read, pas_tree::specs::Rules::next_actual_rule))]
    fn read(
        alloc: Global,
        tokens: &TerminalList,
        at: u32,
        depth: u32,
    ) -> Result<(NextActual, u32), ParseFault> {
        let (comma, after) = tokens.expect(at, Terminal::Comma)?;
        let (actual, after) = read_actual(alloc, tokens, after, depth)?;
        Ok((NextActual { comma, actual }, after))
    }
}

#[tactic(auto, unfolding(grammar::specs::Reading::read, pas_tree::specs::Rules::actual_rule))]
fn read_actual(
    alloc: Global,
    tokens: &TerminalList,
    at: u32,
    depth: u32,
) -> Result<(Actual, u32), ParseFault>
    ensures gives { ReadsAs tokens.now actual_node result (read pascal depth actual_rule (items_from tokens.now at)) }
    ensures forward { IfOk result (λ x. at ≤ x.1) }
{
    let (expression, after) = read_expression(alloc, tokens, at, depth)?;
    if tokens.is_next(after, Terminal::Colon) {
        let (colon, after) = tokens.expect(after, Terminal::Colon)?;
        let (width, after) = read_expression(alloc, tokens, after, depth)?;
        let width = Some(Width { colon, width });
        return Ok((Actual { expression, width }, after));
    }
    let width = None;
    Ok((Actual { expression, width }, after))
}

/// Reads an if statement (6.8.3.4).
#[cycle(statements)]
#[tactic(auto, unfolding(grammar::specs::Reading::read, pas_tree::specs::Rules::if_rule, pas_tree::specs::Rules::else_rule, pas_tree::specs::Rules::alternative_rule))]
fn read_if(
    alloc: Global,
    tokens: &TerminalList,
    at: u32,
    depth: u32,
    inner: bool,
    closer: ClosingWord,
) -> Result<(Plain, u32), ParseFault>
    ensures gives { ReadsAs tokens.now plain_node result
        (read pascal depth (if_rule inner (closer_of closer)) (items_from tokens.now at)) }
    ensures forward { IfOk result (λ x. at < x.1) }
{
    let (word, after) = tokens.expect(at, Terminal::WIf)?;
    let (condition, after) = read_expression(alloc, tokens, after, depth)?;
    let (then, after) = tokens.expect(after, Terminal::WThen)?;
    let (statement, after) = read_statement(alloc, tokens, after, depth, true, closer)?;
    if tokens.is_next(after, Terminal::WElse) {
        let (else_word, after) = expect_else(tokens, after)?;
        let (other, after) = read_statement(alloc, tokens, after, depth, inner, closer)?;
        let alternative = Some(Else {
            word: else_word,
            statement: other,
        });
        let statement = If {
            word,
            condition,
            then,
            statement,
            alternative,
        };
        return Ok((Plain::If(Box::new(alloc, statement)?), after));
    }
    let alternative = None;
    let statement = If {
        word,
        condition,
        then,
        statement,
        alternative,
    };
    Ok((Plain::If(Box::new(alloc, statement)?), after))
}

/// Reads a case statement (6.8.3.5).
#[cycle(statements)]
#[tactic(auto, using(pas_tree::proofs::StatementRolls::case_rolled), unfolding(grammar::specs::Reading::read, pas_tree::specs::Rules::case_rule))]
fn read_case(
    alloc: Global,
    tokens: &TerminalList,
    at: u32,
    depth: u32,
) -> Result<(Plain, u32), ParseFault>
    ensures gives { ReadsAs tokens.now plain_node result (read pascal depth case_rule (items_from tokens.now at)) }
    ensures forward { IfOk result (λ x. at < x.1) }
{
    let (word, after) = tokens.expect(at, Terminal::WCase)?;
    let (selector, after) = read_expression(alloc, tokens, after, depth)?;
    let (of, after) = tokens.expect(after, Terminal::WOf)?;
    let (first, after) = read_branch(alloc, tokens, after, depth)?;
    let ((others, semicolon), after) = read_next_branches(alloc, tokens, after, depth)?;
    let (end, after) = tokens.expect(after, Terminal::WEnd)?;
    let statement = Case {
        word,
        selector,
        of,
        first,
        others,
        semicolon,
        end,
    };
    Ok((Plain::Case(Box::new(alloc, statement)?), after))
}

/// Reads the branches after the first one, and a semicolon after the last one.
#[cycle(statements)]
fn read_next_branches(
    alloc: Global,
    tokens: &TerminalList,
    at: u32,
    depth: u32,
) -> Result<((Vec<NextBranch>, Option<u32>), u32), ParseFault>
    ensures gives { ReadsAs tokens.now (λ p. chain (map branch_step p.0.items) (last_semicolon_node p.1)) result
        (read pascal depth (series k.Semicolon constant_starts branch_rule nothing) (items_from tokens.now at)) }
    ensures forward { IfOk result (λ x. at ≤ x.1) }
{
    let mut others = Vec::new(alloc);
    let mut next = at;
    'branches: while is_next_case(tokens, next) {
        let (semicolon, after) = tokens.expect(next, Terminal::Semicolon)?;
        let (branch, after) = read_branch(alloc, tokens, after, depth)?;
        others.push(NextBranch { semicolon, branch })?;
        next = after;
    }
    let (end, after) = read_last_semicolon(tokens, next, depth)?;
    Ok(((others, end), after))
}

/// Reads a case list element (6.8.3.5).
#[cycle(statements)]
#[tactic(auto, unfolding(grammar::specs::Reading::read, pas_tree::specs::Rules::branch_rule))]
fn read_branch(
    alloc: Global,
    tokens: &TerminalList,
    at: u32,
    depth: u32,
) -> Result<(Branch, u32), ParseFault>
    ensures gives { ReadsAs tokens.now branch_node result (read pascal depth branch_rule (items_from tokens.now at)) }
    ensures forward { IfOk result (λ x. at < x.1) }
{
    let (constants, after) = read_constants(alloc, tokens, at, depth)?;
    let (colon, after) = tokens.expect(after, Terminal::Colon)?;
    let (statement, after) = read_statement(alloc, tokens, after, depth, false, ClosingWord::End)?;
    let branch = Branch {
        constants,
        colon,
        statement,
    };
    Ok((branch, after))
}

/// Reads a repeat statement (6.8.3.7).
#[cycle(statements)]
#[tactic(auto, unfolding(grammar::specs::Reading::read, pas_tree::specs::Rules::repeat_rule))]
fn read_repeat(
    alloc: Global,
    tokens: &TerminalList,
    at: u32,
    depth: u32,
) -> Result<(Plain, u32), ParseFault>
    ensures gives { ReadsAs tokens.now plain_node result (read pascal depth repeat_rule (items_from tokens.now at)) }
    ensures forward { IfOk result (λ x. at < x.1) }
{
    let (word, after) = tokens.expect(at, Terminal::WRepeat)?;
    let (statements, after) = read_statements(alloc, tokens, after, depth, ClosingWord::Until)?;
    let (until, after) = tokens.expect(after, Terminal::WUntil)?;
    let (condition, after) = read_expression(alloc, tokens, after, depth)?;
    let statement = Repeat {
        word,
        statements,
        until,
        condition,
    };
    Ok((Plain::Repeat(Box::new(alloc, statement)?), after))
}

/// Reads a while statement (6.8.3.8).
#[cycle(statements)]
#[tactic(auto, unfolding(grammar::specs::Reading::read, pas_tree::specs::Rules::while_rule))]
fn read_while(
    alloc: Global,
    tokens: &TerminalList,
    at: u32,
    depth: u32,
    inner: bool,
    closer: ClosingWord,
) -> Result<(Plain, u32), ParseFault>
    ensures gives { ReadsAs tokens.now plain_node result
        (read pascal depth (while_rule inner (closer_of closer)) (items_from tokens.now at)) }
    ensures forward { IfOk result (λ x. at < x.1) }
{
    let (word, after) = tokens.expect(at, Terminal::WWhile)?;
    let (condition, after) = read_expression(alloc, tokens, after, depth)?;
    let (do_word, after) = tokens.expect(after, Terminal::WDo)?;
    let (statement, after) = read_statement(alloc, tokens, after, depth, inner, closer)?;
    let statement = While {
        word,
        condition,
        do_word,
        statement,
    };
    Ok((Plain::While(Box::new(alloc, statement)?), after))
}

/// Reads a for statement (6.8.3.9).
#[cycle(statements)]
#[tactic(auto, unfolding(grammar::specs::Reading::read, pas_tree::specs::Rules::for_rule))]
fn read_for(
    alloc: Global,
    tokens: &TerminalList,
    at: u32,
    depth: u32,
    inner: bool,
    closer: ClosingWord,
) -> Result<(Plain, u32), ParseFault>
    ensures gives { ReadsAs tokens.now plain_node result
        (read pascal depth (for_rule inner (closer_of closer)) (items_from tokens.now at)) }
    ensures forward { IfOk result (λ x. at < x.1) }
{
    let (word, after) = tokens.expect(at, Terminal::WFor)?;
    let (name, after) = tokens.expect(after, Terminal::Name)?;
    let (becomes, after) = tokens.expect(after, Terminal::Becomes)?;
    let (initial, after) = read_expression(alloc, tokens, after, depth)?;
    let (direction, after) = expect_direction(tokens, after)?;
    let (last, after) = read_expression(alloc, tokens, after, depth)?;
    let (do_word, after) = tokens.expect(after, Terminal::WDo)?;
    let (statement, after) = read_statement(alloc, tokens, after, depth, inner, closer)?;
    let statement = For {
        word,
        name,
        becomes,
        initial,
        direction,
        last,
        do_word,
        statement,
    };
    Ok((Plain::For(Box::new(alloc, statement)?), after))
}

/// Reads a with statement (6.8.3.10).
#[cycle(statements)]
#[tactic(auto, unfolding(grammar::specs::Reading::read, pas_tree::specs::Rules::with_rule))]
fn read_with(
    alloc: Global,
    tokens: &TerminalList,
    at: u32,
    depth: u32,
    inner: bool,
    closer: ClosingWord,
) -> Result<(Plain, u32), ParseFault>
    ensures gives { ReadsAs tokens.now plain_node result
        (read pascal depth (with_rule inner (closer_of closer)) (items_from tokens.now at)) }
    ensures forward { IfOk result (λ x. at < x.1) }
{
    let (word, after) = tokens.expect(at, Terminal::WWith)?;
    let (first, after) = read_access(alloc, tokens, after, depth)?;
    let (others, after) = read_list::<NextAccesses>(alloc, tokens, after, depth)?;
    let (do_word, after) = tokens.expect(after, Terminal::WDo)?;
    let (statement, after) = read_statement(alloc, tokens, after, depth, inner, closer)?;
    let statement = With {
        word,
        first,
        others,
        do_word,
        statement,
    };
    Ok((Plain::With(Box::new(alloc, statement)?), after))
}

/// The accesses of a with statement after the first one.
struct NextAccesses;

impl ListPart for NextAccesses {
    type Tree = NextAccess;

    ghost node = { next_access_node };

    ghost rule = { next_access_rule };

    ghost starts = { k.Comma ∷ [] };

    ghost repeats = { parts.next_access };

    fn is_next(tokens: &TerminalList, at: u32) -> bool {
        tokens.is_next(at, Terminal::Comma)
    }

    #[tactic(auto, unfolding(grammar::specs::Reading::read, pas_tree::specs::Rules::next_access_rule))]
    fn read(
        alloc: Global,
        tokens: &TerminalList,
        at: u32,
        depth: u32,
    ) -> Result<(NextAccess, u32), ParseFault> {
        let (comma, after) = tokens.expect(at, Terminal::Comma)?;
        let (access, after) = read_access(alloc, tokens, after, depth)?;
        Ok((NextAccess { comma, access }, after))
    }
}

/// Whether an assignment goes on here, after its name.
fn is_next_assignment(tokens: &TerminalList, at: u32) -> bool
    ensures { result ≡ passes assignment_starts (next (items_from tokens.now at)) }
{
    tokens.is_next_of(
        at,
        &[
            Terminal::Becomes,
            Terminal::LeftBracket,
            Terminal::Dot,
            Terminal::Caret,
        ],
    )
}

/// Whether a statement may begin here, an empty one too.
fn expects_statement(tokens: &TerminalList, at: u32, inner: bool, closer: ClosingWord) -> bool
    ensures { result ≡ expects pascal (statement inner (closer_of closer)) (next (items_from tokens.now at)) }
{
    match tokens.get(at) {
        Some(kind) => is_statement_start(kind) || is_statement_follower(kind, inner, closer),
        None => true,
    }
}

fn is_statement_start(kind: Terminal) -> bool
    ensures { result ≡ first_of (statement false by_end) kind }
{
    is_one_of(
        kind,
        &[
            Terminal::Number,
            Terminal::Name,
            Terminal::WGoto,
            Terminal::WBegin,
            Terminal::WIf,
            Terminal::WCase,
            Terminal::WRepeat,
            Terminal::WWhile,
            Terminal::WFor,
            Terminal::WWith,
        ],
    )
}

fn is_statement_follower(kind: Terminal, inner: bool, closer: ClosingWord) -> bool
    ensures { result ≡ follow_of (statement inner (closer_of closer)) kind }
{
    let closing = match closer {
        ClosingWord::End => Terminal::WEnd,
        ClosingWord::Until => Terminal::WUntil,
    };
    is_one_of(kind, &[Terminal::Semicolon, closing]) || (kind.is(Terminal::WElse) && inner)
}
