//! Reading blocks and whole programs.

ghost use Rattle.std.specs.Prelude.{◌<◌, ◌∷◌, ◌≡◌, ◌≤◌, [], IfOk, IsTrue, length, map};
ghost use Rattle.grammar.specs.{Deciding.expects, Reading.levels, Reading.read, Terminals.passes};
ghost use Rattle.grammar.specs.Grammars.{block, level, many, seq, word};
ghost use Rattle.grammar.specs.Nodes.{Pair, leaf, next, row};
ghost use Rattle.grammar.specs.declared.terminals.Terminal.TheVariants as k;
ghost use Rattle.pas_tree.{proofs.Parts.parts, specs.FirstFollow.first_of, specs.FirstFollow.pascal};
ghost use Rattle.pas_tree.specs.{Blocks.variable_part_node, Rules.variable_part_rule};
ghost use Rattle.pas_tree.specs.Blocks.{block_node, body_node, constant_definition_node, constant_part_node};
ghost use Rattle.pas_tree.specs.Blocks.{label_part_node, next_label_node, parameters_node, routine_node, tree_node};
ghost use Rattle.pas_tree.specs.Blocks.{type_definition_node, type_part_node, variable_declaration_node};
ghost use Rattle.pas_tree.specs.Rules.{block_rule, body_rule, constant_definition_rule, constant_part_rule};
ghost use Rattle.pas_tree.specs.Rules.{heading_starts, label_part_rule, next_label_rule, parameters_rule, program_rule};
ghost use Rattle.pas_tree.specs.Rules.{routine_rule, type_definition_rule, type_part_rule, variable_declaration_rule};
ghost use Rattle.pas_phrases.specs.Items.{ReadsAs, items_from};

use grammar::Terminal;
use pas_denoters::{read_denoter, read_heading};
use pas_phrases::ParseFault;
use pas_phrases::constants::{read_constant, read_names};
use pas_phrases::lists::{ListPart, read_list};
use pas_phrases::looking::TerminalList;
use pas_statements::read_compound;
use pas_tree::blocks::{
    Block, ConstantDefinition, ConstantPart, LabelPart, NextLabel, Parameters, Routine,
    RoutineBody, Tree, TypeDefinition, TypePart, VariableDeclaration, VariablePart,
};
use std::alloc::Global;

/// Reads a whole program, in which `depth` levels may be nested.
#[tactic(auto, unfolding(grammar::specs::Reading::read, pas_tree::specs::Rules::program_rule))]
pub fn read_tree(
    alloc: Global,
    tokens: &TerminalList,
    at: u32,
    depth: u32,
) -> Result<(Tree, u32), ParseFault>
    ensures gives { ReadsAs tokens.now tree_node result (read pascal depth program_rule (items_from tokens.now at)) }
    ensures forward { IfOk result (λ x. at < x.1) }
{
    let (word, after) = tokens.expect(at, Terminal::WProgram)?;
    let (name, after) = tokens.expect(after, Terminal::Name)?;
    let (parameters, after) = read_parameters(alloc, tokens, after, depth)?;
    let (semicolon, after) = tokens.expect(after, Terminal::Semicolon)?;
    let ((block, dot, end), after) = read_rest(alloc, tokens, after, depth)?;
    let tree = Tree {
        word,
        name,
        parameters,
        semicolon,
        block,
        dot,
        end,
    };
    Ok((tree, after))
}

/// Reads a program's block, and its end.
#[tactic(auto, unfolding(grammar::specs::Reading::read))]
fn read_rest(
    alloc: Global,
    tokens: &TerminalList,
    at: u32,
    depth: u32,
) -> Result<((Block, u32, u32), u32), ParseFault>
    ensures gives { ReadsAs tokens.now (λ p. Pair (block_node p.0) (Pair (leaf k.Dot p.1) (leaf k.End p.2))) result
        (read pascal depth (seq (level block) (seq (word k.Dot) (word k.End))) (items_from tokens.now at)) }
    ensures forward { IfOk result (λ x. at < x.1) }
{
    let (block, after) = read_block(alloc, tokens, at, depth)?;
    let ((dot, end), after) = read_end(tokens, after, depth)?;
    Ok(((block, dot, end), after))
}

/// Reads the dot of a program, and takes the token after the last one.
#[tactic(auto, unfolding(grammar::specs::Reading::read))]
fn read_end(tokens: &TerminalList, at: u32, _depth: u32) -> Result<((u32, u32), u32), ParseFault>
    ensures gives { ReadsAs tokens.now (λ p. Pair (leaf k.Dot p.0) (leaf k.End p.1)) result
        (read pascal _depth (seq (word k.Dot) (word k.End)) (items_from tokens.now at)) }
    ensures forward { IfOk result (λ x. at < x.1) }
{
    let (dot, after) = tokens.expect(at, Terminal::Dot)?;
    let (end, after) = tokens.expect(after, Terminal::End)?;
    Ok(((dot, end), after))
}

#[tactic(auto, unfolding(grammar::specs::Reading::read, pas_tree::specs::Rules::parameters_rule))]
fn read_parameters(
    alloc: Global,
    tokens: &TerminalList,
    at: u32,
    depth: u32,
) -> Result<(Option<Parameters>, u32), ParseFault>
    ensures gives { ReadsAs tokens.now parameters_node result
        (read pascal depth parameters_rule (items_from tokens.now at)) }
    ensures forward { IfOk result (λ x. at ≤ x.1) }
{
    if !tokens.is_next(at, Terminal::LeftParen) {
        return Ok((None, at));
    }
    let (open, after) = tokens.expect(at, Terminal::LeftParen)?;
    let (names, after) = read_names(alloc, tokens, after, depth)?;
    let (close, after) = tokens.expect(after, Terminal::RightParen)?;
    Ok((Some(Parameters { open, names, close }), after))
}

#[cycle(blocks)]
#[tactic(auto, unfolding(grammar::specs::Reading::read, grammar::specs::Reading::levels))]
fn read_block(
    alloc: Global,
    tokens: &TerminalList,
    at: u32,
    depth: u32,
) -> Result<(Block, u32), ParseFault>
    ensures gives { ReadsAs tokens.now block_node result (levels pascal depth block (items_from tokens.now at)) }
    ensures forward { IfOk result (λ x. at ≤ x.1) }
{
    if depth == 0 {
        if expects_block(tokens, at) {
            return Err(ParseFault::TooDeep(at));
        }
        return Err(ParseFault::NotProgram(at));
    }
    read_inner_block(alloc, tokens, at, depth - 1)
}

#[cycle(blocks)]
#[tactic(auto, using(pas_tree::proofs::BlockRolls::block_rolled), unfolding(grammar::specs::Reading::read, pas_tree::specs::Rules::block_rule, pas_tree::specs::Rules::routines_rule))]
fn read_inner_block(
    alloc: Global,
    tokens: &TerminalList,
    at: u32,
    depth: u32,
) -> Result<(Block, u32), ParseFault>
    ensures gives { ReadsAs tokens.now block_node result (read pascal depth block_rule (items_from tokens.now at)) }
    ensures forward { IfOk result (λ x. at ≤ x.1) }
{
    let (labels, after) = read_label_part(alloc, tokens, at, depth)?;
    let (constants, after) = read_constant_part(alloc, tokens, after, depth)?;
    let (types, after) = read_type_part(alloc, tokens, after, depth)?;
    let (variables, after) = read_variable_part(alloc, tokens, after, depth)?;
    let (routines, after) = read_routines(alloc, tokens, after, depth)?;
    let (body, after) = read_compound(alloc, tokens, after, depth)?;
    let block = Block {
        labels,
        constants,
        types,
        variables,
        routines,
        body,
    };
    Ok((block, after))
}

#[cycle(blocks)]
#[tactic(auto, using(pas_phrases::proofs::ReadLists::list_reading, pas_tree::proofs::Parts::parts))]
fn read_routines(
    alloc: Global,
    tokens: &TerminalList,
    at: u32,
    depth: u32,
) -> Result<(Vec<Routine>, u32), ParseFault>
    ensures gives { ReadsAs tokens.now (λ v. row (map routine_node v.items)) result
        (read pascal depth (many heading_starts routine_rule) (items_from tokens.now at)) }
    ensures forward { IfOk result (λ x. at ≤ x.1) }
{
    let mut others = Vec::new(alloc);
    let mut next = at;
    'routines: while is_next_heading(tokens, next) {
        let (other, after) = read_routine(alloc, tokens, next, depth)?;
        others.push(other)?;
        next = after;
    }
    Ok((others, next))
}

#[cycle(blocks)]
#[tactic(auto, unfolding(grammar::specs::Reading::read, pas_tree::specs::Rules::routine_rule))]
fn read_routine(
    alloc: Global,
    tokens: &TerminalList,
    at: u32,
    depth: u32,
) -> Result<(Routine, u32), ParseFault>
    ensures gives { ReadsAs tokens.now routine_node result (read pascal depth routine_rule (items_from tokens.now at)) }
    ensures forward { IfOk result (λ x. at < x.1) }
{
    let (heading, after) = read_heading(alloc, tokens, at, depth)?;
    let (semicolon, after) = tokens.expect(after, Terminal::Semicolon)?;
    let (body, after) = read_body(alloc, tokens, after, depth)?;
    let (last_semicolon, after) = tokens.expect(after, Terminal::Semicolon)?;
    let routine = Routine {
        heading,
        semicolon,
        body,
        last_semicolon,
    };
    Ok((routine, after))
}

#[cycle(blocks)]
#[tactic(auto, unfolding(grammar::specs::Reading::read, pas_tree::specs::Rules::body_rule))]
fn read_body(
    alloc: Global,
    tokens: &TerminalList,
    at: u32,
    depth: u32,
) -> Result<(RoutineBody, u32), ParseFault>
    ensures gives { ReadsAs tokens.now body_node result (read pascal depth body_rule (items_from tokens.now at)) }
    ensures forward { IfOk result (λ x. at ≤ x.1) }
{
    if tokens.is_next(at, Terminal::Name) {
        let (directive, after) = tokens.expect(at, Terminal::Name)?;
        return Ok((RoutineBody::Directive(directive), after));
    }
    let (block, after) = read_block(alloc, tokens, at, depth)?;
    Ok((RoutineBody::Block(Box::new(alloc, block)?), after))
}

#[tactic(auto, unfolding(grammar::specs::Reading::read, pas_tree::specs::Rules::label_part_rule))]
fn read_label_part(
    alloc: Global,
    tokens: &TerminalList,
    at: u32,
    depth: u32,
) -> Result<(Option<LabelPart>, u32), ParseFault>
    ensures gives { ReadsAs tokens.now label_part_node result
        (read pascal depth label_part_rule (items_from tokens.now at)) }
    ensures forward { IfOk result (λ x. at ≤ x.1) }
{
    if !tokens.is_next(at, Terminal::WLabel) {
        return Ok((None, at));
    }
    let (word, after) = tokens.expect(at, Terminal::WLabel)?;
    let (first, after) = tokens.expect(after, Terminal::Number)?;
    let (others, after) = read_list::<NextLabels>(alloc, tokens, after, depth)?;
    let (semicolon, after) = tokens.expect(after, Terminal::Semicolon)?;
    let part = LabelPart {
        word,
        first,
        others,
        semicolon,
    };
    Ok((Some(part), after))
}

/// The labels after the first one.
struct NextLabels;

impl ListPart for NextLabels {
    type Tree = NextLabel;

    ghost node = { next_label_node };

    ghost rule = { next_label_rule };

    ghost starts = { k.Comma ∷ [] };

    ghost repeats = { parts.next_label };

    fn is_next(tokens: &TerminalList, at: u32) -> bool {
        tokens.is_next(at, Terminal::Comma)
    }

    #[tactic(auto, unfolding(grammar::specs::Reading::read, pas_tree::specs::Rules::next_label_rule))]
    fn read(
        _alloc: Global,
        tokens: &TerminalList,
        at: u32,
        _depth: u32,
    ) -> Result<(NextLabel, u32), ParseFault> {
        let (comma, after) = tokens.expect(at, Terminal::Comma)?;
        let (number, after) = tokens.expect(after, Terminal::Number)?;
        Ok((NextLabel { comma, number }, after))
    }
}

#[tactic(auto, unfolding(grammar::specs::Reading::read, pas_tree::specs::Rules::constant_part_rule))]
fn read_constant_part(
    alloc: Global,
    tokens: &TerminalList,
    at: u32,
    depth: u32,
) -> Result<(Option<ConstantPart>, u32), ParseFault>
    ensures gives { ReadsAs tokens.now constant_part_node result
        (read pascal depth constant_part_rule (items_from tokens.now at)) }
    ensures forward { IfOk result (λ x. at ≤ x.1) }
{
    if !tokens.is_next(at, Terminal::WConst) {
        return Ok((None, at));
    }
    let (word, after) = tokens.expect(at, Terminal::WConst)?;
    let (first, after) = ConstantDefinitions::read(alloc, tokens, after, depth)?;
    let (others, after) = read_list::<ConstantDefinitions>(alloc, tokens, after, depth)?;
    let part = ConstantPart {
        word,
        first,
        others,
    };
    Ok((Some(part), after))
}

/// The definitions of constants.
struct ConstantDefinitions;

impl ListPart for ConstantDefinitions {
    type Tree = ConstantDefinition;

    ghost node = { constant_definition_node };

    ghost rule = { constant_definition_rule };

    ghost starts = { k.Name ∷ [] };

    ghost repeats = { parts.constant_definition };

    fn is_next(tokens: &TerminalList, at: u32) -> bool {
        tokens.is_next(at, Terminal::Name)
    }

    #[tactic(auto, unfolding(grammar::specs::Reading::read, pas_tree::specs::Rules::constant_definition_rule))]
    fn read(
        _alloc: Global,
        tokens: &TerminalList,
        at: u32,
        depth: u32,
    ) -> Result<(ConstantDefinition, u32), ParseFault> {
        let (name, after) = tokens.expect(at, Terminal::Name)?;
        let (equal, after) = tokens.expect(after, Terminal::Equal)?;
        let (constant, after) = read_constant(tokens, after, depth)?;
        let (semicolon, after) = tokens.expect(after, Terminal::Semicolon)?;
        let definition = ConstantDefinition {
            name,
            equal,
            constant,
            semicolon,
        };
        Ok((definition, after))
    }
}

#[tactic(auto, unfolding(grammar::specs::Reading::read, pas_tree::specs::Rules::type_part_rule))]
fn read_type_part(
    alloc: Global,
    tokens: &TerminalList,
    at: u32,
    depth: u32,
) -> Result<(Option<TypePart>, u32), ParseFault>
    ensures gives { ReadsAs tokens.now type_part_node result
        (read pascal depth type_part_rule (items_from tokens.now at)) }
    ensures forward { IfOk result (λ x. at ≤ x.1) }
{
    if !tokens.is_next(at, Terminal::WType) {
        return Ok((None, at));
    }
    let (word, after) = tokens.expect(at, Terminal::WType)?;
    let (first, after) = TypeDefinitions::read(alloc, tokens, after, depth)?;
    let (others, after) = read_list::<TypeDefinitions>(alloc, tokens, after, depth)?;
    let part = TypePart {
        word,
        first,
        others,
    };
    Ok((Some(part), after))
}

/// The definitions of types.
struct TypeDefinitions;

impl ListPart for TypeDefinitions {
    type Tree = TypeDefinition;

    ghost node = { type_definition_node };

    ghost rule = { type_definition_rule };

    ghost starts = { k.Name ∷ [] };

    ghost repeats = { parts.type_definition };

    fn is_next(tokens: &TerminalList, at: u32) -> bool {
        tokens.is_next(at, Terminal::Name)
    }

    #[tactic(auto, unfolding(grammar::specs::Reading::read, pas_tree::specs::Rules::type_definition_rule))]
    fn read(
        alloc: Global,
        tokens: &TerminalList,
        at: u32,
        depth: u32,
    ) -> Result<(TypeDefinition, u32), ParseFault> {
        let (name, after) = tokens.expect(at, Terminal::Name)?;
        let (equal, after) = tokens.expect(after, Terminal::Equal)?;
        let (denoter, after) = read_denoter(alloc, tokens, after, depth)?;
        let (semicolon, after) = tokens.expect(after, Terminal::Semicolon)?;
        let definition = TypeDefinition {
            name,
            equal,
            denoter,
            semicolon,
        };
        Ok((definition, after))
    }
}

#[tactic(auto, unfolding(grammar::specs::Reading::read, pas_tree::specs::Rules::variable_part_rule))]
fn read_variable_part(
    alloc: Global,
    tokens: &TerminalList,
    at: u32,
    depth: u32,
) -> Result<(Option<VariablePart>, u32), ParseFault>
    ensures gives { ReadsAs tokens.now variable_part_node result
        (read pascal depth variable_part_rule (items_from tokens.now at)) }
    ensures forward { IfOk result (λ x. at ≤ x.1) }
{
    if !tokens.is_next(at, Terminal::WVar) {
        return Ok((None, at));
    }
    let (word, after) = tokens.expect(at, Terminal::WVar)?;
    let (first, after) = VariableDeclarations::read(alloc, tokens, after, depth)?;
    let (others, after) = read_list::<VariableDeclarations>(alloc, tokens, after, depth)?;
    let part = VariablePart {
        word,
        first,
        others,
    };
    Ok((Some(part), after))
}

/// The declarations of variables.
struct VariableDeclarations;

impl ListPart for VariableDeclarations {
    type Tree = VariableDeclaration;

    ghost node = { variable_declaration_node };

    ghost rule = { variable_declaration_rule };

    ghost starts = { k.Name ∷ [] };

    ghost repeats = { parts.variable_declaration };

    fn is_next(tokens: &TerminalList, at: u32) -> bool {
        tokens.is_next(at, Terminal::Name)
    }

    #[tactic(auto, unfolding(grammar::specs::Reading::read, pas_tree::specs::Rules::variable_declaration_rule))]
    fn read(
        alloc: Global,
        tokens: &TerminalList,
        at: u32,
        depth: u32,
    ) -> Result<(VariableDeclaration, u32), ParseFault> {
        let (names, after) = read_names(alloc, tokens, at, depth)?;
        let (colon, after) = tokens.expect(after, Terminal::Colon)?;
        let (denoter, after) = read_denoter(alloc, tokens, after, depth)?;
        let (semicolon, after) = tokens.expect(after, Terminal::Semicolon)?;
        let declaration = VariableDeclaration {
            names,
            colon,
            denoter,
            semicolon,
        };
        Ok((declaration, after))
    }
}

/// Whether a heading is next.
fn is_next_heading(tokens: &TerminalList, at: u32) -> bool
    ensures tests { result ≡ passes heading_starts (next (items_from tokens.now at)) }
    ensures inside { IsTrue result → at < length tokens.now }
{
    tokens.is_next_of(at, &[Terminal::WProcedure, Terminal::WFunction])
}

/// Whether a block may begin here.
fn expects_block(tokens: &TerminalList, at: u32) -> bool
    ensures { result ≡ expects pascal block (next (items_from tokens.now at)) }
{
    match tokens.get(at) {
        Some(kind) => is_block_start(kind),
        None => false,
    }
}

fn is_block_start(kind: Terminal) -> bool
    ensures { result ≡ first_of block kind }
{
    matches!(
        kind,
        Terminal::WLabel
            | Terminal::WConst
            | Terminal::WType
            | Terminal::WVar
            | Terminal::WProcedure
            | Terminal::WFunction
            | Terminal::WBegin
    )
}
