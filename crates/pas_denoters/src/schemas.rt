//! Reading the types of formal parameters, and schemas.

ghost use Rattle.std.specs.Prelude.{◌<◌, ◌∷◌, ◌≡◌, ◌≤◌, [], IfOk};
ghost use Rattle.grammar.specs.{Deciding.expects, Grammars.schema, Nodes.next, Reading.levels, Reading.read};
ghost use Rattle.grammar.specs.declared.terminals.Terminal.TheVariants as k;
ghost use Rattle.pas_tree.proofs.Parts.{parts};
ghost use Rattle.pas_tree.specs.{FirstFollow.first_of, FirstFollow.pascal, Rules.specs_rule};
ghost use Rattle.pas_tree.specs.{Rules.unpacked_schema_rule, Schemas.specs_node, Schemas.unpacked_schema_node};
ghost use Rattle.pas_tree.specs.Rules.{formal_type_rule, next_spec_rule, packed_schema_rule, schema_rule, spec_rule};
ghost use Rattle.pas_tree.specs.Schemas.{formal_type_node, next_spec_node, packed_schema_node, schema_node, spec_node};
ghost use Rattle.pas_phrases.specs.Items.{ReadsAs, items_from};

use grammar::Terminal;
use pas_phrases::ParseFault;
use pas_phrases::lists::{ListPart, read_list};
use pas_phrases::looking::TerminalList;
use pas_tree::schemas::{FormalType, NextSpec, PackedSchema, Schema, Spec, Specs, UnpackedSchema};
use std::alloc::Global;

/// Reads the type of a section of parameters, in which `depth` more levels may be nested.
#[cycle(schemas)]
#[tactic(auto, unfolding(grammar::specs::Reading::read, pas_tree::specs::Rules::formal_type_rule))]
pub fn read_formal_type(
    alloc: Global,
    tokens: &TerminalList,
    at: u32,
    depth: u32,
) -> Result<(FormalType, u32), ParseFault>
    ensures gives { ReadsAs tokens.now formal_type_node result
        (read pascal depth formal_type_rule (items_from tokens.now at)) }
    ensures forward { IfOk result (λ x. at ≤ x.1) }
{
    if tokens.is_next(at, Terminal::Name) {
        let (name, after) = tokens.expect(at, Terminal::Name)?;
        return Ok((FormalType::Name(name), after));
    }
    let (schema, after) = read_schema(alloc, tokens, at, depth)?;
    Ok((FormalType::Schema(Box::new(alloc, schema)?), after))
}

#[cycle(schemas)]
#[tactic(auto, unfolding(grammar::specs::Reading::read, grammar::specs::Reading::levels, pas_tree::specs::Rules::schema_rule))]
fn read_schema(
    alloc: Global,
    tokens: &TerminalList,
    at: u32,
    depth: u32,
) -> Result<(Schema, u32), ParseFault>
    ensures gives { ReadsAs tokens.now schema_node result (levels pascal depth schema (items_from tokens.now at)) }
    ensures forward { IfOk result (λ x. at ≤ x.1) }
{
    if depth == 0 {
        if expects_schema(tokens, at) {
            return Err(ParseFault::TooDeep(at));
        }
        return Err(ParseFault::NotProgram(at));
    }
    let depth = depth - 1;
    if tokens.is_next(at, Terminal::WPacked) {
        let (packed, after) = read_packed_schema(tokens, at, depth)?;
        return Ok((Schema::Packed(packed), after));
    }
    let (unpacked, after) = read_unpacked_schema(alloc, tokens, at, depth)?;
    Ok((Schema::Unpacked(unpacked), after))
}

#[tactic(auto, unfolding(grammar::specs::Reading::read, pas_tree::specs::Rules::packed_schema_rule))]
fn read_packed_schema(
    tokens: &TerminalList,
    at: u32,
    depth: u32,
) -> Result<(PackedSchema, u32), ParseFault>
    ensures gives { ReadsAs tokens.now packed_schema_node result
        (read pascal depth packed_schema_rule (items_from tokens.now at)) }
    ensures forward { IfOk result (λ x. at < x.1) }
{
    let (packed, after) = tokens.expect(at, Terminal::WPacked)?;
    let (word, after) = tokens.expect(after, Terminal::WArray)?;
    let (open, after) = tokens.expect(after, Terminal::LeftBracket)?;
    let (spec, after) = read_spec(tokens, after, depth)?;
    let (close, after) = tokens.expect(after, Terminal::RightBracket)?;
    let (of, after) = tokens.expect(after, Terminal::WOf)?;
    let (component, after) = tokens.expect(after, Terminal::Name)?;
    let schema = PackedSchema {
        packed,
        word,
        open,
        spec,
        close,
        of,
        component,
    };
    Ok((schema, after))
}

#[cycle(schemas)]
#[tactic(auto, unfolding(grammar::specs::Reading::read, pas_tree::specs::Rules::unpacked_schema_rule))]
fn read_unpacked_schema(
    alloc: Global,
    tokens: &TerminalList,
    at: u32,
    depth: u32,
) -> Result<(UnpackedSchema, u32), ParseFault>
    ensures gives { ReadsAs tokens.now unpacked_schema_node result
        (read pascal depth unpacked_schema_rule (items_from tokens.now at)) }
    ensures forward { IfOk result (λ x. at < x.1) }
{
    let (word, after) = tokens.expect(at, Terminal::WArray)?;
    let (open, after) = tokens.expect(after, Terminal::LeftBracket)?;
    let (specs, after) = read_specs(alloc, tokens, after, depth)?;
    let (close, after) = tokens.expect(after, Terminal::RightBracket)?;
    let (of, after) = tokens.expect(after, Terminal::WOf)?;
    let (component, after) = read_formal_type(alloc, tokens, after, depth)?;
    let schema = UnpackedSchema {
        word,
        open,
        specs,
        close,
        of,
        component,
    };
    Ok((schema, after))
}

/// Reads specs with semicolons between them.
#[tactic(auto, unfolding(grammar::specs::Reading::read, pas_tree::specs::Rules::specs_rule))]
fn read_specs(
    alloc: Global,
    tokens: &TerminalList,
    at: u32,
    depth: u32,
) -> Result<(Specs, u32), ParseFault>
    ensures gives { ReadsAs tokens.now specs_node result (read pascal depth specs_rule (items_from tokens.now at)) }
    ensures forward { IfOk result (λ x. at < x.1) }
{
    let (first, after) = read_spec(tokens, at, depth)?;
    let (others, after) = read_list::<NextSpecs>(alloc, tokens, after, depth)?;
    Ok((Specs { first, others }, after))
}

struct NextSpecs;

impl ListPart for NextSpecs {
    type Tree = NextSpec;

    ghost node = { next_spec_node };

    ghost rule = { next_spec_rule };

    ghost starts = { k.Semicolon ∷ [] };

    ghost repeats = { parts.next_spec };

    fn is_next(tokens: &TerminalList, at: u32) -> bool {
        tokens.is_next(at, Terminal::Semicolon)
    }

    #[tactic(auto, unfolding(grammar::specs::Reading::read, pas_tree::specs::Rules::next_spec_rule))]
    fn read(
        _alloc: Global,
        tokens: &TerminalList,
        at: u32,
        depth: u32,
    ) -> Result<(NextSpec, u32), ParseFault> {
        let (semicolon, after) = tokens.expect(at, Terminal::Semicolon)?;
        let (spec, after) = read_spec(tokens, after, depth)?;
        Ok((NextSpec { semicolon, spec }, after))
    }
}

#[tactic(auto, unfolding(grammar::specs::Reading::read, pas_tree::specs::Rules::spec_rule))]
fn read_spec(tokens: &TerminalList, at: u32, _depth: u32) -> Result<(Spec, u32), ParseFault>
    ensures gives { ReadsAs tokens.now spec_node result (read pascal _depth spec_rule (items_from tokens.now at)) }
    ensures forward { IfOk result (λ x. at < x.1) }
{
    let (least, after) = tokens.expect(at, Terminal::Name)?;
    let (range, after) = tokens.expect(after, Terminal::Range)?;
    let (greatest, after) = tokens.expect(after, Terminal::Name)?;
    let (colon, after) = tokens.expect(after, Terminal::Colon)?;
    let (of, after) = tokens.expect(after, Terminal::Name)?;
    let spec = Spec {
        least,
        range,
        greatest,
        colon,
        of,
    };
    Ok((spec, after))
}

/// Whether a schema may begin here.
fn expects_schema(tokens: &TerminalList, at: u32) -> bool
    ensures { result ≡ expects pascal schema (next (items_from tokens.now at)) }
{
    match tokens.get(at) {
        Some(kind) => is_schema_start(kind),
        None => false,
    }
}

fn is_schema_start(kind: Terminal) -> bool
    ensures { result ≡ first_of schema kind }
{
    matches!(kind, Terminal::WPacked | Terminal::WArray)
}
