//! Reading type denoters.

ghost use Rattle.std.specs.Prelude.{◌<◌, ◌∷◌, ◌≡◌, ◌≤◌, [], IfOk, map};
ghost use Rattle.grammar.specs.{Deciding.expects, Reading.levels, Reading.read, Terminals.passes};
ghost use Rattle.grammar.specs.Grammars.{choice, denoter, many, nothing, seq, series, variant_part, word};
ghost use Rattle.grammar.specs.Nodes.{chain, next, row};
ghost use Rattle.grammar.specs.declared.terminals.Terminal.TheVariants as k;
ghost use Rattle.pas_tree.specs.{FirstFollow.first_of, FirstFollow.pascal, Operators.token_node};
ghost use Rattle.pas_tree.specs.Denoters.{arm_node, arm_step, array_node, denoter_node, enumeration_node, fields_node};
ghost use Rattle.pas_tree.specs.Denoters.{last_semicolon_node, next_denoter_node, record_node, section_node};
ghost use Rattle.pas_tree.specs.Denoters.{section_step, set_node, structure_node, tag_node, variants_node};
ghost use Rattle.pas_tree.specs.Rules.{arm_rule, array_rule, constant_starts, denoter_rule, enumeration_rule};
ghost use Rattle.pas_tree.specs.Rules.{fields_rule, limit_starts, named_denoter_rule, next_denoter_rule, optional};
ghost use Rattle.pas_tree.specs.Rules.{record_rule, section_rule, set_rule, structure_rule, subrange_rule, tag_rule};
ghost use Rattle.pas_tree.specs.Rules.{variant_part_rule, variants_rule};
ghost use Rattle.pas_phrases.specs.Items.{ReadsAs, items_from, optional_token};
ghost use Rattle.pas_denoters.specs.Ends.{sections_end_node};

use grammar::Terminal;
use pas_phrases::ParseFault;
use pas_phrases::constants::{read_constant, read_constants, read_limit, read_names};
use pas_phrases::looking::TerminalList;
use pas_phrases::separators::{is_next_case, read_last_semicolon};
use pas_tree::constants::Constant;
use pas_tree::denoters::{
    Arm, ArrayDenoter, Denoter, Enumeration, Fields, Fixed, NextArm, NextDenoter, NextSection,
    NextVariants, RecordDenoter, Section, SetDenoter, Structure, Tag, TagField, Variants,
};
use std::alloc::Global;

/// What stands after the sections of a fixed part.
#[derive(Drop)]
pub enum SectionsEnd {
    Nothing,
    Semicolon(u32),
    Variants(NextVariants, Option<u32>),
}

/// Reads a type denoter, in which `depth` more levels may be nested.
#[cycle(denoters)]
#[tactic(auto, unfolding(grammar::specs::Reading::read, grammar::specs::Reading::levels, pas_tree::specs::Rules::denoter_rule, pas_tree::specs::Rules::structured_rule))]
pub fn read_denoter(
    alloc: Global,
    tokens: &TerminalList,
    at: u32,
    depth: u32,
) -> Result<(Denoter, u32), ParseFault>
    ensures gives { ReadsAs tokens.now denoter_node result (levels pascal depth denoter (items_from tokens.now at)) }
    ensures forward { IfOk result (λ x. at ≤ x.1) }
{
    if depth == 0 {
        if expects_denoter(tokens, at) {
            return Err(ParseFault::TooDeep(at));
        }
        return Err(ParseFault::NotProgram(at));
    }
    let depth = depth - 1;
    if tokens.is_next(at, Terminal::Name) {
        return read_named_denoter(tokens, at, depth);
    }
    if tokens.is_next(at, Terminal::LeftParen) {
        let (enumeration, after) = read_enumeration(alloc, tokens, at, depth)?;
        return Ok((Denoter::Enumeration(enumeration), after));
    }
    if is_next_limit(tokens, at) {
        return read_subrange(tokens, at, depth);
    }
    if tokens.is_next(at, Terminal::Caret) {
        let (caret, after) = tokens.expect(at, Terminal::Caret)?;
        let (name, after) = tokens.expect(after, Terminal::Name)?;
        return Ok((Denoter::Pointer(caret, name), after));
    }
    let (packed, after) = read_packed(tokens, at)?;
    let (structure, after) = read_structure(alloc, tokens, after, depth)?;
    let structure = Box::new(alloc, structure)?;
    Ok((Denoter::Structure(packed, structure), after))
}

#[tactic(auto, unfolding(grammar::specs::Reading::read, pas_tree::specs::Rules::named_denoter_rule, pas_tree::specs::Rules::range_rule))]
fn read_named_denoter(
    tokens: &TerminalList,
    at: u32,
    depth: u32,
) -> Result<(Denoter, u32), ParseFault>
    ensures gives { ReadsAs tokens.now denoter_node result
        (read pascal depth named_denoter_rule (items_from tokens.now at)) }
    ensures forward { IfOk result (λ x. at < x.1) }
{
    let (name, after) = tokens.expect(at, Terminal::Name)?;
    if tokens.is_next(after, Terminal::Range) {
        let (range, after) = tokens.expect(after, Terminal::Range)?;
        let (last, after) = read_constant(tokens, after, depth)?;
        let first = Constant::Name(None, name);
        return Ok((Denoter::Subrange(first, range, last), after));
    }
    Ok((Denoter::Name(name), after))
}

#[tactic(auto, unfolding(grammar::specs::Reading::read, pas_tree::specs::Rules::subrange_rule, pas_tree::specs::Rules::range_rule))]
fn read_subrange(tokens: &TerminalList, at: u32, depth: u32) -> Result<(Denoter, u32), ParseFault>
    ensures gives { ReadsAs tokens.now denoter_node result
        (read pascal depth subrange_rule (items_from tokens.now at)) }
    ensures forward { IfOk result (λ x. at < x.1) }
{
    let (first, after) = read_limit(tokens, at, depth)?;
    let (range, after) = tokens.expect(after, Terminal::Range)?;
    let (last, after) = read_constant(tokens, after, depth)?;
    Ok((Denoter::Subrange(first, range, last), after))
}

#[tactic(auto, unfolding(grammar::specs::Reading::read, pas_tree::specs::Rules::enumeration_rule))]
fn read_enumeration(
    alloc: Global,
    tokens: &TerminalList,
    at: u32,
    depth: u32,
) -> Result<(Enumeration, u32), ParseFault>
    ensures gives { ReadsAs tokens.now enumeration_node result
        (read pascal depth enumeration_rule (items_from tokens.now at)) }
    ensures forward { IfOk result (λ x. at < x.1) }
{
    let (open, after) = tokens.expect(at, Terminal::LeftParen)?;
    let (names, after) = read_names(alloc, tokens, after, depth)?;
    let (close, after) = tokens.expect(after, Terminal::RightParen)?;
    Ok((Enumeration { open, names, close }, after))
}

fn read_packed(tokens: &TerminalList, at: u32) -> Result<(Option<u32>, u32), ParseFault>
    ensures gives { ReadsAs tokens.now (token_node k.WPacked) result
        (optional_token (k.WPacked ∷ []) (items_from tokens.now at)) }
    ensures forward { IfOk result (λ x. at ≤ x.1) }
{
    if !tokens.is_next(at, Terminal::WPacked) {
        return Ok((None, at));
    }
    let (packed, after) = tokens.expect(at, Terminal::WPacked)?;
    Ok((Some(packed), after))
}

#[cycle(denoters)]
#[tactic(auto, unfolding(grammar::specs::Reading::read, pas_tree::specs::Rules::structure_rule, pas_tree::specs::Rules::record_rule, pas_tree::specs::Rules::set_rule))]
fn read_structure(
    alloc: Global,
    tokens: &TerminalList,
    at: u32,
    depth: u32,
) -> Result<(Structure, u32), ParseFault>
    ensures gives { ReadsAs tokens.now structure_node result
        (read pascal depth structure_rule (items_from tokens.now at)) }
    ensures forward { IfOk result (λ x. at < x.1) }
{
    if tokens.is_next(at, Terminal::WArray) {
        let (array, after) = read_array(alloc, tokens, at, depth)?;
        return Ok((Structure::Array(array), after));
    }
    if tokens.is_next(at, Terminal::WRecord) {
        let (word, after) = tokens.expect(at, Terminal::WRecord)?;
        let (fields, after) = read_fields(alloc, tokens, after, depth)?;
        let (end, after) = tokens.expect(after, Terminal::WEnd)?;
        let record = RecordDenoter { word, fields, end };
        return Ok((Structure::Record(record), after));
    }
    let (word, after) = tokens.expect(at, Terminal::WSet)?;
    let (of, after) = tokens.expect(after, Terminal::WOf)?;
    let (base, after) = read_denoter(alloc, tokens, after, depth)?;
    Ok((Structure::Set(SetDenoter { word, of, base }), after))
}

#[cycle(denoters)]
#[tactic(auto, using(pas_tree::proofs::DenoterRolls::array_rolled), unfolding(grammar::specs::Reading::read, pas_tree::specs::Rules::array_rule))]
fn read_array(
    alloc: Global,
    tokens: &TerminalList,
    at: u32,
    depth: u32,
) -> Result<(ArrayDenoter, u32), ParseFault>
    ensures gives { ReadsAs tokens.now array_node result (read pascal depth array_rule (items_from tokens.now at)) }
    ensures forward { IfOk result (λ x. at < x.1) }
{
    let (word, after) = tokens.expect(at, Terminal::WArray)?;
    let (open, after) = tokens.expect(after, Terminal::LeftBracket)?;
    let (first, after) = read_denoter(alloc, tokens, after, depth)?;
    let (others, after) = read_next_denoters(alloc, tokens, after, depth)?;
    let (close, after) = tokens.expect(after, Terminal::RightBracket)?;
    let (of, after) = tokens.expect(after, Terminal::WOf)?;
    let (component, after) = read_denoter(alloc, tokens, after, depth)?;
    let array = ArrayDenoter {
        word,
        open,
        first,
        others,
        close,
        of,
        component,
    };
    Ok((array, after))
}

#[cycle(denoters)]
#[tactic(auto, using(pas_phrases::proofs::ReadLists::pair_list_reading, pas_tree::proofs::Parts::parts), unfolding(pas_tree::specs::Rules::next_denoter_rule))]
fn read_next_denoters(
    alloc: Global,
    tokens: &TerminalList,
    at: u32,
    depth: u32,
) -> Result<(Vec<NextDenoter>, u32), ParseFault>
    ensures gives { ReadsAs tokens.now (λ v. row (map next_denoter_node v.items)) result
        (read pascal depth (many (k.Comma ∷ []) next_denoter_rule) (items_from tokens.now at)) }
    ensures forward { IfOk result (λ x. at ≤ x.1) }
{
    let mut others = Vec::new(alloc);
    let mut next = at;
    'denoters: while tokens.is_next(next, Terminal::Comma) {
        let (comma, after) = tokens.expect(next, Terminal::Comma)?;
        let (denoter, after) = read_denoter(alloc, tokens, after, depth)?;
        others.push(NextDenoter { comma, denoter })?;
        next = after;
    }
    Ok((others, next))
}

#[cycle(denoters)]
#[tactic(auto, using(pas_tree::proofs::DenoterRolls::fixed_rolled), unfolding(grammar::specs::Reading::read, pas_tree::specs::Rules::fields_rule, pas_tree::specs::Rules::fixed_rule, pas_tree::specs::Rules::variants_rule))]
fn read_fields(
    alloc: Global,
    tokens: &TerminalList,
    at: u32,
    depth: u32,
) -> Result<(Fields, u32), ParseFault>
    ensures gives { ReadsAs tokens.now fields_node result (read pascal depth fields_rule (items_from tokens.now at)) }
    ensures forward { IfOk result (λ x. at ≤ x.1) }
{
    if tokens.is_next(at, Terminal::Name) {
        let (first, after) = read_section(alloc, tokens, at, depth)?;
        let ((others, end), after) = read_sections(alloc, tokens, after, depth)?;
        let fixed = Fixed { first, others };
        return match end {
            SectionsEnd::Nothing => Ok((Fields::Fixed(fixed, None, None), after)),
            SectionsEnd::Semicolon(last) => Ok((Fields::Fixed(fixed, None, Some(last)), after)),
            SectionsEnd::Variants(variants, last) => {
                Ok((Fields::Fixed(fixed, Some(variants), last), after))
            }
        };
    }
    if tokens.is_next(at, Terminal::WCase) {
        let ((variants, last), after) = read_variants(alloc, tokens, at, depth)?;
        let variants = Box::new(alloc, variants)?;
        return Ok((Fields::Variants(variants, last), after));
    }
    Ok((Fields::Empty, at))
}

#[cycle(denoters)]
#[tactic(auto, unfolding(grammar::specs::Reading::read, pas_tree::specs::Rules::section_rule))]
fn read_section(
    alloc: Global,
    tokens: &TerminalList,
    at: u32,
    depth: u32,
) -> Result<(Section, u32), ParseFault>
    ensures gives { ReadsAs tokens.now section_node result (read pascal depth section_rule (items_from tokens.now at)) }
    ensures forward { IfOk result (λ x. at < x.1) }
{
    let (names, after) = read_names(alloc, tokens, at, depth)?;
    let (colon, after) = tokens.expect(after, Terminal::Colon)?;
    let (denoter, after) = read_denoter(alloc, tokens, after, depth)?;
    let section = Section {
        names,
        colon,
        denoter,
    };
    Ok((section, after))
}

#[cycle(denoters)]
#[tactic(auto, using(pas_phrases::proofs::ReadSeries::pair_series_reading))]
fn read_sections(
    alloc: Global,
    tokens: &TerminalList,
    at: u32,
    depth: u32,
) -> Result<((Vec<NextSection>, SectionsEnd), u32), ParseFault>
    ensures gives { ReadsAs tokens.now (λ p. chain (map section_step p.0.items) (sections_end_node p.1)) result
        (read pascal depth (series k.Semicolon (k.Name ∷ []) section_rule variants_rule) (items_from tokens.now at)) }
    ensures forward { IfOk result (λ x. at ≤ x.1) }
{
    let mut others = Vec::new(alloc);
    let mut next = at;
    'sections: while tokens.is_next_pair(next, Terminal::Semicolon, &[Terminal::Name]) {
        let (semicolon, after) = tokens.expect(next, Terminal::Semicolon)?;
        let (section, after) = read_section(alloc, tokens, after, depth)?;
        others.push(NextSection { semicolon, section })?;
        next = after;
    }
    let (end, after) = read_sections_end(alloc, tokens, next, depth)?;
    Ok(((others, end), after))
}

#[cycle(denoters)]
#[tactic(auto, unfolding(grammar::specs::Reading::read, pas_tree::specs::Rules::variants_rule))]
fn read_sections_end(
    alloc: Global,
    tokens: &TerminalList,
    at: u32,
    depth: u32,
) -> Result<(SectionsEnd, u32), ParseFault>
    ensures gives { ReadsAs tokens.now sections_end_node result
        (read pascal depth (choice (k.Semicolon ∷ []) (seq (word k.Semicolon) variants_rule) nothing)
        (items_from tokens.now at)) }
    ensures forward { IfOk result (λ x. at ≤ x.1) }
{
    if !tokens.is_next(at, Terminal::Semicolon) {
        return Ok((SectionsEnd::Nothing, at));
    }
    let (semicolon, after) = tokens.expect(at, Terminal::Semicolon)?;
    if !tokens.is_next(after, Terminal::WCase) {
        return Ok((SectionsEnd::Semicolon(semicolon), after));
    }
    let ((variants, last), after) = read_variants(alloc, tokens, after, depth)?;
    let variants = Box::new(alloc, variants)?;
    let next = NextVariants {
        semicolon,
        variants,
    };
    Ok((SectionsEnd::Variants(next, last), after))
}

#[cycle(denoters)]
#[tactic(auto, using(pas_tree::proofs::DenoterRolls::variants_rolled), unfolding(grammar::specs::Reading::read, grammar::specs::Reading::levels, pas_tree::specs::Rules::variant_part_rule))]
fn read_variants(
    alloc: Global,
    tokens: &TerminalList,
    at: u32,
    depth: u32,
) -> Result<((Variants, Option<u32>), u32), ParseFault>
    ensures gives { ReadsAs tokens.now (λ p. variants_node p.0 p.1) result
        (levels pascal depth variant_part (items_from tokens.now at)) }
    ensures forward { IfOk result (λ x. at ≤ x.1) }
{
    if depth == 0 {
        if expects_variants(tokens, at) {
            return Err(ParseFault::TooDeep(at));
        }
        return Err(ParseFault::NotProgram(at));
    }
    let depth = depth - 1;
    let (word, after) = tokens.expect(at, Terminal::WCase)?;
    let (tag, after) = read_tag(tokens, after, depth)?;
    let (of, after) = tokens.expect(after, Terminal::WOf)?;
    let (first, after) = read_arm(alloc, tokens, after, depth)?;
    let ((others, last), after) = read_arms(alloc, tokens, after, depth)?;
    let variants = Variants {
        word,
        tag,
        of,
        first,
        others,
    };
    Ok(((variants, last), after))
}

#[tactic(auto, unfolding(grammar::specs::Reading::read, pas_tree::specs::Rules::tag_rule))]
fn read_tag(tokens: &TerminalList, at: u32, _depth: u32) -> Result<(Tag, u32), ParseFault>
    ensures gives { ReadsAs tokens.now tag_node result (read pascal _depth tag_rule (items_from tokens.now at)) }
    ensures forward { IfOk result (λ x. at < x.1) }
{
    let (name, after) = tokens.expect(at, Terminal::Name)?;
    if tokens.is_next(after, Terminal::Colon) {
        let (colon, after) = tokens.expect(after, Terminal::Colon)?;
        let field = Some(TagField { name, colon });
        let (name, after) = tokens.expect(after, Terminal::Name)?;
        return Ok((Tag { field, name }, after));
    }
    let field = None;
    Ok((Tag { field, name }, after))
}

#[cycle(denoters)]
#[tactic(auto, unfolding(grammar::specs::Reading::read, pas_tree::specs::Rules::arm_rule))]
fn read_arm(
    alloc: Global,
    tokens: &TerminalList,
    at: u32,
    depth: u32,
) -> Result<(Arm, u32), ParseFault>
    ensures gives { ReadsAs tokens.now arm_node result (read pascal depth arm_rule (items_from tokens.now at)) }
    ensures forward { IfOk result (λ x. at < x.1) }
{
    let (constants, after) = read_constants(alloc, tokens, at, depth)?;
    let (colon, after) = tokens.expect(after, Terminal::Colon)?;
    let (open, after) = tokens.expect(after, Terminal::LeftParen)?;
    let (fields, after) = read_fields(alloc, tokens, after, depth)?;
    let (close, after) = tokens.expect(after, Terminal::RightParen)?;
    let arm = Arm {
        constants,
        colon,
        open,
        fields,
        close,
    };
    Ok((arm, after))
}

#[cycle(denoters)]
#[tactic(auto, using(pas_phrases::proofs::ReadSeries::pair_series_reading))]
fn read_arms(
    alloc: Global,
    tokens: &TerminalList,
    at: u32,
    depth: u32,
) -> Result<((Vec<NextArm>, Option<u32>), u32), ParseFault>
    ensures gives { ReadsAs tokens.now (λ p. chain (map arm_step p.0.items) (last_semicolon_node p.1)) result
        (read pascal depth (series k.Semicolon constant_starts arm_rule nothing) (items_from tokens.now at)) }
    ensures forward { IfOk result (λ x. at ≤ x.1) }
{
    let mut others = Vec::new(alloc);
    let mut next = at;
    'arms: while is_next_case(tokens, next) {
        let (semicolon, after) = tokens.expect(next, Terminal::Semicolon)?;
        let (arm, after) = read_arm(alloc, tokens, after, depth)?;
        others.push(NextArm { semicolon, arm })?;
        next = after;
    }
    let (end, after) = read_last_semicolon(tokens, next, depth)?;
    Ok(((others, end), after))
}

/// Whether a constant that is no name is next.
fn is_next_limit(tokens: &TerminalList, at: u32) -> bool
    ensures { result ≡ passes limit_starts (next (items_from tokens.now at)) }
{
    tokens.is_next_of(
        at,
        &[
            Terminal::Number,
            Terminal::Plus,
            Terminal::Minus,
            Terminal::Text,
        ],
    )
}

/// Whether a type denoter may begin here.
fn expects_denoter(tokens: &TerminalList, at: u32) -> bool
    ensures { result ≡ expects pascal denoter (next (items_from tokens.now at)) }
{
    match tokens.get(at) {
        Some(kind) => is_denoter_start(kind),
        None => false,
    }
}

fn is_denoter_start(kind: Terminal) -> bool
    ensures { result ≡ first_of denoter kind }
{
    matches!(
        kind,
        Terminal::Name
            | Terminal::LeftParen
            | Terminal::Number
            | Terminal::Plus
            | Terminal::Minus
            | Terminal::Text
            | Terminal::Caret
            | Terminal::WPacked
            | Terminal::WArray
            | Terminal::WRecord
            | Terminal::WSet
    )
}

/// Whether a variant part may begin here.
fn expects_variants(tokens: &TerminalList, at: u32) -> bool
    ensures { result ≡ expects pascal variant_part (next (items_from tokens.now at)) }
{
    match tokens.get(at) {
        Some(kind) => is_variants_start(kind),
        None => false,
    }
}

fn is_variants_start(kind: Terminal) -> bool
    ensures { result ≡ first_of variant_part kind }
{
    matches!(kind, Terminal::WCase)
}
