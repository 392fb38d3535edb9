//! The parts of a block that define types and declare variables (6.2.1).

ghost use Rattle.std.specs.Prelude.{◌≡◌, IfOk};
ghost use Rattle.pas_tree.specs.{BlockTrees.variable_part_tree, ConstantTrees.names_tree};
ghost use Rattle.pas_tree.specs.BlockTrees.{type_definition_tree, type_part_tree, variable_declaration_tree};
ghost use Rattle.check_steps.specs.Steps.{Does, each};
ghost use Rattle.kind_checker.specs.Names.{each_name, on_name};
ghost use Rattle.denoter_checker.specs.Parts.{at_names, define_next_type, define_next_variable, define_type};
ghost use Rattle.denoter_checker.specs.Parts.{define_variable, domains, next_type_definition};
ghost use Rattle.denoter_checker.specs.Parts.{next_variable_declaration, place_variable, settle_domain, settled};
ghost use Rattle.denoter_checker.specs.Parts.{type_definition, type_part, types_in, variable_declaration, variables_in};

use crate::defines::define_denoter;
use crate::denoters::check_denoter;
use check_steps::{Def, Definition, Tables, Work};
use core_program::rows::{Mode, NameRow, Row, TypeRow};
use kind_checker::Scope;
use kind_checker::names::{NameKind, define_names};
use kind_checker::sizes::{MOST_CELLS, place_after};
use kind_checker::types::type_named;
use pas_tree::blocks::{TypeDefinition, TypePart, VariableDeclaration, VariablePart};
use pas_tree::constants::{Names, NextName};
use std::alloc::{AllocError, Global};

#[tactic(auto, using(check_steps::proofs::Runs::steps), unfolding(crate::specs::Parts::define_type))]
fn define_type(work: &mut Work, region: u32, d: &TypeDefinition) -> Result<(), AllocError>
    ensures { IfOk result (λ _. Does (define_type region tt (type_definition_tree d.now)) tt work.old work.new) }
{
    let definition = Definition {
        def: Def::TypeName(d.name),
        token: d.name,
        end: d.semicolon,
    };
    work.define_in(region, definition)?;
    define_denoter(work, &d.denoter, region)?;
    Ok(())
}

#[tactic(auto, using(check_steps::proofs::Runs::loops), unfolding(crate::specs::Parts::define_next_type))]
fn define_more_types(
    work: &mut Work,
    region: u32,
    parts: &[TypeDefinition],
) -> Result<(), AllocError>
    ensures { IfOk result (λ _. Does (each (define_next_type region) tt parts.now) tt work.old work.new) }
{
    'parts: for part in parts {
        define_type(work, region, part)?;
    }
    Ok(())
}

/// Defines the types of a part, and the constants of the enumerations in them.
#[tactic(auto, using(check_steps::proofs::Runs::steps, crate::proofs::Walks::types_defined))]
pub fn define_types(work: &mut Work, region: u32, part: &TypePart) -> Result<(), AllocError>
    ensures { IfOk result (λ _. Does (each (define_type region) tt (types_in (type_part_tree part.now))) tt work.old
        work.new) }
{
    define_type(work, region, &part.first)?;
    define_more_types(work, region, &part.others)?;
    Ok(())
}

#[tactic(auto, using(check_steps::proofs::Runs::steps), unfolding(crate::specs::Parts::type_definition))]
fn check_type_definition(
    work: &mut Work,
    alloc: Global,
    d: &TypeDefinition,
    scope: Scope,
) -> Result<(), AllocError>
    ensures { IfOk result (λ _. Does (type_definition scope tt (type_definition_tree d.now)) tt work.old work.new) }
{
    let of = check_denoter(work, alloc, &d.denoter, scope)?;
    work.put(d.name, Row::Name(NameRow::TypeName { of }));
    Ok(())
}

#[tactic(auto, using(check_steps::proofs::Runs::loops), unfolding(crate::specs::Parts::next_type_definition))]
fn check_more_types(
    work: &mut Work,
    alloc: Global,
    parts: &[TypeDefinition],
    scope: Scope,
) -> Result<(), AllocError>
    ensures { IfOk result (λ _. Does (each (next_type_definition scope) tt parts.now) tt work.old work.new) }
{
    'parts: for part in parts {
        check_type_definition(work, alloc, part, scope)?;
    }
    Ok(())
}

#[tactic(auto, using(check_steps::proofs::Runs::steps, crate::proofs::Walks::types_each))]
fn check_each_type(
    work: &mut Work,
    alloc: Global,
    part: &TypePart,
    scope: Scope,
) -> Result<(), AllocError>
    ensures { IfOk result (λ _. Does (each (type_definition scope) tt (types_in (type_part_tree part.now))) tt work.old
        work.new) }
{
    check_type_definition(work, alloc, &part.first, scope)?;
    check_more_types(work, alloc, &part.others, scope)?;
    Ok(())
}

fn settled(tables: &Tables, row: Row) -> Row
    ensures { result ≡ settled tables.now row }
{
    match row {
        Row::Type(TypeRow::Pointer { domain }) => Row::Type(TypeRow::Pointer {
            domain: type_named(tables.row(domain), domain),
        }),
        _ => row,
    }
}

#[tactic(auto, using(check_steps::proofs::Runs::steps), unfolding(crate::specs::Parts::settle_domain))]
fn settle_domain(work: &mut Work, token: u32)
    ensures { Does (settle_domain token) tt work.old work.new }
{
    let row = settled(&work.tables, work.tables.row(token));
    work.put(token, row);
}

/// Gives the pointers from a token on to the one after a part the types for which their domains' definitions stand.
#[tactic(auto, using(crate::proofs::DomainSteps::domain_loops))]
fn settle_domains(work: &mut Work, first: u32, after: u32)
    ensures { Does (domains first after) tt work.old work.new }
{
    'tokens: for token in first..after {
        settle_domain(work, token);
    }
}

/// What the types of a part are, seen from a frame. The part stands in front of the token `after`, and the domain of a
/// pointer is looked up as if there.
#[tactic(auto, using(check_steps::proofs::Runs::steps))]
pub fn check_types(
    work: &mut Work,
    alloc: Global,
    part: &TypePart,
    frame: u32,
    after: u32,
) -> Result<(), AllocError>
    ensures { IfOk result (λ _. Does (type_part frame after (type_part_tree part.now)) tt work.old work.new) }
{
    let scope = Scope {
        frame,
        domains_at: Some(after),
    };
    check_each_type(work, alloc, part, scope)?;
    settle_domains(work, part.word, after);
    Ok(())
}

#[tactic(auto, using(check_steps::proofs::Runs::steps), unfolding(crate::specs::Parts::define_variable))]
fn define_variable(work: &mut Work, region: u32, d: &VariableDeclaration) -> Result<(), AllocError>
    ensures { IfOk result (λ _. Does (define_variable region tt (variable_declaration_tree d.now)) tt work.old
        work.new) }
{
    define_names(work, region, NameKind::Variable, &d.names)?;
    define_denoter(work, &d.denoter, region)?;
    Ok(())
}

#[tactic(auto, using(check_steps::proofs::Runs::loops), unfolding(crate::specs::Parts::define_next_variable))]
fn define_more_variables(
    work: &mut Work,
    region: u32,
    parts: &[VariableDeclaration],
) -> Result<(), AllocError>
    ensures { IfOk result (λ _. Does (each (define_next_variable region) tt parts.now) tt work.old work.new) }
{
    'parts: for part in parts {
        define_variable(work, region, part)?;
    }
    Ok(())
}

/// Defines the variables of a part, and the constants of the enumerations in their types.
#[tactic(auto, using(check_steps::proofs::Runs::steps, crate::proofs::Walks::variables_defined))]
pub fn define_variables(work: &mut Work, region: u32, part: &VariablePart) -> Result<(), AllocError>
    ensures { IfOk result (λ _. Does (each (define_variable region) tt (variables_in (variable_part_tree part.now))) tt
        work.old work.new) }
{
    define_variable(work, region, &part.first)?;
    define_more_variables(work, region, &part.others)?;
    Ok(())
}

#[tactic(auto, using(check_steps::proofs::Runs::steps), unfolding(crate::specs::Parts::place_variable))]
fn check_place(work: &mut Work, level: u32, of: u32, at: u32, token: u32) -> u32
    ensures { Does (place_variable level of at token) result work.old work.new }
{
    let row = NameRow::Variable {
        mode: Mode::Own,
        of,
        place: at,
        level,
    };
    work.put(token, Row::Name(row));
    let cells = work.tables.program().size_of(of);
    work.too_big(token, cells <= MOST_CELLS);
    place_after(at, cells)
}

#[tactic(auto, unfolding(kind_checker::specs::Names::on_name))]
fn check_next_place(work: &mut Work, level: u32, of: u32, at: u32, next: &NextName) -> u32
    ensures { Does (on_name (place_variable level of) at next.now) result work.old work.new }
{
    check_place(work, level, of, at, next.name)
}

#[tactic(auto, using(check_steps::proofs::Runs::read_loops))]
fn check_more_places(work: &mut Work, level: u32, of: u32, at: u32, names: &[NextName]) -> u32
    ensures { Does (each (on_name (place_variable level of)) at names.now) result work.old work.new }
{
    let mut next = at;
    'names: for name in names {
        next = check_next_place(work, level, of, next, name);
    }
    next
}

/// The places of variables of one type, and the place after them.
#[tactic(auto, using(check_steps::proofs::Runs::steps))]
fn check_places(work: &mut Work, level: u32, of: u32, at: u32, names: &Names) -> u32
    ensures { Does (each_name (place_variable level of) at (names_tree names.now)) result work.old work.new }
{
    let next = check_place(work, level, of, at, names.first);
    check_more_places(work, level, of, next, &names.others)
}

fn at_names(frame: u32) -> Scope
    ensures { result ≡ at_names frame }
{
    Scope {
        frame,
        domains_at: None,
    }
}

#[tactic(auto, using(check_steps::proofs::Runs::steps), unfolding(crate::specs::Parts::variable_declaration))]
fn check_variable(
    work: &mut Work,
    alloc: Global,
    d: &VariableDeclaration,
    frame: u32,
    at: u32,
) -> Result<u32, AllocError>
    ensures { IfOk result (λ x. Does (variable_declaration frame at (variable_declaration_tree d.now)) x work.old
        work.new) }
{
    let level = work.tables.frame(frame).level;
    let of = check_denoter(work, alloc, &d.denoter, at_names(frame))?;
    Ok(check_places(work, level, of, at, &d.names))
}

#[tactic(auto, using(check_steps::proofs::Runs::loops), unfolding(crate::specs::Parts::next_variable_declaration))]
fn check_more_variables(
    work: &mut Work,
    alloc: Global,
    parts: &[VariableDeclaration],
    frame: u32,
    at: u32,
) -> Result<u32, AllocError>
    ensures { IfOk result (λ x. Does (each (next_variable_declaration frame) at parts.now) x work.old work.new) }
{
    let mut next = at;
    'parts: for part in parts {
        next = check_variable(work, alloc, part, frame, next)?;
    }
    Ok(next)
}

/// The places of the variables of a part from a place in the frame on, and the place after them.
#[tactic(auto, using(check_steps::proofs::Runs::steps, crate::proofs::Walks::variables_each))]
pub fn check_variables(
    work: &mut Work,
    alloc: Global,
    part: &VariablePart,
    frame: u32,
    at: u32,
) -> Result<u32, AllocError>
    ensures { IfOk result (λ x. Does (each (variable_declaration frame) at (variables_in (variable_part_tree part.now)))
        x work.old work.new) }
{
    let next = check_variable(work, alloc, &part.first, frame, at)?;
    check_more_variables(work, alloc, &part.others, frame, next)
}
