//! The names of a list.

ghost use Rattle.std.specs.Prelude.{◌≡◌, IfOk};
ghost use Rattle.pas_tree.specs.ConstantTrees.{names_tree};
ghost use Rattle.check_steps.specs.Steps.{Does, each};
ghost use Rattle.kind_checker.specs.Names.{define_name, defined_as, each_name, on_name};

use check_steps::{Def, Definition, Work};
use pas_tree::constants::{Names, NextName};
use std::alloc::AllocError;

/// What a name that a list defines stands for.
#[derive(Clone, Copy, PartialEq, Eq)]
pub enum NameKind {
    /// A constant of an enumeration.
    Constant,
    Variable,
    Field,
    Formal,
}

/// The definition of a name of a kind at a token.
fn defined_as(kind: NameKind, token: u32) -> Def
    ensures { result ≡ defined_as kind token }
{
    match kind {
        NameKind::Constant => Def::Constant(token),
        NameKind::Variable => Def::Variable(token),
        NameKind::Field => Def::Field(token),
        NameKind::Formal => Def::Formal(token),
    }
}

/// Defines a name, which may be used from its own token on.
#[tactic(auto, unfolding(crate::specs::Names::define_name))]
pub fn define_name(
    work: &mut Work,
    region: u32,
    kind: NameKind,
    token: u32,
) -> Result<(), AllocError>
    ensures { IfOk result (λ _. Does (define_name region kind tt token) tt work.old work.new) }
{
    let definition = Definition {
        def: defined_as(kind, token),
        token,
        end: token,
    };
    work.define_in(region, definition)
}

#[tactic(auto, unfolding(crate::specs::Names::on_name))]
fn define_next_name(
    work: &mut Work,
    region: u32,
    kind: NameKind,
    next: &NextName,
) -> Result<(), AllocError>
    ensures { IfOk result (λ _. Does (on_name (define_name region kind) tt next.now) tt work.old work.new) }
{
    define_name(work, region, kind, next.name)
}

#[tactic(auto, using(check_steps::proofs::Runs::read_loops))]
fn define_more_names(
    work: &mut Work,
    region: u32,
    kind: NameKind,
    names: &[NextName],
) -> Result<(), AllocError>
    ensures { IfOk result (λ _. Does (each (on_name (define_name region kind)) tt names.now) tt work.old work.new) }
{
    'names: for name in names {
        define_next_name(work, region, kind, name)?;
    }
    Ok(())
}

/// Defines the names of a list in turn.
#[tactic(auto, using(check_steps::proofs::Runs::steps))]
pub fn define_names(
    work: &mut Work,
    region: u32,
    kind: NameKind,
    names: &Names,
) -> Result<(), AllocError>
    ensures { IfOk result (λ _. Does (each_name (define_name region kind) tt (names_tree names.now)) tt work.old
        work.new) }
{
    define_name(work, region, kind, names.first)?;
    define_more_names(work, region, kind, &names.others)?;
    Ok(())
}
