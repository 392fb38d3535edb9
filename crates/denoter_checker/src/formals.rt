//! What headings have, and the names of their formal parameters (6.6.1, 6.6.2, 6.6.3.1).

ghost use Rattle.std.specs.Prelude.{◌≡◌, IfOk, option_copied};
ghost use Rattle.pas_tree.specs.HeadingTrees.{formal_names_tree, formal_tree, formals_in, formals_tree, heading_tree};
ghost use Rattle.check_steps.specs.Steps.{Does, each};
ghost use Rattle.denoter_checker.specs.Formals.{define_each_formal, define_formal, define_formal_names, define_formals};
ghost use Rattle.denoter_checker.specs.Formals.{define_formals_at, define_next_formal, formals_of, is_complete};
ghost use Rattle.denoter_checker.specs.Formals.{is_function, result_of};

use crate::schemas::define_bounds;
use check_steps::Work;
use kind_checker::names::{NameKind, define_name, define_names};
use pas_tree::heading_name;
use pas_tree::headings::{Formal, FormalNames, Formals, Heading, NextFormal, ResultType};
use std::alloc::AllocError;

/// Whether a heading is a function's.
pub fn is_function(heading: &Heading) -> bool
    ensures { result ≡ is_function (heading_tree heading.now) }
{
    match heading {
        Heading::Procedure(_) => false,
        Heading::Function(_) => true,
    }
}

/// The formal parameters of a heading, in parentheses, if it has some.
#[tactic(auto, using(pas_tree::proofs::HeadingViews::heading_views))]
pub fn formals_of(heading: &Heading) -> Option<&Formals>
    ensures { formals_in (option_copied result) ≡ formals_of (heading_tree heading.now) }
{
    match heading {
        Heading::Procedure(procedure) => procedure.formals.as_ref(),
        Heading::Function(function) => function.formals.as_ref(),
    }
}

/// The result type of a heading, if one is written.
#[tactic(auto, using(pas_tree::proofs::HeadingViews::heading_views))]
pub fn result_of(heading: &Heading) -> Option<&ResultType>
    ensures { option_copied result ≡ result_of (heading_tree heading.now) }
{
    match heading {
        Heading::Procedure(_) => None,
        Heading::Function(function) => function.result.as_ref(),
    }
}

/// Whether a heading has a result type if it is a function's.
#[tactic(auto, using(pas_tree::proofs::HeadingViews::heading_views))]
pub(crate) fn is_complete(heading: &Heading) -> bool
    ensures { result ≡ is_complete (heading_tree heading.now) }
{
    match heading {
        Heading::Procedure(_) => true,
        Heading::Function(function) => function.result.is_some(),
    }
}

#[tactic(auto, using(check_steps::proofs::Runs::steps), unfolding(crate::specs::Formals::define_formal_names))]
fn define_formal_names(
    work: &mut Work,
    region: u32,
    section: &FormalNames,
) -> Result<(), AllocError>
    ensures { IfOk result (λ _. Does (define_formal_names region (formal_names_tree section.now)) tt work.old
        work.new) }
{
    define_names(work, region, NameKind::Formal, &section.names)?;
    define_bounds(work, region, &section.of)?;
    Ok(())
}

#[tactic(auto, using(check_steps::proofs::Runs::steps))]
fn define_formal(work: &mut Work, region: u32, formal: &Formal) -> Result<(), AllocError>
    ensures { IfOk result (λ _. Does (define_formal region (formal_tree formal.now)) tt work.old work.new) }
{
    match formal {
        Formal::Value(section) => define_formal_names(work, region, section),
        Formal::Variable(_, section) => define_formal_names(work, region, section),
        Formal::Routine(heading) => define_name(
            work,
            region,
            NameKind::Formal,
            heading_name(heading),
        ),
    }
}

#[tactic(auto, unfolding(crate::specs::Formals::define_next_formal))]
fn define_next_formal(work: &mut Work, region: u32, next: &NextFormal) -> Result<(), AllocError>
    ensures { IfOk result (λ _. Does (define_next_formal region tt next.now) tt work.old work.new) }
{
    define_formal(work, region, &next.formal)
}

#[tactic(auto, using(check_steps::proofs::Runs::loops))]
fn define_other_formals(
    work: &mut Work,
    region: u32,
    others: &[NextFormal],
) -> Result<(), AllocError>
    ensures { IfOk result (λ _. Does (each (define_next_formal region) tt others.now) tt work.old work.new) }
{
    'others: for other in others {
        define_next_formal(work, region, other)?;
    }
    Ok(())
}

#[tactic(auto, using(check_steps::proofs::Runs::steps, pas_tree::proofs::HeadingViews::formals_view, crate::proofs::Walks::formals_defined))]
fn define_each_formal(work: &mut Work, region: u32, formals: &Formals) -> Result<(), AllocError>
    ensures { IfOk result (λ _. Does (define_each_formal region (formals_tree formals.now)) tt work.old work.new) }
{
    define_formal(work, region, &formals.first)?;
    define_other_formals(work, region, &formals.others)?;
    Ok(())
}

/// Defines the names of a heading's formals in a region.
#[tactic(auto, using(check_steps::proofs::Runs::steps))]
pub fn define_formals(work: &mut Work, region: u32, heading: &Heading) -> Result<(), AllocError>
    ensures { IfOk result (λ _. Does (define_formals region (heading_tree heading.now)) tt work.old work.new) }
{
    match formals_of(heading) {
        None => Ok(()),
        Some(formals) => define_each_formal(work, region, formals),
    }
}

/// Defines the names of a heading's formals in the region of a frame.
#[tactic(auto, using(check_steps::proofs::Runs::steps), unfolding(crate::specs::Formals::define_formals_at))]
pub fn define_formals_at(work: &mut Work, frame: u32, heading: &Heading) -> Result<(), AllocError>
    ensures { IfOk result (λ _. Does (define_formals_at frame (heading_tree heading.now)) tt work.old work.new) }
{
    let region = work.tables.frame(frame).region;
    define_formals(work, region, heading)
}
