//! Type denoters (6.4).

ghost use Rattle.std.specs.Prelude.{◌≡◌, IfOk};
ghost use Rattle.pas_tree.specs.DenoterTrees.{array_tree, denoter_tree, fields_tree, fixed_tree, part_in, section_tree};
ghost use Rattle.pas_tree.specs.DenoterTrees.{structure_tree, variants_tree};
ghost use Rattle.check_steps.specs.Steps.{Does, each};
ghost use Rattle.denoter_checker.specs.Denoters.{array_denoter, denoter, fields_at, fixed_at, next_arm, next_index};
ghost use Rattle.denoter_checker.specs.Denoters.{next_section, record_type, section, structure, variants_after};
ghost use Rattle.denoter_checker.specs.Denoters.{variants_at};

use crate::arrays::{check_array, check_joins, put_index};
use crate::defines::define_record;
use crate::records::{
    check_choosing, check_field_places, inside, open_record, part_at, put_record, variants_word,
};
use crate::variants::put_variants;
use check_steps::Work;
use kind_checker::Scope;
use kind_checker::constants::check_constant;
use kind_checker::sizes::offset_after;
use kind_checker::types::{
    check_enumeration, check_named_type, check_ordinal, check_pointer, check_set_type,
    check_subrange,
};
use pas_tree::denoters::{
    ArrayDenoter, Denoter, Fields, Fixed, NextArm, NextDenoter, NextSection, NextVariants, Section,
    Structure, Variants,
};
use pas_tree::first_of_denoter;
use std::alloc::{AllocError, Global};

/// The type that is written, by its number.
#[cycle(denoters)]
#[tactic(auto, using(check_steps::proofs::Runs::steps))]
pub fn check_denoter(
    work: &mut Work,
    alloc: Global,
    d: &Denoter,
    scope: Scope,
) -> Result<u32, AllocError>
    ensures { IfOk result (λ x. Does (denoter scope (denoter_tree d.now)) x work.old work.new) }
{
    match d {
        Denoter::Name(token) => Ok(check_named_type(work, scope.frame, *token)),
        Denoter::Enumeration(e) => Ok(check_enumeration(work, e)),
        Denoter::Subrange(first, dots, last) => {
            let first = check_constant(work, scope.frame, first);
            let last = check_constant(work, scope.frame, last);
            Ok(check_subrange(work, first, *dots, last))
        }
        Denoter::Pointer(caret, name) => Ok(check_pointer(work, scope, *caret, *name)),
        Denoter::Structure(packed, s) => check_structure(work, alloc, s, packed.is_some(), scope),
    }
}

#[cycle(denoters)]
#[tactic(auto, using(check_steps::proofs::Runs::steps))]
fn check_structure(
    work: &mut Work,
    alloc: Global,
    s: &Structure,
    packed: bool,
    scope: Scope,
) -> Result<u32, AllocError>
    ensures { IfOk result (λ x. Does (structure scope packed (structure_tree s.now)) x work.old work.new) }
{
    match s {
        Structure::Array(array) => check_array_denoter(work, alloc, array, packed, scope),
        Structure::Record(record) => {
            check_record(work, alloc, &record.fields, record.word, packed, scope)
        }
        Structure::Set(set) => {
            let written = check_denoter(work, alloc, &set.base, scope)?;
            let first = first_of_denoter(&set.base);
            Ok(check_set_type(work, packed, set.word, first, set.of, written))
        }
    }
}

#[cycle(denoters)]
#[tactic(auto, using(check_steps::proofs::Runs::steps))]
fn check_record(
    work: &mut Work,
    alloc: Global,
    fields: &Fields,
    word: u32,
    packed: bool,
    scope: Scope,
) -> Result<u32, AllocError>
    ensures { IfOk result (λ x. Does (record_type scope packed word (fields_tree fields.now)) x work.old work.new) }
{
    let frame = open_record(work, alloc, scope.frame, word)?;
    define_record(work, frame, fields)?;
    let cells = check_fields(work, alloc, fields, inside(scope, frame), word, 0)?;
    Ok(put_record(work, packed, word, frame, cells, variants_word(fields)))
}

#[cycle(denoters)]
#[tactic(auto, using(check_steps::proofs::Runs::steps, pas_tree::proofs::DenoterViews::fields_view))]
fn check_fields(
    work: &mut Work,
    alloc: Global,
    fields: &Fields,
    scope: Scope,
    holder: u32,
    offset: u32,
) -> Result<u32, AllocError>
    ensures { IfOk result (λ x. Does (fields_at scope holder offset (fields_tree fields.now)) x work.old work.new) }
{
    match fields {
        Fields::Empty => Ok(offset),
        Fields::Fixed(fixed, part, _) => {
            let next = check_fixed(work, alloc, fixed, scope, holder, offset)?;
            check_part(work, alloc, part, scope, holder, next)
        }
        Fields::Variants(variants, _) => {
            check_variants(work, alloc, variants, scope, holder, offset)
        }
    }
}

#[cycle(denoters)]
#[tactic(auto, using(check_steps::proofs::Runs::steps))]
fn check_part(
    work: &mut Work,
    alloc: Global,
    part: &Option<NextVariants>,
    scope: Scope,
    holder: u32,
    offset: u32,
) -> Result<u32, AllocError>
    ensures { IfOk result (λ x. Does (variants_after scope holder offset (part_in part.now)) x work.old work.new) }
{
    match part {
        None => Ok(offset),
        Some(part) => check_variants(work, alloc, &part.variants, scope, holder, offset),
    }
}

#[cycle(denoters)]
#[tactic(auto, using(check_steps::proofs::Runs::steps, pas_tree::proofs::DenoterViews::fixed_view, crate::proofs::Walks::sections_each))]
fn check_fixed(
    work: &mut Work,
    alloc: Global,
    fixed: &Fixed,
    scope: Scope,
    holder: u32,
    offset: u32,
) -> Result<u32, AllocError>
    ensures { IfOk result (λ x. Does (fixed_at scope holder offset (fixed_tree fixed.now)) x work.old work.new) }
{
    let next = check_section(work, alloc, &fixed.first, scope, holder, offset)?;
    check_sections(work, alloc, &fixed.others, scope, holder, next)
}

#[cycle(denoters)]
#[tactic(auto, using(check_steps::proofs::Runs::loops), unfolding(crate::specs::Denoters::next_section))]
fn check_sections(
    work: &mut Work,
    alloc: Global,
    sections: &[NextSection],
    scope: Scope,
    holder: u32,
    offset: u32,
) -> Result<u32, AllocError>
    ensures { IfOk result (λ x. Does (each (next_section scope holder) offset sections.now) x work.old work.new) }
{
    let mut next = offset;
    'sections: for section in sections {
        next = check_section(work, alloc, &section.section, scope, holder, next)?;
    }
    Ok(next)
}

#[cycle(denoters)]
#[tactic(auto, using(check_steps::proofs::Runs::steps))]
fn check_section(
    work: &mut Work,
    alloc: Global,
    s: &Section,
    scope: Scope,
    holder: u32,
    offset: u32,
) -> Result<u32, AllocError>
    ensures { IfOk result (λ x. Does (section scope holder offset (section_tree s.now)) x work.old work.new) }
{
    let kind = check_denoter(work, alloc, &s.denoter, scope)?;
    Ok(check_field_places(work, holder, kind, offset, &s.names))
}

#[cycle(denoters)]
#[tactic(auto, using(check_steps::proofs::Runs::steps, pas_tree::proofs::DenoterViews::variants_view, crate::proofs::Walks::arms_each))]
fn check_variants(
    work: &mut Work,
    alloc: Global,
    v: &Variants,
    scope: Scope,
    holder: u32,
    offset: u32,
) -> Result<u32, AllocError>
    ensures { IfOk result (λ x. Does (variants_at scope holder offset (variants_tree v.now)) x work.old work.new) }
{
    let place = part_at(scope, v.word, holder, offset);
    let _listed = check_choosing(work, place, v)?;
    let fields = &v.first.fields;
    let after_tag = offset_after(offset, 1);
    let next = check_fields(work, alloc, fields, scope, v.first.open, after_tag)?;
    let end = check_arms(work, alloc, &v.others, scope, next)?;
    Ok(put_variants(work, place, v.tag.field.is_none(), v.of, end))
}

#[cycle(denoters)]
#[tactic(auto, using(check_steps::proofs::Runs::loops), unfolding(crate::specs::Denoters::next_arm))]
fn check_arms(
    work: &mut Work,
    alloc: Global,
    arms: &[NextArm],
    scope: Scope,
    offset: u32,
) -> Result<u32, AllocError>
    ensures { IfOk result (λ x. Does (each (next_arm scope) offset arms.now) x work.old work.new) }
{
    let mut next = offset;
    'arms: for arm in arms {
        next = check_fields(work, alloc, &arm.arm.fields, scope, arm.arm.open, next)?;
    }
    Ok(next)
}

#[cycle(denoters)]
#[tactic(auto, using(check_steps::proofs::Runs::steps, pas_tree::proofs::DenoterViews::array_view, crate::proofs::Walks::indexes_each, crate::proofs::Walks::joins_each))]
fn check_array_denoter(
    work: &mut Work,
    alloc: Global,
    a: &ArrayDenoter,
    packed: bool,
    scope: Scope,
) -> Result<u32, AllocError>
    ensures { IfOk result (λ x. Does (array_denoter scope packed (array_tree a.now)) x work.old work.new) }
{
    let written = check_denoter(work, alloc, &a.first, scope)?;
    let index = check_ordinal(work, first_of_denoter(&a.first), a.word, written);
    check_other_indexes(work, alloc, &a.others, a.word, scope)?;
    let kind = check_denoter(work, alloc, &a.component, scope)?;
    let inner = check_joins(work, packed, &a.others, kind);
    Ok(check_array(work, packed, a.open, index, inner))
}

#[cycle(denoters)]
#[tactic(auto, using(check_steps::proofs::Runs::loops, check_steps::proofs::Runs::steps), unfolding(crate::specs::Denoters::next_index))]
fn check_other_indexes(
    work: &mut Work,
    alloc: Global,
    others: &[NextDenoter],
    word: u32,
    scope: Scope,
) -> Result<(), AllocError>
    ensures { IfOk result (λ _. Does (each (next_index scope word) tt others.now) tt work.old work.new) }
{
    'others: for other in others {
        let written = check_denoter(work, alloc, &other.denoter, scope)?;
        let index = check_ordinal(work, first_of_denoter(&other.denoter), word, written);
        put_index(work, other.comma, index);
    }
    Ok(())
}
