//! The names that denoters define: constants of enumerations in the region around, and fields in a record's region.

ghost use Rattle.std.specs.Prelude.{◌≡◌, IfOk};
ghost use Rattle.pas_tree.specs.DenoterTrees.{array_tree, denoter_tree, fields_tree, fixed_tree, part_in, section_tree};
ghost use Rattle.pas_tree.specs.DenoterTrees.{structure_tree, variants_tree};
ghost use Rattle.check_steps.specs.Steps.{Does, each};
ghost use Rattle.denoter_checker.specs.Defines.{define_array, define_denoter, define_field, define_fixed};
ghost use Rattle.denoter_checker.specs.Defines.{define_in_fields, define_next_arm, define_next_section, define_other};
ghost use Rattle.denoter_checker.specs.Defines.{define_part, define_record, define_section, define_structure};
ghost use Rattle.denoter_checker.specs.Defines.{define_tag, define_variants};

use check_steps::Work;
use kind_checker::names::{NameKind, define_name, define_names};
use pas_tree::denoters::{
    ArrayDenoter, Denoter, Fields, Fixed, NextArm, NextDenoter, NextSection, NextVariants, Section,
    Structure, TagField, Variants,
};
use std::alloc::AllocError;

/// Which names of a field list are to be defined.
#[derive(Clone, Copy, PartialEq, Eq)]
pub enum Wanted {
    /// Those of its fields, tag fields too.
    Fields,
    /// The constants of the enumerations in the types of its fields.
    Constants,
}

#[tactic(auto, using(check_steps::proofs::Runs::steps))]
fn define_field(work: &mut Work, region: u32, field: &Option<TagField>) -> Result<(), AllocError>
    ensures { IfOk result (λ _. Does (define_field region field.now) tt work.old work.new) }
{
    match field {
        None => Ok(()),
        Some(field) => define_name(work, region, NameKind::Field, field.name),
    }
}

#[tactic(auto, using(check_steps::proofs::Runs::steps))]
fn define_tag(
    work: &mut Work,
    wanted: Wanted,
    region: u32,
    field: &Option<TagField>,
) -> Result<(), AllocError>
    ensures { IfOk result (λ _. Does (define_tag wanted region field.now) tt work.old work.new) }
{
    match wanted {
        Wanted::Fields => define_field(work, region, field),
        Wanted::Constants => Ok(()),
    }
}

/// Defines the constants of the enumerations in a type.
#[cycle(define)]
#[tactic(auto, using(check_steps::proofs::Runs::steps))]
pub fn define_denoter(work: &mut Work, d: &Denoter, region: u32) -> Result<(), AllocError>
    ensures { IfOk result (λ _. Does (define_denoter region (denoter_tree d.now)) tt work.old work.new) }
{
    match d {
        Denoter::Name(_) => Ok(()),
        Denoter::Enumeration(e) => define_names(work, region, NameKind::Constant, &e.names),
        Denoter::Subrange(_, _, _) => Ok(()),
        Denoter::Pointer(_, _) => Ok(()),
        Denoter::Structure(_, s) => define_structure(work, s, region),
    }
}

#[cycle(define)]
#[tactic(auto, using(check_steps::proofs::Runs::steps))]
fn define_structure(work: &mut Work, s: &Structure, region: u32) -> Result<(), AllocError>
    ensures { IfOk result (λ _. Does (define_structure region (structure_tree s.now)) tt work.old work.new) }
{
    match s {
        Structure::Array(array) => define_array(work, array, region),
        Structure::Record(record) => define_in_fields(
            work,
            &record.fields,
            Wanted::Constants,
            region,
        ),
        Structure::Set(set) => define_denoter(work, &set.base, region),
    }
}

#[cycle(define)]
#[tactic(auto, using(check_steps::proofs::Runs::steps, pas_tree::proofs::DenoterViews::array_view, crate::proofs::Walks::others_defined))]
fn define_array(work: &mut Work, a: &ArrayDenoter, region: u32) -> Result<(), AllocError>
    ensures { IfOk result (λ _. Does (define_array region (array_tree a.now)) tt work.old work.new) }
{
    define_denoter(work, &a.first, region)?;
    define_others(work, &a.others, region)?;
    define_denoter(work, &a.component, region)?;
    Ok(())
}

#[cycle(define)]
#[tactic(auto, using(check_steps::proofs::Runs::loops), unfolding(crate::specs::Defines::define_other))]
fn define_others(work: &mut Work, others: &[NextDenoter], region: u32) -> Result<(), AllocError>
    ensures { IfOk result (λ _. Does (each (define_other region) tt others.now) tt work.old work.new) }
{
    'others: for other in others {
        define_denoter(work, &other.denoter, region)?;
    }
    Ok(())
}

/// Defines the fields of a field list, or the constants of the enumerations in their types.
#[cycle(define)]
#[tactic(auto, using(check_steps::proofs::Runs::steps, pas_tree::proofs::DenoterViews::fields_view))]
pub fn define_in_fields(
    work: &mut Work,
    fields: &Fields,
    wanted: Wanted,
    region: u32,
) -> Result<(), AllocError>
    ensures { IfOk result (λ _. Does (define_in_fields wanted region (fields_tree fields.now)) tt work.old work.new) }
{
    match fields {
        Fields::Empty => Ok(()),
        Fields::Fixed(fixed, part, _) => {
            define_fixed(work, fixed, wanted, region)?;
            define_part(work, part, wanted, region)
        }
        Fields::Variants(variants, _) => define_variants(work, variants, wanted, region),
    }
}

#[cycle(define)]
#[tactic(auto, using(check_steps::proofs::Runs::steps))]
fn define_part(
    work: &mut Work,
    part: &Option<NextVariants>,
    wanted: Wanted,
    region: u32,
) -> Result<(), AllocError>
    ensures { IfOk result (λ _. Does (define_part wanted region (part_in part.now)) tt work.old work.new) }
{
    match part {
        None => Ok(()),
        Some(part) => define_variants(work, &part.variants, wanted, region),
    }
}

#[cycle(define)]
#[tactic(auto, using(check_steps::proofs::Runs::steps, pas_tree::proofs::DenoterViews::fixed_view, crate::proofs::Walks::sections_defined))]
fn define_fixed(
    work: &mut Work,
    fixed: &Fixed,
    wanted: Wanted,
    region: u32,
) -> Result<(), AllocError>
    ensures { IfOk result (λ _. Does (define_fixed wanted region (fixed_tree fixed.now)) tt work.old work.new) }
{
    define_section(work, &fixed.first, wanted, region)?;
    define_sections(work, &fixed.others, wanted, region)?;
    Ok(())
}

#[cycle(define)]
#[tactic(auto, using(check_steps::proofs::Runs::loops), unfolding(crate::specs::Defines::define_next_section))]
fn define_sections(
    work: &mut Work,
    sections: &[NextSection],
    wanted: Wanted,
    region: u32,
) -> Result<(), AllocError>
    ensures { IfOk result (λ _. Does (each (define_next_section wanted region) tt sections.now) tt work.old work.new) }
{
    'sections: for section in sections {
        define_section(work, &section.section, wanted, region)?;
    }
    Ok(())
}

#[cycle(define)]
#[tactic(auto, using(check_steps::proofs::Runs::steps))]
fn define_section(
    work: &mut Work,
    s: &Section,
    wanted: Wanted,
    region: u32,
) -> Result<(), AllocError>
    ensures { IfOk result (λ _. Does (define_section wanted region (section_tree s.now)) tt work.old work.new) }
{
    match wanted {
        Wanted::Fields => define_names(work, region, NameKind::Field, &s.names),
        Wanted::Constants => define_denoter(work, &s.denoter, region),
    }
}

#[cycle(define)]
#[tactic(auto, using(check_steps::proofs::Runs::steps, pas_tree::proofs::DenoterViews::variants_view, crate::proofs::Walks::arms_defined))]
fn define_variants(
    work: &mut Work,
    v: &Variants,
    wanted: Wanted,
    region: u32,
) -> Result<(), AllocError>
    ensures { IfOk result (λ _. Does (define_variants wanted region (variants_tree v.now)) tt work.old work.new) }
{
    define_tag(work, wanted, region, &v.tag.field)?;
    define_in_fields(work, &v.first.fields, wanted, region)?;
    define_arms(work, &v.others, wanted, region)?;
    Ok(())
}

#[cycle(define)]
#[tactic(auto, using(check_steps::proofs::Runs::loops), unfolding(crate::specs::Defines::define_next_arm))]
fn define_arms(
    work: &mut Work,
    arms: &[NextArm],
    wanted: Wanted,
    region: u32,
) -> Result<(), AllocError>
    ensures { IfOk result (λ _. Does (each (define_next_arm wanted region) tt arms.now) tt work.old work.new) }
{
    'arms: for arm in arms {
        define_in_fields(work, &arm.arm.fields, wanted, region)?;
    }
    Ok(())
}

/// Defines the fields of a record, in the region of its frame.
#[tactic(auto, using(check_steps::proofs::Runs::steps), unfolding(crate::specs::Defines::define_record))]
pub fn define_record(work: &mut Work, frame: u32, fields: &Fields) -> Result<(), AllocError>
    ensures { IfOk result (λ _. Does (define_record frame (fields_tree fields.now)) tt work.old work.new) }
{
    let region = work.tables.frame(frame).region;
    define_in_fields(work, fields, Wanted::Fields, region)
}
