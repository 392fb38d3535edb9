//! Records: their regions and their fixed fields (6.4.3.3).

ghost use Rattle.std.specs.Prelude.{◌≡◌, IfOk};
ghost use Rattle.pas_tree.specs.ConstantTrees.{names_tree};
ghost use Rattle.pas_tree.specs.DenoterTrees.{arm_tree, arm_trees, fields_tree, variants_tree};
ghost use Rattle.check_steps.specs.Steps.{Does, each};
ghost use Rattle.kind_checker.specs.Names.{each_name, on_name};
ghost use Rattle.denoter_checker.specs.Denoters.{choosing_in, choosing_of, field_place, open_record, part_at};
ghost use Rattle.denoter_checker.specs.Denoters.{put_record, scope_inside, variants_word};

use crate::variants::{
    Listed, PartPlace, check_arm_choices, check_more_arm_choices, check_tag, choosing_at,
    nothing_listed,
};
use check_steps::Work;
use core_program::rows::{NameRow, Row, TypeRow};
use kind_checker::Scope;
use kind_checker::sizes::offset_after;
use pas_tree::constants::{Names, NextName};
use pas_tree::denoters::{Arm, Fields, NextArm, Tag, Variants};
use std::alloc::{AllocError, Global};

/// A region of fields that begins at the word `record`, by the number of its frame.
#[tactic(auto, using(check_steps::proofs::Runs::steps), unfolding(crate::specs::Denoters::open_record))]
pub(crate) fn open_record(
    work: &mut Work,
    alloc: Global,
    frame: u32,
    word: u32,
) -> Result<u32, AllocError>
    ensures { IfOk result (λ x. Does (open_record frame word) x work.old work.new) }
{
    let level = work.tables.frame(frame).level;
    work.open_region(alloc, word, Some(frame), level)
}

/// The same part of a program, seen from the region of a record in it.
pub(crate) fn inside(scope: Scope, frame: u32) -> Scope
    ensures { result ≡ scope_inside scope frame }
{
    Scope {
        frame,
        domains_at: scope.domains_at,
    }
}

#[tactic(auto, using(check_steps::proofs::Runs::steps), unfolding(crate::specs::Denoters::field_place))]
fn check_field_place(work: &mut Work, holder: u32, of: u32, offset: u32, token: u32) -> u32
    ensures { Does (field_place holder of offset token) result work.old work.new }
{
    work.put(token, Row::Name(NameRow::Field { of, offset, holder }));
    let cells = work.tables.program().size_of(of);
    offset_after(offset, cells)
}

#[tactic(auto, unfolding(kind_checker::specs::Names::on_name))]
fn check_next_field(work: &mut Work, holder: u32, of: u32, offset: u32, next: &NextName) -> u32
    ensures { Does (on_name (field_place holder of) offset next.now) result work.old work.new }
{
    check_field_place(work, holder, of, offset, next.name)
}

#[tactic(auto, using(check_steps::proofs::Runs::read_loops))]
fn check_more_fields(work: &mut Work, holder: u32, of: u32, offset: u32, names: &[NextName]) -> u32
    ensures { Does (each (on_name (field_place holder of)) offset names.now) result work.old work.new }
{
    let mut next = offset;
    'names: for name in names {
        next = check_next_field(work, holder, of, next, name);
    }
    next
}

/// The places of fields of one type, and the place after them.
#[tactic(auto, using(check_steps::proofs::Runs::steps))]
pub(crate) fn check_field_places(
    work: &mut Work,
    holder: u32,
    of: u32,
    offset: u32,
    names: &Names,
) -> u32
    ensures { Does (each_name (field_place holder of) offset (names_tree names.now)) result work.old work.new }
{
    let next = check_field_place(work, holder, of, offset, names.first);
    check_more_fields(work, holder, of, next, &names.others)
}

/// A record type, at its word `record`.
#[tactic(auto, using(check_steps::proofs::Runs::steps), unfolding(crate::specs::Denoters::put_record))]
pub(crate) fn put_record(
    work: &mut Work,
    packed: bool,
    word: u32,
    frame: u32,
    cells: u32,
    variants: Option<u32>,
) -> u32
    ensures { Does (put_record packed word frame cells variants) result work.old work.new }
{
    let region = work.tables.frame(frame).region;
    let row = TypeRow::Record {
        packed,
        region,
        cells,
        variants,
    };
    work.put(word, Row::Type(row));
    word
}

/// The number of the variant part of a field list.
#[tactic(auto, using(pas_tree::proofs::DenoterViews::fields_view, pas_tree::proofs::DenoterViews::variants_view))]
pub(crate) fn variants_word(fields: &Fields) -> Option<u32>
    ensures { result ≡ variants_word (fields_tree fields.now) }
{
    match fields {
        Fields::Empty => None,
        Fields::Fixed(_, None, _) => None,
        Fields::Fixed(_, Some(next), _) => Some(next.variants.word),
        Fields::Variants(variants, _) => Some(variants.word),
    }
}

/// Where a variant part stands.
pub(crate) fn part_at(scope: Scope, word: u32, holder: u32, offset: u32) -> PartPlace
    ensures { result ≡ part_at scope word holder offset }
{
    PartPlace {
        frame: scope.frame,
        word,
        holder,
        offset,
    }
}

/// The tag of a variant part, and the values that choose its first variant and the others.
#[tactic(auto, using(check_steps::proofs::Runs::steps, crate::proofs::Walks::choices_each), unfolding(crate::specs::Denoters::choosing_of))]
fn check_choosing_of(
    work: &mut Work,
    place: PartPlace,
    tag: &Tag,
    of: u32,
    first: &Arm,
    others: &[NextArm],
) -> Result<Listed, AllocError>
    ensures { IfOk result (λ l. Does (choosing_of place tag.now of (arm_tree first.now) (arm_trees others.now)) l
        work.old work.new) }
{
    let host = check_tag(work, place, tag);
    let choosing = choosing_at(place, host, of);
    let listed = nothing_listed(place.word);
    let so_far = check_arm_choices(work, choosing, listed, of, first.open, &first.constants)?;
    check_more_arm_choices(work, choosing, so_far, others)
}

/// The tag of a variant part, and the values that choose its variants.
#[tactic(auto, using(pas_tree::proofs::DenoterViews::variants_view))]
pub(crate) fn check_choosing(
    work: &mut Work,
    place: PartPlace,
    v: &Variants,
) -> Result<Listed, AllocError>
    ensures { IfOk result (λ l. Does (choosing_in place (variants_tree v.now)) l work.old work.new) }
{
    check_choosing_of(work, place, &v.tag, v.of, &v.first, &v.others)
}
