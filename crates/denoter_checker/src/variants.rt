//! The tag of a variant part, and the values that choose its variants (6.4.3.3).

ghost use Rattle.std.specs.Prelude.{◌≡◌, IfOk};
ghost use Rattle.pas_tree.specs.ConstantTrees.{constants_tree};
ghost use Rattle.check_steps.specs.Steps.{Does, each};
ghost use Rattle.denoter_checker.specs.Variants.{add_choice, arm_choices, case_constant, choices, choosing_at};
ghost use Rattle.denoter_checker.specs.Variants.{chosen_value, constants_uses, hidden_tag, is_choice, listed_choice};
ghost use Rattle.denoter_checker.specs.Variants.{named_tag, next_arm_choices, next_choice, next_constant};
ghost use Rattle.denoter_checker.specs.Variants.{nothing_listed, one_more, tag_part, tag_type, value_if, variant_part};

use check_steps::items::put_item;
use check_steps::{Tables, Work};
use core_program::rows::{ItemRow, LIST_END, NameRow, PartRow, Row};
use kind_checker::ConstantValue;
use kind_checker::constants::{check_constant, check_constant_again};
use kind_checker::sizes::{host_of, offset_after};
use kind_checker::types::{check_named_type, check_ordinal};
use pas_tree::constants::{Constant, Constants, NextConstant};
use pas_tree::denoters::{NextArm, Tag};
use pas_tree::first_of_constant;
use std::alloc::AllocError;

/// Where a variant part stands.
#[derive(Clone, Copy)]
pub struct PartPlace {
    /// The frame in which its names are looked up.
    pub frame: u32,
    /// Its word `case`.
    pub word: u32,
    /// The number of the record or the variant that holds it.
    pub holder: u32,
    /// The place of its tag's cell.
    pub offset: u32,
}

/// What the constants of a variant part or a case statement have in common.
#[derive(Clone, Copy)]
pub struct Choosing {
    /// The frame in which their names are looked up.
    pub frame: u32,
    /// The host type of the tag or the selector.
    pub host: u32,
    /// The number of their list.
    pub list: u32,
}

/// The variants of a variant part so far.
#[derive(Clone, Copy)]
pub struct Listed {
    /// The number of the variant part.
    pub variants: u32,
    /// Where the last item of the list of values stands; before the first, a number at which no item does.
    pub last: u32,
    /// How many variants there are.
    pub position: u32,
}

#[tactic(auto, using(check_steps::proofs::Runs::steps), unfolding(crate::specs::Variants::tag_type))]
fn check_tag_type(work: &mut Work, frame: u32, name: u32) -> u32
    ensures { Does (tag_type frame name) result work.old work.new }
{
    let kind = check_named_type(work, frame, name);
    check_ordinal(work, name, name, kind)
}

#[tactic(auto, using(check_steps::proofs::Runs::steps), unfolding(crate::specs::Variants::hidden_tag))]
fn check_hidden_tag(work: &mut Work, place: PartPlace, name: u32) -> u32
    ensures { Does (hidden_tag place name) result work.old work.new }
{
    let of = check_tag_type(work, place.frame, name);
    host_of(&work.tables, of)
}

#[tactic(auto, using(check_steps::proofs::Runs::steps), unfolding(crate::specs::Variants::named_tag))]
fn check_named_tag(work: &mut Work, place: PartPlace, field: u32, name: u32) -> u32
    ensures { Does (named_tag place field name) result work.old work.new }
{
    let of = check_tag_type(work, place.frame, name);
    let row = NameRow::Tag {
        of,
        offset: place.offset,
        holder: place.holder,
        variants: place.word,
    };
    work.put(field, Row::Name(row));
    host_of(&work.tables, of)
}

/// The host type of a tag.
#[tactic(auto, using(check_steps::proofs::Runs::steps))]
pub(crate) fn check_tag(work: &mut Work, place: PartPlace, tag: &Tag) -> u32
    ensures { Does (tag_part place tag.now.field tag.now.name) result work.old work.new }
{
    match &tag.field {
        None => check_hidden_tag(work, place, tag.name),
        Some(field) => check_named_tag(work, place, field.name, tag.name),
    }
}

#[tactic(auto, using(check_steps::proofs::Runs::steps), unfolding(crate::specs::Variants::next_constant))]
fn use_next_constant(work: &mut Work, n: &NextConstant, frame: u32)
    ensures { Does (next_constant frame tt n.now) tt work.old work.new }
{
    check_constant(work, frame, &n.constant);
}

#[tactic(auto, using(check_steps::proofs::Runs::read_loops))]
fn use_more_constants(work: &mut Work, others: &[NextConstant], frame: u32)
    ensures { Does (each (next_constant frame) tt others.now) tt work.old work.new }
{
    'others: for other in others {
        use_next_constant(work, other, frame);
    }
}

/// The names and signs of case constants.
#[tactic(auto, using(check_steps::proofs::Runs::steps), unfolding(crate::specs::Variants::constants_uses))]
pub fn use_constants(work: &mut Work, c: &Constants, frame: u32)
    ensures { Does (constants_uses frame (constants_tree c.now)) tt work.old work.new }
{
    check_constant(work, frame, &c.first);
    use_more_constants(work, &c.others, frame);
}

fn is_choice(tables: &Tables, choosing: Choosing, value: Option<ConstantValue>) -> bool
    ensures { result ≡ is_choice tables.now choosing value }
{
    match value {
        None => true,
        Some(ConstantValue::Text { .. }) => tables.type_row(choosing.host).is_none(),
        Some(ConstantValue::Ordinal { of, value }) => {
            tables.type_row(choosing.host).is_none()
                || (of == choosing.host && !tables.is_chosen(choosing.list, value))
        }
    }
}

fn value_if(fine: bool, value: Option<ConstantValue>) -> Option<i32>
    ensures { result ≡ value_if fine value }
{
    if !fine {
        return None;
    }
    match value {
        Some(ConstantValue::Ordinal { value, .. }) => Some(value),
        _ => None,
    }
}

#[tactic(auto, using(check_steps::proofs::Runs::steps), unfolding(crate::specs::Variants::add_choice))]
fn add_choice(work: &mut Work, value: i32, chosen: u32, last: u32, slot: u32) -> u32
    ensures { Does (add_choice value chosen last slot) result work.old work.new }
{
    let item = ItemRow::Choice {
        value,
        chosen,
        next: LIST_END,
    };
    put_item(work, last, slot, item)
}

/// A value that a choice has, beside the list that it belongs to and what it chooses.
#[tactic(auto, using(check_steps::proofs::Runs::steps), unfolding(crate::specs::Variants::chosen_value))]
fn add_chosen(
    work: &mut Work,
    list: u32,
    value: i32,
    chosen: u32,
    last: u32,
    slot: u32,
) -> Result<u32, AllocError>
    ensures { IfOk result (λ n. Does (chosen_value list value chosen last slot) n work.old work.new) }
{
    work.add_chosen(list, value)?;
    Ok(add_choice(work, value, chosen, last, slot))
}

#[tactic(auto, using(check_steps::proofs::Runs::steps))]
fn add_listed(
    work: &mut Work,
    list: u32,
    value: Option<i32>,
    chosen: u32,
    last: u32,
    slot: u32,
) -> Result<u32, AllocError>
    ensures { IfOk result (λ n. Does (listed_choice list value chosen last slot) n work.old work.new) }
{
    match value {
        None => Ok(last),
        Some(value) => add_chosen(work, list, value, chosen, last, slot),
    }
}

#[tactic(auto, using(check_steps::proofs::Runs::steps), unfolding(crate::specs::Variants::case_constant))]
fn check_choice(
    work: &mut Work,
    choosing: Choosing,
    chosen: u32,
    last: u32,
    slot: u32,
    c: &Constant,
) -> Result<u32, AllocError>
    ensures { IfOk result (λ n. Does (case_constant choosing chosen last slot c.now) n work.old work.new) }
{
    let value = check_constant_again(work, choosing.frame, c);
    let fine = is_choice(&work.tables, choosing, value);
    work.late(22, first_of_constant(c), fine);
    add_listed(
        work,
        choosing.list,
        value_if(fine, value),
        chosen,
        last,
        slot,
    )
}

#[tactic(auto, unfolding(crate::specs::Variants::next_choice))]
fn check_next_choice(
    work: &mut Work,
    choosing: Choosing,
    chosen: u32,
    last: u32,
    next: &NextConstant,
) -> Result<u32, AllocError>
    ensures { IfOk result (λ n. Does (next_choice choosing chosen last next.now) n work.old work.new) }
{
    check_choice(work, choosing, chosen, last, next.comma, &next.constant)
}

#[tactic(auto, using(check_steps::proofs::Runs::read_loops))]
fn check_more_choices(
    work: &mut Work,
    choosing: Choosing,
    chosen: u32,
    last: u32,
    constants: &[NextConstant],
) -> Result<u32, AllocError>
    ensures { IfOk result (λ n. Does (each (next_choice choosing chosen) last constants.now) n work.old work.new) }
{
    let mut end = last;
    'constants: for constant in constants {
        end = check_next_choice(work, choosing, chosen, end, constant)?;
    }
    Ok(end)
}

/// The constants that choose one thing, the first at a slot: what is given is where the last item of the list stands.
#[tactic(auto, using(check_steps::proofs::Runs::steps), unfolding(crate::specs::Variants::choices))]
pub fn check_choices(
    work: &mut Work,
    choosing: Choosing,
    chosen: u32,
    last: u32,
    slot: u32,
    constants: &Constants,
) -> Result<u32, AllocError>
    ensures { IfOk result (λ n. Does (choices choosing chosen last slot (constants_tree constants.now)) n work.old
        work.new) }
{
    let next = check_choice(work, choosing, chosen, last, slot, &constants.first)?;
    check_more_choices(work, choosing, chosen, next, &constants.others)
}

fn one_more(n: u32) -> u32
    ensures { result ≡ one_more n }
{
    if n < u32::MAX { n + 1 } else { n }
}

/// A variant, at its `(`, and the values that choose it.
#[tactic(auto, using(check_steps::proofs::Runs::steps), unfolding(crate::specs::Variants::arm_choices))]
pub(crate) fn check_arm_choices(
    work: &mut Work,
    choosing: Choosing,
    listed: Listed,
    slot: u32,
    paren: u32,
    constants: &Constants,
) -> Result<Listed, AllocError>
    ensures { IfOk result (λ l. Does (arm_choices choosing listed slot paren (constants_tree constants.now)) l work.old
        work.new) }
{
    let variants = listed.variants;
    let position = one_more(listed.position);
    let row = PartRow::Variant { variants, position };
    work.put(paren, Row::Part(row));
    use_constants(work, constants, choosing.frame);
    let last = check_choices(work, choosing, paren, listed.last, slot, constants)?;
    Ok(Listed {
        variants,
        last,
        position,
    })
}

#[tactic(auto, unfolding(crate::specs::Variants::next_arm_choices))]
fn check_next_arm_choices(
    work: &mut Work,
    choosing: Choosing,
    listed: Listed,
    next: &NextArm,
) -> Result<Listed, AllocError>
    ensures { IfOk result (λ l. Does (next_arm_choices choosing listed next.now) l work.old work.new) }
{
    check_arm_choices(
        work,
        choosing,
        listed,
        next.semicolon,
        next.arm.open,
        &next.arm.constants,
    )
}

/// The variants after the first, and the values that choose them.
#[tactic(auto, using(check_steps::proofs::Runs::loops))]
pub(crate) fn check_more_arm_choices(
    work: &mut Work,
    choosing: Choosing,
    listed: Listed,
    arms: &[NextArm],
) -> Result<Listed, AllocError>
    ensures { IfOk result (λ l. Does (each (next_arm_choices choosing) listed arms.now) l work.old work.new) }
{
    let mut so_far = listed;
    'arms: for arm in arms {
        so_far = check_next_arm_choices(work, choosing, so_far, arm)?;
    }
    Ok(so_far)
}

/// What the constants of a variant part have in common.
pub(crate) fn choosing_at(place: PartPlace, host: u32, list: u32) -> Choosing
    ensures { result ≡ choosing_at place host list }
{
    Choosing {
        frame: place.frame,
        host,
        list,
    }
}

/// No variants of the variant part at a word yet.
pub(crate) fn nothing_listed(word: u32) -> Listed
    ensures { result ≡ nothing_listed word }
{
    Listed {
        variants: word,
        last: word,
        position: 0,
    }
}

/// The row of a variant part, once the place after its variants is known.
#[tactic(auto, using(check_steps::proofs::Runs::steps), unfolding(crate::specs::Variants::variant_part))]
pub(crate) fn put_variants(
    work: &mut Work,
    place: PartPlace,
    hidden: bool,
    values: u32,
    end: u32,
) -> u32
    ensures { Does (variant_part place hidden values end) result work.old work.new }
{
    let row = PartRow::Variants {
        hidden,
        offset: place.offset,
        cells: end.saturating_sub(offset_after(place.offset, 1)),
        values,
        holder: place.holder,
    };
    work.put(place.word, Row::Part(row));
    end
}
