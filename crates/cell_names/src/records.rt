//! Which record has a field or a tag, and where.

ghost use Rattle.std.specs.Prelude.{◌≡◌, [], ℕ, IfOk, OnOk, Some, length, replicate};
ghost use Rattle.cell_names.specs.{Finding.Adds, Finding.list_at, Places.finds};
ghost use Rattle.cell_names.specs.Records.{component_in, holder_around, holding_record, is_record, most_nesting};
ghost use Rattle.cell_names.specs.Records.{part_holder, placed_at, record_parts, within};

use crate::places::{PlacedPart, PlacedParts};
use core_program::Program;
use core_program::rows::{NameRow, PartRow, Row, TypeRow};
use std::alloc::{AllocError, Global};

/// A field, a tag field or a hidden tag: the place where it begins in its record, and the number of the record or the
/// variant that holds it.
#[derive(Clone, Copy)]
pub(crate) struct Component {
    pub(crate) offset: u32,
    pub(crate) holder: u32,
}

/// A part of a record.
#[derive(Clone, Copy)]
pub(crate) struct Placed {
    /// The number of the record.
    pub(crate) owner: u32,
    pub(crate) part: PlacedPart,
}

/// A field, a tag field or a hidden tag, by its row.
fn component_in(row: Row) -> Option<Component>
    ensures { result ≡ component_in row }
{
    match row {
        Row::Name(NameRow::Field { offset, holder, .. }) => Some(Component { offset, holder }),
        Row::Name(NameRow::Tag { offset, holder, .. }) => Some(Component { offset, holder }),
        Row::Part(
            PartRow::Variants {
                hidden,
                offset,
                holder,
                ..
            },
        ) => {
            if hidden {
                Some(Component { offset, holder })
            } else {
                None
            }
        }
        _ => None,
    }
}

/// Whether a record stands at a row.
fn is_record(row: Row) -> bool
    ensures { result ≡ is_record row }
{
    matches!(row, Row::Type(TypeRow::Record { .. }))
}

/// What holds a variant part, by its row.
fn part_holder(row: Row) -> Option<u32>
    ensures { result ≡ part_holder row }
{
    match row {
        Row::Part(PartRow::Variants { holder, .. }) => Some(holder),
        _ => None,
    }
}

/// What holds the variant part of a variant, by the variant's row.
fn holder_around(program: &Program, row: Row) -> Option<u32>
    ensures { result ≡ holder_around program.now row }
{
    match row {
        Row::Part(PartRow::Variant { variants, .. }) => part_holder(program.row(variants)),
        _ => None,
    }
}

/// The record that a holder is, or that has it in its variants.
fn record_of(program: &Program, holder: u32) -> Option<u32>
    ensures { result ≡ holding_record program.now most_nesting holder }
{
    let mut at = holder;
    'holders: for _ in 0..200u32 {
        let row = program.row(at);
        if is_record(row) {
            return Some(at);
        }
        match holder_around(program, row) {
            Some(around) => at = around,
            None => return None,
        }
    }
    None
}

/// The record to which the name or the word at a token belongs, and where its cells begin there.
fn placed_at(program: &Program, token: u32) -> Option<Placed>
    ensures { result ≡ placed_at program.now token }
{
    match component_in(program.row(token)) {
        None => None,
        Some(component) => match record_of(program, component.holder) {
            None => None,
            Some(owner) => Some(Placed {
                owner,
                part: PlacedPart {
                    place: component.offset,
                    number: token,
                },
            }),
        },
    }
}

/// This many lists, each empty.
pub(crate) fn blank_lists(alloc: Global, count: u32) -> Result<Vec<PlacedParts>, AllocError>
    ensures { IfOk result (λ lists. lists.items ≡ replicate count []) }
{
    let mut lists = Vec::new(alloc);
    'lists: for _ in 0..count {
        lists.push(PlacedParts::new(alloc))?;
    }
    Ok(lists)
}

/// One more part of a record, in the list of its number, if there is one.
fn push_placed(lists: &mut Vec<PlacedParts>, placed: Placed) -> Result<(), AllocError>
    ensures { OnOk result (Adds (λ owner. within (length lists.old.items) owner (Some placed)) lists.old.items
        lists.new.items) }
{
    let owner = placed.owner as usize;
    if owner < lists.len() {
        lists[owner].push(placed.part)?;
    }
    Ok(())
}

/// What the name or the word at a token adds to the list of its record.
fn push_component(lists: &mut Vec<PlacedParts>, placed: Option<Placed>) -> Result<(), AllocError>
    ensures { OnOk result (Adds (λ owner. within (length lists.old.items) owner placed) lists.old.items
        lists.new.items) }
{
    match placed {
        None => Ok(()),
        Some(placed) => push_placed(lists, placed),
    }
}

/// The fields and tags of each record, of this many tokens, by the record's number.
pub(crate) fn record_places(
    alloc: Global,
    program: &Program,
    tokens: u32,
) -> Result<Vec<PlacedParts>, AllocError>
    ensures { IfOk result (λ lists. (owner : ℕ)
        → finds (list_at lists.items owner) ≡ finds (record_parts program.now tokens owner)) }
{
    let mut lists = blank_lists(alloc, tokens)?;
    'tokens: for token in 0..tokens {
        push_component(&mut lists, placed_at(program, token))?;
    }
    Ok(lists)
}
