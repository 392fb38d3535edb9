//! What records and variants are made of, as far as it counts for their shape.

ghost use Rattle.std.specs.Prelude.{if◌then◌else◌, ◌++◌, ◌==◌, ◌≡◌, [], ℕ, IfOk, OnOk, length};
ghost use Rattle.core_program.specs.ProgramRows.{row_at};
ghost use Rattle.reference_oracle.specs.PartsKept.{AreBothParts, AreParts, holder_in, parts_at};
ghost use Rattle.reference_oracle.specs.Shapes.{choice_at, choices_from, parts_in, position_in, programs};

use cell_value::Memory;
use core_program::Program;
use core_program::rows::{ItemRow, NameRow, PartRow, Row};
use std::alloc::{AllocError, Global};

/// A type of the subject, or a variant, and one of the reference, by their numbers.
#[derive(Clone, Copy, PartialEq, Eq, Hash)]
pub struct TypePair {
    pub subject: u32,
    pub reference: u32,
}

/// A part of a record or of a variant.
#[derive(Clone, Copy)]
pub enum RecordPart {
    /// A field: the token of its name, and its type.
    Field {
        token: u32,
        of: u32,
    },
    /// A tag field: the token of its name, and its type.
    Tag {
        token: u32,
        of: u32,
    },
    /// A variant part, and whether its tag is hidden. Its constants come after it.
    Variants {
        hidden: bool,
    },
    /// A constant of a variant part, and the variant that it chooses: its position there, and its number.
    Choice {
        value: i32,
        position: u32,
        variant: u32,
    },
}

/// The position of a variant in its variant part.
fn position_of(program: &Program, variant: u32) -> u32
    ensures { result ≡ position_in (row_at program.now variant) }
{
    match program.row(variant) {
        Row::Part(PartRow::Variant { position, .. }) => position,
        _ => 0,
    }
}

/// The constant at a number of a list of them, and where the next one stands.
fn choice_at(program: &Program, at: u32) -> Option<(RecordPart, u32)>
    ensures { result ≡ choice_at program.now at }
{
    match program.row(at) {
        Row::Item(
            ItemRow::Choice {
                value,
                chosen,
                next,
            },
        ) => {
            let part = RecordPart::Choice {
                value,
                position: position_of(program, chosen),
                variant: chosen,
            };
            Some((part, next))
        }
        _ => None,
    }
}

/// Puts the constants of a variant part, from one on.
fn put_choices(program: &Program, parts: &mut Vec<RecordPart>, values: u32) -> Result<(), Memory>
    ensures { OnOk result (parts.new.items
        ≡ parts.old.items ++ choices_from program.now (length program.now.rows) values) }
{
    let mut at = values;
    'constants: for step in 0..program.rows() {
        let Some((part, next)) = choice_at(program, at) else {
            return Ok(());
        };
        parts.push(part)?;
        at = next;
    }
    Ok(())
}

/// Puts what stands at a token, if it is a part of what has this number.
fn put_part(
    program: &Program,
    parts: &mut Vec<RecordPart>,
    whole: u32,
    token: u32,
) -> Result<(), Memory>
    ensures { OnOk result (parts.new.items
        ≡ parts.old.items ++ parts_in program.now whole token (row_at program.now token)) }
{
    match program.row(token) {
        Row::Name(NameRow::Field { of, holder, .. }) => {
            if holder == whole {
                parts.push(RecordPart::Field { token, of })?;
            }
            Ok(())
        }
        Row::Name(NameRow::Tag { of, holder, .. }) => {
            if holder == whole {
                parts.push(RecordPart::Tag { token, of })?;
            }
            Ok(())
        }
        Row::Part(
            PartRow::Variants {
                hidden,
                values,
                holder,
                ..
            },
        ) => {
            if holder == whole {
                parts.push(RecordPart::Variants { hidden })?;
                put_choices(program, parts, values)?;
            }
            Ok(())
        }
        _ => Ok(()),
    }
}

/// What holds the part of a record or a variant at a token, if one stands there.
fn holder_at(program: &Program, token: u32) -> Option<u32>
    ensures { result ≡ holder_in (row_at program.now token) }
{
    match program.row(token) {
        Row::Name(NameRow::Field { holder, .. }) => Some(holder),
        Row::Name(NameRow::Tag { holder, .. }) => Some(holder),
        Row::Part(PartRow::Variants { holder, .. }) => Some(holder),
        _ => None,
    }
}

/// Puts what stands at a token to the parts of what holds it. A holder that is no row counts as out of memory.
fn put_to(
    program: &Program,
    lists: &mut Vec<Vec<RecordPart>>,
    holder: u32,
    token: u32,
) -> Result<(), Memory>
    ensures { OnOk result ((whole : ℕ) → parts_at lists.new.items whole ≡ parts_at lists.old.items whole
        ++ (if whole == holder then parts_in program.now holder token (row_at program.now token) else [])) }
{
    let at = holder as usize;
    if at >= lists.len() {
        return Err(AllocError);
    }
    put_part(program, &mut lists[at], holder, token)?;
    Ok(())
}

/// Puts what stands at a token, if it is a part of a record or of a variant, to the parts of that.
fn put_at(program: &Program, lists: &mut Vec<Vec<RecordPart>>, token: u32) -> Result<(), Memory>
    ensures { OnOk result ((whole : ℕ) → parts_at lists.new.items whole
        ≡ parts_at lists.old.items whole ++ parts_in program.now whole token (row_at program.now token)) }
{
    match holder_at(program, token) {
        None => Ok(()),
        Some(holder) => put_to(program, lists, holder, token),
    }
}

/// So many lists without parts.
fn empty_lists(alloc: Global, count: u32) -> Result<Vec<Vec<RecordPart>>, Memory>
    ensures { IfOk result (λ v. (whole : ℕ) → parts_at v.items whole ≡ []) }
{
    let mut lists = Vec::new(alloc);
    'each: for _ in 0..count {
        lists.push(Vec::new(alloc))?;
    }
    Ok(lists)
}

/// The parts of each record and of each variant, by the number of that. A row that has no number of 32 bits counts as
/// out of memory.
fn parts_of(alloc: Global, program: &Program) -> Result<Vec<Vec<RecordPart>>, Memory>
    ensures { IfOk result (λ v. AreParts program.now v.items) }
{
    let Ok(rows) = u32::try_from(program.rows()) else {
        return Err(AllocError);
    };
    let mut lists = empty_lists(alloc, rows)?;
    'tokens: for token in 0..rows {
        put_at(program, &mut lists, token)?;
    }
    Ok(lists)
}

/// The parts of the records and variants of two programs.
#[derive(Drop)]
pub(crate) struct BothParts {
    subject: Vec<Vec<RecordPart>>,
    reference: Vec<Vec<RecordPart>>,
}

impl BothParts {
    /// Those of these programs: a pass over the rows of each.
    pub(crate) fn of(alloc: Global, subject: &Program, reference: &Program) -> Result<Self, Memory>
        ensures { IfOk result (λ parts. AreBothParts (programs subject.now reference.now) parts) }
    {
        let subject = parts_of(alloc, subject)?;
        let reference = parts_of(alloc, reference)?;
        Ok(BothParts { subject, reference })
    }

    /// Those of a record, or of a variant, of the subject.
    pub(crate) fn in_subject(&self, whole: u32) -> &[RecordPart]
        ensures { result.now ≡ parts_at self.now.subject.items whole }
    {
        match self.subject.get(whole as usize) {
            Some(parts) => parts,
            None => &[],
        }
    }

    /// Those of a record, or of a variant, of the reference.
    pub(crate) fn in_reference(&self, whole: u32) -> &[RecordPart]
        ensures { result.now ≡ parts_at self.now.reference.items whole }
    {
        match self.reference.get(whole as usize) {
            Some(parts) => parts,
            None => &[],
        }
    }
}
