//! What has to match so that a type of the subject and one of the reference have one shape.

ghost use Rattle.std.specs.Prelude.{if◌then◌else◌, ◌++◌, ◌+◌, ◌<◌, ◌∷◌, ◌≡◌, [], IfOk, None, OnOk, Some};
ghost use Rattle.std.specs.{List.list_all, List.range_with_len, Str.str_eq_ignore_ascii_case};
ghost use Rattle.reference_oracle.specs.{PairsOfTypes.at_most_one, PairsOfTypes.pairs_in, PartsKept.AreBothParts};
ghost use Rattle.reference_oracle.specs.Shapes.{constant_token, constants_agree, names_agree, ordinal_pairs, pair};
ghost use Rattle.reference_oracle.specs.Shapes.{pairs_inside, pairs_of_records, part_pair, programs, record_pairs};
ghost use Rattle.reference_oracle.specs.Shapes.{same_ordinals, set_or_array_pairs, type_pairs};

use crate::parts::{BothParts, RecordPart, TypePair};
use cell_value::Memory;
use core_program::Program;
use core_program::rows::{CHAR, PartRow, Row, TypeRow};
use std::alloc::Global;

/// Whether two spellings are of one name: letter case does not count (6.1.1).
fn is_same_name(one: &[u8], other: &[u8]) -> bool
    ensures { result ≡ str_eq_ignore_ascii_case one.now other.now }
{
    one.eq_ignore_ascii_case(other)
}

/// Whether a token of the subject and one of the reference spell one name.
pub(crate) fn names_agree(subject: &Program, reference: &Program, a: u32, b: u32) -> bool
    ensures { result ≡ names_agree (programs subject.now reference.now) a b }
{
    is_same_name(subject.text(a), reference.text(b))
}

/// The token that spells the constant of an ordinal of an enumeration.
fn constant_token(enumeration: u32, ordinal: u32) -> u32
    ensures { result ≡ constant_token enumeration ordinal }
{
    enumeration
        .saturating_add(1)
        .saturating_add(ordinal.saturating_mul(2))
}

/// Whether the constants of two enumerations have the same names, up to this ordinal.
fn same_constants(subject: &Program, reference: &Program, a: u32, b: u32, last: u32) -> bool
    requires { last < 4294967295 }
    ensures { result
        ≡ list_all (constants_agree (programs subject.now reference.now) a b) (range_with_len 0 (last + 1)) }
{
    'constants: for ordinal in 0..last + 1 {
        if !names_agree(
            subject,
            reference,
            constant_token(a, ordinal),
            constant_token(b, ordinal),
        ) {
            return false;
        }
    }
    true
}

/// Whether two types are the same one of integer, Boolean and char, or enumerations with the same list of names.
fn same_ordinals(
    subject: &Program,
    reference: &Program,
    pair: TypePair,
    greatest: i32,
    other: i32,
) -> bool
    ensures { result ≡ same_ordinals (programs subject.now reference.now) pair greatest other }
{
    let a = pair.subject;
    let b = pair.reference;
    if a <= CHAR || b <= CHAR {
        return a == b;
    }
    let last = greatest.unsigned_abs();
    if last != other.unsigned_abs() {
        return false;
    }
    same_constants(subject, reference, a, b, last)
}

/// A pair that has to match, if all else agrees.
fn if_agreed(agreed: bool, subject: u32, reference: u32) -> Option<Option<TypePair>>
    ensures { result ≡ (if agreed then Some (Some (pair subject reference)) else None) }
{
    if agreed {
        Some(Some(TypePair { subject, reference }))
    } else {
        None
    }
}

/// What has to match so that two parts of records do, and `None` where they do not agree in all else.
fn part_pair(
    subject: &Program,
    reference: &Program,
    part: RecordPart,
    other: RecordPart,
) -> Option<Option<TypePair>>
    ensures { result ≡ part_pair (programs subject.now reference.now) part other }
{
    match part {
        RecordPart::Field { token: a, of: s } => match other {
            RecordPart::Field { token: b, of: t } => if_agreed(
                names_agree(subject, reference, a, b),
                s,
                t,
            ),
            _ => None,
        },
        RecordPart::Tag { token: a, of: s } => match other {
            RecordPart::Tag { token: b, of: t } => if_agreed(
                names_agree(subject, reference, a, b),
                s,
                t,
            ),
            _ => None,
        },
        RecordPart::Variants { hidden } => match other {
            RecordPart::Variants { hidden: too } => {
                if hidden == too { Some(None) } else { None }
            }
            _ => None,
        },
        RecordPart::Choice {
            value,
            position,
            variant,
        } => match other {
            RecordPart::Choice {
                value: same,
                position: at,
                variant: there,
            } => if_agreed(value == same && position == at, variant, there),
            _ => None,
        },
    }
}

/// Puts a pair that has to match, if there is one.
fn put_pair(pairs: &mut Vec<TypePair>, found: Option<TypePair>) -> Result<(), Memory>
    ensures { OnOk result (pairs.new.items ≡ pairs.old.items ++ at_most_one found) }
{
    match found {
        None => Ok(()),
        Some(pair) => {
            pairs.push(pair)?;
            Ok(())
        }
    }
}

/// What has to match so that two lists of parts do, and `None` where they do not agree in all else.
fn record_pairs(
    alloc: Global,
    subject: &Program,
    reference: &Program,
    parts: &[RecordPart],
    others: &[RecordPart],
) -> Result<Option<Vec<TypePair>>, Memory>
    ensures { IfOk result (λ found. pairs_in found
        ≡ record_pairs (programs subject.now reference.now) parts.now others.now) }
{
    if parts.len() != others.len() {
        return Ok(None);
    }
    let mut pairs = Vec::new(alloc);
    'each: for i in 0..parts.len() {
        let Some(found) = part_pair(subject, reference, parts[i], others[i]) else {
            return Ok(None);
        };
        put_pair(&mut pairs, found)?;
    }
    Ok(Some(pairs))
}

/// What has to match so that two records, or two variants, do.
fn pairs_of_records(
    alloc: Global,
    subject: &Program,
    reference: &Program,
    parts: &BothParts,
    pair: TypePair,
) -> Result<Option<Vec<TypePair>>, Memory>
    requires { AreBothParts (programs subject.now reference.now) parts.now }
    ensures { IfOk result (λ found. pairs_in found
        ≡ pairs_of_records (programs subject.now reference.now) pair) }
{
    let here = parts.in_subject(pair.subject);
    let there = parts.in_reference(pair.reference);
    record_pairs(alloc, subject, reference, here, there)
}

/// No pair, if all agrees.
fn no_pair(alloc: Global, agreed: bool) -> Option<Vec<TypePair>>
    ensures { pairs_in result ≡ (if agreed then Some [] else None) }
{
    if agreed { Some(Vec::new(alloc)) } else { None }
}

/// One pair, if all else agrees.
fn one_pair(
    alloc: Global,
    agreed: bool,
    subject: u32,
    reference: u32,
) -> Result<Option<Vec<TypePair>>, Memory>
    ensures { IfOk result (λ found. pairs_in found
        ≡ (if agreed then Some (pair subject reference ∷ []) else None)) }
{
    if !agreed {
        return Ok(None);
    }
    let mut pairs = Vec::new(alloc);
    pairs.push(TypePair { subject, reference })?;
    Ok(Some(pairs))
}

/// Two pairs, if all else agrees.
fn two_pairs(
    alloc: Global,
    agreed: bool,
    first: TypePair,
    subject: u32,
    reference: u32,
) -> Result<Option<Vec<TypePair>>, Memory>
    ensures { IfOk result (λ found. pairs_in found
        ≡ (if agreed then Some (first ∷ pair subject reference ∷ []) else None)) }
{
    if !agreed {
        return Ok(None);
    }
    let mut pairs = Vec::new(alloc);
    pairs.push(first)?;
    pairs.push(TypePair { subject, reference })?;
    Ok(Some(pairs))
}

/// What has to match so that two ordinal types do, and `None` where they do not agree in all else.
fn ordinal_pairs(
    alloc: Global,
    subject: &Program,
    reference: &Program,
    pair: TypePair,
    kind: TypeRow,
    other: TypeRow,
) -> Result<Option<Vec<TypePair>>, Memory>
    ensures { IfOk result (λ found. pairs_in found
        ≡ ordinal_pairs (programs subject.now reference.now) pair kind other) }
{
    match kind {
        TypeRow::Ordinal { greatest, .. } => match other {
            TypeRow::Ordinal { greatest: last, .. } => {
                let agreed = same_ordinals(subject, reference, pair, greatest, last);
                Ok(no_pair(alloc, agreed))
            }
            _ => Ok(None),
        },
        TypeRow::Subrange {
            host,
            least,
            greatest,
        } => match other {
            TypeRow::Subrange {
                host: of,
                least: first,
                greatest: last,
            } => one_pair(alloc, least == first && greatest == last, host, of),
            _ => Ok(None),
        },
        _ => Ok(None),
    }
}

/// What has to match so that two sets, or two arrays, do, and `None` where they do not agree in all else.
fn set_or_array_pairs(
    alloc: Global,
    kind: TypeRow,
    other: TypeRow,
) -> Result<Option<Vec<TypePair>>, Memory>
    ensures { IfOk result (λ found. pairs_in found ≡ set_or_array_pairs kind other) }
{
    match kind {
        TypeRow::Set { packed, base } => match other {
            TypeRow::Set {
                packed: too,
                base: of,
            } => one_pair(alloc, packed == too, base, of),
            _ => Ok(None),
        },
        TypeRow::Array {
            packed,
            index,
            component,
            ..
        } => match other {
            TypeRow::Array {
                packed: too,
                index: by,
                component: of,
                ..
            } => {
                let indices = TypePair {
                    subject: index,
                    reference: by,
                };
                two_pairs(alloc, packed == too, indices, component, of)
            }
            _ => Ok(None),
        },
        _ => Ok(None),
    }
}

/// What has to match so that two types do, and `None` where they do not agree in all else.
fn type_pairs(
    alloc: Global,
    subject: &Program,
    reference: &Program,
    parts: &BothParts,
    pair: TypePair,
    kind: TypeRow,
    other: TypeRow,
) -> Result<Option<Vec<TypePair>>, Memory>
    requires { AreBothParts (programs subject.now reference.now) parts.now }
    ensures { IfOk result (λ found. pairs_in found
        ≡ type_pairs (programs subject.now reference.now) pair kind other) }
{
    match kind {
        TypeRow::Ordinal { .. } => ordinal_pairs(alloc, subject, reference, pair, kind, other),
        TypeRow::Subrange { .. } => ordinal_pairs(alloc, subject, reference, pair, kind, other),
        TypeRow::Set { .. } => set_or_array_pairs(alloc, kind, other),
        TypeRow::Array { .. } => set_or_array_pairs(alloc, kind, other),
        TypeRow::Record { packed, .. } => match other {
            TypeRow::Record { packed: too, .. } => {
                if packed == too {
                    pairs_of_records(alloc, subject, reference, parts, pair)
                } else {
                    Ok(None)
                }
            }
            _ => Ok(None),
        },
        TypeRow::Pointer { .. } => Ok(None),
        TypeRow::Conformant { .. } => Ok(None),
    }
}

/// The pairs that have to match so that one does; and `None` where it can't match, whatever they do.
#[tactic(auto, unfolding(crate::specs::Shapes::pairs_inside))]
pub(crate) fn pairs_inside(
    alloc: Global,
    subject: &Program,
    reference: &Program,
    parts: &BothParts,
    pair: TypePair,
) -> Result<Option<Vec<TypePair>>, Memory>
    requires { AreBothParts (programs subject.now reference.now) parts.now }
    ensures { IfOk result (λ found. pairs_in found ≡ pairs_inside (programs subject.now reference.now) pair) }
{
    match subject.row(pair.subject) {
        Row::Type(kind) => match reference.row(pair.reference) {
            Row::Type(other) => type_pairs(alloc, subject, reference, parts, pair, kind, other),
            _ => Ok(None),
        },
        Row::Part(PartRow::Variant { .. }) => match reference.row(pair.reference) {
            Row::Part(PartRow::Variant { .. }) => pairs_of_records(
                alloc, subject, reference, parts, pair,
            ),
            _ => Ok(None),
        },
        _ => Ok(None),
    }
}
