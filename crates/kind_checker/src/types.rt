//! Type denoters without others inside: names, enumerations, subranges, pointers (6.4.1, 6.4.2, 6.4.4); and set types
//! of a base (6.4.3.4).

ghost use Rattle.std.specs.Prelude.{◌≡◌};
ghost use Rattle.pas_tree.specs.{ConstantTrees.names_tree, DenoterTrees.enumeration_tree};
ghost use Rattle.check_steps.specs.Steps.{Does, each};
ghost use Rattle.kind_checker.specs.Names.{each_name, on_name};
ghost use Rattle.kind_checker.specs.Types.{base_type, definition_of, domain_named, enumerated, enumeration, is_range};
ghost use Rattle.kind_checker.specs.Types.{is_type_name, looked_up_as, named_type, ordinal, pointer_type, range_row};
ghost use Rattle.kind_checker.specs.Types.{set_type, subrange, successor, type_named, type_of};

use crate::constants::ConstantValue;
use crate::sizes::{is_ordinal, is_within_bytes};
use check_steps::{Def, Found, Tables, Work};
use core_program::rows::{NameRow, Row, TypeRow};
use pas_tree::constants::{Names, NextName};
use pas_tree::denoters::Enumeration;

/// Where a type denoter stands.
#[derive(Clone, Copy)]
pub struct Scope {
    /// The frame in which its names are looked up.
    pub frame: u32,
    /// The token as at which the domain of a pointer is looked up, if that is another one than its name: the end of a
    /// part of type definitions.
    pub domains_at: Option<u32>,
}

fn is_type_name(found: Option<Found>) -> bool
    ensures { result ≡ is_type_name found }
{
    match found {
        None => true,
        Some(found) => match found.definition.def {
            Def::TypeName(_) => true,
            _ => false,
        },
    }
}

/// The type for which a name stands by its row, and else another number.
pub fn type_named(row: Row, otherwise: u32) -> u32
    ensures { result ≡ type_named row otherwise }
{
    match row {
        Row::Name(NameRow::TypeName { of }) => of,
        _ => otherwise,
    }
}

fn type_of(tables: &Tables, found: Option<Found>, token: u32) -> u32
    ensures { result ≡ type_of tables.now found token }
{
    match found {
        None => token,
        Some(found) => type_named(tables.row(found.definition.token), token),
    }
}

/// The type for which a name stands.
#[tactic(auto, using(check_steps::proofs::Runs::steps), unfolding(crate::specs::Types::named_type))]
pub fn check_named_type(work: &mut Work, frame: u32, token: u32) -> u32
    ensures { Does (named_type frame token) result work.old work.new }
{
    let found = work.use_at(frame, token, token);
    work.late(3, token, is_type_name(found));
    type_of(&work.tables, found, token)
}

fn is_range(first: Option<ConstantValue>, last: Option<ConstantValue>) -> bool
    ensures { result ≡ is_range first last }
{
    match (first, last) {
        (
            Some(ConstantValue::Ordinal { of: host, value: a }),
            Some(
                ConstantValue::Ordinal {
                    of: other,
                    value: b,
                },
            ),
        ) => host == other && a <= b,
        (Some(_), Some(_)) => false,
        _ => true,
    }
}

fn range_row(first: Option<ConstantValue>, last: Option<ConstantValue>) -> Row
    ensures { result ≡ range_row first last }
{
    match (first, last) {
        (
            Some(
                ConstantValue::Ordinal {
                    of: host,
                    value: least,
                },
            ),
            Some(
                ConstantValue::Ordinal {
                    of: other,
                    value: greatest,
                },
            ),
        ) => {
            if host == other && least <= greatest {
                Row::Type(TypeRow::Subrange {
                    host,
                    least,
                    greatest,
                })
            } else {
                Row::Nothing
            }
        }
        _ => Row::Nothing,
    }
}

/// A subrange type, at its `..`.
#[tactic(auto, using(check_steps::proofs::Runs::steps), unfolding(crate::specs::Types::subrange))]
pub fn check_subrange(
    work: &mut Work,
    first: Option<ConstantValue>,
    dots: u32,
    last: Option<ConstantValue>,
) -> u32
    ensures { Does (subrange first dots last) result work.old work.new }
{
    work.early(5, dots, is_range(first, last));
    work.put(dots, range_row(first, last));
    dots
}

fn successor(ordinal: i32) -> i32
    ensures { result ≡ successor ordinal }
{
    if ordinal < i32::MAX {
        ordinal + 1
    } else {
        ordinal
    }
}

#[tactic(auto, using(check_steps::proofs::Runs::steps), unfolding(crate::specs::Types::enumerated))]
fn check_enumerated(work: &mut Work, of: u32, last: i32, name: u32) -> i32
    ensures { Does (enumerated of last name) result work.old work.new }
{
    let value = successor(last);
    work.put(name, Row::Name(NameRow::Constant { of, value }));
    value
}

#[tactic(auto, unfolding(crate::specs::Names::on_name))]
fn check_next_enumerated(work: &mut Work, of: u32, last: i32, next: &NextName) -> i32
    ensures { Does (on_name (enumerated of) last next.now) result work.old work.new }
{
    check_enumerated(work, of, last, next.name)
}

#[tactic(auto, using(check_steps::proofs::Runs::read_loops))]
fn check_more_enumerated(work: &mut Work, of: u32, last: i32, names: &[NextName]) -> i32
    ensures { Does (each (on_name (enumerated of)) last names.now) result work.old work.new }
{
    let mut ordinal = last;
    'names: for name in names {
        ordinal = check_next_enumerated(work, of, ordinal, name);
    }
    ordinal
}

#[tactic(auto, using(check_steps::proofs::Runs::steps))]
fn check_each_enumerated(work: &mut Work, of: u32, last: i32, names: &Names) -> i32
    ensures { Does (each_name (enumerated of) last (names_tree names.now)) result work.old work.new }
{
    let first = check_enumerated(work, of, last, names.first);
    check_more_enumerated(work, of, first, &names.others)
}

/// An enumerated type, at its `(`, and its constants.
#[tactic(auto, using(check_steps::proofs::Runs::steps), unfolding(crate::specs::Types::enumeration))]
pub fn check_enumeration(work: &mut Work, e: &Enumeration) -> u32
    ensures { Does (enumeration (enumeration_tree e.now)) result work.old work.new }
{
    let greatest = check_each_enumerated(work, e.open, -1, &e.names);
    work.put(e.open, Row::Type(TypeRow::Ordinal { least: 0, greatest }));
    e.open
}

fn looked_up_as(scope: Scope, name: u32) -> u32
    ensures { result ≡ looked_up_as scope name }
{
    match scope.domains_at {
        Some(token) => token,
        None => name,
    }
}

fn definition_of(found: Option<Found>, name: u32) -> u32
    ensures { result ≡ definition_of found name }
{
    match found {
        None => name,
        Some(found) => found.definition.token,
    }
}

fn domain_named(tables: &Tables, at: Option<u32>, found: Option<Found>, name: u32) -> u32
    ensures { result ≡ domain_named tables.now at found name }
{
    match at {
        None => type_of(tables, found, name),
        Some(_) => definition_of(found, name),
    }
}

/// A pointer type, at its `^`. Where its domain may be defined later, what stands for that is its definition so far.
#[tactic(auto, using(check_steps::proofs::Runs::steps), unfolding(crate::specs::Types::pointer_type))]
pub fn check_pointer(work: &mut Work, scope: Scope, caret: u32, name: u32) -> u32
    ensures { Does (pointer_type scope caret name) result work.old work.new }
{
    let found = work.use_at(scope.frame, looked_up_as(scope, name), name);
    work.late(3, name, is_type_name(found));
    let domain = domain_named(&work.tables, scope.domains_at, found, name);
    work.put(caret, Row::Type(TypeRow::Pointer { domain }));
    caret
}

/// A type that is to be ordinal, at its first token, and else a number at which no type stands.
#[tactic(auto, using(check_steps::proofs::Runs::steps), unfolding(crate::specs::Types::ordinal))]
pub fn check_ordinal(work: &mut Work, first: u32, unknown: u32, kind: u32) -> u32
    ensures { Does (ordinal first unknown kind) result work.old work.new }
{
    let fine = is_ordinal(work.tables.type_row(kind));
    work.late(6, first, fine);
    if fine { kind } else { unknown }
}

#[tactic(auto, using(check_steps::proofs::Runs::steps), unfolding(crate::specs::Types::base_type))]
fn check_base_type(work: &mut Work, first: u32, unknown: u32, kind: u32) -> u32
    ensures { Does (base_type first unknown kind) result work.old work.new }
{
    let base = check_ordinal(work, first, unknown, kind);
    let fine = is_within_bytes(work.tables.type_row(base));
    work.early(7, first, fine);
    base
}

/// A set type, at its word `set`, of a base type that begins at a token.
#[tactic(auto, using(check_steps::proofs::Runs::steps), unfolding(crate::specs::Types::set_type))]
pub fn check_set_type(
    work: &mut Work,
    packed: bool,
    word: u32,
    first: u32,
    unknown: u32,
    kind: u32,
) -> u32
    ensures { Does (set_type packed word first unknown kind) result work.old work.new }
{
    let base = check_base_type(work, first, unknown, kind);
    work.put(word, Row::Type(TypeRow::Set { packed, base }));
    word
}
