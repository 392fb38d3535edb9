//! What of a type counts when two are held against each other (6.4.5, 6.4.6).

ghost use Rattle.std.specs.Prelude.{◌≡◌};
ghost use Rattle.kind_checker.specs.Shapes.{agree, hosts_agree, is_assignable, is_same_type, known_host, length_from};
ghost use Rattle.kind_checker.specs.Shapes.{packing_of, packings_agree, shape_in, shape_of, string_length, text_or};

use crate::sizes::host_of;
use check_steps::{Tables, headings};
use core_program::rows::{CHAR, INTEGER, TypeRow};

/// Whether a set is of a packed type.
#[derive(Clone, Copy, PartialEq, Eq)]
pub enum Packing {
    /// Of a set constructor, which goes with both.
    Either,
    Unpacked,
    Packed,
}

/// The type of an expression.
#[derive(Clone, Copy, PartialEq, Eq)]
pub enum ExpressionType {
    /// A broken rule leaves it unknown.
    Unknown,
    /// The type of this number.
    Of(u32),
    /// That of the value nil.
    Nil,
    /// That of a set constructor, or of what an operator on sets gives: the host type of its members, and None where
    /// it has no member.
    Set { host: Option<u32>, packing: Packing },
    /// That of a string of this many characters, two at least.
    Text(usize),
}

/// What of a type counts when two are held against each other.
#[derive(Clone, Copy, PartialEq, Eq)]
pub enum Shape {
    /// A broken rule leaves it unknown.
    Unknown,
    /// An ordinal type of this host.
    Ordinal(u32),
    /// A set: the host of its base type, and None where it has no member or its base type is unknown.
    Set { host: Option<u32>, packing: Packing },
    /// A string of this many characters.
    Text(usize),
    /// The pointer type of this number.
    Pointer(u32),
    /// The value nil.
    Nil,
    /// An array that is no string, one of a conformant parameter, or a record, by its number.
    Other(u32),
}

fn packing_of(packed: bool) -> Packing
    ensures { result ≡ packing_of packed }
{
    if packed {
        Packing::Packed
    } else {
        Packing::Unpacked
    }
}

fn known_host(tables: &Tables, base: u32) -> Option<u32>
    ensures { result ≡ known_host tables.now base }
{
    if tables.type_row(base).is_none() {
        None
    } else {
        Some(host_of(tables, base))
    }
}

fn length_from(row: Option<TypeRow>) -> Option<usize>
    ensures { result ≡ length_from row }
{
    match row {
        Some(
            TypeRow::Subrange {
                host,
                least,
                greatest,
            },
        ) => {
            if host == INTEGER && least == 1 && 2 <= greatest {
                Some(greatest.unsigned_abs() as usize)
            } else {
                None
            }
        }
        _ => None,
    }
}

fn string_length(tables: &Tables, packed: bool, index: u32, component: u32) -> Option<usize>
    ensures { result ≡ string_length tables.now packed index component }
{
    if packed && component == CHAR {
        length_from(tables.type_row(index))
    } else {
        None
    }
}

fn text_or(kind: u32, length: Option<usize>) -> Shape
    ensures { result ≡ text_or kind length }
{
    match length {
        Some(length) => Shape::Text(length),
        None => Shape::Other(kind),
    }
}

fn shape_in(tables: &Tables, kind: u32, row: Option<TypeRow>) -> Shape
    ensures { result ≡ shape_in tables.now kind row }
{
    match row {
        None => Shape::Unknown,
        Some(TypeRow::Ordinal { .. }) => Shape::Ordinal(kind),
        Some(TypeRow::Subrange { host, .. }) => Shape::Ordinal(host),
        Some(TypeRow::Set { packed, base }) => Shape::Set {
            host: known_host(tables, base),
            packing: packing_of(packed),
        },
        Some(TypeRow::Pointer { .. }) => Shape::Pointer(kind),
        Some(
            TypeRow::Array {
                packed,
                index,
                component,
                ..
            },
        ) => text_or(kind, string_length(tables, packed, index, component)),
        Some(TypeRow::Conformant { .. }) => Shape::Other(kind),
        Some(TypeRow::Record { .. }) => Shape::Other(kind),
    }
}

/// What of the type of an expression counts when it is held against another.
pub fn shape_of(tables: &Tables, of: ExpressionType) -> Shape
    ensures { result ≡ shape_of tables.now of }
{
    match of {
        ExpressionType::Unknown => Shape::Unknown,
        ExpressionType::Of(kind) => shape_in(tables, kind, tables.type_row(kind)),
        ExpressionType::Nil => Shape::Nil,
        ExpressionType::Set { host, packing } => Shape::Set { host, packing },
        ExpressionType::Text(length) => Shape::Text(length),
    }
}

pub(crate) fn hosts_agree(left: Option<u32>, right: Option<u32>) -> bool
    ensures { result ≡ hosts_agree left right }
{
    match (left, right) {
        (Some(a), Some(b)) => a == b,
        _ => true,
    }
}

pub(crate) fn packings_agree(left: Packing, right: Packing) -> bool
    ensures { result ≡ packings_agree left right }
{
    match (left, right) {
        (Packing::Packed, Packing::Unpacked) => false,
        (Packing::Unpacked, Packing::Packed) => false,
        _ => true,
    }
}

/// Whether two types are compatible (6.4.5), or one is a pointer type and the other that of nil. An unknown type is
/// with all.
pub fn agree(left: Shape, right: Shape) -> bool
    ensures { result ≡ agree left right }
{
    match (left, right) {
        (Shape::Unknown, _) => true,
        (_, Shape::Unknown) => true,
        (Shape::Ordinal(a), Shape::Ordinal(b)) => a == b,
        (
            Shape::Set {
                host: a,
                packing: p,
            },
            Shape::Set {
                host: b,
                packing: q,
            },
        ) => hosts_agree(a, b) && packings_agree(p, q),
        (Shape::Text(m), Shape::Text(n)) => m == n,
        (Shape::Pointer(a), Shape::Pointer(b)) => a == b,
        (Shape::Pointer(_), Shape::Nil) => true,
        (Shape::Nil, Shape::Pointer(_)) => true,
        (Shape::Nil, Shape::Nil) => true,
        (Shape::Other(a), Shape::Other(b)) => a == b,
        _ => false,
    }
}

/// Whether a value is assignment-compatible with a type (6.4.6), as far as types tell.
pub fn is_assignable(tables: &Tables, kind: u32, value: ExpressionType) -> bool
    ensures { result ≡ is_assignable tables.now kind value }
{
    agree(
        shape_of(tables, ExpressionType::Of(kind)),
        shape_of(tables, value),
    )
}

/// Whether two types are the same, or one of them is unknown.
pub fn is_same_type(tables: &Tables, left: u32, right: u32) -> bool
    ensures { result ≡ is_same_type tables.now left right }
{
    headings::is_same_type(tables.program(), left, right)
}
