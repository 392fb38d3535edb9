//! The operators on sets.
ghost use Rattle.std.specs.Prelude.{◌&&◌, ◌<◌, ◌||◌, ◌↔◌, ◌≡◌, ◌≤◌, ℕ, IsTrue, false, int_le, nat_le, nat_lt, not, pos};
ghost use Rattle.cell_value.specs.Sets.{IsIncluded, bits_where, difference_of, has, has_number, intersection_of};
ghost use Rattle.cell_value.specs.Sets.{is_between, is_included, lies_between, set_of, union_of, with_range_of};

use crate::values::SetBits;

/// The union: what one of the sets holds, or both (ISO 7185, clause 6.7.2.4).
pub fn union(a: SetBits, b: SetBits) -> SetBits
    ensures exact { result ≡ union_of a b }
    ensures members { (ordinal : ℕ) → has result ordinal ≡ (has a ordinal || has b ordinal) }
{
    SetBits {
        words: [
            a.words[0] | b.words[0],
            a.words[1] | b.words[1],
            a.words[2] | b.words[2],
            a.words[3] | b.words[3],
        ],
    }
}

/// The difference: what the first set holds and the second does not (6.7.2.4).
pub fn minus(a: SetBits, b: SetBits) -> SetBits
    ensures exact { result ≡ difference_of a b }
    ensures members { (ordinal : ℕ) → has result ordinal ≡ (has a ordinal && not (has b ordinal)) }
{
    SetBits {
        words: [
            a.words[0] & !b.words[0],
            a.words[1] & !b.words[1],
            a.words[2] & !b.words[2],
            a.words[3] & !b.words[3],
        ],
    }
}

/// The intersection: what both sets hold (6.7.2.4).
pub fn meet(a: SetBits, b: SetBits) -> SetBits
    ensures exact { result ≡ intersection_of a b }
    ensures members { (ordinal : ℕ) → has result ordinal ≡ (has a ordinal && has b ordinal) }
{
    SetBits {
        words: [
            a.words[0] & b.words[0],
            a.words[1] & b.words[1],
            a.words[2] & b.words[2],
            a.words[3] & b.words[3],
        ],
    }
}

/// Whether a set holds nothing.
fn is_empty(a: SetBits) -> bool
    ensures { IsTrue result ↔ ((ordinal : ℕ) → has a ordinal ≡ false) }
{
    a.words[0] | a.words[1] | a.words[2] | a.words[3] == 0
}

/// Whether the second set holds all that the first one holds (ISO 7185, clause 6.7.2.5).
pub fn within(a: SetBits, b: SetBits) -> bool
    ensures exact { result ≡ is_included a b }
    ensures members { IsTrue result ↔ IsIncluded a b }
{
    is_empty(minus(a, b))
}

/// Whether a set holds an ordinal (6.7.2.5). No set holds one below 0 or above 255.
pub fn holds(a: SetBits, ordinal: i64) -> bool
    ensures { result ≡ has_number a ordinal }
{
    match u8::try_from(ordinal) {
        Ok(place) => (a.words[place as usize / 64] >> (place % 64)) & 1 == 1,
        Err(_) => false,
    }
}

/// The word of which the first `count` bits are set, or all where it has no more.
fn first_bits(count: u32) -> u64
    ensures { result ≡ bits_where (λ place. nat_lt place count) 64 }
{
    if count < 64 {
        (1 << count) - 1
    } else {
        u64::MAX
    }
}

/// The set of the ordinals below a bound.
fn below(bound: u32) -> SetBits
    ensures { result ≡ set_of (λ ordinal. nat_lt ordinal bound) }
{
    SetBits {
        words: [
            first_bits(bound),
            first_bits(bound.saturating_sub(64)),
            first_bits(bound.saturating_sub(128)),
            first_bits(bound.saturating_sub(192)),
        ],
    }
}

/// The set of the ordinals from one to another, both of which belong to the range.
fn range(from: u8, to: u8) -> SetBits
    ensures { (ordinal : ℕ) → has result ordinal ≡ is_between from to ordinal }
{
    minus(below(u32::from(to) + 1), below(u32::from(from)))
}

/// The set with the ordinals from one to another, both of which belong to the range, as a set constructor has them
/// (6.7.1); with none more where the first is greater.
pub fn with_range(a: SetBits, from: u8, to: u8) -> SetBits
    ensures exact { result ≡ with_range_of a from to }
    ensures members { (ordinal : ℕ) → has result ordinal ≡ (has a ordinal || is_between from to ordinal) }
{
    union(a, range(from, to))
}

/// How many of the ordinals 0 to 255 lie below a number.
fn ordinals_below(number: i64) -> u32
    ensures few { result ≤ 256 }
    ensures count { (ordinal : ℕ) → ordinal < 256 → nat_le result ordinal ≡ int_le number (pos ordinal) }
{
    if number <= 0 {
        0
    } else if number < 256 {
        number as u32
    } else {
        256
    }
}

/// How many of the ordinals 0 to 255 are at most a number.
fn ordinals_up_to(number: i64) -> u32
    ensures few { result ≤ 256 }
    ensures count { (ordinal : ℕ) → ordinal < 256 → nat_lt ordinal result ≡ int_le (pos ordinal) number }
{
    if number < 0 {
        0
    } else if number < 255 {
        number as u32 + 1
    } else {
        256
    }
}

/// Whether each member of a set lies between two bounds, which belong to the range (ISO 7185, clause 6.4.6).
pub fn between(a: SetBits, least: i64, greatest: i64) -> bool
    ensures { result ≡ lies_between a least greatest }
{
    within(
        a,
        minus(
            below(ordinals_up_to(greatest)),
            below(ordinals_below(least)),
        ),
    )
}
