//! What is left of a name after the parts that it begins with. They are compared where they stand: no text is written.

ghost use Rattle.std.specs.Prelude.{◌++◌, ◌∷◌, ◌≡◌, [], codes, decimal, length, nat_eq, option_copied};
ghost use Rattle.std.specs.{Fmt.signed_decimal, List.starts_with, Str.bytes_eq};
ghost use Rattle.cell_names.specs.NamedBy.{after_part, block_text, call_text, is_all, then_part};
ghost use Rattle.cell_names.specs.Names.{origin_text, selector_text, whose_text};
ghost use Rattle.cell_names.specs.Pieces.{byte_text, shown_char};
ghost use Rattle.cell_names.specs.Values.{constant_text, heap_number, host_text, within_bounds};

use crate::names::{Origin, Selector};
use crate::pieces::is_plain;
use crate::values::{Bounds, bounds_of, constant_token, has_ordinal};
use core_program::Program;
use core_program::rows::{BOOLEAN, CHAR, INTEGER};

/// Whether a name begins with a part. Most often the lengths or the first bytes tell.
#[tactic(auto, using(crate::proofs::Decimals::too_short))]
#[inline]
fn begins_with(name: &[u8], part: &[u8]) -> bool
    ensures { result ≡ starts_with nat_eq name.now part.now }
{
    if part.is_empty() {
        true
    } else if name.len() < part.len() {
        false
    } else if name[0] == part[0] {
        name.starts_with(part)
    } else {
        false
    }
}

/// What is left of a name after its first part, if it begins so.
#[inline]
fn after_part<'a>(name: &'a [u8], part: &[u8]) -> Option<&'a [u8]>
    ensures { option_copied result ≡ after_part part.now name.now }
{
    if begins_with(name, part) {
        Some(&name[part.len()..])
    } else {
        None
    }
}

/// What is left of a name after a byte, if it begins with it.
#[inline]
fn after_sign(name: &[u8], sign: u8) -> Option<&[u8]>
    ensures { option_copied result ≡ after_part (sign ∷ []) name.now }
{
    if name.is_empty() {
        None
    } else if name[0] == sign {
        Some(&name[1..])
    } else {
        None
    }
}

/// What is left of a name after one more byte, if it goes on so.
#[inline]
pub(crate) fn then_sign(left: Option<&[u8]>, sign: u8) -> Option<&[u8]>
    ensures { option_copied result ≡ then_part (sign ∷ []) (option_copied left.entry) }
{
    match left {
        None => None,
        Some(name) => after_sign(name, sign),
    }
}

/// What is left of a name after one more part, if it goes on so.
#[inline]
pub(crate) fn then_part<'a>(left: Option<&'a [u8]>, part: &[u8]) -> Option<&'a [u8]>
    ensures { option_copied result ≡ then_part part.now (option_copied left.entry) }
{
    match left {
        None => None,
        Some(name) => after_part(name, part),
    }
}

/// Whether nothing is left of a name.
#[inline]
pub(crate) fn is_all(left: Option<&[u8]>) -> bool
    ensures { result ≡ is_all (option_copied left.entry) }
{
    match left {
        None => false,
        Some(rest) => rest.is_empty(),
    }
}

/// How many digits a number has in decimal.
#[inline]
fn digits_in(number: u32) -> usize
    ensures { result ≡ length (decimal number) }
{
    if number < 10 {
        1
    } else if number < 100 {
        2
    } else if number < 1_000 {
        3
    } else if number < 10_000 {
        4
    } else if number < 100_000 {
        5
    } else if number < 1_000_000 {
        6
    } else if number < 10_000_000 {
        7
    } else if number < 100_000_000 {
        8
    } else if number < 1_000_000_000 {
        9
    } else {
        10
    }
}

/// Whether a text is a number in decimal: its digits are compared from the last one on, the one that tells numbers in a
/// row apart.
#[inline]
fn is_number(text: &[u8], number: u32) -> bool
    ensures { result ≡ bytes_eq (decimal number) text.now }
{
    let mut left = number;
    let mut end = text.len();
    'digits: while left >= 10 {
        if end == 0 {
            return false;
        }
        end -= 1;
        if u32::from(text[end]) != 48 + left % 10 {
            return false;
        }
        left /= 10;
    }
    if end == 1 {
        u32::from(text[0]) == 48 + left
    } else {
        false
    }
}

/// What is left of a name after a number in decimal, if it begins so.
#[inline]
fn after_number(name: &[u8], number: u32) -> Option<&[u8]>
    ensures { option_copied result ≡ after_part (decimal number) name.now }
{
    let count = digits_in(number);
    if count > name.len() {
        return None;
    }
    if is_number(&name[..count], number) {
        Some(&name[count..])
    } else {
        None
    }
}

/// What is left after a number in decimal.
#[inline]
fn then_number<'a>(left: Option<&'a [u8]>, number: u32) -> Option<&'a [u8]>
    ensures { option_copied result ≡ then_part (decimal number) (option_copied left.entry) }
{
    match left {
        None => None,
        Some(name) => after_number(name, number),
    }
}

/// What is left after an integer in decimal.
fn then_integer<'a>(left: Option<&'a [u8]>, number: i32) -> Option<&'a [u8]>
    ensures { option_copied result ≡ then_part (signed_decimal number) (option_copied left.entry) }
{
    if number < 0 {
        then_number(then_sign(left, b'-'), number.unsigned_abs())
    } else {
        then_number(left, number as u32)
    }
}

/// What is left after one character, which is below 256.
fn then_byte<'a>(left: Option<&'a [u8]>, byte: u32) -> Option<&'a [u8]>
    ensures { option_copied result ≡ then_part (byte_text byte) (option_copied left.entry) }
{
    then_part(left, &[(byte % 256) as u8])
}

/// What is left after a value of the type char that is shown by its ordinal.
fn then_chr<'a>(left: Option<&'a [u8]>, ordinal: u32) -> Option<&'a [u8]>
    ensures { option_copied result
        ≡ then_part (codes "chr(" ++ decimal ordinal ++ codes ")") (option_copied left.entry) }
{
    let opened = then_part(left, b"chr(");
    let shown = then_number(opened, ordinal);
    then_sign(shown, b')')
}

/// What is left after a value of the type char.
#[tactic(auto, using(crate::proofs::NameParts::then_both))]
fn then_char<'a>(left: Option<&'a [u8]>, ordinal: u32) -> Option<&'a [u8]>
    ensures { option_copied result ≡ then_part (shown_char ordinal) (option_copied left.entry) }
{
    if ordinal == 39 {
        then_part(left, b"''''")
    } else if is_plain(ordinal) {
        let opened = then_sign(left, b'\'');
        let shown = then_byte(opened, ordinal);
        then_sign(shown, b'\'')
    } else {
        then_chr(left, ordinal)
    }
}

/// What is left after the constant of an ordinal of a type other than integer.
fn then_constant<'a>(
    left: Option<&'a [u8]>,
    program: &Program,
    host: u32,
    ordinal: u32,
) -> Option<&'a [u8]>
    ensures { option_copied result ≡ then_part (constant_text program.now host ordinal) (option_copied left.entry) }
{
    if host == BOOLEAN {
        if ordinal == 0 {
            then_part(left, b"false")
        } else {
            then_part(left, b"true")
        }
    } else if host == CHAR {
        then_char(left, ordinal)
    } else {
        then_part(left, program.text(constant_token(host, ordinal)))
    }
}

/// What is left after a value of a host type by its ordinal.
fn then_of_host<'a>(
    left: Option<&'a [u8]>,
    program: &Program,
    host: u32,
    ordinal: i32,
) -> Option<&'a [u8]>
    ensures { option_copied result ≡ then_part (host_text program.now host ordinal) (option_copied left.entry) }
{
    if host == INTEGER {
        then_integer(left, ordinal)
    } else if ordinal < 0 {
        then_sign(left, b'?')
    } else {
        then_constant(left, program, host, ordinal as u32)
    }
}

/// What is left after a value of an ordinal type with these values, by its ordinal.
fn then_ordinal<'a>(
    left: Option<&'a [u8]>,
    program: &Program,
    bounds: Option<Bounds>,
    ordinal: i64,
) -> Option<&'a [u8]>
    ensures { option_copied result ≡ then_part (within_bounds program.now ordinal bounds) (option_copied left.entry) }
{
    match bounds {
        None => then_sign(left, b'?'),
        Some(bounds) => {
            if has_ordinal(bounds, ordinal) {
                then_of_host(left, program, bounds.host, ordinal as i32)
            } else {
                then_sign(left, b'?')
            }
        }
    }
}

/// What is left after an index of a type with these values, by its ordinal.
pub(crate) fn then_index<'a>(
    left: Option<&'a [u8]>,
    program: &Program,
    bounds: Option<Bounds>,
    value: i64,
) -> Option<&'a [u8]>
    ensures { option_copied result
        ≡ then_part (codes "[" ++ within_bounds program.now value bounds ++ codes "]") (option_copied left.entry) }
{
    let opened = then_sign(left, b'[');
    let indexed = then_ordinal(opened, program, bounds, value);
    then_sign(indexed, b']')
}

/// What is left after a selector.
#[tactic(auto, using(crate::proofs::NameParts::then_both))]
pub(crate) fn then_selector<'a>(
    left: Option<&'a [u8]>,
    program: &Program,
    selector: Selector,
) -> Option<&'a [u8]>
    ensures { option_copied result ≡ then_part (selector_text program.now selector) (option_copied left.entry) }
{
    match selector {
        Selector::Index { of, value } => then_index(left, program, bounds_of(program, of), value),
        Selector::Field(number) => {
            let selected = then_sign(left, b'.');
            then_part(selected, program.text(number))
        }
        Selector::Case => then_part(left, b".case"),
    }
}

/// What is left after the name of a call of a routine, as `f#3`.
#[tactic(auto, using(crate::proofs::NameParts::then_both))]
#[inline]
pub(crate) fn then_call<'a>(
    left: Option<&'a [u8]>,
    program: &Program,
    call: u32,
    routine: u32,
) -> Option<&'a [u8]>
    ensures { option_copied result ≡ then_part (call_text program.now call routine) (option_copied left.entry) }
{
    let named = then_part(left, program.name(routine));
    let marked = then_sign(named, b'#');
    then_number(marked, call)
}

/// What is left after a variable of the heap before its last `^`.
#[tactic(auto, using(crate::proofs::NameParts::then_both))]
#[inline]
pub(crate) fn then_block<'a>(left: Option<&'a [u8]>, base: u32) -> Option<&'a [u8]>
    ensures { option_copied result ≡ then_part (block_text base) (option_copied left.entry) }
{
    let marked = then_sign(left, b'^');
    then_number(marked, base.saturating_sub(524_287))
}

/// What is left after what stands before the variables of a call, where it is not call 0.
#[tactic(auto, using(crate::proofs::NameParts::whose_in_parts))]
#[inline]
pub(crate) fn then_whose<'a>(
    left: Option<&'a [u8]>,
    program: &Program,
    call: u32,
    routine: u32,
) -> Option<&'a [u8]>
    ensures { option_copied result ≡ then_part (whose_text program.now call routine) (option_copied left.entry) }
{
    if call == 0 {
        left
    } else {
        let called = then_call(left, program, call, routine);
        then_sign(called, b'.')
    }
}

/// What is left after what the way down to a cell begins at.
#[tactic(auto, using(crate::proofs::NameParts::origins_in_parts))]
#[inline]
pub(crate) fn then_origin<'a>(
    left: Option<&'a [u8]>,
    program: &Program,
    origin: Origin,
) -> Option<&'a [u8]>
    ensures { option_copied result ≡ then_part (origin_text program.now origin) (option_copied left.entry) }
{
    match origin {
        Origin::Heap(base) => {
            let block = then_block(left, base);
            then_sign(block, b'^')
        }
        Origin::Local {
            call,
            routine,
            token,
        } => {
            let whose = then_whose(left, program, call, routine);
            then_part(whose, program.text(token))
        }
    }
}
