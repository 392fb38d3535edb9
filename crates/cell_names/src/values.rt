//! Values by their types.

ghost use Rattle.std.specs.Prelude.{◌&&◌, ◌+◌, ◌<◌, ◌≡◌, int_le, true};
ghost use Rattle.edge_ports.specs.Printouts.{Prints, PrintsAllBut};
ghost use Rattle.cell_value.specs.Sets.{has};
ghost use Rattle.cell_names.specs.Values.{bounds_of, constant_text, constant_token, host_text, member_text};
ghost use Rattle.cell_names.specs.Values.{members_from, members_text, number_text, ordinal_text, pointer_text};
ghost use Rattle.cell_names.specs.Values.{set_text, set_value_text, typed_text, untyped_text};

use crate::pieces::{write_char, write_integer, write_long, write_number};
use cell_value::{SetBits, Value, holds};
use core_program::Program;
use core_program::rows::{BOOLEAN, CHAR, INTEGER, TypeRow};
use edge_ports::Printer;

/// The values of an ordinal type: those of its host type from one ordinal to another.
#[derive(Clone, Copy)]
pub(crate) struct Bounds {
    pub(crate) host: u32,
    pub(crate) least: i32,
    pub(crate) greatest: i32,
}

/// The values of a type, if it is ordinal.
pub(crate) fn bounds_of(program: &Program, of: u32) -> Option<Bounds>
    ensures { result ≡ bounds_of program.now of }
{
    match program.type_row(of) {
        Some(TypeRow::Ordinal { least, greatest }) => Some(Bounds {
            host: of,
            least,
            greatest,
        }),
        Some(
            TypeRow::Subrange {
                host,
                least,
                greatest,
            },
        ) => Some(Bounds {
            host,
            least,
            greatest,
        }),
        _ => None,
    }
}

/// The token that spells the constant of an ordinal of an enumeration.
pub(crate) fn constant_token(host: u32, ordinal: u32) -> u32
    ensures { result ≡ constant_token host ordinal }
{
    host.saturating_add(1)
        .saturating_add(ordinal.saturating_mul(2))
}

/// Prints the constant of an ordinal of a type other than integer.
fn write_constant<P: Printer>(out: &mut P, program: &Program, host: u32, ordinal: u32)
    ensures { Prints (P.printout out.old) (P.printout out.new) (constant_text program.now host ordinal) }
{
    if host == BOOLEAN {
        if ordinal == 0 {
            out.print(b"false");
        } else {
            out.print(b"true");
        }
    } else if host == CHAR {
        write_char(out, ordinal);
    } else {
        out.print(program.text(constant_token(host, ordinal)));
    }
}

/// Prints a value of a host type by its ordinal.
fn write_of_host<P: Printer>(out: &mut P, program: &Program, host: u32, ordinal: i32)
    ensures { Prints (P.printout out.old) (P.printout out.new) (host_text program.now host ordinal) }
{
    if host == INTEGER {
        write_integer(out, ordinal);
    } else if ordinal < 0 {
        out.print(b"?");
    } else {
        write_constant(out, program, host, ordinal as u32);
    }
}

/// Whether an ordinal is one of these values.
pub(crate) fn has_ordinal(bounds: Bounds, ordinal: i64) -> bool
    ensures { result ≡ (int_le bounds.least ordinal && int_le ordinal bounds.greatest) }
{
    i64::from(bounds.least) <= ordinal && ordinal <= i64::from(bounds.greatest)
}

/// Prints a value of an ordinal type by its ordinal.
pub(crate) fn write_ordinal<P: Printer>(out: &mut P, program: &Program, of: u32, ordinal: i64)
    ensures { Prints (P.printout out.old) (P.printout out.new) (ordinal_text program.now of ordinal) }
{
    match bounds_of(program, of) {
        None => out.print(b"?"),
        Some(bounds) => {
            if has_ordinal(bounds, ordinal) {
                write_of_host(out, program, bounds.host, ordinal as i32);
            } else {
                out.print(b"?");
            }
        }
    }
}

/// Prints a member of a set after those before it.
fn write_member<P: Printer>(out: &mut P, program: &Program, base: u32, first: bool, ordinal: u32)
    ensures { Prints (P.printout out.old) (P.printout out.new) (member_text program.now base first ordinal) }
{
    if !first {
        out.print(b", ");
    }
    write_ordinal(out, program, base, i64::from(ordinal));
}

/// Whether a set has an ordinal.
fn is_member(set: SetBits, ordinal: u32) -> bool
    ensures { result ≡ has set ordinal }
{
    holds(set, i64::from(ordinal))
}

/// Prints an ordinal if it is a member of a set, and says whether the next member is the first.
fn write_if_member<P: Printer>(
    out: &mut P,
    program: &Program,
    base: u32,
    set: SetBits,
    first: bool,
    ordinal: u32,
) -> bool
    requires { ordinal < 256 }
    ensures { PrintsAllBut (P.printout out.old) (members_text program.now base first (members_from set ordinal))
        (P.printout out.new) (members_text program.now base result (members_from set (ordinal + 1))) }
{
    if is_member(set, ordinal) {
        write_member(out, program, base, first, ordinal);
        return false;
    }
    first
}

/// Prints the members of a set.
fn write_members<P: Printer>(out: &mut P, program: &Program, base: u32, set: SetBits)
    ensures { Prints (P.printout out.old) (P.printout out.new)
        (members_text program.now base true (members_from set 0)) }
{
    let mut first = true;
    'members: for ordinal in 0..256u32 {
        first = write_if_member(out, program, base, set, first, ordinal);
    }
}

/// Prints a set with this base type.
fn write_set<P: Printer>(out: &mut P, program: &Program, base: u32, set: SetBits)
    ensures { Prints (P.printout out.old) (P.printout out.new) (set_text program.now base set) }
{
    out.print(b"[");
    write_members(out, program, base, set);
    out.print(b"]");
}

/// Prints a value of a set type with this base type.
fn write_set_value<P: Printer>(out: &mut P, program: &Program, base: u32, value: Value)
    ensures { Prints (P.printout out.old) (P.printout out.new) (set_value_text program.now base value) }
{
    match value {
        Value::Bits(set) => write_set(out, program, base, set),
        _ => out.print(b"?"),
    }
}

/// Prints a value of an ordinal type.
fn write_number_of<P: Printer>(out: &mut P, program: &Program, of: u32, value: Value)
    ensures { Prints (P.printout out.old) (P.printout out.new) (number_text program.now of value) }
{
    match value {
        Value::Number(ordinal) => write_ordinal(out, program, of, ordinal),
        _ => out.print(b"?"),
    }
}

/// Prints a pointer.
fn write_pointer<P: Printer>(out: &mut P, value: Value)
    ensures { Prints (P.printout out.old) (P.printout out.new) (pointer_text value) }
{
    match value {
        Value::Nil => out.print(b"nil"),
        Value::Heap(address) => {
            out.print(b"^");
            write_number(out, address.saturating_sub(524_287));
        }
        _ => out.print(b"?"),
    }
}

/// Prints a value of which no type is known: a number or a pointer.
pub fn write_untyped<P: Printer>(out: &mut P, value: Value)
    ensures { Prints (P.printout out.old) (P.printout out.new) (untyped_text value) }
{
    match value {
        Value::Number(number) => write_long(out, number),
        _ => write_pointer(out, value),
    }
}

/// Prints a value of a type.
pub fn write_typed<P: Printer>(out: &mut P, program: &Program, of: u32, value: Value)
    ensures { Prints (P.printout out.old) (P.printout out.new) (typed_text program.now of value) }
{
    match program.type_row(of) {
        Some(TypeRow::Ordinal { .. }) => write_number_of(out, program, of, value),
        Some(TypeRow::Subrange { .. }) => write_number_of(out, program, of, value),
        Some(TypeRow::Set { base, .. }) => write_set_value(out, program, base, value),
        Some(TypeRow::Pointer { .. }) => write_pointer(out, value),
        _ => out.print(b"?"),
    }
}
