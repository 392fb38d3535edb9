//! Pieces of text: numbers, characters, and what was read and written.

ghost use Rattle.std.specs.Prelude.{◌≡◌, ◌≤◌, decimal, flat_map, length, slice_range};
ghost use Rattle.std.specs.Fmt.{signed_decimal};
ghost use Rattle.edge_ports.specs.Printouts.{Prints};
ghost use Rattle.cell_names.specs.Pieces.{byte_text, escaped, hex_digit, hex_of, in_quotation_marks, is_plain};
ghost use Rattle.cell_names.specs.Pieces.{shown_char};

use cell_value::Items;
use edge_ports::Printer;
use itoa::Buffer;

/// Prints a number in decimal.
pub fn write_number<P: Printer>(out: &mut P, number: u32)
    ensures { Prints (P.printout out.old) (P.printout out.new) (decimal number) }
{
    let mut buffer = Buffer::new();
    out.print(buffer.format(number).as_bytes());
}

/// Prints an integer in decimal.
pub(crate) fn write_integer<P: Printer>(out: &mut P, number: i32)
    ensures { Prints (P.printout out.old) (P.printout out.new) (signed_decimal number) }
{
    let mut buffer = Buffer::new();
    out.print(buffer.format(number).as_bytes());
}

/// Prints a whole number in decimal.
pub fn write_long<P: Printer>(out: &mut P, number: i64)
    ensures { Prints (P.printout out.old) (P.printout out.new) (signed_decimal number) }
{
    let mut buffer = Buffer::new();
    out.print(buffer.format(number).as_bytes());
}

/// Whether a character is shown as it is: those from the blank to the tilde are.
pub(crate) fn is_plain(item: u32) -> bool
    ensures { result ≡ is_plain item }
{
    32 <= item && item <= 126
}

/// Prints one character, which is below 256.
fn write_byte<P: Printer>(out: &mut P, byte: u32)
    ensures { Prints (P.printout out.old) (P.printout out.new) (byte_text byte) }
{
    out.print(&[(byte % 256) as u8]);
}

/// The digit of a number below 16 in hexadecimal.
fn hex_digit(number: u32) -> u32
    ensures { result ≡ hex_digit number }
{
    let digit = number % 16;
    if digit < 10 { 48 + digit } else { 87 + digit }
}

/// Prints a byte as two hexadecimal digits.
fn write_hex<P: Printer>(out: &mut P, item: u32)
    ensures { Prints (P.printout out.old) (P.printout out.new) (hex_of item) }
{
    out.print(b"\\x");
    write_byte(out, hex_digit(item / 16));
    write_byte(out, hex_digit(item));
}

/// Prints a byte or an item of the input between quotation marks.
pub(crate) fn write_escaped<P: Printer>(out: &mut P, item: u32)
    ensures { Prints (P.printout out.old) (P.printout out.new) (escaped item) }
{
    if item == 34 {
        out.print(b"\\\"");
    } else if item == 92 {
        out.print(b"\\\\");
    } else if item == 10 || item == 256 {
        out.print(b"\\n");
    } else if is_plain(item) {
        write_byte(out, item);
    } else {
        write_hex(out, item);
    }
}

/// Prints a value of the type char.
pub(crate) fn write_char<P: Printer>(out: &mut P, ordinal: u32)
    ensures { Prints (P.printout out.old) (P.printout out.new) (shown_char ordinal) }
{
    if ordinal == 39 {
        out.print(b"''''");
    } else if is_plain(ordinal) {
        out.print(b"'");
        write_byte(out, ordinal);
        out.print(b"'");
    } else {
        out.print(b"chr(");
        write_number(out, ordinal);
        out.print(b")");
    }
}

/// Prints bytes as they stand between quotation marks.
fn write_bytes<P: Printer>(out: &mut P, bytes: &[u8])
    ensures { Prints (P.printout out.old) (P.printout out.new) (flat_map escaped bytes.now) }
{
    'bytes: for byte in bytes {
        write_escaped(out, u32::from(*byte));
    }
}

/// Prints the items of the input from one place to before another as they stand between quotation marks.
fn write_items<P: Printer>(out: &mut P, items: &Items, from: u32, to: u32)
    requires in_order { from ≤ to }
    requires in_input { to ≤ length items.now }
    ensures { Prints (P.printout out.old) (P.printout out.new) (flat_map escaped (slice_range items.now from to)) }
{
    'items: for place in from..to {
        write_escaped(out, u32::from(items.at(place)));
    }
}

/// Prints bytes in quotation marks.
pub fn write_quoted<P: Printer>(out: &mut P, bytes: &[u8])
    ensures { Prints (P.printout out.old) (P.printout out.new) (in_quotation_marks bytes.now) }
{
    out.print(b"\"");
    write_bytes(out, bytes);
    out.print(b"\"");
}

/// Prints items of the input in quotation marks: those from one place to before another.
pub fn write_quoted_items<P: Printer>(out: &mut P, items: &Items, from: u32, to: u32)
    requires in_order { from ≤ to }
    requires in_input { to ≤ length items.now }
    ensures { Prints (P.printout out.old) (P.printout out.new) (in_quotation_marks (slice_range items.now from to)) }
{
    out.print(b"\"");
    write_items(out, items, from, to);
    out.print(b"\"");
}
