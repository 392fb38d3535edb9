//! Actions on the output: what is written of a value, byte by byte, and the ends of lines and pages (6.9.3 to 6.9.5).

ghost use Rattle.std.specs.Prelude.{if◌then◌else◌, ◌≡◌, ℕ, Option, Some, map, take};
ghost use Rattle.core_program.specs.Actions.{performs};
ghost use Rattle.core_program.specs.Output as output;
ghost use Rattle.eval_ops.specs.Machines.{DoesAll, Gives, IsReady, machine_state, moment_of};
ghost use Rattle.eval_ops.specs.Output.{give_one, text_by};

use crate::halt::Halt;
use crate::machine::{Machine, note};
use crate::values::is_true;
use cell_value::{Cells, Kind, Touch, Value};
use core_program::rows::{BOOLEAN, CHAR};
use itoa::Buffer;

/// A char that is to be written: a byte, or a component of a string, which may be undefined.
trait Char: Copy {
    ghost byte: { Self → Option ℕ };

    fn byte(self) -> Option<u8>
        ensures { result ≡ byte self };
}

impl Char for u8 {
    ghost byte = { Some };

    fn byte(self) -> Option<u8> {
        Some(self)
    }
}

impl Char for Value {
    ghost byte = { output.byte_of };

    fn byte(self) -> Option<u8> {
        match self {
            Value::Number(number) if 0 <= number && number <= 255 => Some(number as u8),
            _ => None,
        }
    }
}

/// Gives a byte, which takes a step.
#[inline(always)]
fn give(machine: &mut Machine, byte: u8) -> Result<(), Halt>
    requires ready { IsReady machine.old }
    ensures action { DoesAll (λ _. tt) (performs (output.give_byte byte) (machine_state machine.old)) result
        (moment_of machine.old) (moment_of machine.new) }
    ensures ready { IsReady machine.new }
{
    if machine.steps < 1 {
        machine.steps = 0;
        return Err(Halt::OutOfSteps);
    }
    note(machine, Touch::Give(byte))?;
    machine.output.append(&[byte])?;
    Ok(())
}

/// Ends a line (6.9.4).
pub fn end_line(machine: &mut Machine) -> Result<(), Halt>
    requires ready { IsReady machine.old }
    ensures action { DoesAll (λ _. tt) (performs output.end_line (machine_state machine.old)) result
        (moment_of machine.old) (moment_of machine.new) }
    ensures ready { IsReady machine.new }
{
    give(machine, 10)
}

/// Ends a page (6.9.5).
pub fn end_page(machine: &mut Machine) -> Result<(), Halt>
    requires ready { IsReady machine.old }
    ensures action { DoesAll (λ _. tt) (performs output.end_page (machine_state machine.old)) result
        (moment_of machine.old) (moment_of machine.new) }
    ensures ready { IsReady machine.new }
{
    give(machine, 12)
}

/// Gives this many spaces.
fn give_spaces(machine: &mut Machine, number: u64) -> Result<(), Halt>
    requires ready { IsReady machine.old }
    ensures action { DoesAll (λ _. tt) (performs (output.gives (output.spaces number)) (machine_state machine.old))
        result (moment_of machine.old) (moment_of machine.new) }
    ensures ready { IsReady machine.new }
{
    'spaces: for _ in 0..number {
        give(machine, 32)?;
    }
    Ok(())
}

/// Gives the byte of a char; where it is undefined it is the fault `Undefined`.
#[inline(always)]
fn give_char<C: Char>(machine: &mut Machine, char: C) -> Result<(), Halt>
    requires ready { IsReady machine.old }
    ensures action { DoesAll (λ _. tt) (performs (give_one (C.byte char)) (machine_state machine.old)) result
        (moment_of machine.old) (moment_of machine.new) }
    ensures ready { IsReady machine.new }
{
    match char.byte() {
        Some(byte) => give(machine, byte),
        None => Err(Halt::Fault(Kind::Undefined)),
    }
}

/// Gives the bytes of chars, up to one that is undefined.
fn give_chars<C: Char>(machine: &mut Machine, chars: &[C]) -> Result<(), Halt>
    requires ready { IsReady machine.old }
    ensures action { DoesAll (λ _. tt) (performs (output.gives (map C.byte chars.now)) (machine_state machine.old))
        result (moment_of machine.old) (moment_of machine.new) }
    ensures ready { IsReady machine.new }
{
    'chars: for char in chars {
        give_char(machine, *char)?;
    }
    Ok(())
}

/// The chars that a width leaves of a text.
fn kept<C>(chars: &[C], is_cut: bool, width: u64) -> &[C]
    ensures { result.now ≡ (if is_cut then take width chars.now else chars.now) }
{
    if is_cut && width < chars.len() as u64 {
        &chars[..width as usize]
    } else {
        chars
    }
}

/// Gives the bytes of chars in a width.
fn give_in_width<C: Char>(
    machine: &mut Machine,
    chars: &[C],
    is_cut: bool,
    width: u64,
) -> Result<(), Halt>
    requires ready { IsReady machine.old }
    ensures action { DoesAll (λ _. tt) (performs (output.gives
        (output.in_width width (text_by C.byte is_cut chars.now)))
        (machine_state machine.old)) result (moment_of machine.old) (moment_of machine.new) }
    ensures ready { IsReady machine.new }
{
    give_spaces(machine, width.saturating_sub(chars.len() as u64))?;
    give_chars(machine, kept(chars, is_cut, width))?;
    Ok(())
}

/// The number of a width.
fn width_of(value: Value) -> Result<u64, Halt>
    ensures { Gives (λ n. n) (output.width_of value) result }
{
    match value {
        Value::Number(number) if 1 <= number => Ok(number as u64),
        Value::Number(_) => Err(Halt::Fault(Kind::BadWidth)),
        _ => Err(Halt::Fault(Kind::Undefined)),
    }
}

/// Writes chars in a width, which is tested first.
fn write_wide<C: Char>(
    machine: &mut Machine,
    chars: &[C],
    is_cut: bool,
    width: Value,
) -> Result<(), Halt>
    requires ready { IsReady machine.old }
    ensures action { DoesAll (λ _. tt) (performs (output.written (text_by C.byte is_cut chars.now) (Some width))
        (machine_state machine.old)) result (moment_of machine.old) (moment_of machine.new) }
    ensures ready { IsReady machine.new }
{
    let width = width_of(width)?;
    give_in_width(machine, chars, is_cut, width)?;
    Ok(())
}

/// Writes chars, in a width if one is given.
fn write_chars<C: Char>(
    machine: &mut Machine,
    chars: &[C],
    is_cut: bool,
    width: Option<Value>,
) -> Result<(), Halt>
    requires ready { IsReady machine.old }
    ensures action { DoesAll (λ _. tt) (performs (output.written (text_by C.byte is_cut chars.now) width)
        (machine_state machine.old)) result (moment_of machine.old) (moment_of machine.new) }
    ensures ready { IsReady machine.new }
{
    match width {
        None => give_chars(machine, chars),
        Some(width) => write_wide(machine, chars, is_cut, width),
    }
}

/// Writes the word for a value of Boolean.
fn write_boolean(machine: &mut Machine, holds: bool, width: Option<Value>) -> Result<(), Halt>
    requires ready { IsReady machine.old }
    ensures action { DoesAll (λ _. tt) (performs (output.written (output.boolean_text holds) width)
        (machine_state machine.old)) result (moment_of machine.old) (moment_of machine.new) }
    ensures ready { IsReady machine.new }
{
    if holds {
        write_chars(machine, b"true".as_slice(), true, width)
    } else {
        write_chars(machine, b"false".as_slice(), true, width)
    }
}

/// Writes a number in decimal.
fn write_number(machine: &mut Machine, number: i64, width: Option<Value>) -> Result<(), Halt>
    requires ready { IsReady machine.old }
    ensures action { DoesAll (λ _. tt) (performs (output.written (output.integer_text (Value.Number number)) width)
        (machine_state machine.old)) result (moment_of machine.old) (moment_of machine.new) }
    ensures ready { IsReady machine.new }
{
    let mut buffer = Buffer::new();
    write_chars(machine, buffer.format(number).as_bytes(), false, width)
}

/// Writes an integer in decimal.
fn write_integer(machine: &mut Machine, value: Value, width: Option<Value>) -> Result<(), Halt>
    requires ready { IsReady machine.old }
    ensures action { DoesAll (λ _. tt) (performs (output.written (output.integer_text value) width)
        (machine_state machine.old)) result (moment_of machine.old) (moment_of machine.new) }
    ensures ready { IsReady machine.new }
{
    match value {
        Value::Number(number) => write_number(machine, number, width),
        _ => write_chars(machine, [value].as_slice(), false, width),
    }
}

/// Writes a value of integer, Boolean or char, or of a subrange of one of them, by the number of the type (6.9.3):
/// without a width its text alone, and else in the width, which is tested first: one below 1 is the fault `BadWidth`.
/// A width that is less cuts the word for a value of Boolean, and nothing else.
pub fn write_scalar(
    machine: &mut Machine,
    host: u32,
    value: Value,
    width: Option<Value>,
) -> Result<(), Halt>
    requires ready { IsReady machine.old }
    ensures action { DoesAll (λ _. tt) (performs (output.written (output.scalar_text host value) width)
        (machine_state machine.old)) result (moment_of machine.old) (moment_of machine.new) }
    ensures ready { IsReady machine.new }
{
    if host == BOOLEAN {
        return write_boolean(machine, is_true(value), width);
    }
    if host == CHAR {
        return write_chars(machine, [value].as_slice(), false, width);
    }
    write_integer(machine, value, width)
}

/// Writes a string by the values of its components (6.9.3.6), in a width if one is given: a width that is less cuts it
/// to
/// its first components. A component that is undefined is the fault `Undefined` in its place.
pub fn write_string(machine: &mut Machine, cells: &Cells, width: Option<Value>) -> Result<(), Halt>
    requires ready { IsReady machine.old }
    ensures action { DoesAll (λ _. tt) (performs (output.written (output.string_text cells.now) width)
        (machine_state machine.old)) result (moment_of machine.old) (moment_of machine.new) }
    ensures ready { IsReady machine.new }
{
    write_chars(machine, cells.as_slice(), true, width)
}
