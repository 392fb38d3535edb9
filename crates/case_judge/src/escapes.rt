//! Texts with escapes.

ghost use Rattle.std.specs.Prelude.{◌<◌};

use std::alloc::{AllocError, Global};

/// The bytes that a text stands for. `\n`, `\r` and `\t` stand for line feed, carriage return and tab, `\xHH` for the
/// byte of that hexadecimal number, `\.` for nothing; and a number, a blank and a text between two backquotes for that
/// text as often as the number says.
pub(crate) fn unescaped(alloc: Global, text: &str) -> Result<Vec<u8>, AllocError> {
    let mut bytes = Vec::new(alloc);
    append_unescaped(text, &mut bytes)?;
    Ok(bytes)
}

/// Appends the bytes that a text stands for.
pub(crate) fn append_unescaped(text: &str, bytes: &mut Vec<u8>) -> Result<(), AllocError> {
    let mut is_repeated = true;
    for part in text.split('`') {
        is_repeated = !is_repeated;
        if is_repeated {
            append_repeated(part, bytes)?;
        } else {
            append_escaped(part, bytes)?;
        }
    }
    Ok(())
}

/// Appends what stands between two backquotes.
fn append_repeated(part: &str, bytes: &mut Vec<u8>) -> Result<(), AllocError> {
    let (times, text) = part.split_once(' ').unwrap_or(("0", part));
    let times: u32 = times.parse().unwrap_or(0);
    for _ in 0..times {
        append_escaped(text, bytes)?;
    }
    Ok(())
}

/// Appends a text in which nothing is repeated.
fn append_escaped(text: &str, bytes: &mut Vec<u8>) -> Result<(), AllocError> {
    let (plain, escapes) = text.split_once('\\').unwrap_or((text, "."));
    bytes.extend_from_slice(plain.as_bytes())?;
    for escape in escapes.split('\\') {
        let (byte, rest) = escape_of(escape);
        if let Some(byte) = byte {
            bytes.push(byte)?;
        }
        bytes.extend_from_slice(rest.as_bytes())?;
    }
    Ok(())
}

/// The byte that an escape stands for, if it stands for one, and the text after it.
fn escape_of(escape: &str) -> (Option<u8>, &str) {
    if let Some(rest) = escape.strip_prefix('n') {
        return (Some(b'\n'), rest);
    }
    if let Some(rest) = escape.strip_prefix('r') {
        return (Some(b'\r'), rest);
    }
    if let Some(rest) = escape.strip_prefix('t') {
        return (Some(b'\t'), rest);
    }
    match escape.strip_prefix('x') {
        Some(digits) => (Some(byte_of(digits)), digits.get(2..).unwrap_or("")),
        None => (None, escape.strip_prefix('.').unwrap_or(escape)),
    }
}

/// The byte of the two hexadecimal digits with which a text begins.
fn byte_of(digits: &str) -> u8 {
    match digits.as_bytes() {
        [high, low, ..] => digit_of(*high) << 4 | digit_of(*low),
        _ => 0,
    }
}

/// The number of a hexadecimal digit.
fn digit_of(digit: u8) -> u8
    ensures { result < 16 }
{
    match digit {
        b'0'..=b'9' => digit - b'0',
        b'a'..=b'f' => digit - b'a' + 10,
        b'A'..=b'F' => digit - b'A' + 10,
        _ => 0,
    }
}
