//! The items of an input.

ghost use Rattle.std.specs.Prelude.{◌++◌, ◌+◌, ◌<◌, ◌≡◌, ◌≤◌, IfOk, OnOk, length, slice_get};
ghost use Rattle.core_program.specs.Run as meaning;
ghost use Rattle.program_run.specs.History.{items_at};

use cell_value::{Items, Memory};
use std::alloc::Global;

/// Puts the items that a byte adds, by the byte after it: a line end is LF, with a CR directly before it, and the end
/// of
/// the last line is added where it is missing.
fn put_items(items: &mut Items, byte: u8, next: Option<u8>) -> Result<(), Memory>
    requires room { length items.old < 4294967290 }
    ensures put { OnOk result (items.new ≡ items.old ++ items_at byte next) }
    ensures few { OnOk result (length items.new ≤ length items.old + 2) }
{
    match next {
        None => {
            if byte == 10 {
                items.push(256)?;
                return Ok(());
            }
            items.push(u16::from(byte))?;
            items.push(256)?;
            Ok(())
        }
        Some(after) => {
            if byte == 10 {
                items.push(256)?;
                return Ok(());
            }
            if byte == 13 && after == 10 {
                return Ok(());
            }
            items.push(u16::from(byte))?;
            Ok(())
        }
    }
}

/// The byte at a place, if there is one.
fn byte_at(input: &[u8], at: usize) -> Option<u8>
    ensures { result ≡ slice_get input.now at }
{
    input.get(at).copied()
}

/// The items of an input: its bytes, and 256 for a line end.
pub(crate) fn items_of(alloc: Global, input: &[u8]) -> Result<Items, Memory>
    requires few { length input.now ≤ 4194304 }
    ensures { IfOk result (λ items. items ≡ meaning.input_items input.now) }
{
    let mut items = Items::new(alloc);
    'bytes: for at in 0..input.len() {
        let byte = input[at];
        put_items(&mut items, byte, byte_at(input, at + 1))?;
    }
    Ok(items)
}
