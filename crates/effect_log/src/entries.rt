//! What entries of the log show of an address.
ghost use Rattle.std.specs.Prelude.{◌+◌, ◌≡◌};
ghost use Rattle.cell_value.specs.Effects.{asked_by, change_by, changed_block, read_by};
ghost use Rattle.effect_log.specs.Marks.{changed_in, seen_in, shown, touch_numbered};

use crate::cells::Cell;
use crate::log::Log;
use cell_value::{Change, Seen, Touch, Value};

/// The entry that a number stands for.
fn entry(log: &Log, number: Option<u32>) -> Option<Touch>
    ensures { result ≡ touch_numbered log.now number }
{
    match number {
        None => None,
        Some(number) => {
            if number < log.len() {
                Some(log.at(number))
            } else {
                None
            }
        }
    }
}

/// The value that an entry read at the address.
fn value_read(addr: u32, entry: Option<Touch>) -> Option<Value>
    ensures { result ≡ shown (read_by addr) entry }
{
    match entry {
        Some(Touch::Read(at, value)) => { if at == addr { Some(value) } else { None } }
        _ => None,
    }
}

/// The answer of an entry that asked for the address.
fn answer_given(addr: u32, entry: Option<Touch>) -> Option<bool>
    ensures { result ≡ shown (asked_by addr) entry }
{
    match entry {
        Some(Touch::Has(at, there)) => { if at == addr { Some(there) } else { None } }
        _ => None,
    }
}

/// The change of the cells of a block, if it has the address.
fn change_in_block(first: u32, cells: u32, change: Change, addr: u32) -> Option<Change>
    ensures { result ≡ changed_block first (first + cells) change addr }
{
    if first <= addr && addr - first < cells {
        Some(change)
    } else {
        None
    }
}

/// What an entry changed the address to.
fn change_made(addr: u32, entry: Option<Touch>) -> Option<Change>
    ensures { result ≡ shown (change_by addr) entry }
{
    match entry {
        Some(Touch::Write(at, value)) => {
            if at == addr {
                Some(Change::Set(value))
            } else {
                None
            }
        }
        Some(Touch::Make(first, cells, _)) => change_in_block(
            first,
            cells,
            Change::Set(Value::Undefined),
            addr,
        ),
        Some(Touch::Drop(first, cells)) => change_in_block(first, cells, Change::Gone, addr),
        _ => None,
    }
}

/// What is seen of an address, by its cell.
pub(crate) fn seen_of(log: &Log, addr: u32, cell: Cell) -> Option<Seen>
    ensures { result ≡ seen_in log.now addr cell }
{
    match value_read(addr, entry(log, cell.read)) {
        Some(value) => Some(Seen::Held(value)),
        None => match answer_given(addr, entry(log, cell.answer)) {
            Some(true) => Some(Seen::There),
            Some(false) => Some(Seen::Absent),
            None => None,
        },
    }
}

/// What an address is changed to, by its cell.
pub(crate) fn change_of(log: &Log, addr: u32, cell: Cell) -> Option<Change>
    ensures { result ≡ changed_in log.now addr cell }
{
    change_made(addr, entry(log, cell.change))
}
