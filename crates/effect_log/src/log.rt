//! The log, sixteen bytes an entry.
ghost use Rattle.std.specs.Prelude.{◌++◌, ◌<◌, ◌∷◌, ◌≡◌, [], IfSome, OnErr, OnOk, Some, length, slice_get, true};
ghost use Rattle.effect_log.specs.Entries.{IsEntryOf, IsWithin, touch_of};

use cell_value::{Memory, Touch, Value};
use std::alloc::Global;
use std::marker::Model;
use std::mem::size_of;

/// A touch as the log keeps it: a variant for each kind of touch and of value. Since a set takes 32 bytes
/// and nearly no touch has one, a touch with a set stands aside, and its entry has its place there.
#[derive(Clone, Copy, PartialEq, Eq)]
enum Entry {
    ReadUndefined(u32),
    ReadNumber(u32, i64),
    ReadNil(u32),
    ReadHeap(u32, u32),
    ReadPlace(u32, u32),
    ReadFrame(u32, u32),
    ReadRoutine(u32, u32, u32),
    Has(u32, bool),
    WriteUndefined(u32),
    WriteNumber(u32, i64),
    WriteNil(u32),
    WriteHeap(u32, u32),
    WritePlace(u32, u32),
    WriteFrame(u32, u32),
    WriteRoutine(u32, u32, u32),
    Make(u32, u32, u32),
    Drop(u32, u32),
    Look(u32),
    Take(u32),
    Give(u8),
    Aside(u32),
}

// A log of 8,000,000 entries without sets takes 128 MB.
const _: () = prove!(size_of::<Entry>() == 16);

/// The entry of a read, if the value is no set.
fn read_entry(addr: u32, value: Value) -> Option<Entry>
    ensures { IfSome result (IsEntryOf (Touch.Read addr value)) }
{
    Some(match value {
        Value::Undefined => Entry::ReadUndefined(addr),
        Value::Number(number) => Entry::ReadNumber(addr, number),
        Value::Bits(_) => return None,
        Value::Nil => Entry::ReadNil(addr),
        Value::Heap(to) => Entry::ReadHeap(addr, to),
        Value::Place(to) => Entry::ReadPlace(addr, to),
        Value::Frame(to) => Entry::ReadFrame(addr, to),
        Value::Routine(routine, frame) => Entry::ReadRoutine(addr, routine, frame),
    })
}

/// The entry of a write, if the value is no set.
fn write_entry(addr: u32, value: Value) -> Option<Entry>
    ensures { IfSome result (IsEntryOf (Touch.Write addr value)) }
{
    Some(match value {
        Value::Undefined => Entry::WriteUndefined(addr),
        Value::Number(number) => Entry::WriteNumber(addr, number),
        Value::Bits(_) => return None,
        Value::Nil => Entry::WriteNil(addr),
        Value::Heap(to) => Entry::WriteHeap(addr, to),
        Value::Place(to) => Entry::WritePlace(addr, to),
        Value::Frame(to) => Entry::WriteFrame(addr, to),
        Value::Routine(routine, frame) => Entry::WriteRoutine(addr, routine, frame),
    })
}

/// The entry of a touch, if it has no set.
fn entry_of(touch: Touch) -> Option<Entry>
    ensures { IfSome result (IsEntryOf touch) }
{
    match touch {
        Touch::Read(addr, value) => read_entry(addr, value),
        Touch::Has(addr, there) => Some(Entry::Has(addr, there)),
        Touch::Write(addr, value) => write_entry(addr, value),
        Touch::Make(first, cells, kind) => Some(Entry::Make(first, cells, kind)),
        Touch::Drop(first, cells) => Some(Entry::Drop(first, cells)),
        Touch::Look(at) => Some(Entry::Look(at)),
        Touch::Take(items) => Some(Entry::Take(items)),
        Touch::Give(byte) => Some(Entry::Give(byte)),
    }
}

/// The touch of an entry, where these stand aside.
fn touch_at(aside: &[Touch], entry: Entry) -> Touch
    requires { IsWithin (length aside.now) entry }
    ensures { result ≡ touch_of aside.now entry }
{
    match entry {
        Entry::ReadUndefined(addr) => Touch::Read(addr, Value::Undefined),
        Entry::ReadNumber(addr, number) => Touch::Read(addr, Value::Number(number)),
        Entry::ReadNil(addr) => Touch::Read(addr, Value::Nil),
        Entry::ReadHeap(addr, to) => Touch::Read(addr, Value::Heap(to)),
        Entry::ReadPlace(addr, to) => Touch::Read(addr, Value::Place(to)),
        Entry::ReadFrame(addr, to) => Touch::Read(addr, Value::Frame(to)),
        Entry::ReadRoutine(addr, routine, frame) => Touch::Read(
            addr,
            Value::Routine(routine, frame),
        ),
        Entry::Has(addr, there) => Touch::Has(addr, there),
        Entry::WriteUndefined(addr) => Touch::Write(addr, Value::Undefined),
        Entry::WriteNumber(addr, number) => Touch::Write(addr, Value::Number(number)),
        Entry::WriteNil(addr) => Touch::Write(addr, Value::Nil),
        Entry::WriteHeap(addr, to) => Touch::Write(addr, Value::Heap(to)),
        Entry::WritePlace(addr, to) => Touch::Write(addr, Value::Place(to)),
        Entry::WriteFrame(addr, to) => Touch::Write(addr, Value::Frame(to)),
        Entry::WriteRoutine(addr, routine, frame) => Touch::Write(
            addr,
            Value::Routine(routine, frame),
        ),
        Entry::Make(first, cells, kind) => Touch::Make(first, cells, kind),
        Entry::Drop(first, cells) => Touch::Drop(first, cells),
        Entry::Look(at) => Touch::Look(at),
        Entry::Take(items) => Touch::Take(items),
        Entry::Give(byte) => Touch::Give(byte),
        Entry::Aside(place) => aside[place as usize],
    }
}

/// Whether two entries are the same.
fn same_entry(one: Entry, other: Entry) -> bool
    ensures { result ≡ true → one ≡ other }
{
    one == other
}

/// The touches of a run, in order: at most 8,000,000. Clauses see it as the list of them. An entry takes
/// 16 bytes, and one that holds a set 48 more.
#[derive(Drop)]
pub struct Log {
    entries: Vec<Entry>,
    aside: Vec<Touch>,
}

impl Model for Log {
    ghost use Rattle.std.specs.Prelude.{List};
    ghost use Rattle.cell_value.specs.declared.entries.Touch.{Touch};

    ghost Value = { List Touch };

    ghost use Rattle.effect_log.specs.Kept.{IsKept, touches_of};

    ghost view = { touches_of };

    ghost invariant = { IsKept };
}

impl Log {
    /// A log with no entry, which takes no memory yet.
    pub fn new(alloc: Global) -> Log
        ensures { result ≡ [] }
    {
        Log {
            entries: Vec::new(alloc),
            aside: Vec::new(alloc),
        }
    }

    /// Puts the touch at the end. The log has fewer than 8,000,000 entries before. After `Memory` it is
    /// as it was.
    pub fn push(&mut self, touch: Touch) -> Result<(), Memory>
        requires room { length self.old < 8000000 }
        ensures added { OnOk result (self.new ≡ self.old ++ touch ∷ []) }
        ensures unchanged { OnErr result (self.new ≡ self.old) }
    {
        match entry_of(touch) {
            Some(entry) => {
                self.entries.push(entry)?;
                Ok(())
            }
            None => {
                let place = self.aside.len() as u32;
                self.entries.reserve(1)?;
                self.aside.push(touch)?;
                self.entries.push(Entry::Aside(place))?;
                Ok(())
            }
        }
    }

    /// The number of entries.
    pub fn len(&self) -> u32
        ensures { result ≡ length self.now }
    {
        self.entries.len() as u32
    }

    /// The touch at place `i`, counted from 0, which is below the number of entries.
    pub fn at(&self, i: u32) -> Touch
        requires inside { i < length self.now }
        ensures found { slice_get self.now i ≡ Some result }
    {
        touch_at(&self.aside, self.entries[i as usize])
    }

    /// Whether the touches at two places below the number of entries are seen to be the same by their entries alone.
    /// Of touches with sets it says so only at one and the same place.
    pub fn is_same_entry(&self, one: u32, other: u32) -> bool
        requires one { one < length self.now }
        requires other { other < length self.now }
        ensures same { result ≡ true → slice_get self.now one ≡ slice_get self.now other }
    {
        same_entry(self.entries[one as usize], self.entries[other as usize])
    }
}
