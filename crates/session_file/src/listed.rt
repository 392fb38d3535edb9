//! The entries of a session with the notes on them, one after another as the text has them.
ghost use Rattle.std.specs.Prelude.{◌<◌, ◌≡◌, ◌≤◌, IfErr, IfOk, IfSome, IsTrue, None, OnOk, Some, length};
ghost use Rattle.std.specs.Prelude.{option_and_then, option_map};
ghost use Rattle.serde_json.specs.{Data.Data, Data.Items, View.view};
ghost use Rattle.session_file.specs.{Notes.is_note, Notes.with_note, Reading.note_by, Shown.IsRefused};
ghost use Rattle.session_file.specs.Listed.{all_listed, listed_in, next_listed, noted_on, nothing_listed, with_entry};
ghost use Rattle.session_file.specs.Passing.{items_read, value_read};

use crate::fields::{opens_list, shown_value};
use crate::notes::{Notes, is_note};
use crate::passing::pass_rest;
use crate::reading::entry_from;
use crate::session::{LoadFault, SavedEntries};
use edge_ports::Memory;
use json::Reader;
use serde_json::Value;
use std::alloc::Global;

/// The most entries of a session.
const MOST_ENTRIES: usize = answer_book::MOST_ENTRIES as usize;

/// Entries, and the notes on them if each of these is one.
#[derive(Debug, Drop)]
pub(crate) struct Listed {
    pub(crate) entries: SavedEntries,
    pub(crate) notes: Option<Notes>,
}

/// The note that a value is, if it is one.
fn note_by(value: &Value) -> Option<&str>
    ensures note { option_map (λ note. note.now) result ≡ note_by (view value.now) }
    ensures good { IfSome result (λ note. IsTrue (is_note note.now)) }
{
    match value.as_str() {
        Some(text) if is_note(text.as_bytes()) => Some(text),
        _ => None,
    }
}

/// The notes with one more.
fn with_note(notes: Notes, number: usize, note: &str) -> Result<Option<Notes>, Memory>
    requires first { 1 ≤ number }
    requires last { number ≤ 100000 }
    requires note { IsTrue (is_note note.now) }
    ensures { IfOk result (λ after. after ≡ Some (with_note notes number note.now)) }
{
    let mut notes = notes;
    notes.set(number, note)?;
    Ok(Some(notes))
}

/// The notes with the one that an entry has, if it has one; none at all where what stands there is no note.
fn noted(notes: Notes, number: usize, value: &Value) -> Result<Option<Notes>, Memory>
    requires first { 1 ≤ number }
    requires last { number ≤ 100000 }
    ensures { IfOk result (λ after. after ≡ noted_on (Some notes) number (view value.now)) }
{
    match value.get("note") {
        None => Ok(Some(notes)),
        Some(note) => match note_by(note) {
            None => Ok(None),
            Some(note) => with_note(notes, number, note),
        },
    }
}

/// The same, where there may be none already.
fn noted_more(notes: Option<Notes>, number: usize, value: &Value) -> Result<Option<Notes>, Memory>
    requires first { 1 ≤ number }
    requires last { number ≤ 100000 }
    ensures { IfOk result (λ after. after ≡ noted_on notes number (view value.now)) }
{
    match notes {
        None => Ok(None),
        Some(notes) => noted(notes, number, value),
    }
}

/// These entries and one more, of which there are at most 100,000; none at all where the value is no entry.
fn with_entry(listed: Listed, value: &Value) -> Result<Option<Listed>, Memory>
    ensures { IfOk result (λ after. after ≡ with_entry listed (view value.now)) }
{
    let number = listed.entries.len() as usize + 1;
    if number > MOST_ENTRIES {
        return Ok(None);
    }
    match entry_from(value) {
        None => Ok(None),
        Some(entry) => {
            let notes = noted_more(listed.notes, number, value)?;
            let mut entries = listed.entries;
            entries.push(entry)?;
            Ok(Some(Listed { entries, notes }))
        }
    }
}

/// The same, where there may be none already.
fn next_listed(listed: Option<Listed>, value: &Value) -> Result<Option<Listed>, LoadFault>
    ensures read { IfOk result (λ after. after ≡ next_listed listed (view value.now)) }
    ensures memory { IfErr result (λ fault. fault ≡ LoadFault.Memory) }
{
    match listed {
        None => Ok(None),
        Some(listed) => match with_entry(listed, value) {
            Ok(after) => Ok(after),
            Err(_) => Err(LoadFault::Memory),
        },
    }
}

/// The same, with the value that stands next.
fn listed_after(
    alloc: Global,
    reader: &mut Reader<'_>,
    depth: usize,
    listed: Option<Listed>,
) -> Result<Option<Listed>, LoadFault>
    requires { 0 < depth }
    ensures read { IfOk result (λ after. (d : Data) × (value_read depth reader.old ≡ Some (d, reader.new))
        × (after ≡ next_listed listed d)) }
    ensures refused { IfErr result (λ fault. IsRefused fault (value_read depth reader.old)) }
    ensures shorter { OnOk result (length reader.new < length reader.old) }
{
    match shown_value(alloc, reader, depth) {
        Ok(value) => {
            let after = next_listed(listed, &value);
            drop(value);
            after
        }
        Err(fault) => Err(fault),
    }
}

/// The entries that the items of an array are.
fn entries_in(
    alloc: Global,
    reader: &mut Reader<'_>,
    depth: usize,
) -> Result<Option<Listed>, LoadFault>
    requires { 0 < depth }
    ensures read { IfOk result (λ listed. (ds : Items) × (items_read depth reader.old ≡ Some (ds, reader.new))
        × (listed ≡ all_listed (Some nothing_listed) ds)) }
    ensures refused { IfErr result (λ fault. IsRefused fault (items_read depth reader.old)) }
    ensures shorter { OnOk result (length reader.new < length reader.old) }
{
    let mut listed = Some(Listed {
        entries: SavedEntries::new(alloc),
        notes: Some(Notes::new(alloc)),
    });
    'items: while !reader.take_end_array() {
        match listed_after(alloc, reader, depth, listed) {
            Ok(after) => listed = after,
            Err(fault) => return Err(fault),
        }
    }
    Ok(listed)
}

/// The entries that a value is, if it is a list of entries.
pub(crate) fn entries_read(
    alloc: Global,
    reader: &mut Reader<'_>,
    depth: usize,
) -> Result<Option<Listed>, LoadFault>
    requires { 1 < depth }
    ensures read { IfOk result (λ listed. (d : Data) × (value_read depth reader.old ≡ Some (d, reader.new))
        × (listed ≡ listed_in (Some d))) }
    ensures refused { IfErr result (λ fault. IsRefused fault (value_read depth reader.old)) }
    ensures shorter { OnOk result (length reader.new < length reader.old) }
{
    let Some(token) = reader.next() else {
        return Err(LoadFault::NotJson);
    };
    if opens_list(&token) {
        entries_in(alloc, reader, depth - 1)
    } else {
        match pass_rest(reader, token, depth) {
            Ok(()) => Ok(None),
            Err(_) => Err(LoadFault::NotJson),
        }
    }
}
