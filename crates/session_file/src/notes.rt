//! Notes on the entries of a book.
ghost use Rattle.std.specs.Prelude.{◌≡◌, ◌≤◌, [], IfOk, IfSome, IsTrue, OnErr, OnOk, is_some, length, option_map};
ghost use Rattle.std.specs.List.{list_all};
ghost use Rattle.session_file.specs.Notes.{AreNotes, is_note, is_printed, note_on, with_note};

use edge_ports::Memory;
use std::alloc::Global;
use std::collections::BTreeMap;
use std::marker::Model;

/// The most bytes of a note.
pub const NOTE_BYTES: usize = 100;

/// The first byte that is printed, a space.
pub const FIRST_PRINTED: u8 = 32;

/// The last byte that is printed, a tilde.
pub const LAST_PRINTED: u8 = 126;

/// Whether a byte is printed.
fn is_printed(byte: u8) -> bool
    ensures { result ≡ is_printed byte }
{
    FIRST_PRINTED <= byte && byte <= LAST_PRINTED
}

/// Whether each byte is printed.
fn are_printed(text: &[u8]) -> bool
    ensures { result ≡ list_all is_printed text.now }
{
    'bytes: for byte in text {
        if !is_printed(*byte) {
            return false;
        }
    }
    true
}

/// Whether a text is a note: 1 to [`NOTE_BYTES`] bytes from [`FIRST_PRINTED`] to [`LAST_PRINTED`].
pub fn is_note(text: &[u8]) -> bool
    ensures { result ≡ is_note text.now }
{
    1 <= text.len() && text.len() <= NOTE_BYTES && are_printed(text)
}

/// The text as a note, if it is one.
#[tactic(auto, using(crate::proofs::NotesAreText::note_utf8))]
pub fn note_in(text: &[u8]) -> Option<&str>
    ensures note { IfSome result (λ note. note.now ≡ text.now) }
    ensures found { is_some result ≡ is_note text.now }
{
    if !is_note(text) {
        return None;
    }
    match str::from_utf8(text) {
        Ok(note) => Some(note),
        Err(_) => None,
    }
}

/// The text of one note. Clauses see its bytes.
#[derive(Debug, Drop)]
struct Note {
    text: String,
}

impl Model for Note {
    ghost use Rattle.std.specs.{Prelude.ℕ, Prelude.List, String.string_bytes};

    ghost Value = { List ℕ };

    ghost view = { λ note. string_bytes note.text };
}

impl Clone for Note {
    ghost is_clone = { λ note copy. copy ≡ note };

    fn clone(&self) -> Result<Note, Memory> {
        let text = self.text.clone()?;
        Ok(Note { text })
    }
}

/// Notes on entries, at most one on each. Clauses see them as the list of entries with their notes, by rising entries.
#[derive(Debug, Drop)]
pub struct Notes {
    alloc: Global,
    noted: BTreeMap<usize, Note>,
}

impl Model for Notes {
    ghost use Rattle.std.specs.Prelude.{ℕ, List};
    ghost use Rattle.session_file.specs.Notes.{AreNotes};

    ghost Value = { List (ℕ × List ℕ) };

    ghost view = { λ notes. notes.noted.entries };

    ghost invariant = { λ notes. AreNotes notes.noted.entries };
}

impl Notes {
    /// No notes. It takes no memory.
    pub fn new(alloc: Global) -> Notes
        ensures { result ≡ [] }
    {
        Notes {
            alloc,
            noted: BTreeMap::new(alloc),
        }
    }

    /// Puts a note on an entry, in the place of an older one; or leaves the notes as they were where it is out of
    /// memory.
    pub fn set(&mut self, entry: usize, note: &str) -> Result<(), Memory>
        requires first { 1 ≤ entry }
        requires last { entry ≤ 100000 }
        requires note { IsTrue (is_note note.now) }
        ensures set { OnOk result (self.new ≡ with_note self.old entry note.now) }
        ensures unchanged { OnErr result (self.new ≡ self.old) }
    {
        let text = String::from_str(self.alloc, note)?;
        self.noted.insert(entry, Note { text })?;
        Ok(())
    }

    /// The note on an entry.
    pub fn on(&self, entry: usize) -> Option<&str>
        ensures { option_map (λ note. note.now) result ≡ note_on self.now entry }
    {
        match self.noted.get(&entry) {
            Some(note) => Some(note.text.as_str()),
            None => None,
        }
    }

    /// The same notes, in memory of their own.
    #[tactic(auto, using(crate::proofs::NotesRise::notes_copied))]
    pub fn copied(&self) -> Result<Notes, Memory>
        ensures { IfOk result (λ notes. notes ≡ self.now) }
    {
        let noted = self.noted.clone()?;
        Ok(Notes {
            alloc: self.alloc,
            noted,
        })
    }

    /// How many entries have a note.
    pub fn len(&self) -> usize
        ensures len { result ≡ length self.now }
        ensures notes { AreNotes self.now }
    {
        self.noted.len()
    }
}
