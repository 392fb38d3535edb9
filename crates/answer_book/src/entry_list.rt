//! The list of the entries of a book.
ghost use Rattle.std.specs.Prelude.{◌++◌, ◌<◌, ◌∷◌, ◌≡◌, ◌≤◌, [], ℕ, IfOk, OnOk, Some, length, true};
ghost use Rattle.answer_book.specs.{Answers.next_number, Spoken.entry_judgement};
ghost use Rattle.answer_book.specs.Entries.{entries_without, entry_at, entry_saying, first_entries, is_standing};
ghost use Rattle.answer_book.specs.Links.{judgement_at, was_taken_back};

use crate::entries::{BookFault, Entry, Judgement, MOST_ENTRIES, What};
use cell_value::Memory;
use std::alloc::Global;
use std::marker::Model;

/// How many entries there is room for.
pub(crate) const ROOM: usize = MOST_ENTRIES as usize;

/// At most 100,000 entries, with room for all of them from the start. Clauses see the list.
#[derive(Drop)]
pub struct EntryList {
    items: Vec<Entry>,
}

impl Model for EntryList {
    ghost use Rattle.std.specs.Prelude.{List};
    ghost use Rattle.answer_book.specs.{Room.HasRoom, declared.entries.Entry.Entry};

    ghost Value = { List Entry };

    ghost view = { λ e. e.items.items };

    ghost invariant = { λ e. HasRoom e.items };
}

/// The judgement that the entry gives on the call, while it stands.
fn judgement_of(entry: Entry, call: u32) -> Option<Judgement>
    ensures { result ≡ entry_judgement call entry }
{
    match entry.what {
        What::Judged(other, judgement) if entry.standing && other == call => Some(judgement),
        _ => None,
    }
}

impl EntryList {
    /// No entries.
    pub(crate) fn empty(alloc: Global) -> Result<EntryList, Memory>
        ensures { IfOk result (λ entries. entries ≡ []) }
    {
        let items = Vec::with_capacity(alloc, ROOM)?;
        Ok(EntryList { items })
    }

    /// The entries of a new book.
    pub fn new(alloc: Global) -> Result<EntryList, Memory>
        ensures { IfOk result (λ entries. entries ≡ first_entries) }
    {
        let mut entries = EntryList::empty(alloc)?;
        entries.put(Entry {
            what: What::Judged(0, Judgement::Wrong),
            standing: true,
        });
        Ok(entries)
    }

    /// The number of entries.
    pub fn len(&self) -> u32
        ensures number { result ≡ length self.now }
        ensures few { result ≤ 100000 }
    {
        self.items.len() as u32
    }

    /// The entry of this number.
    pub fn get(&self, number: u32) -> Entry
        requires from_one { 1 ≤ number }
        requires made { number ≤ length self.now }
        ensures { entry_at self.now number ≡ Some result }
    {
        self.items[number as usize - 1]
    }

    /// Whether the entry of this number was made, and stands.
    pub fn stands(&self, number: u32) -> bool
        ensures { result ≡ is_standing self.now number }
    {
        let number = number as usize;
        number > 0 && number <= self.items.len() && self.items[number - 1].standing
    }

    /// Whether the entry of this number was made, and was taken back.
    pub(crate) fn was_taken_back(&self, number: u32) -> bool
        ensures { result ≡ was_taken_back self.now number }
    {
        let number = number as usize;
        number > 0 && number <= self.items.len() && !self.items[number - 1].standing
    }

    /// Puts an entry at the end, as one that stands or was taken back.
    pub(crate) fn put(&mut self, entry: Entry)
        requires room { length self.old < 100000 }
        ensures { self.new ≡ self.old ++ entry ∷ [] }
    {
        match self.items.push(entry) {
            Ok(()) => {}
            Err(_) => unreachable!(),
        }
    }

    /// The number of the next entry, if there is room for it.
    pub(crate) fn next_number(&self) -> Result<u32, BookFault>
        ensures answer { result ≡ next_number self.now }
        ensures room { OnOk result (length self.now < 100000) }
    {
        if self.items.len() >= ROOM {
            return Err(BookFault::Full);
        }
        Ok(self.len() + 1)
    }

    /// Takes back the entry of this number, and answers what it said.
    pub fn withdraw(&mut self, number: u32) -> What
        requires stands { is_standing self.old number ≡ true }
        ensures what { entry_at self.old number ≡ Some (entry_saying result) }
        ensures taken_back { self.new ≡ entries_without self.old number }
    {
        let entry = &mut self.items[number as usize - 1];
        entry.standing = false;
        entry.what
    }

    /// The judgement on the call that the entry of this number gives, while it stands; none where the
    /// number is 0.
    pub(crate) fn judgement(&self, number: u32, call: u32) -> Option<Judgement>
        requires made { number ≤ length self.now }
        ensures { result ≡ judgement_at self.now call number }
    {
        if number == 0 {
            return None;
        }
        judgement_of(self.get(number), call)
    }
}
