//! The book of a search.
ghost use Rattle.std.specs.Prelude.{◌<◌, ◌≡◌, ◌≤◌, [], All, IfOk, OnErr, OnOk, Some, length, true};
ghost use Rattle.call_tree.specs.Recording.{routines_of};
ghost use Rattle.answer_book.specs.{Accused.accused_of, InRange.IsInRange, Marks.mark_of};
ghost use Rattle.answer_book.specs.Answers.{book_with, judge_answer, new_book, take_back_answer, take_back_last_answer};
ghost use Rattle.answer_book.specs.Answers.{trust_answer, with_answer, with_entry, without_answer};
ghost use Rattle.answer_book.specs.Entries.{entry_at, is_standing, standing_answers};
ghost use Rattle.answer_book.specs.declared.entries.What.TheVariants as what;

use crate::entries::{BookFault, Entry, Judgement, What};
use crate::entry_links::{EntryLinks, Subject};
use crate::entry_list::EntryList;
use crate::judged_calls::JudgedCalls;
use call_tree::{Calls, Mark};
use cell_value::Memory;
use std::alloc::Global;
use std::marker::Model;
use std::snapshot::Snapshot;

/// The book of one run: its entries, numbered from 1. Clauses see the routine of each call, the
/// number of routines, and the list of the entries.
///
/// A book has room for 100,000 entries from the start, so that no call but `new` and `with_entries`
/// takes memory. A change that is refused leaves the book as it was.
#[derive(Drop)]
pub struct Book {
    calls: Snapshot<Calls>,
    entries: EntryList,
    judged: JudgedCalls,
    trusted: Vec<bool>,
    by_call: EntryLinks,
    by_routine: EntryLinks,
    all: EntryLinks,
}

impl Model for Book {
    ghost use Rattle.answer_book.specs.Answers.{Answers};

    ghost Value = { Answers };

    ghost use Rattle.answer_book.specs.Kept.{IsKept, answers_of};

    ghost view = { answers_of };

    ghost invariant = { IsKept };
}

impl Book {
    /// The book of these calls with no entry.
    fn empty(alloc: Global, calls: &Calls) -> Result<Book, Memory>
        requires all_left { calls.now.open_calls ≡ [] }
        ensures { IfOk result (λ book. book ≡ book_with calls.now []) }
    {
        calls.are_numbered();
        let entries = EntryList::empty(alloc)?;
        let judged = JudgedCalls::new(alloc, calls.len())?;
        let trusted = vec![in alloc; false; calls.routines() as usize]?;
        let by_call = EntryLinks::new(alloc, Subject::Call, calls.len())?;
        let by_routine = EntryLinks::new(alloc, Subject::Routine, calls.routines())?;
        let all = EntryLinks::new(alloc, Subject::Any, 1)?;
        Ok(Book {
            calls: Snapshot::of(calls),
            entries,
            judged,
            trusted,
            by_call,
            by_routine,
            all,
        })
    }

    /// Puts an entry at the end, as one that stands or was taken back.
    fn put(&mut self, entry: Entry)
        requires room { length self.old.entries < 100000 }
        requires named { IsInRange (length self.old.routine) self.old.routines entry.what }
        ensures { self.new ≡ with_entry self.old entry }
    {
        self.entries.put(entry);
        self.by_call.link(entry);
        self.by_routine.link(entry);
        self.all.link(entry);
        if entry.standing {
            match entry.what {
                What::Judged(call, judgement) => self.judged.set(call, Some(judgement)),
                What::Trusted(routine) => self.trusted[routine as usize] = true,
            }
        }
    }

    /// The book of these calls, of which there is one at least and all were left. Its first entry
    /// says that call 0 is wrong.
    pub fn new(alloc: Global, calls: &Calls) -> Result<Book, Memory>
        requires a_call { 0 < length calls.now.calls }
        requires all_left { calls.now.open_calls ≡ [] }
        ensures { IfOk result (λ book. book ≡ new_book calls.now) }
    {
        let mut book = Book::empty(alloc, calls)?;
        book.put(Entry {
            what: What::Judged(0, Judgement::Wrong),
            standing: true,
        });
        Ok(book)
    }

    /// The book of these calls, which all were left, with these entries: at most 100,000, which name
    /// calls and routines that there are. It looks at each call and each entry once.
    pub fn with_entries(alloc: Global, calls: &Calls, entries: &[Entry]) -> Result<Book, Memory>
        requires all_left { calls.now.open_calls ≡ [] }
        requires few { length entries.now ≤ 100000 }
        requires named { All (λ entry. IsInRange (length calls.now.calls) calls.now.routines entry.what) entries.now }
        ensures { IfOk result (λ book. book ≡ book_with calls.now entries.now) }
    {
        let mut book = Book::empty(alloc, calls)?;
        'places: for place in 0..entries.len() {
            book.put(entries[place]);
        }
        Ok(book)
    }

    /// Adds a judgement on the call, and answers the number of the entry: `NoCall` where there is no
    /// such call, and else `Full` where 100,000 entries were made.
    pub fn judge(&mut self, call: u32, judgement: Judgement) -> Result<u32, BookFault>
        ensures answer { result ≡ judge_answer self.old call }
        ensures added { OnOk result (self.new ≡ with_answer self.old (what.Judged call judgement)) }
        ensures unchanged { OnErr result (self.new ≡ self.old) }
    {
        if call >= self.judged.len() {
            return Err(BookFault::NoCall(call));
        }
        let number = self.entries.next_number()?;
        self.put(Entry {
            what: What::Judged(call, judgement),
            standing: true,
        });
        Ok(number)
    }

    /// Adds trust in the routine, and answers the number of the entry: `NoRoutine` where there is no
    /// such routine, and else `Full` where 100,000 entries were made.
    pub fn trust(&mut self, routine: u32) -> Result<u32, BookFault>
        ensures answer { result ≡ trust_answer self.old routine }
        ensures added { OnOk result (self.new ≡ with_answer self.old (what.Trusted routine)) }
        ensures unchanged { OnErr result (self.new ≡ self.old) }
    {
        let place = routine as usize;
        if place >= self.trusted.len() {
            return Err(BookFault::NoRoutine(routine));
        }
        let number = self.entries.next_number()?;
        self.put(Entry {
            what: What::Trusted(routine),
            standing: true,
        });
        Ok(number)
    }

    /// Takes back an entry that stands.
    fn withdraw(&mut self, number: u32)
        requires stands { is_standing self.old.entries number ≡ true }
        ensures { self.new ≡ without_answer self.old number }
    {
        match self.entries.withdraw(number) {
            What::Judged(call, _) => {
                let last = self.by_call.last(&self.entries, call);
                let judgement = self.entries.judgement(last, call);
                self.judged.set(call, judgement);
            }
            What::Trusted(routine) => {
                let last = self.by_routine.last(&self.entries, routine);
                self.trusted[routine as usize] = last > 0;
            }
        }
    }

    /// Takes back the entry of this number: `NotStanding` where it was never made, or was taken back
    /// before.
    pub fn take_back(&mut self, entry: u32) -> Result<(), BookFault>
        ensures answer { result ≡ take_back_answer self.old entry }
        ensures taken_back { OnOk result (self.new ≡ without_answer self.old entry) }
        ensures unchanged { OnErr result (self.new ≡ self.old) }
    {
        if !self.entries.stands(entry) {
            return Err(BookFault::NotStanding(entry));
        }
        self.withdraw(entry);
        Ok(())
    }

    /// Takes back the last entry that stands, and answers its number: `NothingStanding` where none
    /// stands.
    pub fn take_back_last(&mut self) -> Result<u32, BookFault>
        ensures answer { result ≡ take_back_last_answer self.old }
        ensures taken_back { IfOk result (λ number. self.new ≡ without_answer self.old number) }
        ensures unchanged { OnErr result (self.new ≡ self.old) }
    {
        let number = self.all.last(&self.entries, 0);
        if number == 0 {
            return Err(BookFault::NothingStanding);
        }
        self.withdraw(number);
        Ok(number)
    }

    /// The number of entries that were made.
    pub fn entries(&self) -> u32
        ensures number { result ≡ length self.now.entries }
        ensures few { result ≤ 100000 }
    {
        self.entries.len()
    }

    /// The entry of this number. It names a call or a routine that there is.
    pub fn entry(&self, number: u32) -> Entry
        requires from_one { 1 ≤ number }
        requires made { number ≤ length self.now.entries }
        ensures found { entry_at self.now.entries number ≡ Some result }
        ensures named { IsInRange (length self.now.routine) self.now.routines result.what }
    {
        self.entries.get(number)
    }

    /// The mark of a call. The calls are those of `new`.
    pub fn mark(&self, calls: &Calls, call: u32) -> Mark
        requires those_calls { routines_of calls.now.calls ≡ self.now.routine }
        requires a_call { call < length self.now.routine }
        ensures { result ≡ mark_of self.now.routine (standing_answers self.now.entries) call }
    {
        match self.judged.get(call) {
            Some(judgement) => judgement.mark(),
            None => {
                let routine = calls.routine_column()[call as usize];
                if self.trusted[routine as usize] {
                    Mark::Trusted
                } else {
                    Mark::Unjudged
                }
            }
        }
    }

    /// The greatest call that is marked wrong.
    pub fn accused(&self) -> Option<u32>
        ensures { result ≡ accused_of self.now.routine (standing_answers self.now.entries) }
    {
        self.judged.last_wrong()
    }
}
