//! The entries on each call, of trust in each routine, and all of them, linked from the last one back.
ghost use Rattle.std.specs.Prelude.{◌++◌, ◌<◌, ◌∷◌, ◌≡◌, [], ℕ, IfOk, Some, length};
ghost use Rattle.answer_book.specs.Links.{AreLinked, IsLastOn, links_found, links_with, no_links, place_of};

use crate::entries::{Entry, What};
use crate::entry_list::{EntryList, ROOM};
use cell_value::Memory;
use std::alloc::Global;
use std::marker::Model;

/// What the entries of one chain have in common.
#[derive(Clone, Copy)]
pub(crate) enum Subject {
    /// The call that they judge.
    Call,
    /// The routine that they trust.
    Routine,
    /// Nothing: there is one chain, of all entries.
    Any,
}

impl Subject {
    /// The number of the chain on which an entry is that says this.
    fn place(self, what: What) -> Option<u32>
        ensures { result ≡ place_of self what }
    {
        match self {
            Subject::Call => match what {
                What::Judged(call, _) => Some(call),
                What::Trusted(_) => None,
            },
            Subject::Routine => match what {
                What::Judged(_, _) => None,
                What::Trusted(routine) => Some(routine),
            },
            Subject::Any => Some(0),
        }
    }
}

/// For each entry on a chain the number of the one that stood last on it when it was made, and for
/// each chain the number of the last one, past those that were taken back; 0 where there is none.
/// There is room for 100,000 entries from the start. Clauses see the subject and both columns.
///
/// Where a look for the last entry on a chain came to is kept, so that what it passed over is never
/// reached again.
#[derive(Drop)]
pub(crate) struct EntryLinks {
    subject: Subject,
    before: Vec<u32>,
    last: Vec<u32>,
}

impl Model for EntryLinks {
    ghost use Rattle.answer_book.specs.{Links.Links, Room.HasRoom};

    ghost Value = { Links };

    ghost view = { λ l. record { subject = l.subject; before = l.before.items; last = l.last.items } };

    ghost invariant = { λ l. HasRoom l.before };
}

impl EntryLinks {
    /// This many chains before anything is said.
    pub fn new(alloc: Global, subject: Subject, chains: u32) -> Result<EntryLinks, Memory>
        ensures { IfOk result (λ links. links ≡ no_links subject chains) }
    {
        let before = Vec::with_capacity(alloc, ROOM)?;
        let last = vec![in alloc; 0; chains as usize]?;
        Ok(EntryLinks {
            subject,
            before,
            last,
        })
    }

    /// Puts the link of one entry more.
    fn push(&mut self, link: u32)
        requires room { length self.old.before < 100000 }
        ensures subject { self.new.subject ≡ self.old.subject }
        ensures before { self.new.before ≡ self.old.before ++ link ∷ [] }
        ensures last { self.new.last ≡ self.old.last }
    {
        match self.before.push(link) {
            Ok(()) => {}
            Err(_) => unreachable!(),
        }
    }

    /// Links one entry more, as one that stands or was taken back.
    pub fn link(&mut self, entry: Entry)
        requires room { length self.old.before < 100000 }
        requires a_chain { (own : ℕ) → place_of self.old.subject entry.what ≡ Some own → own < length self.old.last }
        ensures { self.new ≡ links_with self.old entry }
    {
        match self.subject.place(entry.what) {
            Some(chain) => {
                let place = chain as usize;
                let number = self.before.len() as u32 + 1;
                let link = self.last[place];
                self.push(link);
                if entry.standing {
                    self.last[place] = number;
                }
            }
            None => self.push(0),
        }
    }

    /// The number of the last entry on the chain that stands; 0 where none does. It looks at each
    /// entry that does not stand once only, however often it is called.
    pub fn last(&mut self, entries: &EntryList, chain: u32) -> u32
        requires linked { AreLinked entries.now self.old }
        requires a_chain { chain < length self.old.last }
        ensures last { IsLastOn self.old.subject entries.now chain result }
        ensures found { self.new ≡ links_found self.old chain result }
    {
        let place = chain as usize;
        let mut number = self.last[place];
        'back: while entries.was_taken_back(number) {
            number = self.before[number as usize - 1];
        }
        self.last[place] = number;
        number
    }
}
