//! A search over the calls of one run.
ghost use Rattle.std.specs.Prelude.{◌*◌, ◌+◌, ◌<◌, ◌≡◌, ◌≤◌, [], All, Contains, IfOk, OnErr, OnOk, length};
ghost use Rattle.std.specs.Option.{ForSome};
ghost use Rattle.call_tree.specs.Recording.{routines_of};
ghost use Rattle.subtree_weights.specs.{RunColumns.columns_of, Weighed.with_marks};
ghost use Rattle.answer_book.specs.{Accused.accused_of, InRange.IsInRange, Marks.mark_by, Marks.marks_of};
ghost use Rattle.answer_book.specs.Answers.{judge_answer, take_back_answer, take_back_last_answer, trust_answer};
ghost use Rattle.answer_book.specs.Entries.{entry_at, standing_answers};
ghost use Rattle.answer_book.specs.declared.entries.What.TheVariants as what;
ghost use Rattle.optimal_query.specs.Changed.{HadItsMark, MarkStays, WereMarks, change_steps, most_steps_at};
ghost use Rattle.optimal_query.specs.Search.{mark_now, new_search, next_doubt, search_over, search_with};
ghost use Rattle.optimal_query.specs.Search.{search_without, state_now};

use crate::markings::Markings;
use crate::state::SearchState;
use answer_book::{Book, BookFault, Entry, Judgement, What};
use call_tree::{Calls, Mark};
use cell_value::{Memory, Steps};
use std::alloc::Global;
use std::marker::Model;

/// A search over these calls. Clauses see the columns of the calls, and the book.
///
/// No call but `new` and `with_entries` takes memory. A change that is refused leaves the search as
/// it was. A step is one visit of the columns of weights and marks at one call; a judgement that is
/// made or taken back takes none where the mark of its call stays.
#[derive(Drop)]
pub struct Debug<'a> {
    calls: &'a Calls,
    book: Book,
    markings: Markings,
}

impl<'a> Model for Debug<'a> {
    ghost use Rattle.optimal_query.specs.Search.{Search};

    ghost Value = { Search };

    ghost use Rattle.optimal_query.specs.DebugKept.{IsKept, search_of};

    ghost view = { search_of };

    ghost invariant = { IsKept };
}

/// Looks up anew what an entry changes that says this.
fn follow<L>(calls: &Calls, book: &Book, markings: &mut Markings, what: What, steps: &mut Steps<L>)
    requires those_calls { columns_of calls.now.calls ≡ markings.old.columns }
    requires the_book { routines_of calls.now.calls ≡ book.now.routine }
    requires all_left { calls.now.open_calls ≡ [] }
    requires were { WereMarks book.now markings.old.marks what }
    ensures followed { markings.new ≡ with_marks markings.old
        (marks_of book.now.routine (standing_answers book.now.entries)) }
    ensures not_fallen { steps.old ≤ steps.new }
    ensures cost { steps.new ≤ steps.old + change_steps markings.old.columns.depth book.now.routine what }
    ensures costs_nothing { HadItsMark book.now markings.old.marks what → steps.new ≡ steps.old }
{
    match what {
        What::Judged(call, _) => {
            let mark = book.mark(calls, call);
            markings.set(calls, call, mark, steps);
        }
        What::Trusted(routine) => markings.look_up_calls_of(calls, book, routine, steps),
    }
}

impl<'a> Debug<'a> {
    /// The search over these calls, of which there is one at least and all were left. Its first entry
    /// says that call 0 is wrong.
    pub fn new(alloc: Global, calls: &'a Calls) -> Result<Debug<'a>, Memory>
        requires a_call { 0 < length calls.now.calls }
        requires all_left { calls.now.open_calls ≡ [] }
        ensures { IfOk result (λ search. search ≡ new_search calls.now) }
    {
        let book = Book::new(alloc, calls)?;
        let mut markings = Markings::new(alloc, calls)?;
        let mut steps: Steps<()> = Steps::new();
        let first = What::Judged(0, Judgement::Wrong);
        follow(calls, &book, &mut markings, first, &mut steps);
        Ok(Debug {
            calls,
            book,
            markings,
        })
    }

    /// The search over these calls, of which there is one at least and all were left, with these
    /// entries: at most 100,000, which name calls and routines that there are. Beside what `new`
    /// takes, it looks at each entry once, and takes at most four steps for each call, however many
    /// entries there are.
    pub fn with_entries<L>(
        alloc: Global,
        calls: &'a Calls,
        entries: &[Entry],
        steps: &mut Steps<L>,
    ) -> Result<Debug<'a>, Memory>
        requires a_call { 0 < length calls.now.calls }
        requires all_left { calls.now.open_calls ≡ [] }
        requires few { length entries.now ≤ 100000 }
        requires named { All (λ entry. IsInRange (length calls.now.calls) calls.now.routines entry.what) entries.now }
        ensures search { IfOk result (λ search. search ≡ search_over calls.now entries.now) }
        ensures not_fallen { steps.old ≤ steps.new }
        ensures cost { steps.new ≤ steps.old + 4 * length calls.now.calls }
    {
        let book = Book::with_entries(alloc, calls, entries)?;
        let mut markings = Markings::new(alloc, calls)?;
        markings.look_up_all(calls, &book, steps);
        Ok(Debug {
            calls,
            book,
            markings,
        })
    }

    /// Adds a judgement on the call, and answers the number of the entry: `NoCall` where there is no
    /// such call, and else `Full` where 100,000 entries were made.
    pub fn judge<L>(
        &mut self,
        call: u32,
        judgement: Judgement,
        steps: &mut Steps<L>,
    ) -> Result<u32, BookFault>
        ensures answer { result ≡ judge_answer self.old.book call }
        ensures added { OnOk result (self.new ≡ search_with self.old (what.Judged call judgement)) }
        ensures unchanged { OnErr result (self.new ≡ self.old) }
        ensures not_fallen { steps.old ≤ steps.new }
        ensures cost { steps.new ≤ steps.old
            + change_steps self.old.depth self.old.book.routine (what.Judged call judgement) }
        ensures mark_stays { mark_now self.old call ≡ mark_by judgement → steps.new ≡ steps.old }
    {
        match self.book.judge(call, judgement) {
            Ok(number) => {
                let what = What::Judged(call, judgement);
                follow(self.calls, &self.book, &mut self.markings, what, steps);
                Ok(number)
            }
            Err(fault) => Err(fault),
        }
    }

    /// Adds trust in the routine, and answers the number of the entry: `NoRoutine` where there is no
    /// such routine, and else `Full` where 100,000 entries were made.
    pub fn trust<L>(&mut self, routine: u32, steps: &mut Steps<L>) -> Result<u32, BookFault>
        ensures answer { result ≡ trust_answer self.old.book routine }
        ensures added { OnOk result (self.new ≡ search_with self.old (what.Trusted routine)) }
        ensures unchanged { OnErr result (self.new ≡ self.old) }
        ensures not_fallen { steps.old ≤ steps.new }
        ensures cost { steps.new ≤ steps.old
            + change_steps self.old.depth self.old.book.routine (what.Trusted routine) }
    {
        match self.book.trust(routine) {
            Ok(number) => {
                let what = What::Trusted(routine);
                follow(self.calls, &self.book, &mut self.markings, what, steps);
                Ok(number)
            }
            Err(fault) => Err(fault),
        }
    }

    /// Takes back the entry of this number: `NotStanding` where it was never made, or was taken back
    /// before.
    pub fn take_back<L>(&mut self, entry: u32, steps: &mut Steps<L>) -> Result<(), BookFault>
        ensures answer { result ≡ take_back_answer self.old.book entry }
        ensures taken_back { OnOk result (self.new ≡ search_without self.old entry) }
        ensures unchanged { OnErr result (self.new ≡ self.old) }
        ensures not_fallen { steps.old ≤ steps.new }
        ensures cost { steps.new ≤ steps.old + most_steps_at self.old (entry_at self.old.book.entries entry) }
        ensures mark_stays { MarkStays self.old entry → steps.new ≡ steps.old }
    {
        match self.book.take_back(entry) {
            Ok(()) => {
                let what = self.book.entry(entry).what;
                follow(self.calls, &self.book, &mut self.markings, what, steps);
                Ok(())
            }
            Err(fault) => Err(fault),
        }
    }

    /// Takes back the last entry that stands, and answers its number: `NothingStanding` where none
    /// stands.
    pub fn take_back_last<L>(&mut self, steps: &mut Steps<L>) -> Result<u32, BookFault>
        ensures answer { result ≡ take_back_last_answer self.old.book }
        ensures taken_back { IfOk result (λ number. self.new ≡ search_without self.old number) }
        ensures unchanged { OnErr result (self.new ≡ self.old) }
        ensures not_fallen { steps.old ≤ steps.new }
        ensures cost { IfOk result (λ number. steps.new ≤
            steps.old + most_steps_at self.old (entry_at self.old.book.entries number)) }
        ensures mark_stays { IfOk result (λ number. MarkStays self.old number → steps.new ≡ steps.old) }
        ensures costs_nothing { OnErr result (steps.new ≡ steps.old) }
    {
        match self.book.take_back_last() {
            Ok(number) => {
                let what = self.book.entry(number).what;
                follow(self.calls, &self.book, &mut self.markings, what, steps);
                Ok(number)
            }
            Err(fault) => Err(fault),
        }
    }

    /// The book.
    pub fn book(&self) -> &Book
        ensures { result.now ≡ self.now.book }
    {
        &self.book
    }

    /// The mark of a call.
    pub fn mark(&self, call: u32) -> Mark
        requires a_call { call < length self.now.book.routine }
        ensures { result ≡ mark_now self.now call }
    {
        self.book.mark(self.calls, call)
    }

    /// The state of the search.
    pub fn state(&self) -> SearchState
        ensures { result ≡ state_now self.now }
    {
        self.markings.state(self.calls, self.book.accused())
    }

    /// The least doubt, or the least one after the call that is given.
    pub fn next_unknown(&self, after: Option<u32>) -> Option<u32>
        ensures { result ≡ next_doubt self.now after }
    {
        self.markings
            .next_unknown(self.calls, self.book.accused(), after)
    }
}
