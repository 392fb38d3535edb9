//! The marks of the calls, with their weights.
ghost use Rattle.std.specs.Prelude.{◌*◌, ◌+◌, ◌<◌, ◌≡◌, ◌≤◌, [], IfOk, length, map, slice_index};
ghost use Rattle.std.specs.Option.{ForSome};
ghost use Rattle.call_tree.specs.Recording.{depths_of, routines_of};
ghost use Rattle.subtree_weights.specs.{RunColumns.columns_of, Searched.mark_at, Weights.suspects_below};
ghost use Rattle.subtree_weights.specs.Weighed.{call_count, unjudged, with_mark, with_marks};
ghost use Rattle.answer_book.specs.{Entries.standing_answers, Marks.marks_of};
ghost use Rattle.answer_book.specs.declared.entries.What.TheVariants as what;
ghost use Rattle.optimal_query.specs.{Region.doubts_of, Region.next_after, State.state_with};
ghost use Rattle.optimal_query.specs.Changed.{ChangesCallsOf, change_steps, ways_up};
ghost use Rattle.optimal_query.specs.Markings.{askable_flag, verdict_from};

use crate::region::{end, next_doubt, start};
use crate::routine_calls::{has_few, next_call};
use crate::runs::best_of_runs;
use crate::state::SearchState;
use answer_book::Book;
use call_tree::{Calls, Mark};
use cell_value::{Memory, Steps};
use std::alloc::Global;
use std::marker::Model;
use subtree_weights::Weights;
use subtree_weights::laws::weights_count_suspects;

/// The mark of each call, and beside it the weights, a flag for each call that nothing is said of,
/// and the depths. Clauses see the columns of the calls and the marks.
///
/// A step is one visit of the columns of weights and marks at one call.
#[derive(Drop)]
pub(crate) struct Markings {
    weights: Weights,
    marks: Vec<Mark>,
    askable: Vec<u8>,
    depths: Vec<u32>,
}

impl Model for Markings {
    ghost use Rattle.subtree_weights.specs.Weighed.{Weighed};

    ghost Value = { Weighed };

    ghost use Rattle.optimal_query.specs.Markings.{AreKeptMarkings};

    ghost view = { λ m. m.weights };

    ghost invariant = { AreKeptMarkings };
}

/// The flag of a call with this mark.
fn flag(mark: Mark) -> u8
    ensures { result ≡ askable_flag mark }
{
    match mark {
        Mark::Unjudged => 1,
        _ => 0,
    }
}

/// The depth of each call.
fn depth_column(alloc: Global, calls: &Calls) -> Result<Vec<u32>, Memory>
    ensures { IfOk result (λ column. column.items ≡ depths_of calls.now.calls) }
{
    let mut column = Vec::with_capacity(alloc, calls.len() as usize)?;
    for call in 0..calls.len() {
        column.push(calls.call(call).depth)?;
    }
    Ok(column)
}

/// Looks up the marks of the calls of a routine in the book, with a step for each of them.
fn look_up<L>(
    calls: &Calls,
    book: &Book,
    routine: u32,
    marks: &mut [Mark],
    askable: &mut [u8],
    steps: &mut Steps<L>,
)
    requires those_calls { routines_of calls.now.calls ≡ book.now.routine }
    requires were { ChangesCallsOf book.now marks.old routine }
    requires flags { askable.old ≡ map askable_flag marks.old }
    requires few { length calls.now.calls ≤ 500000 }
    ensures marks { marks.new ≡ marks_of book.now.routine (standing_answers book.now.entries) }
    ensures askable { askable.new ≡ map askable_flag marks.new }
    ensures not_fallen { steps.old ≤ steps.new }
    ensures cost { steps.new ≤ steps.old + length book.now.routine }
{
    let mut from = 0;
    'calls: while let Some(place) = next_call(calls, from, routine) {
        let mark = book.mark(calls, place as u32);
        marks[place] = mark;
        askable[place] = flag(mark);
        steps.tick();
        from = place + 1;
    }
}

/// Looks up the marks of all calls in the book, with a step for each of them.
fn look_up_each<L>(
    calls: &Calls,
    book: &Book,
    marks: &mut [Mark],
    askable: &mut [u8],
    steps: &mut Steps<L>,
)
    requires those_calls { routines_of calls.now.calls ≡ book.now.routine }
    requires each { length marks.old ≡ length book.now.routine }
    requires flags { askable.old ≡ map askable_flag marks.old }
    requires few { length calls.now.calls ≤ 500000 }
    ensures marks { marks.new ≡ marks_of book.now.routine (standing_answers book.now.entries) }
    ensures askable { askable.new ≡ map askable_flag marks.new }
    ensures cost { steps.new ≡ steps.old + length book.now.routine }
{
    'calls: for place in 0..marks.len() {
        let mark = book.mark(calls, place as u32);
        marks[place] = mark;
        askable[place] = flag(mark);
        steps.tick();
    }
}

/// With no suspect left, what the search has come to.
fn verdict(accused: Option<u32>, doubt: Option<u32>) -> SearchState
    ensures { result ≡ verdict_from accused doubt }
{
    match (accused, doubt) {
        (Some(call), None) => SearchState::Found(call),
        (Some(call), Some(_)) => SearchState::Narrowed(call),
        (None, None) => SearchState::NothingWrong,
        (None, Some(_)) => SearchState::Unclear,
    }
}

impl Markings {
    /// The markings of these calls while nothing is said of them.
    pub fn new(alloc: Global, calls: &Calls) -> Result<Markings, Memory>
        requires a_call { 0 < length calls.now.calls }
        requires all_left { calls.now.open_calls ≡ [] }
        ensures { IfOk result (λ markings. markings ≡ unjudged calls.now.calls) }
    {
        let weights = Weights::new(alloc, calls)?;
        let marks = vec![in alloc; Mark::Unjudged; calls.len() as usize]?;
        let askable = vec![in alloc; 1; calls.len() as usize]?;
        let depths = depth_column(alloc, calls)?;
        Ok(Markings {
            weights,
            marks,
            askable,
            depths,
        })
    }

    /// Changes the mark of one call, which takes no step where that is the mark it has.
    pub fn set<L>(&mut self, calls: &Calls, call: u32, mark: Mark, steps: &mut Steps<L>)
        requires those_calls { columns_of calls.now.calls ≡ self.old.columns }
        requires a_call { call < call_count self.old }
        ensures changed { self.new ≡ with_mark self.old call mark }
        ensures not_fallen { steps.old ≤ steps.new }
        ensures cost { steps.new ≤ steps.old + slice_index self.old.columns.depth call + 1 }
        ensures costs_nothing { mark_at self.old.marks call ≡ mark → steps.new ≡ steps.old }
    {
        let place = call as usize;
        let before = self.marks[place];
        if before == mark {
            return;
        }
        self.weights.changed(calls, call, before, mark, steps);
        self.marks[place] = mark;
        self.askable[place] = flag(mark);
    }

    /// Looks up the marks of the calls of a routine in the book, and carries each change up.
    fn set_each<L>(&mut self, calls: &Calls, book: &Book, routine: u32, steps: &mut Steps<L>)
        requires those_calls { columns_of calls.now.calls ≡ self.old.columns }
        requires the_book { routines_of calls.now.calls ≡ book.now.routine }
        requires few { length calls.now.calls ≤ 500000 }
        requires were { ChangesCallsOf book.now self.old.marks routine }
        ensures looked_up { self.new ≡ with_marks self.old
            (marks_of book.now.routine (standing_answers book.now.entries)) }
        ensures not_fallen { steps.old ≤ steps.new }
        ensures cost { steps.new ≤ steps.old
            + ways_up self.old.columns.depth book.now.routine routine (length book.now.routine) }
    {
        let mut from = 0;
        'calls: while let Some(place) = next_call(calls, from, routine) {
            let call = place as u32;
            let mark = book.mark(calls, call);
            self.set(calls, call, mark, steps);
            from = place + 1;
        }
    }

    /// Looks up the marks of the calls of a routine in the book, and counts the weights anew.
    fn set_all<L>(&mut self, calls: &Calls, book: &Book, routine: u32, steps: &mut Steps<L>)
        requires those_calls { columns_of calls.now.calls ≡ self.old.columns }
        requires the_book { routines_of calls.now.calls ≡ book.now.routine }
        requires few { length calls.now.calls ≤ 500000 }
        requires were { ChangesCallsOf book.now self.old.marks routine }
        ensures looked_up { self.new ≡ with_marks self.old
            (marks_of book.now.routine (standing_answers book.now.entries)) }
        ensures not_fallen { steps.old ≤ steps.new }
        ensures cost { steps.new ≤ steps.old + 4 * call_count self.old }
    {
        look_up(
            calls,
            book,
            routine,
            &mut self.marks,
            &mut self.askable,
            steps,
        );
        self.weights.recount(calls, &self.marks, steps);
    }

    /// Looks up the marks of the calls of a routine in the book, where those of all other calls stay.
    pub fn look_up_calls_of<L>(
        &mut self,
        calls: &Calls,
        book: &Book,
        routine: u32,
        steps: &mut Steps<L>,
    )
        requires those_calls { columns_of calls.now.calls ≡ self.old.columns }
        requires the_book { routines_of calls.now.calls ≡ book.now.routine }
        requires all_left { calls.now.open_calls ≡ [] }
        requires were { ChangesCallsOf book.now self.old.marks routine }
        ensures looked_up { self.new ≡ with_marks self.old
            (marks_of book.now.routine (standing_answers book.now.entries)) }
        ensures not_fallen { steps.old ≤ steps.new }
        ensures cost { steps.new ≤ steps.old
            + change_steps self.old.columns.depth book.now.routine (what.Trusted routine) }
    {
        calls.are_numbered();
        if has_few(calls, &self.depths, routine) {
            self.set_each(calls, book, routine, steps);
        } else {
            self.set_all(calls, book, routine, steps);
        }
    }

    /// Looks up the marks of all calls in the book.
    pub fn look_up_all<L>(&mut self, calls: &Calls, book: &Book, steps: &mut Steps<L>)
        requires those_calls { columns_of calls.now.calls ≡ self.old.columns }
        requires the_book { routines_of calls.now.calls ≡ book.now.routine }
        requires all_left { calls.now.open_calls ≡ [] }
        ensures looked_up { self.new ≡ with_marks self.old
            (marks_of book.now.routine (standing_answers book.now.entries)) }
        ensures not_fallen { steps.old ≤ steps.new }
        ensures cost { steps.new ≤ steps.old + 4 * call_count self.old }
    {
        calls.are_numbered();
        look_up_each(calls, book, &mut self.marks, &mut self.askable, steps);
        self.weights.recount(calls, &self.marks, steps);
    }

    /// How many suspects there are.
    fn suspects(&self, calls: &Calls, accused: Option<u32>) -> u32
        requires those_calls { columns_of calls.now.calls ≡ self.now.columns }
        requires a_call { 0 < call_count self.now }
        requires all_left { calls.now.open_calls ≡ [] }
        requires accused_is_a_call { ForSome accused (λ accused. accused < call_count self.now) }
        ensures { result ≡ suspects_below self.now.columns.last self.now.marks accused }
    {
        calls.are_numbered();
        // All suspects are what the first call weighs.
        weights_count_suspects();
        match accused {
            Some(accused) => self.weights.under(accused),
            None => self.weights.weight(0),
        }
    }

    /// The state of the search, in which this call is accused.
    pub fn state(&self, calls: &Calls, accused: Option<u32>) -> SearchState
        requires those_calls { columns_of calls.now.calls ≡ self.now.columns }
        requires a_call { 0 < call_count self.now }
        requires all_left { calls.now.open_calls ≡ [] }
        requires accused_is_a_call { ForSome accused (λ accused. accused < call_count self.now) }
        ensures { result ≡ state_with self.now.columns.last self.now.marks accused }
    {
        calls.are_numbered();
        // A suspect weighs as many suspects as stand in its subtree.
        weights_count_suspects();
        let last = calls.last_column();
        let suspects = self.suspects(calls, accused);
        let (from, to) = (start(accused), end(last, accused));
        let best = best_of_runs(
            last,
            self.weights.column(),
            &self.askable,
            suspects,
            from,
            to,
        );
        match best {
            Some(choice) => SearchState::Ask {
                call: choice.at as u32,
                weight: self.weights.weight(choice.at as u32),
                suspects,
                left: choice.left,
            },
            None => verdict(accused, next_doubt(last, &self.marks, accused, None)),
        }
    }

    /// The least doubt, or the least one after the call that is given.
    pub fn next_unknown(
        &self,
        calls: &Calls,
        accused: Option<u32>,
        after: Option<u32>,
    ) -> Option<u32>
        requires those_calls { columns_of calls.now.calls ≡ self.now.columns }
        requires all_left { calls.now.open_calls ≡ [] }
        requires accused_is_a_call { ForSome accused (λ accused. accused < call_count self.now) }
        ensures { result ≡ next_after (doubts_of self.now.columns.last self.now.marks accused) after }
    {
        calls.are_numbered();
        next_doubt(calls.last_column(), &self.marks, accused, after)
    }
}
