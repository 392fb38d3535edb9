//! The calls that a wrong output does not come from.
ghost use Rattle.std.specs.Prelude.{if◌then◌else◌, ◌+◌, ◌<◌, ◌≡◌, ◌≤◌, [], OnOk, length, true};
ghost use Rattle.call_tree.specs.{Clear.is_unjudged, Recording.parents_of, Recording.routines_of};
ghost use Rattle.answer_book.specs.declared.entries.{Judgement.TheVariants.Right, What.TheVariants.Judged};
ghost use Rattle.optimal_query.specs.Search.{search_with};
ghost use Rattle.output_slice.specs.LeftOut.{AnswersLeftOut, BuggyStays, is_left_out, left_out_below, sliced_call};
ghost use Rattle.output_slice.specs.LeftOut.{steps_on, steps_on_all};

use crate::laws::wrong_outputs_narrow;
use crate::slicing::Slicing;
use crate::used::both;
use answer_book::{BookFault, Judgement, MOST_ENTRIES};
use call_tree::{Calls, Mark};
use cell_value::Steps;
use optimal_query::Debug;

/// Whether nothing is said of a call with this mark.
fn is_open(mark: Mark) -> bool
    ensures { result ≡ is_unjudged mark }
{
    matches!(mark, Mark::Unjudged)
}

/// Whether a call is left out: nothing is said of it, and it has no pair in the slice, but its parent has one.
fn is_apart(debug: &Debug, calls: &Calls, slice: &Slicing, call: u32) -> bool
    requires a_call { call < length calls.now.calls }
    requires all_left { calls.now.open_calls ≡ [] }
    requires those_calls { debug.now.book.routine ≡ routines_of calls.now.calls }
    requires of_run { slice.now.calls ≡ length calls.now.calls }
    ensures { result ≡ is_left_out debug.now (parents_of calls.now.calls) slice.now.pairs call }
{
    // A parent is a call.
    calls.are_numbered();
    match calls.call(call).parent {
        Some(parent) => both(
            both(slice.has(parent), !slice.has(call)),
            is_open(debug.mark(call)),
        ),
        None => false,
    }
}

/// One if it is so.
fn one_if(so: bool) -> u32
    ensures { result ≡ (if so then 1 else 0) }
{
    if so { 1 } else { 0 }
}

/// How many calls are left out below a call.
fn count_apart(debug: &Debug, calls: &Calls, slice: &Slicing, call: u32) -> u32
    requires a_call { call < length calls.now.calls }
    requires all_left { calls.now.open_calls ≡ [] }
    requires those_calls { debug.now.book.routine ≡ routines_of calls.now.calls }
    requires of_run { slice.now.calls ≡ length calls.now.calls }
    ensures many { result ≡ length (left_out_below debug.now calls.now.calls slice.now.pairs call) }
    ensures few { result ≤ 500000 }
{
    // There are few calls.
    calls.are_numbered();
    let row = calls.call(call);
    let mut count = 0;
    for below in call + 1..row.last + 1 {
        count += one_if(is_apart(debug, calls, slice, below));
    }
    count
}

/// Judges a call, where there is room for that, and answers the number of the entry.
fn judge_call<L>(debug: &mut Debug, call: u32, judgement: Judgement, steps: &mut Steps<L>) -> u32
    requires a_call { call < length debug.old.book.routine }
    requires room { length debug.old.book.entries < 100000 }
    ensures search { debug.new ≡ search_with debug.old (Judged call judgement) }
    ensures number { result ≡ length debug.old.book.entries + 1 }
    ensures not_fallen { steps.old ≤ steps.new }
    ensures cost { steps.new ≤ steps.old + steps_on debug.old call }
{
    match debug.judge(call, judgement, steps) {
        Ok(number) => number,
        // There is such a call, and room.
        Err(_) => unreachable!(),
    }
}

/// Judges a call right if it is so, where there is room for that, and answers the number of the last entry, which was
/// this one before.
fn judge_if<L>(debug: &mut Debug, so: bool, call: u32, last: u32, steps: &mut Steps<L>) -> u32
    requires a_call { call < length debug.old.book.routine }
    requires room { so ≡ true → length debug.old.book.entries < 100000 }
    ensures search { debug.new ≡ (if so then search_with debug.old (Judged call Right) else debug.old) }
    ensures number { result ≡ (if so then length debug.old.book.entries + 1 else last) }
    ensures not_fallen { steps.old ≤ steps.new }
    ensures cost { steps.new ≤ steps.old + (if so then steps_on debug.old call else 0) }
{
    if !so {
        return last;
    }
    judge_call(debug, call, Judgement::Right, steps)
}

/// Judges the call of the wrong output wrong, and then each call right that is left out, by rising number: it stands
/// below that call, nothing is said of it, and it has no pair in the slice, but its parent has one. Answers the first
/// entry and the last one. `Full` where there is no room for all of them, and then nothing is changed. It takes no
/// memory. The slice is one of the run of these calls, over which the search goes.
pub fn leave_out<L>(
    debug: &mut Debug,
    calls: &Calls,
    slice: &Slicing,
    steps: &mut Steps<L>,
) -> Result<(u32, u32), BookFault>
    requires all_left { calls.now.open_calls ≡ [] }
    requires those_calls { debug.old.book.routine ≡ routines_of calls.now.calls }
    requires some { 0 < length slice.now.pairs }
    requires of_run { slice.now.calls ≡ length calls.now.calls }
    requires a_call { sliced_call slice.now.pairs < length calls.now.calls }
    ensures answer { AnswersLeftOut debug.old (sliced_call slice.now.pairs)
        (left_out_below debug.old calls.now.calls slice.now.pairs (sliced_call slice.now.pairs)) debug.new result }
    ensures buggy_stays { OnOk result (BuggyStays calls.now.calls slice.now.pairs debug.old debug.new) }
    ensures not_fallen { steps.old ≤ steps.new }
    ensures cost { steps.new ≤ steps.old + steps_on debug.old (sliced_call slice.now.pairs) + steps_on_all debug.old
        (left_out_below debug.old calls.now.calls slice.now.pairs (sliced_call slice.now.pairs)) }
{
    // There are few calls, and a wrong output leads to a buggy call that is left.
    calls.are_numbered();
    wrong_outputs_narrow();
    let (call, _) = slice.pair(0);
    let count = count_apart(debug, calls, slice, call);
    if debug.book().entries() + 1 + count > MOST_ENTRIES {
        return Err(BookFault::Full);
    }
    let first = judge_call(debug, call, Judgement::Wrong, steps);
    let mut last = first;
    let row = calls.call(call);
    for below in call + 1..row.last + 1 {
        let so = is_apart(debug, calls, slice, below);
        last = judge_if(debug, so, below, last, steps);
    }
    Ok((first, last))
}
