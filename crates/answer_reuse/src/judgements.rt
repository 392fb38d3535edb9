//! One judgement on all calls that are alike, and taking it back.
ghost use Rattle.std.specs.Prelude.{if◌then◌else◌, ◌+◌, ◌<◌, ◌≡◌, ◌≤◌, OnErr, OnOk, length, true};
ghost use Rattle.answer_book.specs.Entries.{is_standing};
ghost use Rattle.optimal_query.specs.Changed.{MarkStays};
ghost use Rattle.answer_reuse.specs.{Classes.calls_of, Classes.class_of, Shared.without_one_steps};
ghost use Rattle.answer_reuse.specs.Shared.{IsOfCalls, judge_alike_answer, judged_each, judges_of, one_steps};
ghost use Rattle.answer_reuse.specs.Shared.{search_with_each, search_with_one, search_without_each, search_without_one};
ghost use Rattle.answer_reuse.specs.Shared.{shared_steps, standing_alike, standing_of, take_back_alike_answer};

use crate::classes::Classes;
use answer_book::{BookFault, Entry, Judgement, MOST_ENTRIES, What};
use cell_value::Steps;
use optimal_query::Debug;

/// Judges a call if it is one of those to be judged.
fn judge_if<L>(
    debug: &mut Debug<'_>,
    is_one: bool,
    call: u32,
    judgement: Judgement,
    steps: &mut Steps<L>,
)
    requires a_call { call < length debug.old.book.routine }
    requires room { is_one ≡ true → length debug.old.book.entries < 100000 }
    ensures judged { debug.new ≡ search_with_one debug.old is_one call judgement }
    ensures not_fallen { steps.old ≤ steps.new }
    ensures cost { steps.new ≤ steps.old + one_steps debug.old.depth is_one call }
{
    if is_one {
        match debug.judge(call, judgement, steps) {
            Ok(_) => {}
            Err(_) => unreachable!(),
        }
    }
}

/// Judges each call of the class of which this is the least call.
fn judge_each<L>(
    debug: &mut Debug<'_>,
    classes: &Classes,
    least: u32,
    judgement: Judgement,
    steps: &mut Steps<L>,
)
    requires those_calls { length classes.now ≡ length debug.old.book.routine }
    requires room { length debug.old.book.entries + length (calls_of classes.now least) ≤ 100000 }
    ensures judged { debug.new ≡ search_with_each debug.old (judged_each judgement (calls_of classes.now least)) }
    ensures not_fallen { steps.old ≤ steps.new }
    ensures cost { steps.new ≤ steps.old + shared_steps debug.old.depth (calls_of classes.now least) }
{
    'calls: for call in 0..classes.len() {
        judge_if(debug, classes.is_of(call, least), call, judgement, steps);
    }
}

/// Judges all calls that are alike to a call, by rising number, and answers the numbers of the first and the last
/// entry: `NoCall` where there is no such call, and else `Full` where there is not room for all of them, after which
/// nothing has changed. It takes no memory.
pub fn judge_alike<L>(
    debug: &mut Debug<'_>,
    classes: &Classes,
    call: u32,
    judgement: Judgement,
    steps: &mut Steps<L>,
) -> Result<(u32, u32), BookFault>
    requires those_calls { length classes.now ≡ length debug.old.book.routine }
    ensures answer { result ≡ judge_alike_answer debug.old.book classes.now call }
    ensures judged { OnOk result (debug.new
        ≡ search_with_each debug.old (judged_each judgement (class_of classes.now call))) }
    ensures unchanged { OnErr result (debug.new ≡ debug.old) }
    ensures not_fallen { steps.old ≤ steps.new }
    ensures cost { OnOk result (steps.new
        ≤ steps.old + shared_steps debug.old.depth (class_of classes.now call)) }
    ensures costs_nothing { OnErr result (steps.new ≡ steps.old) }
{
    if call >= classes.len() {
        return Err(BookFault::NoCall(call));
    }
    let made = debug.book().entries();
    let size = classes.size(call);
    if size > MOST_ENTRIES - made {
        return Err(BookFault::Full);
    }
    judge_each(debug, classes, classes.least(call), judgement, steps);
    Ok((made + 1, made + size))
}

/// Whether an entry stands and judges a call of the class of which this is the least call.
fn judges_one(classes: &Classes, entry: Entry, least: u32) -> bool
    requires named { IsOfCalls (length classes.now) entry.what }
    ensures { result ≡ judges_of classes.now least entry }
{
    match entry.what {
        What::Judged(call, _) => entry.standing && classes.is_of(call, least),
        What::Trusted(_) => false,
    }
}

/// Takes back an entry that stands, if it is one of those to be taken back, and answers how many were.
fn take_back_if<L>(debug: &mut Debug<'_>, is_one: bool, number: u32, steps: &mut Steps<L>) -> u32
    requires standing { is_one ≡ true → is_standing debug.old.book.entries number ≡ true }
    ensures count { result ≡ (if is_one then 1 else 0) }
    ensures taken_back { debug.new ≡ search_without_one debug.old is_one number }
    ensures not_fallen { steps.old ≤ steps.new }
    ensures cost { steps.new ≤ steps.old + without_one_steps debug.old is_one number }
    ensures mark_stays { MarkStays debug.old number → steps.new ≡ steps.old }
{
    if is_one {
        match debug.take_back(number, steps) {
            Ok(()) => {}
            Err(_) => unreachable!(),
        }
        1
    } else {
        0
    }
}

/// Takes back each judgement that stands on a call of the class of which this is the least call, and answers how many
/// there were. It does so first to last: the last on a call counts, so that the mark of the call changes once.
fn take_back_each<L>(
    debug: &mut Debug<'_>,
    classes: &Classes,
    least: u32,
    steps: &mut Steps<L>,
) -> u32
    requires those_calls { length classes.now ≡ length debug.old.book.routine }
    ensures count { result ≡ length (standing_of debug.old.book.entries classes.now least) }
    ensures taken_back { debug.new
        ≡ search_without_each debug.old (standing_of debug.old.book.entries classes.now least) }
    ensures not_fallen { steps.old ≤ steps.new }
    ensures cost { steps.new ≤ steps.old + shared_steps debug.old.depth (calls_of classes.now least) }
    ensures costs_nothing { result ≡ 0 → steps.new ≡ steps.old }
{
    let mut taken = 0;
    'entries: for number in 1..debug.book().entries() + 1 {
        let is_one = judges_one(classes, debug.book().entry(number), least);
        taken += take_back_if(debug, is_one, number, steps);
    }
    taken
}

/// Takes back each judgement that stands on a call alike to a call, and answers how many there were: `NoCall` where
/// there is no such call, and else `NothingStanding` where there is no such judgement, after which nothing has changed.
/// It takes no memory.
pub fn take_back_alike<L>(
    debug: &mut Debug<'_>,
    classes: &Classes,
    call: u32,
    steps: &mut Steps<L>,
) -> Result<u32, BookFault>
    requires those_calls { length classes.now ≡ length debug.old.book.routine }
    ensures answer { result ≡ take_back_alike_answer debug.old.book classes.now call }
    ensures taken_back { OnOk result (debug.new
        ≡ search_without_each debug.old (standing_alike debug.old.book.entries classes.now call)) }
    ensures unchanged { OnErr result (debug.new ≡ debug.old) }
    ensures not_fallen { steps.old ≤ steps.new }
    ensures cost { OnOk result (steps.new
        ≤ steps.old + shared_steps debug.old.depth (class_of classes.now call)) }
    ensures costs_nothing { OnErr result (steps.new ≡ steps.old) }
{
    if call >= classes.len() {
        return Err(BookFault::NoCall(call));
    }
    match take_back_each(debug, classes, classes.least(call), steps) {
        0 => Err(BookFault::NothingStanding),
        taken => Ok(taken),
    }
}
