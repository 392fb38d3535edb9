//! The search over a run, answered with no one asked.
ghost use Rattle.std.specs.Prelude.{◌+◌, ◌<◌, ◌≡◌, length};
ghost use Rattle.answer_book.specs.Entries.{entries_with, first_entries};
ghost use Rattle.answer_book.specs.declared.entries.What.TheVariants as what;
ghost use Rattle.dialog_replies.specs.{Kept.IsSearchOf, Subject.calls_recorded, Subject.state_after};
ghost use Rattle.made_program.specs.Answering.{answered_to, entries_at_end, judgement_of, questions_of};
ghost use Rattle.made_program.specs.Asked.{asks};

use answer_book::Judgement;
use cell_value::Steps;
use dialog_replies::{Debugged, state_now};
use optimal_query::{Debug, SearchState};

/// What the steps of the search are counted by.
struct Uncounted;

/// What is said of a call: `wrong` if the call at fault stands in its subtree.
fn judgement_of<D: Debugged>(run: &D, call: u32) -> Judgement
    requires { call < calls_recorded (D.subject run.now) }
    ensures { result ≡ judgement_of (D.subject run.now) call }
{
    let calls = run.calls();
    let fault = calls.len() / 3;
    if call <= fault && fault <= calls.last_column()[call as usize] {
        Judgement::Wrong
    } else {
        Judgement::Right
    }
}

/// Says so of a call, where the book has room.
fn judge<D: Debugged>(run: &D, debug: &mut Debug, call: u32)
    requires search { IsSearchOf (D.subject run.now) debug.old }
    requires room { length debug.old.book.entries < 100000 }
    requires a_call { call < calls_recorded (D.subject run.now) }
    ensures judged { debug.new.book.entries ≡ entries_with debug.old.book.entries
        (what.Judged call (judgement_of (D.subject run.now) call)) }
    ensures search { IsSearchOf (D.subject run.now) debug.new }
{
    let judgement = judgement_of(run, call);
    let mut steps: Steps<Uncounted> = Steps::new();
    debug.judge(call, judgement, &mut steps).unwrap();
}

/// Answers the next question, and says whether there was one.
fn answer_next<D: Debugged>(run: &D, debug: &mut Debug) -> bool
    requires search { IsSearchOf (D.subject run.now) debug.old }
    requires room { length debug.old.book.entries < 100000 }
    ensures answered { debug.new.book.entries ≡ answered_to (D.subject run.now) debug.old.book.entries
        (state_after (D.subject run.now) debug.old.book.entries) }
    ensures asked { result ≡ asks (state_after (D.subject run.now) debug.old.book.entries) }
    ensures search { IsSearchOf (D.subject run.now) debug.new }
{
    match state_now(run, debug) {
        SearchState::Ask { call, .. } => {
            judge(run, debug, call);
            true
        }
        SearchState::Found(_)
        | SearchState::Narrowed(_)
        | SearchState::NothingWrong
        | SearchState::Unclear => false,
    }
}

/// Answers all questions, as far as the book has room, and counts them.
pub fn answer_all<D: Debugged>(run: &D, debug: &mut Debug) -> u32
    requires search { IsSearchOf (D.subject run.now) debug.old }
    requires first { debug.old.book.entries ≡ first_entries }
    ensures answered { debug.new.book.entries ≡ entries_at_end (D.subject run.now) }
    ensures counted { result ≡ questions_of (D.subject run.now) }
    ensures search { IsSearchOf (D.subject run.now) debug.new }
{
    for questions in 0..99_999 {
        if !answer_next(run, debug) {
            return questions;
        }
    }
    99_999
}
