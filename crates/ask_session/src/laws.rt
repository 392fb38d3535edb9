//! What the reports of a dialog say, the contract of calls that do nothing.
ghost use Rattle.dialog_replies.specs.Subject.{Subject};
ghost use Rattle.ask_session.specs.Laws.{AsksTheBest, FindsTheFault, NamesTheAccused, NarrowsTheFault, OfEachTree};
ghost use Rattle.ask_session.specs.LineActs.{EntriesFollowLines};

use dialog_replies::Debugged;
use optimal_query::laws::{buggy_is_left, found_is_at_fault, question_is_least};

/// What is asked is best, what is found is at fault, and once a call is accused one of those that are left is
/// buggy: in each tree of calls.
pub fn reports_are_sound()
    ensures asks { OfEachTree AsksTheBest }
    ensures narrows { OfEachTree NarrowsTheFault }
    ensures names { OfEachTree NamesTheAccused }
    ensures finds { OfEachTree FindsTheFault }
{
    question_is_least();
    buggy_is_left();
    found_is_at_fault();
}

/// The same, of a run.
pub fn search_is_sound<D: Debugged>(run: &D)
    ensures asks { AsksTheBest (D.subject run.now) }
    ensures narrows { NarrowsTheFault (D.subject run.now) }
    ensures names { NamesTheAccused (D.subject run.now) }
    ensures finds { FindsTheFault (D.subject run.now) }
{
    // The subtree of a call is an interval.
    run.calls().are_numbered();
    reports_are_sound();
}

/// After whatever entries and lines the entries are those that the acts of the lines make: one stands if it stood at
/// the start or a line made it, and no line took it back.
pub fn entries_follow_lines()
    ensures { (s : Subject) → EntriesFollowLines s }
{}
