//! Laws of the search, each the contract of a call that does nothing.
ghost use Rattle.optimal_query.specs.{Laws.QuestionIsLeast, Laws.RegionIsLeft, Standing.SearchDependsOnWhatStands};
ghost use Rattle.optimal_query.specs.Accepted.{EntriesStandUnlessTakenBack, GivenEntriesStandUnlessTakenBack};
ghost use Rattle.optimal_query.specs.Laws.{AnswersLeaveWhatIsCounted, FoundIsAtFault, NothingWrongIsNothing};
ghost use Rattle.optimal_query.specs.Narrowing.{BuggyIsLeft, FoundIsBuggy};

/// The suspects and the doubts are all calls of the region.
pub fn region_is_left()
    ensures { RegionIsLeft }
{}

/// Of the suspects the answer `wrong` on one leaves the others of its subtree, `right` leaves those
/// outside it, and `unknown` leaves all others.
pub fn answers_leave_what_is_counted()
    ensures { AnswersLeaveWhatIsCounted }
{}

/// No suspect's worse answer leaves fewer suspects than that on the call which is asked about, and of
/// those that leave as many it has the least number. Each answer leaves fewer than there were.
pub fn question_is_least()
    ensures { QuestionIsLeast }
{}

/// A call that is found is judged wrong, and each of its children is right or trusted.
pub fn found_is_at_fault()
    ensures { FoundIsAtFault }
{}

/// Where nothing is wrong no call is judged wrong, nothing is left to ask, and nothing is in doubt.
pub fn nothing_wrong_is_nothing()
    ensures { NothingWrongIsNothing }
{}

/// If a call is accused, then whichever calls went wrong, as far as the marks allow, the accused, the
/// suspects and the doubts together hold one that went wrong though each of its children went right;
/// and a call that is found is one.
pub fn buggy_is_left()
    ensures among_those_left { BuggyIsLeft }
    ensures found { FoundIsBuggy }
{}

/// After any list of commands the marks, the state and the doubts are those that the answers which
/// stand then give over the columns of the run, whatever was said and taken back before.
pub fn search_depends_on_what_stands()
    ensures { SearchDependsOnWhatStands }
{}

/// After any list of commands an entry stands if an accepted command made it and no accepted command
/// took it back. Which commands are accepted depends on those before alone, and on how many calls and
/// routines there are.
pub fn entries_stand_unless_taken_back()
    ensures { EntriesStandUnlessTakenBack }
{}

/// So it is in a search that begins with whatever entries, as one that goes on with a saved session:
/// its entries are those that acts give which make each and take back what does not stand, and then
/// the accepted commands.
pub fn given_entries_stand_unless_taken_back()
    ensures { GivenEntriesStandUnlessTakenBack }
{}
