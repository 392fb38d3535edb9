//! Laws of the transcript, the contract of calls that do nothing.
ghost use Rattle.body_replay.specs.Laws.{BodiesGiveTheirExits};
ghost use Rattle.ask_session.specs.Laws.{AsksTheBest, FindsTheFault, NamesTheAccused, NarrowsTheFault};
ghost use Rattle.ask_session.specs.LineActs.{EntriesFollowLines};
ghost use Rattle.debug_cli.specs.Headline.{VerdictsAreFound};
ghost use Rattle.debug_cli.specs.Laws.{InEachRun, OneReading, OneRun, OneTranscript};

use ask_session::{entries_follow_lines, reports_are_sound};
use body_replay::bodies_give_their_exits;
use code_checker::one_text_one_program;
use core_program::numbers_tell_the_tree;
use pas_lexer::lexing::division_laws;

/// A source is one program at most, and has one run.
pub fn one_run()
    ensures { OneRun }
{
    division_laws();
    one_text_one_program();
}

/// Bytes are one right program at most; or they are none, for one reason at one place.
pub fn one_reading()
    ensures { OneReading }
{
    division_laws();
    one_text_one_program();
}

/// What is printed follows from whether each file was stored that lines ask to store, and from what was fetched for
/// those that ask for a right program: bytes or nothing.
pub fn one_transcript()
    ensures { OneTranscript }
{
    one_reading();
}

/// What is asked is best, what is found is at fault, and once a call is accused one of those that are left is buggy, in
/// the run of each program.
pub fn search_is_sound()
    ensures asks { InEachRun AsksTheBest }
    ensures narrows { InEachRun NarrowsTheFault }
    ensures names { InEachRun NamesTheAccused }
    ensures finds { InEachRun FindsTheFault }
{
    // The subtree of a call is an interval.
    numbers_tell_the_tree();
    reports_are_sound();
}

/// Which entries stand after lines, whatever entries the session began with, in the run of each program.
pub fn entries_stand()
    ensures { InEachRun EntriesFollowLines }
{
    entries_follow_lines();
}

/// The body of each call of the run of each program, run from its recorded entry with the recorded effects of the calls
/// that it makes, gives exactly the call's recorded exit.
pub fn exits_are_given()
    ensures { BodiesGiveTheirExits }
{
    bodies_give_their_exits();
}

/// Each call that is found, in the run of each program, is judged wrong, the calls that it made are right or trusted,
/// and its body gives what was recorded of it.
pub fn verdicts_are_found()
    ensures { VerdictsAreFound }
{
    search_is_sound();
    exits_are_given();
}
