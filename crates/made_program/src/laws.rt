//! Laws of the search that is answered with no one asked, each the contract of a call that does nothing.
ghost use Rattle.std.specs.Prelude.{◌<◌};
ghost use Rattle.dialog_replies.specs.Subject.{calls_recorded};
ghost use Rattle.made_program.specs.Laws.{EndsAtTheFault, FaultIsFound};

use dialog_replies::Debugged;
use optimal_query::laws::{buggy_is_left, nothing_wrong_is_nothing, question_is_least};

/// Of fewer than 100,000 calls, all in the subtree of call 0, the call at fault is found.
pub fn fault_is_found()
    ensures { FaultIsFound }
{
    // Each answer leaves fewer suspects.
    question_is_least();
    // Call 0 is wrong, so that a call is accused.
    nothing_wrong_is_nothing();
    // The one that is found went wrong, and each of its children went right.
    buggy_is_left();
}

/// The same, of a run.
pub fn run_finds_the_fault<D: Debugged>(run: &D)
    ensures { calls_recorded (D.subject run.now) < 100000 → EndsAtTheFault (D.subject run.now) }
{
    // All calls of a run stand in the subtree of call 0.
    run.calls().are_numbered();
    fault_is_found();
}
