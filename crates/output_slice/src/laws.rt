//! Laws of slices, each the contract of a call that does nothing.

ghost use Rattle.output_slice.specs.{Kept.Kept, Kept.MetAlike, SliceLists.SlicesAreLists};
ghost use Rattle.output_slice.specs.WrongOutputs.{Narrowing, NarrowingByMarks};

use optimal_query::laws::buggy_is_left;

/// The work of a call stays the same, as far as one output goes, where only what it does not use of the calls that it
/// makes is changed; and a call of which something is used is met where all that it read is as it was, so that it would
/// do again what is recorded of it.
pub fn outputs_are_kept()
    ensures kept { Kept }
    ensures met { MetAlike }
{}

/// A wrong output of the accused leads to a call that has a wrong output though all that this uses is right. That call
/// is the accused, a suspect or a doubt: after any answers, and by any marks, one for each call.
pub fn wrong_outputs_narrow()
    ensures after_answers { Narrowing }
    ensures by_marks { NarrowingByMarks }
{
    // A call that is buggy as a whole is left.
    buggy_is_left();
}

/// The slice of an output is a list, which one pass over the calls gives.
pub fn slices_are_lists()
    ensures { SlicesAreLists }
{}
