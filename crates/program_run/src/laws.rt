//! Laws of what is kept of a run, each the contract of a call that does nothing.

ghost use Rattle.program_run.specs.Told.{CallsAreTold};

/// Of each call that is kept of a run with an input of at most 4,194,304 bytes: from the mark at its entry to that at
/// its exit the log has a part, the effect of that part can be counted, and the input has the items that the call took.
pub fn calls_are_told()
    ensures { CallsAreTold }
{}
