//! Laws of the definitions, each the contract of a call that does nothing.

ghost use Rattle.core_program.specs.RunLaws.{ActsAreCountable, ActsKeepSound, BodiesRepeat, CallsAreCountable};
ghost use Rattle.core_program.specs.RunLaws.{CallsAreCounted, CallsKeepSound, PartsAreCountable, PartsKeepSound};
ghost use Rattle.core_program.specs.RunLaws.{RecordsStand, RunsAreCountable, RunsBeginSound, RunsKeepItems};
ghost use Rattle.core_program.specs.RunLaws.{RunsKeepSound};

/// The states of runs are sound: the first one is, and acts, parts of a program and calls keep a sound state sound. The
/// items of the input stay the same.
pub fn states_are_sound()
    ensures first { RunsBeginSound }
    ensures acts { ActsKeepSound }
    ensures parts { PartsKeepSound }
    ensures calls { CallsKeepSound }
    ensures runs { RunsKeepSound }
    ensures items { RunsKeepItems }
{}

/// The effect of what is done in a run can be counted: what acts, parts of a program and calls show from a sound state
/// is countable, where the items of the input can be counted.
pub fn touches_are_countable()
    ensures acts { ActsAreCountable }
    ensures parts { PartsAreCountable }
    ensures calls { CallsAreCountable }
    ensures runs { RunsAreCountable }
{}

/// What each call of a run did stands in the log from the call's mark on, and can be counted, where the input has at
/// most 4,194,304 bytes.
pub fn calls_are_counted()
    ensures { CallsAreCounted }
{}

/// The own work of each call of a run, done again from its recorded entry with the recorded effects of the calls that
/// it made, meets these calls in order and no others, each in its recorded entry state, and comes to the recorded way
/// out, result and exit state.
pub fn bodies_repeat()
    ensures { BodiesRepeat }
{}

/// The record of each call of a run stands for the call from each sound state that agrees with it: the call from there
/// has the recorded way out, result and effect, and its exit state is what the effect makes of the state.
pub fn records_stand()
    ensures { RecordsStand }
{}
