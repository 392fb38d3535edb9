//! Laws of the definitions, each the contract of a call that does nothing.

ghost use Rattle.core_program.specs.Laws.{DepthIsEnough, EveryCallRuns, EveryProgramRuns, EveryRunHasACall};
ghost use Rattle.core_program.specs.Laws.{FirstHasNoParent, LastIsACall, MarksTellTheLog, OthersHaveAParent};
ghost use Rattle.core_program.specs.Laws.{SubtreeIsInterval};

/// Every program with whole tables has a run with every input and budget.
pub fn every_program_runs()
    ensures { EveryProgramRuns }
{}

/// Every call of a routine of such a program has a result, from every state.
pub fn every_call_runs()
    ensures { EveryCallRuns }
{}

/// Where parts and calls may stand deeper in one another, the run is the same.
pub fn depth_is_enough()
    ensures { DepthIsEnough }
{}

/// Every run has a first call.
pub fn every_run_has_a_call()
    ensures { EveryRunHasACall }
{}

/// The calls of each run make a tree, which the numbers of its calls tell.
pub fn numbers_tell_the_tree()
    ensures subtree { SubtreeIsInterval }
    ensures last { LastIsACall }
    ensures first { FirstHasNoParent }
    ensures others { OthersHaveAParent }
{}

/// The mark of each call of a run says where its part of the log begins.
pub fn marks_tell_the_log()
    ensures { MarksTellTheLog }
{}
