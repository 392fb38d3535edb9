//! The calls of a routine.
ghost use Rattle.std.specs.Prelude.{◌≡◌, ◌≤◌, length};
ghost use Rattle.call_tree.specs.Recording.{depths_of, routines_of};
ghost use Rattle.weight_lanes.specs.Answers.{IsNext};
ghost use Rattle.optimal_query.specs.Changed.{are_few};

use call_tree::Calls;
use weight_lanes::next_of;

/// The next call of a routine, from this call on.
pub(crate) fn next_call(calls: &Calls, from: usize, routine: u32) -> Option<usize>
    ensures { IsNext (routines_of calls.now.calls) from routine result }
{
    let routines = calls.routine_column();
    if from < routines.len() && routines[from] == routine {
        return Some(from);
    }
    next_of(routines, from, routine)
}

/// Whether the calls of a routine are few: together with the calls above each of them at most a
/// sixteenth as many as there are calls.
pub(crate) fn has_few(calls: &Calls, depths: &[u32], routine: u32) -> bool
    requires depths { depths.now ≡ depths_of calls.now.calls }
    requires few { length calls.now.calls ≤ 500000 }
    ensures { result ≡ are_few depths.now (routines_of calls.now.calls) routine }
{
    let most = calls.routine_column().len() / 16;
    let mut counted: usize = 0;
    let mut from = 0;
    'calls: while let Some(place) = next_call(calls, from, routine) {
        counted += depths[place] as usize + 1;
        if counted > most {
            return false;
        }
        from = place + 1;
    }
    true
}
