//! The change of a weight, and how it moves up.
ghost use Rattle.std.specs.Prelude.{◌+◌, ◌<◌, ◌≡◌, ◌≤◌, length, slice_index, slice_set};
ghost use Rattle.call_tree.specs.{Nesting.IsRooted, Recording.depths_of, Recording.lasts_of};
ghost use Rattle.subtree_weights.specs.{RunColumns.AreColumns, Sums.AreSums, Weights.weight_by};
ghost use Rattle.subtree_weights.specs.Carried.{AreSumsBut, change_above, goes_on_to, sum_after};

use call_tree::{Calls, Mark};
use cell_value::Steps;

/// The weight of a call before and after a change.
#[derive(Clone, Copy)]
pub(crate) struct Change {
    pub call: u32,
    pub before: u32,
    pub after: u32,
}

/// The weight of a call with this mark, under which that many suspects stand.
pub(crate) fn weight_given(mark: Mark, under: u32) -> u32
    requires room { under < 4294967295 }
    ensures { result ≡ weight_by mark under }
{
    match mark {
        Mark::Right | Mark::Trusted => 0,
        Mark::Unjudged => under + 1,
        Mark::Wrong | Mark::Unknown => under,
    }
}

/// The call that the change goes on to. None where the weight stays, as that of a clear call does.
fn next_above(parents: &[Option<u32>], change: Change) -> Option<u32>
    requires a_call { change.call < length parents.now }
    ensures { result ≡ goes_on_to parents.now change }
{
    if change.before == change.after {
        None
    } else {
        parents[change.call as usize]
    }
}

/// Puts the change into the sum of the call above, and answers how that one's weight changes.
fn lift(
    marks: &[Mark],
    weights: &mut [u32],
    unders: &mut [u32],
    change: Change,
    above: u32,
) -> Change
    requires marked { above < length marks.now }
    requires weighed { above < length weights.old }
    requires summed { above < length unders.old }
    requires a_part { change.before ≤ slice_index unders.old above }
    requires room { sum_after unders.old change above < 4294967295 }
    ensures sum { unders.new ≡ slice_set unders.old above (sum_after unders.old change above) }
    ensures weight { weights.new ≡ slice_set weights.old above result.after }
    ensures change { result ≡ change_above marks.now weights.old unders.old change above }
{
    let place = above as usize;
    let under = unders[place] - change.before + change.after;
    let before = weights[place];
    let after = weight_given(marks[place], under);
    unders[place] = under;
    weights[place] = after;
    Change {
        call: above,
        before,
        after,
    }
}

/// Carries the change of a weight up, with a step for each call that it goes on to.
pub(crate) fn carry<L>(
    calls: &Calls,
    parents: &[Option<u32>],
    marks: &[Mark],
    weights: &mut [u32],
    unders: &mut [u32],
    first: Change,
    steps: &mut Steps<L>,
)
    requires columns { AreColumns parents.now (lasts_of calls.now.calls) marks.now weights.old unders.old }
    requires rooted { IsRooted parents.now (depths_of calls.now.calls) }
    requires but_one { AreSumsBut parents.now marks.now weights.old unders.old first }
    ensures sums { AreSums parents.now marks.now (slice_index weights.new) (slice_index unders.new) }
    ensures not_fallen { steps.old ≤ steps.new }
    ensures cost { steps.new ≤ steps.old + slice_index (depths_of calls.now.calls) first.call }
{
    let mut change = first;
    'up: while let Some(above) = next_above(parents, change) {
        steps.tick();
        change = lift(marks, weights, unders, change, above);
    }
}
