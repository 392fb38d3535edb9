//! The sums, counted anew.
ghost use Rattle.std.specs.Prelude.{◌*◌, ◌+◌, ◌<◌, ◌^◌, ◌≡◌, ◌≤◌, EachIndex, length, slice_index};
ghost use Rattle.std.specs.Option.{ForSome};
ghost use Rattle.call_tree.specs.Recording.{lasts_of};
ghost use Rattle.subtree_weights.specs.{Carried.raised, RunColumns.AreColumns, Sums.AreSums};

use crate::changes::weight_given;
use call_tree::{Calls, Mark};
use cell_value::Steps;

/// Takes these marks, and forgets the sums, with a step for each call.
pub(crate) fn start_anew<L>(
    kept: &mut [Mark],
    marks: &[Mark],
    weights: &mut [u32],
    unders: &mut [u32],
    steps: &mut Steps<L>,
)
    requires kept { length kept.old ≡ length marks.now }
    requires weighed { length weights.old ≡ length marks.now }
    requires summed { length unders.old ≡ length marks.now }
    ensures marks { kept.new ≡ marks.now }
    ensures no_weight { EachIndex weights.new (λ k. slice_index weights.new k ≡ 0) }
    ensures nothing_under { EachIndex unders.new (λ k. slice_index unders.new k ≡ 0) }
    ensures cost { steps.new ≡ steps.old + length marks.now }
{
    for place in 0..marks.len() {
        steps.tick();
        kept[place] = marks[place];
        weights[place] = 0;
        unders[place] = 0;
    }
}

/// Adds a weight to the sum of the parent, if there is one.
fn raise(unders: &mut [u32], parent: Option<u32>, weight: u32)
    requires inside { ForSome parent (λ above. above < length unders.old) }
    requires room { ForSome parent (λ above. slice_index unders.old above + weight < 2 ^ 32) }
    ensures { unders.new ≡ raised unders.old parent weight }
{
    if let Some(above) = parent {
        unders[above as usize] += weight;
    }
}

/// Counts the sums from the last call to the first, with a step for each call and one for its parent.
pub(crate) fn add_up<L>(
    calls: &Calls,
    parents: &[Option<u32>],
    marks: &[Mark],
    weights: &mut [u32],
    unders: &mut [u32],
    steps: &mut Steps<L>,
)
    requires columns { AreColumns parents.now (lasts_of calls.now.calls) marks.now weights.old unders.old }
    requires no_weight { EachIndex weights.old (λ k. slice_index weights.old k ≡ 0) }
    requires nothing_under { EachIndex unders.old (λ k. slice_index unders.old k ≡ 0) }
    ensures sums { AreSums parents.now marks.now (slice_index weights.new) (slice_index unders.new) }
    ensures not_fallen { steps.old ≤ steps.new }
    ensures cost { steps.new ≤ steps.old + 2 * length parents.now }
{
    let mut call = parents.len();
    'calls: while call > 0 {
        call -= 1;
        steps.tick();
        let weight = weight_given(marks[call], unders[call]);
        weights[call] = weight;
        steps.tick();
        raise(unders, parents[call], weight);
    }
}
