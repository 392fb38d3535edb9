//! The weights of calls, kept as their marks change.
ghost use Rattle.std.specs.Prelude.{◌*◌, ◌+◌, ◌<◌, ◌≡◌, ◌≤◌, [], IfOk, Some, length, slice_get, slice_index};
ghost use Rattle.call_tree.specs.Recording.{parents_of};
ghost use Rattle.subtree_weights.specs.{RunColumns.columns_of, Weighed.with_marks};
ghost use Rattle.subtree_weights.specs.Weighed.{call_count, under_in, unjudged, weight_in, weights_in, with_mark};

use crate::changes::{Change, carry, weight_given};
use crate::counting::{add_up, start_anew};
use call_tree::{Calls, Mark};
use cell_value::{Memory, Steps};
use std::alloc::Global;
use std::marker::Model;
use std::snapshot::Snapshot;

/// The weight of each call of a run: how many suspects stand in its subtree. Clauses see the columns
/// of the calls and their marks, on which the weights depend.
///
/// No call but `new` takes memory. A step is one visit of the kept columns at one call.
#[derive(Drop)]
pub struct Weights {
    calls: Snapshot<Calls>,
    parents: Vec<Option<u32>>,
    marks: Vec<Mark>,
    weights: Vec<u32>,
    unders: Vec<u32>,
}

impl Model for Weights {
    ghost use Rattle.subtree_weights.specs.Weighed.{Weighed};

    ghost Value = { Weighed };

    ghost use Rattle.subtree_weights.specs.Kept.{IsKept, weighed_of};

    ghost view = { weighed_of };

    ghost invariant = { IsKept };
}

/// The parent of each call.
fn parent_column(alloc: Global, calls: &Calls) -> Result<Vec<Option<u32>>, Memory>
    ensures { IfOk result (λ column. column.items ≡ parents_of calls.now.calls) }
{
    let mut column = Vec::with_capacity(alloc, calls.len() as usize)?;
    for call in 0..calls.len() {
        column.push(calls.call(call).parent)?;
    }
    Ok(column)
}

impl Weights {
    /// The weights of these calls, of which there is one at least and all were left, while nothing is
    /// said of them.
    pub fn new(alloc: Global, calls: &Calls) -> Result<Weights, Memory>
        requires a_call { 0 < length calls.now.calls }
        requires all_left { calls.now.open_calls ≡ [] }
        ensures { IfOk result (λ weights. weights ≡ unjudged calls.now.calls) }
    {
        calls.are_numbered();
        let count = calls.len() as usize;
        let parents = parent_column(alloc, calls)?;
        let marks = vec![in alloc; Mark::Unjudged; count]?;
        let mut weights = vec![in alloc; 0; count]?;
        let mut unders = vec![in alloc; 0; count]?;
        let mut steps: Steps<()> = Steps::new();
        add_up(
            calls,
            &parents,
            &marks,
            &mut weights,
            &mut unders,
            &mut steps,
        );
        Ok(Weights {
            calls: Snapshot::of(calls),
            parents,
            marks,
            weights,
            unders,
        })
    }

    /// Changes the mark of one call, which is marked `before`. The calls are those of `new`. It takes a
    /// step for the call, and one for each call above it up to the first of which the weight stays, as
    /// that of a clear call does.
    pub fn changed<L>(
        &mut self,
        calls: &Calls,
        call: u32,
        before: Mark,
        after: Mark,
        steps: &mut Steps<L>,
    )
        requires those_calls { columns_of calls.now.calls ≡ self.old.columns }
        requires a_call { call < call_count self.old }
        requires in_force { slice_get self.old.marks call ≡ Some before }
        ensures changed { self.new ≡ with_mark self.old call after }
        ensures not_fallen { steps.old ≤ steps.new }
        ensures cost { steps.new ≤ steps.old + slice_index self.old.columns.depth call + 1 }
    {
        let place = call as usize;
        steps.tick();
        let under = self.unders[place];
        let change = Change {
            call,
            before: weight_given(before, under),
            after: weight_given(after, under),
        };
        self.marks[place] = after;
        self.weights[place] = change.after;
        carry(
            calls,
            &self.parents,
            &self.marks,
            &mut self.weights,
            &mut self.unders,
            change,
            steps,
        );
    }

    /// Takes these marks in place of all, one for each call. The calls are those of `new`.
    pub fn recount<L>(&mut self, calls: &Calls, marks: &[Mark], steps: &mut Steps<L>)
        requires those_calls { columns_of calls.now.calls ≡ self.old.columns }
        requires each { length marks.now ≡ call_count self.old }
        ensures recounted { self.new ≡ with_marks self.old marks.now }
        ensures not_fallen { steps.old ≤ steps.new }
        ensures cost { steps.new ≤ steps.old + 3 * call_count self.old }
    {
        start_anew(
            &mut self.marks,
            marks,
            &mut self.weights,
            &mut self.unders,
            steps,
        );
        add_up(
            calls,
            &self.parents,
            &self.marks,
            &mut self.weights,
            &mut self.unders,
            steps,
        );
    }

    /// The weight of a call: how many suspects stand in its subtree, and 0 for a clear call.
    pub fn weight(&self, call: u32) -> u32
        requires a_call { call < call_count self.now }
        ensures { result ≡ weight_in self.now call }
    {
        self.weights[call as usize]
    }

    /// How many suspects stand below a call: the sum of the weights of its children.
    pub fn under(&self, call: u32) -> u32
        requires a_call { call < call_count self.now }
        ensures { result ≡ under_in self.now call }
    {
        self.unders[call as usize]
    }

    /// The weight of each call, in order of entry.
    pub fn column(&self) -> &[u32]
        ensures { result.now ≡ weights_in self.now }
    {
        &self.weights
    }
}
