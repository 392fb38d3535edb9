//! The pairs that were found so far, and where those of each call begin.
ghost use Rattle.std.specs.Prelude.{◌++◌, ◌<◌, ◌∷◌, ◌≡◌, ◌≤◌, [], ℕ, Bool, IfOk, List, OnOk, Some, length};
ghost use Rattle.core_program.specs.{Run.Call, Run.Result as RunResult, State.State};
ghost use Rattle.output_slice.specs.{Backward.wants_at, Backward.with_call, Backward.with_number, Firsts.AreFirsts};
ghost use Rattle.output_slice.specs.{Firsts.IsTogether, Firsts.first_at, KeptRuns.IsKept, KeptRuns.IsKeptRun};
ghost use Rattle.output_slice.specs.{Needed.AreAsked, Needed.with_output, declared.outputs.Output.Output as AnOutput};

use crate::needs::Needs;
use crate::outputs::Output;
use crate::pairs::{Pair, Pairs};
use crate::passes::pass_call;
use crate::used::Gathered;
use cell_value::Memory;
use program_run::History;
use std::alloc::Global;

/// The pairs that were found so far.
#[derive(Drop)]
pub(crate) struct Found {
    /// The pairs; those of one call stand together.
    pub(crate) pairs: Pairs,
    /// The place of the first pair of each call of the run, if it has one.
    pub(crate) firsts: Vec<Option<u32>>,
}

/// One more output of a call is wanted.
fn want(gathered: &mut Gathered, needs: &mut Needs, output: Output)
    ensures { (wants : AnOutput → Bool) → AreAsked wants gathered.old needs.old
        → AreAsked (with_output wants output) gathered.new needs.new }
{
    match output {
        Output::Cell(addr) => needs.cells.insert(addr),
        Output::Gives => gathered.gives = true,
        Output::Takes => gathered.takes = true,
        Output::Makes => gathered.makes = true,
        Output::Result => {}
        Output::Way => {}
    }
}

impl Found {
    /// The pair alone that is sliced, in a run of this many calls.
    pub(crate) fn new(alloc: Global, calls: u32, pair: Pair) -> Result<Found, Memory>
        requires a_call { pair.0 < calls }
        ensures pairs { IfOk result (λ found. found.pairs ≡ pair ∷ []) }
        ensures places { IfOk result (λ found. length found.firsts.items ≡ calls) }
        ensures firsts { IfOk result (λ found. AreFirsts found.pairs found.firsts.items) }
    {
        let pairs = Pairs::new(alloc, pair)?;
        let mut firsts = vec![in alloc; None; calls as usize]?;
        firsts[pair.0 as usize] = Some(0);
        Ok(Found { pairs, firsts })
    }

    /// Notes that the first pair of a call stands at this place, if there are any from there on and it had none before.
    pub(crate) fn note_first(&mut self, call: u32, place: u32)
        requires a_place { call < length self.old.firsts.items }
        ensures pairs { self.new.pairs ≡ self.old.pairs }
        ensures places { length self.new.firsts.items ≡ length self.old.firsts.items }
        ensures firsts { (before : List (ℕ × AnOutput)) (us : List AnOutput)
            → self.old.pairs ≡ before ++ with_number call us → length before ≡ place
            → AreFirsts before self.old.firsts.items → AreFirsts self.old.pairs self.new.firsts.items }
    {
        if place >= self.pairs.len() {
            return;
        }
        match self.firsts[call as usize] {
            Some(_) => {}
            None => self.firsts[call as usize] = Some(place),
        }
    }

    /// Wants the outputs of a call whose pairs stand together from a place on.
    fn want_all(&self, call: u32, first: u32, needs: &mut Needs) -> Gathered
        requires inside { first ≤ length self.now.pairs }
        ensures { IsTogether self.now.pairs call first
            → AreAsked (wants_at call self.now.pairs) result needs.new }
    {
        needs.clear();
        let mut gathered = Gathered {
            gives: false,
            takes: false,
            makes: false,
        };
        for i in first..self.pairs.len() {
            match self.pairs.output_of(i, call) {
                Some(output) => want(&mut gathered, needs, output),
                None => return gathered,
            }
        }
        gathered
    }

    /// Adds what the outputs of a call use that were found.
    pub(crate) fn follow(
        &mut self,
        alloc: Global,
        run: &History,
        call: u32,
        needs: &mut Needs,
    ) -> Result<(), Memory>
        requires kept { IsKept run.now }
        requires a_call { call < length run.now.calls.calls }
        requires places { length self.old.firsts.items ≡ length run.now.calls.calls }
        requires firsts { AreFirsts self.old.pairs self.old.firsts.items }
        ensures pairs { OnOk result ((r : RunResult State Call) → IsKeptRun run.now r
            → ((place : ℕ) → first_at call self.old.pairs ≡ Some place → IsTogether self.old.pairs call place)
            → self.new.pairs ≡ with_call r call self.old.pairs) }
        ensures firsts { OnOk result (AreFirsts self.new.pairs self.new.firsts.items) }
        ensures places { OnOk result (length self.new.firsts.items ≡ length self.old.firsts.items) }
    {
        match self.firsts[call as usize] {
            None => Ok(()),
            Some(first) => {
                let gathered = self.want_all(call, first, needs);
                pass_call(alloc, run, call, gathered, needs, self)?;
                Ok(())
            }
        }
    }
}
