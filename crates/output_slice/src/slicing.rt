//! The slice of an output.
ghost use Rattle.std.specs.Prelude.{◌<◌, ◌≡◌, IfOk, Some, length};
ghost use Rattle.std.specs.List.{slice_get};
ghost use Rattle.core_program.specs.{Run.Call, Run.Marked, Run.Result as RunResult, State.State};
ghost use Rattle.output_slice.specs.Backward.{slice_list, some_at};
ghost use Rattle.output_slice.specs.KeptRuns.{IsKept as IsKeptHistory, IsKeptRun};

use crate::found::Found;
use crate::needs::Needs;
use crate::outputs::Output;
use crate::pairs::Pairs;
use cell_value::Memory;
use program_run::History;
use std::alloc::Global;
use std::marker::Model;

/// The slice of an output of a call: which outputs of which calls it may come from.
#[derive(Debug, Drop)]
pub struct Slicing {
    /// The pairs; those of one call stand together.
    pairs: Pairs,
    /// The place of the first pair of each call of the run, if it has one.
    firsts: Vec<Option<u32>>,
}

impl Model for Slicing {
    ghost use Rattle.output_slice.specs.SlicePairs.{Sliced};

    ghost Value = { Sliced };

    ghost use Rattle.output_slice.specs.SlicingKept.{IsKept, slice_of};

    ghost view = { slice_of };

    ghost invariant = { IsKept };
}

impl Slicing {
    /// The slice of an output that a call has.
    pub(crate) fn of(
        alloc: Global,
        run: &History,
        call: u32,
        output: Output,
    ) -> Result<Slicing, Memory>
        requires kept { IsKeptHistory run.now }
        requires a_call { call < length run.now.calls.calls }
        ensures pairs { IfOk result (λ slice. (r : RunResult State Call) → IsKeptRun run.now r
            → slice.pairs ≡ slice_list r call output) }
        ensures calls { IfOk result (λ slice. slice.calls ≡ length run.now.calls.calls) }
    {
        let count = run.calls.len();
        let mut found = Found::new(alloc, count, (call, output))?;
        let mut needs = Needs::new(alloc)?;
        for number in call..count {
            found.follow(alloc, run, number, &mut needs)?;
        }
        let Found { pairs, firsts } = found;
        Ok(Slicing { pairs, firsts })
    }

    /// The number of pairs: one at least, and at most 50,000,000.
    pub fn len(&self) -> u32
        ensures { result ≡ length self.now.pairs }
    {
        self.pairs.len()
    }

    /// The pair at place `i`, counted from 0, which is below their number. The first is the output that is sliced.
    pub fn pair(&self, i: u32) -> (u32, Output)
        requires inside { i < length self.now.pairs }
        ensures found { slice_get self.now.pairs i ≡ Some result }
    {
        self.pairs.at(i)
    }

    /// Whether an output of this call of the run is in the slice.
    pub fn has(&self, call: u32) -> bool
        requires a_call { call < self.now.calls }
        ensures { result ≡ some_at call self.now.pairs }
    {
        self.firsts[call as usize].is_some()
    }
}
