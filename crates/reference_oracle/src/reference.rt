//! A reference program, and what it says of a call.

ghost use Rattle.std.specs.Prelude.{◌<◌, ◌≡◌, ◌≤◌, ℕ, IfErr, IfOk, List, length};
ghost use Rattle.pas_lexer.specs.Limits.{source_bytes};
ghost use Rattle.core_program.specs.RunLaws.{most_bytes};
ghost use Rattle.program_run.specs.History.{IsOfRun};
ghost use Rattle.body_replay.specs.Carried.{OfCall};
ghost use Rattle.reference_oracle.specs.{Fitting.asked, Verdicts.Says, Verdicts.verdict_on};
ghost use Rattle.reference_oracle.specs.Reading.{IsSourceOf, IsUnreadReference};

use crate::asked::{answer_to, fit_of};
use crate::faults::RefFault;
use crate::laws::verdicts_are_tested;
use crate::reading::read_program;
use crate::same::verdict_by;
use crate::verdicts::Verdict;
use cell_value::Memory;
use core_program::Program;
use program_run::History;
use std::alloc::Global;
use std::marker::Model;

/// A program that answers for the user. Clauses see its tables.
#[derive(Drop)]
pub struct Reference {
    program: Program,
}

impl Model for Reference {
    ghost use Rattle.core_program.specs.{ProgramRows.ProgramRows, WholeTables.WholeTables};

    ghost Value = { ProgramRows };

    ghost view = { λ r. r.program };

    ghost invariant = { λ r. WholeTables r.program };
}

impl Reference {
    /// The reference whose source these bytes are, at most 1,048,576 of them. They are refused as the source of the
    /// program that is debugged is: by the lexer, else by the parser, else by the check.
    pub fn read(alloc: Global, bytes: &[u8]) -> Result<Reference, RefFault>
        requires { length bytes.now ≤ source_bytes }
        ensures found { IfOk result (IsSourceOf bytes.now) }
        ensures refused { IfErr result (IsUnreadReference bytes.now) }
    {
        let program = read_program(alloc, bytes)?;
        program.is_whole();
        Ok(Reference { program })
    }

    /// What the reference says of a call of the run of a program. The run is that of the program with an input of at
    /// most 4,194,304 bytes and a budget of 1 to 4,000,000 steps. The routine of the same name is called from what the
    /// call found of the variables that both programs have, with the rest of the input and the whole budget.
    pub fn judge(
        &self,
        alloc: Global,
        program: &Program,
        run: &History,
        call: u32,
    ) -> Result<Verdict, Memory>
        requires run { (input : List ℕ) × (length input ≤ most_bytes)
            × IsOfRun program.now input run.now.budget run.now }
        requires some_steps { 0 < run.now.budget }
        requires budget { run.now.budget ≤ 4000000 }
        requires a_call { call < length run.now.calls.calls }

        // It is unfit exactly where the call does not fit; there is no answer exactly where the reference's steps were
        // spent or it reached a limit; and else it is right exactly where the reference did the same.
        ensures says { IfOk result (λ verdict. OfCall program.now run.now call
            (λ c below. Says (asked program.now self.now c run.now.budget) verdict)) }
        // The same by the test.
        ensures tested { IfOk result (λ verdict. OfCall program.now run.now call
            (λ c below. verdict ≡ verdict_on (asked program.now self.now c run.now.budget))) }
    {
        program.is_whole();
        self.program.is_whole();
        // The test of verdicts says the same.
        verdicts_are_tested();
        let row = run.calls.call(call);
        let found = fit_of(alloc, program, &self.program, run, row)?;
        match found {
            None => Ok(Verdict::Unfit),
            Some(fit) => {
                let answer = answer_to(alloc, &self.program, run, row, &fit)?;
                Ok(verdict_by(row, &fit.found, &answer, &fit.places))
            }
        }
    }
}
