//! A source that was run, and what a dialog needs of it.
ghost use Rattle.std.specs.Prelude.{◌<◌, ◌≡◌, ◌≤◌, IfOk, length};
ghost use Rattle.std.{proofs.Props.props, specs.Coded.Coded-set};
ghost use Rattle.cell_names.specs.Finding.{finding_in, finding_of};
ghost use Rattle.question_text.specs.Cards.{recorded_in};
ghost use Rattle.debuggee.specs.Limits.{input_bytes, most_steps};
ghost use Rattle.debuggee.specs.Told.{AreTold, counts_once, history_of};

use crate::references::{read_reference, referred};
use crate::slicing::output_of_word;
use answer_book::BookFault;
use answer_reuse::{ClassFault, Classes};
use body_replay::{Trace, carries, replay};
use call_tree::{Calls, Mark};
use cell_names::{NameFinder, PlacedParts};
use cell_value::Steps;
use core_program::Program;
use dialog_replies::{Debugged, Reading, Referred, SliceOf};
use edge_ports::{Memory, Printer};
use optimal_query::Debug;
use output_slice::{Output, SliceFault, Slicing, has_output, leave_out, slice};
use pas_lexer::Tokens;
use program_run::History;
use question_text::{
    CardParts, Recorded, card_parts, cell_named, opened_calls, write_call, write_question,
    write_state, write_trace, write_tree,
};
use reference_oracle::Reference;
use std::alloc::{AllocError, Global};

/// A source that was run: its tokens, the program that they are, and its run.
#[derive(Drop)]
pub struct Debuggee<'a> {
    /// The tokens of the source, with its bytes.
    pub tokens: Tokens,
    /// The program that they are.
    pub program: Program,
    /// The bytes of the run's input.
    pub input: &'a [u8],
    /// What the run left: the calls, in order of entry; call 0 is the program.
    pub history: History,
    /// What is found by its place in the program, and in the heap of its run.
    pub names: NameFinder,
    // What is kept of the run is all that of the program's run. Its input is not too large; its budget has a step at
    // least, and not too many.
    pub ghost short: { length input.now ≤ input_bytes },
    pub ghost some_steps: { 0 < history.budget },
    pub ghost few_steps: { history.budget ≤ most_steps },
    pub ghost ran: { history ≡ history_of program input.now history.budget } by { Coded-set history-code _ _ },
    // There is a call, and of each call can be told what it did.
    pub ghost some: { 0 < length history.calls.calls },
    pub ghost told: { AreTold history.log history.input history.calls.calls } by { Prim.hlevel (props, counts_once) },
    // What is found is that of the program and of what was done.
    pub ghost named: { finding_in names ≡ finding_of program (length tokens.tokens) history.log },
}

impl<'a> Debuggee<'a> {
    ghost use Rattle.core_program.specs.Run.{run};
    ghost use Rattle.dialog_replies.specs.Prepared.{IsSliceOf};
    ghost use Rattle.debuggee.specs.{Execution.execution, Prepared.prepared_of, Slicing.output_named, Slicing.slice_in};

    /// The run, as the texts on its calls tell of it.
    fn recorded(&self) -> Recorded<'_>
        ensures recorded { recorded_in result ≡ (execution self.now).recorded }
        ensures names { finding_in result.names.now
            ≡ finding_of result.program.now result.tokens result.log.now }
        ensures told { AreTold result.log.now result.items.now result.calls.now.calls }
    {
        Recorded {
            program: &self.program,
            tokens: self.tokens.len(),
            names: &self.names,
            calls: &self.history.calls,
            log: &self.history.log,
            items: &self.history.input,
        }
    }

    /// The output of a call that a name names.
    fn output_named(&self, alloc: Global, call: u32, name: &[u8]) -> Result<Option<Output>, Memory>
        requires { call < length self.now.history.calls.calls }
        ensures { IfOk result (λ output. output ≡ output_named (execution self.now).recorded call name.now) }
    {
        let recorded = self.recorded();
        let parts = card_parts(alloc, &recorded, call)?;
        match cell_named(alloc, &recorded, call, &parts, name)? {
            Some(address) => Ok(Some(Output::Cell(address))),
            None => Ok(output_of_word(name)),
        }
    }

    /// The slice of an output of a call, if it has that.
    fn slice_of(&self, alloc: Global, call: u32, output: Output) -> Result<SliceOf<Slicing>, Memory>
        requires { call < length self.now.history.calls.calls }
        ensures { IfOk result (IsSliceOf (prepared_of (execution self.now)) call
            (slice_in self.now.history.calls.calls
            (run self.now.program self.now.input.now self.now.history.budget) call output)) }
    {
        // What is kept is that of the run of whole tables. That there is no such output is told first, before that
        // there is too much to go over.
        self.program.is_whole();
        let has = has_output(alloc, &self.program, &self.history, call, output)?;
        if !has {
            return Ok(SliceOf::NoOutput);
        }
        match slice(alloc, &self.program, &self.history, call, output) {
            Ok(slicing) => Ok(SliceOf::Slice(slicing)),
            Err(SliceFault::NoOutput) => Ok(SliceOf::NoOutput),
            Err(SliceFault::TooMany(_)) => Ok(SliceOf::TooMany),
            Err(SliceFault::Memory) => Err(AllocError),
        }
    }
}

impl<'a> Debugged for Debuggee<'a> {
    ghost use Rattle.debuggee.specs.{Execution.execution, Prepared.prepared_of, Subjects.subject_of};
    ghost use Rattle.debuggee.specs.References.{IsReading};

    type Card = CardParts;

    type Opened = PlacedParts;

    type Trace = Trace;

    type Slice = Slicing;

    type Reference = Reference;

    ghost subject = { λ debuggee. subject_of (execution debuggee) };

    ghost prepared = { λ debuggee. prepared_of (execution debuggee) };

    ghost tables = { λ debuggee reference. reference };

    ghost reads = { λ debuggee. IsReading };

    fn calls(&self) -> &Calls {
        &self.history.calls
    }

    fn name(&self, routine: u32) -> &[u8] {
        self.program.name(routine)
    }

    fn prepare_card(&self, alloc: Global, call: u32) -> Result<CardParts, Memory> {
        card_parts(alloc, &self.recorded(), call)
    }

    fn prepare_state(&self, alloc: Global, call: u32) -> Result<PlacedParts, Memory> {
        opened_calls(alloc, &self.history.calls, call)
    }

    fn prepare_trace(&self, alloc: Global, call: u32) -> Result<Trace, Memory> {
        let mut steps: Steps<()> = Steps::new();
        let trace = replay(alloc, &self.program, &self.history, call, &mut steps)?;
        Ok(trace)
    }

    fn prepare_slice(
        &self,
        alloc: Global,
        call: u32,
        name: &[u8],
    ) -> Result<SliceOf<Slicing>, Memory> {
        match self.output_named(alloc, call, name)? {
            Some(output) => self.slice_of(alloc, call, output),
            None => Ok(SliceOf::NoOutput),
        }
    }

    fn classes(&self, alloc: Global) -> Result<Option<Classes>, Memory> {
        match Classes::new(alloc, &self.program, &self.history) {
            Ok(classes) => Ok(Some(classes)),
            Err(ClassFault::TooMany(_)) => Ok(None),
            Err(ClassFault::Memory) => Err(AllocError),
        }
    }

    fn leave_out(
        &self,
        debug: &mut Debug,
        _call: u32,
        slice: &Slicing,
    ) -> Result<(u32, u32), BookFault> {
        let mut steps: Steps<()> = Steps::new();
        leave_out(debug, &self.history.calls, slice, &mut steps)
    }

    fn write_card<P: Printer>(&self, out: &mut P, call: u32, card: &CardParts) {
        write_call(out, &self.recorded(), call, card);
    }

    fn write_question<P: Printer>(&self, out: &mut P, call: u32, card: &CardParts) {
        write_question(out, &self.recorded(), call, card);
    }

    fn write_trace<P: Printer>(&self, out: &mut P, call: u32, trace: &Trace) {
        write_trace(out, &self.recorded(), call, &trace.events, trace.way);
    }

    fn write_state<P: Printer>(
        &self,
        out: &mut P,
        call: u32,
        name: &[u8],
        opened: &PlacedParts,
    ) -> bool {
        write_state(out, &self.recorded(), call, name, opened)
    }

    fn carries(&self, alloc: Global, call: u32, onto: u32) -> Result<bool, Memory> {
        carries(alloc, &self.program, &self.history, call, onto)
    }

    fn read_reference(&self, alloc: Global, bytes: &[u8]) -> Result<Reading<Reference>, Memory> {
        read_reference(alloc, bytes)
    }

    fn refer(&self, alloc: Global, reference: &Reference, call: u32) -> Result<Referred, Memory> {
        // There is such a call in the run of whole tables.
        self.program.is_whole();
        let verdict = reference.judge(alloc, &self.program, &self.history, call)?;
        Ok(referred(verdict))
    }

    fn write_tree<P: Printer>(&self, out: &mut P, marks: &[Mark]) {
        write_tree(out, &self.program, &self.history.calls, marks);
    }
}
