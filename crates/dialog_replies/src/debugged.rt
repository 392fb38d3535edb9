//! What the dialog needs of a run.
ghost use Rattle.std.specs.Prelude.{◌<◌, ◌≡◌, ◌≤◌, [], ℕ, IfOk, List, false, length};
ghost use Rattle.edge_ports.specs.Printouts.{Prints};
ghost use Rattle.core_program.specs.ProgramRows.{ProgramRows};
ghost use Rattle.optimal_query.specs.Search.{answers_in};
ghost use Rattle.dialog_replies.specs.{Kept.AreCallsOf, Kept.AreClassesOf, Kept.IsSearchOf, Prepared.IsSliceOf};
ghost use Rattle.dialog_replies.specs.{Prepared.Prepared, References.reading_by, References.reference_bytes};
ghost use Rattle.dialog_replies.specs.{Subject.Subject, Subject.calls_recorded, declared.references.Reading.Reading};
ghost use Rattle.dialog_replies.specs.Slices.{all_answer, entries_after_all, slice_answers};

use crate::references::{Reading, Referred};
use crate::slices::SliceOf;
use answer_book::BookFault;
use answer_reuse::Classes;
use call_tree::{Calls, Mark};
use edge_ports::{Memory, Printer};
use optimal_query::Debug;
use std::alloc::Global;

/// A run that is debugged: its calls, the routines of its program, and the texts on its calls. What takes memory for a
/// text is prepared before it is printed.
pub trait Debugged {
    /// What the card of a call is printed from, and the question about it.
    type Card: Drop;

    /// What the lines on the cells of a name are printed from.
    type Opened: Drop;

    /// What the trace of a call is printed from.
    type Trace: Drop;

    /// The slice of an output of a call: which outputs of the calls below had a part in it.
    type Slice: Drop;

    /// A right program that answers for the user.
    type Reference: Drop;

    /// The columns, names and texts.
    ghost subject: { Self → Subject };

    /// Of which calls what was prepared is.
    ghost prepared: { Self → Prepared Self.Card Self.Opened Self.Trace Self.Slice };

    /// The tables of a right program.
    ghost tables: { Self → Self.Reference → ProgramRows };

    /// What bytes are read as where they are to be a right program. It is the same for all runs.
    ghost reads: { Self → (bytes : List ℕ) → Reading ProgramRows → Type 0 };

    /// The calls of the run, of which there is one at least; all were left.
    fn calls(&self) -> &Calls
        ensures { AreCallsOf (subject self.now) result.now };

    /// The name of a routine, as its first heading spells it.
    fn name(&self, routine: u32) -> &[u8]
        ensures { result.now ≡ (subject self.now).name routine };

    /// Prepares the card of a call, and the question about it.
    fn prepare_card(&self, alloc: Global, call: u32) -> Result<Self::Card, Memory>
        requires { call < calls_recorded (subject self.now) }
        ensures { IfOk result ((prepared self.now).card call) };

    /// Prepares the lines on cells before and after a call.
    fn prepare_state(&self, alloc: Global, call: u32) -> Result<Self::Opened, Memory>
        requires { call < calls_recorded (subject self.now) }
        ensures { IfOk result ((prepared self.now).opened call) };

    /// Prepares the trace of a call.
    fn prepare_trace(&self, alloc: Global, call: u32) -> Result<Self::Trace, Memory>
        requires { call < calls_recorded (subject self.now) }
        ensures { IfOk result ((prepared self.now).trace call) };

    /// Prepares the slice of the output of a call that has this name.
    fn prepare_slice(
        &self,
        alloc: Global,
        call: u32,
        name: &[u8],
    ) -> Result<SliceOf<Self::Slice>, Memory>
        requires { call < calls_recorded (subject self.now) }
        ensures { IfOk result (IsSliceOf (prepared self.now) call ((subject self.now).slice call name.now)) };

    /// The classes of alike calls: none where there is too much to compare.
    fn classes(&self, alloc: Global) -> Result<Option<Classes>, Memory>
        ensures told { IfOk result (λ classes. classes ≡ (subject self.now).classes) }
        ensures each { IfOk result (AreClassesOf (subject self.now)) };

    /// Judges a call wrong, and then each call right, by rising number, that had no part in the output that is sliced:
    /// it stands below that call, nothing is said of it, and the slice has no output of it, but one of the call that
    /// made it. Answers the first entry and the last one. `Full` where there is no room for all of them, and then
    /// nothing is changed. It takes no memory.
    fn leave_out(
        &self,
        debug: &mut Debug,
        call: u32,
        slice: &Self::Slice,
    ) -> Result<(u32, u32), BookFault>
        requires a_call { call < calls_recorded (subject self.now) }
        requires search { IsSearchOf (subject self.now) debug.old }
        requires prepared { (prepared self.now).slice call slice.now }
        ensures answer { result ≡ all_answer debug.old.book.entries
            (slice_answers (subject self.now) (answers_in debug.old) ((prepared self.now).in_slice slice.now) call) }
        ensures entries { debug.new.book.entries ≡ entries_after_all debug.old.book.entries
            (slice_answers (subject self.now) (answers_in debug.old) ((prepared self.now).in_slice slice.now) call)
            result }
        ensures search { IsSearchOf (subject self.now) debug.new };

    /// Prints the card of a call.
    fn write_card<P: Printer>(&self, out: &mut P, call: u32, card: &Self::Card)
        requires a_call { call < calls_recorded (subject self.now) }
        requires prepared { (prepared self.now).card call card.now }
        ensures { Prints (P.printout out.old) (P.printout out.new) ((subject self.now).card call) };

    /// Prints the text of the question about a call, which says neither its number nor the call that made it.
    fn write_question<P: Printer>(&self, out: &mut P, call: u32, card: &Self::Card)
        requires a_call { call < calls_recorded (subject self.now) }
        requires prepared { (prepared self.now).card call card.now }
        ensures { Prints (P.printout out.old) (P.printout out.new) ((subject self.now).question call) };

    /// Prints the lines of the trace of a call, the last of which says how the call ended.
    fn write_trace<P: Printer>(&self, out: &mut P, call: u32, trace: &Self::Trace)
        requires a_call { call < calls_recorded (subject self.now) }
        requires prepared { (prepared self.now).trace call trace.now }
        ensures { Prints (P.printout out.old) (P.printout out.new) ((subject self.now).trace call) };

    /// Prints the lines on the cells of a name: what each held before a call and after it. It answers whether there is
    /// such a cell, and prints nothing where there is none.
    fn write_state<P: Printer>(
        &self,
        out: &mut P,
        call: u32,
        name: &[u8],
        opened: &Self::Opened,
    ) -> bool
        requires a_call { call < calls_recorded (subject self.now) }
        requires prepared { (prepared self.now).opened call opened.now }
        ensures lines { Prints (P.printout out.old) (P.printout out.new) ((subject self.now).state call name.now) }
        ensures has_cell { result ≡ (subject self.now).has_cell call name.now }
        ensures none { result ≡ false → (subject self.now).state call name.now ≡ [] };

    /// Whether the record of a call may be put in place of its run where another call was entered.
    fn carries(&self, alloc: Global, call: u32, onto: u32) -> Result<bool, Memory>
        requires call { call < calls_recorded (subject self.now) }
        requires onto { onto < calls_recorded (subject self.now) }
        ensures { IfOk result (λ carries. carries ≡ (subject self.now).carries call onto) };

    /// Reads a right program.
    fn read_reference(
        &self,
        alloc: Global,
        bytes: &[u8],
    ) -> Result<Reading<Self::Reference>, Memory>
        requires { length bytes.now ≤ reference_bytes }
        ensures { IfOk result (λ reading. reads self.now bytes.now (reading_by (tables self.now) reading)) };

    /// What a right program says of a call.
    fn refer(
        &self,
        alloc: Global,
        reference: &Self::Reference,
        call: u32,
    ) -> Result<Referred, Memory>
        requires { call < calls_recorded (subject self.now) }
        ensures { IfOk result (λ answer. answer
            ≡ (subject self.now).refer (tables self.now reference.now) call) };

    /// Prints a line on each call, in order of entry, with these marks: one for each call.
    fn write_tree<P: Printer>(&self, out: &mut P, marks: &[Mark])
        requires { length marks.now ≡ calls_recorded (subject self.now) }
        ensures { Prints (P.printout out.old) (P.printout out.new) ((subject self.now).marked marks.now) };
}
