//! The replies to changes of the book.
ghost use Rattle.std.specs.Prelude.{◌++◌, ◌<◌, ◌≡◌, IfOk, decimal};
ghost use Rattle.answer_book.specs.Answers.{take_back_answer, take_back_last_answer};
ghost use Rattle.optimal_query.specs.Search.{answers_in};
ghost use Rattle.dialog_replies.specs.{Kept.IsDialogOf, Kept.said_in_dialog, Replies.trust_outcome};
ghost use Rattle.dialog_replies.specs.{Slices.slice_answers, Subject.book_of, Subject.calls_recorded};
ghost use Rattle.dialog_replies.specs.Prepared.{IsReply, IsText, outcome_with, text_of_reply};
ghost use Rattle.dialog_replies.specs.Replies.{back_text, book_fault_text, entries_line, entries_text, entry_text};
ghost use Rattle.dialog_replies.specs.Replies.{judges, notes_entry, says_all, takes_back, takes_back_last};

use crate::calls::write_number;
use crate::debugged::Debugged;
use crate::dialogs::Dialog;
use crate::instructions::NoteText;
use crate::reply::Reply;
use crate::reports::report_now;
use answer_book::{BookFault, Judgement};
use cell_value::Steps;
use edge_ports::{Bytes, Memory};
use std::alloc::Global;

/// What the steps of the search are counted by.
struct Uncounted;

/// A text of these parts: words, a number, and words.
pub fn numbered_text(
    alloc: Global,
    before: &[u8],
    number: u32,
    after: &[u8],
) -> Result<Bytes, Memory>
    ensures { IfOk result (λ text. text ≡ before.now ++ decimal number ++ after.now) }
{
    let mut text = Bytes::new(alloc);
    text.append(before)?;
    write_number(&mut text, number)?;
    text.append(after)?;
    Ok(text)
}

/// Bytes of their own with this text.
pub fn text_of(alloc: Global, text: &[u8]) -> Result<Bytes, Memory>
    ensures { IfOk result (λ bytes. bytes ≡ text.now) }
{
    let mut bytes = Bytes::new(alloc);
    bytes.append(text)?;
    Ok(bytes)
}

/// The reply to a change that is refused.
pub fn refusal(alloc: Global, fault: BookFault) -> Result<Bytes, Memory>
    ensures { IfOk result (λ text. text ≡ book_fault_text fault) }
{
    match fault {
        BookFault::NoCall(call) => numbered_text(alloc, b"no call ", call, b"\n"),
        BookFault::NoRoutine(routine) => numbered_text(alloc, b"no routine #", routine, b"\n"),
        BookFault::NotStanding(entry) => {
            numbered_text(alloc, b"entry ", entry, b" does not stand\n")
        }
        BookFault::NothingStanding => text_of(alloc, b"nothing stands\n"),
        BookFault::Full => text_of(alloc, b"book is full\n"),
    }
}

/// The same as a reply.
pub fn refused<C, O, T>(alloc: Global, fault: BookFault) -> Result<Reply<C, O, T>, Memory>
    ensures { IfOk result (IsText (book_fault_text fault)) }
{
    Ok(Reply::Text(refusal(alloc, fault)?))
}

/// A reply of a text alone.
pub fn text_reply<C, O, T>(alloc: Global, text: &[u8]) -> Result<Reply<C, O, T>, Memory>
    ensures { IfOk result (IsText text.now) }
{
    Ok(Reply::Text(text_of(alloc, text)?))
}

/// The reply to a new entry of this number: its number, and a report.
fn entry_made<D: Debugged>(
    alloc: Global,
    run: &D,
    dialog: &mut Dialog,
    number: u32,
) -> Result<Reply<D::Card, D::Opened, D::Trace>, Memory>
    requires dialog { IsDialogOf (D.subject run.now) dialog.old }
    ensures text { IfOk result (λ reply. text_of_reply (D.subject run.now) (said_in_dialog dialog.old) reply
        ≡ entry_text (D.subject run.now) (said_in_dialog dialog.old) number) }
    ensures said { said_in_dialog dialog.new ≡ said_in_dialog dialog.old }
    ensures prepared { IfOk result (IsReply (D.prepared run.now) (calls_recorded (D.subject run.now))) }
    ensures dialog { IsDialogOf (D.subject run.now) dialog.new }
{
    let text = numbered_text(alloc, b"entry ", number, b"\n")?;
    let report = report_now(alloc, run, dialog)?;
    Ok(Reply::Reported(text, report))
}

/// The reply to an entry of this number that was taken back: its number, and a report.
fn taken_back<D: Debugged>(
    alloc: Global,
    run: &D,
    dialog: &mut Dialog,
    number: u32,
) -> Result<Reply<D::Card, D::Opened, D::Trace>, Memory>
    requires dialog { IsDialogOf (D.subject run.now) dialog.old }
    ensures text { IfOk result (λ reply. text_of_reply (D.subject run.now) (said_in_dialog dialog.old) reply
        ≡ back_text (D.subject run.now) (said_in_dialog dialog.old) number) }
    ensures said { said_in_dialog dialog.new ≡ said_in_dialog dialog.old }
    ensures prepared { IfOk result (IsReply (D.prepared run.now) (calls_recorded (D.subject run.now))) }
    ensures dialog { IsDialogOf (D.subject run.now) dialog.new }
{
    let text = numbered_text(alloc, b"back ", number, b"\n")?;
    let report = report_now(alloc, run, dialog)?;
    Ok(Reply::Reported(text, report))
}

/// Judges a call.
pub fn judge<D: Debugged>(
    alloc: Global,
    run: &D,
    dialog: &mut Dialog,
    judgement: Judgement,
    call: u32,
) -> Result<Reply<D::Card, D::Opened, D::Trace>, Memory>
    requires dialog { IsDialogOf (D.subject run.now) dialog.old }
    ensures judged { IfOk result (λ reply. outcome_with (D.subject run.now) (said_in_dialog dialog.new) reply
        ≡ judges (D.subject run.now) (said_in_dialog dialog.old) judgement call) }
    ensures prepared { IfOk result (IsReply (D.prepared run.now) (calls_recorded (D.subject run.now))) }
    ensures dialog { IsDialogOf (D.subject run.now) dialog.new }
{
    let mut steps: Steps<Uncounted> = Steps::new();
    match dialog.debug.judge(call, judgement, &mut steps) {
        Ok(number) => entry_made(alloc, run, dialog, number),
        Err(fault) => refused(alloc, fault),
    }
}

/// Trusts the routine of a number.
pub fn trust<D: Debugged>(
    alloc: Global,
    run: &D,
    dialog: &mut Dialog,
    routine: u32,
) -> Result<Reply<D::Card, D::Opened, D::Trace>, Memory>
    requires dialog { IsDialogOf (D.subject run.now) dialog.old }
    ensures trusted { IfOk result (λ reply. outcome_with (D.subject run.now) (said_in_dialog dialog.new) reply
        ≡ trust_outcome (D.subject run.now) (said_in_dialog dialog.old) routine) }
    ensures prepared { IfOk result (IsReply (D.prepared run.now) (calls_recorded (D.subject run.now))) }
    ensures dialog { IsDialogOf (D.subject run.now) dialog.new }
{
    let mut steps: Steps<Uncounted> = Steps::new();
    match dialog.debug.trust(routine, &mut steps) {
        Ok(number) => entry_made(alloc, run, dialog, number),
        Err(fault) => refused(alloc, fault),
    }
}

/// Takes back the entry of a number.
pub fn take_back<D: Debugged>(
    alloc: Global,
    run: &D,
    dialog: &mut Dialog,
    number: u32,
) -> Result<Reply<D::Card, D::Opened, D::Trace>, Memory>
    requires dialog { IsDialogOf (D.subject run.now) dialog.old }
    ensures taken { IfOk result (λ reply. outcome_with (D.subject run.now) (said_in_dialog dialog.new) reply
        ≡ takes_back (D.subject run.now) (said_in_dialog dialog.old) number
        (take_back_answer (book_of (D.subject run.now) (said_in_dialog dialog.old).entries) number)) }
    ensures prepared { IfOk result (IsReply (D.prepared run.now) (calls_recorded (D.subject run.now))) }
    ensures dialog { IsDialogOf (D.subject run.now) dialog.new }
{
    let mut steps: Steps<Uncounted> = Steps::new();
    match dialog.debug.take_back(number, &mut steps) {
        Ok(()) => taken_back(alloc, run, dialog, number),
        Err(fault) => refused(alloc, fault),
    }
}

/// Takes back the last entry that stands.
pub fn take_back_last<D: Debugged>(
    alloc: Global,
    run: &D,
    dialog: &mut Dialog,
) -> Result<Reply<D::Card, D::Opened, D::Trace>, Memory>
    requires dialog { IsDialogOf (D.subject run.now) dialog.old }
    ensures taken { IfOk result (λ reply. outcome_with (D.subject run.now) (said_in_dialog dialog.new) reply
        ≡ takes_back_last (D.subject run.now) (said_in_dialog dialog.old)
        (take_back_last_answer (book_of (D.subject run.now) (said_in_dialog dialog.old).entries))) }
    ensures prepared { IfOk result (IsReply (D.prepared run.now) (calls_recorded (D.subject run.now))) }
    ensures dialog { IsDialogOf (D.subject run.now) dialog.new }
{
    let mut steps: Steps<Uncounted> = Steps::new();
    match dialog.debug.take_back_last(&mut steps) {
        Ok(number) => taken_back(alloc, run, dialog, number),
        Err(fault) => refused(alloc, fault),
    }
}

/// The line on new entries, of which these numbers are the first and the last.
fn entries_line(alloc: Global, first: u32, last: u32) -> Result<Bytes, Memory>
    ensures { IfOk result (λ text. text ≡ entries_line first last) }
{
    let mut text = numbered_text(alloc, b"entries ", first, b" to ")?;
    write_number(&mut text, last)?;
    text.append(b"\n")?;
    Ok(text)
}

/// The reply to new entries, of which these numbers are the first and the last: the numbers, and a report.
pub fn entries_made<D: Debugged>(
    alloc: Global,
    run: &D,
    dialog: &mut Dialog,
    numbers: (u32, u32),
) -> Result<Reply<D::Card, D::Opened, D::Trace>, Memory>
    requires dialog { IsDialogOf (D.subject run.now) dialog.old }
    ensures text { IfOk result (λ reply. text_of_reply (D.subject run.now) (said_in_dialog dialog.old) reply
        ≡ entries_text (D.subject run.now) (said_in_dialog dialog.old) numbers) }
    ensures said { said_in_dialog dialog.new ≡ said_in_dialog dialog.old }
    ensures prepared { IfOk result (IsReply (D.prepared run.now) (calls_recorded (D.subject run.now))) }
    ensures dialog { IsDialogOf (D.subject run.now) dialog.new }
{
    let text = entries_line(alloc, numbers.0, numbers.1)?;
    let report = report_now(alloc, run, dialog)?;
    Ok(Reply::Reported(text, report))
}

/// Judges a call wrong by the output that is sliced, and those right that had no part in it.
pub fn leave_out<D: Debugged>(
    alloc: Global,
    run: &D,
    dialog: &mut Dialog,
    call: u32,
    slice: &D::Slice,
) -> Result<Reply<D::Card, D::Opened, D::Trace>, Memory>
    requires dialog { IsDialogOf (D.subject run.now) dialog.old }
    requires a_call { call < calls_recorded (D.subject run.now) }
    requires prepared { (D.prepared run.now).slice call slice.now }
    ensures said { IfOk result (λ reply. outcome_with (D.subject run.now) (said_in_dialog dialog.new) reply
        ≡ says_all (D.subject run.now) (said_in_dialog dialog.old) (slice_answers (D.subject run.now)
        (answers_in dialog.old.debug) ((D.prepared run.now).in_slice slice.now) call)) }
    ensures prepared { IfOk result (IsReply (D.prepared run.now) (calls_recorded (D.subject run.now))) }
    ensures dialog { IsDialogOf (D.subject run.now) dialog.new }
{
    match run.leave_out(&mut dialog.debug, call, slice) {
        Ok(numbers) => entries_made(alloc, run, dialog, numbers),
        Err(fault) => refused(alloc, fault),
    }
}

/// Puts a note on the entry of a number, if it was made.
pub fn note<D: Debugged>(
    alloc: Global,
    run: &D,
    dialog: &mut Dialog,
    entry: u32,
    note: &NoteText<'_>,
) -> Result<Reply<D::Card, D::Opened, D::Trace>, Memory>
    requires dialog { IsDialogOf (D.subject run.now) dialog.old }
    ensures noted { IfOk result (λ reply. outcome_with (D.subject run.now) (said_in_dialog dialog.new) reply
        ≡ notes_entry (said_in_dialog dialog.old) entry note.now) }
    ensures prepared { IfOk result (IsReply (D.prepared run.now) (calls_recorded (D.subject run.now))) }
    ensures dialog { IsDialogOf (D.subject run.now) dialog.new }
{
    if 1 <= entry && entry <= dialog.debug.book().entries() {
        dialog.notes.set(entry as usize, note.as_str())?;
        Ok(Reply::Text(numbered_text(alloc, b"noted ", entry, b"\n")?))
    } else {
        Ok(Reply::Text(numbered_text(alloc, b"no entry ", entry, b"\n")?))
    }
}
