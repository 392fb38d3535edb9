//! One answer for calls that are alike.
ghost use Rattle.std.specs.Prelude.{if◌then◌else◌, ◌++◌, ◌<◌, ◌≡◌, [], IfOk, OnOk, Some, decimal, flat_map, length};
ghost use Rattle.answer_reuse.specs.{Classes.class_of, Shared.judged_each, Shared.number_taken, Shared.standing_alike};
ghost use Rattle.dialog_replies.specs.{Alike.entries_without_all, Slices.all_answer, Slices.entries_after_all};
ghost use Rattle.dialog_replies.specs.Kept.{IsDialogOf, IsSearchOf, said_in_dialog};
ghost use Rattle.dialog_replies.specs.Prepared.{IsReply, outcome_with, text_of_reply};
ghost use Rattle.dialog_replies.specs.Replies.{alike_text, judges_class, judges_class_asked, numbered, taken_text};
ghost use Rattle.dialog_replies.specs.Replies.{takes_back_class, tells_alike};
ghost use Rattle.dialog_replies.specs.Subject.{Subject, calls_recorded, state_after};

use crate::calls::write_number;
use crate::changes::{entries_made, numbered_text, refused, text_of, text_reply};
use crate::debugged::Debugged;
use crate::dialogs::Dialog;
use crate::reply::Reply;
use crate::reports::{report_now, state_now};
use answer_book::{BookFault, Judgement};
use answer_reuse::{Classes, judge_alike, take_back_alike};
use cell_value::Steps;
use edge_ports::{Bytes, Memory};
use optimal_query::{Debug, SearchState};
use std::alloc::Global;

/// What the steps of the search are counted by.
struct Uncounted;

/// Makes the classes of alike calls, where there are none yet. There are none after it where there is too much to
/// compare.
fn make_classes<D: Debugged>(alloc: Global, run: &D, dialog: &mut Dialog) -> Result<(), Memory>
    requires dialog { IsDialogOf (D.subject run.now) dialog.old }
    ensures classes { OnOk result (dialog.new.classes ≡ (D.subject run.now).classes) }
    ensures said { said_in_dialog dialog.new ≡ said_in_dialog dialog.old }
    ensures dialog { IsDialogOf (D.subject run.now) dialog.new }
{
    match &dialog.classes {
        Some(_) => Ok(()),
        None => {
            dialog.classes = run.classes(alloc)?;
            Ok(())
        }
    }
}

/// Appends the number of a call after a blank, if it is one of those to be told.
fn append_if(text: &mut Bytes, is_one: bool, call: u32) -> Result<(), Memory>
    ensures { OnOk result (text.new ≡ text.old ++ (if is_one then numbered call else [])) }
{
    if is_one {
        text.append(b" ")?;
        write_number(text, call)?;
    }
    Ok(())
}

/// Appends the numbers of the calls that are alike to a call, each after a blank.
fn append_class(text: &mut Bytes, classes: &Classes, call: u32) -> Result<(), Memory>
    requires { call < length classes.now }
    ensures { OnOk result (text.new ≡ text.old ++ flat_map numbered (class_of classes.now call)) }
{
    let least = classes.least(call);
    'calls: for other in 0..classes.len() {
        append_if(text, classes.is_of(other, least), other)?;
    }
    Ok(())
}

/// The line on the calls that are alike to a call.
fn alike_text(alloc: Global, classes: &Classes, call: u32) -> Result<Bytes, Memory>
    requires { call < length classes.now }
    ensures { IfOk result (λ text. text ≡ alike_text classes.now call) }
{
    let mut text = text_of(alloc, b"alike")?;
    append_class(&mut text, classes, call)?;
    text.append(b"\n")?;
    Ok(text)
}

/// Which calls are alike to a call.
pub fn alike_of<D: Debugged>(
    alloc: Global,
    run: &D,
    dialog: &mut Dialog,
    call: u32,
) -> Result<Reply<D::Card, D::Opened, D::Trace>, Memory>
    requires dialog { IsDialogOf (D.subject run.now) dialog.old }
    ensures told { IfOk result (λ reply. outcome_with (D.subject run.now) (said_in_dialog dialog.new) reply
        ≡ tells_alike (D.subject run.now) (said_in_dialog dialog.old) call) }
    ensures prepared { IfOk result (IsReply (D.prepared run.now) (calls_recorded (D.subject run.now))) }
    ensures dialog { IsDialogOf (D.subject run.now) dialog.new }
{
    if call >= run.calls().len() {
        return refused(alloc, BookFault::NoCall(call));
    }
    make_classes(alloc, run, dialog)?;
    match &dialog.classes {
        Some(classes) => Ok(Reply::Text(alike_text(alloc, classes, call)?)),
        None => text_reply(alloc, b"too many to compare\n"),
    }
}

/// Judges all calls that are alike to a call.
fn judge_class(
    debug: &mut Debug,
    classes: &Classes,
    judgement: Judgement,
    call: u32,
) -> Result<(u32, u32), BookFault>
    requires those_calls { length classes.now ≡ length debug.old.book.routine }
    requires a_call { call < length classes.now }
    ensures answer { result ≡ all_answer debug.old.book.entries
        (judged_each judgement (class_of classes.now call)) }
    ensures entries { debug.new.book.entries ≡ entries_after_all debug.old.book.entries
        (judged_each judgement (class_of classes.now call)) result }
    ensures search { (s : Subject) → IsSearchOf s debug.old → IsSearchOf s debug.new }
{
    let mut steps: Steps<Uncounted> = Steps::new();
    judge_alike(debug, classes, call, judgement, &mut steps)
}

/// Judges all calls that are alike to a call.
pub fn judge_alike_of<D: Debugged>(
    alloc: Global,
    run: &D,
    dialog: &mut Dialog,
    judgement: Judgement,
    call: u32,
) -> Result<Reply<D::Card, D::Opened, D::Trace>, Memory>
    requires dialog { IsDialogOf (D.subject run.now) dialog.old }
    ensures judged { IfOk result (λ reply. outcome_with (D.subject run.now) (said_in_dialog dialog.new) reply
        ≡ judges_class (D.subject run.now) (said_in_dialog dialog.old) judgement call) }
    ensures prepared { IfOk result (IsReply (D.prepared run.now) (calls_recorded (D.subject run.now))) }
    ensures dialog { IsDialogOf (D.subject run.now) dialog.new }
{
    if call >= run.calls().len() {
        return refused(alloc, BookFault::NoCall(call));
    }
    make_classes(alloc, run, dialog)?;
    match &dialog.classes {
        Some(classes) => match judge_class(&mut dialog.debug, classes, judgement, call) {
            Ok(numbers) => entries_made(alloc, run, dialog, numbers),
            Err(fault) => refused(alloc, fault),
        },
        None => text_reply(alloc, b"too many to compare\n"),
    }
}

/// Judges the call that is asked about, and all calls that are alike to it.
pub fn judge_alike_asked<D: Debugged>(
    alloc: Global,
    run: &D,
    dialog: &mut Dialog,
    judgement: Judgement,
) -> Result<Reply<D::Card, D::Opened, D::Trace>, Memory>
    requires dialog { IsDialogOf (D.subject run.now) dialog.old }
    ensures judged { IfOk result (λ reply. outcome_with (D.subject run.now) (said_in_dialog dialog.new) reply
        ≡ judges_class_asked (D.subject run.now) (said_in_dialog dialog.old) judgement
        (state_after (D.subject run.now) (said_in_dialog dialog.old).entries)) }
    ensures prepared { IfOk result (IsReply (D.prepared run.now) (calls_recorded (D.subject run.now))) }
    ensures dialog { IsDialogOf (D.subject run.now) dialog.new }
{
    match state_now(run, &dialog.debug) {
        SearchState::Ask { call, .. } => judge_alike_of(alloc, run, dialog, judgement, call),
        SearchState::Found(_)
        | SearchState::Narrowed(_)
        | SearchState::NothingWrong
        | SearchState::Unclear => { text_reply(alloc, b"no question\n") }
    }
}

/// The reply to judgements that were taken back: how many, and a report.
fn all_taken_back<D: Debugged>(
    alloc: Global,
    run: &D,
    dialog: &mut Dialog,
    taken: u32,
) -> Result<Reply<D::Card, D::Opened, D::Trace>, Memory>
    requires dialog { IsDialogOf (D.subject run.now) dialog.old }
    ensures text { IfOk result (λ reply. text_of_reply (D.subject run.now) (said_in_dialog dialog.old) reply
        ≡ taken_text (D.subject run.now) (said_in_dialog dialog.old) taken) }
    ensures said { said_in_dialog dialog.new ≡ said_in_dialog dialog.old }
    ensures prepared { IfOk result (IsReply (D.prepared run.now) (calls_recorded (D.subject run.now))) }
    ensures dialog { IsDialogOf (D.subject run.now) dialog.new }
{
    let text = numbered_text(alloc, b"taken back ", taken, b"\n")?;
    let report = report_now(alloc, run, dialog)?;
    Ok(Reply::Reported(text, report))
}

/// Takes back each judgement that stands on a call alike to a call, and answers how many there were.
fn take_back_class(debug: &mut Debug, classes: &Classes, call: u32) -> Result<u32, BookFault>
    requires those_calls { length classes.now ≡ length debug.old.book.routine }
    requires a_call { call < length classes.now }
    ensures answer { result ≡ number_taken (standing_alike debug.old.book.entries classes.now call) }
    ensures entries { debug.new.book.entries ≡ entries_without_all debug.old.book.entries
        (standing_alike debug.old.book.entries classes.now call) result }
    ensures search { (s : Subject) → IsSearchOf s debug.old → IsSearchOf s debug.new }
{
    let mut steps: Steps<Uncounted> = Steps::new();
    take_back_alike(debug, classes, call, &mut steps)
}

/// Takes back each judgement that stands on a call alike to a call.
pub fn take_back_alike_of<D: Debugged>(
    alloc: Global,
    run: &D,
    dialog: &mut Dialog,
    call: u32,
) -> Result<Reply<D::Card, D::Opened, D::Trace>, Memory>
    requires dialog { IsDialogOf (D.subject run.now) dialog.old }
    ensures taken { IfOk result (λ reply. outcome_with (D.subject run.now) (said_in_dialog dialog.new) reply
        ≡ takes_back_class (D.subject run.now) (said_in_dialog dialog.old) call) }
    ensures prepared { IfOk result (IsReply (D.prepared run.now) (calls_recorded (D.subject run.now))) }
    ensures dialog { IsDialogOf (D.subject run.now) dialog.new }
{
    if call >= run.calls().len() {
        return refused(alloc, BookFault::NoCall(call));
    }
    make_classes(alloc, run, dialog)?;
    match &dialog.classes {
        Some(classes) => match take_back_class(&mut dialog.debug, classes, call) {
            Ok(taken) => all_taken_back(alloc, run, dialog, taken),
            Err(fault) => refused(alloc, fault),
        },
        None => text_reply(alloc, b"too many to compare\n"),
    }
}
