//! The reply to each line.
ghost use Rattle.std.specs.Prelude.{if◌then◌else◌, ◌++◌, ◌<◌, ◌≡◌, [], IfOk, codes, nat_lt};
ghost use Rattle.dialog_replies.specs.{Kept.IsDialogOf, Kept.IsSearchOf, Kept.said_in_dialog, Prepared.IsReply};
ghost use Rattle.dialog_replies.specs.{Prepared.outcome_with, Prepared.text_of_reply, Replies.trusts_named, Said.Said};
ghost use Rattle.dialog_replies.specs.{Said.kept_on, Start.gives_replies_alone, Start.said_at_start, Texts.tree_text};
ghost use Rattle.dialog_replies.specs.Replies.{card_or_none, carry_line, carry_or_none, carry_text, command_outcome};
ghost use Rattle.dialog_replies.specs.Replies.{judges_as_kept, judges_asked, judges_same, no_call, no_output};
ghost use Rattle.dialog_replies.specs.Replies.{opening_of, slices_by, slices_output, state_or_none, trace_or_none};
ghost use Rattle.dialog_replies.specs.Subject.{calls_recorded, routine_named, state_after};

use crate::alike::{alike_of, judge_alike_asked, judge_alike_of, take_back_alike_of};
use crate::calls::{routine_named, write_number};
use crate::changes::{
    judge, leave_out, note, refused, take_back, take_back_last, text_of, text_reply, trust,
};
use crate::debugged::Debugged;
use crate::dialogs::Dialog;
use crate::fit::gives_replies_alone;
use crate::instructions::DialogCommand;
use crate::marks::marks_now;
use crate::questions::kept_reply;
use crate::reply::Reply;
use crate::reports::{report_now, state_now};
use crate::slices::SliceOf;
use crate::start::Start;
use answer_book::{BookFault, Judgement};
use edge_ports::{Bytes, Memory};
use optimal_query::{Debug, SearchState};
use std::alloc::Global;

/// The line before the card where the saved session gives its replies alone, and else nothing.
fn first_line(alloc: Global, start: &Start) -> Result<Bytes, Memory>
    ensures { IfOk result (λ text. text ≡ (if gives_replies_alone start.now then codes "replies only\n" else [])) }
{
    if gives_replies_alone(start) {
        text_of(alloc, b"replies only\n")
    } else {
        Ok(Bytes::new(alloc))
    }
}

/// What a session opens with, as its entries stand: a line where the saved session gives its replies alone, the card of
/// call 0, and a report.
pub fn open<D: Debugged>(
    alloc: Global,
    run: &D,
    start: &Start,
    dialog: &mut Dialog,
) -> Result<Reply<D::Card, D::Opened, D::Trace>, Memory>
    requires dialog { IsDialogOf (D.subject run.now) dialog.old }
    requires said { said_in_dialog dialog.old ≡ said_at_start start.now }
    ensures text { IfOk result (λ reply. text_of_reply (D.subject run.now) (said_in_dialog dialog.new) reply
        ≡ opening_of (D.subject run.now) start.now) }
    ensures prepared { IfOk result (IsReply (D.prepared run.now) (calls_recorded (D.subject run.now))) }
    ensures said { said_in_dialog dialog.new ≡ said_in_dialog dialog.old }
    ensures dialog { IsDialogOf (D.subject run.now) dialog.new }
{
    let text = first_line(alloc, start)?;
    let card = run.prepare_card(alloc, 0)?;
    let report = report_now(alloc, run, dialog)?;
    Ok(Reply::Opening(text, card, report))
}

/// Judges the call that is asked about.
fn judge_asked<D: Debugged>(
    alloc: Global,
    run: &D,
    dialog: &mut Dialog,
    judgement: Judgement,
) -> Result<Reply<D::Card, D::Opened, D::Trace>, Memory>
    requires dialog { IsDialogOf (D.subject run.now) dialog.old }
    ensures judged { IfOk result (λ reply. outcome_with (D.subject run.now) (said_in_dialog dialog.new) reply
        ≡ judges_asked (D.subject run.now) (said_in_dialog dialog.old) judgement
        (state_after (D.subject run.now) (said_in_dialog dialog.old).entries)) }
    ensures prepared { IfOk result (IsReply (D.prepared run.now) (calls_recorded (D.subject run.now))) }
    ensures dialog { IsDialogOf (D.subject run.now) dialog.new }
{
    match state_now(run, &dialog.debug) {
        SearchState::Ask { call, .. } => judge(alloc, run, dialog, judgement, call),
        SearchState::Found(_)
        | SearchState::Narrowed(_)
        | SearchState::NothingWrong
        | SearchState::Unclear => { text_reply(alloc, b"no question\n") }
    }
}

/// Judges a call as its question was replied before.
fn judge_as_kept<D: Debugged>(
    alloc: Global,
    run: &D,
    dialog: &mut Dialog,
    call: u32,
) -> Result<Reply<D::Card, D::Opened, D::Trace>, Memory>
    requires call { call < calls_recorded (D.subject run.now) }
    requires dialog { IsDialogOf (D.subject run.now) dialog.old }
    ensures judged { IfOk result (λ reply. outcome_with (D.subject run.now) (said_in_dialog dialog.new) reply
        ≡ judges_as_kept (D.subject run.now) (said_in_dialog dialog.old) call
        (kept_on (D.subject run.now) (said_in_dialog dialog.old).replies call)) }
    ensures prepared { IfOk result (IsReply (D.prepared run.now) (calls_recorded (D.subject run.now))) }
    ensures dialog { IsDialogOf (D.subject run.now) dialog.new }
{
    match kept_reply(alloc, run, dialog, call)? {
        Some(judgement) => judge(alloc, run, dialog, judgement, call),
        None => text_reply(alloc, b"no kept reply\n"),
    }
}

/// Judges the call that is asked about as its question was replied before.
fn judge_same<D: Debugged>(
    alloc: Global,
    run: &D,
    dialog: &mut Dialog,
) -> Result<Reply<D::Card, D::Opened, D::Trace>, Memory>
    requires dialog { IsDialogOf (D.subject run.now) dialog.old }
    ensures judged { IfOk result (λ reply. outcome_with (D.subject run.now) (said_in_dialog dialog.new) reply
        ≡ judges_same (D.subject run.now) (said_in_dialog dialog.old)
        (state_after (D.subject run.now) (said_in_dialog dialog.old).entries)) }
    ensures prepared { IfOk result (IsReply (D.prepared run.now) (calls_recorded (D.subject run.now))) }
    ensures dialog { IsDialogOf (D.subject run.now) dialog.new }
{
    match state_now(run, &dialog.debug) {
        SearchState::Ask { call, .. } => judge_as_kept(alloc, run, dialog, call),
        SearchState::Found(_)
        | SearchState::Narrowed(_)
        | SearchState::NothingWrong
        | SearchState::Unclear => { text_reply(alloc, b"no question\n") }
    }
}

/// The reply where no routine has this name.
fn no_routine(alloc: Global, name: &[u8]) -> Result<Bytes, Memory>
    ensures { IfOk result (λ text. text ≡ codes "no routine " ++ name.now ++ codes "\n") }
{
    let mut text = Bytes::new(alloc);
    text.append(b"no routine ")?;
    text.append(name)?;
    text.append(b"\n")?;
    Ok(text)
}

/// Trusts the routine of this name.
fn trust_named<D: Debugged>(
    alloc: Global,
    run: &D,
    dialog: &mut Dialog,
    name: &[u8],
) -> Result<Reply<D::Card, D::Opened, D::Trace>, Memory>
    requires dialog { IsDialogOf (D.subject run.now) dialog.old }
    ensures trusted { IfOk result (λ reply. outcome_with (D.subject run.now) (said_in_dialog dialog.new) reply
        ≡ trusts_named (D.subject run.now) (said_in_dialog dialog.old) name.now
        (routine_named (D.subject run.now) name.now)) }
    ensures prepared { IfOk result (IsReply (D.prepared run.now) (calls_recorded (D.subject run.now))) }
    ensures dialog { IsDialogOf (D.subject run.now) dialog.new }
{
    match routine_named(run, name) {
        Some(routine) => trust(alloc, run, dialog, routine),
        None => Ok(Reply::Text(no_routine(alloc, name)?)),
    }
}

/// The card of a call, where there is one of this number.
fn card_of<D: Debugged>(
    alloc: Global,
    run: &D,
    call: u32,
) -> Result<Reply<D::Card, D::Opened, D::Trace>, Memory>
    ensures text { IfOk result (λ reply. (said : Said) → text_of_reply (D.subject run.now) said reply
        ≡ card_or_none (D.subject run.now) call) }
    ensures prepared { IfOk result (IsReply (D.prepared run.now) (calls_recorded (D.subject run.now))) }
{
    if call < run.calls().len() {
        Ok(Reply::Card(call, run.prepare_card(alloc, call)?))
    } else {
        refused(alloc, BookFault::NoCall(call))
    }
}

/// The lines of the trace of a call, where there is one of this number.
fn trace_of<D: Debugged>(
    alloc: Global,
    run: &D,
    call: u32,
) -> Result<Reply<D::Card, D::Opened, D::Trace>, Memory>
    ensures text { IfOk result (λ reply. (said : Said) → text_of_reply (D.subject run.now) said reply
        ≡ trace_or_none (D.subject run.now) call) }
    ensures prepared { IfOk result (IsReply (D.prepared run.now) (calls_recorded (D.subject run.now))) }
{
    if call < run.calls().len() {
        Ok(Reply::Trace(call, run.prepare_trace(alloc, call)?))
    } else {
        refused(alloc, BookFault::NoCall(call))
    }
}

/// The lines on the cells of a name before and after a call, or that there is none.
fn state_of<D: Debugged>(
    alloc: Global,
    run: &D,
    call: u32,
    name: &[u8],
) -> Result<Reply<D::Card, D::Opened, D::Trace>, Memory>
    ensures text { IfOk result (λ reply. (said : Said) → text_of_reply (D.subject run.now) said reply
        ≡ state_or_none (D.subject run.now) call name.now) }
    ensures prepared { IfOk result (IsReply (D.prepared run.now) (calls_recorded (D.subject run.now))) }
{
    if call < run.calls().len() {
        let opened = run.prepare_state(alloc, call)?;
        let name = text_of(alloc, name)?;
        Ok(Reply::State(call, name, opened))
    } else {
        refused(alloc, BookFault::NoCall(call))
    }
}

/// The reply where a name is that of no output of a call.
fn no_output(alloc: Global, name: &[u8]) -> Result<Bytes, Memory>
    ensures { IfOk result (λ text. text ≡ no_output name.now) }
{
    let mut text = Bytes::new(alloc);
    text.append(b"no output ")?;
    text.append(name)?;
    text.append(b"\n")?;
    Ok(text)
}

/// Judges a call wrong by its output of this name, and leaves out of the search what had no part in that.
fn slice_in<D: Debugged>(
    alloc: Global,
    run: &D,
    dialog: &mut Dialog,
    call: u32,
    name: &[u8],
) -> Result<Reply<D::Card, D::Opened, D::Trace>, Memory>
    requires call { call < calls_recorded (D.subject run.now) }
    requires dialog { IsDialogOf (D.subject run.now) dialog.old }
    ensures sliced { IfOk result (λ reply. outcome_with (D.subject run.now) (said_in_dialog dialog.new) reply
        ≡ slices_by (D.subject run.now) (said_in_dialog dialog.old) call name.now
        ((D.subject run.now).slice call name.now)) }
    ensures prepared { IfOk result (IsReply (D.prepared run.now) (calls_recorded (D.subject run.now))) }
    ensures dialog { IsDialogOf (D.subject run.now) dialog.new }
{
    match run.prepare_slice(alloc, call, name)? {
        SliceOf::Slice(slice) => leave_out(alloc, run, dialog, call, &slice),
        SliceOf::NoOutput => Ok(Reply::Text(no_output(alloc, name)?)),
        SliceOf::TooMany => text_reply(alloc, b"too many to compare\n"),
    }
}

/// The same, where there is a call of this number.
fn slice_of<D: Debugged>(
    alloc: Global,
    run: &D,
    dialog: &mut Dialog,
    call: u32,
    name: &[u8],
) -> Result<Reply<D::Card, D::Opened, D::Trace>, Memory>
    requires dialog { IsDialogOf (D.subject run.now) dialog.old }
    ensures sliced { IfOk result (λ reply. outcome_with (D.subject run.now) (said_in_dialog dialog.new) reply
        ≡ slices_output (D.subject run.now) (said_in_dialog dialog.old) call name.now) }
    ensures prepared { IfOk result (IsReply (D.prepared run.now) (calls_recorded (D.subject run.now))) }
    ensures dialog { IsDialogOf (D.subject run.now) dialog.new }
{
    if call < run.calls().len() {
        slice_in(alloc, run, dialog, call, name)
    } else {
        refused(alloc, BookFault::NoCall(call))
    }
}

/// A line of a call, these words and another call.
fn carry_line(alloc: Global, words: &[u8], call: u32, onto: u32) -> Result<Bytes, Memory>
    ensures { IfOk result (λ text. text ≡ carry_line words.now call onto) }
{
    let mut text = Bytes::new(alloc);
    text.append(b"call ")?;
    write_number(&mut text, call)?;
    text.append(words)?;
    write_number(&mut text, onto)?;
    text.append(b"\n")?;
    Ok(text)
}

/// The line that says whether a call carries to another.
fn carry_text(alloc: Global, carries: bool, call: u32, onto: u32) -> Result<Bytes, Memory>
    ensures { IfOk result (λ text. text ≡ carry_text carries call onto) }
{
    if carries {
        carry_line(alloc, b" carries to call ", call, onto)
    } else {
        carry_line(alloc, b" does not carry to call ", call, onto)
    }
}

/// Whether a call carries to another, where there is one of that number.
fn carry_to<D: Debugged>(
    alloc: Global,
    run: &D,
    call: u32,
    onto: u32,
) -> Result<Reply<D::Card, D::Opened, D::Trace>, Memory>
    requires { call < calls_recorded (D.subject run.now) }
    ensures text { IfOk result (λ reply. (said : Said) → text_of_reply (D.subject run.now) said reply
        ≡ (if nat_lt onto (calls_recorded (D.subject run.now))
        then carry_text ((D.subject run.now).carries call onto) call onto else no_call onto)) }
    ensures prepared { IfOk result (IsReply (D.prepared run.now) (calls_recorded (D.subject run.now))) }
{
    if onto < run.calls().len() {
        let carries = run.carries(alloc, call, onto)?;
        Ok(Reply::Text(carry_text(alloc, carries, call, onto)?))
    } else {
        refused(alloc, BookFault::NoCall(onto))
    }
}

/// The same, where there is a call of this number.
fn carry_of<D: Debugged>(
    alloc: Global,
    run: &D,
    call: u32,
    onto: u32,
) -> Result<Reply<D::Card, D::Opened, D::Trace>, Memory>
    ensures text { IfOk result (λ reply. (said : Said) → text_of_reply (D.subject run.now) said reply
        ≡ carry_or_none (D.subject run.now) call onto) }
    ensures prepared { IfOk result (IsReply (D.prepared run.now) (calls_recorded (D.subject run.now))) }
{
    if call < run.calls().len() {
        carry_to(alloc, run, call, onto)
    } else {
        refused(alloc, BookFault::NoCall(call))
    }
}

/// The tree of the calls with their marks.
fn tree_of<D: Debugged>(
    alloc: Global,
    run: &D,
    debug: &Debug,
) -> Result<Reply<D::Card, D::Opened, D::Trace>, Memory>
    requires { IsSearchOf (D.subject run.now) debug.now }
    ensures text { IfOk result (λ reply. (said : Said) → text_of_reply (D.subject run.now) said reply
        ≡ tree_text (D.subject run.now) debug.now.book.entries) }
    ensures prepared { IfOk result (IsReply (D.prepared run.now) (calls_recorded (D.subject run.now))) }
{
    let marks = marks_now(alloc, run, debug)?;
    Ok(Reply::Tree(marks))
}

/// Does what a line asks of the run and of the entries, and answers the reply to it.
#[tactic(auto, unfolding(crate::specs::Replies::command_outcome))]
pub fn answer<D: Debugged>(
    alloc: Global,
    run: &D,
    dialog: &mut Dialog,
    command: DialogCommand<'_>,
) -> Result<Reply<D::Card, D::Opened, D::Trace>, Memory>
    requires dialog { IsDialogOf (D.subject run.now) dialog.old }
    ensures outcome { IfOk result (λ reply. outcome_with (D.subject run.now) (said_in_dialog dialog.new) reply
        ≡ command_outcome (D.subject run.now) (said_in_dialog dialog.old) command.entry) }
    ensures prepared { IfOk result (IsReply (D.prepared run.now) (calls_recorded (D.subject run.now))) }
    ensures dialog { IsDialogOf (D.subject run.now) dialog.new }
{
    match command {
        DialogCommand::Nothing => text_reply(alloc, b""),
        DialogCommand::Judge(judgement, None) => judge_asked(alloc, run, dialog, judgement),
        DialogCommand::Judge(judgement, Some(call)) => judge(alloc, run, dialog, judgement, call),
        DialogCommand::Same => judge_same(alloc, run, dialog),
        DialogCommand::TrustNamed(name) => trust_named(alloc, run, dialog, name.bytes()),
        DialogCommand::Trust(routine) => trust(alloc, run, dialog, routine),
        DialogCommand::TakeBack(None) => take_back_last(alloc, run, dialog),
        DialogCommand::TakeBack(Some(entry)) => take_back(alloc, run, dialog, entry),
        DialogCommand::Note(entry, text) => note(alloc, run, dialog, entry, &text),
        DialogCommand::Show(call) => card_of(alloc, run, call),
        DialogCommand::State(call, name) => state_of(alloc, run, call, name.bytes()),
        DialogCommand::Trace(call) => trace_of(alloc, run, call),
        DialogCommand::Slice(call, name) => slice_of(alloc, run, dialog, call, name.bytes()),
        DialogCommand::Alike(call) => alike_of(alloc, run, dialog, call),
        DialogCommand::JudgeAlike(judgement, None) => {
            judge_alike_asked(alloc, run, dialog, judgement)
        }
        DialogCommand::JudgeAlike(judgement, Some(call)) => {
            judge_alike_of(alloc, run, dialog, judgement, call)
        }
        DialogCommand::TakeBackAlike(call) => take_back_alike_of(alloc, run, dialog, call),
        DialogCommand::Carry(call, onto) => carry_of(alloc, run, call, onto),
        DialogCommand::Tree => tree_of(alloc, run, &dialog.debug),
        DialogCommand::Other => text_reply(alloc, b"not understood\n"),
    }
}
