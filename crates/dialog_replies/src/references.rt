//! A reference: a right program, which answers for the user. What a file is read as, and what is said of a call.
ghost use Rattle.std.specs.Prelude.{◌≡◌, IfOk, option_map};
ghost use Rattle.dialog_replies.specs.{Kept.IsDialogOf, Kept.said_in_dialog, Prepared.IsReply, Prepared.outcome_with};
ghost use Rattle.dialog_replies.specs.Replies.{no_reference_for, refers, refers_asked, refers_by, refers_if, refers_to};
ghost use Rattle.dialog_replies.specs.Subject.{calls_recorded, state_after};

use crate::changes::{judge, numbered_text, refused, text_reply};
use crate::debugged::Debugged;
use crate::dialogs::Dialog;
use crate::reply::Reply;
use crate::reports::state_now;
use answer_book::{BookFault, Judgement};
use edge_ports::{Bytes, Memory};
use optimal_query::SearchState;
use std::alloc::Global;

/// The most bytes of a reference.
pub const REFERENCE_BYTES: u64 = 1_048_576;

/// What the bytes of a file that is to be a reference are read as.
#[derive(Drop)]
pub enum Reading<P> {
    /// A program.
    Program(P),
    /// No program: the reason and the place, as they are printed.
    Refused(Bytes),
}

/// What a reference says of a call.
#[derive(Clone, Copy, Debug)]
pub enum Referred {
    /// That it is right, or that it is wrong.
    Judged(Judgement),
    /// Nothing: it can't be asked about this call.
    Unfit,
    /// Nothing: it came to no end.
    NoAnswer,
}

/// The reply where a reference can't be asked about a call.
fn no_reference_for(alloc: Global, call: u32) -> Result<Bytes, Memory>
    ensures { IfOk result (λ text. text ≡ no_reference_for call) }
{
    numbered_text(alloc, b"no reference for call ", call, b"\n")
}

/// Judges a call as a reference says, if it says anything of it.
fn refer_by<D: Debugged>(
    alloc: Global,
    run: &D,
    dialog: &mut Dialog,
    call: u32,
    answer: Referred,
) -> Result<Reply<D::Card, D::Opened, D::Trace>, Memory>
    requires dialog { IsDialogOf (D.subject run.now) dialog.old }
    ensures judged { IfOk result (λ reply. outcome_with (D.subject run.now) (said_in_dialog dialog.new) reply
        ≡ refers_by (D.subject run.now) (said_in_dialog dialog.old) call answer) }
    ensures prepared { IfOk result (IsReply (D.prepared run.now) (calls_recorded (D.subject run.now))) }
    ensures dialog { IsDialogOf (D.subject run.now) dialog.new }
{
    match answer {
        Referred::Judged(judgement) => judge(alloc, run, dialog, judgement, call),
        Referred::Unfit => Ok(Reply::Text(no_reference_for(alloc, call)?)),
        Referred::NoAnswer => text_reply(alloc, b"reference gave no answer\n"),
    }
}

/// Judges the call of this number, if there is one, as a reference says.
fn refer_to<D: Debugged>(
    alloc: Global,
    run: &D,
    dialog: &mut Dialog,
    reference: &D::Reference,
    call: u32,
) -> Result<Reply<D::Card, D::Opened, D::Trace>, Memory>
    requires dialog { IsDialogOf (D.subject run.now) dialog.old }
    ensures judged { IfOk result (λ reply. outcome_with (D.subject run.now) (said_in_dialog dialog.new) reply
        ≡ refers_to (D.subject run.now) (said_in_dialog dialog.old) (D.tables run.now reference.now) call) }
    ensures prepared { IfOk result (IsReply (D.prepared run.now) (calls_recorded (D.subject run.now))) }
    ensures dialog { IsDialogOf (D.subject run.now) dialog.new }
{
    if call < run.calls().len() {
        let answer = run.refer(alloc, reference, call)?;
        refer_by(alloc, run, dialog, call, answer)
    } else {
        refused(alloc, BookFault::NoCall(call))
    }
}

/// Judges the call that is asked about as a reference says.
fn refer_asked<D: Debugged>(
    alloc: Global,
    run: &D,
    dialog: &mut Dialog,
    reference: &D::Reference,
) -> Result<Reply<D::Card, D::Opened, D::Trace>, Memory>
    requires dialog { IsDialogOf (D.subject run.now) dialog.old }
    ensures judged { IfOk result (λ reply. outcome_with (D.subject run.now) (said_in_dialog dialog.new) reply
        ≡ refers_asked (D.subject run.now) (said_in_dialog dialog.old) (D.tables run.now reference.now)
        (state_after (D.subject run.now) (said_in_dialog dialog.old).entries)) }
    ensures prepared { IfOk result (IsReply (D.prepared run.now) (calls_recorded (D.subject run.now))) }
    ensures dialog { IsDialogOf (D.subject run.now) dialog.new }
{
    match state_now(run, &dialog.debug) {
        SearchState::Ask { call, .. } => refer_to(alloc, run, dialog, reference, call),
        SearchState::Found(_)
        | SearchState::Narrowed(_)
        | SearchState::NothingWrong
        | SearchState::Unclear => { text_reply(alloc, b"no question\n") }
    }
}

/// Judges the call of this number, or the one that is asked about, as a reference says.
fn refer_by_reference<D: Debugged>(
    alloc: Global,
    run: &D,
    dialog: &mut Dialog,
    reference: &D::Reference,
    call: Option<u32>,
) -> Result<Reply<D::Card, D::Opened, D::Trace>, Memory>
    requires dialog { IsDialogOf (D.subject run.now) dialog.old }
    ensures judged { IfOk result (λ reply. outcome_with (D.subject run.now) (said_in_dialog dialog.new) reply
        ≡ refers (D.subject run.now) (said_in_dialog dialog.old) (D.tables run.now reference.now) call) }
    ensures prepared { IfOk result (IsReply (D.prepared run.now) (calls_recorded (D.subject run.now))) }
    ensures dialog { IsDialogOf (D.subject run.now) dialog.new }
{
    match call {
        Some(call) => refer_to(alloc, run, dialog, reference, call),
        None => refer_asked(alloc, run, dialog, reference),
    }
}

/// The same, if a reference was read.
pub fn refer<D: Debugged>(
    alloc: Global,
    run: &D,
    dialog: &mut Dialog,
    reference: &Option<D::Reference>,
    call: Option<u32>,
) -> Result<Reply<D::Card, D::Opened, D::Trace>, Memory>
    requires dialog { IsDialogOf (D.subject run.now) dialog.old }
    ensures outcome { IfOk result (λ reply. outcome_with (D.subject run.now) (said_in_dialog dialog.new) reply
        ≡ refers_if (D.subject run.now) (said_in_dialog dialog.old) (option_map (D.tables run.now) reference.now)
        call) }
    ensures prepared { IfOk result (IsReply (D.prepared run.now) (calls_recorded (D.subject run.now))) }
    ensures dialog { IsDialogOf (D.subject run.now) dialog.new }
{
    match reference {
        Some(reference) => refer_by_reference(alloc, run, dialog, reference, call),
        None => text_reply(alloc, b"no reference\n"),
    }
}
