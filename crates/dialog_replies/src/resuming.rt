//! The search that a dialog starts with.
ghost use Rattle.std.specs.Prelude.{◌≡◌, ◌≤◌, All, IfOk, None, Some, length};
ghost use Rattle.answer_book.specs.InRange.{IsInRange};
ghost use Rattle.session_file.specs.Whole.{IsWhole};
ghost use Rattle.dialog_replies.specs.{Fit.misfit, Fit.saved_misfit, Subject.calls_recorded};
ghost use Rattle.dialog_replies.specs.Kept.{IsDialogOf, IsSearchOf, said_in_dialog};
ghost use Rattle.dialog_replies.specs.Start.{IsWholeStart, said_at_start, said_in};

use crate::debugged::Debugged;
use crate::dialogs::Dialog;
use crate::fit::has_replies_alone;
use crate::questions::no_digests;
use crate::searches::begin;
use crate::start::Start;
use answer_book::Entry;
use cell_value::Steps;
use edge_ports::Memory;
use optimal_query::Debug;
use session_file::{Notes, Replies, Session};
use std::alloc::Global;

/// The search over the run with these entries.
fn resume_with<'a, D: Debugged>(
    alloc: Global,
    run: &'a D,
    entries: &[Entry],
) -> Result<Debug<'a>, Memory>
    requires few { length entries.now ≤ 100000 }
    requires named { All (λ entry.
        IsInRange (calls_recorded (D.subject run.now)) (D.subject run.now).routines entry.what) entries.now }
    ensures search { IfOk result (λ debug. IsSearchOf (D.subject run.now) debug) }
    ensures entries { IfOk result (λ debug. debug.book.entries ≡ entries.now) }
{
    let mut steps: Steps<()> = Steps::new();
    Debug::with_entries(alloc, run.calls(), entries, &mut steps)
}

/// The dialog over the run with what a session has that fits it, or with its replies alone.
fn resume_session<'a, D: Debugged>(
    alloc: Global,
    run: &'a D,
    start: &Start,
    session: &Session,
) -> Result<Dialog<'a>, Memory>
    requires whole { IsWhole session.now }
    requires fits { saved_misfit (D.subject run.now) start.now (Some session.now) ≡ None }
    ensures dialog { IfOk result (λ dialog. IsDialogOf (D.subject run.now) dialog) }
    ensures said { IfOk result (λ dialog. said_in_dialog dialog ≡ said_in start.now session.now) }
{
    let replies = session.replies.copied()?;
    if has_replies_alone(start, session) {
        let debug = begin(alloc, run)?;
        Ok(Dialog {
            debug,
            notes: Notes::new(alloc),
            replies,
            digests: no_digests(alloc),
            classes: None,
        })
    } else {
        let debug = resume_with(alloc, run, session.entries.as_slice())?;
        let notes = session.notes.copied()?;
        Ok(Dialog {
            debug,
            notes,
            replies,
            digests: no_digests(alloc),
            classes: None,
        })
    }
}

/// The dialog over the run with what the saved session has, which fits the run or gives its replies alone; with no
/// saved session, with the first entry alone. It looks at each entry once, and a fixed number of times at each call.
pub fn resume<'a, D: Debugged>(
    alloc: Global,
    run: &'a D,
    start: &Start,
) -> Result<Dialog<'a>, Memory>
    requires whole { IsWholeStart start.now }
    requires fits { misfit (D.subject run.now) start.now ≡ None }
    ensures dialog { IfOk result (λ dialog. IsDialogOf (D.subject run.now) dialog) }
    ensures said { IfOk result (λ dialog. said_in_dialog dialog ≡ said_at_start start.now) }
{
    match &start.saved {
        Some(session) => resume_session(alloc, run, start, session),
        None => {
            let debug = begin(alloc, run)?;
            Ok(Dialog {
                debug,
                notes: Notes::new(alloc),
                replies: Replies::new(alloc),
                digests: no_digests(alloc),
                classes: None,
            })
        }
    }
}
