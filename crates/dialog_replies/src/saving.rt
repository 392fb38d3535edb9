//! The session of the moment.
ghost use Rattle.std.specs.Prelude.{◌<◌, ◌≡◌, IfOk, OnOk, Some, length, slice_get};
ghost use Rattle.answer_book.specs.InRange.{IsInRange};
ghost use Rattle.dialog_replies.specs.{Said.with_entries, Said.with_entry, Subject.calls_recorded};
ghost use Rattle.dialog_replies.specs.Kept.{AreDigestsOf, IsDialogOf, IsSearchOf, said_in_dialog};
ghost use Rattle.dialog_replies.specs.Start.{saved_text, session_with};

use crate::debugged::Debugged;
use crate::dialogs::Dialog;
use crate::questions::{Digests, digest_on};
use crate::start::Start;
use answer_book::{Entry, What};
use edge_ports::{Bytes, Memory};
use optimal_query::Debug;
use session_file::{Replies, SavedEntries, Session, save};
use std::alloc::Global;

/// The entries of the moment.
fn entries_now(alloc: Global, debug: &Debug) -> Result<SavedEntries, Memory>
    ensures { IfOk result (λ entries. entries ≡ debug.now.book.entries) }
{
    let book = debug.book();
    let mut entries = SavedEntries::new(alloc);
    'places: for place in 0..book.entries() {
        entries.push(book.entry(place + 1))?;
    }
    Ok(entries)
}

/// Sets the reply of an entry to the question about its call, if it judges one and stands.
fn set_entry<D: Debugged>(
    alloc: Global,
    run: &D,
    digests: &mut Digests,
    replies: &mut Replies,
    entry: Entry,
) -> Result<(), Memory>
    requires named { IsInRange (calls_recorded (D.subject run.now)) (D.subject run.now).routines entry.what }
    requires digests { AreDigestsOf (D.subject run.now) digests.old }
    ensures set { OnOk result (replies.new ≡ with_entry (D.subject run.now) replies.old entry) }
    ensures digests { AreDigestsOf (D.subject run.now) digests.new }
{
    if !entry.standing {
        return Ok(());
    }
    match entry.what {
        What::Judged(call, judgement) => {
            let digest = digest_on(alloc, run, digests, call)?;
            replies.set(digest, judgement)
        }
        What::Trusted(_) => Ok(()),
    }
}

/// The entry at a place, counted from 0. It names a call or a routine that there is.
fn entry_in<D: Debugged>(run: &D, debug: &Debug, place: u32) -> Entry
    requires search { IsSearchOf (D.subject run.now) debug.now }
    requires place { place < length debug.now.book.entries }
    requires few { place < 100000 }
    ensures found { slice_get debug.now.book.entries place ≡ Some result }
    ensures named { IsInRange (calls_recorded (D.subject run.now)) (D.subject run.now).routines result.what }
{
    debug.book().entry(place + 1)
}

/// These replies, and one for each judgement that stands, in order of the entries.
fn replies_with<D: Debugged>(
    alloc: Global,
    run: &D,
    debug: &Debug,
    loaded: &Replies,
    digests: &mut Digests,
) -> Result<Replies, Memory>
    requires search { IsSearchOf (D.subject run.now) debug.now }
    requires digests { AreDigestsOf (D.subject run.now) digests.old }
    ensures replies { IfOk result (λ replies. replies
        ≡ with_entries (D.subject run.now) loaded.now debug.now.book.entries) }
    ensures digests { AreDigestsOf (D.subject run.now) digests.new }
{
    let mut replies = loaded.copied()?;
    'places: for place in 0..debug.book().entries() {
        let entry = entry_in(run, debug, place);
        set_entry(alloc, run, digests, &mut replies, entry)?;
    }
    Ok(replies)
}

/// The session of the moment.
fn session_now<D: Debugged>(
    alloc: Global,
    run: &D,
    start: &Start,
    dialog: &mut Dialog,
) -> Result<Session, Memory>
    requires dialog { IsDialogOf (D.subject run.now) dialog.old }
    ensures session { IfOk result (λ session. session
        ≡ session_with (D.subject run.now) start.now (said_in_dialog dialog.old)) }
    ensures said { said_in_dialog dialog.new ≡ said_in_dialog dialog.old }
    ensures dialog { IsDialogOf (D.subject run.now) dialog.new }
{
    let replies = replies_with(
        alloc,
        run,
        &dialog.debug,
        &dialog.replies,
        &mut dialog.digests,
    )?;
    let entries = entries_now(alloc, &dialog.debug)?;
    let notes = dialog.notes.copied()?;
    Ok(Session {
        version: 2,
        source: start.source,
        input: start.input,
        budget: start.budget,
        entries,
        notes,
        replies,
    })
}

/// The text of the session of this run as it stands: its entries, the notes on them, and the replies.
pub fn session_text_of<D: Debugged>(
    alloc: Global,
    run: &D,
    start: &Start,
    dialog: &mut Dialog,
) -> Result<Bytes, Memory>
    requires dialog { IsDialogOf (D.subject run.now) dialog.old }
    ensures text { IfOk result (λ text. text
        ≡ saved_text (D.subject run.now) start.now (said_in_dialog dialog.old)) }
    ensures said { said_in_dialog dialog.new ≡ said_in_dialog dialog.old }
    ensures dialog { IsDialogOf (D.subject run.now) dialog.new }
{
    let session = session_now(alloc, run, start, dialog)?;
    save(alloc, &session)
}
