//! Whether a saved session fits a run.
ghost use Rattle.std.specs.Prelude.{◌<◌, ◌≡◌, IfOk, Some, length, option_map, slice_get};
ghost use Rattle.dialog_replies.specs.Fit.{entries_misfit, misfit, named_beyond, session_misfit};
ghost use Rattle.dialog_replies.specs.Lines.{misfit_line};
ghost use Rattle.dialog_replies.specs.Start.{gives_replies_alone, has_replies_alone, is_of_run};

use crate::debugged::Debugged;
use crate::lines::line_of;
use crate::misfits::Misfit;
use crate::start::Start;
use answer_book::{Entry, What};
use edge_ports::{Bytes, Memory};
use session_file::Session;
use std::alloc::Global;

/// The entry at a place, counted from 0.
fn entry_at(entries: &[Entry], place: usize) -> Entry
    requires { place < length entries.now }
    ensures { slice_get entries.now place ≡ Some result }
{
    entries[place]
}

/// That the entry of this number names a call or a routine that there is not, if it does.
fn named_beyond<D: Debugged>(run: &D, number: usize, what: What) -> Option<Misfit>
    ensures { result ≡ named_beyond (D.subject run.now) number what }
{
    match what {
        What::Judged(call, _) => {
            if call < run.calls().len() {
                None
            } else {
                Some(Misfit::Call {
                    entry: number,
                    call,
                })
            }
        }
        What::Trusted(routine) => {
            if routine < run.calls().routines() {
                None
            } else {
                Some(Misfit::Routine {
                    entry: number,
                    routine,
                })
            }
        }
    }
}

/// The first entry that names a call or a routine that there is not.
fn entries_misfit<D: Debugged>(run: &D, entries: &[Entry]) -> Option<Misfit>
    ensures { result ≡ entries_misfit (D.subject run.now) 1 entries.now }
{
    'places: for place in 0..entries.len() {
        let entry = entry_at(entries, place);
        match named_beyond(run, place + 1, entry.what) {
            Some(misfit) => return Some(misfit),
            None => {}
        }
    }
    None
}

/// Why a session does not fit the run.
fn session_misfit<D: Debugged>(run: &D, start: &Start, session: &Session) -> Option<Misfit>
    ensures { result ≡ session_misfit (D.subject run.now) start.now session.now }
{
    if start.source != session.source {
        Some(Misfit::Source {
            run: start.source,
            saved: session.source,
        })
    } else if start.input != session.input {
        Some(Misfit::Input {
            run: start.input,
            saved: session.input,
        })
    } else if start.budget != session.budget {
        Some(Misfit::Budget {
            run: start.budget,
            saved: session.budget,
        })
    } else {
        entries_misfit(run, session.entries.as_slice())
    }
}

/// Whether a session is of this run.
fn is_of_run(start: &Start, session: &Session) -> bool
    ensures { result ≡ is_of_run start.now session.now }
{
    start.source == session.source && start.input == session.input && start.budget == session.budget
}

/// Whether a session, which is of another run, gives its replies alone. One of version 1 has none.
pub(crate) fn has_replies_alone(start: &Start, session: &Session) -> bool
    ensures { result ≡ has_replies_alone start.now session.now }
{
    session.version != 1 && !is_of_run(start, session)
}

/// Whether the saved session gives its replies alone.
pub fn gives_replies_alone(start: &Start) -> bool
    ensures { result ≡ gives_replies_alone start.now }
{
    match &start.saved {
        Some(session) => has_replies_alone(start, session),
        None => false,
    }
}

/// Why the saved session does not fit the run.
#[tactic(auto, unfolding(crate::specs::Fit::misfit))]
fn misfit<D: Debugged>(run: &D, start: &Start) -> Option<Misfit>
    ensures { result ≡ misfit (D.subject run.now) start.now }
{
    match &start.saved {
        Some(session) => {
            if has_replies_alone(start, session) {
                None
            } else {
                session_misfit(run, start, session)
            }
        }
        None => None,
    }
}

/// The line that refuses the saved session: that of the first misfit, or none where the session fits the run or there
/// is none.
pub fn refusal<D: Debugged>(alloc: Global, run: &D, start: &Start) -> Result<Option<Bytes>, Memory>
    ensures { IfOk result (λ line. line ≡ option_map misfit_line (misfit (D.subject run.now) start.now)) }
{
    match misfit(run, start) {
        Some(misfit) => {
            let line = line_of(alloc, misfit)?;
            Ok(Some(line))
        }
        None => Ok(None),
    }
}
