//! The report on the state of the search, prepared.
ghost use Rattle.std.specs.Prelude.{◌≡◌, IfOk};
ghost use Rattle.dialog_replies.specs.{Prepared.IsReport, Prepared.text_of_report, Texts.report};
ghost use Rattle.dialog_replies.specs.Kept.{IsDialogOf, IsSearchOf, said_in_dialog};
ghost use Rattle.dialog_replies.specs.Subject.{calls_recorded, state_after};

use crate::debugged::Debugged;
use crate::dialogs::Dialog;
use crate::questions::kept_reply;
use crate::reply::Report;
use edge_ports::Memory;
use optimal_query::{Debug, SearchState};
use std::alloc::Global;

/// The state of the search.
pub fn state_now<D: Debugged>(run: &D, debug: &Debug) -> SearchState
    requires { IsSearchOf (D.subject run.now) debug.now }
    ensures { result ≡ state_after (D.subject run.now) debug.now.book.entries }
{
    debug.state()
}

/// The report on the state of the search. No digest of the question is made where no replies are kept.
#[tactic(auto, unfolding(crate::specs::Texts::report))]
pub fn report_now<D: Debugged>(
    alloc: Global,
    run: &D,
    dialog: &mut Dialog,
) -> Result<Report<D::Card, D::Trace>, Memory>
    requires dialog { IsDialogOf (D.subject run.now) dialog.old }
    ensures text { IfOk result (λ r. text_of_report (D.subject run.now) (said_in_dialog dialog.old) r
        ≡ report (D.subject run.now) (said_in_dialog dialog.old)) }
    ensures prepared { IfOk result (IsReport (D.prepared run.now) (calls_recorded (D.subject run.now))) }
    ensures said { said_in_dialog dialog.new ≡ said_in_dialog dialog.old }
    ensures dialog { IsDialogOf (D.subject run.now) dialog.new }
{
    match state_now(run, &dialog.debug) {
        SearchState::Ask {
            call,
            suspects,
            left,
            ..
        } => {
            let card = run.prepare_card(alloc, call)?;
            let kept = kept_reply(alloc, run, dialog, call)?;
            Ok(Report::Ask {
                call,
                suspects,
                left,
                card,
                kept,
            })
        }
        SearchState::Found(call) => Ok(Report::Found(call, run.prepare_trace(alloc, call)?)),
        SearchState::Narrowed(call) => Ok(Report::Narrowed(call)),
        SearchState::NothingWrong => Ok(Report::NothingWrong),
        SearchState::Unclear => Ok(Report::Unclear),
    }
}
