//! Replies that are prepared, and how they are printed.
ghost use Rattle.std.specs.Prelude.{if◌then◌else◌, ◌++◌, ◌<◌, ◌≡◌, codes};
ghost use Rattle.edge_ports.specs.Printouts.{Prints};
ghost use Rattle.dialog_replies.specs.{Replies.no_cell, Said.Said, Subject.calls_recorded};
ghost use Rattle.dialog_replies.specs.Kept.{IsDialogOf, IsSearchOf, said_in_dialog};
ghost use Rattle.dialog_replies.specs.Prepared.{IsReply, IsReport, text_of_reply, text_of_report};
ghost use Rattle.dialog_replies.specs.Texts.{doubt_line, doubt_lines, kept_line, named_call, question_line};

use crate::calls::{print_named_call, print_number};
use crate::debugged::Debugged;
use crate::dialogs::Dialog;
use answer_book::Judgement;
use call_tree::Mark;
use edge_ports::{Bytes, Printer};
use optimal_query::Debug;
use session_file::judgement_word;

/// The report on the state of the search, with what it is printed from.
#[derive(Drop)]
pub enum Report<C, T> {
    /// A call is asked about.
    Ask {
        call: u32,
        suspects: u32,
        left: u32,
        card: C,
        /// The reply that was kept to the question, if there is one.
        kept: Option<Judgement>,
    },
    /// This call is at fault.
    Found(u32, T),
    /// The fault is narrowed to this call and the doubts.
    Narrowed(u32),
    /// No call is judged wrong.
    NothingWrong,
    /// Only doubts are left.
    Unclear,
}

/// What a line is replied, with what it is printed from. Printing it takes no memory.
#[derive(Drop)]
pub enum Reply<C, O, T> {
    /// A text.
    Text(Bytes),
    /// A text, and the report.
    Reported(Bytes, Report<C, T>),
    /// A text, the card of call 0, and the report.
    Opening(Bytes, C, Report<C, T>),
    /// The card of a call.
    Card(u32, C),
    /// The trace of a call.
    Trace(u32, T),
    /// The lines on the cells of a name before and after a call, or that there is none.
    State(u32, Bytes, O),
    /// The tree of the calls, with these marks.
    Tree(Vec<Mark>),
}

/// Prints the line of a question.
fn print_question<P: Printer>(out: &mut P, call: u32, suspects: u32, left: u32)
    ensures { Prints (P.printout out.old) (P.printout out.new) (question_line call suspects left) }
{
    out.print(b"ask ");
    print_number(out, call);
    out.print(b" suspects ");
    print_number(out, suspects);
    out.print(b" left ");
    print_number(out, left);
    out.print(b"\n");
}

/// Prints the line on a doubt.
fn print_doubt<D: Debugged, P: Printer>(out: &mut P, run: &D, call: u32)
    requires { call < calls_recorded (D.subject run.now) }
    ensures { Prints (P.printout out.old) (P.printout out.new) (doubt_line (D.subject run.now) call) }
{
    out.print(b"  doubt ");
    print_named_call(out, run, call);
    out.print(b"\n");
}

/// Prints a line on each doubt, rising.
fn print_doubts<D: Debugged, P: Printer>(out: &mut P, run: &D, debug: &Debug)
    requires { IsSearchOf (D.subject run.now) debug.now }
    ensures { Prints (P.printout out.old) (P.printout out.new)
        (doubt_lines (D.subject run.now) debug.now.book.entries) }
{
    let mut last = None;
    'doubts: loop {
        match debug.next_unknown(last) {
            Some(doubt) => {
                print_doubt(out, run, doubt);
                last = Some(doubt);
            }
            None => return,
        }
    }
}

/// Prints the reply that was kept to a question, if there is one.
fn print_kept<P: Printer>(out: &mut P, kept: Option<Judgement>)
    ensures { Prints (P.printout out.old) (P.printout out.new) (kept_line kept) }
{
    if let Some(judgement) = kept {
        out.print(b"  kept ");
        out.print(judgement_word(judgement).as_bytes());
        out.print(b"\n");
    }
}

/// Prints words, a call by its number and the name of its routine, and the end of the line.
fn print_verdict<D: Debugged, P: Printer>(out: &mut P, run: &D, words: &[u8], call: u32)
    requires { call < calls_recorded (D.subject run.now) }
    ensures { Prints (P.printout out.old) (P.printout out.new)
        (words.now ++ named_call (D.subject run.now) call ++ codes "\n") }
{
    out.print(words);
    print_named_call(out, run, call);
    out.print(b"\n");
}

/// Prints the report on the state of the search.
fn print_report<D: Debugged, P: Printer>(
    out: &mut P,
    run: &D,
    debug: &Debug,
    report: &Report<D::Card, D::Trace>,
)
    requires search { IsSearchOf (D.subject run.now) debug.now }
    requires prepared { IsReport (D.prepared run.now) (calls_recorded (D.subject run.now)) report.now }
    ensures { (said : Said) → said.entries ≡ debug.now.book.entries
        → Prints (P.printout out.old) (P.printout out.new) (text_of_report (D.subject run.now) said report.now) }
{
    match report {
        Report::Ask {
            call,
            suspects,
            left,
            card,
            kept,
        } => {
            print_question(out, *call, *suspects, *left);
            run.write_card(out, *call, card);
            print_kept(out, *kept);
        }
        Report::Found(call, trace) => {
            print_verdict(out, run, b"found call ", *call);
            run.write_trace(out, *call, trace);
        }
        Report::Narrowed(call) => {
            print_verdict(out, run, b"narrowed to call ", *call);
            print_doubts(out, run, debug);
        }
        Report::NothingWrong => out.print(b"nothing wrong\n"),
        Report::Unclear => {
            out.print(b"unclear\n");
            print_doubts(out, run, debug);
        }
    }
}

/// Prints that no cell has this name before or after a call.
fn print_no_cell<P: Printer>(out: &mut P, call: u32, name: &[u8])
    ensures { Prints (P.printout out.old) (P.printout out.new) (no_cell call name.now) }
{
    out.print(b"no cell ");
    out.print(name);
    out.print(b" at call ");
    print_number(out, call);
    out.print(b"\n");
}

/// Prints the lines on the cells of a name before and after a call, or that there is none.
fn print_state<D: Debugged, P: Printer>(
    out: &mut P,
    run: &D,
    call: u32,
    name: &[u8],
    opened: &D::Opened,
)
    requires a_call { call < calls_recorded (D.subject run.now) }
    requires prepared { (D.prepared run.now).opened call opened.now }
    ensures { Prints (P.printout out.old) (P.printout out.new) (if (D.subject run.now).has_cell call name.now
        then (D.subject run.now).state call name.now else no_cell call name.now) }
{
    if !run.write_state(out, call, name, opened) {
        print_no_cell(out, call, name);
    }
}

/// Prints a reply, where this was said. What it is printed from was prepared over this run.
pub fn print_reply<D: Debugged, P: Printer>(
    out: &mut P,
    run: &D,
    dialog: &Dialog,
    reply: &Reply<D::Card, D::Opened, D::Trace>,
)
    requires dialog { IsDialogOf (D.subject run.now) dialog.now }
    requires prepared { IsReply (D.prepared run.now) (calls_recorded (D.subject run.now)) reply.now }
    ensures { Prints (P.printout out.old) (P.printout out.new)
        (text_of_reply (D.subject run.now) (said_in_dialog dialog.now) reply.now) }
{
    match reply {
        Reply::Text(text) => out.print(text.as_slice()),
        Reply::Reported(text, report) => {
            out.print(text.as_slice());
            print_report(out, run, &dialog.debug, report);
        }
        Reply::Opening(text, card, report) => {
            out.print(text.as_slice());
            run.write_card(out, 0, card);
            print_report(out, run, &dialog.debug, report);
        }
        Reply::Card(call, card) => run.write_card(out, *call, card),
        Reply::Trace(call, trace) => run.write_trace(out, *call, trace),
        Reply::State(call, name, opened) => {
            print_state(out, run, *call, name.as_slice(), opened);
        }
        Reply::Tree(marks) => run.write_tree(out, marks),
    }
}
