//! What is printed of the run of a made program.
ghost use Rattle.std.specs.Prelude.{◌++◌, ◌<◌, ◌≡◌, IfOk, OnOk};
ghost use Rattle.dialog_replies.specs.{Kept.IsSearchOf, Subject.calls_recorded, Subject.state_after};
ghost use Rattle.made_program.specs.Lines.{counted_line, fault_lines, found_line, made_lines};

use crate::answering::answer_all;
use crate::laws::run_finds_the_fault;
use dialog_replies::{Debugged, begin, state_now, write_named_call, write_number};
use edge_ports::{Bytes, Memory};
use optimal_query::{Debug, SearchState};
use std::alloc::Global;

/// Appends a line of a word and a number.
fn write_count(out: &mut Bytes, word: &[u8], number: u32) -> Result<(), Memory>
    ensures { OnOk result (out.new ≡ out.old ++ counted_line word.now number) }
{
    out.append(word)?;
    out.append(b" ")?;
    write_number(out, number)?;
    out.append(b"\n")?;
    Ok(())
}

/// Appends the line on the call that is found, where one is.
fn write_found<D: Debugged>(out: &mut Bytes, run: &D, debug: &Debug) -> Result<(), Memory>
    requires { IsSearchOf (D.subject run.now) debug.now }
    ensures { OnOk result (out.new ≡ out.old ++ found_line (D.subject run.now)
        (state_after (D.subject run.now) debug.now.book.entries)) }
{
    match state_now(run, debug) {
        SearchState::Found(call) => {
            out.append(b"found call ")?;
            write_named_call(out, run, call)?;
            out.append(b"\n")
        }
        SearchState::Ask { .. }
        | SearchState::Narrowed(_)
        | SearchState::NothingWrong
        | SearchState::Unclear => Ok(()),
    }
}

/// Searches the run, and gives the lines on it.
#[tactic(auto, unfolding(crate::specs::Lines::made_lines))]
fn lines_of_search<D: Debugged>(alloc: Global, run: &D) -> Result<Bytes, Memory>
    ensures { IfOk result (λ text. text ≡ made_lines (D.subject run.now)) }
{
    let mut debug = begin(alloc, run)?;
    let questions = answer_all(run, &mut debug);
    let mut text = Bytes::new(alloc);
    write_count(&mut text, b"calls", run.calls().len())?;
    write_count(&mut text, b"questions", questions)?;
    write_found(&mut text, run, &debug)?;
    Ok(text)
}

/// The lines on the run of a made program: how many calls it has, how many questions the search took,
/// and the call that is found. The questions are answered with no one asked: a call is wrong if the one
/// that a third of the calls were entered before stands in its subtree. That call is found, where there
/// are fewer than 100,000 calls.
pub fn made_lines<D: Debugged>(alloc: Global, run: &D) -> Result<Bytes, Memory>
    ensures lines { IfOk result (λ text. text ≡ made_lines (D.subject run.now)) }
    ensures finds { IfOk result (λ text. calls_recorded (D.subject run.now) < 100000
        → text ≡ fault_lines (D.subject run.now)) }
{
    run_finds_the_fault(run);
    lines_of_search(alloc, run)
}
