//! The card of a call.

ghost use Rattle.std.specs.Prelude.{◌++◌, ◌+◌, ◌≡◌, ◌≤◌, Some, flat_map, length, min, slice_get, slice_range};
ghost use Rattle.edge_ports.specs.Printouts.{Prints};
ghost use Rattle.core_program.specs.ProgramRows.{routine_at};
ghost use Rattle.call_tree.specs.{Told.IsTold, Told.part_of, declared.records.Call.Call as TableCall};
ghost use Rattle.cell_names.specs.{Finding.finding_in, Finding.finding_of, Names.scene_in, Pieces.in_quotation_marks};
ghost use Rattle.question_text.specs.{Cards.scene_of, Cards.takes_text, Cells.change_line, Cells.seen_line};
ghost use Rattle.question_text.specs.Cards.{card, card_lines, effect_text, end_text, gives_text, looks_text, question};
ghost use Rattle.question_text.specs.Cards.{recorded_in, result_by, result_text, result_type, result_value_text};
ghost use Rattle.question_text.specs.Prepared.{AreOpenedIn, AreParts, IsDoneIn};

use crate::cells::{write_changes, write_parameters, write_reads};
use crate::lines::{write_call_line, write_routine_line};
use crate::prepared::{CardParts, Recorded};
use crate::ways_out::write_way_line;
use call_tree::Call;
use cell_names::{
    Frame, Scene, result_of, write_quoted, write_quoted_items, write_typed, write_untyped,
};
use cell_value::{Items, Value};
use core_program::Program;
use edge_ports::Printer;
use effect_log::Footprint;

/// Prints the items from a place to before another, and whether the end was reached.
fn write_looked<P: Printer>(out: &mut P, items: &Items, place: u32, to: u64)
    requires in_input { place ≤ length items.now }
    requires in_order { place ≤ to }
    ensures { Prints (P.printout out.old) (P.printout out.new)
        (in_quotation_marks (slice_range items.now place (min to (length items.now)))
        ++ end_text (length items.now) to) }
{
    if to <= u64::from(items.len()) {
        write_quoted_items(out, items, place, to as u32);
    } else {
        write_quoted_items(out, items, place, items.len());
        out.print(b" end");
    }
}

/// Prints the line on the items that were looked at, this many from a place on.
fn write_looks<P: Printer>(out: &mut P, items: &Items, place: u32, looked: u32)
    requires { place ≤ length items.now }
    ensures { Prints (P.printout out.old) (P.printout out.new) (looks_text items.now place looked) }
{
    if looked == 0 {
        return;
    }
    out.print(b"  looks ");
    write_looked(out, items, place, u64::from(place) + u64::from(looked));
    out.print(b"\n");
}

/// Prints the line on the items that were taken, this many from a place on.
fn write_takes<P: Printer>(out: &mut P, items: &Items, place: u32, taken: u32)
    requires { place + taken ≤ length items.now }
    ensures { Prints (P.printout out.old) (P.printout out.new) (takes_text items.now place taken) }
{
    if taken == 0 {
        return;
    }
    // The input has this many items; so their number is one of 32 bits.
    let _most = items.len();
    out.print(b"  takes ");
    write_quoted_items(out, items, place, place + taken);
    out.print(b"\n");
}

/// Prints the line on the bytes that were given.
fn write_gives<P: Printer>(out: &mut P, bytes: &[u8])
    ensures { Prints (P.printout out.old) (P.printout out.new) (gives_text bytes.now) }
{
    if bytes.is_empty() {
        return;
    }
    out.print(b"  gives ");
    write_quoted(out, bytes);
    out.print(b"\n");
}

/// Prints a result of a type.
fn write_result_value<P: Printer>(out: &mut P, program: &Program, of: Option<u32>, value: Value)
    ensures { Prints (P.printout out.old) (P.printout out.new) (result_value_text program.now of value) }
{
    match of {
        None => write_untyped(out, value),
        Some(of) => write_typed(out, program, of, value),
    }
}

/// Prints the line on the result of a function of a type.
fn write_result_of<P: Printer>(
    out: &mut P,
    program: &Program,
    of: Option<u32>,
    value: Option<Value>,
)
    ensures { Prints (P.printout out.old) (P.printout out.new) (result_by program.now of value) }
{
    match value {
        None => {}
        Some(value) => {
            out.print(b"  result ");
            write_result_value(out, program, of, value);
            out.print(b"\n");
        }
    }
}

/// The type of the result of a routine, if it is a function.
fn result_type(program: &Program, routine: u32) -> Option<u32>
    ensures { result ≡ result_type program.now (routine_at program.now routine) }
{
    match program.routine(routine) {
        None => None,
        Some(routine) => result_of(program.row(routine.heading)),
    }
}

/// Prints the line on the result of a call of a function that returned.
fn write_result<P: Printer>(out: &mut P, program: &Program, routine: u32, value: Option<Value>)
    ensures { Prints (P.printout out.old) (P.printout out.new) (result_text program.now routine value) }
{
    write_result_of(out, program, result_type(program, routine), value);
}

/// Prints the lines on cells of an effect.
fn write_touched<P: Printer>(out: &mut P, scene: &Scene, done: &Footprint)
    ensures { Prints (P.printout out.old) (P.printout out.new)
        (flat_map (seen_line (scene_in scene.now)) done.now.reads
        ++ flat_map (change_line (scene_in scene.now)) done.now.changes) }
{
    write_reads(out, scene, &done.reads);
    write_changes(out, scene, &done.changes);
}

/// Prints the lines on what an effect has of the input, from a place on, and of the output.
fn write_passed<P: Printer>(out: &mut P, items: &Items, place: u32, done: &Footprint)
    requires { place + done.now.taken ≤ length items.now }
    ensures { Prints (P.printout out.old) (P.printout out.new)
        (looks_text items.now place done.now.looked ++ takes_text items.now place done.now.taken
        ++ gives_text done.now.given) }
{
    write_looks(out, items, place, done.looked);
    write_takes(out, items, place, done.taken);
    write_gives(out, done.given.as_slice());
}

/// Prints the lines on what a call did.
fn write_effect<P: Printer>(
    out: &mut P,
    from: &Recorded,
    scene: &Scene,
    call: &Call,
    done: &Footprint,
)
    requires told { IsTold from.now.log.now from.now.items.now call.now }
    requires done { IsDoneIn (part_of from.now.log.now call.now) call.now done.now }
    ensures { Prints (P.printout out.old) (P.printout out.new)
        (effect_text (scene_in scene.now) from.now.items.now call.now (part_of from.now.log.now call.now)) }
{
    write_touched(out, scene, done);
    write_passed(out, from.items, call.entry.place, done);
}

/// Prints the lines of a card after the first.
fn write_lines<P: Printer>(
    out: &mut P,
    from: &Recorded,
    number: u32,
    scene: &Scene,
    call: &Call,
    done: &Footprint,
)
    requires told { IsTold from.now.log.now from.now.items.now call.now }
    requires done { IsDoneIn (part_of from.now.log.now call.now) call.now done.now }
    ensures { Prints (P.printout out.old) (P.printout out.new)
        (card_lines (recorded_in from.now) number (scene_in scene.now) call.now) }
{
    let frame = Frame {
        call: number,
        routine: call.routine,
        top: call.entry.top,
    };
    write_parameters(out, scene, frame, &call.args);
    write_effect(out, from, scene, call, done);
    write_result(out, from.program, call.routine, call.result);
    write_way_line(out, from.calls, call.parent, call.way);
}

/// Prints the lines of the card of a call after the first.
fn write_below<P: Printer>(
    out: &mut P,
    from: &Recorded,
    number: u32,
    call: &Call,
    parts: &CardParts,
)
    requires names { finding_in from.now.names.now ≡ finding_of from.now.program.now from.now.tokens from.now.log.now }
    requires told { IsTold from.now.log.now from.now.items.now call.now }
    requires opened { AreOpenedIn (recorded_in from.now) number parts.now.opened }
    requires done { IsDoneIn (part_of from.now.log.now call.now) call.now parts.now.done }
    ensures { Prints (P.printout out.old) (P.printout out.new)
        (card_lines (recorded_in from.now) number (scene_of (recorded_in from.now) number) call.now) }
{
    let scene = Scene {
        program: from.program,
        names: from.names,
        routines: from.calls.routine_column(),
        calls: from.calls,
        opened: &parts.opened,
    };
    write_lines(out, from, number, &scene, call, &parts.done);
}

/// Prints the card of a call: what it was called with, what it read and changed, looked at, took and gave, what it gave
/// back, and how it ended. Of a number that is no call's nothing is printed.
///
/// What is found by its place is that of the program, whose source has this many tokens, and of the log. The call's
/// part of the log is one whose effect can be counted, and the input has the items that it took. The parts are those of
/// this call's card.
pub fn write_call<P: Printer>(out: &mut P, from: &Recorded, number: u32, parts: &CardParts)
    requires names { finding_in from.now.names.now ≡ finding_of from.now.program.now from.now.tokens from.now.log.now }
    requires told { (c : TableCall) → slice_get from.now.calls.now.calls number ≡ Some c
        → IsTold from.now.log.now from.now.items.now c }
    requires parts { AreParts (recorded_in from.now) number parts.now }
    ensures { Prints (P.printout out.old) (P.printout out.new) (card (recorded_in from.now) number) }
{
    if number >= from.calls.len() {
        return;
    }
    let call = from.calls.call(number);
    write_call_line(out, from.program, number, call);
    write_below(out, from, number, call, parts);
}

/// Prints the text of the question about a call: its card, with the name of its routine alone as the first line. It
/// says neither which number the call has nor which call made it, so that the same question is known again in another
/// run. Of a number that is no call's nothing is printed.
///
/// What is found by its place is as for `write_call`, and so are the call's part of the log, the input and the parts.
pub fn write_question<P: Printer>(out: &mut P, from: &Recorded, number: u32, parts: &CardParts)
    requires names { finding_in from.now.names.now ≡ finding_of from.now.program.now from.now.tokens from.now.log.now }
    requires told { (c : TableCall) → slice_get from.now.calls.now.calls number ≡ Some c
        → IsTold from.now.log.now from.now.items.now c }
    requires parts { AreParts (recorded_in from.now) number parts.now }
    ensures { Prints (P.printout out.old) (P.printout out.new) (question (recorded_in from.now) number) }
{
    if number >= from.calls.len() {
        return;
    }
    let call = from.calls.call(number);
    write_routine_line(out, from.program, call);
    write_below(out, from, number, call, parts);
}
