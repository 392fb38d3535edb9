//! How a call ended.

ghost use Rattle.std.specs.Prelude.{◌++◌, ◌≡◌, codes, decimal, length};
ghost use Rattle.edge_ports.specs.Printouts.{Prints};
ghost use Rattle.question_text.specs.{Frames.call_of_frame, Lines.inner_line};
ghost use Rattle.question_text.specs.WaysOut.{fault_text, holder_text, limit_text, way_text};

use crate::opened::frame_of;
use call_tree::Calls;
use cell_names::write_number;
use cell_value::{Kind, WayOut, Which};
use edge_ports::Printer;

/// The name of a kind of fault.
fn fault_name(kind: Kind) -> &'static str
    ensures { result.now ≡ fault_text kind }
{
    match kind {
        Kind::Overflow => "Overflow",
        Kind::ZeroDivisor => "ZeroDivisor",
        Kind::BadModulus => "BadModulus",
        Kind::OutOfRange => "OutOfRange",
        Kind::Undefined => "Undefined",
        Kind::NilPointer => "NilPointer",
        Kind::Disposed => "Disposed",
        Kind::InactiveVariant => "InactiveVariant",
        Kind::NoCase => "NoCase",
        Kind::PastEnd => "PastEnd",
        Kind::BadNumber => "BadNumber",
        Kind::BadWidth => "BadWidth",
        Kind::UndefinedResult => "UndefinedResult",
    }
}

/// The name of a limit.
fn limit_name(which: Which) -> &'static str
    ensures { result.now ≡ limit_text which }
{
    match which {
        Which::Calls => "calls",
        Which::Depth => "depth",
        Which::Stack => "stack",
        Which::Heap => "heap",
    }
}

/// The innermost open call whose frame begins at a base, from one on and then outward.
fn call_of_frame(calls: &Calls, from: Option<u32>, base: u32) -> Option<u32>
    ensures { result ≡ call_of_frame calls.now.calls (length calls.now.calls) from base }
{
    let mut at = from;
    'calls: for _ in 0..calls.len() {
        match frame_of(calls, at) {
            None => return None,
            Some(frame) => {
                if frame.part.place == base {
                    return Some(frame.part.number);
                }
                at = frame.outer;
            }
        }
    }
    None
}

/// Prints the call that went on at a label; or, if it is no open call, where its frame begins.
fn write_holder<P: Printer>(out: &mut P, base: u32, holder: Option<u32>)
    ensures { Prints (P.printout out.old) (P.printout out.new) (holder_text base holder) }
{
    match holder {
        None => {
            out.print(b" of frame ");
            write_number(out, base);
        }
        Some(call) => {
            out.print(b" of call ");
            write_number(out, call);
        }
    }
}

/// Prints the label to which a call was left, and the call that went on there.
fn write_jump<P: Printer>(out: &mut P, label: u32, base: u32, holder: Option<u32>)
    ensures { Prints (P.printout out.old) (P.printout out.new)
        (codes "jumped to " ++ decimal label ++ holder_text base holder) }
{
    out.print(b"jumped to ");
    write_number(out, label);
    write_holder(out, base, holder);
}

/// Prints how a call ended that this call made.
fn write_way_out<P: Printer>(out: &mut P, calls: &Calls, parent: Option<u32>, way: WayOut)
    ensures { Prints (P.printout out.old) (P.printout out.new) (way_text calls.now.calls parent way) }
{
    match way {
        WayOut::Returned => out.print(b"returned"),
        WayOut::Jumped(label, base) => {
            write_jump(out, label, base, call_of_frame(calls, parent, base));
        }
        WayOut::Faulted(kind, line) => {
            out.print(b"faulted ");
            out.print(fault_name(kind).as_bytes());
            out.print(b" line ");
            write_number(out, line);
        }
        WayOut::OutOfSteps => out.print(b"out of steps"),
        WayOut::Limited(which) => {
            out.print(b"limited ");
            out.print(limit_name(which).as_bytes());
        }
    }
}

/// Prints how a call ended that this call made, as a line of its card and of its trace.
pub(crate) fn write_way_line<P: Printer>(
    out: &mut P,
    calls: &Calls,
    parent: Option<u32>,
    way: WayOut,
)
    ensures { Prints (P.printout out.old) (P.printout out.new) (inner_line (way_text calls.now.calls parent way)) }
{
    out.print(b"  ");
    write_way_out(out, calls, parent, way);
    out.print(b"\n");
}
