//! The trace of a call: what happened in its body, a line for each event, and how the call ended.

ghost use Rattle.std.specs.Prelude.{flat_map};
ghost use Rattle.edge_ports.specs.Printouts.{Prints};
ghost use Rattle.question_text.specs.{Cards.recorded_in, Traces.event_line, Traces.trace_text};

use crate::lines::write_call_text;
use crate::opened::call_at;
use crate::prepared::Recorded;
use crate::ways_out::write_way_line;
use call_tree::{Event, Events};
use cell_names::write_number;
use cell_value::WayOut;
use edge_ports::Printer;

/// Prints the line of one event.
fn write_event<P: Printer>(out: &mut P, from: &Recorded, event: Event)
    ensures { Prints (P.printout out.old) (P.printout out.new) (event_line (recorded_in from.now) event) }
{
    match event {
        Event::Line(line) => {
            out.print(b"  line ");
            write_number(out, line);
            out.print(b"\n");
        }
        Event::Child(number) => match call_at(from.calls, number) {
            None => {}
            Some(call) => {
                out.print(b"  ");
                write_call_text(out, from.program, number, call);
                out.print(b"\n");
            }
        },
    }
}

/// Prints the lines of events.
fn write_events<P: Printer>(out: &mut P, from: &Recorded, events: &Events)
    ensures { Prints (P.printout out.old) (P.printout out.new)
        (flat_map (event_line (recorded_in from.now)) events.now) }
{
    'events: for i in 0..events.len() {
        write_event(out, from, events.at(i));
    }
}

/// Prints the trace of a call, in whose body these events happened, and which ended so: a line for each event, with
/// the number of the source's line, or the number of the call that was made and the name of its routine; and the way
/// out as the card has it. Of a number that is no call's nothing is printed.
#[tactic(auto, unfolding(crate::specs::Traces::trace_text))]
pub fn write_trace<P: Printer>(
    out: &mut P,
    from: &Recorded,
    number: u32,
    events: &Events,
    way: WayOut,
)
    ensures { Prints (P.printout out.old) (P.printout out.new)
        (trace_text (recorded_in from.now) number events.now way) }
{
    match call_at(from.calls, number) {
        None => {}
        Some(call) => {
            write_events(out, from, events);
            write_way_line(out, from.calls, call.parent, way);
        }
    }
}
