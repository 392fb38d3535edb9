//! The calls of a run, a line for each.

ghost use Rattle.std.specs.Prelude.{◌≡◌, length};
ghost use Rattle.edge_ports.specs.Printouts.{Prints};
ghost use Rattle.question_text.specs.Trees.{mark_text, numbered_routine, tree_line, tree_text, under};

use call_tree::{Call, Calls, Mark};
use cell_names::write_number;
use core_program::Program;
use edge_ports::Printer;

/// The name of what is said of a call.
fn mark_name(mark: Mark) -> &'static str
    ensures { result.now ≡ mark_text mark }
{
    match mark {
        Mark::Unjudged => "unjudged",
        Mark::Right => "right",
        Mark::Wrong => "wrong",
        Mark::Unknown => "unknown",
        Mark::Trusted => "trusted",
    }
}

/// Prints the call that made one.
fn write_under<P: Printer>(out: &mut P, parent: Option<u32>)
    ensures { Prints (P.printout out.old) (P.printout out.new) (under parent) }
{
    match parent {
        None => {}
        Some(parent) => {
            out.print(b" in ");
            write_number(out, parent);
        }
    }
}

/// Prints the routine of a call, by its name and its number.
fn write_routine<P: Printer>(out: &mut P, program: &Program, routine: u32)
    ensures { Prints (P.printout out.old) (P.printout out.new) (numbered_routine program.now routine) }
{
    out.print(b" ");
    out.print(program.name(routine));
    out.print(b" #");
    write_number(out, routine);
}

/// Prints the line of a call.
fn write_tree_line<P: Printer>(out: &mut P, program: &Program, number: u32, call: &Call, mark: Mark)
    ensures { Prints (P.printout out.old) (P.printout out.new) (tree_line program.now number call.now mark) }
{
    write_number(out, number);
    write_under(out, call.parent);
    write_routine(out, program, call.routine);
    out.print(b" ");
    out.print(mark_name(mark).as_bytes());
    out.print(b"\n");
}

/// Prints the calls of a run, a line for each, in order of entry: its number, the call that made it, its routine by
/// name and number, and its mark. There is a mark for each call.
pub fn write_tree<P: Printer>(out: &mut P, program: &Program, calls: &Calls, marks: &[Mark])
    requires { length marks.now ≡ length calls.now.calls }
    ensures { Prints (P.printout out.old) (P.printout out.new) (tree_text program.now calls.now.calls marks.now) }
{
    'calls: for number in 0..calls.len() {
        write_tree_line(
            out,
            program,
            number,
            calls.call(number),
            marks[number as usize],
        );
    }
}
