//! The first line of a card, and its parts.

ghost use Rattle.edge_ports.specs.Printouts.{Prints};
ghost use Rattle.question_text.specs.Lines.{call_line, call_text, in_parent, routine_line};

use call_tree::Call;
use cell_names::write_number;
use core_program::Program;
use edge_ports::Printer;

/// Prints a call by its number and the name of its routine.
pub(crate) fn write_call_text<P: Printer>(out: &mut P, program: &Program, number: u32, call: &Call)
    ensures { Prints (P.printout out.old) (P.printout out.new) (call_text program.now number call.now) }
{
    out.print(b"call ");
    write_number(out, number);
    out.print(b" ");
    out.print(program.name(call.routine));
}

/// Prints the call in which one was made.
fn write_parent<P: Printer>(out: &mut P, parent: Option<u32>)
    ensures { Prints (P.printout out.old) (P.printout out.new) (in_parent parent) }
{
    match parent {
        None => {}
        Some(parent) => {
            out.print(b" in call ");
            write_number(out, parent);
        }
    }
}

/// Prints the first line of a card: a call by its number, the name of its routine, and the call that made it.
pub(crate) fn write_call_line<P: Printer>(out: &mut P, program: &Program, number: u32, call: &Call)
    ensures { Prints (P.printout out.old) (P.printout out.new) (call_line program.now number call.now) }
{
    write_call_text(out, program, number, call);
    write_parent(out, call.parent);
    out.print(b"\n");
}

/// Prints the name of the routine of a call, as a line.
pub(crate) fn write_routine_line<P: Printer>(out: &mut P, program: &Program, call: &Call)
    ensures { Prints (P.printout out.old) (P.printout out.new) (routine_line program.now call.now) }
{
    out.print(program.name(call.routine));
    out.print(b"\n");
}
