//! Calls and routines by number and name.
ghost use Rattle.std.specs.Prelude.{◌++◌, ◌<◌, ◌≡◌, OnOk, decimal};
ghost use Rattle.std.specs.Str.{str_eq_ignore_ascii_case};
ghost use Rattle.edge_ports.specs.Printouts.{Prints};
ghost use Rattle.dialog_replies.specs.Subject.{calls_recorded, routine_named};
ghost use Rattle.dialog_replies.specs.Texts.{named_call, routine_of};

use crate::debugged::Debugged;
use edge_ports::{Bytes, Memory, Printer};
use itoa::Buffer;

/// Appends a number in decimal.
pub fn write_number(out: &mut Bytes, number: u32) -> Result<(), Memory>
    ensures { OnOk result (out.new ≡ out.old ++ decimal number) }
{
    let mut buffer = Buffer::new();
    out.append(buffer.format(number).as_bytes())?;
    Ok(())
}

/// Prints a number in decimal.
pub fn print_number<P: Printer>(out: &mut P, number: u32)
    ensures { Prints (P.printout out.old) (P.printout out.new) (decimal number) }
{
    let mut buffer = Buffer::new();
    out.print(buffer.format(number).as_bytes());
}

/// The routine of a call.
fn routine_of<D: Debugged>(run: &D, call: u32) -> u32
    requires { call < calls_recorded (D.subject run.now) }
    ensures { result ≡ routine_of (D.subject run.now) call }
{
    run.calls().routine_column()[call as usize]
}

/// Appends a call by its number and the name of its routine.
pub fn write_named_call<D: Debugged>(out: &mut Bytes, run: &D, call: u32) -> Result<(), Memory>
    requires { call < calls_recorded (D.subject run.now) }
    ensures { OnOk result (out.new ≡ out.old ++ named_call (D.subject run.now) call) }
{
    write_number(out, call)?;
    out.append(b" ")?;
    out.append(run.name(routine_of(run, call)))?;
    Ok(())
}

/// Prints a call by its number and the name of its routine.
pub fn print_named_call<D: Debugged, P: Printer>(out: &mut P, run: &D, call: u32)
    requires { call < calls_recorded (D.subject run.now) }
    ensures { Prints (P.printout out.old) (P.printout out.new) (named_call (D.subject run.now) call) }
{
    print_number(out, call);
    out.print(b" ");
    out.print(run.name(routine_of(run, call)));
}

/// Whether two spellings are of one name: letter case does not count (ISO 7185, 6.1.1).
fn is_same_name(one: &[u8], other: &[u8]) -> bool
    ensures { result ≡ str_eq_ignore_ascii_case one.now other.now }
{
    one.eq_ignore_ascii_case(other)
}

/// The routine of least number with this name.
pub fn routine_named<D: Debugged>(run: &D, name: &[u8]) -> Option<u32>
    ensures { result ≡ routine_named (D.subject run.now) name.now }
{
    for routine in 0..run.calls().routines() {
        if is_same_name(run.name(routine), name) {
            return Some(routine);
        }
    }
    None
}
