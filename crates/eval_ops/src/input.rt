//! Actions on the input: eof and eoln, chars, integers turn by turn, and the rest of a line (6.6.6.5, 6.9.1, 6.9.2).

ghost use Rattle.std.specs.Prelude.{◌<◌, ◌≡◌, IfOk, Some, slice_get};
ghost use Rattle.core_program.specs.{Actions.act, Actions.performs, Acts.TakeIf, Acts.take_item};
ghost use Rattle.core_program.specs.Input as input;
ghost use Rattle.core_program.specs.declared.scan.Scan.TheVariants.{Blanks, Digits};
ghost use Rattle.eval_ops.specs.Input.{after_sign, looked_at, wants};
ghost use Rattle.eval_ops.specs.Machines.{DoesAct, DoesAll, Gives, IsReady, machine_state, moment_of};

use crate::halt::Halt;
use crate::machine::{Machine, note};
use crate::values::truth;
use cell_value::{Kind, Touch, Value};
use core_program::{Scan, Scanned};

/// Which item is taken once it was looked at.
#[derive(Clone, Copy)]
enum Wanted {
    Nothing,
    Anything,
    /// What stands before an integer, or is its first char.
    Lead,
    Digit,
}

fn is_blank(item: u16) -> bool
    ensures { result ≡ input.is_blank item }
{
    item == 32 || (item == 9 || item == 256)
}

fn is_sign(item: u16) -> bool
    ensures { result ≡ input.is_sign item }
{
    item == 43 || item == 45
}

fn is_digit(item: u16) -> bool
    ensures { result ≡ input.is_digit item }
{
    48 <= item && item <= 57
}

fn leads_on(item: u16) -> bool
    ensures { result ≡ input.leads_on item }
{
    is_blank(item) || (is_sign(item) || is_digit(item))
}

fn wants(wanted: Wanted, item: u16) -> bool
    ensures { result ≡ wants wanted item }
{
    match wanted {
        Wanted::Nothing => false,
        Wanted::Anything => true,
        Wanted::Lead => leads_on(item),
        Wanted::Digit => is_digit(item),
    }
}

/// The item at the place, and none where the input is at its end.
fn item_at(machine: &Machine) -> Option<u16>
    ensures { result ≡ slice_get machine.now.items machine.now.place }
{
    if machine.place < machine.items.len() {
        Some(machine.items.at(machine.place))
    } else {
        None
    }
}

/// Looks at the item at the place, or at the end there, which takes a step.
#[inline(always)]
fn look(machine: &mut Machine) -> Result<Option<u16>, Halt>
    requires ready { IsReady machine.old }
    ensures act { DoesAct (λ item. item) (looked_at (machine_state machine.old)) result (moment_of machine.old)
        (moment_of machine.new) }
    ensures ready { IsReady machine.new }
    ensures found { IfOk result (λ item. item ≡ slice_get machine.new.items machine.new.place) }
{
    if machine.steps < 1 {
        machine.steps = 0;
        return Err(Halt::OutOfSteps);
    }
    let item = item_at(machine);
    note(machine, Touch::Look(machine.place))?;
    Ok(item)
}

/// Takes the item at the place if it is wanted, which takes a step.
#[inline(always)]
fn take(machine: &mut Machine, item: u16, wanted: bool) -> Result<Option<u16>, Halt>
    requires ready { IsReady machine.old }
    requires there { slice_get machine.old.items machine.old.place ≡ Some item }
    ensures act { DoesAct (λ item. item) (take_item wanted item (machine_state machine.old)) result
        (moment_of machine.old) (moment_of machine.new) }
    ensures ready { IsReady machine.new }
{
    if !wanted {
        return Ok(Some(item));
    }
    if machine.steps < 1 {
        machine.steps = 0;
        return Err(Halt::OutOfSteps);
    }
    // There are fewer items than a word has values.
    let _items = machine.items.len();
    let next = machine.place + 1;
    note(machine, Touch::Take(1))?;
    machine.place = next;
    Ok(Some(item))
}

/// Looks at the item at the place, or at the end there, and takes it if it is wanted.
fn take_if(machine: &mut Machine, wanted: Wanted) -> Result<Option<u16>, Halt>
    requires ready { IsReady machine.old }
    ensures action { DoesAll (λ item. item) (performs (act (TakeIf (wants wanted))) (machine_state machine.old)) result
        (moment_of machine.old) (moment_of machine.new) }
    ensures ready { IsReady machine.new }
{
    match look(machine)? {
        Some(item) => take(machine, item, wants(wanted, item)),
        None => Ok(None),
    }
}

/// Whether the input is at its end, as a value of Boolean (6.6.6.5).
pub fn at_end(machine: &mut Machine) -> Result<Value, Halt>
    requires ready { IsReady machine.old }
    ensures action { DoesAll (λ v. v) (performs input.at_end (machine_state machine.old)) result
        (moment_of machine.old) (moment_of machine.new) }
    ensures ready { IsReady machine.new }
{
    let item = take_if(machine, Wanted::Nothing)?;
    Ok(truth(item.is_none()))
}

/// Whether the input is at a line end, as a value of Boolean (6.6.6.5). At the end of the input it is the fault
/// `PastEnd`.
pub fn at_line_end(machine: &mut Machine) -> Result<Value, Halt>
    requires ready { IsReady machine.old }
    ensures action { DoesAll (λ v. v) (performs input.at_line_end (machine_state machine.old)) result
        (moment_of machine.old) (moment_of machine.new) }
    ensures ready { IsReady machine.new }
{
    match take_if(machine, Wanted::Nothing)? {
        Some(item) => Ok(truth(item == 256)),
        None => Err(Halt::Fault(Kind::PastEnd)),
    }
}

/// Reads a char (6.9.1): a line end is read as a space. At the end of the input it is the fault `PastEnd`.
pub fn next_char(machine: &mut Machine) -> Result<Value, Halt>
    requires ready { IsReady machine.old }
    ensures action { DoesAll (λ v. v) (performs input.next_char (machine_state machine.old)) result
        (moment_of machine.old) (moment_of machine.new) }
    ensures ready { IsReady machine.new }
{
    match take_if(machine, Wanted::Anything)? {
        Some(256) => Ok(Value::Number(32)),
        Some(item) => Ok(Value::Number(i64::from(item))),
        None => Err(Halt::Fault(Kind::PastEnd)),
    }
}

/// Takes an item of the rest of a line, and says whether the line ended with it (6.9.2). At the end of the input it is
/// the fault `PastEnd`.
pub fn past_item(machine: &mut Machine) -> Result<bool, Halt>
    requires ready { IsReady machine.old }
    ensures action { DoesAll (λ ended. ended) (performs input.past_item (machine_state machine.old)) result
        (moment_of machine.old) (moment_of machine.new) }
    ensures ready { IsReady machine.new }
{
    match take_if(machine, Wanted::Anything)? {
        Some(item) => Ok(item == 256),
        None => Err(Halt::Fault(Kind::PastEnd)),
    }
}

/// The number that digits and one more make.
fn with_digit(number: u32, item: u16) -> u32
    ensures { result ≡ input.with_digit number item }
{
    let digit = item.saturating_sub(48);
    (10 * u64::from(number) + u64::from(digit)).min(2_147_483_648) as u32
}

/// The integer that digits make. One beyond maxint is the fault `Overflow`.
fn whole(minus: bool, number: u32) -> Result<Scanned, Halt>
    ensures { Gives (λ s. s) (input.integer_read minus number) result }
{
    if number > 2_147_483_647 {
        return Err(Halt::Fault(Kind::Overflow));
    }
    let number = i64::from(number);
    if minus {
        Ok(Scanned::Whole(Value::Number(-number)))
    } else {
        Ok(Scanned::Whole(Value::Number(number)))
    }
}

/// The first digit of an integer.
fn first_digit(minus: bool, item: Option<u16>) -> Result<Scanned, Halt>
    ensures { Gives (λ s. s) (input.first_digit minus item) result }
{
    match item {
        Some(item) if is_digit(item) => Ok(Scanned::Further(Scan::Digits {
            minus,
            number: with_digit(0, item),
        })),
        _ => Err(Halt::Fault(Kind::BadNumber)),
    }
}

/// What comes after the sign of an integer.
fn after_sign(machine: &mut Machine, minus: bool) -> Result<Scanned, Halt>
    requires ready { IsReady machine.old }
    ensures action { DoesAll (λ s. s) (performs (after_sign minus) (machine_state machine.old)) result
        (moment_of machine.old) (moment_of machine.new) }
    ensures ready { IsReady machine.new }
{
    let item = take_if(machine, Wanted::Digit)?;
    let scanned = first_digit(minus, item)?;
    Ok(scanned)
}

/// What an item that stands where an integer is to be read makes of it.
fn leading(machine: &mut Machine, item: u16) -> Result<Scanned, Halt>
    requires ready { IsReady machine.old }
    ensures action { DoesAll (λ s. s) (performs (input.leading (Some item)) (machine_state machine.old)) result
        (moment_of machine.old) (moment_of machine.new) }
    ensures ready { IsReady machine.new }
{
    if is_blank(item) {
        return Ok(Scanned::Further(Scan::Blanks));
    }
    if is_sign(item) {
        return after_sign(machine, item == 45);
    }
    let scanned = first_digit(false, Some(item))?;
    Ok(scanned)
}

/// A turn of the reading of an integer of which blanks alone were met.
fn scan_blanks(machine: &mut Machine) -> Result<Scanned, Halt>
    requires ready { IsReady machine.old }
    ensures action { DoesAll (λ s. s) (performs (input.scan_on Blanks) (machine_state machine.old)) result
        (moment_of machine.old) (moment_of machine.new) }
    ensures ready { IsReady machine.new }
{
    match take_if(machine, Wanted::Lead)? {
        Some(item) => leading(machine, item),
        None => Err(Halt::Fault(Kind::PastEnd)),
    }
}

/// What a further item makes of an integer.
fn further(minus: bool, number: u32, item: Option<u16>) -> Result<Scanned, Halt>
    ensures { Gives (λ s. s) (input.further minus number item) result }
{
    match item {
        Some(item) if is_digit(item) => Ok(Scanned::Further(Scan::Digits {
            minus,
            number: with_digit(number, item),
        })),
        _ => whole(minus, number),
    }
}

/// A turn of the reading of an integer of which digits were met.
fn scan_digits(machine: &mut Machine, minus: bool, number: u32) -> Result<Scanned, Halt>
    requires ready { IsReady machine.old }
    ensures action { DoesAll (λ s. s) (performs (input.scan_on (Digits minus number)) (machine_state machine.old))
        result (moment_of machine.old) (moment_of machine.new) }
    ensures ready { IsReady machine.new }
{
    let item = take_if(machine, Wanted::Digit)?;
    let scanned = further(minus, number, item)?;
    Ok(scanned)
}

/// One turn of the reading of an integer (6.9.1), which looks at one item, and after a sign at one more: each is taken
/// if it is a blank before the integer or one of its chars. Where the input is at its end before the integer it is the
/// fault `PastEnd`; where no digit stands, `BadNumber`; and where the integer has ended beyond maxint, `Overflow`.
pub fn scan_on(machine: &mut Machine, scan: Scan) -> Result<Scanned, Halt>
    requires ready { IsReady machine.old }
    ensures action { DoesAll (λ s. s) (performs (input.scan_on scan) (machine_state machine.old)) result
        (moment_of machine.old) (moment_of machine.new) }
    ensures ready { IsReady machine.new }
{
    match scan {
        Scan::Blanks => scan_blanks(machine),
        Scan::Digits { minus, number } => scan_digits(machine, minus, number),
    }
}
