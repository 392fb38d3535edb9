//! What calls are compared by, as figures: seven numbers that tell one value, touch or item from every other.
ghost use Rattle.std.specs.Prelude.{◌≡◌};
ghost use Rattle.answer_reuse.specs.Figures.{is_settled, item_figure, touch_figure, value_figure, value_numbers};

use cell_value::{Touch, Value};

/// Seven numbers. Two things of one kind have the same exactly where they are the same.
pub type Figure = [u64; 7];

/// The numbers of a value: that of its kind, and those that it holds.
fn value_numbers(value: Value) -> [u64; 5]
    ensures { result ≡ value_numbers value }
{
    match value {
        Value::Undefined => [0, 0, 0, 0, 0],
        Value::Number(number) => [1, u64::from(number < 0), number.unsigned_abs(), 0, 0],
        Value::Bits(set) => {
            let [first, second, third, fourth] = set.words;
            [2, first, second, third, fourth]
        }
        Value::Nil => [3, 0, 0, 0, 0],
        Value::Heap(to) => [4, u64::from(to), 0, 0, 0],
        Value::Place(to) => [5, u64::from(to), 0, 0, 0],
        Value::Frame(to) => [6, u64::from(to), 0, 0, 0],
        Value::Routine(routine, frame) => [7, u64::from(routine), u64::from(frame), 0, 0],
    }
}

/// The figure of a value that stands at an address, under the number of what was done there.
pub(crate) fn value_figure(act: u64, addr: u32, value: Value) -> Figure
    ensures { result ≡ value_figure act addr value }
{
    let [kind, first, second, third, fourth] = value_numbers(value);
    [act, u64::from(addr), kind, first, second, third, fourth]
}

/// The figure of a touch by a call that found the input at a place: a look at the input is told from there.
pub(crate) fn touch_figure(place: u32, touch: Touch) -> Figure
    ensures { result ≡ touch_figure place touch }
{
    match touch {
        Touch::Read(addr, value) => value_figure(1, addr, value),
        Touch::Has(addr, there) => [2, u64::from(addr), u64::from(there), 0, 0, 0, 0],
        Touch::Write(addr, value) => value_figure(3, addr, value),
        Touch::Make(first, cells, kind) => {
            [
                4,
                u64::from(first),
                u64::from(cells),
                u64::from(kind),
                0,
                0,
                0,
            ]
        }
        Touch::Drop(first, cells) => [5, u64::from(first), u64::from(cells), 0, 0, 0, 0],
        Touch::Look(at) => {
            let looked = (u64::from(at) + 1).saturating_sub(u64::from(place));
            [6, looked, 0, 0, 0, 0, 0]
        }
        Touch::Take(items) => [7, u64::from(items), 0, 0, 0, 0, 0],
        Touch::Give(byte) => [8, u64::from(byte), 0, 0, 0, 0, 0],
    }
}

/// Whether a touch has the same figure wherever in the input a call began, as all but looks have.
pub(crate) fn is_settled(touch: Touch) -> bool
    ensures { result ≡ is_settled touch }
{
    match touch {
        Touch::Look(_) => false,
        _ => true,
    }
}

/// The figure of an item of the input, or of its end.
pub(crate) fn item_figure(item: Option<u16>) -> Figure
    ensures { result ≡ item_figure item }
{
    match item {
        Some(item) => [9, u64::from(item), 0, 0, 0, 0, 0],
        None => [10, 0, 0, 0, 0, 0, 0],
    }
}
