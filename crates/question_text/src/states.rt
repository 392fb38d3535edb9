//! What cells held before a call and after it.

ghost use Rattle.std.specs.Prelude.{◌+◌, ◌<◌, ◌≡◌, ◌≤◌, [], ℕ, Some, false, is_some};
ghost use Rattle.std.specs.FinMap as map;
ghost use Rattle.edge_ports.specs.Printouts.{Prints};
ghost use Rattle.cell_names.specs.{Finding.finding_in, Finding.finding_of, Names.scene_in, Walks.is_named_at};
ghost use Rattle.question_text.specs.{Cards.recorded_in, Cells.held_text, Prepared.AreOpenedIn};
ghost use Rattle.question_text.specs.States.{cell_at, has_cell, has_cell_by, if_cell, is_between, is_cell};
ghost use Rattle.question_text.specs.States.{is_same_value, line_at, line_by, lines_between, lines_by, sides_at};
ghost use Rattle.question_text.specs.States.{sides_line, sides_text, state_text};

use crate::cells::write_held;
use crate::prepared::Recorded;
use call_tree::Call;
use cell_names::{Held, PlacedParts, Root, Scene, Walked, walk, write_root};
use cell_value::{Value, within};
use edge_ports::Printer;
use persistent_store::Store;

/// What a cell held before a call and after it; none where there was no such cell.
#[derive(Clone, Copy)]
pub(crate) struct CellSides {
    pub(crate) before: Option<Value>,
    pub(crate) after: Option<Value>,
}

/// What the cell at an address holds, if there is one.
fn value_at(store: &Store, address: u32) -> Option<Value>
    ensures { result ≡ map.get store.now address }
{
    if address < 1_048_576 {
        store.get(address)
    } else {
        store.lacks_what_is_no_address();
        None
    }
}

/// What the cell at an address held before a call and after it.
fn sides_at(call: &Call, address: u32) -> CellSides
    ensures { result ≡ sides_at call.now address }
{
    CellSides {
        before: value_at(&call.entry.store, address),
        after: value_at(&call.exit.store, address),
    }
}

/// Whether there was such a cell, before the call or after it.
fn is_cell(sides: CellSides) -> bool
    ensures { result ≡ is_cell sides }
{
    sides.before.is_some() || sides.after.is_some()
}

/// Whether two values are the same.
fn is_same_value(one: Value, other: Value) -> bool
    ensures { result ≡ is_same_value one other }
{
    match (one, other) {
        (Value::Undefined, Value::Undefined) => true,
        (Value::Number(a), Value::Number(b)) => a == b,
        (Value::Bits(a), Value::Bits(b)) => within(a, b) && within(b, a),
        (Value::Nil, Value::Nil) => true,
        (Value::Heap(a), Value::Heap(b)) => a == b,
        (Value::Place(a), Value::Place(b)) => a == b,
        (Value::Frame(a), Value::Frame(b)) => a == b,
        (Value::Routine(a, frame), Value::Routine(b, other)) => a == b && frame == other,
        _ => false,
    }
}

/// Prints what a cell held, and what became of it.
fn write_sides<P: Printer>(out: &mut P, scene: &Scene, held: Held, sides: CellSides)
    ensures { Prints (P.printout out.old) (P.printout out.new)
        (sides_text (held_text (scene_in scene.now) held) sides.before sides.after) }
{
    match (sides.before, sides.after) {
        (None, None) => {}
        (Some(before), None) => {
            write_held(out, scene, held, before);
            out.print(b", then gone");
        }
        (None, Some(after)) => {
            write_held(out, scene, held, after);
            out.print(b", made here");
        }
        (Some(before), Some(after)) => {
            write_held(out, scene, held, before);
            if is_same_value(before, after) {
                return;
            }
            out.print(b", then ");
            write_held(out, scene, held, after);
        }
    }
}

/// Prints the line on a cell.
fn write_sides_line<P: Printer>(out: &mut P, scene: &Scene, root: Root, sides: CellSides)
    ensures { Prints (P.printout out.old) (P.printout out.new) (sides_line (scene_in scene.now) root sides) }
{
    out.print(b"  ");
    let held = write_root(out, scene, None, root);
    out.print(b" = ");
    write_sides(out, scene, held, sides);
    out.print(b"\n");
}

/// What a walk over addresses comes to at one of them.
#[derive(Clone, Copy)]
struct Passed {
    /// Whether there was a cell before the call or after it, which the name names.
    named: bool,
    /// How many addresses after this one have no such cell.
    more: u32,
    /// A guess for the next walk.
    guess: usize,
}

/// Prints the line on a cell, if there was one; and whether there was.
fn write_if_cell<P: Printer>(out: &mut P, scene: &Scene, root: Root, sides: CellSides) -> bool
    ensures line { Prints (P.printout out.old) (P.printout out.new)
        (line_by (scene_in scene.now) sides (if_cell sides root)) }
    ensures some { result ≡ is_some (if_cell sides root) }
{
    if is_cell(sides) {
        write_sides_line(out, scene, root, sides);
        true
    } else {
        false
    }
}

/// Prints the line on the cell at an address, if there was one and a name names it; and how far on there is none.
fn write_from<P: Printer>(
    out: &mut P,
    scene: &Scene,
    call: &Call,
    name: &[u8],
    address: u32,
    limit: u32,
    guess: usize,
) -> Passed
    ensures line { Prints (P.printout out.old) (P.printout out.new)
        (line_at (scene_in scene.now) call.now name.now address) }
    ensures named { result.named ≡ is_some (cell_at (scene_in scene.now) call.now name.now address) }
    ensures more { (k : ℕ) → 0 < k → k ≤ result.more
        → is_named_at (scene_in scene.now) name.now (address + k) ≡ false }
{
    let (walked, guess) = walk(scene, name, address, limit, guess);
    match walked {
        Walked::Unnamed(more) => Passed {
            named: false,
            more,
            guess,
        },
        Walked::Named(root) => {
            let named = write_if_cell(out, scene, root, sides_at(call, address));
            Passed {
                named,
                more: 0,
                guess,
            }
        }
    }
}

/// Prints the lines on the cells that a name names, from one address to before another; and whether there is one.
fn write_between<P: Printer>(
    out: &mut P,
    scene: &Scene,
    call: &Call,
    name: &[u8],
    from: u32,
    to: u32,
) -> bool
    ensures lines { Prints (P.printout out.old) (P.printout out.new)
        (lines_between (scene_in scene.now) call.now name.now from to) }
    ensures some { result ≡ is_between (scene_in scene.now) call.now name.now from to }
{
    let mut some = false;
    let mut guess = 0usize;
    let mut address = from;
    'addresses: while address < to {
        let passed = write_from(out, scene, call, name, address, to - address, guess);
        some = some || passed.named;
        guess = passed.guess;
        address = address.saturating_add(1).saturating_add(passed.more);
    }
    some
}

/// Prints the lines on the cells that a name names, before a call and after it; and whether there is one.
fn write_lines<P: Printer>(out: &mut P, scene: &Scene, call: &Call, name: &[u8]) -> bool
    ensures lines { Prints (P.printout out.old) (P.printout out.new)
        (lines_by (scene_in scene.now) name.now (Some call.now)) }
    ensures some { result ≡ has_cell_by (scene_in scene.now) name.now (Some call.now) }
{
    let on_stack = write_between(out, scene, call, name, 0, call.entry.top);
    let on_heap = write_between(out, scene, call, name, 524_288, call.exit.fresh);
    on_stack || on_heap
}

/// Prints what the cells that a name names held before a call and after it, a line for each, rising by address: those
/// of the stack below the call's own frame, and those of the heap. It answers whether there is such a cell, and prints
/// nothing where there is none. A name is a cell's as cards print it, or that name cut before one of its selectors,
/// before the variable of a frame, or before the last `^` of a variable of the heap. Of a number that is no call's
/// nothing is printed.
///
/// What is found by its place is that of the program, whose source has this many tokens, and of the log; and the open
/// calls are those while this call runs.
pub fn write_state<P: Printer>(
    out: &mut P,
    from: &Recorded,
    number: u32,
    name: &[u8],
    opened: &PlacedParts,
) -> bool
    requires names { finding_in from.now.names.now ≡ finding_of from.now.program.now from.now.tokens from.now.log.now }
    requires opened { AreOpenedIn (recorded_in from.now) number opened.now }
    ensures lines { Prints (P.printout out.old) (P.printout out.new)
        (state_text (recorded_in from.now) number name.now) }
    ensures some { result ≡ has_cell (recorded_in from.now) number name.now }
    ensures none { result ≡ false → state_text (recorded_in from.now) number name.now ≡ [] }
{
    if number >= from.calls.len() {
        return false;
    }
    let scene = Scene {
        program: from.program,
        names: from.names,
        routines: from.calls.routine_column(),
        calls: from.calls,
        opened,
    };
    write_lines(out, &scene, from.calls.call(number), name)
}
