//! The state from which a reference is asked.

ghost use Rattle.std.specs.{Prelude.◌≡◌, Prelude.◌≤◌, Prelude.IfOk, Prelude.drop, FinMap.empty};
ghost use Rattle.core_program.specs.{Blocks.filled, State.stack_end};
ghost use Rattle.reference_oracle.specs.Asking.{args_by, frame_by, held_by_place, moved_by, side_for};

use crate::places::place_at;
use call_tree::Side;
use cell_value::{Cells, HEAP_END, Items, Memory, STACK_END, Steps, Value};
use persistent_store::Store;
use std::alloc::Global;

/// What nodes of a store are counted by where nobody asks.
struct Nodes;

/// What the cell of the reference at an address holds: what the matching one of the subject held.
fn held_at(store: &Store, places: &[Option<u32>], address: u32) -> Value
    ensures { result ≡ held_by_place store.now places.now address }
{
    store.lacks_what_is_no_address();
    match place_at(places, address) {
        None => Value::Undefined,
        Some(place) => {
            if place >= HEAP_END {
                return Value::Undefined;
            }
            match store.get(place) {
                None => Value::Undefined,
                Some(value) => value,
            }
        }
    }
}

/// The cells of the reference before the call: the frame of its program block.
fn cells_for(
    alloc: Global,
    store: &Store,
    places: &[Option<u32>],
    cells: u32,
) -> Result<Store, Memory>
    requires few { cells ≤ stack_end }
    ensures { IfOk result (λ s. s ≡ filled 0 (frame_by store.now places.now cells) empty) }
{
    let mut made = Steps::<Nodes>::new();
    let mut frame = Store::new();
    if cells == 0 {
        return Ok(frame);
    }
    frame.put(alloc, 0, Value::Nil, &mut made)?;
    'cells: for address in 1..cells {
        let value = held_at(store, places, address);
        frame.put(alloc, address, value, &mut made)?;
    }
    Ok(frame)
}

/// What is kept of the state before the call.
pub(crate) fn entry_for(
    alloc: Global,
    store: &Store,
    places: &[Option<u32>],
    cells: u32,
    budget: u32,
) -> Result<Side, Memory>
    requires few { cells ≤ stack_end }
    ensures { IfOk result (λ s. s ≡ side_for (filled 0 (frame_by store.now places.now cells) empty) cells budget) }
{
    let store = cells_for(alloc, store, places, cells)?;
    Ok(Side {
        mark: 0,
        top: cells,
        fresh: STACK_END,
        place: 0,
        output: 0,
        steps: budget,
        calls: 1,
        store,
    })
}

/// The items of an input from a place on.
pub(crate) fn items_from(alloc: Global, items: &Items, place: u32) -> Result<Items, Memory>
    ensures { IfOk result (λ rest. rest ≡ drop place items.now) }
{
    let mut rest = Items::new(alloc);
    'items: for i in place..items.len() {
        rest.push(items.at(i))?;
    }
    Ok(rest)
}

/// A value of the subject, where it is passed to the reference: a place is that of the matching cell.
fn moved_value(places: &[Option<u32>], value: Value) -> Value
    ensures { result ≡ moved_by places.now value }
{
    match value {
        Value::Place(address) => match place_at(places, address) {
            None => value,
            Some(place) => Value::Place(place),
        },
        _ => value,
    }
}

/// The link and the arguments with which the reference is called: its frame 0 is that of its program block.
pub(crate) fn args_for(alloc: Global, places: &[Option<u32>], args: &Cells) -> Result<Cells, Memory>
    ensures { IfOk result (λ v. v ≡ args_by places.now args.now) }
{
    let mut moved = Cells::new(alloc);
    moved.push(Value::Frame(0))?;
    'values: for i in 1..args.len() {
        moved.push(moved_value(places, args.at(i)))?;
    }
    Ok(moved)
}
