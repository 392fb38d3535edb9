//! Arrays of conformant parameters: the bounds that a call was given, their cells, and which variables conform to a
//! schema and have the same bounds.

ghost use Rattle.std.specs.Prelude.{◌≡◌, ◌≤◌};
ghost use Rattle.core_program.specs.Conformant as tables;
ghost use Rattle.core_program.specs.ProgramRows.{type_at};
ghost use Rattle.cell_names.specs.Conformant.{are_alike, arguments_of, array_in, cells_held, components_sought};
ghost use Rattle.cell_names.specs.Conformant.{conformant_array, extent_by, extent_of, fixed_array, held_in, indices_of};
ghost use Rattle.cell_names.specs.Conformant.{is_sought, most_specs, reference_in, same_extent, same_host, sought_here};
ghost use Rattle.cell_names.specs.Conformant.{spec_in, times, type_sought};

use crate::names::Held;
use crate::values::{Bounds, bounds_of};
use call_tree::Calls;
use cell_value::Value;
use core_program::rows::TypeRow;
use core_program::{Extent, HeldSpec, Program};

/// An array: whether it is packed, the type of its indices, their bounds, and what a component is.
#[derive(Clone, Copy)]
pub(crate) struct HeldArray {
    pub(crate) packed: bool,
    pub(crate) index: u32,
    pub(crate) extent: Option<Extent>,
    pub(crate) component: Held,
}

/// What a call was entered with at a place of its frame.
pub(crate) fn argument(calls: &Calls, call: u32, place: u32) -> Option<Value>
    ensures { result ≡ arguments_of calls.now.calls call place }
{
    if call >= calls.len() {
        return None;
    }
    let args = &calls.call(call).args;
    if place < args.len() {
        Some(args.at(place))
    } else {
        None
    }
}

/// The bounds of an ordinal type.
fn extent_in(row: Option<TypeRow>) -> Option<Extent>
    ensures { result ≡ tables.extent_in row }
{
    match row {
        Some(TypeRow::Ordinal { least, greatest }) => Some(Extent { least, greatest }),
        Some(
            TypeRow::Subrange {
                least,
                greatest,
                ..
            },
        ) => Some(Extent { least, greatest }),
        _ => None,
    }
}

/// Two bounds, if they are values of the spec's type, the least one at most the greatest.
fn extent_held(spec: HeldSpec, least: Value, greatest: Value) -> Option<Extent>
    ensures { result ≡ tables.extent_held spec least greatest }
{
    match (least, greatest) {
        (Value::Number(least), Value::Number(greatest)) => {
            if i64::from(spec.within.least) <= least
                && greatest <= i64::from(spec.within.greatest)
                && least <= greatest
            {
                Some(Extent {
                    least: least as i32,
                    greatest: greatest as i32,
                })
            } else {
                None
            }
        }
        _ => None,
    }
}

/// The bounds that two cells hold, if they are bounds of a type.
fn extent_by(
    within: Option<Extent>,
    place: u32,
    least: Option<Value>,
    greatest: Option<Value>,
) -> Option<Extent>
    ensures { result ≡ extent_by within place least greatest }
{
    match (within, least, greatest) {
        (Some(within), Some(least), Some(greatest)) => {
            extent_held(HeldSpec { within, place }, least, greatest)
        }
        _ => None,
    }
}

/// The bounds by a spec, of which a call has the least at a place of its frame and the greatest at the next one.
pub(crate) fn extent_of(
    program: &Program,
    calls: &Calls,
    call: u32,
    index: u32,
    place: u32,
) -> Option<Extent>
    ensures { result ≡ extent_of program.now (arguments_of calls.now.calls) call index place }
{
    extent_by(
        extent_in(program.type_row(index)),
        place,
        argument(calls, call, place),
        argument(calls, call, place.saturating_add(1)),
    )
}

/// How many indices there are, which are none without bounds.
fn indices_of(extent: Option<Extent>) -> u64
    ensures many { result ≡ indices_of extent }
    ensures bound { result ≤ 4294967296 }
{
    match extent {
        None => 0,
        Some(extent) => (i64::from(extent.greatest) - i64::from(extent.least)).unsigned_abs() + 1,
    }
}

/// No variable has more cells than there are addresses.
fn times(many: u32, each: u64) -> u32
    ensures { result ≡ times many each }
{
    u64::from(many).saturating_mul(each).min(1_048_576) as u32
}

/// A spec of a schema: how many indices a call has of it, and the type of its components.
#[derive(Clone, Copy)]
struct SpecIndices {
    indices: u64,
    component: u32,
}

/// What a type is as a spec, if it is one.
fn spec_in(program: &Program, calls: &Calls, call: u32, of: u32) -> Option<SpecIndices>
    ensures { result
        ≡ spec_in program.now (arguments_of calls.now.calls) call (type_at program.now of) }
{
    match program.type_row(of) {
        Some(
            TypeRow::Conformant {
                index,
                component,
                place,
                ..
            },
        ) => Some(SpecIndices {
            indices: indices_of(extent_of(program, calls, call, index, place)),
            component,
        }),
        _ => None,
    }
}

/// The cells of a variable of a type, of whose conformant arrays a call has the bounds.
pub(crate) fn cells_held(program: &Program, calls: &Calls, call: u32, of: u32) -> u32
    ensures { result ≡ cells_held program.now (arguments_of calls.now.calls) call of }
{
    let mut many = 1u32;
    let mut at = of;
    'specs: for _ in 0..1_048_576u32 {
        match spec_in(program, calls, call, at) {
            None => return times(many, u64::from(program.size_of(at))),
            Some(spec) => {
                many = times(many, spec.indices);
                at = spec.component;
            }
        }
    }
    0
}

/// A variable of a type, of whose conformant arrays a call has the bounds.
pub(crate) fn held_in(program: &Program, call: u32, of: u32) -> Held
    ensures { result ≡ held_in program.now call of }
{
    match program.type_row(of) {
        Some(TypeRow::Conformant { .. }) => Held::Conformant { call, of },
        _ => Held::Variable(of),
    }
}

/// The address of such a variable.
pub(crate) fn reference_in(program: &Program, call: u32, of: u32) -> Held
    ensures { result ≡ reference_in program.now call of }
{
    match program.type_row(of) {
        Some(TypeRow::Conformant { .. }) => Held::ConformantReference { call, of },
        _ => Held::Reference(of),
    }
}

/// What a variable of a type is as an array.
fn fixed_array(program: &Program, of: u32) -> Option<HeldArray>
    ensures { result ≡ fixed_array program.now (type_at program.now of) }
{
    match program.type_row(of) {
        Some(
            TypeRow::Array {
                packed,
                index,
                component,
                ..
            },
        ) => Some(HeldArray {
            packed,
            index,
            extent: extent_in(program.type_row(index)),
            component: Held::Variable(component),
        }),
        _ => None,
    }
}

/// What the array of a conformant parameter of a call is.
fn conformant_array(program: &Program, calls: &Calls, call: u32, of: u32) -> Option<HeldArray>
    ensures { result
        ≡ conformant_array program.now (arguments_of calls.now.calls) call (type_at program.now of) }
{
    match program.type_row(of) {
        Some(
            TypeRow::Conformant {
                packed,
                index,
                component,
                place,
            },
        ) => Some(HeldArray {
            packed,
            index,
            extent: extent_of(program, calls, call, index, place),
            component: held_in(program, call, component),
        }),
        _ => None,
    }
}

/// What a variable is as an array, if it is one.
fn array_in(program: &Program, calls: &Calls, held: Held) -> Option<HeldArray>
    ensures { result ≡ array_in program.now (arguments_of calls.now.calls) held }
{
    match held {
        Held::Variable(of) => fixed_array(program, of),
        Held::Conformant { call, of } => conformant_array(program, calls, call, of),
        _ => None,
    }
}

/// Whether two ordinal types have the same values but for their bounds.
fn is_same_host(one: Option<Bounds>, other: Option<Bounds>) -> bool
    ensures { result ≡ same_host one other }
{
    match (one, other) {
        (Some(one), Some(other)) => one.host == other.host,
        _ => false,
    }
}

/// Whether two arrays have the same bounds.
fn is_same_extent(one: Option<Extent>, other: Option<Extent>) -> bool
    ensures { result ≡ same_extent one other }
{
    match (one, other) {
        (Some(one), Some(other)) => one.least == other.least && one.greatest == other.greatest,
        _ => false,
    }
}

/// Whether two arrays have compatible index types and the same bounds, and both are packed or neither is.
fn are_alike(program: &Program, one: HeldArray, other: HeldArray) -> bool
    ensures { result ≡ are_alike program.now one other }
{
    one.packed == other.packed
        && is_same_host(
            bounds_of(program, one.index),
            bounds_of(program, other.index),
        )
        && is_same_extent(one.extent, other.extent)
}

/// Whether a variable is the one that is wanted, or whether its components are those of the one that is wanted.
#[derive(Clone, Copy)]
enum Sought {
    Ends(bool),
    GoesOn { wanted: Held, found: Held },
}

/// Whether a variable of a type is wanted and this is one.
fn type_sought(of: u32, found: Held) -> Sought
    ensures { result ≡ type_sought of found }
{
    match found {
        Held::Variable(found) => Sought::Ends(found == of),
        _ => Sought::Ends(false),
    }
}

/// Whether an array has such components as another one that is wanted.
fn components_sought(
    program: &Program,
    wanted: Option<HeldArray>,
    found: Option<HeldArray>,
) -> Sought
    ensures { result ≡ components_sought program.now wanted found }
{
    match (wanted, found) {
        (Some(wanted), Some(found)) => {
            if are_alike(program, wanted, found) {
                Sought::GoesOn {
                    wanted: wanted.component,
                    found: found.component,
                }
            } else {
                Sought::Ends(false)
            }
        }
        _ => Sought::Ends(false),
    }
}

/// Whether a variable is the one that is wanted, as far as this can be told without their components.
fn sought_here(program: &Program, calls: &Calls, wanted: Held, found: Held) -> Sought
    ensures { result ≡ sought_here program.now (arguments_of calls.now.calls) wanted found }
{
    match wanted {
        Held::Variable(of) => type_sought(of, found),
        Held::Conformant { call, of } => components_sought(
            program,
            conformant_array(program, calls, call, of),
            array_in(program, calls, found),
        ),
        _ => Sought::Ends(false),
    }
}

/// Whether a variable is the one that is wanted: of this very type; or of a conformant array one that conforms to its
/// schema and has the bounds that a call has of it.
pub(crate) fn is_sought(program: &Program, calls: &Calls, wanted: Held, found: Held) -> bool
    ensures { result ≡ is_sought most_specs program.now (arguments_of calls.now.calls) wanted found }
{
    let mut wanted = wanted;
    let mut found = found;
    'specs: for _ in 0..1_048_576u32 {
        match sought_here(program, calls, wanted, found) {
            Sought::Ends(is) => return is,
            Sought::GoesOn {
                wanted: next,
                found: next_found,
            } => {
                wanted = next;
                found = next_found;
            }
        }
    }
    false
}
