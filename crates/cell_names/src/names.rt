//! Names of cells: the variable, whose it is, and the selectors on the way down to the cell.

ghost use Rattle.std.specs.Prelude.{◌≡◌, None, Some, slice_get};
ghost use Rattle.edge_ports.specs.Printouts.{Prints};
ghost use Rattle.core_program.specs.ProgramRows.{type_at};
ghost use Rattle.cell_names.specs.{Conformant.cells_held as cells_in_call, Names.way_down, Names.whose_text};
ghost use Rattle.cell_names.specs.Names.{address_text, array_local, array_step, begins_there, begun_or, cell_held};
ghost use Rattle.cell_names.specs.Names.{cell_text, cells_of_copy, conformant_step, copy_address, copy_before};
ghost use Rattle.cell_names.specs.Names.{copy_cells, copy_local, copy_of, extent_step, field_step, heap_root, is_link};
ghost use Rattle.cell_names.specs.Names.{is_result, is_wanted, least_in, local_at, local_in, local_root, named_local};
ghost use Rattle.cell_names.specs.Names.{next_step, origin_text, part_local, record_step, result_local, result_of};
ghost use Rattle.cell_names.specs.Names.{root_at, root_in, scene_in, selector_text, stack_root, step_down, typed_step};

use crate::conformant::{argument, cells_held, extent_of, held_in, is_sought, reference_in};
use crate::finding::NameFinder;
use crate::pieces::write_number;
use crate::places::{PlacedPart, PlacedParts};
use crate::values::{Bounds, bounds_of, write_ordinal};
use call_tree::Calls;
use cell_value::Value;
use core_program::rows::{Mode, NameRow, PartRow, Row, TypeRow};
use core_program::{Extent, Program, Routine};
use edge_ports::Printer;
use std::marker::Model;

/// What the names of cells stand on: a program and what is found in it by its place; of each call of its run the
/// routine, and what it was entered with; and the calls that are open, by the places where their frames begin.
#[derive(Drop)]
pub struct Scene<'a> {
    pub program: &'a Program,
    pub names: &'a NameFinder,
    pub routines: &'a [u32],
    pub calls: &'a Calls,
    pub opened: &'a PlacedParts,
}

impl<'a> Model for Scene<'a> {
    ghost use Rattle.cell_names.specs.{Conformant.args_of, Names.SceneLists};

    ghost Value = { SceneLists };

    ghost view = { λ s. record {
      program = s.program.now;
      names = s.names.now;
      routines = s.routines.now;
      args = args_of s.calls.now.calls;
      opened = s.opened.now;
    } };
}

/// What a cell, or cells in a row, are.
#[derive(Clone, Copy)]
pub enum Held {
    /// A variable of a type.
    Variable(u32),
    /// The tag of a variant part without a tag field.
    HiddenTag,
    /// The address of a variable of a type, which a variable parameter stands for.
    Reference(u32),
    /// A procedure or function as a parameter.
    Routine,
    /// The array of a conformant parameter, by the number of its type, of which a call has the bounds.
    Conformant { call: u32, of: u32 },
    /// The address of such an array: of the actual, or of the copy of a parameter by value.
    ConformantReference { call: u32, of: u32 },
}

/// A cell of what is held, by its place there.
#[derive(Clone, Copy)]
pub struct Spot {
    pub held: Held,
    pub place: u32,
}

/// A step on the way down.
#[derive(Clone, Copy)]
pub(crate) enum Selector {
    /// An index of a type, by its ordinal.
    Index { of: u32, value: i64 },
    /// A field or a tag field, by its number.
    Field(u32),
    /// A hidden tag.
    Case,
}

/// A step on the way down, and where it leads.
#[derive(Clone, Copy)]
pub(crate) struct Step {
    pub(crate) selector: Selector,
    pub(crate) spot: Spot,
}

/// Where the way down begins.
#[derive(Clone, Copy)]
pub enum Origin {
    /// A variable of the heap, by its address.
    Heap(u32),
    /// What a token names in the frame of a call of a routine.
    Local { call: u32, routine: u32, token: u32 },
}

/// A variable that has a cell, and the cell's place in it.
#[derive(Clone, Copy)]
pub struct Root {
    pub origin: Origin,
    pub spot: Spot,
}

/// What a token names in a frame and has a cell of it, and the cell's place in it.
#[derive(Clone, Copy)]
pub struct Local {
    pub token: u32,
    pub spot: Spot,
}

/// The frame of a call of a routine, by the address where it begins.
#[derive(Clone, Copy)]
pub struct Frame {
    pub call: u32,
    pub routine: u32,
    pub top: u32,
}

/// The copy of a conformant parameter by value: where it begins in the frame of its call, and how many cells it has.
#[derive(Clone, Copy)]
pub struct CopyCells {
    pub place: u32,
    pub cells: u32,
}

/// The least of some values.
pub(crate) fn least_in(bounds: Option<Bounds>) -> i32
    ensures { result ≡ least_in bounds }
{
    match bounds {
        Some(bounds) => bounds.least,
        None => 0,
    }
}

/// The component of an array that has a place of it.
fn array_step(index: u32, least: i32, component: Held, place: u32, size: u32) -> Option<Step>
    ensures { result ≡ array_step index least component place size }
{
    if size == 0 {
        return None;
    }
    Some(Step {
        selector: Selector::Index {
            of: index,
            value: i64::from(least) + i64::from(place / size),
        },
        spot: Spot {
            held: component,
            place: place % size,
        },
    })
}

/// The field or the tag of a number, by its row.
fn field_step(number: u32, place: u32, row: Row) -> Option<Step>
    ensures { result ≡ field_step number place row }
{
    match row {
        Row::Name(NameRow::Field { of, .. }) => Some(Step {
            selector: Selector::Field(number),
            spot: Spot {
                held: Held::Variable(of),
                place,
            },
        }),
        Row::Name(NameRow::Tag { of, .. }) => Some(Step {
            selector: Selector::Field(number),
            spot: Spot {
                held: Held::Variable(of),
                place,
            },
        }),
        Row::Part(_) => Some(Step {
            selector: Selector::Case,
            spot: Spot {
                held: Held::HiddenTag,
                place,
            },
        }),
        _ => None,
    }
}

/// The field or the tag of a record that was found for a place of it.
pub(crate) fn record_step(program: &Program, place: u32, part: Option<PlacedPart>) -> Option<Step>
    ensures { result ≡ record_step program.now place part }
{
    match part {
        None => None,
        Some(part) => field_step(
            part.number,
            place.saturating_sub(part.place),
            program.row(part.number),
        ),
    }
}

/// One step down to the cell at a place of a variable of a type.
fn typed_step(scene: &Scene, of: u32, place: u32) -> Option<Step>
    ensures { result ≡ typed_step (scene_in scene.now) of place (type_at scene.now.program of) }
{
    match scene.program.type_row(of) {
        Some(
            TypeRow::Array {
                index,
                component,
                ..
            },
        ) => array_step(
            index,
            least_in(bounds_of(scene.program, index)),
            Held::Variable(component),
            place,
            scene.program.size_of(component),
        ),
        Some(TypeRow::Record { .. }) => {
            record_step(scene.program, place, scene.names.component(of, place))
        }
        _ => None,
    }
}

/// The same by the bounds that are held, if there are such.
fn extent_step(
    index: u32,
    extent: Option<Extent>,
    component: Held,
    place: u32,
    size: u32,
) -> Option<Step>
    ensures { result ≡ extent_step index extent component place size }
{
    match extent {
        None => None,
        Some(extent) => array_step(index, extent.least, component, place, size),
    }
}

/// One step down to the cell at a place of the array of a conformant parameter.
fn conformant_step(scene: &Scene, call: u32, of: u32, place: u32) -> Option<Step>
    ensures { result
        ≡ conformant_step (scene_in scene.now) call place (type_at scene.now.program of) }
{
    match scene.program.type_row(of) {
        Some(
            TypeRow::Conformant {
                index,
                component,
                place: at,
                ..
            },
        ) => extent_step(
            index,
            extent_of(scene.program, scene.calls, call, index, at),
            held_in(scene.program, call, component),
            place,
            cells_held(scene.program, scene.calls, call, component),
        ),
        _ => None,
    }
}

/// One step down to a cell.
#[tactic(auto, unfolding(crate::specs::Names::step_down))]
pub(crate) fn step_down(scene: &Scene, at: Spot) -> Option<Step>
    ensures { result ≡ step_down (scene_in scene.now) at }
{
    match at.held {
        Held::Variable(of) => typed_step(scene, of, at.place),
        Held::Conformant { call, of } => conformant_step(scene, call, of, at.place),
        _ => None,
    }
}

/// Prints a selector.
fn write_selector<P: Printer>(out: &mut P, program: &Program, selector: Selector)
    ensures { Prints (P.printout out.old) (P.printout out.new) (selector_text program.now selector) }
{
    match selector {
        Selector::Index { of, value } => {
            out.print(b"[");
            write_ordinal(out, program, of, value);
            out.print(b"]");
        }
        Selector::Field(number) => {
            out.print(b".");
            out.print(program.text(number));
        }
        Selector::Case => out.print(b".case"),
    }
}

/// Whether the way down ends here, since this is the variable that is wanted.
fn is_wanted(scene: &Scene, wanted: Option<Held>, at: Spot) -> bool
    ensures { result ≡ is_wanted (scene_in scene.now) wanted at }
{
    match wanted {
        None => false,
        Some(wanted) => is_sought(scene.program, scene.calls, wanted, at.held),
    }
}

/// The next step down, unless the way ends here.
fn next_step(scene: &Scene, wanted: Option<Held>, at: Spot) -> Option<Step>
    ensures { result ≡ next_step (scene_in scene.now) wanted at }
{
    if is_wanted(scene, wanted, at) {
        None
    } else {
        step_down(scene, at)
    }
}

/// Prints the selectors on the way down to a cell, or to the first variable on it that is wanted; where the way ends is
/// given.
pub fn write_way<P: Printer>(out: &mut P, scene: &Scene, wanted: Option<Held>, from: Spot) -> Spot
    ensures writes { Prints (P.printout out.old) (P.printout out.new) (way_down (scene_in scene.now) wanted from).text }
    ensures ends { result ≡ (way_down (scene_in scene.now) wanted from).end }
{
    let mut at = from;
    'steps: for _ in 0..1_048_576u32 {
        match next_step(scene, wanted, at) {
            None => return at,
            Some(step) => {
                write_selector(out, scene.program, step.selector);
                at = step.spot;
            }
        }
    }
    at
}

/// The type of a function's result, by its heading.
pub fn result_of(heading: Row) -> Option<u32>
    ensures { result ≡ result_of heading }
{
    match heading {
        Row::Part(PartRow::Heading { result, .. }) => result,
        _ => None,
    }
}

/// The result of a function of a type, if it has one.
fn result_local(routine: Routine, of: Option<u32>) -> Option<Local>
    ensures { result ≡ result_local routine of }
{
    match of {
        None => None,
        Some(of) => Some(Local {
            token: routine.name,
            spot: Spot {
                held: Held::Variable(of),
                place: 0,
            },
        }),
    }
}

/// What a token names in the frame of a call, by its row. The cell of a conformant parameter by value has the address
/// of its copy.
fn named_local(program: &Program, call: u32, token: u32, place: u32, row: Row) -> Option<Local>
    ensures { result ≡ named_local program.now call token place row }
{
    let held = match row {
        Row::Name(
            NameRow::Variable {
                mode: Mode::Place | Mode::Copy,
                of,
                ..
            },
        ) => reference_in(program, call, of),
        Row::Name(NameRow::Variable { of, .. }) => Held::Variable(of),
        Row::Name(NameRow::Bound { of, .. }) => Held::Variable(of),
        Row::Name(NameRow::RoutineFormal { .. }) => Held::Routine,
        _ => return None,
    };
    Some(Local {
        token,
        spot: Spot { held, place },
    })
}

/// What was found for a place of the frame of a call.
fn part_local(program: &Program, call: u32, place: u32, part: Option<PlacedPart>) -> Option<Local>
    ensures { result ≡ part_local program.now call place part }
{
    match part {
        None => None,
        Some(part) => named_local(
            program,
            call,
            part.number,
            place.saturating_sub(part.place),
            program.row(part.number),
        ),
    }
}

/// The address of its copy, if this is a conformant parameter by value and its cell holds this.
fn copy_address(row: Row, value: Option<Value>) -> Option<u32>
    ensures { result ≡ copy_address row value }
{
    match (row, value) {
        (
            Row::Name(
                NameRow::Variable {
                    mode: Mode::Copy,
                    ..
                },
            ),
            Some(Value::Place(address)),
        ) => Some(address),
        _ => None,
    }
}

/// The copy of what was found in a frame, by its place there, if that has one.
pub(crate) fn copy_of(scene: &Scene, frame: Frame, part: PlacedPart) -> Option<PlacedPart>
    ensures { result ≡ copy_of (scene_in scene.now) frame part }
{
    let value = argument(scene.calls, frame.call, part.place);
    let address = copy_address(scene.program.row(part.number), value)?;
    Some(PlacedPart {
        place: address.saturating_sub(frame.top),
        number: part.number,
    })
}

/// The copy of what was found in a frame, if that has one and it begins at a place or before it.
fn begun_copy(scene: &Scene, frame: Frame, part: PlacedPart, place: u32) -> Option<PlacedPart>
    ensures { result ≡ begun_or place None (copy_of (scene_in scene.now) frame part) }
{
    match copy_of(scene, frame, part) {
        None => None,
        Some(copy) => {
            if copy.place <= place {
                Some(copy)
            } else {
                None
            }
        }
    }
}

/// The last of the parameters from a place of a frame back whose copy begins at another place or before it, of which
/// at most this many are gone through.
fn copy_before(scene: &Scene, frame: Frame, place: u32, most: u32, from: u32) -> Option<PlacedPart>
    ensures { result ≡ copy_before (scene_in scene.now) frame place most from }
{
    let mut from = from;
    'parameters: for _ in 0..most {
        match scene.names.local(frame.routine, from) {
            None => return None,
            Some(part) => match begun_copy(scene, frame, part, place) {
                Some(copy) => return Some(copy),
                None => from = part.place.saturating_sub(1),
            },
        }
    }
    None
}

/// The array of which a copy is, by the row of the parameter.
fn array_local(call: u32, token: u32, place: u32, row: Row) -> Option<Local>
    ensures { result ≡ array_local call token place row }
{
    match row {
        Row::Name(NameRow::Variable { of, .. }) => Some(Local {
            token,
            spot: Spot {
                held: Held::Conformant { call, of },
                place,
            },
        }),
        _ => None,
    }
}

/// The copy that has a place of a frame.
fn copy_local(scene: &Scene, frame: Frame, place: u32, routine: Routine) -> Option<Local>
    ensures { result ≡ copy_local (scene_in scene.now) frame place routine }
{
    let most = routine.parameters;
    match copy_before(scene, frame, place, most, most.saturating_sub(1)) {
        None => None,
        Some(copy) => array_local(
            frame.call,
            copy.number,
            place.saturating_sub(copy.place),
            scene.program.row(copy.number),
        ),
    }
}

/// Whether a function's result has a place.
pub(crate) fn is_result(result_place: Option<u32>, place: u32) -> bool
    ensures { result ≡ is_result result_place place }
{
    match result_place {
        None => false,
        Some(at) => at == place,
    }
}

/// What has a place of the frame of a call of a routine.
fn local_in(scene: &Scene, frame: Frame, place: u32, routine: Routine) -> Option<Local>
    ensures { result ≡ local_in (scene_in scene.now) frame place (Some routine) }
{
    if place == 0 {
        None
    } else if place >= routine.cells {
        copy_local(scene, frame, place, routine)
    } else if is_result(routine.result, place) {
        result_local(routine, result_of(scene.program.row(routine.heading)))
    } else {
        let part = scene.names.local(frame.routine, place);
        part_local(scene.program, frame.call, place, part)
    }
}

/// What has a place of the frame of a call: a parameter or a variable, or the result of a function, and behind them the
/// copies of conformant parameters by value. The first cell of a frame, its link, has no name.
#[tactic(auto, unfolding(crate::specs::Names::local_at))]
pub fn local_at(scene: &Scene, frame: Frame, place: u32) -> Option<Local>
    ensures { result ≡ local_at (scene_in scene.now) frame place }
{
    match scene.program.routine(frame.routine) {
        None => None,
        Some(routine) => local_in(scene, frame, place, routine),
    }
}

/// The cells of a copy, by the row of its parameter.
fn cells_of_copy(
    scene: &Scene,
    frame: Frame,
    copy: Option<PlacedPart>,
    row: Row,
) -> Option<CopyCells>
    ensures { result ≡ cells_of_copy (scene_in scene.now) frame copy row }
{
    match (copy, row) {
        (Some(copy), Row::Name(NameRow::Variable { of, .. })) => Some(CopyCells {
            place: copy.place,
            cells: cells_held(scene.program, scene.calls, frame.call, of),
        }),
        _ => None,
    }
}

/// The copy of the parameter at a place of the frame of a call, if that is a conformant one by value.
#[tactic(auto, unfolding(crate::specs::Names::copy_cells))]
pub fn copy_cells(scene: &Scene, frame: Frame, place: u32) -> Option<CopyCells>
    ensures { result ≡ copy_cells (scene_in scene.now) frame place }
{
    match scene.names.local(frame.routine, place) {
        None => None,
        Some(part) => {
            if part.place == place {
                let row = scene.program.row(part.number);
                cells_of_copy(scene, frame, copy_of(scene, frame, part), row)
            } else {
                None
            }
        }
    }
}

/// The cells of the array of a conformant parameter of a call.
pub fn array_cells(scene: &Scene, call: u32, of: u32) -> u32
    ensures { result ≡ cells_in_call (scene_in scene.now).program (scene_in scene.now).args call of }
{
    cells_held(scene.program, scene.calls, call, of)
}

/// What was found in the frame of a call of a routine.
fn local_root(call: u32, routine: u32, local: Option<Local>) -> Option<Root>
    ensures { result ≡ local_root call routine local }
{
    match local {
        None => None,
        Some(local) => Some(Root {
            origin: Origin::Local {
                call,
                routine,
                token: local.token,
            },
            spot: local.spot,
        }),
    }
}

/// What has a place of the frame of a call.
fn root_in(scene: &Scene, call: u32, top: u32, place: u32) -> Option<Root>
    ensures { result ≡ root_in (scene_in scene.now) call top place (slice_get scene.now.routines call) }
{
    match scene.routines.get(call as usize).copied() {
        None => None,
        Some(routine) => {
            let frame = Frame { call, routine, top };
            local_root(call, routine, local_at(scene, frame, place))
        }
    }
}

/// What has an address of the stack.
fn stack_root(scene: &Scene, address: u32, part: Option<PlacedPart>) -> Option<Root>
    ensures { result ≡ stack_root (scene_in scene.now) address part }
{
    match part {
        None => None,
        Some(part) => root_in(
            scene,
            part.number,
            part.place,
            address.saturating_sub(part.place),
        ),
    }
}

/// What has an address of the heap.
pub(crate) fn heap_root(address: u32, part: Option<PlacedPart>) -> Option<Root>
    ensures { result ≡ heap_root address part }
{
    match part {
        None => None,
        Some(part) => Some(Root {
            origin: Origin::Heap(part.place),
            spot: Spot {
                held: Held::Variable(part.number),
                place: address.saturating_sub(part.place),
            },
        }),
    }
}

/// What has an address: a variable of the heap, or what has its place in the frame of the innermost open call whose
/// frame begins there or before.
#[tactic(auto, unfolding(crate::specs::Names::root_at))]
pub fn root_at(scene: &Scene, address: u32) -> Option<Root>
    ensures { result ≡ root_at (scene_in scene.now) address }
{
    if address >= 524_288 {
        heap_root(address, scene.names.block(address))
    } else {
        stack_root(scene, address, scene.opened.find(address))
    }
}

/// Whether a part begins at an address.
fn begins_there(address: u32, part: Option<PlacedPart>) -> bool
    ensures { result ≡ begins_there address part }
{
    match part {
        None => false,
        Some(part) => part.place == address,
    }
}

/// Whether the cell at an address is the first one of the frame of an open call: its link to the frame in which its
/// routine was declared.
pub fn is_link(scene: &Scene, address: u32) -> bool
    ensures { result ≡ is_link (scene_in scene.now) address }
{
    address < 524_288 && begins_there(address, scene.opened.find(address))
}

/// Prints what stands for the name of a cell that has none.
pub fn write_address<P: Printer>(out: &mut P, address: u32)
    ensures { Prints (P.printout out.old) (P.printout out.new) (address_text address) }
{
    out.print(b"cell ");
    write_number(out, address);
}

/// Prints whose a variable of a call is, where it is none of call 0.
fn write_whose<P: Printer>(out: &mut P, program: &Program, call: u32, routine: u32)
    ensures { Prints (P.printout out.old) (P.printout out.new) (whose_text program.now call routine) }
{
    if call == 0 {
        return;
    }
    out.print(program.name(routine));
    out.print(b"#");
    write_number(out, call);
    out.print(b".");
}

/// Prints what the way down begins at.
fn write_origin<P: Printer>(out: &mut P, program: &Program, origin: Origin)
    ensures { Prints (P.printout out.old) (P.printout out.new) (origin_text program.now origin) }
{
    match origin {
        Origin::Heap(base) => {
            out.print(b"^");
            write_number(out, base.saturating_sub(524_287));
            out.print(b"^");
        }
        Origin::Local {
            call,
            routine,
            token,
        } => {
            write_whose(out, program, call, routine);
            out.print(program.text(token));
        }
    }
}

/// Prints the name of a cell, and gives what the cell is.
pub fn write_root<P: Printer>(out: &mut P, scene: &Scene, wanted: Option<Held>, root: Root) -> Held
    ensures writes { Prints (P.printout out.old) (P.printout out.new) (cell_text (scene_in scene.now) wanted root) }
    ensures is { result ≡ cell_held (scene_in scene.now) wanted root }
{
    write_origin(out, scene.program, root.origin);
    let end = write_way(out, scene, wanted, root.spot);
    end.held
}
