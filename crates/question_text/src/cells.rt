//! The lines of a card on cells: parameters, what was seen, and what was changed.

ghost use Rattle.std.specs.Prelude.{◌≤◌, Some, flat_map, length, slice_range};
ghost use Rattle.edge_ports.specs.Printouts.{Prints};
ghost use Rattle.core_program.specs.ProgramRows.{routine_at};
ghost use Rattle.cell_names.specs.Names.{copy_cells, root_text, scene_in, variable_name};
ghost use Rattle.question_text.specs.Cells.{argument_text, arguments_text, array_text, cell_value_text, cells_text};
ghost use Rattle.question_text.specs.Cells.{change_line, change_text, copied_in, held_text, parameter_line};
ghost use Rattle.question_text.specs.Cells.{parameter_text, place_text, reference_text, routine_text, seen_line};
ghost use Rattle.question_text.specs.Cells.{seen_text, tag_text};

use cell_names::{
    CopyCells, Frame, Held, Local, Root, Scene, array_cells, copy_cells, is_link, local_at,
    root_at, write_address, write_long, write_root, write_typed, write_untyped, write_way,
};
use cell_value::{Cells, Change, Seen, Value};
use core_program::{Program, Routine};
use edge_ports::Printer;
use effect_log::{Changes, Reads};

/// Prints the name of what has an address, or of the first variable on the way down to it that is wanted. What has
/// no name is told by its address.
pub(crate) fn write_root_name<P: Printer>(
    out: &mut P,
    scene: &Scene,
    wanted: Option<Held>,
    address: u32,
    root: Option<Root>,
)
    ensures { Prints (P.printout out.old) (P.printout out.new) (root_text (scene_in scene.now) wanted address root) }
{
    match root {
        None => write_address(out, address),
        Some(root) => {
            write_root(out, scene, wanted, root);
        }
    }
}

/// Prints the name of the variable that is wanted and has an address.
fn write_variable<P: Printer>(out: &mut P, scene: &Scene, wanted: Held, address: u32)
    ensures { Prints (P.printout out.old) (P.printout out.new) (variable_name (scene_in scene.now) wanted address) }
{
    write_root_name(out, scene, Some(wanted), address, root_at(scene, address));
}

/// Prints the variable that has an address and is wanted. One without cells has no name.
fn write_place<P: Printer>(out: &mut P, scene: &Scene, cells: u32, wanted: Held, value: Value)
    ensures { Prints (P.printout out.old) (P.printout out.new)
        (place_text (scene_in scene.now) cells wanted value) }
{
    let Value::Place(address) = value else {
        return out.print(b"?");
    };
    out.print(b"at ");
    if cells == 0 {
        out.print(b"nothing");
    } else {
        write_variable(out, scene, wanted, address);
    }
}

/// Prints the variable that a variable parameter of a type stands for.
fn write_reference<P: Printer>(out: &mut P, scene: &Scene, of: u32, value: Value)
    ensures { Prints (P.printout out.old) (P.printout out.new) (reference_text (scene_in scene.now) of value) }
{
    let cells = scene.program.size_of(of);
    write_place(out, scene, cells, Held::Variable(of), value);
}

/// Prints the array that a conformant parameter of a call stands for.
fn write_array<P: Printer>(out: &mut P, scene: &Scene, call: u32, of: u32, value: Value)
    ensures { Prints (P.printout out.old) (P.printout out.new) (array_text (scene_in scene.now) call of value) }
{
    let cells = array_cells(scene, call, of);
    write_place(out, scene, cells, Held::Conformant { call, of }, value);
}

/// Prints a hidden tag.
fn write_tag<P: Printer>(out: &mut P, value: Value)
    ensures { Prints (P.printout out.old) (P.printout out.new) (tag_text value) }
{
    match value {
        Value::Number(position) => write_long(out, position),
        _ => out.print(b"?"),
    }
}

/// Prints the procedure or function that a parameter stands for.
fn write_routine<P: Printer>(out: &mut P, program: &Program, value: Value)
    ensures { Prints (P.printout out.old) (P.printout out.new) (routine_text program.now value) }
{
    match value {
        Value::Routine(routine, _) => out.print(program.name(routine)),
        _ => out.print(b"?"),
    }
}

/// Prints what a cell holds.
pub(crate) fn write_held<P: Printer>(out: &mut P, scene: &Scene, held: Held, value: Value)
    ensures { Prints (P.printout out.old) (P.printout out.new) (held_text (scene_in scene.now) held value) }
{
    match held {
        Held::Variable(of) => write_typed(out, scene.program, of, value),
        Held::HiddenTag => write_tag(out, value),
        Held::Reference(of) => write_reference(out, scene, of, value),
        Held::Conformant { .. } => out.print(b"?"),
        Held::ConformantReference { call, of } => write_array(out, scene, call, of, value),
        Held::Routine => write_routine(out, scene.program, value),
    }
}

/// Prints the name of a cell and what it holds.
fn write_cell_value<P: Printer>(
    out: &mut P,
    scene: &Scene,
    address: u32,
    root: Option<Root>,
    value: Value,
)
    ensures { Prints (P.printout out.old) (P.printout out.new)
        (cell_value_text (scene_in scene.now) address root value) }
{
    match root {
        None => {
            write_address(out, address);
            out.print(b" = ");
            write_untyped(out, value);
        }
        Some(root) => {
            let held = write_root(out, scene, None, root);
            out.print(b" = ");
            write_held(out, scene, held, value);
        }
    }
}

/// Prints the cell of a parameter at an address, and what it holds.
fn write_parameter<P: Printer>(
    out: &mut P,
    scene: &Scene,
    address: u32,
    local: Option<Local>,
    value: Value,
)
    ensures { Prints (P.printout out.old) (P.printout out.new)
        (parameter_text (scene_in scene.now) address local value) }
{
    match local {
        None => {
            write_address(out, address);
            out.print(b" = ");
            write_untyped(out, value);
        }
        Some(local) => {
            out.print(scene.program.text(local.token));
            let end = write_way(out, scene, None, local.spot);
            out.print(b" = ");
            write_held(out, scene, end.held, value);
        }
    }
}

/// Prints the line on a cell of a parameter at a place of a call's frame.
fn write_parameter_line<P: Printer>(
    out: &mut P,
    scene: &Scene,
    frame: Frame,
    place: u32,
    value: Value,
)
    ensures { Prints (P.printout out.old) (P.printout out.new)
        (parameter_line (scene_in scene.now) frame place value) }
{
    let address = frame.top.saturating_add(place);
    out.print(b"  ");
    write_parameter(out, scene, address, local_at(scene, frame, place), value);
    out.print(b"\n");
}

/// Prints the lines on cells that follow one another from a place of a call's frame on: on those that the call was
/// entered with from one number to before another, which is no greater than how many there are.
fn write_cells<P: Printer>(
    out: &mut P,
    scene: &Scene,
    frame: Frame,
    place: u32,
    args: &Cells,
    from: u32,
    to: u32,
)
    requires { to ≤ length args.now }
    ensures { Prints (P.printout out.old) (P.printout out.new)
        (cells_text (scene_in scene.now) frame place (slice_range args.now from to)) }
{
    let mut at = place;
    'cells: for number in from..to {
        write_parameter_line(out, scene, frame, at, args.at(number));
        at = at.saturating_add(1);
    }
}

/// Prints the lines on the cells of a copy.
fn write_copy<P: Printer>(
    out: &mut P,
    scene: &Scene,
    frame: Frame,
    routine: Routine,
    args: &Cells,
    copy: CopyCells,
)
    ensures { Prints (P.printout out.old) (P.printout out.new)
        (cells_text (scene_in scene.now) frame copy.place (copied_in args.now routine copy)) }
{
    let before = copy.place.saturating_sub(routine.cells);
    let from = routine.parameters.saturating_add(before);
    let to = from.saturating_add(copy.cells).min(args.len());
    write_cells(out, scene, frame, copy.place, args, from, to);
}

/// Prints the lines on the parameter at a place: on what its cell holds, or on the cells of its copy.
fn write_argument<P: Printer>(
    out: &mut P,
    scene: &Scene,
    frame: Frame,
    routine: Routine,
    args: &Cells,
    place: u32,
    value: Value,
)
    ensures { Prints (P.printout out.old) (P.printout out.new)
        (argument_text (scene_in scene.now) frame routine args.now place value
        (copy_cells (scene_in scene.now) frame place)) }
{
    match copy_cells(scene, frame, place) {
        None => write_parameter_line(out, scene, frame, place, value),
        Some(copy) => write_copy(out, scene, frame, routine, args, copy),
    }
}

/// Prints the lines on the parameters of a call of a routine, which come after the link.
fn write_arguments<P: Printer>(
    out: &mut P,
    scene: &Scene,
    frame: Frame,
    routine: Routine,
    args: &Cells,
)
    ensures { Prints (P.printout out.old) (P.printout out.new)
        (arguments_text (scene_in scene.now) frame args.now (Some routine)) }
{
    'places: for place in 1..routine.parameters.min(args.len()) {
        write_argument(out, scene, frame, routine, args, place, args.at(place));
    }
}

/// The same by the number of the routine.
pub(crate) fn write_parameters<P: Printer>(out: &mut P, scene: &Scene, frame: Frame, args: &Cells)
    ensures { Prints (P.printout out.old) (P.printout out.new)
        (arguments_text (scene_in scene.now) frame args.now (routine_at scene.now.program frame.routine)) }
{
    match scene.program.routine(frame.routine) {
        None => {}
        Some(routine) => write_arguments(out, scene, frame, routine, args),
    }
}

/// Prints what a call showed of a cell.
fn write_seen<P: Printer>(out: &mut P, scene: &Scene, address: u32, root: Option<Root>, seen: Seen)
    ensures { Prints (P.printout out.old) (P.printout out.new) (seen_text (scene_in scene.now) address root seen) }
{
    match seen {
        Seen::Held(value) => {
            out.print(b"reads ");
            write_cell_value(out, scene, address, root, value);
        }
        Seen::There => {
            out.print(b"finds ");
            write_root_name(out, scene, None, address, root);
        }
        Seen::Absent => {
            out.print(b"misses ");
            write_root_name(out, scene, None, address, root);
        }
    }
}

/// Prints the line on what a call showed of a cell, if that is no link.
fn write_seen_line<P: Printer>(out: &mut P, scene: &Scene, address: u32, seen: Seen)
    ensures { Prints (P.printout out.old) (P.printout out.new) (seen_line (scene_in scene.now) (address, seen)) }
{
    if is_link(scene, address) {
        return;
    }
    out.print(b"  ");
    write_seen(out, scene, address, root_at(scene, address), seen);
    out.print(b"\n");
}

/// Prints the lines on what a call showed of cells.
pub(crate) fn write_reads<P: Printer>(out: &mut P, scene: &Scene, reads: &Reads)
    ensures { Prints (P.printout out.old) (P.printout out.new) (flat_map (seen_line (scene_in scene.now)) reads.now) }
{
    'reads: for i in 0..reads.len() {
        let (address, seen) = reads.at(i);
        write_seen_line(out, scene, address, seen);
    }
}

/// Prints what a call left a cell with.
fn write_change<P: Printer>(
    out: &mut P,
    scene: &Scene,
    address: u32,
    root: Option<Root>,
    change: Change,
)
    ensures { Prints (P.printout out.old) (P.printout out.new) (change_text (scene_in scene.now) address root change) }
{
    match change {
        Change::Set(value) => {
            out.print(b"changes ");
            write_cell_value(out, scene, address, root, value);
        }
        Change::Gone => {
            out.print(b"changes ");
            write_root_name(out, scene, None, address, root);
            out.print(b" gone");
        }
    }
}

/// Prints the line on what a call left a cell with, if that is no link.
fn write_change_line<P: Printer>(out: &mut P, scene: &Scene, address: u32, change: Change)
    ensures { Prints (P.printout out.old) (P.printout out.new) (change_line (scene_in scene.now) (address, change)) }
{
    if is_link(scene, address) {
        return;
    }
    out.print(b"  ");
    write_change(out, scene, address, root_at(scene, address), change);
    out.print(b"\n");
}

/// Prints the lines on what a call left cells with.
pub(crate) fn write_changes<P: Printer>(out: &mut P, scene: &Scene, changes: &Changes)
    ensures { Prints (P.printout out.old) (P.printout out.new)
        (flat_map (change_line (scene_in scene.now)) changes.now) }
{
    'changes: for i in 0..changes.len() {
        let (address, change) = changes.at(i);
        write_change_line(out, scene, address, change);
    }
}
