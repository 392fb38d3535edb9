//! A walk over the addresses of a run in search of the cells that a name names: what has another name is passed over at
//! once, be it a frame, a variable, a component of an array or a field of a record.

ghost use Rattle.std.specs.Prelude.{◌+ℤ◌, ◌+◌, ◌-◌, ◌<◌, ◌≡◌, ◌≤◌, ℕ, Bool, IfSome, List, Some, false, is_some, length};
ghost use Rattle.std.specs.{Prelude.option_copied, Prelude.pos, Prelude.slice_get, Prelude.true, Option.MatchOption};
ghost use Rattle.core_program.specs.ProgramRows.{type_at};
ghost use Rattle.cell_names.specs.{Finding.finding_in, Names.stack_root, Names.step_down, Places.is_begun_by};
ghost use Rattle.cell_names.specs.NamedBy.{after_part, leads_by, leads_within};
ghost use Rattle.cell_names.specs.Names.{copy_before, heap_root, local_at, local_in, most_types, root_in, scene_in};
ghost use Rattle.cell_names.specs.Walks.{NoneAfter, NoneFrom, Walks, WalksOver, before_copy, before_end, before_result};
ghost use Rattle.cell_names.specs.Walks.{components_in, components_of, conformant_components, ends_or_dots, index_text};
ghost use Rattle.cell_names.specs.Walks.{is_indexed, is_local_at, is_named_root, is_of_block, is_of_call, is_of_frame};
ghost use Rattle.cell_names.specs.Walks.{is_of_heap, is_of_local, is_selected, is_selected_at, left_of_component};
ghost use Rattle.cell_names.specs.Walks.{limited, may_select, moved, moved_local, moved_root, moved_step, record_of};
ghost use Rattle.cell_names.specs.declared.names.Spot.{Spot as SpotValue};

use crate::conformant::{cells_held, extent_of, held_in};
use crate::name_parts::{
    then_block, then_call, then_index, then_origin, then_part, then_selector, then_sign, then_whose,
};
use crate::named_by::{is_of_all, step_named};
use crate::names::{
    Frame, Held, Origin, Root, Scene, Spot, copy_of, heap_root, is_result, least_in, local_at,
    record_step,
};
use crate::places::{PlacedPart, places_up_to};
use crate::values::{Bounds, bounds_of};
use core_program::rows::TypeRow;
use core_program::{Program, Routine};

/// What a walk comes to at an address.
#[derive(Clone, Copy)]
pub enum Walked {
    /// The cell is named.
    Named(Root),
    /// The cell is not named, nor are this many after it.
    Unnamed(u32),
}

/// No more than this many are passed over.
#[inline]
fn limited(walked: Walked, more: u32) -> Walked
    ensures { result ≡ limited walked more }
{
    match walked {
        Walked::Named(root) => Walked::Named(root),
        Walked::Unnamed(unnamed) => Walked::Unnamed(unnamed.min(more)),
    }
}

/// How many cells after one are of the same component.
#[inline]
fn left_of_component(place: u32, size: u32) -> u32
    ensures { result ≡ left_of_component place size }
{
    if size == 0 {
        0
    } else {
        size - 1 - place % size
    }
}

/// How many cells after one have the same next step down as it has, but for their places.
#[inline]
fn alike_below(scene: &Scene, at: Spot) -> u32
    ensures { (k : ℕ) → k ≤ result
        → step_down (scene_in scene.now) (moved k at) ≡ moved_step k (step_down (scene_in scene.now) at) }
{
    match at.held {
        Held::Variable(of) => match scene.program.type_row(of) {
            Some(TypeRow::Array { component, .. }) => {
                left_of_component(at.place, scene.program.size_of(component))
            }
            Some(TypeRow::Record { .. }) => scene.names.component_near(of, at.place).more,
            _ => 0,
        },
        Held::Conformant { call, of } => match scene.program.type_row(of) {
            Some(TypeRow::Conformant { component, .. }) => left_of_component(
                at.place,
                cells_held(scene.program, scene.calls, call, component),
            ),
            _ => 0,
        },
        _ => 0,
    }
}

/// The components of an array.
#[derive(Clone, Copy)]
pub(crate) struct Components {
    /// The type of the index, and its values.
    pub(crate) index: u32,
    pub(crate) bounds: Option<Bounds>,
    /// The least index.
    pub(crate) least: i32,
    /// What a component is, and its cells.
    pub(crate) component: Held,
    pub(crate) size: u32,
}

/// The components of an array of a type.
#[inline]
fn components_in(program: &Program, of: u32) -> Option<Components>
    ensures { result ≡ components_in program.now (type_at program.now of) }
{
    match program.type_row(of) {
        Some(
            TypeRow::Array {
                index,
                component,
                ..
            },
        ) => {
            let bounds = bounds_of(program, index);
            Some(Components {
                index,
                bounds,
                least: least_in(bounds),
                component: Held::Variable(component),
                size: program.size_of(component),
            })
        }
        _ => None,
    }
}

/// The components of the array of a conformant parameter, where its bounds are known.
fn conformant_components(scene: &Scene, call: u32, of: u32) -> Option<Components>
    ensures { result
        ≡ conformant_components (scene_in scene.now) call (type_at scene.now.program of) }
{
    match scene.program.type_row(of) {
        Some(
            TypeRow::Conformant {
                index,
                component,
                place,
                ..
            },
        ) => {
            let extent = extent_of(scene.program, scene.calls, call, index, place)?;
            Some(Components {
                index,
                bounds: bounds_of(scene.program, index),
                least: extent.least,
                component: held_in(scene.program, call, component),
                size: cells_held(scene.program, scene.calls, call, component),
            })
        }
        _ => None,
    }
}

/// The components of the array that a cell is of, if it is of one.
#[inline]
fn components_of(scene: &Scene, held: Held) -> Option<Components>
    ensures { result ≡ components_of (scene_in scene.now) held }
{
    match held {
        Held::Variable(of) => components_in(scene.program, of),
        Held::Conformant { call, of } => conformant_components(scene, call, of),
        _ => None,
    }
}

/// The ordinal of the index of the component of an array before which there are this many.
#[inline]
fn ordinal_of(least: i32, which: u32) -> i64
    ensures { result ≡ least +ℤ pos which }
{
    i64::from(least) + i64::from(which)
}

/// Whether a name goes on with the index of the component of an array before which there are this many.
#[inline]
fn goes_on_by(program: &Program, array: Components, which: u32, name: &[u8]) -> bool
    ensures { result ≡ is_some (after_part (index_text program.now array which) name.now) }
{
    let value = ordinal_of(array.least, which);
    then_index(Some(name), program, array.bounds, value).is_some()
}

/// Whether a name goes on with the index of the component that has a place of an array.
#[inline]
fn is_indexed(program: &Program, array: Components, place: u32, name: &[u8]) -> bool
    ensures { result ≡ is_indexed program.now array place name.now }
{
    if array.size == 0 {
        false
    } else {
        goes_on_by(program, array, place / array.size, name)
    }
}

/// The place after the one that stands this many after another.
#[inline]
fn place_after(place: u32, more: u32) -> Option<u32>
    ensures is { IfSome result (λ next. next ≡ place + (more + 1)) }
    ensures fits { IfSome result (λ next. more < 4294967295) }
{
    match more.checked_add(1) {
        None => None,
        Some(places) => place.checked_add(places),
    }
}

/// How many cells after one of an array a name does not go on to, where that is known of this many: more than these, or
/// none if it goes on to the next one.
#[inline]
fn passed_component(
    program: &Program,
    array: Components,
    place: u32,
    name: &[u8],
    more: u32,
) -> Option<u32>
    ensures further { IfSome result (λ passed. more < passed) }
    ensures passed { IfSome result (λ passed. (k : ℕ) → more < k → k ≤ passed
        → is_indexed program.now array (place + k) name.now ≡ false) }
{
    match place_after(place, more) {
        None => None,
        Some(next) => {
            if is_indexed(program, array, next, name) {
                None
            } else {
                Some(
                    more.saturating_add(1)
                        .saturating_add(left_of_component(next, array.size)),
                )
            }
        }
    }
}

/// How many cells after one of an array a name does not go on to, where that is known of this many. It looks no further
/// than this limit.
fn passed_components(
    program: &Program,
    array: Components,
    place: u32,
    name: &[u8],
    first: u32,
    limit: u32,
) -> u32
    requires { (k : ℕ) → k ≤ first → is_indexed program.now array (place + k) name.now ≡ false }
    ensures { (k : ℕ) → k ≤ result → is_indexed program.now array (place + k) name.now ≡ false }
{
    let mut more = first;
    'components: while more < limit {
        match passed_component(program, array, place, name, more) {
            None => return more,
            Some(passed) => more = passed,
        }
    }
    more
}

/// The type of the record that a cell is of, if it is of one.
#[inline]
fn record_of(program: &Program, held: Held) -> Option<u32>
    ensures { result ≡ record_of program.now held }
{
    match held {
        Held::Variable(of) => match program.type_row(of) {
            Some(TypeRow::Record { .. }) => Some(of),
            _ => None,
        },
        _ => None,
    }
}

/// Whether a name may go on with the field or tag of a number: its text comes next, or the text of a tag without one.
#[inline]
fn may_select(program: &Program, number: u32, name: &[u8]) -> bool
    ensures { result ≡ may_select program.now number name.now }
{
    let left = then_sign(Some(name), b'.');
    then_part(left, program.text(number)).is_some() || then_part(Some(name), b".case").is_some()
}

/// Whether a name goes on with a field or a tag of a record.
fn selects(program: &Program, part: PlacedPart, name: &[u8]) -> bool
    ensures { result ≡ is_selected program.now (Some part) name.now }
{
    match record_step(program, 0, Some(part)) {
        None => false,
        Some(step) => then_selector(Some(name), program, step.selector).is_some(),
    }
}

/// The same of what was found. No row is read where its text does not fit.
#[inline]
fn is_selected(program: &Program, part: Option<PlacedPart>, name: &[u8]) -> bool
    ensures { result ≡ is_selected program.now part name.now }
{
    match part {
        None => false,
        Some(part) => may_select(program, part.number, name) && selects(program, part, name),
    }
}

/// The number of the first field of a record, from one on, with which a name goes on; or how many there are.
fn first_selected(program: &Program, fields: &[PlacedPart], name: &[u8], from: usize) -> usize
    ensures inside { from < result → result ≤ length fields.now }
    ensures none { NoneFrom (λ part. is_selected program.now part name.now) fields.now from result }
{
    let mut at = from;
    'fields: while at < fields.len() {
        if is_selected(program, Some(fields[at]), name) {
            return at;
        }
        at += 1;
    }
    at
}

/// How many cells after one of a record, to which a name does not go on, it does not go on to either.
fn passed_fields(scene: &Scene, of: u32, place: u32, name: &[u8]) -> u32
    requires { is_selected_at (scene_in scene.now) of place name.now ≡ false }
    ensures { (k : ℕ) → k ≤ result → is_selected_at (scene_in scene.now) of (place + k) name.now ≡ false }
{
    let fields = scene.names.components(of);
    let found = scene.names.component_near(of, place);
    let last = first_selected(scene.program, fields, name, found.begun);
    places_up_to(fields, place, found, last)
}

/// How many cells after one, to which a name does not go on, it does not go on to either. It looks no further than this
/// many.
fn passed_over(scene: &Scene, at: Spot, name: &[u8], limit: u32) -> u32
    requires { (go : SpotValue → List ℕ → Bool)
        → leads_by scene.now.program go name.now (step_down (scene_in scene.now) at) ≡ false }
    ensures { (go : SpotValue → List ℕ → Bool) (k : ℕ) → k ≤ result
        → leads_by scene.now.program go name.now (step_down (scene_in scene.now) (moved k at)) ≡ false }
{
    let first = alike_below(scene, at);
    match components_of(scene, at.held) {
        Some(array) => passed_components(scene.program, array, at.place, name, first, limit),
        None => match record_of(scene.program, at.held) {
            Some(of) => passed_fields(scene, of, at.place, name),
            None => first,
        },
    }
}

/// Whether what is left of a name does not lead to a cell, and how many after it, no more than this many, it does not
/// lead to either.
fn unled(scene: &Scene, from: Spot, name: &[u8], limit: u32) -> Option<u32>
    ensures { MatchOption result (leads_within (scene_in scene.now) most_types from name.now ≡ true)
        (λ more. (k : ℕ) → k ≤ more → leads_within (scene_in scene.now) most_types (moved k from) name.now ≡ false) }
{
    let mut at = from;
    let mut left = name;
    let mut alike = limit;
    'steps: for _ in 0..1_048_576u32 {
        if left.is_empty() {
            return None;
        }
        match step_named(scene, at, left) {
            None => return Some(passed_over(scene, at, left, alike).min(alike)),
            Some((spot, rest)) => {
                alike = alike.min(alike_below(scene, at));
                at = spot;
                left = rest;
            }
        }
    }
    if left.is_empty() { None } else { Some(alike) }
}

/// A walk over a variable, from one of its cells on.
#[inline]
fn walk_root(scene: &Scene, root: Root, name: &[u8], limit: u32) -> Walked
    ensures { WalksOver (scene_in scene.now) name.now (λ k. Some (moved_root k root)) result }
{
    if is_of_all(scene.program, root.origin, name) {
        return Walked::Named(root);
    }
    match then_origin(Some(name), scene.program, root.origin) {
        None => Walked::Unnamed(limit),
        Some(rest) => match unled(scene, root.spot, rest, limit) {
            None => Walked::Named(root),
            Some(more) => Walked::Unnamed(more),
        },
    }
}

/// How many places before the result of a function there are after one.
#[inline]
fn before_result(result_place: Option<u32>, place: u32, more: u32) -> u32
    ensures { result ≡ before_result result_place place more }
{
    match result_place {
        Some(at) => {
            if place < at {
                more.min(at - place - 1)
            } else {
                more
            }
        }
        None => more,
    }
}

/// How many places before the end of a frame without its copies there are after one, of this many.
#[inline]
fn before_end(cells: u32, place: u32, more: u32) -> u32
    ensures { result ≡ before_end cells place more }
{
    more.min(cells.saturating_sub(place).saturating_sub(1))
}

/// How many places after one, of this many, are before a copy, if that begins after it.
#[inline]
fn before_copy(place: u32, copy: Option<PlacedPart>, more: u32) -> Option<u32>
    ensures { result ≡ before_copy place copy more }
{
    match copy {
        None => Some(more),
        Some(copy) => {
            if copy.place <= place {
                None
            } else {
                Some(more.min(copy.place - place - 1))
            }
        }
    }
}

/// How many places of a frame after one have the same copy as it has, or none as it, of the parameters from a place of
/// the frame back, of which at most this many are gone through.
fn alike_copies(scene: &Scene, frame: Frame, place: u32, most: u32, from: u32) -> u32
    ensures { (k : ℕ) → k ≤ result → copy_before (scene_in scene.now) frame (place + k) most from
        ≡ copy_before (scene_in scene.now) frame place most from }
{
    let mut from = from;
    let mut more = u32::MAX;
    'parameters: for _ in 0..most {
        match scene.names.local(frame.routine, from) {
            None => return more,
            Some(part) => match before_copy(place, copy_of(scene, frame, part), more) {
                None => return more,
                Some(fewer) => {
                    more = fewer;
                    from = part.place.saturating_sub(1);
                }
            },
        }
    }
    more
}

/// How many places of the frame of a call after one have the same variable as it has, or none as it.
#[inline]
fn alike_in(scene: &Scene, frame: Frame, place: u32, routine: Routine) -> u32
    ensures { (k : ℕ) → k ≤ result → local_in (scene_in scene.now) frame (place + k) (Some routine)
        ≡ moved_local k (local_in (scene_in scene.now) frame place (Some routine)) }
{
    if place == 0 {
        0
    } else if place >= routine.cells {
        let most = routine.parameters;
        alike_copies(scene, frame, place, most, most.saturating_sub(1))
    } else if is_result(routine.result, place) {
        0
    } else {
        let more = scene.names.local_near(frame.routine, place).more;
        before_end(
            routine.cells,
            place,
            before_result(routine.result, place, more),
        )
    }
}

/// The same of the routine of a number.
#[tactic(auto, unfolding(crate::specs::Names::local_at))]
fn alike_locals(scene: &Scene, frame: Frame, place: u32) -> u32
    ensures { (k : ℕ) → k ≤ result → local_at (scene_in scene.now) frame (place + k)
        ≡ moved_local k (local_at (scene_in scene.now) frame place) }
{
    match scene.program.routine(frame.routine) {
        None => 0,
        Some(routine) => alike_in(scene, frame, place, routine),
    }
}

/// Whether what is left of a name goes on with a variable of a frame.
#[inline]
fn is_of_local(program: &Program, left: &[u8], part: Option<PlacedPart>) -> bool
    ensures { result ≡ is_of_local program.now left.now part }
{
    match part {
        None => false,
        Some(part) => then_part(Some(left), program.text(part.number)).is_some(),
    }
}

/// The number of the first variable of a frame, from one on, with which what is left of a name goes on; or how many
/// there are.
fn first_local(program: &Program, locals: &[PlacedPart], left: &[u8], from: usize) -> usize
    ensures inside { from < result → result ≤ length locals.now }
    ensures none { NoneFrom (λ part. is_of_local program.now left.now part) locals.now from result }
{
    let mut at = from;
    'locals: while at < locals.len() {
        if is_of_local(program, left, Some(locals[at])) {
            return at;
        }
        at += 1;
    }
    at
}

/// How many places of a frame after one have variables with which what is left of a name does not go on, where this
/// many are passed over already. None are added if these are not all that have the same variable.
fn passed_locals(
    scene: &Scene,
    number: u32,
    routine: Routine,
    place: u32,
    left: &[u8],
    first: u32,
) -> u32
    ensures { NoneAfter
        (λ k. is_local_at (scene_in scene.now) number routine (place + k) left.now) first result }
{
    let found = scene.names.local_near(number, place);
    if first < found.more {
        return first;
    }
    if place >= routine.cells || is_result(routine.result, place) {
        return first;
    }
    let locals = scene.names.locals(number);
    let last = first_local(scene.program, locals, left, found.begun);
    let passed = places_up_to(locals, place, found, last);
    before_end(
        routine.cells,
        place,
        before_result(routine.result, place, passed),
    )
}

/// How many places of the frame of a call after one have variables that a name is not of, where that is known of this
/// many.
#[inline]
fn passed_variables(scene: &Scene, frame: Frame, place: u32, name: &[u8], first: u32) -> u32
    requires { (k : ℕ) → k ≤ first → is_named_root (scene_in scene.now) name.now
        (root_in (scene_in scene.now) frame.call frame.top (place + k) (Some frame.routine)) ≡ false }
    ensures { (k : ℕ) → k ≤ result → is_named_root (scene_in scene.now) name.now
        (root_in (scene_in scene.now) frame.call frame.top (place + k) (Some frame.routine)) ≡ false }
{
    match scene.program.routine(frame.routine) {
        None => first,
        Some(row) => match then_whose(Some(name), scene.program, frame.call, frame.routine) {
            None => first,
            Some(left) => passed_locals(scene, frame.routine, row, place, left, first),
        },
    }
}

/// A walk over the variable of a call that has a place of its frame, from there on.
#[inline]
fn walk_local(scene: &Scene, frame: Frame, place: u32, name: &[u8], limit: u32) -> Walked
    ensures { WalksOver (scene_in scene.now) name.now
        (λ k. root_in (scene_in scene.now) frame.call frame.top (place + k) (Some frame.routine)) result }
{
    let alike = alike_locals(scene, frame, place).min(limit);
    match local_at(scene, frame, place) {
        None => Walked::Unnamed(alike),
        Some(local) => {
            let root = Root {
                origin: Origin::Local {
                    call: frame.call,
                    routine: frame.routine,
                    token: local.token,
                },
                spot: local.spot,
            };
            limited(walk_root(scene, root, name, alike), alike)
        }
    }
}

/// A walk over the variables of a call, from a place of its frame on.
#[inline]
fn walk_locals(scene: &Scene, frame: Frame, place: u32, name: &[u8], limit: u32) -> Walked
    ensures { WalksOver (scene_in scene.now) name.now
        (λ k. root_in (scene_in scene.now) frame.call frame.top (place + k) (Some frame.routine)) result }
{
    match walk_local(scene, frame, place, name, limit) {
        Walked::Named(root) => Walked::Named(root),
        Walked::Unnamed(more) => {
            Walked::Unnamed(passed_variables(scene, frame, place, name, more))
        }
    }
}

/// Whether a name ends here, or goes on with the variable of a frame.
#[inline]
fn ends_or_dots(left: Option<&[u8]>) -> bool
    ensures { result ≡ ends_or_dots (option_copied left.entry) }
{
    match left {
        None => false,
        Some(rest) => rest.is_empty() || then_sign(Some(rest), b'.').is_some(),
    }
}

/// Whether a name is a call's, or that of a variable of its frame. The program's variables have no more than their own
/// names.
#[inline]
fn is_of_call(program: &Program, call: u32, routine: u32, name: &[u8]) -> bool
    ensures { result ≡ is_of_call program.now call routine name.now }
{
    call == 0 || ends_or_dots(then_call(Some(name), program, call, routine))
}

/// The routine of a call.
#[inline]
fn routine_of(scene: &Scene, call: u32) -> Option<u32>
    ensures { result ≡ slice_get scene.now.routines call }
{
    scene.routines.get(call as usize).copied()
}

/// Whether a name can be that of a variable of a frame.
#[inline]
fn is_of_frame(scene: &Scene, part: Option<PlacedPart>, name: &[u8]) -> bool
    ensures { result ≡ is_of_frame (scene_in scene.now) part name.now }
{
    match part {
        None => false,
        Some(part) => match routine_of(scene, part.number) {
            None => false,
            Some(routine) => is_of_call(scene.program, part.number, routine, name),
        },
    }
}

/// A walk over the frame of a call of a routine, if there is one, from a place of it on.
#[inline]
fn walk_call(
    scene: &Scene,
    routine: Option<u32>,
    part: PlacedPart,
    place: u32,
    name: &[u8],
    limit: u32,
) -> Walked
    ensures { WalksOver (scene_in scene.now) name.now
        (λ k. root_in (scene_in scene.now) part.number part.place (place + k) routine) result }
{
    match routine {
        None => Walked::Unnamed(limit),
        Some(routine) => {
            let frame = Frame {
                call: part.number,
                routine,
                top: part.place,
            };
            walk_locals(scene, frame, place, name, limit)
        }
    }
}

/// A walk over the frame that stands at an address, from there on.
#[inline]
fn walk_part(
    scene: &Scene,
    name: &[u8],
    address: u32,
    limit: u32,
    part: Option<PlacedPart>,
) -> Walked
    requires { is_begun_by address part ≡ true }
    ensures { WalksOver (scene_in scene.now) name.now
        (λ k. stack_root (scene_in scene.now) (address + k) part) result }
{
    match part {
        None => Walked::Unnamed(limit),
        Some(part) => {
            let routine = routine_of(scene, part.number);
            let place = address.saturating_sub(part.place);
            walk_call(scene, routine, part, place, name, limit)
        }
    }
}

/// The number of the first frame, from one on, that a name can be of; or how many there are.
fn first_frame(scene: &Scene, frames: &[PlacedPart], name: &[u8], from: usize) -> usize
    ensures inside { from < result → result ≤ length frames.now }
    ensures none { NoneFrom (λ part. is_of_frame (scene_in scene.now) part name.now) frames.now from result }
{
    let mut at = from;
    'frames: while at < frames.len() {
        if is_of_frame(scene, Some(frames[at]), name) {
            return at;
        }
        at += 1;
    }
    at
}

/// A walk over addresses of the stack, and a guess at the number of frames that begin at the next one or before.
#[inline]
fn walk_stack(scene: &Scene, name: &[u8], address: u32, limit: u32, guess: usize) -> (Walked, usize)
    ensures { WalksOver (scene_in scene.now) name.now
        (λ k. stack_root (scene_in scene.now) (address + k) ((scene_in scene.now).opened (address + k))) result.0 }
{
    let found = scene.opened.find_near(guess, address);
    if is_of_frame(scene, found.part, name) {
        let limit = limit.min(found.more);
        let walked = walk_part(scene, name, address, limit, found.part);
        (limited(walked, limit), found.begun)
    } else {
        let frames = scene.opened.parts();
        let last = first_frame(scene, frames, name, found.begun);
        let more = places_up_to(frames, address, found, last);
        (Walked::Unnamed(more), last)
    }
}

/// A walk over the variable of the heap that stands at an address, from there on.
#[inline]
fn walk_block(
    scene: &Scene,
    name: &[u8],
    address: u32,
    limit: u32,
    part: Option<PlacedPart>,
) -> Walked
    requires { is_begun_by address part ≡ true }
    ensures { WalksOver (scene_in scene.now) name.now (λ k. heap_root (address + k) part) result }
{
    match heap_root(address, part) {
        None => Walked::Unnamed(limit),
        Some(root) => walk_root(scene, root, name, limit),
    }
}

/// Whether a name can be that of a variable of the heap: all of theirs begin with `^`.
#[inline]
fn is_of_heap(name: &[u8]) -> bool
    ensures { result ≡ is_of_heap name.now }
{
    then_sign(Some(name), b'^').is_some()
}

/// Whether a name goes on after that of a variable of the heap, without its last `^`.
#[inline]
fn is_of_block(name: &[u8], part: Option<PlacedPart>) -> bool
    ensures { result ≡ is_of_block name.now part }
{
    match part {
        None => false,
        Some(part) => then_block(Some(name), part.place).is_some(),
    }
}

/// The same as `walk_block`, quick where the name is that of another variable.
#[inline]
fn walk_near_block(
    scene: &Scene,
    name: &[u8],
    address: u32,
    limit: u32,
    part: Option<PlacedPart>,
) -> Walked
    requires { is_begun_by address part ≡ true }
    ensures { WalksOver (scene_in scene.now) name.now (λ k. heap_root (address + k) part) result }
{
    if is_of_block(name, part) {
        walk_block(scene, name, address, limit, part)
    } else {
        Walked::Unnamed(limit)
    }
}

/// A walk over addresses of the heap, and the number of its variables that begin at the first or before.
#[inline]
fn walk_blocks(
    scene: &Scene,
    name: &[u8],
    address: u32,
    limit: u32,
    guess: usize,
) -> (Walked, usize)
    ensures { WalksOver (scene_in scene.now) name.now
        (λ k. heap_root (address + k) ((scene_in scene.now).finding.block (address + k))) result.0 }
{
    let found = scene.names.block_near(guess, address);
    let limit = limit.min(found.more);
    let walked = walk_near_block(scene, name, address, limit, found.part);
    (limited(walked, limit), found.begun)
}

/// The same, over all of them at once where the name is none of the heap.
#[inline]
fn walk_heap(scene: &Scene, name: &[u8], address: u32, limit: u32, guess: usize) -> (Walked, usize)
    ensures { WalksOver (scene_in scene.now) name.now
        (λ k. heap_root (address + k) ((scene_in scene.now).finding.block (address + k))) result.0 }
{
    if is_of_heap(name) {
        walk_blocks(scene, name, address, limit, guess)
    } else {
        (Walked::Unnamed(limit), guess)
    }
}

/// Whether a name names the cell at an address; if not, how many after it, no more than this many, it does not name
/// either. With it comes a guess for the next walk, which makes it quick: any number will do for the first.
pub fn walk(scene: &Scene, name: &[u8], address: u32, limit: u32, guess: usize) -> (Walked, usize)
    ensures { Walks (scene_in scene.now) name.now address result.0 }
{
    if address >= 524_288 {
        walk_heap(scene, name, address, limit, guess)
    } else {
        let (walked, guess) = walk_stack(scene, name, address, limit, guess);
        (limited(walked, 524_287 - address), guess)
    }
}
