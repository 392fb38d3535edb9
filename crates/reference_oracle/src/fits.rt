//! Whether a call worked on nothing but what both programs have.

ghost use Rattle.std.specs.Prelude.{◌&&◌, ◌≡◌, ℕ, IfOk, List, nat_eq};
ghost use Rattle.std.specs.List.{list_all};
ghost use Rattle.call_tree.specs.Told.{IsTold};
ghost use Rattle.body_replay.specs.ByRows.{IsEffectOf};
ghost use Rattle.reference_oracle.specs.{Places.has_place, Places.is_placed, Verdicts.returned_or_faulted};

use crate::places::place_at;
use call_tree::Call;
use cell_value::{Cells, Memory, Value, WayOut};
use effect_log::{Changes, Footprint, Log, Reads, effect};
use std::alloc::Global;

/// Whether a call returned, or had a fault.
pub(crate) fn returned_or_faulted(way: WayOut) -> bool
    ensures { result ≡ returned_or_faulted way }
{
    match way {
        WayOut::Returned => true,
        WayOut::Faulted(_, _) => true,
        WayOut::Jumped(_, _) => false,
        WayOut::OutOfSteps => false,
        WayOut::Limited(_) => false,
    }
}

/// The effect of a call, by its row of the table of a run.
pub(crate) fn effect_of(alloc: Global, log: &Log, row: &Call) -> Result<Footprint, Memory>
    requires { (items : List ℕ) × IsTold log.now items row.now }
    ensures { IfOk result (λ found. IsEffectOf log.now row.now found) }
{
    let entry = &row.entry;
    effect(
        alloc,
        log,
        entry.mark,
        row.exit.mark,
        entry.top,
        entry.place,
    )
}

/// Whether an address is that of a cell of a matching variable.
fn has_place(places: &[Option<u32>], address: u32) -> bool
    ensures { result ≡ has_place places.now address }
{
    place_at(places, address).is_some()
}

/// Whether an actual is no place, or that of a cell of a matching variable.
fn is_placed(places: &[Option<u32>], value: Value) -> bool
    ensures { result ≡ is_placed places.now value }
{
    match value {
        Value::Place(address) => has_place(places, address),
        _ => true,
    }
}

/// Whether all actuals are.
fn are_args_placed(places: &[Option<u32>], args: &Cells) -> bool
    ensures { result ≡ list_all (is_placed places.now) args.now }
{
    'values: for i in 0..args.len() {
        if !is_placed(places, args.at(i)) {
            return false;
        }
    }
    true
}

/// Whether all that was read or asked for is a cell of a matching variable.
fn are_reads_placed(places: &[Option<u32>], reads: &Reads) -> bool
    ensures { result ≡ list_all (λ x. has_place places.now x.0) reads.now }
{
    'each: for i in 0..reads.len() {
        let (address, _) = reads.at(i);
        if !has_place(places, address) {
            return false;
        }
    }
    true
}

/// Whether all that was changed is.
fn are_changes_placed(places: &[Option<u32>], changes: &Changes) -> bool
    ensures { result ≡ list_all (λ x. has_place places.now x.0) changes.now }
{
    'each: for i in 0..changes.len() {
        let (address, _) = changes.at(i);
        if !has_place(places, address) {
            return false;
        }
    }
    true
}

/// Whether a call worked on cells of matching variables alone, by its arguments and its effect.
pub(crate) fn is_common(places: &[Option<u32>], args: &Cells, found: &Footprint) -> bool
    ensures { result ≡ (list_all (is_placed places.now) args.now
        && (list_all (λ x. has_place places.now x.0) found.now.reads
        && (list_all (λ x. has_place places.now x.0) found.now.changes && nat_eq found.now.made 0))) }
{
    are_args_placed(places, args)
        && are_reads_placed(places, &found.reads)
        && are_changes_placed(places, &found.changes)
        && found.made == 0
}
