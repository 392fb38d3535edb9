//! What the texts on a call are printed from. It is made before anything is printed, so that printing takes no memory.

ghost use Rattle.std.specs.Prelude.{◌<◌, ◌≡◌, IfOk, Some, length, slice_get};
ghost use Rattle.call_tree.specs.{Told.IsTold, Told.part_of, declared.records.Call.Call as TableCall};
ghost use Rattle.question_text.specs.{Cards.recorded_in, Prepared.AreParts, Prepared.IsDoneIn};

use crate::opened::opened_calls;
use call_tree::{Call, Calls};
use cell_names::{NameFinder, PlacedParts};
use cell_value::Items;
use core_program::Program;
use effect_log::{Footprint, Log, effect};
use std::alloc::{AllocError, Global};

/// A run, as its cards tell of it.
#[derive(Drop)]
pub struct Recorded<'a> {
    pub program: &'a Program,
    /// How many tokens its source has.
    pub tokens: u32,
    /// What is found in it by its place.
    pub names: &'a NameFinder,
    pub calls: &'a Calls,
    pub log: &'a Log,
    pub items: &'a Items,
}

/// What the card of a call is printed from.
#[derive(Drop)]
pub struct CardParts {
    /// The calls that are open while it runs, by where their frames begin.
    pub opened: PlacedParts,
    /// What it did.
    pub done: Footprint,
}

/// What a call did, by its part of the log.
fn done_by(alloc: Global, from: &Recorded, call: &Call) -> Result<Footprint, AllocError>
    requires { IsTold from.now.log.now from.now.items.now call.now }
    ensures { IfOk result (λ done. IsDoneIn (part_of from.now.log.now call.now) call.now done) }
{
    let entry = &call.entry;
    let done = effect(
        alloc,
        from.log,
        entry.mark,
        call.exit.mark,
        entry.top,
        entry.place,
    )?;
    Ok(done)
}

/// What the card of a call is printed from. The call's part of the log is one whose effect can be counted, and the
/// input has the items that it took.
pub fn card_parts(alloc: Global, from: &Recorded, number: u32) -> Result<CardParts, AllocError>
    requires a_call { number < length from.now.calls.now.calls }
    requires told { (c : TableCall) → slice_get from.now.calls.now.calls number ≡ Some c
        → IsTold from.now.log.now from.now.items.now c }
    ensures { IfOk result (λ parts. AreParts (recorded_in from.now) number parts) }
{
    let opened = opened_calls(alloc, from.calls, number)?;
    let done = done_by(alloc, from, from.calls.call(number))?;
    Ok(CardParts { opened, done })
}
