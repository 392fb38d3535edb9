//! What is found in frames, in records and in the heap by its place: made once for a run.

ghost use Rattle.std.specs.Prelude.{◌++◌, ◌+◌, ◌<◌, ◌≡◌, ◌≤◌, ℕ, IfOk, OnOk, length, slice_index_or, true};
ghost use Rattle.cell_names.specs.{Layouts.frame_parts, Places.IsRising, Places.finds, Places.is_begun_by};
ghost use Rattle.cell_names.specs.Finding.{block_by, blocks_of, finding_in, finding_of, list_at};
ghost use Rattle.cell_names.specs.declared.places.PlacedPart.{PlacedPart as PartValue};

use crate::layouts::frame_places;
use crate::places::{Found, PlacedPart, PlacedParts};
use crate::records::record_places;
use cell_value::Touch;
use core_program::Program;
use effect_log::Log;
use std::alloc::{AllocError, Global};
use std::marker::Model;

/// What is found by its place in the frames of a program's routines, in its records, and in the heap of its run.
#[derive(Drop)]
pub struct NameFinder {
    /// By the number of a routine.
    frames: Vec<PlacedParts>,
    /// By the number of a record.
    records: Vec<PlacedParts>,
    blocks: PlacedParts,
}

impl Model for NameFinder {
    ghost use Rattle.cell_names.specs.Finding.{NameLists};

    ghost Value = { NameLists };

    ghost view = { λ n. record {
      frames = n.frames.items;
      records = n.records.items;
      blocks = n.blocks;
    } };
}

/// What the frame of each routine has.
fn frames_of(alloc: Global, program: &Program) -> Result<Vec<PlacedParts>, AllocError>
    ensures { IfOk result (λ lists. (routine : ℕ)
        → finds (list_at lists.items routine) ≡ finds (frame_parts program.now routine)) }
{
    let mut lists = Vec::new(alloc);
    'routines: for routine in 0..program.routines() {
        lists.push(frame_places(alloc, program, routine)?)?;
    }
    Ok(lists)
}

/// A block of the heap, if the touch makes one.
fn push_block(blocks: &mut PlacedParts, touch: Touch) -> Result<(), AllocError>
    ensures { OnOk result (finds blocks.new ≡ finds (blocks.old ++ block_by touch)) }
{
    match touch {
        Touch::Make(first, _, kind) => blocks.push(PlacedPart {
            place: first,
            number: kind,
        }),
        _ => Ok(()),
    }
}

/// The blocks of the heap that are made in a run.
fn blocks_of(alloc: Global, log: &Log) -> Result<PlacedParts, AllocError>
    ensures { IfOk result (λ blocks. finds blocks ≡ finds (blocks_of log.now)) }
{
    let mut blocks = PlacedParts::new(alloc);
    'touches: for place in 0..log.len() {
        push_block(&mut blocks, log.at(place))?;
    }
    Ok(blocks)
}

/// What has a place in the list of a number.
#[tactic(auto, unfolding(crate::specs::Places::last_at))]
fn find_in(lists: &[PlacedParts], number: u32, place: u32) -> Option<PlacedPart>
    ensures { result ≡ finds (list_at lists.now number) place }
{
    let number = number as usize;
    if number < lists.len() {
        lists[number].find(place)
    } else {
        None
    }
}

/// The list of a number.
fn list_in(lists: &[PlacedParts], number: u32) -> &[PlacedPart]
    ensures is { result.now ≡ list_at lists.now number }
    ensures rising { IsRising result.now }
{
    let number = number as usize;
    if number < lists.len() {
        lists[number].parts()
    } else {
        &[]
    }
}

/// What has a place in the list of a number, and how far it goes.
#[tactic(auto, unfolding(crate::specs::Places::last_at))]
fn find_near_in(lists: &[PlacedParts], number: u32, place: u32) -> Found
    ensures alike { (k : ℕ) → k ≤ result.more → finds (list_at lists.now number) (place + k) ≡ result.part }
    ensures begun { is_begun_by place result.part ≡ true }
    ensures next { (d : PartValue) → result.begun < length (list_at lists.now number)
        → (slice_index_or (list_at lists.now number) result.begun d).place ≤ place + result.more + 1 }
{
    let number = number as usize;
    if number < lists.len() {
        lists[number].find_near(0, place)
    } else {
        Found {
            part: None,
            more: 0,
            begun: 0,
        }
    }
}

impl NameFinder {
    /// What is found by its place in a program of this many tokens, in whose run this was done. It takes memory.
    pub fn new(
        alloc: Global,
        program: &Program,
        tokens: u32,
        log: &Log,
    ) -> Result<NameFinder, AllocError>
        ensures { IfOk result (λ names. finding_in names ≡ finding_of program.now tokens log.now) }
    {
        let frames = frames_of(alloc, program)?;
        let records = record_places(alloc, program, tokens)?;
        let blocks = blocks_of(alloc, log)?;
        Ok(NameFinder {
            frames,
            records,
            blocks,
        })
    }

    /// What has a place of the frame of a routine: a parameter or a variable, by the token that names it.
    pub(crate) fn local(&self, routine: u32, place: u32) -> Option<PlacedPart>
        ensures { result ≡ (finding_in self.now).frame routine place }
    {
        find_in(&self.frames, routine, place)
    }

    /// What has a place of a record: a field or a tag, by its number.
    pub(crate) fn component(&self, owner: u32, place: u32) -> Option<PlacedPart>
        ensures { result ≡ (finding_in self.now).component owner place }
    {
        find_in(&self.records, owner, place)
    }

    /// The variable of the heap that has an address, by its type.
    pub(crate) fn block(&self, address: u32) -> Option<PlacedPart>
        ensures { result ≡ (finding_in self.now).block address }
    {
        self.blocks.find(address)
    }

    /// What has places of the frame of a routine.
    pub(crate) fn locals(&self, routine: u32) -> &[PlacedPart]
        ensures is { result.now ≡ list_at self.now.frames routine }
        ensures rising { IsRising result.now }
    {
        list_in(&self.frames, routine)
    }

    /// What has places of a record.
    pub(crate) fn components(&self, owner: u32) -> &[PlacedPart]
        ensures is { result.now ≡ list_at self.now.records owner }
        ensures rising { IsRising result.now }
    {
        list_in(&self.records, owner)
    }

    /// What has a place of the frame of a routine, and how far it goes.
    pub(crate) fn local_near(&self, routine: u32, place: u32) -> Found
        ensures alike { (k : ℕ) → k ≤ result.more → (finding_in self.now).frame routine (place + k) ≡ result.part }
        ensures begun { is_begun_by place result.part ≡ true }
        ensures next { (d : PartValue) → result.begun < length (list_at self.now.frames routine)
            → (slice_index_or (list_at self.now.frames routine) result.begun d).place ≤ place + result.more + 1 }
    {
        find_near_in(&self.frames, routine, place)
    }

    /// What has a place of a record, and how far it goes.
    pub(crate) fn component_near(&self, owner: u32, place: u32) -> Found
        ensures alike { (k : ℕ) → k ≤ result.more → (finding_in self.now).component owner (place + k) ≡ result.part }
        ensures begun { is_begun_by place result.part ≡ true }
        ensures next { (d : PartValue) → result.begun < length (list_at self.now.records owner)
            → (slice_index_or (list_at self.now.records owner) result.begun d).place ≤ place + result.more + 1 }
    {
        find_near_in(&self.records, owner, place)
    }

    /// The variable of the heap that has an address, and how far it goes, with a guess at the number of those that
    /// begin there or before.
    pub(crate) fn block_near(&self, guess: usize, address: u32) -> Found
        ensures alike { (k : ℕ) → k ≤ result.more → (finding_in self.now).block (address + k) ≡ result.part }
        ensures begun { is_begun_by address result.part ≡ true }
    {
        self.blocks.find_near(guess, address)
    }
}
