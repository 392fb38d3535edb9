//! What begins where: lists of parts in which the one that has a place is found by halving.

ghost use Rattle.std.specs.Prelude.{◌++◌, ◌+◌, ◌<◌, ◌∷◌, ◌≡◌, ◌≤◌, [], ℕ, IfOk, OnOk, length, slice_index_or, true};
ghost use Rattle.cell_names.specs.Places.{IsAmong, IsRising, IsSplit, finds, is_begun_by};
ghost use Rattle.cell_names.specs.declared.places.PlacedPart.{PlacedPart as PartValue};

use std::alloc::{AllocError, Global};
use std::marker::Model;

/// A part of a frame, of a record or of the heap: the place where it begins, and its number.
#[derive(Clone, Copy)]
pub struct PlacedPart {
    pub place: u32,
    pub number: u32,
}

/// Parts in order, of which the last that begins at a place or before it can be found. Only those are kept that can be
/// found so; their places rise. Clauses see the list of them.
#[derive(Drop)]
pub struct PlacedParts {
    parts: Vec<PlacedPart>,
}

impl Model for PlacedParts {
    ghost use Rattle.std.specs.Prelude.{List};
    ghost use Rattle.cell_names.specs.{Places.IsRising as IsInOrder, declared.places.PlacedPart.PlacedPart};

    ghost Value = { List PlacedPart };

    ghost view = { λ p. p.parts.items };

    ghost invariant = { λ p. IsInOrder p.parts.items };
}

/// The part that has a place, if there is one; how many places after it have the same; and the number of parts that
/// begin there or before.
#[derive(Clone, Copy)]
pub(crate) struct Found {
    pub(crate) part: Option<PlacedPart>,
    pub(crate) more: u32,
    pub(crate) begun: usize,
}

/// How many of some parts, whose places rise, begin before a place.
fn count_before(parts: &[PlacedPart], place: u64) -> usize
    requires { IsRising parts.now }
    ensures { IsSplit place parts.now result }
{
    let mut low = 0usize;
    let mut high = parts.len();
    'halves: while low < high {
        let middle = low + (high - low) / 2;
        if u64::from(parts[middle].place) < place {
            low = middle + 1;
        } else {
            high = middle;
        }
    }
    low
}

/// Whether the first parts, this many, begin before a place.
#[inline]
fn all_before(parts: &[PlacedPart], place: u64, count: usize) -> bool
    requires rising { IsRising parts.now }
    requires inside { count ≤ length parts.now }
    ensures { result ≡ true → (k : ℕ) (d : PartValue) → k < count → (slice_index_or parts.now k d).place < place }
{
    if count == 0 {
        true
    } else {
        u64::from(parts[count - 1].place) < place
    }
}

/// Whether none but the first parts, this many, begins before a place.
#[inline]
fn none_before(parts: &[PlacedPart], place: u64, count: usize) -> bool
    requires { IsRising parts.now }
    ensures { result ≡ true → (k : ℕ) (d : PartValue) → count ≤ k → k < length parts.now
        → place ≤ (slice_index_or parts.now k d).place }
{
    if count < parts.len() {
        place <= u64::from(parts[count].place)
    } else {
        true
    }
}

/// Whether so many of some parts, whose places rise, begin before a place.
#[inline]
fn are_before(parts: &[PlacedPart], place: u64, count: usize) -> bool
    requires { IsRising parts.now }
    ensures { result ≡ true → IsSplit place parts.now count }
{
    if count > parts.len() {
        false
    } else {
        all_before(parts, place, count) && none_before(parts, place, count)
    }
}

/// The same as `count_before`, quick if it is as many as was guessed, or one more.
#[inline]
fn count_near(parts: &[PlacedPart], place: u64, guess: usize) -> usize
    requires { IsRising parts.now }
    ensures { IsSplit place parts.now result }
{
    if are_before(parts, place, guess) {
        return guess;
    }
    let next = guess.saturating_add(1);
    if are_before(parts, place, next) {
        return next;
    }
    count_before(parts, place)
}

/// How many places after one are before the next part, where this many parts begin there or before.
#[inline]
fn places_left(parts: &[PlacedPart], at: u32, begun: usize) -> u32
    requires rising { IsRising parts.now }
    requires split { IsSplit (at + 1) parts.now begun }
    ensures split { (k : ℕ) → k ≤ result → IsSplit ((at + k) + 1) parts.now begun }
    ensures next { (d : PartValue) → begun < length parts.now
        → (slice_index_or parts.now begun d).place ≤ at + result + 1 }
{
    if begun < parts.len() {
        parts[begun].place.saturating_sub(at).saturating_sub(1)
    } else {
        u32::MAX - at
    }
}

/// How many places after one are before the part of a number, if that is none of the first parts, which begin there or
/// before; or as many as have the same part.
#[inline]
pub(crate) fn places_up_to(parts: &[PlacedPart], at: u32, found: Found, last: usize) -> u32
    ensures { (k : ℕ) → found.more < k → k ≤ result → IsAmong parts.now found.begun last (at + k) }
{
    if last <= found.begun {
        found.more
    } else if last < parts.len() {
        parts[last].place.saturating_sub(at).saturating_sub(1)
    } else {
        u32::MAX - at
    }
}

/// Whether each of some parts begins before the next one.
fn are_rising(parts: &[PlacedPart]) -> bool
    ensures { result ≡ true → IsRising parts.now }
{
    let mut at = 1usize;
    'parts: while at < parts.len() {
        if parts[at].place <= parts[at - 1].place {
            return false;
        }
        at += 1;
    }
    true
}

/// Parts, one after another.
fn pushed(alloc: Global, parts: &[PlacedPart]) -> Result<PlacedParts, AllocError>
    ensures { IfOk result (λ places. finds places ≡ finds parts.now) }
{
    let mut places = PlacedParts::new(alloc);
    let mut at = 0usize;
    'parts: while at < parts.len() {
        places.push(parts[at])?;
        at += 1;
    }
    Ok(places)
}

impl PlacedParts {
    /// No parts. It takes no memory.
    pub fn new(alloc: Global) -> PlacedParts
        ensures { result ≡ [] }
    {
        PlacedParts {
            parts: Vec::new(alloc),
        }
    }

    /// These parts. It takes memory only where their places do not rise.
    pub fn of(alloc: Global, parts: Vec<PlacedPart>) -> Result<PlacedParts, AllocError>
        ensures { IfOk result (λ places. finds places ≡ finds parts.items) }
    {
        if are_rising(&parts) {
            Ok(PlacedParts { parts })
        } else {
            pushed(alloc, &parts)
        }
    }

    /// The parts that can be found.
    #[inline]
    pub(crate) fn parts(&self) -> &[PlacedPart]
        ensures is { result.now ≡ self.now }
        ensures rising { IsRising result.now }
    {
        &self.parts
    }

    /// One more part after the others.
    pub fn push(&mut self, part: PlacedPart) -> Result<(), AllocError>
        ensures { OnOk result (finds self.new ≡ finds (self.old ++ part ∷ [])) }
    {
        let before = count_near(&self.parts, u64::from(part.place), self.parts.len());
        self.parts.truncate(before);
        self.parts.push(part)?;
        Ok(())
    }

    /// The part that has a place: the last that begins there or before.
    pub fn find(&self, at: u32) -> Option<PlacedPart>
        ensures { result ≡ finds self.now at }
    {
        let begun = count_before(&self.parts, u64::from(at) + 1);
        if begun == 0 {
            return None;
        }
        Some(self.parts[begun - 1])
    }

    /// The part that has a place, and how far it goes. A guess at the number of parts that begin there or before makes
    /// it quick, if it is right or one too few.
    #[inline]
    pub(crate) fn find_near(&self, guess: usize, at: u32) -> Found
        ensures alike { (k : ℕ) → k ≤ result.more → finds self.now (at + k) ≡ result.part }
        ensures begun { is_begun_by at result.part ≡ true }
        ensures next { (d : PartValue) → result.begun < length self.now
            → (slice_index_or self.now result.begun d).place ≤ at + result.more + 1 }
    {
        let begun = count_near(&self.parts, u64::from(at) + 1, guess);
        let more = places_left(&self.parts, at, begun);
        if begun == 0 {
            return Found {
                part: None,
                more,
                begun,
            };
        }
        Found {
            part: Some(self.parts[begun - 1]),
            more,
            begun,
        }
    }
}
