//! A keeper in memory.
ghost use Rattle.std.specs.Prelude.{◌<◌, ◌↔◌, ◌≡◌, ◌≤◌, ℕ, Err, IfOk, IsSomeAnd, None, Ok, OnErr, OnOk, Option, Some};
ghost use Rattle.std.specs.{Prelude.length, FinMap.empty, FinMap.insert, Option.option_map};
ghost use Rattle.edge_ports.specs.{Entries.files_of, States.IsListed};
ghost use Rattle.edge_ports.specs.Counts.{CountsFetch, CountsStore, NoneFallen, no_counts};
ghost use Rattle.edge_ports.specs.Files.{HoldsFile, HoldsLonger, KeepsOthers, LacksFile, StoresFile, file_at};
ghost use Rattle.edge_ports.specs.Shelves.{empty_shelf, files_stored, shelf_after, shelf_stored};

use crate::counts::Counts;
use crate::plan::Plan;
use crate::{Bytes, FetchFault, Keeper, Memory, StoreFault};
use std::alloc::Global;
use std::collections::VecDeque;
use std::marker::Model;

/// A name and the bytes of its file.
#[derive(Debug, Drop)]
pub struct ShelvedFile {
    name: Vec<u8>,
    bytes: Vec<u8>,
}

/// A keeper in memory, some of whose calls may be asked to fail.
#[derive(Debug, Drop)]
pub struct Shelf {
    alloc: Global,
    entries: VecDeque<ShelvedFile>,
    plan: Plan,
    counts: Counts,
}

impl Model for Shelf {
    ghost use Rattle.edge_ports.specs.Shelves.{ShelfState, shelf_code};

    ghost Value = { ShelfState };

    ghost coded = { shelf_code };

    ghost use Rattle.edge_ports.specs.Entries.{files_of};

    ghost view = { λ s. record { files = files_of s.entries.items; plan = s.plan; counts = s.counts } };
}

impl Shelf {
    /// A shelf with no files. `fails` lists the numbers, from 0, of the calls of `fetch` and `store` that are
    /// to fail.
    pub fn new(alloc: Global, fails: &[u64]) -> Result<Shelf, Memory>
        ensures empty { IfOk result (λ shelf. shelf ≡ empty_shelf fails.now) }
        ensures files { IfOk result (λ shelf. ⟦<Shelf as Keeper>⟧.files shelf ≡ Some empty) }
        ensures counts { IfOk result (λ shelf. ⟦<Shelf as Keeper>⟧.counts shelf ≡ no_counts) }
    {
        Ok(Shelf {
            alloc,
            entries: VecDeque::new(alloc),
            plan: Plan::new(alloc, fails)?,
            counts: Counts::new(),
        })
    }

    /// Puts a file of this name in the place of the one that is there, or leaves the shelf as it was where
    /// it is out of memory.
    pub fn put(&mut self, name: &str, bytes: &[u8]) -> Result<(), Memory>
        ensures ok { OnOk result (self.new ≡ record self.old { files = insert self.old.files name.now bytes.now }) }
        ensures files { OnOk result (⟦<Shelf as Keeper>⟧.files self.new
            ≡ Some (insert self.old.files name.now bytes.now)) }
        ensures err { OnErr result (self.new ≡ self.old) }
    {
        let name = name.as_bytes().to_vec(self.alloc)?;
        let bytes = bytes.to_vec(self.alloc)?;
        self.entries.push_front(ShelvedFile { name, bytes })?;
        Ok(())
    }
}

/// The bytes of the newest entry of this name.
#[tactic(auto, using(crate::proofs::NewestFileCounts::file_at_newest, crate::proofs::NewestFileCounts::file_at_none))]
fn find<'a>(entries: &'a VecDeque<ShelvedFile>, name: &[u8]) -> Option<&'a [u8]>
    ensures { option_map (λ bytes. bytes.now) result ≡ file_at (files_of entries.now.items) name.now }
{
    for entry in entries {
        if entry.name.as_slice() == name {
            return Some(entry.bytes.as_slice());
        }
    }
    None
}

/// A copy of the bytes of this file, if they are at most `limit`.
fn fetched(alloc: Global, bytes: Option<&[u8]>, limit: u64) -> Result<Bytes, FetchFault>
    ensures found { IfOk result (λ copy. (option_map (λ b. b.now) bytes.entry ≡ Some copy) × (length copy ≤ limit)) }
    ensures absent { (result ≡ Err FetchFault.Absent) ↔ (option_map (λ b. b.now) bytes.entry ≡ None) }
    ensures over { (result ≡ Err (FetchFault.TooLong limit)) ↔
        IsSomeAnd (option_map (λ b. b.now) bytes.entry) (λ b. limit < length b) }
    ensures limit { (bound : ℕ) → result ≡ Err (FetchFault.TooLong bound) → bound ≡ limit }
    ensures not_failed { result ≡ Err FetchFault.Failed → ⊥ }
{
    let Some(bytes) = bytes else {
        return Err(FetchFault::Absent);
    };
    if bytes.len() as u64 > limit {
        return Err(FetchFault::TooLong(limit));
    }
    let mut copy = Bytes::new(alloc);
    match copy.append(bytes) {
        Ok(()) => Ok(copy),
        Err(_) => Err(FetchFault::Memory),
    }
}

impl Shelf {
    /// What a fetch answers.
    fn answer_to(&self, alloc: Global, name: &str, limit: u64) -> Result<Bytes, FetchFault>
        ensures listed { (result ≡ Err FetchFault.Failed) ↔ IsListed self.now.plan }
        ensures lacking { (result ≡ Err FetchFault.Absent) ↔
            ((IsListed self.now.plan → ⊥) × (file_at self.now.files name.now ≡ None)) }
        ensures over { (result ≡ Err (FetchFault.TooLong limit)) ↔
            ((IsListed self.now.plan → ⊥)
            × IsSomeAnd (file_at self.now.files name.now) (λ bytes. limit < length bytes)) }
        ensures copy { IfOk result (λ bytes. (file_at self.now.files name.now ≡ Some bytes) × (length bytes ≤ limit)) }
        ensures limit { (bound : ℕ) → result ≡ Err (FetchFault.TooLong bound) → bound ≡ limit }
    {
        if self.plan.is_listed() {
            return Err(FetchFault::Failed);
        }
        fetched(alloc, find(&self.entries, name.as_bytes()), limit)
    }

    /// Puts the file unless the call is listed, and answers as a call of `store` does.
    fn put_unless_listed(&mut self, name: &str, bytes: &[u8]) -> Result<(), StoreFault>
        ensures listed { (result ≡ Err StoreFault.Failed) ↔ IsListed self.old.plan }
        ensures after { self.new ≡ record self.old { files = files_stored result name.now bytes.now self.old.files } }
    {
        if self.plan.is_listed() {
            return Err(StoreFault::Failed);
        }
        match self.put(name, bytes) {
            Ok(()) => Ok(()),
            Err(_) => Err(StoreFault::Memory),
        }
    }
}

impl Keeper for Shelf {
    ghost files = { λ s. Some s.files };

    ghost counts = { λ s. s.counts };

    /// Fails exactly where the call is listed. Else the file is absent exactly where there is none of that
    /// name, and too long exactly where it has more than `limit` bytes.
    fn fetch(&mut self, alloc: Global, name: &str, limit: u64) -> Result<Bytes, FetchFault>
        ensures listed { (result ≡ Err FetchFault.Failed) ↔ IsListed self.old.plan }
        ensures lacking { (result ≡ Err FetchFault.Absent) ↔
            ((IsListed self.old.plan → ⊥) × (file_at self.old.files name.now ≡ None)) }
        ensures over { (result ≡ Err (FetchFault.TooLong limit)) ↔
            ((IsListed self.old.plan → ⊥)
            × IsSomeAnd (file_at self.old.files name.now) (λ bytes. limit < length bytes)) }
        ensures copy { IfOk result (λ bytes. file_at self.old.files name.now ≡ Some bytes) }
        ensures after { self.new ≡ shelf_after result self.old }
        ensures fits { IfOk result (λ bytes. length bytes ≤ limit) }
        ensures found { IfOk result (λ bytes. HoldsFile (Some self.old.files) name.now bytes) }
        ensures absent { result ≡ Err FetchFault.Absent → LacksFile (Some self.old.files) name.now }
        ensures too_long { (bound : ℕ) → result ≡ Err (FetchFault.TooLong bound) → (bound ≡ limit)
            × HoldsLonger (Some self.old.files) name.now limit }
        ensures counts { CountsFetch result self.old.counts self.new.counts }
        ensures files { Some self.new.files ≡ Some self.old.files }
        ensures not_fallen { NoneFallen self.old.counts self.new.counts }
    {
        let answer = self.answer_to(alloc, name, limit);
        let failed = self.plan.is_listed();
        self.plan.count(failed);
        self.counts.count(&answer);
        answer
    }

    /// Fails exactly where the call is listed, and then changes no file.
    fn store(&mut self, alloc: Global, name: &str, bytes: &[u8]) -> Result<(), StoreFault>
        ensures listed { (result ≡ Err StoreFault.Failed) ↔ IsListed self.old.plan }
        ensures after { self.new ≡ shelf_stored result name.now bytes.now self.old }
        ensures stored { OnOk result (StoresFile name.now bytes.now (Some self.old.files) (Some self.new.files)) }
        ensures failed { result ≡ Err StoreFault.Failed
            → KeepsOthers name.now (Some self.old.files) (Some self.new.files) }
        ensures memory { result ≡ Err StoreFault.Memory → Some self.new.files ≡ Some self.old.files }
        ensures counts { CountsStore result self.old.counts self.new.counts }
        ensures not_fallen { NoneFallen self.old.counts self.new.counts }
    {
        let failed = self.plan.is_listed();
        let answer = self.put_unless_listed(name, bytes);
        self.plan.count(failed);
        self.counts.count_store(&answer);
        answer
    }
}
