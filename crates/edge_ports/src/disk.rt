//! Real files as a keeper. It tells nothing of its files.
ghost use Rattle.std.specs.Prelude.{◌+◌, ◌<◌, ◌≡◌, ◌≤◌, ℕ, Err, IfOk, IfSome, List, None, length};
ghost use Rattle.std.specs.Io.KnownBytes.{Consumes};
ghost use Rattle.edge_ports.specs.{Counts.no_counts, Streams.opener_of};

use crate::counts::Counts;
use crate::retries::read_uninterrupted;
use crate::storing::replace_file;
use crate::{Bytes, FetchFault, Keeper, Memory, StoreFault};
use std::alloc::Global;
use std::fs;
use std::io::{ErrorKind, Read};
use std::random::RandomSource;
use std::rt::Files;

/// Real files as a keeper. It tells nothing of them, and counts each error.
#[derive(Debug, Drop)]
pub struct FileKeeper<R> {
    files: R,
    counts: Counts,
    spared: Option<Vec<String>>,
}

impl<R: Files + RandomSource> FileKeeper<R> {
    /// The files that the runtime opens. Nothing has failed yet.
    pub fn new(files: R) -> FileKeeper<R>
        ensures kept { opener_of result ≡ files }
        ensures counts { ⟦<FileKeeper<R> as Keeper>⟧.counts result ≡ no_counts }
    {
        FileKeeper {
            files,
            counts: Counts::new(),
            spared: None,
        }
    }

    /// From now on nothing is stored under this name, nor in the place of the file that has it under another name.
    pub fn spare(&mut self, alloc: Global, name: &str) -> Result<(), Memory>
        ensures kept { opener_of self.new ≡ opener_of self.old }
        ensures counts { ⟦<FileKeeper<R> as Keeper>⟧.counts self.new ≡ ⟦<FileKeeper<R> as Keeper>⟧.counts self.old }
    {
        let mut spared = match self.spared.take() {
            Some(spared) => spared,
            None => Vec::new(alloc),
        };
        spared.push(name.to_string(alloc)?)?;
        self.spared = Some(spared);
        Ok(())
    }
}

/// The most bytes that are read at once.
const CHUNK: usize = 4_096;

/// How many bytes to read next, where this many are left up to the limit: at most one more than that.
fn chunk_len(left: u64) -> usize
    ensures some { 0 < result }
    ensures fits { result ≤ CHUNK }
    ensures most { result ≤ left + 1 }
{
    if left < CHUNK as u64 {
        left as usize + 1
    } else {
        CHUNK
    }
}

/// All the bytes of the reader, if they are at most `limit`. It reads at most one byte more, and again where a signal
/// interrupts it.
fn read_within<R: Read>(alloc: Global, reader: &mut R, limit: u64) -> Result<Bytes, FetchFault>
    ensures fits { IfOk result (λ bytes. length bytes ≤ limit) }
    ensures whole { IfOk result (λ bytes. IfSome (R.remaining reader.old) (λ all. bytes ≡ all)) }
    ensures not_absent { result ≡ Err FetchFault.Absent → ⊥ }
    ensures too_long { (bound : ℕ) → result ≡ Err (FetchFault.TooLong bound) → bound ≡ limit }
    ensures longer { (bound : ℕ) → result ≡ Err (FetchFault.TooLong bound)
        → IfSome (R.remaining reader.old) (λ all. limit < length all) }
    ensures most { (taken : List ℕ) × Consumes (R.remaining reader.old) (R.remaining reader.new) taken
        × (length taken ≤ limit + 1) }
{
    let mut bytes = Bytes::new(alloc);
    let mut chunk = [0u8; CHUNK];
    'chunks: loop {
        let left = limit - bytes.as_slice().len() as u64;
        let want = chunk_len(left);
        let count = match read_uninterrupted(reader, &mut chunk[..want]) {
            Ok(0) => return Ok(bytes),
            Ok(count) => count,
            Err(_) => return Err(FetchFault::Failed),
        };
        if count as u64 > left {
            return Err(FetchFault::TooLong(limit));
        }
        if bytes.append(&chunk[..count]).is_err() {
            return Err(FetchFault::Memory);
        }
    }
}

/// All the bytes of the file of this name, if they are at most `limit`.
fn read_file<R: Files>(
    files: &R,
    alloc: Global,
    name: &str,
    limit: u64,
) -> Result<Bytes, FetchFault>
    ensures fits { IfOk result (λ bytes. length bytes ≤ limit) }
    ensures too_long { (bound : ℕ) → result ≡ Err (FetchFault.TooLong bound) → bound ≡ limit }
{
    match fs::open(files, name) {
        Ok(mut file) => read_within(alloc, &mut file, limit),
        Err(error) => Err(match error.kind() {
            ErrorKind::NotFound => FetchFault::Absent,
            _ => FetchFault::Failed,
        }),
    }
}

impl<R: Files + RandomSource> Keeper for FileKeeper<R> {
    ghost files = { λ _. None };

    ghost counts = { λ k. k.counts };

    fn fetch(&mut self, alloc: Global, name: &str, limit: u64) -> Result<Bytes, FetchFault> {
        let answer = read_file(&self.files, alloc, name, limit);
        self.counts.count(&answer);
        answer
    }

    /// Writes a new file in the folder of this name and renames it. So a file of this name is whole or as it
    /// was, whatever fails. It fails where the file that is there is neither empty nor begins with the ten bytes
    /// with which the new one begins: what is no file of the same kind is not replaced. So it does where that file is
    /// spared, by this name or another. The new file's name is one that nobody foretells, so that no other file stands
    /// in its way.
    fn store(&mut self, alloc: Global, name: &str, bytes: &[u8]) -> Result<(), StoreFault> {
        let spared: &[String] = match &self.spared {
            Some(spared) => spared.as_slice(),
            None => &[],
        };
        let answer = replace_file(&self.files, alloc, spared, name, bytes);
        self.counts.count_store(&answer);
        answer
    }
}
