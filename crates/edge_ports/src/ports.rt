//! What the program asks of the outside.
ghost use Rattle.std.specs.Prelude.{◌<◌, ◌≡◌, ◌≤◌, ℕ, Bool, Err, IfOk, List, Ok, OnErr, OnOk, Option, is_err, length};
ghost use Rattle.std.specs.{Prelude.take, Prelude.true, Io.KnownBytes.IsAtEnd};
ghost use Rattle.edge_ports.specs.{Limits.piece_bytes, Told.GaveAll, Told.GavePrefix, Told.TookAll};
ghost use Rattle.edge_ports.specs.Counts.{CountsFetch, CountsStore, KeeperCounts, NoneFallen, NotFallen, Rose};
ghost use Rattle.edge_ports.specs.Files.{FileMap, HoldsFile, HoldsLonger, KeepsOthers, LacksFile, StoresFile};

use crate::Bytes;
use std::alloc::Global;
use thiserror::Error;

/// A call on the outside that failed. The object's count of faults rose in that call.
#[derive(Clone, Copy, Debug, PartialEq, Eq)]
pub struct Failed;

/// Where bytes come from, such as a console.
pub trait Source {
    /// The bytes still to come, where the object tells them.
    ghost left: { Self → Option (List ℕ) };

    /// How often the object failed. It rises with each call that fails and with no other, and stands still
    /// at the last number of 64 bits.
    ghost faults: { Self → ℕ };

    /// Moves bytes from the front of what is left into the front of the room, and answers how many, at
    /// most the room's length. 0 means the end. What the rest of the room has then is left open.
    fn take(&mut self, room: &mut [u8]) -> Result<usize, Failed>
        requires { 0 < length room.old }
        ensures count { IfOk result (λ n. n ≤ length room.new) }
        ensures moved { IfOk result (λ n. TookAll (left self.old) (left self.new) (take n room.new)) }
        ensures end { result ≡ Ok 0 → IsAtEnd (left self.new) }
        ensures failed { OnErr result (left self.new ≡ left self.old) }
        ensures cause { OnErr result (Rose (faults self.old) (faults self.new)) }
        ensures calm { OnOk result (faults self.new ≡ faults self.old) }
        ensures faults { NotFallen (faults self.old) (faults self.new) };
}

/// The most bytes that are given to a sink at once.
pub const PIECE_BYTES: usize = 65_536;

/// Where bytes go to, such as a screen.
pub trait Sink {
    /// The bytes that were given so far, where the object tells them.
    ghost given: { Self → Option (List ℕ) };

    /// How often the object failed. It rises with each call that fails and with no other, and stands still
    /// at the last number of 64 bits.
    ghost faults: { Self → ℕ };

    /// Whether the last call failed. Before the first call it is false.
    ghost last_failed: { Self → Bool };

    /// The name of the loan of the room that the bytes go to, if they go to one that is borrowed. No call changes it.
    ghost loan: { Self → ℕ };

    /// Appends bytes from the front of the piece to what was given, and answers how many, at least 1. No piece has more
    /// than [`PIECE_BYTES`] bytes.
    fn give(&mut self, piece: &[u8]) -> Result<usize, Failed>
        requires some { 0 < length piece.now }
        requires small { length piece.now ≤ piece_bytes }
        ensures count { IfOk result (λ n. n ≤ length piece.now) }
        ensures some { IfOk result (λ n. 0 < n) }
        ensures gave { IfOk result (λ n. GaveAll (given self.old) (given self.new) (take n piece.now)) }
        ensures failed { OnErr result (given self.new ≡ given self.old) }
        ensures last { last_failed self.new ≡ is_err result }
        ensures loan { loan self.new ≡ loan self.old }
        ensures cause { OnErr result (Rose (faults self.old) (faults self.new)) }
        ensures calm { OnOk result (faults self.new ≡ faults self.old) }
        ensures faults { NotFallen (faults self.old) (faults self.new) };
}

/// Why a file was not fetched.
#[derive(Clone, Copy, Debug, PartialEq, Eq, Drop, Error)]
pub enum FetchFault {
    /// There is no file of that name.
    #[error("the file is absent")]
    Absent,
    /// The file could not be opened or read.
    #[error("the file could not be read")]
    Failed,
    /// The file has more bytes than this limit, which is the one that was asked for.
    #[error("the file has more than {0} bytes")]
    TooLong(u64),
    /// There was no memory for it.
    #[error("out of memory")]
    Memory,
}

/// Why a file was not stored.
#[derive(Clone, Copy, Debug, PartialEq, Eq, Drop, Error)]
pub enum StoreFault {
    /// The file could not be written.
    #[error("the file could not be written")]
    Failed,
    /// There was no memory for it.
    #[error("out of memory")]
    Memory,
}

/// Where files are kept, by their names.
pub trait Keeper {
    /// The files, where the object tells them. A name stands for its bytes.
    ghost files: { Self → Option FileMap };

    /// How often calls went wrong, by reason, and how many calls of `store` there were. A count rises with
    /// each call that it is about and with no other, and stands still at the last number of 64 bits.
    ghost counts: { Self → KeeperCounts };

    /// All the bytes of the file of this name, if they are at most `limit`.
    fn fetch(&mut self, alloc: Global, name: &str, limit: u64) -> Result<Bytes, FetchFault>
        ensures fits { IfOk result (λ bytes. length bytes ≤ limit) }
        ensures found { IfOk result (λ bytes. HoldsFile (files self.old) name.now bytes) }
        ensures absent { result ≡ Err FetchFault.Absent → LacksFile (files self.old) name.now }
        ensures too_long { (bound : ℕ) → result ≡ Err (FetchFault.TooLong bound) → (bound ≡ limit)
            × HoldsLonger (files self.old) name.now limit }
        ensures counts { CountsFetch result (counts self.old) (counts self.new) }
        ensures files { files self.new ≡ files self.old }
        ensures not_fallen { NoneFallen (counts self.old) (counts self.new) };

    /// Puts a file of this name in the place of the one that is there, if there is one. Where that failed,
    /// the file of this name may be any or none, as far as is told; out of memory leaves all files.
    fn store(&mut self, alloc: Global, name: &str, bytes: &[u8]) -> Result<(), StoreFault>
        ensures stored { OnOk result (StoresFile name.now bytes.now (files self.old) (files self.new)) }
        ensures failed { result ≡ Err StoreFault.Failed → KeepsOthers name.now (files self.old) (files self.new) }
        ensures memory { result ≡ Err StoreFault.Memory → files self.new ≡ files self.old }
        ensures counts { CountsStore result (counts self.old) (counts self.new) }
        ensures not_fallen { NoneFallen (counts self.old) (counts self.new) };
}

/// Gives all the bytes, of which there are no more than fit into one piece. It takes no memory.
pub(crate) fn write_all<O: Sink>(sink: &mut O, bytes: &[u8]) -> Result<(), Failed>
    requires small { length bytes.now ≤ piece_bytes }
    ensures ok { OnOk result (GaveAll (O.given sink.old) (O.given sink.new) bytes.now) }
    ensures failed { OnErr result (GavePrefix (O.given sink.old) (O.given sink.new) bytes.now) }
    ensures cause { OnErr result (Rose (O.faults sink.old) (O.faults sink.new)) }
    // No call comes after the one that failed.
    ensures last { OnErr result (O.last_failed sink.new ≡ true) }
    ensures loan { O.loan sink.new ≡ O.loan sink.old }
    ensures calm { OnOk result (O.faults sink.new ≡ O.faults sink.old) }
    ensures faults { NotFallen (O.faults sink.old) (O.faults sink.new) }
{
    let mut at = 0;
    while at < bytes.len() {
        at += sink.give(&bytes[at..])?;
    }
    Ok(())
}
