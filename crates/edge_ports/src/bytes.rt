//! A list of bytes that grows.
ghost use Rattle.std.specs.Prelude.{◌++◌, ◌≡◌, [], ℕ, List, OnErr, OnOk};

use std::alloc::{AllocError, Global};
use std::marker::Model;

/// Out of memory.
pub type Memory = AllocError;

/// A list of bytes that grows at its end. Contracts see it as the list.
#[derive(Debug, Drop)]
pub struct Bytes {
    items: Vec<u8>,
}

impl Model for Bytes {
    ghost Value = { List ℕ };

    ghost view = { λ b. b.items.items };
}

impl Bytes {
    /// The empty list. It takes no memory.
    pub fn new(alloc: Global) -> Bytes
        ensures { result ≡ [] }
    {
        Bytes {
            items: Vec::new(alloc),
        }
    }

    /// Appends the piece, or leaves the list as it was where it is out of memory.
    pub fn append(&mut self, piece: &[u8]) -> Result<(), Memory>
        ensures ok { OnOk result (self.new ≡ self.old ++ piece.now) }
        ensures err { OnErr result (self.new ≡ self.old) }
    {
        self.items.extend_from_slice(piece)
    }

    /// All the bytes, in order.
    pub fn as_slice(&self) -> &[u8]
        ensures { result.now ≡ self.now }
    {
        self.items.as_slice()
    }
}
