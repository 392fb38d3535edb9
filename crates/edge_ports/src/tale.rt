//! Texts that clauses alone read.
ghost use Rattle.std.specs.Prelude.{◌++◌, ◌∷◌, ◌≡◌, []};

use std::marker::Model;
use std::mem;
use std::snapshot::Snapshot;

/// Bytes, the last one outermost. A snapshot has no bytes, so none of them is kept when the program runs.
#[derive(Drop)]
enum Chain {
    Start,
    Link(u8, Snapshot<Chain>),
}

/// A text that clauses alone read, as it grows. It has no bytes.
#[derive(Drop)]
pub struct Tale {
    bytes: Snapshot<Chain>,
}

impl Model for Tale {
    ghost use Rattle.std.specs.Prelude.{ℕ, List};
    ghost use Rattle.edge_ports.specs.Chains.{bytes_in};

    ghost Value = { List ℕ };

    ghost view = { λ t. bytes_in t.bytes.value };
}

impl Tale {
    /// The empty text.
    pub fn new() -> Tale
        ensures { result ≡ [] }
    {
        Tale {
            bytes: Snapshot::of(&Chain::Start),
        }
    }

    /// Adds one byte.
    fn push(&mut self, byte: u8)
        ensures { self.new ≡ self.old ++ byte ∷ [] }
    {
        let before = mem::replace(&mut self.bytes, Snapshot::of(&Chain::Start));
        self.bytes = Snapshot::of(&Chain::Link(byte, before));
    }

    /// Adds bytes.
    pub fn add(&mut self, bytes: &[u8])
        ensures { self.new ≡ self.old ++ bytes.now }
    {
        'bytes: for byte in bytes {
            self.push(*byte);
        }
    }
}
