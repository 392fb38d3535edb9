//! The digest of a text that is printed.
ghost use Rattle.std.specs.Prelude.{◌≡◌, [], None, false};
ghost use Rattle.sha2.specs.Sha256.{sha256};

use edge_ports::{Failed, Printer, Tale};
use sha2::{Digest, Sha256};
use std::marker::Model;

/// A printer that keeps the digest of the text alone. It takes no memory, and never fails.
#[derive(Drop)]
pub struct Hashing {
    hasher: Sha256,
    text: Tale,
}

impl Model for Hashing {
    ghost use Rattle.std.specs.Prelude.{ℕ, List};
    ghost use Rattle.sha2.specs.Hashers.{Holds256};

    ghost Value = { List ℕ };

    ghost view = { λ h. h.text };

    ghost invariant = { λ h. Holds256 h.hasher h.text };
}

impl Hashing {
    /// The empty text.
    pub fn new() -> Hashing
        ensures { result ≡ [] }
    {
        Hashing {
            hasher: Sha256::new(),
            text: Tale::new(),
        }
    }

    /// The digest of what was printed.
    pub fn digest(self) -> [u8; 32]
        ensures { result ≡ sha256 self }
    {
        let Hashing { hasher, text: _ } = self;
        hasher.finalize()
    }
}

impl Printer for Hashing {
    ghost use Rattle.edge_ports.specs.States.{no_loan};

    ghost given = { λ _. None };

    ghost faults = { λ _. 0 };

    ghost last_failed = { λ _. false };

    ghost loan = { λ _. no_loan };

    ghost printout = { λ h. record { began = record { given = None; faults = 0; loan = no_loan }; text = h } };

    fn begin(&mut self) {
        self.hasher = Sha256::new();
        self.text = Tale::new();
    }

    fn print(&mut self, piece: &[u8]) {
        self.hasher.update(piece);
        self.text.add(piece);
    }

    fn finish(&mut self) -> Result<(), Failed> {
        Ok(())
    }
}
