//! A printer that keeps the text.

ghost use Rattle.std.specs.Prelude.{◌++◌, ◌≡◌, [], IfOk, None, false, true};

use edge_ports::{Bytes, Failed, Memory, Printer, Tale};
use std::alloc::{AllocError, Global};
use std::marker::Model;

/// A printer that keeps the text. Where memory runs out it keeps nothing more, and tells at the end.
#[derive(Drop)]
pub(crate) struct Copied {
    bytes: Bytes,
    whole: bool,
    text: Tale,
}

impl Model for Copied {
    ghost use Rattle.std.specs.Prelude.{◌≡◌, ℕ, List, true};

    ghost Value = { List ℕ };

    ghost view = { λ c. c.text };

    ghost invariant = { λ c. c.whole ≡ true → c.bytes ≡ c.text };
}

/// Appends a piece where all before it was kept, and answers whether all is kept then.
fn append_if(bytes: &mut Bytes, whole: bool, piece: &[u8]) -> bool
    ensures before { result ≡ true → whole ≡ true }
    ensures kept { result ≡ true → bytes.new ≡ bytes.old ++ piece.now }
{
    if !whole {
        return false;
    }
    match bytes.append(piece) {
        Ok(()) => true,
        Err(_) => false,
    }
}

impl Copied {
    /// The empty text.
    pub(crate) fn new(alloc: Global) -> Copied
        ensures { result ≡ [] }
    {
        Copied {
            bytes: Bytes::new(alloc),
            whole: true,
            text: Tale::new(),
        }
    }

    /// The text that was printed.
    pub(crate) fn text(self) -> Result<Bytes, Memory>
        ensures { IfOk result (λ bytes. bytes ≡ self) }
    {
        let Copied {
            bytes,
            whole,
            text: _,
        } = self;
        if whole { Ok(bytes) } else { Err(AllocError) }
    }
}

impl Printer for Copied {
    ghost use Rattle.edge_ports.specs.States.{no_loan};

    ghost given = { λ _. None };

    ghost faults = { λ _. 0 };

    ghost last_failed = { λ _. false };

    ghost loan = { λ _. no_loan };

    ghost printout = { λ c. record { began = record { given = None; faults = 0; loan = no_loan }; text = c } };

    fn begin(&mut self) {
        self.whole = false;
        self.text = Tale::new();
    }

    fn print(&mut self, piece: &[u8]) {
        self.whole = append_if(&mut self.bytes, self.whole, piece);
        self.text.add(piece);
    }

    fn finish(&mut self) -> Result<(), Failed> {
        Ok(())
    }
}
