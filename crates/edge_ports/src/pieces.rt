//! A printer that gives a text in pieces.
ghost use Rattle.std.specs.Prelude.{◌++◌, ◌<◌, ◌≡◌, ◌≤◌, IfOk, length, take, vec_capacity};
ghost use Rattle.edge_ports.specs.{Limits.piece_bytes, Printouts.Prints};

use crate::outlet::Outlet;
use crate::{Failed, Memory, PIECE_BYTES, Printer, Sink};
use std::alloc::Global;
use std::marker::Model;

/// A printer over a sink. It gives a text in pieces of at most [`PIECE_BYTES`] bytes, and takes no memory for it but
/// that for one piece, which is reserved at the start.
#[derive(Drop)]
pub struct Pieces<O: Sink> {
    outlet: Outlet<O>,
    page: Vec<u8>,
}

impl<O: Sink> Model for Pieces<O> {
    ghost use Rattle.std.specs.Prelude.{◌++◌, ◌≤◌, length, vec_capacity};
    ghost use Rattle.edge_ports.specs.{Limits.piece_bytes, Sticking.Sticky};

    ghost Value = { Sticky };

    ghost view = { λ p. record {
      printout = record { began = p.outlet.printout.began; text = p.outlet.printout.text ++ p.page.items };
      telling = p.outlet.telling;
      failed = p.outlet.failed;
    } };

    ghost invariant = { λ p. (length p.page.items ≤ piece_bytes) × (piece_bytes ≤ vec_capacity p.page) };
}

/// Gives the page if it is full, so that there is room on it.
fn make_room<O: Sink>(outlet: &mut Outlet<O>, page: &mut Vec<u8>)
    requires { length page.old.items ≤ piece_bytes }
    ensures room { length page.new.items < piece_bytes }
    ensures capacity { vec_capacity page.new ≡ vec_capacity page.old }
    ensures text { outlet.new.printout.text ++ page.new.items ≡ outlet.old.printout.text ++ page.old.items }
    ensures began { outlet.new.printout.began ≡ outlet.old.printout.began }
{
    if page.len() == PIECE_BYTES {
        outlet.give(page.as_slice());
        page.clear();
    }
}

impl<O: Sink + Drop> Pieces<O> {
    /// A printer over this sink.
    pub fn new(alloc: Global, sink: O) -> Result<Pieces<O>, Memory>
        ensures given { IfOk result (λ printer. ⟦<Pieces<O> as Printer>⟧.given printer ≡ O.given sink) }
        ensures faults { IfOk result (λ printer. ⟦<Pieces<O> as Printer>⟧.faults printer ≡ O.faults sink) }
        ensures last { IfOk result (λ printer. ⟦<Pieces<O> as Printer>⟧.last_failed printer ≡ O.last_failed sink) }
        ensures loan { IfOk result (λ printer. ⟦<Pieces<O> as Printer>⟧.loan printer ≡ O.loan sink) }
    {
        Ok(Pieces {
            page: Vec::with_capacity(alloc, PIECE_BYTES)?,
            outlet: Outlet::new(sink),
        })
    }

    /// Puts bytes from the front of the piece onto the page, which is given first if it is full, and answers how many.
    fn put(&mut self, piece: &[u8]) -> usize
        requires { 0 < length piece.now }
        ensures some { 0 < result }
        ensures count { result ≤ length piece.now }
        ensures put { Prints self.old.printout self.new.printout (take result piece.now) }
    {
        make_room(&mut self.outlet, &mut self.page);
        let count = piece.len().min(PIECE_BYTES - self.page.len());
        self.page.extend_from_slice(&piece[..count]).unwrap();
        count
    }

    /// What all is given to.
    pub fn sink(&self) -> &O
        ensures given { O.given result.now ≡ ⟦<Pieces<O> as Printer>⟧.given self.now }
        ensures last { O.last_failed result.now ≡ ⟦<Pieces<O> as Printer>⟧.last_failed self.now }
        ensures loan { O.loan result.now ≡ ⟦<Pieces<O> as Printer>⟧.loan self.now }
    {
        self.outlet.sink()
    }
}

impl<O: Sink + Drop> Printer for Pieces<O> {
    ghost given = { λ p. p.telling.given };

    ghost faults = { λ p. p.telling.faults };

    ghost last_failed = { λ p. p.telling.last_failed };

    ghost loan = { λ p. p.telling.loan };

    ghost printout = { λ p. p.printout };

    fn begin(&mut self) {
        self.page.clear();
        self.outlet.begin();
    }

    fn print(&mut self, piece: &[u8]) {
        let mut at = 0;
        'pieces: while at < piece.len() {
            at += self.put(&piece[at..]);
        }
    }

    fn finish(&mut self) -> Result<(), Failed> {
        self.outlet.give(self.page.as_slice());
        self.page.clear();
        self.outlet.outcome()
    }
}
