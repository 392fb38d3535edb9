//! A sink that is called no more once a call failed.
ghost use Rattle.std.specs.Prelude.{◌≡◌, ◌≤◌, [], OnErr, OnOk, length, true};
ghost use Rattle.edge_ports.specs.{Counts.Rose, Limits.piece_bytes, Told.GaveAll, Told.GavePrefix};
ghost use Rattle.edge_ports.specs.Printouts.{Printout, Prints};
ghost use Rattle.edge_ports.specs.Sticking.{GaveText, Sticks, with_more};

use crate::ports::write_all;
use crate::tale::Tale;
use crate::{Failed, Sink};
use std::marker::Model;
use std::snapshot::Snapshot;

/// A sink to which pages are given. Once a call of it failed, further pages are let go up to the next text.
#[derive(Drop)]
pub struct Outlet<O: Sink> {
    sink: O,
    failed: bool,
    before: Snapshot<O>,
    text: Tale,
}

impl<O: Sink> Model for Outlet<O> {
    ghost use Rattle.edge_ports.specs.Sticking.{Sticks, Sticky};

    ghost Value = { Sticky };

    ghost view = { λ o. record {
      printout = record {
        began = record {
          given = O.given o.before.value;
          faults = O.faults o.before.value;
          loan = O.loan o.before.value;
        };
        text = o.text;
      };
      telling = record {
        given = O.given o.sink;
        faults = O.faults o.sink;
        last_failed = O.last_failed o.sink;
        loan = O.loan o.sink;
      };
      failed = o.failed;
    } };

    ghost invariant = { λ o. Sticks o.failed
        (record {
          began = record {
            given = O.given o.before.value;
            faults = O.faults o.before.value;
            loan = O.loan o.before.value;
          };
          text = o.text;
        })
        (record {
          given = O.given o.sink;
          faults = O.faults o.sink;
          last_failed = O.last_failed o.sink;
          loan = O.loan o.sink;
        }) };
}

/// Gives a page. It answers whether a call failed.
fn give_page<O: Sink>(sink: &mut O, page: &[u8]) -> bool
    requires { length page.now ≤ piece_bytes }
    ensures { (p : Printout) → GaveText p (record {
      given = O.given sink.old;
      faults = O.faults sink.old;
      last_failed = O.last_failed sink.old;
      loan = O.loan sink.old;
    })
        → Sticks result (with_more p page.now) (record {
          given = O.given sink.new;
          faults = O.faults sink.new;
          last_failed = O.last_failed sink.new;
          loan = O.loan sink.new;
        }) }
{
    match write_all(sink, page) {
        Ok(()) => false,
        Err(_) => true,
    }
}

/// Gives a page, unless a call failed before. It answers whether one failed.
fn give_unless_failed<O: Sink>(sink: &mut O, failed: bool, page: &[u8]) -> bool
    requires { length page.now ≤ piece_bytes }
    ensures { (p : Printout) → Sticks failed p (record {
      given = O.given sink.old;
      faults = O.faults sink.old;
      last_failed = O.last_failed sink.old;
      loan = O.loan sink.old;
    })
        → Sticks result (with_more p page.now) (record {
          given = O.given sink.new;
          faults = O.faults sink.new;
          last_failed = O.last_failed sink.new;
          loan = O.loan sink.new;
        }) }
{
    if failed { true } else { give_page(sink, page) }
}

impl<O: Sink> Outlet<O> {
    /// A text begins.
    pub fn new(sink: O) -> Outlet<O>
        ensures given { result.telling.given ≡ O.given sink }
        ensures faults { result.telling.faults ≡ O.faults sink }
        ensures last { result.telling.last_failed ≡ O.last_failed sink }
        ensures loan { result.telling.loan ≡ O.loan sink }
    {
        let before = Snapshot::of(&sink);
        Outlet {
            sink,
            failed: false,
            before,
            text: Tale::new(),
        }
    }

    /// Begins a text.
    pub fn begin(&mut self)
        ensures printout { self.new.printout ≡ record {
          began = record {
            given = self.old.telling.given;
            faults = self.old.telling.faults;
            loan = self.old.telling.loan;
          };
          text = [];
        } }
        ensures telling { self.new.telling ≡ self.old.telling }
    {
        self.failed = false;
        self.before = Snapshot::of(&self.sink);
        self.text = Tale::new();
    }

    /// Gives a page, unless a call failed.
    pub fn give(&mut self, page: &[u8])
        requires { length page.now ≤ piece_bytes }
        ensures { Prints self.old.printout self.new.printout page.now }
    {
        self.failed = give_unless_failed(&mut self.sink, self.failed, page);
        self.text.add(page);
    }

    /// Whether all of the text was given.
    pub fn outcome(&self) -> Result<(), Failed>
        ensures ok { OnOk result (GaveAll self.now.printout.began.given self.now.telling.given self.now.printout.text) }
        ensures failed { OnErr result
            (GavePrefix self.now.printout.began.given self.now.telling.given self.now.printout.text) }
        ensures cause { OnErr result (Rose self.now.printout.began.faults self.now.telling.faults) }
        ensures last { OnErr result (self.now.telling.last_failed ≡ true) }
        ensures loan { self.now.telling.loan ≡ self.now.printout.began.loan }
        ensures calm { OnOk result (self.now.telling.faults ≡ self.now.printout.began.faults) }
    {
        if self.failed { Err(Failed) } else { Ok(()) }
    }

    /// The sink.
    pub fn sink(&self) -> &O
        ensures given { O.given result.now ≡ self.now.telling.given }
        ensures last { O.last_failed result.now ≡ self.now.telling.last_failed }
        ensures loan { O.loan result.now ≡ self.now.telling.loan }
    {
        &self.sink
    }
}
