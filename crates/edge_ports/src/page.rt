//! A sink in memory.
ghost use Rattle.std.specs.Prelude.{◌-◌, ◌<◌, ◌↔◌, ◌≡◌, ◌≤◌, ◌⊎◌, [], IfOk, IsErr, OnErr, OnOk, Some, false, is_err};
ghost use Rattle.std.specs.Prelude.{length, min, take};
ghost use Rattle.edge_ports.specs.{Counts.NotFallen, Counts.Rose, Told.GaveAll};
ghost use Rattle.edge_ports.specs.States.{IsListed, no_loan, plan_after, plan_of};

use crate::plan::Plan;
use crate::{Failed, Memory, Sink};
use std::alloc::Global;
use std::marker::Model;

/// A sink in memory with room for a fixed number of bytes, some of whose calls may be asked to fail.
#[derive(Debug, Drop)]
pub struct Page {
    bytes: Vec<u8>,
    room: usize,
    plan: Plan,
    failed: bool,
}

impl Model for Page {
    ghost use Rattle.std.specs.Prelude.{◌≤◌, length, vec_capacity};
    ghost use Rattle.edge_ports.specs.States.{PageState};

    ghost Value = { PageState };

    ghost view = { λ p. record { given = p.bytes.items; room = p.room; plan = p.plan; failed = p.failed } };

    ghost invariant = { λ p. (length p.bytes.items ≤ p.room) × (p.room ≤ vec_capacity p.bytes) };
}

impl Page {
    /// An empty page for at most `room` bytes. `fails` lists the numbers, from 0, of the calls of `give`
    /// that are to fail.
    pub fn new(alloc: Global, room: usize, fails: &[u64]) -> Result<Page, Memory>
        ensures room { IfOk result (λ page. page.room ≡ room) }
        ensures plan { IfOk result (λ page. page.plan ≡ plan_of fails.now) }
        ensures given { IfOk result (λ page. ⟦<Page as Sink>⟧.given page ≡ Some []) }
        ensures faults { IfOk result (λ page. ⟦<Page as Sink>⟧.faults page ≡ 0) }
        ensures last { IfOk result (λ page. ⟦<Page as Sink>⟧.last_failed page ≡ false) }
    {
        Ok(Page {
            bytes: Vec::with_capacity(alloc, room)?,
            room,
            plan: Plan::new(alloc, fails)?,
            failed: false,
        })
    }

    /// The bytes given so far.
    pub fn given(&self) -> &[u8]
        ensures { result.now ≡ self.now.given }
    {
        self.bytes.as_slice()
    }
}

impl Sink for Page {
    ghost given = { λ p. Some p.given };

    ghost faults = { λ p. p.plan.faults };

    ghost last_failed = { λ p. p.failed };

    ghost loan = { λ _. no_loan };

    /// Fails exactly where the call is listed or no byte of room is left, and else appends as many bytes
    /// of the piece as fit.
    fn give(&mut self, piece: &[u8]) -> Result<usize, Failed>
        requires { 0 < length piece.now }
        ensures fails { IsErr result ↔ (IsListed self.old.plan ⊎ (length self.old.given ≡ self.old.room)) }
        ensures plan { self.new.plan ≡ plan_after (is_err result) self.old.plan }
        ensures room { self.new.room ≡ self.old.room }
        ensures fits { IfOk result (λ n. n ≡ min (length piece.now) (self.old.room - length self.old.given)) }
        ensures count { IfOk result (λ n. n ≤ length piece.now) }
        ensures some { IfOk result (λ n. 0 < n) }
        ensures gave { IfOk result (λ n. GaveAll (Some self.old.given) (Some self.new.given) (take n piece.now)) }
        ensures failed { OnErr result (Some self.new.given ≡ Some self.old.given) }
        ensures last { self.new.failed ≡ is_err result }
        ensures loan { no_loan ≡ no_loan }
        ensures cause { OnErr result (Rose self.old.plan.faults self.new.plan.faults) }
        ensures calm { OnOk result (self.new.plan.faults ≡ self.old.plan.faults) }
        ensures faults { NotFallen self.old.plan.faults self.new.plan.faults }
    {
        let left = self.room - self.bytes.len();
        let failed = self.plan.is_listed() || left == 0;
        self.plan.count(failed);
        self.failed = failed;
        if failed {
            return Err(Failed);
        }
        let count = piece.len().min(left);
        self.bytes.extend_from_slice(&piece[..count]).unwrap();
        Ok(count)
    }
}
