//! A source in memory.
ghost use Rattle.std.specs.Prelude.{◌++◌, ◌<◌, ◌↔◌, ◌≡◌, ◌≤◌, IfOk, IsErr, Ok, OnErr, OnOk, Some, drop, is_err, length};
ghost use Rattle.std.specs.{Prelude.min, Prelude.take, Io.KnownBytes.IsAtEnd};
ghost use Rattle.edge_ports.specs.{Counts.NotFallen, Counts.Rose, Told.TookAll};
ghost use Rattle.edge_ports.specs.States.{IsListed, plan_after, plan_of};

use crate::plan::Plan;
use crate::{Failed, Memory, Source};
use std::alloc::Global;
use std::marker::Model;

/// A source in memory, some of whose calls may be asked to fail.
#[derive(Debug, Drop)]
pub struct Tape {
    bytes: Vec<u8>,
    at: usize,
    plan: Plan,
}

impl Model for Tape {
    ghost use Rattle.std.specs.Prelude.{◌≤◌, drop, length};
    ghost use Rattle.edge_ports.specs.States.{TapeState};

    ghost Value = { TapeState };

    ghost view = { λ t. record { left = drop t.at t.bytes.items; plan = t.plan } };

    ghost invariant = { λ t. t.at ≤ length t.bytes.items };
}

impl Tape {
    /// A tape with these bytes. `fails` lists the numbers, from 0, of the calls of `take` that are to fail.
    pub fn new(alloc: Global, bytes: &[u8], fails: &[u64]) -> Result<Tape, Memory>
        ensures bytes { IfOk result (λ tape. tape.left ≡ bytes.now) }
        ensures plan { IfOk result (λ tape. tape.plan ≡ plan_of fails.now) }
        ensures left { IfOk result (λ tape. ⟦<Tape as Source>⟧.left tape ≡ Some bytes.now) }
        ensures faults { IfOk result (λ tape. ⟦<Tape as Source>⟧.faults tape ≡ 0) }
    {
        Ok(Tape {
            bytes: bytes.to_vec(alloc)?,
            at: 0,
            plan: Plan::new(alloc, fails)?,
        })
    }
}

/// Copies as many bytes as fit from the front of one list to the front of another.
fn copy_front(from: &[u8], to: &mut [u8]) -> usize
    ensures count { result ≡ min (length from.now) (length to.old) }
    ensures copied { from.now ≡ take result to.new ++ drop result from.now }
{
    let count = from.len().min(to.len());
    to[..count].copy_from_slice(&from[..count]);
    count
}

impl Source for Tape {
    ghost left = { λ t. Some t.left };

    ghost faults = { λ t. t.plan.faults };

    /// Fails exactly where the call is listed, and else moves as many bytes as fit into the room.
    fn take(&mut self, room: &mut [u8]) -> Result<usize, Failed>
        requires { 0 < length room.old }
        ensures listed { IsErr result ↔ IsListed self.old.plan }
        ensures plan { self.new.plan ≡ plan_after (is_err result) self.old.plan }
        ensures fits { IfOk result (λ n. n ≡ min (length self.old.left) (length room.old)) }
        ensures same { OnErr result (self.new.left ≡ self.old.left) }
        ensures room { OnErr result (room.new ≡ room.old) }
        ensures count { IfOk result (λ n. n ≤ length room.new) }
        ensures moved { IfOk result (λ n. TookAll (Some self.old.left) (Some self.new.left) (take n room.new)) }
        ensures end { result ≡ Ok 0 → IsAtEnd (Some self.new.left) }
        ensures failed { OnErr result (Some self.new.left ≡ Some self.old.left) }
        ensures cause { OnErr result (Rose self.old.plan.faults self.new.plan.faults) }
        ensures calm { OnOk result (self.new.plan.faults ≡ self.old.plan.faults) }
        ensures faults { NotFallen self.old.plan.faults self.new.plan.faults }
    {
        let failed = self.plan.is_listed();
        self.plan.count(failed);
        if failed {
            return Err(Failed);
        }
        let count = copy_front(&self.bytes[self.at..], room);
        self.at += count;
        Ok(count)
    }
}
