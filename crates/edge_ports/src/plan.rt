//! Which calls of an object in memory are to fail.
ghost use Rattle.std.specs.Prelude.{◌↔◌, ◌≡◌, IfOk, IsTrue};
ghost use Rattle.edge_ports.specs.{Counts.NotFallen, States.IsListed, States.plan_after, States.plan_of};

use crate::Memory;
use crate::counts::count_on;
use std::alloc::Global;
use std::marker::Model;

/// Numbers the calls of an object, and counts those that failed.
#[derive(Debug, Drop)]
pub struct Plan {
    fails: Vec<u64>,
    calls: u64,
    faults: u64,
}

impl Model for Plan {
    ghost use Rattle.edge_ports.specs.States.{PlanState};

    ghost Value = { PlanState };

    ghost view = { λ p. record { fails = p.fails.items; calls = p.calls; faults = p.faults } };
}

impl Plan {
    /// No call yet; those with the numbers in `fails` are to fail.
    pub fn new(alloc: Global, fails: &[u64]) -> Result<Plan, Memory>
        ensures { IfOk result (λ plan. plan ≡ plan_of fails.now) }
    {
        Ok(Plan {
            fails: fails.to_vec(alloc)?,
            calls: 0,
            faults: 0,
        })
    }

    /// Whether the next call is to fail.
    pub fn is_listed(&self) -> bool
        ensures { IsTrue result ↔ IsListed self.now }
    {
        self.fails.contains(&self.calls)
    }

    /// Counts a call that failed, or did not.
    pub fn count(&mut self, failed: bool)
        ensures plan { self.new ≡ plan_after failed self.old }
        ensures faults { NotFallen self.old.faults self.new.faults }
    {
        self.calls = count_on(self.calls);
        if failed {
            self.faults = count_on(self.faults);
        }
    }
}
