//! Counts of what went wrong.
ghost use Rattle.std.specs.Prelude.{◌≡◌};
ghost use Rattle.edge_ports.specs.Counts.{CountsFetch, CountsStore, NoneFallen, NotFallen, next_count, no_counts};

use crate::{Bytes, FetchFault, StoreFault};
use std::marker::Model;

/// One more, unless the count stands at its last value.
pub fn count_on(count: u64) -> u64
    ensures next { result ≡ next_count count }
    ensures not_fallen { NotFallen count result }
{
    count.saturating_add(1)
}

/// How often a keeper's calls went wrong, by reason, and how often it was asked to store a file.
#[derive(Debug, Drop)]
pub struct Counts {
    faults: u64,
    misses: u64,
    overs: u64,
    stores: u64,
}

impl Model for Counts {
    ghost use Rattle.edge_ports.specs.Counts.{KeeperCounts};

    ghost Value = { KeeperCounts };

    ghost view = { λ c. record {
      faults = c.faults;
      misses = c.misses;
      overs = c.overs;
      stores = c.stores;
    } };
}

impl Counts {
    /// Nothing has gone wrong yet, and nothing was to be stored.
    pub fn new() -> Counts
        ensures { result ≡ no_counts }
    {
        Counts {
            faults: 0,
            misses: 0,
            overs: 0,
            stores: 0,
        }
    }

    /// Counts a fetch with this answer.
    pub fn count(&mut self, answer: &Result<Bytes, FetchFault>)
        ensures counts { CountsFetch answer.now self.old self.new }
        ensures not_fallen { NoneFallen self.old self.new }
    {
        match answer {
            Err(FetchFault::Failed) => self.faults = count_on(self.faults),
            Err(FetchFault::Absent) => self.misses = count_on(self.misses),
            Err(FetchFault::TooLong(_)) => self.overs = count_on(self.overs),
            Err(FetchFault::Memory) | Ok(_) => {}
        }
    }

    /// Counts a call that was to store a file, with this answer.
    pub fn count_store(&mut self, answer: &Result<(), StoreFault>)
        ensures counts { CountsStore answer.now self.old self.new }
        ensures not_fallen { NoneFallen self.old self.new }
    {
        self.stores = count_on(self.stores);
        match answer {
            Err(StoreFault::Failed) => self.faults = count_on(self.faults),
            Err(StoreFault::Memory) | Ok(()) => {}
        }
    }
}
