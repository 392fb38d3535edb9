//! What was found of a name where it was looked up last.

ghost use Rattle.std.specs.Prelude.{◌≡◌, [], List, false, nat_eq};
ghost use Rattle.std.specs.Map.{lookup};
ghost use Rattle.check_steps.specs.{Regions.RegionRows, declared.regions.Frame.Frame};
ghost use Rattle.check_steps.specs.Recent.{AreRecalled, IsFound};

use crate::regions::Found;
use indexmap::IndexMap;
use std::alloc::Global;
use std::marker::Model;

/// What is found of a name from a frame.
#[derive(Clone, Copy)]
pub(crate) struct FromFrame {
    pub(crate) frame: u32,
    pub(crate) found: Option<Found>,
}

/// What was found of a name from two frames.
#[derive(Clone, Copy)]
pub(crate) struct Recalled {
    /// The frame where it was looked up last, or one close around it.
    pub(crate) near: FromFrame,
    /// One further out from where it took long to find it.
    pub(crate) far: FromFrame,
}

/// By name, what was found of it last. Clauses see the list of this.
#[derive(Drop)]
pub(crate) struct Recent {
    alloc: Global,
    names: IndexMap<u32, Recalled>,
}

impl Model for Recent {
    ghost use Rattle.std.specs.Prelude.{ℕ, List};
    ghost use Rattle.check_steps.specs.declared.recent.Recalled.{Recalled};

    ghost Value = { List (ℕ × Recalled) };

    ghost view = { λ r. r.names.entries };
}

impl Recent {
    /// Nothing is recalled.
    pub(crate) fn new(alloc: Global) -> Self
        ensures { result ≡ [] }
    {
        Recent {
            alloc,
            names: IndexMap::new(alloc),
        }
    }

    /// What is recalled of a name.
    pub(crate) fn of(&self, name: u32) -> Option<Recalled>
        ensures { result ≡ lookup (nat_eq name) self.now }
    {
        self.names.get(&name).copied()
    }

    /// Nothing is recalled from now on.
    pub(crate) fn forget(&mut self)
        ensures { self.new ≡ [] }
    {
        self.names = IndexMap::new(self.alloc);
    }

    /// Nothing is recalled from now on, unless the test holds.
    #[tactic(auto, using(crate::proofs::Recalls::forgotten))]
    pub(crate) fn keep_if(&mut self, holds: bool)
        ensures kept { (regions : List RegionRows) (frames : List Frame) → AreRecalled regions frames self.old
            → AreRecalled regions frames self.new }
        ensures forgotten { holds ≡ false → self.new ≡ [] }
    {
        if !holds {
            self.forget();
        }
    }

    /// This is recalled of a name from now on, if there is memory.
    pub(crate) fn put(&mut self, name: u32, recalled: Recalled)
        ensures { (regions : List RegionRows) (frames : List Frame) → AreRecalled regions frames self.old
            → IsFound regions frames name recalled.near → IsFound regions frames name recalled.far
            → AreRecalled regions frames self.new }
    {
        match self.names.insert(name, recalled) {
            Ok(_) => {}
            Err(_) => {}
        }
    }
}
