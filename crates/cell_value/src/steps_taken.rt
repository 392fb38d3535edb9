//! A counter of steps that takes no memory.
ghost use Rattle.std.specs.Prelude.{◌+◌, ◌≡◌};

use std::marker::{Model, PhantomData};
use std::mem;
use std::mem::size_of;
use std::snapshot::Snapshot;

/// The steps of a counter, as a chain with one link for each. A snapshot shows a clause the rest
/// of the chain and has no bytes, so no chain is kept when the program runs.
#[derive(Drop)]
enum Chain {
    Start,
    Link(Snapshot<Chain>),
}

/// How many steps were taken on this counter, a number that has no bytes and that clauses alone
/// read. Only `tick` changes it. `L` tells counters of different things apart.
///
/// What a step stands for is said where a counter is passed. Anyone may make a counter, so a
/// function that is passed one says both that it does not fall and how far it rises.
#[derive(Drop)]
pub struct Steps<L> {
    taken: Snapshot<Chain>,
    counted: PhantomData<L>,
}

impl<L> Model for Steps<L> {
    ghost use Rattle.std.specs.Prelude.{ℕ};
    ghost use Rattle.cell_value.specs.Chains.{links};

    ghost Value = { ℕ };

    ghost view = { λ s. links s.taken.value };
}

impl<L> Steps<L> {
    /// A counter that stands at 0.
    pub fn new() -> Steps<L>
        ensures { result ≡ 0 }
    {
        Steps {
            taken: Snapshot::of(&Chain::Start),
            counted: PhantomData,
        }
    }

    /// Takes one step more.
    pub fn tick(&mut self)
        ensures { self.new ≡ self.old + 1 }
    {
        let before = mem::replace(&mut self.taken, Snapshot::of(&Chain::Start));
        self.taken = Snapshot::of(&Chain::Link(before));
    }
}

// A counter costs nothing when the program runs.
const _: () = prove!(size_of::<Steps<()>>() == 0);
