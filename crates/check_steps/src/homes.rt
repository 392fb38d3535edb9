//! By a number, a name's or a label's value, the regions that may define it.

ghost use Rattle.std.specs.Prelude.{◌≡◌, [], ℕ, None, OnOk, nat_eq, true};
ghost use Rattle.std.specs.Map.{lookup};
ghost use Rattle.check_steps.specs.{Around.is_among, Homes.homes_of};

use indexmap::IndexMap;
use std::alloc::{AllocError, Global};
use std::hash::BuildHasher;
use std::marker::Model;

/// By number, a list of regions. Clauses see the list of each number.
#[derive(Drop)]
pub(crate) struct Homes<S: BuildHasher> {
    alloc: Global,
    regions: IndexMap<u32, Vec<u32>, S>,
}

impl<S: BuildHasher> Model for Homes<S> {
    ghost use Rattle.std.specs.{Prelude.ℕ, Prelude.List, Global.Vec};

    ghost Value = { List (ℕ × Vec ℕ) };

    ghost view = { λ h. h.regions.entries };
}

impl<S: BuildHasher> Homes<S> {
    /// No regions.
    pub(crate) fn new(alloc: Global, hasher: S) -> Self
        ensures { result ≡ [] }
    {
        Homes {
            alloc,
            regions: IndexMap::with_hasher(alloc, hasher),
        }
    }

    /// The regions of a number.
    pub(crate) fn of(&self, number: u32) -> &[u32]
        ensures { result.now ≡ homes_of self.now number }
    {
        match self.regions.get(&number) {
            Some(regions) => regions,
            None => &[],
        }
    }

    /// The first region of a number that has none.
    fn add_first(&mut self, number: u32, region: u32) -> Result<(), AllocError>
        requires { lookup (nat_eq number) self.old ≡ None }
        ensures kept { (n r : ℕ) → is_among (homes_of self.old n) r ≡ true → is_among (homes_of self.new n) r ≡ true }
        ensures added { OnOk result (is_among (homes_of self.new number) region ≡ true) }
    {
        let mut regions = Vec::new(self.alloc);
        regions.push(region)?;
        self.regions.insert(number, regions)?;
        Ok(())
    }

    /// One more region of a number, after the others. None is lost if this fails.
    pub(crate) fn add(&mut self, number: u32, region: u32) -> Result<(), AllocError>
        ensures kept { (n r : ℕ) → is_among (homes_of self.old n) r ≡ true → is_among (homes_of self.new n) r ≡ true }
        ensures added { OnOk result (is_among (homes_of self.new number) region ≡ true) }
    {
        match self.regions.get_mut(&number) {
            Some(regions) => {
                regions.push(region)?;
                Ok(())
            }
            None => self.add_first(number, region),
        }
    }
}
