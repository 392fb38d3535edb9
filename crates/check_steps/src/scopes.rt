//! Regions by their numbers, and which of them may define a name or declare a label.

ghost use Rattle.std.specs.Prelude.{◌++◌, ◌+◌, ◌∷◌, ◌≡◌, ◌≤◌, [], ℕ, None, OnOk, false, length, slice_set};
ghost use Rattle.check_steps.specs.{Around.is_among, Homes.with_definition, Homes.with_label};
ghost use Rattle.check_steps.specs.Regions.{declared_in, defined_in, fresh_region, region_at};

use crate::homes::Homes;
use crate::keyed::Keyed;
use crate::regions::{Definition, Region};
use indexmap::IndexMap;
use std::alloc::{AllocError, Global};
use std::hash::{BuildHasherDefault, FoldHasher};
use std::marker::Model;

/// Regions by their numbers. Clauses see the list of them.
#[derive(Drop)]
pub(crate) struct Scopes {
    regions: Vec<Region>,
    /// By name, regions: all that define it are among them.
    homes: Homes<BuildHasherDefault<FoldHasher>>,
    /// By value, regions: all that declare a label of it are among them.
    label_homes: Homes<Keyed>,
    /// The hash of values, which a source chooses.
    keyed: Keyed,
}

impl Model for Scopes {
    ghost use Rattle.std.specs.Prelude.{List, map};
    ghost use Rattle.check_steps.specs.{Homes.AreHomes, Homes.rows_of, Regions.RegionRows};

    ghost Value = { List RegionRows };

    ghost view = { λ s. map rows_of s.regions.items };

    ghost invariant = { λ s. AreHomes (λ r. r.names) (map rows_of s.regions.items) s.homes
        × AreHomes (λ r. r.labels) (map rows_of s.regions.items) s.label_homes };
}

impl Scopes {
    /// No regions.
    pub(crate) fn new(alloc: Global, keyed: Keyed) -> Self
        ensures { result ≡ [] }
    {
        Scopes {
            regions: Vec::new(alloc),
            homes: Homes::new(alloc, BuildHasherDefault::new()),
            label_homes: Homes::new(alloc, keyed),
            keyed,
        }
    }

    /// How many regions there are.
    pub(crate) fn len(&self) -> usize
        ensures { result ≡ length self.now }
    {
        self.regions.len()
    }

    /// The token at which a region begins, and 0 where there is no region of this number.
    pub(crate) fn token(&self, region: u32) -> u32
        ensures { result ≡ (region_at self.now region).token }
    {
        match self.regions.get(region as usize) {
            Some(region) => region.token,
            None => 0,
        }
    }

    /// A region's own frame, and 0, the outermost one, where there is no region of this number.
    pub(crate) fn frame(&self, region: u32) -> u32
        ensures { result ≡ (region_at self.now region).frame }
    {
        match self.regions.get(region as usize) {
            Some(region) => region.frame,
            None => 0,
        }
    }

    /// What a region itself defines a name as.
    pub(crate) fn defined_in(&self, region: u32, name: u32) -> Option<Definition>
        ensures { result ≡ defined_in self.now region name }
    {
        match self.regions.get(region as usize) {
            Some(region) => region.names.get(&name).copied(),
            None => None,
        }
    }

    /// The token at which a region itself declares a label of this value.
    pub(crate) fn declared_in(&self, region: u32, value: u32) -> Option<u32>
        ensures { result ≡ declared_in self.now region value }
    {
        match self.regions.get(region as usize) {
            Some(region) => region.labels.get(&value).copied(),
            None => None,
        }
    }

    /// Regions among which are all that define a name.
    pub(crate) fn homes(&self, name: u32) -> &[u32]
        ensures { (r : ℕ) → is_among result.now r ≡ false → defined_in self.now r name ≡ None }
    {
        self.homes.of(name)
    }

    /// Regions among which are all that declare a label of this value.
    pub(crate) fn label_homes(&self, value: u32) -> &[u32]
        ensures { (r : ℕ) → is_among result.now r ≡ false → declared_in self.now r value ≡ None }
    {
        self.label_homes.of(value)
    }

    /// A region in which nothing is defined, after the others.
    pub(crate) fn push(&mut self, alloc: Global, token: u32, frame: u32) -> Result<(), AllocError>
        ensures pushed { OnOk result (self.new ≡ self.old ++ fresh_region token frame ∷ []) }
        ensures at_most { length self.new ≤ length self.old + 1 }
    {
        self.regions.push(Region {
            token,
            frame,
            names: IndexMap::new(alloc),
            labels: IndexMap::with_hasher(alloc, self.keyed),
        })?;
        Ok(())
    }

    /// A definition of a name at the end of a region that lacks it.
    pub(crate) fn add_definition(
        &mut self,
        region: u32,
        name: u32,
        definition: Definition,
    ) -> Result<(), AllocError>
        requires { defined_in self.old region name ≡ None }
        ensures added { OnOk result (self.new ≡ with_definition self.old region name definition) }
        ensures as_many { length self.new ≡ length self.old }
    {
        self.homes.add(name, region)?;
        let region = region as usize;
        if region < self.regions.len() {
            self.regions[region].names.insert(name, definition)?;
        }
        Ok(())
    }

    /// A label's value at the end of a region that lacks it.
    pub(crate) fn add_label(
        &mut self,
        region: u32,
        value: u32,
        token: u32,
    ) -> Result<(), AllocError>
        requires { declared_in self.old region value ≡ None }
        ensures added { OnOk result (self.new ≡ with_label self.old region value token) }
        ensures as_many { length self.new ≡ length self.old }
    {
        self.label_homes.add(value, region)?;
        let region = region as usize;
        if region < self.regions.len() {
            self.regions[region].labels.insert(value, token)?;
        }
        Ok(())
    }
}
