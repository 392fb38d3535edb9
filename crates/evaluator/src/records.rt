//! The records that with statements have established.
ghost use Rattle.std.specs.Prelude.{◌++◌, ◌∷◌, ◌≡◌, [], OnOk, slice_get};
ghost use Rattle.evaluator.specs.Records.{without_last};

use cell_value::Memory;
use std::alloc::Global;
use std::marker::Model;

/// The addresses of the records that the with statements at work have established, the outermost first. Clauses see the
/// list of them.
#[derive(Drop)]
pub struct Records {
    addresses: Vec<u32>,
}

impl Model for Records {
    ghost use Rattle.std.specs.Prelude.{ℕ, List};

    ghost Value = { List ℕ };

    ghost view = { λ r. r.addresses.items };
}

impl Records {
    /// No record. It takes no memory.
    pub fn new(alloc: Global) -> Records
        ensures { result ≡ [] }
    {
        Records {
            addresses: Vec::new(alloc),
        }
    }

    /// A further record, inside of the others.
    pub fn enter(&mut self, addr: u32) -> Result<(), Memory>
        ensures added { OnOk result (self.new ≡ self.old ++ addr ∷ []) }
    {
        self.addresses.push(addr)?;
        Ok(())
    }

    /// The innermost record is left.
    pub fn leave(&mut self)
        ensures { self.new ≡ without_last self.old }
    {
        self.addresses.pop();
    }

    /// All are left.
    pub fn leave_all(&mut self)
        ensures { self.new ≡ [] }
    {
        self.addresses.clear();
    }

    /// The record at a place, counted from 0, if there is one.
    pub fn at(&self, place: u32) -> Option<u32>
        ensures { result ≡ slice_get self.now place }
    {
        self.addresses.get(place as usize).copied()
    }
}
