//! The pairs of a slice: a call, and an output of it.
ghost use Rattle.std.specs.Prelude.{if◌then◌else◌, ◌++◌, ◌<◌, ◌∷◌, ◌≡◌, [], IfOk, OnOk, Some, length, slice_get};

use crate::outputs::Output;
use cell_value::Memory;
use std::alloc::{AllocError, Global};
use std::marker::Model;

/// A slice has at most this many pairs.
const MOST_PAIRS: usize = 50_000_000;

/// The number of a call, and an output of the call.
pub(crate) type Pair = (u32, Output);

/// Pairs in the order in which they were found, at most 50,000,000. Clauses see the list of them.
#[derive(Debug, Drop)]
pub(crate) struct Pairs {
    items: Vec<Pair>,
}

impl Model for Pairs {
    ghost use Rattle.std.specs.Prelude.{◌≤◌, ℕ, List, vec_len};
    ghost use Rattle.output_slice.specs.declared.outputs.Output.{Output};

    ghost Value = { List (ℕ × Output) };

    ghost view = { λ p. p.items.items };

    ghost invariant = { λ p. vec_len p.items ≤ 50000000 };
}

impl Pairs {
    ghost use Rattle.output_slice.specs.Firsts.{output_of};

    /// This pair alone.
    pub(crate) fn new(alloc: Global, pair: Pair) -> Result<Pairs, Memory>
        ensures { IfOk result (λ pairs. pairs ≡ pair ∷ []) }
    {
        let mut items = Vec::new(alloc);
        items.push(pair)?;
        Ok(Pairs { items })
    }

    /// Makes room for one pair more, where there is none, and for half as many again: while they move, both places take
    /// 30 bytes a pair.
    fn make_room(&mut self) -> Result<(), Memory>
        ensures { OnOk result (self.new ≡ self.old) }
    {
        let count = self.items.len();
        if count < self.items.capacity() {
            return Ok(());
        }
        self.items.reserve_exact(count / 2 + 4)
    }

    /// Puts a pair at the end if it is so: `Memory` also where there are 50,000,000.
    pub(crate) fn push_if(&mut self, so: bool, pair: Pair) -> Result<(), Memory>
        ensures { OnOk result (self.new ≡ self.old ++ (if so then pair ∷ [] else [])) }
    {
        if !so {
            return Ok(());
        }
        if self.items.len() >= MOST_PAIRS {
            return Err(AllocError);
        }
        self.make_room()?;
        self.items.push(pair)?;
        Ok(())
    }

    /// How many there are.
    pub(crate) fn len(&self) -> u32
        ensures { result ≡ length self.now }
    {
        self.items.len() as u32
    }

    /// The pair at place `i`, counted from 0.
    pub(crate) fn at(&self, i: u32) -> Pair
        requires inside { i < length self.now }
        ensures found { slice_get self.now i ≡ Some result }
    {
        self.items[i as usize]
    }

    /// The output of the pair at place `i`, if that is one of this call.
    pub(crate) fn output_of(&self, i: u32, call: u32) -> Option<Output>
        requires inside { i < length self.now }
        ensures { result ≡ output_of call (slice_get self.now i) }
    {
        let (number, output) = self.items[i as usize];
        if number == call { Some(output) } else { None }
    }
}
