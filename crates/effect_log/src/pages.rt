//! Cells by address, in pages that are made when an address of theirs is first written.
ghost use Rattle.std.specs.Prelude.{if◌then◌else◌, ◌*◌, ◌+◌, ◌<◌, ◌==◌, ◌≡◌, ℕ, IfOk, None, OnOk, Some, false};
ghost use Rattle.std.specs.Prelude.{slice_index_or};
ghost use Rattle.effect_log.specs.{Pages.cell_at, Paging.blank_cell};

use crate::cells::{Cell, NOTHING, Pages};
use cell_value::Memory;
use std::alloc::Global;

impl Pages {
    /// Cells of which nothing was found.
    pub(crate) fn new(alloc: Global) -> Result<Pages, Memory>
        ensures { IfOk result (λ pages. (q : ℕ) → cell_at pages q ≡ blank_cell) }
    {
        let mut starts = Vec::new(alloc);
        starts.resize(32768, None)?;
        Ok(Pages {
            starts,
            cells: Vec::new(alloc),
        })
    }

    /// Whether the page was made.
    pub(crate) fn has(&self, page: u32) -> bool
        requires { page < 32768 }
        ensures { (place : ℕ) → result ≡ false → place < 32 → cell_at self.now (page * 32 + place) ≡ blank_cell }
    {
        self.starts[page as usize].is_some()
    }

    /// The cell of an address.
    pub(crate) fn at(&self, addr: u32) -> Cell
        requires { addr < 1048576 }
        ensures { result ≡ cell_at self.now addr }
    {
        match self.starts[(addr / 32) as usize] {
            None => NOTHING,
            Some(start) => self.cells[start + (addr % 32) as usize],
        }
    }

    /// Where the cells of a page begin, which is made if there is none yet.
    fn start_of(&mut self, page: usize) -> Result<usize, Memory>
        requires { page < 32768 }
        ensures start { IfOk result (λ start. slice_index_or self.new.starts.items page None ≡ Some start) }
        ensures same { OnOk result ((q : ℕ) → cell_at self.new q ≡ cell_at self.old q) }
    {
        match self.starts[page] {
            Some(start) => Ok(start),
            None => {
                let start = self.cells.len();
                self.cells.extend_from_slice(&[NOTHING; 32])?;
                self.starts[page] = Some(start);
                Ok(start)
            }
        }
    }

    /// Sets the cell of an address.
    pub(crate) fn put(&mut self, addr: u32, cell: Cell) -> Result<(), Memory>
        requires { addr < 1048576 }
        ensures { OnOk result ((q : ℕ) → cell_at self.new q ≡ (if q == addr then cell else cell_at self.old q)) }
    {
        let start = self.start_of((addr / 32) as usize)?;
        self.cells[start + (addr % 32) as usize] = cell;
        Ok(())
    }
}
