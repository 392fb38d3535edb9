//! What has been found in the log so far.
ghost use Rattle.std.specs.Prelude.{if◌then◌else◌, ◌+◌, ◌<◌, ◌==◌, ◌^◌, ◌≡◌, ◌≤◌, [], ℕ, IfOk, List, OnOk};
ghost use Rattle.cell_value.specs.Effects.{IsCountable, made_by, taken_by};
ghost use Rattle.cell_value.specs.declared.entries.Touch.{Touch as LogTouch};
ghost use Rattle.effect_log.specs.Marks.{MarksCells, PagesHold, PagesTakeIn, answer_mark, block_mark, change_mark};
ghost use Rattle.effect_log.specs.Marks.{read_mark};

use crate::cells::{Cell, Pages};
use crate::cells_found::is_shared_cell;
use cell_value::{Memory, Touch};
use edge_ports::Bytes;
use std::alloc::Global;

/// What has been found in the part of the log that was gone over.
#[derive(Drop)]
pub(crate) struct Found {
    pub(crate) pages: Pages,
    pub(crate) made: u32,
    pub(crate) looked: u32,
    pub(crate) taken: u32,
    pub(crate) given: Bytes,
}

/// Takes in that the entry with the number read the cell.
fn read_cell(pages: &mut Pages, base: u32, addr: u32, number: u32) -> Result<(), Memory>
    ensures { OnOk result (MarksCells base (λ q cell. if addr == q then read_mark number cell else cell) pages.old
        pages.new) }
{
    if !is_shared_cell(base, addr) {
        return Ok(());
    }
    let cell = pages.at(addr);
    if cell.change.is_some() || cell.read.is_some() {
        return Ok(());
    }
    pages.put(
        addr,
        Cell {
            read: Some(number),
            ..cell
        },
    )
}

/// Takes in that the entry with the number asked whether the cell is there.
fn ask_cell(pages: &mut Pages, base: u32, addr: u32, number: u32) -> Result<(), Memory>
    ensures { OnOk result (MarksCells base (λ q cell. if addr == q then answer_mark number cell else cell) pages.old
        pages.new) }
{
    if !is_shared_cell(base, addr) {
        return Ok(());
    }
    let cell = pages.at(addr);
    if cell.change.is_some() || cell.answer.is_some() {
        return Ok(());
    }
    pages.put(
        addr,
        Cell {
            answer: Some(number),
            ..cell
        },
    )
}

/// Takes in that the entry with the number changed the cell.
fn change_cell(pages: &mut Pages, base: u32, addr: u32, number: u32) -> Result<(), Memory>
    ensures { OnOk result (MarksCells base (λ q cell. if addr == q then change_mark number cell else cell) pages.old
        pages.new) }
{
    if !is_shared_cell(base, addr) {
        return Ok(());
    }
    let cell = pages.at(addr);
    pages.put(
        addr,
        Cell {
            change: Some(number),
            ..cell
        },
    )
}

/// Takes in that the entry with the number changed all cells of a block, which ends at `end`.
fn change_block(
    pages: &mut Pages,
    base: u32,
    first: u32,
    end: u32,
    number: u32,
) -> Result<(), Memory>
    requires { first ≤ end }
    ensures { OnOk result (MarksCells base (block_mark number first end) pages.old pages.new) }
{
    for addr in first..end {
        change_cell(pages, base, addr, number)?;
    }
    Ok(())
}

impl Found {
    /// Nothing found yet.
    pub(crate) fn new(alloc: Global) -> Result<Found, Memory>
        ensures { IfOk result (λ found. (base place : ℕ) (log : List LogTouch) → PagesHold base place log [] found) }
    {
        Ok(Found {
            pages: Pages::new(alloc)?,
            made: 0,
            looked: 0,
            taken: 0,
            given: Bytes::new(alloc),
        })
    }

    /// Takes in the touch with the number.
    pub(crate) fn take_in(
        &mut self,
        base: u32,
        place: u32,
        number: u32,
        touch: Touch,
    ) -> Result<(), Memory>
        requires countable { IsCountable touch }
        requires made_fits { self.old.made + made_by touch < 2 ^ 32 }
        requires taken_fits { self.old.taken + taken_by touch < 2 ^ 32 }
        ensures { OnOk result (PagesTakeIn base place (record { number = number; touch = touch }) self.old self.new) }
    {
        match touch {
            Touch::Read(addr, _) => read_cell(&mut self.pages, base, addr, number)?,
            Touch::Has(addr, _) => ask_cell(&mut self.pages, base, addr, number)?,
            Touch::Write(addr, _) => change_cell(&mut self.pages, base, addr, number)?,
            Touch::Make(first, cells, _) => {
                change_block(&mut self.pages, base, first, first + cells, number)?;
                self.made += cells;
            }
            Touch::Drop(first, cells) => {
                change_block(&mut self.pages, base, first, first + cells, number)?;
            }
            Touch::Look(at) => self.looked = self.looked.max((at + 1).saturating_sub(place)),
            Touch::Take(items) => self.taken += items,
            Touch::Give(byte) => self.given.append(&[byte])?,
        }
        Ok(())
    }
}
