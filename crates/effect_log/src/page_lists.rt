//! The lists of an effect, out of the cells.
ghost use Rattle.std.specs.Prelude.{◌*◌, ◌++◌, ◌+◌, ◌<◌, ◌≡◌, IfOk, OnOk, length, option_to_list};
ghost use Rattle.std.specs.Option.{option_map};
ghost use Rattle.effect_log.specs.Lists.{ListsReach};

use crate::cells::Pages;
use crate::entries::{change_of, seen_of};
use crate::lists::{Changes, Reads};
use crate::log::Log;
use cell_value::{Change, Memory, Seen};
use std::alloc::Global;

/// The lists of an effect, as far as they have come.
#[derive(Drop)]
pub(crate) struct Lists {
    pub(crate) reads: Reads,
    pub(crate) changes: Changes,
}

/// Puts what is seen of an address at the end, if anything is.
fn add_seen(reads: &mut Reads, addr: u32, seen: Option<Seen>) -> Result<(), Memory>
    requires { length reads.old < 4294967295 }
    ensures { OnOk result (reads.new ≡ reads.old ++ option_to_list (option_map (λ x. (addr, x)) seen)) }
{
    match seen {
        None => Ok(()),
        Some(seen) => reads.push((addr, seen)),
    }
}

/// Puts what an address is changed to at the end, if it is changed.
fn add_change(changes: &mut Changes, addr: u32, change: Option<Change>) -> Result<(), Memory>
    requires { length changes.old < 4294967295 }
    ensures { OnOk result (changes.new ≡ changes.old ++ option_to_list (option_map (λ x. (addr, x)) change)) }
{
    match change {
        None => Ok(()),
        Some(change) => changes.push((addr, change)),
    }
}

impl Lists {
    /// Goes on with an address.
    fn add(&mut self, log: &Log, pages: &Pages, addr: u32) -> Result<(), Memory>
        requires inside { addr < 1048576 }
        requires so_far { ListsReach log.now pages.now addr self.old }
        ensures { OnOk result (ListsReach log.now pages.now (addr + 1) self.new) }
    {
        let cell = pages.at(addr);
        add_seen(&mut self.reads, addr, seen_of(log, addr, cell))?;
        add_change(&mut self.changes, addr, change_of(log, addr, cell))?;
        Ok(())
    }

    /// Goes on with the addresses of a page.
    fn add_page(&mut self, log: &Log, pages: &Pages, page: u32) -> Result<(), Memory>
        requires inside { page < 32768 }
        requires so_far { ListsReach log.now pages.now (page * 32) self.old }
        ensures { OnOk result (ListsReach log.now pages.now (page * 32 + 32) self.new) }
    {
        for place in 0..32 {
            self.add(log, pages, page * 32 + place)?;
        }
        Ok(())
    }

    /// Goes on with a page, of whose addresses nothing was found if it was not made.
    fn pass(&mut self, log: &Log, pages: &Pages, page: u32) -> Result<(), Memory>
        requires inside { page < 32768 }
        requires so_far { ListsReach log.now pages.now (page * 32) self.old }
        ensures { OnOk result (ListsReach log.now pages.now (page * 32 + 32) self.new) }
    {
        if pages.has(page) {
            self.add_page(log, pages, page)
        } else {
            Ok(())
        }
    }
}

/// The lists of all addresses.
pub(crate) fn lists_of(alloc: Global, log: &Log, pages: &Pages) -> Result<Lists, Memory>
    ensures { IfOk result (ListsReach log.now pages.now 1048576) }
{
    let mut lists = Lists {
        reads: Reads::new(alloc),
        changes: Changes::new(alloc),
    };
    for page in 0..32768 {
        lists.pass(log, pages, page)?;
    }
    Ok(lists)
}
