//! Long lists, by what is looked for in them: a search in one passes over few of its items.

ghost use Rattle.std.specs.Prelude.{if◌then◌else◌, ◌&&◌, ◌+◌, ◌<◌, ◌≡◌, ℕ, ℤ, IfOk, OnOk, Some, length, nat_eq};
ghost use Rattle.std.specs.{Prelude.slice_set, Ordering.int_eq};
ghost use Rattle.core_program.specs.Lists.{Added, AreLong, LongFrom, found_at, or_in_tail, sought_along, tail_at};
ghost use Rattle.core_program.specs.Lists as items;

use crate::rows::LIST_END;
use crate::search::{ListItem, ListKind, item_at, search};
use crate::tables::ProgramTables;
use std::alloc::{AllocError, Global};
use std::collections::BTreeMap;

/// A list is long if it has more items than these.
const SHORT: u32 = 8;

/// What is kept of the long lists of a kind. The last items of a long list are its tail, which is searched item by
/// item.
#[derive(Drop)]
pub struct LongLists {
    // By the first item of a long list the item at which its tail begins, and else 0.
    tails: Vec<u32>,
    // What is found in front of a tail, by the item at which the tail begins and by what is looked for.
    found: BTreeMap<(u32, i64), u32>,
}

/// Where the tail of a long list begins, by its first item, and 0 where none begins.
#[inline(always)]
fn tail_at(tails: &[u32], first: u32) -> u32
    ensures { result ≡ tail_at tails.now first }
{
    match tails.get(first as usize) {
        Some(tail) => *tail,
        None => LIST_END,
    }
}

/// Says where the tail of the list at a row begins.
fn set_tail(tails: &mut Vec<u32>, first: u32, tail: u32)
    ensures { tails.new.items ≡ slice_set tails.old.items first tail }
{
    let first = first as usize;
    if first < tails.len() {
        tails[first] = tail;
    }
}

/// What is found by a key in front of a tail is this from now on.
fn put(
    found: &mut BTreeMap<(u32, i64), u32>,
    tail: u32,
    key: i64,
    row: u32,
) -> Result<(), AllocError>
    ensures { OnOk result ((t : ℕ) (wanted : ℤ) → found_at found.new t wanted
        ≡ (if int_eq key wanted && nat_eq tail t then Some row else found_at found.old t wanted)) }
{
    let _ = found.insert((tail, key), row)?;
    Ok(())
}

/// An item comes in front of a tail.
fn add(found: &mut BTreeMap<(u32, i64), u32>, tail: u32, item: ListItem) -> Result<(), AllocError>
    ensures { OnOk result (Added tail item (found_at found.old) (found_at found.new)) }
{
    match item.key {
        Some(key) => put(found, tail, key, item.found),
        None => Ok(()),
    }
}

/// Whether a list is long from an item on.
fn is_long(tables: &ProgramTables, kind: ListKind, first: u32) -> bool {
    let mut at = first;
    'items: for _ in 0..SHORT {
        let Some(item) = item_at(tables, kind, at) else {
            return false;
        };
        if item.next <= at {
            return false;
        }
        at = item.next;
    }
    true
}

/// A list begins at a row, and is kept if it is long.
#[tactic(auto, using(crate::proofs::LongLists::one_more_row))]
fn begin(tables: &ProgramTables, kind: ListKind, lists: &mut LongLists, at: u32)
    requires inside { at < length tables.now.rows }
    requires later { LongFrom tables.now kind (at + 1) lists.old.tails.items (found_at lists.old.found) }
    ensures { LongFrom tables.now kind at lists.new.tails.items (found_at lists.new.found) }
{
    if is_long(tables, kind, at) {
        set_tail(&mut lists.tails, at, at);
    }
}

/// The item at a row comes in front of a long list, by where the tail of that begins.
fn go_before(lists: &mut LongLists, at: u32, item: ListItem, tail: u32) -> Result<(), AllocError>
    ensures found { OnOk result (Added tail item (found_at lists.old.found) (found_at lists.new.found)) }
    ensures tails { OnOk result (lists.new.tails.items
        ≡ slice_set (slice_set lists.old.tails.items at tail) item.next 0) }
{
    add(&mut lists.found, tail, item)?;
    set_tail(&mut lists.tails, at, tail);
    set_tail(&mut lists.tails, item.next, LIST_END);
    Ok(())
}

/// The item at a row begins a list, or comes in front of the one after it.
#[tactic(auto, using(crate::proofs::LongLists::one_more_row))]
fn join(
    tables: &ProgramTables,
    kind: ListKind,
    lists: &mut LongLists,
    at: u32,
    item: ListItem,
) -> Result<(), AllocError>
    requires inside { at < length tables.now.rows }
    requires later { LongFrom tables.now kind (at + 1) lists.old.tails.items (found_at lists.old.found) }
    requires there { items.item_at tables.now kind at ≡ Some item }
    ensures { OnOk result (LongFrom tables.now kind at lists.new.tails.items (found_at lists.new.found)) }
{
    let tail = tail_at(&lists.tails, item.next);
    if tail == LIST_END {
        begin(tables, kind, lists, at);
        Ok(())
    } else {
        go_before(lists, at, item, tail)?;
        Ok(())
    }
}

/// Looks whether an item of a list stands at a row, where this is known of the rows after it.
#[tactic(auto, using(crate::proofs::LongLists::one_more_row))]
fn take(
    tables: &ProgramTables,
    kind: ListKind,
    lists: &mut LongLists,
    at: u32,
) -> Result<(), AllocError>
    requires inside { at < length tables.now.rows }
    requires later { LongFrom tables.now kind (at + 1) lists.old.tails.items (found_at lists.old.found) }
    ensures { OnOk result (LongFrom tables.now kind at lists.new.tails.items (found_at lists.new.found)) }
{
    match item_at(tables, kind, at) {
        Some(item) => join(tables, kind, lists, at, item),
        None => Ok(()),
    }
}

impl LongLists {
    /// The long lists of a kind. An item stands before the one after it, so they are taken from the last row on. A row
    /// that has no number of 32 bits counts as out of memory.
    pub(crate) fn new(
        alloc: Global,
        tables: &ProgramTables,
        kind: ListKind,
    ) -> Result<Self, AllocError>
        ensures { IfOk result (λ l. AreLong tables.now kind l.tails.items (found_at l.found)) }
    {
        let Ok(rows) = u32::try_from(tables.rows()) else {
            return Err(AllocError);
        };
        let mut lists = LongLists {
            tails: vec![in alloc; LIST_END; tables.rows()]?,
            found: BTreeMap::new(alloc),
        };
        let mut at = rows;
        'items: while at > 0 {
            at -= 1;
            take(tables, kind, &mut lists, at)?;
        }
        Ok(lists)
    }

    /// What is found in a list, where the tail of it begins at an item.
    fn find_long(
        &self,
        tables: &ProgramTables,
        kind: ListKind,
        tail: u32,
        wanted: i64,
    ) -> Option<Option<u32>>
        ensures { result ≡ or_in_tail (found_at self.now.found tail wanted)
            (sought_along tables.now kind (length tables.now.rows) tail wanted) }
    {
        match self.found.get(&(tail, wanted)).copied() {
            Some(found) => Some(Some(found)),
            None => search(tables, kind, tail, wanted),
        }
    }

    /// What is found in a list, from its first item on.
    #[inline(always)]
    pub(crate) fn find(
        &self,
        tables: &ProgramTables,
        kind: ListKind,
        first: u32,
        wanted: i64,
    ) -> Option<Option<u32>>
        requires known { AreLong tables.now kind self.now.tails.items (found_at self.now.found) }
        ensures { result ≡ sought_along tables.now kind (length tables.now.rows) first wanted }
    {
        let tail = tail_at(&self.tails, first);
        if tail == LIST_END {
            search(tables, kind, first, wanted)
        } else {
            self.find_long(tables, kind, tail, wanted)
        }
    }
}
