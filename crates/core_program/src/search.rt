//! What is looked for in a list: what a constant chooses, or the statement of a sequence that has a label.

ghost use Rattle.std.specs.Prelude.{◌≡◌, ℕ, length};
ghost use Rattle.core_program.specs.Choices.{Sought, on_to};
ghost use Rattle.core_program.specs.Lists.{Rises, found_by, looked, sought_along};
ghost use Rattle.core_program.specs.Lists as lists;

use crate::rows::{ItemRow, LIST_END, Row, StatementRow};
use crate::tables::ProgramTables;

/// The lists in which something is looked for.
#[derive(Clone, Copy)]
pub enum ListKind {
    /// The constants of a case statement or of a variant part, by their values.
    Constants,
    /// The statements of a sequence, by their labels.
    Statements,
}

/// An item of a list, as a search sees it.
#[derive(Clone, Copy)]
pub struct ListItem {
    /// What it is found by, if by anything.
    pub key: Option<i64>,
    /// What is found with it.
    pub found: u32,
    /// The item after it.
    pub next: u32,
}

/// What an item says of what is looked for.
#[derive(Clone, Copy)]
pub enum Said {
    /// This is it.
    Found(u32),
    /// An item after it may be it.
    After(u32),
    /// There is none.
    Nothing,
    /// The list does not end as it says.
    Broken,
}

/// A constant, and what it chooses.
#[inline(always)]
fn constant_in(row: Row) -> Option<ListItem>
    ensures { result ≡ lists.constant_in row }
{
    match row {
        Row::Item(
            ItemRow::Choice {
                value,
                chosen,
                next,
            },
        ) => Some(ListItem {
            key: Some(i64::from(value)),
            found: chosen,
            next,
        }),
        _ => None,
    }
}

/// The label of a statement, if it has one.
#[inline(always)]
fn label_in(row: Row) -> Option<i64>
    ensures { result ≡ lists.label_in row }
{
    match row {
        Row::Statement(StatementRow::Labelled { label, .. }) => Some(i64::from(label)),
        _ => None,
    }
}

/// The item of a statement of a sequence, which is found by the label of the statement.
#[inline(always)]
fn statement_in(tables: &ProgramTables, at: u32, row: Row) -> Option<ListItem>
    ensures { result ≡ lists.statement_in tables.now at row }
{
    match row {
        Row::Item(ItemRow::Element { item, next }) => Some(ListItem {
            key: label_in(tables.row(item)),
            found: at,
            next,
        }),
        _ => None,
    }
}

/// The item that stands at a row, if it is one of such a list.
#[inline(always)]
pub(crate) fn item_at(tables: &ProgramTables, kind: ListKind, at: u32) -> Option<ListItem>
    ensures { result ≡ lists.item_at tables.now kind at }
{
    match kind {
        ListKind::Constants => constant_in(tables.row(at)),
        ListKind::Statements => statement_in(tables, at, tables.row(at)),
    }
}

/// Whether an item is found by this.
#[inline(always)]
fn is_key(key: Option<i64>, wanted: i64) -> bool
    ensures { result ≡ lists.is_key key wanted }
{
    match key {
        Some(key) => key == wanted,
        None => false,
    }
}

/// What an item says of what it is not itself, which the items after it may be.
#[inline(always)]
fn after(at: u32, next: u32) -> Said
    ensures found { (go : ℕ → Sought) → on_to at next go ≡ found_by result go }
    ensures rises { Rises at result }
{
    if next == LIST_END {
        Said::Nothing
    } else if at < next {
        Said::After(next)
    } else {
        Said::Broken
    }
}

/// What the item that stands at a row says of what is looked for.
#[inline(always)]
fn look(tables: &ProgramTables, kind: ListKind, at: u32, wanted: i64) -> Said
    ensures found { (go : ℕ → Sought) → looked at (lists.item_at tables.now kind at) wanted go ≡ found_by result go }
    ensures rises { Rises at result }
{
    match item_at(tables, kind, at) {
        Some(item) => {
            if is_key(item.key, wanted) {
                Said::Found(item.found)
            } else {
                after(at, item.next)
            }
        }
        None => Said::Broken,
    }
}

/// What is found among the items from one on.
#[inline(always)]
pub(crate) fn search(
    tables: &ProgramTables,
    kind: ListKind,
    first: u32,
    wanted: i64,
) -> Option<Option<u32>>
    ensures { result ≡ sought_along tables.now kind (length tables.now.rows) first wanted }
{
    let mut at = first;
    'items: loop {
        match look(tables, kind, at, wanted) {
            Said::Found(found) => return Some(Some(found)),
            Said::After(next) => at = next,
            Said::Nothing => return Some(None),
            Said::Broken => return None,
        }
    }
}
