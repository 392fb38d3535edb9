//! Lists of items, each of which names the next one.

ghost use Rattle.std.specs.Prelude.{◌≡◌};
ghost use Rattle.check_steps.specs.Items.{actual_on, add_item, array_on, going_on, link, row_on};
ghost use Rattle.check_steps.specs.Steps.{Does};

use crate::work::Work;
use core_program::rows::{ItemRow, Row};

fn array_on(item: ItemRow, next: u32) -> ItemRow
    ensures { result ≡ array_on item next }
{
    match item {
        ItemRow::ArrayPlace {
            first,
            access,
            of,
            ..
        } => ItemRow::ArrayPlace {
            first,
            access,
            of,
            next,
        },
        ItemRow::ArrayValue {
            first,
            value,
            of,
            ..
        } => ItemRow::ArrayValue {
            first,
            value,
            of,
            next,
        },
        _ => item,
    }
}

fn actual_on(item: ItemRow, next: u32) -> ItemRow
    ensures { result ≡ actual_on item next }
{
    match item {
        ItemRow::Value { value, of, .. } => ItemRow::Value { value, of, next },
        ItemRow::Place { access, .. } => ItemRow::Place { access, next },
        ItemRow::Routine {
            routine,
            levels,
            ..
        } => ItemRow::Routine {
            routine,
            levels,
            next,
        },
        ItemRow::RoutineFormal { formal, levels, .. } => ItemRow::RoutineFormal {
            formal,
            levels,
            next,
        },
        ItemRow::Written { value, of, .. } => ItemRow::Written { value, of, next },
        ItemRow::WrittenWide {
            value,
            of,
            width,
            ..
        } => ItemRow::WrittenWide {
            value,
            of,
            width,
            next,
        },
        _ => array_on(item, next),
    }
}

fn going_on(item: ItemRow, next: u32) -> ItemRow
    ensures { result ≡ going_on item next }
{
    match item {
        ItemRow::Element { item, .. } => ItemRow::Element { item, next },
        ItemRow::Member { value, .. } => ItemRow::Member { value, next },
        ItemRow::Members { first, last, .. } => ItemRow::Members { first, last, next },
        ItemRow::Choice { value, chosen, .. } => ItemRow::Choice {
            value,
            chosen,
            next,
        },
        _ => actual_on(item, next),
    }
}

fn row_on(row: Row, next: u32) -> Row
    ensures { result ≡ row_on row next }
{
    match row {
        Row::Item(item) => Row::Item(going_on(item, next)),
        _ => row,
    }
}

/// The last item of a list, if it has one, goes on at the number of the next.
#[tactic(auto, using(crate::proofs::Runs::steps), unfolding(crate::specs::Items::link))]
fn put_link(work: &mut Work, last: u32, next: u32)
    ensures { Does (link last next) tt work.old work.new }
{
    let row = row_on(work.tables.row(last), next);
    work.put(last, row);
}

/// One more item of a list, at a slot after the last one, with which the list ends: what is given is where it stands.
#[tactic(auto, using(crate::proofs::Runs::steps), unfolding(crate::specs::Items::add_item))]
pub fn put_item(work: &mut Work, last: u32, slot: u32, item: ItemRow) -> u32
    ensures { Does (add_item last slot item) result work.old work.new }
{
    put_link(work, last, slot);
    work.put(slot, Row::Item(item));
    slot
}
