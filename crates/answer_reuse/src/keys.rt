//! What a call is compared by.
ghost use Rattle.std.specs.Prelude.{◌+◌, ◌<◌, ◌≡◌, ℕ, List, length, nat_lt, option_map, slice_get, true};
ghost use Rattle.std.specs.{Cmp.Lexicographic.slice_cmp, Option.option_cmp, Ordering.nat_cmp};
ghost use Rattle.cell_value.specs.Effects.{IsCountable, looked_by, looked_of};
ghost use Rattle.call_tree.specs.Told.{IsTold, part_of};
ghost use Rattle.answer_reuse.specs.{Figures.touch_figure, Keys.touches_order, Keys.work_order};
ghost use Rattle.answer_reuse.specs.Keys.{IsKeyed, args_digest, args_key, compare_keys, contents_order, figure_number};
ghost use Rattle.answer_reuse.specs.Keys.{folded, item_key, items_key, key_head, key_of, lists_order, mixed};
ghost use Rattle.answer_reuse.specs.Keys.{mixed_figure, touch_key, touches_digest, touches_key, touches_made};

use crate::figures::{Figure, is_settled, item_figure, touch_figure, value_figure};
use call_tree::Call;
use cell_value::{Items, Touch, Value};
use effect_log::Log;
use program_run::History;
use std::cmp::Ordering;

/// A call that may be alike to others.
#[derive(Clone, Copy)]
pub(crate) struct Keyed<'a> {
    /// What is made of its key: calls with different ones are not alike.
    pub digest: u64,
    /// Its row of the table of the run.
    pub row: &'a Call,
    /// Its number.
    pub call: u32,
    /// How many items of the input it looked at; the end counts as one.
    pub looked: u32,
}

/// How many entries the log has of a call, with those of the calls below it.
pub(crate) fn touches_made(row: &Call) -> u32
    ensures { result ≡ touches_made row.now }
{
    row.exit.mark.saturating_sub(row.entry.mark)
}

/// Whether a list of this length goes on so far from a place.
fn is_inside(len: u32, from: u32, by: u32) -> bool
    ensures { result ≡ nat_lt (from + by) len }
{
    from < len && by < len - from
}

/// The entry that stands so far from a place of the log, if there is one.
#[inline(always)]
fn touch_at(log: &Log, from: u32, by: u32) -> Option<Touch>
    ensures { result ≡ slice_get log.now (from + by) }
{
    if is_inside(log.len(), from, by) {
        Some(log.at(from + by))
    } else {
        None
    }
}

/// The item that stands so far from a place, if the input has one there.
fn item_at(items: &Items, place: u32, by: u32) -> Option<u16>
    ensures { result ≡ slice_get items.now (place + by) }
{
    let len = items.len();
    if place < len && by < len - place {
        Some(items.at(place + by))
    } else {
        None
    }
}

/// How many items there are from a place to the one that a touch looks at, with that one; the end counts as one.
fn looked_by(place: u32, touch: Touch) -> u32
    requires countable { IsCountable touch }
    ensures { result ≡ looked_by place touch }
{
    match touch {
        Touch::Look(at) => (at + 1).saturating_sub(place),
        _ => 0,
    }
}

/// A digest of what a call did, and how many items of the input it looked at, from where it found it to the furthest
/// one; the end counts as one.
fn pass_over(log: &Log, row: &Call) -> (u64, u32)
    requires told { (items : List ℕ) × IsTold log.now items row.now }
    ensures digest { result.0 ≡ touches_digest 0 (touches_key log.now row.now) }
    ensures looked { result.1 ≡ looked_of row.now.entry.place (part_of log.now row.now) }
{
    let place = row.entry.place;
    let mut digest = 0;
    let mut looked: u32 = 0;
    'touches: for i in row.entry.mark..row.exit.mark {
        let touch = log.at(i);
        digest = mixed_figure(digest, touch_figure(place, touch));
        looked = looked.max(looked_by(place, touch));
    }
    (digest, looked)
}

/// What a call is compared by first: its routine, where its frame begins, where it made cells of the heap, or 0 if it
/// made none, and how much there is to compare after that.
fn head_of(row: &Call, looked: u32) -> Figure
    ensures { result ≡ key_head row.now looked }
{
    let made_at = if row.entry.fresh < row.exit.fresh {
        row.entry.fresh
    } else {
        0
    };
    [
        u64::from(row.routine),
        u64::from(row.entry.top),
        u64::from(made_at),
        row.args.as_slice().len() as u64,
        u64::from(touches_made(row)),
        u64::from(looked),
        0,
    ]
}

/// A digest with one more number.
fn mixed(digest: u64, number: u64) -> u64
    ensures { result ≡ mixed digest number }
{
    (digest.rotate_left(5) ^ number).wrapping_mul(0x9e37_79b9_7f4a_7c15)
}

/// A number with one more number folded into it.
fn folded(number: u64, part: u64) -> u64
    ensures { result ≡ folded number part }
{
    number.rotate_left(34) ^ part
}

/// A figure as one number: different figures may have the same.
fn figure_number(figure: Figure) -> u64
    ensures { result ≡ figure_number figure }
{
    let [act, addr, kind, first, second, third, fourth] = figure;
    let number = folded(folded(folded(0, act), addr), kind);
    folded(folded(folded(folded(number, first), second), third), fourth)
}

/// A digest with one more figure.
fn mixed_figure(digest: u64, figure: Figure) -> u64
    ensures { result ≡ mixed_figure digest figure }
{
    mixed(digest, figure_number(figure))
}

/// A digest with the args of a call.
fn with_args(digest: u64, args: &[Value]) -> u64
    ensures { result ≡ args_digest digest args.now }
{
    let mut digest = digest;
    for arg in args {
        digest = mixed_figure(digest, value_figure(0, 0, *arg));
    }
    digest
}

/// The figure of a touch of a call, by its place among them.
fn touch_key(log: &Log, row: &Call, i: u32) -> Option<Figure>
    ensures { result ≡ touch_key log.now row.now i }
{
    match touch_at(log, row.entry.mark, i) {
        Some(touch) => Some(touch_figure(row.entry.place, touch)),
        None => None,
    }
}

/// A call of a run, by its number and row, to be compared with others. It goes over the call's part of the log once.
pub(crate) fn keyed_call<'a>(run: &'a History, call: u32, row: &'a Call) -> Keyed<'a>
    requires told { IsTold run.now.log run.now.input row.now }
    ensures keyed { IsKeyed run.now result }
    ensures call { result.call ≡ call }
    ensures row { result.row.now ≡ row.now }
{
    let (touches, looked) = pass_over(&run.log, row);
    let work = with_args(touches, row.args.as_slice());
    Keyed {
        digest: mixed_figure(work, head_of(row, looked)),
        row,
        call,
        looked,
    }
}

/// Which of two lists of equally many args comes first.
fn compare_args(args: &[Value], others: &[Value]) -> Ordering
    requires { length args.now ≡ length others.now }
    ensures { result ≡ lists_order (args_key args.now) (args_key others.now) }
{
    'args: for i in 0..args.len() {
        match value_figure(0, 0, args[i]).cmp(&value_figure(0, 0, others[i])) {
            Ordering::Equal => {}
            apart => return apart,
        }
    }
    Ordering::Equal
}

/// Whether the touch at a place of the log has the same figure for calls that began at these two places of the input.
fn is_figure_same(log: &Log, i: u32, place: u32, other: u32) -> bool
    requires { i < length log.now }
    ensures { result ≡ true → option_map (touch_figure place) (slice_get log.now i)
        ≡ option_map (touch_figure other) (slice_get log.now i) }
{
    if place == other {
        true
    } else {
        is_settled(log.at(i))
    }
}

/// Whether the touches at two places of the log are seen by their entries to have the same figure for calls that began
/// at these places of the input.
fn have_same_entry(log: &Log, one: u32, other: u32, place: u32, other_place: u32) -> bool
    requires one { one < length log.now }
    requires other { other < length log.now }
    ensures { result ≡ true → option_map (touch_figure place) (slice_get log.now one)
        ≡ option_map (touch_figure other_place) (slice_get log.now other) }
{
    if log.is_same_entry(one, other) {
        is_figure_same(log, one, place, other_place)
    } else {
        false
    }
}

/// Whether the touches of two calls at this place among them are seen to be the same by their entries in the log.
fn is_same_at(log: &Log, row: &Call, other: &Call, i: u32) -> bool
    ensures { result ≡ true → touch_key log.now row.now i ≡ touch_key log.now other.now i }
{
    let len = log.len();
    let (from, other_from) = (&row.entry, &other.entry);
    if is_inside(len, from.mark, i) && is_inside(len, other_from.mark, i) {
        have_same_entry(
            log,
            from.mark + i,
            other_from.mark + i,
            from.place,
            other_from.place,
        )
    } else {
        false
    }
}

/// Which of two calls comes first, by a touch of each at this place among them: figures are made only where they are
/// not seen to be the same.
fn compare_touch(log: &Log, row: &Call, other: &Call, i: u32) -> Ordering
    ensures { result ≡ option_cmp (slice_cmp nat_cmp) (touch_key log.now row.now i) (touch_key log.now other.now i) }
{
    if is_same_at(log, row, other, i) {
        Ordering::Equal
    } else {
        touch_key(log, row, i).cmp(&touch_key(log, other, i))
    }
}

/// Which of two calls that made equally many touches comes first, by these.
fn compare_touches(log: &Log, row: &Call, other: &Call) -> Ordering
    requires { touches_made row.now ≡ touches_made other.now }
    ensures { result ≡ touches_order (touches_key log.now row.now) (touches_key log.now other.now) }
{
    'touches: for i in 0..touches_made(row) {
        match compare_touch(log, row, other, i) {
            Ordering::Equal => {}
            apart => return apart,
        }
    }
    Ordering::Equal
}

/// The figure of an item that a call looked at, so far from where it found the input.
fn item_key(items: &Items, place: u32, i: u32) -> Figure
    ensures { result ≡ item_key items.now place i }
{
    item_figure(item_at(items, place, i))
}

/// Which of two calls that looked at equally many items comes first, by these.
fn compare_items(items: &Items, place: u32, other: u32, looked: u32) -> Ordering
    ensures { result ≡ lists_order (items_key items.now place looked) (items_key items.now other looked) }
{
    'items: for i in 0..looked {
        match item_key(items, place, i).cmp(&item_key(items, other, i)) {
            Ordering::Equal => {}
            apart => return apart,
        }
    }
    Ordering::Equal
}

/// Which of two calls of a run comes first that made equally many touches and looked at equally many items, by these.
fn compare_work(run: &History, one: &Keyed<'_>, other: &Keyed<'_>) -> Ordering
    requires touches { touches_made one.now.row.now ≡ touches_made other.now.row.now }
    requires looked { one.now.looked ≡ other.now.looked }
    ensures { result ≡ work_order (key_of run.now one.now) (key_of run.now other.now) }
{
    match compare_touches(&run.log, one.row, other.row) {
        Ordering::Equal => {
            let (place, from) = (one.row.entry.place, other.row.entry.place);
            compare_items(&run.input, place, from, one.looked)
        }
        apart => apart,
    }
}

/// Which of two calls of a run with equal heads of their keys comes first, by what follows.
fn compare_contents(run: &History, one: &Keyed<'_>, other: &Keyed<'_>) -> Ordering
    requires args { length one.now.row.now.args ≡ length other.now.row.now.args }
    requires touches { touches_made one.now.row.now ≡ touches_made other.now.row.now }
    requires looked { one.now.looked ≡ other.now.looked }
    ensures { result ≡ contents_order (key_of run.now one.now) (key_of run.now other.now) }
{
    match compare_args(one.row.args.as_slice(), other.row.args.as_slice()) {
        Ordering::Equal => compare_work(run, one, other),
        apart => apart,
    }
}

/// Which of two calls of a run comes first, by their keys.
pub(crate) fn compare_keys(run: &History, one: &Keyed<'_>, other: &Keyed<'_>) -> Ordering
    ensures { result ≡ compare_keys run.now one.now other.now }
{
    match head_of(one.row, one.looked).cmp(&head_of(other.row, other.looked)) {
        // There is as much of each to compare.
        Ordering::Equal => compare_contents(run, one, other),
        apart => apart,
    }
}
