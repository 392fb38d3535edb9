//! Whether a reference did what a call did.

ghost use Rattle.std.specs.Prelude.{◌<◌, ◌↔◌, ◌≡◌, ℕ, IsTrue, Some, length, slice_get};
ghost use Rattle.std.specs.FinMap.{get};
ghost use Rattle.core_program.specs.Agree.{EndedByItself};
ghost use Rattle.call_tree.specs.declared.records.Call as table;
ghost use Rattle.reference_oracle.specs.{Answers.SameWay, Places.AreLeftSame};
ghost use Rattle.reference_oracle.specs.Compared.{IsSameByRows, SaysByRows, compared};

use crate::verdicts::Verdict;
use call_tree::Call;
use cell_value::{HEAP_END, Value, WayOut};
use effect_log::Footprint;
use persistent_store::Store;
use program_run::History;

/// Whether a call ended by itself: neither for want of steps nor at a limit.
fn ended_by_itself(way: WayOut) -> bool
    ensures { IsTrue result ↔ EndedByItself way }
{
    match way {
        WayOut::Returned | WayOut::Jumped(_, _) | WayOut::Faulted(_, _) => true,
        WayOut::OutOfSteps | WayOut::Limited(_) => false,
    }
}

/// Whether both returned, or had a fault of one kind.
fn same_way(way: WayOut, other: WayOut) -> bool
    ensures { IsTrue result ↔ SameWay way other }
{
    match way {
        WayOut::Returned => match other {
            WayOut::Returned => true,
            _ => false,
        },
        WayOut::Faulted(kind, _) => match other {
            WayOut::Faulted(too, _) => kind == too,
            _ => false,
        },
        _ => false,
    }
}

/// Whether two results, or two cells, are the same.
fn same_value(one: Option<Value>, other: Option<Value>) -> bool
    ensures { IsTrue result ↔ one ≡ other }
{
    one == other
}

/// The cell at an address, and none where it is no address.
fn cell_at(store: &Store, address: usize) -> Option<Value>
    ensures { result ≡ get store.now address }
{
    store.lacks_what_is_no_address();
    if address < HEAP_END as usize {
        store.get(address as u32)
    } else {
        None
    }
}

/// Whether the cell at an address of the subject is left the same, if there is a place for it in the reference.
fn is_left_same(place: Option<u32>, address: usize, left: &Store, answer: &Store) -> bool
    ensures { IsTrue result ↔ ((there : ℕ) → place ≡ Some there → get answer.now there ≡ get left.now address) }
{
    match place {
        None => true,
        Some(there) => same_value(cell_at(answer, there as usize), cell_at(left, address)),
    }
}

/// Whether the cells of matching variables are left the same: each address of the subject is gone over.
fn are_left_same(places: &[Option<u32>], left: &Store, answer: &Store) -> bool
    ensures { IsTrue result ↔ AreLeftSame places.now left.now answer.now }
{
    'addresses: for address in 0..places.len() {
        if !is_left_same(places[address], address, left, answer) {
            return false;
        }
    }
    true
}

/// Whether the same bytes were given.
fn same_bytes(given: &[u8], other: &[u8]) -> bool
    ensures { IsTrue result ↔ given.now ≡ other.now }
{
    given == other
}

/// Whether the reference did what the call did: by the row and the effect of the call, and by the row of the answer and
/// what was given with it.
fn is_same(
    row: &Call,
    found: &Footprint,
    first: &Call,
    output: &[u8],
    places: &[Option<u32>],
) -> bool
    ensures { IsTrue result ↔ IsSameByRows (compared row.now found.now first.now output.now places.now) }
{
    same_way(row.way, first.way)
        && same_value(first.result, row.result)
        && are_left_same(places, &row.exit.store, &first.exit.store)
        && first.exit.place == found.taken
        && same_bytes(output, found.given.as_slice())
}

/// What the reference says, by the row of its answer.
fn verdict_of(
    row: &Call,
    found: &Footprint,
    first: &Call,
    output: &[u8],
    places: &[Option<u32>],
) -> Verdict
    ensures { SaysByRows (compared row.now found.now first.now output.now places.now) result }
{
    if !ended_by_itself(first.way) {
        return Verdict::NoAnswer(first.way);
    }
    if is_same(row, found, first, output, places) {
        Verdict::Right
    } else {
        Verdict::Wrong
    }
}

/// What the reference says, once it was asked: its call is the first of those in its table.
pub(crate) fn verdict_by(
    row: &Call,
    found: &Footprint,
    answer: &History,
    places: &[Option<u32>],
) -> Verdict
    requires { 0 < length answer.now.calls.calls }
    ensures { (first : table.Call) → slice_get answer.now.calls.calls 0 ≡ Some first
        → SaysByRows (compared row.now found.now first answer.now.output places.now) result }
{
    let first = answer.calls.call(0);
    verdict_of(row, found, first, answer.output.as_slice(), places)
}
