//! Searches over the calls of a run, in which each call makes the next one, and each is of a routine of its own.
ghost use Rattle.std.specs.Prelude.{◌≡◌, [], length};

use answer_book::{Book, Entry, Judgement, What};
use call_tree::{Calls, Mark};
use cell_value::{Memory, Steps};
use optimal_query::{Debug, SearchState};
use std::alloc::Global;
use subtree_weights::Weights;

/// Whether a new book says that call 0 is wrong, and takes a judgement on call 1.
fn book_holds(alloc: Global, calls: &Calls) -> Result<bool, Memory>
    requires all_left { calls.now.open_calls ≡ [] }
    requires three { length calls.now.calls ≡ 3 }
{
    let mut book = Book::new(alloc, calls)?;
    let judged = book.judge(1, Judgement::Right) == Ok(2);
    let marked = book.mark(calls, 0) == Mark::Wrong && book.mark(calls, 1) == Mark::Right;
    Ok(judged && marked && book.entries() == 2 && book.mark(calls, 2) == Mark::Unjudged)
}

/// Whether each call weighs as much as there are calls from it on.
fn weights_hold(alloc: Global, calls: &Calls) -> Result<bool, Memory>
    requires all_left { calls.now.open_calls ≡ [] }
    requires three { length calls.now.calls ≡ 3 }
{
    let weights = Weights::new(alloc, calls)?;
    Ok(weights.column() == [3, 2, 1].as_slice() && weights.under(0) == 2)
}

/// The calls 1 and 2 leave one suspect each, so the question is about the first.
const FIRST: SearchState = SearchState::Ask {
    call: 1,
    weight: 2,
    suspects: 2,
    left: 1,
};

/// Call 1 is accused, and that call 2 is right was taken back.
const ENTRIES: [Entry; 3] = [
    Entry {
        what: What::Judged(0, Judgement::Wrong),
        standing: true,
    },
    Entry {
        what: What::Judged(1, Judgement::Wrong),
        standing: true,
    },
    Entry {
        what: What::Judged(2, Judgement::Right),
        standing: false,
    },
];

const SECOND: SearchState = SearchState::Ask {
    call: 2,
    weight: 1,
    suspects: 1,
    left: 0,
};

/// Whether a new search and one over entries that stand already ask these questions.
fn questions_hold(alloc: Global, calls: &Calls) -> Result<bool, Memory>
    requires all_left { calls.now.open_calls ≡ [] }
    requires three { length calls.now.calls ≡ 3 }
{
    let mut steps: Steps<()> = Steps::new();
    let begun = Debug::new(alloc, calls)?;
    let resumed = Debug::with_entries(alloc, calls, &ENTRIES, &mut steps)?;
    Ok(begun.state() == FIRST && resumed.state() == SECOND)
}

/// Whether the book, the weights and the searches over these calls are those of three calls in a chain.
pub fn searches_hold(alloc: Global, calls: &Calls) -> Result<bool, Memory>
    requires all_left { calls.now.open_calls ≡ [] }
{
    if calls.len() != 3 {
        return Ok(false);
    }
    let book = book_holds(alloc, calls)?;
    let weights = weights_hold(alloc, calls)?;
    let questions = questions_hold(alloc, calls)?;
    Ok(book && weights && questions)
}
