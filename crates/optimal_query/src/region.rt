//! The region as an interval of calls, and the doubts in it, with the subtrees of clear calls left out.
ghost use Rattle.std.specs.Prelude.{if◌then◌else◌, ◌&&◌, ◌+◌, ◌<◌, ◌^◌, ◌≡◌, ◌≤◌, length, slice_index};
ghost use Rattle.std.specs.Option.{ForSome};
ghost use Rattle.call_tree.specs.Clear.{is_clear, is_unknown};
ghost use Rattle.subtree_weights.specs.Searched.{mark_at};
ghost use Rattle.optimal_query.specs.Nested.{AreNested, end_below, start_below};
ghost use Rattle.optimal_query.specs.Region.{doubts_of, is_after, next_after};

use call_tree::Mark;

/// The first call below the accused.
pub(crate) fn start(accused: Option<u32>) -> usize
    ensures { result ≡ start_below accused }
{
    match accused {
        Some(accused) => accused as usize + 1,
        None => 0,
    }
}

/// The call after the last one below the accused.
pub(crate) fn end(last: &[u32], accused: Option<u32>) -> usize
    requires accused_is_a_call { ForSome accused (λ accused. accused < length last.now) }
    ensures { result ≡ end_below last.now accused }
{
    match accused {
        Some(accused) => last[accused as usize] as usize + 1,
        None => last.len(),
    }
}

/// Whether the call comes after the one that is given.
fn comes_after(before: Option<u32>, call: u32) -> bool
    ensures { result ≡ is_after before call }
{
    match before {
        None => true,
        Some(before) => before < call,
    }
}

/// Whether a call with this mark is a doubt after the call that is given, if it is searched.
fn is_wanted(mark: Mark, before: Option<u32>, call: u32) -> bool
    ensures { result ≡ (is_unknown mark && is_after before call) }
{
    matches!(mark, Mark::Unknown) && comes_after(before, call)
}

/// The next call, or where this one is clear the one after its subtree.
fn next_place(last: &[u32], mark: Mark, call: usize) -> usize
    requires a_call { call < length last.now }
    ensures { result ≡ (if is_clear mark then slice_index last.now call + 1 else call + 1) }
{
    match mark {
        Mark::Right | Mark::Trusted => last[call] as usize + 1,
        _ => call + 1,
    }
}

/// The least doubt, or the least one after the call that is given.
pub(crate) fn next_doubt(
    last: &[u32],
    marks: &[Mark],
    accused: Option<u32>,
    before: Option<u32>,
) -> Option<u32>
    requires same_length { length marks.now ≡ length last.now }
    requires few { length last.now < 2 ^ 32 }
    requires accused_is_a_call { ForSome accused (λ accused. accused < length last.now) }
    requires nested { AreNested last.now }
    ensures { result ≡ next_after (doubts_of last.now marks.now accused) before }
{
    let end = end(last, accused);
    let mut call = start(accused);
    'search: while call < end {
        let mark = marks[call];
        if is_wanted(mark, before, call as u32) {
            return Some(call as u32);
        }
        call = next_place(last, mark, call);
    }
    None
}
