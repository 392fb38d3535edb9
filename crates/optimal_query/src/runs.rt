//! The question, found run by run: the kernel `best` looks at each long run of calls between the
//! subtrees in which no suspect stands. Where runs are short, a kernel first passes over all calls that
//! leave no fewer suspects than the best so far, whether they stand in such a subtree or not; what is
//! left is looked at one by one.
ghost use Rattle.std.specs.Prelude.{◌+◌, ◌<◌, ◌≡◌, ◌≢◌, ◌≤◌, ℕ, length, slice_index};
ghost use Rattle.std.specs.Option.{ForSome};
ghost use Rattle.weight_lanes.specs.Places.{left_at};
ghost use Rattle.optimal_query.specs.Runs.{IsBelowWeightless, IsBestAmong, IsField, LeavesNoMore, MayBeAsked};
ghost use Rattle.optimal_query.specs.Runs.{better_of, field_of};

use weight_lanes::{Choice, best, left_after, next_leaving_fewer, next_weightless_parent};

/// From how many calls on a run is worth the kernels.
const LONG: usize = 64;

/// The choice that leaves fewer; of equals the one that came first.
fn better(best: Option<Choice>, next: Option<Choice>) -> Option<Choice>
    ensures { result ≡ better_of best next }
{
    match (best, next) {
        (None, next) => next,
        (Some(best), None) => Some(best),
        (Some(best), Some(next)) if next.left < best.left => Some(next),
        (Some(best), Some(_)) => Some(best),
    }
}

/// The best of the calls from `from` up to `to` that nothing is said of.
fn best_between(
    weights: &[u32],
    askable: &[u8],
    total: u32,
    from: usize,
    to: usize,
) -> Option<Choice>
    requires order { from ≤ to }
    requires inside { to ≤ length weights.now }
    requires same_length { length askable.now ≡ length weights.now }
    requires at_least_one { (call : ℕ) → from ≤ call → call < to → slice_index askable.now call ≢ 0 →
        1 ≤ slice_index weights.now call }
    requires at_most_total { (call : ℕ) → from ≤ call → call < to → slice_index askable.now call ≢ 0 →
        slice_index weights.now call ≤ total }
    ensures { IsBestAmong (λ call. slice_index askable.now call ≢ 0) (left_at weights.now total) from to result }
{
    match best(&weights[from..to], &askable[from..to], total) {
        Some(choice) => Some(Choice {
            left: choice.left,
            at: from + choice.at,
        }),
        None => None,
    }
}

/// The call as a choice, where nothing is said of it.
fn choice_at(weights: &[u32], askable: &[u8], total: u32, call: usize) -> Option<Choice>
    requires a_call { call < length weights.now }
    requires same_length { length askable.now ≡ length weights.now }
    requires at_least_one { slice_index askable.now call ≢ 0 → 1 ≤ slice_index weights.now call }
    requires at_most_total { slice_index askable.now call ≢ 0 → slice_index weights.now call ≤ total }
    ensures { IsBestAmong (λ other. slice_index askable.now other ≢ 0) (left_at weights.now total)
        call (call + 1) result }
{
    if askable[call] == 0 {
        return None;
    }
    let left = left_after(weights[call], total);
    Some(Choice { left, at: call })
}

/// Where the run ends that begins at `from`: at the next call that weighs nothing and has calls below
/// it, or at the end.
fn run_end(last: &[u32], weights: &[u32], from: usize, end: usize) -> usize
    requires order { from ≤ end }
    requires inside { end ≤ length weights.now }
    requires same_length { length weights.now ≡ length last.now }
    ensures order { from ≤ result }
    ensures inside { result ≤ end }
    ensures run { (call : ℕ) → from ≤ call → call < result → slice_index weights.now call ≡ 0 →
        slice_index last.now call ≡ call }
{
    match next_weightless_parent(&weights[..end], &last[..end], from) {
        Some(call) => call,
        None => end,
    }
}

/// The first call from `from` on that may be better than the best so far, unless it stands in a subtree
/// that weighs nothing: `from` itself while nothing is the best. At the end where there is none.
fn next_better(
    weights: &[u32],
    askable: &[u8],
    total: u32,
    best: Option<Choice>,
    from: usize,
    end: usize,
) -> usize
    requires order { from ≤ end }
    requires inside { end ≤ length weights.now }
    requires same_length { length askable.now ≡ length weights.now }
    requires at_most_total { ForSome best (λ best. best.left ≤ total) }
    ensures order { from ≤ result }
    ensures inside { result ≤ end }
    ensures worse { (call : ℕ) → from ≤ call → call < result → slice_index askable.now call ≢ 0 →
        LeavesNoMore best (left_at weights.now total call) }
{
    let Some(best) = best else {
        return from;
    };
    match next_leaving_fewer(&weights[..end], &askable[..end], total, from, best.left) {
        Some(call) => call,
        None => end,
    }
}

/// The first call from `to` on that stands in no subtree of a call from `from` up to `to` which weighs
/// nothing.
fn past_weightless(last: &[u32], weights: &[u32], from: usize, to: usize) -> usize
    requires order { from < to }
    requires inside { to ≤ length weights.now }
    requires same_length { length weights.now ≡ length last.now }
    ensures at_least { to ≤ result }
    ensures beyond { (call : ℕ) → from ≤ call → call < to → slice_index weights.now call ≡ 0 →
        slice_index last.now call < result }
    ensures hidden { (call : ℕ) → to ≤ call → call < result →
        IsBelowWeightless last.now weights.now from to call }
{
    let mut reached = 0_u32;
    for call in from..to {
        if weights[call] == 0 {
            reached = reached.max(last[call]);
        }
    }
    to.max(reached as usize + 1)
}

/// Of the calls from `start` up to `end` that nothing is said of, and that stand in no subtree which
/// weighs nothing, the first of which the worse answer leaves the fewest suspects.
pub(crate) fn best_of_runs(
    last: &[u32],
    weights: &[u32],
    askable: &[u8],
    total: u32,
    start: usize,
    end: usize,
) -> Option<Choice>
    requires a_field { IsField (field_of last.now weights.now askable.now total start end) }
    ensures { IsBestAmong (MayBeAsked (field_of last.now weights.now askable.now total start end))
        (left_at weights.now total) start end result }
{
    let mut best = None;
    let mut from = start;
    // Up to here the calls are looked at one by one, since the kernels passed over few.
    let mut alone = start;
    'calls: while from < end {
        if alone <= from {
            let to = next_better(weights, askable, total, best, from, end);
            if to == end {
                return best;
            }
            if LONG <= to - from {
                from = past_weightless(last, weights, from, to);
                continue 'calls;
            }
            let to = run_end(last, weights, from, end);
            if LONG <= to - from {
                best = better(best, best_between(weights, askable, total, from, to));
                from = to;
                continue 'calls;
            }
            alone = from + LONG;
        }
        if weights[from] == 0 {
            from = last[from] as usize + 1;
            continue 'calls;
        }
        best = better(best, choice_at(weights, askable, total, from));
        from += 1;
    }
    best
}
