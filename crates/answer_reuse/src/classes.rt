//! The calls of a run in classes of alike ones.
ghost use Rattle.std.specs.Prelude.{if◌then◌else◌, ◌&&◌, ◌+◌, ◌<◌, ◌==◌, ◌↔◌, ◌≡◌, ◌≤◌, ℕ, All, IfOk, IfSome, IsTrue};
ghost use Rattle.std.specs.Prelude.{List, Some, length, slice_get, slice_index};
ghost use Rattle.core_program.specs.{Agree.EndedByItself, RunLaws.most_bytes};
ghost use Rattle.core_program.specs.Run as meaning;
ghost use Rattle.call_tree.specs.Told.{IsTold};
ghost use Rattle.program_run.specs.History.{IsOfRun};
ghost use Rattle.body_replay.specs.Replays.{records_of};
ghost use Rattle.answer_reuse.specs.{Alike.DidTheSame, Keys.IsKeyed};
ghost use Rattle.answer_reuse.specs.Classes.{AreClasses, IsAlone, IsClassed, class_size, next_in, rows_between};
ghost use Rattle.answer_reuse.specs.Kept.{AreClassesOf, IsJoined, each_itself, joined_one};
ghost use Rattle.answer_reuse.specs.Sorting.{AreKeys, AreKeysTo, AreSorted, SameKey, order_in, rises, tied_order};

use crate::faults::ClassFault;
use crate::keys::{Keyed, compare_keys, keyed_call, touches_made};
use crate::laws::alike_calls_did_the_same;
use body_replay::calls_carry_to_themselves;
use call_tree::{Call, Calls};
use cell_value::{MOST_TOUCHES, Memory, WayOut};
use core_program::{Program, numbers_tell_the_tree};
use program_run::History;
use std::alloc::Global;
use std::cmp::Ordering;
use std::marker::Model;
use std::mem::size_of;

/// The calls of a run in classes of alike ones. Clauses see the least call that is alike to each.
#[derive(Drop)]
pub struct Classes {
    least: Vec<u32>,
}

impl Model for Classes {
    ghost use Rattle.std.specs.Prelude.{ℕ, List};

    ghost Value = { List ℕ };

    ghost use Rattle.answer_reuse.specs.Kept.{IsKept};

    ghost view = { λ c. c.least.items };

    ghost invariant = { IsKept };
}

/// How many entries of the log the calls have between them, each with those of the calls below it.
fn touches_between(calls: &Calls) -> u64
    requires few { length calls.now.calls ≤ 500000 }
    ensures { result ≡ rows_between calls.now.calls }
{
    let mut sum = 0u64;
    'calls: for call in 0..calls.len() {
        sum += u64::from(touches_made(calls.call(call)));
    }
    sum
}

/// Whether a call ended by itself, by a jump or by a fault: neither for want of steps nor at a limit.
fn ended_by_itself(way: WayOut) -> bool
    ensures { IsTrue result ↔ EndedByItself way }
{
    match way {
        WayOut::Returned | WayOut::Jumped(_, _) | WayOut::Faulted(_, _) => true,
        WayOut::OutOfSteps | WayOut::Limited(_) => false,
    }
}

/// Adds a call of a run to those that may be alike to others, if it ended by itself.
fn push_key<'a>(
    keys: &mut Vec<Keyed<'a>>,
    run: &'a History,
    call: u32,
    row: &'a Call,
) -> Result<(), Memory>
    requires told { IsTold run.now.log run.now.input row.now }
    requires row { slice_get run.now.calls.calls call ≡ Some row.now }
    ensures { IfOk result (λ done.
        AreKeysTo run.now call keys.old.items → AreKeysTo run.now (call + 1) keys.new.items) }
{
    if ended_by_itself(row.way) {
        keys.push(keyed_call(run, call, row))?;
        Ok(())
    } else {
        Ok(())
    }
}

/// The calls of a run that may be alike to others, in order of entry.
fn keyed_calls<'a>(alloc: Global, run: &'a History) -> Result<Vec<Keyed<'a>>, Memory>
    requires told { All (IsTold run.now.log run.now.input) run.now.calls.calls }
    ensures { IfOk result (λ keys. AreKeys run.now keys.items) }
{
    let mut keys = Vec::with_capacity(alloc, run.calls.len() as usize)?;
    'calls: for call in 0..run.calls.len() {
        push_key(&mut keys, run, call, run.calls.call(call))?;
    }
    Ok(keys)
}

/// Which of two calls of a run with one digest comes first, by their keys and their numbers.
fn compare_tied(run: &History, one: &Keyed<'_>, other: &Keyed<'_>) -> Ordering
    ensures { result ≡ tied_order run.now one.now other.now }
{
    match compare_keys(run, one, other) {
        Ordering::Equal => one.call.cmp(&other.call),
        apart => apart,
    }
}

/// Which of two calls of a run comes first, by their digests, their keys and their numbers.
fn compare(run: &History, one: &Keyed<'_>, other: &Keyed<'_>) -> Ordering
    ensures { result ≡ order_in run.now one.now other.now }
{
    match one.digest.cmp(&other.digest) {
        Ordering::Equal => compare_tied(run, one, other),
        apart => apart,
    }
}

/// The calls of a run that may be alike to others. Where no two digests are the same by chance, those of one class
/// stand next to each other and rise.
fn calls_by_digest<'a>(alloc: Global, run: &'a History) -> Result<Vec<Keyed<'a>>, Memory>
    requires told { All (IsTold run.now.log run.now.input) run.now.calls.calls }
    ensures { IfOk result (λ keys. AreKeys run.now keys.items) }
{
    let mut keys = keyed_calls(alloc, run)?;
    keys.sort_by_key(|key| key.digest)?;
    Ok(keys)
}

/// The same calls, those of one class next to each other and rising.
fn sorted_calls<'a>(run: &History, keys: Vec<Keyed<'a>>) -> Result<Vec<Keyed<'a>>, Memory>
    requires keys { AreKeys run.now keys.items }
    ensures { IfOk result (λ keys. AreSorted run.now keys.items) }
{
    let mut keys = keys;
    keys.sort_by(|one, other| compare(run, one, other))?;
    Ok(keys)
}

/// Whether two calls have the same key.
fn have_same_key(run: &History, one: &Keyed<'_>, other: &Keyed<'_>) -> bool
    ensures { IsTrue result ↔ SameKey run.now one.now other.now }
{
    compare_keys(run, one, other).is_eq()
}

/// The same, by their digests first: these are soon compared.
fn are_tied(run: &History, one: &Keyed<'_>, other: &Keyed<'_>) -> bool
    requires one { IsKeyed run.now one.now }
    requires other { IsKeyed run.now other.now }
    ensures { IsTrue result ↔ SameKey run.now one.now other.now }
{
    if one.digest == other.digest {
        have_same_key(run, one, other)
    } else {
        false
    }
}

/// Whether two neighbours are in order, as are those before them: by their numbers where they have the same key, by
/// their digests where they do not.
fn still_rise(so_far: bool, is_same: bool, one: &Keyed<'_>, other: &Keyed<'_>) -> bool
    ensures { result ≡ (so_far && rises is_same one.now other.now) }
{
    if is_same {
        so_far && one.call <= other.call
    } else {
        so_far && one.digest < other.digest
    }
}

/// One of these calls.
fn key_at<'a, 'b>(keys: &'b [Keyed<'a>], i: usize) -> &'b Keyed<'a>
    requires inside { i < length keys.now }
    ensures { slice_get keys.now i ≡ Some result.now }
{
    &keys[i]
}

/// One, if so.
fn one_if(is_one: bool) -> u32
    ensures { result ≡ (if is_one then 1 else 0) }
{
    u32::from(is_one)
}

// While keys are put in order there are two lists of them; then one, and the classes.
const _: () = prove!(size_of::<Keyed<'static>>() <= 24);

impl Classes {
    /// Each of so many calls in a class of its own.
    fn apart(alloc: Global, calls: u32) -> Result<Classes, Memory>
        requires few { calls ≤ 500000 }
        ensures { IfOk result (λ classes. classes ≡ each_itself calls) }
    {
        let mut least = Vec::with_capacity(alloc, calls as usize)?;
        'calls: for call in 0..calls {
            least.push(call)?;
        }
        Ok(Classes { least })
    }

    /// Puts a call into the class of a lesser one, if they have the same key.
    fn join_one(&mut self, is_same: bool, lesser: u32, call: u32)
        requires lesser { lesser < length self.old }
        requires a_call { call < length self.old }
        ensures { self.new ≡ joined_one self.old is_same lesser call }
    {
        if is_same {
            self.least[call as usize] = self.least[lesser as usize];
        }
    }

    /// Puts calls that stand next to each other and have the same key into one class. Whether it saw that they are in
    /// order: else two digests are the same by chance.
    fn join(&mut self, run: &History, keys: &[Keyed<'_>]) -> bool
        requires calls { self.old ≡ each_itself (length run.now.calls.calls) }
        requires keys { AreKeys run.now keys.now }
        ensures joined { AreSorted run.now keys.now → IsJoined run.now keys.now self.new }
        ensures sorted { IsTrue result → AreSorted run.now keys.now }
    {
        let mut rise = true;
        'keys: for i in 1..keys.len() {
            let lesser = key_at(keys, i - 1);
            let here = key_at(keys, i);
            let is_same = are_tied(run, lesser, here);
            rise = still_rise(rise, is_same, lesser, here);
            self.join_one(is_same, lesser.call, here.call);
        }
        rise
    }

    /// The classes of calls, if these are seen to be in order.
    fn of_risen(alloc: Global, run: &History, keys: &[Keyed<'_>]) -> Result<Option<Classes>, Memory>
        requires few { length run.now.calls.calls ≤ 500000 }
        requires keys { AreKeys run.now keys.now }
        ensures { IfOk result (λ found. IfSome found (AreClassesOf run.now)) }
    {
        let mut classes = Classes::apart(alloc, run.calls.len())?;
        if classes.join(run, keys) {
            Ok(Some(classes))
        } else {
            Ok(None)
        }
    }

    /// The classes of calls that are put in order first.
    fn of_unordered(alloc: Global, run: &History, keys: Vec<Keyed<'_>>) -> Result<Classes, Memory>
        requires few { length run.now.calls.calls ≤ 500000 }
        requires keys { AreKeys run.now keys.items }
        ensures { IfOk result (AreClassesOf run.now) }
    {
        let keys = sorted_calls(run, keys)?;
        let mut classes = Classes::apart(alloc, run.calls.len())?;
        let _rise = classes.join(run, &keys);
        Ok(classes)
    }

    /// The classes of the calls of a run. The calls are put in order by their digests, and by all that they are
    /// compared by only where two digests are the same by chance.
    fn of_calls(alloc: Global, run: &History) -> Result<Classes, Memory>
        requires told { All (IsTold run.now.log run.now.input) run.now.calls.calls }
        requires few { length run.now.calls.calls ≤ 500000 }
        ensures { IfOk result (AreClassesOf run.now) }
    {
        let keys = calls_by_digest(alloc, run)?;
        match Classes::of_risen(alloc, run, &keys)? {
            Some(classes) => Ok(classes),
            None => Classes::of_unordered(alloc, run, keys),
        }
    }

    /// The classes of the calls of a run: that of the program with an input of at most 4,194,304 bytes and a budget of
    /// at most 4,000,000 steps. `TooMany` where the calls have more than 50,000,000 entries of the log between them,
    /// each with those of the calls below it. It makes no effect: it goes over the entries of a call once for its
    /// digest, and at most twice more to compare it with a call before it and one after it, where no two digests are
    /// the same by chance.
    /// It takes at most 48 bytes a call, of which it keeps 4.
    pub fn new(alloc: Global, program: &Program, run: &History) -> Result<Classes, ClassFault>
        requires run { (input : List ℕ) × (length input ≤ most_bytes)
            × IsOfRun program.now input run.now.budget run.now }
        requires budget { run.now.budget ≤ 4000000 }

        // Each call has the least one that is alike to it; there are none exactly where there is too much to compare.
        ensures classed { (input : List ℕ) → IsOfRun program.now input run.now.budget run.now
            → IsClassed (records_of (meaning.run program.now input run.now.budget)) result }

        // There is one for each call.
        ensures each { IfOk result (λ classes. length classes ≡ length run.now.calls.calls) }

        // Calls of one class ended the same way, with the same result, and had the same effect.
        ensures same { IfOk result (λ classes. (input : List ℕ) → IsOfRun program.now input run.now.budget run.now
            → AreClasses DidTheSame (records_of (meaning.run program.now input run.now.budget)) classes) }

        // The call of the program is alike to no other one.
        ensures alone { IfOk result (λ classes. IsAlone classes) }
    {
        // What is known of the calls of a run, and of alike ones.
        program.is_whole();
        numbers_tell_the_tree();
        calls_carry_to_themselves();
        alike_calls_did_the_same();
        let touches = touches_between(&run.calls);
        if touches > MOST_TOUCHES {
            return Err(ClassFault::TooMany(touches));
        }
        let classes = Classes::of_calls(alloc, run)?;
        Ok(classes)
    }

    /// The number of calls.
    pub fn len(&self) -> u32
        ensures number { result ≡ length self.now }
        ensures few { result ≤ 500000 }
    {
        self.least.len() as u32
    }

    /// The least call that is alike to a call of the run: it may be that call itself.
    pub fn least(&self, call: u32) -> u32
        requires a_call { call < length self.now }
        ensures { slice_get self.now call ≡ Some result }
    {
        self.least[call as usize]
    }

    /// Whether a call of the run is in the class of which this is the least call.
    pub fn is_of(&self, call: u32, least: u32) -> bool
        requires a_call { call < length self.now }
        ensures { result ≡ (slice_index self.now call == least) }
    {
        self.least(call) == least
    }

    /// The least of the greater calls that are alike to a call of the run. It looks at each call up to that one, so
    /// that to go over a class takes a look at each call.
    pub fn next(&self, call: u32) -> Option<u32>
        requires a_call { call < length self.now }
        ensures { result ≡ next_in self.now call }
    {
        let least = self.least(call);
        let calls = self.len();
        'later: for other in call + 1..calls {
            if self.is_of(other, least) {
                return Some(other);
            }
        }
        None
    }

    /// How many calls are alike to a call of the run, with that call itself.
    pub fn size(&self, call: u32) -> u32
        requires a_call { call < length self.now }
        ensures { result ≡ class_size self.now call }
    {
        let least = self.least(call);
        let mut size = 0;
        'calls: for other in 0..self.len() {
            size += one_if(self.is_of(other, least));
        }
        size
    }
}
