//! The calls of a run as they are recorded.
ghost use Rattle.std.specs.Prelude.{◌<◌, ◌↔◌, ◌≡◌, ◌≤◌, [], All, IfOk, IsTrue, OnErr, OnOk, Some, length, slice_get};
ghost use Rattle.call_tree.specs.{Nesting.IsRooted, Numbering.IsNumbered};
ghost use Rattle.call_tree.specs.Recording.{blank_side, depths_of, entered, lasts_of, left, nothing_entered};
ghost use Rattle.call_tree.specs.Recording.{parents_of, routines_of, starts_of};

use crate::records::{Call, FrameStart, Side};
use cell_value::{Cells, Memory, Value, WayOut};
use persistent_store::Store;
use std::alloc::Global;
use std::marker::Model;
use std::mem::size_of;

/// The calls of a run while it goes on: all that were entered so far, and which of them are open. A call
/// is open from when it is entered until it is left, and the innermost one is left first.
///
/// Clauses see a `Recording`: the list of the calls in order of entry, the numbers of the open calls,
/// the innermost first, and the number of routines. There are at most 500,000 calls.
#[derive(Drop)]
pub struct Calls {
    calls: Vec<Call>,
    routine_column: Vec<u32>,
    last_column: Vec<u32>,
    open_calls: Vec<u32>,
    start_column: Vec<FrameStart>,
    routines: u32,
}

impl Model for Calls {
    ghost use Rattle.call_tree.specs.Recording.{Recording, recording_code};
    ghost use Rattle.call_tree.specs.contracts.records.Call as call;

    ghost Value = { Recording };

    ghost coded = { recording_code call.the_row.coded };

    ghost use Rattle.call_tree.specs.Kept.{IsKept, recording_of};

    ghost view = { recording_of };

    ghost invariant = { IsKept };
}

/// A side that is not known yet.
fn blank() -> Side
    ensures { result ≡ blank_side }
{
    Side {
        mark: 0,
        top: 0,
        fresh: 0,
        place: 0,
        output: 0,
        steps: 0,
        calls: 0,
        store: Store::new(),
    }
}

impl Calls {
    /// No calls yet, of a program with this many routines. It takes no memory.
    pub fn new(alloc: Global, routines: u32) -> Calls
        ensures { result ≡ nothing_entered routines }
    {
        Calls {
            calls: Vec::new(alloc),
            routine_column: Vec::new(alloc),
            last_column: Vec::new(alloc),
            open_calls: Vec::new(alloc),
            start_column: Vec::new(alloc),
            routines,
        }
    }

    /// Opens the next call under the innermost open one, and answers its number. The first call has no
    /// call above it. After `Memory` no call was entered, and the args and the entry are given up.
    pub fn enter(&mut self, routine: u32, args: Cells, entry: Side) -> Result<u32, Memory>
        requires few { length self.old.calls < 500000 }
        requires known { routine < self.old.routines }
        requires under_a_call { 0 < length self.old.calls → 0 < length self.old.open_calls }
        ensures number { IfOk result (λ k. k ≡ length self.old.calls) }
        ensures entered { OnOk result (self.new ≡ entered self.old routine args entry) }
        ensures unchanged { OnErr result (self.new ≡ self.old) }
    {
        let number = self.calls.len() as u32;
        self.routine_column.reserve(1)?;
        self.last_column.reserve(1)?;
        self.open_calls.reserve(1)?;
        self.start_column.reserve(1)?;
        let parent = self.open_calls.last().copied();
        let start = FrameStart {
            top: entry.top,
            parent,
        };
        let call = Call {
            routine,
            parent,
            depth: self.open_calls.len() as u32,
            last: number,
            args,
            entry,
            exit: blank(),
            way: WayOut::Returned,
            result: None,
        };
        self.calls.push(call)?;
        self.routine_column.push(routine)?;
        self.last_column.push(number)?;
        self.open_calls.push(number)?;
        self.start_column.push(start)?;
        Ok(number)
    }

    /// Closes the innermost open call. It takes no memory.
    pub fn leave(&mut self, exit: Side, way: WayOut, answer: Option<Value>)
        requires an_open_call { 0 < length self.old.open_calls }
        ensures { self.new ≡ left self.old exit way answer }
    {
        let last = self.calls.len() as u32 - 1;
        if let Some(number) = self.open_calls.pop() {
            let k = number as usize;
            self.last_column[k] = last;
            let call = &mut self.calls[k];
            call.last = last;
            call.exit = exit;
            call.way = way;
            call.result = answer;
        }
    }

    /// The number of calls that were entered.
    pub fn len(&self) -> u32
        ensures { result ≡ length self.now.calls }
    {
        self.calls.len() as u32
    }

    /// Whether no call was entered yet.
    pub fn is_empty(&self) -> bool
        ensures { IsTrue result ↔ (self.now.calls ≡ []) }
    {
        self.calls.is_empty()
    }

    /// The number of routines.
    pub fn routines(&self) -> u32
        ensures { result ≡ self.now.routines }
    {
        self.routines
    }

    /// The call of this number, which is below the number of calls.
    pub fn call(&self, k: u32) -> &Call
        requires entered { k < length self.now.calls }
        ensures found { slice_get self.now.calls k ≡ Some result.now }
    {
        &self.calls[k as usize]
    }

    /// The routine of each call.
    pub fn routine_column(&self) -> &[u32]
        ensures { result.now ≡ routines_of self.now.calls }
    {
        &self.routine_column
    }

    /// The last call of each call's subtree.
    pub fn last_column(&self) -> &[u32]
        ensures { result.now ≡ lasts_of self.now.calls }
    {
        &self.last_column
    }

    /// Where the frame of each call begins, and the call that called it.
    pub fn start_column(&self) -> &[FrameStart]
        ensures { result.now ≡ starts_of self.now.calls }
    {
        &self.start_column
    }

    /// A law for callers: once all calls are left, they are numbered so that the subtree of each is the
    /// interval from it to its last call, the first call is the root, and depths count from it.
    pub fn are_numbered(&self)
        requires all_left { self.now.open_calls ≡ [] }
        ensures numbered { IsNumbered (parents_of self.now.calls) (lasts_of self.now.calls) }
        ensures rooted { IsRooted (parents_of self.now.calls) (depths_of self.now.calls) }
        ensures few { length self.now.calls ≤ 500000 }
        ensures known { All (λ call. call.routine < self.now.routines) self.now.calls }
    {
        let _calls = &self.calls;
    }
}

// A call takes at most 256 bytes beside its args and its stores: its record, its places in the three columns, and its
// place among the open calls.
const _: () = prove!(size_of::<Call>() + size_of::<FrameStart>() + 12 <= 256);
