//! The last judgement on each call.
ghost use Rattle.std.specs.Prelude.{◌<◌, ◌^◌, ◌≡◌, ◌≤◌, ℕ, IfOk, None, Some, length, replicate, slice_get, slice_set};
ghost use Rattle.answer_book.specs.Judged.{last_wrong, wrong_flag};

use crate::entries::Judgement;
use cell_value::Memory;
use std::alloc::Global;
use std::marker::Model;
use weight_lanes::last_set;

/// The last judgement on each call, if there is one, and beside it a flag for each call that is
/// judged wrong. Clauses see the judgements.
#[derive(Drop)]
pub(crate) struct JudgedCalls {
    last: Vec<Option<Judgement>>,
    wrong: Vec<u8>,
}

impl Model for JudgedCalls {
    ghost use Rattle.std.specs.Prelude.{List, Option};
    ghost use Rattle.answer_book.specs.declared.entries.Judgement.{Judgement};

    ghost Value = { List (Option Judgement) };

    ghost use Rattle.answer_book.specs.Judged.{AreFlagged};

    ghost view = { λ j. j.last.items };

    ghost invariant = { λ j. AreFlagged j.last.items j.wrong.items };
}

/// The flag of a call.
fn flag(judgement: Option<Judgement>) -> u8
    ensures { result ≡ wrong_flag judgement }
{
    match judgement {
        Some(Judgement::Wrong) => 1,
        _ => 0,
    }
}

impl JudgedCalls {
    /// This many calls, on which nothing is judged.
    pub fn new(alloc: Global, calls: u32) -> Result<JudgedCalls, Memory>
        requires few { calls ≤ 500000 }
        ensures { IfOk result (λ judged. judged ≡ replicate calls None) }
    {
        let last = vec![in alloc; None; calls as usize]?;
        let wrong = vec![in alloc; 0; calls as usize]?;
        Ok(JudgedCalls { last, wrong })
    }

    /// The number of calls.
    pub fn len(&self) -> u32
        ensures { result ≡ length self.now }
    {
        self.last.len() as u32
    }

    /// The last judgement on the call.
    pub fn get(&self, call: u32) -> Option<Judgement>
        requires a_call { call < length self.now }
        ensures { slice_get self.now call ≡ Some result }
    {
        self.last[call as usize]
    }

    /// Sets the last judgement on the call.
    pub fn set(&mut self, call: u32, judgement: Option<Judgement>)
        requires a_call { call < length self.old }
        ensures { self.new ≡ slice_set self.old call judgement }
    {
        self.last[call as usize] = judgement;
        self.wrong[call as usize] = flag(judgement);
    }

    /// The greatest call that is judged wrong.
    pub fn last_wrong(&self) -> Option<u32>
        ensures { result ≡ last_wrong self.now }
    {
        match last_set(&self.wrong) {
            Some(place) => Some(place as u32),
            None => None,
        }
    }
}
