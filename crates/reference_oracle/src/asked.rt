//! A call of the subject's run, of which the reference is asked: whether it fits, and what the reference does in its
//! place.

ghost use Rattle.std.specs.Prelude.{◌&&◌, ◌<◌, ◌≡◌, ◌≤◌, ℕ, IfOk, List};
ghost use Rattle.core_program.specs.ProgramRows.{ProgramRows};
ghost use Rattle.core_program.specs.Run as meaning;
ghost use Rattle.call_tree.specs.Told.{IsTold};
ghost use Rattle.reference_oracle.specs.{Fitting.asked, Shapes.programs};
ghost use Rattle.reference_oracle.specs.Kept.{FitsIf, IsAnswerOf, IsFit, IsKeptCall, has_room, worked_within};

use crate::asks::{args_for, entry_for, items_from};
use crate::fits::{effect_of, is_common, returned_or_faulted};
use crate::headings::counterpart;
use crate::matches::{Match, matches_of, turned_matches};
use crate::pairs::Pairs;
use crate::places::places_of;
use call_tree::Call;
use cell_value::{Cells, Memory, STACK_END};
use core_program::Program;
use effect_log::Footprint;
use program_run::{History, run_from};
use std::alloc::Global;

/// How a call fits a reference: the routine that answers for it, what matches, where it is in the reference, and the
/// effect of the call.
#[derive(Drop)]
pub struct Fit {
    pub routine: u32,
    pub matches: Vec<Match>,
    pub places: Vec<Option<u32>>,
    pub found: Footprint,
}

/// Whether the frames of the program block and of a routine fit the stack.
fn has_room(reference: &Program, routine: u32) -> bool
    ensures { result ≡ has_room reference.now routine }
{
    u64::from(reference.frame(0)) + u64::from(reference.frame(routine)) <= u64::from(STACK_END)
}

/// Whether a call worked on cells of matching variables alone, and the reference has room for its routine.
fn can_answer(
    reference: &Program,
    routine: u32,
    places: &[Option<u32>],
    args: &Cells,
    found: &Footprint,
) -> bool
    ensures { result ≡ (worked_within places.now args.now found.now && has_room reference.now routine) }
{
    is_common(places, args, found) && has_room(reference, routine)
}

/// How a call of a run fits a reference, by the call's row; and `None` where it does not.
pub(crate) fn fit_of(
    alloc: Global,
    program: &Program,
    reference: &Program,
    run: &History,
    row: &Call,
) -> Result<Option<Fit>, Memory>
    requires told { (items : List ℕ) × IsTold run.now.log items row.now }
    ensures { IfOk result (λ found. (c : meaning.Call) → IsKeptCall run.now row.now c
        → FitsIf (asked program.now reference.now c run.now.budget) run.now row.now found) }
{
    if !returned_or_faulted(row.way) {
        return Ok(None);
    }
    let mut pairs = Pairs::new(alloc, program, reference)?;
    let Some(routine) = counterpart(alloc, program, reference, &mut pairs, row.routine)? else {
        return Ok(None);
    };
    let matches = matches_of(alloc, program, reference, &mut pairs)?;
    let places = places_of(alloc, &matches)?;
    let found = effect_of(alloc, &run.log, row)?;
    if !can_answer(reference, routine, &places, &row.args, &found) {
        return Ok(None);
    }
    Ok(Some(Fit {
        routine,
        matches,
        places,
        found,
    }))
}

/// What a reference does in place of a call that fits: its routine that answers is called from the state in which it is
/// asked.
pub(crate) fn answer_to(
    alloc: Global,
    reference: &Program,
    run: &History,
    row: &Call,
    fit: &Fit,
) -> Result<History, Memory>
    requires fits { (p : ProgramRows) × (c : meaning.Call) × IsKeptCall run.now row.now c
        × IsFit (asked p reference.now c run.now.budget) run.now row.now fit.now }
    requires some_steps { 0 < run.now.budget }
    requires budget { run.now.budget ≤ 4000000 }
    ensures { IfOk result (λ answer. (p : ProgramRows) (c : meaning.Call) → IsKeptCall run.now row.now c
        → IsFit (asked p reference.now c run.now.budget) run.now row.now fit.now
        → IsAnswerOf (asked p reference.now c run.now.budget) fit.now.routine answer) }
{
    let turned = turned_matches(alloc, &fit.matches)?;
    let back = places_of(alloc, &turned)?;
    let frame = reference.frame(0);
    let entry = entry_for(alloc, &row.entry.store, &back, frame, run.budget)?;
    let args = args_for(alloc, &fit.places, &row.args)?;
    let input = items_from(alloc, &run.input, row.entry.place)?;
    let answer = run_from(alloc, reference, fit.routine, &args, entry, 1, &input)?;
    Ok(answer)
}
