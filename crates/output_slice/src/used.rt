//! Which outputs of a call that was made are used.
ghost use Rattle.std.specs.Prelude.{◌&&◌, ◌++◌, ◌<◌, ◌≡◌, All, Bool, OnOk, not};
ghost use Rattle.core_program.specs.Run as meaning;
ghost use Rattle.output_slice.specs.{Outputs.is_returned, declared.outputs.Output.Output as AnOutput};
ghost use Rattle.output_slice.specs.Backward.{Wanted, others, used_among, used_cells, used_of, with_number};
ghost use Rattle.output_slice.specs.Needed.{AreGathered, AreWanted, EndsAs, HasCells, IsEffectOfCall};

use crate::cell_set::CellSet;
use crate::needs::{Needs, either};
use crate::outputs::Output;
use crate::pairs::Pairs;
use call_tree::Call;
use cell_value::{Memory, WayOut};
use effect_log::{Changes, Footprint};

/// Which outputs of a call are wanted that gather those of the calls that it made.
#[derive(Clone, Copy)]
pub(crate) struct Gathered {
    pub(crate) gives: bool,
    pub(crate) takes: bool,
    pub(crate) makes: bool,
}

/// Whether a way out is an output.
pub(crate) fn is_output(way: WayOut) -> bool
    ensures { result ≡ not (is_returned way) }
{
    !matches!(way, WayOut::Returned)
}

/// Whether a call has an output, and that is asked for.
pub(crate) fn both(has: bool, asked: bool) -> bool
    ensures { result ≡ (has && asked) }
{
    has && asked
}

/// Adds those of the cells that a call changed which are wanted.
fn add_cells(pairs: &mut Pairs, cells: &CellSet, call: u32, changes: &Changes) -> Result<(), Memory>
    requires inside { All (λ x. x.0 < 1048576) changes.now }
    ensures { OnOk result ((w : Wanted) → HasCells cells.now w.cells
        → pairs.new ≡ pairs.old ++ with_number call (used_cells w changes.now)) }
{
    for i in 0..changes.len() {
        let addr = changes.at(i).0;
        pairs.push_if(cells.has(addr), (call, Output::Cell(addr)))?;
    }
    Ok(())
}

/// Adds the others of a call's outputs that are used.
fn add_others(
    pairs: &mut Pairs,
    gathered: Gathered,
    needs: &Needs,
    call: u32,
    row: &Call,
    effect: &Footprint,
) -> Result<(), Memory>
    ensures { OnOk result ((c : meaning.Call) → IsEffectOfCall c effect.now → EndsAs c row.now → (w : Wanted)
        → AreWanted needs.now w → (wants : AnOutput → Bool) → AreGathered wants gathered
        → pairs.new ≡ pairs.old ++ with_number call (used_among wants w c others)) }
{
    let gives = both(0 < effect.given.as_slice().len(), gathered.gives);
    let takes = both(0 < effect.taken, either(gathered.takes, needs.input));
    let makes = both(0 < effect.made, either(gathered.makes, needs.heap));
    pairs.push_if(row.result.is_some(), (call, Output::Result))?;
    pairs.push_if(gives, (call, Output::Gives))?;
    pairs.push_if(takes, (call, Output::Takes))?;
    pairs.push_if(makes, (call, Output::Makes))?;
    pairs.push_if(is_output(row.way), (call, Output::Way))?;
    Ok(())
}

/// Adds the outputs of a call that are used of it, where this is wanted after it and these outputs of its caller are.
pub(crate) fn add_used(
    pairs: &mut Pairs,
    gathered: Gathered,
    needs: &Needs,
    call: u32,
    row: &Call,
    effect: &Footprint,
) -> Result<(), Memory>
    requires inside { All (λ x. x.0 < 1048576) effect.now.changes }
    ensures { OnOk result ((c : meaning.Call) → IsEffectOfCall c effect.now → EndsAs c row.now → (w : Wanted)
        → AreWanted needs.now w → (wants : AnOutput → Bool) → AreGathered wants gathered
        → pairs.new ≡ pairs.old ++ with_number call (used_of wants w c)) }
{
    add_cells(pairs, &needs.cells, call, &effect.changes)?;
    add_others(pairs, gathered, needs, call, row, effect)?;
    Ok(())
}
