//! A pass back over the pieces of a call.
ghost use Rattle.std.specs.Prelude.{◌+◌, ◌<◌, ◌≡◌, All, IfOk, OnOk, Some, length};
ghost use Rattle.std.specs.List.{slice_get};
ghost use Rattle.core_program.specs.{Run.Call, Run.Marked, Run.Result as RunResult, State.State};
ghost use Rattle.output_slice.specs.{Children.children_in, Firsts.AreFirsts, KeptRuns.IsKept, KeptRuns.IsKeptRun};
ghost use Rattle.output_slice.specs.{KeptRuns.below_of, Needed.IsEffectOfCall, Passes.PassesCall, Passes.PassesChild};

use crate::found::Found;
use crate::needs::Needs;
use crate::used::{Gathered, add_used};
use cell_value::Memory;
use effect_log::{Footprint, effect};
use program_run::History;
use std::alloc::Global;

/// The effect of a call of the run.
pub(crate) fn effect_of(alloc: Global, run: &History, call: u32) -> Result<Footprint, Memory>
    requires kept { IsKept run.now }
    requires a_call { call < length run.now.calls.calls }
    ensures of_call { IfOk result (λ f. (r : RunResult State Call) → IsKeptRun run.now r → (e : Marked Call)
        → slice_get r.events call ≡ Some e → IsEffectOfCall e.event f) }
    ensures inside { IfOk result (λ f. All (λ x. x.0 < 1048576) f.changes) }
{
    let row = run.calls.call(call);
    let found = effect(
        alloc,
        &run.log,
        row.entry.mark,
        row.exit.mark,
        row.entry.top,
        row.entry.place,
    )?;
    Ok(found)
}

/// The calls that a call made, in order.
fn children(alloc: Global, run: &History, call: u32) -> Result<Vec<u32>, Memory>
    requires kept { IsKept run.now }
    requires a_call { call < length run.now.calls.calls }
    ensures { IfOk result (λ v. (r : RunResult State Call) → IsKeptRun run.now r → (e : Marked Call)
        → slice_get r.events call ≡ Some e → v.items ≡ children_in (call + 1) 0 (below_of r call e)) }
{
    // There are few calls.
    run.calls.are_numbered();
    let row = run.calls.call(call);
    let end = row.last + 1;
    let mut children = Vec::new(alloc);
    let mut next = call + 1;
    'below: while next < end {
        children.push(next)?;
        let made = run.calls.call(next);
        next = made.last + 1;
    }
    Ok(children)
}

/// Goes back over a call that was made, and adds the pairs that are used of it.
fn pass_child(
    alloc: Global,
    run: &History,
    child: u32,
    gathered: Gathered,
    needs: &mut Needs,
    found: &mut Found,
) -> Result<(), Memory>
    requires kept { IsKept run.now }
    requires a_call { child < length run.now.calls.calls }
    requires a_place { child < length found.old.firsts.items }
    ensures passed { OnOk result
        (PassesChild run.now child gathered (record { needs = needs.old; pairs = found.old.pairs })
        (record { needs = needs.new; pairs = found.new.pairs })) }
    ensures firsts { OnOk result (AreFirsts found.old.pairs found.old.firsts.items
        → AreFirsts found.new.pairs found.new.firsts.items) }
    ensures places { OnOk result (length found.new.firsts.items ≡ length found.old.firsts.items) }
{
    let row = run.calls.call(child);
    let effect = effect_of(alloc, run, child)?;
    let place = found.pairs.len();
    add_used(&mut found.pairs, gathered, needs, child, row, &effect)?;
    let is_used = place < found.pairs.len();
    found.note_first(child, place);
    needs.pass_call(&effect, is_used);
    Ok(())
}

/// Goes back over a call's own touches and the calls that it made, and adds the pairs that are used of these.
pub(crate) fn pass_call(
    alloc: Global,
    run: &History,
    call: u32,
    gathered: Gathered,
    needs: &mut Needs,
    found: &mut Found,
) -> Result<(), Memory>
    requires kept { IsKept run.now }
    requires a_call { call < length run.now.calls.calls }
    requires places { length found.old.firsts.items ≡ length run.now.calls.calls }
    ensures passed { OnOk result
        (PassesCall run.now call gathered (record { needs = needs.old; pairs = found.old.pairs })
        (record { needs = needs.new; pairs = found.new.pairs })) }
    ensures firsts { OnOk result (AreFirsts found.old.pairs found.old.firsts.items
        → AreFirsts found.new.pairs found.new.firsts.items) }
    ensures places { OnOk result (length found.new.firsts.items ≡ length found.old.firsts.items) }
{
    let row = run.calls.call(call);
    let children = children(alloc, run, call)?;
    let mut at = row.exit.mark;
    for i in (0..children.len()).rev() {
        let child = children[i];
        let made = run.calls.call(child);
        needs.pass_all(&run.log, made.exit.mark, at);
        pass_child(alloc, run, child, gathered, needs, found)?;
        at = made.entry.mark;
    }
    needs.pass_all(&run.log, row.entry.mark, at);
    Ok(())
}
