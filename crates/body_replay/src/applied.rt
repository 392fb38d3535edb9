//! The effect of a recorded call, put in place of its run.

ghost use Rattle.std.specs.Prelude.{◌++◌, ◌+◌, ◌<◌, ◌∷◌, ◌≡◌, [], All, OnOk, length};
ghost use Rattle.core_program.specs.Apply.{changed_cells};
ghost use Rattle.core_program.specs.Apply as effects;
ghost use Rattle.core_program.specs.Run as meaning;
ghost use Rattle.call_tree.specs.Told.{IsTold};
ghost use Rattle.eval_ops.specs.Machines.{IsReady, machine_state};
ghost use Rattle.body_replay.specs.{Counting.changes_in, Records.HasRoomFor, Records.IsRecordOf};

use call_tree::Call;
use cell_value::{Change, Memory, Steps};
use effect_log::{Changes, Footprint, Log, effect};
use eval_ops::Machine;
use persistent_store::Store;
use std::alloc::Global;

/// What nodes of a store are counted by where nobody asks.
struct Nodes;

/// Sets or removes the value at an address.
fn change_cell(alloc: Global, store: &mut Store, addr: u32, change: Change) -> Result<(), Memory>
    requires { addr < 1048576 }
    ensures { OnOk result (store.new ≡ changed_cells ((addr, change) ∷ []) store.old) }
{
    let mut made = Steps::<Nodes>::new();
    match change {
        Change::Set(value) => {
            store.put(alloc, addr, value, &mut made)?;
            Ok(())
        }
        Change::Gone => {
            store.remove(alloc, addr, &mut made)?;
            Ok(())
        }
    }
}

/// Makes changes, with a step for each.
pub(crate) fn change_cells<L>(
    alloc: Global,
    store: &mut Store,
    changes: &Changes,
    steps: &mut Steps<L>,
) -> Result<(), Memory>
    requires { All (λ x. x.0 < 1048576) changes.now }
    ensures changed { OnOk result (store.new ≡ changed_cells changes.now store.old) }
    ensures counted { OnOk result (steps.new ≡ steps.old + length changes.now) }
{
    'changes: for i in 0..changes.len() {
        let (addr, change) = changes.at(i);
        change_cell(alloc, store, addr, change)?;
        steps.tick();
    }
    Ok(())
}

/// Puts an effect in place of a run, but for the counts of steps and calls.
fn apply_effect<L>(
    alloc: Global,
    machine: &mut Machine,
    found: &Footprint,
    steps: &mut Steps<L>,
) -> Result<(), Memory>
    requires addresses { All (λ x. x.0 < 1048576) found.now.changes }
    requires fresh { machine.old.fresh + found.now.made < 4294967296 }
    requires place { machine.old.place + found.now.taken < 4294967296 }
    ensures applied { OnOk result (machine_state machine.new ≡ record (machine_state machine.old) {
      cells = changed_cells found.now.changes machine.old.store;
      fresh = machine.old.fresh + found.now.made;
      place = machine.old.place + found.now.taken;
      output = machine.old.output ++ found.now.given;
    }) }
    ensures log { machine.new.log ≡ machine.old.log }
    ensures counted { OnOk result (steps.new ≡ steps.old + length found.now.changes) }
{
    change_cells(alloc, &mut machine.store, &found.changes, steps)?;
    machine.fresh += found.made;
    machine.place += found.taken;
    machine.output.append(found.given.as_slice())?;
    Ok(())
}

/// Puts the effect of a recorded call in place of its run: the machine does what the call did, and nothing of it is put
/// into the machine's log. `number` is that of the call, and `log` the log of the run. Each change of a cell takes a
/// step.
pub fn apply<L>(
    alloc: Global,
    machine: &mut Machine,
    log: &Log,
    call: &Call,
    number: u32,
    steps: &mut Steps<L>,
) -> Result<(), Memory>
    requires ready { IsReady machine.old }
    requires told { IsTold log.now machine.old.items call.now }
    requires recorded { (c : meaning.Call) × IsRecordOf log.now number call.now c × HasRoomFor c
        (machine_state machine.old) }
    ensures applied { (c : meaning.Call) → IsRecordOf log.now number call.now c
        → OnOk result (machine_state machine.new ≡ effects.apply c (machine_state machine.old)) }
    ensures ready { OnOk result (IsReady machine.new) }
    ensures counted { OnOk result (steps.new ≡ steps.old + changes_in log.now call.now) }
{
    let entry = &call.entry;
    let found = effect(
        alloc,
        log,
        entry.mark,
        call.exit.mark,
        entry.top,
        entry.place,
    )?;
    apply_effect(alloc, machine, &found, steps)?;
    machine.steps = machine
        .steps
        .saturating_sub(entry.steps.saturating_sub(call.exit.steps));
    machine.calls += call.last - number + 1;
    Ok(())
}
