//! The state of a run beside a call, whole.

ghost use Rattle.std.specs.Prelude.{◌<◌, ◌≡◌, ◌≤◌, [], IfOk, length};
ghost use Rattle.eval_ops.specs.Machines.{machine_state};
ghost use Rattle.body_replay.specs.{Replays.before_of, Traces.kept_state};

use call_tree::Call;
use cell_value::{Items, Memory};
use edge_ports::Bytes;
use effect_log::Log;
use eval_ops::Machine;
use persistent_store::Store;
use program_run::{History, copy_items};
use std::alloc::Global;

/// A machine in the state before a call, by its row of the table of a run. Its log is empty.
pub(crate) fn machine_before(alloc: Global, run: &History, row: &Call) -> Result<Machine, Memory>
    requires output { row.now.entry.output ≤ length run.now.output }
    ensures before { IfOk result (λ m. machine_state m ≡ before_of row.now run.now) }
    ensures log { IfOk result (λ m. m.log ≡ []) }
    ensures few { IfOk result (λ m. length m.items < 4294967296) }
{
    let entry = &row.entry;
    let mut output = Bytes::new(alloc);
    output.append(&run.output.as_slice()[..entry.output as usize])?;
    let items = copy_items(alloc, &run.input)?;
    let store = entry.store.snapshot()?;
    Ok(Machine {
        store,
        log: Log::new(alloc),
        top: entry.top,
        fresh: entry.fresh,
        items,
        place: entry.place,
        output,
        steps: entry.steps,
        calls: entry.calls,
        depth: row.depth,
    })
}

/// The state of a run beside a call, whole.
#[derive(Drop)]
pub struct KeptState {
    /// The cells, by their addresses.
    pub store: Store,
    /// The first free address of the stack.
    pub top: u32,
    /// The first free address of the heap.
    pub fresh: u32,
    /// How many items of the input were taken.
    pub place: u32,
    /// The items of the input.
    pub input: Items,
    /// The bytes that were given out.
    pub output: Bytes,
    /// The steps that are left.
    pub steps: u32,
    /// The calls entered so far.
    pub calls: u32,
    /// The calls that are open.
    pub depth: u32,
}

/// The state of a machine, without its log.
pub(crate) fn keep_state(machine: Machine) -> KeptState
    ensures { kept_state result ≡ machine_state machine }
{
    let Machine {
        store,
        top,
        fresh,
        items,
        place,
        output,
        steps,
        calls,
        depth,
        ..
    } = machine;
    KeptState {
        store,
        top,
        fresh,
        place,
        input: items,
        output,
        steps,
        calls,
        depth,
    }
}
