//! The run of a program, the work of its calls done again, and what is told of them.
ghost use Rattle.std.specs.Prelude.{◌<◌, ◌≡◌, ◌≤◌, [], ℕ, IfOk, IsTrue, List, length};
ghost use Rattle.core_program.specs.{ProgramRows.frame_of, RunLaws.most_bytes, State.stack_end};
ghost use Rattle.program_run.specs.History.{IsOfRun};

use crate::searches::searches_hold;
use answer_reuse::Classes;
use body_replay::{KeptState, Trace, entry_of, replay, transplant};
use call_tree::{Call, Event, Events, Side};
use cell_value::{Cells, Memory, Steps, Value, WayOut};
use code_checker::{check_tokens, read_tokens};
use core_program::Program;
use output_slice::{Output, slice};
use pas_lexer::MAX_SOURCE_BYTES;
use persistent_store::Store;
use program_run::{History, run, run_from};
use reference_oracle::{Reference, Verdict};
use std::alloc::Global;
use std::test::Fail;

/// The frame of the block stands at 0, with `x` at 1; that of `next` at 2, with its parameter at 3; and that of `one`
/// at 4, with its result at 5.
const ADD: &[u8] = b"program add(input, output);
var x: integer;
function one: integer;
begin
  one := 1
end;
procedure next(var y: integer);
begin
  y := y + one
end;
begin
  read(x);
  next(x);
  writeln(x)
end.
";

const INPUT: &[u8] = b"41\n";

/// What is kept of a state beside a call, without its cells: the entries of the log, the first free addresses of the
/// stack and of the heap, the place in the input, the bytes of the output, the steps that are left, and the calls.
type Beside = [u32; 7];

fn numbers_of(side: &Side) -> Beside {
    let Side {
        mark,
        top,
        fresh,
        place,
        output,
        steps,
        calls,
        store: _,
    } = side;
    [*mark, *top, *fresh, *place, *output, *steps, *calls]
}

/// What is kept of a call that returned, and what happens when it is done again: in its body, to `x`, and to the
/// output.
struct Kept {
    routine: u32,
    parent: Option<u32>,
    depth: u32,
    args: &'static [Value],
    entry: Beside,
    exit: Beside,
    answer: Option<Value>,
    events: &'static [Event],
    x: Option<Value>,
    given: &'static [u8],
}

/// A step is taken by each touch, and by each cell of a frame, statement part, statement, name, operator, designator
/// and constant. The log has 6 touches before `next`, 3 of it before `one`, 2 of that, 2 more of `next`, and 4 of the
/// block.
const CALLS: [Kept; 3] = [
    Kept {
        routine: 0,
        parent: None,
        depth: 0,
        args: &[Value::Nil],
        entry: [0, 0, 524_288, 0, 0, 1_000, 0],
        exit: [17, 0, 524_288, 2, 3, 960, 3],
        answer: None,
        events: &[
            Event::Line(12),
            Event::Line(13),
            Event::Child(1),
            Event::Line(14),
        ],
        x: None,
        given: b"42\n",
    },
    Kept {
        routine: 2,
        parent: Some(0),
        depth: 1,
        args: &[Value::Frame(0), Value::Place(1)],
        entry: [6, 2, 524_288, 2, 0, 987, 1],
        exit: [13, 2, 524_288, 2, 0, 966, 3],
        answer: None,
        events: &[Event::Line(9), Event::Child(2)],
        x: Some(Value::Number(42)),
        given: b"",
    },
    Kept {
        routine: 1,
        parent: Some(1),
        depth: 2,
        args: &[Value::Frame(0)],
        entry: [9, 4, 524_288, 2, 0, 977, 2],
        exit: [11, 4, 524_288, 2, 0, 969, 3],
        answer: Some(Value::Number(1)),
        events: &[Event::Line(5)],
        x: Some(Value::Number(41)),
        given: b"",
    },
];

/// The program of a source, if it is one.
pub fn program_of(alloc: Global, source: &[u8]) -> Option<Program> {
    if source.len() > MAX_SOURCE_BYTES {
        return None;
    }
    let tokens = read_tokens(alloc, source).ok()?;
    check_tokens(alloc, &tokens).ok()
}

/// The run of a program: its calls were all left.
fn history_of(alloc: Global, program: &Program, input: &[u8]) -> Result<History, Memory>
    requires short { length input.now ≤ most_bytes }
    ensures ran { IfOk result (λ h. (input : List ℕ) × (length input ≤ most_bytes)
        × IsOfRun program.now input h.budget h) }
    ensures all_left { IfOk result (λ h. h.calls.open_calls ≡ []) }
    ensures some_steps { IfOk result (λ h. 0 < h.budget) }
    ensures budget { IfOk result (λ h. h.budget ≤ 4000000) }
{
    let history = run(alloc, program, input, 1_000)?;
    Ok(history)
}

/// Whether a call is recorded as it is wanted.
fn is_recorded(call: &Call, kept: &Kept) -> bool {
    let stands = call.routine == kept.routine
        && call.parent == kept.parent
        && call.depth == kept.depth
        && call.last == 2;
    let ended = call.way == WayOut::Returned && call.result == kept.answer;
    let sides = numbers_of(&call.entry) == kept.entry && numbers_of(&call.exit) == kept.exit;
    stands && ended && sides && call.args.as_slice() == kept.args
}

fn events_hold(events: &Events, wanted: &[Event]) -> bool {
    'events: for at in 0..events.len() {
        if wanted.get(at as usize).copied() != Some(events.at(at)) {
            return false;
        }
    }
    events.len() as usize == wanted.len()
}

/// Whether a state is the one after a call. How much stands in the log and in the output before it is not kept there.
fn exit_holds(exit: &KeptState, kept: &Kept) -> bool {
    let [_, top, fresh, place, _, steps, calls] = kept.exit;
    let free = exit.top == top && exit.fresh == fresh && exit.place == place;
    let counts = exit.steps == steps && exit.calls == calls && exit.depth == kept.depth;
    free && counts && exit.store.get(1) == kept.x && exit.output.as_slice() == kept.given
}

fn trace_holds(trace: &Trace, kept: &Kept) -> bool {
    let ended = trace.way == WayOut::Returned && trace.result == kept.answer;
    ended && events_hold(&trace.events, kept.events) && exit_holds(&trace.exit, kept)
}

/// Does a call again, and puts it in place of its run from its own entry; and says whether both leave its exit.
fn repeats(
    alloc: Global,
    program: &Program,
    history: &History,
    number: u32,
    kept: &Kept,
) -> Result<bool, Memory>
    requires ran { (input : List ℕ) × (length input ≤ most_bytes)
        × IsOfRun program.now input history.now.budget history.now }
    requires budget { history.now.budget ≤ 4000000 }
    requires call { number < length history.now.calls.calls }
{
    let mut steps = Steps::<()>::new();
    let trace = replay(alloc, program, history, number, &mut steps)?;
    let entry = entry_of(alloc, program, history, number)?;
    let carried = transplant(alloc, program, history, number, &entry)?;
    let same = match &carried {
        Some(exit) => exit_holds(exit, kept),
        None => false,
    };
    Ok(same && trace_holds(&trace, kept))
}

/// Whether the calls are those of the block, of `next` and of `one`, and each does again what it did.
fn calls_hold(alloc: Global, program: &Program, history: &History) -> Result<bool, Memory>
    requires ran { (input : List ℕ) × (length input ≤ most_bytes)
        × IsOfRun program.now input history.now.budget history.now }
    requires budget { history.now.budget ≤ 4000000 }
{
    'calls: for number in 0..history.calls.len() {
        let Some(kept) = CALLS.get(number as usize) else {
            return Ok(false);
        };
        if !is_recorded(history.calls.call(number), kept)
            || !repeats(alloc, program, history, number, kept)?
        {
            return Ok(false);
        }
    }
    Ok(history.calls.len() == 3)
}

/// Whether the frame of the block fits on the stack.
fn block_fits(program: &Program) -> bool
    ensures { IsTrue result → frame_of program.now 0 ≤ stack_end }
{
    match program.routine(0) {
        Some(block) => block.cells <= 524_288,
        None => false,
    }
}

/// Whether the block, called from a state without cells, does what it did in the run.
fn block_holds(alloc: Global, program: &Program, history: &History) -> Result<bool, Memory> {
    // There is a block.
    program.is_whole();
    if !block_fits(program) {
        return Ok(false);
    }
    let entry = Side {
        mark: 0,
        top: 0,
        fresh: 524_288,
        place: 0,
        output: 0,
        steps: 1_000,
        calls: 0,
        store: Store::new(),
    };
    let mut link = Cells::new(alloc);
    link.push(Value::Nil)?;
    let again = run_from(alloc, program, 0, &link, entry, 0, &history.input)?;
    Ok(again.calls.len() == 3 && again.output.as_slice() == b"42\n".as_slice())
}

/// Whether no two of the three calls are alike, since each is one of another routine.
fn classes_hold(alloc: Global, program: &Program, history: &History) -> Result<bool, Fail>
    requires ran { (input : List ℕ) × (length input ≤ most_bytes)
        × IsOfRun program.now input history.now.budget history.now }
    requires budget { history.now.budget ≤ 4000000 }
{
    let classes = Classes::new(alloc, program, history)?;
    'calls: for call in 0..classes.len() {
        if classes.least(call) != call || classes.next(call).is_some() || classes.size(call) != 1 {
            return Ok(false);
        }
    }
    Ok(classes.len() == 3)
}

/// Whether `next` leaves `x` with what it read there itself and with the value of `one`.
fn slice_holds(alloc: Global, program: &Program, history: &History) -> Result<bool, Fail>
    requires ran { (input : List ℕ) × (length input ≤ most_bytes)
        × IsOfRun program.now input history.now.budget history.now }
    requires budget { history.now.budget ≤ 4000000 }
{
    if history.calls.len() != 3 {
        return Ok(false);
    }
    let slicing = slice(alloc, program, history, 1, Output::Cell(1))?;
    Ok(
        slicing.len() == 2
            && slicing.pair(0) == (1, Output::Cell(1))
            && slicing.pair(1) == (2, Output::Result),
    )
}

/// In it `next` adds 2.
const RIGHT: &[u8] = b"program right(output);
var x: integer;
function one: integer;
begin
  one := 2 - 1
end;
procedure next(var y: integer);
begin
  y := y + one + one
end;
begin
end.
";

/// What it says of the block, which is no routine of both, and of the routines.
const VERDICTS: [Verdict; 3] = [Verdict::Unfit, Verdict::Wrong, Verdict::Right];

fn verdicts_hold(alloc: Global, program: &Program, history: &History) -> Result<bool, Fail>
    requires ran { (input : List ℕ) × (length input ≤ most_bytes)
        × IsOfRun program.now input history.now.budget history.now }
    requires some_steps { 0 < history.now.budget }
    requires budget { history.now.budget ≤ 4000000 }
{
    let right = Reference::read(alloc, RIGHT)?;
    'calls: for call in 0..history.calls.len() {
        let verdict = right.judge(alloc, program, history, call)?;
        if VERDICTS.get(call as usize).copied() != Some(verdict) {
            return Ok(false);
        }
    }
    Ok(history.calls.len() == 3)
}

/// Which of these hold of the run of the program.
fn run_holds(alloc: Global, program: &Program) -> Result<[bool; 7], Fail> {
    let history = history_of(alloc, program, INPUT)?;
    let given = history.output.as_slice() == b"42\n".as_slice();
    let calls = calls_hold(alloc, program, &history)?;
    let block = block_holds(alloc, program, &history)?;
    let classes = classes_hold(alloc, program, &history)?;
    let sliced = slice_holds(alloc, program, &history)?;
    let verdicts = verdicts_hold(alloc, program, &history)?;
    let searches = searches_hold(alloc, &history.calls)?;
    Ok([given, calls, block, classes, sliced, verdicts, searches])
}

#[test]
fn a_run_and_its_calls_again(rt: HostRuntime) -> Result<(), Fail> {
    let program = program_of(rt.alloc(), ADD).expect(&rt, "a program");
    let held = run_holds(rt.alloc(), &program)?;
    assert!(rt; held == [true; 7], "{held:?}");
    Ok(())
}
