//! The actions on a machine that take memory, each called once with ample memory; and a body from stop to stop.
ghost use Rattle.std.specs.Prelude.{IfOk};
ghost use Rattle.eval_ops.specs.Machines.{IsReady};

use crate::runs::program_of;
use cell_value::{Items, Memory, Value, WayOut};
use core_program::rows::{INTEGER, PartRow, Row};
use core_program::{Program, VariantPart};
use edge_ports::Bytes;
use effect_log::Log;
use eval_ops::{
    Halt, Machine, activate, drop_block, end_line, make_block, moved, read_cells, string_of,
    write_cell, write_cells, write_scalar, write_string,
};
use evaluator::{Body, Stop, go_on};
use persistent_store::Store;
use std::alloc::Global;
use std::test::Fail;

/// A record is the type 17. It has the cells `a`, the number of its variant from 1 on, `i` and `t`.
const TYPES: &[u8] = b"program p(output);
type c = (red, green);
  r = record a: integer; case c of red: (i: integer); green: (t: char) end;
begin writeln(7) end.";

/// The word `case`.
const CASE: u32 = 22;

/// The variant part of the record.
fn variants_of(program: &Program) -> Option<VariantPart> {
    match program.row(CASE) {
        Row::Part(
            PartRow::Variants {
                hidden,
                offset,
                cells,
                values,
                holder,
            },
        ) => Some(VariantPart {
            hidden,
            offset,
            cells,
            values,
            holder,
        }),
        _ => None,
    }
}

/// A machine without cells and input, with 1,000 steps.
fn blank_machine(alloc: Global) -> Machine
    ensures ready { IsReady result }
{
    Machine {
        store: Store::new(),
        log: Log::new(alloc),
        top: 0,
        fresh: 524_288,
        items: Items::new(alloc),
        place: 0,
        output: Bytes::new(alloc),
        steps: 1_000,
        calls: 0,
        depth: 0,
    }
}

/// Whether a text goes into two cells of the heap, and comes back; and an integer is written after it in a width.
fn text_holds(alloc: Global, machine: &mut Machine) -> Result<bool, Halt>
    requires ready { IsReady machine.old }
    ensures ready { IsReady machine.new }
{
    let text = string_of(alloc, b"bc")?;
    let block = make_block(alloc, machine, 2, INTEGER)?;
    write_cells(alloc, machine, block, &text)?;
    let held = read_cells(alloc, machine, block, 2)?;
    write_string(machine, &held, None)?;
    write_scalar(machine, INTEGER, Value::Number(-5), Some(Value::Number(4)))?;
    end_line(machine)?;
    let kept = held.as_slice() == [Value::Number(98), Value::Number(99)].as_slice();
    Ok(kept && machine.output.as_slice() == b"bc  -5\n".as_slice())
}

/// Whether a value for the tag of a record of the heap chooses a variant, and leaves no value in the cells of both; and
/// the record is gone once it is dropped.
fn record_holds(alloc: Global, program: &Program, machine: &mut Machine) -> Result<bool, Halt>
    requires ready { IsReady machine.old }
    ensures ready { IsReady machine.new }
{
    let Some(part) = variants_of(program) else {
        return Ok(false);
    };
    let block = make_block(alloc, machine, 4, 17)?;
    write_cell(alloc, machine, moved(block, 3), Value::Number(65))?;
    activate(
        alloc,
        program,
        machine,
        part,
        moved(block, 1),
        Value::Number(1),
    )?;
    let held = read_cells(alloc, machine, moved(block, 1), 3)?;
    drop_block(alloc, machine, block, 4)?;
    let wanted = [Value::Number(1), Value::Undefined, Value::Undefined];
    Ok(held.as_slice() == wanted.as_slice() && machine.store.get(block).is_none())
}

/// Whether the block stops at its line, and ends once it has written 7.
fn body_holds(alloc: Global, program: &Program, machine: &mut Machine) -> Result<bool, Memory>
    requires ready { IsReady machine.old }
{
    let mut body = Body::new(alloc, 0, 0);
    let first = go_on(&mut body, alloc, program, machine)?;
    let last = go_on(&mut body, alloc, program, machine)?;
    let stopped = matches!(first, Stop::Line(4))
        && matches!(last, Stop::Ended(WayOut::Returned, None));
    Ok(stopped && machine.output.as_slice().ends_with(b"\n7\n"))
}

/// Which of these hold, one after another.
fn actions_held(alloc: Global, program: &Program) -> Result<[bool; 3], Halt> {
    let mut machine = blank_machine(alloc);
    let text = text_holds(alloc, &mut machine)?;
    let record = record_holds(alloc, program, &mut machine)?;
    let body = body_holds(alloc, program, &mut machine)?;
    Ok([text, record, body])
}

#[test]
fn actions(rt: HostRuntime) -> Result<(), Fail> {
    let program = program_of(rt.alloc(), TYPES).expect(&rt, "a program");
    let held = actions_held(rt.alloc(), &program)?;
    assert!(rt; held == [true; 3], "{held:?}");
    Ok(())
}
