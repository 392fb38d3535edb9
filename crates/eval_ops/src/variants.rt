//! Fields of variants, and which variant of a record is the active one.

ghost use Rattle.std.specs.Prelude.{◌≡◌};
ghost use Rattle.core_program.specs.Actions.{performs};
ghost use Rattle.core_program.specs.Variants as action;
ghost use Rattle.eval_ops.specs.Machines.{DoesAll, IsReady, machine_state, moment_of};

use crate::cells::assign;
use crate::frames::moved;
use crate::halt::{Halt, passed_test};
use crate::machine::{Machine, read_cell, write_cell};
use crate::values::test;
use cell_value::{Kind, Value};
use core_program::rows::{AccessRow, NameRow, PartRow, Row, TypeRow};
use core_program::{Program, VariantPart};
use std::alloc::Global;

/// What the row of a variant part says.
fn part_in(row: Row) -> Option<VariantPart>
    ensures { result ≡ action.part_in row }
{
    match row {
        Row::Part(
            PartRow::Variants {
                hidden,
                offset,
                cells,
                values,
                holder,
            },
        ) => Some(VariantPart {
            hidden,
            offset,
            cells,
            values,
            holder,
        }),
        _ => None,
    }
}

/// A variant: its variant part, and its position there, from 1. There is none where the part is not there.
fn at_position(part: Option<VariantPart>, position: u32) -> Option<Option<(VariantPart, u32)>>
    ensures { result ≡ action.at_position part position }
{
    match part {
        Some(part) => Some(Some((part, position))),
        None => None,
    }
}

/// The variant that a holder of fields is, if it is one. A record holds the fields of its fixed part. What is neither
/// holds no fields, and there is no answer.
fn variant_at(program: &Program, holder: u32) -> Option<Option<(VariantPart, u32)>>
    ensures { result ≡ action.variant_at program.now holder }
{
    match program.row(holder) {
        Row::Part(PartRow::Variant { variants, position }) => at_position(
            part_in(program.row(variants)),
            position,
        ),
        Row::Type(TypeRow::Record { .. }) => Some(None),
        _ => None,
    }
}

/// The position of the variant of a row, if the row is that of one.
fn position_in(row: Row) -> Option<Option<i64>>
    ensures { result ≡ action.position_in row }
{
    match row {
        Row::Part(PartRow::Variant { position, .. }) => Some(Some(i64::from(position))),
        _ => None,
    }
}

/// The position of the variant that was found, if one was.
fn position_at(program: &Program, variant: Option<Option<u32>>) -> Option<Option<i64>>
    ensures { result ≡ action.position_at program.now variant }
{
    match variant {
        Some(Some(variant)) => position_in(program.row(variant)),
        Some(None) => Some(None),
        None => None,
    }
}

/// The position of the variant that a tag with a value chooses, if it chooses one. There is no answer where the tables
/// are not whole.
fn chosen_position(program: &Program, part: VariantPart, tag: Value) -> Option<Option<i64>>
    ensures { result ≡ action.chosen program.now part tag }
{
    match tag {
        Value::Number(number) => {
            if part.hidden {
                Some(Some(number))
            } else {
                position_at(program, program.choice_of(part.values, number))
            }
        }
        _ => Some(None),
    }
}

/// Whether a position is this one.
fn is_at(chosen: Option<i64>, position: u32) -> bool
    ensures { result ≡ action.is_at chosen position }
{
    match chosen {
        Some(chosen) => chosen == i64::from(position),
        None => false,
    }
}

/// Whether another variant is chosen than before, or none was.
fn changes(before: Option<i64>, now: Option<i64>) -> bool
    ensures { result ≡ action.changes before now }
{
    match (before, now) {
        (None, _) => true,
        (Some(_), None) => false,
        (Some(before), Some(now)) => before != now,
    }
}

/// This many cells from an address on become undefined.
fn undefine_cells(alloc: Global, machine: &mut Machine, addr: u32, cells: u32) -> Result<(), Halt>
    requires ready { IsReady machine.old }
    ensures action { DoesAll (λ _. tt) (performs (action.undefine_cells addr cells) (machine_state machine.old)) result
        (moment_of machine.old) (moment_of machine.new) }
    ensures ready { IsReady machine.new }
{
    let mut at = addr;
    'cells: for _ in 0..cells {
        write_cell(alloc, machine, at, Value::Undefined)?;
        at = moved(at, 1);
    }
    Ok(())
}

/// The same, where a test asks for it.
fn undefine_if(
    alloc: Global,
    machine: &mut Machine,
    asked: bool,
    addr: u32,
    cells: u32,
) -> Result<(), Halt>
    requires ready { IsReady machine.old }
    ensures action { DoesAll (λ _. tt) (performs (action.undefine_if asked addr cells) (machine_state machine.old))
        result (moment_of machine.old) (moment_of machine.new) }
    ensures ready { IsReady machine.new }
{
    if asked {
        return undefine_cells(alloc, machine, addr, cells);
    }
    Ok(())
}

/// The same, where another variant is chosen than before, or none was; `Memory` where it is not known which.
fn undefine_changed(
    alloc: Global,
    machine: &mut Machine,
    before: Option<Option<i64>>,
    now: Option<Option<i64>>,
    addr: u32,
    cells: u32,
) -> Result<(), Halt>
    requires ready { IsReady machine.old }
    ensures action { DoesAll (λ _. tt) (performs (action.answered before (λ was. action.answered now (λ is.
        action.undefine_if (action.changes was is) addr cells))) (machine_state machine.old)) result
        (moment_of machine.old) (moment_of machine.new) }
    ensures ready { IsReady machine.new }
{
    match (before, now) {
        (Some(before), Some(now)) => {
            undefine_if(alloc, machine, changes(before, now), addr, cells)
        }
        _ => Err(Halt::Memory),
    }
}

/// Puts a value into the tag of a variant part, whose cell is at an address (6.5.3.3). It is read before. Where another
/// variant is chosen then, or none was chosen before, every cell of the variants becomes undefined.
pub fn activate(
    alloc: Global,
    program: &Program,
    machine: &mut Machine,
    part: VariantPart,
    addr: u32,
    tag: Value,
) -> Result<(), Halt>
    requires ready { IsReady machine.old }
    ensures action { DoesAll (λ _. tt) (performs (action.activate program.now part addr tag)
        (machine_state machine.old)) result (moment_of machine.old) (moment_of machine.new) }
    ensures ready { IsReady machine.new }
{
    let before = read_cell(machine, addr)?;
    write_cell(alloc, machine, addr, tag)?;
    undefine_changed(
        alloc,
        machine,
        chosen_position(program, part, before),
        chosen_position(program, part, tag),
        moved(addr, 1),
        part.cells,
    )?;
    Ok(())
}

/// What is done with a variant, whose tag is at an address, by whether it is the chosen one.
fn activate_unless(
    alloc: Global,
    program: &Program,
    machine: &mut Machine,
    target: bool,
    variant: (VariantPart, u32),
    addr: u32,
    active: bool,
) -> Result<(), Halt>
    requires ready { IsReady machine.old }
    ensures action { DoesAll (λ _. tt)
        (performs (action.or_activated program.now target variant.0 variant.1 addr active) (machine_state machine.old))
        result (moment_of machine.old) (moment_of machine.new) }
    ensures ready { IsReady machine.new }
{
    if active {
        return Ok(());
    }
    let (part, position) = variant;
    if target && part.hidden {
        return activate(
            alloc,
            program,
            machine,
            part,
            addr,
            Value::Number(i64::from(position)),
        );
    }
    Err(Halt::Fault(Kind::InactiveVariant))
}

/// The same, by the position of the chosen one; `Memory` where that is not known.
fn activate_unless_at(
    alloc: Global,
    program: &Program,
    machine: &mut Machine,
    target: bool,
    variant: (VariantPart, u32),
    addr: u32,
    now: Option<Option<i64>>,
) -> Result<(), Halt>
    requires ready { IsReady machine.old }
    ensures action { DoesAll (λ _. tt) (performs (action.answered now (λ is. action.or_activated program.now target
        variant.0 variant.1 addr (action.is_at is variant.1))) (machine_state machine.old)) result
        (moment_of machine.old) (moment_of machine.new) }
    ensures ready { IsReady machine.new }
{
    match now {
        Some(now) => {
            let active = is_at(now, variant.1);
            activate_unless(alloc, program, machine, target, variant, addr, active)
        }
        None => Err(Halt::Memory),
    }
}

/// Reads and tests the tag before a variant of the record variable at an address.
fn enter(
    alloc: Global,
    program: &Program,
    machine: &mut Machine,
    target: bool,
    addr: u32,
    variant: (VariantPart, u32),
) -> Result<(), Halt>
    requires ready { IsReady machine.old }
    ensures action { DoesAll (λ _. tt) (performs (action.variant_entered program.now target addr variant.0 variant.1)
        (machine_state machine.old)) result (moment_of machine.old) (moment_of machine.new) }
    ensures ready { IsReady machine.new }
{
    let (part, _) = variant;
    let cell = moved(addr, part.offset);
    let tag = read_cell(machine, cell)?;
    let now = chosen_position(program, part, tag);
    activate_unless_at(alloc, program, machine, target, variant, cell, now)?;
    Ok(())
}

/// Reads and tests the tags around what a holder holds, the outermost first. A holder stands before what it holds.
fn enter_all(
    alloc: Global,
    program: &Program,
    machine: &mut Machine,
    target: bool,
    addr: u32,
    most: u64,
    holder: u32,
) -> Result<(), Halt>
    requires ready { IsReady machine.old }
    ensures action { DoesAll (λ _. tt) (performs (action.all_entered program.now target addr most holder)
        (machine_state machine.old)) result (moment_of machine.old) (moment_of machine.new) }
    ensures ready { IsReady machine.new }
{
    if most == 0 {
        return Err(Halt::Memory);
    }
    match variant_at(program, holder) {
        Some(Some(variant)) => {
            if variant.0.holder >= holder {
                return Err(Halt::Memory);
            }
            enter_all(
                alloc,
                program,
                machine,
                target,
                addr,
                most - 1,
                variant.0.holder,
            )?;
            enter(alloc, program, machine, target, addr, variant)?;
            Ok(())
        }
        Some(None) => Ok(()),
        None => Err(Halt::Memory),
    }
}

/// The place of a field in its record, and the number of the record or the variant that holds it.
fn field_in(row: Row) -> Option<(u32, u32)>
    ensures { result ≡ action.field_in row }
{
    match row {
        Row::Name(NameRow::Field { offset, holder, .. }) => Some((offset, holder)),
        Row::Name(NameRow::Tag { offset, holder, .. }) => Some((offset, holder)),
        _ => None,
    }
}

/// The field of this row of the record variable at an address (6.5.3.3). The tags of the variant parts around it are
/// read, the outermost first, and each is tested before the next: where it does not choose the variant that holds the
/// field, it is the fault `InactiveVariant`. In a target access a variant of a part without a tag field is activated
/// instead. What is no field, or stands in tables that are not whole, counts as out of memory.
pub fn field_at(
    alloc: Global,
    program: &Program,
    machine: &mut Machine,
    target: bool,
    addr: u32,
    row: Row,
) -> Result<u32, Halt>
    requires ready { IsReady machine.old }
    ensures action { DoesAll (λ a. a) (performs (action.field_at program.now target addr row)
        (machine_state machine.old)) result (moment_of machine.old) (moment_of machine.new) }
    ensures ready { IsReady machine.new }
{
    match field_in(row) {
        Some((offset, holder)) => {
            let most = u64::from(holder) + 1;
            enter_all(alloc, program, machine, target, addr, most, holder)?;
            Ok(moved(addr, offset))
        }
        None => Err(Halt::Memory),
    }
}

/// A variant part before the tag field that chooses in it.
fn tag_before(part: Option<VariantPart>) -> Option<Option<VariantPart>>
    ensures { result ≡ action.tag_before part }
{
    match part {
        Some(part) => Some(Some(part)),
        None => None,
    }
}

/// The variant part whose tag field stands at a row, if that is a tag field. There is no answer where it is no field.
fn tag_of(program: &Program, row: Row) -> Option<Option<VariantPart>>
    ensures { result ≡ action.tag_of program.now row }
{
    match row {
        Row::Name(NameRow::Tag { variants, .. }) => tag_before(part_in(program.row(variants))),
        Row::Name(NameRow::Field { .. }) => Some(None),
        _ => None,
    }
}

/// The variant part whose tag field the access of this row denotes, if it denotes one. There is no answer where the
/// row is no access, or the tables are not whole.
pub fn tag_accessed(program: &Program, row: Row) -> Option<Option<VariantPart>>
    ensures { result ≡ action.tag_accessed program.now row }
{
    match row {
        Row::Access(AccessRow::Within { field, .. }) => tag_of(program, program.row(field)),
        Row::Access(AccessRow::Field { field, .. }) => tag_of(program, program.row(field)),
        Row::Access(_) => Some(None),
        _ => None,
    }
}

/// Puts a value into the tag field of a variant part, after the test for its type.
fn assign_tag(
    alloc: Global,
    program: &Program,
    machine: &mut Machine,
    part: VariantPart,
    kind: Option<TypeRow>,
    addr: u32,
    value: Value,
) -> Result<(), Halt>
    requires ready { IsReady machine.old }
    ensures action { DoesAll (λ _. tt) (performs (action.assign_tag program.now part kind addr value)
        (machine_state machine.old)) result (moment_of machine.old) (moment_of machine.new) }
    ensures ready { IsReady machine.new }
{
    let tested = passed_test(test(program, kind, value))?;
    activate(alloc, program, machine, part, addr, tested)?;
    Ok(())
}

/// Puts a value into the variable of a type of one cell that an access denotes, after the test for the type: of a value
/// that does not pass it is the fault, and nothing is read or written. `tag` is the variant part whose tag field it is,
/// if it is one: the value then chooses a variant. Where it is not known, that counts as out of memory.
pub fn assign_to(
    alloc: Global,
    program: &Program,
    machine: &mut Machine,
    tag: Option<Option<VariantPart>>,
    kind: Option<TypeRow>,
    addr: u32,
    value: Value,
) -> Result<(), Halt>
    requires ready { IsReady machine.old }
    ensures action { DoesAll (λ _. tt) (performs (action.assign_to program.now tag kind addr value)
        (machine_state machine.old)) result (moment_of machine.old) (moment_of machine.new) }
    ensures ready { IsReady machine.new }
{
    match tag {
        Some(Some(part)) => assign_tag(alloc, program, machine, part, kind, addr, value),
        Some(None) => assign(alloc, program, machine, kind, addr, value),
        None => Err(Halt::Memory),
    }
}
