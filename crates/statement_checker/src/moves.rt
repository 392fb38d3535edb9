//! The required procedures of pointers and of packed arrays: new, dispose, pack and unpack (6.6.5.3, 6.6.5.4).

ghost use Rattle.std.specs.Prelude.{◌≡◌, map};
ghost use Rattle.pas_tree.specs.StatementTrees.{actual_tree, actuals_tree, held_actuals_tree, next_actual_tree};
ghost use Rattle.check_steps.specs.Steps.{Does};
ghost use Rattle.statement_checker.specs.Moves.{assignable_or, component_type_in, dispose_one, domain_in, domain_of};
ghost use Rattle.statement_checker.specs.Moves.{domain_or, index_in, is_array, is_index_of, is_like, is_made};
ghost use Rattle.statement_checker.specs.Moves.{is_pointer, move_checked, new_one, new_variable, operand_actual};
ghost use Rattle.statement_checker.specs.Moves.{pack_call, pack_row, pack_some, pack_three, pointer_call, pointer_one};
ghost use Rattle.statement_checker.specs.Moves.{pointer_some, same_or, three, unpack_three};

use crate::actuals::{RequiredCall, check_plain, check_without_actuals, check_wrong_number};
use crate::sequences::put_statement;
use crate::transfers::is_access;
use check_steps::{Tables, Work};
use core_program::rows::{StatementRow, TypeRow};
use expression_checker::Typed;
use expression_checker::selectors::type_row;
use kind_checker::ExpressionType;
use kind_checker::operators::is_unknown_shape;
use kind_checker::shapes::{is_assignable, is_same_type, shape_of};
use kind_checker::sizes::MOST_CELLS;
use pas_tree::first_of_expression;
use pas_tree::statements::{Actual, Actuals, NextActual};

/// An actual parameter that is checked.
#[derive(Clone, Copy)]
pub struct CheckedActual {
    /// Its first token.
    pub first: u32,
    pub value: Typed,
}

fn domain_in(row: Option<TypeRow>) -> Option<u32>
    ensures { result ≡ domain_in row }
{
    match row {
        Some(TypeRow::Pointer { domain }) => Some(domain),
        _ => None,
    }
}

fn domain_or(domain: Option<u32>, otherwise: u32) -> u32
    ensures { result ≡ domain_or domain otherwise }
{
    match domain {
        Some(domain) => domain,
        None => otherwise,
    }
}

fn domain_of(tables: &Tables, value: Typed) -> u32
    ensures { result ≡ domain_of tables.now value }
{
    domain_or(domain_in(type_row(tables, value.of)), value.row)
}

fn is_pointer(tables: &Tables, value: Typed) -> bool
    ensures { result ≡ is_pointer tables.now value }
{
    is_unknown_shape(shape_of(tables, value.of)) || domain_in(type_row(tables, value.of)).is_some()
}

fn is_made(tables: &Tables, value: Typed) -> bool
    ensures { result ≡ is_made tables.now value }
{
    is_unknown_shape(shape_of(tables, value.of))
        || (is_access(value.location) && domain_in(type_row(tables, value.of)).is_some())
}

#[tactic(auto, using(check_steps::proofs::Runs::steps), unfolding(crate::specs::Moves::new_variable))]
fn check_made(work: &mut Work, first: u32, value: Typed) -> u32
    ensures { Does (new_variable first value) result work.old work.new }
{
    let fine = is_made(&work.tables, value);
    work.late(32, first, fine);
    let domain = domain_of(&work.tables, value);
    let cells = work.tables.program().size_of(domain);
    work.too_big(first, cells <= MOST_CELLS);
    domain
}

#[tactic(auto, using(check_steps::proofs::Runs::steps), unfolding(crate::specs::Moves::new_one))]
fn check_new(work: &mut Work, a: &Actual, frame: u32, call: RequiredCall) -> u32
    ensures { Does (new_one frame call (actual_tree a.now)) result work.old work.new }
{
    let value = check_plain(work, a, frame);
    let of = check_made(work, first_of_expression(&a.expression), value);
    let row = StatementRow::New {
        line: call.line,
        access: value.row,
        of,
    };
    put_statement(work, call.name, row)
}

#[tactic(auto, using(check_steps::proofs::Runs::steps), unfolding(crate::specs::Moves::dispose_one))]
fn check_dispose(work: &mut Work, a: &Actual, frame: u32, call: RequiredCall) -> u32
    ensures { Does (dispose_one frame call (actual_tree a.now)) result work.old work.new }
{
    let value = check_plain(work, a, frame);
    let fine = is_pointer(&work.tables, value);
    work.late(32, first_of_expression(&a.expression), fine);
    let of = domain_of(&work.tables, value);
    let row = StatementRow::Dispose {
        line: call.line,
        value: value.row,
        of,
    };
    put_statement(work, call.name, row)
}

fn check_pointer_one(
    work: &mut Work,
    a: &Actual,
    frame: u32,
    making: bool,
    call: RequiredCall,
) -> u32
    ensures { Does (pointer_one making frame call (actual_tree a.now)) result work.old work.new }
{
    if making {
        check_new(work, a, frame, call)
    } else {
        check_dispose(work, a, frame, call)
    }
}

fn check_pointer_some(
    work: &mut Work,
    a: &Actuals,
    frame: u32,
    making: bool,
    call: RequiredCall,
    one: bool,
) -> u32
    ensures { Does (pointer_some making frame call (actuals_tree a.now) one) result work.old work.new }
{
    if one {
        check_pointer_one(work, &a.first, frame, making, call)
    } else {
        check_wrong_number(work, a, frame, call.name)
    }
}

/// A call of new if it makes a variable, and else of dispose.
#[tactic(auto, using(crate::proofs::Walks::actuals_counted))]
pub(crate) fn check_pointer(
    work: &mut Work,
    actuals: &Option<Box<Actuals>>,
    frame: u32,
    making: bool,
    call: RequiredCall,
) -> u32
    ensures { Does (pointer_call making frame call (held_actuals_tree actuals.now)) result work.old work.new }
{
    match actuals {
        None => check_without_actuals(work, call.name),
        Some(a) => check_pointer_some(work, a, frame, making, call, a.others.len() == 0),
    }
}

fn component_type_in(wanted: bool, row: Option<TypeRow>) -> Option<u32>
    ensures { result ≡ component_type_in wanted row }
{
    match row {
        Some(
            TypeRow::Array {
                packed,
                component,
                ..
            },
        ) => {
            if packed == wanted {
                Some(component)
            } else {
                None
            }
        }
        _ => None,
    }
}

fn index_in(row: Option<TypeRow>) -> Option<u32>
    ensures { result ≡ index_in row }
{
    match row {
        Some(TypeRow::Array { index, .. }) => Some(index),
        _ => None,
    }
}

fn is_array(tables: &Tables, wanted: bool, value: Typed) -> bool
    ensures { result ≡ is_array tables.now wanted value }
{
    is_unknown_shape(shape_of(tables, value.of))
        || (is_access(value.location)
            && component_type_in(wanted, type_row(tables, value.of)).is_some())
}

fn same_or(tables: &Tables, left: Option<u32>, right: Option<u32>) -> bool
    ensures { result ≡ same_or tables.now left right }
{
    match (left, right) {
        (Some(left), Some(right)) => is_same_type(tables, left, right),
        _ => true,
    }
}

fn is_like(tables: &Tables, unpacked: Typed, packed: Typed) -> bool
    ensures { result ≡ is_like tables.now unpacked packed }
{
    let component = component_type_in(false, type_row(tables, unpacked.of));
    same_or(
        tables,
        component,
        component_type_in(true, type_row(tables, packed.of)),
    )
}

fn assignable_or(tables: &Tables, index: Option<u32>, value: ExpressionType) -> bool
    ensures { result ≡ assignable_or tables.now index value }
{
    match index {
        Some(index) => is_assignable(tables, index, value),
        None => true,
    }
}

fn is_index_of(tables: &Tables, unpacked: Typed, index: Typed) -> bool
    ensures { result ≡ is_index_of tables.now unpacked index }
{
    assignable_or(tables, index_in(type_row(tables, unpacked.of)), index.of)
}

#[tactic(auto, using(check_steps::proofs::Runs::steps), unfolding(crate::specs::Moves::move_checked))]
fn check_moved(
    work: &mut Work,
    unpacked: CheckedActual,
    index: CheckedActual,
    packed: CheckedActual,
)
    ensures { Does (move_checked unpacked index packed) tt work.old work.new }
{
    let array = is_array(&work.tables, false, unpacked.value);
    work.late(32, unpacked.first, array);
    let fine = is_index_of(&work.tables, unpacked.value, index.value);
    work.late(32, index.first, fine);
    let like = is_array(&work.tables, true, packed.value)
        && is_like(&work.tables, unpacked.value, packed.value);
    work.late(32, packed.first, like);
}

#[tactic(auto, using(check_steps::proofs::Runs::steps), unfolding(crate::specs::Moves::operand_actual))]
fn check_operand(work: &mut Work, a: &Actual, frame: u32) -> CheckedActual
    ensures { Does (operand_actual frame (actual_tree a.now)) result work.old work.new }
{
    let value = check_plain(work, a, frame);
    CheckedActual {
        first: first_of_expression(&a.expression),
        value,
    }
}

fn pack_row(
    packing: bool,
    line: u32,
    unpacked: CheckedActual,
    index: CheckedActual,
    packed: CheckedActual,
) -> StatementRow
    ensures { result ≡ pack_row packing line unpacked index packed }
{
    StatementRow::Pack {
        packing,
        line,
        unpacked: unpacked.value.row,
        index: index.value.row,
        packed: packed.value.row,
    }
}

#[tactic(auto, using(check_steps::proofs::Runs::steps), unfolding(crate::specs::Moves::pack_three))]
fn check_pack(
    work: &mut Work,
    a: &Actual,
    b: &Actual,
    c: &Actual,
    frame: u32,
    call: RequiredCall,
) -> u32
    ensures { Does (pack_three frame call (actual_tree a.now) (actual_tree b.now) (actual_tree c.now)) result work.old
        work.new }
{
    let unpacked = check_operand(work, a, frame);
    let index = check_operand(work, b, frame);
    let packed = check_operand(work, c, frame);
    check_moved(work, unpacked, index, packed);
    put_statement(
        work,
        call.name,
        pack_row(true, call.line, unpacked, index, packed),
    )
}

#[tactic(auto, using(check_steps::proofs::Runs::steps), unfolding(crate::specs::Moves::unpack_three))]
fn check_unpack(
    work: &mut Work,
    a: &Actual,
    b: &Actual,
    c: &Actual,
    frame: u32,
    call: RequiredCall,
) -> u32
    ensures { Does (unpack_three frame call (actual_tree a.now) (actual_tree b.now) (actual_tree c.now)) result work.old
        work.new }
{
    let packed = check_operand(work, a, frame);
    let unpacked = check_operand(work, b, frame);
    let index = check_operand(work, c, frame);
    check_moved(work, unpacked, index, packed);
    put_statement(
        work,
        call.name,
        pack_row(false, call.line, unpacked, index, packed),
    )
}

fn check_three(
    work: &mut Work,
    a: &Actual,
    b: &Actual,
    c: &Actual,
    frame: u32,
    packing: bool,
    call: RequiredCall,
) -> u32
    ensures { Does (three packing frame call (actual_tree a.now) (actual_tree b.now) (actual_tree c.now)) result
        work.old work.new }
{
    if packing {
        check_pack(work, a, b, c, frame, call)
    } else {
        check_unpack(work, a, b, c, frame, call)
    }
}

fn check_pack_some(
    work: &mut Work,
    a: &Actuals,
    others: &[NextActual],
    frame: u32,
    packing: bool,
    call: RequiredCall,
) -> u32
    ensures { Does (pack_some packing frame call (actuals_tree a.now) (map next_actual_tree others.now)) result work.old
        work.new }
{
    match others {
        [second, third] => {
            check_three(
                work,
                &a.first,
                &second.actual,
                &third.actual,
                frame,
                packing,
                call,
            )
        }
        _ => check_wrong_number(work, a, frame, call.name),
    }
}

/// A call of pack, and else of unpack.
pub(crate) fn check_pack_call(
    work: &mut Work,
    actuals: &Option<Box<Actuals>>,
    frame: u32,
    packing: bool,
    call: RequiredCall,
) -> u32
    ensures { Does (pack_call packing frame call (held_actuals_tree actuals.now)) result work.old work.new }
{
    match actuals {
        None => check_without_actuals(work, call.name),
        Some(a) => check_pack_some(work, a, &a.others, frame, packing, call),
    }
}
