//! The required procedures of text files: read, readln, write, writeln and page (6.9).

ghost use Rattle.std.specs.Prelude.{◌≡◌, map, option_map};
ghost use Rattle.pas_tree.specs.StatementTrees.{actual_tree, actuals_tree, held_actuals_tree, next_actual_tree};
ghost use Rattle.pas_tree.specs.StatementTrees.{width_tree};
ghost use Rattle.check_steps.specs.Steps.{Does, each};
ghost use Rattle.statement_checker.specs.Transfers.{first_comma, first_item, is_access, is_enough, is_file_of};
ghost use Rattle.statement_checker.specs.Transfers.{is_readable, is_writable, item_by, items, list_of, next_item, page};
ghost use Rattle.statement_checker.specs.Transfers.{page_one, page_other, page_some, paged, put_written, read_item};
ghost use Rattle.statement_checker.specs.Transfers.{transfer_alone, transfer_call, transfer_row, transfer_with, width};
ghost use Rattle.statement_checker.specs.Transfers.{write_item, written_item, written_type};

use crate::actuals::{RequiredCall, actual_file, check_plain, check_wrong_number};
use crate::sequences::put_statement;
use check_steps::items::put_item;
use check_steps::{Tables, Work};
use core_program::rows::{BOOLEAN, CHAR, INTEGER, ItemRow, LIST_END, StatementRow, TextFile};
use expression_checker::actuals::name_alone;
use expression_checker::expressions::check_expression;
use expression_checker::threats::check_threat_alone;
use expression_checker::{Location, Typed};
use kind_checker::operators::{is_of_host, is_operand, is_unknown_shape};
use kind_checker::shapes::shape_of;
use kind_checker::{ExpressionType, Shape};
use pas_tree::first_of_expression;
use pas_tree::statements::{Actual, Actuals, NextActual, Width};

/// Which way characters go.
#[derive(Clone, Copy, PartialEq, Eq)]
pub enum Transfer {
    Reading,
    Writing,
}

pub(crate) fn is_access(location: Location) -> bool
    ensures { result ≡ is_access location }
{
    match location {
        Location::Nowhere => false,
        _ => true,
    }
}

fn is_readable(tables: &Tables, value: Typed) -> bool
    ensures { result ≡ is_readable tables.now value }
{
    let shape = shape_of(tables, value.of);
    is_unknown_shape(shape)
        || (is_access(value.location) && (is_of_host(INTEGER, shape) || is_of_host(CHAR, shape)))
}

#[tactic(auto, using(check_steps::proofs::Runs::steps), unfolding(crate::specs::Transfers::read_item))]
fn check_read(work: &mut Work, a: &Actual, frame: u32, last: u32, slot: u32) -> u32
    ensures { Does (read_item frame last slot (actual_tree a.now)) result work.old work.new }
{
    check_threat_alone(work, frame, name_alone(&a.expression));
    let value = check_plain(work, a, frame);
    let fine = is_readable(&work.tables, value);
    work.late(32, first_of_expression(&a.expression), fine);
    let item = ItemRow::Element {
        item: value.row,
        next: LIST_END,
    };
    put_item(work, last, slot, item)
}

fn is_writable(shape: Shape) -> bool
    ensures { result ≡ is_writable shape }
{
    match shape {
        Shape::Ordinal(host) => host == INTEGER || host == BOOLEAN || host == CHAR,
        Shape::Text(_) => true,
        _ => is_unknown_shape(shape),
    }
}

#[tactic(auto, using(check_steps::proofs::Runs::steps), unfolding(crate::specs::Transfers::width))]
fn check_width(work: &mut Work, w: &Width, frame: u32) -> u32
    ensures { Does (width frame (width_tree w.now)) result work.old work.new }
{
    let value = check_expression(work, &w.width, frame);
    let fine = is_operand(INTEGER, shape_of(&work.tables, value.of));
    work.late(33, w.colon, fine);
    value.row
}

fn written_type(of: ExpressionType, number: u32) -> u32
    ensures { result ≡ written_type of number }
{
    match of {
        ExpressionType::Of(kind) => kind,
        _ => number,
    }
}

fn written_item(value: Typed, width: Option<u32>) -> ItemRow
    ensures { result ≡ written_item value width }
{
    let of = written_type(value.of, value.row);
    match width {
        None => ItemRow::Written {
            value: value.row,
            of,
            next: LIST_END,
        },
        Some(width) => ItemRow::WrittenWide {
            value: value.row,
            of,
            width,
            next: LIST_END,
        },
    }
}

#[tactic(auto, using(check_steps::proofs::Runs::steps))]
fn put_written(
    work: &mut Work,
    w: &Option<Width>,
    frame: u32,
    last: u32,
    value: Typed,
    slot: u32,
) -> u32
    ensures { Does (put_written frame last value slot (option_map width_tree w.now)) result work.old work.new }
{
    match w {
        None => put_item(work, last, slot, written_item(value, None)),
        Some(w) => {
            let width = check_width(work, w, frame);
            put_item(work, last, slot, written_item(value, Some(width)))
        }
    }
}

#[tactic(auto, using(check_steps::proofs::Runs::steps), unfolding(crate::specs::Transfers::write_item))]
fn check_write(work: &mut Work, a: &Actual, frame: u32, last: u32, slot: u32) -> u32
    ensures { Does (write_item frame last slot (actual_tree a.now)) result work.old work.new }
{
    let value = check_expression(work, &a.expression, frame);
    let fine = is_writable(shape_of(&work.tables, value.of));
    work.late(32, first_of_expression(&a.expression), fine);
    put_written(work, &a.width, frame, last, value, slot)
}

fn check_item(
    work: &mut Work,
    a: &Actual,
    frame: u32,
    transfer: Transfer,
    last: u32,
    slot: u32,
) -> u32
    ensures { Does (item_by transfer frame last slot (actual_tree a.now)) result work.old work.new }
{
    match transfer {
        Transfer::Reading => check_read(work, a, frame, last, slot),
        Transfer::Writing => check_write(work, a, frame, last, slot),
    }
}

#[tactic(auto, unfolding(crate::specs::Transfers::next_item))]
fn check_next_item(
    work: &mut Work,
    n: &NextActual,
    frame: u32,
    transfer: Transfer,
    last: u32,
) -> u32
    ensures { Does (next_item transfer frame last n.now) result work.old work.new }
{
    check_item(work, &n.actual, frame, transfer, last, n.comma)
}

#[tactic(auto, using(check_steps::proofs::Runs::loops))]
fn check_more_items(
    work: &mut Work,
    others: &[NextActual],
    frame: u32,
    transfer: Transfer,
    first: u32,
) -> u32
    ensures { Does (each (next_item transfer frame) first others.now) result work.old work.new }
{
    let mut last = first;
    'others: for other in others {
        last = check_next_item(work, other, frame, transfer, last);
    }
    last
}

fn is_file_of(transfer: Transfer, file: TextFile) -> bool
    ensures { result ≡ is_file_of transfer file }
{
    match (transfer, file) {
        (Transfer::Reading, TextFile::Input) => true,
        (Transfer::Writing, TextFile::Output) => true,
        _ => false,
    }
}

#[tactic(auto, using(check_steps::proofs::Runs::steps))]
fn check_first_item(
    work: &mut Work,
    a: &Actuals,
    frame: u32,
    transfer: Transfer,
    last: u32,
    file: Option<TextFile>,
) -> u32
    ensures { Does (first_item transfer frame last a.now.«open» (actual_tree a.now.first) file) result work.old
        work.new }
{
    match file {
        None => check_item(work, &a.first, frame, transfer, last, a.open),
        Some(file) => {
            let first = first_of_expression(&a.first.expression);
            work.late(32, first, is_file_of(transfer, file));
            last
        }
    }
}

fn first_comma(others: &[NextActual]) -> u32
    ensures { result ≡ first_comma (map next_actual_tree others.now) }
{
    match others {
        [] => LIST_END,
        [next, ..] => next.comma,
    }
}

fn list_of(file: Option<TextFile>, a: &Actuals) -> u32
    ensures { result ≡ list_of file (actuals_tree a.now) }
{
    match file {
        None => a.open,
        Some(_) => first_comma(&a.others),
    }
}

#[tactic(auto, using(check_steps::proofs::Runs::steps, crate::proofs::Walks::items_each), unfolding(crate::specs::Transfers::items))]
fn check_items(
    work: &mut Work,
    a: &Actuals,
    frame: u32,
    transfer: Transfer,
    name: u32,
    file: Option<TextFile>,
) -> u32
    ensures { Does (items transfer frame name (actuals_tree a.now) file) result work.old work.new }
{
    let first = check_first_item(work, a, frame, transfer, name, file);
    check_more_items(work, &a.others, frame, transfer, first);
    list_of(file, a)
}

fn transfer_row(transfer: Transfer, ends_line: bool, line: u32, actuals: u32) -> StatementRow
    ensures { result ≡ transfer_row transfer ends_line line actuals }
{
    match transfer {
        Transfer::Reading => StatementRow::Read {
            ends_line,
            line,
            actuals,
        },
        Transfer::Writing => StatementRow::Write {
            ends_line,
            line,
            actuals,
        },
    }
}

#[tactic(auto, using(crate::proofs::Walks::actuals_counted))]
fn is_enough(ends_line: bool, file: Option<TextFile>, a: &Actuals) -> bool
    ensures { result ≡ is_enough ends_line file (actuals_tree a.now) }
{
    match file {
        None => true,
        Some(_) => ends_line || 0 < a.others.len(),
    }
}

#[tactic(auto, using(check_steps::proofs::Runs::steps), unfolding(crate::specs::Transfers::transfer_with))]
fn check_transfer_with(
    work: &mut Work,
    a: &Actuals,
    frame: u32,
    transfer: Transfer,
    ends_line: bool,
    call: RequiredCall,
) -> u32
    ensures { Does (transfer_with transfer ends_line frame call (actuals_tree a.now)) result work.old work.new }
{
    work.come_to(frame);
    let file = actual_file(&work.tables, frame, &a.first);
    work.late(26, call.name, is_enough(ends_line, file, a));
    let list = check_items(work, a, frame, transfer, call.name, file);
    put_statement(
        work,
        call.name,
        transfer_row(transfer, ends_line, call.line, list),
    )
}

#[tactic(auto, using(check_steps::proofs::Runs::steps), unfolding(crate::specs::Transfers::transfer_alone))]
fn check_transfer_alone(
    work: &mut Work,
    transfer: Transfer,
    ends_line: bool,
    call: RequiredCall,
) -> u32
    ensures { Does (transfer_alone transfer ends_line call) result work.old work.new }
{
    work.late(26, call.name, ends_line);
    put_statement(
        work,
        call.name,
        transfer_row(transfer, ends_line, call.line, LIST_END),
    )
}

/// A call of read or write, or of readln or writeln, which end a line.
pub(crate) fn check_transfer(
    work: &mut Work,
    actuals: &Option<Box<Actuals>>,
    frame: u32,
    transfer: Transfer,
    ends_line: bool,
    call: RequiredCall,
) -> u32
    ensures { Does (transfer_call transfer ends_line frame call (held_actuals_tree actuals.now)) result work.old
        work.new }
{
    match actuals {
        None => check_transfer_alone(work, transfer, ends_line, call),
        Some(a) => check_transfer_with(work, a, frame, transfer, ends_line, call),
    }
}

#[tactic(auto, using(check_steps::proofs::Runs::steps), unfolding(crate::specs::Transfers::page_other))]
fn check_page_other(work: &mut Work, a: &Actual, frame: u32)
    ensures { Does (page_other frame (actual_tree a.now)) tt work.old work.new }
{
    let value = check_plain(work, a, frame);
    let fine = is_unknown_shape(shape_of(&work.tables, value.of));
    work.late(32, first_of_expression(&a.expression), fine);
}

#[tactic(auto, using(check_steps::proofs::Runs::steps))]
fn check_paged(work: &mut Work, a: &Actual, frame: u32, file: Option<TextFile>)
    ensures { Does (paged frame (actual_tree a.now) file) tt work.old work.new }
{
    match file {
        None => check_page_other(work, a, frame),
        Some(file) => {
            let first = first_of_expression(&a.expression);
            work.late(32, first, is_file_of(Transfer::Writing, file));
        }
    }
}

#[tactic(auto, using(check_steps::proofs::Runs::steps), unfolding(crate::specs::Transfers::page_one))]
fn check_page_one(work: &mut Work, a: &Actual, frame: u32, call: RequiredCall) -> u32
    ensures { Does (page_one frame call (actual_tree a.now)) result work.old work.new }
{
    work.come_to(frame);
    let file = actual_file(&work.tables, frame, a);
    check_paged(work, a, frame, file);
    put_statement(work, call.name, StatementRow::Page { line: call.line })
}

fn check_page_some(work: &mut Work, a: &Actuals, frame: u32, call: RequiredCall, one: bool) -> u32
    ensures { Does (page_some frame call (actuals_tree a.now) one) result work.old work.new }
{
    if one {
        check_page_one(work, &a.first, frame, call)
    } else {
        check_wrong_number(work, a, frame, call.name)
    }
}

/// A call of page.
#[tactic(auto, using(crate::proofs::Walks::actuals_counted))]
pub(crate) fn check_page(
    work: &mut Work,
    actuals: &Option<Box<Actuals>>,
    frame: u32,
    call: RequiredCall,
) -> u32
    ensures { Does (page frame call (held_actuals_tree actuals.now)) result work.old work.new }
{
    match actuals {
        None => put_statement(work, call.name, StatementRow::Page { line: call.line }),
        Some(a) => check_page_some(work, a, frame, call, a.others.len() == 0),
    }
}
