//! Labels and gotos (6.8.1, 6.8.2.4).

ghost use Rattle.std.specs.Prelude.{◌≡◌};
ghost use Rattle.pas_tree.specs.StatementTrees.{statements_tree};
ghost use Rattle.check_steps.specs.Steps.{Does, each};
ghost use Rattle.statement_checker.specs.Labels.{is_unmarked, jump, label_of, labelled, leave, leave_all, levels_in};
ghost use Rattle.statement_checker.specs.Labels.{mark, marked_label, on_label, on_next, own_label, put_label};
ghost use Rattle.statement_checker.specs.Labels.{reach_all, reach_label, row_of, ways_in, with_ways};

use crate::sequences::{line_of, put_statement};
use check_steps::{Tables, Work};
use core_program::rows::{NameRow, Row, StatementRow};
use expression_checker::names::levels_to;
use pas_tree::statements::{Label, NextStatement, Statements};

fn row_of(tables: &Tables, declared: Option<u32>) -> Row
    ensures { result ≡ row_of tables.now declared }
{
    match declared {
        None => Row::Nothing,
        Some(declared) => tables.row(declared),
    }
}

fn levels_in(tables: &Tables, frame: u32, row: Row) -> u32
    ensures { result ≡ levels_in tables.now frame row }
{
    match row {
        Row::Name(NameRow::Label { level, .. }) => levels_to(tables, frame, level),
        _ => 0,
    }
}

fn label_of(tables: &Tables, frame: u32, token: u32) -> Option<u32>
    ensures { result ≡ label_of tables.now frame token }
{
    tables.find_label(frame, tables.label(token))
}

fn own_label(tables: &Tables, frame: u32, token: u32) -> Option<u32>
    ensures { result ≡ own_label tables.now frame token }
{
    let declared = label_of(tables, frame, token);
    if levels_in(tables, frame, row_of(tables, declared)) == 0 {
        declared
    } else {
        None
    }
}

#[tactic(auto, using(check_steps::proofs::Runs::steps))]
fn put_label(work: &mut Work, declared: Option<u32>, row: Row)
    ensures { Does (put_label declared row) tt work.old work.new }
{
    match declared {
        None => {}
        Some(declared) => work.put(declared, row),
    }
}

fn ways_in(row: Row) -> u32
    ensures { result ≡ ways_in row }
{
    match row {
        Row::Name(NameRow::Label { ways, .. }) => ways,
        _ => 0,
    }
}

fn with_ways(row: Row, ways: u32) -> Row
    ensures { result ≡ with_ways row ways }
{
    match row {
        Row::Name(
            NameRow::Label {
                marked,
                value,
                level,
                ..
            },
        ) => Row::Name(NameRow::Label {
            marked,
            value,
            level,
            ways: ways,
        }),
        _ => row,
    }
}

/// From here on there is one more way to a statement with the label at this token.
#[tactic(auto, using(check_steps::proofs::Runs::steps), unfolding(crate::specs::Labels::reach_label))]
pub fn reach_label(work: &mut Work, frame: u32, token: u32)
    ensures { Does (reach_label frame token) tt work.old work.new }
{
    work.come_to(frame);
    let declared = own_label(&work.tables, frame, token);
    let row = row_of(&work.tables, declared);
    let ways = ways_in(row).saturating_add(1);
    put_label(work, declared, with_ways(row, ways));
}

/// From here on there is one way fewer to a statement with the label at this token.
#[tactic(auto, using(check_steps::proofs::Runs::steps), unfolding(crate::specs::Labels::leave))]
pub fn leave(work: &mut Work, frame: u32, token: u32)
    ensures { Does (leave frame token) tt work.old work.new }
{
    work.come_to(frame);
    let declared = own_label(&work.tables, frame, token);
    let row = row_of(&work.tables, declared);
    let ways = ways_in(row).saturating_sub(1);
    put_label(work, declared, with_ways(row, ways));
}

#[tactic(auto, using(check_steps::proofs::Runs::steps))]
fn reach_held(work: &mut Work, label: &Option<Label>, frame: u32)
    ensures { Does (on_label (reach_label frame) label.now) tt work.old work.new }
{
    match label {
        None => {}
        Some(label) => reach_label(work, frame, label.number),
    }
}

#[tactic(auto, using(check_steps::proofs::Runs::steps))]
fn leave_held(work: &mut Work, label: &Option<Label>, frame: u32)
    ensures { Does (on_label (leave frame) label.now) tt work.old work.new }
{
    match label {
        None => {}
        Some(label) => leave(work, frame, label.number),
    }
}

#[tactic(auto, unfolding(crate::specs::Labels::on_next))]
fn reach_next(work: &mut Work, n: &NextStatement, frame: u32)
    ensures { Does (on_next (reach_label frame) tt n.now) tt work.old work.new }
{
    reach_held(work, &n.statement.label, frame);
}

#[tactic(auto, unfolding(crate::specs::Labels::on_next))]
fn leave_next(work: &mut Work, n: &NextStatement, frame: u32)
    ensures { Does (on_next (leave frame) tt n.now) tt work.old work.new }
{
    leave_held(work, &n.statement.label, frame);
}

#[tactic(auto, using(check_steps::proofs::Runs::loops))]
fn reach_others(work: &mut Work, others: &[NextStatement], frame: u32)
    ensures { Does (each (on_next (reach_label frame)) tt others.now) tt work.old work.new }
{
    'others: for other in others {
        reach_next(work, other, frame);
    }
}

#[tactic(auto, using(check_steps::proofs::Runs::loops))]
fn leave_others(work: &mut Work, others: &[NextStatement], frame: u32)
    ensures { Does (each (on_next (leave frame)) tt others.now) tt work.old work.new }
{
    'others: for other in others {
        leave_next(work, other, frame);
    }
}

/// From here on there is one more way to each labelled statement of a sequence. For the outermost sequence of a block's
/// statement part this is so before the routines of the block are checked.
#[tactic(auto, using(check_steps::proofs::Runs::steps, pas_tree::proofs::StatementViews::statements_view, crate::proofs::Walks::labels_each), unfolding(crate::specs::Labels::reach_all))]
pub fn reach_all(work: &mut Work, s: &Statements, frame: u32)
    ensures { Does (reach_all frame (statements_tree s.now)) tt work.old work.new }
{
    reach_held(work, &s.first.label, frame);
    reach_others(work, &s.others, frame);
}

/// From here on there is one way fewer to each labelled statement of a sequence.
#[tactic(auto, using(check_steps::proofs::Runs::steps, pas_tree::proofs::StatementViews::statements_view, crate::proofs::Walks::labels_each), unfolding(crate::specs::Labels::leave_all))]
pub fn leave_all(work: &mut Work, s: &Statements, frame: u32)
    ensures { Does (leave_all frame (statements_tree s.now)) tt work.old work.new }
{
    leave_held(work, &s.first.label, frame);
    leave_others(work, &s.others, frame);
}

fn is_unmarked(row: Row) -> bool
    ensures { result ≡ is_unmarked row }
{
    match row {
        Row::Name(NameRow::Label { marked, .. }) => !marked,
        _ => false,
    }
}

fn marked_label(row: Row) -> Row
    ensures { result ≡ marked_label row }
{
    match row {
        Row::Name(
            NameRow::Label {
                value,
                level,
                ways,
                ..
            },
        ) => Row::Name(NameRow::Label {
            marked: true,
            value,
            level,
            ways,
        }),
        _ => row,
    }
}

/// The label at this token marks a statement.
#[tactic(auto, using(check_steps::proofs::Runs::steps), unfolding(crate::specs::Labels::mark))]
pub fn check_mark(work: &mut Work, frame: u32, token: u32)
    ensures { Does (mark frame token) tt work.old work.new }
{
    work.come_to(frame);
    let declared = own_label(&work.tables, frame, token);
    let row = row_of(&work.tables, declared);
    work.late(15, token, is_unmarked(row));
    put_label(work, declared, marked_label(row));
}

/// A labelled statement, at its label.
#[tactic(auto, using(check_steps::proofs::Runs::steps), unfolding(crate::specs::Labels::labelled))]
pub fn put_labelled(work: &mut Work, token: u32, statement: u32) -> u32
    ensures { Does (labelled token statement) result work.old work.new }
{
    let label = work.tables.label(token);
    put_statement(work, token, StatementRow::Labelled { label, statement })
}

/// A goto, at its word, which may have a label of its own.
#[tactic(auto, using(check_steps::proofs::Runs::steps), unfolding(crate::specs::Labels::jump))]
pub fn check_goto(work: &mut Work, frame: u32, label: Option<u32>, word: u32, token: u32) -> u32
    ensures { Does (jump frame label word token) result work.old work.new }
{
    work.come_to(frame);
    let row = row_of(&work.tables, label_of(&work.tables, frame, token));
    work.late(16, token, 0 < ways_in(row));
    let value = work.tables.label(token);
    let levels = levels_in(&work.tables, frame, row);
    let line = line_of(&work.tables, label, word);
    let row = StatementRow::Goto {
        line,
        label: value,
        levels,
    };
    put_statement(work, word, row)
}
