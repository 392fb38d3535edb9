//! Statements (6.8).

ghost use Rattle.std.specs.Prelude.{◌≡◌, IfOk};
ghost use Rattle.pas_tree.specs.StatementTrees.{case_tree, compound_tree, if_tree, plain_tree, repeat_tree};
ghost use Rattle.pas_tree.specs.StatementTrees.{statement_tree, statements_tree};
ghost use Rattle.check_steps.specs.Steps.{Does, each};
ghost use Rattle.statement_checker.specs.Statements.{case_statement, compound, element, if_statement, next_branch};
ghost use Rattle.statement_checker.specs.Statements.{next_statement, plain, repeat_statement, sequence, statement_step};

use crate::choices::put_case;
use crate::labels::{
    check_goto, check_mark, leave, leave_all, put_labelled, reach_all, reach_label,
};
use crate::parts::{
    begin_for, check_assignment, check_call, check_selected, check_tested, end_for,
    open_first_record, open_more_records,
};
use crate::records::put_with;
use crate::sequences::{
    Branching, Element, add_element, link_element, put_compound, put_empty, put_if, put_if_else,
    put_repeat, put_while,
};
use check_steps::Work;
use core_program::rows::LIST_END;
use denoter_checker::variants::{Choosing, check_choices};
use pas_tree::statements::{
    Case, Compound, If, NextBranch, NextStatement, Plain, Repeat, Statement, Statements,
};
use std::alloc::AllocError;

fn element(slot: u32, item: u32) -> Element
    ensures { result ≡ element slot item }
{
    Element { slot, item }
}

/// A statement, seen from a frame: what is given is its number.
#[cycle(statements)]
#[tactic(auto, using(check_steps::proofs::Runs::steps))]
fn check_statement(work: &mut Work, s: &Statement, frame: u32) -> Result<u32, AllocError>
    ensures { IfOk result (λ n. Does (statement_step frame (statement_tree s.now)) n work.old work.new) }
{
    match &s.label {
        None => check_plain(work, &s.plain, frame, None),
        Some(label) => {
            check_mark(work, frame, label.number);
            reach_label(work, frame, label.number);
            let number = check_plain(work, &s.plain, frame, Some(label.number))?;
            leave(work, frame, label.number);
            Ok(put_labelled(work, label.number, number))
        }
    }
}

#[cycle(statements)]
#[tactic(auto, using(check_steps::proofs::Runs::steps, crate::proofs::Walks::records_each))]
fn check_plain(
    work: &mut Work,
    p: &Plain,
    frame: u32,
    label: Option<u32>,
) -> Result<u32, AllocError>
    ensures { IfOk result (λ n. Does (plain frame label (plain_tree p.now)) n work.old work.new) }
{
    match p {
        Plain::Empty => Ok(put_empty(work)),
        Plain::Assignment(a) => Ok(check_assignment(work, a, frame, label)),
        Plain::Call(name, actuals) => { Ok(check_call(work, actuals, frame, label, *name)) }
        Plain::Goto(word, target) => Ok(check_goto(work, frame, label, *word, *target)),
        Plain::Compound(c) => check_compound(work, c, frame),
        Plain::If(i) => check_if(work, i, frame, label),
        Plain::Case(c) => check_case(work, c, frame, label),
        Plain::Repeat(r) => check_repeat(work, r, frame, label),
        Plain::While(w) => {
            let condition = check_tested(work, &w.condition, frame);
            let body = check_statement(work, &w.statement, frame)?;
            Ok(put_while(work, label, w.word, condition, body))
        }
        Plain::For(f) => {
            let begun = begin_for(work, frame, f.name, &f.initial, &f.last)?;
            let body = check_statement(work, &f.statement, frame)?;
            Ok(end_for(work, label, f.word, &f.direction, begun, body))
        }
        Plain::With(w) => {
            let first = open_first_record(work, &w.first, frame, w.word)?;
            let all = open_more_records(work, &w.others, first)?;
            link_element(work, all.last, LIST_END);
            let body = check_statement(work, &w.statement, all.frame)?;
            Ok(put_with(work, label, w.word, w.do_word, body))
        }
    }
}

/// A compound statement, seen from a frame: what is given is its number.
#[cycle(statements)]
#[tactic(auto, using(check_steps::proofs::Runs::steps, pas_tree::proofs::StatementViews::statement_views))]
pub fn check_compound(work: &mut Work, c: &Compound, frame: u32) -> Result<u32, AllocError>
    ensures { IfOk result (λ n. Does (compound frame (compound_tree c.now)) n work.old work.new) }
{
    reach_all(work, &c.statements, frame);
    let last = check_sequence(work, &c.statements, frame, c.begin)?;
    leave_all(work, &c.statements, frame);
    Ok(put_compound(work, c.begin, last, c.end))
}

#[cycle(statements)]
#[tactic(auto, using(check_steps::proofs::Runs::steps, pas_tree::proofs::StatementViews::statements_view, crate::proofs::Walks::statements_each))]
fn check_sequence(
    work: &mut Work,
    s: &Statements,
    frame: u32,
    list: u32,
) -> Result<Element, AllocError>
    ensures { IfOk result (λ e. Does (sequence frame list (statements_tree s.now)) e work.old work.new) }
{
    let first = check_statement(work, &s.first, frame)?;
    check_more_statements(work, &s.others, frame, element(list, first))
}

#[cycle(statements)]
#[tactic(auto, using(check_steps::proofs::Runs::loops, check_steps::proofs::Runs::steps), unfolding(crate::specs::Statements::next_statement))]
fn check_more_statements(
    work: &mut Work,
    others: &[NextStatement],
    frame: u32,
    first: Element,
) -> Result<Element, AllocError>
    ensures { IfOk result (λ e. Does (each (next_statement frame) first others.now) e work.old work.new) }
{
    let mut last = first;
    'others: for other in others {
        let number = check_statement(work, &other.statement, frame)?;
        last = add_element(work, last, other.semicolon, number);
    }
    Ok(last)
}

#[cycle(statements)]
#[tactic(auto, using(check_steps::proofs::Runs::steps, pas_tree::proofs::StatementViews::statement_views))]
fn check_if(work: &mut Work, x: &If, frame: u32, label: Option<u32>) -> Result<u32, AllocError>
    ensures { IfOk result (λ n. Does (if_statement frame label (if_tree x.now)) n work.old work.new) }
{
    let condition = check_tested(work, &x.condition, frame);
    let then = check_statement(work, &x.statement, frame)?;
    let branching = Branching {
        label,
        word: x.word,
        condition,
        then,
    };
    match &x.alternative {
        None => Ok(put_if(work, branching)),
        Some(alternative) => {
            let otherwise = check_statement(work, &alternative.statement, frame)?;
            Ok(put_if_else(work, branching, otherwise))
        }
    }
}

#[cycle(statements)]
#[tactic(auto, using(check_steps::proofs::Runs::steps, pas_tree::proofs::StatementViews::statement_views, crate::proofs::Walks::branches_each))]
fn check_case(work: &mut Work, x: &Case, frame: u32, label: Option<u32>) -> Result<u32, AllocError>
    ensures { IfOk result (λ n. Does (case_statement frame label (case_tree x.now)) n work.old work.new) }
{
    let selected = check_selected(work, &x.selector, frame, x.of);
    let first = check_statement(work, &x.first.statement, frame)?;
    let choosing = selected.choosing;
    let last = check_choices(work, choosing, first, x.of, x.of, &x.first.constants)?;
    check_more_branches(work, &x.others, frame, choosing, last)?;
    Ok(put_case(work, label, x.word, selected.row, x.of))
}

#[cycle(statements)]
#[tactic(auto, using(check_steps::proofs::Runs::loops, check_steps::proofs::Runs::steps), unfolding(crate::specs::Statements::next_branch))]
fn check_more_branches(
    work: &mut Work,
    others: &[NextBranch],
    frame: u32,
    choosing: Choosing,
    first: u32,
) -> Result<u32, AllocError>
    ensures { IfOk result (λ n. Does (each (next_branch frame choosing) first others.now) n work.old work.new) }
{
    let mut last = first;
    'others: for other in others {
        let number = check_statement(work, &other.branch.statement, frame)?;
        let constants = &other.branch.constants;
        last = check_choices(work, choosing, number, last, other.semicolon, constants)?;
    }
    Ok(last)
}

#[cycle(statements)]
#[tactic(auto, using(check_steps::proofs::Runs::steps, pas_tree::proofs::StatementViews::statement_views))]
fn check_repeat(
    work: &mut Work,
    x: &Repeat,
    frame: u32,
    label: Option<u32>,
) -> Result<u32, AllocError>
    ensures { IfOk result (λ n. Does (repeat_statement frame label (repeat_tree x.now)) n work.old work.new) }
{
    reach_all(work, &x.statements, frame);
    let last = check_sequence(work, &x.statements, frame, x.word)?;
    leave_all(work, &x.statements, frame);
    link_element(work, last, LIST_END);
    let condition = check_tested(work, &x.condition, frame);
    Ok(put_repeat(work, label, x.word, x.until, condition))
}
