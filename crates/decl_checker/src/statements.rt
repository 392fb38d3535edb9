//! The names that statements use (6.8).

ghost use Rattle.std.specs.Prelude.{◌≡◌, IfOk, option_map};
ghost use Rattle.pas_tree.specs.{ExpressionTrees.access_tree, StatementTrees.width_tree};
ghost use Rattle.pas_tree.specs.StatementTrees.{actual_tree, actuals_tree, assignment_tree, case_tree, compound_tree};
ghost use Rattle.pas_tree.specs.StatementTrees.{held_actuals_tree, if_tree, plain_tree, repeat_tree, statements_tree};
ghost use Rattle.check_steps.specs.Steps.{Does, each};
ghost use Rattle.decl_checker.specs.Statements.{actual_uses, actuals_uses, assignment_uses, case_uses, compound_uses};
ghost use Rattle.decl_checker.specs.Statements.{fields_in, if_uses, inside_access, inside_next, next_actual};
ghost use Rattle.decl_checker.specs.Statements.{one_more_with, open_fields, plain_uses, repeat_uses, some_actuals_uses};
ghost use Rattle.decl_checker.specs.Statements.{statements_uses, width_uses};

use crate::accesses::use_name;
use crate::expressions::{check_access, use_access, use_expression};
use check_steps::{Frame, Work};
use core_program::rows::TypeRow;
use denoter_checker::variants::use_constants;
use pas_tree::expressions::Access;
use pas_tree::statements::{
    Actual, Actuals, Assignment, Case, Compound, If, NextAccess, NextActual, Plain, Repeat,
    Statements, Width,
};
use std::alloc::AllocError;

#[tactic(auto, using(check_steps::proofs::Runs::steps), unfolding(crate::specs::Statements::assignment_uses))]
fn use_assignment(work: &mut Work, a: &Assignment, frame: u32)
    ensures { Does (assignment_uses frame (assignment_tree a.now)) tt work.old work.new }
{
    use_access(work, &a.target, frame);
    use_expression(work, &a.value, frame);
}

#[tactic(auto, using(check_steps::proofs::Runs::steps))]
fn use_width(work: &mut Work, width: &Option<Width>, frame: u32)
    ensures { Does (width_uses frame (option_map width_tree width.now)) tt work.old work.new }
{
    match width {
        None => {}
        Some(width) => use_expression(work, &width.width, frame),
    }
}

#[tactic(auto, using(check_steps::proofs::Runs::steps), unfolding(crate::specs::Statements::actual_uses))]
fn use_actual(work: &mut Work, a: &Actual, frame: u32)
    ensures { Does (actual_uses frame (actual_tree a.now)) tt work.old work.new }
{
    use_expression(work, &a.expression, frame);
    use_width(work, &a.width, frame);
}

#[tactic(auto, using(check_steps::proofs::Runs::loops))]
fn use_more_actuals(work: &mut Work, others: &[NextActual], frame: u32)
    ensures { Does (each (next_actual frame) tt others.now) tt work.old work.new }
{
    'others: for other in others {
        use_actual(work, &other.actual, frame);
    }
}

#[tactic(auto, using(check_steps::proofs::Runs::steps, crate::proofs::Walks::actuals_each), unfolding(crate::specs::Statements::some_actuals_uses))]
fn use_some_actuals(work: &mut Work, a: &Actuals, frame: u32)
    ensures { Does (some_actuals_uses frame (actuals_tree a.now)) tt work.old work.new }
{
    use_actual(work, &a.first, frame);
    use_more_actuals(work, &a.others, frame);
}

#[tactic(auto, using(check_steps::proofs::Runs::steps))]
fn use_actuals(work: &mut Work, actuals: &Option<Box<Actuals>>, frame: u32)
    ensures { Does (actuals_uses frame (held_actuals_tree actuals.now)) tt work.old work.new }
{
    match actuals {
        None => {}
        Some(actuals) => use_some_actuals(work, actuals, frame),
    }
}

/// The region of the fields of a record type.
pub fn fields_in(row: Option<TypeRow>) -> Option<u32>
    ensures { result ≡ fields_in row }
{
    match row {
        Some(TypeRow::Record { region, .. }) => Some(region),
        _ => None,
    }
}

fn one_more_with(withs: u32) -> u32
    ensures { result ≡ one_more_with withs }
{
    if withs < u32::MAX { withs + 1 } else { withs }
}

/// A frame in which the fields of a record's region are the closest names.
#[tactic(auto, using(check_steps::proofs::Runs::steps), unfolding(crate::specs::Statements::open_fields))]
pub fn open_fields(work: &mut Work, frame: u32, region: u32) -> Result<u32, AllocError>
    ensures { IfOk result (λ n. Does (open_fields frame region) n work.old work.new) }
{
    let outer = work.tables.frame(frame);
    work.open_frame(Frame {
        region,
        outer: Some(frame),
        level: outer.level,
        withs: one_more_with(outer.withs),
    })
}

#[tactic(auto, using(check_steps::proofs::Runs::steps), unfolding(crate::specs::Statements::inside_access))]
fn open_access(work: &mut Work, a: &Access, frame: u32) -> Result<u32, AllocError>
    ensures { IfOk result (λ n. Does (inside_access frame (access_tree a.now)) n work.old work.new) }
{
    let kind = check_access(work, a, frame);
    match fields_in(work.tables.type_row(kind)) {
        None => Ok(frame),
        Some(region) => open_fields(work, frame, region),
    }
}

#[tactic(auto, using(check_steps::proofs::Runs::loops))]
fn open_more_accesses(work: &mut Work, others: &[NextAccess], frame: u32) -> Result<u32, AllocError>
    ensures { IfOk result (λ n. Does (each inside_next frame others.now) n work.old work.new) }
{
    let mut inner = frame;
    'others: for other in others {
        inner = open_access(work, &other.access, inner)?;
    }
    Ok(inner)
}

#[cycle(statements)]
#[tactic(auto, using(check_steps::proofs::Runs::steps, crate::proofs::Walks::accesses_each))]
fn use_plain(work: &mut Work, p: &Plain, frame: u32) -> Result<(), AllocError>
    ensures { IfOk result (λ _. Does (plain_uses frame (plain_tree p.now)) tt work.old work.new) }
{
    match p {
        Plain::Empty => Ok(()),
        Plain::Assignment(a) => {
            use_assignment(work, a, frame);
            Ok(())
        }
        Plain::Call(name, actuals) => {
            use_name(work, frame, *name);
            use_actuals(work, actuals, frame);
            Ok(())
        }
        Plain::Goto(_, _) => Ok(()),
        Plain::Compound(c) => use_compound(work, c, frame),
        Plain::If(i) => use_if(work, i, frame),
        Plain::Case(c) => use_case(work, c, frame),
        Plain::Repeat(r) => use_repeat(work, r, frame),
        Plain::While(w) => {
            use_expression(work, &w.condition, frame);
            use_plain(work, &w.statement.plain, frame)
        }
        Plain::For(f) => {
            use_name(work, frame, f.name);
            use_expression(work, &f.initial, frame);
            use_expression(work, &f.last, frame);
            use_plain(work, &f.statement.plain, frame)
        }
        Plain::With(w) => {
            let inner = open_access(work, &w.first, frame)?;
            let innermost = open_more_accesses(work, &w.others, inner)?;
            use_plain(work, &w.statement.plain, innermost)
        }
    }
}

/// Uses the names of a compound statement, seen from a frame.
#[cycle(statements)]
#[tactic(auto, using(check_steps::proofs::Runs::steps, pas_tree::proofs::StatementViews::statement_views))]
pub fn use_compound(work: &mut Work, c: &Compound, frame: u32) -> Result<(), AllocError>
    ensures { IfOk result (λ _. Does (compound_uses frame (compound_tree c.now)) tt work.old work.new) }
{
    use_statements(work, &c.statements, frame)
}

#[cycle(statements)]
#[tactic(auto, using(check_steps::proofs::Runs::steps, check_steps::proofs::Runs::loops, pas_tree::proofs::StatementViews::statements_view, crate::proofs::Walks::statements_each))]
fn use_statements(work: &mut Work, s: &Statements, frame: u32) -> Result<(), AllocError>
    ensures { IfOk result (λ _. Does (statements_uses frame (statements_tree s.now)) tt work.old work.new) }
{
    use_plain(work, &s.first.plain, frame)?;
    'others: for other in &s.others {
        use_plain(work, &other.statement.plain, frame)?;
    }
    Ok(())
}

#[cycle(statements)]
#[tactic(auto, using(check_steps::proofs::Runs::steps, pas_tree::proofs::StatementViews::statement_views))]
fn use_if(work: &mut Work, x: &If, frame: u32) -> Result<(), AllocError>
    ensures { IfOk result (λ _. Does (if_uses frame (if_tree x.now)) tt work.old work.new) }
{
    use_expression(work, &x.condition, frame);
    use_plain(work, &x.statement.plain, frame)?;
    match &x.alternative {
        None => Ok(()),
        Some(alternative) => use_plain(work, &alternative.statement.plain, frame),
    }
}

#[cycle(statements)]
#[tactic(auto, using(check_steps::proofs::Runs::steps, check_steps::proofs::Runs::loops, pas_tree::proofs::StatementViews::case_view, crate::proofs::Walks::branches_each))]
fn use_case(work: &mut Work, x: &Case, frame: u32) -> Result<(), AllocError>
    ensures { IfOk result (λ _. Does (case_uses frame (case_tree x.now)) tt work.old work.new) }
{
    use_expression(work, &x.selector, frame);
    use_constants(work, &x.first.constants, frame);
    use_plain(work, &x.first.statement.plain, frame)?;
    'others: for other in &x.others {
        use_constants(work, &other.branch.constants, frame);
        use_plain(work, &other.branch.statement.plain, frame)?;
    }
    Ok(())
}

#[cycle(statements)]
#[tactic(auto, using(check_steps::proofs::Runs::steps, pas_tree::proofs::StatementViews::statement_views))]
fn use_repeat(work: &mut Work, x: &Repeat, frame: u32) -> Result<(), AllocError>
    ensures { IfOk result (λ _. Does (repeat_uses frame (repeat_tree x.now)) tt work.old work.new) }
{
    use_statements(work, &x.statements, frame)?;
    use_expression(work, &x.condition, frame);
    Ok(())
}
