//! The names that expressions and accesses use (6.5, 6.7).

ghost use Rattle.std.specs.Prelude.{◌≡◌};
ghost use Rattle.pas_tree.specs.ExpressionTrees.{access_tree, arguments_tree, expression_tree, factor_tree, index_tree};
ghost use Rattle.pas_tree.specs.ExpressionTrees.{member_tree, members_tree, selector_tree, simple_tree, term_tree};
ghost use Rattle.check_steps.specs.Steps.{Does};
ghost use Rattle.decl_checker.specs.Accesses.{access_type, access_uses, arguments_uses, expression_uses, factor_uses};
ghost use Rattle.decl_checker.specs.Accesses.{indices, member_uses, members_uses, selector, simple_uses, term_uses};

use crate::accesses::{component, domain, field, use_name, use_variable};
use check_steps::Work;
use pas_tree::expressions::{
    Access, Arguments, Expression, Factor, Index, Member, Members, Selector, Simple, Term,
};

/// Uses the names of an expression, seen from a frame.
#[cycle(expressions)]
#[tactic(auto, using(check_steps::proofs::Runs::steps, pas_tree::proofs::ExpressionViews::expression_view))]
pub fn use_expression(work: &mut Work, e: &Expression, frame: u32)
    ensures { Does (expression_uses frame (expression_tree e.now)) tt work.old work.new }
{
    use_simple(work, &e.left, frame);
    match &e.relation {
        None => {}
        Some(relation) => use_simple(work, &relation.right, frame),
    }
}

#[cycle(expressions)]
#[tactic(auto, using(check_steps::proofs::Runs::steps, check_steps::proofs::Runs::loops, pas_tree::proofs::ExpressionViews::simple_view, crate::proofs::Walks::terms_each))]
fn use_simple(work: &mut Work, s: &Simple, frame: u32)
    ensures { Does (simple_uses frame (simple_tree s.now)) tt work.old work.new }
{
    use_term(work, &s.first, frame);
    'others: for other in &s.others {
        use_term(work, &other.term, frame);
    }
}

#[cycle(expressions)]
#[tactic(auto, using(check_steps::proofs::Runs::steps, check_steps::proofs::Runs::loops, pas_tree::proofs::ExpressionViews::term_view, crate::proofs::Walks::factors_each))]
fn use_term(work: &mut Work, t: &Term, frame: u32)
    ensures { Does (term_uses frame (term_tree t.now)) tt work.old work.new }
{
    use_factor(work, &t.first, frame);
    'others: for other in &t.others {
        use_factor(work, &other.factor, frame);
    }
}

#[cycle(expressions)]
#[tactic(auto, using(check_steps::proofs::Runs::steps, pas_tree::proofs::ExpressionViews::access_view))]
fn use_factor(work: &mut Work, f: &Factor, frame: u32)
    ensures { Does (factor_uses frame (factor_tree f.now)) tt work.old work.new }
{
    match f {
        Factor::Number(_) => {}
        Factor::Text(_) => {}
        Factor::Nil(_) => {}
        Factor::Access(access) => {
            check_access(work, access, frame);
        }
        Factor::Call(name, arguments) => {
            use_name(work, frame, *name);
            use_arguments(work, arguments, frame);
        }
        Factor::Paren(_, e, _) => use_expression(work, e, frame),
        Factor::Set(members) => use_members(work, members, frame),
        Factor::Not(_, f) => use_factor(work, f, frame),
    }
}

/// Uses the names of an access, seen from a frame, and gives the type of what is accessed. Where it is unknown, that is
/// a number at which no type stands.
#[cycle(expressions)]
#[tactic(auto, using(check_steps::proofs::Runs::steps, check_steps::proofs::Runs::loops, crate::proofs::Walks::selected_each))]
pub fn check_access(work: &mut Work, a: &Access, frame: u32) -> u32
    ensures { Does (access_type frame (access_tree a.now)) result work.old work.new }
{
    let mut part = use_variable(work, frame, a.name);
    'selectors: for selector in &a.selectors {
        part = check_selector(work, selector, frame, a.name, part);
    }
    part
}

#[cycle(expressions)]
#[tactic(auto, using(check_steps::proofs::Runs::steps))]
fn check_selector(work: &mut Work, s: &Selector, frame: u32, unknown: u32, kind: u32) -> u32
    ensures { Does (selector frame unknown kind (selector_tree s.now)) result work.old work.new }
{
    match s {
        Selector::Index(index) => check_indices(work, index, frame, unknown, kind),
        Selector::Field(_, name) => field(work, unknown, kind, *name),
        Selector::Dereference(_) => domain(work, unknown, kind),
    }
}

#[cycle(expressions)]
#[tactic(auto, using(check_steps::proofs::Runs::steps, check_steps::proofs::Runs::loops, pas_tree::proofs::ExpressionViews::index_view, crate::proofs::Walks::indices_each))]
fn check_indices(work: &mut Work, x: &Index, frame: u32, unknown: u32, kind: u32) -> u32
    ensures { Does (indices frame unknown kind (index_tree x.now)) result work.old work.new }
{
    use_expression(work, &x.first, frame);
    let mut part = component(work, unknown, kind);
    'others: for other in &x.others {
        use_expression(work, &other.expression, frame);
        part = component(work, unknown, part);
    }
    part
}

#[cycle(expressions)]
#[tactic(auto, using(check_steps::proofs::Runs::steps, check_steps::proofs::Runs::loops, pas_tree::proofs::ExpressionViews::arguments_view, crate::proofs::Walks::arguments_each))]
fn use_arguments(work: &mut Work, a: &Arguments, frame: u32)
    ensures { Does (arguments_uses frame (arguments_tree a.now)) tt work.old work.new }
{
    use_expression(work, &a.first, frame);
    'others: for other in &a.others {
        use_expression(work, &other.expression, frame);
    }
}

#[cycle(expressions)]
#[tactic(auto, using(check_steps::proofs::Runs::steps, check_steps::proofs::Runs::loops, pas_tree::proofs::ExpressionViews::members_view, crate::proofs::Walks::members_each))]
fn use_members(work: &mut Work, m: &Members, frame: u32)
    ensures { Does (members_uses frame (members_tree m.now)) tt work.old work.new }
{
    match m {
        Members::Empty(_, _) => {}
        Members::Some(members) => {
            use_member(work, &members.first, frame);
            'others: for other in &members.others {
                use_member(work, &other.member, frame);
            }
        }
    }
}

#[cycle(expressions)]
#[tactic(auto, using(check_steps::proofs::Runs::steps, pas_tree::proofs::ExpressionViews::member_view))]
fn use_member(work: &mut Work, m: &Member, frame: u32)
    ensures { Does (member_uses frame (member_tree m.now)) tt work.old work.new }
{
    use_expression(work, &m.first, frame);
    match &m.last {
        None => {}
        Some(end) => use_expression(work, &end.last, frame),
    }
}

/// Uses the names of an access, seen from a frame.
#[tactic(auto, using(check_steps::proofs::Runs::steps))]
pub fn use_access(work: &mut Work, a: &Access, frame: u32)
    ensures { Does (access_uses frame (access_tree a.now)) tt work.old work.new }
{
    check_access(work, a, frame);
}
