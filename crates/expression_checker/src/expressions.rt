//! Expressions and accesses (6.5, 6.7).

ghost use Rattle.std.specs.Prelude.{◌≡◌};
ghost use Rattle.pas_tree.specs.ExpressionPlaces.{first_of_expression};
ghost use Rattle.pas_tree.specs.ExpressionTrees.{access_tree, arguments_tree, expression_tree, factor_tree, index_tree};
ghost use Rattle.pas_tree.specs.ExpressionTrees.{member_tree, members_tree, selector_tree, simple_tree, term_tree};
ghost use Rattle.check_steps.specs.Steps.{Does, each};
ghost use Rattle.expression_checker.specs.Actuals.{argued_as};
ghost use Rattle.expression_checker.specs.Expressions.{access, actual, call, constructor, count_of, designator};
ghost use Rattle.expression_checker.specs.Expressions.{expression, factor, index_at, member, name_factor, named_as};
ghost use Rattle.expression_checker.specs.Expressions.{next_selector, passing_to, root_name, selector, simple, term};

use crate::actuals::{
    Argument, ExpectedFormal, Lone, Passing, check_argued, check_file, check_passed, check_routine,
    check_threat_by, formal_at, lone_of, name_alone,
};
use crate::callees::{Called, check_applied, check_called};
use crate::members::{
    Gathered, MemberStart, check_member_range, check_one_member, check_set, nothing_gathered,
};
use crate::names::{Meaning, check_accessed, check_bound, check_variable, meaning_of};
use crate::operations::{
    adding_operator, check_negated, check_operated, check_signed, multiplying_operator,
    relational_operator,
};
use crate::selectors::{check_dereferenced, check_indexed, check_selected_field};
use crate::typed::{
    Typed, bracketed, check_constant_at, check_nil, check_number, check_text, unknown_at,
};
use check_steps::Work;
use core_program::rows::LIST_END;
use pas_tree::expressions::{
    Access, Arguments, Expression, Factor, Index, Member, Members, Selector, Simple, Term,
};
use pas_tree::{adding_token, first_of_expression, multiplying_token, relational_token};

/// A function designator without actual parameters.
#[tactic(auto, using(check_steps::proofs::Runs::steps), unfolding(crate::specs::Expressions::designator))]
fn check_designator(work: &mut Work, name: u32, frame: u32) -> Typed
    ensures { Does (designator frame name) result work.old work.new }
{
    let called = check_called(work, name, frame, 0);
    check_applied(work, name, called.callee, unknown_at(name), LIST_END)
}

#[tactic(auto, using(check_steps::proofs::Runs::steps))]
fn check_named(work: &mut Work, name: u32, frame: u32, meaning: Meaning) -> Typed
    ensures { Does (named_as frame name meaning) result work.old work.new }
{
    match meaning {
        Meaning::Constant(value) => check_constant_at(work, name, value),
        Meaning::Bound { row, of } => check_bound(work, name, row, of),
        Meaning::Other => check_designator(work, name, frame),
        _ => check_accessed(work, name, meaning),
    }
}

#[tactic(auto, using(check_steps::proofs::Runs::steps), unfolding(crate::specs::Expressions::name_factor))]
fn check_name(work: &mut Work, name: u32, frame: u32) -> Typed
    ensures { Does (name_factor frame name) result work.old work.new }
{
    let found = work.use_again(frame, name);
    let meaning = meaning_of(&work.tables, frame, found);
    check_named(work, name, frame, meaning)
}

/// The name of a factor, which is alone or has selectors after it.
fn check_root(work: &mut Work, name: u32, frame: u32, alone: bool) -> Typed
    ensures { Does (root_name frame alone name) result work.old work.new }
{
    if alone {
        check_name(work, name, frame)
    } else {
        check_variable(work, name, frame)
    }
}

/// A list of actual parameters of what is called at a name, before the first one.
pub fn passing_to(called: Called, name: u32) -> Passing
    ensures { result ≡ passing_to called name }
{
    Passing {
        last: name,
        formals: called.formals,
        value: unknown_at(name),
    }
}

#[tactic(auto, using(pas_tree::proofs::ExpressionViews::arguments_view, crate::proofs::Walks::count_items))]
fn count_of(arguments: &Arguments) -> usize
    ensures { result ≡ count_of (arguments_tree arguments.now) }
{
    arguments.others.len() + 1
}

/// An expression, seen from a frame.
#[cycle(expressions)]
#[tactic(auto, using(check_steps::proofs::Runs::steps, pas_tree::proofs::ExpressionViews::expression_view))]
pub fn check_expression(work: &mut Work, e: &Expression, frame: u32) -> Typed
    ensures { Does (expression frame (expression_tree e.now)) result work.old work.new }
{
    let left = check_simple(work, &e.left, frame);
    match &e.relation {
        None => left,
        Some(relation) => {
            let right = check_simple(work, &relation.right, frame);
            let operator = relational_operator(&relation.operator);
            let token = relational_token(&relation.operator);
            check_operated(work, operator, token, left, right)
        }
    }
}

#[cycle(expressions)]
#[tactic(auto, using(check_steps::proofs::Runs::steps, check_steps::proofs::Runs::loops, pas_tree::proofs::ExpressionViews::simple_view, crate::proofs::Walks::terms_each))]
fn check_simple(work: &mut Work, s: &Simple, frame: u32) -> Typed
    ensures { Does (simple frame (simple_tree s.now)) result work.old work.new }
{
    let first = check_term(work, &s.first, frame);
    let mut value = check_signed(work, &s.sign, first);
    'others: for other in &s.others {
        let right = check_term(work, &other.term, frame);
        let operator = adding_operator(&other.operator);
        let token = adding_token(&other.operator);
        value = check_operated(work, operator, token, value, right);
    }
    value
}

#[cycle(expressions)]
#[tactic(auto, using(check_steps::proofs::Runs::steps, check_steps::proofs::Runs::loops, pas_tree::proofs::ExpressionViews::term_view, crate::proofs::Walks::factors_each))]
fn check_term(work: &mut Work, t: &Term, frame: u32) -> Typed
    ensures { Does (term frame (term_tree t.now)) result work.old work.new }
{
    let mut value = check_factor(work, &t.first, frame);
    'others: for other in &t.others {
        let right = check_factor(work, &other.factor, frame);
        let operator = multiplying_operator(&other.operator);
        let token = multiplying_token(&other.operator);
        value = check_operated(work, operator, token, value, right);
    }
    value
}

#[cycle(expressions)]
#[tactic(auto, using(check_steps::proofs::Runs::steps, pas_tree::proofs::ExpressionViews::access_view, crate::proofs::Walks::name_items, crate::proofs::Walks::selected_each))]
fn check_factor(work: &mut Work, f: &Factor, frame: u32) -> Typed
    ensures { Does (factor frame (factor_tree f.now)) result work.old work.new }
{
    match f {
        Factor::Number(token) => check_number(work, *token),
        Factor::Text(token) => check_text(work, *token),
        Factor::Nil(token) => check_nil(work, *token),
        Factor::Access(access) => {
            let root = check_root(work, access.name, frame, access.selectors.len() == 0);
            check_selectors(work, &access.selectors, frame, root)
        }
        Factor::Call(name, arguments) => {
            check_call(work, arguments, *name, frame, count_of(arguments))
        }
        Factor::Paren(_, e, _) => {
            let value = check_expression(work, e, frame);
            bracketed(value)
        }
        Factor::Set(members) => check_constructor(work, members, frame),
        Factor::Not(word, f) => {
            let value = check_factor(work, f, frame);
            check_negated(work, *word, value)
        }
    }
}

/// A function designator with this many actual parameters.
#[cycle(expressions)]
#[tactic(auto, using(check_steps::proofs::Runs::steps, check_steps::proofs::Runs::loops, pas_tree::proofs::ExpressionViews::arguments_view, crate::proofs::Walks::arguments_each))]
fn check_call(work: &mut Work, a: &Arguments, name: u32, frame: u32, count: usize) -> Typed
    ensures { Does (call frame name count (arguments_tree a.now)) result work.old work.new }
{
    let called = check_called(work, name, frame, count);
    let passing = passing_to(called, name);
    let mut passing = check_actual(work, &a.first, frame, passing, a.open);
    'others: for other in &a.others {
        passing = check_actual(work, &other.expression, frame, passing, other.comma);
    }
    check_applied(work, name, called.callee, passing.value, a.open)
}

/// One more actual parameter of a list, at the parenthesis or comma before it.
#[cycle(expressions)]
#[tactic(auto, using(check_steps::proofs::Runs::steps), unfolding(crate::specs::Actuals::actual_by))]
pub fn check_actual(
    work: &mut Work,
    e: &Expression,
    frame: u32,
    passing: Passing,
    slot: u32,
) -> Passing
    ensures { Does (actual frame passing slot (expression_tree e.now)) result work.old work.new }
{
    let name = name_alone(e);
    let formal = formal_at(&work.tables, passing.formals);
    check_threat_by(work, frame, formal, name);
    work.come_to(frame);
    let lone = lone_of(&work.tables, frame, formal, name);
    let argument = check_argument(work, e, frame, formal, lone);
    check_passed(work, passing, slot, argument)
}

#[cycle(expressions)]
#[tactic(auto, using(check_steps::proofs::Runs::steps))]
fn check_argument(
    work: &mut Work,
    e: &Expression,
    frame: u32,
    formal: ExpectedFormal,
    lone: Lone,
) -> Argument
    ensures { Does (argued_as frame formal lone (first_of_expression (expression_tree e.now))
        (expression frame (expression_tree e.now))) result work.old work.new }
{
    match lone {
        Lone::None => {
            let value = check_expression(work, e, frame);
            check_argued(work, formal, first_of_expression(e), value)
        }
        Lone::Routine { name, heading } => check_routine(work, name, heading, frame),
        Lone::File { name, file } => check_file(work, name, file),
    }
}

/// An access of a variable, a parameter or a field, seen from a frame.
#[tactic(auto, using(check_steps::proofs::Runs::steps, crate::proofs::Walks::selected_each))]
pub fn check_access(work: &mut Work, a: &Access, frame: u32) -> Typed
    ensures { Does (access frame (access_tree a.now)) result work.old work.new }
{
    let root = check_variable(work, a.name, frame);
    check_selectors(work, &a.selectors, frame, root)
}

#[cycle(expressions)]
#[tactic(auto, using(check_steps::proofs::Runs::loops))]
fn check_selectors(work: &mut Work, selectors: &[Selector], frame: u32, root: Typed) -> Typed
    ensures { Does (each (next_selector frame) root selectors.now) result work.old work.new }
{
    let mut place = root;
    'selectors: for selector in selectors {
        place = check_selector(work, selector, frame, place);
    }
    place
}

#[cycle(expressions)]
#[tactic(auto, using(check_steps::proofs::Runs::steps))]
fn check_selector(work: &mut Work, s: &Selector, frame: u32, place: Typed) -> Typed
    ensures { Does (selector frame place (selector_tree s.now)) result work.old work.new }
{
    match s {
        Selector::Index(index) => check_index(work, index, frame, place),
        Selector::Field(dot, name) => check_selected_field(work, place, *dot, *name),
        Selector::Dereference(caret) => check_dereferenced(work, place, *caret),
    }
}

#[cycle(expressions)]
#[tactic(auto, using(check_steps::proofs::Runs::steps, check_steps::proofs::Runs::loops, pas_tree::proofs::ExpressionViews::index_view, crate::proofs::Walks::indexes_each))]
fn check_index(work: &mut Work, x: &Index, frame: u32, place: Typed) -> Typed
    ensures { Does (index_at frame place (index_tree x.now)) result work.old work.new }
{
    let index = check_expression(work, &x.first, frame);
    let mut part = check_indexed(work, place, x.open, first_of_expression(&x.first), index);
    'others: for other in &x.others {
        let index = check_expression(work, &other.expression, frame);
        let first = first_of_expression(&other.expression);
        part = check_indexed(work, part, other.comma, first, index);
    }
    part
}

#[cycle(expressions)]
#[tactic(auto, using(check_steps::proofs::Runs::steps, check_steps::proofs::Runs::loops, pas_tree::proofs::ExpressionViews::members_view, crate::proofs::Walks::members_each))]
fn check_constructor(work: &mut Work, m: &Members, frame: u32) -> Typed
    ensures { Does (constructor frame (members_tree m.now)) result work.old work.new }
{
    match m {
        Members::Empty(_, close) => check_set(work, nothing_gathered(*close), LIST_END, *close),
        Members::Some(members) => {
            let none = nothing_gathered(members.close);
            let mut gathered = check_member(work, &members.first, frame, none, members.open);
            'others: for other in &members.others {
                gathered = check_member(work, &other.member, frame, gathered, other.comma);
            }
            check_set(work, gathered, members.open, members.close)
        }
    }
}

#[cycle(expressions)]
#[tactic(auto, using(check_steps::proofs::Runs::steps, pas_tree::proofs::ExpressionViews::member_view))]
fn check_member(work: &mut Work, m: &Member, frame: u32, gathered: Gathered, slot: u32) -> Gathered
    ensures { Does (member frame gathered slot (member_tree m.now)) result work.old work.new }
{
    let value = check_expression(work, &m.first, frame);
    let begun = MemberStart {
        slot,
        first: first_of_expression(&m.first),
        value,
    };
    match &m.last {
        None => check_one_member(work, gathered, begun),
        Some(end) => {
            let last = check_expression(work, &end.last, frame);
            check_member_range(work, gathered, begun, last)
        }
    }
}
