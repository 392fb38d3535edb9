//! Where expressions begin, and the tokens of selectors.

ghost use Rattle.std.specs.Prelude.{◌≡◌};
ghost use Rattle.pas_tree.specs.ExpressionPlaces.{first_of_expression, first_of_factor, first_of_member};
ghost use Rattle.pas_tree.specs.ExpressionPlaces.{first_of_members, first_of_simple, first_of_term, selector_token};
ghost use Rattle.pas_tree.specs.ExpressionTrees.{expression_tree, factor_tree, member_tree, members_tree};
ghost use Rattle.pas_tree.specs.ExpressionTrees.{selector_tree, simple_tree, term_tree};

use crate::expressions::{Expression, Factor, Member, Members, Selector, Simple, Term};
use crate::operator_places::sign_token;

/// The first token of a set constructor.
#[tactic(auto, using(crate::proofs::ExpressionViews::members_view))]
pub fn first_of_members(members: &Members) -> u32
    ensures { result ≡ first_of_members (members_tree members.now) }
{
    match members {
        Members::Empty(open, _) => *open,
        Members::Some(members) => members.open,
    }
}

/// The first token of a factor.
#[tactic(auto, using(crate::proofs::ExpressionViews::access_view))]
pub fn first_of_factor(factor: &Factor) -> u32
    ensures { result ≡ first_of_factor (factor_tree factor.now) }
{
    match factor {
        Factor::Number(token) => *token,
        Factor::Text(token) => *token,
        Factor::Nil(token) => *token,
        Factor::Access(access) => access.name,
        Factor::Call(name, _) => *name,
        Factor::Paren(open, _, _) => *open,
        Factor::Set(members) => first_of_members(members),
        Factor::Not(word, _) => *word,
    }
}

/// The first token of a term.
#[tactic(auto, using(crate::proofs::ExpressionViews::term_view))]
pub fn first_of_term(term: &Term) -> u32
    ensures { result ≡ first_of_term (term_tree term.now) }
{
    first_of_factor(&term.first)
}

/// The first token of a simple expression.
#[tactic(auto, using(crate::proofs::ExpressionViews::simple_view))]
pub fn first_of_simple(simple: &Simple) -> u32
    ensures { result ≡ first_of_simple (simple_tree simple.now) }
{
    match &simple.sign {
        Some(sign) => sign_token(sign),
        None => first_of_term(&simple.first),
    }
}

/// The first token of an expression.
#[tactic(auto, using(crate::proofs::ExpressionViews::expression_view))]
pub fn first_of_expression(expression: &Expression) -> u32
    ensures { result ≡ first_of_expression (expression_tree expression.now) }
{
    first_of_simple(&expression.left)
}

/// The first token of a member designator.
#[tactic(auto, using(crate::proofs::ExpressionViews::member_view))]
pub fn first_of_member(member: &Member) -> u32
    ensures { result ≡ first_of_member (member_tree member.now) }
{
    first_of_expression(&member.first)
}

/// The token of a selector: of indices the `[`, of a field its name, and the `^`.
#[tactic(auto, using(crate::proofs::ExpressionViews::index_view))]
pub fn selector_token(selector: &Selector) -> u32
    ensures { result ≡ selector_token (selector_tree selector.now) }
{
    match selector {
        Selector::Index(index) => index.open,
        Selector::Field(_, name) => *name,
        Selector::Dereference(caret) => *caret,
    }
}
