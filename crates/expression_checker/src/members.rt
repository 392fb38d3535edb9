//! Members of set constructors, once their parts are checked (6.7.1).

ghost use Rattle.std.specs.Prelude.{◌≡◌};
ghost use Rattle.check_steps.specs.Steps.{Does};
ghost use Rattle.expression_checker.specs.Members.{fits_members, gathered_type, gathered_with, host_with, is_member};
ghost use Rattle.expression_checker.specs.Members.{member_range, nothing_gathered, one_member, set_constructor};

use crate::typed::{Typed, typed_value};
use check_steps::Work;
use check_steps::items::put_item;
use core_program::rows::{ExpressionRow, ItemRow, LIST_END, Row};
use kind_checker::operators::is_unknown_shape;
use kind_checker::shapes::shape_of;
use kind_checker::{ExpressionType, Packing, Shape};

/// The first value of a member designator.
#[derive(Clone, Copy)]
pub struct MemberStart {
    /// The opening bracket or the comma before it.
    pub slot: u32,
    /// Its first token.
    pub first: u32,
    pub value: Typed,
}

/// The members of a set constructor so far.
#[derive(Clone, Copy)]
pub struct Gathered {
    /// Where the last item of their list stands; before the first, a number at which no item does.
    pub last: u32,
    /// The host type of the first that is known.
    pub host: Option<u32>,
    /// Whether all are ordinal and of that host.
    pub known: bool,
}

fn is_member(host: Option<u32>, shape: Shape) -> bool
    ensures { result ≡ is_member host shape }
{
    match (host, shape) {
        (None, Shape::Ordinal(_)) => true,
        (Some(host), Shape::Ordinal(h)) => host == h,
        _ => false,
    }
}

fn fits_members(host: Option<u32>, shape: Shape) -> bool
    ensures { result ≡ fits_members host shape }
{
    is_unknown_shape(shape) || is_member(host, shape)
}

fn host_with(host: Option<u32>, shape: Shape) -> Option<u32>
    ensures { result ≡ host_with host shape }
{
    match (host, shape) {
        (None, Shape::Ordinal(h)) => Some(h),
        _ => host,
    }
}

/// No members yet: no item stands at this number.
pub fn nothing_gathered(last: u32) -> Gathered
    ensures { result ≡ nothing_gathered last }
{
    Gathered {
        last,
        host: None,
        known: true,
    }
}

fn gathered_with(gathered: Gathered, last: u32, shape: Shape) -> Gathered
    ensures { result ≡ gathered_with gathered last shape }
{
    Gathered {
        last,
        host: host_with(gathered.host, shape),
        known: gathered.known && is_member(gathered.host, shape),
    }
}

/// A member of one value.
#[tactic(auto, using(check_steps::proofs::Runs::steps), unfolding(crate::specs::Members::one_member))]
pub fn check_one_member(work: &mut Work, gathered: Gathered, begun: MemberStart) -> Gathered
    ensures { Does (one_member gathered begun) result work.old work.new }
{
    let shape = shape_of(&work.tables, begun.value.of);
    work.late(31, begun.first, fits_members(gathered.host, shape));
    let item = ItemRow::Member {
        value: begun.value.row,
        next: LIST_END,
    };
    let last = put_item(work, gathered.last, begun.slot, item);
    gathered_with(gathered, last, shape)
}

/// The members from one value to another.
#[tactic(auto, using(check_steps::proofs::Runs::steps), unfolding(crate::specs::Members::member_range))]
pub fn check_member_range(
    work: &mut Work,
    gathered: Gathered,
    begun: MemberStart,
    end: Typed,
) -> Gathered
    ensures { Does (member_range gathered begun end) result work.old work.new }
{
    let shape = shape_of(&work.tables, begun.value.of);
    let other = shape_of(&work.tables, end.of);
    let fine = fits_members(gathered.host, shape)
        && fits_members(host_with(gathered.host, shape), other);
    work.late(31, begun.first, fine);
    let item = ItemRow::Members {
        first: begun.value.row,
        last: end.row,
        next: LIST_END,
    };
    let last = put_item(work, gathered.last, begun.slot, item);
    gathered_with(gathered_with(gathered, last, shape), last, other)
}

fn gathered_type(gathered: Gathered) -> ExpressionType
    ensures { result ≡ gathered_type gathered }
{
    if gathered.known {
        ExpressionType::Set {
            host: gathered.host,
            packing: Packing::Either,
        }
    } else {
        ExpressionType::Unknown
    }
}

/// A set constructor, at its closing bracket, with the list of its members.
#[tactic(auto, using(check_steps::proofs::Runs::steps), unfolding(crate::specs::Members::set_constructor))]
pub fn check_set(work: &mut Work, gathered: Gathered, members: u32, close: u32) -> Typed
    ensures { Does (set_constructor gathered members close) result work.old work.new }
{
    work.put(close, Row::Expression(ExpressionRow::Set { members }));
    typed_value(close, gathered_type(gathered))
}
