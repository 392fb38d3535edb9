//! The operators (6.7.2): which operands fit which, and what comes of them.

ghost use Rattle.std.specs.Prelude.{if◌then◌else◌, ◌≡◌, None, Some};
ghost use Rattle.kind_checker.specs.Operators.{done_by, equality_rows, fits, is_of_host, is_operand, is_ordinal};
ghost use Rattle.kind_checker.specs.Operators.{is_unknown_shape, joined_packing, member_and_set, more_related, of_host};
ghost use Rattle.kind_checker.specs.Operators.{on_both, operation_of, operation_row, operation_type, set_of_both};
ghost use Rattle.kind_checker.specs.Operators.{two_ordinals, two_pointers, two_sets, two_strings};
ghost use Rattle.kind_checker.specs.declared.operators.Operator.TheVariants as operator;

use crate::shapes::{ExpressionType, Packing, Shape, hosts_agree, packings_agree};
use cell_value::{ArithOp, Order};
use core_program::rows::{BOOLEAN, ExpressionRow, INTEGER, Logic, Row, SetOperator};

/// An operator with two operands.
#[derive(Clone, Copy)]
pub enum Operator {
    Plus,
    Minus,
    Times,
    Div,
    Mod,
    And,
    Or,
    Relation(Order),
    In,
}

/// What an operator does with operands that fit it.
#[derive(Clone, Copy)]
pub enum Operation {
    Arithmetic(ArithOp),
    Logic(Logic),
    /// An operation on sets: the host type of the members of what it gives, and whether that is packed.
    Sets {
        operator: SetOperator,
        host: Option<u32>,
        packing: Packing,
    },
    /// A relation of two ordinals.
    Compare(Order),
    CompareTexts(Order),
    CompareSets(Order),
    /// Whether two pointers are equal, or whether they are not.
    ComparePointers {
        equal: bool,
    },
    In,
}

/// Whether a broken rule leaves a type unknown.
pub fn is_unknown_shape(shape: Shape) -> bool
    ensures { result ≡ is_unknown_shape shape }
{
    match shape {
        Shape::Unknown => true,
        _ => false,
    }
}

/// Whether a type is an ordinal one, if it is known.
pub fn is_ordinal(shape: Shape) -> bool
    ensures { result ≡ is_ordinal shape }
{
    match shape {
        Shape::Ordinal(_) => true,
        _ => is_unknown_shape(shape),
    }
}

/// Whether a type is an ordinal one of this host.
pub fn is_of_host(host: u32, shape: Shape) -> bool
    ensures { result ≡ is_of_host host shape }
{
    match shape {
        Shape::Ordinal(h) => h == host,
        _ => false,
    }
}

/// Whether a type is an ordinal one of this host, or unknown.
pub fn is_operand(host: u32, shape: Shape) -> bool
    ensures { result ≡ is_operand host shape }
{
    is_unknown_shape(shape) || is_of_host(host, shape)
}

/// Whether both operands are ordinals of this host type.
fn of_host(host: u32, left: Shape, right: Shape) -> bool
    ensures { result ≡ of_host host left right }
{
    is_of_host(host, left) && is_of_host(host, right)
}

/// Whether both operands are ordinals of one host type.
fn two_ordinals(left: Shape, right: Shape) -> bool
    ensures { result ≡ two_ordinals left right }
{
    match (left, right) {
        (Shape::Ordinal(a), Shape::Ordinal(b)) => a == b,
        _ => false,
    }
}

/// Whether both operands are strings of equal length.
fn two_strings(left: Shape, right: Shape) -> bool
    ensures { result ≡ two_strings left right }
{
    match (left, right) {
        (Shape::Text(m), Shape::Text(n)) => m == n,
        _ => false,
    }
}

/// Whether both operands are sets, of compatible types.
fn two_sets(left: Shape, right: Shape) -> bool
    ensures { result ≡ two_sets left right }
{
    match (left, right) {
        (
            Shape::Set {
                host: a,
                packing: p,
            },
            Shape::Set {
                host: b,
                packing: q,
            },
        ) => hosts_agree(a, b) && packings_agree(p, q),
        _ => false,
    }
}

/// Whether both operands are pointers of one type, or nil.
fn two_pointers(left: Shape, right: Shape) -> bool
    ensures { result ≡ two_pointers left right }
{
    match (left, right) {
        (Shape::Pointer(a), Shape::Pointer(b)) => a == b,
        (Shape::Pointer(_), Shape::Nil) => true,
        (Shape::Nil, Shape::Pointer(_)) => true,
        (Shape::Nil, Shape::Nil) => true,
        _ => false,
    }
}

/// Whether the left operand is an ordinal, and the right one a set whose members have its host type.
fn member_and_set(left: Shape, right: Shape) -> bool
    ensures { result ≡ member_and_set left right }
{
    match (left, right) {
        (Shape::Ordinal(h), Shape::Set { host, .. }) => hosts_agree(Some(h), host),
        _ => false,
    }
}

fn joined_packing(left: Packing, right: Packing) -> Packing
    ensures { result ≡ joined_packing left right }
{
    match left {
        Packing::Either => right,
        _ => left,
    }
}

/// The operation on two sets.
fn set_of_both(operator: SetOperator, left: Shape, right: Shape) -> Operation
    ensures { result ≡ set_of_both operator left right }
{
    match (left, right) {
        (
            Shape::Set {
                host: a,
                packing: p,
            },
            Shape::Set {
                host: b,
                packing: q,
            },
        ) => Operation::Sets {
            operator,
            host: a.or(b),
            packing: joined_packing(p, q),
        },
        _ => Operation::Sets {
            operator,
            host: None,
            packing: Packing::Either,
        },
    }
}

/// What `+`, `-` or `*` does: on integers, or on sets.
fn on_both(
    arithmetic: ArithOp,
    operator: SetOperator,
    left: Shape,
    right: Shape,
) -> Option<Operation>
    ensures { result ≡ done_by (on_both arithmetic operator) left right }
{
    if of_host(INTEGER, left, right) {
        Some(Operation::Arithmetic(arithmetic))
    } else if two_sets(left, right) {
        Some(set_of_both(operator, left, right))
    } else {
        None
    }
}

/// An operation where its operands fit it.
fn where_fit(fit: bool, operation: Operation) -> Option<Operation>
    ensures { result ≡ (if fit then Some operation else None) }
{
    if fit { Some(operation) } else { None }
}

/// Whether two sets or two pointers are equal, or whether they are not.
fn equality(order: Order, equal: bool, left: Shape, right: Shape) -> Option<Operation>
    ensures { result ≡ done_by (equality_rows order equal) left right }
{
    if two_sets(left, right) {
        Some(Operation::CompareSets(order))
    } else {
        where_fit(
            two_pointers(left, right),
            Operation::ComparePointers { equal },
        )
    }
}

/// What a relation does with sets and pointers.
fn more_related(order: Order, left: Shape, right: Shape) -> Option<Operation>
    ensures { result ≡ done_by (more_related order) left right }
{
    match order {
        Order::Equal => equality(order, true, left, right),
        Order::NotEqual => equality(order, false, left, right),
        Order::AtMost => where_fit(two_sets(left, right), Operation::CompareSets(order)),
        Order::AtLeast => where_fit(two_sets(left, right), Operation::CompareSets(order)),
        _ => None,
    }
}

/// What a relation does with operands of these types.
fn related(order: Order, left: Shape, right: Shape) -> Option<Operation>
    ensures { result ≡ operation_of (operator.Relation order) left right }
{
    if two_ordinals(left, right) {
        Some(Operation::Compare(order))
    } else if two_strings(left, right) {
        Some(Operation::CompareTexts(order))
    } else {
        more_related(order, left, right)
    }
}

/// What an operator does with operands of these types, and None where they don't fit it or one is unknown.
pub fn operation_of(operator: Operator, left: Shape, right: Shape) -> Option<Operation>
    ensures { result ≡ operation_of operator left right }
{
    let integers = of_host(INTEGER, left, right);
    let booleans = of_host(BOOLEAN, left, right);
    match operator {
        Operator::Plus => on_both(ArithOp::Plus, SetOperator::Union, left, right),
        Operator::Minus => on_both(ArithOp::Minus, SetOperator::Difference, left, right),
        Operator::Times => on_both(ArithOp::Times, SetOperator::Intersection, left, right),
        Operator::Div => where_fit(integers, Operation::Arithmetic(ArithOp::Div)),
        Operator::Mod => where_fit(integers, Operation::Arithmetic(ArithOp::Mod)),
        Operator::And => where_fit(booleans, Operation::Logic(Logic::And)),
        Operator::Or => where_fit(booleans, Operation::Logic(Logic::Or)),
        Operator::Relation(order) => related(order, left, right),
        Operator::In => where_fit(member_and_set(left, right), Operation::In),
    }
}

/// Whether operands of these types fit an operator. One of unknown type fits each.
pub fn fits(operator: Operator, left: Shape, right: Shape) -> bool
    ensures { result ≡ fits operator left right }
{
    is_unknown_shape(left)
        || is_unknown_shape(right)
        || operation_of(operator, left, right).is_some()
}

/// The type of what an operation gives.
pub fn operation_type(operation: Option<Operation>) -> ExpressionType
    ensures { result ≡ operation_type operation }
{
    match operation {
        None => ExpressionType::Unknown,
        Some(Operation::Arithmetic(_)) => ExpressionType::Of(INTEGER),
        Some(Operation::Sets { host, packing, .. }) => ExpressionType::Set { host, packing },
        Some(_) => ExpressionType::Of(BOOLEAN),
    }
}

/// The row of an operation on operands of these numbers.
pub fn operation_row(operation: Option<Operation>, left: u32, right: u32) -> Row
    ensures { result ≡ operation_row operation left right }
{
    let Some(operation) = operation else {
        return Row::Nothing;
    };
    let row = match operation {
        Operation::Arithmetic(operator) => ExpressionRow::Arithmetic {
            operator,
            left,
            right,
        },
        Operation::Logic(operator) => ExpressionRow::Logic {
            operator,
            left,
            right,
        },
        Operation::Sets { operator, .. } => ExpressionRow::Sets {
            operator,
            left,
            right,
        },
        Operation::Compare(order) => ExpressionRow::Compare { order, left, right },
        Operation::CompareTexts(order) => ExpressionRow::CompareTexts { order, left, right },
        Operation::CompareSets(order) => ExpressionRow::CompareSets { order, left, right },
        Operation::ComparePointers { equal } => ExpressionRow::ComparePointers {
            equal,
            left,
            right,
        },
        Operation::In => ExpressionRow::In { left, right },
    };
    Row::Expression(row)
}
