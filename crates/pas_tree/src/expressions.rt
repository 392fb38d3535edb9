//! Expressions and accesses of variables (6.5, 6.7).

use crate::operators::{AddingOperator, MultiplyingOperator, RelationalOperator, Sign};

/// An expression: a simple expression, and perhaps a relation to a second one (6.7.1).
#[derive(Drop)]
#[cycle(expressions)]
pub struct Expression {
    pub left: Simple,
    pub relation: Option<Relation>,
}

/// A relational operator and what stands to its right.
#[derive(Drop)]
#[cycle(expressions)]
pub struct Relation {
    pub operator: RelationalOperator,
    pub right: Simple,
}

/// A simple expression. The sign is that of the first term.
#[derive(Drop)]
#[cycle(expressions)]
pub struct Simple {
    pub sign: Option<Sign>,
    pub first: Term,
    pub others: Vec<NextTerm>,
}

/// An adding operator and the term after it.
#[derive(Drop)]
#[cycle(expressions)]
pub struct NextTerm {
    pub operator: AddingOperator,
    pub term: Term,
}

/// A term: factors with multiplying operators between them (6.7.1).
#[derive(Drop)]
#[cycle(expressions)]
pub struct Term {
    pub first: Factor,
    pub others: Vec<NextFactor>,
}

/// A multiplying operator and the factor after it.
#[derive(Drop)]
#[cycle(expressions)]
pub struct NextFactor {
    pub operator: MultiplyingOperator,
    pub factor: Factor,
}

/// A factor. A name alone is an access, also where it names a constant or a function.
#[derive(Drop)]
#[cycle(expressions)]
pub enum Factor {
    Number(u32),
    Text(u32),
    Nil(u32),
    Access(Access),
    /// A function's name and its arguments.
    Call(u32, Box<Arguments>),
    Paren(u32, Box<Expression>, u32),
    Set(Box<Members>),
    Not(u32, Box<Factor>),
}

/// An access of a variable: its name, and then indices, fields and dereferences.
#[derive(Drop)]
#[cycle(expressions)]
pub struct Access {
    pub name: u32,
    pub selectors: Vec<Selector>,
}

/// What selects a part of a variable (6.5.3, 6.5.4).
#[derive(Drop)]
#[cycle(expressions)]
pub enum Selector {
    Index(Index),
    /// The dot and the field's name.
    Field(u32, u32),
    Dereference(u32),
}

/// Indices in brackets, with commas between them (6.5.3.2).
#[derive(Drop)]
#[cycle(expressions)]
pub struct Index {
    pub open: u32,
    pub first: Expression,
    pub others: Vec<NextExpression>,
    pub close: u32,
}

/// A comma and the expression after it.
#[derive(Drop)]
#[cycle(expressions)]
pub struct NextExpression {
    pub comma: u32,
    pub expression: Expression,
}

/// A function call's actual parameters in parentheses (6.7.3).
#[derive(Drop)]
#[cycle(expressions)]
pub struct Arguments {
    pub open: u32,
    pub first: Expression,
    pub others: Vec<NextExpression>,
    pub close: u32,
}

/// A set constructor.
#[derive(Drop)]
#[cycle(expressions)]
pub enum Members {
    /// The two brackets.
    Empty(u32, u32),
    Some(SomeMembers),
}

/// A set constructor with at least one member designator (6.7.1).
#[derive(Drop)]
#[cycle(expressions)]
pub struct SomeMembers {
    pub open: u32,
    pub first: Member,
    pub others: Vec<NextMember>,
    pub close: u32,
}

/// A comma and the member designator after it.
#[derive(Drop)]
#[cycle(expressions)]
pub struct NextMember {
    pub comma: u32,
    pub member: Member,
}

/// A member designator: a value, or the first and the last of a range (6.7.1).
#[derive(Drop)]
#[cycle(expressions)]
pub struct Member {
    pub first: Expression,
    pub last: Option<RangeEnd>,
}

/// The `..` of a range and the last value.
#[derive(Drop)]
#[cycle(expressions)]
pub struct RangeEnd {
    pub range: u32,
    pub last: Expression,
}
