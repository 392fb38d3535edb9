//! Statements (6.8).

use crate::constants::Constants;
use crate::expressions::{Access, Expression};
use crate::operators::Direction;

/// A compound statement: `begin`, statements, `end` (6.8.3.2).
#[derive(Drop)]
#[cycle(statements)]
pub struct Compound {
    pub begin: u32,
    pub statements: Statements,
    pub end: u32,
}

/// Statements with semicolons between them.
#[derive(Drop)]
#[cycle(statements)]
pub struct Statements {
    pub first: Statement,
    pub others: Vec<NextStatement>,
}

/// A semicolon and the statement after it.
#[derive(Drop)]
#[cycle(statements)]
pub struct NextStatement {
    pub semicolon: u32,
    pub statement: Statement,
}

/// A statement: its label, if it has one, and the rest (6.8.1).
#[derive(Drop)]
#[cycle(statements)]
pub struct Statement {
    pub label: Option<Label>,
    pub plain: Plain,
}

/// A label and its colon (6.8.1).
#[derive(Drop)]
pub struct Label {
    pub number: u32,
    pub colon: u32,
}

/// A statement without its label (6.8.2, 6.8.3). Whether a name alone calls a procedure is left to the static rules.
#[derive(Drop)]
#[cycle(statements)]
pub enum Plain {
    Empty,
    Assignment(Box<Assignment>),
    /// The procedure's name and its actual parameters.
    Call(u32, Option<Box<Actuals>>),
    /// The word `goto` and the label.
    Goto(u32, u32),
    Compound(Box<Compound>),
    If(Box<If>),
    Case(Box<Case>),
    Repeat(Box<Repeat>),
    While(Box<While>),
    For(Box<For>),
    With(Box<With>),
}

/// An assignment: the variable or the function, `:=` and the value (6.8.2.2).
#[derive(Drop)]
pub struct Assignment {
    pub target: Access,
    pub becomes: u32,
    pub value: Expression,
}

/// Actual parameters in parentheses, with commas between them (6.7.3, 6.8.2.3).
#[derive(Drop)]
pub struct Actuals {
    pub open: u32,
    pub first: Actual,
    pub others: Vec<NextActual>,
    pub close: u32,
}

/// A comma and the actual parameter after it.
#[derive(Drop)]
pub struct NextActual {
    pub comma: u32,
    pub actual: Actual,
}

/// An actual parameter, with a width where it is written.
#[derive(Drop)]
pub struct Actual {
    pub expression: Expression,
    pub width: Option<Width>,
}

/// A colon and a field width, as in a call of `write` (6.9.3).
#[derive(Drop)]
pub struct Width {
    pub colon: u32,
    pub width: Expression,
}

/// An if statement, with its else part if there is one (6.8.3.4).
#[derive(Drop)]
#[cycle(statements)]
pub struct If {
    pub word: u32,
    pub condition: Expression,
    pub then: u32,
    pub statement: Statement,
    pub alternative: Option<Else>,
}

/// The word `else` and the statement after it.
#[derive(Drop)]
#[cycle(statements)]
pub struct Else {
    pub word: u32,
    pub statement: Statement,
}

/// A case statement, perhaps with a semicolon after its last branch (6.8.3.5).
#[derive(Drop)]
#[cycle(statements)]
pub struct Case {
    pub word: u32,
    pub selector: Expression,
    pub of: u32,
    pub first: Branch,
    pub others: Vec<NextBranch>,
    pub semicolon: Option<u32>,
    pub end: u32,
}

/// A semicolon and the branch after it.
#[derive(Drop)]
#[cycle(statements)]
pub struct NextBranch {
    pub semicolon: u32,
    pub branch: Branch,
}

/// A case list element: constants, a colon and a statement (6.8.3.5).
#[derive(Drop)]
#[cycle(statements)]
pub struct Branch {
    pub constants: Constants,
    pub colon: u32,
    pub statement: Statement,
}

/// A repeat statement (6.8.3.7).
#[derive(Drop)]
#[cycle(statements)]
pub struct Repeat {
    pub word: u32,
    pub statements: Statements,
    pub until: u32,
    pub condition: Expression,
}

/// A while statement (6.8.3.8).
#[derive(Drop)]
#[cycle(statements)]
pub struct While {
    pub word: u32,
    pub condition: Expression,
    pub do_word: u32,
    pub statement: Statement,
}

/// A for statement (6.8.3.9).
#[derive(Drop)]
#[cycle(statements)]
pub struct For {
    pub word: u32,
    pub name: u32,
    pub becomes: u32,
    pub initial: Expression,
    pub direction: Direction,
    pub last: Expression,
    pub do_word: u32,
    pub statement: Statement,
}

/// A with statement (6.8.3.10).
#[derive(Drop)]
#[cycle(statements)]
pub struct With {
    pub word: u32,
    pub first: Access,
    pub others: Vec<NextAccess>,
    pub do_word: u32,
    pub statement: Statement,
}

/// A comma and the access after it.
#[derive(Drop)]
pub struct NextAccess {
    pub comma: u32,
    pub access: Access,
}
