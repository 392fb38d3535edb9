//! Headings of procedures and functions, and their formal parameters (6.6).

use crate::constants::Names;
use crate::schemas::FormalType;

/// A heading of a procedure or of a function.
#[derive(Drop)]
#[cycle(headings)]
pub enum Heading {
    Procedure(ProcedureHeading),
    Function(FunctionHeading),
}

/// A procedure's heading (6.6.1).
#[derive(Drop)]
#[cycle(headings)]
pub struct ProcedureHeading {
    pub word: u32,
    pub name: u32,
    pub formals: Option<Formals>,
}

/// A function's heading. Its result type is left out where the function was declared forward (6.6.2).
#[derive(Drop)]
#[cycle(headings)]
pub struct FunctionHeading {
    pub word: u32,
    pub name: u32,
    pub formals: Option<Formals>,
    pub result: Option<ResultType>,
}

/// A colon and the name of a result type.
#[derive(Drop)]
pub struct ResultType {
    pub colon: u32,
    pub name: u32,
}

/// Formal parameters in parentheses, with semicolons between them (6.6.3.1).
#[derive(Drop)]
#[cycle(headings)]
pub struct Formals {
    pub open: u32,
    pub first: Formal,
    pub others: Vec<NextFormal>,
    pub close: u32,
}

/// A semicolon and the formal parameters after it.
#[derive(Drop)]
#[cycle(headings)]
pub struct NextFormal {
    pub semicolon: u32,
    pub formal: Formal,
}

/// A section of formal parameters: value parameters, variable parameters, or a procedure or function (6.6.3.1).
#[derive(Drop)]
#[cycle(headings)]
pub enum Formal {
    Value(FormalNames),
    /// The word `var` and the names.
    Variable(u32, FormalNames),
    Routine(Box<Heading>),
}

/// Names of parameters, a colon and their type.
#[derive(Drop)]
pub struct FormalNames {
    pub names: Names,
    pub colon: u32,
    pub of: FormalType,
}
