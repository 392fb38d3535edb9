//! Blocks and programs (6.2, 6.10).

use crate::constants::{Constant, Names};
use crate::denoters::Denoter;
use crate::headings::Heading;
use crate::statements::Compound;

/// A whole program, with the token that stands after it (6.10).
#[derive(Drop)]
pub struct Tree {
    pub word: u32,
    pub name: u32,
    pub parameters: Option<Parameters>,
    pub semicolon: u32,
    pub block: Block,
    pub dot: u32,
    pub end: u32,
}

/// Program parameters in parentheses (6.10).
#[derive(Drop)]
pub struct Parameters {
    pub open: u32,
    pub names: Names,
    pub close: u32,
}

/// A block: the parts that declare, and the statements (6.2.1).
#[derive(Drop)]
#[cycle(blocks)]
pub struct Block {
    pub labels: Option<LabelPart>,
    pub constants: Option<ConstantPart>,
    pub types: Option<TypePart>,
    pub variables: Option<VariablePart>,
    pub routines: Vec<Routine>,
    pub body: Compound,
}

/// A label declaration part (6.2.1).
#[derive(Drop)]
pub struct LabelPart {
    pub word: u32,
    pub first: u32,
    pub others: Vec<NextLabel>,
    pub semicolon: u32,
}

/// A comma and the label after it.
#[derive(Drop)]
pub struct NextLabel {
    pub comma: u32,
    pub number: u32,
}

/// A constant definition part (6.2.1).
#[derive(Drop)]
pub struct ConstantPart {
    pub word: u32,
    pub first: ConstantDefinition,
    pub others: Vec<ConstantDefinition>,
}

/// A constant definition: a name, `=`, a constant and a semicolon (6.3).
#[derive(Drop)]
pub struct ConstantDefinition {
    pub name: u32,
    pub equal: u32,
    pub constant: Constant,
    pub semicolon: u32,
}

/// A type definition part (6.2.1).
#[derive(Drop)]
pub struct TypePart {
    pub word: u32,
    pub first: TypeDefinition,
    pub others: Vec<TypeDefinition>,
}

/// A type definition: a name, `=`, a type denoter and a semicolon (6.4.1).
#[derive(Drop)]
pub struct TypeDefinition {
    pub name: u32,
    pub equal: u32,
    pub denoter: Denoter,
    pub semicolon: u32,
}

/// A variable declaration part (6.2.1).
#[derive(Drop)]
pub struct VariablePart {
    pub word: u32,
    pub first: VariableDeclaration,
    pub others: Vec<VariableDeclaration>,
}

/// A variable declaration: names, a colon, their type and a semicolon (6.5.1).
#[derive(Drop)]
pub struct VariableDeclaration {
    pub names: Names,
    pub colon: u32,
    pub denoter: Denoter,
    pub semicolon: u32,
}

/// A declaration of a procedure or a function.
#[derive(Drop)]
#[cycle(blocks)]
pub struct Routine {
    pub heading: Heading,
    pub semicolon: u32,
    pub body: RoutineBody,
    pub last_semicolon: u32,
}

/// A directive's name, or a block.
#[derive(Drop)]
#[cycle(blocks)]
pub enum RoutineBody {
    Directive(u32),
    Block(Box<Block>),
}
