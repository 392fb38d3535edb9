//! Regions and frames.

use crate::keyed::Keyed;
use indexmap::IndexMap;

/// What a name stands for, by a number of the tables.
#[derive(Clone, Copy, PartialEq, Eq)]
pub enum Def {
    Constant(u32),
    TypeName(u32),
    Variable(u32),
    Field(u32),
    /// A routine, by the token of its name in its first heading.
    Routine(u32),
    /// A parameter.
    Formal(u32),
    /// A required procedure or function.
    Required(u32),
    TextFile(u32),
}

/// A definition of a name.
#[derive(Clone, Copy)]
pub struct Definition {
    pub def: Def,
    /// The token that it defines; a required name has a number after the last token.
    pub token: u32,
    /// The token from which on the name may be used for it.
    pub end: u32,
}

/// A definition that was found, and the frame whose region has it.
#[derive(Clone, Copy)]
pub struct Found {
    pub definition: Definition,
    pub frame: u32,
}

/// A region with what surrounds it where names are looked up.
#[derive(Clone, Copy)]
pub struct Frame {
    pub region: u32,
    /// The frame around it, and None of the outermost.
    pub outer: Option<u32>,
    /// How many blocks are around the one that it belongs to.
    pub level: u32,
    /// How many with statements of that block are around it or opened it.
    pub withs: u32,
}

/// A block, by its first token and the first token of its statement part.
#[derive(Clone, Copy)]
pub struct Span {
    pub first: u32,
    pub statements: u32,
}

/// A region: what its names and labels stand for.
#[derive(Drop)]
pub struct Region {
    /// The token at which it begins.
    pub token: u32,
    /// Its own frame: what surrounds it in the source.
    pub frame: u32,
    /// Its definitions by the numbers of their names, in order.
    pub names: IndexMap<u32, Definition>,
    /// Of a block, the tokens that declare its labels, by the labels' values.
    pub labels: IndexMap<u32, u32, Keyed>,
}
