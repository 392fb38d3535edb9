//! Type denoters (6.4).

use crate::constants::{Constant, Constants, Names};

/// A type denoter (6.4.1).
#[derive(Drop)]
#[cycle(denoters)]
pub enum Denoter {
    Name(u32),
    Enumeration(Enumeration),
    /// The first constant, the `..` and the last.
    Subrange(Constant, u32, Constant),
    /// The `^` and the name of the domain type.
    Pointer(u32, u32),
    /// The word `packed`, if it stands there, and what is structured.
    Structure(Option<u32>, Box<Structure>),
}

/// An enumerated type: names in parentheses (6.4.2.3).
#[derive(Drop)]
pub struct Enumeration {
    pub open: u32,
    pub names: Names,
    pub close: u32,
}

/// A structured type without the word `packed` (6.4.3).
#[derive(Drop)]
#[cycle(denoters)]
pub enum Structure {
    Array(ArrayDenoter),
    Record(RecordDenoter),
    Set(SetDenoter),
}

/// An array type: index types in brackets and the component type (6.4.3.2).
#[derive(Drop)]
#[cycle(denoters)]
pub struct ArrayDenoter {
    pub word: u32,
    pub open: u32,
    pub first: Denoter,
    pub others: Vec<NextDenoter>,
    pub close: u32,
    pub of: u32,
    pub component: Denoter,
}

/// A comma and the index type after it.
#[derive(Drop)]
#[cycle(denoters)]
pub struct NextDenoter {
    pub comma: u32,
    pub denoter: Denoter,
}

/// A record type (6.4.3.3).
#[derive(Drop)]
#[cycle(denoters)]
pub struct RecordDenoter {
    pub word: u32,
    pub fields: Fields,
    pub end: u32,
}

/// A set type (6.4.3.4).
#[derive(Drop)]
#[cycle(denoters)]
pub struct SetDenoter {
    pub word: u32,
    pub of: u32,
    pub base: Denoter,
}

/// A field list: a fixed part, a variant part, or both, and perhaps a last semicolon; or nothing.
#[derive(Drop)]
#[cycle(denoters)]
pub enum Fields {
    Empty,
    Fixed(Fixed, Option<NextVariants>, Option<u32>),
    Variants(Box<Variants>, Option<u32>),
}

/// A fixed part: sections with semicolons between them (6.4.3.3).
#[derive(Drop)]
#[cycle(denoters)]
pub struct Fixed {
    pub first: Section,
    pub others: Vec<NextSection>,
}

/// A record section: names, a colon and their type (6.4.3.3).
#[derive(Drop)]
#[cycle(denoters)]
pub struct Section {
    pub names: Names,
    pub colon: u32,
    pub denoter: Denoter,
}

/// A semicolon and the section after it.
#[derive(Drop)]
#[cycle(denoters)]
pub struct NextSection {
    pub semicolon: u32,
    pub section: Section,
}

/// A semicolon and the variant part after it.
#[derive(Drop)]
#[cycle(denoters)]
pub struct NextVariants {
    pub semicolon: u32,
    pub variants: Box<Variants>,
}

/// A variant part.
#[derive(Drop)]
#[cycle(denoters)]
pub struct Variants {
    pub word: u32,
    pub tag: Tag,
    pub of: u32,
    pub first: Arm,
    pub others: Vec<NextArm>,
}

/// The tag field, if there is one, and the name of the tag's type.
#[derive(Drop)]
pub struct Tag {
    pub field: Option<TagField>,
    pub name: u32,
}

/// A tag field's name and its colon.
#[derive(Drop)]
pub struct TagField {
    pub name: u32,
    pub colon: u32,
}

/// A variant.
#[derive(Drop)]
#[cycle(denoters)]
pub struct Arm {
    pub constants: Constants,
    pub colon: u32,
    pub open: u32,
    pub fields: Fields,
    pub close: u32,
}

/// A semicolon and the variant after it.
#[derive(Drop)]
#[cycle(denoters)]
pub struct NextArm {
    pub semicolon: u32,
    pub arm: Arm,
}
