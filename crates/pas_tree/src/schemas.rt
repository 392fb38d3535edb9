//! Conformant array schemas, and the types of formal parameters (6.6.3.7.1).

/// The type of a section of parameters: a type's name, or the schema of a conformant array.
#[derive(Drop)]
#[cycle(schemas)]
pub enum FormalType {
    Name(u32),
    Schema(Box<Schema>),
}

/// The schema of a conformant array.
#[derive(Drop)]
#[cycle(schemas)]
pub enum Schema {
    Packed(PackedSchema),
    Unpacked(UnpackedSchema),
}

/// A packed schema: its one spec in brackets and the name of the component type.
#[derive(Drop)]
pub struct PackedSchema {
    pub packed: u32,
    pub word: u32,
    pub open: u32,
    pub spec: Spec,
    pub close: u32,
    pub of: u32,
    pub component: u32,
}

/// A schema that is not packed: its specs in brackets and the type of the components.
#[derive(Drop)]
#[cycle(schemas)]
pub struct UnpackedSchema {
    pub word: u32,
    pub open: u32,
    pub specs: Specs,
    pub close: u32,
    pub of: u32,
    pub component: FormalType,
}

/// Specs with semicolons between them.
#[derive(Drop)]
pub struct Specs {
    pub first: Spec,
    pub others: Vec<NextSpec>,
}

/// A semicolon and the spec after it.
#[derive(Drop)]
pub struct NextSpec {
    pub semicolon: u32,
    pub spec: Spec,
}

/// An index type specification: the names of the least and of the greatest index, and that of their type.
#[derive(Drop)]
pub struct Spec {
    pub least: u32,
    pub range: u32,
    pub greatest: u32,
    pub colon: u32,
    pub of: u32,
}
