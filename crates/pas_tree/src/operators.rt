//! Terminals of which a rule takes one of several.

/// A sign.
#[derive(Drop)]
pub enum Sign {
    Plus(u32),
    Minus(u32),
}

/// An adding operator (6.7.2.1).
#[derive(Drop)]
pub enum AddingOperator {
    Plus(u32),
    Minus(u32),
    Or(u32),
}

/// A multiplying operator (6.7.2.1).
#[derive(Drop)]
pub enum MultiplyingOperator {
    Times(u32),
    Div(u32),
    Mod(u32),
    And(u32),
}

/// A relational operator (6.7.2.1).
#[derive(Drop)]
pub enum RelationalOperator {
    Equal(u32),
    NotEqual(u32),
    Less(u32),
    AtMost(u32),
    Greater(u32),
    AtLeast(u32),
    In(u32),
}

/// Whether a for statement counts up or down (6.8.3.9).
#[derive(Drop)]
pub enum Direction {
    To(u32),
    Downto(u32),
}
