//! What an array type says of its components.

/// The bounds of an array's index type, and the cells of a component.
#[derive(Clone, Copy, Debug, PartialEq, Eq)]
pub struct Components {
    /// The least ordinal of the index type.
    pub least: i32,
    /// The greatest one.
    pub greatest: i32,
    /// The cells of a component.
    pub size: u32,
}

/// The bounds of an ordinal type, or of an array in one dimension.
#[derive(Clone, Copy, Debug, PartialEq, Eq)]
pub struct Extent {
    pub least: i32,
    pub greatest: i32,
}

/// A spec of a conformant parameter: the bounds of its type, and the place in a frame of the cell with the least index
/// of the array. The cell after that has the greatest one.
#[derive(Clone, Copy, Debug, PartialEq, Eq)]
pub struct HeldSpec {
    pub within: Extent,
    pub place: u32,
}
