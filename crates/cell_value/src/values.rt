//! What one cell holds.

/// The members of a set, whose ordinals are 0 to 255: the ordinal `k` is a member where bit
/// `k % 64` of `words[k / 64]` is set.
#[derive(Clone, Copy, Debug, PartialEq, Eq)]
pub struct SetBits {
    pub words: [u64; 4],
}

/// What one cell of a variable holds.
#[derive(Clone, Copy, Debug, PartialEq, Eq)]
pub enum Value {
    /// Nothing was assigned to the cell yet.
    Undefined,
    /// An integer, or the ordinal of a value of another ordinal type.
    Number(i64),
    /// A set.
    Bits(SetBits),
    /// The pointer `nil`.
    Nil,
    /// A pointer to the variable on the heap that begins at this address.
    Heap(u32),
    /// The address of the variable that a variable parameter stands for.
    Place(u32),
    /// The address of the frame of an activation.
    Frame(u32),
    /// A procedure or function as a parameter: the number of the routine, and the address of the
    /// frame in which it was passed.
    Routine(u32, u32),
}

/// The relational operators but `in` (ISO 7185, clause 6.7.2.5).
#[derive(Clone, Copy, Debug, PartialEq, Eq)]
pub enum Order {
    Equal,
    NotEqual,
    Less,
    Greater,
    AtMost,
    AtLeast,
}
