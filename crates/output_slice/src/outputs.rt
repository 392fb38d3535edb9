//! What a call leaves to its caller.

/// One thing that a call leaves to its caller.
#[derive(Clone, Copy, Debug, PartialEq, Eq)]
pub enum Output {
    /// The cell at this address, which it changed.
    Cell(u32),
    /// The value of a function.
    Result,
    /// The bytes that it gave.
    Gives,
    /// The items of the input that it took.
    Takes,
    /// The cells of the heap that it made.
    Makes,
    /// A way out other than a return.
    Way,
}
