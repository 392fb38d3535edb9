//! How a call ends.

/// The kinds of fault of a running program.
#[derive(Clone, Copy, Debug, PartialEq, Eq)]
pub enum Kind {
    /// A result outside -maxint to maxint.
    Overflow,
    /// `div` by 0.
    ZeroDivisor,
    /// `mod` by 0 or less.
    BadModulus,
    /// A value outside the range that it is to lie in.
    OutOfRange,
    /// A use of a cell to which nothing was assigned.
    Undefined,
    /// A use of the variable of a pointer that is `nil`.
    NilPointer,
    /// A use of a variable that was disposed of.
    Disposed,
    /// A read of a field of a variant that is not active.
    InactiveVariant,
    /// A `case` in which no constant is the index's value.
    NoCase,
    /// A read past the end of the input.
    PastEnd,
    /// A read of an integer where no number stands.
    BadNumber,
    /// A width below 1 in a write.
    BadWidth,
    /// A function that ends with no result assigned.
    UndefinedResult,
}

/// The limits of a run.
#[derive(Clone, Copy, Debug, PartialEq, Eq)]
pub enum Which {
    /// On the number of calls.
    Calls,
    /// On the depth of calls in one another.
    Depth,
    /// On the cells of the stack.
    Stack,
    /// On the cells of the heap.
    Heap,
}

/// How a call ended.
#[derive(Clone, Copy, Debug, PartialEq, Eq)]
pub enum WayOut {
    /// It came to its end.
    Returned,
    /// A `goto` left it: the number of the label, and the address of the frame that holds it.
    Jumped(u32, u32),
    /// A fault, and the line of the source at which it came.
    Faulted(Kind, u32),
    /// The steps of the run were used up.
    OutOfSteps,
    /// A limit of the run was reached.
    Limited(Which),
}
