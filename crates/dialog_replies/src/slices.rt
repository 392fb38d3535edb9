//! What there is where a slice is asked for.

/// What there is where the slice of an output of a call is asked for, by the name of that output.
#[derive(Drop)]
pub enum SliceOf<S> {
    /// The slice.
    Slice(S),
    /// The name is that of no output of the call.
    NoOutput,
    /// The calls below did too much for it.
    TooMany,
}
