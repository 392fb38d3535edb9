//! The limits that several of the crates above know. Clauses say them by their numbers, so that none moves with these.

/// The most steps that a run may take.
pub const MOST_STEPS: u32 = 4_000_000;

/// The most bytes of an input.
pub const INPUT_BYTES: u64 = 4_194_304;

/// The first address above the stack, which is the first of the heap.
pub const STACK_END: u32 = 524_288;

/// The first address above the heap.
pub const HEAP_END: u32 = 1_048_576;

/// The most calls that a run may enter.
pub const MOST_CALLS: u32 = 500_000;

/// The greatest depth at which a call may stand.
pub const MOST_DEPTH: u32 = 99_999;

/// The most entries of the log that are gone over for one answer.
pub const MOST_TOUCHES: u64 = 50_000_000;
