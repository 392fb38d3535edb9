//! What is kept of one call, and what is said of it.
use cell_value::{Cells, Value, WayOut};
use persistent_store::Store;

/// The state of a run beside a call, before it or after it.
#[derive(Drop)]
pub struct Side {
    /// The number of entries of the log.
    pub mark: u32,
    /// The first free address of the stack.
    pub top: u32,
    /// The first free address of the heap.
    pub fresh: u32,
    /// The number of items of the input that were taken.
    pub place: u32,
    /// The number of bytes that were given.
    pub output: u32,
    /// The number of steps that are left.
    pub steps: u32,
    /// The number of calls entered so far.
    pub calls: u32,
    /// The cells. Before a call it has no frame yet, and after the call the frame is removed.
    pub store: Store,
}

/// One activation of a routine. `last`, `exit`, `way` and `result` are meant once the call is left.
#[derive(Drop)]
pub struct Call {
    /// The number of the routine. Routine 0 is the program block.
    pub routine: u32,
    /// The number of the call that called it. The first call has none.
    pub parent: Option<u32>,
    /// How many calls were open when it was entered.
    pub depth: u32,
    /// The number of the last call of its subtree.
    pub last: u32,
    /// How its frame begins: the static link and the cells of the parameters.
    pub args: Cells,
    pub entry: Side,
    pub exit: Side,
    pub way: WayOut,
    /// The value that a function returned.
    pub result: Option<Value>,
}

/// Where the frame of a call begins on the stack, and the call that called it.
#[derive(Clone, Copy)]
pub struct FrameStart {
    pub top: u32,
    pub parent: Option<u32>,
}

/// What is said of a call.
#[derive(Clone, Copy, Debug, PartialEq, Eq)]
pub enum Mark {
    /// Nothing.
    Unjudged,
    /// It did what it should have done.
    Right,
    /// It did not.
    Wrong,
    /// The one who was asked could not tell.
    Unknown,
    /// It was not judged itself, and its routine is trusted.
    Trusted,
}
