//! The calls of a run, numbered from 0 in order of entry: what each was called with, the state before
//! and after it, how it ended, and the last call of its subtree, which is the interval of numbers
//! from the call itself to that one.
#![tactic(auto)]

mod calls;
mod events;
mod records;

pub use calls::Calls;
pub use events::{Event, Events};
pub use records::{Call, FrameStart, Mark, Side};
