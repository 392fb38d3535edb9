//! The values that a cell of a running Pascal program holds, the operators on numbers, on sets and
//! on lists of values, and the small types that the crates above share: a list that a `u32` counts,
//! ways out of a call, entries of the log and what a list of them says, a counter of steps that takes
//! no memory, and the limits that several crates know.
#![tactic(auto)]

mod arithmetic;
mod comparisons;
mod entries;
mod faults;
mod limits;
mod list;
mod sets;
mod steps_taken;
mod values;
mod ways_out;

pub use arithmetic::{ArithOp, arith, in_range, negate};
pub use comparisons::compare;
pub use entries::{Change, Seen, Touch};
pub use faults::OpFault;
pub use limits::{
    HEAP_END, INPUT_BYTES, MOST_CALLS, MOST_DEPTH, MOST_STEPS, MOST_TOUCHES, STACK_END,
};
pub use list::{Cells, Items, List, Memory};
pub use sets::{between, holds, meet, minus, union, with_range, within};
pub use steps_taken::Steps;
pub use values::{Order, SetBits, Value};
pub use ways_out::{Kind, WayOut, Which};
