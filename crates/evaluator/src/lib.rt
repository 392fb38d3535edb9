//! The run of one activation of a routine from stop to stop. Its parts that are at work stand in lists, so that an
//! expression or a statement of the program in another is no call in the code.
#![tactic(auto)]

mod accesses;
mod actuals;
mod after_parts;
mod array_actuals;
mod assignments;
mod body;
mod calls;
mod conformant;
mod counting;
mod expressions;
mod heap;
mod jumps;
mod packing;
mod reading;
mod records;
mod returns;
mod sets;
mod statements;
mod tasks;
mod transfers;
mod turns;
mod with_records;
mod writing;

pub use body::Body;
pub use tasks::Stop;
pub use turns::go_on;
