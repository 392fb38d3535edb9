//! What is shown of a call of a run when it is to be judged: what it was called with, what it read, changed, looked at,
//! took and gave, and how it ended. Variables have the names that the source gives them, and values the texts of their
//! types. And what is shown of what happened in its body, of what cells held before it and after it, and of all calls
//! of a run, a line for each.
#![tactic(auto)]

mod cards;
mod cells;
mod copied;
mod lines;
mod names;
mod opened;
mod prepared;
mod states;
mod traces;
mod trees;
mod ways_out;

pub use cards::{write_call, write_question};
pub use names::{cell_named, write_name};
pub use opened::opened_calls;
pub use prepared::{CardParts, Recorded, card_parts};
pub use states::write_state;
pub use traces::write_trace;
pub use trees::write_tree;
