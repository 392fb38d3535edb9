//! The run of a program, with the open calls in a list, so that a call of the program is no call of the runner.
#![tactic(auto)]

mod copies;
mod history;
mod input;
mod laws;
mod open_call;
mod runner;
mod runs;

pub use copies::copy_items;
pub use history::History;
pub use laws::calls_are_told;
pub use runner::Begun;
pub use runs::{run, run_from};
