//! The search for the call at fault, by divide and query (Shapiro, "Algorithmic Program Debugging",
//! 1983): what is asked next, and what the answers have narrowed the fault to.
#![tactic(auto)]

pub mod laws;
mod markings;
mod region;
mod routine_calls;
mod runs;
mod search;
mod state;

pub use search::Debug;
pub use state::SearchState;
