//! Reading statements (6.8), by recursive descent: one function for each production, and `read_compound` for what
//! stands outside.
#![tactic(auto)]

mod statements;

pub use statements::read_compound;
