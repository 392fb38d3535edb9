//! Searches over the columns of a run of calls: the best call to ask about, the next call of a
//! routine, the next call that weighs nothing and has calls below it, the next one of which the worse
//! answer leaves few suspects, and the last call that is flagged. Each goes over its columns in blocks,
//! as vectors of `std::simd`, and over what is left of them in a plain loop; `plain` has each search as
//! a plain loop alone, with the same contract. No call takes memory.
#![tactic(auto)]

mod bits;
mod choice;
mod choosing;
mod finding;
mod lanes;
pub mod laws;
pub mod plain;

pub use choice::{Choice, left_after};
pub use choosing::best;
pub use finding::{last_set, next_leaving_fewer, next_of, next_weightless_parent};
pub use laws::{
    best_both_ways, last_set_both_ways, next_leaving_fewer_both_ways, next_of_both_ways,
    next_weightless_parent_both_ways,
};
