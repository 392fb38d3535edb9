//! Laws of runs, above the crate that states what programs mean: what a run meets of the heap, where its pointers
//! and jumps lead, how calls end that miss a cell, and what they begin with where tables are laid out. Whether tables
//! are so is told by a test.
#![tactic(auto)]

mod actuals;
mod blocks;
mod laid;
mod laws;
mod places;
mod schemas;

pub use laid::is_laid_out;
pub use laws::{
    actuals_fill_parameters, heap_is_made_first, jumps_lead_outward, misses_end_calls,
    pointers_lead_to_what_was_made,
};
