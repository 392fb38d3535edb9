//! How many suspects stand under each call of a run, kept as the marks of the calls change: the change
//! of one mark moves up along the calls above it, to the first clear one.
#![tactic(auto)]

mod changes;
mod counting;
pub mod laws;
mod weights;

pub use weights::Weights;
