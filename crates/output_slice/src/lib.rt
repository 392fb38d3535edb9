//! Slices of one wrong output: which outputs of the calls below may have made it wrong. What an output comes from is
//! found from the run's log, by the outputs of the calls that its call made.
#![tactic(auto)]

mod cell_set;
mod found;
mod laws;
mod left_out;
mod needs;
mod outputs;
mod pairs;
mod passes;
mod slices;
mod slicing;
mod used;

pub use laws::{outputs_are_kept, slices_are_lists, wrong_outputs_narrow};
pub use left_out::leave_out;
pub use outputs::Output;
pub use slices::{SliceFault, has_output, slice};
pub use slicing::Slicing;
