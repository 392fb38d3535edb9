//! The program that is debugged: from the bytes of a source to a program, or to why and where the source is
//! refused; and from a program and its input to the calls of its run.
#![tactic(auto)]

mod laws;
mod references;
mod refusal;
mod runs;
mod slicing;
mod source;

pub use cell_value::INPUT_BYTES;
pub use code_checker::SourceFault;
pub use laws::{only_links_are_left_out, slices_tell_their_calls};
pub use refusal::write_refusal;
pub use runs::Debuggee;
pub use source::{SourceProgram, read_source, run_program};
