//! The made program: its text by a number, and the search over its run, which is answered with no one
//! asked. So the whole way from a text to the call at fault can be shown at any size.
#![tactic(auto)]

mod answering;
pub mod laws;
mod lines;
mod source;

pub use lines::made_lines;
pub use source::make_source;
