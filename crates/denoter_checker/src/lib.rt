//! The static rules of type denoters with others inside, of the parts of a block that define types and declare
//! variables, and of headings: what the formal parameters and the results of procedures and functions are, where a
//! frame has them, which names the routines of a block define, and which heading completes which.
#![tactic(auto)]

pub mod arrays;
pub mod defines;
pub mod denoters;
pub mod formals;
pub mod headings;
pub mod parts;
pub mod records;
pub mod routine_parts;
pub mod schemas;
pub mod variants;

pub use formals::{define_formals_at, is_function};
pub use headings::check_signature;
pub use routine_parts::{completion_of, define_routines};
