//! Whether the tables of a program are whole: each number that a row names is that of a row of the kind that its place
//! takes, lists end where they say, no two constructs share a number, and the program block is there.
#![tactic(auto)]

mod arrays;
mod fits;
mod kinds;
mod lists;
mod once;
mod parts;
mod scopes;
mod whole;

pub use whole::is_whole;
