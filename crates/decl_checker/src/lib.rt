//! The declarations of a program: its blocks with their labels, constants, types, variables and routines, and the
//! names that its statements and expressions use. What is given is the tables, in which definitions are found by
//! regions and names, or the first rule that is broken of those that can be told from declarations and names alone.
#![tactic(auto)]

pub mod accesses;
mod answers;
pub mod blocks;
pub mod expressions;
pub mod labels;
pub mod parameters;
pub mod programs;
mod regions;
pub mod routines;
mod scopes;
pub mod statements;

pub use programs::{check_program, declare};
pub use scopes::{Scopes, find, find_in};
