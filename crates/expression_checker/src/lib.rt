//! The static rules of expressions: constants, names of variables, selectors, operators, members of set constructors,
//! function designators and their actual parameters, and the walk over expressions and accesses. Each expression gets
//! its row, and what is given is its type.
#![tactic(auto)]

pub mod actuals;
pub mod callees;
pub mod expressions;
mod members;
pub mod names;
mod operations;
pub mod selectors;
pub mod threats;
pub mod typed;

pub use actuals::Passing;
pub use callees::{Called, Callee};
pub use typed::{Location, Typed};
