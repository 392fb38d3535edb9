//! What all readers of Pascal share: the next token, why tokens are no program, operators, names, constants and
//! separators.
#![tactic(auto)]

pub mod constants;
pub mod fault;
pub mod lists;
pub mod looking;
pub mod operators;
pub mod separators;

pub use fault::ParseFault;
