//! Reading expressions and accesses of variables.
#![tactic(auto)]

mod expressions;

pub use expressions::{read_access, read_expression, read_selectors};
