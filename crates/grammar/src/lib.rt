//! Grammars as data over Pascal's alphabet: what their trees are, what a reader that looks at one token makes of them,
//! and why it refuses, exactly. The alphabet is fixed: the terminals are Pascal's terminal symbols, and the levels are
//! the constructs of Pascal that count as nesting. So this is no grammar library for any alphabet, though it knows no
//! rule of Pascal: these are data, and stand in `pas_tree`.
#![tactic(auto)]

mod laws;
mod refusals;
mod terminals;

pub use laws::{reading_is_exact, refusals_are_inside, refusals_are_right};
pub use refusals::{
    deep_is_first, nesting_is_depth, refused_is_begun, refused_is_hopeless, stop_is_first,
};
pub use terminals::Terminal;
