//! The parser of Pascal: from the tokens of a source to its one concrete tree, or to the first token that
//! fits no program.
#![tactic(auto)]

mod blocks;
mod kinds;
mod laws;
mod parsing;

pub use laws::one_formed_tree;
pub use parsing::{MAX_NESTING, parse};
pub use pas_phrases::ParseFault;
