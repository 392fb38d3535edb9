//! The check of a whole program, from the bytes of its source: the lexer, the parser, the check of declarations, and
//! after it that of the statements of its blocks. What is given is the program that its tree denotes, or the first of
//! the broken rules, or the first token at which something is too big.
#![tactic(auto)]

mod answers;
pub mod blocks;
pub mod checked_programs;
pub mod code_places;
mod declarations;
mod faults;
mod laws;
mod pieces;
mod places;
mod programs;
pub mod results;

pub use checked_programs::check;
pub use declarations::declare_source;
pub use faults::{SourceFault, SourceRefusal, fault_of_piece};
pub use laws::{broken_rules_stand, declarations_count, one_text_one_program, too_big_comes_last};
pub use pieces::read_tokens;
pub use programs::check_tokens;
