//! The static rules of statements, an equation for each construct, and of the required procedures. Each statement gets
//! its row, and what is given is the number of that.
#![tactic(auto)]

mod actuals;
pub mod assignments;
mod calls;
mod choices;
mod conditions;
pub mod labels;
mod loops;
pub mod moves;
pub mod parts;
mod procedures;
mod records;
mod sequences;
pub mod statements;
pub mod transfers;
