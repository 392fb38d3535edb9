//! A reference program, which answers for the user: whether a call of the run that is debugged did what the routine of
//! the same name in a right program does, where it worked on nothing but what both programs have.
#![tactic(auto)]

mod asked;
mod asks;
mod faults;
mod fits;
mod headings;
mod laws;
mod levels;
mod matches;
mod names;
mod order;
mod pairs;
mod parts;
mod places;
mod reading;
mod reference;
mod same;
mod shapes;
mod verdicts;

pub use faults::RefFault;
pub use laws::{references_answer, verdicts_are_tested};
pub use reference::Reference;
pub use verdicts::Verdict;
