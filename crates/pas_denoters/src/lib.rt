//! Reading type denoters, and headings of procedures and functions with their formal parameters and schemas.
#![tactic(auto)]

mod denoters;
mod headings;
mod schemas;

pub use denoters::read_denoter;
pub use headings::read_heading;
