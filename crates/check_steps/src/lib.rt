//! What the check of the static rules is made of: the tables that it fills, the regions in which it looks names up,
//! which headings are congruous, and its steps. A step is what a part of a tree does to the tables, and which rules it
//! breaks. Each function of the check does one step, whose definition is an equation over the steps of its parts.
#![tactic(auto)]

mod around;
pub mod breaks;
mod compared;
mod frames;
pub mod headings;
mod homes;
pub mod items;
mod keyed;
mod recent;
pub mod regions;
pub mod required;
mod scopes;
pub mod tables;
mod threats;
mod words;
pub mod work;

pub use breaks::{Break, Broken, CheckFault};
pub use frames::Beyond;
pub use regions::{Def, Definition, Found, Frame, Span};
pub use tables::Tables;
pub use words::{Spelled, SpelledToken};
pub use work::Work;
