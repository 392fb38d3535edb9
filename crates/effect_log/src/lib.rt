//! The log of a run, and the effect of a call: what its part of the log shows of the state before the call, and what
//! it changes in it. The effect stands for the body of the call where the call is judged. Where that part is short,
//! what is found is kept in maps; where it is long, what is found of an address stands in a page, as the numbers of
//! the entries that show it.
#![tactic(auto)]

mod by_maps;
mod cells;
mod cells_found;
mod effects;
mod entries;
mod found;
mod lists;
mod log;
mod page_lists;
mod paged;
mod pages;

pub use by_maps::Footprint;
pub use effects::effect;
pub use lists::{Changes, Reads};
pub use log::Log;
