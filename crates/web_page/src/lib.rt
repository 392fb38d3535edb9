//! One turn of the command `pasask` in a page. All that the command asks of the outside is passed in as bytes, and all
//! that it made comes out as bytes. Nothing is kept between two turns: a page passes all lines of the console again.
#![tactic(auto)]

mod outside;
mod request;
mod take;
mod turn;

pub use take::{out_of_memory, take_turn};
pub use turn::{NamedFile, PageTurn, SavedSession, TurnOutcome};
