//! Names of the cells of a run, and texts of what they hold: variables have the names that the source gives them, with
//! selectors down to the cell, and values the texts of their types. `NameFinder` is made once for a run; with it a
//! name is found without a look at all variables.
#![tactic(auto)]

mod conformant;
mod finding;
mod layouts;
mod name_parts;
mod named_by;
mod names;
mod pieces;
mod places;
mod records;
mod values;
mod walks;

pub use finding::NameFinder;
pub use names::{
    CopyCells, Frame, Held, Local, Origin, Root, Scene, Spot, array_cells, copy_cells, is_link,
    local_at, result_of, root_at, write_address, write_root, write_way,
};
pub use pieces::{write_long, write_number, write_quoted, write_quoted_items};
pub use places::{PlacedPart, PlacedParts};
pub use values::{write_typed, write_untyped};
pub use walks::{Walked, walk};
