//! What a run leaves.

use call_tree::Calls;
use cell_value::Items;
use edge_ports::Bytes;
use effect_log::Log;

/// What a run of a program leaves.
#[derive(Drop)]
pub struct History {
    /// The calls, of which none is open.
    pub calls: Calls,
    /// What was done that shows or changes the state.
    pub log: Log,
    /// The items of the input: each char by its ordinal, and 256 for a line end.
    pub input: Items,
    /// The bytes that were given out.
    pub output: Bytes,
    /// The steps that the run might take.
    pub budget: u32,
}
