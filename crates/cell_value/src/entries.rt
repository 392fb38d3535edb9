//! One entry of the log of a run, and what a list of entries says of one address.
use crate::values::Value;

/// One entry of the log of a run: an address, what was done there, and the value.
#[derive(Clone, Copy, Debug, PartialEq, Eq)]
pub enum Touch {
    /// The cell at this address was read, and held this value.
    Read(u32, Value),
    /// It was asked whether the heap has a cell at this address, and this was the answer.
    Has(u32, bool),
    /// This value was written to the cell at this address.
    Write(u32, Value),
    /// A block of the heap was made: its first address, its number of cells, and the number of its
    /// type.
    Make(u32, u32, u32),
    /// A block of the heap was given up: its first address and its number of cells.
    Drop(u32, u32),
    /// The item of the input at this place, or the end there, was looked at.
    Look(u32),
    /// This many items of the input were taken.
    Take(u32),
    /// This byte was written to the output.
    Give(u8),
}

/// What a list of entries shows of one address as it was before them.
#[derive(Clone, Copy, Debug, PartialEq, Eq)]
pub enum Seen {
    /// It was read, and held this value.
    Held(Value),
    /// It was not read, and the heap had a cell there.
    There,
    /// The heap had no cell there.
    Absent,
}

/// What one address is left with by a list of entries that changes it.
#[derive(Clone, Copy, Debug, PartialEq, Eq)]
pub enum Change {
    /// It holds this value.
    Set(Value),
    /// Its cell was given up.
    Gone,
}
