//! How far the reading of an integer has come.

use cell_value::Value;

/// How far the reading of an integer has come (6.9.1).
#[derive(Clone, Copy, Debug, PartialEq, Eq)]
pub enum Scan {
    /// Nothing of it was met: what was taken so far are blanks.
    Blanks,
    /// At least one digit of it was taken.
    Digits {
        /// Whether a minus stands before the digits.
        minus: bool,
        /// The number that the digits make so far; 2,147,483,648 stands for all greater ones.
        number: u32,
    },
}

/// What came of one item more.
#[derive(Clone, Copy, Debug, PartialEq, Eq)]
pub enum Scanned {
    /// The reading goes on.
    Further(Scan),
    /// The integer has ended before the item.
    Whole(Value),
}
