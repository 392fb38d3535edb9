//! The lists of an effect.
use cell_value::{Change, List, Seen};

/// What is seen of addresses, by rising address.
pub type Reads = List<(u32, Seen)>;

/// What addresses are left with, by rising address.
pub type Changes = List<(u32, Change)>;
