//! A map from addresses to the values of cells, of which snapshots are cheap: a store and its
//! snapshots share what they have in common. Beside it stands the same map kept whole, the plain
//! program that the tests compare it with.
#![tactic(auto)]

mod cells;
mod nodes;
mod store;
mod trie;
mod whole_map;

pub use store::Store;
pub use whole_map::WholeMap;
