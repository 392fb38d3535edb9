//! The book of a search: what was said of the calls of a run, as numbered entries that stand until
//! they are taken back, and the marks of the calls that follow from the entries that stand.
#![tactic(auto)]

mod book;
mod entries;
mod entry_links;
mod entry_list;
mod judged_calls;

pub use book::Book;
pub use entries::{BookFault, Entry, Judgement, MOST_ENTRIES, What};
pub use entry_list::EntryList;
