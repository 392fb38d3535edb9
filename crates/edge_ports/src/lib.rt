//! The ports between a program and the outside: a source of bytes, a sink for bytes and a keeper of
//! files, as traits whose contracts name what moved and why a call failed; a printer of texts, which gives
//! them to a sink in pieces; a reader of console lines; and objects that meet the traits, in memory and over std's
//! files and streams.
#![tactic(auto)]

mod bytes;
mod counts;
mod disk;
mod lines;
mod outlet;
mod page;
mod pieces;
mod plan;
mod ports;
mod printer;
mod retries;
mod room;
mod shelf;
mod storing;
mod streams;
mod tale;
mod tape;

pub use bytes::{Bytes, Memory};
pub use disk::FileKeeper;
pub use lines::{CONSOLE_BYTES, LINE_BYTES, LineFault, Lines, Turn};
pub use page::Page;
pub use pieces::Pieces;
pub use ports::{Failed, FetchFault, Keeper, PIECE_BYTES, Sink, Source, StoreFault};
pub use printer::{Printer, print_all};
pub use room::Room;
pub use shelf::Shelf;
pub use streams::{StdSink, StdSource};
pub use tale::Tale;
pub use tape::Tape;
