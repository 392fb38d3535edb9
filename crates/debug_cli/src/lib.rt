//! The command `pasask`: a source file and its input are fetched, the program is run, and a console is asked which of
//! its calls did what was meant, until the call at fault is found. A session can be saved, and another day gone on
//! with. `ask_pascal` is the command; all that it needs of the outside comes through the traits of `edge_ports`.
//!
//! The words of the command, `pasask SOURCE [--input F] [--budget N] [--load F]`, are read with `clap` by `read_words`:
//! what they ask for, or that they are refused. A source `make:N` is made, and no file holds it.
#![tactic(auto)]

mod ask;
mod budget;
mod command;
mod files;
mod laws;
mod made_text;
mod made_words;
mod process;
mod refusals;
mod request;
mod status;
mod texts;

pub use ask::ask_pascal;
pub use budget::BUDGET;
pub use cell_value::MOST_STEPS;
pub use debuggee::INPUT_BYTES;
pub use files::{SESSION_BYTES, SOURCE_BYTES};
pub use made_words::MOST_MADE;
pub use process::{ask_as_process, out_of_memory};
pub use request::{Asked, Request, WordFault, read_words};
