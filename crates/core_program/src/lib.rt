//! A checked program, and what it means. It is tables: one row for each construct of its source, numbered by a token
//! of that construct, and its routines. A row has all that the meaning of its construct needs, so that a run looks up
//! rows by their numbers and nothing else. What a program means is said in `specs/`: the state of a run, the acts on
//! it, what each construct does in one layer, the meaning of a call and of a run. The functions in `laws` and
//! `run_laws` do nothing: each is a law of these definitions.
#![tactic(auto)]

mod classes;
mod components;
mod headings;
mod laws;
mod long_lists;
mod program;
pub mod rows;
mod run_laws;
mod scan;
mod search;
mod tables;
mod type_classes;
mod variants;

pub use components::{Components, Extent, HeldSpec};
pub use headings::{may_stand_for, same_packing};
pub use laws::{
    depth_is_enough, every_call_runs, every_program_runs, every_run_has_a_call, marks_tell_the_log,
    numbers_tell_the_tree,
};
pub use program::{Program, Routine};
pub use run_laws::{
    bodies_repeat, calls_are_counted, records_stand, states_are_sound, touches_are_countable,
};
pub use scan::{Scan, Scanned};
pub use tables::ProgramTables;
pub use variants::VariantPart;
