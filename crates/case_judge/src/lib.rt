//! Judges worked cases. A case is what is given to the command, and what has to come of it, and is held in files of
//! a folder. The file `index` names the files of cases, each after the word for its kind: `command`, `sources`,
//! `rules`, `declarations`, `tables` or `runs`. A line is printed for each case, or for a file of them, and each
//! difference in full. That the files are formed as CONTRIBUTING.md says is looked at by `.ci/cases`, and not here.
#![tactic(auto)]

mod answers;
mod cases;
mod comparing;
mod escapes;
mod files;
mod folders;
mod rows;
mod runs;
mod sections;
mod sources;
mod tables;

pub use folders::try_folder;
