//! Tests of what neither a clause nor a case in files says: of real files and streams, of many snapshots, and of what
//! is kept of a run, whose calls are done again and put in place of their runs. And each public call below the dialog
//! that may run out of memory is called once with ample memory, over a small source and its run.
#![tactic(auto)]

#[cfg(test)]
mod cells;
#[cfg(test)]
mod layers;
#[cfg(test)]
mod ports;
#[cfg(test)]
mod runs;
#[cfg(test)]
mod searches;
#[cfg(test)]
mod store;
