//! Tests of the whole command, of what neither a clause nor a case in files says: of little memory, of the native
//! stack, and of a console that waits for each reply; and of a turn in a page. And each public call of the dialog that
//! may run out of memory is called once with ample memory, over a run and a saved session.
#![tactic(auto)]

#[cfg(test)]
mod commands;
#[cfg(test)]
mod pages;
#[cfg(test)]
mod runs;
#[cfg(test)]
mod waiting;
