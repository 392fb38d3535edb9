//! The dialog: what a line of the console asks for, what is replied to it, which entry it makes or takes back, the
//! reports on the state of the search, and the session as a book of entries and as text. The texts on calls come
//! through a port.
#![tactic(auto)]

mod alike;
mod calls;
mod changes;
mod debugged;
mod dialogs;
mod fit;
mod instructions;
mod keywords;
mod lines;
mod marks;
mod misfits;
mod numbers;
mod questions;
mod references;
mod replies;
mod reply;
mod reports;
mod resuming;
mod saving;
mod searches;
mod slices;
mod start;
mod words;

pub use calls::{print_named_call, write_named_call, write_number};
pub use debugged::Debugged;
pub use dialogs::Dialog;
pub use fit::refusal;
pub use instructions::{DialogCommand, FileName, Instruction, instruction_in};
pub use references::{REFERENCE_BYTES, Reading, Referred, refer};
pub use replies::{answer, open};
pub use reply::{Reply, print_reply};
pub use reports::state_now;
pub use resuming::resume;
pub use saving::session_text_of;
pub use searches::begin;
pub use slices::SliceOf;
pub use start::Start;
