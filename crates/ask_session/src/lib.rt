//! The dialog on a console: it opens with the card of call 0 and a report, and answers each line up to `quit` or
//! the console's end. It may go on with a saved session, and a line may save the session of the moment.
#![tactic(auto)]

mod desk;
mod dialog;
mod laws;
mod session;

pub use dialog::Ending;
pub use laws::{entries_follow_lines, reports_are_sound};
pub use session::converse;
