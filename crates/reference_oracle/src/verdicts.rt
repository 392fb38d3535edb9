//! What a reference says of a call.

use cell_value::WayOut;

/// What a reference says of a call.
#[derive(Clone, Copy, Debug, PartialEq, Eq)]
pub enum Verdict {
    /// It does what the call did.
    Right,
    /// It does something else.
    Wrong,
    /// It can't be asked: the call ended too early, or worked on what the reference does not have.
    Unfit,
    /// It came to no end: its steps were spent, or a limit was reached.
    NoAnswer(WayOut),
}
