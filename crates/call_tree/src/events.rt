//! What happens in the body of one call.
use cell_value::List;

/// One thing that happens in the body of a call.
#[derive(Clone, Copy, Debug, PartialEq, Eq)]
pub enum Event {
    /// A statement of the body on this line of the source begins.
    Line(u32),
    /// The body calls, and this is the number of the call.
    Child(u32),
}

/// What happens in the body, first to last.
pub type Events = List<Event>;
