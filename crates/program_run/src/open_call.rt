//! A call that is open.

ghost use Rattle.std.specs.Prelude.{◌+◌, ◌≤◌};
ghost use Rattle.core_program.specs.State.{stack_end};

use evaluator::Body;

/// A call that is open.
#[derive(Drop)]
pub struct OpenCall {
    /// What its caller has still to do after it. The first call has no caller.
    pub caller: Option<Body>,
    /// The first address of its frame.
    pub base: u32,
    /// The cells of its frame, and 0 where none was made.
    pub cells: u32,
    ghost fits: { base + cells ≤ stack_end },
}
