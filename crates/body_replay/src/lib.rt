//! What the body of one recorded call did, done again: the body runs from the recorded state before the call, and each
//! call that it makes does what its record says. And the record of a call, put in place of its run from another state.
#![tactic(auto)]

mod agreement;
mod applied;
mod counted;
mod framed;
mod kept_state;
mod laws;
mod replayer;
mod replays;
mod transplants;

pub use applied::apply;
pub use kept_state::KeptState;
pub use laws::{agreement_is_tested, bodies_give_their_exits, calls_carry_to_themselves};
pub use replays::{Trace, replay};
pub use transplants::{carries, entry_of, transplant};
