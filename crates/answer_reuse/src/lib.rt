//! One answer for equal questions: which calls of a run are alike, since they were given the same and found the same,
//! so that they did the same; and judgements on all calls that are alike to one.
#![tactic(auto)]

mod classes;
mod faults;
mod figures;
mod judgements;
mod keys;
mod laws;

pub use classes::Classes;
pub use faults::ClassFault;
pub use judgements::{judge_alike, take_back_alike};
pub use laws::{
    alike_calls_did_the_same, alike_calls_share_classes, alike_calls_touched_the_same,
    likeness_is_tested, marks_are_shared,
};
