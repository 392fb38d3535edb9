//! The marks of the calls.
ghost use Rattle.std.specs.Prelude.{◌≡◌, IfOk, length};
ghost use Rattle.dialog_replies.specs.{Kept.IsSearchOf, Subject.calls_recorded, Subject.marks_after};

use crate::debugged::Debugged;
use call_tree::Mark;
use edge_ports::Memory;
use optimal_query::Debug;
use std::alloc::Global;

/// The marks of all calls, in order of entry.
pub fn marks_now<D: Debugged>(alloc: Global, run: &D, debug: &Debug) -> Result<Vec<Mark>, Memory>
    requires { IsSearchOf (D.subject run.now) debug.now }
    ensures marks { IfOk result (λ marks. marks.items ≡ marks_after (D.subject run.now) debug.now.book.entries) }
    ensures each { IfOk result (λ marks. length marks.items ≡ calls_recorded (D.subject run.now)) }
{
    let mut marks = Vec::new(alloc);
    for call in 0..run.calls().len() {
        marks.push(debug.mark(call))?;
    }
    Ok(marks)
}
