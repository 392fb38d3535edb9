//! The search over a run.
ghost use Rattle.std.specs.Prelude.{◌≡◌, IfOk};
ghost use Rattle.answer_book.specs.Entries.{first_entries};
ghost use Rattle.dialog_replies.specs.Kept.{IsSearchOf};

use crate::debugged::Debugged;
use edge_ports::Memory;
use optimal_query::Debug;
use std::alloc::Global;

/// The search over a run before anything is said.
pub fn begin<'a, D: Debugged>(alloc: Global, run: &'a D) -> Result<Debug<'a>, Memory>
    ensures search { IfOk result (λ debug. IsSearchOf (D.subject run.now) debug) }
    ensures first { IfOk result (λ debug. debug.book.entries ≡ first_entries) }
{
    match Debug::new(alloc, run.calls()) {
        Ok(debug) => Ok(debug),
        Err(memory) => Err(memory),
    }
}
