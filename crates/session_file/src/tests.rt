//! That memory suffices.

use crate::notes::Notes;
use crate::replies::Replies;
use answer_book::Judgement;
use edge_ports::Memory;
use std::alloc::Global;
use std::test::Fail;

/// Whether a note and a reply are found once they were set.
fn are_found(alloc: Global) -> Result<bool, Memory> {
    let mut notes = Notes::new(alloc);
    notes.set(2, "checked by hand")?;
    let mut replies = Replies::new(alloc);
    replies.set([7; 32], Judgement::Right)?;
    Ok(
        notes.on(2) == Some("checked by hand")
            && replies.to(&[7; 32]) == Some(Judgement::Right)
            && replies.at(0) == ([7; 32], Judgement::Right),
    )
}

#[test]
fn what_is_set_is_found(rt: HostRuntime) -> Result<(), Fail> {
    assert!(rt; are_found(rt.alloc())?);
    Ok(())
}
