//! The digests of questions, by which they are known again in another run.
ghost use Rattle.std.specs.Prelude.{◌<◌, ◌≡◌, [], IfOk};
ghost use Rattle.dialog_replies.specs.{Said.digest_on, Said.kept_on, Subject.calls_recorded};
ghost use Rattle.dialog_replies.specs.Kept.{AreDigestsOf, IsDialogOf, said_in_dialog};

use crate::debugged::Debugged;
use crate::dialogs::Dialog;
use answer_book::Judgement;
use edge_ports::Memory;
use session_file::Hashing;
use std::alloc::Global;
use std::collections::BTreeMap;

/// The digests of questions that were made so far, by the numbers of their calls.
#[derive(Drop)]
pub struct Digests {
    made: BTreeMap<u32, [u8; 32]>,
}

/// None yet. It takes no memory.
pub fn no_digests(alloc: Global) -> Digests
    ensures { result.made.entries ≡ [] }
{
    Digests {
        made: BTreeMap::new(alloc),
    }
}

/// The digest of the question about a call, made anew.
fn new_digest<D: Debugged>(alloc: Global, run: &D, call: u32) -> Result<[u8; 32], Memory>
    requires { call < calls_recorded (D.subject run.now) }
    ensures { IfOk result (λ digest. digest ≡ digest_on (D.subject run.now) call) }
{
    let card = run.prepare_card(alloc, call)?;
    let mut hashing = Hashing::new();
    run.write_question(&mut hashing, call, &card);
    Ok(hashing.digest())
}

/// The digest of the question about a call. It is made once.
pub fn digest_on<D: Debugged>(
    alloc: Global,
    run: &D,
    digests: &mut Digests,
    call: u32,
) -> Result<[u8; 32], Memory>
    requires call { call < calls_recorded (D.subject run.now) }
    requires digests { AreDigestsOf (D.subject run.now) digests.old }
    ensures digest { IfOk result (λ digest. digest ≡ digest_on (D.subject run.now) call) }
    ensures digests { AreDigestsOf (D.subject run.now) digests.new }
{
    if let Some(digest) = digests.made.get(&call) {
        return Ok(*digest);
    }
    let digest = new_digest(alloc, run, call)?;
    digests.made.insert(call, digest)?;
    Ok(digest)
}

/// The reply that was kept to the question about a call. No digest is made where no replies are there.
pub fn kept_reply<D: Debugged>(
    alloc: Global,
    run: &D,
    dialog: &mut Dialog,
    call: u32,
) -> Result<Option<Judgement>, Memory>
    requires call { call < calls_recorded (D.subject run.now) }
    requires dialog { IsDialogOf (D.subject run.now) dialog.old }
    ensures reply { IfOk result (λ reply. reply
        ≡ kept_on (D.subject run.now) (said_in_dialog dialog.old).replies call) }
    ensures said { said_in_dialog dialog.new ≡ said_in_dialog dialog.old }
    ensures dialog { IsDialogOf (D.subject run.now) dialog.new }
{
    if dialog.replies.len() == 0 {
        return Ok(None);
    }
    let digest = digest_on(alloc, run, &mut dialog.digests, call)?;
    Ok(dialog.replies.to(&digest))
}
