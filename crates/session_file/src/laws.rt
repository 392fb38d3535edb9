//! What holds of the text of a session.
ghost use Rattle.std.specs.Prelude.{◌≡◌, Ok};
ghost use Rattle.session_file.specs.{Reading.session_of, Text.first_text, Text.session_text};
ghost use Rattle.session_file.specs.Whole.{IsWhole, in_first_version, in_this_version};
ghost use Rattle.session_file.specs.declared.session.Session.{Session as SessionValue};

/// What is saved is loaded as it was: the text of each session whose parts are within their limits reads as that
/// session, in version 2.
#[tactic(auto, using(crate::proofs::SavedIsRead::saved_read))]
pub fn what_is_saved_is_loaded()
    ensures { (s : SessionValue) → IsWhole s → session_of (session_text s) ≡ Ok (in_this_version s) }
{}

/// A session of version 1 is loaded without notes and replies, and what is then saved is loaded as the same in
/// version 2.
#[tactic(auto, using(crate::proofs::SavedIsRead::older_read, crate::proofs::SavedIsRead::older_saved))]
pub fn version_1_is_loaded()
    ensures loaded { (s : SessionValue) → IsWhole s → session_of (first_text s) ≡ Ok (in_first_version s) }
    ensures saved { (s : SessionValue) → IsWhole s
        → session_of (session_text (in_first_version s)) ≡ Ok (in_this_version (in_first_version s)) }
{}
