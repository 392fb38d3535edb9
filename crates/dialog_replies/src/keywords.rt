//! The first word of a line.
ghost use Rattle.std.specs.Prelude.{◌≡◌};
ghost use Rattle.dialog_replies.specs.Keywords.{call_keyword, keyword_of, reference_keyword, session_keyword};

use answer_book::Judgement;

/// What the first word of a line says is to be done.
#[derive(Clone, Copy)]
pub enum Keyword {
    /// `right`, `wrong` and `unknown`.
    Judge(Judgement),
    /// `trust`.
    Trust,
    /// `back`.
    Back,
    /// `show`.
    Show,
    /// `state`.
    State,
    /// `trace`.
    Trace,
    /// `slice`.
    Slice,
    /// `alike`.
    Alike,
    /// `shared`.
    Shared,
    /// `carry`.
    Carry,
    /// `reference`.
    Reference,
    /// `refer`.
    Refer,
    /// `tree`.
    Tree,
    /// `save`.
    Save,
    /// `same`.
    Same,
    /// `note`.
    Note,
    /// `quit`.
    Quit,
    /// Any other word.
    Other,
}

/// The keyword that a word on the session, its marks or its notes is.
fn session_keyword(word: &[u8]) -> Keyword
    ensures { result ≡ session_keyword word.now }
{
    if word == b"tree".as_slice() {
        Keyword::Tree
    } else if word == b"save".as_slice() {
        Keyword::Save
    } else if word == b"note".as_slice() {
        Keyword::Note
    } else if word == b"quit".as_slice() {
        Keyword::Quit
    } else {
        Keyword::Other
    }
}

/// The keyword that a word on a right program is, or one on the session.
fn reference_keyword(word: &[u8]) -> Keyword
    ensures { result ≡ reference_keyword word.now }
{
    if word == b"reference".as_slice() {
        Keyword::Reference
    } else if word == b"refer".as_slice() {
        Keyword::Refer
    } else {
        session_keyword(word)
    }
}

/// The keyword that a word is which neither judges nor takes back.
fn call_keyword(word: &[u8]) -> Keyword
    ensures { result ≡ call_keyword word.now }
{
    if word == b"show".as_slice() {
        Keyword::Show
    } else if word == b"state".as_slice() {
        Keyword::State
    } else if word == b"trace".as_slice() {
        Keyword::Trace
    } else if word == b"slice".as_slice() {
        Keyword::Slice
    } else if word == b"alike".as_slice() {
        Keyword::Alike
    } else if word == b"carry".as_slice() {
        Keyword::Carry
    } else {
        reference_keyword(word)
    }
}

/// The keyword that a word is. Letter case counts.
pub fn keyword_in(word: &[u8]) -> Keyword
    ensures { result ≡ keyword_of word.now }
{
    if word == b"right".as_slice() {
        Keyword::Judge(Judgement::Right)
    } else if word == b"wrong".as_slice() {
        Keyword::Judge(Judgement::Wrong)
    } else if word == b"unknown".as_slice() {
        Keyword::Judge(Judgement::Unknown)
    } else if word == b"same".as_slice() {
        Keyword::Same
    } else if word == b"trust".as_slice() {
        Keyword::Trust
    } else if word == b"back".as_slice() {
        Keyword::Back
    } else if word == b"shared".as_slice() {
        Keyword::Shared
    } else {
        call_keyword(word)
    }
}
