//! What an entry of a book says, and why a change is refused.
ghost use Rattle.std.specs.Prelude.{◌≡◌};
ghost use Rattle.answer_book.specs.Marks.{mark_by};

use call_tree::Mark;
use thiserror::Error;

/// The most entries of a book, counting those that were taken back.
pub const MOST_ENTRIES: u32 = 100_000;

/// What is said of one call.
#[derive(Clone, Copy, Debug, PartialEq, Eq)]
pub enum Judgement {
    /// It did what it should have done.
    Right,
    /// It did not.
    Wrong,
    /// The one who was asked could not tell.
    Unknown,
}

/// What an entry says.
#[derive(Clone, Copy, Debug, PartialEq, Eq)]
pub enum What {
    /// A judgement on the call of this number.
    Judged(u32, Judgement),
    /// That the calls of the routine of this number can be trusted.
    Trusted(u32),
}

/// One entry of a book.
#[derive(Clone, Copy, Debug, PartialEq, Eq)]
pub struct Entry {
    pub what: What,
    /// Whether it was not taken back.
    pub standing: bool,
}

/// Why a change of a book was refused. The book is then as it was.
#[derive(Clone, Copy, Debug, PartialEq, Eq, Error)]
pub enum BookFault {
    /// There is no call of this number.
    #[error("no call {0}")]
    NoCall(u32),
    /// There is no routine of this number.
    #[error("no routine #{0}")]
    NoRoutine(u32),
    /// The entry of this number was never made, or it was taken back.
    #[error("entry {0} does not stand")]
    NotStanding(u32),
    /// No entry stands.
    #[error("nothing stands")]
    NothingStanding,
    /// 100,000 entries were made, counting those that were taken back.
    #[error("book is full")]
    Full,
}

impl Judgement {
    /// The mark of a call that is judged so.
    pub fn mark(self) -> Mark
        ensures { result ≡ mark_by self }
    {
        match self {
            Judgement::Right => Mark::Right,
            Judgement::Wrong => Mark::Wrong,
            Judgement::Unknown => Mark::Unknown,
        }
    }
}
