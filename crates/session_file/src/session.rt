//! What a session is, and why a text is none.

use crate::notes::Notes;
use crate::replies::Replies;
use answer_book::Entry;
use cell_value::List;
use thiserror::Error;

/// The entries of a book, first to last.
pub type SavedEntries = List<Entry>;

/// What was said of the calls of one run, and which run it was.
#[derive(Debug, Drop)]
pub struct Session {
    /// The version of the text that it was loaded from: 1 or 2. It is saved as version 2, whatever stands here.
    pub version: u32,
    /// SHA-256 of the source's bytes.
    pub source: [u8; 32],
    /// SHA-256 of the input's bytes.
    pub input: [u8; 32],
    /// The most steps of the run, from 1 to 4,000,000.
    pub budget: u32,
    /// The entries of the book, first to last: the first of 1 to 100,000 says that call 0 is wrong.
    pub entries: SavedEntries,
    /// The notes on them. Version 1 has none.
    pub notes: Notes,
    /// The replies to questions, by which the judgements are known again in the run of another source. Version 1 has
    /// none.
    pub replies: Replies,
}

/// A field of a session's text, in the order in which they are looked at.
#[derive(Clone, Copy, Debug, PartialEq, Eq)]
pub enum SessionField {
    /// `version`: a whole number.
    Version,
    /// `source`: 64 hexadecimal digits.
    Source,
    /// `input`: 64 hexadecimal digits.
    Input,
    /// `budget`: a whole number from 1 to 4,000,000.
    Budget,
    /// `entries`: 1 to 100,000 of them, with numbers of calls and routines below 2^32. The first one judges call 0 as
    /// wrong. In version 2 an entry may have a note, as `crate::notes::is_note` knows them.
    Entries,
    /// `replies`, of version 2: at most `crate::replies::MOST_REPLIES`, each a question by 64 hexadecimal digits, and a
    /// judgement.
    Replies,
}

/// Why bytes are no session.
#[derive(Clone, Copy, Debug, PartialEq, Eq, Drop, Error)]
pub enum LoadFault {
    /// They are no JSON text in UTF-8, or one that nests deeper than 127, or one with a number beyond all floats.
    #[error("it is no JSON")]
    NotJson,
    /// This field is the first that is absent or is not as it should be. Where the value is no object, `version` is
    /// absent.
    #[error("the field {0:?} is not as it should be")]
    BadShape(SessionField),
    /// The version is this whole number, and neither 1 nor 2.
    #[error("the version is {0}")]
    BadVersion(u64),
    /// There was no memory for it.
    #[error("out of memory")]
    Memory,
}
