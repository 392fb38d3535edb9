//! A dialog as it stands.

use crate::questions::Digests;
use answer_reuse::Classes;
use optimal_query::Debug;
use session_file::{Notes, Replies};

/// What was said so far: the search, with the entries of its book; the notes on them; the replies that the session was
/// loaded with, which stay as they are; the digests of questions that were made; and the classes of alike calls, once
/// they were asked for.
#[derive(Drop)]
pub struct Dialog<'a> {
    pub debug: Debug<'a>,
    pub notes: Notes,
    pub replies: Replies,
    pub digests: Digests,
    pub classes: Option<Classes>,
}
