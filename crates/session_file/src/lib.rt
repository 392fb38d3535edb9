//! A saved session as text: what was said of the calls of one run, and which run it was. Version 2 is one JSON object
//! with no white space between its parts and with the keys of each object in rising order:
//!
//!     {"budget":1000,"entries":[E,E,E],"input":"ba78..","replies":[R,R],"source":"e3b0..","version":2}
//!
//! Each E is an entry of the book, the oldest first. It judges a call as `right`, `wrong` or `unknown`, or trusts a
//! routine, it may have a note, and it stands until it is taken back:
//!
//!     {"call":12,"kind":"wrong","note":"adds one too many","standing":true}
//!     {"kind":"trust","routine":3,"standing":false}
//!
//! `source` and `input` are the SHA-256 digests of the run's source and input as 64 hexadecimal digits, and `budget` is
//! the most steps that the run could take. Each R is the reply to a question, by the digest of its text:
//!
//!     {"question":"85e2..","reply":"right"}
//!
//! Version 1, which has no notes and no replies, is read as well. Other texts of the same value are read too. A text
//! that is no session is refused by its first field that is not as it should be.
//!
//! What a session keeps beside the entries of its book is here, too: notes on entries, and replies to questions. A
//! reply is found by the digest of its question's text, so that it outlives a change of the program that leaves the
//! question as it was.
//!
//! JSON is passed over: a value is checked as serde_json checks it, and nothing of it is kept but the token that it
//! begins with. So a reader that wants a few values of a long text takes no memory for the others, however many they
//! are and however deep they nest.
#![tactic(auto)]

mod digests;
mod fields;
mod hashing;
mod laws;
mod listed;
mod notes;
mod numbers;
mod parts;
mod passing;
mod reading;
mod replied;
mod replies;
mod session;
#[cfg(test)]
mod tests;
mod writing;

pub use digests::digest_of;
pub use hashing::Hashing;
pub use laws::{version_1_is_loaded, what_is_saved_is_loaded};
pub use notes::{FIRST_PRINTED, LAST_PRINTED, NOTE_BYTES, Notes, note_in};
pub use reading::load;
pub use replies::Replies;
pub use session::{LoadFault, SavedEntries, Session, SessionField};
pub use writing::{judgement_word, save};
