//! From a session to its text.
ghost use Rattle.std.specs.Prelude.{◌<◌, ◌≡◌, IfOk, None, Some, length, map, slice_get};
ghost use Rattle.serde_json.specs.View.{view};
ghost use Rattle.session_file.specs.{Notes.note_on, Text.session_text};
ghost use Rattle.session_file.specs.Text.{entries_data, entry_data, judgement_word, reply_data, session_data};

use crate::notes::Notes;
use crate::replies::Replies;
use crate::session::Session;
use answer_book::{Entry, Judgement, What};
use edge_ports::{Bytes, Memory};
use serde_json::{Value, json};
use std::alloc::Global;

/// The version that is written.
pub(crate) const VERSION: u64 = 2;

/// The word for a judgement.
pub fn judgement_word(judgement: Judgement) -> &'static str
    ensures { result.now ≡ judgement_word judgement }
{
    match judgement {
        Judgement::Right => "right",
        Judgement::Wrong => "wrong",
        Judgement::Unknown => "unknown",
    }
}

/// An entry without a note as JSON.
fn plain_value(alloc: Global, entry: Entry) -> Result<Value, Memory>
    ensures { IfOk result (λ value. view value ≡ entry_data entry None) }
{
    let standing = entry.standing;
    match entry.what {
        What::Judged(call, judgement) => {
            let kind = judgement_word(judgement);
            json!(in alloc; {"call": call, "kind": kind, "standing": standing})
        }
        What::Trusted(routine) => {
            json!(in alloc; {"kind": "trust", "routine": routine, "standing": standing})
        }
    }
}

/// An entry with its note as JSON.
fn noted_value(alloc: Global, entry: Entry, note: &str) -> Result<Value, Memory>
    ensures { IfOk result (λ value. view value ≡ entry_data entry (Some note.now)) }
{
    let standing = entry.standing;
    match entry.what {
        What::Judged(call, judgement) => {
            let kind = judgement_word(judgement);
            json!(in alloc; {"call": call, "kind": kind, "note": note, "standing": standing})
        }
        What::Trusted(routine) => {
            json!(in alloc; {"kind": "trust", "note": note, "routine": routine, "standing": standing})
        }
    }
}

/// The entry of a number as JSON, with the note on it.
fn entry_value(alloc: Global, notes: &Notes, number: usize, entry: Entry) -> Result<Value, Memory>
    ensures { IfOk result (λ value. view value ≡ entry_data entry (note_on notes.now number)) }
{
    match notes.on(number) {
        Some(note) => noted_value(alloc, entry, note),
        None => plain_value(alloc, entry),
    }
}

/// The entry at a place, counted from 0.
fn entry_at(entries: &[Entry], place: usize) -> Entry
    requires { place < length entries.now }
    ensures { slice_get entries.now place ≡ Some result }
{
    entries[place]
}

/// The entries as JSON, first to last, with the notes on them.
#[tactic(auto, using(crate::proofs::EntriesInOrder::entries_in_order))]
fn entry_values(alloc: Global, entries: &[Entry], notes: &Notes) -> Result<Vec<Value>, Memory>
    ensures { IfOk result (λ values. map view values.items ≡ entries_data notes.now 1 entries.now) }
{
    let mut values = Vec::with_capacity(alloc, entries.len())?;
    'places: for place in 0..entries.len() {
        let value = entry_value(alloc, notes, place + 1, entry_at(entries, place))?;
        values.push(value)?;
    }
    Ok(values)
}

/// A reply as JSON, with the digest of its question.
fn reply_value(alloc: Global, question: [u8; 32], reply: Judgement) -> Result<Value, Memory>
    ensures { IfOk result (λ value. view value ≡ reply_data (question, reply)) }
{
    let question = hex::encode(alloc, &question)?;
    let reply = judgement_word(reply);
    json!(in alloc; {"question": question, "reply": reply})
}

/// The replies as JSON, in order.
#[tactic(auto, using(crate::proofs::EntriesInOrder::replies_in_order))]
fn reply_values(alloc: Global, replies: &Replies) -> Result<Vec<Value>, Memory>
    ensures { IfOk result (λ values. map view values.items ≡ map reply_data replies.now) }
{
    let mut values = Vec::with_capacity(alloc, replies.len())?;
    'places: for place in 0..replies.len() {
        let (question, reply) = replies.at(place);
        let value = reply_value(alloc, question, reply)?;
        values.push(value)?;
    }
    Ok(values)
}

/// The session as JSON.
fn session_value(alloc: Global, session: &Session) -> Result<Value, Memory>
    ensures { IfOk result (λ value. view value ≡ session_data session.now) }
{
    let entries = entry_values(alloc, session.entries.as_slice(), &session.notes)?;
    let replies = reply_values(alloc, &session.replies)?;
    let input = hex::encode(alloc, &session.input)?;
    let source = hex::encode(alloc, &session.source)?;
    let budget = session.budget;
    json!(in alloc; {
        "budget": budget,
        "entries": entries,
        "input": input,
        "replies": replies,
        "source": source,
        "version": VERSION,
    })
}

/// The text of a session, version 2: JSON with no white space between its parts, the keys of each object in rising
/// order, and the digests in lower case. The version that stands in the session says nothing.
#[tactic(auto, using(crate::proofs::NoFloats::session_whole), unfolding(crate::specs::Text::session_text))]
pub fn save(alloc: Global, session: &Session) -> Result<Bytes, Memory>
    ensures text { IfOk result (λ bytes. bytes ≡ session_text session.now) }
{
    let text = session_value(alloc, session)?.to_vec(alloc)?;
    let mut bytes = Bytes::new(alloc);
    bytes.append(&text)?;
    Ok(bytes)
}
