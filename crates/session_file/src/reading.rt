//! From a text to the session that it is.
ghost use Rattle.std.specs.Prelude.{◌≡◌, ◌⊎◌, Err, IfOk, codes, option_and_then, option_map};
ghost use Rattle.serde_json.specs.{Data.object, Find.as_bool, Find.get, Read.read, View.members_view, View.view};
ghost use Rattle.answer_book.specs.declared.entries.What.TheVariants as what;
ghost use Rattle.session_file.specs.{Parts.session_by, Whole.IsWhole};
ghost use Rattle.session_file.specs.Parts.{answered_by, begun_wrong, fields_by, listed_by, notes_by, replies_by};
ghost use Rattle.session_file.specs.Reading.{begins_wrong, budget_at, digest_at, entry_in, said_as, says_wrong};
ghost use Rattle.session_file.specs.Reading.{session_of, session_or_fault, text_read, text_under, word_under};

use crate::fields::opens_object;
use crate::listed::Listed;
use crate::notes::Notes;
use crate::parts::{Parts, parts_in};
use crate::passing::pass_rest;
use crate::replied::Answered;
use crate::replies::Replies;
use crate::session::{LoadFault, SavedEntries, Session, SessionField};
use crate::writing::VERSION;
use answer_book::{Entry, Judgement, What};
use hex::FromHex;
use json::{Reader, Scratch};
use serde_json::Value;
use std::alloc::Global;

/// The version before the one that is written.
pub(crate) const FIRST_VERSION: u64 = 1;

/// The most steps of a run.
const MOST_STEPS: u64 = cell_value::MOST_STEPS as u64;

/// How many numbers of 32 bits there are.
const NUMBERS: u64 = 4_294_967_296;

/// How deep a text may nest.
const MAX_DEPTH: usize = 127;

/// The session that the bytes are, or why they are none. White space that JSON allows, the order of keys and keys that
/// no session has say nothing; of equal keys the last one counts, and hexadecimal digits may be of either case. A whole
/// number is one from 0 to 2^64 - 1, written with digits alone. The fields are looked at in the order of
/// `SessionField`. What says nothing is passed over, however long it is, so that the memory is in proportion to the
/// length of the text.
pub fn load(alloc: Global, bytes: &[u8]) -> Result<Session, LoadFault>
    // The answer is the session that the bytes are, or why they are none, unless memory runs out.
    ensures answer { (result ≡ Err LoadFault.Memory) ⊎ (result ≡ session_of bytes.now) }

    // A session that was loaded is within its limits, so that it is loaded again as it is saved.
    ensures whole { IfOk result IsWhole }
{
    match str::from_utf8(bytes) {
        Ok(text) => loaded(alloc, text),
        Err(_) => Err(LoadFault::NotJson),
    }
}

/// The session that a text is, or why it is none.
fn loaded(alloc: Global, text: &str) -> Result<Session, LoadFault>
    ensures { (result ≡ Err LoadFault.Memory) ⊎ (result ≡ session_or_fault (read text.now)) }
{
    let mut scratch = Scratch::new(alloc);
    match Reader::new(text, &mut scratch) {
        Ok(reader) => session_read(alloc, reader),
        Err(_) => Err(LoadFault::Memory),
    }
}

/// The session that all these tokens are, or why they are none.
fn session_read(alloc: Global, reader: Reader<'_>) -> Result<Session, LoadFault>
    ensures { (result ≡ Err LoadFault.Memory) ⊎ (result ≡ session_or_fault (text_read reader.entry)) }
{
    let mut reader = reader;
    let Some(token) = reader.next() else {
        return Err(LoadFault::NotJson);
    };
    if opens_object(&token) {
        match parts_in(alloc, &mut reader, MAX_DEPTH - 1) {
            Ok(parts) => {
                if reader.next().is_some() {
                    return Err(LoadFault::NotJson);
                }
                session_from(alloc, parts)
            }
            Err(fault) => Err(fault),
        }
    } else {
        match pass_rest(&mut reader, token, MAX_DEPTH) {
            Ok(()) => {
                if reader.next().is_some() {
                    return Err(LoadFault::NotJson);
                }
                Err(LoadFault::BadShape(SessionField::Version))
            }
            Err(_) => Err(LoadFault::NotJson),
        }
    }
}

/// The session of these parts, or the first field that is not as it should be.
fn session_from(alloc: Global, parts: Parts) -> Result<Session, LoadFault>
    ensures { result ≡ session_by (object (members_view parts.fields.entries)) parts.entries parts.replies }
{
    let fields = Value::Object(parts.fields);
    versioned_from(alloc, &fields, parts.entries, parts.replies)
}

/// The session of these fields and lists, or the first field that is not as it should be.
fn versioned_from(
    alloc: Global,
    fields: &Value,
    entries: Option<Listed>,
    replies: Option<Answered>,
) -> Result<Session, LoadFault>
    ensures { result ≡ session_by (view fields.now) entries replies }
{
    let Some(version) = fields.get("version").and_then(Value::as_u64) else {
        return Err(LoadFault::BadShape(SessionField::Version));
    };
    if FIRST_VERSION <= version && version <= VERSION {
        fields_from(alloc, fields, version as u32, entries, replies)
    } else {
        Err(LoadFault::BadVersion(version))
    }
}

/// The session of this version that the fields after the version and the lists are.
fn fields_from(
    alloc: Global,
    fields: &Value,
    version: u32,
    entries: Option<Listed>,
    replies: Option<Answered>,
) -> Result<Session, LoadFault>
    ensures { result ≡ fields_by version (view fields.now) entries replies }
{
    let Some(source) = digest_from(fields, "source") else {
        return Err(LoadFault::BadShape(SessionField::Source));
    };
    let Some(input) = digest_from(fields, "input") else {
        return Err(LoadFault::BadShape(SessionField::Input));
    };
    let Some(budget) = budget_from(fields) else {
        return Err(LoadFault::BadShape(SessionField::Budget));
    };
    let session = Session {
        version,
        source,
        input,
        budget,
        entries: SavedEntries::new(alloc),
        notes: Notes::new(alloc),
        replies: Replies::new(alloc),
    };
    listed_from(alloc, session, entries, replies)
}

/// The session with its entries, notes and replies.
fn listed_from(
    alloc: Global,
    session: Session,
    listed: Option<Listed>,
    answered: Option<Answered>,
) -> Result<Session, LoadFault>
    ensures { result ≡ listed_by session listed answered }
{
    let Some(listed) = begun_wrong(listed) else {
        return Err(LoadFault::BadShape(SessionField::Entries));
    };
    let entries = listed.entries;
    match notes_from(alloc, session.version, listed.notes) {
        Some(notes) => answered_from(
            alloc,
            Session {
                entries,
                notes,
                ..session
            },
            answered,
        ),
        None => Err(LoadFault::BadShape(SessionField::Entries)),
    }
}

/// The session with its replies.
fn answered_from(
    alloc: Global,
    session: Session,
    answered: Option<Answered>,
) -> Result<Session, LoadFault>
    ensures { result ≡ answered_by session answered }
{
    match replies_from(alloc, session.version, answered) {
        Some(replies) => Ok(Session { replies, ..session }),
        None => Err(LoadFault::BadShape(SessionField::Replies)),
    }
}

/// The notes of a session of this version, if each is one. Version 1 has none.
fn notes_from(alloc: Global, version: u32, notes: Option<Notes>) -> Option<Notes>
    ensures { result ≡ notes_by version notes }
{
    if u64::from(version) == FIRST_VERSION {
        Some(Notes::new(alloc))
    } else {
        notes
    }
}

/// The replies of a session of this version, if each is one. Version 1 has none.
fn replies_from(alloc: Global, version: u32, answered: Option<Answered>) -> Option<Replies>
    ensures { result ≡ replies_by version answered }
{
    if u64::from(version) == FIRST_VERSION {
        return Some(Replies::new(alloc));
    }
    match answered {
        Some(answered) => Some(answered.replies),
        None => None,
    }
}

/// The entries, if the first says that call 0 is wrong.
fn begun_wrong(listed: Option<Listed>) -> Option<Listed>
    ensures { result ≡ begun_wrong listed }
{
    match listed {
        Some(listed) => {
            if is_first_wrong(&listed.entries) {
                Some(listed)
            } else {
                None
            }
        }
        None => None,
    }
}

/// The 32 bytes of the hexadecimal digits under a key.
pub(crate) fn digest_from(value: &Value, key: &str) -> Option<[u8; 32]>
    ensures { result ≡ digest_at key.now (view value.now) }
{
    match value.get(key).and_then(Value::as_str) {
        Some(text) => <[u8; 32] as FromHex>::from_hex(text).ok(),
        None => None,
    }
}

/// The budget of steps, from 1 to 4,000,000.
fn budget_from(value: &Value) -> Option<u32>
    ensures { result ≡ budget_at (view value.now) }
{
    match value.get("budget").and_then(Value::as_u64) {
        Some(budget) if 1 <= budget && budget <= MOST_STEPS => Some(budget as u32),
        _ => None,
    }
}

/// A whole number of 32 bits under a key.
fn number_from(value: &Value, key: &str) -> Option<u32>
    ensures { result ≡ word_under key.now (view value.now) }
{
    match value.get(key).and_then(Value::as_u64) {
        Some(number) if number < NUMBERS => Some(number as u32),
        _ => None,
    }
}

/// A judgement on the call that is named.
fn judged(value: &Value, judgement: Judgement) -> Option<What>
    ensures { result ≡ option_map (λ call. what.Judged call judgement) (word_under (codes "call") (view value.now)) }
{
    match number_from(value, "call") {
        Some(call) => Some(What::Judged(call, judgement)),
        None => None,
    }
}

/// Trust in the routine that is named.
fn trusted(value: &Value) -> Option<What>
    ensures { result ≡ option_map what.Trusted (word_under (codes "routine") (view value.now)) }
{
    match number_from(value, "routine") {
        Some(routine) => Some(What::Trusted(routine)),
        None => None,
    }
}

/// What an entry of this kind says.
fn said_by(kind: &str, value: &Value) -> Option<What>
    ensures { result ≡ said_as kind.now (view value.now) }
{
    if kind == "right" {
        judged(value, Judgement::Right)
    } else if kind == "wrong" {
        judged(value, Judgement::Wrong)
    } else if kind == "unknown" {
        judged(value, Judgement::Unknown)
    } else if kind == "trust" {
        trusted(value)
    } else {
        None
    }
}

/// What an entry says.
fn what_from(value: &Value) -> Option<What>
    ensures { result ≡ option_and_then (λ kind. said_as kind (view value.now))
        (text_under (codes "kind") (view value.now)) }
{
    match value.get("kind").and_then(Value::as_str) {
        Some(kind) => said_by(kind, value),
        None => None,
    }
}

/// Whether an entry stands.
fn standing_from(value: &Value) -> Option<bool>
    ensures { result ≡ option_and_then as_bool (get (codes "standing") (view value.now)) }
{
    value.get("standing").and_then(Value::as_bool)
}

/// The entry that a value is.
pub(crate) fn entry_from(value: &Value) -> Option<Entry>
    ensures { result ≡ entry_in (view value.now) }
{
    match what_from(value) {
        Some(what) => match standing_from(value) {
            Some(standing) => Some(Entry { what, standing }),
            None => None,
        },
        None => None,
    }
}

/// Whether this says that call 0 is wrong.
fn is_wrong(what: What) -> bool
    ensures { result ≡ says_wrong what }
{
    match what {
        What::Judged(call, Judgement::Wrong) => call == 0,
        _ => false,
    }
}

/// Whether the first entry says that call 0 is wrong.
fn is_first_wrong(entries: &SavedEntries) -> bool
    ensures { result ≡ begins_wrong entries.now }
{
    match entries.as_slice().first() {
        Some(entry) => is_wrong(entry.what),
        None => false,
    }
}
