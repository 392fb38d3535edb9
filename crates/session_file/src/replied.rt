//! The replies of a session, one after another as the text has them.
ghost use Rattle.std.specs.Prelude.{◌<◌, ◌≡◌, IfErr, IfOk, OnOk, Some, codes, length, option_and_then};
ghost use Rattle.serde_json.specs.{Data.Data, Data.Items, View.view};
ghost use Rattle.session_file.specs.{Limits.most_replies, Listed.with_one, Passing.items_read, Passing.value_read};
ghost use Rattle.session_file.specs.{Reading.judgement_of, Reading.reply_in, Reading.text_under, Shown.IsRefused};
ghost use Rattle.session_file.specs.Listed.{all_answered, answered_in, next_answered, nothing_answered, with_answer};

use crate::fields::{opens_list, shown_value};
use crate::passing::pass_rest;
use crate::reading::digest_from;
use crate::replies::{MOST_REPLIES, Replies};
use crate::session::LoadFault;
use answer_book::Judgement;
use edge_ports::Memory;
use json::Reader;
use serde_json::Value;
use std::alloc::Global;

/// Replies, set one after another, and how many were set.
#[derive(Debug, Drop)]
pub(crate) struct Answered {
    pub(crate) count: usize,
    pub(crate) replies: Replies,
}

/// The judgement of a word.
fn judgement_from(word: &str) -> Option<Judgement>
    ensures { result ≡ judgement_of word.now }
{
    if word == "right" {
        Some(Judgement::Right)
    } else if word == "wrong" {
        Some(Judgement::Wrong)
    } else if word == "unknown" {
        Some(Judgement::Unknown)
    } else {
        None
    }
}

/// The reply that a value says.
fn said_reply(value: &Value) -> Option<Judgement>
    ensures { result ≡ option_and_then judgement_of (text_under (codes "reply") (view value.now)) }
{
    match value.get("reply").and_then(Value::as_str) {
        Some(word) => judgement_from(word),
        None => None,
    }
}

/// The reply that a value is, with the digest of its question.
fn reply_from(value: &Value) -> Option<([u8; 32], Judgement)>
    ensures { result ≡ reply_in (view value.now) }
{
    match digest_from(value, "question") {
        Some(question) => match said_reply(value) {
            Some(reply) => Some((question, reply)),
            None => None,
        },
        None => None,
    }
}

/// The replies with one more set.
fn with_reply(answered: Answered, kept: ([u8; 32], Judgement)) -> Result<Option<Answered>, Memory>
    requires { answered.count < most_replies }
    ensures { IfOk result (λ after. after ≡ Some (with_one answered kept)) }
{
    let count = answered.count + 1;
    let mut replies = answered.replies;
    let question = kept.0;
    replies.set(question, kept.1)?;
    Ok(Some(Answered { count, replies }))
}

/// These replies and one more set, of which there are at most [`MOST_REPLIES`]; none at all where the value is no
/// reply.
fn with_answer(answered: Answered, value: &Value) -> Result<Option<Answered>, Memory>
    ensures { IfOk result (λ after. after ≡ with_answer answered (view value.now)) }
{
    if answered.count >= MOST_REPLIES {
        return Ok(None);
    }
    match reply_from(value) {
        None => Ok(None),
        Some(kept) => with_reply(answered, kept),
    }
}

/// The same, where there may be none already.
fn next_answered(answered: Option<Answered>, value: &Value) -> Result<Option<Answered>, LoadFault>
    ensures read { IfOk result (λ after. after ≡ next_answered answered (view value.now)) }
    ensures memory { IfErr result (λ fault. fault ≡ LoadFault.Memory) }
{
    match answered {
        None => Ok(None),
        Some(answered) => match with_answer(answered, value) {
            Ok(after) => Ok(after),
            Err(_) => Err(LoadFault::Memory),
        },
    }
}

/// The same, with the value that stands next.
fn answered_after(
    alloc: Global,
    reader: &mut Reader<'_>,
    depth: usize,
    answered: Option<Answered>,
) -> Result<Option<Answered>, LoadFault>
    requires { 0 < depth }
    ensures read { IfOk result (λ after. (d : Data) × (value_read depth reader.old ≡ Some (d, reader.new))
        × (after ≡ next_answered answered d)) }
    ensures refused { IfErr result (λ fault. IsRefused fault (value_read depth reader.old)) }
    ensures shorter { OnOk result (length reader.new < length reader.old) }
{
    match shown_value(alloc, reader, depth) {
        Ok(value) => {
            let after = next_answered(answered, &value);
            drop(value);
            after
        }
        Err(fault) => Err(fault),
    }
}

/// The replies that the items of an array are, set in order.
fn replies_in(
    alloc: Global,
    reader: &mut Reader<'_>,
    depth: usize,
) -> Result<Option<Answered>, LoadFault>
    requires { 0 < depth }
    ensures read { IfOk result (λ answered. (ds : Items) × (items_read depth reader.old ≡ Some (ds, reader.new))
        × (answered ≡ all_answered (Some nothing_answered) ds)) }
    ensures refused { IfErr result (λ fault. IsRefused fault (items_read depth reader.old)) }
    ensures shorter { OnOk result (length reader.new < length reader.old) }
{
    let mut answered = Some(Answered {
        count: 0,
        replies: Replies::new(alloc),
    });
    'items: while !reader.take_end_array() {
        match answered_after(alloc, reader, depth, answered) {
            Ok(after) => answered = after,
            Err(fault) => return Err(fault),
        }
    }
    Ok(answered)
}

/// The replies that a value is, if it is a list of replies.
pub(crate) fn replies_read(
    alloc: Global,
    reader: &mut Reader<'_>,
    depth: usize,
) -> Result<Option<Answered>, LoadFault>
    requires { 1 < depth }
    ensures read { IfOk result (λ answered. (d : Data) × (value_read depth reader.old ≡ Some (d, reader.new))
        × (answered ≡ answered_in (Some d))) }
    ensures refused { IfErr result (λ fault. IsRefused fault (value_read depth reader.old)) }
    ensures shorter { OnOk result (length reader.new < length reader.old) }
{
    let Some(token) = reader.next() else {
        return Err(LoadFault::NotJson);
    };
    if opens_list(&token) {
        replies_in(alloc, reader, depth - 1)
    } else {
        match pass_rest(reader, token, depth) {
            Ok(()) => Ok(None),
            Err(_) => Err(LoadFault::NotJson),
        }
    }
}
