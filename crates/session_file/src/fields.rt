//! The fields of a session and of its parts, but for the lists: what else stands in them is passed over and not kept.
ghost use Rattle.std.specs.Prelude.{◌<◌, ◌≡◌, IfErr, IfOk, None, OnOk, Some, length, option_map};
ghost use Rattle.json.specs.{Json.read_key, Reads.token_of};
ghost use Rattle.serde_json.specs.{Data.Data, Data.Members, View.members_view, View.view};
ghost use Rattle.session_file.specs.Passing.{members_read, value_read};
ghost use Rattle.session_file.specs.Shown.{IsRefused, Shows, ShowsValue, flat, flat_token, is_entry_field, is_field};
ghost use Rattle.session_file.specs.Shown.{is_list_opening, is_opening, is_reply_field, is_session_field, with_field};

use crate::numbers::whole_number;
use crate::passing::{pass, pass_rest};
use crate::session::LoadFault;
use edge_ports::Memory;
use json::{Reader, Token};
use serde_json::{Map, Value};
use std::alloc::Global;

/// Whether this is the key of a field of an entry.
fn is_entry_field(key: &str) -> bool
    ensures { result ≡ is_entry_field key.now }
{
    key == "call" || key == "kind" || key == "note" || key == "routine" || key == "standing"
}

/// Whether this is the key of a field of a reply.
fn is_reply_field(key: &str) -> bool
    ensures { result ≡ is_reply_field key.now }
{
    key == "question" || key == "reply"
}

/// Whether this is the key of a field of a session, but for its lists.
fn is_session_field(key: &str) -> bool
    ensures { result ≡ is_session_field key.now }
{
    key == "budget" || key == "input" || key == "source" || key == "version"
}

/// Whether this is the key of a field that is no list.
fn is_field(key: &str) -> bool
    ensures { result ≡ is_field key.now }
{
    is_entry_field(key) || is_reply_field(key) || is_session_field(key)
}

/// Whether an object begins with this token.
pub(crate) fn opens_object(token: &Token<'_>) -> bool
    ensures { result ≡ is_opening (token_of token.now) }
{
    match token {
        Token::BeginObject => true,
        _ => false,
    }
}

/// Whether an array begins with this token.
pub(crate) fn opens_list(token: &Token<'_>) -> bool
    ensures { result ≡ is_list_opening (token_of token.now) }
{
    match token {
        Token::BeginArray => true,
        _ => false,
    }
}

/// What is kept of a value that begins with this token: a text, a whole number or a truth value.
fn flat_value(alloc: Global, token: Token<'_>) -> Result<Value, Memory>
    ensures { IfOk result (λ value. view value ≡ flat_token (token_of token.entry)) }
{
    match token {
        Token::String(text) => Ok(Value::String(String::from_str(alloc, text)?)),
        Token::Number(text) => match whole_number(text) {
            Some(Some(number)) => Ok(Value::from(number)),
            Some(None) => Ok(Value::Null),
            None => Ok(Value::Null),
        },
        Token::Bool(truth) => Ok(Value::Bool(truth)),
        _ => Ok(Value::Null),
    }
}

/// Keeps what is kept of a value that begins with this token, if it stands under the key of a field.
pub(crate) fn keep_field(
    alloc: Global,
    fields: &mut Map<String, Value>,
    key: &str,
    token: Token<'_>,
) -> Result<(), Memory>
    ensures { OnOk result (members_view fields.new.entries
        ≡ with_field key.now (flat_token (token_of token.entry)) (members_view fields.old.entries)) }
{
    if is_field(key) {
        let value = flat_value(alloc, token)?;
        let key = String::from_str(alloc, key)?;
        drop(fields.insert(key, value)?);
    }
    Ok(())
}

/// Reads a member whose key was read, and keeps it if it is a field.
pub(crate) fn field_read(
    alloc: Global,
    reader: &mut Reader<'_>,
    depth: usize,
    fields: &mut Map<String, Value>,
    key: &str,
) -> Result<(), LoadFault>
    ensures read { OnOk result ((d : Data) × (value_read depth reader.old ≡ Some (d, reader.new))
        × (members_view fields.new.entries ≡ with_field key.now (flat d) (members_view fields.old.entries))) }
    ensures refused { IfErr result (λ fault. IsRefused fault (value_read depth reader.old)) }
    ensures shorter { OnOk result (length reader.new < length reader.old) }
{
    match pass(reader, depth) {
        Ok(token) => match keep_field(alloc, fields, key, token) {
            Ok(()) => Ok(()),
            Err(_) => Err(LoadFault::Memory),
        },
        Err(_) => Err(LoadFault::NotJson),
    }
}

/// The next key of an object, or none at the brace that closes it.
pub(crate) fn key_after<'a>(reader: &mut Reader<'a>) -> Result<Option<&'a str>, LoadFault>
    ensures read { IfOk result (λ key. read_key reader.old ≡ Some (option_map (λ k. k.now) key, reader.new)) }
    ensures refused { IfErr result (λ fault. (fault ≡ LoadFault.NotJson) × (read_key reader.old ≡ None)) }
{
    match reader.next_key() {
        Ok(key) => Ok(key),
        Err(_) => Err(LoadFault::NotJson),
    }
}

/// The fields among the members of an object.
fn fields_in(
    alloc: Global,
    reader: &mut Reader<'_>,
    depth: usize,
) -> Result<Map<String, Value>, LoadFault>
    ensures read { IfOk result (λ fields. (ms : Members) × (members_read depth reader.old ≡ Some (ms, reader.new))
        × Shows (members_view fields.entries) ms) }
    ensures refused { IfErr result (λ fault. IsRefused fault (members_read depth reader.old)) }
    ensures shorter { OnOk result (length reader.new < length reader.old) }
{
    let mut fields = Map::new(alloc);
    'members: while let Some(key) = key_after(reader)? {
        match field_read(alloc, reader, depth, &mut fields, key) {
            Ok(()) => {}
            Err(fault) => return Err(fault),
        }
    }
    Ok(fields)
}

/// What a session asks of a value: the fields of an object, and nothing of any other value.
pub(crate) fn shown_value(
    alloc: Global,
    reader: &mut Reader<'_>,
    depth: usize,
) -> Result<Value, LoadFault>
    requires { 0 < depth }
    ensures read { IfOk result (λ shown. (d : Data) × (value_read depth reader.old ≡ Some (d, reader.new))
        × ShowsValue (view shown) d) }
    ensures refused { IfErr result (λ fault. IsRefused fault (value_read depth reader.old)) }
    ensures shorter { OnOk result (length reader.new < length reader.old) }
{
    let Some(token) = reader.next() else {
        return Err(LoadFault::NotJson);
    };
    if opens_object(&token) {
        match fields_in(alloc, reader, depth - 1) {
            Ok(fields) => Ok(Value::Object(fields)),
            Err(fault) => Err(fault),
        }
    } else {
        match pass_rest(reader, token, depth) {
            Ok(()) => Ok(Value::Null),
            Err(_) => Err(LoadFault::NotJson),
        }
    }
}
