//! The parts of a session, as its text has them.
ghost use Rattle.std.specs.Prelude.{◌<◌, ◌≡◌, IfErr, IfOk, OnOk, Some, length};
ghost use Rattle.serde_json.specs.Data.{Data, Members, put};
ghost use Rattle.session_file.specs.{Parts.AreParts, Passing.members_read, Passing.value_read, Shown.IsRefused};

use crate::fields::{field_read, key_after};
use crate::listed::{Listed, entries_read};
use crate::replied::{Answered, replies_read};
use crate::session::LoadFault;
use json::Reader;
use serde_json::{Map, Value};
use std::alloc::Global;

/// The fields of a session, and its lists, if they are lists of entries and of replies.
#[derive(Drop)]
pub(crate) struct Parts {
    pub(crate) fields: Map<String, Value>,
    pub(crate) entries: Option<Listed>,
    pub(crate) replies: Option<Answered>,
}

/// Reads a member whose key was read. Of equal keys the last one counts.
fn part_read(
    alloc: Global,
    reader: &mut Reader<'_>,
    depth: usize,
    parts: &mut Parts,
    key: &str,
) -> Result<(), LoadFault>
    requires { 1 < depth }
    ensures read { OnOk result ((d : Data) × (value_read depth reader.old ≡ Some (d, reader.new))
        × ((members : Members) → AreParts parts.old members → AreParts parts.new (put key.now d members))) }
    ensures refused { IfErr result (λ fault. IsRefused fault (value_read depth reader.old)) }
    ensures shorter { OnOk result (length reader.new < length reader.old) }
{
    if key == "entries" {
        match entries_read(alloc, reader, depth) {
            Ok(entries) => {
                parts.entries = entries;
                Ok(())
            }
            Err(fault) => Err(fault),
        }
    } else if key == "replies" {
        match replies_read(alloc, reader, depth) {
            Ok(replies) => {
                parts.replies = replies;
                Ok(())
            }
            Err(fault) => Err(fault),
        }
    } else {
        field_read(alloc, reader, depth, &mut parts.fields, key)
    }
}

/// The parts among the members of an object.
pub(crate) fn parts_in(
    alloc: Global,
    reader: &mut Reader<'_>,
    depth: usize,
) -> Result<Parts, LoadFault>
    requires { 1 < depth }
    ensures read { IfOk result (λ parts. (ms : Members) × (members_read depth reader.old ≡ Some (ms, reader.new))
        × AreParts parts ms) }
    ensures refused { IfErr result (λ fault. IsRefused fault (members_read depth reader.old)) }
{
    let mut parts = Parts {
        fields: Map::new(alloc),
        entries: None,
        replies: None,
    };
    'members: while let Some(key) = key_after(reader)? {
        match part_read(alloc, reader, depth, &mut parts, key) {
            Ok(()) => {}
            Err(fault) => return Err(fault),
        }
    }
    Ok(parts)
}
