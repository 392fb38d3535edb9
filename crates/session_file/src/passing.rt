//! Values, items and members are passed one after another.
ghost use Rattle.std.specs.Prelude.{◌<◌, ◌∷◌, ◌≡◌, ◌≤◌, IfErr, IfOk, None, OnOk, Some, length};
ghost use Rattle.json.specs.Reads.{token_of};
ghost use Rattle.serde_json.specs.Data.{Data, Items, Members};
ghost use Rattle.session_file.specs.Passing.{Begins, items_read, members_read, value_read};

use crate::numbers::whole_number;
use json::{Invalid, Reader, Token};

/// Passes over the rest of a value that begins with this token. Arrays and objects may nest `depth` deep, and each
/// number is one that is not beyond all floats.
#[cycle(pass)]
pub fn pass_rest(reader: &mut Reader<'_>, token: Token<'_>, depth: usize) -> Result<(), Invalid>
    ensures passed { IfOk result (λ _. (d : Data) × Begins (token_of token.entry) d
        × (value_read depth (token_of token.entry ∷ reader.old) ≡ Some (d, reader.new))) }
    ensures refused { IfErr result (λ _. value_read depth (token_of token.entry ∷ reader.old) ≡ None) }
    ensures shorter { OnOk result (length reader.new ≤ length reader.old) }
{
    match token {
        Token::String(_) => Ok(()),
        Token::Number(text) => match whole_number(text) {
            Some(_) => Ok(()),
            None => Err(Invalid),
        },
        Token::Bool(_) => Ok(()),
        Token::Null => Ok(()),
        Token::EndObject | Token::EndArray | Token::Key(_) | Token::Bad => Err(Invalid),
        Token::BeginArray => {
            if depth == 0 {
                return Err(Invalid);
            }
            pass_items(reader, depth - 1)
        }
        Token::BeginObject => {
            if depth == 0 {
                return Err(Invalid);
            }
            pass_members(reader, depth - 1)
        }
    }
}

/// Passes over a value, and gives the token that it begins with.
#[cycle(pass)]
pub fn pass<'a>(reader: &mut Reader<'a>, depth: usize) -> Result<Token<'a>, Invalid>
    ensures passed { IfOk result (λ token. (d : Data) × Begins (token_of token) d
        × (value_read depth reader.old ≡ Some (d, reader.new))) }
    ensures refused { IfErr result (λ _. value_read depth reader.old ≡ None) }
    ensures shorter { OnOk result (length reader.new < length reader.old) }
{
    let Some(token) = reader.next() else {
        return Err(Invalid);
    };
    match pass_rest(reader, token, depth) {
        Ok(()) => Ok(token),
        Err(fault) => Err(fault),
    }
}

/// Passes over the items of an array, with the bracket that closes it.
#[cycle(pass)]
pub fn pass_items(reader: &mut Reader<'_>, depth: usize) -> Result<(), Invalid>
    ensures passed { IfOk result (λ _. (ds : Items) × (items_read depth reader.old ≡ Some (ds, reader.new))) }
    ensures refused { IfErr result (λ _. items_read depth reader.old ≡ None) }
    ensures shorter { OnOk result (length reader.new < length reader.old) }
{
    'items: while !reader.take_end_array() {
        match pass(reader, depth) {
            Ok(_) => {}
            Err(fault) => return Err(fault),
        }
    }
    Ok(())
}

/// Passes over the members of an object, with the brace that closes it.
#[cycle(pass)]
pub fn pass_members(reader: &mut Reader<'_>, depth: usize) -> Result<(), Invalid>
    ensures passed { IfOk result (λ _. (ms : Members) × (members_read depth reader.old ≡ Some (ms, reader.new))) }
    ensures refused { IfErr result (λ _. members_read depth reader.old ≡ None) }
    ensures shorter { OnOk result (length reader.new < length reader.old) }
{
    'members: while let Some(_) = reader.next_key()? {
        match pass(reader, depth) {
            Ok(_) => {}
            Err(fault) => return Err(fault),
        }
    }
    Ok(())
}
