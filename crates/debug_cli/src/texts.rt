//! The texts on what is refused.
ghost use Rattle.std.specs.Prelude.{◌++◌, ◌≡◌, IfOk, Some, codes, decimal};
ghost use Rattle.debug_cli.specs.Refusals.{file_told, line_on, session_told};
ghost use Rattle.debug_cli.specs.Texts.{field_key, refused_line};

use crate::refusals::Refusal;
use code_checker::SourceRefusal;
use debuggee::{SourceFault, write_refusal};
use edge_ports::{Bytes, FetchFault};
use itoa::Buffer;
use session_file::{LoadFault, SessionField};
use std::alloc::{AllocError, Global};

/// Begin, word and line end.
fn word_line(alloc: Global, begin: &[u8], word: &str) -> Result<Bytes, AllocError>
    ensures { IfOk result (λ text. text ≡ begin.now ++ word.now ++ codes "\n") }
{
    let mut text = Bytes::new(alloc);
    text.append(begin)?;
    text.append(word.as_bytes())?;
    text.append(b"\n")?;
    Ok(text)
}

/// The line on a file that could not be fetched.
fn file_text(alloc: Global, name: &str, why: FetchFault) -> Result<Bytes, AllocError>
    ensures { IfOk result (λ text. file_told why name.now ≡ Some text) }
{
    match why {
        FetchFault::Absent => word_line(alloc, b"file: absent ", name),
        FetchFault::Failed => word_line(alloc, b"file: failed ", name),
        FetchFault::TooLong(_) => word_line(alloc, b"file: too long ", name),
        FetchFault::Memory => Err(AllocError),
    }
}

/// The line on a source that is refused for this reason at this place.
fn refused_text(
    alloc: Global,
    why: SourceRefusal,
    line: u32,
    byte: u32,
) -> Result<Bytes, AllocError>
    ensures { IfOk result (λ text. text ≡ refused_line why line byte) }
{
    let mut text = Bytes::new(alloc);
    text.append(b"refused: ")?;
    write_refusal(&mut text, why, line, byte)?;
    text.append(b"\n")?;
    Ok(text)
}

/// The key of a field of a session's text.
fn field_key(field: SessionField) -> &'static str
    ensures { result.now ≡ field_key field }
{
    match field {
        SessionField::Version => "version",
        SessionField::Source => "source",
        SessionField::Input => "input",
        SessionField::Budget => "budget",
        SessionField::Entries => "entries",
        SessionField::Replies => "replies",
    }
}

/// The line on a session of another version.
fn version_text(alloc: Global, version: u64) -> Result<Bytes, AllocError>
    ensures { IfOk result (λ text. text ≡ codes "session: BadVersion " ++ decimal version ++ codes "\n") }
{
    let mut buffer = Buffer::new();
    word_line(alloc, b"session: BadVersion ", buffer.format(version))
}

/// The line on a file that is no session.
fn session_text(alloc: Global, why: LoadFault) -> Result<Bytes, AllocError>
    ensures { IfOk result (λ text. session_told why ≡ Some text) }
{
    match why {
        LoadFault::NotJson => word_line(alloc, b"session: ", "NotJson"),
        LoadFault::BadShape(field) => word_line(alloc, b"session: BadShape ", field_key(field)),
        LoadFault::BadVersion(version) => version_text(alloc, version),
        LoadFault::Memory => Err(AllocError),
    }
}

/// The line on a refusal, unless memory ran out.
pub fn refusal_line(alloc: Global, refusal: &Refusal<'_>) -> Result<Bytes, AllocError>
    ensures { IfOk result (λ text. line_on refusal.now ≡ Some text) }
{
    match *refusal {
        Refusal::Source(SourceFault::Refused { why, line, byte }) => {
            refused_text(alloc, why, line, byte)
        }
        Refusal::File(name, why) => file_text(alloc, name, why),
        Refusal::Session(why) => session_text(alloc, why),
        Refusal::Source(SourceFault::Memory) | Refusal::Memory => Err(AllocError),
    }
}
