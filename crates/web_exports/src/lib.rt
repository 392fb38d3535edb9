//! What a web page calls: one function over slices. A slice crosses as its address and its length. The caller owes what
//! the types say: each slice lies in memory that was written, and one that is written to shares no byte with another.
//! Nothing is kept between two calls.
#![tactic(auto)]

mod files;

ghost use Rattle.std.specs.{Prelude.◌≡◌, Prelude.◌≤◌, Prelude.length, Option.option_map};
ghost use Rattle.web_exports.specs.Passed.{given_in, session_if, text_or_empty};
ghost use Rattle.web_exports.specs.Returned.{TurnOf, result_in, saved_by};

use crate::files::{FilesFault, named_files, text};
use std::alloc::Global;
use web_page::{PageTurn, SavedSession, TurnOutcome, out_of_memory, take_turn};

/// How many bytes a further file has.
#[repr(C)]
#[derive(Clone, Copy)]
pub struct FileSizes {
    /// Those of its name.
    pub name: usize,
    /// Its own.
    pub bytes: usize,
}

/// How a turn came out.
#[repr(C)]
#[derive(Drop)]
pub struct Came {
    /// The exit status of the command, or `NO_FILES`.
    pub status: u64,
    /// How many bytes the screen got: so many stand at the front of the room for it.
    pub screen: usize,
    /// Whether there is a saved session: 0 where there is none; 1 where it stands at the front of the room for it; 2
    /// where it is longer than that; 3 where memory ran out before it was known.
    pub session: u64,
    /// How many bytes of it stand there.
    pub saved: usize,
}

/// The status where the further files do not come as they should: nothing is done.
const NO_FILES: u64 = 10;

/// The session, if there is one.
fn session_of(has_session: bool, session: &[u8]) -> Option<&[u8]>
    ensures { option_map (λ it. it.now) result ≡ session_if has_session session.now }
{
    if has_session { Some(session) } else { None }
}

/// The text that bytes are, or the empty text.
fn text_of(bytes: &[u8]) -> &str
    ensures { result.now ≡ text_or_empty bytes.now }
{
    match text(bytes) {
        Some(text) => text,
        None => "",
    }
}

/// What is said of a saved session, and how many bytes of it there are.
fn session_numbers(saved: SavedSession) -> (u64, usize)
    ensures { saved_by result.0 result.1 ≡ saved }
{
    match saved {
        SavedSession::Absent => (0, 0),
        SavedSession::Whole(count) => (1, count),
        SavedSession::TooLong => (2, 0),
        SavedSession::Memory => (3, 0),
    }
}

/// How a turn came out, as numbers.
fn came_of(outcome: &TurnOutcome) -> Came
    ensures status { result.status ≡ outcome.now.status }
    ensures screen { result.screen ≡ outcome.now.screen }
    ensures saved { saved_by result.session result.saved ≡ outcome.now.saved }
{
    let (session, saved) = session_numbers(outcome.saved);
    Came {
        status: outcome.status as u64,
        screen: outcome.screen,
        session,
        saved,
    }
}

/// Does one turn. `budget` has the digits of the steps; `has_session` says whether there is a saved session to go on
/// with. `files` has the names and bytes of further files, one after the other, and `sizes` how many bytes each has.
/// Where they do not fill `files`, or a name is no text of UTF-8, the status is 10. It is 6 only where `screen` is
/// full.
#[unsafe(no_mangle)]
pub extern "C" fn pasask_turn(
    alloc: Global,
    source: &[u8],
    input: &[u8],
    budget: &[u8],
    has_session: bool,
    session: &[u8],
    sizes: &[FileSizes],
    files: &[u8],
    console: &[u8],
    screen: &mut [u8],
    saved: &mut [u8],
    came: &mut Came,
)
    ensures within { came.new.screen ≤ length screen.new }
    ensures full { came.new.status ≡ 6 → came.new.screen ≡ length screen.new }
    ensures turn { TurnOf
        (given_in (record {
          source = source.now;
          input = input.now;
          budget = budget.now;
          has_session = has_session;
          session = session.now;
          sizes = sizes.now;
          files = files.now;
          console = console.now;
        }))
        (result_in came.new screen.new saved.new) }
{
    match named_files(alloc, sizes, files) {
        Ok(files) => {
            let turn = PageTurn {
                source,
                input,
                budget: text_of(budget),
                session: session_of(has_session, session),
                files: files.as_slice(),
                console,
            };
            *came = came_of(&take_turn(alloc, &turn, screen, saved));
        }
        Err(FilesFault::Memory) => *came = came_of(&out_of_memory()),
        Err(FilesFault::Refused) => {
            *came = Came {
                status: NO_FILES,
                screen: 0,
                session: 0,
                saved: 0,
            };
        }
    }
}
