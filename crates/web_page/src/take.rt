//! A turn is taken.
ghost use Rattle.std.specs.Prelude.{◌≡◌, ◌≤◌, IfOk, Some, codes, length, take};
ghost use Rattle.edge_ports.specs.Files.{file_at};
ghost use Rattle.debug_cli.specs.Named.{meaning};
ghost use Rattle.web_page.specs.{Given.turn_meaning, Outside.files_at_start, Turns.given_by};
ghost use Rattle.web_page.specs.Outcomes.{IsGivenBack, result_of};
ghost use Rattle.web_page.specs.Promises.{ComesToItsEnd, GoesByStatus, HasHeadline, HearsConsole, IsFirstPart, IsSpent};
ghost use Rattle.web_page.specs.Promises.{IsTranscript, RefusesBudget, RefusesSession, RefusesSource};
ghost use Rattle.web_page.specs.declared.turn.SavedSession.TheVariants as sessions;

use crate::outside::{TurnConsole, TurnFiles};
use crate::request::{files, words};
use crate::turn::{PageTurn, SavedSession, TurnOutcome};
use debug_cli::ask_pascal;
use edge_ports::{FetchFault, Keeper, Memory, Room};
use std::alloc::Global;
use std::string::String;

/// The name of the file to which a line `save page.session` saves the session.
const SAVED: &str = "page.session";

/// The exit status where memory ran out.
const MEMORY: u8 = 7;

/// Copies the bytes to the front of the room.
fn put_front(bytes: &[u8], room: &mut [u8])
    requires { length bytes.now ≤ length room.old }
    ensures front { take (length bytes.now) room.new ≡ bytes.now }
{
    room[..bytes.len()].copy_from_slice(bytes);
}

/// Copies the session that was saved to the front of the room.
fn give_back(alloc: Global, files: &mut TurnFiles, room: &mut [u8]) -> SavedSession
    ensures { IsGivenBack result room.new (file_at files.old.files (codes "page.session")) }
{
    match files.fetch(alloc, SAVED, room.len() as u64) {
        Ok(bytes) => {
            put_front(bytes.as_slice(), room);
            SavedSession::Whole(bytes.as_slice().len())
        }
        Err(FetchFault::Absent) => SavedSession::Absent,
        Err(FetchFault::TooLong(_)) => SavedSession::TooLong,
        Err(FetchFault::Failed) | Err(FetchFault::Memory) => SavedSession::Memory,
    }
}

/// The words of the command and the files that it begins with.
fn prepared(alloc: Global, turn: &PageTurn) -> Result<(Vec<String>, TurnFiles), Memory>
    ensures meaning { IfOk result (λ it. meaning it.0.items ≡ turn_meaning (given_by turn.now)) }
    ensures files { IfOk result (λ it. it.1 ≡ files_at_start (given_by turn.now)) }
{
    let words = words(alloc, turn)?;
    let files = files(alloc, turn)?;
    Ok((words, files))
}

/// The outcome where memory runs out before the command begins.
pub fn out_of_memory() -> TurnOutcome
    ensures status { result.status ≡ 7 }
    ensures screen { result.screen ≡ 0 }
    ensures saved { result.saved ≡ sessions.Memory }
{
    TurnOutcome {
        status: MEMORY,
        screen: 0,
        saved: SavedSession::Memory,
    }
}

/// Does a turn: the front of `screen` then has what the screen got, and the front of `saved` the session that a line
/// `save page.session` saved. The status is 6 only where `screen` is full.
pub fn take_turn(alloc: Global, turn: &PageTurn, screen: &mut [u8], saved: &mut [u8]) -> TurnOutcome
    ensures within { result.screen ≤ length screen.new }
    ensures full { result.status ≡ 6 → result.screen ≡ length screen.new }
    ensures headline { HasHeadline (given_by turn.now) (result_of result screen.new saved.new) }
    ensures transcript { IsTranscript (given_by turn.now) (result_of result screen.new saved.new) }
    ensures prefix { IsFirstPart (given_by turn.now) (result_of result screen.new saved.new) }
    ensures done { ComesToItsEnd (given_by turn.now) (result_of result screen.new saved.new) }
    ensures spent { IsSpent (given_by turn.now) (result_of result screen.new saved.new) }
    ensures usage { RefusesBudget (given_by turn.now) (result_of result screen.new saved.new) }
    ensures no_program { RefusesSource (given_by turn.now) (result_of result screen.new saved.new) }
    ensures no_session { RefusesSession (given_by turn.now) (result_of result screen.new saved.new) }
    ensures goes { GoesByStatus (given_by turn.now) (result_of result screen.new saved.new) }
    ensures console { HearsConsole (given_by turn.now) (result_of result screen.new saved.new) }
{
    match prepared(alloc, turn) {
        Ok((words, mut files)) => {
            let mut console = TurnConsole::new(turn.console);
            let mut page = Room::new(screen);
            let status = ask_pascal(alloc, &words, &mut files, &mut console, &mut page);
            TurnOutcome {
                status,
                screen: page.len(),
                saved: give_back(alloc, &mut files, saved),
            }
        }
        Err(_) => TurnOutcome {
            status: MEMORY,
            screen: 0,
            saved: SavedSession::Memory,
        },
    }
}
