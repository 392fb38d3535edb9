//! What a request names: fetched, read, and then asked about.
ghost use Rattle.std.specs.Prelude.{◌≡◌, IfOk, IfSome, IsTrue, None, Some};
ghost use Rattle.edge_ports.specs.Counts.{Counted};
ghost use Rattle.session_file.specs.Whole.{IsWhole};
ghost use Rattle.debug_cli.specs.{Goes.HasGone, Outside.outside, Reading.requested_by, Refusals.IsSupplied};
ghost use Rattle.debug_cli.specs.{Refusals.UnlessRefused, Status.is_console, Status.is_screen};
ghost use Rattle.debug_cli.specs.Meaning.{IsBudget, Requested, Source};
ghost use Rattle.debug_cli.specs.Named.{Checked, IsFetched, IsInput, IsSaved, IsSought};
ghost use Rattle.debug_cli.specs.Named as named;

use crate::refusals::Refusal;
use crate::request::Request;
use crate::status::{Status, status_of};
use ask_session::converse;
use debuggee::{INPUT_BYTES, SourceProgram, read_source, run_program};
use dialog_replies::Start;
use edge_ports::{Bytes, Keeper, Printer, Source};
use pas_lexer::MAX_SOURCE_BYTES;
use session_file::{Session, digest_of, load};
use std::alloc::Global;

/// The most bytes of a source.
pub const SOURCE_BYTES: u64 = MAX_SOURCE_BYTES as u64;

/// The most bytes of a session's file.
pub const SESSION_BYTES: u64 = 67_108_864;

/// What a request names: the source's bytes and the program that they are, the input's bytes, and the session that is
/// gone on with, if there is one.
#[derive(Drop)]
pub struct Supplied {
    source: Bytes,
    program: SourceProgram,
    input: Bytes,
    saved: Option<Session>,
}

/// All the bytes of a file that is sought.
fn fetched<'a, K: Keeper>(
    alloc: Global,
    name: &'a str,
    limit: u64,
    keeper: &mut K,
) -> Result<Bytes, Refusal<'a>>
    ensures bytes { IfOk result (λ bytes. IsFetched (K.files keeper.old) name.now limit bytes) }
    ensures refused { (r : Requested) → IsSought r (K.files keeper.old) (record { name = name.now; limit = limit })
        → UnlessRefused (Source r) (outside (K.files keeper.old) (K.counts keeper.old) None None)
        (outside (K.files keeper.new) (K.counts keeper.new) None None) result }
{
    match keeper.fetch(alloc, name, limit) {
        Ok(bytes) => Ok(bytes),
        Err(why) => Err(Refusal::File(name, why)),
    }
}

/// The bytes of the input: none where no file is named.
fn input_of<'a, K: Keeper>(
    alloc: Global,
    request: &Request<'a>,
    keeper: &mut K,
) -> Result<Bytes, Refusal<'a>>
    requires { Checked (requested_by request.now) (K.files keeper.old) }
    ensures input { IfOk result (λ input. IsInput (K.files keeper.old) (requested_by request.now).input input) }
    ensures refused { UnlessRefused (Source (requested_by request.now))
        (outside (K.files keeper.old) (K.counts keeper.old) None None)
        (outside (K.files keeper.new) (K.counts keeper.new) None None) result }
{
    match request.input {
        Some(name) => fetched(alloc, name, INPUT_BYTES, keeper),
        None => Ok(Bytes::new(alloc)),
    }
}

/// The session that is gone on with: none where no file is named.
fn saved_session<'a, K: Keeper>(
    alloc: Global,
    request: &Request<'a>,
    keeper: &mut K,
) -> Result<Option<Session>, Refusal<'a>>
    requires { named.Supplied (requested_by request.now) (K.files keeper.old) }
    ensures saved { IfOk result (λ saved. IsSaved (K.files keeper.old) (requested_by request.now).load saved) }
    ensures whole { IfOk result (λ saved. IfSome saved IsWhole) }
    ensures refused { UnlessRefused (Source (requested_by request.now))
        (outside (K.files keeper.old) (K.counts keeper.old) None None)
        (outside (K.files keeper.new) (K.counts keeper.new) None None) result }
{
    let Some(name) = request.load else {
        return Ok(None);
    };
    let bytes = fetched(alloc, name, SESSION_BYTES, keeper)?;
    let session = load(alloc, bytes.as_slice())?;
    Ok(Some(session))
}

/// Fetches and reads what a request names: the source, the input, and the session. The first of them that is refused
/// ends it.
pub fn supply<'a, K: Keeper>(
    alloc: Global,
    request: &Request<'a>,
    keeper: &mut K,
) -> Result<Supplied, Refusal<'a>>
    ensures supplied { IfOk result (IsSupplied (requested_by request.now) (K.files keeper.new)) }
    ensures refused { UnlessRefused (Source (requested_by request.now))
        (outside (K.files keeper.old) (K.counts keeper.old) None None)
        (outside (K.files keeper.new) (K.counts keeper.new) None None) result }
{
    let source = fetched(alloc, request.source, SOURCE_BYTES, keeper)?;
    let program = read_source(alloc, source.as_slice())?;
    let input = input_of(alloc, request, keeper)?;
    let saved = saved_session(alloc, request, keeper)?;
    Ok(Supplied {
        source,
        program,
        input,
        saved,
    })
}

/// Runs the program and asks about it on the console.
pub fn ask_about<K: Keeper, I: Source, O: Printer>(
    alloc: Global,
    request: &Request,
    supplied: Supplied,
    keeper: &mut K,
    console: &mut I,
    screen: &mut O,
) -> Status
    requires budget { IsBudget request.now.budget }
    requires supplied { IsSupplied (requested_by request.now) (K.files keeper.old) supplied }
    ensures gone { HasGone (Some (Source (requested_by request.now)))
        (outside (K.files keeper.old) (K.counts keeper.old) (I.left console.old) (O.given screen.old))
        (outside (K.files keeper.new) (K.counts keeper.new) (I.left console.new) (O.given screen.new)) result }
    ensures console_faults { Counted (is_console result) (I.faults console.old) (I.faults console.new) }
    ensures screen_faults { Counted (is_screen result) (O.faults screen.old) (O.faults screen.new) }
    ensures last { IsTrue (is_screen result) → IsTrue (O.last_failed screen.new) }
    ensures loan { O.loan screen.new ≡ O.loan screen.old }
{
    let Supplied {
        source,
        program,
        input,
        saved,
    } = supplied;
    let start = Start {
        source: digest_of(source.as_slice()),
        input: digest_of(input.as_slice()),
        budget: request.budget,
        saved,
    };
    program.program.is_whole();
    match run_program(alloc, program, input.as_slice(), request.budget) {
        Ok(debuggee) => status_of(converse(alloc, &debuggee, &start, keeper, console, screen)),
        Err(_) => Status::Memory,
    }
}
