//! A source and its run, each text on its calls, and what a session needs of them: each call that takes memory, once
//! with ample memory.
ghost use Rattle.session_file.specs.Whole.{IsWhole};
ghost use Rattle.dialog_replies.specs.Start.{IsWholeStart};

use ask_session::{Ending, converse};
use call_tree::Mark;
use debuggee::{Debuggee, SourceFault, read_source, run_program};
use dialog_replies::{Debugged, SliceOf, Start, begin};
use edge_ports::{Memory, Page, Pieces, Printer, Shelf, Tape};
use made_program::make_source;
use optimal_query::SearchState;
use session_file::{Session, load, save};
use std::alloc::Global;
use std::test::Fail;

/// It calls `twice` for 3, and for 5 once that was given.
const SOURCE: &[u8] = b"program four(input, output);
var x: integer;
procedure twice(var y: integer);
begin
  y := y + 2
end;
begin
  read(x);
  twice(x);
  writeln(x);
  twice(x)
end.
";

/// The run of a source, with 1,000 steps.
fn run_of<'a>(alloc: Global, source: &[u8], input: &'a [u8]) -> Result<Debuggee<'a>, SourceFault> {
    if source.len() > 1_048_576 || input.len() > 4_194_304 {
        return Err(SourceFault::Memory);
    }
    let program = read_source(alloc, source)?;
    let run = run_program(alloc, program, input, 1_000)?;
    Ok(run)
}

/// The card of call 1, the question about it, its trace, what `x` held before and after it, that it carries to itself,
/// and the tree.
const TEXTS: &[u8] = b"call 1 twice in call 0
  y = at x
  reads x = 3
  changes x = 5
  returned
twice
  y = at x
  reads x = 3
  changes x = 5
  returned
  line 5
  returned
  x = 3, then 5
carries
0 four #0 wrong
1 in 0 twice #1 trusted
2 in 0 twice #1 unknown
";

/// Prints all that is said of call 1, and the tree.
fn write_texts<D: Debugged>(alloc: Global, out: &mut Pieces<Page>, run: &D) -> Result<(), Memory> {
    if run.calls().len() == 3 {
        let card = run.prepare_card(alloc, 1)?;
        let trace = run.prepare_trace(alloc, 1)?;
        let opened = run.prepare_state(alloc, 1)?;
        run.write_card(out, 1, &card);
        run.write_question(out, 1, &card);
        run.write_trace(out, 1, &trace);
        run.write_state(out, 1, b"x", &opened);
        if run.carries(alloc, 1, 1)? {
            out.print(b"carries\n");
        }
        run.write_tree(out, &[Mark::Wrong, Mark::Trusted, Mark::Unknown]);
    }
    Ok(())
}

/// Whether that is said.
fn texts_hold<D: Debugged>(alloc: Global, run: &D) -> Result<bool, Memory> {
    let mut screen = Pieces::new(alloc, Page::new(alloc, 4_096, &[])?)?;
    screen.begin();
    write_texts(alloc, &mut screen, run)?;
    Ok(screen.finish().is_ok() && screen.sink().given() == TEXTS)
}

/// Once call 2 is left out, call 1 is the only suspect.
const LEFT: SearchState = SearchState::Ask {
    call: 1,
    weight: 1,
    suspects: 1,
    left: 0,
};

/// Whether the second call is left out where what the program gave is wrong: that is entry 3, after the wrong output.
fn slice_holds<D: Debugged>(alloc: Global, run: &D) -> Result<bool, Memory> {
    if run.calls().len() != 3 {
        return Ok(false);
    }
    let mut debug = begin(alloc, run)?;
    match run.prepare_slice(alloc, 0, b"gives")? {
        SliceOf::Slice(slice) => {
            Ok(run.leave_out(&mut debug, 0, &slice) == Ok((2, 3)) && debug.state() == LEFT)
        }
        _ => Ok(false),
    }
}

/// The session of a run with these digests and this budget: call 0 is wrong, and call 1 is right, with a note; that
/// routine 1 can be trusted was taken back.
const SAVED: &[u8] =
    b"{\"budget\":1000,\"entries\":[{\"call\":0,\"kind\":\"wrong\",\"standing\":true},\
    {\"kind\":\"trust\",\"routine\":1,\"standing\":false},\
    {\"call\":1,\"kind\":\"right\",\"note\":\"by two\",\"standing\":true}],\
    \"input\":\"1111111111111111111111111111111111111111111111111111111111111111\",\"replies\":[],\
    \"source\":\"abababababababababababababababababababababababababababababababab\",\"version\":2}";

/// What a dialog starts with that goes on with a session of its own run.
fn start_with(session: Session) -> Start
    requires whole { IsWhole session }
    ensures whole { IsWholeStart result }
{
    Start {
        source: session.source,
        input: session.input,
        budget: session.budget,
        saved: Some(session),
    }
}

const SCREEN: &[u8] = b"call 0 four
  looks \"3\\n\"
  takes \"3\"
  gives \"5\\n\"
  returned
ask 2 suspects 1 left 0
call 2 twice in call 0
  y = at x
  reads x = 5
  changes x = 7
  returned
entry 4
found call 2 twice
  line 5
  returned
";

/// Whether the session is saved as it was loaded, and a dialog that goes on with it says this to `wrong`.
fn session_holds<D: Debugged>(alloc: Global, run: &D) -> Result<bool, Fail> {
    let session = load(alloc, SAVED)?;
    let text = save(alloc, &session)?;
    let start = start_with(session);
    let mut keeper = Shelf::new(alloc, &[])?;
    let mut console = Tape::new(alloc, b"wrong\n", &[])?;
    let mut screen = Pieces::new(alloc, Page::new(alloc, 4_096, &[])?)?;
    let ending = converse(alloc, run, &start, &mut keeper, &mut console, &mut screen);
    let said = screen.sink().given() == SCREEN && matches!(ending, Ending::Done);
    Ok(said && text.as_slice() == SAVED)
}

#[test]
fn a_run_and_its_session(rt: HostRuntime) -> Result<(), Fail> {
    let run = run_of(rt.alloc(), SOURCE, b"3\n")?;
    assert!(rt; texts_hold(rt.alloc(), &run)?, "texts");
    assert!(rt; slice_holds(rt.alloc(), &run)?, "a slice");
    assert!(rt; session_holds(rt.alloc(), &run)?, "a session");
    Ok(())
}

/// The made program of the greatest number.
const MADE: &[u8] = b"program made;
var s: integer;
procedure t(d: integer);
begin
  s := s + 1;
  if d > 0 then begin t(d - 1); t(d - 1) end
end;
begin
  s := 0;
  t(14)
end.
";

#[test]
fn a_made_source(rt: HostRuntime) -> Result<(), Fail> {
    let text = make_source(rt.alloc(), 14)?;
    assert!(rt; text.as_slice() == MADE);
    Ok(())
}
