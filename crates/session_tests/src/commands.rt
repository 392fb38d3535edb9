//! What no file can say: that the command ends in order wherever memory runs out, and that the native stack suffices.
use debug_cli::ask_pascal;
use edge_ports::{Memory, Page, Pieces, Shelf, Tape};
use std::alloc::Global;
use std::test::Fail;

/// The status of a command, and its screen.
#[derive(Drop)]
struct Said {
    status: u8,
    screen: Pieces<Page>,
}

/// What the command says of a source to these lines.
fn said_of(alloc: Global, source: &[u8], lines: &[u8]) -> Result<Said, Memory> {
    let words = vec![in alloc; "pasask".to_string(alloc)?, "F".to_string(alloc)?]?;
    let mut keeper = Shelf::new(alloc, &[])?;
    keeper.put("F", source)?;
    let mut console = Tape::new(alloc, lines, &[])?;
    let mut screen = Pieces::new(alloc, Page::new(alloc, 4_096, &[])?)?;
    let status = ask_pascal(alloc, &words, &mut keeper, &mut console, &mut screen);
    Ok(Said { status, screen })
}

/// A source whose run has four calls.
pub const ADDERS: &[u8] =
    b"program p; var x: integer; procedure a; begin x := x + 1 end; procedure b; begin a; a end; begin x := 1; b end.";

const SHOWN: &[u8] =
    b"call 0 p\n  returned\nask 1 suspects 3 left 2\ncall 1 b in call 0\n  reads x = 1\n  changes x = 3\n  returned\n\
    entry 2\nask 2 suspects 2 left 1\ncall 2 a in call 1\n  reads x = 1\n  changes x = 2\n  returned\n\
    not understood\n";

/// Whether it ended with all that it shows, or, where memory ran out, with a first part of that.
fn ended_in_order(said: &Said) -> bool {
    let given = said.screen.sink().given();
    match said.status {
        0 => given == SHOWN,
        7 => SHOWN.starts_with(given),
        _ => false,
    }
}

/// Serves `rt try --test --fail-alloc N -- little_memory`, in which the Nth allocation fails: the screen then gets a
/// first part of the session, and the status is 7. Where none fails it is a session like the worked cases.
#[test]
fn little_memory(rt: HostRuntime) -> Result<(), Fail> {
    let said = said_of(rt.alloc(), ADDERS, b"wrong\nwhy\nquit\n")?;
    assert!(rt; ended_in_order(&said));
    Ok(())
}

/// How deep the repeats of a source are nested, each the only statement of the one before it.
const DEPTH: usize = 198;

/// Appends a part once for each repeat.
fn append_parts(text: &mut Vec<u8>, part: &[u8]) -> Result<(), Memory> {
    for _ in 0..DEPTH {
        text.extend_from_slice(part)?;
    }
    Ok(())
}

/// A text that begins so, with parts for the repeats in it.
fn text_of(alloc: Global, start: &[u8], parts: &[&[u8]], end: &[u8]) -> Result<Vec<u8>, Memory> {
    let mut text = Vec::from_slice(alloc, start)?;
    for part in parts {
        append_parts(&mut text, part)?;
    }
    text.extend_from_slice(end)?;
    Ok(text)
}

/// The native stack suffices for statements nested 200 deep: repeats take the most of it, and more than the worked
/// cases have as Rattle's own compiler builds them. Each repeat is a line of the trace.
#[test]
fn deepest_repeats(rt: HostRuntime) -> Result<(), Fail> {
    let alloc = rt.alloc();
    let source = text_of(
        alloc,
        b"program p; begin ",
        &[b"repeat ", b"until true "],
        b"end.",
    )?;
    let start = b"call 0 p\n  returned\nfound call 0 p\n";
    let wanted = text_of(alloc, start, &[b"  line 1\n"], b"  returned\n")?;
    let said = said_of(alloc, &source, b"")?;
    assert!(rt; said.status == 0 && said.screen.sink().given() == wanted.as_slice());
    Ok(())
}
