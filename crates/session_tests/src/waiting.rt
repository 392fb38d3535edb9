//! What no clause says: that the console is asked for more only once each line that it gave got its reply.
use crate::commands::ADDERS;
use debug_cli::ask_pascal;
use edge_ports::{Memory, Pieces, Shelf, StdSink, StdSource};
use std::alloc::Global;
use std::cell::Cell;
use std::io::{self, Read, Write};
use std::test::Fail;

/// What is typed.
const LINES: [&[u8]; 4] = [b"wrong\n", b"right\n", b"right\n", b"quit\n"];

/// What the screen gets.
const SHOWN: &[u8] =
    b"call 0 p\n  returned\nask 1 suspects 3 left 2\ncall 1 b in call 0\n  reads x = 1\n  changes x = 3\n  returned\n\
    entry 2\nask 2 suspects 2 left 1\ncall 2 a in call 1\n  reads x = 1\n  changes x = 2\n  returned\n\
    entry 3\nask 3 suspects 1 left 0\ncall 3 a in call 1\n  reads x = 2\n  changes x = 3\n  returned\n\
    entry 4\nfound call 1 b\n  line 1\n  call 2 a\n  line 1\n  call 3 a\n  returned\n";

/// Someone who types the next line once the screen shows more than at the last one, and else goes away.
#[derive(Drop)]
struct Patient<'a> {
    shown: &'a Cell<usize>,
    typed: &'a Cell<usize>,
    seen: usize,
}

impl Read for Patient<'_> {
    fn read(&mut self, buf: &mut [u8]) -> io::Result<usize> {
        let shown = self.shown.get();
        let typed = self.typed.get();
        let Some(line) = LINES.get(typed) else {
            return Ok(0);
        };
        if shown <= self.seen || buf.len() < line.len() {
            return Ok(0);
        }
        self.seen = shown;
        self.typed.set(typed.saturating_add(1));
        buf[..line.len()].copy_from_slice(line);
        Ok(line.len())
    }
}

/// A screen that is looked at.
#[derive(Drop)]
struct Watched<'a> {
    shown: &'a Cell<usize>,
    text: &'a mut Vec<u8>,
}

impl Write for Watched<'_> {
    fn write(&mut self, buf: &[u8]) -> io::Result<usize> {
        self.text.extend_from_slice(buf)?;
        self.shown.set(self.text.len());
        Ok(buf.len())
    }

    fn flush(&mut self) -> io::Result<()> {
        Ok(())
    }
}

/// The status of a session with someone patient, of whom each line that is typed and all that is shown is counted.
fn status_of(
    alloc: Global,
    shown: &Cell<usize>,
    typed: &Cell<usize>,
    text: &mut Vec<u8>,
) -> Result<u8, Memory> {
    let words = vec![in alloc; "pasask".to_string(alloc)?, "F".to_string(alloc)?]?;
    let mut keeper = Shelf::new(alloc, &[])?;
    keeper.put("F", ADDERS)?;
    let mut console = StdSource::new(Patient {
        shown,
        typed,
        seen: 0,
    });
    let mut screen = Pieces::new(alloc, StdSink::new(Watched { shown, text }))?;
    Ok(ask_pascal(alloc, &words, &mut keeper, &mut console, &mut screen))
}

/// A session with someone who waits for each reply, over std's readers and writers: all lines are typed and replied.
/// Had the console been asked for a line while a reply was due, it would have ended there.
#[test]
fn each_reply_comes_first(rt: HostRuntime) -> Result<(), Fail> {
    let shown = Cell::new(0);
    let typed = Cell::new(0);
    let mut text = Vec::new(rt.alloc());
    let status = status_of(rt.alloc(), &shown, &typed, &mut text)?;
    assert!(rt; status == 0 && typed.get() == LINES.len() && text.as_slice() == SHOWN);
    Ok(())
}
