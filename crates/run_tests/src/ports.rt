//! What no clause says: what real files and streams do; and that memory suffices for those in memory.
ghost use Rattle.std.specs.Prelude.{◌≤◌, IfOk};

use edge_ports::{
    Failed, FetchFault, FileKeeper, Keeper, Lines, Memory, Page, Pieces, Shelf, Sink, Source,
    StdSink, StdSource, StoreFault, Tape, Turn, print_all,
};
use std::alloc::Global;
use std::fs::Permissions;
use std::io::{ErrorKind, Read, Write};
use std::os::unix::fs::{PermissionsExt, symlink};
use std::test::Fail;
use std::{fs, io};

/// Whether these bytes, or this fault, are what a fetch answers.
fn fetches<K: Keeper>(
    keeper: &mut K,
    alloc: Global,
    name: &str,
    limit: u64,
    wanted: Result<&[u8], FetchFault>,
) -> bool {
    match keeper.fetch(alloc, name, limit) {
        Ok(bytes) => wanted == Ok(bytes.as_slice()),
        Err(fault) => wanted == Err(fault),
    }
}

/// Whether this is answered to storing these bytes; where they were stored, the file holds them.
fn stores<K: Keeper>(
    keeper: &mut K,
    alloc: Global,
    name: &str,
    bytes: &[u8],
    wanted: Result<(), StoreFault>,
) -> bool {
    keeper.store(alloc, name, bytes) == wanted
        && (wanted.is_err() || fetches(keeper, alloc, name, 100, Ok(bytes)))
}

/// Whether the next line is this one, and goes to the page.
fn next_is(lines: &mut Lines, tape: &mut Tape, page: &mut Pieces<Page>, wanted: &[u8]) -> bool {
    lines.next(tape) == Ok(Turn::Line)
        && lines.line() == wanted
        && print_all(page, lines.line()) == Ok(())
}

/// Whether a console of two lines gives them and ends, and comes back from a shelf.
fn lines_hold(alloc: Global, console: &[u8]) -> Result<bool, Memory> {
    let mut shelf = Shelf::new(alloc, &[])?;
    shelf.put("console", console)?;
    let mut tape = Tape::new(alloc, console, &[])?;
    let mut lines = Lines::new(alloc)?;
    let mut page = Pieces::new(alloc, Page::new(alloc, 100, &[])?)?;
    let given = next_is(&mut lines, &mut tape, &mut page, b"tree")
        && next_is(&mut lines, &mut tape, &mut page, b"quit\r");
    let ended = lines.next(&mut tape) == Ok(Turn::End);
    let kept = fetches(&mut shelf, alloc, "console", 100, Ok(console));
    Ok(given && ended && kept && page.sink().given() == b"treequit\r".as_slice())
}

#[test]
fn lines_in_memory(rt: HostRuntime) -> Result<(), Fail> {
    assert!(rt; lines_hold(rt.alloc(), b"tree\r\nquit\r")?);
    Ok(())
}

const FAILED: Result<(), StoreFault> = Err(StoreFault::Failed);

/// A path for this run of a test alone.
fn own_path(rt: &HostRuntime, test: &str) -> Result<String, Memory> {
    let number = std::process::id(rt.process());
    format!(in rt.alloc(); "/tmp/edge_ports_{test}_{number}")
}

/// A name, or none for the test's own file of 10,000 bytes; the limit; and why that is not fetched.
type FetchedRow = (&'static str, u64, Option<FetchFault>);

const FETCHED: [FetchedRow; 4] = [
    ("", 10_000, None),
    ("", 9_999, Some(FetchFault::TooLong(9_999))),
    ("/tmp/edge_ports/absent", 10_000, Some(FetchFault::Absent)),
    ("/tmp", 10_000, Some(FetchFault::Failed)),
];

/// Whether the row holds where the file of the test's own holds this text.
fn is_fetched(rt: &HostRuntime, own: &str, text: &str, row: &FetchedRow) -> bool {
    let (name, limit, fault) = *row;
    let name = if name.is_empty() { own } else { name };
    let wanted = match fault {
        None => Ok(text.as_bytes()),
        Some(fault) => Err(fault),
    };
    let mut keeper = FileKeeper::new(rt);
    fetches(&mut keeper, rt.alloc(), name, limit, wanted)
}

#[test]
fn real_files(rt: HostRuntime) {
    let path = own_path(&rt, "fetched").expect(&rt, "a path");
    let path = path.as_str();
    let text = "program a;".repeat(rt.alloc(), 1_000).expect(&rt, "a text");
    let text = text.as_str();
    fs::write(&rt, path, text).expect(&rt, "a file");
    for row in &FETCHED {
        assert!(rt; is_fetched(&rt, path, text, row), "{} {}", row.0, row.1);
    }
    fs::remove_file(&rt, path).expect(&rt, "no file");
}

/// A folder, or none for one of the test's own; the rest of the name; the bytes that are stored; and what is answered.
type StoredRow = (
    &'static str,
    &'static str,
    &'static [u8],
    Result<(), StoreFault>,
);

/// What is stored in turn. A file that is neither empty nor begins with the same ten bytes is not replaced.
const STORED: [StoredRow; 13] = [
    ("", "/session", b"{\"budget\":1}", Ok(())),
    ("", "/session", b"{\"budget\":22,\"entries\":[]}", Ok(())),
    ("", "/session", b"{\"version\":1}", FAILED),
    ("", "/session", b"{\"budget\"", FAILED),
    ("", "/empty", b"", Ok(())),
    ("", "/empty", b"full", Ok(())),
    ("", "/source", b"program a;", Ok(())),
    ("", "/source", b"{\"budget\":1}", FAILED),
    ("", "", b"a folder", FAILED),
    ("", "/absent/session", b"in no folder", FAILED),
    ("", "/session/below", b"below a file", FAILED),
    ("/dev", "/full", b"a device", FAILED),
    ("/proc", "/session", b"a place to read", FAILED),
];

/// The files in the test's own folder after that.
const LEFT: [(&str, &[u8]); 3] = [
    ("/session", b"{\"budget\":22,\"entries\":[]}"),
    ("/empty", b"full"),
    ("/source", b"program a;"),
];

/// Whether the row holds, with this folder for the test's own.
fn is_stored(rt: &HostRuntime, own: &str, row: &StoredRow) -> bool {
    let (folder, name, bytes, wanted) = *row;
    let folder = if folder.is_empty() { own } else { folder };
    match format!(in rt.alloc(); "{folder}{name}") {
        Ok(path) => stores(
            &mut FileKeeper::new(rt),
            rt.alloc(),
            path.as_str(),
            bytes,
            wanted,
        ),
        Err(_) => false,
    }
}

/// Whether the file holds these bytes. It is removed.
fn is_held(rt: &HostRuntime, path: &str, bytes: &[u8]) -> bool {
    let mut keeper = FileKeeper::new(rt);
    fetches(&mut keeper, rt.alloc(), path, 100, Ok(bytes)) && fs::remove_file(rt, path).is_ok()
}

/// The same of the file of this name in a folder.
fn is_left(rt: &HostRuntime, own: &str, name: &str, bytes: &[u8]) -> bool {
    match format!(in rt.alloc(); "{own}{name}") {
        Ok(path) => is_held(rt, path.as_str(), bytes),
        Err(_) => false,
    }
}

/// A file is stored where none is and in the place of one that may be replaced, and nowhere else. The files that were
/// written on the way are gone.
#[test]
fn real_files_stored(rt: HostRuntime) {
    let own = own_path(&rt, "stored").expect(&rt, "a path");
    let own = own.as_str();
    fs::create_dir(&rt, own).expect(&rt, "a folder");
    for row in &STORED {
        assert!(rt; is_stored(&rt, own, row), "{}{}", row.0, row.1);
    }
    for (name, bytes) in &LEFT {
        assert!(rt; is_left(&rt, own, name, bytes), "{name}");
    }
    // A folder is removed only where it is empty.
    fs::remove_dir(&rt, own).expect(&rt, "an empty folder");
}

/// Files that are spared: an empty one, and one that is like a session.
const SPARED: [(&str, &[u8]); 2] = [("/empty", b""), ("/kept", b"{\"budget\":1}")];

/// Whether a spared file stays as it is, stored to by its own name, by another and by a link.
fn is_left_alone(rt: &HostRuntime, own: &str, row: &(&str, &[u8])) -> io::Result<bool> {
    let (name, text) = *row;
    let path = format!(in rt.alloc(); "{own}{name}")?;
    let other = format!(in rt.alloc(); "{own}/.{name}")?;
    let link = format!(in rt.alloc(); "{own}/link")?;
    fs::write(rt, path.as_str(), text)?;
    symlink(rt, path.as_str(), link.as_str())?;
    let mut keeper = FileKeeper::new(rt);
    keeper.spare(rt.alloc(), path.as_str())?;
    let bytes = b"{\"budget\":22,\"entries\":[]}";
    let left = stores(&mut keeper, rt.alloc(), path.as_str(), bytes, FAILED)
        && stores(&mut keeper, rt.alloc(), other.as_str(), bytes, FAILED)
        && stores(&mut keeper, rt.alloc(), link.as_str(), bytes, FAILED)
        && fetches(&mut keeper, rt.alloc(), path.as_str(), 100, Ok(text));
    fs::remove_file(rt, link.as_str())?;
    Ok(left)
}

/// A spared file stays, by whatever name it is called.
#[test]
fn real_files_left_alone(rt: HostRuntime) {
    let own = own_path(&rt, "alone").expect(&rt, "a path");
    let own = own.as_str();
    fs::create_dir(&rt, own).expect(&rt, "a folder");
    for row in &SPARED {
        let left = is_left_alone(&rt, own, row).expect(&rt, "files");
        assert!(rt; left, "{}", row.0);
    }
    fs::remove_dir_all(&rt, own).expect(&rt, "no folder");
}

/// As many files as saves that were killed may have left.
const LEFTOVERS: u64 = 1_000;

fn write_leftovers(rt: &HostRuntime, own: &str) -> io::Result<()> {
    for number in 0..LEFTOVERS {
        let path = format!(in rt.alloc(); "{own}/.store-{number}")?;
        fs::write(rt, path.as_str(), b"left")?;
    }
    Ok(())
}

/// Files that killed saves left stop no other.
#[test]
fn real_files_beside_leftovers(rt: HostRuntime) {
    let own = own_path(&rt, "beside").expect(&rt, "a path");
    let own = own.as_str();
    fs::create_dir(&rt, own).expect(&rt, "a folder");
    write_leftovers(&rt, own).expect(&rt, "files");
    let row: StoredRow = ("", "/session", b"{\"budget\":1}", Ok(()));
    assert!(rt; is_stored(&rt, own, &row));
    fs::remove_dir_all(&rt, own).expect(&rt, "no folder");
}

/// Writes a file that only its owner may read, and that would run as its owner and its group.
fn write_private(rt: &HostRuntime, path: &str) -> io::Result<()> {
    fs::write(rt, path, b"first text")?;
    fs::set_permissions(rt, path, Permissions::from_mode(0o6600))
}

fn is_private(rt: &HostRuntime, path: &str) -> bool {
    match fs::metadata(rt, path) {
        Ok(metadata) => metadata.permissions().mode() % 0o10000 == 0o600,
        Err(_) => false,
    }
}

/// What takes the place of a file that only its owner may read is read by its owner alone, and runs as nobody else.
#[test]
fn real_files_stay_private(rt: HostRuntime) {
    let path = own_path(&rt, "private").expect(&rt, "a path");
    let path = path.as_str();
    write_private(&rt, path).expect(&rt, "a private file");
    let mut keeper = FileKeeper::new(&rt);
    assert!(rt;
        stores(
            &mut keeper,
            rt.alloc(),
            path,
            b"first text and more",
            Ok(())
        )
    );
    assert!(rt; is_private(&rt, path));
    fs::remove_file(&rt, path).expect(&rt, "no file");
}

/// A reader and writer of one byte at a time, whose second call fails and whose third does nothing. As a writer it also
/// fails to flush after its fourth. A signal interrupts each call and each flush at first, which does nothing then.
#[derive(Drop)]
struct Faulty {
    calls: u8,
    interrupted: bool,
}

impl Faulty {
    /// A call is interrupted unless the one before it was.
    fn interrupt(&mut self) -> io::Result<()> {
        self.interrupted = !self.interrupted;
        if self.interrupted {
            return Err(io::Error::from(ErrorKind::Interrupted));
        }
        Ok(())
    }

    /// What this call does with room for this many bytes.
    fn count(&mut self, room: usize) -> io::Result<usize>
        ensures { IfOk result (λ n. n ≤ room) }
    {
        self.interrupt()?;
        self.calls = self.calls.saturating_add(1);
        match self.calls {
            2 => Err(io::Error::from(ErrorKind::Other)),
            3 => Ok(0),
            _ => Ok(room.min(1)),
        }
    }
}

impl Read for Faulty {
    fn read(&mut self, buf: &mut [u8]) -> io::Result<usize> {
        self.count(buf.len())
    }
}

impl Write for Faulty {
    fn write(&mut self, buf: &[u8]) -> io::Result<usize> {
        self.count(buf.len())
    }

    fn flush(&mut self) -> io::Result<()> {
        self.interrupt()?;
        if self.calls == 4 {
            return Err(io::Error::from(ErrorKind::Other));
        }
        Ok(())
    }
}

/// What each call answers.
const TAKEN: [Result<usize, Failed>; 3] = [Ok(1), Err(Failed), Ok(0)];

const GIVEN: [Result<usize, Failed>; 5] = [Ok(1), Err(Failed), Err(Failed), Err(Failed), Ok(1)];

fn is_written(alloc: Global) -> bool {
    match Pieces::new(alloc, StdSink::new(Vec::new(alloc))) {
        Ok(mut screen) => print_all(&mut screen, b"abc") == Ok(()),
        Err(_) => false,
    }
}

fn faulty_stream() -> Faulty {
    Faulty {
        calls: 0,
        interrupted: false,
    }
}

#[test]
fn real_streams(rt: HostRuntime) {
    let mut source = StdSource::new(faulty_stream());
    for (call, wanted) in TAKEN.iter().enumerate() {
        assert!(rt; source.take(&mut [0; 4]) == *wanted, "take {call}");
    }
    let mut sink = StdSink::new(faulty_stream());
    for (call, wanted) in GIVEN.iter().enumerate() {
        assert!(rt; sink.give(b"abc") == *wanted, "give {call}");
    }
    assert!(rt; is_written(rt.alloc()));
}
