//! std's readers and writers as ports. They tell nothing of their bytes.
ghost use Rattle.std.specs.Prelude.{◌<◌, ◌≡◌, ◌≤◌, IfOk, false, length, take};
ghost use Rattle.std.specs.Io.KnownBytes.{Appends};
ghost use Rattle.edge_ports.specs.Streams.{reader_of, writer_of};

use crate::counts::count_on;
use crate::retries::{flush_uninterrupted, read_uninterrupted, write_uninterrupted};
use crate::{Failed, Sink, Source};
use std::io::{Read, Write};

/// A reader as a source. It tells nothing of its bytes, and counts each error.
#[derive(Debug, Drop)]
pub struct StdSource<R> {
    reader: R,
    faults: u64,
}

impl<R: Read> StdSource<R> {
    /// The reader, which has not failed yet.
    pub fn new(reader: R) -> StdSource<R>
        ensures kept { reader_of result ≡ reader }
        ensures faults { ⟦<StdSource<R> as Source>⟧.faults result ≡ 0 }
    {
        StdSource { reader, faults: 0 }
    }
}

impl<R: Read> Source for StdSource<R> {
    ghost use Rattle.std.specs.Prelude.{◌<◌, ◌≡◌, ◌≤◌, IfOk, None, Ok, OnErr, OnOk, length, take};
    ghost use Rattle.std.specs.Io.KnownBytes.{IsAtEnd, ReadConsumes};
    ghost use Rattle.edge_ports.specs.{Counts.NotFallen, Counts.Rose, Streams.reader_left, Told.TookAll};

    ghost left = { λ _. None };

    ghost faults = { λ s. s.faults };

    /// One read, as std says of the reader. It is made again where a signal interrupts it.
    fn take(&mut self, room: &mut [u8]) -> Result<usize, Failed>
        requires { 0 < length room.old }
        ensures read { ReadConsumes (reader_left R.remaining self.old) (reader_left R.remaining self.new)
            result room.new }
        ensures count { IfOk result (λ n. n ≤ length room.new) }
        ensures moved { IfOk result (λ n. TookAll None None (take n room.new)) }
        ensures end { result ≡ Ok 0 → IsAtEnd None }
        ensures cause { OnErr result (Rose self.old.faults self.new.faults) }
        ensures calm { OnOk result (self.new.faults ≡ self.old.faults) }
        ensures faults { NotFallen self.old.faults self.new.faults }
    {
        match read_uninterrupted(&mut self.reader, room) {
            Ok(count) => Ok(count),
            Err(_) => {
                self.faults = count_on(self.faults);
                Err(Failed)
            }
        }
    }
}

/// A writer as a sink, which is flushed after each piece. It tells nothing of its bytes, and counts each
/// error. A writer that takes nothing of a piece has failed.
#[derive(Debug, Drop)]
pub struct StdSink<W> {
    writer: W,
    faults: u64,
    failed: bool,
}

impl<W: Write> StdSink<W> {
    /// The writer, which has not failed yet.
    pub fn new(writer: W) -> StdSink<W>
        ensures kept { writer_of result ≡ writer }
        ensures faults { ⟦<StdSink<W> as Sink>⟧.faults result ≡ 0 }
        ensures last { ⟦<StdSink<W> as Sink>⟧.last_failed result ≡ false }
    {
        StdSink {
            writer,
            faults: 0,
            failed: false,
        }
    }
}

/// Writes from the front of the piece and flushes, and answers how many bytes were written. Each of the two is made
/// again by itself where a signal interrupts it, so that no byte goes out twice.
fn write_flushed<W: Write>(writer: &mut W, piece: &[u8]) -> Result<usize, Failed>
    ensures some { IfOk result (λ n. 0 < n) }
    ensures count { IfOk result (λ n. n ≤ length piece.now) }
    ensures wrote { IfOk result (λ n. Appends (W.contents writer.old) (W.contents writer.new) (take n piece.now)) }
{
    match write_uninterrupted(writer, piece) {
        Ok(0) => Err(Failed),
        Ok(count) => match flush_uninterrupted(writer) {
            Ok(()) => Ok(count),
            Err(_) => Err(Failed),
        },
        Err(_) => Err(Failed),
    }
}

impl<W: Write> Sink for StdSink<W> {
    ghost use Rattle.std.specs.Prelude.{◌<◌, ◌≡◌, ◌≤◌, IfOk, None, OnErr, OnOk, is_err, length, take};
    ghost use Rattle.std.specs.Io.KnownBytes.{Appends};
    ghost use Rattle.edge_ports.specs.{States.no_loan, Streams.writer_holds, Told.GaveAll};
    ghost use Rattle.edge_ports.specs.Counts.{NotFallen, Rose};

    ghost given = { λ _. None };

    ghost faults = { λ s. s.faults };

    ghost last_failed = { λ s. s.failed };

    ghost loan = { λ _. no_loan };

    /// One write and a flush, as std says of the writer. Each is made again where a signal interrupts it.
    fn give(&mut self, piece: &[u8]) -> Result<usize, Failed>
        requires { 0 < length piece.now }
        ensures wrote { IfOk result (λ n. Appends (writer_holds W.contents self.old)
            (writer_holds W.contents self.new) (take n piece.now)) }
        ensures count { IfOk result (λ n. n ≤ length piece.now) }
        ensures some { IfOk result (λ n. 0 < n) }
        ensures gave { IfOk result (λ n. GaveAll None None (take n piece.now)) }
        ensures last { self.new.failed ≡ is_err result }
        ensures loan { no_loan ≡ no_loan }
        ensures cause { OnErr result (Rose self.old.faults self.new.faults) }
        ensures calm { OnOk result (self.new.faults ≡ self.old.faults) }
        ensures faults { NotFallen self.old.faults self.new.faults }
    {
        match write_flushed(&mut self.writer, piece) {
            Ok(count) => {
                self.failed = false;
                Ok(count)
            }
            Err(failed) => {
                self.failed = true;
                self.faults = count_on(self.faults);
                Err(failed)
            }
        }
    }
}
