//! The lines of a console.
ghost use Rattle.std.specs.Prelude.{◌+◌, ◌-◌, ◌<◌, ◌≡◌, ◌≤◌, ◌⊎◌, IfOk, IfSome, IsTrue, None, Ok, OnErr, OnOk, drop};
ghost use Rattle.std.specs.Prelude.{length, slice_index, take, vec_capacity};
ghost use Rattle.std.specs.{Io.KnownBytes.IsAtEnd, Option.option_map, Str.Lines.strip_carriage_return};
ghost use Rattle.edge_ports.specs.{Counts.NotFallen, Counts.Rose, Limits.console_bytes};
ghost use Rattle.edge_ports.specs.Lines.{Moves, line_end_of, lines_of, next_line};

use crate::{Failed, Memory, Source};
use std::alloc::Global;
use std::marker::Model;
use thiserror::Error;

/// The most bytes that are taken of a console.
pub const CONSOLE_BYTES: usize = 16_777_216;

/// The most bytes of a line that is shown, without its LF and a CR directly before that.
pub const LINE_BYTES: usize = 4_096;

/// What came of the console.
#[derive(Clone, Copy, Debug, PartialEq, Eq)]
pub enum Turn {
    /// A line, which [`Lines::line`] shows.
    Line,
    /// A line of more than [`LINE_BYTES`] bytes, which was skipped whole.
    TooLong,
    /// The console's end.
    End,
}

/// Why no line came.
#[derive(Clone, Copy, Debug, PartialEq, Eq, Drop, Error)]
pub enum LineFault {
    /// The source failed. Nothing that was taken is lost: the next call reads on after it.
    #[error("the console failed")]
    Failed,
    /// [`CONSOLE_BYTES`] bytes were taken, and all whole lines in them handed out.
    #[error("the console is too long")]
    Spent,
}

/// Hands out the lines of a console. All bytes taken are kept, in memory that is reserved at the start.
#[derive(Debug, Drop)]
pub struct Lines {
    taken: Vec<u8>,
    handed: usize,
    ended: bool,
    line_start: usize,
    line_end: usize,
}

impl Model for Lines {
    ghost use Rattle.std.specs.Prelude.{◌<◌, ◌≡◌, ◌≤◌, [], IsTrue, drop, length, take, vec_capacity};
    ghost use Rattle.edge_ports.specs.{Limits.console_bytes, Lines.IsCutAtLines, Lines.LinesState};

    ghost Value = { LinesState };

    ghost view = { λ l. record {
      taken = l.taken.items;
      handed = l.handed;
      ended = l.ended;
      line = drop l.line_start (take l.line_end l.taken.items);
    } };

    ghost invariant = { λ l. (length l.taken.items ≤ console_bytes) × (console_bytes ≤ vec_capacity l.taken)
        × (l.handed ≤ length l.taken.items) × (l.line_start ≤ l.line_end) × (l.line_end ≤ length l.taken.items)
        × (IsTrue l.ended → length l.taken.items < console_bytes)
        × IsCutAtLines (record { taken = l.taken.items; handed = l.handed; ended = l.ended; line = [] }) };
}

/// Where the first LF stands, if there is one.
fn first_line_end(bytes: &[u8]) -> Option<usize>
    ensures place { result ≡ line_end_of bytes.now }
    ensures within { IfSome result (λ place. place < length bytes.now) }
{
    bytes.iter().position(|byte| *byte == b'\n')
}

/// The same, where the first `from` bytes have none. Only the bytes after them are looked at.
fn line_end(bytes: &[u8], from: usize) -> Option<usize>
    requires within { from ≤ length bytes.now }
    requires none { line_end_of (take from bytes.now) ≡ None }
    ensures { result ≡ line_end_of bytes.now }
{
    match first_line_end(&bytes[from..]) {
        Some(place) => Some(from + place),
        None => None,
    }
}

/// The length of a line without the one CR at its end, if it has one.
fn length_without_return(line: &[u8]) -> usize
    ensures within { result ≤ length line.now }
    ensures line { take result line.now ≡ strip_carriage_return line.now }
{
    let length = line.len();
    if length > 0 && line[length - 1] == b'\r' {
        length - 1
    } else {
        length
    }
}

/// How many bytes at the front of these are the next line, and how many it takes up with its end.
fn line_range(bytes: &[u8], ended: bool, line_end: Option<usize>) -> Option<(usize, usize)>
    requires { line_end ≡ line_end_of bytes.now }
    ensures within { IfSome result (λ range. (range.0 ≤ range.1) × (range.1 ≤ length bytes.now) × (0 < range.1)) }
    ensures end { IfSome result (λ range. (slice_index bytes.now (range.1 - 1) ≡ 10)
        ⊎ (IsTrue ended × (range.1 ≡ length bytes.now))) }
    ensures next { next_line ended bytes.now
        ≡ option_map (λ range. (take range.0 bytes.now, drop range.1 bytes.now)) result }
{
    match line_end {
        Some(place) => Some((length_without_return(&bytes[..place]), place + 1)),
        None => {
            if ended && !bytes.is_empty() {
                Some((bytes.len(), bytes.len()))
            } else {
                None
            }
        }
    }
}

/// The most bytes that are taken of a source at once.
const PIECE_BYTES: usize = 4_096;

/// Takes bytes from the source to the end of these, and answers how many. It takes no memory: there is
/// room for all bytes of a console.
fn take_piece<I: Source>(source: &mut I, bytes: &mut Vec<u8>) -> Result<usize, Failed>
    requires some { length bytes.old.items < console_bytes }
    requires room { console_bytes ≤ vec_capacity bytes.old }
    ensures room { console_bytes ≤ vec_capacity bytes.new }
    ensures fits { length bytes.new.items ≤ console_bytes }
    ensures count { IfOk result (λ n. length bytes.new.items ≡ length bytes.old.items + n) }
    ensures moved { IfOk result (λ _. Moves bytes.old.items bytes.new.items (I.left source.old) (I.left source.new)) }
    ensures end { result ≡ Ok 0 → IsAtEnd (I.left source.new) }
    ensures kept { OnErr result (bytes.new.items ≡ bytes.old.items) }
    ensures failed { OnErr result (I.left source.new ≡ I.left source.old) }
    ensures cause { OnErr result (Rose (I.faults source.old) (I.faults source.new)) }
    ensures calm { OnOk result (I.faults source.new ≡ I.faults source.old) }
    ensures faults { NotFallen (I.faults source.old) (I.faults source.new) }
{
    let mut piece = [0u8; PIECE_BYTES];
    let most = PIECE_BYTES.min(CONSOLE_BYTES - bytes.len());
    match source.take(&mut piece[..most]) {
        Ok(count) => {
            bytes.extend_from_slice(&piece[..count]).unwrap();
            Ok(count)
        }
        Err(failed) => Err(failed),
    }
}

impl Lines {
    ghost use Rattle.std.specs.Prelude.{◌++◌, ◌+◌, ◌<◌, ◌↔◌, ◌≡◌, ◌≤◌, ◌⊎◌, [], ℕ, Err, IfOk, IsSomeAnd, IsTrue, List};
    ghost use Rattle.std.specs.Prelude.{MatchOption, None, Ok, OnErr, OnOk, Option, Some, drop, false, length, take};
    ghost use Rattle.std.specs.{Prelude.true, Io.KnownBytes.IsAtEnd};
    ghost use Rattle.edge_ports.specs.{Counts.NotFallen, Counts.Rose, Limits.console_bytes, Limits.line_bytes};
    ghost use Rattle.edge_ports.specs.Lines.{IsUsed, Moves, StillComes, handed_lines, line_end_of, lines_of, next_line};
    ghost use Rattle.edge_ports.specs.Lines.{unread, upcoming, whole_lines};
    ghost use Rattle.edge_ports.specs.Turns.{AsksNothing, HandedBy, HandsOut, IsConsistent, TurnsTo, shown_line};

    /// A reader that has taken nothing. It reserves the memory for all [`CONSOLE_BYTES`] bytes at once.
    pub fn new(alloc: Global) -> Result<Lines, Memory>
        ensures { IfOk result (λ lines. lines ≡ record { taken = []; handed = 0; ended = false; line = [] }) }
    {
        Ok(Lines {
            taken: Vec::with_capacity(alloc, CONSOLE_BYTES)?,
            handed: 0,
            ended: false,
            line_start: 0,
            line_end: 0,
        })
    }

    /// The next line of the console. Each LF ends a line, and a CR directly before it is dropped; a last
    /// part with no LF is a line, unless it is empty. A line of more than [`LINE_BYTES`] bytes is skipped
    /// whole. It takes no memory.
    ///
    /// A fault of the source loses nothing that was taken: the next call reads on after it. After the
    /// end, and after [`LineFault::Spent`], each further call answers the same.
    pub fn next<I: Source>(&mut self, source: &mut I) -> Result<Turn, LineFault>
        // What moved. As long as a whole line lies in the bytes taken, the source is not asked.
        ensures moved { Moves self.old.taken self.new.taken (I.left source.old) (I.left source.new) }
        ensures consistent { IsConsistent self.new }
        ensures quiet { AsksNothing self.old → (source.new ≡ source.old) × (self.new.taken ≡ self.old.taken)
            × (self.new.ended ≡ self.old.ended) }
        ensures end_seen { IsTrue self.new.ended → IsTrue self.old.ended ⊎ IsAtEnd (I.left source.new) }

        // The answer, by the bytes that were to be handed out.
        ensures line { (result ≡ Ok Turn.Line) ↔
            IsSomeAnd (upcoming self.old self.new) (λ next. length next.0 ≤ line_bytes) }
        ensures too_long { (result ≡ Ok Turn.TooLong) ↔
            IsSomeAnd (upcoming self.old self.new) (λ next. line_bytes < length next.0) }
        ensures end { (result ≡ Ok Turn.End) ↔ (IsTrue self.new.ended × (self.old.handed ≡ length self.new.taken)) }
        ensures spent { (result ≡ Err LineFault.Spent) ↔ ((length self.new.taken ≡ console_bytes)
            × (upcoming self.old self.new ≡ None) × (self.new.ended ≡ false)) }
        ensures failed { result ≡ Err LineFault.Failed → (upcoming self.old self.new ≡ None)
            × (self.new.ended ≡ false) }
        ensures cause { result ≡ Err LineFault.Failed → Rose (I.faults source.old) (I.faults source.new) }
        ensures calm { (result ≡ Err LineFault.Failed → ⊥) → I.faults source.new ≡ I.faults source.old }
        ensures faults { NotFallen (I.faults source.old) (I.faults source.new) }

        // After the end, and after Spent, the answer stays.
        ensures end_again { IsTrue self.old.ended → self.old.handed ≡ length self.old.taken → result ≡ Ok Turn.End }
        ensures spent_again { length self.old.taken ≡ console_bytes → self.old.ended ≡ false
            → line_end_of (unread self.old) ≡ None → result ≡ Err LineFault.Spent }

        // What is shown, and what is handed out.
        ensures shown { self.new.line ≡ shown_line (upcoming self.old self.new) }
        ensures rest { MatchOption (upcoming self.old self.new) (self.new.handed ≡ self.old.handed)
            (λ next. unread self.new ≡ next.1) }
        ensures handed { HandsOut result self.old.handed self.new.handed }

        // The lines handed out so far: where no more comes, all whole lines in the bytes taken.
        ensures lines { HandedBy result self.new.line (handed_lines self.old) (handed_lines self.new) }
        ensures stopped { OnErr result (handed_lines self.new ≡ whole_lines self.new.taken) }

        // The lines still to come, where the source tells its bytes.
        ensures console { (bytes : List ℕ) → StillComes self.old (I.left source.old) bytes
            → (rest : List ℕ) × StillComes self.new (I.left source.new) rest
            × TurnsTo result self.new.line (lines_of bytes) (lines_of rest) }
    {
        self.clear();
        match self.fill(source) {
            Ok(place) => Ok(self.hand_out(place)),
            Err(fault) => Err(fault),
        }
    }

    /// The line that came last, without its LF and a CR directly before that. Empty where the last call
    /// of [`Lines::next`] gave no line.
    pub fn line(&self) -> &[u8]
        ensures { result.now ≡ self.now.line }
    {
        &self.taken[self.line_start..self.line_end]
    }

    /// The bytes taken and not handed out.
    fn unread(&self) -> &[u8]
        ensures bytes { result.now ≡ unread self.now }
        ensures consistent { IsConsistent self.now }
    {
        &self.taken[self.handed..]
    }

    /// Whether the end was seen.
    fn has_ended(&self) -> bool
        ensures { result ≡ self.now.ended }
    {
        self.ended
    }

    /// Whether all room is used.
    fn is_full(&self) -> bool
        ensures full { IsTrue result ↔ (length self.now.taken ≡ console_bytes) }
        ensures consistent { IsConsistent self.now }
    {
        self.taken.len() == CONSOLE_BYTES
    }

    /// Shows no line.
    fn clear(&mut self)
        ensures cleared { self.new ≡ record self.old { line = [] } }
        ensures consistent { IsConsistent self.new }
    {
        self.line_start = 0;
        self.line_end = 0;
    }

    /// Hands out this many bytes, and shows no line.
    fn skip(&mut self, used: usize)
        requires { IsUsed self.old used }
        ensures { self.new ≡ record self.old { handed = self.old.handed + used } }
    {
        self.handed += used;
    }

    /// Hands out this many bytes, and shows the first `count` of them.
    fn show(&mut self, count: usize, used: usize)
        requires shown { count ≤ used }
        requires used { IsUsed self.old used }
        ensures { self.new ≡ record self.old { handed = self.old.handed + used; line = take count (unread self.old) } }
    {
        self.line_start = self.handed;
        self.line_end = self.handed + count;
        self.handed += used;
    }

    /// Takes more from the source, or sees its end.
    fn take_more<I: Source>(&mut self, source: &mut I) -> Result<(), Failed>
        requires room { length self.old.taken < console_bytes }
        requires not_ended { self.old.ended ≡ false }
        ensures moved { Moves self.old.taken self.new.taken (I.left source.old) (I.left source.new) }
        ensures handed { self.new.handed ≡ self.old.handed }
        ensures line { self.new.line ≡ self.old.line }
        ensures consistent { IsConsistent self.new }
        ensures ok { OnOk result ((IsTrue self.new.ended × IsAtEnd (I.left source.new))
            ⊎ ((length self.old.taken < length self.new.taken) × (self.new.ended ≡ self.old.ended))) }
        ensures failed { OnErr result ((self.new.taken ≡ self.old.taken) × (self.new.ended ≡ self.old.ended)) }
        ensures cause { OnErr result (Rose (I.faults source.old) (I.faults source.new)) }
        ensures calm { OnOk result (I.faults source.new ≡ I.faults source.old) }
        ensures faults { NotFallen (I.faults source.old) (I.faults source.new) }
    {
        match take_piece(source, &mut self.taken) {
            Ok(0) => {
                self.ended = true;
                Ok(())
            }
            Ok(_) => Ok(()),
            Err(failed) => Err(failed),
        }
    }

    /// Takes from the source until the next line's LF is there, or the end was seen; and answers where
    /// that LF stands.
    fn fill<I: Source>(&mut self, source: &mut I) -> Result<Option<usize>, LineFault>
        ensures moved { Moves self.old.taken self.new.taken (I.left source.old) (I.left source.new) }
        ensures handed { self.new.handed ≡ self.old.handed }
        ensures line { self.new.line ≡ self.old.line }
        ensures consistent { IsConsistent self.new }
        ensures quiet { AsksNothing self.old → (source.new ≡ source.old) × (self.new.taken ≡ self.old.taken)
            × (self.new.ended ≡ self.old.ended) }
        ensures end_seen { IsTrue self.new.ended → IsTrue self.old.ended ⊎ IsAtEnd (I.left source.new) }
        ensures place { IfOk result (λ place. place ≡ line_end_of (unread self.new)) }
        ensures none { result ≡ Ok None → IsTrue self.new.ended }
        ensures err { OnErr result ((line_end_of (unread self.new) ≡ None) × (self.new.ended ≡ false)) }
        ensures spent { result ≡ Err LineFault.Spent → length self.new.taken ≡ console_bytes }
        ensures failed { result ≡ Err LineFault.Failed → Rose (I.faults source.old) (I.faults source.new)
            × (length self.new.taken < console_bytes) }
        ensures calm { (result ≡ Err LineFault.Failed → ⊥) → I.faults source.new ≡ I.faults source.old }
        ensures faults { NotFallen (I.faults source.old) (I.faults source.new) }
    {
        let mut looked = 0;
        'filling: loop {
            let place = line_end(self.unread(), looked);
            if place.is_some() || self.has_ended() {
                return Ok(place);
            }
            if self.is_full() {
                return Err(LineFault::Spent);
            }
            looked = self.unread().len();
            if self.take_more(source).is_err() {
                return Err(LineFault::Failed);
            }
        }
    }

    /// How many of the unread bytes are the next line, whose LF stands at this place, and how many it takes
    /// up with its end.
    fn next_range(&self, place: Option<usize>) -> Option<(usize, usize)>
        requires { place ≡ line_end_of (unread self.now) }
        ensures within { IfSome result (λ range. range.0 ≤ range.1) }
        ensures used { IfSome result (λ range. IsUsed self.now range.1) }
        ensures next { next_line self.now.ended (unread self.now)
            ≡ option_map (λ range. (take range.0 (unread self.now), drop range.1 (unread self.now))) result }
        ensures consistent { IsConsistent self.now }
    {
        line_range(self.unread(), self.ended, place)
    }

    /// Hands out the next line, whose LF stands at this place. Without one, the end was seen.
    fn hand_out(&mut self, place: Option<usize>) -> Turn
        requires place { place ≡ line_end_of (unread self.old) }
        requires none { place ≡ None → IsTrue self.old.ended }
        requires clear { self.old.line ≡ [] }
        ensures taken { self.new.taken ≡ self.old.taken }
        ensures ended { self.new.ended ≡ self.old.ended }
        ensures consistent { IsConsistent self.new }
        ensures line { (result ≡ Turn.Line) ↔
            IsSomeAnd (upcoming self.old self.old) (λ next. length next.0 ≤ line_bytes) }
        ensures too_long { (result ≡ Turn.TooLong) ↔
            IsSomeAnd (upcoming self.old self.old) (λ next. line_bytes < length next.0) }
        ensures end { (result ≡ Turn.End) ↔ (IsTrue self.old.ended × (self.old.handed ≡ length self.old.taken)) }
        ensures shown { self.new.line ≡ shown_line (upcoming self.old self.old) }
        ensures rest { MatchOption (upcoming self.old self.old) (self.new.handed ≡ self.old.handed)
            (λ next. unread self.new ≡ next.1) }
        ensures handed { HandsOut (Ok result) self.old.handed self.new.handed }
        ensures lines { HandedBy (Ok result) self.new.line (handed_lines self.old) (handed_lines self.new) }
        ensures console { (more : List ℕ) → (IsTrue self.old.ended → more ≡ [])
            → TurnsTo (Ok result) self.new.line (lines_of (unread self.old ++ more))
            (lines_of (unread self.new ++ more)) }
    {
        match self.next_range(place) {
            None => Turn::End,
            Some((count, used)) => {
                if count > LINE_BYTES {
                    self.skip(used);
                    Turn::TooLong
                } else {
                    self.show(count, used);
                    Turn::Line
                }
            }
        }
    }
}
