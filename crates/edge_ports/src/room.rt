//! A printer over the caller's own room.
ghost use Rattle.std.specs.Prelude.{◌++◌, ◌+◌, ◌-◌, ◌<◌, ◌≡◌, ◌≤◌, [], false, length, min, take, true};

use crate::counts::count_on;
use crate::tale::Tale;
use crate::{Failed, Printer};

/// A printer that writes into a slice of the caller's, from its front on. It takes no memory and copies each byte once.
/// What finds no room is let go, and its text fails.
pub struct Room<'a> {
    room: &'a mut [u8],
    len: usize,
    from: usize,
    whole: bool,
    lost: Tale,
    before: u64,
    faults: u64,
    failed: bool,
    ghost within: { len ≤ length room.now },
    ghost begun: { from ≤ len },
    ghost all: { whole ≡ true → lost ≡ [] },
    ghost part: { whole ≡ false → len ≡ length room.now },
    ghost some: { whole ≡ false → 0 < length lost },
    ghost full: { failed ≡ true → len ≡ length room.now },
}

/// Copies bytes from the front of the piece into the room behind its first `len` bytes, as many as fit, and answers how
/// many.
fn copy_behind(room: &mut [u8], len: usize, piece: &[u8]) -> usize
    requires { len ≤ length room.old }
    ensures count { result ≡ min (length piece.now) (length room.old - len) }
    ensures room { length room.new ≡ length room.old }
    ensures front { take (len + result) room.new ≡ take len room.old ++ take result piece.now }
{
    let count = piece.len().min(room.len() - len);
    room[len..len + count].copy_from_slice(&piece[..count]);
    count
}

impl<'a> Room<'a> {
    ghost use Rattle.std.specs.Prelude.{◌≡◌, ◌≤◌, [], Some, false, length, take, true};
    ghost use Rattle.edge_ports.specs.Rooms.{given_of, room_of};

    /// All of the slice is free, and nothing has failed yet.
    pub fn new(room: &'a mut [u8]) -> Room<'a>
        ensures room { room_of result ≡ room.old }
        ensures given { ⟦<Room<'a> as Printer>⟧.given result ≡ Some [] }
        ensures loan { ⟦<Room<'a> as Printer>⟧.loan result ≡ room.entry.ghost_name }
        ensures faults { ⟦<Room<'a> as Printer>⟧.faults result ≡ 0 }
        ensures last { ⟦<Room<'a> as Printer>⟧.last_failed result ≡ false }
    {
        Room {
            room,
            len: 0,
            from: 0,
            whole: true,
            lost: Tale::new(),
            before: 0,
            faults: 0,
            failed: false,
        }
    }

    /// How many bytes were given so far. They stand at the front of the slice. Where the last text failed they are all
    /// that the slice has room for.
    pub fn len(&self) -> usize
        ensures within { result ≤ length (room_of self.now) }
        ensures full { ⟦<Room<'a> as Printer>⟧.last_failed self.now ≡ true → result ≡ length (room_of self.now) }
        ensures given { given_of self.now ≡ take result (room_of self.now) }
    {
        self.len
    }
}

impl Drop for Room<'_> {
    // The slice stays as it was written.
    fn drop(self)
        ensures { self.exit.0.now ≡ self.entry.room.now }
    {
        let Self {
            room: _,
            len: _,
            from: _,
            whole: _,
            lost: _,
            before: _,
            faults: _,
            failed: _,
        } = self;
    }
}

impl Printer for Room<'_> {
    ghost use Rattle.std.specs.Prelude.{◌<◌, ◌↔◌, ◌≡◌, IsErr, OnErr, OnOk, Some, length, take, true};
    ghost use Rattle.edge_ports.specs.{Counts.Rose, Told.GaveAll, Told.GavePrefix};
    ghost use Rattle.edge_ports.specs.Rooms.{all_of, given_of, loan_of, printout_of, room_of};

    ghost given = { λ r. Some (given_of r) };

    ghost faults = { λ r. r.faults };

    ghost last_failed = { λ r. r.failed };

    ghost loan = { loan_of };

    ghost printout = { printout_of };

    fn begin(&mut self) {
        self.from = self.len;
        self.whole = true;
        self.lost = Tale::new();
        self.before = self.faults;
    }

    /// Appends as many bytes of the piece as fit.
    fn print(&mut self, piece: &[u8]) {
        let count = copy_behind(self.room, self.len, piece);
        self.len += count;
        self.lost.add(&piece[count..]);
        self.whole = self.whole && count == piece.len();
    }

    /// Fails exactly where not all of the text found room.
    fn finish(&mut self) -> Result<(), Failed>
        ensures fails { IsErr result ↔ (length (room_of self.old) < length (all_of self.old)) }
        ensures fits { given_of self.new ≡ take (length (room_of self.old)) (all_of self.old) }
        ensures room { room_of self.new ≡ room_of self.old }
        ensures ok { OnOk result (GaveAll (printout_of self.old).began.given (Some (given_of self.new))
            (printout_of self.old).text) }
        ensures failed { OnErr result (GavePrefix (printout_of self.old).began.given (Some (given_of self.new))
            (printout_of self.old).text) }
        ensures cause { OnErr result (Rose (printout_of self.old).began.faults self.new.faults) }
        ensures last { OnErr result (self.new.failed ≡ true) }
        ensures loan { loan_of self.new ≡ (printout_of self.old).began.loan }
        ensures calm { OnOk result (self.new.faults ≡ (printout_of self.old).began.faults) }
    {
        self.failed = !self.whole;
        if self.whole {
            self.faults = self.before;
            Ok(())
        } else {
            self.faults = count_on(self.before);
            Err(Failed)
        }
    }
}
