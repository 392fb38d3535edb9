//! How the command ends.
ghost use Rattle.std.specs.Prelude.{◌≡◌, IsTrue, false};
ghost use Rattle.edge_ports.specs.Counts.{Counted};
ghost use Rattle.debug_cli.specs.{Given.GivesText, Status.code_of, Status.is_screen, Status.session_status};

use ask_session::Ending;
use edge_ports::{Printer, print_all};

/// How the command ends.
#[derive(Clone, Copy)]
pub enum Status {
    /// `quit` or the console's end was read, or the lines on a made program were given.
    Done,
    /// The words are refused.
    Words,
    /// The source is refused.
    Source,
    /// The file could not be fetched.
    File,
    /// The console failed.
    Console,
    /// The screen failed.
    Screen,
    /// Memory ran out.
    Memory,
    /// The session is refused.
    Session,
    /// The most bytes that are taken of a console were taken, and no end was seen.
    Spent,
}

impl Status {
    /// The exit status.
    pub fn code(self) -> u8
        ensures { result ≡ code_of self }
    {
        match self {
            Status::Done => 0,
            Status::Words => 2,
            Status::Source => 3,
            Status::File => 4,
            Status::Console => 5,
            Status::Screen => 6,
            Status::Memory => 7,
            Status::Session => 8,
            Status::Spent => 9,
        }
    }
}

/// The status of a session that ended so.
pub fn status_of(ending: Ending) -> Status
    ensures { result ≡ session_status ending }
{
    match ending {
        Ending::Done => Status::Done,
        Ending::Console => Status::Console,
        Ending::Screen => Status::Screen,
        Ending::Spent => Status::Spent,
        Ending::Refused => Status::Session,
        Ending::Memory => Status::Memory,
    }
}

/// Gives a whole text and ends with this status, or with that of a screen that failed.
pub fn give_text<O: Printer>(screen: &mut O, text: &[u8], status: Status) -> Status
    requires { is_screen status ≡ false }
    ensures gives { GivesText result status text.now (O.given screen.old) (O.given screen.new) }
    ensures faults { Counted (is_screen result) (O.faults screen.old) (O.faults screen.new) }
    ensures last { IsTrue (is_screen result) → IsTrue (O.last_failed screen.new) }
    ensures loan { O.loan screen.new ≡ O.loan screen.old }
{
    match print_all(screen, text) {
        Ok(()) => status,
        Err(_) => Status::Screen,
    }
}
