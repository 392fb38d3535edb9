//! What is refused, and what is said of it.
ghost use Rattle.std.specs.Prelude.{◌≡◌, IsTrue, false};
ghost use Rattle.edge_ports.specs.Counts.{Counted};
ghost use Rattle.debug_cli.specs.Refusals.{GivesLine, line_on, refusal_status};
ghost use Rattle.debug_cli.specs.Status.{is_console, is_screen};

use crate::status::{Status, give_text};
use crate::texts::refusal_line;
use debuggee::SourceFault;
use edge_ports::{FetchFault, Printer};
use session_file::LoadFault;
use std::alloc::{AllocError, Global};

/// Why what the words name is not gone on with.
#[derive(Clone, Copy, Drop)]
pub enum Refusal<'a> {
    /// The source is no program.
    Source(SourceFault),
    /// The file of this name could not be fetched.
    File(&'a str, FetchFault),
    /// The file that is named as a session's is none.
    Session(LoadFault),
    /// Memory ran out.
    Memory,
}

impl<'a> From<SourceFault> for Refusal<'a> {
    ghost use Rattle.std.specs.Prelude.{◌≡◌};
    ghost use Rattle.debug_cli.specs.declared.refusals.Refusal.TheVariants.{Source};

    ghost from_gives = { λ fault e. e ≡ Source fault };

    fn from(fault: SourceFault) -> Refusal<'a> {
        Refusal::Source(fault)
    }
}

impl<'a> From<LoadFault> for Refusal<'a> {
    ghost use Rattle.std.specs.Prelude.{◌≡◌};
    ghost use Rattle.debug_cli.specs.declared.refusals.Refusal.TheVariants.{Session};

    ghost from_gives = { λ fault e. e ≡ Session fault };

    fn from(fault: LoadFault) -> Refusal<'a> {
        Refusal::Session(fault)
    }
}

impl<'a> From<AllocError> for Refusal<'a> {
    ghost use Rattle.std.specs.Prelude.{◌≡◌};
    ghost use Rattle.debug_cli.specs.declared.refusals.Refusal.TheVariants.{Memory};

    ghost from_gives = { λ _ e. e ≡ Memory };

    fn from(_e: AllocError) -> Refusal<'a> {
        Refusal::Memory
    }
}

impl<'a> Refusal<'a> {
    /// The status that comes with it.
    fn status(&self) -> Status
        ensures status { result ≡ refusal_status self.now }
        ensures not_screen { is_screen result ≡ false }
        ensures not_console { is_console result ≡ false }
    {
        match self {
            Refusal::Source(_) => Status::Source,
            Refusal::File(_, _) => Status::File,
            Refusal::Session(_) => Status::Session,
            Refusal::Memory => Status::Memory,
        }
    }
}

/// Says what is refused, by its line. Where memory ran out nothing is said.
pub fn refuse<O: Printer>(alloc: Global, refusal: &Refusal<'_>, screen: &mut O) -> Status
    ensures says { GivesLine (line_on refusal.now) (refusal_status refusal.now) result
        (O.given screen.old) (O.given screen.new) }
    ensures not_console { is_console result ≡ false }
    ensures faults { Counted (is_screen result) (O.faults screen.old) (O.faults screen.new) }
    ensures last { IsTrue (is_screen result) → IsTrue (O.last_failed screen.new) }
    ensures loan { O.loan screen.new ≡ O.loan screen.old }
{
    match refusal_line(alloc, refusal) {
        Ok(text) => give_text(screen, text.as_slice(), refusal.status()),
        Err(_) => Status::Memory,
    }
}
