//! The command line, as `clap` has it.
ghost use Rattle.std.specs.Prelude.{◌≡◌, IfOk};
ghost use Rattle.clap.specs.Words.{app_of};
ghost use Rattle.debug_cli.specs.CommandLine.{command_line};

use clap::{Arg, Command};
use std::alloc::{AllocError, Global};

/// The command: a source, and three options with one value each.
pub(crate) fn command_line<'a>(alloc: Global) -> Result<Command<'a>, AllocError>
    ensures { IfOk result (λ command. app_of command ≡ command_line) }
{
    let source = Arg::new(alloc, "source").required(true);
    let input = Arg::new(alloc, "input").long("input");
    let budget = Arg::new(alloc, "budget").long("budget");
    let load = Arg::new(alloc, "load").long("load");
    Command::new(alloc, "pasask")
        .arg(source)?
        .arg(input)?
        .arg(budget)?
        .arg(load)
}
