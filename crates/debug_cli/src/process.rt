//! The command as a process: its status is the code that the process ends with.
ghost use Rattle.std.specs.{Prelude.◌≡◌, Prelude.IfOk, Prelude.IsErr, Process.exit_status};
ghost use Rattle.debug_cli.specs.{Exits.EndsAs, Exits.EndsAsCommand, Named.meaning};

use crate::ask::ask_pascal;
use edge_ports::{Keeper, Printer, Source};
use std::alloc::{AllocError, Global};
use std::process::ExitCode;
use std::string::String;

/// The exit status where memory ran out.
const MEMORY: u8 = 7;

/// How a process ends where memory ran out before the words were known.
pub fn out_of_memory() -> ExitCode
    ensures memory { exit_status result ≡ 7 }
    ensures ended { EndsAsCommand result }
{
    ExitCode::from(MEMORY)
}

/// Does what the words ask for, as `ask_pascal`, and answers its status as the code of a process. Where memory ran out
/// before the words were known nothing is done, and the code is 7.
pub fn ask_as_process<K: Keeper, I: Source, O: Printer>(
    alloc: Global,
    words: Result<Vec<String>, AllocError>,
    keeper: &mut K,
    console: &mut I,
    screen: &mut O,
) -> ExitCode
    ensures goes { IfOk words (λ words. EndsAs result (meaning words.items)
        (record {
          files = K.files keeper.old;
          counts = K.counts keeper.old;
          streams = record { left = I.left console.old; given = O.given screen.old };
        })
        (record {
          files = K.files keeper.new;
          counts = K.counts keeper.new;
          streams = record { left = I.left console.new; given = O.given screen.new };
        })) }
    ensures memory { IsErr words → exit_status result ≡ 7 }
    ensures untouched { IsErr words
        → (keeper.new ≡ keeper.old) × (console.new ≡ console.old) × (screen.new ≡ screen.old) }
    ensures ended { EndsAsCommand result }
{
    match words {
        Ok(words) => {
            let status = ask_pascal(alloc, &words, keeper, console, screen);
            ExitCode::from(status)
        }
        Err(_) => out_of_memory(),
    }
}
