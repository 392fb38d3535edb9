//! The program `pasask`: it debugs a Pascal program by asking whether its calls did what was meant.
#![tactic(auto)]

ghost use Rattle.debug_cli.specs.Exits.{EndsAsCommand};

use debug_cli::{Asked, ask_as_process, out_of_memory, read_words};
use edge_ports::{FileKeeper, Pieces, StdSink, StdSource};
use std::alloc::AllocError;
use std::env;
use std::io::{self, ErrorKind};
use std::process::ExitCode;

/// The words of the command, the program's name first. A word that is no UTF-8 text makes them none,
/// which the command refuses.
fn words(rt: &HostRuntime) -> Result<Vec<String>, AllocError> {
    let mut words = Vec::new(rt.alloc());
    match env::args(rt) {
        Ok(args) => {
            for word in args {
                words.push(word)?;
            }
            Ok(words)
        }
        Err(error) => match error.kind() {
            ErrorKind::OutOfMemory => Err(AllocError),
            _ => Ok(words),
        },
    }
}

/// Spares the files that the words name to be read: the source and the input.
fn spare_own(
    rt: &HostRuntime,
    words: &[String],
    keeper: &mut FileKeeper<HostRuntime>,
) -> Result<(), AllocError> {
    if let Ok(Asked::Source(request)) = read_words(rt.alloc(), words) {
        keeper.spare(rt.alloc(), request.source)?;
        if let Some(input) = request.input {
            keeper.spare(rt.alloc(), input)?;
        }
    }
    Ok(())
}

/// The words, with the files that they name to be read spared by the keeper: no session takes their place.
fn words_with_own_spared(
    rt: &HostRuntime,
    keeper: &mut FileKeeper<HostRuntime>,
) -> Result<Vec<String>, AllocError> {
    let words = words(rt)?;
    spare_own(rt, &words, keeper)?;
    Ok(words)
}

/// The command over the words, files and streams of this process.
fn run(rt: HostRuntime) -> ExitCode
    ensures ended { EndsAsCommand result }
{
    let mut keeper = FileKeeper::new(rt);
    let words = words_with_own_spared(&rt, &mut keeper);
    let mut console = StdSource::new(rt.reader());
    match Pieces::new(rt.alloc(), StdSink::new(io::writer(&rt))) {
        Ok(mut screen) => {
            ask_as_process(rt.alloc(), words, &mut keeper, &mut console, &mut screen)
        }
        Err(_) => out_of_memory(),
    }
}

fn main(rt: HostRuntime) -> ExitCode {
    run(rt)
}
