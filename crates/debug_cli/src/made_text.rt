//! Made programs: run and asked about with no one asked.
ghost use Rattle.std.specs.Prelude.{◌≡◌, IfErr, IfOk};
ghost use Rattle.ask_session.specs.Outside.{Outside};
ghost use Rattle.debug_cli.specs.{Meaning.IsMadeNumber, Meaning.Made, Refusals.IsRefusal};
ghost use Rattle.debug_cli.specs.Named.{MadeProgram, made_text};

use crate::refusals::Refusal;
use cell_value::MOST_STEPS;
use debuggee::{read_source, run_program};
use edge_ports::Bytes;
use made_program::{made_lines, make_source};
use std::alloc::Global;

/// The lines on the made source of this number: its program is run, and the questions about it are answered with no one
/// asked. Neither files nor a console are needed.
pub fn made_text(alloc: Global, number: u32) -> Result<Bytes, Refusal<'static>>
    requires { IsMadeNumber number }
    ensures text { IfOk result (λ text. (x : MadeProgram number) × (text ≡ made_text x)) }
    ensures refused { (x : Outside) → IfErr result (IsRefusal (Made number) x x) }
{
    let source = make_source(alloc, number)?;
    let program = read_source(alloc, source.as_slice())?;
    let debuggee = run_program(alloc, program, b"", MOST_STEPS)?;
    let text = made_lines(alloc, &debuggee)?;
    Ok(text)
}
