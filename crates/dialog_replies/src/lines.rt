//! The line that refuses a saved session.
ghost use Rattle.std.specs.Prelude.{◌++◌, ◌≡◌, IfOk, OnOk, codes, decimal};
ghost use Rattle.hex.specs.Hex.{encode_lower};
ghost use Rattle.dialog_replies.specs.Lines.{differs_line, misfit_line, names_line};

use crate::misfits::Misfit;
use edge_ports::{Bytes, Memory};
use itoa::Buffer;
use std::alloc::Global;

/// Appends a number in decimal.
fn write_number(out: &mut Bytes, number: usize) -> Result<(), Memory>
    ensures { OnOk result (out.new ≡ out.old ++ decimal number) }
{
    let mut buffer = Buffer::new();
    out.append(buffer.format(number).as_bytes())?;
    Ok(())
}

/// What is named has another value in the session than in the run.
fn differs(alloc: Global, name: &[u8], run: &[u8], saved: &[u8]) -> Result<Bytes, Memory>
    ensures { IfOk result (λ text. text ≡ differs_line name.now run.now saved.now) }
{
    let mut text = Bytes::new(alloc);
    text.append(b"session: ")?;
    text.append(name)?;
    text.append(b" is ")?;
    text.append(run)?;
    text.append(b" but the session has ")?;
    text.append(saved)?;
    text.append(b"\n")?;
    Ok(text)
}

/// The same of a digest, in hexadecimal digits of lower case.
fn digest_differs(
    alloc: Global,
    name: &[u8],
    run: [u8; 32],
    saved: [u8; 32],
) -> Result<Bytes, Memory>
    ensures { IfOk result (λ text. text ≡ differs_line name.now (encode_lower run) (encode_lower saved)) }
{
    let run_digits = hex::encode(alloc, &run)?;
    let saved_digits = hex::encode(alloc, &saved)?;
    differs(alloc, name, run_digits.as_bytes(), saved_digits.as_bytes())
}

/// The same of the budget, in decimal.
fn budget_differs(alloc: Global, run: u32, saved: u32) -> Result<Bytes, Memory>
    ensures { IfOk result (λ text. text ≡ differs_line (codes "budget") (decimal run) (decimal saved)) }
{
    let mut run_digits = Buffer::new();
    let mut saved_digits = Buffer::new();
    let run_text = run_digits.format(run);
    let saved_text = saved_digits.format(saved);
    differs(alloc, b"budget", run_text.as_bytes(), saved_text.as_bytes())
}

/// The entry of this number names what there is not.
fn names(alloc: Global, entry: usize, kind: &[u8], named: u32) -> Result<Bytes, Memory>
    ensures { IfOk result (λ text. text ≡ names_line entry kind.now named) }
{
    let mut text = Bytes::new(alloc);
    text.append(b"session: entry ")?;
    write_number(&mut text, entry)?;
    text.append(b" names ")?;
    text.append(kind)?;
    text.append(b" ")?;
    write_number(&mut text, named as usize)?;
    text.append(b"\n")?;
    Ok(text)
}

/// The line of a misfit.
pub fn line_of(alloc: Global, misfit: Misfit) -> Result<Bytes, Memory>
    ensures { IfOk result (λ text. text ≡ misfit_line misfit) }
{
    match misfit {
        Misfit::Source { run, saved } => digest_differs(alloc, b"source", run, saved),
        Misfit::Input { run, saved } => digest_differs(alloc, b"input", run, saved),
        Misfit::Budget { run, saved } => budget_differs(alloc, run, saved),
        Misfit::Call { entry, call } => names(alloc, entry, b"call", call),
        Misfit::Routine { entry, routine } => names(alloc, entry, b"routine", routine),
    }
}
