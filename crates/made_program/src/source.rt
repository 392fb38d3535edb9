//! The text of the made program.
ghost use Rattle.std.specs.Prelude.{◌++◌, ◌≡◌, ◌≤◌, IfOk, OnOk};
ghost use Rattle.made_program.specs.Source.{heading, made_source, procedure_t, statements};

use dialog_replies::write_number;
use edge_ports::{Bytes, Memory};
use std::alloc::Global;

/// Appends the heading, and the one variable.
fn write_heading(out: &mut Bytes) -> Result<(), Memory>
    ensures { OnOk result (out.new ≡ out.old ++ heading) }
{
    out.append(b"program made;\n")?;
    out.append(b"var s: integer;\n")?;
    Ok(())
}

/// Appends the procedure, which counts its calls and calls itself twice.
fn write_procedure(out: &mut Bytes) -> Result<(), Memory>
    ensures { OnOk result (out.new ≡ out.old ++ procedure_t) }
{
    out.append(b"procedure t(d: integer);\n")?;
    out.append(b"begin\n")?;
    out.append(b"  s := s + 1;\n")?;
    out.append(b"  if d > 0 then begin t(d - 1); t(d - 1) end\n")?;
    out.append(b"end;\n")?;
    Ok(())
}

/// Appends the statements of the program, which call the procedure.
fn write_statements(out: &mut Bytes, n: u32) -> Result<(), Memory>
    ensures { OnOk result (out.new ≡ out.old ++ statements n) }
{
    out.append(b"begin\n")?;
    out.append(b"  s := 0;\n")?;
    out.append(b"  t(")?;
    write_number(out, n)?;
    out.append(b")\n")?;
    out.append(b"end.\n")?;
    Ok(())
}

/// The text of the program that calls its procedure with n: the program, and the calls of the
/// procedure below that one, are 2^(n + 1) calls.
pub fn make_source(alloc: Global, n: u32) -> Result<Bytes, Memory>
    requires least { 1 ≤ n }
    requires most { n ≤ 14 }
    ensures text { IfOk result (λ text. text ≡ made_source n) }
{
    let mut text = Bytes::new(alloc);
    write_heading(&mut text)?;
    write_procedure(&mut text)?;
    write_statements(&mut text, n)?;
    Ok(text)
}
