//! How it is told why and where a source is refused.
ghost use Rattle.std.specs.Prelude.{◌++◌, ◌≡◌, OnOk};
ghost use Rattle.debuggee.specs.Refusing.{refusal_at, refusal_name, refusal_text};

use code_checker::SourceRefusal;
use dialog_replies::write_number;
use edge_ports::{Bytes, Memory};

/// The name of a reason for which a source is refused.
fn refusal_name(why: SourceRefusal) -> &'static str
    ensures { result.now ≡ refusal_name why }
{
    match why {
        SourceRefusal::BadByte => "BadByte",
        SourceRefusal::OpenComment => "OpenComment",
        SourceRefusal::OpenString => "OpenString",
        SourceRefusal::EmptyString => "EmptyString",
        SourceRefusal::RealWord => "RealWord",
        SourceRefusal::TooLarge => "TooLarge",
        SourceRefusal::Joined => "Joined",
        SourceRefusal::NotProgram => "NotProgram",
        SourceRefusal::TooDeep => "TooDeep",
        SourceRefusal::Rule(_) => "Rule",
        SourceRefusal::TooBig => "TooBig",
    }
}

/// Appends why a source is refused, with the number of a rule.
fn write_why(out: &mut Bytes, why: SourceRefusal) -> Result<(), Memory>
    ensures { OnOk result (out.new ≡ out.old ++ refusal_text why) }
{
    match why {
        SourceRefusal::Rule(rule) => {
            out.append(b"Rule ")?;
            write_number(out, rule)?;
        }
        _ => out.append(refusal_name(why).as_bytes())?,
    }
    Ok(())
}

/// Appends why a source is refused, and where: the line, counted from 1, and the byte, counted from 0.
pub fn write_refusal(
    out: &mut Bytes,
    why: SourceRefusal,
    line: u32,
    byte: u32,
) -> Result<(), Memory>
    ensures { OnOk result (out.new ≡ out.old ++ refusal_at why line byte) }
{
    write_why(out, why)?;
    out.append(b", line ")?;
    write_number(out, line)?;
    out.append(b", byte ")?;
    write_number(out, byte)?;
    Ok(())
}
