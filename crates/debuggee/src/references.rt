//! A right program that answers for the user.
ghost use Rattle.std.specs.Prelude.{◌≡◌, ◌≤◌, IfOk, length};
ghost use Rattle.pas_lexer.specs.Limits.{source_bytes};
ghost use Rattle.debuggee.specs.References.{IsReading, fault_of_parse, fault_of_reference, fault_of_rule, referred};

use crate::refusal::write_refusal;
use answer_book::Judgement;
use check_steps::CheckFault;
use code_checker::{SourceFault, SourceRefusal, fault_of_piece};
use dialog_replies::{Reading, Referred};
use edge_ports::{Bytes, Memory};
use pas_phrases::ParseFault;
use reference_oracle::{RefFault, Reference, Verdict};
use std::alloc::{AllocError, Global};

/// What the parser says of tokens, as a fault of their source at this place.
fn fault_of_parse(fault: &ParseFault, line: u32, byte: u32) -> SourceFault
    ensures { result ≡ fault_of_parse fault.now line byte }
{
    let why = match fault {
        ParseFault::NotProgram(_) => SourceRefusal::NotProgram,
        ParseFault::TooDeep(_) => SourceRefusal::TooDeep,
        ParseFault::Memory => return SourceFault::Memory,
    };
    SourceFault::Refused { why, line, byte }
}

/// What the check says of a tree, as a fault of its source at this place.
fn fault_of_rule(fault: &CheckFault, line: u32, byte: u32) -> SourceFault
    ensures { result ≡ fault_of_rule fault.now line byte }
{
    let why = match fault {
        CheckFault::Rule(rule, _) => SourceRefusal::Rule(*rule),
        CheckFault::TooBig(_) => SourceRefusal::TooBig,
        CheckFault::Memory => return SourceFault::Memory,
    };
    SourceFault::Refused { why, line, byte }
}

/// Why bytes are no reference, as it is told of a source.
fn fault_of_reference(source: &[u8], fault: &RefFault) -> SourceFault
    requires { length source.now ≤ source_bytes }
    ensures { result ≡ fault_of_reference source.now fault.now }
{
    match fault {
        RefFault::Lex(fault) => fault_of_piece(source, fault),
        RefFault::Parse(fault, line, byte) => fault_of_parse(fault, *line, *byte),
        RefFault::Check(fault, line, byte) => fault_of_rule(fault, *line, *byte),
        RefFault::Memory => SourceFault::Memory,
    }
}

/// What bytes are read as: a program; or why they are none, and where, as it is printed.
pub(crate) fn read_reference(alloc: Global, bytes: &[u8]) -> Result<Reading<Reference>, Memory>
    requires { length bytes.now ≤ source_bytes }
    ensures { IfOk result (IsReading bytes.now) }
{
    let fault = match Reference::read(alloc, bytes) {
        Ok(reference) => return Ok(Reading::Program(reference)),
        Err(fault) => fault,
    };
    match fault_of_reference(bytes, &fault) {
        SourceFault::Refused { why, line, byte } => {
            let mut text = Bytes::new(alloc);
            write_refusal(&mut text, why, line, byte)?;
            Ok(Reading::Refused(text))
        }
        SourceFault::Memory => Err(AllocError),
    }
}

/// What a verdict comes to.
pub(crate) fn referred(verdict: Verdict) -> Referred
    ensures { result ≡ referred verdict }
{
    match verdict {
        Verdict::Right => Referred::Judged(Judgement::Right),
        Verdict::Wrong => Referred::Judged(Judgement::Wrong),
        Verdict::Unfit => Referred::Unfit,
        Verdict::NoAnswer(_) => Referred::NoAnswer,
    }
}
