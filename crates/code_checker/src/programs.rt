//! From the tokens of a source to its program.

ghost use Rattle.std.specs.Prelude.{IfErr, IfOk};
ghost use Rattle.run_laws.specs.LaidOut.{LaidOut};
ghost use Rattle.code_checker.specs.{Declarations.IsTextOf, Programs.IsChecked, Programs.IsUnchecked};

use crate::checked_programs::check;
use crate::faults::{SourceFault, SourceRefusal};
use crate::places::place_of;
use check_steps::CheckFault;
use core_program::Program;
use pas_lexer::Tokens;
use pas_parser::{ParseFault, parse};
use pas_tree::blocks::Tree;
use std::alloc::Global;

/// The one tree that the tokens spell.
fn read_tree(alloc: Global, tokens: &Tokens) -> Result<Tree, SourceFault>
    ensures found { IfOk result (IsTextOf tokens.now) }
    ensures refused { IfErr result (IsUnchecked tokens.now) }
{
    match parse(alloc, tokens) {
        Ok(tree) => Ok(tree),
        Err(ParseFault::NotProgram(token)) => {
            let (line, byte) = place_of(tokens, token);
            let why = SourceRefusal::NotProgram;
            Err(SourceFault::Refused { why, line, byte })
        }
        Err(ParseFault::TooDeep(token)) => {
            let (line, byte) = place_of(tokens, token);
            let why = SourceRefusal::TooDeep;
            Err(SourceFault::Refused { why, line, byte })
        }
        Err(ParseFault::Memory) => Err(SourceFault::Memory),
    }
}

/// The program that the one tree of the tokens denotes.
fn check_tree(alloc: Global, tokens: &Tokens, tree: &Tree) -> Result<Program, SourceFault>
    requires text { IsTextOf tokens.now tree.now }
    ensures found { IfOk result (IsChecked tokens.now) }
    ensures laid { IfOk result (λ p. LaidOut p) }
    ensures refused { IfErr result (IsUnchecked tokens.now) }
{
    match check(alloc, tokens, tree) {
        Ok(program) => Ok(program),
        Err(CheckFault::Rule(rule, token)) => {
            let (line, byte) = place_of(tokens, token);
            let why = SourceRefusal::Rule(rule);
            Err(SourceFault::Refused { why, line, byte })
        }
        Err(CheckFault::TooBig(token)) => {
            let (line, byte) = place_of(tokens, token);
            let why = SourceRefusal::TooBig;
            Err(SourceFault::Refused { why, line, byte })
        }
        Err(CheckFault::Memory) => Err(SourceFault::Memory),
    }
}

/// The program that the tokens of a source are the text of, or what is wrong first, and where. Its tables are laid out.
pub fn check_tokens(alloc: Global, tokens: &Tokens) -> Result<Program, SourceFault>
    ensures found { IfOk result (IsChecked tokens.now) }
    ensures laid { IfOk result (λ p. LaidOut p) }
    ensures refused { IfErr result (IsUnchecked tokens.now) }
{
    let tree = read_tree(alloc, tokens)?;
    check_tree(alloc, tokens, &tree)
}
