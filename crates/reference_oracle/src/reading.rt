//! From the bytes of a reference to its program.

ghost use Rattle.std.specs.Prelude.{◌<◌, ◌≤◌, IfErr, IfOk, length};
ghost use Rattle.pas_lexer.specs.Limits.{source_bytes};
ghost use Rattle.code_checker.specs.{Places.TokenBegins, Programs.IsChecked, Programs.IsDenotedBy};
ghost use Rattle.code_checker.specs.Declarations.{HasTokens, IsTextOf};
ghost use Rattle.reference_oracle.specs.Reading.{IsBrokenReference, IsSourceOf, IsUncheckedReference};
ghost use Rattle.reference_oracle.specs.Reading.{IsUnlexedReference, IsUnparsedReference, IsUnreadReference};

use crate::faults::RefFault;
use check_steps::CheckFault;
use code_checker::check;
use core_program::Program;
use pas_lexer::{LexFault, Tokens, lex};
use pas_parser::{ParseFault, parse};
use pas_tree::blocks::Tree;
use std::alloc::Global;

/// The place of the token of this number: its line and its first byte.
fn place_of(tokens: &Tokens, number: u32) -> (u32, u32)
    requires { number < length tokens.now.tokens }
    ensures { TokenBegins tokens.now number result.0 result.1 }
{
    let token = tokens.at(number);
    (token.line, token.start)
}

/// The tokens of the bytes.
fn read_tokens(alloc: Global, bytes: &[u8]) -> Result<Tokens, RefFault>
    requires { length bytes.now ≤ source_bytes }
    ensures found { IfOk result (λ t. HasTokens bytes.now t) }
    ensures refused { IfErr result (IsUnlexedReference bytes.now) }
{
    match lex(alloc, bytes) {
        Ok(tokens) => Ok(tokens),
        Err(LexFault::Memory) => Err(RefFault::Memory),
        Err(fault) => Err(RefFault::Lex(fault)),
    }
}

/// The one tree that the tokens spell.
fn read_tree(alloc: Global, tokens: &Tokens) -> Result<Tree, RefFault>
    ensures found { IfOk result (IsTextOf tokens.now) }
    ensures refused { IfErr result (IsUnparsedReference tokens.now) }
{
    match parse(alloc, tokens) {
        Ok(tree) => Ok(tree),
        Err(ParseFault::NotProgram(token)) => {
            let (line, byte) = place_of(tokens, token);
            Err(RefFault::Parse(ParseFault::NotProgram(token), line, byte))
        }
        Err(ParseFault::TooDeep(token)) => {
            let (line, byte) = place_of(tokens, token);
            Err(RefFault::Parse(ParseFault::TooDeep(token), line, byte))
        }
        Err(ParseFault::Memory) => Err(RefFault::Memory),
    }
}

/// The program that the one tree of the tokens denotes.
fn read_checked(alloc: Global, tokens: &Tokens, tree: &Tree) -> Result<Program, RefFault>
    requires text { IsTextOf tokens.now tree.now }
    ensures found { IfOk result (IsDenotedBy tokens.now tree.now) }
    ensures refused { IfErr result (IsBrokenReference tokens.now tree.now) }
{
    match check(alloc, tokens, tree) {
        Ok(program) => Ok(program),
        Err(CheckFault::Rule(rule, token)) => {
            let (line, byte) = place_of(tokens, token);
            Err(RefFault::Check(CheckFault::Rule(rule, token), line, byte))
        }
        Err(CheckFault::TooBig(token)) => {
            let (line, byte) = place_of(tokens, token);
            Err(RefFault::Check(CheckFault::TooBig(token), line, byte))
        }
        Err(CheckFault::Memory) => Err(RefFault::Memory),
    }
}

/// The program that the tokens are the text of.
fn read_text(alloc: Global, tokens: &Tokens) -> Result<Program, RefFault>
    ensures found { IfOk result (IsChecked tokens.now) }
    ensures refused { IfErr result (IsUncheckedReference tokens.now) }
{
    match read_tree(alloc, tokens) {
        Ok(tree) => read_checked(alloc, tokens, &tree),
        Err(fault) => Err(fault),
    }
}

/// The program that the bytes are, or why they are none: the lexer is asked first, then the parser, then the check.
pub(crate) fn read_program(alloc: Global, bytes: &[u8]) -> Result<Program, RefFault>
    requires { length bytes.now ≤ source_bytes }
    ensures found { IfOk result (IsSourceOf bytes.now) }
    ensures refused { IfErr result (IsUnreadReference bytes.now) }
{
    match read_tokens(alloc, bytes) {
        Ok(tokens) => read_text(alloc, &tokens),
        Err(fault) => Err(fault),
    }
}
