//! From the bytes of a source to the tables of its declarations.

ghost use Rattle.std.specs.Prelude.{◌≤◌, IfErr, IfOk, length};
ghost use Rattle.pas_lexer.specs.Limits.{source_bytes};
ghost use Rattle.code_checker.specs.Declarations.{IsDeclared, IsDeclaredBy, IsTextOf, IsUndeclared, IsUndeclaredBy};

use crate::places::place_of;
use check_steps::CheckFault;
use decl_checker::{Scopes, declare};
use pas_lexer::{LexFault, Tokens, lex};
use pas_parser::{ParseFault, parse};
use pas_tree::blocks::Tree;
use std::alloc::Global;
use thiserror::Error;

/// Why a source gives no tables of its declarations.
#[derive(Debug, Drop, Error)]
pub enum DeclarationFault {
    /// A piece of it does not fit, or memory ran out.
    #[error("{0}")]
    Lexis(LexFault),
    /// Its tokens are not the text of a program, or memory ran out.
    #[error("{0}")]
    Grammar(ParseFault),
    /// A static rule is broken that can be told from declarations and names alone, and it is the first of these. The
    /// line is counted from 1, the byte from 0.
    #[error("rule {rule} is broken at line {line}, byte {byte}")]
    Rule { rule: u32, line: u32, byte: u32 },
    /// Memory ran out in the check.
    #[error("out of memory")]
    Memory,
}

/// The tables of the declarations of the one tree of the tokens.
fn declare_tree(alloc: Global, tokens: &Tokens, tree: &Tree) -> Result<Scopes, DeclarationFault>
    requires text { IsTextOf tokens.now tree.now }
    ensures found { IfOk result (IsDeclaredBy tokens.now tree.now) }
    ensures refused { IfErr result (IsUndeclaredBy tokens.now tree.now) }
{
    match declare(alloc, tokens, tree) {
        Ok(scopes) => Ok(scopes),
        Err(CheckFault::Rule(rule, token)) => {
            let (line, byte) = place_of(tokens, token);
            Err(DeclarationFault::Rule { rule, line, byte })
        }
        // What is too big is never told of declarations.
        Err(CheckFault::TooBig(_)) => unreachable!(),
        Err(CheckFault::Memory) => Err(DeclarationFault::Memory),
    }
}

/// The tables of the declarations of a source, or what is wrong first. The rules are those that can be told from
/// declarations and names alone.
pub fn declare_source(alloc: Global, source: &[u8]) -> Result<Scopes, DeclarationFault>
    requires { length source.now ≤ source_bytes }
    ensures found { IfOk result (IsDeclared source.now) }
    ensures refused { IfErr result (IsUndeclared source.now) }
{
    let tokens = match lex(alloc, source) {
        Ok(tokens) => tokens,
        Err(fault) => return Err(DeclarationFault::Lexis(fault)),
    };
    let tree = match parse(alloc, &tokens) {
        Ok(tree) => tree,
        Err(fault) => return Err(DeclarationFault::Grammar(fault)),
    };
    declare_tree(alloc, &tokens, &tree)
}
