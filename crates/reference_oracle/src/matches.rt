//! The variables that both programs have.

ghost use Rattle.std.specs.Prelude.{◌++◌, ◌≡◌, IfOk, OnOk, map, option_to_list};
ghost use Rattle.core_program.specs.ProgramRows.{row_at};
ghost use Rattle.reference_oracle.specs.{PairsKept.ArePairs, Shapes.programs};
ghost use Rattle.reference_oracle.specs.Matches.{block_variable_in, block_variables, match_with, matches, turned};

use crate::names::{by_name, namesake};
use crate::pairs::Pairs;
use cell_value::Memory;
use core_program::Program;
use core_program::rows::{Mode, NameRow, Row};
use std::alloc::{AllocError, Global};

/// A variable of a program block.
#[derive(Clone, Copy)]
pub struct BlockVariable {
    /// The token of its name.
    pub token: u32,
    /// The number of its type.
    pub kind: u32,
    /// The address of its first cell.
    pub address: u32,
}

/// Two variables that match: where each begins, and how many cells they have.
#[derive(Clone, Copy)]
pub struct Match {
    pub subject: u32,
    pub reference: u32,
    pub cells: u32,
}

/// The variable of the program block whose name stands at a token, if one does.
fn block_variable_at(program: &Program, token: u32) -> Option<BlockVariable>
    ensures { result ≡ block_variable_in token (row_at program.now token) }
{
    match program.row(token) {
        Row::Name(
            NameRow::Variable {
                mode: Mode::Own,
                of,
                place,
                level,
            },
        ) => {
            if level == 0 {
                Some(BlockVariable {
                    token,
                    kind: of,
                    address: place,
                })
            } else {
                None
            }
        }
        _ => None,
    }
}

/// Puts a variable at the end of a list, if there is one.
fn put(variables: &mut Vec<BlockVariable>, found: Option<BlockVariable>) -> Result<(), Memory>
    ensures { OnOk result (variables.new.items ≡ variables.old.items ++ option_to_list found) }
{
    match found {
        None => Ok(()),
        Some(variable) => {
            variables.push(variable)?;
            Ok(())
        }
    }
}

/// The variables of the program block, in order. A row that has no number of 32 bits counts as out of memory.
fn block_variables(alloc: Global, program: &Program) -> Result<Vec<BlockVariable>, Memory>
    ensures { IfOk result (λ v. v.items ≡ block_variables program.now) }
{
    let Ok(rows) = u32::try_from(program.rows()) else {
        return Err(AllocError);
    };
    let mut variables = Vec::new(alloc);
    'tokens: for token in 0..rows {
        put(&mut variables, block_variable_at(program, token))?;
    }
    Ok(variables)
}

/// Two variables of one name, if they are of one shape.
fn match_of(
    alloc: Global,
    subject: &Program,
    reference: &Program,
    pairs: &mut Pairs,
    variable: BlockVariable,
    other: Option<BlockVariable>,
) -> Result<Option<Match>, Memory>
    requires pairs { ArePairs (programs subject.now reference.now) pairs.old }
    ensures found { IfOk result (λ found. found ≡ match_with (programs subject.now reference.now) variable other) }
    ensures pairs { OnOk result (ArePairs (programs subject.now reference.now) pairs.new) }
{
    match other {
        None => Ok(None),
        Some(other) => {
            if pairs.same_shape(alloc, subject, reference, variable.kind, other.kind)? {
                Ok(Some(Match {
                    subject: variable.address,
                    reference: other.address,
                    cells: subject.size_of(variable.kind),
                }))
            } else {
                Ok(None)
            }
        }
    }
}

/// Puts two variables at the end of a list, if they match.
fn put_both(matches: &mut Vec<Match>, both: Option<Match>) -> Result<(), Memory>
    ensures { OnOk result (matches.new.items ≡ matches.old.items ++ option_to_list both) }
{
    match both {
        None => Ok(()),
        Some(both) => {
            matches.push(both)?;
            Ok(())
        }
    }
}

/// The variables of the subject's program block that match those of the reference's of the same name and shape.
pub(crate) fn matches_of(
    alloc: Global,
    subject: &Program,
    reference: &Program,
    pairs: &mut Pairs,
) -> Result<Vec<Match>, Memory>
    requires pairs { ArePairs (programs subject.now reference.now) pairs.old }
    ensures { IfOk result (λ v. v.items ≡ matches (programs subject.now reference.now)) }
{
    let variables = block_variables(alloc, subject)?;
    let others = block_variables(alloc, reference)?;
    let named = by_name(alloc, reference, &others)?;
    let mut found = Vec::new(alloc);
    'variables: for i in 0..variables.len() {
        let variable = variables[i];
        let other = namesake(alloc, subject, &named, variable)?;
        let both = match_of(alloc, subject, reference, pairs, variable, other)?;
        put_both(&mut found, both)?;
    }
    Ok(found)
}

/// The same matches, seen from the reference.
pub(crate) fn turned_matches(alloc: Global, matches: &[Match]) -> Result<Vec<Match>, Memory>
    ensures { IfOk result (λ v. v.items ≡ map turned matches.now) }
{
    let mut turned = Vec::new(alloc);
    'each: for i in 0..matches.len() {
        let both = matches[i];
        turned.push(Match {
            subject: both.reference,
            reference: both.subject,
            cells: both.cells,
        })?;
    }
    Ok(turned)
}
