//! Where statements begin.

ghost use Rattle.std.specs.Prelude.{◌≡◌};
ghost use Rattle.pas_tree.specs.StatementPlaces.{first_of_plain, first_of_statement};
ghost use Rattle.pas_tree.specs.StatementTrees.{plain_tree, statement_tree};

use crate::statements::{Plain, Statement};

/// The first token of a statement without its label, and None of an empty one.
#[tactic(auto, using(crate::proofs::StatementViews::statement_views))]
pub fn first_of_plain(plain: &Plain) -> Option<u32>
    ensures { result ≡ first_of_plain (plain_tree plain.now) }
{
    match plain {
        Plain::Empty => None,
        Plain::Assignment(assignment) => Some(assignment.target.name),
        Plain::Call(name, _) => Some(*name),
        Plain::Goto(word, _) => Some(*word),
        Plain::Compound(compound) => Some(compound.begin),
        Plain::If(statement) => Some(statement.word),
        Plain::Case(statement) => Some(statement.word),
        Plain::Repeat(statement) => Some(statement.word),
        Plain::While(statement) => Some(statement.word),
        Plain::For(statement) => Some(statement.word),
        Plain::With(statement) => Some(statement.word),
    }
}

/// The first token of a statement, its label counting, and None of an empty one without label.
pub fn first_of_statement(statement: &Statement) -> Option<u32>
    ensures { result ≡ first_of_statement (statement_tree statement.now) }
{
    match &statement.label {
        Some(label) => Some(label.number),
        None => first_of_plain(&statement.plain),
    }
}
