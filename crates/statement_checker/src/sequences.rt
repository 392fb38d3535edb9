//! The rows of statements, their lines, and lists of statements and of accesses.

ghost use Rattle.std.specs.Prelude.{◌≡◌};
ghost use Rattle.check_steps.specs.Steps.{Does};
ghost use Rattle.statement_checker.specs.Sequences.{add_element, compound_row, empty, first_token, if_else_row, if_row};
ghost use Rattle.statement_checker.specs.Sequences.{line_of, link_element, repeat_row, stated, while_row};

use check_steps::{Tables, Work};
use core_program::rows::{ItemRow, LIST_END, Row, StatementRow};

/// An element of a list of which it is not yet known where the next one stands.
#[derive(Clone, Copy)]
pub struct Element {
    /// Where it stands.
    pub slot: u32,
    /// The number of the statement or the access.
    pub item: u32,
}

/// An if statement of which the else part is not yet checked.
#[derive(Clone, Copy)]
pub struct Branching {
    pub label: Option<u32>,
    pub word: u32,
    pub condition: u32,
    pub then: u32,
}

fn first_token(label: Option<u32>, word: u32) -> u32
    ensures { result ≡ first_token label word }
{
    match label {
        None => word,
        Some(label) => label,
    }
}

/// The line of a statement that begins with a word, or before it with a label.
pub fn line_of(tables: &Tables, label: Option<u32>, word: u32) -> u32
    ensures { result ≡ line_of tables.now label word }
{
    tables.line(first_token(label, word))
}

/// Puts the row of a statement at its number, which is given.
#[tactic(auto, using(check_steps::proofs::Runs::steps), unfolding(crate::specs::Sequences::stated))]
pub fn put_statement(work: &mut Work, number: u32, row: StatementRow) -> u32
    ensures { Does (stated number row) result work.old work.new }
{
    work.put(number, Row::Statement(row));
    number
}

/// An empty statement, by the number that all of them have.
#[tactic(auto, using(check_steps::proofs::Runs::steps), unfolding(crate::specs::Sequences::empty))]
pub fn put_empty(work: &mut Work) -> u32
    ensures { Does empty result work.old work.new }
{
    let last = work.tables.tokens().saturating_sub(1);
    put_statement(work, last, StatementRow::Empty)
}

/// A compound statement, at its `end`, with the list of its statements up to the last one.
#[tactic(auto, using(check_steps::proofs::Runs::steps), unfolding(crate::specs::Sequences::compound_row))]
pub fn put_compound(work: &mut Work, statements: u32, last: Element, end: u32) -> u32
    ensures { Does (compound_row statements last end) result work.old work.new }
{
    link_element(work, last, LIST_END);
    put_statement(work, end, StatementRow::Compound { statements })
}

/// An if statement without else part, at its word.
#[tactic(auto, using(check_steps::proofs::Runs::steps), unfolding(crate::specs::Sequences::if_row))]
pub fn put_if(work: &mut Work, branching: Branching) -> u32
    ensures { Does (if_row branching) result work.old work.new }
{
    let line = line_of(&work.tables, branching.label, branching.word);
    let row = StatementRow::If {
        line,
        condition: branching.condition,
        then: branching.then,
    };
    put_statement(work, branching.word, row)
}

/// An if statement with an else part, at its word.
#[tactic(auto, using(check_steps::proofs::Runs::steps), unfolding(crate::specs::Sequences::if_else_row))]
pub fn put_if_else(work: &mut Work, branching: Branching, otherwise: u32) -> u32
    ensures { Does (if_else_row branching otherwise) result work.old work.new }
{
    let line = line_of(&work.tables, branching.label, branching.word);
    let row = StatementRow::IfElse {
        line,
        condition: branching.condition,
        then: branching.then,
        otherwise,
    };
    put_statement(work, branching.word, row)
}

/// A repeat statement, at its `until`. Its statements are a list at its word.
#[tactic(auto, using(check_steps::proofs::Runs::steps), unfolding(crate::specs::Sequences::repeat_row))]
pub fn put_repeat(work: &mut Work, label: Option<u32>, word: u32, until: u32, condition: u32) -> u32
    ensures { Does (repeat_row label word until condition) result work.old work.new }
{
    let line = line_of(&work.tables, label, word);
    let row = StatementRow::Repeat {
        line,
        statements: word,
        condition,
    };
    put_statement(work, until, row)
}

/// A while statement, at its word.
#[tactic(auto, using(check_steps::proofs::Runs::steps), unfolding(crate::specs::Sequences::while_row))]
pub fn put_while(work: &mut Work, label: Option<u32>, word: u32, condition: u32, body: u32) -> u32
    ensures { Does (while_row label word condition body) result work.old work.new }
{
    let line = line_of(&work.tables, label, word);
    let row = StatementRow::While {
        line,
        condition,
        body,
    };
    put_statement(work, word, row)
}

/// The last element of a list, which goes on at a number; at `LIST_END` it ends.
#[tactic(auto, using(check_steps::proofs::Runs::steps), unfolding(crate::specs::Sequences::link_element))]
pub fn link_element(work: &mut Work, last: Element, next: u32)
    ensures { Does (link_element last next) tt work.old work.new }
{
    let row = ItemRow::Element {
        item: last.item,
        next,
    };
    work.put(last.slot, Row::Item(row));
}

/// One more element of a list, at a slot.
#[tactic(auto, using(check_steps::proofs::Runs::steps), unfolding(crate::specs::Sequences::add_element))]
pub fn add_element(work: &mut Work, last: Element, slot: u32, item: u32) -> Element
    ensures { Does (add_element last slot item) result work.old work.new }
{
    link_element(work, last, slot);
    Element { slot, item }
}
