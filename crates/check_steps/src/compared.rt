//! The program as far as it is known, and which of its headings were compared.

ghost use Rattle.std.specs.Prelude.{◌++◌, ◌∷◌, ◌≡◌, [], IfOk, IfSome, OnOk, Some, false, length};
ghost use Rattle.core_program.specs.ProgramRows.{blank_tables, row_at, type_at, with_routine, with_row};
ghost use Rattle.core_program.specs.declared.rows.Row.{Row};
ghost use Rattle.check_steps.specs.{Compared.seen, Headings.congruous};

use crate::headings::congruous;
use core_program::rows::{ItemRow, NameRow, PartRow, Row, TypeRow};
use core_program::{ProgramTables, Routine};
use indexmap::IndexMap;
use std::alloc::{AllocError, Global};
use std::marker::Model;

/// The program as far as it is known. Beside it stands which headings were compared and what came of it, since a
/// routine may be passed again and again: an answer stays until a row is put that it may have been read from.
#[derive(Drop)]
pub(crate) struct Compared {
    alloc: Global,
    program: ProgramTables,
    /// By two headings, whether they are congruous.
    answers: IndexMap<(u32, u32), bool>,
    /// The most sections of a list in these answers.
    most: u32,
}

impl Model for Compared {
    ghost use Rattle.core_program.specs.ProgramRows.{ProgramRows};
    ghost use Rattle.check_steps.specs.Compared.{AreAnswers};

    ghost Value = { ProgramRows };

    ghost view = { λ c. c.program };

    ghost invariant = { λ c. AreAnswers c.most c.program c.answers.entries };
}

/// Whether a row tells of types, parameters or headings.
fn is_seen(row: Row) -> bool
    ensures { result ≡ false → seen row ≡ Row.Nothing }
{
    match row {
        Row::Type(_) => true,
        Row::Name(NameRow::Variable { .. }) => true,
        Row::Part(PartRow::Heading { .. }) => true,
        Row::Item(ItemRow::Section { .. }) => true,
        Row::Item(ItemRow::RoutineSection { .. }) => true,
        _ => false,
    }
}

impl Compared {
    /// A program of which only the texts of its tokens are known.
    pub(crate) fn new(alloc: Global, program: ProgramTables) -> Self
        ensures { result ≡ program }
    {
        Compared {
            alloc,
            program,
            answers: IndexMap::new(alloc),
            most: 0,
        }
    }

    /// What stands at a number.
    pub(crate) fn row(&self, number: u32) -> Row
        ensures { result ≡ row_at self.now number }
    {
        self.program.row(number)
    }

    /// The type of a number, and None where a broken rule leaves it unknown.
    pub(crate) fn type_row(&self, number: u32) -> Option<TypeRow>
        ensures { result ≡ type_at self.now number }
    {
        self.program.type_row(number)
    }

    /// The program alone.
    pub(crate) fn program(&self) -> &ProgramTables
        ensures { result.now ≡ self.now }
    {
        &self.program
    }

    /// Gives up all but the program.
    pub(crate) fn into_program(self) -> ProgramTables
        ensures { result ≡ self }
    {
        self.program
    }

    /// Puts a row at a number, after which no answer is kept.
    fn put_seen(&mut self, number: u32, row: Row)
        ensures { self.new ≡ with_row self.old number row }
    {
        self.answers = IndexMap::new(self.alloc);
        self.program.put(number, row);
    }

    /// Puts a row that tells nothing of headings in the place of another such.
    fn put_unseen(&mut self, number: u32, row: Row)
        requires old { seen (row_at self.old number) ≡ Row.Nothing }
        requires new { seen row ≡ Row.Nothing }
        ensures { self.new ≡ with_row self.old number row }
    {
        self.program.put(number, row);
    }

    /// Puts a row at a number.
    pub(crate) fn put(&mut self, number: u32, row: Row)
        ensures { self.new ≡ with_row self.old number row }
    {
        if is_seen(self.program.row(number)) || is_seen(row) {
            self.put_seen(number, row);
        } else {
            self.put_unseen(number, row);
        }
    }

    /// Puts a routine at a number.
    pub(crate) fn put_routine(&mut self, number: u32, routine: Routine)
        ensures { self.new ≡ with_routine self.old number routine }
    {
        self.program.put_routine(number, routine);
    }

    /// A new routine after the others, by its number.
    pub(crate) fn add_routine(&mut self, routine: Routine) -> Result<u32, AllocError>
        ensures number { IfOk result (λ n. n ≡ length self.old.routines) }
        ensures added { OnOk result (self.new ≡ record self.old { routines = self.old.routines ++ routine ∷ [] }) }
    {
        self.answers = IndexMap::new(self.alloc);
        let number = self.program.add_routine(routine)?;
        Ok(number)
    }

    /// Whether two headings are congruous, if they were compared with lists of as many sections.
    fn known(&self, most: u32, left: u32, right: u32) -> Option<bool>
        ensures { IfSome result (λ answer. answer ≡ congruous most self.now left right) }
    {
        if self.most == most {
            self.answers.get(&(left, right)).copied()
        } else {
            None
        }
    }

    /// Answers are kept for lists of at most this many sections from now on.
    fn keep_for(&mut self, most: u32)
        ensures { self.new ≡ self.old }
    {
        if self.most != most {
            self.answers = IndexMap::new(self.alloc);
            self.most = most;
        }
    }

    /// Keeps whether two headings are congruous, if answers are kept for such lists and there is memory.
    fn keep(&mut self, most: u32, left: u32, right: u32, answer: bool)
        requires { answer ≡ congruous most self.old left right }
        ensures { self.new ≡ self.old }
    {
        if self.most == most {
            match self.answers.insert((left, right), answer) {
                Ok(_) => {}
                Err(_) => {}
            }
        }
    }

    /// Whether two headings are of one kind and result type, with congruous lists of at most this many parameter
    /// sections.
    pub(crate) fn congruous(&mut self, most: u32, left: u32, right: u32) -> bool
        ensures answer { result ≡ congruous most self.old left right }
        ensures same { self.new ≡ self.old }
    {
        match self.known(most, left, right) {
            Some(answer) => answer,
            None => {
                let answer = congruous(&self.program, most, left, right);
                self.keep_for(most);
                self.keep(most, left, right, answer);
                answer
            }
        }
    }
}
