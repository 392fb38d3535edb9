//! The tables of a program, which a check fills.

ghost use Rattle.std.specs.Prelude.{◌++◌, ◌∷◌, ◌≡◌, [], IfOk, OnOk, is_some, length, map, slice_get};
ghost use Rattle.core_program.specs.ProgramRows.{blank_tables, frame_of, name_of, offset_of, routine_at, row_at};
ghost use Rattle.core_program.specs.ProgramRows.{size_of, text_at, type_at, with_routine, with_row};

use crate::program::Routine;
use crate::rows::{NameRow, Row, TypeRow};
use std::alloc::{AllocError, Global};
use std::marker::Model;

/// The tables of a program, as they are made.
#[derive(Drop)]
pub struct ProgramTables {
    rows: Vec<Row>,
    routines: Vec<Routine>,
    texts: Vec<Vec<u8>>,
}

impl Model for ProgramTables {
    ghost use Rattle.std.specs.Prelude.{◌<◌, ◌^◌, map, vec_len};
    ghost use Rattle.core_program.specs.ProgramRows.{ProgramRows};

    ghost Value = { ProgramRows };

    ghost view = { λ p. record {
      rows = p.rows.items;
      routines = p.routines.items;
      texts = map (λ v. v.items) p.texts.items;
    } };

    ghost invariant = { λ p. vec_len p.routines < 2 ^ 32 };
}

impl ProgramTables {
    /// A program of which nothing is known yet but the texts of its tokens: of a name as it is written, of a string
    /// its characters. It has as many rows as `rows`.
    pub fn new(alloc: Global, rows: usize, texts: Vec<Vec<u8>>) -> Result<Self, AllocError>
        ensures { IfOk result (λ p. p ≡ blank_tables rows (map (λ v. v.items) texts.items)) }
    {
        let rows = vec![in alloc; Row::Nothing; rows]?;
        Ok(ProgramTables {
            rows,
            routines: Vec::new(alloc),
            texts,
        })
    }

    /// How many rows there are.
    pub fn rows(&self) -> usize
        ensures { result ≡ length self.now.rows }
    {
        self.rows.len()
    }

    /// What stands at a number.
    pub fn row(&self, number: u32) -> Row
        ensures { result ≡ row_at self.now number }
    {
        match self.rows.get(number as usize) {
            Some(row) => *row,
            None => Row::Nothing,
        }
    }

    /// The type of a number, if one stands there.
    pub fn type_row(&self, number: u32) -> Option<TypeRow>
        ensures { result ≡ type_at self.now number }
    {
        match self.row(number) {
            Row::Type(row) => Some(row),
            _ => None,
        }
    }

    /// The routine of a number.
    pub fn routine(&self, number: u32) -> Option<Routine>
        ensures { result ≡ routine_at self.now number }
    {
        self.routines.get(number as usize).copied()
    }

    /// How many routines there are.
    pub fn routines(&self) -> u32
        ensures { result ≡ length self.now.routines }
    {
        self.routines.len() as u32
    }

    /// The text of a token, and nothing where it is neither a name nor a string.
    pub fn text(&self, token: u32) -> &[u8]
        ensures { result.now ≡ text_at self.now token }
    {
        match self.texts.get(token as usize) {
            Some(text) => text,
            None => &[],
        }
    }

    /// Whether a token has a text.
    pub fn has_text(&self, token: u32) -> bool
        ensures { result ≡ is_some (slice_get self.now.texts token) }
    {
        (token as usize) < self.texts.len()
    }

    /// The name of a routine, as its first heading spells it.
    pub fn name(&self, routine: u32) -> &[u8]
        ensures { result.now ≡ name_of self.now routine }
    {
        match self.routine(routine) {
            Some(routine) => self.text(routine.name),
            None => &[],
        }
    }

    /// The cells of a routine's frame, the link included; 524,289 stands for more than 524,288.
    pub fn frame(&self, routine: u32) -> u32
        ensures { result ≡ frame_of self.now routine }
    {
        match self.routine(routine) {
            Some(routine) => routine.cells,
            None => 0,
        }
    }

    /// The cells of a variable of a type; 65,537 stands for more than 65,536.
    pub fn size_of(&self, kind: u32) -> u32
        ensures { result ≡ size_of self.now kind }
    {
        match self.type_row(kind) {
            Some(TypeRow::Array { cells, .. }) => cells,
            Some(TypeRow::Record { cells, .. }) => cells,
            Some(_) => 1,
            None => 0,
        }
    }

    /// Where a field's cells begin in a record; 65,537 stands for more than 65,536.
    pub fn offset_of(&self, _kind: u32, field: u32) -> u32
        ensures { result ≡ offset_of self.now field }
    {
        match self.row(field) {
            Row::Name(NameRow::Field { offset, .. }) => offset,
            Row::Name(NameRow::Tag { offset, .. }) => offset,
            _ => 0,
        }
    }

    /// Puts a row at a number. There is nothing to be done where the table has no such number.
    pub fn put(&mut self, number: u32, row: Row)
        ensures { self.new ≡ with_row self.old number row }
    {
        let number = number as usize;
        if number < self.rows.len() {
            self.rows[number] = row;
        }
    }

    /// A new routine after the others, by its number. Of 4,294,967,295 routines there is none after the last, which
    /// counts as out of memory.
    pub fn add_routine(&mut self, routine: Routine) -> Result<u32, AllocError>
        ensures number { IfOk result (λ n. n ≡ length self.old.routines) }
        ensures added { OnOk result (self.new ≡ record self.old { routines = self.old.routines ++ routine ∷ [] }) }
    {
        let number = self.routines.len();
        if number >= u32::MAX as usize {
            return Err(AllocError);
        }
        self.routines.push(routine)?;
        Ok(number as u32)
    }

    /// Puts a routine at a number, if there is one.
    pub fn put_routine(&mut self, number: u32, routine: Routine)
        ensures { self.new ≡ with_routine self.old number routine }
    {
        let number = number as usize;
        if number < self.routines.len() {
            self.routines[number] = routine;
        }
    }
}
