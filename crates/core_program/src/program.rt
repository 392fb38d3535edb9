//! A program.

ghost use Rattle.std.specs.Prelude.{◌<◌, ◌≡◌, IfOk, Some, length};
ghost use Rattle.core_program.specs.{Choices.choice_of, Headings.lists_match, Headings.signature_at};
ghost use Rattle.core_program.specs.{ProgramRows.type_at, Statements.labelled_in, WholeTables.WholeTables};
ghost use Rattle.core_program.specs.ProgramRows.{frame_of, name_of, offset_of, routine_at, row_at, size_of, text_at};

use crate::classes::{class_at, classes_of};
use crate::headings::{Signature, signature_at};
use crate::long_lists::LongLists;
use crate::rows::{LIST_END, Row, TypeRow};
use crate::search::ListKind;
use crate::tables::ProgramTables;
use std::alloc::{AllocError, Global};
use std::marker::Model;

/// A routine. Routine 0 is the program block, the others are numbered in the order of their first headings.
#[derive(Clone, Copy)]
pub struct Routine {
    /// The token that spells its name, in its first heading.
    pub name: u32,
    /// The number of its first heading; of the program block 0.
    pub heading: u32,
    /// How many blocks are around its own.
    pub level: u32,
    /// The cells of its frame: the link, the parameters, the result of a function, and the variables. Copies of
    /// conformant parameters come after them, and are not counted.
    pub cells: u32,
    /// How many of them the link and the parameters have, with the bounds of conformant ones.
    pub parameters: u32,
    /// Of a function, the place of its result in the frame.
    pub result: Option<u32>,
    /// The list of the statements of its statement part.
    pub statements: u32,
    /// The line of the first token of its statement part.
    pub line: u32,
}

/// A program: its tables, which are whole. So each number that a row names is that of a row of the kind that its place
/// takes, lists end where they say, and the program block is there.
#[derive(Drop)]
pub struct Program {
    tables: ProgramTables,
    main: Routine,
    // By number, the class of the list of sections there: the same for two lists exactly if they match.
    classes: Vec<u32>,
    // The long lists of constants, and of statements: what is found in them is what a search along them finds.
    constants: LongLists,
    statements: LongLists,
}

impl Model for Program {
    ghost use Rattle.std.specs.Prelude.{◌≡◌, Some};
    ghost use Rattle.core_program.specs.{Classes.AreClasses, Lists.AreLong, Lists.found_at, WholeTables.WholeTables};
    ghost use Rattle.core_program.specs.ProgramRows.{ProgramRows, routine_at};
    ghost use Rattle.core_program.specs.declared.search.ListKind.{ListKind};

    ghost Value = { ProgramRows };

    ghost view = { λ p. p.tables };

    ghost invariant = { λ p. WholeTables p.tables × (routine_at p.tables 0 ≡ Some p.main)
        × AreClasses p.tables p.classes.items
        × AreLong p.tables ListKind.Constants p.constants.tails.items (found_at p.constants.found)
        × AreLong p.tables ListKind.Statements p.statements.tails.items (found_at p.statements.found) };
}

impl Program {
    /// The program of these tables, which are whole.
    pub fn new(alloc: Global, tables: ProgramTables) -> Result<Self, AllocError>
        requires whole { WholeTables tables }
        ensures { IfOk result (λ p. p ≡ tables) }
    {
        let main = tables.routine(0).unwrap();
        let classes = classes_of(alloc, &tables)?;
        let constants = LongLists::new(alloc, &tables, ListKind::Constants)?;
        let statements = LongLists::new(alloc, &tables, ListKind::Statements)?;
        Ok(Program {
            tables,
            main,
            classes,
            constants,
            statements,
        })
    }

    /// Its tables are whole, and the program block is there. The call does nothing.
    #[tactic(auto, using(crate::proofs::MainStands::block_there))]
    pub fn is_whole(&self)
        ensures whole { WholeTables self.now }
        ensures block { 0 < length self.now.routines }
    {
        let _ = &self.tables;
    }

    /// The routine that is the program block.
    pub fn main(&self) -> Routine
        ensures { routine_at self.now 0 ≡ Some result }
    {
        self.main
    }

    /// How many rows there are.
    pub fn rows(&self) -> usize
        ensures { result ≡ length self.now.rows }
    {
        self.tables.rows()
    }

    /// What stands at a number.
    pub fn row(&self, number: u32) -> Row
        ensures { result ≡ row_at self.now number }
    {
        self.tables.row(number)
    }

    /// The type of a number, if one stands there.
    pub fn type_row(&self, number: u32) -> Option<TypeRow>
        ensures { result ≡ type_at self.now number }
    {
        self.tables.type_row(number)
    }

    /// The routine of a number.
    pub fn routine(&self, number: u32) -> Option<Routine>
        ensures { result ≡ routine_at self.now number }
    {
        self.tables.routine(number)
    }

    /// The parameters and the result of a heading, by its number.
    pub(crate) fn signature(&self, heading: u32) -> Option<Signature>
        ensures { result ≡ signature_at self.now heading }
    {
        signature_at(&self.tables, heading)
    }

    /// Whether two lists of sections match.
    pub(crate) fn lists_match(&self, left: u32, right: u32) -> bool
        ensures { result ≡ lists_match (length self.now.rows) self.now left right }
    {
        class_at(&self.classes, left) == class_at(&self.classes, right)
    }

    /// What a constant of this value chooses, if it chooses something, in a list of constants: a statement of a case
    /// statement (6.8.3.5), or a variant of a variant part (6.4.3.3). There is no answer where the list does not end as
    /// it says.
    #[inline(always)]
    #[tactic(auto, using(crate::proofs::ItemsInOrder::found))]
    pub fn choice_of(&self, choices: u32, value: i64) -> Option<Option<u32>>
        ensures { result ≡ choice_of self.now (length self.now.rows) choices value }
    {
        if choices == LIST_END {
            Some(None)
        } else {
            self.constants
                .find(&self.tables, ListKind::Constants, choices, value)
        }
    }

    /// The item of the statement that has a label, if one has it, in a sequence (6.8.1). Each item stands after the one
    /// before it. There is no answer where the list does not end as it says.
    #[tactic(auto, using(crate::proofs::ItemsInOrder::found))]
    pub fn labelled_in(&self, first: u32, label: u32) -> Option<Option<u32>>
        ensures { result ≡ labelled_in self.now (length self.now.rows) first label }
    {
        if first == LIST_END {
            Some(None)
        } else {
            self.statements.find(&self.tables, ListKind::Statements, first, i64::from(label))
        }
    }

    /// How many routines there are.
    pub fn routines(&self) -> u32
        ensures { result ≡ length self.now.routines }
    {
        self.tables.routines()
    }

    /// The text of a token, and nothing where it is neither a name nor a string.
    pub fn text(&self, token: u32) -> &[u8]
        ensures { result.now ≡ text_at self.now token }
    {
        self.tables.text(token)
    }

    /// The name of a routine, as its first heading spells it.
    pub fn name(&self, routine: u32) -> &[u8]
        ensures { result.now ≡ name_of self.now routine }
    {
        self.tables.name(routine)
    }

    /// The cells of a routine's frame, the link included; 524,289 stands for more than 524,288.
    pub fn frame(&self, routine: u32) -> u32
        ensures { result ≡ frame_of self.now routine }
    {
        self.tables.frame(routine)
    }

    /// The cells of a variable of a type; 65,537 stands for more than 65,536.
    pub fn size_of(&self, kind: u32) -> u32
        ensures { result ≡ size_of self.now kind }
    {
        self.tables.size_of(kind)
    }

    /// Where a field's cells begin in a record; 65,537 stands for more than 65,536.
    pub fn offset_of(&self, kind: u32, field: u32) -> u32
        ensures { result ≡ offset_of self.now field }
    {
        self.tables.offset_of(kind, field)
    }
}
